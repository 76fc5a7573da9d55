//! The files below a folder.
ghost use Rattle.std.specs.Prelude.{◌≡◌, string_cmp, IfErr, IfOk, IsSorted};
ghost use Rattle.std.specs.String.{string_bytes};
ghost use Rattle.tinyjson_cli.specs.Ending.{IsOfNamed};
ghost use Rattle.tinyjson_cli.specs.Folders.{join_path};

use crate::failure::Failure;
use crate::input::reading_error;
use crate::shown::Shown;
use std::alloc::{AllocError, Global};
use std::{fs, io};

/// The names of the files `*.json` below a folder, each from there on, in their order. What begins with a dot is left out,
/// and so are folders that symbolic links lead to. It fails with `Misused`, whose words name a folder, or `OutOfMemory`.
///
/// ```
/// for name in &json_files(rt, "schemas")? { .. } // a.json, b/c.json
/// ```
pub fn json_files(rt: &HostRuntime, folder: &str) -> Result<Vec<String>, Failure>
    ensures order { IfOk result (λ names. IsSorted string_cmp names.items) }
    ensures err { IfErr result IsOfNamed }
{
    let alloc = rt.alloc();
    let mut found = Found::new(alloc)?;
    for _ in 0..u64::MAX {
        let Some(inner) = found.folders.pop() else {
            break;
        };
        let path = join_path(alloc, folder, inner.as_str())?;
        if let Err(error) = found.read(rt, path.as_str(), inner.as_str()) {
            return Err(folder_failure(alloc, path.as_str(), error));
        }
    }
    found.files.sort()?;
    Ok(found.files)
}

/// The name of a file below a folder: both, with one `/` between them where both have letters. The only error is out of
/// memory.
///
/// ```
/// let path = join_path(alloc, "a/b", "c.json")?; // a/b/c.json
/// ```
pub fn join_path(alloc: Global, folder: &str, name: &str) -> Result<String, AllocError>
    ensures { IfOk result (λ s. string_bytes s ≡ join_path folder.now name.now) }
{
    let mut path = String::from_str(alloc, folder)?;
    if !folder.is_empty() && !name.is_empty() && !folder.as_bytes().ends_with(b"/") {
        path.push('/')?;
    }
    path.push_str(name)?;
    Ok(path)
}

/// Whether a folder has this name.
pub fn is_folder(rt: &HostRuntime, name: &str) -> bool {
    match fs::metadata(rt, name) {
        Ok(metadata) => metadata.is_dir(),
        Err(_) => false,
    }
}

/// What was found below a folder.
#[derive(Drop)]
struct Found {
    files: Vec<String>,
    /// The folders that are still to be read.
    folders: Vec<String>,
}

impl Found {
    /// Nothing yet: the first folder is to be read, whose name from there on is empty.
    fn new(alloc: Global) -> Result<Found, AllocError> {
        Ok(Found {
            files: Vec::new(alloc),
            folders: vec![in alloc; String::new(alloc)]?,
        })
    }

    /// Adds what is in the folder of this path, which is `inner` from the first folder on.
    fn read(&mut self, rt: &HostRuntime, path: &str, inner: &str) -> io::Result<()> {
        for entry in fs::read_dir(rt, path)? {
            let entry = entry?;
            let name = entry.file_name();
            if name.starts_with('.') {
                continue;
            }
            let inner = join_path(rt.alloc(), inner, name)?;
            if entry.file_type()?.is_dir() {
                self.folders.push(inner)?;
            } else if name.ends_with(".json") && may_be_text(rt, entry.path().as_str()) {
                self.files.push(inner)?;
            }
        }
        Ok(())
    }
}

/// Whether a name is that of a file, or leads to nothing, which reading then reports.
fn may_be_text(rt: &HostRuntime, path: &str) -> bool {
    match fs::metadata(rt, path) {
        Ok(metadata) => metadata.is_file(),
        Err(_) => true,
    }
}

/// The failure for a folder that can't be read.
fn folder_failure(alloc: Global, folder: &str, error: io::Error) -> Failure
    ensures { IsOfNamed result }
{
    let failure = reading_error(error);
    if matches!(failure, Failure::OutOfMemory) {
        return failure;
    }
    match format!(in alloc; "{}: {failure}", Shown(folder)) {
        Ok(words) => Failure::Misused(words),
        Err(_) => Failure::OutOfMemory,
    }
}
