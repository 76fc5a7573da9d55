//! A file that is replaced.
ghost use Rattle.std.specs.Prelude.{◌≡◌, IfErr};
ghost use Rattle.tinyjson_cli.specs.Failures.{failure_status};
ghost use Rattle.tinyjson_cli.specs.declared.status.Status.{Status};

use crate::failure::Failure;
use crate::shown::Shown;
use std::alloc::Global;
use std::fs::{self, OpenOptions};
use std::io::{self, ErrorKind, Write};

/// Gives a file these bytes as its content. They are written to a file beside it, with its permissions, which then takes
/// its name: so the file has its old content or the new one, also where the program is killed. The name of that file is
/// `FILE.PROGRAM`; where it is taken, or the file is read-only, the failure says so, and nothing has changed. A symbolic
/// link stays one, and the file that it leads to is replaced.
///
/// ```
/// replace(rt, "json_format", "settings.json", b"{}\n")? // writes settings.json.json_format, and renames it
/// ```
pub fn replace(rt: &HostRuntime, program: &str, name: &str, bytes: &[u8]) -> Result<(), Failure>
    ensures { IfErr result (λ f. failure_status f ≡ Status.Failed) }
{
    match replaced(rt, program, name, bytes) {
        Ok(()) => Ok(()),
        Err(error) => Err(failure(rt.alloc(), name, error)),
    }
}

/// The failure for a file that is not replaced. It names the file.
fn failure(alloc: Global, name: &str, error: io::Error) -> Failure
    ensures { failure_status result ≡ Status.Failed }
{
    match format!(in alloc; "{}: not written: {error}", Shown(name)) {
        Ok(words) => Failure::Failed(words),
        Err(_) => Failure::OutOfMemory,
    }
}

fn replaced(rt: &HostRuntime, program: &str, name: &str, bytes: &[u8]) -> io::Result<()> {
    let path = fs::canonicalize(rt, name)?;
    let path = path.as_str();
    let metadata = fs::metadata(rt, path)?;
    if !metadata.is_file() {
        return Err(io::Error::new(ErrorKind::InvalidInput, "it is no regular file"));
    }
    let permissions = metadata.permissions();
    if permissions.readonly() {
        return Err(io::Error::new(ErrorKind::PermissionDenied, "it is read-only"));
    }
    let beside = format!(in rt.alloc(); "{path}.{program}")?;
    let mut file = OpenOptions::new()
        .write(true)
        .create_new(true)
        .open(rt, beside.as_str())?;
    let written = write_synced(&mut file, permissions, bytes);
    let done = match written {
        Ok(()) => fs::rename(rt, beside.as_str(), path),
        Err(error) => Err(error),
    };
    if done.is_err() {
        let _ = fs::remove_file(rt, beside.as_str());
    }
    done
}

/// Writes the bytes of a new file, and its permissions.
fn write_synced(file: &mut fs::File, permissions: fs::Permissions, bytes: &[u8]) -> io::Result<()> {
    file.set_permissions(permissions)?;
    file.write_all(bytes)?;
    file.sync_all()
}
