//! Messages about names in a schema that are not known: of keywords, formats and drafts.
ghost use Rattle.std.specs.Prelude.{◌≡◌, map};
ghost use Rattle.std.specs.Str.{chars};
ghost use Rattle.tinyjson.specs.View.{text};
ghost use Rattle.tinyjson.specs.Written.{WritesPrefix};
ghost use Rattle.json_schema.specs.Told.{told_name, told_names, unknown_as};

use std::alloc::Global;
use std::collections::BTreeSet;
use std::io::{self, Write};
use tinyjson_cli::Shown;
use tinyjson_lines::write_all;

/// What a name in a schema is not.
#[derive(Clone, Copy)]
pub enum Unknown {
    /// A keyword.
    Keyword,
    /// A format that is known.
    Format,
    /// A `$schema` that is known.
    Dialect,
}

/// Writes a line for each of the names, which says what it is not.
pub fn tell_names<E: Write>(
    alloc: Global,
    errors: &mut E,
    names: &BTreeSet<String>,
    unknown: Unknown,
) -> io::Result<()>
    ensures { WritesPrefix (E.contents errors.old) (E.contents errors.new)
        (told_names unknown (map text names.now.keys)) result }
{
    for name in names.iter() {
        tell_name(alloc, errors, name.as_str(), unknown)?;
    }
    Ok(())
}

/// Writes a line which says what the name is not.
pub fn tell_name<E: Write>(
    alloc: Global,
    errors: &mut E,
    name: &str,
    unknown: Unknown,
) -> io::Result<()>
    ensures { WritesPrefix (E.contents errors.old) (E.contents errors.new)
        (told_name unknown (chars name.now)) result }
{
    let what = unknown_as(unknown);
    let line = format!(in alloc; "json_schema: the schema: \"{}\" {what}\n", Shown(name))?;
    write_all(errors, line.as_bytes())
}

fn unknown_as(unknown: Unknown) -> &'static str
    ensures { result.now ≡ unknown_as unknown }
{
    match unknown {
        Unknown::Keyword => "is no keyword",
        Unknown::Format => "is an unknown format",
        Unknown::Dialect => "is an unknown $schema",
    }
}
