//! The names of formats in a schema that are not known.
ghost use Rattle.std.specs.Prelude.{IfOk, OnOk};
ghost use Rattle.tinyjson.specs.View.{view};
ghost use Rattle.tinyjson_schema_keywords.specs.Subschemas.{seen, all_seen};
ghost use Rattle.tinyjson_schema_keywords.specs.Unknown.{AreWords, Gathers};
ghost use Rattle.tinyjson_schema_assertions.specs.Formats.{unknown_formats, formats_among, format_of};
ghost use Rattle.tinyjson_schema_assertions.specs.Formats.{unknown_in, unknown_name};

use std::alloc::{AllocError, Global};
use std::collections::BTreeSet;
use text_formats::Format;
use tinyjson::JsonValue;
use tinyjson_schema_keywords::{Keyword, SchemaMember, schema_members};

/// The names at `format` that `text_formats` does not have, in the schema and its subschemas: each once, in the order
/// of bytes. They assert nothing. The only error is out of memory.
///
/// It takes stack with the nesting of the schema.
///
/// ```
/// let unknown = unknown_formats(&tree, alloc)?; // of {"format":"color"}: color
/// ```
pub fn unknown_formats(schema: &JsonValue, alloc: Global) -> Result<BTreeSet<String>, AllocError>
    ensures { IfOk result (AreWords (unknown_formats (view schema.now))) }
{
    let members = schema_members(schema, alloc)?;
    formats_among(members.as_slice(), alloc)
}

fn formats_among(
    members: &[SchemaMember<'_>],
    alloc: Global,
) -> Result<BTreeSet<String>, AllocError>
    ensures { IfOk result (AreWords (formats_among (all_seen members.now))) }
{
    let mut names = BTreeSet::new(alloc);
    for member in members {
        gather_format(*member, alloc, &mut names)?;
    }
    Ok(names)
}

/// Inserts the value of `format`, unless it is the name of a format.
fn gather_format(
    member: SchemaMember<'_>,
    alloc: Global,
    names: &mut BTreeSet<String>,
) -> Result<(), AllocError>
    ensures { OnOk result (Gathers (format_of (seen member.entry)) names.old names.new) }
{
    match member.keyword {
        Some(Keyword::Format) => gather_value(member.value, alloc, names),
        _ => Ok(()),
    }
}

fn gather_value(
    value: &JsonValue,
    alloc: Global,
    names: &mut BTreeSet<String>,
) -> Result<(), AllocError>
    ensures { OnOk result (Gathers (unknown_in (view value.now)) names.old names.new) }
{
    match value {
        JsonValue::String(name) => gather_name(name.as_str(), alloc, names),
        _ => Ok(()),
    }
}

fn gather_name(name: &str, alloc: Global, names: &mut BTreeSet<String>) -> Result<(), AllocError>
    ensures { OnOk result (Gathers (unknown_name name.now) names.old names.new) }
{
    if Format::from_name(name).is_some() {
        return Ok(());
    }
    let name = String::from_str(alloc, name)?;
    let Ok(_) = names.insert(name) else {
        return Err(AllocError);
    };
    Ok(())
}
