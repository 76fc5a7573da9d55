//! The report of a value that is not valid.
ghost use Rattle.std.specs.Prelude.{◌≡◌, IfOk, OnOk};
ghost use Rattle.std.specs.Str.{chars};
ghost use Rattle.tinyjson.specs.Tree.{put};
ghost use Rattle.tinyjson.specs.View.{view, members_view};
ghost use Rattle.tinyjson_schema_report.specs.Report.{report_tree, place_tree, with_line};

use crate::found::Finding;
use std::alloc::{AllocError, Global};
use std::collections::HashMap;
use tinyjson::{JsonNumber, JsonValue};
use tinyjson_pointer::{Pointer, put_member};

/// An output unit (Core, 12.4.2): what was wanted and what the value is, the place in the schema, and the place in
/// the value; with the number of the value's line if it has one. The only error is out of memory.
///
/// ```
/// let report = output_unit(alloc, Some(2), &finding)?;
/// ```
pub fn output_unit(
    alloc: Global,
    line: Option<u64>,
    finding: &Finding,
) -> Result<JsonValue, AllocError>
    ensures { IfOk result (λ unit. view unit ≡ report_tree line finding.now) }
{
    let mut members = HashMap::new(alloc);
    let error = String::from_str(alloc, finding.words.as_str())?;
    put_member(&mut members, "error", JsonValue::String(error), alloc)?;
    put_place(
        alloc,
        &mut members,
        "instanceLocation",
        &finding.violation.instance_location,
    )?;
    put_place(
        alloc,
        &mut members,
        "keywordLocation",
        &finding.violation.keyword_location,
    )?;
    put_line(alloc, &mut members, line)?;
    put_member(&mut members, "valid", JsonValue::Boolean(false), alloc)?;
    Ok(JsonValue::Object(members))
}

fn put_line(
    alloc: Global,
    members: &mut HashMap<String, JsonValue>,
    line: Option<u64>,
) -> Result<(), AllocError>
    ensures { OnOk result (members_view members.new.entries
        ≡ with_line line (members_view members.old.entries)) }
{
    match line {
        Some(number) => {
            let number = JsonNumber::from_u64(alloc, number)?;
            put_member(members, "line", JsonValue::Number(number), alloc)
        }
        None => Ok(()),
    }
}

fn put_place(
    alloc: Global,
    members: &mut HashMap<String, JsonValue>,
    key: &str,
    place: &Pointer,
) -> Result<(), AllocError>
    ensures { OnOk result (members_view members.new.entries
        ≡ put (chars key.now) (place_tree place.now) (members_view members.old.entries)) }
{
    let text = place.to_string(alloc)?;
    put_member(members, key, JsonValue::String(text), alloc)
}
