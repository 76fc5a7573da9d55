//! Checks texts that are lines by a schema.
ghost use Rattle.std.specs.Prelude.{◌≡◌, MatchResult, Some};
ghost use Rattle.tinyjson.specs.View.{view};
ghost use Rattle.tinyjson_c.specs.Schema.{schema_depth};
ghost use Rattle.tinyjson_c.specs.SchemaLines.{DecidesLines, DecidesLinesBy, DecidesLinesTree};
ghost use Rattle.tinyjson_c.specs.SchemaLines.{IsUncheckedAt, JudgesLine};
ghost use Rattle.tinyjson_schema.specs.Reading.{tree_of};

use crate::lines::split_line;
use crate::schema::{NoSchema, Unchecked, Verdict, applicable, found, push_report, read_schema};
use crate::stop::Stop;
use std::alloc::{AllocError, Global};
use tinyjson::JsonValue;
use tinyjson_schema::Schema;

/// A line that is not checked: its index from 0, and why.
#[derive(Clone, Copy)]
pub(crate) struct UncheckedLine {
    pub(crate) number: usize,
    pub(crate) error: Unchecked,
}

/// Checks each line by a schema, which is read first. The reports of the lines that are not valid have a line feed
/// each.
pub(crate) fn checked_lines(
    alloc: Global,
    bytes: &[u8],
    schema: &[u8],
    depth: usize,
) -> Result<Verdict, UncheckedLine>
    ensures { MatchResult result (DecidesLines (Some (schema_depth depth)) bytes.now schema.now)
        (λ s. IsUncheckedAt (Some (schema_depth depth)) bytes.now schema.now s.number s.error) }
{
    let tree = match read_schema(alloc, schema, depth) {
        Ok(tree) => tree,
        Err(stop) => return Err(unchecked_schema(stop)),
    };
    let verdict = check_by(alloc, &tree, bytes, depth);
    tree.dismantle();
    verdict
}

/// The schema is no JSON, or memory ran out.
fn unchecked_schema(stop: Stop) -> UncheckedLine
    ensures number { result.number ≡ 0 }
    ensures error { result.error ≡ Unchecked.Schema stop }
{
    UncheckedLine {
        number: 0,
        error: Unchecked::Schema(stop),
    }
}

/// Checks each line by the tree of a schema.
fn check_by(
    alloc: Global,
    tree: &JsonValue,
    bytes: &[u8],
    depth: usize,
) -> Result<Verdict, UncheckedLine>
    ensures { DecidesLinesTree (Some (schema_depth depth)) (view tree.now) bytes.now result }
{
    match applicable(alloc, tree) {
        Ok(schema) => check_lines(alloc, &schema, bytes, depth),
        Err(NoSchema::Misfit(fault)) => Ok(Verdict::Misfit(fault)),
        Err(NoSchema::OutOfMemory) => Err(unchecked_schema(Stop::OutOfMemory)),
    }
}

/// Checks each line by a schema.
fn check_lines(
    alloc: Global,
    schema: &Schema<'_>,
    bytes: &[u8],
    depth: usize,
) -> Result<Verdict, UncheckedLine>
    ensures { DecidesLinesBy (Some (schema_depth depth)) (tree_of schema.now) bytes.now result }
{
    let mut reports = Vec::new(alloc);
    let mut rest = bytes;
    let mut number = 0;
    while !rest.is_empty() {
        let (line, later) = split_line(rest);
        let next = number + 1;
        match push_line(alloc, schema, line, depth, next, &mut reports) {
            Ok(()) => {}
            Err(error) => return Err(UncheckedLine { number, error }),
        }
        rest = later;
        number = next;
    }
    if reports.is_empty() {
        return Ok(Verdict::Valid);
    }
    Ok(Verdict::Invalid(reports))
}

/// Appends the report of the line with this number, from 1, and a line feed, if it is not valid.
fn push_line(
    alloc: Global,
    schema: &Schema<'_>,
    line: &[u8],
    depth: usize,
    number: usize,
    reports: &mut Vec<u8>,
) -> Result<(), Unchecked>
    ensures { JudgesLine (Some (schema_depth depth)) (tree_of schema.now) line.now number
        reports.old.items reports.new.items result }
{
    match found(alloc, schema, line, depth) {
        Ok(None) => Ok(()),
        Ok(Some(located)) => match push_report(alloc, number as u64, &located, reports) {
            Ok(()) => Ok(()),
            Err(AllocError) => Err(Unchecked::Text(Stop::OutOfMemory)),
        },
        Err(error) => Err(error),
    }
}
