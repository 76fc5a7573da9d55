//! Checks a text by a schema (JSON Schema).
ghost use Rattle.std.specs.Prelude.{◌≡◌, ◌++◌, ◌∷◌, [], ℕ, IfOk, MatchResult, OnOk, Option, Some};
ghost use Rattle.std.specs.Str.{chars};
ghost use Rattle.tinyjson.specs.View.{view};
ghost use Rattle.tinyjson_c.specs.Schema.{Decides, DecidesBy, DecidesTree, IsNoSchema, IsSchemaBy, IsSchemaTree, IsUnchecked};
ghost use Rattle.tinyjson_c.specs.Schema.{FindsText, FindsTree, report_text, schema_depth};
ghost use Rattle.tinyjson_c.specs.Schema.{HasPlace, Puts, PutsBytes, schema_status};
ghost use Rattle.tinyjson_c.specs.Schema.{unchecked_place, unchecked_status};
ghost use Rattle.tinyjson_c.specs.Stop.{IsStopped};
ghost use Rattle.tinyjson_document.specs.Document.{tree};
ghost use Rattle.tinyjson_grammar.specs.Characters.{line_feed};
ghost use Rattle.tinyjson_grammar.specs.Grammar.{IsText};
ghost use Rattle.tinyjson_pointer.specs.Tokens.{tokens_of};
ghost use Rattle.tinyjson_schema.specs.Reading.{tree_of};

use crate::buffer::put;
use crate::place::TinyjsonPlace;
use crate::status::{BAD_SCHEMA, INVALID, OK, OUT_OF_MEMORY, SCHEMA_FAULT, STEP_LIMIT};
use crate::stop::{Stop, text_of};
use crate::value::{push_value, read, written};
use std::alloc::{AllocError, Global};
use tinyjson::JsonValue;
use tinyjson_document::{Document, Node};
use tinyjson_pointer::Pointer;
use tinyjson_schema::{CheckError, Schema, SchemaError};
use tinyjson_schema_drafts::{Draft, resource_of};
use tinyjson_schema_report::{Located, find, limits_of, locate, located_unit};

/// How many containers may be nested in a schema and in a text that is checked, whatever the limit of the call:
/// the check takes stack with the nesting.
const SCHEMA_DEPTH: usize = 100;

/// The limit on the depth of a schema and of a text.
pub(crate) fn schema_depth(depth: usize) -> usize
    ensures { result ≡ schema_depth depth }
{
    depth.min(SCHEMA_DEPTH)
}

/// What is known of a text and a schema.
#[derive(Drop)]
pub(crate) enum Verdict {
    /// The value is valid.
    Valid,
    /// It is not valid; the report.
    Invalid(Vec<u8>),
    /// The schema can't be applied; a pointer to the fault.
    Misfit(String),
}

impl Verdict {
    /// Writes the report, or the pointer, to the front of the buffer, if it fits, and returns the status.
    pub(crate) fn put(self, buffer: &mut [u8], place: &mut TinyjsonPlace) -> u32
        ensures { Puts self buffer.old buffer.new place.new result }
    {
        match self {
            Verdict::Valid => {
                *place = TinyjsonPlace::of_length(0, 0);
                OK
            }
            Verdict::Invalid(report) => put_as(INVALID, &report, buffer, place),
            Verdict::Misfit(fault) => put_as(SCHEMA_FAULT, fault.as_bytes(), buffer, place),
        }
    }
}

/// Writes the bytes to the front of the buffer with this status, if they fit.
fn put_as(written: u32, bytes: &[u8], buffer: &mut [u8], place: &mut TinyjsonPlace) -> u32
    ensures { PutsBytes bytes.now written buffer.old buffer.new place.new result }
{
    let status = put(bytes, buffer, place);
    if status == OK { written } else { status }
}

/// Why a text is not checked.
#[derive(Clone, Copy)]
pub(crate) enum Unchecked {
    /// The text is no JSON, or memory ran out.
    Text(Stop),
    /// The schema is no JSON, or memory ran out.
    Schema(Stop),
    /// The check needs more nested schemas than this number; or it is 0, and the check needs too many steps.
    StepLimit(usize),
}

impl Unchecked {
    /// Fills the place, and returns the status.
    pub(crate) fn put(self, text: usize, place: &mut TinyjsonPlace) -> u32
        ensures status { result ≡ unchecked_status self }
        ensures place { place.new ≡ unchecked_place text self }
    {
        match self {
            Unchecked::Text(stop) => stop.put(text, place),
            Unchecked::Schema(stop) => {
                stop.put(1, place);
                schema_status(stop)
            }
            Unchecked::StepLimit(nested) => {
                *place = TinyjsonPlace::of_length(text, nested);
                STEP_LIMIT
            }
        }
    }
}

/// The status for a schema that has no value.
fn schema_status(stop: Stop) -> u32
    ensures { result ≡ schema_status stop }
{
    match stop {
        Stop::OutOfMemory => OUT_OF_MEMORY,
        Stop::Refused(_) | Stop::NotUtf8(_) => BAD_SCHEMA,
    }
}

/// Checks a text by a schema, which is read first.
pub(crate) fn checked(
    alloc: Global,
    text: &[u8],
    schema: &[u8],
    depth: usize,
) -> Result<Verdict, Unchecked>
    ensures { MatchResult result (Decides (Some (schema_depth depth)) text.now schema.now)
        (IsUnchecked (Some (schema_depth depth)) text.now schema.now) }
{
    let tree = match read_schema(alloc, schema, depth) {
        Ok(tree) => tree,
        Err(stop) => return Err(Unchecked::Schema(stop)),
    };
    let verdict = check_by(alloc, &tree, text, depth);
    tree.dismantle();
    verdict
}

/// The value of a schema as one resource in the words of 2020-12, by the draft that its `$schema` names.
pub(crate) fn read_schema(alloc: Global, bytes: &[u8], depth: usize) -> Result<JsonValue, Stop>
    ensures { MatchResult result (λ v. IsSchemaTree (Some (schema_depth depth)) bytes.now (view v))
        (IsStopped (Some (schema_depth depth)) bytes.now) }
{
    let tree = match read(alloc, bytes, schema_depth(depth)) {
        Ok(tree) => tree,
        Err(stop) => return Err(stop),
    };
    match resource_of(tree, Draft::Draft202012, alloc) {
        Ok(whole) => Ok(whole),
        Err(AllocError) => Err(Stop::OutOfMemory),
    }
}

/// Why there is no schema.
#[derive(Drop)]
pub(crate) enum NoSchema {
    /// It can't be applied; a pointer to the fault.
    Misfit(String),
    /// Memory ran out.
    OutOfMemory,
}

/// The tree as a schema.
pub(crate) fn applicable<'s>(alloc: Global, tree: &'s JsonValue) -> Result<Schema<'s>, NoSchema>
    ensures { MatchResult result (IsSchemaBy (view tree.now)) (IsNoSchema (view tree.now)) }
{
    match Schema::read(tree, alloc) {
        Ok(schema) => Ok(schema),
        Err(SchemaError::Refused(place)) => Err(misfit(alloc, &place)),
        Err(SchemaError::PatternLimit(place)) => Err(misfit(alloc, &place)),
        Err(SchemaError::OutOfMemory) => Err(NoSchema::OutOfMemory),
    }
}

/// A schema that can't be applied at this place.
fn misfit(alloc: Global, place: &Pointer) -> NoSchema
    ensures { HasPlace (tokens_of place.now) result }
{
    match place.to_string(alloc) {
        Ok(fault) => NoSchema::Misfit(fault),
        Err(_) => NoSchema::OutOfMemory,
    }
}

/// Checks a text by the tree of a schema.
fn check_by(
    alloc: Global,
    tree: &JsonValue,
    text: &[u8],
    depth: usize,
) -> Result<Verdict, Unchecked>
    ensures { DecidesTree (Some (schema_depth depth)) (view tree.now) text.now result }
{
    match applicable(alloc, tree) {
        Ok(schema) => check(alloc, &schema, text, depth),
        Err(NoSchema::Misfit(fault)) => Ok(Verdict::Misfit(fault)),
        Err(NoSchema::OutOfMemory) => Err(Unchecked::Schema(Stop::OutOfMemory)),
    }
}

/// Checks a text by a schema.
fn check(
    alloc: Global,
    schema: &Schema<'_>,
    text: &[u8],
    depth: usize,
) -> Result<Verdict, Unchecked>
    ensures { DecidesBy (Some (schema_depth depth)) (tree_of schema.now) text.now result }
{
    match found(alloc, schema, text, depth) {
        Ok(None) => Ok(Verdict::Valid),
        Ok(Some(located)) => match report_of(alloc, located.place.line as u64, &located) {
            Ok(report) => Ok(Verdict::Invalid(report)),
            Err(AllocError) => Err(Unchecked::Text(Stop::OutOfMemory)),
        },
        Err(error) => Err(error),
    }
}

/// What a text violates of a schema, and where; `None` if it is valid.
pub(crate) fn found(
    alloc: Global,
    schema: &Schema<'_>,
    bytes: &[u8],
    depth: usize,
) -> Result<Option<Located>, Unchecked>
    ensures { FindsText (Some (schema_depth depth)) (tree_of schema.now) bytes.now result }
{
    let text = match text_of(bytes) {
        Ok(text) => text,
        Err(stop) => return Err(Unchecked::Text(stop)),
    };
    match Document::read_with_depth_limit(alloc, text, schema_depth(depth)) {
        Ok(document) => found_in(alloc, schema, document.root(), text),
        Err(error) => Err(Unchecked::Text(Stop::of(error))),
    }
}

/// The same for the value of a text.
fn found_in(
    alloc: Global,
    schema: &Schema<'_>,
    value: Node<'_>,
    text: &str,
) -> Result<Option<Located>, Unchecked>
    requires { (limit : Option ℕ) × IsText limit (chars text.now) (tree value) }
    ensures { FindsTree (tree_of schema.now) text.now (tree value.entry) result }
{
    let limits = limits_of(text.len());
    match find(schema, value, limits, alloc) {
        Ok(None) => Ok(None),
        Ok(Some(finding)) => match locate(alloc, text, finding) {
            Ok(located) => Ok(Some(located)),
            Err(AllocError) => Err(Unchecked::Text(Stop::OutOfMemory)),
        },
        Err(CheckError::TooDeep) => Err(Unchecked::StepLimit(limits.nested)),
        Err(CheckError::TooMuch) => Err(Unchecked::StepLimit(0)),
        Err(CheckError::OutOfMemory) => Err(Unchecked::Text(Stop::OutOfMemory)),
    }
}

/// The normal form of a report with this line.
fn report_of(alloc: Global, line: u64, located: &Located) -> Result<Vec<u8>, AllocError>
    ensures { IfOk result (λ report. report.items ≡ report_text line located.now) }
{
    let unit = located_unit(alloc, line, located)?;
    written(alloc, &unit)
}

/// Appends the normal form of a report with this line, and a line feed.
pub(crate) fn push_report(
    alloc: Global,
    line: u64,
    located: &Located,
    reports: &mut Vec<u8>,
) -> Result<(), AllocError>
    ensures { OnOk result (reports.new.items
        ≡ reports.old.items ++ (report_text line located.now ++ line_feed ∷ [])) }
{
    let unit = located_unit(alloc, line, located)?;
    push_value(alloc, &unit, reports)?;
    reports.push(b'\n')?;
    Ok(())
}
