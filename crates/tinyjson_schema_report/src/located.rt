//! What a value violates of a schema, with its place in the value's text.
ghost use Rattle.std.specs.List.{All};
ghost use Rattle.std.specs.Prelude.{◌≡◌, ℕ, IfOk, IsSome, Ok, Option, Some, map};
ghost use Rattle.std.specs.Str.{chars};
ghost use Rattle.tinyjson.specs.View.{view};
ghost use Rattle.tinyjson_grammar.specs.Grammar.{IsText};
ghost use Rattle.tinyjson_grammar.specs.Tree.{Tree};
ghost use Rattle.tinyjson_pointer.specs.Tokens.{tokens_of};
ghost use Rattle.tinyjson_pointer.specs.Walk.{part_at};
ghost use Rattle.tinyjson_pointer.specs.Places.{Locates};
ghost use Rattle.tinyjson_schema_report.specs.Located.{IsLocated, IsPlace, located_tree, with_column};
ghost use Rattle.tinyjson_schema_report.specs.Located.{forbids_member};
ghost use Rattle.tinyjson_schema_report.specs.Every.{IsAtPart};

use crate::found::Finding;
use crate::report::output_unit;
use std::alloc::{AllocError, Global};
use std::collections::VecDeque;
use tinyjson::{JsonNumber, JsonValue};
use tinyjson_pointer::{Place, Pointer, key_place_in, place_in, put_member};
use tinyjson_schema::Violation;

/// What a value violates of a schema, and where in its text.
#[derive(Drop)]
pub struct Located {
    /// What it violates, with the words.
    pub finding: Finding,
    /// Where the part begins that is not valid; or the key of a member that must not be there.
    pub place: Place,
}

/// The finding with its place in the text that was checked, which is not parsed again. The only error is out of memory.
///
/// Not inlined, so that the check before it has all of the stack.
///
/// ```
/// let located = locate(alloc, "{\n\"a\": 12}", finding)?; // of /a: line 2, column 7
/// ```
#[inline(never)]
pub fn locate(alloc: Global, text: &str, finding: Finding) -> Result<Located, AllocError>
    requires { (limit : Option ℕ) × (t : Tree) × IsText limit (chars text.now) t
        × IsSome (part_at t (tokens_of finding.violation.instance_location)) }
    ensures finding { IfOk result (λ located. located.finding ≡ finding) }
    ensures place { IfOk result (IsLocated (chars text.now)) }
{
    let place = place_of_violation(alloc, text, &finding.violation)?;
    Ok(Located { finding, place })
}

/// [`locate`] for each of the findings, in their order.
///
/// ```
/// let located = locate_every(alloc, text, found)?;
/// ```
#[inline(never)]
pub fn locate_every(
    alloc: Global,
    text: &str,
    found: Vec<Finding>,
) -> Result<Vec<Located>, AllocError>
    requires { (limit : Option ℕ) × (t : Tree) × IsText limit (chars text.now) t
        × All (IsAtPart t) found.items }
    ensures findings { IfOk result (λ located.
        map (λ l. l.finding) located.items ≡ found.items) }
    ensures places { IfOk result (λ located. All (IsLocated (chars text.now)) located.items) }
{
    let mut rest = VecDeque::from_vec(found);
    let mut located = Vec::new(alloc);
    while let Some(finding) = rest.pop_front() {
        let placed = locate(alloc, text, finding)?;
        located.push(placed)?;
    }
    Ok(located)
}

/// The place in the text of what violates a schema.
fn place_of_violation(alloc: Global, text: &str, violation: &Violation) -> Result<Place, AllocError>
    requires { (limit : Option ℕ) × (t : Tree) × IsText limit (chars text.now) t
        × IsSome (part_at t (tokens_of violation.now.instance_location)) }
    ensures { IfOk result (IsPlace (chars text.now) violation.now) }
{
    let instance = &violation.instance_location;
    if !forbids_member(&violation.keyword_location) {
        return place_of_part(alloc, text, instance);
    }
    match key_place_in(alloc, text, instance) {
        Ok(Some(key)) => Ok(key),
        Ok(None) => place_of_part(alloc, text, instance),
        Err(_) => Err(AllocError),
    }
}

/// The place of a part that is there.
fn place_of_part(alloc: Global, text: &str, part: &Pointer) -> Result<Place, AllocError>
    requires { (limit : Option ℕ) × (t : Tree) × IsText limit (chars text.now) t
        × IsSome (part_at t (tokens_of part.now)) }
    ensures { IfOk result (λ place. Locates (chars text.now) (tokens_of part.now)
        (Ok (Some place))) }
{
    match place_in(alloc, text, part) {
        Ok(Some(place)) => Ok(place),
        Ok(None) => unreachable!(),
        Err(_) => Err(AllocError),
    }
}

/// Whether the keyword is the one that a member violates which must not be there.
fn forbids_member(keyword: &Pointer) -> bool
    ensures { result ≡ forbids_member (tokens_of keyword.now) }
{
    match keyword.tokens().split_last() {
        Some((last, _)) => {
            last.as_str() == "additionalProperties" || last.as_str() == "unevaluatedProperties"
        }
        None => false,
    }
}

/// The output unit of a finding ([`output_unit`]) with a line, and the column at which the part begins. The only error
/// is out of memory.
///
/// ```
/// let report = located_unit(alloc, 2, &located)?; // {"column":7,"error":..,"line":2,"valid":false}
/// ```
pub fn located_unit(alloc: Global, line: u64, located: &Located) -> Result<JsonValue, AllocError>
    ensures { IfOk result (λ unit. view unit ≡ located_tree line located.now) }
{
    let unit = output_unit(alloc, Some(line), &located.finding)?;
    with_column(alloc, unit, located.place.column)
}

/// The report with its column as a member.
fn with_column(alloc: Global, unit: JsonValue, column: usize) -> Result<JsonValue, AllocError>
    ensures { IfOk result (λ located. view located ≡ with_column column (view unit)) }
{
    match unit {
        JsonValue::Object(mut members) => {
            let number = JsonNumber::from_u64(alloc, column as u64)?;
            put_member(&mut members, "column", JsonValue::Number(number), alloc)?;
            Ok(JsonValue::Object(members))
        }
        other => Ok(other),
    }
}
