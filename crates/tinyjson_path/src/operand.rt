//! What filters compare (RFC 9535, 2.3.5.2.2), and the functions of values.
ghost use Rattle.std.specs.Prelude.{◌≡◌, Some, IfOk, IfErr, length, option_and_then, option_map};
ghost use Rattle.std.specs.Str.{chars};
ghost use Rattle.tinyjson_document.specs.Numbers.{decimal_of};
ghost use Rattle.tinyjson_path.specs.Comparing.{compares, is_same, is_below, is_tree_less, literal_tree};
ghost use Rattle.tinyjson_path.specs.Comparing.{one_at, one_tree, origin_tree};
ghost use Rattle.tinyjson_path.specs.Comparing.{length_of, size_of, whole};
ghost use Rattle.tinyjson_view.specs.Views.{tree_of};
ghost use Rattle.tinyjson_path.specs.declared.patterns.FindError.{FindError};
ghost use Rattle.tinyjson_path.specs.Seen.{numbers_less, operand_tree, texts_less, value_tree};

use crate::children::one_child;
use crate::patterns::FindError;
use std::alloc::{AllocError, Global};
use tinyjson::{JsonKind, JsonNumber, JsonValue};
use tinyjson_document::{JsonView, NumberView};
use tinyjson_path_query::{ComparisonOperator, Literal, Origin, SingularQuery, SingularSegment};
use tinyjson_view::ValueView;

/// A value that is compared: a part of the input, or a value of the filter's own.
pub(crate) enum Operand<'v> {
    Part(ValueView<'v>),
    // In a box, for the stack that a filter in a filter takes.
    Own(Box<JsonValue>),
}

/// The value, if there is one.
pub(crate) fn value_of<'a>(operand: &'a Option<Operand>) -> Option<ValueView<'a>>
    ensures { value_tree result ≡ option_map operand_tree operand.now }
{
    match operand {
        None => None,
        Some(Operand::Part(value)) => Some(*value),
        Some(Operand::Own(value)) => Some(ValueView::InValue(value)),
    }
}

/// Frees a value of the filter's own.
// Inlined, this and `compare` would take half as much again of the stack at each level of a filter.
#[inline(never)]
pub(crate) fn release(operand: Option<Operand>) {
    let Some(operand) = operand else {
        return;
    };
    match operand {
        Operand::Own(value) => Box::into_inner(value).dismantle(),
        Operand::Part(_) => {}
    }
}

/// Whether the comparison holds of the two. Both are consumed.
#[inline(never)]
pub(crate) fn compare(
    operator: ComparisonOperator,
    left: Option<Operand>,
    right: Option<Operand>,
) -> bool
    ensures { result ≡ compares operator
        (option_map operand_tree left.entry) (option_map operand_tree right.entry) }
{
    let is_so = compares(operator, value_of(&left), value_of(&right));
    release(left);
    release(right);
    is_so
}

fn compares(operator: ComparisonOperator, left: Option<ValueView>, right: Option<ValueView>) -> bool
    ensures { result ≡ compares operator (value_tree left.entry) (value_tree right.entry) }
{
    match operator {
        ComparisonOperator::Equal => is_same(left, right),
        ComparisonOperator::NotEqual => !is_same(left, right),
        ComparisonOperator::Less => is_below(left, right),
        ComparisonOperator::LessOrEqual => is_below(left, right) || is_same(left, right),
        ComparisonOperator::Greater => is_below(right, left),
        ComparisonOperator::GreaterOrEqual => is_below(right, left) || is_same(left, right),
    }
}

fn is_same(left: Option<ValueView>, right: Option<ValueView>) -> bool
    ensures { result ≡ is_same (value_tree left.entry) (value_tree right.entry) }
{
    match (left, right) {
        (None, None) => true,
        (Some(left), Some(right)) => left.equals(&right),
        _ => false,
    }
}

fn is_below(left: Option<ValueView>, right: Option<ValueView>) -> bool
    ensures { result ≡ is_below (value_tree left.entry) (value_tree right.entry) }
{
    match (left, right) {
        (Some(left), Some(right)) => is_value_less(left, right),
        _ => false,
    }
}

fn is_value_less(left: ValueView, right: ValueView) -> bool
    ensures { result ≡ is_tree_less (tree_of left.entry) (tree_of right.entry) }
{
    match left.kind() {
        JsonKind::Number => is_number_less(left.number(), right.number()),
        JsonKind::String => is_string_less(left.string(), right.string()),
        _ => false,
    }
}

fn is_number_less(left: Option<NumberView<'_>>, right: Option<NumberView<'_>>) -> bool
    ensures { result ≡ numbers_less (option_map decimal_of left.entry)
        (option_map decimal_of right.entry) }
{
    match (left, right) {
        (Some(left), Some(right)) => left.as_number().is_less(right.as_number()),
        _ => false,
    }
}

fn is_string_less(left: Option<&str>, right: Option<&str>) -> bool
    ensures { result ≡ texts_less (option_map (λ s. chars s.now) left.entry)
        (option_map (λ s. chars s.now) right.entry) }
{
    match (left, right) {
        (Some(left), Some(right)) => is_text_less(left, right),
        _ => false,
    }
}

fn is_text_less(left: &str, right: &str) -> bool
    ensures { result ≡ texts_less (Some (chars left.now)) (Some (chars right.now)) }
{
    left < right
}

/// The value of the literal. The only error is out of memory.
#[inline(never)]
pub(crate) fn literal_value<'v>(
    alloc: Global,
    literal: &Literal,
) -> Result<Option<Operand<'v>>, FindError>
    ensures ok { IfOk result (λ o. option_map operand_tree o ≡ Some (literal_tree literal.now)) }
    ensures err { IfErr result (λ e. e ≡ FindError.OutOfMemory) }
{
    let value = match literal {
        Literal::Null => JsonValue::Null,
        Literal::Boolean(is_true) => JsonValue::Boolean(*is_true),
        Literal::Number(number) => JsonValue::Number(number.try_clone(alloc)?),
        Literal::String(text) => JsonValue::String(String::from_str(alloc, text.as_str())?),
    };
    Ok(Some(Operand::Own(Box::new(alloc, value)?)))
}

/// Where a query inside a filter begins.
pub(crate) fn start<'v>(origin: Origin, root: &ValueView<'v>, here: &ValueView<'v>) -> ValueView<'v>
    ensures { tree_of result ≡ origin_tree origin (tree_of root.now) (tree_of here.now) }
{
    match origin {
        Origin::Root => *root,
        Origin::CurrentNode => *here,
    }
}

/// The value of the one node that the query selects, if it selects one.
#[inline(never)]
pub(crate) fn singular_value<'v>(
    query: &SingularQuery,
    root: &ValueView<'v>,
    here: &ValueView<'v>,
) -> Option<Operand<'v>>
    ensures { option_map operand_tree result
        ≡ one_tree query.now (tree_of root.now) (tree_of here.now) }
{
    part(descend_singly(query.segments.as_slice(), start(query.origin, root, here)))
}

/// The part of the input, if there is one.
pub(crate) fn part<'v>(value: Option<ValueView<'v>>) -> Option<Operand<'v>>
    ensures { option_map operand_tree result ≡ value_tree value.entry }
{
    match value {
        Some(value) => Some(Operand::Part(value)),
        None => None,
    }
}

fn descend_singly<'v>(segments: &[SingularSegment], value: ValueView<'v>) -> Option<ValueView<'v>>
    ensures { value_tree result ≡ one_at segments.now (tree_of value.entry) }
{
    let mut here = value;
    for segment in segments {
        match one_child(segment, here) {
            Some(child) => here = child,
            None => return None,
        }
    }
    Some(here)
}

/// `length` (RFC 9535, 2.4.4) of the operand, which is consumed.
pub(crate) fn length<'v>(
    alloc: Global,
    argument: Option<Operand>,
) -> Result<Option<Operand<'v>>, AllocError>
    ensures { IfOk result (λ o. option_map operand_tree o
        ≡ length_of (option_map operand_tree argument.entry)) }
{
    whole_if(alloc, length_of(argument))
}

/// How long the operand is, if it has a length. It is consumed.
pub(crate) fn length_of(argument: Option<Operand>) -> Option<usize>
    ensures { result ≡ option_and_then size_of (option_map operand_tree argument.entry) }
{
    let size = match value_of(&argument) {
        Some(value) => size(value),
        None => None,
    };
    release(argument);
    size
}

/// A whole number, if there is one.
pub(crate) fn whole_if<'v>(
    alloc: Global,
    value: Option<usize>,
) -> Result<Option<Operand<'v>>, AllocError>
    ensures { IfOk result (λ o. option_map operand_tree o ≡ option_map whole value) }
{
    match value {
        Some(value) => whole(alloc, value),
        None => Ok(None),
    }
}

/// The number of characters of a string, of items of an array, or of members of an object.
fn size(value: ValueView) -> Option<usize>
    ensures { result ≡ size_of (tree_of value.entry) }
{
    match value.kind() {
        JsonKind::String => match value.string() {
            Some(text) => Some(character_count(text)),
            None => None,
        },
        JsonKind::Array | JsonKind::Object => Some(value.len()),
        _ => None,
    }
}

fn character_count(text: &str) -> usize
    ensures { result ≡ length (chars text.now) }
{
    text.chars().count()
}

/// A whole number.
pub(crate) fn whole<'v>(alloc: Global, value: usize) -> Result<Option<Operand<'v>>, AllocError>
    ensures { IfOk result (λ o. option_map operand_tree o ≡ Some (whole value)) }
{
    let number = JsonValue::Number(JsonNumber::from_u64(alloc, value as u64)?);
    Ok(Some(Operand::Own(Box::new(alloc, number)?)))
}
