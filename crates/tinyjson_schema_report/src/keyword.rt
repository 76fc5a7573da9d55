//! What a value lacks that does not meet a keyword, in words.
ghost use Rattle.std.specs.Prelude.{◌≡◌, IfOk};
ghost use Rattle.std.specs.String.{string_bytes};
ghost use Rattle.tinyjson.specs.View.{view};
ghost use Rattle.tinyjson_view.specs.Views.{tree_of};
ghost use Rattle.tinyjson_schema_report.specs.Words.{keyword_words, compared, one_of, fixed};
ghost use Rattle.tinyjson_schema_report.specs.Words.{at_most, at_least, format_words};

use crate::brief::{brief, brief_list, brief_of};
use crate::count::{Count, contained_words, count_words, length};
use crate::kind::{type_name, type_words};
use crate::missing::{dependent_words, required_words};
use std::alloc::{AllocError, Global};
use tinyjson::JsonValue;
use tinyjson_schema_assertions::{item_count, member_count};
use tinyjson_schema_keywords::{Keyword, items_in};
use tinyjson_view::ValueView;

/// What the value lacks that does not meet the keyword with this value of its own.
pub fn keyword_words(
    keyword: Keyword,
    operand: &JsonValue,
    value: &ValueView<'_>,
    alloc: Global,
) -> Result<String, AllocError>
    ensures { IfOk result (λ s. string_bytes s
        ≡ keyword_words keyword (view operand.now) (tree_of value.now)) }
{
    match keyword {
        Keyword::Type => type_words(operand, value, alloc),
        Keyword::Enum => one_of(operand, alloc),
        Keyword::Const => compared("must be ", operand, value, alloc),
        Keyword::MultipleOf => compared("must be a multiple of ", operand, value, alloc),
        Keyword::Maximum => compared("must be at most ", operand, value, alloc),
        Keyword::ExclusiveMaximum => compared("must be less than ", operand, value, alloc),
        Keyword::Minimum => compared("must be at least ", operand, value, alloc),
        Keyword::ExclusiveMinimum => compared("must be greater than ", operand, value, alloc),
        Keyword::MaxLength => at_most(operand, " character", length(value), alloc),
        Keyword::MinLength => at_least(operand, " character", length(value), alloc),
        Keyword::Pattern => compared("must match the pattern ", operand, value, alloc),
        Keyword::MaxItems => at_most(operand, " item", item_count(value), alloc),
        Keyword::MinItems => at_least(operand, " item", item_count(value), alloc),
        Keyword::MaxContains => contained_words("must have at most ", operand, alloc),
        Keyword::MinContains => contained_words("must have at least ", operand, alloc),
        Keyword::MaxProperties => at_most(operand, " member", member_count(value), alloc),
        Keyword::MinProperties => at_least(operand, " member", member_count(value), alloc),
        Keyword::Required => required_words(operand, value, alloc),
        Keyword::DependentRequired => dependent_words(operand, value, alloc),
        Keyword::Format => format_words(operand, value, alloc),
        _ => String::from_str(alloc, fixed(keyword)),
    }
}

/// What is wanted, with the keyword's value, and what the value is.
fn compared(
    wanted: &str,
    operand: &JsonValue,
    value: &ValueView<'_>,
    alloc: Global,
) -> Result<String, AllocError>
    ensures { IfOk result (λ s. string_bytes s
        ≡ compared wanted.now (view operand.now) (tree_of value.now)) }
{
    let bound = brief(operand, alloc)?;
    let found = brief_of(value, alloc)?;
    format!(in alloc; "{wanted}{}, is {}", bound.as_str(), found.as_str())
}

/// The format that is wanted, and what the value is.
fn format_words(
    format: &JsonValue,
    value: &ValueView<'_>,
    alloc: Global,
) -> Result<String, AllocError>
    ensures { IfOk result
        (λ s. string_bytes s ≡ format_words (view format.now) (tree_of value.now)) }
{
    let wanted = type_name(format, alloc)?;
    let found = brief_of(value, alloc)?;
    format!(in alloc; "must be {wanted}, is {found}")
}

fn one_of(values: &JsonValue, alloc: Global) -> Result<String, AllocError>
    ensures { IfOk result (λ s. string_bytes s ≡ one_of (view values.now)) }
{
    let values = brief_list(items_in(values), alloc)?;
    format!(in alloc; "must be one of {}", values.as_str())
}

fn at_most(
    limit: &JsonValue,
    what: &str,
    found: Option<usize>,
    alloc: Global,
) -> Result<String, AllocError>
    ensures { IfOk result
        (λ s. string_bytes s ≡ at_most (view limit.now) what.now found) }
{
    let count = Count {
        wanted: "must have at most ",
        limit,
        what,
    };
    count_words(count, found, alloc)
}

fn at_least(
    limit: &JsonValue,
    what: &str,
    found: Option<usize>,
    alloc: Global,
) -> Result<String, AllocError>
    ensures { IfOk result
        (λ s. string_bytes s ≡ at_least (view limit.now) what.now found) }
{
    let count = Count {
        wanted: "must have at least ",
        limit,
        what,
    };
    count_words(count, found, alloc)
}

/// The words of a keyword that compares nothing.
fn fixed(keyword: Keyword) -> &'static str
    ensures { result.now ≡ fixed keyword }
{
    match keyword {
        Keyword::UniqueItems => "must have no two equal items",
        Keyword::AnyOf => "must be accepted by a schema of the list",
        Keyword::OneOf => "must be accepted by exactly one schema of the list",
        Keyword::Not => "must not be accepted by the schema",
        Keyword::PropertyNames => "must have names that the schema accepts",
        Keyword::Contains => "must have an item that the schema accepts",
        _ => "is not allowed",
    }
}
