//! Why a schema can't be applied, in words.
ghost use Rattle.std.specs.Prelude.{◌≡◌, ◌&&◌, map, option_map, IfOk};
ghost use Rattle.std.specs.String.{string_bytes};
ghost use Rattle.tinyjson.specs.Access.{is_null};
ghost use Rattle.tinyjson.specs.View.{view, text};
ghost use Rattle.tinyjson_pointer.specs.Tokens.{tokens_of};
ghost use Rattle.tinyjson_schema_keywords.specs.References.{form_in};
ghost use Rattle.tinyjson_schema_report.specs.Refused.{key_in, need_of, needs_from, needs_next, told};
ghost use Rattle.tinyjson_schema_report.specs.Refused.{reference_wanted, wanted};
ghost use Rattle.tinyjson_schema_report.specs.Refused.{TellsRefused, TellsNeed, TellsValue};
ghost use Rattle.tinyjson_schema_report.specs.Refused.{TellsKey, TellsForm, TellsPattern};

use crate::brief::brief;
use crate::ending::step;
use crate::fault::fault_words;
use std::alloc::{AllocError, Global};
use tinyjson::JsonValue;
use tinyjson_pointer::Pointer;
use tinyjson_schema_keywords::{
    Budget, Form, KeptPatterns, Walk, Whole, anchors_of, form_at, target,
};

/// A place in a schema that can't be applied.
#[derive(Clone, Copy)]
pub struct Refusal<'r> {
    /// The whole schema.
    pub root: &'r JsonValue,
    /// The place in it.
    pub place: &'r Pointer,
    /// Whether it was translated from an older draft: then null is what that draft does not have.
    pub is_older: bool,
}

/// Why the place can't be applied, as `must be a non-negative integer, is -1`. The only error is out of memory.
///
/// ```
/// let words = refused_words(refusal, alloc)?;
/// ```
pub fn refused_words(refusal: Refusal<'_>, alloc: Global) -> Result<String, AllocError>
    ensures { IfOk result (λ s. TellsRefused (view refusal.entry.root.now) refusal.entry.is_older
        (tokens_of refusal.entry.place.now) (string_bytes s)) }
{
    match need_at(refusal.place.tokens(), refusal.root, alloc)? {
        Some(need) => need_words(need, refusal, alloc),
        None => String::from_str(alloc, UNKNOWN),
    }
}

/// The words where no reason is known.
const UNKNOWN: &str = "can't be applied";

/// What tokens lead to: a value, and the form that it needs.
#[derive(Clone, Copy)]
struct Need<'r> {
    /// The form.
    form: Form,
    /// The key of the value, which has to be a pattern.
    key: Option<&'r String>,
    /// The value.
    value: &'r JsonValue,
}

/// What the tokens lead to, from the whole schema. `None` if they lead to nothing.
fn need_at<'r>(
    tokens: &'r [String],
    root: &'r JsonValue,
    alloc: Global,
) -> Result<Option<Need<'r>>, AllocError>
    ensures { IfOk result
        (λ o. option_map need_of o ≡ needs_from (view root.now) (map text tokens.now)) }
{
    let mut here = Need {
        form: Form::Schema,
        key: None,
        value: root,
    };
    for token in tokens {
        let Some(next) = need_after(here, token, alloc)? else {
            return Ok(None);
        };
        here = next;
    }
    Ok(Some(here))
}

/// What one more token leads to.
fn need_after<'r>(
    here: Need<'r>,
    token: &'r String,
    alloc: Global,
) -> Result<Option<Need<'r>>, AllocError>
    ensures { IfOk result
        (λ o. option_map need_of o ≡ needs_next (need_of here.entry) (text token.now)) }
{
    let Some(value) = step(here.value, token, alloc)? else {
        return Ok(None);
    };
    let form = form_in(here.form, token);
    let key = key_in(here.form, token);
    Ok(Some(Need { form, key, value }))
}

/// The form of what is at a token.
fn form_in(form: Form, token: &String) -> Form
    ensures { result ≡ form_in form (text token.now) }
{
    match form {
        Form::Schema => form_at(token.as_str()),
        Form::Schemas | Form::SchemaMap | Form::PatternMap => Form::Schema,
        _ => Form::Anything,
    }
}

/// The token if it is a pattern: a key of `patternProperties`.
fn key_in(form: Form, token: &String) -> Option<&String>
    ensures { option_map (λ x. text x.now) result ≡ key_in form (text token.now) }
{
    match form {
        Form::PatternMap => Some(token),
        _ => None,
    }
}

/// Why the value, or its key, has not what it needs.
fn need_words(need: Need<'_>, refusal: Refusal<'_>, alloc: Global) -> Result<String, AllocError>
    ensures { IfOk result (λ s. TellsNeed (view refusal.entry.root.now) refusal.entry.is_older
        (need_of need.entry) (string_bytes s)) }
{
    match need.key {
        Some(key) => key_words(key, need, refusal, alloc),
        None => value_words(need, refusal, alloc),
    }
}

/// What is wrong with the key as a pattern, or else why the value has not the form that it needs.
fn key_words(
    key: &String,
    need: Need<'_>,
    refusal: Refusal<'_>,
    alloc: Global,
) -> Result<String, AllocError>
    ensures { IfOk result (λ s. TellsKey (view refusal.entry.root.now) refusal.entry.is_older
        (text key.now) need.entry.form (view need.entry.value.now) (string_bytes s)) }
{
    match fault_words(key.as_str(), alloc)? {
        Some(words) => Ok(words),
        None => value_words(need, refusal, alloc),
    }
}

/// Why the value has not the form that it needs.
fn value_words(need: Need<'_>, refusal: Refusal<'_>, alloc: Global) -> Result<String, AllocError>
    ensures { IfOk result (λ s. TellsValue (view refusal.entry.root.now) refusal.entry.is_older
        need.entry.form (view need.entry.value.now) (string_bytes s)) }
{
    if is_lacking(refusal.is_older, need.value) {
        return String::from_str(alloc, "can't be applied in its draft");
    }
    form_words(need.form, need.value, refusal.root, alloc)
}

/// Whether the value is null, for what an older draft does not have.
fn is_lacking(is_older: bool, value: &JsonValue) -> bool
    ensures { result ≡ is_older && is_null (view value.now) }
{
    is_older && is_null(value)
}

fn is_null(value: &JsonValue) -> bool
    ensures { result ≡ is_null (view value.now) }
{
    matches!(value, JsonValue::Null)
}

fn form_words(
    form: Form,
    value: &JsonValue,
    root: &JsonValue,
    alloc: Global,
) -> Result<String, AllocError>
    ensures { IfOk result
        (λ s. TellsForm (view root.now) form (view value.now) (string_bytes s)) }
{
    match form {
        Form::Pattern => pattern_words(value, alloc),
        Form::Reference => {
            let wanted = reference_wanted(value, root, alloc)?;
            told(wanted, value, alloc)
        }
        _ => told(wanted(form), value, alloc),
    }
}

fn pattern_words(value: &JsonValue, alloc: Global) -> Result<String, AllocError>
    ensures { IfOk result (λ s. TellsPattern (view value.now) (string_bytes s)) }
{
    match value {
        JsonValue::String(pattern) => match fault_words(pattern.as_str(), alloc)? {
            Some(words) => Ok(words),
            None => String::from_str(alloc, UNKNOWN),
        },
        _ => told("must be a pattern", value, alloc),
    }
}

/// What is wanted of a reference: that it leads to a schema, and if it does, that this comes to an end.
fn reference_wanted(
    reference: &JsonValue,
    root: &JsonValue,
    alloc: Global,
) -> Result<&'static str, AllocError>
    ensures { IfOk result
        (λ s. s.now ≡ reference_wanted (view root.now) (view reference.now)) }
{
    let anchors = anchors_of(root, alloc)?;
    let whole = Whole {
        root,
        anchors,
        patterns: KeptPatterns::new(alloc),
        budget: Budget::new(u64::MAX),
    };
    let walk = Walk {
        whole: &whole,
        steps: 0,
        alloc,
    };
    match target(reference, walk)? {
        Some(_) => Ok("must not lead in a circle or through more than 100 schemas"),
        None => Ok("must lead to a schema of the document"),
    }
}

/// What is wanted of a value of this form.
fn wanted(form: Form) -> &'static str
    ensures { result.now ≡ wanted form }
{
    match form {
        Form::Text => "must be a string",
        Form::Truth => "must be a boolean",
        Form::List => "must be an array",
        Form::Types => "must be a type or an array of different types",
        Form::Number => "must be a number",
        Form::Divisor => "must be a number above 0 with at most 1,000 digits",
        Form::Count => "must be a non-negative integer",
        Form::Keys => "must be an array of different strings",
        Form::KeyLists => "must be an object of arrays of different strings",
        Form::Dialect => "must be \"https://json-schema.org/draft/2020-12/schema\"",
        Form::Schema => "must be an object or a boolean",
        Form::Schemas => "must be an array with a schema",
        Form::SchemaMap | Form::PatternMap => "must be an object of schemas",
        Form::Base => "must be a URI without a fragment, of no other schema",
        Form::Anchor => "must be a plain name of no other schema",
        _ => "must be applied",
    }
}

/// What is wanted, and what the value is.
fn told(wanted: &str, value: &JsonValue, alloc: Global) -> Result<String, AllocError>
    ensures { IfOk result (λ s. string_bytes s ≡ told wanted.now (view value.now)) }
{
    let found = brief(value, alloc)?;
    format!(in alloc; "{wanted}, is {}", found.as_str())
}
