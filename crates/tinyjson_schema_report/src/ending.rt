//! Where a place in a schema ends.
ghost use Rattle.std.specs.Prelude.{◌≡◌, map, option_map, IfOk};
ghost use Rattle.tinyjson.specs.View.{view, text};
ghost use Rattle.tinyjson_pointer.specs.Walk.{step};
ghost use Rattle.tinyjson_schema_report.specs.Ends.{ending, ends_from, goes_on, keyword_in};
ghost use Rattle.tinyjson_schema_report.specs.Ends.{value_in, holds_more};

use std::alloc::{AllocError, Global};
use tinyjson::JsonValue;
use tinyjson_pointer::Pointer;
use tinyjson_schema_keywords::{Form, Keyword, Walk, form_by, keyword_of, referenced};

/// Where the first tokens of a place lead: to the value of a keyword, or to a schema in a list or an object of
/// schemas. From a reference they lead on in the schema to which it leads.
#[derive(Clone, Copy)]
pub struct End<'s> {
    /// The keyword; `None` for the whole schema, and in a list or an object.
    pub keyword: Option<Keyword>,
    /// Its value, or the schema.
    pub value: &'s JsonValue,
}

/// Where the tokens end, from the whole schema. `None` if they lead to nothing.
pub fn ending<'s>(tokens: &[String], walk: Walk<'_, 's>) -> Result<Option<End<'s>>, AllocError>
    ensures { IfOk result (λ end. option_map ending end
        ≡ ends_from (view walk.entry.whole.now.root.now) (map text tokens.now)) }
{
    let mut here = End {
        keyword: None,
        value: walk.whole.root,
    };
    for token in tokens {
        let Some(next) = after(here, token, walk)? else {
            return Ok(None);
        };
        here = next;
    }
    Ok(Some(here))
}

/// Where one more token leads.
fn after<'s>(
    here: End<'s>,
    token: &String,
    walk: Walk<'_, 's>,
) -> Result<Option<End<'s>>, AllocError>
    ensures { IfOk result (λ end. option_map ending end
        ≡ goes_on (view walk.entry.whole.now.root.now) (ending here.entry) (text token.now)) }
{
    let keyword = keyword_in(here.keyword, token);
    let Some(value) = value_in(keyword, here.value, token, walk)? else {
        return Ok(None);
    };
    Ok(Some(End { keyword, value }))
}

/// The keyword that the token names: none in a list or an object of schemas.
fn keyword_in(keyword: Option<Keyword>, token: &String) -> Option<Keyword>
    ensures { result ≡ keyword_in keyword (text token.now) }
{
    if holds_more(keyword) {
        return None;
    }
    keyword_of(token.as_str())
}

/// Whether the keyword's value is a list or an object of schemas.
fn holds_more(keyword: Option<Keyword>) -> bool
    ensures { result ≡ holds_more keyword }
{
    matches!(
        form_by(keyword),
        Form::Schemas | Form::SchemaMap | Form::PatternMap
    )
}

/// The value at the token, or the schema to which the reference at the token leads.
fn value_in<'s>(
    keyword: Option<Keyword>,
    value: &'s JsonValue,
    token: &String,
    walk: Walk<'_, 's>,
) -> Result<Option<&'s JsonValue>, AllocError>
    ensures { IfOk result (λ r. option_map (λ x. view x.now) r
        ≡ value_in (view walk.entry.whole.now.root.now) keyword (view value.now)
        (text token.now)) }
{
    match keyword {
        Some(Keyword::Ref) => referenced(value, Keyword::Ref, walk),
        Some(Keyword::DynamicRef) => referenced(value, Keyword::DynamicRef, walk),
        _ => step(value, token, walk.alloc),
    }
}

/// The part of the value that the token names.
pub fn step<'s>(
    value: &'s JsonValue,
    token: &String,
    alloc: Global,
) -> Result<Option<&'s JsonValue>, AllocError>
    ensures { IfOk result
        (λ r. option_map (λ x. view x.now) r ≡ step (view value.now) (text token.now)) }
{
    let mut pointer = Pointer::root(alloc);
    pointer.prepend(String::from_str(alloc, token.as_str())?)?;
    Ok(pointer.find(value))
}
