//! Which schemas can be applied, and the place where one cannot.
ghost use Rattle.std.specs.Prelude.{◌≡◌, Bool, IfOk, OnOk, true};
ghost use Rattle.std.specs.Str.{chars};
ghost use Rattle.tinyjson.specs.Soundness.{IsSorted};
ghost use Rattle.tinyjson.specs.Tree.{Tree, object};
ghost use Rattle.tinyjson.specs.View.{view, members_listed};
ghost use Rattle.tinyjson_pointer.specs.Tokens.{tokens_of};
ghost use Rattle.tinyjson_schema_keywords.specs.Subschemas.{way_of};
ghost use Rattle.tinyjson_schema_keywords.specs.declared.keyword.Form.TheVariants as form;
ghost use Rattle.tinyjson_schema_assertions.specs.Operands.{is_pattern_text, are_patterns, has_patterns};
ghost use Rattle.tinyjson_schema.specs.Refused.{Refuses, RefusesWhole, IsWhole, IsTextReason};
ghost use Rattle.tinyjson_schema.specs.Refused.{whole_for, whole_of, has_shape, is_applied};
ghost use Rattle.tinyjson_schema.specs.Refused.{IsBefore};
ghost use Rattle.tinyjson_schema.specs.Schemas.{is_schema};
ghost use Rattle.tinyjson_schema.specs.Settled.{IsRight};

use crate::circles::leads;
use crate::own_name::is_own_name;
use crate::settled::Settled;
use std::alloc::{AllocError, Global};
use tinyjson::{JsonValue, sorted_members};
use tinyjson_pointer::Pointer;
use tinyjson_schema_assertions::{
    are_types, is_array, is_base, is_boolean, is_boolean_or_object, is_count, is_dialect,
    is_divisor_number, is_key_list, is_key_map, is_number, is_object, is_string,
};
use tinyjson_schema_keywords::{
    Document, Form, PatternError, Token, is_pattern, is_some_item, items_in, parts_of,
};

/// A place in a schema that is rejected, and why.
#[derive(Drop)]
pub struct RefusedPlace {
    pub pointer: Pointer,
    pub reason: Reason,
}

/// Why a place is rejected.
#[derive(Clone, Copy)]
pub enum Reason {
    /// The value there can't be applied.
    Misfit,
    /// The pattern there is too deep or too large.
    PatternLimit,
}

/// A place in the schema that can't be applied. It has a keyword's value whose form is not the standard's, or a
/// schema that is neither an object nor a boolean. Or a reference there leads to no schema, or in a circle. Or a
/// pattern is too deep or too large. `None` means that the schema can be applied. The only error is out
/// of memory.
///
/// It is recursive: it takes stack with the nesting of the schema.
pub fn refused_place(
    document: Document<'_, '_>,
    alloc: Global,
) -> Result<Option<RefusedPlace>, AllocError>
    ensures { let root = whole_of document.entry in
        Refuses (is_schema root true root) root true form.Schema root result }
{
    let mut known = Settled::new(alloc);
    refused_in(
        Form::Schema,
        document.whole.root,
        document,
        true,
        &mut known,
        alloc,
    )
}

/// The place in a value that needs the form, which has not its own or whose part has not that of the part.
fn refused_in(
    form: Form,
    value: &JsonValue,
    document: Document<'_, '_>,
    is_whole: bool,
    known: &mut Settled,
    alloc: Global,
) -> Result<Option<RefusedPlace>, AllocError>
    requires { IsRight (whole_of document) known.old }
    ensures place { Refuses (is_applied (whole_of document.entry) is_whole form (view value.now))
        (whole_of document.entry) is_whole form (view value.now) result }
    ensures right { IsRight (whole_of document.entry) known.new }
{
    if let Some(place) = misfit(form, value, document, is_whole, known, alloc)? {
        return Ok(Some(place));
    }
    let parts = parts_of(form, value, alloc)?;
    for part in parts.as_slice() {
        let of_whole = whole_for(is_whole, part.form);
        if let Some(mut place) = refused_in(
            part.form, part.value, document, of_whole, known, alloc,
        )? {
            prepend(&mut place.pointer, part.token, alloc)?;
            return Ok(Some(place));
        }
    }
    Ok(None)
}

/// Whether it matters for a part that its schema is the whole one: for `$id`.
fn whole_for(is_whole: bool, form: Form) -> bool
    ensures { result ≡ whole_for is_whole form }
{
    match form {
        Form::Base => is_whole,
        _ => false,
    }
}

/// Puts the token in front of the pointer.
fn prepend(pointer: &mut Pointer, token: Token<'_>, alloc: Global) -> Result<(), AllocError>
    ensures { OnOk result
        (IsBefore (way_of token.entry) (tokens_of pointer.old) (tokens_of pointer.new)) }
{
    match token {
        Token::Key(key) => pointer.prepend(String::from_str(alloc, key.as_str())?),
        Token::Index(index) => pointer.prepend_index(alloc, index),
    }
}

/// The place of a value that has not the form it needs, or of a key in it that is no pattern. Its subschemas are not
/// looked at.
fn misfit(
    form: Form,
    value: &JsonValue,
    document: Document<'_, '_>,
    is_whole: bool,
    known: &mut Settled,
    alloc: Global,
) -> Result<Option<RefusedPlace>, AllocError>
    requires { IsRight (whole_of document) known.old }
    ensures place { Refuses (has_shape (whole_of document.entry) is_whole form (view value.now))
        (whole_of document.entry) is_whole form (view value.now) result }
    ensures right { IsRight (whole_of document.entry) known.new }
{
    match form {
        Form::Anything => Ok(None),
        Form::Text => unless(is_string(value), alloc),
        Form::Truth => unless(is_boolean(value), alloc),
        Form::List => unless(is_array(value), alloc),
        Form::Types => unless(are_types(value), alloc),
        Form::Number => unless(is_number(value), alloc),
        Form::Divisor => unless(is_divisor_number(value), alloc),
        Form::Count => unless(is_count(value), alloc),
        Form::Keys => unless(is_key_list(value, alloc)?, alloc),
        Form::KeyLists => unless(is_key_map(value, alloc)?, alloc),
        Form::Pattern => refused_text(value, alloc),
        Form::Dialect => unless(is_dialect(value), alloc),
        Form::Schema => unless(is_boolean_or_object(value), alloc),
        Form::Schemas => unless(is_some_item(items_in(value)), alloc),
        Form::SchemaMap => unless(is_object(value), alloc),
        Form::PatternMap => refused_pattern(value, alloc),
        Form::Base => unless(is_base(value, is_whole), alloc),
        Form::Reference => unless(leads(value, document, known, alloc)?, alloc),
        Form::Anchor => unless(is_own_name(value, document), alloc),
    }
}

fn refused_pattern(schemas: &JsonValue, alloc: Global) -> Result<Option<RefusedPlace>, AllocError>
    ensures { (root : Tree) (whole : Bool) → Refuses (has_patterns (view schemas.now))
        root whole form.PatternMap (view schemas.now) result }
{
    match schemas {
        JsonValue::Object(schemas) => {
            let sorted = sorted_members(alloc, schemas)?;
            refused_key(sorted.as_slice(), alloc)
        }
        _ => Ok(Some(whole_place(alloc, Reason::Misfit))),
    }
}

fn refused_key(
    schemas: &[(&String, &JsonValue)],
    alloc: Global,
) -> Result<Option<RefusedPlace>, AllocError>
    requires { IsSorted (members_listed schemas.now) }
    ensures { (root : Tree) (whole : Bool) → Refuses (are_patterns (members_listed schemas.now))
        root whole form.PatternMap (object (members_listed schemas.now)) result }
{
    for &(key, _) in schemas {
        if let Some(reason) = text_reason(key.as_str(), alloc)? {
            let mut place = whole_place(alloc, reason);
            place
                .pointer
                .prepend(String::from_str(alloc, key.as_str())?)?;
            return Ok(Some(place));
        }
    }
    Ok(None)
}

/// The place of the value itself, unless it is a pattern.
fn refused_text(value: &JsonValue, alloc: Global) -> Result<Option<RefusedPlace>, AllocError>
    ensures { (root : Tree) (whole : Bool) → Refuses (is_pattern_text (view value.now))
        root whole form.Pattern (view value.now) result }
{
    match value {
        JsonValue::String(pattern) => match text_reason(pattern.as_str(), alloc)? {
            Some(reason) => Ok(Some(whole_place(alloc, reason))),
            None => Ok(None),
        },
        _ => Ok(Some(whole_place(alloc, Reason::Misfit))),
    }
}

/// Why the text can't be applied as a pattern; `None` if it can.
fn text_reason(text: &str, alloc: Global) -> Result<Option<Reason>, AllocError>
    ensures { IfOk result (λ reason. IsTextReason (chars text.now) reason) }
{
    match is_pattern(alloc, text) {
        Ok(true) => Ok(None),
        Ok(false) => Ok(Some(Reason::Misfit)),
        Err(PatternError::AboveLimits) => Ok(Some(Reason::PatternLimit)),
        Err(PatternError::OutOfMemory) => Err(AllocError),
    }
}

/// The place of the value itself.
fn whole_place(alloc: Global, reason: Reason) -> RefusedPlace
    ensures { IsWhole reason result }
{
    RefusedPlace {
        pointer: Pointer::root(alloc),
        reason,
    }
}

/// The place of the value itself, unless it fits.
fn unless(fits: bool, alloc: Global) -> Result<Option<RefusedPlace>, AllocError>
    ensures { RefusesWhole fits result }
{
    if fits {
        Ok(None)
    } else {
        Ok(Some(whole_place(alloc, Reason::Misfit)))
    }
}
