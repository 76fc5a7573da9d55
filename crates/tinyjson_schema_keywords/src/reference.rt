//! Where references lead.
ghost use Rattle.std.specs.Prelude.{◌≡◌, Some, None, option_map, map, IfOk, MatchOption};
ghost use Rattle.std.specs.Str.{chars};
ghost use Rattle.tinyjson.specs.View.{view, text};
ghost use Rattle.tinyjson_pointer.specs.Text.{pointer_tokens};
ghost use Rattle.tinyjson_pointer.specs.Tokens.{tokens_of};
ghost use Rattle.tinyjson_schema_keywords.specs.References.{percent_decoded, hex_byte};
ghost use Rattle.tinyjson_schema_keywords.specs.References.{escape_front, byte_front};
ghost use Rattle.tinyjson_schema_keywords.specs.References.{reference_bytes, at_fragment};
ghost use Rattle.tinyjson_schema_keywords.specs.References.{at_pointer, form_in, form_after};
ghost use Rattle.tinyjson_schema_keywords.specs.References.{is_schema_form, target, referenced};
ghost use Rattle.tinyjson_schema_keywords.specs.declared.keyword.Form.TheVariants as form;

use crate::anchor::{anchored, is_plain_name};
use crate::keyword::{Form, Keyword, form_at};
use crate::subschemas::schema_at;
use crate::walk::Walk;
use std::alloc::{AllocError, Global};
use std::str;
use tinyjson::JsonValue;
use tinyjson_pointer::{Pointer, PointerError};

/// The schema to which the keyword, `$ref` or `$dynamicRef`, of the schema leads, within the whole schema.
pub fn referenced<'s>(
    schema: &JsonValue,
    keyword: Keyword,
    walk: Walk<'_, 's>,
) -> Result<Option<&'s JsonValue>, AllocError>
    ensures { IfOk result (λ r. option_map (λ x. view x.now) r
        ≡ referenced (view walk.entry.whole.now.root.now) keyword (view schema.now)) }
{
    match schema_at(schema, keyword) {
        Some(reference) => target(reference, walk),
        None => Ok(None),
    }
}

/// The schema to which a reference leads. It has to be `#` and, percent-encoded, a plain name or a JSON pointer
/// (Core, 8.2.3). Not inlined, since the recursion over schemas calls it at each level.
#[inline(never)]
pub fn target<'s>(
    reference: &JsonValue,
    walk: Walk<'_, 's>,
) -> Result<Option<&'s JsonValue>, AllocError>
    ensures { IfOk result (λ r. option_map (λ x. view x.now) r
        ≡ target (view walk.entry.whole.now.root.now) (view reference.now)) }
{
    let JsonValue::String(reference) = reference else {
        return Ok(None);
    };
    let Some(fragment) = read_reference(reference.as_str(), walk.alloc)? else {
        return Ok(None);
    };
    at_fragment(fragment.as_slice(), walk)
}

/// The schema to which a fragment leads, if its bytes are UTF-8.
fn at_fragment<'s>(fragment: &[u8], walk: Walk<'_, 's>) -> Result<Option<&'s JsonValue>, AllocError>
    ensures { IfOk result (λ r. option_map (λ x. view x.now) r
        ≡ at_fragment (view walk.entry.whole.now.root.now) fragment.now) }
{
    let Ok(text) = str::from_utf8(fragment) else {
        return Ok(None);
    };
    if is_plain_name(text) {
        return Ok(anchored(walk.whole.anchors.as_slice(), text));
    }
    at_pointer(walk.whole.root, text, walk.alloc)
}

/// The schema to which a JSON pointer leads.
pub fn at_pointer<'s>(
    root: &'s JsonValue,
    text: &str,
    alloc: Global,
) -> Result<Option<&'s JsonValue>, AllocError>
    ensures { IfOk result (λ r.
        option_map (λ x. view x.now) r ≡ at_pointer (view root.now) (chars text.now)) }
{
    let Some(pointer) = read_pointer(text, alloc)? else {
        return Ok(None);
    };
    if !leads_to_schema(pointer.tokens()) {
        return Ok(None);
    }
    Ok(pointer.find(root))
}

/// Parses the text of a JSON pointer; `None` if it is none. The only error is out of memory.
pub fn read_pointer(text: &str, alloc: Global) -> Result<Option<Pointer>, AllocError>
    ensures { IfOk result (λ p. option_map tokens_of p ≡ pointer_tokens (chars text.now)) }
{
    match Pointer::parse(alloc, text) {
        Ok(pointer) => Ok(Some(pointer)),
        Err(PointerError::OutOfMemory) => Err(AllocError),
        Err(_) => Ok(None),
    }
}

/// The bytes of a reference that is only a fragment, decoded (RFC 3986, section 3.5); else `None`.
pub fn read_reference(reference: &str, alloc: Global) -> Result<Option<Vec<u8>>, AllocError>
    ensures { IfOk result (λ d. option_map (λ v. v.items) d ≡ reference_bytes reference.now) }
{
    let Some((first, fragment)) = reference.as_bytes().split_first() else {
        return Ok(None);
    };
    if *first != b'#' {
        return Ok(None);
    }
    percent_decoded(fragment, alloc)
}

/// Decodes percent-encoded bytes (RFC 3986, section 2.1). `None` if two hexadecimal digits do not follow a `%`.
pub fn percent_decoded(bytes: &[u8], alloc: Global) -> Result<Option<Vec<u8>>, AllocError>
    ensures { IfOk result (λ d. option_map (λ v. v.items) d ≡ percent_decoded bytes.now) }
{
    let mut decoded = Vec::new(alloc);
    let mut rest = bytes;
    while let Some((first, more)) = rest.split_first() {
        let Some((byte, after)) = decoded_byte(*first, more) else {
            return Ok(None);
        };
        decoded.push(byte)?;
        rest = after;
    }
    Ok(Some(decoded))
}

/// The first decoded byte, and the bytes after it: a `%` takes two digits.
fn decoded_byte(first: u8, more: &[u8]) -> Option<(u8, &[u8])>
    ensures { MatchOption result (byte_front first more.now ≡ None)
        (λ r. byte_front first more.now ≡ Some (r.0, r.1.now)) }
{
    if first == b'%' {
        escaped_byte(more)
    } else {
        Some((first, more))
    }
}

/// The byte of the two hexadecimal digits at the front, and what follows.
fn escaped_byte(text: &[u8]) -> Option<(u8, &[u8])>
    ensures { MatchOption result (escape_front text.now ≡ None)
        (λ r. escape_front text.now ≡ Some (r.0, r.1.now)) }
{
    let Some((high, rest)) = text.split_first() else {
        return None;
    };
    let Some((low, after)) = rest.split_first() else {
        return None;
    };
    match hex_byte(*high, *low) {
        Some(byte) => Some((byte, after)),
        None => None,
    }
}

/// The byte of two hexadecimal digits.
fn hex_byte(high: u8, low: u8) -> Option<u8>
    ensures { result ≡ hex_byte high low }
{
    let Some(high) = char::from(high).to_digit(16) else {
        return None;
    };
    let Some(low) = char::from(low).to_digit(16) else {
        return None;
    };
    Some((high * 16 + low) as u8)
}

/// Whether these tokens lead to a schema, and not to data.
fn leads_to_schema(tokens: &[String]) -> bool
    ensures { result ≡ is_schema_form (form_after form.Schema (map text tokens.now)) }
{
    let mut form = Form::Schema;
    for token in tokens {
        form = form_in(form, token);
    }
    is_schema_form(form)
}

/// The form of what is at a token: in a schema, in a list of schemas or in an object of schemas.
fn form_in(form: Form, token: &String) -> Form
    ensures { result ≡ form_in form (text token.now) }
{
    match form {
        Form::Schema => form_at(token.as_str()),
        Form::Schemas | Form::SchemaMap | Form::PatternMap => Form::Schema,
        _ => Form::Anything,
    }
}

fn is_schema_form(form: Form) -> bool
    ensures { result ≡ is_schema_form form }
{
    matches!(form, Form::Schema)
}
