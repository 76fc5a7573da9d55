//! The names of Unicode's properties in regular expressions.
ghost use Rattle.std.specs.Prelude.{◌≡◌, codes, List};
ghost use Rattle.text_ecma_regexp.specs.PropertyNames.{general_categories, binary_properties, scripts};
ghost use Rattle.text_ecma_regexp.specs.Regex.{is_word, is_category_of, is_script_of, is_value};
ghost use Rattle.text_ecma_regexp.specs.Regex.{is_property, property_end, property_front};
ghost use Rattle.text_ecma_regexp.specs.Scan.{now};

use crate::letters::{End, after_brace, is_same};
use crate::property_names::{BINARY_PROPERTIES, GENERAL_CATEGORIES, SCRIPTS};
use text_uri::cut;

/// Whether the text is one of the words, which have spaces between them.
fn is_word(words: &[u8], text: &[u8]) -> bool
    ensures { result ≡ is_word words.now text.now }
{
    words.split(|c| *c == b' ').any(|word| is_same(text, word))
}

fn is_general_category(text: &[u8]) -> bool
    ensures { result ≡ is_word general_categories text.now }
{
    is_word(GENERAL_CATEGORIES, text)
}

fn is_binary(text: &[u8]) -> bool
    ensures { result ≡ is_word binary_properties text.now }
{
    is_word(BINARY_PROPERTIES, text)
}

fn is_script(text: &[u8]) -> bool
    ensures { result ≡ is_word scripts text.now }
{
    is_word(SCRIPTS, text)
}

fn is_category_of(name: &[u8], value: &[u8]) -> bool
    ensures { result ≡ is_category_of name.now value.now }
{
    is_word(b"General_Category gc", name) && is_general_category(value)
}

fn is_script_of(name: &[u8], value: &[u8]) -> bool
    ensures { result ≡ is_script_of name.now value.now }
{
    is_word(b"Script sc Script_Extensions scx", name) && is_script(value)
}

/// Whether there is such a property, alone, or with the value after the sign.
fn is_value(name: &[u8], rest: &[u8]) -> bool
    ensures { result ≡ is_value name.now rest.now }
{
    match rest {
        [] => is_general_category(name) || is_binary(name),
        [_, value @ ..] => is_category_of(name, value) || is_script_of(name, value),
    }
}

fn is_property(text: &[u8]) -> bool
    ensures { result ≡ is_property text.now }
{
    let (name, rest) = cut(text, End::Equals);
    is_value(name, rest)
}

fn property_end(text: &[u8]) -> Option<&[u8]>
    ensures { now result ≡ property_end text.now }
{
    let (property, rest) = cut(text, End::Brace);
    if !is_property(property) {
        return None;
    }
    after_brace(rest)
}

/// What follows a property in braces.
pub(crate) fn property_front(text: &[u8]) -> Option<&[u8]>
    ensures { now result ≡ property_front text.now }
{
    match text {
        [b'{', rest @ ..] => property_end(rest),
        _ => None,
    }
}
