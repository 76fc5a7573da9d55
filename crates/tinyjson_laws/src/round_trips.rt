//! Callers that write a value and read it again, proved from the contracts of the calls and from the laws.
//!
//! What they ensure could be met without those calls. The laws that hold of the calls themselves are in `calls`.
ghost use Rattle.std.specs.Prelude.{◌≡◌, ◌↔◌, IsTrue, IfOk, MatchResult, encode_utf8_all};
ghost use Rattle.std.specs.Str.{chars};
ghost use Rattle.tinyjson_grammar.specs.Syntax.{AreWhite};
ghost use Rattle.tinyjson_grammar.specs.Text.{indented};
ghost use Rattle.tinyjson.specs.View.{view};
ghost use Rattle.tinyjson_grammar.specs.declared.error.JsonParseErrorKind.TheVariants.{OutOfMemory};
ghost use Rattle.tinyjson_laws.specs.Calls.{IsValueOf};

use std::alloc::Global;
use std::io;
use tinyjson::{JsonGenerateError, JsonGenerator, JsonParseErrorKind, JsonParseResult, JsonValue};

/// Whether the compact texts of two values are the same, which they are exactly if the values are equal.
pub fn same_written(alloc: Global, a: &JsonValue, b: &JsonValue) -> Result<bool, JsonGenerateError>
    ensures { IfOk result (λ same. IsTrue same ↔ (view a.now ≡ view b.now)) }
{
    let first = a.stringify(alloc)?;
    let second = b.stringify(alloc)?;
    Ok(first == second)
}

/// Whether the compact text of a value is read as an equal value. It always is, unless memory runs out.
pub fn reads_back(alloc: Global, value: &JsonValue) -> Result<bool, JsonParseErrorKind>
    ensures { MatchResult result (λ same. IsTrue same) (λ kind. kind ≡ OutOfMemory) }
{
    let Ok(text) = value.stringify(alloc) else {
        return Err(JsonParseErrorKind::OutOfMemory);
    };
    match JsonValue::from_str(alloc, text.as_str()) {
        Ok(back) => Ok(back == *value),
        Err(error) => Err(error.kind()),
    }
}

/// The bytes of a value's text with this indent, by a generator that gives its writer back.
pub fn indented_bytes(alloc: Global, value: &JsonValue, indent: &str) -> io::Result<Vec<u8>>
    ensures { IfOk result
        (λ bytes. bytes.items
        ≡ encode_utf8_all (indented (view value.now) (chars indent.now) 0)) }
{
    let mut generator = JsonGenerator::new(alloc, Vec::new(alloc)).indent(indent);
    generator.generate(value)?;
    Ok(generator.into_inner())
}

/// What is read of a value's text with an indent of white space: an equal value, unless memory runs out.
pub fn indented_and_read(
    alloc: Global,
    value: &JsonValue,
    indent: &str,
) -> io::Result<JsonParseResult>
    requires { AreWhite (chars indent.now) }
    ensures { IfOk result (λ back. IsValueOf (view value.now) back) }
{
    let bytes = indented_bytes(alloc, value, indent)?;
    match String::from_utf8(bytes) {
        Ok(text) => Ok(JsonValue::from_str(alloc, text.as_str())),
        Err(_) => unreachable!(),
    }
}

/// What is read of a value's text that is indented with four spaces.
pub fn four_spaces_and_read(alloc: Global, value: &JsonValue) -> io::Result<JsonParseResult>
    ensures { IfOk result (λ back. IsValueOf (view value.now) back) }
{
    indented_and_read(alloc, value, "    ")
}

/// What is read of a value's text that is indented with a tab.
pub fn tab_and_read(alloc: Global, value: &JsonValue) -> io::Result<JsonParseResult>
    ensures { IfOk result (λ back. IsValueOf (view value.now) back) }
{
    indented_and_read(alloc, value, "\t")
}

/// What is read of a value's text with the empty indent, where each item begins a line of its own.
pub fn lines_and_read(alloc: Global, value: &JsonValue) -> io::Result<JsonParseResult>
    ensures { IfOk result (λ back. IsValueOf (view value.now) back) }
{
    indented_and_read(alloc, value, "")
}
