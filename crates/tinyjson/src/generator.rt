//! The generator: values to text (RFC 8259, section 10).
ghost use Rattle.std.specs.Prelude.{◌≡◌, Some, None, IfSome, IfOk, IsTrue, string_bytes, codes};
ghost use Rattle.std.specs.Str.{all_scalars, chars};
ghost use Rattle.tinyjson.specs.Indent.{indent_of};
ghost use Rattle.tinyjson_grammar.specs.Text.{compact, indented, text};
ghost use Rattle.tinyjson.specs.View.{view};
ghost use Rattle.tinyjson_output.specs.Written.{WritesText};

mod encode;
mod frames;
mod quick;
mod sorted;

use crate::value::JsonValue;
use encode::encode;
use std::alloc::Global;
use std::error::Error;
use std::fmt;
use std::io::{self, ErrorKind, Write};

/// Writes JSON values to a writer, compact or indented.
///
/// The keys of each object are in the order of their UTF-8 bytes, so each value has one compact text.
///
/// ```
/// let v = JsonValue::from("hello, world".to_string(alloc)?);
/// let mut buf = Vec::new(alloc);
/// let mut generator = JsonGenerator::new(alloc, &mut buf);
/// generator.generate(&v)?;
///
/// assert_eq!(rt; String::from_utf8(buf)?.as_str(), "\"hello, world\"");
/// ```
#[derive(Drop)]
pub struct JsonGenerator<'indent, W: Write> {
    alloc: Global,
    out: W,
    indent: Option<&'indent str>,
}

impl<'indent, W: Write> JsonGenerator<'indent, W> {
    ghost use Rattle.tinyjson.specs.Generator.{generator_out, generator_indent};

    /// A generator of compact text.
    ///
    /// ```
    /// let mut generator = JsonGenerator::new(alloc, Vec::new(alloc));
    /// generator.generate(&JsonValue::Null)?;
    /// assert_eq!(rt; generator.into_inner().as_slice(), b"null".as_slice());
    /// ```
    pub fn new(alloc: Global, out: W) -> Self
        ensures out { generator_out result ≡ out }
        ensures indent { generator_indent result ≡ None }
    {
        JsonGenerator {
            alloc,
            out,
            indent: None,
        }
    }

    /// Writes indented text from now on: each item and each key on a line of its own, after `indent`
    /// once for each container around it. Only text that is indented by white space, or by the empty
    /// text, is JSON. The last call decides.
    ///
    /// ```
    /// let v = JsonValue::from(vec![in alloc;
    ///     JsonValue::from(JsonNumber::from_i64(alloc, 1)?),
    ///     JsonValue::from(JsonNumber::from_i64(alloc, 2)?),
    ///     JsonValue::from(JsonNumber::from_i64(alloc, 3)?),
    /// ]?);
    /// let mut buf = Vec::new(alloc);
    /// let mut generator = JsonGenerator::new(alloc, &mut buf).indent("        ");
    /// generator.generate(&v)?;
    ///
    /// assert_eq!(rt;
    ///     String::from_utf8(buf)?.as_str(),
    ///     "[
    ///         1,
    ///         2,
    ///         3
    /// ]"
    /// );
    /// ```
    pub fn indent(self, indent: &'indent str) -> Self
        ensures out { generator_out result ≡ generator_out self.entry }
        ensures indent { generator_indent result ≡ Some (chars indent.now) }
    {
        let JsonGenerator { alloc, out, .. } = self;
        JsonGenerator {
            alloc,
            out,
            indent: Some(indent),
        }
    }

    /// Writes the text of the value, in UTF-8, and flushes nothing.
    ///
    /// It ends with the first error: the writer's own, an interruption too, or one of kind `WriteZero` where
    /// the writer takes nothing. It is of kind `OutOfMemory` where there is no memory for sorting the
    /// members of an object that has two or more, or for more than 64 containers open at once. Then a
    /// prefix of the text is written, and the next call begins a new text. A value of any depth is written.
    ///
    /// ```
    /// let v = JsonValue::from(vec![in alloc;
    ///     JsonValue::from(JsonNumber::from_i64(alloc, 1)?),
    ///     JsonValue::from(JsonNumber::from_i64(alloc, 2)?),
    ///     JsonValue::from(JsonNumber::from_i64(alloc, 3)?),
    /// ]?);
    ///
    /// let mut buf = Vec::new(alloc);
    /// let mut generator = JsonGenerator::new(alloc, &mut buf);
    /// generator.generate(&v)?;
    /// assert_eq!(rt; String::from_utf8(buf)?.as_str(), "[1,2,3]");
    ///
    /// let mut buf = Vec::new(alloc);
    /// // With an indent of two spaces
    /// let mut generator = JsonGenerator::new(alloc, &mut buf).indent("  ");
    /// generator.generate(&v)?;
    ///
    /// assert_eq!(rt;
    ///     String::from_utf8(buf)?.as_str(),
    ///     "[
    ///   1,
    ///   2,
    ///   3
    /// ]"
    /// );
    /// ```
    ///
    /// ```
    /// let mut generator = JsonGenerator::new(alloc, Vec::new(alloc));
    /// generator.generate(&JsonValue::Null)?;
    /// generator.generate(&JsonValue::Boolean(true))?;
    /// assert_eq!(rt; generator.into_inner().as_slice(), b"nulltrue".as_slice());
    /// ```
    pub fn generate(&mut self, value: &JsonValue) -> io::Result<()>
        ensures written { WritesText (W.contents (generator_out self.old))
            (W.contents (generator_out self.new))
            (text (generator_indent self.old) 0 (view value.now)) result }
        ensures same { generator_indent self.new ≡ generator_indent self.old }
    {
        encode(self.alloc, self.indent, &mut self.out, value)
    }

    /// The writer, with what was written to it so far. Nothing is flushed.
    ///
    /// ```
    /// let generator = JsonGenerator::new(alloc, Vec::<u8>::new(alloc));
    /// assert!(rt; generator.into_inner().is_empty());
    /// ```
    pub fn into_inner(self) -> W
        ensures { result ≡ generator_out self.entry }
    {
        let JsonGenerator { out, .. } = self;
        out
    }
}

/// The indent of [`format`].
const INDENT: &str = "  ";

/// The compact text of a value.
///
/// ```
/// let v = JsonValue::from(vec![in alloc;
///     JsonValue::from(JsonNumber::from_i64(alloc, 1)?),
///     JsonValue::from(JsonNumber::from_i64(alloc, 2)?),
///     JsonValue::from(JsonNumber::from_i64(alloc, 3)?),
/// ]?);
/// let s = tinyjson::stringify(alloc, &v)?;
/// assert_eq!(rt; s.as_str(), "[1,2,3]");
/// ```
pub fn stringify(alloc: Global, value: &JsonValue) -> JsonGenerateResult
    ensures { IfOk result (λ s. chars (string_bytes s) ≡ compact (view value.now)) }
{
    written(alloc, None, value)
}

/// The text of a value, indented with two spaces.
///
/// ```
/// let v = JsonValue::from(vec![in alloc;
///     JsonValue::from(JsonNumber::from_i64(alloc, 1)?),
///     JsonValue::from(JsonNumber::from_i64(alloc, 2)?),
///     JsonValue::from(JsonNumber::from_i64(alloc, 3)?),
/// ]?);
/// let s = tinyjson::format(alloc, &v)?;
/// assert_eq!(rt; s.as_str(), "[\n  1,\n  2,\n  3\n]");
/// ```
pub fn format(alloc: Global, value: &JsonValue) -> JsonGenerateResult
    ensures { IfOk result (λ s. chars (string_bytes s) ≡ indented (view value.now) (codes "  ") 0) }
{
    written(alloc, Some(INDENT), value)
}

impl JsonValue {
    /// The compact text.
    ///
    /// ```
    /// let v = JsonValue::from(vec![in alloc;
    ///     JsonValue::from(JsonNumber::from_i64(alloc, 1)?),
    ///     JsonValue::from(true),
    ///     JsonValue::from("str".to_string(alloc)?),
    /// ]?);
    /// let s = v.stringify(alloc)?;
    /// assert_eq!(rt; s.as_str(), "[1,true,\"str\"]");
    /// ```
    pub fn stringify(&self, alloc: Global) -> JsonGenerateResult
        ensures { IfOk result (λ s. chars (string_bytes s) ≡ compact (view self.now)) }
    {
        stringify(alloc, self)
    }

    /// The text indented with two spaces.
    ///
    /// ```
    /// let v = JsonValue::from(vec![in alloc;
    ///     JsonValue::from(JsonNumber::from_i64(alloc, 1)?),
    ///     JsonValue::from(true),
    ///     JsonValue::from("str".to_string(alloc)?),
    /// ]?);
    /// let s = v.format(alloc)?;
    /// assert_eq!(rt;
    ///     s.as_str(),
    ///     "[
    ///   1,
    ///   true,
    ///   \"str\"
    /// ]"
    /// );
    /// ```
    pub fn format(&self, alloc: Global) -> JsonGenerateResult
        ensures { IfOk result (λ s. chars (string_bytes s) ≡ indented (view self.now)
            (codes "  ") 0) }
    {
        format(alloc, self)
    }

    /// Writes the compact text, with the errors of [`JsonGenerator::generate`].
    ///
    /// ```
    /// let v = JsonValue::from(vec![in alloc;
    ///     JsonValue::from(JsonNumber::from_i64(alloc, 1)?),
    ///     JsonValue::from(true),
    ///     JsonValue::from("str".to_string(alloc)?),
    /// ]?);
    /// let mut bytes = Vec::new(alloc);
    /// v.write_to(alloc, &mut bytes)?;
    /// assert_eq!(rt; String::from_utf8(bytes)?.as_str(), "[1,true,\"str\"]");
    /// ```
    pub fn write_to<W: Write>(&self, alloc: Global, w: &mut W) -> io::Result<()>
        ensures { WritesText (W.contents w.old) (W.contents w.new)
            (compact (view self.now)) result }
    {
        encode(alloc, None, w, self)
    }

    /// Writes the text indented with two spaces, with the errors of [`JsonGenerator::generate`].
    ///
    /// ```
    /// let v = JsonValue::from(vec![in alloc;
    ///     JsonValue::from(JsonNumber::from_i64(alloc, 1)?),
    ///     JsonValue::from(true),
    ///     JsonValue::from("str".to_string(alloc)?),
    /// ]?);
    /// let mut bytes = Vec::new(alloc);
    /// v.format_to(alloc, &mut bytes)?;
    /// assert_eq!(rt;
    ///     String::from_utf8(bytes)?.as_str(),
    ///     "[
    ///   1,
    ///   true,
    ///   \"str\"
    /// ]"
    /// );
    /// ```
    pub fn format_to<W: Write>(&self, alloc: Global, w: &mut W) -> io::Result<()>
        ensures { WritesText (W.contents w.old) (W.contents w.new)
            (indented (view self.now) (codes "  ") 0) result }
    {
        encode(alloc, Some(INDENT), w, self)
    }
}

/// The text, whose bytes are UTF-8, since a value's characters are scalar values.
fn written(alloc: Global, indent: Option<&str>, value: &JsonValue) -> JsonGenerateResult
    requires { IfSome (indent_of indent) (λ i. IsTrue (all_scalars i)) }
    ensures { IfOk result
        (λ s. chars (string_bytes s) ≡ text (indent_of indent.entry) 0 (view value.now)) }
{
    let mut bytes = Vec::new(alloc);
    let Ok(()) = encode(alloc, indent, &mut bytes, value) else {
        return Err(JsonGenerateError);
    };
    match String::from_utf8(bytes) {
        Ok(text) => Ok(text),
        Err(_) => unreachable!(),
    }
}

/// A text, or that there is no memory for it.
///
/// ```
/// let written: JsonGenerateResult = stringify(alloc, &JsonValue::Null);
/// assert!(rt; written.is_ok());
/// ```
pub type JsonGenerateResult = Result<String, JsonGenerateError>;

/// There is no memory for a text.
///
/// ```
/// let words = JsonGenerateError.to_string(alloc)?;
/// assert_eq!(rt; words.as_str(), "Generate error: out of memory");
/// ```
#[derive(Debug, Drop)]
pub struct JsonGenerateError;

impl JsonGenerateError {
    /// What went wrong.
    ///
    /// ```
    /// assert_eq!(rt; JsonGenerateError.message(), "out of memory");
    /// ```
    pub fn message(&self) -> &str
        ensures { result.now ≡ codes "out of memory" }
    {
        "out of memory"
    }
}

/// The message of the error.
impl fmt::Display for JsonGenerateError {
    ghost use Rattle.std.specs.Prelude.{Some, codes};

    ghost output = { λ _. Some (codes "Generate error: out of memory") };

    fn fmt<W: fmt::Write>(&self, f: &mut fmt::Formatter<W>) -> fmt::Result {
        write!(f, "Generate error: {}", self.message())
    }
}

impl Error for JsonGenerateError {}

/// An error of kind `OutOfMemory`.
impl From<JsonGenerateError> for io::Error {
    ghost use Rattle.std.specs.IoError.{error_kind};
    ghost use Rattle.std.specs.declared.io.ErrorKind.TheVariants as io;

    ghost from_gives = { λ _ r. error_kind r ≡ io.OutOfMemory };

    fn from(_error: JsonGenerateError) -> io::Error {
        io::Error::from(ErrorKind::OutOfMemory)
    }
}
