//! The form of a text.
ghost use Rattle.std.specs.Bool.{Decides};
ghost use Rattle.std.specs.IoError.{error_kind};
ghost use Rattle.std.specs.Prelude.{◌≡◌, ◌∷◌, ◌++◌, [], IfErr};
ghost use Rattle.std.specs.Prelude.{IfOk, IfSome, MatchResult, Some, encode_utf8_all, option_map, string_bytes, true};
ghost use Rattle.std.specs.Str.{chars};
ghost use Rattle.std.specs.declared.io.ErrorKind.{ErrorKind};
ghost use Rattle.tinyjson.specs.Characters.{line_feed};
ghost use Rattle.tinyjson.specs.Text.{text};
ghost use Rattle.tinyjson.specs.View.{view};
ghost use Rattle.tinyjson_cli.specs.Tools.{Answered};
ghost use Rattle.json_format.specs.Form.{Formats, GivesFormatted, IsForm, IsNoForm, name_line};

use std::alloc::{AllocError, Global};
use std::io::{self, ErrorKind, Write};
use tinyjson::{JsonGenerator, JsonValue};
use tinyjson_cli::{Input, NoAnswer, Shown, Status, Tool};
use tinyjson_lines::{Cause, write_all};

/// How texts are formatted.
#[derive(Drop)]
pub struct Formatter<'a> {
    /// What a level is indented by.
    pub indent: &'a str,
    /// Whether the name of an input that is not in form is printed, and not its form.
    pub is_check: bool,
}

impl Tool for Formatter<'_> {
    ghost gives = { λ a source text f b. GivesFormatted a.is_check (chars a.indent.now)
        source.file text f × (b ≡ a) };

    fn answer<W: Write>(
        &mut self,
        alloc: Global,
        input: Input<'_>,
        output: &mut W,
    ) -> io::Result<Result<Status, NoAnswer>> {
        self.answer_text(alloc, input.text.as_str(), input.file, output)
    }
}

impl Formatter<'_> {
    fn answer_text<W: Write>(
        &self,
        alloc: Global,
        text: &str,
        file: Option<&str>,
        output: &mut W,
    ) -> io::Result<Result<Status, NoAnswer>>
        ensures { Answered (Formats self.now (option_map (λ f. f.now) file.entry) (chars text.now))
            self.now (W.contents output.old) (W.contents output.new) result }
    {
        match formatted(alloc, text, self.indent)? {
            Ok(form) => self.answer_form(alloc, text, form.as_slice(), file, output),
            Err(why) => Ok(Err(why)),
        }
    }

    /// Prints the form of a text; or checks whether it is the text.
    fn answer_form<W: Write>(
        &self,
        alloc: Global,
        text: &str,
        form: &[u8],
        file: Option<&str>,
        output: &mut W,
    ) -> io::Result<Result<Status, NoAnswer>>
        ensures { IsForm (chars self.now.indent.now) (chars text.now) form.now →
            Answered (Formats self.now (option_map (λ f. f.now) file.entry) (chars text.now))
            self.now (W.contents output.old) (W.contents output.new) result }
    {
        if self.is_check {
            return self.check_form(alloc, text, form, file, output);
        }
        write_all(output, form)?;
        Ok(Ok(Status::Done))
    }

    /// Prints the name of an input that is not in form.
    fn check_form<W: Write>(
        &self,
        alloc: Global,
        text: &str,
        form: &[u8],
        file: Option<&str>,
        output: &mut W,
    ) -> io::Result<Result<Status, NoAnswer>>
        ensures { self.now.is_check ≡ true →
            IsForm (chars self.now.indent.now) (chars text.now) form.now →
            Answered (Formats self.now (option_map (λ f. f.now) file.entry) (chars text.now))
            self.now (W.contents output.old) (W.contents output.new) result }
    {
        if has_bytes(text, form) {
            return Ok(Ok(Status::Done));
        }
        let name = name_line(alloc, file)?;
        write_all(output, name.as_bytes())?;
        Ok(Ok(Status::No))
    }
}

/// The text with sorted keys and this indent, one spelling for each number, and a line feed at its end. The only error is
/// out of memory.
///
/// ```
/// formatted(alloc, "{\"b\":1.0,\"a\":2}", "  ")?? // {, a line for each member, "a" first, and }
/// ```
pub fn formatted(alloc: Global, text: &str, indent: &str) -> io::Result<Result<Vec<u8>, NoAnswer>>
    ensures ok { IfOk result (λ form. MatchResult form
        (λ v. IsForm (chars indent.now) (chars text.now) v.items)
        (IsNoForm (chars text.now))) }
    ensures err { IfErr result (λ e. error_kind e ≡ ErrorKind.OutOfMemory) }
{
    let value = match JsonValue::from_str(alloc, text) {
        Ok(value) => value,
        Err(error) => {
            if error.is_out_of_memory() {
                return Err(io::Error::from(ErrorKind::OutOfMemory));
            }
            return Ok(Err(NoAnswer::Refused(Cause::NotJson(error))));
        }
    };
    let form = form_of(alloc, &value, indent);
    value.dismantle();
    match form {
        Some(form) => Ok(Ok(form)),
        None => Err(io::Error::from(ErrorKind::OutOfMemory)),
    }
}

/// Whether a text has these bytes.
fn has_bytes(text: &str, bytes: &[u8]) -> bool
    ensures { Decides result (bytes.now ≡ encode_utf8_all (chars text.now)) }
{
    bytes == text.as_bytes()
}

/// The name of an input, as it is printed.
fn name_line(alloc: Global, file: Option<&str>) -> Result<String, AllocError>
    ensures { IfOk result (λ s. string_bytes s ≡ name_line (option_map (λ f. f.now) file.entry)) }
{
    let name = file.unwrap_or("-");
    format!(in alloc; "{}\n", Shown(name))
}

/// The text of a value, unless memory runs out.
fn form_of(alloc: Global, value: &JsonValue, indent: &str) -> Option<Vec<u8>>
    ensures { IfSome result (λ v. v.items ≡
        encode_utf8_all (text (Some (chars indent.now)) 0 (view value.now)) ++ line_feed ∷ []) }
{
    let mut generator = JsonGenerator::new(alloc, Vec::new(alloc)).indent(indent);
    if generator.generate(value).is_err() {
        return None;
    }
    let mut bytes = generator.into_inner();
    if bytes.push(b'\n').is_err() {
        return None;
    }
    Some(bytes)
}
