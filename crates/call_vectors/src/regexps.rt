//! Regular expressions of RFC 9485 and of ECMA-262, and patterns of schemas.

use crate::expressions::{judged, work_of};
use crate::inputs::Inputs;
use crate::reply::Reply;
use std::io;
use text_ecma_regexp::is_regex;
use text_formats::Format;
use text_iregexp::{
    IRegexp, IRegexpError, IRegexpErrorKind, SchemaPattern, SchemaPatternError,
    SchemaPatternErrorKind,
};

/// The first input is the regular expression, and the others are texts; for `is_found_within` texts with the work that each may take
/// before it.
pub fn answer(reply: &mut Reply, name: &str, inputs: &Inputs) -> io::Result<bool> {
    match name {
        "IRegexp" => regexp(reply, inputs)?,
        "SchemaPattern" => pattern(reply, inputs)?,
        "is_found_within" => pattern_within(reply, inputs)?,
        "is_regex" => {
            reply.shown(is_regex(inputs.text(0)))?;
            reply.shown(Format::Regex.accepts(inputs.text(0)))?;
        }
        _ => return Ok(false),
    }
    Ok(true)
}

fn regexp(reply: &mut Reply, inputs: &Inputs) -> io::Result<()> {
    match IRegexp::parse(reply.alloc, inputs.text(0)) {
        Ok(mut regexp) => matched(reply, &mut regexp, inputs.from(1)),
        Err(error) => regexp_error(reply, error),
    }
}

/// Whether all of each text is matched, whether a part is, and the first answer once more.
fn matched(reply: &mut Reply, regexp: &mut IRegexp, texts: &[String]) -> io::Result<()> {
    for text in texts {
        reply.shown(regexp.matches(text.as_str()))?;
        reply.shown(regexp.searches(text.as_str()))?;
        reply.shown(regexp.matches(text.as_str()))?;
    }
    Ok(())
}

/// Why a text is rejected, where, and the message.
fn regexp_error(reply: &mut Reply, error: IRegexpError) -> io::Result<()> {
    reply.word("error")?;
    reply.word(kind_name(error.kind))?;
    reply.shown(error.place)?;
    reply.message(error)
}

fn kind_name(kind: IRegexpErrorKind) -> &'static str {
    match kind {
        IRegexpErrorKind::Invalid => "Invalid",
        IRegexpErrorKind::TooDeep => "TooDeep",
        IRegexpErrorKind::TooLarge => "TooLarge",
        IRegexpErrorKind::OutOfMemory => "OutOfMemory",
    }
}

fn pattern(reply: &mut Reply, inputs: &Inputs) -> io::Result<()> {
    match SchemaPattern::parse(reply.alloc, inputs.text(0)) {
        Ok(mut pattern) => found(reply, &mut pattern, inputs.from(1)),
        Err(error) => pattern_error(reply, error),
    }
}

/// Whether the pattern is found in each text, twice.
fn found(reply: &mut Reply, pattern: &mut SchemaPattern, texts: &[String]) -> io::Result<()> {
    for text in texts {
        reply.shown(pattern.is_found_in(text.as_str()))?;
        reply.shown(pattern.is_found_in(text.as_str()))?;
    }
    Ok(())
}

fn pattern_within(reply: &mut Reply, inputs: &Inputs) -> io::Result<()> {
    match SchemaPattern::parse(reply.alloc, inputs.text(0)) {
        Ok(mut pattern) => found_within(reply, &mut pattern, inputs.from(1)),
        Err(error) => pattern_error(reply, error),
    }
}

fn found_within(
    reply: &mut Reply,
    pattern: &mut SchemaPattern,
    pairs: &[String],
) -> io::Result<()> {
    for pair in pairs.chunks(2) {
        if let [units, text] = pair {
            let mut work = work_of(units.as_str());
            let is_found = pattern.is_found_within(text.as_str(), &mut work);
            judged(reply, is_found, work)?;
        }
    }
    Ok(())
}

fn pattern_error(reply: &mut Reply, error: SchemaPatternError) -> io::Result<()> {
    reply.word("error")?;
    reply.word(reason_name(error.kind))?;
    reply.shown(error.place)?;
    reply.message(error)
}

fn reason_name(kind: SchemaPatternErrorKind) -> &'static str {
    match kind {
        SchemaPatternErrorKind::Invalid => "Invalid",
        SchemaPatternErrorKind::Outside => "Outside",
        SchemaPatternErrorKind::TooDeep => "TooDeep",
        SchemaPatternErrorKind::TooLarge => "TooLarge",
        SchemaPatternErrorKind::OutOfMemory => "OutOfMemory",
    }
}
