//! The segments `.` and `..` of a path.
ghost use Rattle.std.specs.Prelude.{◌≡◌, IfOk};
ghost use Rattle.std.specs.String.{string_bytes};
ghost use Rattle.text_uri.specs.Dots.{after_segment, is_dots, step, without_dots};
ghost use Rattle.text_uri.specs.Dots.{first_segment, after_first_segment};
ghost use Rattle.text_uri.specs.Splitting.{now};

use crate::cutting::{End, after, end_in, remove_last_segment};
use std::alloc::{AllocError, Global};

/// The path without the segments `.`, and without each `..` and the segment before it (RFC 3986, section 5.2.4).
pub(crate) fn without_dots(alloc: Global, path: &str) -> Result<String, AllocError>
    ensures { IfOk result (λ s. string_bytes s ≡ without_dots path.now) }
{
    let mut output = String::new(alloc);
    let mut input = path;
    while !input.is_empty() {
        input = step(&mut output, input)?;
    }
    Ok(output)
}

/// Makes one of the steps A to E of the RFC, and returns the rest of the input.
fn step<'t>(output: &mut String, input: &'t str) -> Result<&'t str, AllocError>
    ensures input { IfOk result (λ rest. rest.now ≡ (step (string_bytes output.old) input.now).1) }
    ensures output { IfOk result (λ rest.
        string_bytes output.new ≡ (step (string_bytes output.old) input.now).0) }
{
    if let Some(rest) = after("../", input) {
        return Ok(rest);
    }
    if let Some(rest) = after("./", input) {
        return Ok(rest);
    }
    if let Some(rest) = after_segment("/.", input) {
        return Ok(rest);
    }
    if let Some(rest) = after_segment("/..", input) {
        remove_last_segment(output);
        return Ok(rest);
    }
    if is_dots(input) {
        return Ok("");
    }
    let (segment, rest) = cut_segment(input);
    output.push_str(segment)?;
    Ok(rest)
}

/// The input with its front replaced by `/`, if it begins with it and a segment ends there.
fn after_segment<'t>(front: &str, input: &'t str) -> Option<&'t str>
    ensures { now result ≡ after_segment front.now input.now }
{
    let rest = after(front, input)?;
    match rest.as_bytes().first() {
        None => Some("/"),
        Some(b'/') => Some(rest),
        Some(_) => None,
    }
}

fn is_dots(input: &str) -> bool
    ensures { result ≡ is_dots input.now }
{
    input == "." || input == ".."
}

/// The first segment, with the `/` before it if there is one, and the rest.
fn cut_segment(input: &str) -> (&str, &str)
    ensures segment { result.0.now ≡ first_segment input.now }
    ensures rest { result.1.now ≡ after_first_segment input.now }
{
    match input.as_bytes().split_first() {
        Some((_, more)) => input.split_at(1 + end_in(more, End::Segment)),
        None => ("", ""),
    }
}
