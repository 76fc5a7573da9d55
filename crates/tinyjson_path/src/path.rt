//! The text of a normalized path (RFC 9535, 2.7).
ghost use Rattle.std.specs.Prelude.{◌≡◌, ◌<◌, ◌++◌, ◌∷◌, [], map, reverse, IfOk, OnOk};
ghost use Rattle.std.specs.Str.{chars};
ghost use Rattle.tinyjson.specs.View.{text};
ghost use Rattle.tinyjson_path.specs.Nodes.{at_index, path_view};
ghost use Rattle.tinyjson_path.specs.Paths.{path_text, step_text, escape, escape_char, escape_control, control_letter};
ghost use Rattle.tinyjson_path.specs.Paths.{hex_digit};
ghost use Rattle.tinyjson_path.specs.Seen.{step_view};

use crate::node::Location;
use std::alloc::{AllocError, Global};

/// The last step of a location.
#[derive(Clone, Copy)]
pub(crate) enum Step<'v> {
    Name(&'v str),
    Index(usize),
}

/// The text of the normalized path, as `$['a'][0]` (RFC 9535, 2.7). The only error is out of memory.
///
/// ```
/// path_text(alloc, &node.location)?; // $['a'][0]
/// ```
pub fn path_text(alloc: Global, location: &Location) -> Result<String, AllocError>
    ensures { IfOk result (λ s. text s ≡ path_text (path_view location.now)) }
{
    let mut steps = steps_up(alloc, location)?;
    let mut path = String::new(alloc);
    push(&mut path, '$')?;
    while let Some(step) = steps.pop() {
        push_step(&mut path, alloc, step)?;
    }
    Ok(path)
}

/// The steps from the location up to the root.
fn steps_up<'v>(alloc: Global, location: &Location<'v>) -> Result<Vec<Step<'v>>, AllocError>
    ensures { IfOk result (λ v. reverse (map step_view v.items) ≡ path_view location.now) }
{
    let mut steps = Vec::new(alloc);
    let mut here = location;
    loop {
        match here {
            Location::Root => return Ok(steps),
            Location::Member(up, name) => {
                steps.push(Step::Name(name))?;
                here = up;
            }
            Location::Item(up, index) => {
                steps.push(Step::Index(*index))?;
                here = up;
            }
        }
    }
}

fn push_step(path: &mut String, alloc: Global, step: Step) -> Result<(), AllocError>
    ensures { OnOk result (text path.new ≡ text path.old ++ step_text (step_view step.entry)) }
{
    match step {
        Step::Name(name) => {
            push_words(path, "['")?;
            push_escaped(path, name)?;
            push_words(path, "']")
        }
        Step::Index(index) => push_index(path, alloc, index),
    }
}

fn push_index(path: &mut String, alloc: Global, index: usize) -> Result<(), AllocError>
    ensures { OnOk result (text path.new ≡ text path.old ++ step_text (at_index index)) }
{
    push(path, '[')?;
    let digits = format!(in alloc; "{index}")?;
    push_words(path, digits.as_str())?;
    push(path, ']')
}

fn push_escaped(path: &mut String, name: &str) -> Result<(), AllocError>
    ensures { OnOk result (text path.new ≡ text path.old ++ escape (chars name.now)) }
{
    for c in name.chars() {
        push_escaped_char(path, c)?;
    }
    Ok(())
}

fn push_escaped_char(path: &mut String, c: char) -> Result<(), AllocError>
    ensures { OnOk result (text path.new ≡ text path.old ++ escape_char c) }
{
    if c == '\'' {
        push_words(path, "\\'")
    } else if c == '\\' {
        push_words(path, "\\\\")
    } else if c < ' ' {
        push_control(path, c)
    } else {
        push(path, c)
    }
}

/// The escape of a character below U+0020.
fn push_control(path: &mut String, c: char) -> Result<(), AllocError>
    requires { c < 32 }
    ensures { OnOk result (text path.new ≡ text path.old ++ escape_control c) }
{
    match control_letter(c) {
        Some(letter) => {
            push(path, '\\')?;
            push(path, letter)
        }
        None => {
            push_words(path, "\\u00")?;
            push(path, hex_digit(c as u32 / 16))?;
            push(path, hex_digit(c as u32 % 16))
        }
    }
}

/// The letter of a control character's short escape, where it has one.
fn control_letter(c: char) -> Option<char>
    ensures { result ≡ control_letter c }
{
    match c {
        '\u{8}' => Some('b'),
        '\t' => Some('t'),
        '\n' => Some('n'),
        '\u{c}' => Some('f'),
        '\r' => Some('r'),
        _ => None,
    }
}

fn hex_digit(value: u32) -> char
    requires { value < 16 }
    ensures { result ≡ hex_digit value }
{
    if value < 10 {
        char::from(b'0' + value as u8)
    } else {
        char::from(b'a' + (value as u8 - 10))
    }
}

/// Appends a character.
fn push(path: &mut String, c: char) -> Result<(), AllocError>
    ensures { OnOk result (text path.new ≡ text path.old ++ c ∷ []) }
{
    path.push(c)
}

/// Appends a text.
fn push_words(path: &mut String, words: &str) -> Result<(), AllocError>
    ensures { OnOk result (text path.new ≡ text path.old ++ chars words.now) }
{
    path.push_str(words)
}
