//! The text of a value that was changed, without recursion: what is left of the open containers is on a stack.
ghost use Rattle.std.specs.Prelude.{◌≡◌, ◌<◌, ◌+◌, ◌++◌, ◌∷◌, [], encode_utf8_all, OnOk};
ghost use Rattle.std.specs.Str.{chars};
ghost use Rattle.tinyjson.specs.Text.{compact, quoted, separator};
ghost use Rattle.tinyjson.specs.Written.{WritesPrefix, WritesText};
ghost use Rattle.tinyjson_document.specs.Comparing.{weight};
ghost use Rattle.tinyjson_patch.specs.private.Edited.{tree};
ghost use Rattle.tinyjson_patch.specs.private.Text.{Goes, rest_bytes, rest_weight, stack_bytes, stack_weight};

use crate::edit::edited::Edited;
use std::alloc::Global;
use std::collections::{btree_map, vec_deque};
use std::io::{self, Write};
use tinyjson::JsonValue;
use tinyjson_output::write_all;

/// What is left to write of an open container, before its closing bracket, and whether no part of it is written.
#[derive(Drop)]
pub(crate) enum Rest<'e, 'd> {
    Items(vec_deque::Iter<'e, Box<Edited<'d>>>, bool),
    Members(btree_map::Iter<'e, String, Edited<'d>>, bool),
}

/// Writes the compact text of the value, which may be taken apart to any depth.
///
/// It stops at the first error of the writer, or if memory runs out. Then a prefix of the text is written.
pub(crate) fn write_text<'e, 'd, W: Write>(
    alloc: Global,
    value: &'e Edited<'d>,
    output: &mut W,
) -> io::Result<()>
    ensures { WritesText (W.contents output.old) (W.contents output.new)
        (compact (tree value.now)) result }
{
    let mut stack: Vec<Rest<'e, 'd>> = Vec::new(alloc);
    begin(alloc, value, &mut stack, output)?;
    finish(alloc, &mut stack, output)
}

/// Writes all that is left.
fn finish<'e, 'd, W: Write>(
    alloc: Global,
    stack: &mut Vec<Rest<'e, 'd>>,
    output: &mut W,
) -> io::Result<()>
    ensures { WritesPrefix (W.contents output.old) (W.contents output.new)
        (stack_bytes stack.old.items) result }
{
    while let Some(rest) = stack.pop() {
        resume(alloc, rest, stack, output)?;
    }
    Ok(())
}

/// Writes a value as it was, or an opening bracket, and opens the container.
fn begin<'e, 'd, W: Write>(
    alloc: Global,
    part: &'e Edited<'d>,
    stack: &mut Vec<Rest<'e, 'd>>,
    output: &mut W,
) -> io::Result<()>
    ensures sent { Goes (W.contents output.old) (W.contents output.new)
        (encode_utf8_all (compact (tree part.now)) ++ stack_bytes stack.old.items)
        (stack_bytes stack.new.items) result }
    ensures less { OnOk result
        (stack_weight stack.new.items < weight (tree part.now) + stack_weight stack.old.items) }
{
    match part {
        Edited::Kept(view) => view.write_to(alloc, output),
        Edited::Array(items) => {
            write_all(output, b"[")?;
            stack.push(Rest::Items(items.iter(), true))?;
            Ok(())
        }
        Edited::Object(members) => {
            write_all(output, b"{")?;
            stack.push(Rest::Members(members.iter(), true))?;
            Ok(())
        }
    }
}

/// Writes what comes next of an open container: an item or a member, as far as it begins, or the closing bracket.
fn resume<'e, 'd, W: Write>(
    alloc: Global,
    rest: Rest<'e, 'd>,
    stack: &mut Vec<Rest<'e, 'd>>,
    output: &mut W,
) -> io::Result<()>
    ensures sent { Goes (W.contents output.old) (W.contents output.new)
        (rest_bytes rest.entry ++ stack_bytes stack.old.items)
        (stack_bytes stack.new.items) result }
    ensures less { OnOk result
        (stack_weight stack.new.items < rest_weight rest.entry + stack_weight stack.old.items) }
{
    match rest {
        Rest::Items(mut items, is_first) => {
            let Some(item) = items.next() else {
                return write_all(output, b"]");
            };
            separate(output, is_first)?;
            stack.push(Rest::Items(items, false))?;
            begin(alloc, item.as_ref(), stack, output)
        }
        Rest::Members(mut members, is_first) => {
            let Some((key, member)) = members.next() else {
                return write_all(output, b"}");
            };
            separate(output, is_first)?;
            write_key(alloc, key.as_str(), output)?;
            stack.push(Rest::Members(members, false))?;
            begin(alloc, member, stack, output)
        }
    }
}

/// Writes the comma before an item or a member, if it is not the first.
fn separate<W: Write>(output: &mut W, is_first: bool) -> io::Result<()>
    ensures { WritesPrefix (W.contents output.old) (W.contents output.new)
        (encode_utf8_all (separator is_first)) result }
{
    if is_first {
        return Ok(());
    }
    write_all(output, b",")
}

/// Writes the key of a member, and the colon after it.
fn write_key<W: Write>(alloc: Global, key: &str, output: &mut W) -> io::Result<()>
    ensures { WritesPrefix (W.contents output.old) (W.contents output.new)
        (encode_utf8_all (quoted (chars key.now)) ++ 58 ∷ []) result }
{
    write_quoted(alloc, key, output)?;
    write_all(output, b":")
}

/// Writes the characters as a string of JSON.
fn write_quoted<W: Write>(alloc: Global, characters: &str, output: &mut W) -> io::Result<()>
    ensures { WritesText (W.contents output.old) (W.contents output.new)
        (quoted (chars characters.now)) result }
{
    let string = JsonValue::String(String::from_str(alloc, characters)?);
    string.write_to(alloc, output)
}
