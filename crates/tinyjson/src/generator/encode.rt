//! Values, compact and indented.
ghost use Rattle.std.specs.Prelude.{◌≡◌, ◌++◌, ◌∷◌, ◌+◌, ◌-◌, ◌<◌, ◌≤◌, ℕ, [], None};
ghost use Rattle.std.specs.Prelude.{IsErr, IsOk, MatchResult, length, take, drop};
ghost use Rattle.std.specs.Str.{chars, encode_utf8_all};
ghost use Rattle.tinyjson_grammar.specs.Characters.{name_separator};
ghost use Rattle.tinyjson.specs.Indent.{indent_of};
ghost use Rattle.tinyjson.specs.private.Encoding.{IsStack, frames, unwritten, gathered_in};
ghost use Rattle.tinyjson.specs.private.Encoding.{Advances, Begins, OnlyBuffers};
ghost use Rattle.tinyjson_grammar.specs.Text.{text, items_text, members_text, quoted};
ghost use Rattle.tinyjson_grammar.specs.Text.{before, newline};
ghost use Rattle.tinyjson_grammar.specs.Text.{after_colon};
ghost use Rattle.tinyjson_grammar.specs.Tree.{array, object, boolean as boolean_tree};
ghost use Rattle.tinyjson.specs.View.{view, items_view, members_view};
ghost use Rattle.tinyjson_output.specs.Buffer.{buffered, Buffers, Sends, SendsText};
ghost use Rattle.tinyjson.specs.private.Sorted.{sorted_view};
ghost use Rattle.tinyjson_output.specs.Written.{WritesText};
ghost use Rattle.tinyjson.specs.declared.generator.frames.Frame.TheVariants.{Items, Member};
ghost use Rattle.tinyjson.specs.declared.generator.frames.Frame.TheVariants.{Members};

use super::frames::{Frame, Stack};
use super::quick::{quick_items, quick_member, quick_members, quick_value};
use super::sorted::{gather_sorted, next_member};
use crate::value::JsonValue;
use std::alloc::Global;
use std::collections::HashMap;
use std::io::{self, Write};
use tinyjson_output::{
    Buffer, flush, quick_key, quote, separate, write_bytes, write_colon, write_newline,
    write_number,
};

/// Writes the text of the value, by way of a buffer that is flushed at the end. After an error a
/// prefix of the text is written.
pub(super) fn encode<'a, W: Write>(
    alloc: Global,
    indent: Option<&'a str>,
    out: &mut W,
    value: &'a JsonValue,
) -> io::Result<()>
    ensures { WritesText (W.contents out.old) (W.contents out.new)
        (text (indent_of indent.entry) 0 (view value.now)) result }
{
    let mut encoder = Encoder::new(alloc, indent);
    encoder.value(out, value)?;
    flush(out, &mut encoder.buffer)
}

/// How a value is written, compact or indented by a text, and what of it is not written yet.
#[derive(Drop)]
struct Encoder<'a> {
    alloc: Global,
    indent: Option<&'a str>,
    buffer: Buffer,
    /// The members of the open objects that are still to be written, the next one last.
    gathered: Vec<(&'a str, &'a JsonValue)>,
}

impl<'a> Encoder<'a> {
    #[inline(always)]
    fn new(alloc: Global, indent: Option<&'a str>) -> Self
        ensures indent { result.indent ≡ indent.entry }
        ensures buffer { buffered result.buffer ≡ [] }
    {
        Encoder {
            alloc,
            indent,
            buffer: Buffer::new(),
            gathered: Vec::new(alloc),
        }
    }

    /// Writes how the value begins, and then what is left of the open containers, the innermost first. The
    /// last bytes may still be in the buffer.
    fn value<W: Write>(&mut self, out: &mut W, value: &'a JsonValue) -> io::Result<()>
        ensures { SendsText W.contents out.old out.new self.old.buffer self.new.buffer
            (text (indent_of self.old.indent) 0 (view value.now)) result }
    {
        match self.begin(out, value)? {
            None => Ok(()),
            Some(frame) => self.finish(out, frame),
        }
    }

    /// Writes all that is left of the container. A container inside it is finished before it goes on.
    fn finish<W: Write>(&mut self, out: &mut W, frame: Frame<'a>) -> io::Result<()>
        ensures { SendsText W.contents out.old out.new self.old.buffer self.new.buffer
            (unwritten (indent_of self.old.indent) (frame.entry ∷ []) (gathered_in self.old))
            result }
    {
        // Made here, since most values leave nothing open: it has room for 64 frames.
        let mut stack = Stack::new(self.alloc);
        stack.push(frame)?;
        while let Some((frame, level)) = stack.pop() {
            self.resume(out, &mut stack, frame, level)?;
        }
        Ok(())
    }

    /// Writes what is left of a container, up to the next bracket.
    #[inline(always)]
    fn resume<W: Write>(
        &mut self,
        out: &mut W,
        stack: &mut Stack<'a>,
        frame: Frame<'a>,
        level: usize,
    ) -> io::Result<()>
        requires stack { IsStack stack.old }
        requires level { level ≡ length (frames stack.old) + 1 }
        ensures sent { Advances W.contents out.old out.new self.old self.new
            (frame.entry ∷ frames stack.old) result stack.new }
        ensures indent { self.new.indent ≡ self.old.indent }
    {
        match frame {
            Frame::Items { rest, first } => self.items(out, stack, rest, first, level),
            Frame::Member { key, value } => self.only_member(out, stack, key, value, level),
            Frame::Members { left, first } => self.members(out, stack, left, first, level),
        }
    }

    /// Writes the one member of an object, and the closing brace unless the member's value stays
    /// open.
    #[inline(always)]
    fn only_member<W: Write>(
        &mut self,
        out: &mut W,
        stack: &mut Stack<'a>,
        key: &'a str,
        value: &'a JsonValue,
        level: usize,
    ) -> io::Result<()>
        requires stack { IsStack stack.old }
        requires level { level ≡ length (frames stack.old) + 1 }
        ensures sent { Advances W.contents out.old out.new self.old self.new
            (Member key.entry value.entry ∷ frames stack.old) result stack.new }
        ensures indent { self.new.indent ≡ self.old.indent }
    {
        let begun = self.member(out, key, value, level, true)?;
        match begun {
            Some(inner) => {
                let outer = Frame::Members {
                    left: 0,
                    first: false,
                };
                Ok(stack.enter(outer, inner)?)
            }
            None => self.close(out, level, b"}"),
        }
    }

    /// Writes the items that are left to an array, up to one that stays open or to the closing
    /// bracket.
    #[inline(always)]
    fn items<W: Write>(
        &mut self,
        out: &mut W,
        stack: &mut Stack<'a>,
        items: &'a [JsonValue],
        first: bool,
        level: usize,
    ) -> io::Result<()>
        requires stack { IsStack stack.old }
        requires level { level ≡ length (frames stack.old) + 1 }
        ensures sent { Advances W.contents out.old out.new self.old self.new
            (Items items.entry first ∷ frames stack.old) result stack.new }
        ensures indent { self.new.indent ≡ self.old.indent }
    {
        let (mut rest, mut first) = self.run_of_items(items, first);
        while let Some((item, others)) = rest.split_first() {
            let begun = self.item(out, item, level, first)?;
            rest = others;
            first = false;
            match begun {
                Some(inner) => return Ok(stack.enter(Frame::Items { rest, first }, inner)?),
                None => {}
            }
            (rest, first) = self.run_of_items(rest, first);
        }
        self.close(out, level, b"]")
    }

    /// Writes the members that are left to an object, up to one whose value stays open or to the
    /// closing brace.
    #[inline(always)]
    fn members<W: Write>(
        &mut self,
        out: &mut W,
        stack: &mut Stack<'a>,
        left: usize,
        first: bool,
        level: usize,
    ) -> io::Result<()>
        requires stack { IsStack stack.old }
        requires level { level ≡ length (frames stack.old) + 1 }
        ensures sent { Advances W.contents out.old out.new self.old self.new
            (Members left first ∷ frames stack.old) result stack.new }
        ensures indent { self.new.indent ≡ self.old.indent }
    {
        let (mut left, mut first) = self.run_of_members(left, first, false);
        while let Some((key, value)) = next_member(&mut self.gathered, left) {
            let begun = self.member(out, key, value, level, first)?;
            left -= 1;
            first = false;
            match begun {
                Some(inner) => return Ok(stack.enter(Frame::Members { left, first }, inner)?),
                None => {}
            }
            (left, first) = self.run_of_members(left, first, false);
        }
        self.close(out, level, b"}")
    }

    /// Writes what comes before the item, and the item or how it begins.
    fn item<W: Write>(
        &mut self,
        out: &mut W,
        value: &'a JsonValue,
        level: usize,
        first: bool,
    ) -> io::Result<Option<Frame<'a>>>
        ensures sent { Begins level W.contents out.old out.new self.old self.new
            (encode_utf8_all (before (indent_of self.old.indent) level first)
            ++ encode_utf8_all (text (indent_of self.old.indent) level (view value.now))) result }
        ensures indent { self.new.indent ≡ self.old.indent }
    {
        self.separate(out, level, first)?;
        self.begin(out, value)
    }

    /// Writes what comes before the member, its key, and its value or how that begins.
    fn member<W: Write>(
        &mut self,
        out: &mut W,
        key: &'a str,
        value: &'a JsonValue,
        level: usize,
        first: bool,
    ) -> io::Result<Option<Frame<'a>>>
        ensures sent { Begins level W.contents out.old out.new self.old self.new
            (encode_utf8_all (before (indent_of self.old.indent) level first)
            ++ encode_utf8_all (quoted (chars key.now)
            ++ (name_separator ∷ (after_colon (indent_of self.old.indent)
            ++ text (indent_of self.old.indent) level (view value.now))))) result }
        ensures indent { self.new.indent ≡ self.old.indent }
    {
        if quick_key(&mut self.buffer, self.indent.is_none(), first, key) {
            return self.begin(out, value);
        }
        self.separate(out, level, first)?;
        quote(out, &mut self.buffer, key)?;
        self.colon(out)?;
        self.begin(out, value)
    }

    /// Writes the closing bracket of a container whose items are at this level.
    #[inline(always)]
    fn close<W: Write>(&mut self, out: &mut W, level: usize, bracket: &[u8]) -> io::Result<()>
        requires { 0 < level }
        ensures sent { Sends W.contents out.old out.new self.old.buffer self.new.buffer
            (encode_utf8_all (newline (indent_of self.old.indent) (level - 1)) ++ bracket.now)
            result }
        ensures kept { OnlyBuffers self.old self.new }
    {
        self.newline(out, level - 1)?;
        write_bytes(out, &mut self.buffer, bracket)
    }

    /// Writes a scalar or an empty container. Of another container it writes the opening bracket and what
    /// fits at once, and returns what is left of it.
    #[inline(always)]
    fn begin<W: Write>(
        &mut self,
        out: &mut W,
        value: &'a JsonValue,
    ) -> io::Result<Option<Frame<'a>>>
        ensures sent { (k : ℕ) → Begins k W.contents out.old out.new self.old self.new
            (encode_utf8_all (text (indent_of self.old.indent) k (view value.now))) result }
        ensures indent { self.new.indent ≡ self.old.indent }
    {
        if quick_value(&mut self.buffer, value) {
            return Ok(None);
        }
        self.begin_slowly(out, value)
    }

    /// Writes a value as `begin` does, where it was not appended to the buffer at once: a container, or a
    /// text that does not fit or needs an escape.
    #[inline(never)]
    fn begin_slowly<W: Write>(
        &mut self,
        out: &mut W,
        value: &'a JsonValue,
    ) -> io::Result<Option<Frame<'a>>>
        ensures sent { (k : ℕ) → Begins k W.contents out.old out.new self.old self.new
            (encode_utf8_all (text (indent_of self.old.indent) k (view value.now))) result }
        ensures indent { self.new.indent ≡ self.old.indent }
    {
        match value {
            JsonValue::Null => complete(write_bytes(out, &mut self.buffer, b"null")),
            JsonValue::Boolean(value) => complete(write_boolean(out, &mut self.buffer, *value)),
            JsonValue::Number(number) => complete(write_number(out, &mut self.buffer, number)),
            JsonValue::String(text) => complete(quote(out, &mut self.buffer, text)),
            JsonValue::Array(items) => self.begin_array(out, items),
            JsonValue::Object(members) => self.begin_object(out, members),
        }
    }

    /// Writes the opening bracket and, in compact text, the scalars and empty containers at the front, as
    /// far as they fit. Returns what is left of the array, and `None` where it is complete.
    fn begin_array<W: Write>(
        &mut self,
        out: &mut W,
        items: &'a [JsonValue],
    ) -> io::Result<Option<Frame<'a>>>
        ensures sent { (k : ℕ) → Begins k W.contents out.old out.new self.old self.new
            (encode_utf8_all (text (indent_of self.old.indent) k (array (items_view items.now))))
            result }
        ensures indent { self.new.indent ≡ self.old.indent }
    {
        if items.is_empty() {
            return complete(write_bytes(out, &mut self.buffer, b"[]"));
        }
        write_bytes(out, &mut self.buffer, b"[")?;
        let (rest, first) = self.run_of_items(items, true);
        if rest.is_empty() && self.indent.is_none() {
            return complete(write_bytes(out, &mut self.buffer, b"]"));
        }
        Ok(Some(Frame::Items { rest, first }))
    }

    /// Writes the opening brace and, in compact text, the members at the front whose values are scalars or
    /// empty containers, as far as they fit. Members are put in order first; one alone needs no memory.
    fn begin_object<W: Write>(
        &mut self,
        out: &mut W,
        members: &'a HashMap<String, JsonValue>,
    ) -> io::Result<Option<Frame<'a>>>
        ensures sent { (k : ℕ) → Begins k W.contents out.old out.new self.old self.new
            (encode_utf8_all (text (indent_of self.old.indent) k
            (object (members_view members.now.entries)))) result }
        ensures indent { self.new.indent ≡ self.old.indent }
    {
        if members.len() > 1 {
            write_bytes(out, &mut self.buffer, b"{")?;
            let flat = gather_sorted(self.alloc, &mut self.gathered, members)?;
            let (left, first) = self.run_of_members(members.len(), true, flat);
            if left == 0 && self.indent.is_none() {
                return complete(write_bytes(out, &mut self.buffer, b"}"));
            }
            return Ok(Some(Frame::Members { left, first }));
        }
        let Some((key, value)) = members.iter().next() else {
            return complete(write_bytes(out, &mut self.buffer, b"{}"));
        };
        write_bytes(out, &mut self.buffer, b"{")?;
        let key = key.as_str();
        if quick_member(
            &mut self.buffer,
            self.indent.is_none(),
            true,
            false,
            key,
            value,
        ) {
            return complete(write_bytes(out, &mut self.buffer, b"}"));
        }
        Ok(Some(Frame::Member { key, value }))
    }

    /// Writes, in compact text, the scalars and empty containers at the front, as far as they fit.
    /// Returns the items that are left, and whether none was before them.
    #[inline(always)]
    fn run_of_items(&mut self, items: &'a [JsonValue], first: bool) -> (&'a [JsonValue], bool)
        ensures buffers { (k : ℕ) → Buffers (buffered self.old.buffer) (buffered self.new.buffer)
            (encode_utf8_all (items_text (indent_of self.old.indent) k first
            (items_view items.now)))
            (encode_utf8_all (items_text (indent_of self.old.indent) k result.1
            (items_view result.0.now))) }
        ensures less { length result.0.now ≤ length items.now }
        ensures kept { OnlyBuffers self.old self.new }
    {
        match self.indent {
            None => quick_items(&mut self.buffer, items, first),
            Some(_) => (items, first),
        }
    }

    /// Writes, in compact text, the first of `left` gathered members whose values are scalars or empty
    /// containers, as far as they fit. Returns how many are left, and whether none was before them.
    #[inline(always)]
    fn run_of_members(&mut self, left: usize, first: bool, flat: bool) -> (usize, bool)
        ensures buffers { (k : ℕ) → Buffers (buffered self.old.buffer) (buffered self.new.buffer)
            (encode_utf8_all (members_text (indent_of self.old.indent) k first
            (sorted_view (take left (gathered_in self.old)))))
            (encode_utf8_all (members_text (indent_of self.old.indent) k result.1
            (sorted_view (take result.0 (gathered_in self.new))))) }
        ensures others { drop result.0 (gathered_in self.new)
            ≡ drop left (gathered_in self.old) }
        ensures less { result.0 ≤ left }
        ensures indent { self.new.indent ≡ self.old.indent }
    {
        match self.indent {
            None => quick_members(&mut self.buffer, &mut self.gathered, left, first, flat),
            Some(_) => (left, first),
        }
    }

    /// Writes what comes before an item or a member: the comma, and the line and its indent.
    #[inline(always)]
    fn separate<W: Write>(&mut self, out: &mut W, level: usize, first: bool) -> io::Result<()>
        ensures sent { SendsText W.contents out.old out.new self.old.buffer self.new.buffer
            (before (indent_of self.old.indent) level first) result }
        ensures kept { OnlyBuffers self.old self.new }
    {
        separate(out, &mut self.buffer, self.indent, level, first)
    }

    #[inline(always)]
    fn newline<W: Write>(&mut self, out: &mut W, level: usize) -> io::Result<()>
        ensures sent { SendsText W.contents out.old out.new self.old.buffer self.new.buffer
            (newline (indent_of self.old.indent) level) result }
        ensures kept { OnlyBuffers self.old self.new }
    {
        write_newline(out, &mut self.buffer, self.indent, level)
    }

    #[inline(always)]
    fn colon<W: Write>(&mut self, out: &mut W) -> io::Result<()>
        ensures sent { SendsText W.contents out.old out.new self.old.buffer self.new.buffer
            (name_separator ∷ after_colon (indent_of self.old.indent)) result }
        ensures kept { OnlyBuffers self.old self.new }
    {
        write_colon(out, &mut self.buffer, self.indent)
    }
}

/// That nothing of a value is left once this is written.
#[inline(always)]
fn complete<'a>(written: io::Result<()>) -> io::Result<Option<Frame<'a>>>
    ensures { MatchResult result (λ left. (left ≡ None) × IsOk written) (λ _. IsErr written) }
{
    written?;
    Ok(None)
}

fn write_boolean<W: Write>(out: &mut W, buffer: &mut Buffer, value: bool) -> io::Result<()>
    ensures { SendsText W.contents out.old out.new buffer.old buffer.new
        (text None 0 (boolean_tree value)) result }
{
    write_bytes(
        out,
        buffer,
        if value {
            b"true".as_slice()
        } else {
            b"false".as_slice()
        },
    )
}
