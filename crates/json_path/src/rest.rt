//! Writes what is left of a value without some places of it.
ghost use Rattle.std.specs.Prelude.{◌≡◌, ◌<◌, ◌+◌, ◌++◌, ◌∷◌, [], encode_utf8_all, IfOk, OnOk};
ghost use Rattle.std.specs.Str.{chars};
ghost use Rattle.tinyjson.specs.Text.{compact, quoted, separator};
ghost use Rattle.tinyjson.specs.Written.{WritesPrefix, WritesText};
ghost use Rattle.tinyjson_document.specs.Comparing.{weight};
ghost use Rattle.tinyjson_document.specs.Document.{tree};
ghost use Rattle.tinyjson_path.specs.Nodes.{at_index, at_key, path_view};
ghost use Rattle.json_path.specs.Places.{has_path, IsBounded};
ghost use Rattle.json_path.specs.Left.{Goes, items_left_bytes, items_left_weight, left_bytes, left_weight};
ghost use Rattle.json_path.specs.Left.{members_left_bytes, members_left_weight, stack_bytes, stack_weight};
ghost use Rattle.json_path.specs.Without.{without};

use crate::places::{Places, place_path};
use std::alloc::{AllocError, Global};
use std::io::{self, ErrorKind, Write};
use std::rc::Rc;
use tinyjson::JsonValue;
use tinyjson_document::{Items, Members, Node};
use tinyjson_lines::write_all;
use tinyjson_path::Location;

/// What is left to write of an array, before its closing bracket.
#[derive(Drop)]
struct ItemsLeft<'d> {
    array: Rc<Location<'d>>,
    items: Items<'d>,
    /// The index of the first of them.
    index: usize,
    /// Whether no item is written.
    is_first: bool,
}

/// What is left to write of an object, before its closing bracket.
#[derive(Drop)]
struct MembersLeft<'d> {
    object: Rc<Location<'d>>,
    members: Members<'d>,
    /// Whether no member is written.
    is_first: bool,
}

/// What is left to write of an open container.
#[derive(Drop)]
enum Left<'d> {
    Items(ItemsLeft<'d>),
    Members(MembersLeft<'d>),
}

/// Writes the compact text of the value without these places. The value may be nested to any depth.
///
/// It stops at the first error of the writer, or if memory runs out. Then a prefix of the text is written.
pub fn write_without<W: Write>(
    alloc: Global,
    value: Node<'_>,
    places: &Places,
    output: &mut W,
) -> io::Result<()>
    requires { IsBounded places.now }
    ensures { WritesText (W.contents output.old) (W.contents output.new)
        (compact (without (has_path places.now) [] (tree value.entry))) result }
{
    let walk = Walk { alloc, places };
    let mut stack = Vec::new(alloc);
    let root = root_place(alloc)?;
    walk.begin(value, root, &mut stack, output)?;
    walk.finish(&mut stack, output)
}

/// A walk through a value. The open containers are on a stack, the innermost one last.
#[derive(Clone, Copy)]
struct Walk<'p> {
    alloc: Global,
    places: &'p Places,
}

impl Walk<'_> {
    /// Writes a scalar, or an opening bracket, and opens the container.
    fn begin<'d, W: Write>(
        &self,
        value: Node<'d>,
        place: Rc<Location<'d>>,
        stack: &mut Vec<Left<'d>>,
        output: &mut W,
    ) -> io::Result<()>
        ensures sent { Goes (W.contents output.old) (W.contents output.new)
            (encode_utf8_all (compact
            (without (has_path self.now.places.now) (path_view place.entry.value)
            (tree value.entry))) ++ stack_bytes (has_path self.now.places.now) stack.old.items)
            (stack_bytes (has_path self.now.places.now) stack.new.items) result }
        ensures less { OnOk result (stack_weight stack.new.items
            < weight (tree value.entry) + stack_weight stack.old.items) }
    {
        if value.is_array() {
            write_all(output, b"[")?;
            stack.push(Left::Items(ItemsLeft {
                array: place,
                items: value.items(),
                index: 0,
                is_first: true,
            }))?;
            return Ok(());
        }
        if value.is_object() {
            write_all(output, b"{")?;
            stack.push(Left::Members(MembersLeft {
                object: place,
                members: value.members(),
                is_first: true,
            }))?;
            return Ok(());
        }
        value.write_to(self.alloc, output)
    }

    /// Writes all that is left.
    fn finish<'d, W: Write>(&self, stack: &mut Vec<Left<'d>>, output: &mut W) -> io::Result<()>
        requires { IsBounded self.now.places.now }
        ensures { WritesPrefix (W.contents output.old) (W.contents output.new)
            (stack_bytes (has_path self.now.places.now) stack.old.items) result }
    {
        while let Some(left) = stack.pop() {
            self.resume(left, stack, output)?;
        }
        Ok(())
    }

    /// Writes what comes next of a container: how an item or a member begins, or the closing bracket.
    fn resume<'d, W: Write>(
        &self,
        left: Left<'d>,
        stack: &mut Vec<Left<'d>>,
        output: &mut W,
    ) -> io::Result<()>
        requires { IsBounded self.now.places.now }
        ensures sent { Goes (W.contents output.old) (W.contents output.new)
            (left_bytes (has_path self.now.places.now) left.entry
            ++ stack_bytes (has_path self.now.places.now) stack.old.items)
            (stack_bytes (has_path self.now.places.now) stack.new.items) result }
        ensures less { OnOk result (stack_weight stack.new.items
            < left_weight left.entry + stack_weight stack.old.items) }
    {
        match left {
            Left::Items(left) => self.resume_items(left, stack, output),
            Left::Members(left) => self.resume_members(left, stack, output),
        }
    }

    fn resume_items<'d, W: Write>(
        &self,
        left: ItemsLeft<'d>,
        stack: &mut Vec<Left<'d>>,
        output: &mut W,
    ) -> io::Result<()>
        requires { IsBounded self.now.places.now }
        ensures sent { Goes (W.contents output.old) (W.contents output.new)
            (items_left_bytes (has_path self.now.places.now) left.entry
            ++ stack_bytes (has_path self.now.places.now) stack.old.items)
            (stack_bytes (has_path self.now.places.now) stack.new.items) result }
        ensures less { OnOk result (stack_weight stack.new.items
            < items_left_weight left.entry + stack_weight stack.old.items) }
    {
        let ItemsLeft {
            array,
            mut items,
            index,
            is_first,
        } = left;
        let Some(item) = items.next() else {
            return write_all(output, b"]");
        };
        let Some(next) = index.checked_add(1) else {
            return Err(io::Error::from(ErrorKind::OutOfMemory));
        };
        let place = item_place(self.alloc, &array, index)?;
        let path = place_path(self.alloc, &place)?;
        if self.places.contains(path.as_str()) {
            stack.push(Left::Items(ItemsLeft {
                array,
                items,
                index: next,
                is_first,
            }))?;
            return Ok(());
        }
        separate(output, is_first)?;
        stack.push(Left::Items(ItemsLeft {
            array,
            items,
            index: next,
            is_first: false,
        }))?;
        if !self.places.is_longer(path.len()) {
            return item.write_to(self.alloc, output);
        }
        self.begin(item, place, stack, output)
    }

    fn resume_members<'d, W: Write>(
        &self,
        left: MembersLeft<'d>,
        stack: &mut Vec<Left<'d>>,
        output: &mut W,
    ) -> io::Result<()>
        requires { IsBounded self.now.places.now }
        ensures sent { Goes (W.contents output.old) (W.contents output.new)
            (members_left_bytes (has_path self.now.places.now) left.entry
            ++ stack_bytes (has_path self.now.places.now) stack.old.items)
            (stack_bytes (has_path self.now.places.now) stack.new.items) result }
        ensures less { OnOk result (stack_weight stack.new.items
            < members_left_weight left.entry + stack_weight stack.old.items) }
    {
        let MembersLeft {
            object,
            mut members,
            is_first,
        } = left;
        let Some((key, member)) = members.next() else {
            return write_all(output, b"}");
        };
        let place = member_place(self.alloc, &object, key)?;
        let path = place_path(self.alloc, &place)?;
        if self.places.contains(path.as_str()) {
            stack.push(Left::Members(MembersLeft {
                object,
                members,
                is_first,
            }))?;
            return Ok(());
        }
        separate(output, is_first)?;
        write_key(self.alloc, key, output)?;
        stack.push(Left::Members(MembersLeft {
            object,
            members,
            is_first: false,
        }))?;
        if !self.places.is_longer(path.len()) {
            return member.write_to(self.alloc, output);
        }
        self.begin(member, place, stack, output)
    }
}

fn root_place<'d>(alloc: Global) -> Result<Rc<Location<'d>>, AllocError>
    ensures { IfOk result (λ l. path_view l.value ≡ []) }
{
    Ok(Rc::new(alloc, Location::Root)?)
}

/// The place of an item of an array.
fn item_place<'d>(
    alloc: Global,
    array: &Rc<Location<'d>>,
    index: usize,
) -> Result<Rc<Location<'d>>, AllocError>
    ensures { IfOk result (λ l. path_view l.value
        ≡ path_view array.now.value ++ at_index index ∷ []) }
{
    Ok(Rc::new(alloc, Location::Item(array.clone()?, index))?)
}

/// The place of a member of an object.
fn member_place<'d>(
    alloc: Global,
    object: &Rc<Location<'d>>,
    key: &'d str,
) -> Result<Rc<Location<'d>>, AllocError>
    ensures { IfOk result (λ l. path_view l.value
        ≡ path_view object.now.value ++ at_key (chars key.now) ∷ []) }
{
    Ok(Rc::new(alloc, Location::Member(object.clone()?, key))?)
}

/// Writes the comma before an item or a member, if it is not the first.
fn separate<W: Write>(output: &mut W, is_first: bool) -> io::Result<()>
    ensures { WritesPrefix (W.contents output.old) (W.contents output.new)
        (encode_utf8_all (separator is_first)) result }
{
    if is_first {
        return Ok(());
    }
    write_all(output, b",")
}

/// Writes the key of a member, and the colon after it.
fn write_key<W: Write>(alloc: Global, key: &str, output: &mut W) -> io::Result<()>
    ensures { WritesPrefix (W.contents output.old) (W.contents output.new)
        (encode_utf8_all (quoted (chars key.now)) ++ 58 ∷ []) result }
{
    write_quoted(alloc, key, output)?;
    write_all(output, b":")
}

/// Writes the characters as a string of JSON.
fn write_quoted<W: Write>(alloc: Global, characters: &str, output: &mut W) -> io::Result<()>
    ensures { WritesText (W.contents output.old) (W.contents output.new)
        (quoted (chars characters.now)) result }
{
    let string = JsonValue::String(String::from_str(alloc, characters)?);
    string.write_to(alloc, output)
}
