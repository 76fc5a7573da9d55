//! Containers that are open: a part was moved out, so that it is changed without recursion, and is put back.
ghost use Rattle.std.specs.Prelude.{◌≡◌, ◌∷◌, [], map};
ghost use Rattle.std.specs.Str.{chars};
ghost use Rattle.tinyjson.specs.Index.{with_nth};
ghost use Rattle.tinyjson.specs.View.{text};
ghost use Rattle.tinyjson_patch.specs.private.Edited.{IsApart, items_tree, members_tree, tree};
ghost use Rattle.tinyjson_patch.specs.private.Opening.{closed, closed_once, Descends, Opens, Pushes, StepsDown};
ghost use Rattle.tinyjson_patch.specs.private.Opening.{TakesItem, TakesMember};
ghost use Rattle.tinyjson_grammar.specs.Tree.{array, object};
ghost use Rattle.tinyjson_pointer.specs.Walk.{with_part};

use crate::edit::change::{ChangeError, take};
use crate::edit::edited::Edited;
use std::alloc::Global;
use std::collections::{BTreeMap, VecDeque};
use tinyjson_pointer::index;

/// A container without one of its parts, and the place of that part.
#[derive(Drop)]
pub(crate) enum Opened<'d, 't> {
    Array(VecDeque<Box<Edited<'d>>>, usize),
    Object(BTreeMap<String, Edited<'d>>, &'t str),
}

/// Goes down to the part that the tokens name, which is moved into `part`. The containers on the way are left open, the
/// outermost first. After an error they may be any.
pub(crate) fn go_down<'d, 't>(
    alloc: Global,
    part: &mut Edited<'d>,
    tokens: &'t [String],
    opened: &mut Vec<Opened<'d, 't>>,
) -> Result<(), ChangeError>
    ensures { Descends (tree part.old) (map text tokens.now) result opened.old.items
        opened.new.items (tree part.new) }
{
    let mut rest = tokens;
    while let Some((token, others)) = rest.split_first() {
        step_down(alloc, part, token.as_str(), opened)?;
        rest = others;
    }
    Ok(())
}

/// Moves the part that one token names into `part`, and puts its container on the list.
fn step_down<'d, 't>(
    alloc: Global,
    part: &mut Edited<'d>,
    token: &'t str,
    opened: &mut Vec<Opened<'d, 't>>,
) -> Result<(), ChangeError>
    ensures { StepsDown (tree part.old) (chars token.now) result opened.old.items
        opened.new.items (tree part.new) }
{
    part.expand(alloc)?;
    let (outer, inner) = open(alloc, take(alloc, part), token)?;
    *part = inner;
    push(alloc, opened, outer)
}

/// Moves the part that the token names out of the container. After an error it is freed.
fn open<'d, 't>(
    alloc: Global,
    container: Edited<'d>,
    token: &'t str,
) -> Result<(Opened<'d, 't>, Edited<'d>), ChangeError>
    requires { IsApart container }
    ensures { Opens (tree container.entry) (chars token.now) result }
{
    match container {
        Edited::Object(members) => open_object(alloc, members, token),
        Edited::Array(items) => open_array(alloc, items, token),
        Edited::Kept(_) => Err(ChangeError::NoPlace),
    }
}

fn open_object<'d, 't>(
    alloc: Global,
    members: BTreeMap<String, Edited<'d>>,
    token: &'t str,
) -> Result<(Opened<'d, 't>, Edited<'d>), ChangeError>
    ensures { Opens (object (members_tree members.entry.entries)) (chars token.now) result }
{
    let mut members = members;
    match take_member(alloc, &mut members, token) {
        Some(member) => Ok((Opened::Object(members, token), member)),
        None => {
            Edited::Object(members).dismantle(alloc);
            Err(ChangeError::NoPlace)
        }
    }
}

fn open_array<'d, 't>(
    alloc: Global,
    items: VecDeque<Box<Edited<'d>>>,
    token: &'t str,
) -> Result<(Opened<'d, 't>, Edited<'d>), ChangeError>
    ensures { Opens (array (items_tree items.entry.items)) (chars token.now) result }
{
    let mut items = items;
    let Some(at) = index(token) else {
        Edited::Array(items).dismantle(alloc);
        return Err(ChangeError::NoPlace);
    };
    match take_item(alloc, &mut items, at) {
        Some(item) => Ok((Opened::Array(items, at), item)),
        None => {
            Edited::Array(items).dismantle(alloc);
            Err(ChangeError::NoPlace)
        }
    }
}

/// Takes a member out, and leaves an empty array.
fn take_member<'d>(
    alloc: Global,
    members: &mut BTreeMap<String, Edited<'d>>,
    token: &str,
) -> Option<Edited<'d>>
    ensures { TakesMember members.old.entries (chars token.now) result members.new.entries }
{
    match members.get_mut(token) {
        Some(member) => Some(take(alloc, member)),
        None => None,
    }
}

/// Takes an item out, and leaves an empty array.
fn take_item<'d>(
    alloc: Global,
    items: &mut VecDeque<Box<Edited<'d>>>,
    at: usize,
) -> Option<Edited<'d>>
    ensures { TakesItem items.old.items at result items.new.items }
{
    match items.get_mut(at) {
        Some(item) => Some(Box::replace(item, Edited::Array(VecDeque::new(alloc)))),
        None => None,
    }
}

/// Puts a container on the list. If memory runs out, it is freed.
fn push<'d, 't>(
    alloc: Global,
    opened: &mut Vec<Opened<'d, 't>>,
    outer: Opened<'d, 't>,
) -> Result<(), ChangeError>
    ensures { Pushes opened.old.items outer.entry result opened.new.items }
{
    match opened.push(outer) {
        Ok(()) => Ok(()),
        Err(refused) => {
            match refused.value {
                Opened::Array(items, _) => Edited::Array(items).dismantle(alloc),
                Opened::Object(members, _) => Edited::Object(members).dismantle(alloc),
            }
            Err(ChangeError::OutOfMemory)
        }
    }
}

/// Puts the part into the innermost container, this one into the next, and so on.
pub(crate) fn close_all<'d>(
    alloc: Global,
    opened: Vec<Opened<'d, '_>>,
    part: Edited<'d>,
) -> Edited<'d>
    ensures { tree result ≡ closed opened.entry.items (tree part.entry) }
{
    let mut opened = opened;
    let mut part = part;
    while let Some(outer) = opened.pop() {
        part = close(alloc, outer, part);
    }
    part
}

/// Puts the part back into the container.
fn close<'d>(alloc: Global, outer: Opened<'d, '_>, part: Edited<'d>) -> Edited<'d>
    ensures { tree result ≡ closed_once outer.entry (tree part.entry) }
{
    match outer {
        Opened::Array(items, at) => {
            let mut items = items;
            put_item(alloc, &mut items, at, part);
            Edited::Array(items)
        }
        Opened::Object(members, token) => {
            let mut members = members;
            put_member(alloc, &mut members, token, part);
            Edited::Object(members)
        }
    }
}

fn put_item<'d>(alloc: Global, items: &mut VecDeque<Box<Edited<'d>>>, at: usize, part: Edited<'d>)
    ensures { items_tree items.new.items
        ≡ with_nth (items_tree items.old.items) at (tree part.entry) }
{
    match items.get_mut(at) {
        Some(item) => {
            let _ = Box::replace(item, part);
        }
        None => part.dismantle(alloc),
    }
}

fn put_member<'d>(
    alloc: Global,
    members: &mut BTreeMap<String, Edited<'d>>,
    token: &str,
    part: Edited<'d>,
)
    ensures { object (members_tree members.new.entries)
        ≡ with_part (object (members_tree members.old.entries)) (chars token.now ∷ [])
        (tree part.entry) }
{
    match members.get_mut(token) {
        Some(member) => *member = part,
        None => part.dismantle(alloc),
    }
}
