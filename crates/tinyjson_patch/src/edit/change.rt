//! Changes of the part that tokens name.
ghost use Rattle.std.specs.Prelude.{◌≡◌, [], Err, map};
ghost use Rattle.std.specs.Str.{chars};
ghost use Rattle.tinyjson.specs.View.{text};
ghost use Rattle.tinyjson_grammar.specs.Tree.{array, no_items, object};
ghost use Rattle.tinyjson_patch.specs.private.Changes.{Changes, ChangesPart, Inserts, Removes};
ghost use Rattle.tinyjson_patch.specs.private.Edited.{tree, items_tree, members_tree};
ghost use Rattle.tinyjson_patch.specs.private.Opening.{closed};
ghost use Rattle.tinyjson_pointer.specs.Change.{with_child, without_child};
ghost use Rattle.tinyjson_pointer.specs.Walk.{step};

use crate::edit::edited::Edited;
use crate::edit::opened::{Opened, close_all, go_down};
use std::alloc::{AllocError, Global};
use std::collections::{BTreeMap, VecDeque};
use std::mem;
use tinyjson_pointer::{index, insertion_index};

/// Why a value is not changed.
#[derive(Clone, Copy)]
pub(crate) enum ChangeError {
    /// The tokens name no part, or no place for one.
    NoPlace,
    /// An allocation failed.
    OutOfMemory,
}

impl From<AllocError> for ChangeError {
    ghost use Rattle.tinyjson_patch.specs.declared.edit.change.ChangeError.{ChangeError};

    ghost from_gives = { λ _ e. e ≡ ChangeError.OutOfMemory };

    fn from(_: AllocError) -> ChangeError {
        ChangeError::OutOfMemory
    }
}

/// What is done to the part at which the tokens arrive.
#[derive(Drop)]
pub(crate) enum Change<'d, 't> {
    /// The part becomes another one.
    Replace(Edited<'d>),
    /// The part is a container, into which another one is inserted.
    Insert(&'t str, Edited<'d>),
    /// The part is a container, out of which one is removed.
    Remove(&'t str),
}

/// Changes the part that the tokens name, and returns what was replaced or removed. After an error the whole may be any
/// value, and the part of the change is freed.
pub(crate) fn change_at<'d>(
    whole: &mut Edited<'d>,
    alloc: Global,
    tokens: &[String],
    change: Change<'d, '_>,
) -> Result<Option<Edited<'d>>, ChangeError>
    ensures { Changes change.entry (tree whole.old) (map text tokens.now) result (tree whole.new) }
{
    let mut part = take(alloc, whole);
    let mut opened = Vec::new(alloc);
    let answer = change_below(&mut part, alloc, tokens, &mut opened, change);
    *whole = close_all(alloc, opened, part);
    answer
}

/// Goes down to the part that the tokens name, and changes it there. The containers on the way are left open.
fn change_below<'d, 't>(
    part: &mut Edited<'d>,
    alloc: Global,
    tokens: &'t [String],
    opened: &mut Vec<Opened<'d, 't>>,
    change: Change<'d, '_>,
) -> Result<Option<Edited<'d>>, ChangeError>
    requires { opened.old.items ≡ [] }
    ensures { Changes change.entry (tree part.old) (map text tokens.now) result
        (closed opened.new.items (tree part.new)) }
{
    match go_down(alloc, part, tokens, opened) {
        Ok(()) => change_here(part, alloc, change),
        Err(error) => refused(alloc, change, error),
    }
}

/// Takes the value out, and leaves an empty array.
pub(crate) fn take<'d>(alloc: Global, whole: &mut Edited<'d>) -> Edited<'d>
    ensures old { result ≡ whole.old }
    ensures empty { tree whole.new ≡ array no_items }
{
    mem::replace(whole, Edited::Array(VecDeque::new(alloc)))
}

/// Frees what the change has.
fn refused<'d>(
    alloc: Global,
    change: Change<'d, '_>,
    error: ChangeError,
) -> Result<Option<Edited<'d>>, ChangeError>
    ensures { result ≡ Err error }
{
    match change {
        Change::Replace(part) | Change::Insert(_, part) => part.dismantle(alloc),
        Change::Remove(_) => {}
    }
    Err(error)
}

fn change_here<'d>(
    part: &mut Edited<'d>,
    alloc: Global,
    change: Change<'d, '_>,
) -> Result<Option<Edited<'d>>, ChangeError>
    ensures { ChangesPart change.entry (tree part.old) result (tree part.new) }
{
    match change {
        Change::Replace(other) => Ok(Some(mem::replace(part, other))),
        Change::Insert(token, child) => {
            insert_child(part, alloc, token, child)?;
            Ok(None)
        }
        Change::Remove(token) => Ok(Some(remove_child(part, alloc, token)?)),
    }
}

#[tactic(auto, using(crate::proofs::Editing::Trees::tree_Array))]
fn insert_child<'d>(
    part: &mut Edited<'d>,
    alloc: Global,
    token: &str,
    child: Edited<'d>,
) -> Result<(), ChangeError>
    ensures { Inserts (with_child (tree part.old) (chars token.now) (tree child.entry))
        result (tree part.new) }
{
    let Ok(()) = part.expand(alloc) else {
        child.dismantle(alloc);
        return Err(ChangeError::OutOfMemory);
    };
    match take(alloc, part) {
        Edited::Object(members) => {
            let mut members = members;
            let answer = insert_member(&mut members, alloc, token, child);
            *part = Edited::Object(members);
            answer
        }
        Edited::Array(items) => {
            let mut items = items;
            let answer = insert_item(&mut items, alloc, token, child);
            *part = Edited::Array(items);
            answer
        }
        Edited::Kept(_) => {
            child.dismantle(alloc);
            Err(ChangeError::NoPlace)
        }
    }
}

fn insert_member<'d>(
    members: &mut BTreeMap<String, Edited<'d>>,
    alloc: Global,
    token: &str,
    child: Edited<'d>,
) -> Result<(), ChangeError>
    ensures { Inserts
        (with_child (object (members_tree members.old.entries)) (chars token.now) (tree child.entry))
        result (object (members_tree members.new.entries)) }
{
    let Ok(key) = String::from_str(alloc, token) else {
        child.dismantle(alloc);
        return Err(ChangeError::OutOfMemory);
    };
    match members.insert(key, child) {
        Ok(None) => Ok(()),
        Ok(Some(old)) => {
            old.dismantle(alloc);
            Ok(())
        }
        Err(refused) => {
            refused.value.1.dismantle(alloc);
            Err(ChangeError::OutOfMemory)
        }
    }
}

fn insert_item<'d>(
    items: &mut VecDeque<Box<Edited<'d>>>,
    alloc: Global,
    token: &str,
    child: Edited<'d>,
) -> Result<(), ChangeError>
    ensures { Inserts
        (with_child (array (items_tree items.old.items)) (chars token.now) (tree child.entry))
        result (array (items_tree items.new.items)) }
{
    let Some(at) = insertion_index(token, items.len()) else {
        child.dismantle(alloc);
        return Err(ChangeError::NoPlace);
    };
    let item = match Box::new(alloc, child) {
        Ok(item) => item,
        Err(refused) => {
            refused.value.dismantle(alloc);
            return Err(ChangeError::OutOfMemory);
        }
    };
    match items.insert(at, item) {
        Ok(()) => Ok(()),
        Err(refused) => {
            Box::into_inner(refused.value).dismantle(alloc);
            Err(ChangeError::OutOfMemory)
        }
    }
}

#[tactic(auto, using(crate::proofs::Editing::Trees::tree_Array))]
fn remove_child<'d>(
    part: &mut Edited<'d>,
    alloc: Global,
    token: &str,
) -> Result<Edited<'d>, ChangeError>
    ensures { Removes (step (tree part.old) (chars token.now))
        (without_child (tree part.old) (chars token.now)) result (tree part.new) }
{
    part.expand(alloc)?;
    match take(alloc, part) {
        Edited::Object(members) => {
            let mut members = members;
            let answer = remove_member(&mut members, token);
            *part = Edited::Object(members);
            answer
        }
        Edited::Array(items) => {
            let mut items = items;
            let answer = remove_item(&mut items, token);
            *part = Edited::Array(items);
            answer
        }
        Edited::Kept(_) => Err(ChangeError::NoPlace),
    }
}

fn remove_member<'d>(
    members: &mut BTreeMap<String, Edited<'d>>,
    token: &str,
) -> Result<Edited<'d>, ChangeError>
    ensures { Removes (step (object (members_tree members.old.entries)) (chars token.now))
        (without_child (object (members_tree members.old.entries)) (chars token.now))
        result (object (members_tree members.new.entries)) }
{
    match members.remove(token) {
        Some(old) => Ok(old),
        None => Err(ChangeError::NoPlace),
    }
}

fn remove_item<'d>(
    items: &mut VecDeque<Box<Edited<'d>>>,
    token: &str,
) -> Result<Edited<'d>, ChangeError>
    ensures { Removes (step (array (items_tree items.old.items)) (chars token.now))
        (without_child (array (items_tree items.old.items)) (chars token.now))
        result (array (items_tree items.new.items)) }
{
    let Some(at) = index(token) else {
        return Err(ChangeError::NoPlace);
    };
    match items.remove(at) {
        Some(old) => Ok(Box::into_inner(old)),
        None => Err(ChangeError::NoPlace),
    }
}
