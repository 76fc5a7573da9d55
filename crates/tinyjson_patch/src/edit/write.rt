//! The document of a value that was changed, without recursion: what is left of the open containers is on a stack.
ghost use Rattle.std.specs.Prelude.{◌≡◌, ◌<◌, ◌+◌, [], ◌∷◌, ◌++◌, List, IfOk, OnOk, reverse};
ghost use Rattle.tinyjson.specs.Events.{Open, Puts};
ghost use Rattle.tinyjson.specs.View.{view};
ghost use Rattle.tinyjson_document.specs.Comparing.{weight};
ghost use Rattle.tinyjson_document.specs.Document.{document_tree};
ghost use Rattle.tinyjson_patch.specs.private.Edited.{tree};
ghost use Rattle.tinyjson_patch.specs.private.Writing.{Encloses, Waits, left_weight};
ghost use Rattle.tinyjson_grammar.specs.Tree.{Tree};
ghost use Rattle.tinyjson_view.specs.Views.{tree_of};

use crate::edit::edited::Edited;
use std::alloc::{AllocError, Global};
use std::collections::{btree_map, vec_deque};
use tinyjson::{Events, JsonValue};
use tinyjson_document::{Arena, Document, replay};
use tinyjson_view::ValueView;

/// What is left of an open container.
#[derive(Drop)]
pub(crate) enum Left<'e, 'd> {
    Items(vec_deque::Iter<'e, Box<Edited<'d>>>),
    Members(btree_map::Iter<'e, String, Edited<'d>>),
}

/// A document of its own for the value. The only error is out of memory.
pub(crate) fn document_of(alloc: Global, value: &Edited<'_>) -> Result<Document, AllocError>
    ensures { IfOk result (λ d. document_tree d ≡ tree value.now) }
{
    let mut arena = Arena::new(alloc);
    pass(alloc, value, &mut arena)?;
    Ok(Document::of_arena(arena))
}

/// Passes the value to events, with the members of objects in the order of their keys.
fn pass<'e, 'd, E: Events>(
    alloc: Global,
    value: &'e Edited<'d>,
    events: &mut E,
) -> Result<(), E::Error>
    requires { (start : E) × (os : List Open) × E.holds start events.old os }
    ensures { (start : E) (os : List Open) → E.holds start events.old os →
        OnOk result (Puts (E.holds start) (E.is start) os (tree value.now) events.new) }
{
    let mut stack: Vec<Left<'e, 'd>> = Vec::new(alloc);
    begin(alloc, value, events, &mut stack)?;
    while let Some(rest) = stack.pop() {
        resume(alloc, rest, events, &mut stack)?;
    }
    Ok(())
}

/// Passes a value as it was, or opens a container.
fn begin<'e, 'd, E: Events>(
    alloc: Global,
    part: &'e Edited<'d>,
    events: &mut E,
    stack: &mut Vec<Left<'e, 'd>>,
) -> Result<(), E::Error>
    requires { (start : E) × (os : List Open) × E.holds start events.old os }
    ensures waits { (start : E) (os fs : List Open) (t : Tree) → E.holds start events.old fs
        → Encloses (reverse stack.old.items) fs os (tree part.now) t
        → OnOk result (Waits (E.holds start) (E.is start) os t (reverse stack.new.items)
        events.new) }
    ensures less { OnOk result
        (left_weight stack.new.items < weight (tree part.now) + left_weight stack.old.items) }
{
    match part {
        Edited::Kept(view) => pass_view(alloc, *view, events),
        Edited::Array(items) => {
            events.open_array()?;
            push(stack, Left::Items(items.iter()))?;
            Ok(())
        }
        Edited::Object(members) => {
            events.open_object()?;
            push(stack, Left::Members(members.iter()))?;
            Ok(())
        }
    }
}

/// Passes a value as it was.
fn pass_view<E: Events>(alloc: Global, view: ValueView<'_>, events: &mut E) -> Result<(), E::Error>
    requires { (start : E) × (os : List Open) × E.holds start events.old os }
    ensures { (start : E) (os : List Open) → E.holds start events.old os →
        OnOk result (Puts (E.holds start) (E.is start) os (tree_of view.entry) events.new) }
{
    match view {
        ValueView::InDocument(node) => replay(alloc, node, events),
        ValueView::InValue(value) => {
            let document = document_of_value(alloc, value)?;
            replay(alloc, document.root(), events)
        }
    }
}

/// A document of the value's text.
fn document_of_value(alloc: Global, value: &JsonValue) -> Result<Document, AllocError>
    ensures { IfOk result (λ d. document_tree d ≡ view value.now) }
{
    let Ok(text) = value.stringify(alloc) else {
        return Err(AllocError);
    };
    match Document::read(alloc, text.as_str()) {
        Ok(document) => Ok(document),
        Err(_) => Err(AllocError),
    }
}

/// Passes what comes next of an open container: an item or a member, or its end.
fn resume<'e, 'd, E: Events>(
    alloc: Global,
    rest: Left<'e, 'd>,
    events: &mut E,
    stack: &mut Vec<Left<'e, 'd>>,
) -> Result<(), E::Error>
    requires { (start : E) × (os : List Open) × (t : Tree) ×
        Waits (E.holds start) (E.is start) os t (rest ∷ reverse stack.old.items) events.old }
    ensures waits { (start : E) (os : List Open) (t : Tree) →
        Waits (E.holds start) (E.is start) os t (rest.entry ∷ reverse stack.old.items) events.old
        → OnOk result (Waits (E.holds start) (E.is start) os t (reverse stack.new.items)
        events.new) }
    ensures less { OnOk result
        (left_weight stack.new.items < left_weight (rest.entry ∷ stack.old.items)) }
{
    match rest {
        Left::Items(mut items) => {
            let Some(item) = items.next() else {
                return events.close_array();
            };
            push(stack, Left::Items(items))?;
            begin(alloc, item.as_ref(), events, stack)
        }
        Left::Members(mut members) => {
            let Some((key, member)) = members.next() else {
                return events.close_object();
            };
            events.key(key.as_str())?;
            push(stack, Left::Members(members))?;
            begin(alloc, member, events, stack)
        }
    }
}

/// Puts what is left of a container on the stack.
fn push<'e, 'd>(stack: &mut Vec<Left<'e, 'd>>, rest: Left<'e, 'd>) -> Result<(), AllocError>
    ensures items { OnOk result (stack.new.items ≡ stack.old.items ++ rest.entry ∷ []) }
{
    stack.push(rest)?;
    Ok(())
}
