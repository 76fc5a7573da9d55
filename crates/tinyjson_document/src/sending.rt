//! Passes a value to events, without recursion: what is left of the open containers is on a stack.
ghost use Rattle.std.specs.Prelude.{◌≡◌, ◌<◌, ◌+◌, [], ◌∷◌, ◌++◌, List, IfOk, OnOk, reverse};
ghost use Rattle.tinyjson.specs.Events.{Open, Puts};
ghost use Rattle.tinyjson_grammar.specs.Kind.{kind_of};
ghost use Rattle.tinyjson_grammar.specs.Tree.{Tree};
ghost use Rattle.tinyjson_document.specs.Comparing.{weight};
ghost use Rattle.tinyjson_document.specs.Document.{document_tree, tree};
ghost use Rattle.tinyjson_document.specs.Replaying.{Encloses, Waits, left_weight};

use crate::arena::Arena;
use crate::document::Document;
use crate::iterators::{Items, Members};
use crate::node::Node;
use crate::number::NumberView;
use std::alloc::{AllocError, Global};
use tinyjson::{Events, JsonKind};

/// What is left of an open container.
#[derive(Drop)]
pub(crate) enum Left<'d> {
    Items(Items<'d>),
    Members(Members<'d>),
}

/// Passes a value of a document to events: those of its compact text, so that members come in the order of their
/// keys.
///
/// An error is the one that an event returned, or out of memory, where there is none for the open containers. Then
/// nothing is known of the events. It does not recurse.
///
/// ```
/// let numbers = Numbers { count: 0 };
/// replay(alloc, document.root(), &mut numbers)?; // of [1, {"a": 2.5}]: counts 2
/// ```
pub fn replay<E: Events>(alloc: Global, node: Node<'_>, events: &mut E) -> Result<(), E::Error>
    requires { (start : E) × (os : List Open) × E.holds start events.old os }
    ensures { (start : E) (os : List Open) → E.holds start events.old os →
        OnOk result (Puts (E.holds start) (E.is start) os (tree node.entry) events.new) }
{
    let mut stack = Vec::new(alloc);
    begin(alloc, node, events, &mut stack)?;
    while let Some(rest) = stack.pop() {
        resume(alloc, rest, events, &mut stack)?;
    }
    Ok(())
}

/// A document of its own for a value of another one.
///
/// The only error is out of memory.
///
/// ```
/// let document = Document::read(alloc, r#"[1, {"a": 2.5}]"#)?;
/// let copy = copy(alloc, document.root())?;
/// assert!(rt; copy.root() == document.root());
/// ```
pub fn copy(alloc: Global, node: Node<'_>) -> Result<Document, AllocError>
    ensures { IfOk result (λ d. document_tree d ≡ tree node.entry) }
{
    let mut arena = Arena::new(alloc);
    replay(alloc, node, &mut arena)?;
    Ok(Document::of_arena(arena))
}

/// Passes a scalar, or opens a container.
fn begin<'d, E: Events>(
    alloc: Global,
    node: Node<'d>,
    events: &mut E,
    stack: &mut Vec<Left<'d>>,
) -> Result<(), E::Error>
    ensures waits { (start : E) (os fs : List Open) (t : Tree) → E.holds start events.old fs
        → Encloses (reverse stack.old.items) fs os (tree node.entry) t
        → OnOk result (Waits (E.holds start) (E.is start) os t (reverse stack.new.items)
        events.new) }
    ensures less { OnOk result
        (left_weight stack.new.items < weight (tree node.entry) + left_weight stack.old.items) }
{
    match node.kind() {
        JsonKind::Array => {
            events.open_array()?;
            push(stack, Left::Items(node.items()))?;
            Ok(())
        }
        JsonKind::Object => {
            events.open_object()?;
            push(stack, Left::Members(node.members()))?;
            Ok(())
        }
        _ => put_scalar(alloc, node, events),
    }
}

/// Passes a scalar.
fn put_scalar<E: Events>(alloc: Global, node: Node<'_>, events: &mut E) -> Result<(), E::Error>
    ensures { (start : E) (fs : List Open) → E.holds start events.old fs →
        OnOk result (Puts (E.holds start) (E.is start) fs (tree node.entry) events.new) }
{
    match node.kind() {
        JsonKind::Null | JsonKind::Boolean => events.literal(node.boolean()),
        JsonKind::Number => match node.number() {
            Some(NumberView::Made(number)) => events.number(number),
            Some(NumberView::Kept(number)) => {
                let number = number.try_clone(alloc)?;
                events.number(number)
            }
            None => Err(E::Error::from(AllocError)),
        },
        JsonKind::String => match node.string() {
            Some(string) => events.string(string),
            None => Err(E::Error::from(AllocError)),
        },
        _ => Err(E::Error::from(AllocError)),
    }
}

/// Passes what comes next of an open container: an item or a member, or its end.
fn resume<'d, E: Events>(
    alloc: Global,
    rest: Left<'d>,
    events: &mut E,
    stack: &mut Vec<Left<'d>>,
) -> Result<(), E::Error>
    requires { (start : E) × (os : List Open) × (t : Tree) ×
        Waits (E.holds start) (E.is start) os t (rest ∷ reverse stack.old.items) events.old }
    ensures waits { (start : E) (os : List Open) (t : Tree) →
        Waits (E.holds start) (E.is start) os t (rest.entry ∷ reverse stack.old.items) events.old
        → OnOk result (Waits (E.holds start) (E.is start) os t (reverse stack.new.items)
        events.new) }
    ensures less { OnOk result
        (left_weight stack.new.items < left_weight (rest.entry ∷ stack.old.items)) }
{
    match rest {
        Left::Items(mut items) => {
            let Some(item) = items.next() else {
                return events.close_array();
            };
            push(stack, Left::Items(items))?;
            begin(alloc, item, events, stack)
        }
        Left::Members(mut members) => {
            let Some((key, member)) = members.next() else {
                return events.close_object();
            };
            events.key(key)?;
            push(stack, Left::Members(members))?;
            begin(alloc, member, events, stack)
        }
    }
}

/// Puts what is left of a container on the stack.
fn push<'d>(stack: &mut Vec<Left<'d>>, rest: Left<'d>) -> Result<(), AllocError>
    ensures items { OnOk result (stack.new.items ≡ stack.old.items ++ rest.entry ∷ []) }
{
    stack.push(rest)?;
    Ok(())
}
