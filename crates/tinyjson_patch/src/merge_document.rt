//! Merges a patch into a document, without recursion: what is left of the open objects is on a stack.
ghost use Rattle.std.specs.Prelude.{◌≡◌, ◌<◌, ◌+◌, [], ◌∷◌, ◌++◌, true, List};
ghost use Rattle.std.specs.Prelude.{IfOk, OnOk, option_map, reverse, unwrap_or};
ghost use Rattle.std.specs.Str.{chars};
ghost use Rattle.tinyjson.specs.Access.{is_object};
ghost use Rattle.tinyjson.specs.Events.{Open, Puts, at_key};
ghost use Rattle.tinyjson.specs.Tree.{Tree, Members as TreeMembers, key_cmp, null};
ghost use Rattle.tinyjson_document.specs.Comparing.{weight};
ghost use Rattle.tinyjson_document.specs.Document.{document_tree, tree};
ghost use Rattle.tinyjson_document.specs.Replaying.{put_members};
ghost use Rattle.tinyjson_patch.specs.Merge.{members_of, merge_patch};
ghost use Rattle.tinyjson_patch.specs.Merging.{Encloses, Leads, Waits, had, left_weight};

use std::alloc::{AllocError, Global};
use std::cmp::Ordering;
use tinyjson_document::{Arena, Document, Members, Node, NodeEvents};

/// What is left of an object of the patch, and of the members of the target beside it, if it is an object there.
#[derive(Clone, Copy, Drop)]
pub(crate) struct Left<'t, 'p> {
    pub(crate) target: Option<Members<'t>>,
    pub(crate) patch: Members<'p>,
}

/// The document of the target with the patch applied: `MergePatch(Target, Patch)` of RFC 7396, section 2.
///
/// The only error is out of memory. It does not recurse, whatever is nested.
///
/// ```
/// let merged = merge_documents(alloc, target.root(), patch.root())?; // {"a":1,"b":2} by {"a":null,"c":3}
/// merged.root().to_string(alloc)?; // {"b":2,"c":3}
/// ```
pub fn merge_documents(
    alloc: Global,
    target: Node<'_>,
    patch: Node<'_>,
) -> Result<Document, AllocError>
    ensures { IfOk result (λ d.
        document_tree d ≡ merge_patch (tree target.entry) (tree patch.entry)) }
{
    let mut arena = Arena::new(alloc);
    merge_into(alloc, target, patch, &mut arena)?;
    Ok(Document::of_arena(arena))
}

/// Passes the merged value to events: those of its compact text, so that members come in the order of their keys.
///
/// An error is the one that an event returned, or out of memory, where there is none for the open objects. Then
/// nothing is known of the events. It does not recurse.
///
/// ```
/// merge_into(alloc, target.root(), patch.root(), &mut text)?;
/// ```
pub fn merge_into<E: NodeEvents>(
    alloc: Global,
    target: Node<'_>,
    patch: Node<'_>,
    events: &mut E,
) -> Result<(), E::Error>
    requires { (start : E) × (os : List Open) × E.holds start events.old os }
    ensures { (start : E) (os : List Open) → E.holds start events.old os →
        OnOk result (Puts (E.holds start) (E.is start) os
        (merge_patch (tree target.entry) (tree patch.entry)) events.new) }
{
    if !patch.is_object() {
        return events.replay(alloc, patch);
    }
    let mut stack = Vec::new(alloc);
    open(Some(target), patch, events, &mut stack)?;
    while let Some(left) = stack.pop() {
        resume(alloc, left, events, &mut stack)?;
    }
    Ok(())
}

/// Opens an object of the patch, beside what the target has there.
fn open<'t, 'p, E: NodeEvents>(
    target: Option<Node<'t>>,
    patch: Node<'p>,
    events: &mut E,
    stack: &mut Vec<Left<'t, 'p>>,
) -> Result<(), E::Error>
    requires object { is_object (tree patch) ≡ true }
    ensures waits { (start : E) (os fs : List Open) (t : Tree) → E.holds start events.old fs
        → Encloses (reverse stack.old.items) fs os
        (merge_patch (unwrap_or (option_map tree target.entry) null) (tree patch.entry)) t
        → OnOk result (Waits (E.holds start) (E.is start) os t (reverse stack.new.items)
        events.new) }
    ensures less { OnOk result
        (left_weight stack.new.items < weight (tree patch.entry) + left_weight stack.old.items) }
{
    events.open_object()?;
    let left = Left {
        target: members_of(target),
        patch: patch.members(),
    };
    push(stack, left)?;
    Ok(())
}

/// Puts what is left of an object on the stack.
fn push<'t, 'p>(stack: &mut Vec<Left<'t, 'p>>, left: Left<'t, 'p>) -> Result<(), AllocError>
    ensures items { OnOk result (stack.new.items ≡ stack.old.items ++ left.entry ∷ []) }
{
    stack.push(left)?;
    Ok(())
}

/// The members of what the target has, if it has anything.
fn members_of<'t>(target: Option<Node<'t>>) -> Option<Members<'t>>
    ensures { had result ≡ members_of (unwrap_or (option_map tree target.entry) null) }
{
    match target {
        Some(node) => Some(node.members()),
        None => None,
    }
}

/// Passes what comes next of an object, up to its end or to where another object of the patch is opened.
fn resume<'t, 'p, E: NodeEvents>(
    alloc: Global,
    left: Left<'t, 'p>,
    events: &mut E,
    stack: &mut Vec<Left<'t, 'p>>,
) -> Result<(), E::Error>
    requires { (start : E) × (os : List Open) × (t : Tree) ×
        Waits (E.holds start) (E.is start) os t (left ∷ reverse stack.old.items) events.old }
    ensures waits { (start : E) (os : List Open) (t : Tree) →
        Waits (E.holds start) (E.is start) os t (left.entry ∷ reverse stack.old.items) events.old
        → OnOk result (Waits (E.holds start) (E.is start) os t (reverse stack.new.items)
        events.new) }
    ensures less { OnOk result
        (left_weight stack.new.items < left_weight (left.entry ∷ stack.old.items)) }
{
    let mut left = left;
    while let Some((key, change)) = left.patch.next() {
        let old = pass_below(alloc, &mut left.target, key, events)?;
        if change.is_null() {
            continue;
        }
        events.key(key)?;
        if change.is_object() {
            push(stack, left)?;
            return open(old, change, events, stack);
        }
        events.replay(alloc, change)?;
    }
    pass_all(alloc, left.target, events)?;
    events.close_object()
}

/// Passes the members of the target whose keys are below the key, and returns what it has at the key.
fn pass_below<'t, E: NodeEvents>(
    alloc: Global,
    target: &mut Option<Members<'t>>,
    key: &str,
    events: &mut E,
) -> Result<Option<Node<'t>>, E::Error>
    requires { (start : E) × (ns : TreeMembers) × (fs : List Open) ×
        E.holds start events.old (at_key ns ∷ fs) }
    ensures { (start : E) (ns : TreeMembers) (fs : List Open) →
        E.holds start events.old (at_key ns ∷ fs) → IfOk result (λ old. (os : TreeMembers)
        × E.holds start events.new (at_key os ∷ fs)
        × Leads (chars key.now) ns (had target.old) os (option_map tree old) (had target.new)) }
{
    let Some(mut members) = *target else {
        return Ok(None);
    };
    let mut above = members;
    while let Some((other, node)) = above.next() {
        match order(other, key) {
            Ordering::Less => {
                events.key(other)?;
                events.replay(alloc, node)?;
                members = above;
            }
            Ordering::Equal => {
                *target = Some(above);
                return Ok(Some(node));
            }
            Ordering::Greater => {
                *target = Some(members);
                return Ok(None);
            }
        }
    }
    *target = None;
    Ok(None)
}

/// The order of two keys, by their bytes.
fn order(key: &str, other: &str) -> Ordering
    ensures { result ≡ key_cmp (chars key.now) (chars other.now) }
{
    key.cmp(other)
}

/// Passes all members of the target that are left.
fn pass_all<E: NodeEvents>(
    alloc: Global,
    target: Option<Members<'_>>,
    events: &mut E,
) -> Result<(), E::Error>
    requires { (start : E) × (ns : TreeMembers) × (fs : List Open) ×
        E.holds start events.old (at_key ns ∷ fs) }
    ensures { (start : E) (ns : TreeMembers) (fs : List Open) →
        E.holds start events.old (at_key ns ∷ fs) → OnOk result
        (E.holds start events.new (at_key (put_members ns (had target.entry)) ∷ fs)) }
{
    let Some(mut members) = target else {
        return Ok(());
    };
    while let Some((key, node)) = members.next() {
        events.key(key)?;
        events.replay(alloc, node)?;
    }
    Ok(())
}
