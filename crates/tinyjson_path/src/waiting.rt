//! Nodes that wait for segments, on a stack.
ghost use Rattle.std.specs.Prelude.{◌≡◌, ◌++◌, ◌∷◌, [], reverse, true, OnOk, IfOk};
ghost use Rattle.tinyjson_path.specs.Nodes.{Part, path_of, path_view, parts_view, root_part, children};
ghost use Rattle.tinyjson_path.specs.Queries.{kept};
ghost use Rattle.tinyjson_path.specs.Waiting.{AreChildren, EndAlike, HasTwin, Puts, waits_view, waits_at, wants};
ghost use Rattle.tinyjson_path.specs.declared.children.Wanted.TheVariants.{Containers};
ghost use Rattle.tinyjson_view.specs.Views.{tree_of};

use crate::children::containers;
use crate::node::{Located, Location};
use std::alloc::{AllocError, Global};
use tinyjson_path_query::Selector;
use tinyjson_view::ValueView;

/// A node, and the index of the first segment that is left for it.
#[derive(Drop)]
pub(crate) struct Waiting<'v> {
    pub(crate) node: Located<'v>,
    pub(crate) segment: usize,
    /// The same node came onto the stack at the same time, for the same segment, and comes before it.
    pub(crate) repeats: bool,
}

/// What waits at first: the node of the value, for all segments.
pub(crate) fn first<'v>(alloc: Global, value: ValueView<'v>) -> Result<Vec<Waiting<'v>>, AllocError>
    ensures { IfOk result (λ v. waits_view v.items ≡ (0, root_part (tree_of value.entry)) ∷ []) }
{
    let mut waiting = Vec::new(alloc);
    let node = Located::root(alloc, value)?;
    waiting.push(Waiting {
        node,
        segment: 0,
        repeats: false,
    })?;
    Ok(waiting)
}

/// Puts the children of a node that may have children behind the nodes that wait, the last one first.
pub(crate) fn push_containers<'v>(
    alloc: Global,
    node: &Located<'v>,
    segment: usize,
    waiting: &mut Vec<Waiting<'v>>,
) -> Result<(), AllocError>
    ensures view { OnOk result (waits_view waiting.new.items ≡ waits_view waiting.old.items
        ++ reverse (waits_at segment
        (kept (wants Containers) (children (path_of node.now) (tree_of node.now.value))))) }
    ensures marked { OnOk result (Puts waiting.old.items waiting.new.items) }
{
    push_reversed(containers(alloc, node)?, segment, 0, waiting)
}

/// Puts the nodes behind those that wait, the last one first. One that repeats another of as many before it as
/// `window` says is marked.
pub(crate) fn push_reversed<'v>(
    mut nodes: Vec<Located<'v>>,
    segment: usize,
    window: usize,
    waiting: &mut Vec<Waiting<'v>>,
) -> Result<(), AllocError>
    ensures view { OnOk result (waits_view waiting.new.items ≡ waits_view waiting.old.items
        ++ reverse (waits_at segment (parts_view nodes.entry.items))) }
    ensures marked { OnOk result ((p : Part) → AreChildren p (parts_view nodes.entry.items)
        → Puts waiting.old.items waiting.new.items) }
{
    while let Some(node) = nodes.pop() {
        let repeats = is_repeated(&node, nodes.as_slice(), window);
        waiting.push(Waiting {
            node,
            segment,
            repeats,
        })?;
    }
    Ok(())
}

/// With how many nodes before it a node is compared that the selectors select. A single selector selects no node twice.
pub(crate) fn window(selectors: &[Selector]) -> usize {
    if selectors.len() < 2 { 0 } else { 8 }
}

/// Whether one of the last nodes, as many as `window` says, has the last step of this one.
fn is_repeated(node: &Located, before: &[Located], window: usize) -> bool
    ensures { result ≡ true → HasTwin node.now before.now }
{
    for index in before.len().saturating_sub(window)..before.len() {
        if is_step_same(&node.location, &before[index].location) {
            return true;
        }
    }
    false
}

/// Whether the last steps are the same.
fn is_step_same(left: &Location, right: &Location) -> bool
    ensures { result ≡ true → EndAlike (path_view left.now) (path_view right.now) }
{
    match (left, right) {
        (Location::Item(_, left), Location::Item(_, right)) => *left == *right,
        (Location::Member(_, left), Location::Member(_, right)) => {
            left.len() == right.len() && *left == *right
        }
        _ => false,
    }
}
