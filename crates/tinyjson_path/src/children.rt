//! The children of a node: those that a name, an index or a slice selects, and all of them.
ghost use Rattle.std.specs.Prelude.{◌≡◌, ◌++◌, reverse, OnOk, IfOk, option_map, Some};
ghost use Rattle.std.specs.Str.{chars};
ghost use Rattle.tinyjson.specs.Index.{tree_at};
ghost use Rattle.tinyjson.specs.View.{members_listed};
ghost use Rattle.tinyjson_document.specs.Document.{members_left};
ghost use Rattle.tinyjson_document.specs.Parts.{items_in as items_of, members_in};
ghost use Rattle.tinyjson_path.specs.Comparing.{one_child};
ghost use Rattle.tinyjson_path.specs.Nodes.{at_key, at_index, path_of, parts_view};
ghost use Rattle.tinyjson_view.specs.Views.{tree_of};
ghost use Rattle.tinyjson_path.specs.Nodes.{items_from, members_at, children};
ghost use Rattle.tinyjson_path.specs.Queries.{kept};
ghost use Rattle.tinyjson_path.specs.Selecting.{one_below, by_name, by_index, by_slice, taken};
ghost use Rattle.tinyjson_path.specs.Selecting.{items_in, tree_at_place};
ghost use Rattle.tinyjson_path.specs.Slices.{place_of, is_up, is_down};
ghost use Rattle.tinyjson_path.specs.Waiting.{wants};
ghost use Rattle.tinyjson_path.specs.declared.children.Wanted.TheVariants.{Containers};

use crate::node::Located;
use crate::slice::{Bounds, Steps, bound, bound_after, is_down, is_up, place, steps_of};
use std::alloc::{AllocError, Global};
use tinyjson::{JsonKind, JsonValue, sorted_members};
use tinyjson_document::{JsonView, Members};
use tinyjson_path_query::SingularSegment;
use tinyjson_view::ValueView;

/// Which children are wanted.
#[derive(Clone, Copy)]
pub(crate) enum Wanted {
    All,
    /// Those that may have children.
    Containers,
}

fn wants(wanted: Wanted, value: &ValueView<'_>) -> bool
    ensures { result ≡ wants wanted (tree_of value.now) }
{
    match wanted {
        Wanted::All => true,
        Wanted::Containers => matches!(value.kind(), JsonKind::Array | JsonKind::Object),
    }
}

/// The children of the node: the items in order, or the members in the order of their keys' bytes.
pub(crate) fn children<'v>(
    alloc: Global,
    node: &Located<'v>,
) -> Result<Vec<Located<'v>>, AllocError>
    ensures { IfOk result (λ v. parts_view v.items
        ≡ children (path_of node.now) (tree_of node.now.value)) }
{
    let mut nodes = Vec::new(alloc);
    push_children(alloc, node, &mut nodes)?;
    Ok(nodes)
}

/// The children that may have children.
pub(crate) fn containers<'v>(
    alloc: Global,
    node: &Located<'v>,
) -> Result<Vec<Located<'v>>, AllocError>
    ensures { IfOk result (λ v. parts_view v.items
        ≡ kept (wants Containers) (children (path_of node.now) (tree_of node.now.value))) }
{
    let mut nodes = Vec::new(alloc);
    push_wanted(alloc, node, Wanted::Containers, &mut nodes)?;
    Ok(nodes)
}

pub(crate) fn push_children<'v>(
    alloc: Global,
    node: &Located<'v>,
    nodes: &mut Vec<Located<'v>>,
) -> Result<(), AllocError>
    ensures { OnOk result (parts_view nodes.new.items ≡ parts_view nodes.old.items
        ++ children (path_of node.now) (tree_of node.now.value)) }
{
    push_wanted(alloc, node, Wanted::All, nodes)
}

fn push_wanted<'v>(
    alloc: Global,
    node: &Located<'v>,
    wanted: Wanted,
    nodes: &mut Vec<Located<'v>>,
) -> Result<(), AllocError>
    ensures { OnOk result (parts_view nodes.new.items ≡ parts_view nodes.old.items
        ++ kept (wants wanted) (children (path_of node.now) (tree_of node.now.value))) }
{
    match node.value.kind() {
        JsonKind::Array => push_items(alloc, node, wanted, nodes),
        JsonKind::Object => push_members(alloc, node, wanted, nodes),
        _ => Ok(()),
    }
}

fn push_members<'v>(
    alloc: Global,
    node: &Located<'v>,
    wanted: Wanted,
    nodes: &mut Vec<Located<'v>>,
) -> Result<(), AllocError>
    ensures { OnOk result (parts_view nodes.new.items ≡ parts_view nodes.old.items
        ++ kept (wants wanted)
        (members_at (path_of node.now) (members_in (tree_of node.now.value)))) }
{
    match node.value {
        ValueView::InDocument(value) => push_ordered(alloc, node, value.members(), wanted, nodes),
        ValueView::InValue(JsonValue::Object(members)) => {
            let sorted = sorted_members(alloc, members)?;
            push_sorted(alloc, node, sorted.as_slice(), wanted, nodes)
        }
        ValueView::InValue(_) => Ok(()),
    }
}

/// The members of a document.
fn push_ordered<'v>(
    alloc: Global,
    node: &Located<'v>,
    members: Members<'v>,
    wanted: Wanted,
    nodes: &mut Vec<Located<'v>>,
) -> Result<(), AllocError>
    ensures { OnOk result (parts_view nodes.new.items ≡ parts_view nodes.old.items
        ++ kept (wants wanted) (members_at (path_of node.now) (members_left members.entry))) }
{
    for (name, value) in members {
        push_member_if(
            alloc,
            node,
            name,
            ValueView::InDocument(value),
            wanted,
            nodes,
        )?;
    }
    Ok(())
}

/// The members of a `JsonValue`.
fn push_sorted<'v>(
    alloc: Global,
    node: &Located<'v>,
    members: &[(&'v String, &'v JsonValue)],
    wanted: Wanted,
    nodes: &mut Vec<Located<'v>>,
) -> Result<(), AllocError>
    ensures { OnOk result (parts_view nodes.new.items ≡ parts_view nodes.old.items
        ++ kept (wants wanted) (members_at (path_of node.now) (members_listed members.now))) }
{
    for member in members {
        push_member_if(
            alloc,
            node,
            member.0.as_str(),
            ValueView::InValue(member.1),
            wanted,
            nodes,
        )?;
    }
    Ok(())
}

/// Appends a member of the node, if it is wanted.
fn push_member_if<'v>(
    alloc: Global,
    node: &Located<'v>,
    name: &'v str,
    value: ValueView<'v>,
    wanted: Wanted,
    nodes: &mut Vec<Located<'v>>,
) -> Result<(), AllocError>
    ensures { OnOk result (parts_view nodes.new.items ≡ parts_view nodes.old.items
        ++ kept (wants wanted) (one_below (path_of node.now) (at_key (chars name.now))
        (Some (tree_of value.entry)))) }
{
    if wants(wanted, &value) {
        return push_member(alloc, node, name, value, nodes);
    }
    Ok(())
}

/// Appends a member of the node.
fn push_member<'v>(
    alloc: Global,
    node: &Located<'v>,
    name: &'v str,
    value: ValueView<'v>,
    nodes: &mut Vec<Located<'v>>,
) -> Result<(), AllocError>
    ensures { OnOk result (parts_view nodes.new.items ≡ parts_view nodes.old.items
        ++ one_below (path_of node.now) (at_key (chars name.now)) (Some (tree_of value.entry))) }
{
    Ok(nodes.push(node.member(alloc, name, value)?)?)
}

fn push_items<'v>(
    alloc: Global,
    node: &Located<'v>,
    wanted: Wanted,
    nodes: &mut Vec<Located<'v>>,
) -> Result<(), AllocError>
    ensures { OnOk result (parts_view nodes.new.items ≡ parts_view nodes.old.items
        ++ kept (wants wanted)
        (items_from (path_of node.now) 0 (items_of (tree_of node.now.value)))) }
{
    for index in 0..node.value.len() {
        push_item_if(alloc, node, index, wanted, nodes)?;
    }
    Ok(())
}

/// Appends the item at the index, if there is one and it is wanted.
fn push_item_if<'v>(
    alloc: Global,
    node: &Located<'v>,
    index: usize,
    wanted: Wanted,
    nodes: &mut Vec<Located<'v>>,
) -> Result<(), AllocError>
    ensures { OnOk result (parts_view nodes.new.items ≡ parts_view nodes.old.items
        ++ kept (wants wanted)
        (one_below (path_of node.now) (at_index index) (tree_at (tree_of node.now.value) index))) }
{
    let Some(item) = node.value.item(index) else {
        return Ok(());
    };
    if wants(wanted, &item) {
        return Ok(nodes.push(node.item(alloc, index, item)?)?);
    }
    Ok(())
}

/// Appends the item at the index, if there is one.
fn push_item<'v>(
    alloc: Global,
    node: &Located<'v>,
    index: usize,
    nodes: &mut Vec<Located<'v>>,
) -> Result<(), AllocError>
    ensures { OnOk result (parts_view nodes.new.items ≡ parts_view nodes.old.items
        ++ one_below (path_of node.now) (at_index index) (tree_at (tree_of node.now.value) index)) }
{
    match node.value.item(index) {
        None => Ok(()),
        Some(item) => Ok(nodes.push(node.item(alloc, index, item)?)?),
    }
}

/// The member that the name selects (RFC 9535, 2.3.1), if there is one.
pub(crate) fn push_named<'v>(
    alloc: Global,
    node: &Located<'v>,
    name: &'v str,
    nodes: &mut Vec<Located<'v>>,
) -> Result<(), AllocError>
    ensures { OnOk result (parts_view nodes.new.items ≡ parts_view nodes.old.items
        ++ by_name (path_of node.now) (chars name.now) (tree_of node.now.value)) }
{
    match node.value.member(name) {
        None => Ok(()),
        Some(value) => push_member(alloc, node, name, value, nodes),
    }
}

/// The item that the index selects (RFC 9535, 2.3.3), if there is one.
pub(crate) fn push_indexed<'v>(
    alloc: Global,
    node: &Located<'v>,
    index: i64,
    nodes: &mut Vec<Located<'v>>,
) -> Result<(), AllocError>
    ensures { OnOk result (parts_view nodes.new.items ≡ parts_view nodes.old.items
        ++ by_index (path_of node.now) index (tree_of node.now.value)) }
{
    match place(index, item_count(node.value)) {
        None => Ok(()),
        Some(at) => push_item(alloc, node, at, nodes),
    }
}

/// The number of items of an array; 0 for other values.
fn item_count<'v>(value: ValueView<'v>) -> usize
    ensures { result ≡ items_in (tree_of value.entry) }
{
    match value.kind() {
        JsonKind::Array => value.len(),
        _ => 0,
    }
}

/// The child that a segment of a singular query selects, if there is one.
pub(crate) fn one_child<'v>(
    segment: &SingularSegment,
    value: ValueView<'v>,
) -> Option<ValueView<'v>>
    ensures { option_map tree_of result ≡ one_child segment.now (tree_of value.entry) }
{
    match segment {
        SingularSegment::Name(name) => value.member(name.as_str()),
        SingularSegment::Index(index) => child_at(value, *index),
    }
}

fn child_at<'v>(value: ValueView<'v>, index: i64) -> Option<ValueView<'v>>
    ensures { option_map tree_of result
        ≡ tree_at_place (tree_of value.entry) (place_of index (items_in (tree_of value.entry))) }
{
    match place(index, item_count(value)) {
        None => None,
        Some(at) => value.item(at),
    }
}

/// The items that the slice selects (RFC 9535, 2.3.4).
pub(crate) fn push_slice<'v>(
    alloc: Global,
    node: &Located<'v>,
    start: Option<i64>,
    end: Option<i64>,
    step: Option<i64>,
    nodes: &mut Vec<Located<'v>>,
) -> Result<(), AllocError>
    ensures { OnOk result (parts_view nodes.new.items ≡ parts_view nodes.old.items
        ++ by_slice (path_of node.now) start end step (tree_of node.now.value)) }
{
    let len = item_count(node.value);
    match steps_of(step) {
        Steps::Up(step) => {
            let low = bound(start, len, 0);
            let high = bound(end, len, len);
            push_up(alloc, node, Bounds { low, high, step }, nodes)
        }
        Steps::Down(step) => {
            let low = bound_after(end, len, 0);
            let high = bound_after(start, len, len);
            push_down(alloc, node, Bounds { low, high, step }, nodes)
        }
    }
}

/// The items between the bounds, from the first on.
fn push_up<'v>(
    alloc: Global,
    node: &Located<'v>,
    bounds: Bounds,
    nodes: &mut Vec<Located<'v>>,
) -> Result<(), AllocError>
    ensures { OnOk result (parts_view nodes.new.items ≡ parts_view nodes.old.items
        ++ taken (is_up bounds.low bounds.high bounds.step) (path_of node.now) 0
        (items_of (tree_of node.now.value))) }
{
    for index in 0..node.value.len() {
        if is_up(bounds, index) {
            push_item(alloc, node, index, nodes)?;
        }
    }
    Ok(())
}

/// The items between the bounds, from the last on.
fn push_down<'v>(
    alloc: Global,
    node: &Located<'v>,
    bounds: Bounds,
    nodes: &mut Vec<Located<'v>>,
) -> Result<(), AllocError>
    ensures { OnOk result (parts_view nodes.new.items ≡ parts_view nodes.old.items
        ++ reverse (taken (is_down bounds.low bounds.high bounds.step) (path_of node.now) 0
        (items_of (tree_of node.now.value)))) }
{
    let mut index = node.value.len();
    while index > 0 {
        index -= 1;
        if is_down(bounds, index) {
            push_item(alloc, node, index, nodes)?;
        }
    }
    Ok(())
}
