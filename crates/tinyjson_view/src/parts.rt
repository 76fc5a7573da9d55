//! The items and the members of a value, in lists.
ghost use Rattle.std.specs.Prelude.{◌≡◌, IfOk};
ghost use Rattle.tinyjson.specs.View.{items_view, members_listed};
ghost use Rattle.tinyjson_grammar.specs.Soundness.{IsSorted};
ghost use Rattle.tinyjson_document.specs.Document.{items_left, members_left};
ghost use Rattle.tinyjson_document.specs.Parts.{items_in, members_in};
ghost use Rattle.tinyjson_view.specs.Views.{tree_of, trees_of, members_of};

use crate::view::{MemberView, ValueView};
use std::alloc::{AllocError, Global};
use tinyjson::{JsonValue, sorted_members};
use tinyjson_document::{Items, Members};

impl<'v> ValueView<'v> {
    /// The items in order; none if the value is no array. The only error is out of memory.
    ///
    /// ```
    /// view.items(alloc)?.len() // of [7,8]: 2
    /// ```
    pub fn items(&self, alloc: Global) -> Result<Vec<ValueView<'v>>, AllocError>
        ensures { IfOk result (λ items. trees_of items.items ≡ items_in (tree_of self.now)) }
    {
        match self {
            ValueView::InDocument(node) => nodes_of(alloc, node.items(), node.len()),
            ValueView::InValue(JsonValue::Array(items)) => values_of(alloc, items.as_slice()),
            ValueView::InValue(_) => Ok(Vec::new(alloc)),
        }
    }

    /// The members with their keys, in the order of the keys' bytes; none if the value is no object. The only error
    /// is out of memory.
    ///
    /// ```
    /// view.members(alloc)?.len() // of {"a":1,"a":2}: 1
    /// ```
    pub fn members(&self, alloc: Global) -> Result<Vec<MemberView<'v>>, AllocError>
        ensures listed { IfOk result
            (λ members. members_of members.items ≡ members_in (tree_of self.now)) }
        ensures sorted { IfOk result (λ members. IsSorted (members_of members.items)) }
    {
        match self {
            ValueView::InDocument(node) => named_nodes(alloc, node.members(), node.len()),
            ValueView::InValue(JsonValue::Object(members)) => {
                let sorted = sorted_members(alloc, members)?;
                named_values(alloc, sorted.as_slice())
            }
            ValueView::InValue(_) => Ok(Vec::new(alloc)),
        }
    }
}

fn nodes_of<'v>(
    alloc: Global,
    items: Items<'v>,
    count: usize,
) -> Result<Vec<ValueView<'v>>, AllocError>
    ensures { IfOk result (λ listed. trees_of listed.items ≡ items_left items.entry) }
{
    let mut listed = Vec::with_capacity(alloc, count)?;
    for item in items {
        listed.push(ValueView::InDocument(item))?;
    }
    Ok(listed)
}

fn values_of<'v>(alloc: Global, items: &'v [JsonValue]) -> Result<Vec<ValueView<'v>>, AllocError>
    ensures { IfOk result (λ listed. trees_of listed.items ≡ items_view items.now) }
{
    let mut listed = Vec::with_capacity(alloc, items.len())?;
    for item in items {
        listed.push(ValueView::InValue(item))?;
    }
    Ok(listed)
}

fn named_nodes<'v>(
    alloc: Global,
    members: Members<'v>,
    count: usize,
) -> Result<Vec<MemberView<'v>>, AllocError>
    ensures { IfOk result (λ listed. members_of listed.items ≡ members_left members.entry) }
{
    let mut listed = Vec::with_capacity(alloc, count)?;
    for (key, member) in members {
        listed.push(MemberView {
            key,
            value: ValueView::InDocument(member),
        })?;
    }
    Ok(listed)
}

fn named_values<'v>(
    alloc: Global,
    members: &[(&'v String, &'v JsonValue)],
) -> Result<Vec<MemberView<'v>>, AllocError>
    ensures { IfOk result (λ listed. members_of listed.items ≡ members_listed members.now) }
{
    let mut listed = Vec::with_capacity(alloc, members.len())?;
    for &(key, member) in members {
        listed.push(MemberView {
            key: key.as_str(),
            value: ValueView::InValue(member),
        })?;
    }
    Ok(listed)
}
