//! Copies of values of which some containers are taken apart.
ghost use Rattle.std.specs.Prelude.{◌≡◌, IfOk, IfSome};
ghost use Rattle.tinyjson_patch.specs.private.Edited.{items_tree, members_tree, tree};

use crate::edit::edited::{Edited, dismantle_old};
use std::alloc::{AllocError, Global};
use std::collections::{BTreeMap, VecDeque};

/// A copy of the value. There is none if more than `levels` nested containers are taken apart.
#[cycle(copy_of)]
#[tactic(auto, using(crate::proofs::Editing::Trees::tree_Array))]
pub(crate) fn copy_of<'d>(
    alloc: Global,
    value: &Edited<'d>,
    levels: usize,
) -> Result<Option<Edited<'d>>, AllocError>
    ensures { IfOk result (λ o. IfSome o (λ copy. tree copy ≡ tree value.now)) }
{
    match value {
        Edited::Kept(view) => Ok(Some(Edited::Kept(*view))),
        Edited::Array(items) => {
            if levels == 0 {
                return Ok(None);
            }
            match copy_items(alloc, items, levels - 1)? {
                Some(copies) => Ok(Some(Edited::Array(copies))),
                None => Ok(None),
            }
        }
        Edited::Object(members) => {
            if levels == 0 {
                return Ok(None);
            }
            match copy_members(alloc, members, levels - 1)? {
                Some(copies) => Ok(Some(Edited::Object(copies))),
                None => Ok(None),
            }
        }
    }
}

#[cycle(copy_of)]
fn copy_items<'d>(
    alloc: Global,
    items: &VecDeque<Box<Edited<'d>>>,
    levels: usize,
) -> Result<Option<VecDeque<Box<Edited<'d>>>>, AllocError>
    ensures { IfOk result (λ o. IfSome o (λ copies.
        items_tree copies.items ≡ items_tree items.now.items)) }
{
    let mut copies = VecDeque::with_capacity(alloc, items.len())?;
    let mut rest = items.iter();
    while let Some(item) = rest.next() {
        let Some(copy) = copy_of(alloc, item.as_ref(), levels)? else {
            return Ok(None);
        };
        copies.push_back(Box::new(alloc, copy)?)?;
    }
    Ok(Some(copies))
}

#[cycle(copy_of)]
fn copy_members<'d>(
    alloc: Global,
    members: &BTreeMap<String, Edited<'d>>,
    levels: usize,
) -> Result<Option<BTreeMap<String, Edited<'d>>>, AllocError>
    ensures { IfOk result (λ o. IfSome o (λ copies.
        members_tree copies.entries ≡ members_tree members.now.entries)) }
{
    let mut copies = BTreeMap::new(alloc);
    let mut rest = members.iter();
    while let Some((key, member)) = rest.next() {
        let Some(copy) = copy_of(alloc, member, levels)? else {
            return Ok(None);
        };
        let old = copies.insert(String::from_str(alloc, key.as_str())?, copy)?;
        dismantle_old(alloc, old);
    }
    Ok(Some(copies))
}
