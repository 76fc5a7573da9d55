//! A value that is being changed.
use std::alloc::Global;
use std::collections::{BTreeMap, VecDeque};
use tinyjson_view::ValueView;

/// A value, of which the containers on the way to what was changed are taken apart.
///
/// Contracts see it as its `tree`.
#[derive(Drop)]
pub(crate) enum Edited<'d> {
    /// A value as it is in a document or in a patch.
    Kept(ValueView<'d>),
    /// An array that was taken apart, its items in order. They are in boxes, so that an insertion moves pointers.
    Array(VecDeque<Box<Edited<'d>>>),
    /// An object that was taken apart, its members by their keys.
    Object(BTreeMap<String, Edited<'d>>),
}

impl<'d> Edited<'d> {
    /// Frees the value by a loop, however deep it was taken apart. Only where there is no memory for the loop's list it
    /// is freed by a recursion.
    pub(crate) fn dismantle(self, alloc: Global) {
        let mut parts = Vec::new(alloc);
        put_off(&mut parts, self);
        for _ in 0..u64::MAX {
            match parts.pop() {
                Some(Edited::Array(items)) => {
                    for item in items {
                        put_off(&mut parts, Box::into_inner(item));
                    }
                }
                Some(Edited::Object(members)) => {
                    for member in members.into_values() {
                        put_off(&mut parts, member);
                    }
                }
                Some(Edited::Kept(_)) => {}
                None => return,
            }
        }
    }
}

/// Frees what a change took out.
pub(crate) fn dismantle_old(alloc: Global, old: Option<Edited<'_>>) {
    if let Some(old) = old {
        old.dismantle(alloc);
    }
}

/// Puts what was taken apart on the list.
fn put_off<'d>(parts: &mut Vec<Edited<'d>>, part: Edited<'d>) {
    if let Edited::Kept(_) = part {
        return;
    }
    let _ = parts.push(part);
}
