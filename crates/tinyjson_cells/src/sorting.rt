//! The members of an object in the order of their keys.
ghost use Rattle.std.specs.Prelude.{◌≡◌, ◌++◌, ◌∷◌, [], cond, option_map, true, OnOk};
ghost use Rattle.std.specs.List.Sorted.{IsPermutation, IsSortedBy, IsStableBy};
ghost use Rattle.tinyjson_cells.specs.Order.{comes_again, is_below_next, key_lt, lasts, paired, rise};
ghost use Rattle.tinyjson_cells.specs.Order.{member_with};

use crate::store::{Cell, Member, Span};
use crate::texts::Texts;
use std::alloc::AllocError;
use tinyjson_bytes::is_below;

/// Makes a member of each key and its value.
pub fn pair(members: &mut Vec<Member>, keys: &[Span], values: &[Cell]) -> Result<(), AllocError>
    ensures { OnOk result (members.new.items ≡ paired keys.now values.now) }
{
    members.clear();
    let count = keys.len().min(values.len());
    members.reserve(count)?;
    for i in 0..count {
        members.push(Member {
            key: keys[i],
            value: values[i],
        })?;
    }
    Ok(())
}

/// Sorts the members by the bytes of their keys. The sort is stable.
pub fn sort(texts: &Texts<'_>, members: &mut Vec<Member>) -> Result<(), AllocError>
    ensures permutation { IsPermutation members.old.items members.new.items }
    ensures sorted { OnOk result (IsSortedBy (key_lt texts.now) members.new.items) }
    ensures stable { IsStableBy (key_lt texts.now) members.old.items members.new.items }
{
    members.sort_by(|a, b| texts.part(a.key).cmp(texts.part(b.key)))?;
    Ok(())
}

/// Whether each key is less than the next one.
pub fn rise(texts: &Texts<'_>, members: &[Member]) -> bool
    ensures { result ≡ rise texts.now members.now }
{
    let mut rest = members;
    while let Some((member, others)) = rest.split_first() {
        if !is_below_next(texts, *member, others) {
            return false;
        }
        rest = others;
    }
    true
}

/// Whether the member's key is less than that of the first of the others.
fn is_below_next(texts: &Texts<'_>, member: Member, others: &[Member]) -> bool
    ensures { result ≡ is_below_next texts.now member others.now }
{
    match others.first() {
        Some(next) => is_below(texts.part(member.key), texts.part(next.key)),
        None => true,
    }
}

/// Appends the sorted members; of those with equal keys, only the last.
pub fn push_lasts(
    texts: &Texts<'_>,
    members: &mut Vec<Member>,
    sorted: &[Member],
) -> Result<(), AllocError>
    ensures { OnOk result (members.new.items ≡ members.old.items ++ lasts texts.now sorted.now) }
{
    let mut rest = sorted;
    while let Some((member, others)) = rest.split_first() {
        push_last(texts, members, *member, others)?;
        rest = others;
    }
    Ok(())
}

/// Appends a member, unless the first of the others has the same key.
fn push_last(
    texts: &Texts<'_>,
    members: &mut Vec<Member>,
    member: Member,
    others: &[Member],
) -> Result<(), AllocError>
    ensures { OnOk result (members.new.items ≡ members.old.items
        ++ cond (comes_again texts.now member others.now) [] (member ∷ [])) }
{
    if !comes_again(texts, member, others) {
        members.push(member)?;
    }
    Ok(())
}

/// Whether the first of the others has the same key.
fn comes_again(texts: &Texts<'_>, member: Member, others: &[Member]) -> bool
    ensures { result ≡ comes_again texts.now member others.now }
{
    match others.first() {
        Some(next) => texts.part(member.key) == texts.part(next.key),
        None => false,
    }
}

/// Finds the member with the key by binary search. Each key has to be less than the next one.
pub fn find<'a>(texts: &Texts<'_>, members: &'a [Member], key: &[u8]) -> Option<&'a Member>
    ensures { rise texts.now members.now ≡ true →
        option_map (λ m. m.now) result ≡ member_with texts.now key.now members.now }
{
    let found = members.binary_search_by(|member| texts.part(member.key).cmp(key));
    match found {
        Ok(index) => Some(&members[index]),
        Err(_) => None,
    }
}
