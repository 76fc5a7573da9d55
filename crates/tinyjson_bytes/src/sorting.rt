//! Many members, put near their order before they are sorted.
ghost use Rattle.std.specs.Prelude.{◌≡◌, ◌<◌, length, IfOk};
ghost use Rattle.std.specs.List.Sorted.{IsPermutation};

use crate::ranking::{FEW, Keys, place_mask, rank};
use std::alloc::{AllocError, Global};

/// The keys of members.
#[derive(Clone, Copy)]
struct MemberKeys<'m, 'k, T> {
    members: &'m [(&'k str, &'k T)],
}

impl<'m, 'k, T> Keys for MemberKeys<'m, 'k, T> {
    #[inline(always)]
    fn key_at(&self, place: u64) -> &[u8] {
        match self.members.get(place as usize) {
            Some((key, _value)) => key.as_bytes(),
            None => b"",
        }
    }
}

/// Orders many members by the bytes of their keys, the last key's member first. Where memory is
/// refused, or there are few, or the first of them rise or fall already, they stay as they are.
#[inline(always)]
pub fn presort<T>(alloc: Global, members: &mut [(&str, &T)])
    ensures { IsPermutation members.old members.new }
{
    if members.len() > FEW && !is_run(&members[..FEW]) {
        presort_many(alloc, members);
    }
}

/// Whether the keys rise, or fall.
fn is_run<T>(members: &[(&str, &T)]) -> bool {
    members.is_sorted_by(|a, b| a.0 <= b.0) || members.is_sorted_by(|a, b| a.0 >= b.0)
}

#[inline(never)]
fn presort_many<T>(alloc: Global, members: &mut [(&str, &T)])
    ensures { IsPermutation members.old members.new }
{
    let Ok(mut words) = indices(alloc, members.len()) else {
        return;
    };
    let mask = place_mask(members.len());
    rank(&mut words, mask, &MemberKeys { members: &*members });
    words.reverse();
    place(&mut words, mask, members);
}

/// The words of `count` members, at first their indices.
fn indices(alloc: Global, count: usize) -> Result<Vec<u64>, AllocError>
    ensures { IfOk result (λ v. length v.items ≡ count) }
{
    let mut words = Vec::with_capacity(alloc, count)?;
    for index in 0..count {
        words.push(index as u64)?;
    }
    Ok(words)
}

/// Moves each member to the place of the word with its index.
fn place<T>(words: &mut [u64], mask: u64, members: &mut [(&str, &T)])
    requires { length words.old ≡ length members.old }
    ensures { IsPermutation members.old members.new }
{
    for start in 0..members.len() {
        move_cycle(words, mask, members, start);
    }
}

/// Moves the members of one cycle, each to the place of the word with its index.
fn move_cycle<T>(words: &mut [u64], mask: u64, members: &mut [(&str, &T)], start: usize)
    requires same_len { length words.old ≡ length members.old }
    requires start { start < length members.old }
    ensures words { length words.new ≡ length words.old }
    ensures members { IsPermutation members.old members.new }
{
    let mut at = start;
    for _step in 0..members.len() {
        let next = (words[at] & mask) as usize;
        words[at] = at as u64;
        if next == start || next >= members.len() {
            return;
        }
        members.swap(at, next);
        at = next;
    }
}
