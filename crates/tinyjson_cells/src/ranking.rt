//! Puts members in the order of their keys by ranks (`tinyjson_bytes`), and then checks the order on the
//! keys themselves.
ghost use Rattle.std.specs.Prelude.{◌≡◌, true, List, IfOk, OnOk, length};
ghost use Rattle.std.specs.List.{All, Contains};
ghost use Rattle.tinyjson_cells.specs.Order.{IsOrdered, lasts};
ghost use Rattle.tinyjson_cells.specs.declared.store.Member.{Member as Pair};

use crate::sorting::{push_lasts, rise, sort};
use crate::store::Member;
use crate::texts::Texts;
use std::alloc::AllocError;
use tinyjson_bytes::{Keys, place_mask, rank};

/// For each number of members up to this one, the ranks have a place of their own.
const FEW: usize = 16;

/// In the place of the first rank: the last object with as many members had equal keys.
const EQUAL_KEYS: u64 = u64::MAX;

/// Keeps the members in the order of their keys; of equal keys only the last. It first tries the order of
/// the last object with as many members, which the ranks have, since many objects of a text have the same
/// keys. Few members are simply sorted if there was no such object, or if it had equal keys.
pub fn keep_ordered(
    texts: &Texts<'_>,
    members: &mut Vec<Member>,
    ranks: &mut Vec<u64>,
    kept: &mut Vec<Member>,
) -> Result<(), AllocError>
    ensures { OnOk result ((ns : List Pair) × IsOrdered texts.now members.old.items ns
        × (kept.new.items ≡ lasts texts.now ns)) }
{
    let from = members.len().min(FEW + 1) * FEW;
    let to = from.saturating_add(members.len());
    if keep_rising(texts, members, ranks.get(from..to).unwrap_or(&[]), kept)? {
        return Ok(());
    }
    if members.len() > FEW || ranks.get(from).is_some_and(|rank| *rank != EQUAL_KEYS) {
        rank_members(texts, members, ranks, from)?;
        if keep_rising(texts, members, ranks.get(from..to).unwrap_or(&[]), kept)? {
            return Ok(());
        }
    }
    sort(texts, members)?;
    kept.clear();
    push_lasts(texts, kept, members)?;
    ranks.resize(ranks.len().max(to), 0)?;
    if let Some(first) = ranks.get_mut(from) {
        *first = if kept.len() == members.len() {
            0
        } else {
            EQUAL_KEYS
        };
    }
    Ok(())
}

/// Keeps the members in the order of the ranks, and returns whether each key is less than the next one.
fn keep_rising(
    texts: &Texts<'_>,
    members: &[Member],
    ranks: &[u64],
    kept: &mut Vec<Member>,
) -> Result<bool, AllocError>
    ensures { IfOk result (λ rising. rising ≡ true →
        IsOrdered texts.now members.now kept.new.items
        × (lasts texts.now kept.new.items ≡ kept.new.items)) }
{
    if ranks.len() != members.len() {
        return Ok(false);
    }
    pick(members, ranks, kept)?;
    Ok(kept.len() == members.len() && rise(texts, kept))
}

/// Keeps the members in the order of the ranks.
fn pick(members: &[Member], ranks: &[u64], kept: &mut Vec<Member>) -> Result<(), AllocError>
    ensures { OnOk result (All (Contains members.now) kept.new.items) }
{
    let mask = place_mask(members.len());
    kept.clear();
    kept.reserve(ranks.len())?;
    for rank in ranks {
        if let Some(member) = members.get((rank & mask) as usize) {
            kept.push(*member)?;
        }
    }
    Ok(())
}

/// Ranks the members by their keys. Their ranks begin at `from`.
fn rank_members(
    texts: &Texts<'_>,
    members: &[Member],
    ranks: &mut Vec<u64>,
    from: usize,
) -> Result<(), AllocError> {
    let to = from.saturating_add(members.len());
    ranks.resize(ranks.len().max(to), 0)?;
    let Some(ranks) = ranks.as_mut_slice().get_mut(from..to) else {
        return Ok(());
    };
    for (place, rank) in ranks.iter_mut().enumerate() {
        *rank = place as u64;
    }
    let mask = place_mask(members.len());
    rank(ranks, mask, &MemberKeys { texts, members });
    Ok(())
}

/// The keys of members, which are ranges of the text.
#[derive(Clone, Copy)]
struct MemberKeys<'t> {
    texts: &'t Texts<'t>,
    members: &'t [Member],
}

impl<'t> Keys for MemberKeys<'t> {
    #[inline(always)]
    fn key_at(&self, place: u64) -> &[u8] {
        match self.members.get(place as usize) {
            Some(member) => self.texts.part(member.key),
            None => b"",
        }
    }
}
