//! Keys put in order by numbers: some bytes of each key, and below them, in the low bits, the place of the key.
ghost use Rattle.std.specs.Prelude.{◌≡◌, length};

/// Up to this many keys are compared whole as soon as some bytes of them are the same.
pub(crate) const FEW: usize = 32;

/// How often keys are ordered by some of their bytes, before whole keys are compared.
const PASSES: usize = 16;

/// Keys by their places.
pub trait Keys {
    /// The bytes of the key at that place, which are none where there is no such place.
    fn key_at(&self, place: u64) -> &[u8];
}

/// The bits that hold each place below that count.
pub fn place_mask(count: usize) -> u64 {
    u64::MAX.wrapping_shr((count as u64).leading_zeros())
}

/// Puts the ranks in the rising order of the keys at their places, which are in the bits of the mask. Those of equal
/// keys come in any order.
pub fn rank<K: Keys>(ranks: &mut [u64], mask: u64, keys: &K)
    ensures { length ranks.new ≡ length ranks.old }
{
    order(ranks, mask, keys, 0, PASSES);
}

/// Orders the ranks by the keys at their places, whose first `common` bytes are known to be equal. Those that tie in the
/// first bytes after what all share are ordered by the bytes after these; by whole keys, where they are few or no pass
/// is left.
fn order<K: Keys>(ranks: &mut [u64], mask: u64, keys: &K, common: usize, passes: usize)
    ensures { length ranks.new ≡ length ranks.old }
{
    let Some(passes) = passes.checked_sub(1) else {
        return order_by_keys(ranks, mask, keys);
    };
    let shared = shared_len(ranks, mask, keys, common);
    put_leading(ranks, mask, keys, shared);
    ranks.sort_unstable();
    for tied in ranks.chunk_by_mut(|a, b| a ^ b <= mask) {
        if tied.len() > FEW {
            order(tied, mask, keys, shared, passes);
        } else if tied.len() > 1 {
            order_by_keys(tied, mask, keys);
        }
    }
}

/// Gives each rank, above its place, the bytes of its key from there on.
fn put_leading<K: Keys>(ranks: &mut [u64], mask: u64, keys: &K, from: usize)
    ensures { length ranks.new ≡ length ranks.old }
{
    for rank in ranks.iter_mut() {
        let place = *rank & mask;
        *rank = (leading(keys.key_at(place), from) & !mask) | place;
    }
}

/// Orders the ranks by the keys at their places.
fn order_by_keys<K: Keys>(ranks: &mut [u64], mask: u64, keys: &K)
    ensures { length ranks.new ≡ length ranks.old }
{
    ranks.sort_unstable_by(|a, b| keys.key_at(a & mask).cmp(keys.key_at(b & mask)));
}

/// The number of first bytes that many keys share, of which `common` are known to be equal. Few keys are not searched.
fn shared_len<K: Keys>(ranks: &[u64], mask: u64, keys: &K, common: usize) -> usize {
    let Some(rank) = ranks.first() else {
        return common;
    };
    if ranks.len() <= FEW {
        return common;
    }
    let first = keys.key_at(rank & mask);
    let mut len = common;
    while len < first.len() {
        let unequal = differences(ranks, mask, keys, len, leading(first, len));
        if unequal != 0 {
            return len.saturating_add((unequal.leading_zeros() / 8) as usize);
        }
        len = len.saturating_add(8);
    }
    first.len()
}

/// The bits in which the eight bytes from that place on of some key differ from those.
fn differences<K: Keys>(ranks: &[u64], mask: u64, keys: &K, from: usize, expected: u64) -> u64 {
    let mut bits = 0;
    for rank in ranks {
        bits |= leading(keys.key_at(rank & mask), from) ^ expected;
    }
    bits
}

/// The eight bytes from that place on as a number, the first the greatest, with zeros after the last.
#[inline(always)]
fn leading(bytes: &[u8], from: usize) -> u64 {
    if bytes.len() < 8 {
        return leading_of_short(bytes, from);
    }
    let at = from.min(bytes.len() - 8);
    let word = u64::from_be_bytes([
        bytes[at],
        bytes[at + 1],
        bytes[at + 2],
        bytes[at + 3],
        bytes[at + 4],
        bytes[at + 5],
        bytes[at + 6],
        bytes[at + 7],
    ]);
    if from - at < 8 {
        word << (8 * (from - at))
    } else {
        0
    }
}

#[inline(never)]
fn leading_of_short(bytes: &[u8], from: usize) -> u64 {
    let mut word = [0u8; 8];
    let rest = &bytes[from.min(bytes.len())..];
    for i in 0..8 {
        if i < rest.len() {
            word[i] = rest[i];
        }
    }
    u64::from_be_bytes(word)
}
