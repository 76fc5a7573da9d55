//! Which indices an index and a slice select (RFC 9535, 2.3.3 and 2.3.4).
ghost use Rattle.std.specs.Prelude.{◌≡◌};
ghost use Rattle.tinyjson_path.specs.Slices.{place_of, clamped, clamped_after, bound_or, is_up, is_down};
ghost use Rattle.tinyjson_path.specs.Seen.{steps_of};

/// The direction and the size of the steps of a slice.
#[derive(Clone, Copy)]
pub(crate) enum Steps {
    Up(usize),
    Down(usize),
}

/// The bounds of a slice in an array: the first index, the one after the last, and the size of a step.
#[derive(Clone, Copy)]
pub(crate) struct Bounds {
    pub(crate) low: usize,
    pub(crate) high: usize,
    pub(crate) step: usize,
}

/// The index in an array of this length. One below zero counts from the end.
pub(crate) fn place(index: i64, len: usize) -> Option<usize>
    ensures { result ≡ place_of index len }
{
    let magnitude = index.unsigned_abs() as usize;
    if index >= 0 {
        Some(magnitude)
    } else if magnitude <= len {
        Some(len - magnitude)
    } else {
        None
    }
}

pub(crate) fn steps_of(step: Option<i64>) -> Steps
    ensures { result ≡ steps_of step }
{
    match step {
        None => Steps::Up(1),
        Some(step) => {
            let magnitude = step.unsigned_abs() as usize;
            if step >= 0 {
                Steps::Up(magnitude)
            } else {
                Steps::Down(magnitude)
            }
        }
    }
}

/// Whether steps up from the lower bound reach the index.
pub(crate) fn is_up(bounds: Bounds, index: usize) -> bool
    ensures { result ≡ is_up bounds.low bounds.high bounds.step index }
{
    bounds.low <= index
        && index < bounds.high
        && bounds.step > 0
        && (index - bounds.low) % bounds.step == 0
}

/// Whether steps down from below the upper bound reach the index.
pub(crate) fn is_down(bounds: Bounds, index: usize) -> bool
    ensures { result ≡ is_down bounds.low bounds.high bounds.step index }
{
    bounds.low <= index
        && index < bounds.high
        && bounds.step > 0
        && (bounds.high - 1 - index) % bounds.step == 0
}

/// A bound for steps up, clamped to the array.
pub(crate) fn bound(bound: Option<i64>, len: usize, default: usize) -> usize
    ensures { result ≡ bound_or clamped bound len default }
{
    match bound {
        None => default,
        Some(index) => {
            let magnitude = index.unsigned_abs() as usize;
            if index >= 0 {
                magnitude.min(len)
            } else {
                len.saturating_sub(magnitude)
            }
        }
    }
}

/// One more than a bound for steps down, clamped to the array.
pub(crate) fn bound_after(bound: Option<i64>, len: usize, default: usize) -> usize
    ensures { result ≡ bound_or clamped_after bound len default }
{
    match bound {
        None => default,
        Some(index) => {
            let magnitude = index.unsigned_abs() as usize;
            if index >= 0 {
                (magnitude + 1).min(len)
            } else {
                len.saturating_sub(magnitude - 1)
            }
        }
    }
}
