//! How much work a check may do.
ghost use Rattle.std.specs.Prelude.{◌≡◌, ◌<◌, IfErr};
ghost use Rattle.tinyjson_schema_keywords.specs.declared.walk.CheckError.{CheckError};

use crate::walk::CheckError;
use std::cell::Cell;
use text_iregexp::Work;

/// How many units of a search's work are a step.
const UNITS: u64 = 64;

/// How many steps a check may still take. Applying a schema to a part of the value is a step. So is comparing a value
/// of `enum`, looking for a key, and trying a pattern on a short text.
#[derive(Drop)]
pub struct Budget {
    left: Cell<u64>,
}

impl Budget {
    /// A budget of this many steps.
    pub fn new(steps: u64) -> Budget {
        Budget {
            left: Cell::new(steps),
        }
    }

    /// Starts again with this many steps.
    pub fn renew(&self, steps: u64) {
        self.left.set(steps);
    }

    /// Takes the steps. If fewer are left, it takes all of them, and the error is `TooMuch`.
    pub fn spend(&self, steps: usize) -> Result<(), CheckError>
        ensures { IfErr result (λ error. (error ≡ CheckError.TooMuch) × (0 < steps)) }
    {
        let left = self.left.get();
        let steps = steps as u64;
        self.left.set(left.saturating_sub(steps));
        if steps > left {
            return Err(CheckError::TooMuch);
        }
        Ok(())
    }

    /// The work that a search may do with the steps that are left.
    pub(crate) fn work(&self) -> Work {
        let units = self.left.get().saturating_mul(UNITS);
        Work::AtMost(usize::try_from(units).unwrap_or(usize::MAX))
    }

    /// Takes the steps of what a search has done.
    pub(crate) fn pay(&self, before: Work, after: Work) {
        if let (Work::AtMost(before), Work::AtMost(after)) = (before, after) {
            let units = before.saturating_sub(after) as u64;
            let left = self.left.get();
            self.left.set(left.saturating_sub(units / UNITS));
        }
    }

    /// Takes the steps, or all that are left. The next call of `spend` fails if none is left.
    pub fn charge(&self, steps: usize) {
        self.left.set(self.left.get().saturating_sub(steps as u64));
    }
}
