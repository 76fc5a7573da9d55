//! How much work matching may take.
ghost use Rattle.std.specs.Prelude.{◌≡◌, ◌↔◌, IsSome};
ghost use Rattle.text_regexp.specs.Work.{less, HasLeft};

/// How much work matching may take. A unit is one part of the expression that is looked at for a character, or one
/// item of its class.
///
/// ```
/// let mut digit = Expression::one_of(Class::single(alloc, Item::Range('0', '9'))?);
/// let mut work = Work::AtMost(1_000);
/// assert!(rt; digit.matches_within("7", &mut work) == Some(true));
/// assert!(rt; digit.matches_within("7", &mut Work::AtMost(0)).is_none());
/// ```
#[derive(Clone, Copy)]
pub enum Work {
    /// As much as it takes.
    Unlimited,
    /// Up to this many units.
    AtMost(usize),
}

impl Work {
    /// Takes the units. If fewer are left, it takes these and returns `None`.
    pub(crate) fn take(&mut self, units: usize) -> Option<()>
        ensures enough { IsSome result ↔ HasLeft self.old units }
        ensures rest { self.new ≡ less self.old units }
    {
        match self {
            Work::Unlimited => Some(()),
            Work::AtMost(left) => {
                let rest = left.checked_sub(units);
                *left = rest.unwrap_or(0);
                rest.map(|_| ())
            }
        }
    }
}
