//! A regular expression, and the texts that it matches.
ghost use Rattle.std.specs.Prelude.{◌≡◌, ◌↔◌, IsTrue, true, false, None, IfSome};
ghost use Rattle.std.specs.Str.{chars};
ghost use Rattle.text_regexp.specs.Forms.{Matches, Searches};
ghost use Rattle.text_regexp.specs.Marked.{is_kept, is_marked, is_plain, is_standing};
ghost use Rattle.text_regexp.specs.Work.{Spends};

use crate::marked::Node;
use crate::run::{matches_part, matches_whole};
use crate::work::Work;

/// A regular expression as a tree. Matching borrows it mutably, for marks that move over the text.
/// They are removed at the end.
///
/// ```
/// let a = Expression::one_of(Class::single(alloc, Item::Range('a', 'a'))?);
/// let mut few = a.repeat(alloc, 1, Some(2))?;
/// assert!(rt; few.matches("aa"));
/// assert!(rt; !few.matches("aaa"));
/// ```
#[derive(Drop)]
pub struct Expression {
    pub(crate) root: Node,
    /// Whether it has no assertion.
    pub(crate) plain: bool,
    ghost kept: { is_kept root ≡ true },
    ghost unmarked: { is_marked root ≡ false },
    ghost has: { plain ≡ is_plain root },
    ghost stood: { is_standing None None root ≡ true },
}

impl Expression {
    ghost use Rattle.text_regexp.specs.Building.{form_of};

    /// Whether it matches the whole text. The time is at most proportional to the product of the
    /// sizes of the tree and the text. It takes no memory.
    ///
    /// ```
    /// let mut digit = Expression::one_of(Class::single(alloc, Item::Range('0', '9'))?);
    /// assert!(rt; digit.matches("7"));
    /// ```
    pub fn matches(&mut self, text: &str) -> bool
        ensures matched { IsTrue result ↔ Matches (form_of self.old) (chars text.now) }
        ensures same { form_of self.new ≡ form_of self.old }
    {
        self.matches_within(text, &mut Work::Unlimited)
            .unwrap_or(false)
    }

    /// Whether it matches the whole text, as `matches` does; `None` if that takes more work than is left. What it takes
    /// is taken from the work, without an answer all.
    ///
    /// ```
    /// let mut digit = Expression::one_of(Class::single(alloc, Item::Range('0', '9'))?);
    /// assert!(rt; digit.matches_within("7", &mut Work::AtMost(100)) == Some(true));
    /// assert!(rt; digit.matches_within("7", &mut Work::AtMost(0)).is_none());
    /// ```
    pub fn matches_within(&mut self, text: &str, work: &mut Work) -> Option<bool>
        ensures matched { IfSome result
            (λ b. IsTrue b ↔ Matches (form_of self.old) (chars text.now)) }
        ensures same { form_of self.new ≡ form_of self.old }
        ensures work { Spends work.old result work.new }
    {
        matches_whole(&mut self.root, self.plain, text, work)
    }

    /// Whether it matches a part of the text: some consecutive characters, or none. Time and memory
    /// are those of `matches`.
    ///
    /// ```
    /// let mut digit = Expression::one_of(Class::single(alloc, Item::Range('0', '9'))?);
    /// assert!(rt; digit.searches("in 7 days"));
    /// ```
    pub fn searches(&mut self, text: &str) -> bool
        ensures matched { IsTrue result ↔ Searches (form_of self.old) (chars text.now) }
        ensures same { form_of self.new ≡ form_of self.old }
    {
        matches_part(&mut self.root, self.plain, text)
    }
}
