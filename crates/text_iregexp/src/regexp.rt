//! A parsed regular expression of RFC 9485.
ghost use Rattle.std.specs.Prelude.{◌≡◌, ◌↔◌, IfOk, IsTrue};
ghost use Rattle.std.specs.Str.{chars};
ghost use Rattle.text_regexp.specs.Forms.{Matches, Searches};

use crate::error::{IRegexpError, IRegexpErrorKind};
use crate::reader::read;
use std::alloc::{AllocError, Global};
use text_regexp::Expression;

/// A regular expression of RFC 9485. Matching borrows it mutably, for marks that move over the
/// text. They have no meaning between calls.
///
/// ```
/// let mut word = IRegexp::parse(alloc, "[a-z]+(-[a-z]+)*")?;
/// assert!(rt; word.matches("so-called"));
/// assert!(rt; !word.matches("so--called"));
/// ```
#[derive(Drop)]
pub struct IRegexp {
    root: Expression,
}

impl IRegexp {
    ghost use Rattle.text_iregexp.specs.Regexps.{form_in, ReadsRegexp};

    /// Parses a regular expression (RFC 9485, section 3). `^` and `$` are ordinary characters,
    /// except for a `^` after `[`, which negates. After an error everything is freed.
    ///
    /// ```
    /// let mut month = IRegexp::parse(alloc, "[0-9]{4}-[0-9]{2}")?;
    /// assert!(rt; month.matches("2026-11"));
    /// ```
    pub fn parse(alloc: Global, text: &str) -> Result<IRegexp, IRegexpError>
        ensures { ReadsRegexp (chars text.now) result }
    {
        let Ok(all) = characters(alloc, text) else {
            return Err(IRegexpError {
                kind: IRegexpErrorKind::OutOfMemory,
                place: 0,
            });
        };
        match read(alloc, all.as_slice()) {
            Ok(root) => Ok(IRegexp { root }),
            Err(error) => Err(error),
        }
    }

    /// Whether it matches the whole text (RFC 9485, section 4). The time is at most proportional to
    /// the product of the two sizes. It takes no memory.
    ///
    /// ```
    /// let mut even = IRegexp::parse(alloc, "(aa)*")?;
    /// assert!(rt; even.matches("aaaa"));
    /// assert!(rt; !even.matches("aaa"));
    /// ```
    pub fn matches(&mut self, text: &str) -> bool
        ensures matched { IsTrue result ↔ Matches (form_in self.old) (chars text.now) }
        ensures same { form_in self.new ≡ form_in self.old }
    {
        self.root.matches(text)
    }

    /// Whether it matches a part of the text: some consecutive characters, or none. The time is at
    /// most proportional to the product of the two sizes. It takes no memory.
    ///
    /// ```
    /// let mut month = IRegexp::parse(alloc, "[0-9]{4}-[0-9]{2}")?;
    /// assert!(rt; month.searches("until 2026-11, or so"));
    /// ```
    pub fn searches(&mut self, text: &str) -> bool
        ensures matched { IsTrue result ↔ Searches (form_in self.old) (chars text.now) }
        ensures same { form_in self.new ≡ form_in self.old }
    {
        self.root.searches(text)
    }
}

/// The characters of a text.
#[tactic(auto, using(std::proofs::lemmas::Str::chars_from_encodes))]
pub(crate) fn characters(alloc: Global, text: &str) -> Result<Vec<char>, AllocError>
    ensures { IfOk result (λ v. v.items ≡ chars text.now) }
{
    text.chars().collect(alloc)
}
