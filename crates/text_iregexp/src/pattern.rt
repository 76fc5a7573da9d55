//! A parsed pattern of JSON Schema.
ghost use Rattle.std.specs.Prelude.{◌≡◌, ◌↔◌, IsTrue, IfSome};
ghost use Rattle.std.specs.Str.{chars};
ghost use Rattle.text_regexp.specs.Forms.{Matches};
ghost use Rattle.text_regexp.specs.Work.{Spends};

use crate::cases::Case;
use crate::outermost::read_pattern;
use crate::pattern_error::{SchemaPatternError, SchemaPatternErrorKind};
use crate::refusal::refusal;
use crate::regexp::characters;
use crate::search::any_found;
use std::alloc::Global;
use text_regexp::Work;

/// A pattern of JSON Schema, in the dialect that the standard recommends (Core 2020-12, 6.4), with
/// the escapes and the assertions `^`, `$`, `\b` and `\B` of ECMA-262. Matching borrows it mutably:
/// it remembers, within a bound, what the characters of ASCII lead to, so that further texts take
/// less time.
///
/// ```
/// let mut code = SchemaPattern::parse(alloc, "^[A-Z]{2}\\d+$")?;
/// assert!(rt; code.is_found_in("GB42"));
/// assert!(rt; !code.is_found_in("GB42\n"));
/// ```
#[derive(Drop)]
pub struct SchemaPattern {
    cases: Vec<Case>,
}

impl SchemaPattern {
    ghost use Rattle.text_iregexp.specs.PatternReading.{ReadsPattern, texts_of};

    /// Parses a pattern; its grammar is in `specs/Patterns.antt`. After an error everything is
    /// freed.
    ///
    /// ```
    /// let mut name = SchemaPattern::parse(alloc, "^x-")?;
    /// assert!(rt; name.is_found_in("x-rate"));
    /// ```
    pub fn parse(alloc: Global, text: &str) -> Result<SchemaPattern, SchemaPatternError>
        ensures { ReadsPattern (chars text.now) result }
    {
        let Ok(all) = characters(alloc, text) else {
            return Err(SchemaPatternError {
                kind: SchemaPatternErrorKind::OutOfMemory,
                place: 0,
            });
        };
        match read_pattern(alloc, all.as_slice()) {
            Ok(cases) => Ok(SchemaPattern { cases }),
            Err(error) => Err(refusal(all.as_slice(), error)),
        }
    }

    /// Whether the pattern matches a part of the text, and its look-aheads hold. `^` matches only at
    /// the beginning, and `$` only at the end; `\b` where a word of ASCII begins or ends, and `\B`
    /// elsewhere. The time is at most proportional to the product of the two sizes. Where memory
    /// for what it remembers is refused, it remembers less.
    ///
    /// ```
    /// let mut digits = SchemaPattern::parse(alloc, "\\d{3}")?;
    /// assert!(rt; digits.is_found_in("no 404 here"));
    /// let mut word = SchemaPattern::parse(alloc, "\\bno(\\b|$)")?;
    /// assert!(rt; word.is_found_in("no 404 here"));
    /// assert!(rt; !word.is_found_in("none here"));
    /// ```
    pub fn is_found_in(&mut self, text: &str) -> bool
        ensures found { IsTrue result ↔ Matches (texts_of self.old) (chars text.now) }
        ensures same { texts_of self.new ≡ texts_of self.old }
    {
        self.is_found_within(text, &mut Work::Unlimited)
            .unwrap_or(false)
    }

    /// Whether the pattern matches a part of the text, as `is_found_in` does; `None` if that takes
    /// more work than is left. What it takes is taken from the work; without an answer, all is.
    ///
    /// ```
    /// let mut digits = SchemaPattern::parse(alloc, "\\d{3}")?;
    /// assert!(rt; digits.is_found_within("no 404", &mut Work::AtMost(9_000)) == Some(true));
    /// assert!(rt; digits.is_found_within("no 405", &mut Work::AtMost(0)).is_none());
    /// ```
    pub fn is_found_within(&mut self, text: &str, work: &mut Work) -> Option<bool>
        ensures found { IfSome result
            (λ b. IsTrue b ↔ Matches (texts_of self.old) (chars text.now)) }
        ensures same { texts_of self.new ≡ texts_of self.old }
        ensures work { Spends work.old result work.new }
    {
        any_found(self.cases.as_mut_slice(), text, work)
    }
}
