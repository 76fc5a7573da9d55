//! Patterns in schemas (Core, 6.4).
ghost use Rattle.std.specs.Prelude.{◌≡◌, ℕ, List, IfOk, IfErr, IfSome, is_some, Some};
ghost use Rattle.std.specs.Str.{chars};
ghost use Rattle.tinyjson.specs.View.{text};
ghost use Rattle.text_iregexp.specs.PatternDeciding.{is_pattern, is_found};
ghost use Rattle.tinyjson_schema_keywords.specs.Patterns.{answer_of, IsPatternError};
ghost use Rattle.tinyjson_schema_keywords.specs.Messages.{pattern_error_message};

use crate::budget::Budget;
use crate::walk::SearchError;
use std::alloc::{AllocError, Global};
use std::cell::RefCell;
use std::collections::HashMap;
use std::error::Error;
use std::fmt;
use text_iregexp::{SchemaPattern, SchemaPatternErrorKind};
use tinyjson_bytes::are_equal;

/// How many parsed patterns are kept.
const KEPT: usize = 100;

/// The greatest size that is counted.
const LARGEST: usize = 10_000;

/// Why a pattern is not parsed.
#[derive(Clone, Copy, Debug, PartialEq, Eq)]
pub enum PatternError {
    /// It is too deep or too large.
    AboveLimits,
    /// An allocation failed.
    OutOfMemory,
}

impl fmt::Display for PatternError {
    ghost output = { λ e. Some (pattern_error_message e) };

    fn fmt<W: fmt::Write>(&self, f: &mut fmt::Formatter<W>) -> fmt::Result {
        match self {
            PatternError::AboveLimits => f.write_str("a pattern is too deep or too large"),
            PatternError::OutOfMemory => f.write_str("out of memory"),
        }
    }
}

impl Error for PatternError {}

/// A text that was parsed as a pattern.
#[derive(Drop)]
struct Pattern {
    pattern: String,
    /// `None` if the text is no pattern.
    code: Option<SchemaPattern>,
    ghost read: { (cs : List ℕ) → is_found (text pattern) cs ≡ answer_of code cs },
}

impl Pattern {
    /// Parses a text. One that is no pattern matches nothing. A checked schema has no pattern that is too deep or
    /// too large; for such a one the error is out of memory.
    fn read(alloc: Global, pattern: &str) -> Result<Pattern, AllocError>
        ensures { IfOk result (λ p. text p.pattern ≡ chars pattern.now) }
    {
        let Ok(code) = code_of(alloc, pattern) else {
            return Err(AllocError);
        };
        let pattern = String::from_str(alloc, pattern)?;
        Ok(Pattern { pattern, code })
    }

    /// Whether the pattern matches somewhere in the text. The work of the search takes steps of the budget.
    fn is_found_in(&mut self, value: &str, budget: &Budget) -> Result<bool, SearchError>
        ensures found { IfOk result (λ is. is ≡ is_found (text self.old.pattern) (chars value.now)) }
        ensures same { self.new.pattern ≡ self.old.pattern }
    {
        let Some(code) = &mut self.code else {
            return Ok(false);
        };
        let before = budget.work();
        let mut work = before;
        let found = code.is_found_within(value, &mut work);
        budget.pay(before, work);
        match found {
            Some(is_found) => Ok(is_found),
            None => Err(SearchError::TooMuch),
        }
    }
}

/// Parsed patterns in the order of their first uses. Behind them is the last one for which there was no room.
#[derive(Drop)]
struct Patterns {
    parsed: Vec<Pattern>,
    places: HashMap<String, usize>,
    /// The place after that of the last use.
    next: usize,
}

impl Patterns {
    /// Whether the pattern matches somewhere in the text. Values that are checked one after another use the same
    /// patterns in the same order, so the one after the last is tried first. The members of an object use the same
    /// pattern, so the last one is tried next.
    fn is_found(
        &mut self,
        pattern: &str,
        text: &str,
        budget: &Budget,
        alloc: Global,
    ) -> Result<bool, SearchError>
        ensures { IfOk result (λ is. is ≡ is_found (chars pattern.now) (chars text.now)) }
    {
        let next = if self.next < self.parsed.len() {
            self.next
        } else {
            0
        };
        if let Some(found) = self.found_at(next, pattern, text, budget) {
            return found;
        }
        let last = self.next.saturating_sub(1);
        if let Some(found) = self.found_at(last, pattern, text, budget) {
            return found;
        }
        if let Some(place) = self.places.get(pattern).copied() {
            if let Some(found) = self.found_at(place, pattern, text, budget) {
                return found;
            }
        }
        budget.charge(parsing_steps(pattern));
        self.found_anew(pattern, text, budget, alloc)
    }

    /// Whether the pattern at the place matches somewhere in the text; `None` if none is there, or another.
    fn found_at(
        &mut self,
        place: usize,
        pattern: &str,
        text: &str,
        budget: &Budget,
    ) -> Option<Result<bool, SearchError>>
        ensures { IfSome result
            (λ r. IfOk r (λ is. is ≡ is_found (chars pattern.now) (chars text.now))) }
    {
        let known = self.parsed.get_mut(place)?;
        if !are_equal(known.pattern.as_bytes(), pattern.as_bytes()) {
            return None;
        }
        self.next = place + 1;
        Some(known.is_found_in(text, budget))
    }

    /// Whether the pattern, which is parsed now, matches somewhere in the text. It is kept, without room in place of
    /// the last one.
    fn found_anew(
        &mut self,
        pattern: &str,
        text: &str,
        budget: &Budget,
        alloc: Global,
    ) -> Result<bool, SearchError>
        ensures { IfOk result (λ is. is ≡ is_found (chars pattern.now) (chars text.now)) }
    {
        let mut parsed = Pattern::read(alloc, pattern)?;
        let is_found = parsed.is_found_in(text, budget)?;
        let place = self.parsed.len();
        if let Some(last) = self.parsed.get_mut(KEPT) {
            *last = parsed;
            self.next = KEPT + 1;
            return Ok(is_found);
        }
        self.parsed.push(parsed)?;
        if place < KEPT {
            self.places
                .insert(String::from_str(alloc, pattern)?, place)?;
        }
        self.next = place + 1;
        Ok(is_found)
    }
}

/// Parsed patterns, up to 100 of them, so that most are parsed once.
#[derive(Drop)]
pub struct KeptPatterns {
    kept: RefCell<Patterns>,
}

impl KeptPatterns {
    /// No pattern yet.
    pub fn new(alloc: Global) -> KeptPatterns {
        KeptPatterns {
            kept: RefCell::new(Patterns {
                parsed: Vec::new(alloc),
                places: HashMap::new(alloc),
                next: 0,
            }),
        }
    }

    /// Whether the pattern matches somewhere in the text. One that is no pattern matches nothing. A checked schema has
    /// no pattern that is too deep or too large; for such a one the error is out of memory. A pattern that is parsed
    /// now takes ten steps of the budget, and more with its size. The work of the search takes steps as well.
    #[inline(never)]
    pub fn is_found(
        &self,
        pattern: &str,
        text: &str,
        budget: &Budget,
        alloc: Global,
    ) -> Result<bool, SearchError>
        ensures { IfOk result (λ is. is ≡ is_found (chars pattern.now) (chars text.now)) }
    {
        let Ok(mut kept) = self.kept.try_borrow_mut() else {
            return Pattern::read(alloc, pattern)?.is_found_in(text, budget);
        };
        kept.is_found(pattern, text, budget, alloc)
    }
}

/// How many steps of a budget parsing the pattern takes.
fn parsing_steps(pattern: &str) -> usize {
    pattern_size(pattern) / 16 + 10
}

/// About how many parts the pattern has, with each counted repetition written out.
fn pattern_size(pattern: &str) -> usize {
    let mut size = pattern.len();
    let mut count: usize = 0;
    let mut greatest: usize = 1;
    for byte in pattern.as_bytes() {
        match *byte {
            b'{' => {
                count = 0;
                greatest = 1;
            }
            b'0'..=b'9' => {
                count = count.saturating_mul(10);
                count = count.saturating_add((*byte - b'0') as usize);
                greatest = greatest.max(count);
            }
            b'}' => size = size.saturating_mul(greatest),
            _ => count = 0,
        }
    }
    size.min(LARGEST)
}

/// The pattern that the text is, or `None` if it is none.
fn code_of(alloc: Global, pattern: &str) -> Result<Option<SchemaPattern>, PatternError>
    ensures is { IfOk result (λ o. is_some o ≡ is_pattern (chars pattern.now)) }
    ensures found { IfOk result
        (λ o. (cs : List ℕ) → is_found (chars pattern.now) cs ≡ answer_of o cs) }
    ensures error { IfErr result (λ e. IsPatternError (chars pattern.now) e) }
{
    match SchemaPattern::parse(alloc, pattern) {
        Ok(code) => Ok(Some(code)),
        Err(error) => match error.kind {
            SchemaPatternErrorKind::Invalid => Ok(None),
            SchemaPatternErrorKind::Outside => Ok(None),
            SchemaPatternErrorKind::TooDeep => Err(PatternError::AboveLimits),
            SchemaPatternErrorKind::TooLarge => Err(PatternError::AboveLimits),
            SchemaPatternErrorKind::OutOfMemory => Err(PatternError::OutOfMemory),
        },
    }
}

/// Whether the text is a pattern.
pub fn is_pattern(alloc: Global, text: &str) -> Result<bool, PatternError>
    ensures is { IfOk result (λ is. is ≡ is_pattern (chars text.now)) }
    ensures error { IfErr result (λ e. IsPatternError (chars text.now) e) }
{
    match code_of(alloc, text) {
        Ok(code) => Ok(code.is_some()),
        Err(error) => Err(error),
    }
}
