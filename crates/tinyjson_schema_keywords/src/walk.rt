//! The state of a check, which is passed down from schema to subschema.
ghost use Rattle.text_iregexp.specs.PatternDeciding.{is_found};
ghost use Rattle.std.specs.Prelude.{◌≡◌, IfOk, MatchResult};
ghost use Rattle.std.specs.Str.{chars};
ghost use Rattle.tinyjson_schema_keywords.specs.Walks.{IsDeeper};
ghost use Rattle.std.specs.Prelude.{Some};
ghost use Rattle.tinyjson_schema_keywords.specs.Messages.{check_error_message, search_error_message};

use crate::document::Whole;
use std::alloc::{AllocError, AllocFailed, Global};
use std::error::Error;
use std::fmt;

/// Why a check has no result.
#[derive(Clone, Copy, Debug, PartialEq, Eq)]
pub enum CheckError {
    /// More nested schemas would be applied than the caller allows.
    TooDeep,
    /// The check would take more steps than the caller allows.
    TooMuch,
    /// An allocation failed.
    OutOfMemory,
}

impl From<AllocError> for CheckError {
    fn from(_: AllocError) -> CheckError {
        CheckError::OutOfMemory
    }
}

impl<T: Drop> From<AllocFailed<T>> for CheckError {
    fn from(_: AllocFailed<T>) -> CheckError {
        CheckError::OutOfMemory
    }
}

impl fmt::Display for CheckError {
    ghost output = { λ e. Some (check_error_message e) };

    fn fmt<W: fmt::Write>(&self, f: &mut fmt::Formatter<W>) -> fmt::Result {
        match self {
            CheckError::TooDeep => f.write_str("schemas are nested too deep"),
            CheckError::TooMuch => f.write_str("the check takes too many steps"),
            CheckError::OutOfMemory => f.write_str("out of memory"),
        }
    }
}

impl Error for CheckError {}

/// Why a search for a pattern, or an assertion, has no result.
#[derive(Clone, Copy, Debug, PartialEq, Eq)]
pub enum SearchError {
    /// It would take more steps than the caller allows.
    TooMuch,
    /// An allocation failed.
    OutOfMemory,
}

impl From<AllocError> for SearchError {
    fn from(_: AllocError) -> SearchError {
        SearchError::OutOfMemory
    }
}

impl<T: Drop> From<AllocFailed<T>> for SearchError {
    fn from(_: AllocFailed<T>) -> SearchError {
        SearchError::OutOfMemory
    }
}

impl fmt::Display for SearchError {
    ghost output = { λ e. Some (search_error_message e) };

    fn fmt<W: fmt::Write>(&self, f: &mut fmt::Formatter<W>) -> fmt::Result {
        match self {
            SearchError::TooMuch => f.write_str("the check takes too many steps"),
            SearchError::OutOfMemory => f.write_str("out of memory"),
        }
    }
}

impl Error for SearchError {}

impl From<SearchError> for CheckError {
    fn from(error: SearchError) -> CheckError {
        match error {
            SearchError::TooMuch => CheckError::TooMuch,
            SearchError::OutOfMemory => CheckError::OutOfMemory,
        }
    }
}

/// The whole schema, in which references lead; how many more nested schemas may be applied; and the allocator. It is
/// two words, so that it takes no stack where the recursion over schemas passes it down.
#[derive(Clone, Copy)]
pub struct Walk<'d, 's> {
    pub whole: &'d Whole<'s>,
    pub steps: usize,
    pub alloc: Global,
}

impl<'d, 's> Walk<'d, 's> {
    /// The state for a subschema: one step less is left.
    pub fn deeper(self) -> Result<Walk<'d, 's>, CheckError>
        ensures { MatchResult result
            (λ inner. IsDeeper self.entry inner) (λ _. self.entry.steps ≡ 0) }
    {
        match self.steps.checked_sub(1) {
            Some(steps) => Ok(Walk {
                whole: self.whole,
                steps,
                alloc: self.alloc,
            }),
            None => Err(CheckError::TooDeep),
        }
    }

    /// The state for a schema that is applied: one step of the budget is taken, and one less nested schema is left.
    pub fn entered(self) -> Result<Walk<'d, 's>, CheckError>
        ensures { IfOk result (IsDeeper self.entry) }
    {
        self.whole.budget.spend(1)?;
        self.deeper()
    }

    /// Whether the pattern matches somewhere in the text. One that is no pattern matches nothing. It takes a step of
    /// the budget, another one for each 32 bytes of the pattern and the text, and those of the search.
    pub fn is_found(self, pattern: &str, text: &str) -> Result<bool, CheckError>
        ensures { IfOk result (λ is. is ≡ is_found (chars pattern.now) (chars text.now)) }
    {
        let bytes = pattern.len().saturating_add(text.len());
        self.whole.budget.spend(bytes / 32 + 1)?;
        let whole = self.whole;
        let is_found = whole
            .patterns
            .is_found(pattern, text, &whole.budget, self.alloc)?;
        Ok(is_found)
    }
}
