//! The state of a check of a value, which is passed down from schema to subschema.
ghost use Rattle.text_iregexp.specs.PatternDeciding.{is_found};
ghost use Rattle.std.specs.Prelude.{◌≡◌, MatchResult, true};
ghost use Rattle.std.specs.Str.{chars};
ghost use Rattle.tinyjson.specs.View.{view};
ghost use Rattle.tinyjson_schema.specs.Leads.{are_led};
ghost use Rattle.tinyjson_schema.specs.declared.walk.CheckError.{CheckError};
ghost use Rattle.tinyjson_schema_table.specs.Places.{is_of};
ghost use Rattle.std.specs.Prelude.{Some};
ghost use Rattle.tinyjson_schema.specs.Messages.{check_error_message};

use crate::lead::Lead;
use std::alloc::{AllocError, AllocFailed, Global};
use std::error::Error;
use std::fmt;
use tinyjson_schema_keywords as keywords;
use tinyjson_schema_keywords::{SearchError, Whole};
use tinyjson_schema_table::Known;

/// Why a check has no result.
#[derive(Clone, Copy, Debug, PartialEq, Eq)]
pub enum CheckError {
    /// More schemas are applied one within the other than the caller allows.
    TooDeep,
    /// The check would take more steps than the caller allows.
    TooMuch,
    /// An allocation failed.
    OutOfMemory,
}

impl From<AllocError> for CheckError {
    ghost from_gives = { λ _ e. e ≡ CheckError.OutOfMemory };

    fn from(_: AllocError) -> CheckError {
        CheckError::OutOfMemory
    }
}

impl<T: Drop> From<AllocFailed<T>> for CheckError {
    ghost from_gives = { λ _ e. e ≡ CheckError.OutOfMemory };

    fn from(_: AllocFailed<T>) -> CheckError {
        CheckError::OutOfMemory
    }
}

impl fmt::Display for CheckError {
    ghost output = { λ e. Some (check_error_message e) };

    fn fmt<W: fmt::Write>(&self, f: &mut fmt::Formatter<W>) -> fmt::Result {
        match self {
            CheckError::TooDeep => f.write_str("schemas are nested too deep"),
            CheckError::TooMuch => f.write_str("the check takes too many steps"),
            CheckError::OutOfMemory => f.write_str("out of memory"),
        }
    }
}

impl Error for CheckError {}

impl From<SearchError> for CheckError {
    ghost use Rattle.tinyjson_schema.specs.Deep.{IsShallow};

    ghost from_gives = { λ _ e. IsShallow e };

    fn from(error: SearchError) -> CheckError {
        match error {
            SearchError::TooMuch => CheckError::TooMuch,
            SearchError::OutOfMemory => CheckError::OutOfMemory,
        }
    }
}

/// What is the same at each schema of a check: the whole schema, in which references lead, those that are followed
/// already, and whether `format` is an assertion. The whole schema may be in a table.
#[derive(Clone, Copy)]
pub struct Ground<'d, 's> {
    pub whole: &'d Whole<'s>,
    pub leads: &'s [Lead<'s>],
    pub known: Option<Known<'s>>,
    pub formats: bool,
    pub ghost led: { are_led (view whole.now.root.now) leads.now ≡ true },
    pub ghost same: { is_of known (view whole.now.root.now) ≡ true },
}

/// The ground of a check; how many more nested schemas may be applied; and the allocator. It is as small as may be, for
/// the stack that nested schemas take.
#[derive(Clone, Copy)]
pub struct Walk<'d, 's> {
    pub ground: &'d Ground<'d, 's>,
    pub steps: usize,
    pub alloc: Global,
}

impl<'d, 's> Walk<'d, 's> {
    ghost use Rattle.tinyjson_schema.specs.Nested.{IfDeep};
    ghost use Rattle.tinyjson_schema.specs.Deep.{IsShallow};
    ghost use Rattle.tinyjson_schema.specs.Walks.{IsDeeper};

    /// The walk in which references are followed.
    pub fn following(self) -> keywords::Walk<'d, 's>
        ensures { result.whole ≡ self.entry.ground.now.whole }
    {
        keywords::Walk {
            whole: self.ground.whole,
            steps: self.steps,
            alloc: self.alloc,
        }
    }

    /// The state for a subschema: one step less is left.
    pub fn deeper(self) -> Result<Walk<'d, 's>, CheckError>
        ensures { MatchResult result
            (IsDeeper self.entry) (λ e. IfDeep e (self.entry.steps ≡ 0)) }
    {
        match self.steps.checked_sub(1) {
            Some(steps) => Ok(Walk {
                ground: self.ground,
                steps,
                alloc: self.alloc,
            }),
            None => Err(CheckError::TooDeep),
        }
    }

    /// The state for a schema that is applied: one step of the budget is taken, and one less nested schema is left.
    pub fn entered(self) -> Result<Walk<'d, 's>, CheckError>
        ensures { MatchResult result
            (IsDeeper self.entry) (λ e. IfDeep e (self.entry.steps ≡ 0)) }
    {
        if self.ground.whole.budget.spend(1).is_err() {
            return Err(CheckError::TooMuch);
        }
        self.deeper()
    }

    /// Whether the pattern matches somewhere in the text. One that is no pattern matches nothing. It takes a step of
    /// the budget, and another one for each 32 bytes of the pattern and the text.
    pub fn is_found(self, pattern: &str, text: &str) -> Result<bool, CheckError>
        ensures { MatchResult result
            (λ is. is ≡ is_found (chars pattern.now) (chars text.now)) IsShallow }
    {
        match self.following().is_found(pattern, text) {
            Ok(is_found) => Ok(is_found),
            Err(keywords::CheckError::OutOfMemory) => Err(CheckError::OutOfMemory),
            Err(_) => Err(CheckError::TooMuch),
        }
    }
}
