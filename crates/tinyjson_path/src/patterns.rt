//! The regular expressions of `match` and `search` (RFC 9535, 2.4.6 and 2.4.7).
ghost use Rattle.std.specs.Prelude.{◌≡◌, ◌≤◌, ℕ, Bool, List, [], ◌∷◌, Some, IfOk, IfErr};
ghost use Rattle.std.specs.Prelude.{option_map, vec_len};
ghost use Rattle.std.specs.Str.{chars};
ghost use Rattle.tinyjson.specs.View.{text};
ghost use Rattle.tinyjson_path.specs.Limits.{find_error_message, limit_message};
ghost use Rattle.tinyjson_view.specs.Views.{tree_of};
ghost use Rattle.tinyjson_path.specs.Patterns.{judged, answer_of, holds_of_trees, pattern_holds};
ghost use Rattle.tinyjson_path.specs.Seen.{operand_tree, value_tree};
ghost use Rattle.tinyjson_path.specs.Strings.{strings_in, strings_at, IsFrom};
ghost use Rattle.tinyjson_path.specs.declared.patterns.FindError.{FindError};
ghost use Rattle.tinyjson_path_query.specs.declared.query.PatternFunction.{PatternFunction};

use crate::operand::{Operand, release, value_of};
use std::alloc::{AllocError, AllocFailed, Global};
use std::error::Error;
use std::fmt;
use text_iregexp::{IRegexp, IRegexpErrorKind};
use tinyjson_document::JsonView;
use tinyjson_path_query::PatternFunction;
use tinyjson_view::ValueView;

/// Which limit a regular expression exceeds.
#[derive(Clone, Copy, Debug, PartialEq, Eq)]
pub enum PatternLimit {
    /// More than 200 groups are nested.
    TooDeep,
    /// It has more than 10,100 characters, classes, groups and bars, when each repetition is written out.
    TooLarge,
}

impl fmt::Display for PatternLimit {
    ghost output = { λ l. Some (limit_message l) };

    fn fmt<W: fmt::Write>(&self, f: &mut fmt::Formatter<W>) -> fmt::Result {
        f.write_str(match self {
            PatternLimit::TooDeep => "the groups of a regular expression are too deep",
            PatternLimit::TooLarge => "a regular expression is too large",
        })
    }
}

/// Why `find` returns no nodes.
#[derive(Clone, Copy, Debug, PartialEq, Eq)]
pub enum FindError {
    /// A regular expression that the query needs is too deep or too large.
    Pattern(PatternLimit),
    /// An allocation failed.
    OutOfMemory,
}

impl From<AllocError> for FindError {
    ghost from_gives = { λ _ e. e ≡ FindError.OutOfMemory };

    fn from(_: AllocError) -> FindError {
        FindError::OutOfMemory
    }
}

impl<T: Drop> From<AllocFailed<T>> for FindError {
    ghost from_gives = { λ _ e. e ≡ FindError.OutOfMemory };

    fn from(_: AllocFailed<T>) -> FindError {
        FindError::OutOfMemory
    }
}

impl fmt::Display for FindError {
    ghost output = { λ e. Some (find_error_message e) };

    fn fmt<W: fmt::Write>(&self, f: &mut fmt::Formatter<W>) -> fmt::Result {
        match self {
            FindError::Pattern(limit) => limit.fmt(f),
            FindError::OutOfMemory => f.write_str("out of memory"),
        }
    }
}

impl Error for FindError {}

/// A text, and the regular expression that was parsed from it.
#[derive(Drop)]
struct Pattern {
    pattern: String,
    /// `None` if the text is no regular expression.
    regexp: Option<IRegexp>,
    ghost read: { (f : PatternFunction) (cs : List ℕ)
        → judged f (text pattern) cs ≡ answer_of regexp f cs },
}

/// The regular expression that the text is, or `None` if it is none.
fn regexp_of(alloc: Global, pattern: &str) -> Result<Option<IRegexp>, FindError>
    ensures ok { IfOk result (λ o. (f : PatternFunction) (cs : List ℕ)
        → judged f (chars pattern.now) cs ≡ answer_of o f cs) }
    ensures err { IfErr result (IsFrom (chars pattern.now ∷ [])) }
{
    match IRegexp::parse(alloc, pattern) {
        Ok(regexp) => Ok(Some(regexp)),
        Err(error) => match error.kind {
            IRegexpErrorKind::Invalid => Ok(None),
            IRegexpErrorKind::TooDeep => Err(FindError::Pattern(PatternLimit::TooDeep)),
            IRegexpErrorKind::TooLarge => Err(FindError::Pattern(PatternLimit::TooLarge)),
            IRegexpErrorKind::OutOfMemory => Err(FindError::OutOfMemory),
        },
    }
}

impl Pattern {
    fn read(alloc: Global, pattern: &str) -> Result<Pattern, FindError>
        ensures ok { IfOk result (λ p. text p.pattern ≡ chars pattern.now) }
        ensures err { IfErr result (IsFrom (chars pattern.now ∷ [])) }
    {
        let regexp = regexp_of(alloc, pattern)?;
        let pattern = String::from_str(alloc, pattern)?;
        Ok(Pattern { pattern, regexp })
    }

    /// Whether the function holds of the value. It does not if the text is no regular expression.
    fn holds(&mut self, function: PatternFunction, value: &str) -> bool
        ensures { result ≡ judged function (text self.old.pattern) (chars value.now) }
    {
        let Some(regexp) = &mut self.regexp else {
            return false;
        };
        match function {
            PatternFunction::Match => regexp.matches(value),
            PatternFunction::Search => regexp.searches(value),
        }
    }
}

/// How many patterns from values are kept.
const RECENT: usize = 4;

/// The patterns of a query that were parsed so far, in the order of their bytes.
#[derive(Drop)]
pub(crate) struct Patterns {
    alloc: Global,
    kept: Vec<Pattern>,
    /// The last patterns that came from values, at most `RECENT`.
    recent: Vec<Pattern>,
    /// How many patterns were parsed from values. The next one takes the place of the oldest.
    count: usize,
}

impl Patterns {
    pub(crate) fn new(alloc: Global) -> Patterns {
        Patterns {
            alloc,
            kept: Vec::new(alloc),
            recent: Vec::new(alloc),
            count: 0,
        }
    }

    /// Whether the function holds of the value and the pattern. A pattern that is a literal of the query is kept.
    /// Both operands are consumed.
    // Inlined, it would double what each level of a filter takes of the stack.
    #[inline(never)]
    pub(crate) fn test(
        &mut self,
        function: PatternFunction,
        is_kept: bool,
        value: Option<Operand>,
        pattern: Option<Operand>,
    ) -> Result<bool, FindError>
        ensures ok { IfOk result (λ b. b ≡ pattern_holds judged function
            (option_map operand_tree value.entry) (option_map operand_tree pattern.entry)) }
        ensures err { IfErr result
            (IsFrom (strings_at (option_map operand_tree pattern.entry))) }
    {
        let answer = match (value_of(&value), value_of(&pattern)) {
            (Some(value), Some(pattern)) => self.of_values(function, is_kept, value, pattern),
            _ => Ok(false),
        };
        release(value);
        release(pattern);
        answer
    }

    fn of_values(
        &mut self,
        function: PatternFunction,
        is_kept: bool,
        value: ValueView,
        pattern: ValueView,
    ) -> Result<bool, FindError>
        ensures ok { IfOk result (λ b. b
            ≡ holds_of_trees judged function (tree_of value.entry) (tree_of pattern.entry)) }
        ensures err { IfErr result (IsFrom (strings_in (tree_of pattern.entry))) }
    {
        match (value.string(), pattern.string()) {
            (Some(value), Some(pattern)) => {
                Ok(self.of_strings(function, is_kept, value, pattern)?)
            }
            _ => Ok(false),
        }
    }

    /// Parses a pattern that is to be kept, unless it was parsed before.
    #[inline(never)]
    fn of_strings(
        &mut self,
        function: PatternFunction,
        is_kept: bool,
        value: &str,
        pattern: &str,
    ) -> Result<bool, FindError>
        ensures ok { IfOk result (λ b. b
            ≡ judged function (chars pattern.now) (chars value.now)) }
        ensures err { IfErr result (IsFrom (chars pattern.now ∷ [])) }
    {
        if !is_kept {
            return self.of_value(function, value, pattern);
        }
        let place = self.place(pattern);
        if let Some(kept) = self.kept.get_mut(place) {
            if kept.pattern.as_str() == pattern {
                return Ok(kept.holds(function, value));
            }
        }
        let mut read = Pattern::read(self.alloc, pattern)?;
        let holds = read.holds(function, value);
        self.kept.insert(place, read)?;
        Ok(holds)
    }

    /// A few patterns from values are kept for the next nodes with the same ones.
    fn of_value(
        &mut self,
        function: PatternFunction,
        value: &str,
        pattern: &str,
    ) -> Result<bool, FindError>
        ensures ok { IfOk result (λ b. b
            ≡ judged function (chars pattern.now) (chars value.now)) }
        ensures err { IfErr result (IsFrom (chars pattern.now ∷ [])) }
    {
        let place = self.recent_place(pattern);
        if let Some(recent) = self.recent.get_mut(place) {
            if recent.pattern.as_str() == pattern {
                return Ok(recent.holds(function, value));
            }
        }
        let mut read = Pattern::read(self.alloc, pattern)?;
        let holds = read.holds(function, value);
        self.keep_recent(read)?;
        Ok(holds)
    }

    /// The index of the pattern among those from values, or zero.
    fn recent_place(&self, pattern: &str) -> usize {
        self.recent
            .iter()
            .position(|recent| recent.pattern.as_str() == pattern)
            .unwrap_or(0)
    }

    /// Keeps a pattern from a value, in the place of the oldest one if there are `RECENT`.
    fn keep_recent(&mut self, read: Pattern) -> Result<(), AllocError> {
        let oldest = self.count % RECENT;
        self.count = self.count.saturating_add(1);
        if let Some(place) = self.recent.get_mut(oldest) {
            *place = read;
            return Ok(());
        }
        self.recent.push(read)?;
        Ok(())
    }

    /// The index of the pattern among those that are kept, or where it is to be inserted.
    fn place(&self, pattern: &str) -> usize
        ensures { result ≤ vec_len self.now.kept }
    {
        self.kept
            .as_slice()
            .partition_point(|kept| kept.pattern.as_str() < pattern)
    }
}
