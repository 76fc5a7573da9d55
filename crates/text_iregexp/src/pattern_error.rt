//! Why a text is no pattern.
ghost use Rattle.std.specs.Prelude.{◌≡◌, Some};
ghost use Rattle.text_iregexp.specs.PatternMessage.{reason_message, refusal_message};

use std::error::Error;
use std::fmt;

/// Why a pattern is rejected.
///
/// ```
/// let error = SchemaPattern::parse(alloc, "a{3,2}").err();
/// assert!(rt; error.is_some_and(|e| e.kind == SchemaPatternErrorKind::Invalid));
/// ```
#[derive(Clone, Copy, Debug, PartialEq, Eq)]
pub enum SchemaPatternErrorKind {
    /// The text is not in the grammar, or two of its groups have the same name.
    Invalid,
    /// The text is not in the grammar, and at the place is something that ECMA-262 has and these
    /// patterns do not, or not there. That is a look-behind, a group's name with a character
    /// outside of ASCII or an escape, an escape such as `\1`, or a surrogate without its pair. It
    /// is also a look-ahead elsewhere than behind the `^` of an outermost branch.
    Outside,
    /// More than 200 groups are nested.
    TooDeep,
    /// With each repetition written out, a branch has more than 10,100 characters, classes,
    /// assertions, groups and bars. Or a count is greater than 10,100. The text behind the place is
    /// not read, so it may be no pattern.
    TooLarge,
    /// An allocation failed.
    OutOfMemory,
}

impl fmt::Display for SchemaPatternErrorKind {
    ghost output = { λ k. Some (reason_message k) };

    fn fmt<W: fmt::Write>(&self, f: &mut fmt::Formatter<W>) -> fmt::Result {
        f.write_str(match self {
            SchemaPatternErrorKind::Invalid => "no pattern",
            SchemaPatternErrorKind::Outside => "not supported in a pattern",
            SchemaPatternErrorKind::TooDeep => "the groups are too deep",
            SchemaPatternErrorKind::TooLarge => "the pattern is too large",
            SchemaPatternErrorKind::OutOfMemory => "out of memory",
        })
    }
}

/// Why a pattern is rejected, and where.
///
/// ```
/// if let Err(error) = SchemaPattern::parse(alloc, "ab(?=c)") {
///     let words = error.to_string(alloc)?;
///     assert_eq!(rt; words.as_str(), "not supported in a pattern at character 2");
/// }
/// ```
#[derive(Clone, Copy, Debug, PartialEq, Eq)]
pub struct SchemaPatternError {
    pub kind: SchemaPatternErrorKind,
    /// The number of characters before what is rejected: a character, an escape, a class, a
    /// parenthesis, a bar, a quantifier or an assertion. It is the length of the text if the text
    /// ends within a group.
    pub place: usize,
}

impl fmt::Display for SchemaPatternError {
    ghost output = { λ e. Some (refusal_message e) };

    fn fmt<W: fmt::Write>(&self, f: &mut fmt::Formatter<W>) -> fmt::Result {
        let SchemaPatternError { kind, place } = *self;
        write!(f, "{kind} at character {place}")
    }
}

impl Error for SchemaPatternError {}
