//! Why a text is no regular expression.
ghost use Rattle.std.specs.Prelude.{◌≡◌, Some};
ghost use Rattle.text_iregexp.specs.Message.{kind_message, error_message};
ghost use Rattle.text_iregexp.specs.declared.error.IRegexpErrorKind.{IRegexpErrorKind};

use std::alloc::{AllocError, AllocFailed};
use std::error::Error;
use std::fmt;

/// Why a text is rejected.
///
/// ```
/// let error = IRegexp::parse(alloc, "a{3,2}").err();
/// assert!(rt; error.is_some_and(|e| e.kind == IRegexpErrorKind::Invalid));
/// ```
#[derive(Clone, Copy, Debug, PartialEq, Eq)]
pub enum IRegexpErrorKind {
    /// The text is not in the grammar (RFC 9485, section 3). Or a range or a quantifier has its
    /// bounds in the wrong order.
    Invalid,
    /// More than 200 groups are nested.
    TooDeep,
    /// With each repetition written out, it has more than 10,100 characters, classes, groups and
    /// bars. Or a count is greater than 10,100.
    TooLarge,
    /// An allocation failed.
    OutOfMemory,
}

impl From<AllocError> for IRegexpErrorKind {
    ghost from_gives = { λ _ e. e ≡ IRegexpErrorKind.OutOfMemory };

    fn from(_: AllocError) -> IRegexpErrorKind {
        IRegexpErrorKind::OutOfMemory
    }
}

impl<T: Drop> From<AllocFailed<T>> for IRegexpErrorKind {
    ghost from_gives = { λ _ e. e ≡ IRegexpErrorKind.OutOfMemory };

    fn from(_: AllocFailed<T>) -> IRegexpErrorKind {
        IRegexpErrorKind::OutOfMemory
    }
}

impl fmt::Display for IRegexpErrorKind {
    ghost output = { λ k. Some (kind_message k) };

    fn fmt<W: fmt::Write>(&self, f: &mut fmt::Formatter<W>) -> fmt::Result {
        f.write_str(match self {
            IRegexpErrorKind::Invalid => "no regular expression of RFC 9485",
            IRegexpErrorKind::TooDeep => "the groups are too deep",
            IRegexpErrorKind::TooLarge => "the regular expression is too large",
            IRegexpErrorKind::OutOfMemory => "out of memory",
        })
    }
}

/// Why a text is rejected, and where.
///
/// ```
/// if let Err(error) = IRegexp::parse(alloc, "ab[c-a]") {
///     let words = error.to_string(alloc)?;
///     assert_eq!(rt;
///         words.as_str(),
///         "no regular expression of RFC 9485 at character 2"
///     );
/// }
/// ```
#[derive(Clone, Copy, Debug, PartialEq, Eq)]
pub struct IRegexpError {
    pub kind: IRegexpErrorKind,
    /// The number of characters before the token that is rejected: a character, an escape, a class,
    /// a parenthesis, a bar or a quantifier. It is the length of the text if the text ends within a
    /// group.
    pub place: usize,
}

impl fmt::Display for IRegexpError {
    ghost output = { λ e. Some (error_message e) };

    fn fmt<W: fmt::Write>(&self, f: &mut fmt::Formatter<W>) -> fmt::Result {
        let IRegexpError { kind, place } = *self;
        write!(f, "{kind} at character {place}")
    }
}

impl Error for IRegexpError {}
