//! What a regular expression asserts of the place between two characters.
ghost use Rattle.std.specs.Prelude.{◌≡◌};
ghost use Rattle.text_regexp.specs.Forms.{differ, holds, is_word, is_word_at};

/// An assertion of ECMA-262 (22.2.1) about a place in a text. It matches no character. A word is of
/// ASCII letters, digits, and `_`.
///
/// ```
/// let mut first = Expression::assertion(Assertion::Start);
/// assert!(rt; first.matches(""));
/// ```
#[derive(Clone, Copy)]
pub enum Assertion {
    /// `^`: the text begins here.
    Start,
    /// `$`: the text ends here.
    End,
    /// `\b`: a word begins or ends here.
    WordBoundary,
    /// `\B`: no word begins or ends here.
    NotWordBoundary,
}

impl Assertion {
    /// Whether it holds between the two characters; at an end of the text there is none.
    pub(crate) fn holds(self, before: Option<char>, after: Option<char>) -> bool
        ensures { result ≡ holds self before after }
    {
        match self {
            Assertion::Start => before.is_none(),
            Assertion::End => after.is_none(),
            Assertion::WordBoundary => differ(is_word_at(before), is_word_at(after)),
            Assertion::NotWordBoundary => !differ(is_word_at(before), is_word_at(after)),
        }
    }
}

/// Whether one of the two holds, and not the other.
fn differ(one: bool, other: bool) -> bool
    ensures { result ≡ differ one other }
{
    if one {
        return !other;
    }
    other
}

/// Whether there is a character of a word.
fn is_word_at(side: Option<char>) -> bool
    ensures { result ≡ is_word_at side }
{
    match side {
        Some(c) => is_word(c),
        None => false,
    }
}

/// Whether it is a letter of ASCII, a digit, or `_`.
fn is_word(c: char) -> bool
    ensures { result ≡ is_word c }
{
    if '0' <= c && c <= '9' {
        return true;
    }
    if 'A' <= c && c <= 'Z' {
        return true;
    }
    if c == '_' {
        return true;
    }
    'a' <= c && c <= 'z'
}
