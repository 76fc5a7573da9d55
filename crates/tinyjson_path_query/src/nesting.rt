//! How deep a place is nested, by the characters before it.
ghost use Rattle.std.specs.Prelude.{◌≡◌, ◌<◌, ◌+◌, ◌∷◌, ◌^◌, ◌-◌, ℕ, List};
ghost use Rattle.tinyjson_path_query.specs.Refusing.{open_after, open_brackets, open_with};

use crate::lexical::is_quote;

/// What is open after some characters of a query.
#[derive(Clone, Copy)]
pub(crate) struct Opened {
    /// How many brackets and parentheses.
    pub(crate) brackets: usize,
    /// The quote of a string.
    pub(crate) quote: Option<char>,
    /// Whether the next character of the string is escaped.
    pub(crate) escaped: bool,
}

impl Opened {
    /// After one more character.
    fn with(self, c: char) -> Opened
        requires { self.brackets < 2 ^ 64 - 1 }
        ensures after { (cs : List ℕ) → open_after self.brackets self.quote self.escaped (c ∷ cs)
            ≡ open_after result.brackets result.quote result.escaped cs }
        ensures one { result.brackets < 2 + self.brackets }
    {
        match self.quote {
            Some(quote) => Opened {
                brackets: self.brackets,
                quote: if c == quote && !self.escaped {
                    None
                } else {
                    Some(quote)
                },
                escaped: c == '\\' && !self.escaped,
            },
            None => Opened {
                brackets: count(self.brackets, c),
                quote: if is_quote(c) { Some(c) } else { None },
                escaped: false,
            },
        }
    }
}

/// How many brackets and parentheses are open with one more character, outside of strings.
fn count(brackets: usize, c: char) -> usize
    requires { brackets < 2 ^ 64 - 1 }
    ensures { result ≡ open_with brackets c }
{
    match c {
        '[' | '(' => brackets + 1,
        ']' | ')' => brackets.saturating_sub(1),
        _ => brackets,
    }
}

/// How many brackets and parentheses are open at the end of the text, outside of strings.
pub(crate) fn open_brackets(text: &[char]) -> usize
    ensures { result ≡ open_brackets text.now }
{
    let mut opened = Opened {
        brackets: 0,
        quote: None,
        escaped: false,
    };
    let mut rest = text;
    while let Some((first, after)) = rest.split_first() {
        opened = opened.with(*first);
        rest = after;
    }
    opened.brackets
}
