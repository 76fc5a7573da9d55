//! What a source of characters is.
ghost use Rattle.std.specs.Prelude.{◌≡◌, ℕ, ◌+◌, ◌<◌, ◌≤◌, List, [], ◌∷◌, false, IfSome};
ghost use Rattle.std.specs.Prelude.{MatchOption, OnOk, Option, Some, None, length};
ghost use Rattle.std.specs.Prelude.{string_bytes};
ghost use Rattle.std.specs.Bool.{MatchBool};
ghost use Rattle.std.specs.Char.{is_ascii_digit};
ghost use Rattle.std.specs.Option.{option_len};
ghost use Rattle.std.specs.Str.{chars};
ghost use Rattle.tinyjson_grammar.specs.Characters.{is_white, text};
ghost use Rattle.tinyjson_bytes.specs.Scan.{is_plain};
ghost use Rattle.tinyjson_grammar.specs.Position.{position_at};
ghost use Rattle.tinyjson_tokens.specs.Source.{Sight, Still, Stops, Takes, TakesQuoted, TakesRun};
ghost use Rattle.tinyjson_tokens.specs.Source.{Whites};

use std::alloc::AllocError;

/// Where the characters of a string are.
#[derive(Clone, Copy)]
pub enum Lent {
    /// The source lends them.
    All,
    /// The source lends nothing: they are in a buffer.
    Nothing,
}

/// A source of characters, of which the next one can be looked at.
///
/// `sight` is what the source still gives and its position, `left` goes down with each character, and `lent`
/// has the characters of the string that was lent last.
pub trait Source: Drop {
    ghost sight: { Sight Self };

    ghost left: { Self → ℕ };

    ghost lent: { Self → List ℕ };

    /// The next character, which is not consumed yet.
    fn peek(&mut self) -> Option<char>
        ensures takes { Takes sight self.old [] self.new }
        ensures shows { sight.shows self.new result }
        ensures kept { (o : Option ℕ) → sight.shows self.old o → result ≡ o }
        ensures left { left self.new ≤ left self.old };

    /// The next character, which is consumed.
    fn bump(&mut self) -> Option<char>
        ensures takes { MatchOption result
            (Takes sight self.old [] self.new × sight.shows self.new None)
            (λ c. Takes sight self.old (c ∷ []) self.new) }
        ensures shown { (o : Option ℕ) → sight.shows self.old o → result ≡ o }
        ensures left { left self.new + option_len result ≤ left self.old };

    /// Consumes the next character, which was shown.
    fn consume(&mut self, c: char)
        requires shown { sight.shows self.old (Some c) }
        ensures takes { Takes sight self.old (c ∷ []) self.new }
        ensures left { left self.new < left self.old }
    {
        self.bump();
    }

    /// Passes over white space, and shows what follows it.
    fn skip_white(&mut self) -> Option<char>
        ensures white { Whites sight self.old self.new }
        ensures shows { sight.shows self.new result }
        ensures stops { IfSome result (λ c. is_white c ≡ false) }
        ensures left { left self.new ≤ left self.old };

    /// Takes the plain characters of a string that come next, and adds them to it. Where memory runs out,
    /// some of them may be taken.
    fn plain(&mut self, string: &mut String) -> Result<(), AllocError>
        ensures plain { TakesRun sight is_plain self.old (text string.old) result
            (text string.new) self.new }
        ensures left { left self.new ≤ left self.old };

    /// Takes a run of plain characters into a string, where few of them are awaited.
    fn letters(&mut self, string: &mut String) -> Result<(), AllocError>
        ensures plain { TakesRun sight is_plain self.old (text string.old) result
            (text string.new) self.new }
        ensures left { left self.new ≤ left self.old }
    {
        self.plain(string)
    }

    /// Takes the plain characters of a string that come next, and the quote that closes it, if the source finds at
    /// once that it is next: then it lends the characters. Otherwise it adds them to the string.
    fn quoted(&mut self, string: &mut String) -> Result<Lent, AllocError>
        ensures quoted { TakesQuoted sight is_plain lent self.old (text string.old) result
            (text string.new) self.new }
        ensures left { left self.new ≤ left self.old }
    {
        self.plain(string)?;
        Ok(Lent::Nothing)
    }

    /// The characters that were lent last.
    fn lent(&self) -> &str
        ensures { chars result.now ≡ lent self.now };

    /// Consumes these characters, if the source finds at once that they come next. It may decline.
    fn word(&mut self, word: &str) -> bool
        ensures takes { MatchBool result (Takes sight self.old (chars word.now) self.new)
            (self.new ≡ self.old) }
        ensures left { left self.new ≤ left self.old }
    {
        false
    }

    /// Takes the digits that come next, and adds them to a text. Where memory runs out, some of them may be
    /// taken.
    fn digits(&mut self, buffer: &mut String) -> Result<(), AllocError>
        ensures digits { TakesRun sight is_ascii_digit self.old (string_bytes buffer.old) result
            (string_bytes buffer.new) self.new }
        ensures stops { OnOk result (Stops sight is_ascii_digit self.new) }
        ensures still { OnOk result (string_bytes buffer.new ≡ string_bytes buffer.old
            → Still sight self.old self.new) }
        ensures left { OnOk result (left self.new + length (string_bytes buffer.new)
            ≤ left self.old + length (string_bytes buffer.old)) };

    /// How many bytes of a text in memory were consumed, for a caller that finds a string there again. It may be 0.
    fn offset(&self) -> usize {
        0
    }

    /// The line and the column after what was consumed.
    fn position(&self) -> (usize, usize)
        ensures { position_at result.0 result.1 ≡ sight.place self.now };
}
