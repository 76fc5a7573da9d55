//! The reader of tokens, each read by one call, and by the shortest way where the source has its characters in memory.
ghost use Rattle.std.specs.Prelude.{◌≡◌, ℕ, ◌<◌, ◌≤◌, List, [], ◌∷◌, true, false, OnOk, IfSome};
ghost use Rattle.std.specs.Prelude.{Option, Some};
ghost use Rattle.std.specs.Str.{chars};
ghost use Rattle.tinyjson_grammar.specs.Characters.{is_white, quotation_mark, text};
ghost use Rattle.tinyjson_grammar.specs.Machine.{Frame, awaited, complete, next, plain, quoted};
ghost use Rattle.tinyjson_grammar.specs.Position.{position_at};
ghost use Rattle.tinyjson_grammar.specs.Tree.{Tree, number, string};
ghost use Rattle.tinyjson_tokens.specs.NumberSteps.{BeginsNumber};
ghost use Rattle.tinyjson_tokens.specs.Source.{Takes, Whites, characters};
ghost use Rattle.tinyjson_tokens.specs.Numerals.{ReadsNumber};
ghost use Rattle.tinyjson_tokens.specs.Steps.{NeedsNone, Reads, letters_left};
ghost use Rattle.tinyjson_grammar.specs.Characters.{BeginsLiteral};
ghost use Rattle.tinyjson_grammar.specs.Tree.{literal_tree};

use crate::source::Lent;
use crate::tokens::Tokens;
use std::alloc::Global;
use tinyjson_grammar::JsonParseErrorKind;
use tinyjson_number::JsonNumber;

/// Reads literals, strings and numbers from a source of characters.
#[derive(Drop)]
pub struct TokenReader<S>
where
    S: Tokens,
{
    pub(crate) alloc: Global,
    pub(crate) source: S,
    /// The digits of the number that is being read.
    pub(crate) digit_buffer: String,
    /// The units after the characters of a string that is read piece by piece.
    pub(crate) units: Vec<u16>,
}

impl<S: Tokens> TokenReader<S> {
    /// A reader of this source. It takes no memory.
    pub fn new(alloc: Global, source: S) -> Self
        ensures { result.source ≡ source }
    {
        TokenReader {
            alloc,
            source,
            digit_buffer: String::new(alloc),
            units: Vec::new(alloc),
        }
    }

    /// Passes over white space, and shows what follows it.
    #[inline(always)]
    pub fn skip_white(&mut self) -> Option<char>
        ensures white { Whites S.sight self.old.source self.new.source }
        ensures shows { S.sight.shows self.new.source result }
        ensures stops { IfSome result (λ c. is_white c ≡ false) }
        ensures left { S.left self.new.source ≤ S.left self.old.source }
    {
        self.source.skip_white()
    }

    /// Consumes the next character, which was shown.
    #[inline(always)]
    pub fn consume(&mut self, c: char)
        requires shown { S.sight.shows self.old.source (Some c) }
        ensures takes { Takes S.sight self.old.source (c ∷ []) self.new.source }
        ensures left { S.left self.new.source < S.left self.old.source }
    {
        self.source.consume(c);
    }

    /// How many bytes of a text in memory were consumed. It may be 0.
    #[inline(always)]
    pub fn offset(&self) -> usize {
        self.source.offset()
    }

    /// The line and the column after what was consumed.
    pub fn position(&self) -> (usize, usize)
        ensures { position_at result.0 result.1 ≡ S.sight.place self.now.source }
    {
        self.source.position()
    }

    /// Reads the string whose opening quote comes next, in place of what the buffer holds, and returns where its
    /// characters are.
    #[inline(always)]
    pub fn string(&mut self, buffer: &mut String) -> Result<Lent, JsonParseErrorKind>
        requires shown { S.sight.shows self.old.source (Some quotation_mark) }
        ensures reads { (limit : Option ℕ) (fs : List Frame) →
            Reads S.sight limit self.old.source (next fs awaited) result
            (λ lent. complete true fs
            (string (characters lent (S.lent self.new.source) (text buffer.new))) true)
            self.new.source }
        ensures left { OnOk result (S.left self.new.source < S.left self.old.source) }
    {
        self.source.consume('"');
        self.after_quote(buffer)
    }

    /// Reads the rest of a string, after its opening quote.
    #[inline(always)]
    fn after_quote(&mut self, buffer: &mut String) -> Result<Lent, JsonParseErrorKind>
        ensures reads { (limit : Option ℕ) (fs : List Frame) →
            Reads S.sight limit self.old.source (next fs (quoted plain [] [])) result
            (λ lent. complete true fs
            (string (characters lent (S.lent self.new.source) (text buffer.new))) true)
            self.new.source }
        ensures left { S.left self.new.source ≤ S.left self.old.source }
    {
        buffer.clear();
        match self.source.quoted(buffer) {
            Ok(Lent::All) => Ok(Lent::All),
            Ok(Lent::Nothing) => {
                self.escaped(buffer)?;
                Ok(Lent::Nothing)
            }
            Err(_) => Err(JsonParseErrorKind::OutOfMemory),
        }
    }

    /// The characters of the string that was read last, which the source lends, or which are in the buffer.
    #[inline(always)]
    pub fn characters<'b>(&'b self, lent: Lent, buffer: &'b String) -> &'b str
        ensures { chars result.now ≡ characters lent (S.lent self.now.source) (text buffer.now) }
    {
        match lent {
            Lent::All => self.source.lent(),
            Lent::Nothing => buffer.as_str(),
        }
    }

    /// Reads the number whose first character, a minus sign or a digit, comes next. With `by_text` a short number whose
    /// text is normal need not be made: then it is `None`, and the source lends its text.
    #[inline(always)]
    pub fn number(&mut self, by_text: bool) -> Result<Option<JsonNumber>, JsonParseErrorKind>
        requires begins { BeginsNumber S.sight self.old.source }
        ensures reads { (limit : Option ℕ) (fs : List Frame) →
            ReadsNumber S.sight limit self.old.source (next fs awaited) result
            (S.lent self.new.source) fs self.new.source }
        ensures left { OnOk result (S.left self.new.source < S.left self.old.source) }
    {
        if let Some((number, after)) = self.source.ready_number(self.alloc, by_text) {
            self.source = after;
            return Ok(number);
        }
        match self.gathered_number() {
            Ok(number) => Ok(Some(number)),
            Err(kind) => Err(kind),
        }
    }

    /// What the source lent last: the text of a number, where it was not made.
    #[inline(always)]
    pub fn lent(&self) -> &str
        ensures { chars result.now ≡ S.lent self.now.source }
    {
        self.source.lent()
    }

    /// Reads the literal that begins with this letter, which comes next: a boolean, or `None` for `null`.
    #[inline(always)]
    pub fn literal(&mut self, first: char) -> Result<Option<bool>, JsonParseErrorKind>
        requires shown { S.sight.shows self.old.source (Some first) }
        requires begins { BeginsLiteral first }
        ensures reads { (limit : Option ℕ) (fs : List Frame) →
            Reads S.sight limit self.old.source (next fs awaited) result
            (λ v. complete true fs (literal_tree v) true) self.new.source }
        ensures memory { NeedsNone result }
        ensures left { OnOk result (S.left self.new.source < S.left self.old.source) }
    {
        self.source.consume(first);
        match first {
            'n' => self.letters("ull", None),
            't' => self.letters("rue", Some(true)),
            _ => self.letters("alse", Some(false)),
        }
    }

    /// Reads the letters that are left of the literal that has this value.
    #[inline(always)]
    fn letters(
        &mut self,
        letters: &str,
        value: Option<bool>,
    ) -> Result<Option<bool>, JsonParseErrorKind>
        ensures reads { (limit : Option ℕ) (fs : List Frame) →
            Reads S.sight limit self.old.source
            (letters_left fs (chars letters.now) (literal_tree value)) result
            (λ v. complete true fs (literal_tree v) true) self.new.source }
        ensures memory { NeedsNone result }
        ensures left { OnOk result (S.left self.new.source ≤ S.left self.old.source) }
    {
        if self.source.word(letters) {
            return Ok(value);
        }
        self.each_letter(letters)?;
        Ok(value)
    }

    /// Reads these letters, one after the other.
    #[inline(never)]
    fn each_letter(&mut self, letters: &str) -> Result<(), JsonParseErrorKind>
        ensures reads { (limit : Option ℕ) (fs : List Frame) (t : Tree) →
            Reads S.sight limit self.old.source (letters_left fs (chars letters.now) t) result
            (λ _. complete true fs t true) self.new.source }
        ensures memory { NeedsNone result }
        ensures left { S.left self.new.source ≤ S.left self.old.source }
    {
        for letter in letters.chars() {
            let Some(c) = self.source.bump() else {
                return Err(JsonParseErrorKind::UnexpectedEof);
            };
            if c != letter {
                return Err(JsonParseErrorKind::UnexpectedInLiteral(c));
            }
        }
        Ok(())
    }
}
