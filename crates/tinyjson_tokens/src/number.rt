//! Numbers read piece by piece (RFC 8259, section 6).
ghost use Rattle.std.specs.Prelude.{◌≡◌, ◌==◌, ◌<◌, ◌≤◌, [], ℕ, List, Bool};
ghost use Rattle.std.specs.Prelude.{OnOk, Option, Some, None, length, true};
ghost use Rattle.std.specs.Prelude.{if◌then◌else◌, option_map, string_bytes};
ghost use Rattle.tinyjson_number.specs.Characters.{letter_e, minus_sign};
ghost use Rattle.tinyjson_grammar.specs.Machine.{Frame, awaited, complete, digits, integer, fraction};
ghost use Rattle.tinyjson_grammar.specs.Machine.{exponent, next};
ghost use Rattle.tinyjson_tokens.specs.NumberSteps.{Digits, BeginsNumber, Accepts, Gathered};
ghost use Rattle.tinyjson_tokens.specs.NumberSteps.{ReadsPart, Signs};
ghost use Rattle.tinyjson_tokens.specs.NumberSteps.{is_below_zero, marks_of};
ghost use Rattle.tinyjson_tokens.specs.Steps.{Ends, Reads};
ghost use Rattle.tinyjson_grammar.specs.Tree.{number};
ghost use Rattle.tinyjson_number.specs.Numeral.{numeral, Numeral, is_exponent_letter};
ghost use Rattle.tinyjson_number.specs.Reading.{ReadsNumeral, exponent_of};

use crate::reader::TokenReader;
use crate::tokens::Tokens;
use tinyjson_grammar::JsonParseErrorKind;
use tinyjson_number::{ExponentParts, JsonNumber, LiteralError, NumberParts, has_leading_zero};

/// What a number has besides its digits, which are gathered without anything between them.
#[derive(Clone, Copy)]
struct Marks {
    /// Whether it begins with a `-`.
    negative: bool,
    /// Where the digits of the integer part end.
    integer: usize,
    /// Where those of the fraction end.
    fraction: usize,
    /// Whether the exponent is below zero, if there is one.
    exponent: Option<bool>,
}

impl<S: Tokens> TokenReader<S> {
    /// Reads the number by its parts, whose digits are gathered.
    #[inline(never)]
    pub(crate) fn gathered_number(&mut self) -> Result<JsonNumber, JsonParseErrorKind>
        requires begins { BeginsNumber S.sight self.old.source }
        ensures reads { (limit : Option ℕ) (fs : List Frame) →
            Reads S.sight limit self.old.source (next fs awaited) result
            (λ n. complete true fs (number n.decimal) true) self.new.source }
        ensures left { OnOk result (S.left self.new.source < S.left self.old.source) }
    {
        let marks = self.parts()?;
        match self.gathered(marks) {
            Ok(number) => Ok(number),
            Err(LiteralError::OutOfRange) => Err(JsonParseErrorKind::NumberOutOfRange),
            Err(LiteralError::OutOfMemory) => Err(JsonParseErrorKind::OutOfMemory),
        }
    }

    /// Reads the digits of a number's parts into the buffer.
    fn parts(&mut self) -> Result<Marks, JsonParseErrorKind>
        requires { BeginsNumber S.sight self.old.source }
        ensures reads { ReadsPart S.sight marks_of (λ n. n) exponent
            self.old.source (λ fs. next fs awaited) result (string_bytes self.new.digit_buffer)
            self.new.source }
        ensures left { OnOk result (S.left self.new.source < S.left self.old.source) }
    {
        self.digit_buffer.clear();
        let negative = self.integer()?;
        let integer = self.digit_buffer.len();
        self.fraction()?;
        let fraction = self.digit_buffer.len();
        let exponent = self.exponent()?;
        Ok(Marks {
            negative,
            integer,
            fraction,
            exponent,
        })
    }

    /// The number whose digits were gathered.
    fn gathered(&self, marks: Marks) -> Result<JsonNumber, LiteralError>
        requires order { marks.integer ≤ marks.fraction }
        requires within { marks.fraction ≤ length (string_bytes self.now.digit_buffer) }
        requires gathered { (n : Numeral) × Gathered n (string_bytes self.now.digit_buffer)
            × (marks ≡ marks_of n) }
        ensures { (n : Numeral) → Gathered n (string_bytes self.now.digit_buffer)
            → marks ≡ marks_of n → ReadsNumeral n result }
    {
        let digits = self.digit_buffer.as_bytes();
        let parts = NumberParts {
            negative: marks.negative,
            integer: &digits[..marks.integer],
            fraction: &digits[marks.integer..marks.fraction],
            exponent: exponent_parts(marks.exponent, &digits[marks.fraction..]),
        };
        JsonNumber::from_parts(self.alloc, parts)
    }

    /// Reads the minus sign, if there is one, and the digits of the integer part; says whether there is a
    /// minus sign.
    fn integer(&mut self) -> Result<bool, JsonParseErrorKind>
        requires begins { BeginsNumber S.sight self.old.source }
        requires empty { string_bytes self.old.digit_buffer ≡ [] }
        ensures reads { ReadsPart S.sight (λ n. n.negative)
            (λ (x : Bool × List ℕ). numeral x.0 x.1 [] None) integer
            self.old.source (λ fs. next fs awaited) result (string_bytes self.new.digit_buffer)
            self.new.source }
        ensures left { OnOk result (S.left self.new.source < S.left self.old.source) }
    {
        let negative = self.accept('-');
        self.digits(JsonParseErrorKind::EmptyInteger)?;
        if has_leading_zero(self.digit_buffer.as_bytes()) {
            return Err(JsonParseErrorKind::LeadingZero);
        }
        Ok(negative)
    }

    /// Reads the point and the digits after it, if there is a point.
    fn fraction(&mut self) -> Result<(), JsonParseErrorKind>
        ensures reads { (b : Bool) (ds : List ℕ) →
            Gathered (numeral b ds [] None) (string_bytes self.old.digit_buffer) →
            Ends S.sight self.old.source → ReadsPart S.sight (λ _. tt)
            (λ f. numeral b ds f None) fraction
            self.old.source (λ fs. next fs (digits integer (numeral b ds [] None))) result
            (string_bytes self.new.digit_buffer) self.new.source }
        ensures left { OnOk result (S.left self.new.source ≤ S.left self.old.source) }
    {
        if !self.accept('.') {
            return Ok(());
        }
        self.digits(JsonParseErrorKind::EmptyFraction)
    }

    /// Reads the letter, the sign and the digits of the exponent, if there is one, and says whether it is
    /// below zero.
    fn exponent(&mut self) -> Result<Option<bool>, JsonParseErrorKind>
        ensures reads { (b : Bool) (ds f : List ℕ) →
            Gathered (numeral b ds f None) (string_bytes self.old.digit_buffer) →
            Ends S.sight self.old.source → ReadsPart S.sight (λ n. is_below_zero n.exponent)
            (numeral b ds f) exponent
            self.old.source (λ fs. next fs (digits fraction (numeral b ds f None))) result
            (string_bytes self.new.digit_buffer) self.new.source }
        ensures left { OnOk result (S.left self.new.source ≤ S.left self.old.source) }
    {
        if !self.letter() {
            return Ok(None);
        }
        let negative = self.sign();
        self.digits(JsonParseErrorKind::EmptyExponent)?;
        Ok(Some(negative))
    }

    /// Reads digits, and adds them to the buffer; the error is of this kind where there is none.
    fn digits(&mut self, empty: JsonParseErrorKind) -> Result<(), JsonParseErrorKind>
        ensures reads { Digits S.sight empty self.old.source
            (string_bytes self.old.digit_buffer) result
            (string_bytes self.new.digit_buffer) self.new.source }
        ensures left { OnOk result (S.left self.new.source < S.left self.old.source) }
    {
        let before = self.digit_buffer.len();
        if self.source.digits(&mut self.digit_buffer).is_err() {
            return Err(JsonParseErrorKind::OutOfMemory);
        }
        if self.digit_buffer.len() == before {
            return Err(empty);
        }
        Ok(())
    }

    /// Reads the letter of an exponent, if it comes next, and says whether it does.
    fn letter(&mut self) -> bool
        ensures accepts { Accepts S.sight is_exponent_letter self.old.source result
            self.new.source }
        ensures kept { self.new.digit_buffer ≡ self.old.digit_buffer }
        ensures left { S.left self.new.source ≤ S.left self.old.source }
    {
        match self.source.peek() {
            Some(c) if c == 'e' || c == 'E' => {
                self.source.bump();
                true
            }
            _ => false,
        }
    }

    /// Reads the sign of an exponent, if there is one, and says whether it is a minus sign.
    fn sign(&mut self) -> bool
        ensures signs { Signs S.sight self.old.source result self.new.source }
        ensures kept { self.new.digit_buffer ≡ self.old.digit_buffer }
        ensures left { S.left self.new.source ≤ S.left self.old.source }
    {
        match self.source.peek() {
            Some(c) if c == '+' || c == '-' => {
                self.source.bump();
                c == '-'
            }
            _ => false,
        }
    }

    /// Reads this character if it comes next, and says whether it does.
    fn accept(&mut self, wanted: char) -> bool
        ensures accepts { Accepts S.sight (λ c. c == wanted) self.old.source result
            self.new.source }
        ensures kept { self.new.digit_buffer ≡ self.old.digit_buffer }
        ensures left { S.left self.new.source ≤ S.left self.old.source }
    {
        match self.source.peek() {
            Some(c) if c == wanted => {
                self.source.bump();
                true
            }
            _ => false,
        }
    }
}

/// The exponent of these digits, with this sign, if there is one.
fn exponent_parts(negative: Option<bool>, digits: &[u8]) -> Option<ExponentParts<'_>>
    ensures { exponent_of result ≡ option_map (λ b. record {
      letter = letter_e;
      sign = if b then Some minus_sign else None;
      digits = digits.now;
    }) negative }
{
    let negative = negative?;
    Some(ExponentParts { negative, digits })
}
