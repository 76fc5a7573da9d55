//! A text read event by event.
ghost use Rattle.std.specs.Prelude.{◌≡◌, ◌≤◌, ℕ, List, [], ◌∷◌, false, length, IsTrue, IfErr, OnOk};
ghost use Rattle.std.specs.Prelude.{None, Option, Some};
ghost use Rattle.std.specs.Str.{chars};
ghost use Rattle.tinyjson_number.specs.Number.{Canonical};
ghost use Rattle.tinyjson_number.specs.Text.{decimal_text};
ghost use Rattle.tinyjson_grammar.specs.Characters.{is_white};
ghost use Rattle.tinyjson_grammar.specs.Machine.{awaited, next};
ghost use Rattle.tinyjson_grammar.specs.Refusal.{begins_growth};
ghost use Rattle.tinyjson_grammar.specs.Tree.{Tree, Members, no_members, items_of};
ghost use Rattle.tinyjson_grammar.specs.Tree.{array, object, string, number};
ghost use Rattle.tinyjson.specs.Events.{Open, in_array, at_key, at_value, Puts, GivesBack, literal_tree};
ghost use Rattle.tinyjson_grammar.specs.declared.error.JsonParseErrorKind.TheVariants.{OutOfMemory};
ghost use Rattle.tinyjson_grammar.specs.Characters.{BeginsLiteral};
ghost use Rattle.tinyjson.specs.private.Building.{Leaves, Meets, Tells, TellsAll, break_kind};

use super::error::{JsonParseError, JsonParseErrorKind, ReadError};
use super::nest::Nest;
use super::reader::Reader;
use std::alloc::AllocError;
use tinyjson_number::JsonNumber;
use tinyjson_tokens::Tokens;

/// What a text is read into, event by event, by [`read_events`](crate::read_events) or
/// [`JsonParser::parse_events`](crate::JsonParser::parse_events), without building a value.
///
/// `holds start now` is what the events hold of the open containers, the innermost first, and `is start now`
/// of the value, once all are closed. Here `start` is the events that were given to the reading, as a counter
/// that is not at 0. What is proved of each event is so proved of the text. An event that returns an error ends
/// the reading, which returns this error. Of what such an event left nothing is known. A key or a string is
/// lent for the call, so what keeps it makes a copy.
///
/// ```
/// #[derive(Drop, Debug)]
/// struct Numbers {
///     count: usize,
/// }
///
/// impl Events for Numbers {
///     type Error = AllocError;
///
///     ghost holds = { λ _ _ _. ⊤ };
///
///     ghost is = { λ _ _ _. ⊤ };
///
///     fn open_array(&mut self) -> Result<(), AllocError> {
///         Ok(())
///     }
///
///     fn close_array(&mut self) -> Result<(), AllocError> {
///         Ok(())
///     }
///
///     fn open_object(&mut self) -> Result<(), AllocError> {
///         Ok(())
///     }
///
///     fn close_object(&mut self) -> Result<(), AllocError> {
///         Ok(())
///     }
///
///     fn key(&mut self, _: &str) -> Result<(), AllocError> {
///         Ok(())
///     }
///
///     fn string(&mut self, _: &str) -> Result<(), AllocError> {
///         Ok(())
///     }
///
///     fn number(&mut self, _: JsonNumber) -> Result<(), AllocError> {
///         self.count = self.count.saturating_add(1);
///         Ok(())
///     }
///
///     fn literal(&mut self, _: Option<bool>) -> Result<(), AllocError> {
///         Ok(())
///     }
/// }
/// ```
pub trait Events: Drop {
    /// Why an event ends the reading: no memory, or what else the events may fail by.
    type Error: Drop + From<AllocError>;

    ghost holds: { Self → Self → List Open → Type 0 };

    ghost is: { Self → Self → Tree → Type 0 };

    /// An array is opened.
    fn open_array(&mut self) -> Result<(), Self::Error>
        ensures { (start : Self) (os : List Open) → holds start self.old os →
            OnOk result (holds start self.new (in_array [] ∷ os)) };

    /// The innermost container, an array, is closed.
    fn close_array(&mut self) -> Result<(), Self::Error>
        requires { (start : Self) × (ts : List Tree) × (os : List Open) ×
            holds start self.old (in_array ts ∷ os) }
        ensures { (start : Self) (ts : List Tree) (os : List Open) →
            holds start self.old (in_array ts ∷ os) →
            OnOk result (Puts (holds start) (is start) os (array (items_of ts)) self.new) };

    /// An array that has no items: opened and closed.
    #[inline(always)]
    fn empty_array(&mut self) -> Result<(), Self::Error>
        requires { (start : Self) × (os : List Open) × holds start self.old os }
        ensures { (start : Self) (os : List Open) → holds start self.old os →
            OnOk result (Puts (holds start) (is start) os (array (items_of [])) self.new) }
    {
        self.open_array()?;
        self.close_array()
    }

    /// An object is opened.
    fn open_object(&mut self) -> Result<(), Self::Error>
        ensures { (start : Self) (os : List Open) → holds start self.old os →
            OnOk result (holds start self.new (at_key no_members ∷ os)) };

    /// The innermost container, an object, is closed.
    fn close_object(&mut self) -> Result<(), Self::Error>
        requires { (start : Self) × (ms : Members) × (os : List Open) ×
            holds start self.old (at_key ms ∷ os) }
        ensures { (start : Self) (ms : Members) (os : List Open) →
            holds start self.old (at_key ms ∷ os) →
            OnOk result (Puts (holds start) (is start) os (object ms) self.new) };

    /// An object that has no members: opened and closed.
    #[inline(always)]
    fn empty_object(&mut self) -> Result<(), Self::Error>
        requires { (start : Self) × (os : List Open) × holds start self.old os }
        ensures { (start : Self) (os : List Open) → holds start self.old os →
            OnOk result (Puts (holds start) (is start) os (object no_members) self.new) }
    {
        self.open_object()?;
        self.close_object()
    }

    /// The innermost container, an object, is given a key.
    fn key(&mut self, key: &str) -> Result<(), Self::Error>
        requires { (start : Self) × (ms : Members) × (os : List Open) ×
            holds start self.old (at_key ms ∷ os) }
        ensures { (start : Self) (ms : Members) (os : List Open) →
            holds start self.old (at_key ms ∷ os) →
            OnOk result (holds start self.new (at_value ms (chars key.now) ∷ os)) };

    /// As [`Events::key`], of a key that may be found again in the text: its characters end one byte before `end`,
    /// unless they have escapes, or the text is not in memory.
    #[inline(always)]
    fn key_before(&mut self, key: &str, end: usize) -> Result<(), Self::Error>
        requires { (start : Self) × (ms : Members) × (os : List Open) ×
            holds start self.old (at_key ms ∷ os) }
        ensures { (start : Self) (ms : Members) (os : List Open) →
            holds start self.old (at_key ms ∷ os) →
            OnOk result (holds start self.new (at_value ms (chars key.now) ∷ os)) }
    {
        self.key(key)
    }

    /// A string is complete.
    fn string(&mut self, value: &str) -> Result<(), Self::Error>
        ensures { (start : Self) (os : List Open) → holds start self.old os →
            OnOk result (Puts (holds start) (is start) os (string (chars value.now)) self.new) };

    /// As [`Events::string`], of a string that may be found again in the text, as in [`Events::key_before`].
    #[inline(always)]
    fn string_before(&mut self, value: &str, end: usize) -> Result<(), Self::Error>
        ensures { (start : Self) (os : List Open) → holds start self.old os →
            OnOk result (Puts (holds start) (is start) os (string (chars value.now)) self.new) }
    {
        self.string(value)
    }

    /// A number is complete.
    fn number(&mut self, value: JsonNumber) -> Result<(), Self::Error>
        ensures { (start : Self) (os : List Open) → holds start self.old os →
            OnOk result (Puts (holds start) (is start) os (number value.decimal) self.new) };

    /// As [`Events::number`], of a number whose text may be found again: it ends at `end`, if the text is in memory.
    #[inline(always)]
    fn number_before(&mut self, value: JsonNumber, end: usize) -> Result<(), Self::Error>
        ensures { (start : Self) (os : List Open) → holds start self.old os →
            OnOk result (Puts (holds start) (is start) os (number value.decimal) self.new) }
    {
        self.number(value)
    }

    /// Whether a number may be told by its text, by [`Events::number_text`].
    #[inline(always)]
    fn takes_texts(&self) -> bool {
        false
    }

    /// As [`Events::number_before`], of a number whose text is normal and has at most 24 characters. It is called only
    /// where the text is in memory, of events that take texts: these have to write it.
    #[inline(always)]
    fn number_text(&mut self, text: &str, end: usize) -> Result<(), Self::Error>
        ensures { (start : Self) (os : List Open) (n : Canonical) → chars text.now ≡ decimal_text n.decimal →
            length (chars text.now) ≤ 24 → holds start self.old os →
            OnOk result (Puts (holds start) (is start) os (number n.decimal) self.new) }
    {
        Err(Self::Error::from(AllocError))
    }

    /// A boolean is complete, or `null`.
    fn literal(&mut self, value: Option<bool>) -> Result<(), Self::Error>
        ensures { (start : Self) (os : List Open) → holds start self.old os →
            OnOk result (Puts (holds start) (is start) os (literal_tree value) self.new) };
}

impl<E: Events> Events for Box<E> {
    type Error = E::Error;

    ghost holds = { λ s b os. E.holds s.value b.value os };

    ghost is = { λ s b t. E.is s.value b.value t };

    fn open_array(&mut self) -> Result<(), E::Error> {
        E::open_array(&mut **self)
    }

    fn close_array(&mut self) -> Result<(), E::Error> {
        E::close_array(&mut **self)
    }

    fn empty_array(&mut self) -> Result<(), E::Error> {
        E::empty_array(&mut **self)
    }

    fn open_object(&mut self) -> Result<(), E::Error> {
        E::open_object(&mut **self)
    }

    fn close_object(&mut self) -> Result<(), E::Error> {
        E::close_object(&mut **self)
    }

    fn empty_object(&mut self) -> Result<(), E::Error> {
        E::empty_object(&mut **self)
    }

    fn key(&mut self, key: &str) -> Result<(), E::Error> {
        E::key(&mut **self, key)
    }

    fn key_before(&mut self, key: &str, end: usize) -> Result<(), E::Error> {
        E::key_before(&mut **self, key, end)
    }

    fn string(&mut self, value: &str) -> Result<(), E::Error> {
        E::string(&mut **self, value)
    }

    fn string_before(&mut self, value: &str, end: usize) -> Result<(), E::Error> {
        E::string_before(&mut **self, value, end)
    }

    fn number(&mut self, value: JsonNumber) -> Result<(), E::Error> {
        E::number(&mut **self, value)
    }

    fn number_before(&mut self, value: JsonNumber, end: usize) -> Result<(), E::Error> {
        E::number_before(&mut **self, value, end)
    }

    #[inline(always)]
    fn takes_texts(&self) -> bool {
        E::takes_texts(&**self)
    }

    fn number_text(&mut self, text: &str, end: usize) -> Result<(), E::Error> {
        E::number_text(&mut **self, text, end)
    }

    fn literal(&mut self, value: Option<bool>) -> Result<(), E::Error> {
        E::literal(&mut **self, value)
    }
}

impl<S: Tokens> Reader<S> {
    /// Reads a whole text into events, which it returns, beside an error too. An error of the text has the
    /// place that was reached. A literal alone takes no memory.
    pub(super) fn told<E: Events>(
        &mut self,
        limit: Option<usize>,
        events: E,
    ) -> Result<E, (ReadError<E::Error>, E)>
        requires { E.holds events events [] }
        ensures reads { TellsAll (E.is events) S.sight limit self.old.tokens.source result
            self.new.tokens.source }
        ensures end { OnOk result (S.sight.shows self.new.tokens.source None) }
        ensures memory { IfErr result (λ w.
            break_kind w.0 ≡ OutOfMemory → Meets S.sight self.old.tokens.source) }
        ensures back { GivesBack (E.holds events) (E.is events) result }
    {
        match self.tell(limit, events) {
            Ok(events) => Ok(events),
            Err((kind, stopped, events)) => match stopped {
                Some(error) => Err((ReadError::Events(error), events)),
                None => {
                    let (line, column) = self.tokens.position();
                    let error = JsonParseError { kind, line, column };
                    Err((ReadError::Parse(error), events))
                }
            },
        }
    }

    /// Reads the value of a whole text, and the end after it. An error of an event is beside out of memory.
    fn tell<E: Events>(
        &mut self,
        limit: Option<usize>,
        events: E,
    ) -> Result<E, (JsonParseErrorKind, Option<E::Error>, E)>
        requires { E.holds events events [] }
        ensures reads { Tells (E.is events) S.sight limit self.old.tokens.source
            (next [] awaited) result self.new.tokens.source }
        ensures end { OnOk result (S.sight.shows self.new.tokens.source None) }
        ensures memory { IfErr result (λ w.
            w.0 ≡ OutOfMemory → Meets S.sight self.old.tokens.source) }
        ensures some { IfErr result (λ w. Leaves (E.holds events) (E.is events) w.0 w.1 w.2) }
    {
        match self.tokens.skip_white() {
            Some(first @ ('n' | 't' | 'f')) => self.tell_literal(first, events),
            Some(first) => self.tell_value(limit, first, events),
            None => Err((JsonParseErrorKind::UnexpectedEof, None, events)),
        }
    }

    /// Reads the literal that begins with this letter, and the end after it.
    fn tell_literal<E: Events>(
        &mut self,
        first: char,
        events: E,
    ) -> Result<E, (JsonParseErrorKind, Option<E::Error>, E)>
        requires shown { S.sight.shows self.old.tokens.source (Some first) }
        requires begins { BeginsLiteral first }
        requires holds { E.holds events events [] }
        ensures reads { (limit : Option ℕ) →
            Tells (E.is events) S.sight limit self.old.tokens.source
            (next [] awaited) result self.new.tokens.source }
        ensures end { OnOk result (S.sight.shows self.new.tokens.source None) }
        ensures some { IfErr result (λ w. Leaves (E.holds events) (E.is events) w.0 w.1 w.2) }
    {
        let mut events = events;
        let literal = match self.tokens.literal(first) {
            Ok(literal) => literal,
            Err(kind) => return Err((kind, None, events)),
        };
        if let Err(error) = events.literal(literal) {
            return Err((JsonParseErrorKind::OutOfMemory, Some(error), events));
        }
        match self.end() {
            Ok(()) => Ok(events),
            Err(kind) => Err((kind, None, events)),
        }
    }

    /// Reads the value that begins with this character, which is no literal, and the end after it.
    fn tell_value<E: Events>(
        &mut self,
        limit: Option<usize>,
        first: char,
        events: E,
    ) -> Result<E, (JsonParseErrorKind, Option<E::Error>, E)>
        requires shown { S.sight.shows self.old.tokens.source (Some first) }
        requires no_white { is_white first ≡ false }
        requires no_literal { ¬ (BeginsLiteral first) }
        requires holds { E.holds events events [] }
        ensures reads { Tells (E.is events) S.sight limit self.old.tokens.source
            (next [] awaited) result self.new.tokens.source }
        ensures end { OnOk result (S.sight.shows self.new.tokens.source None) }
        ensures memory { IfErr result (λ w. w.0 ≡ OutOfMemory → IsTrue (begins_growth first)) }
        ensures some { IfErr result (λ w. Leaves (E.holds events) (E.is events) w.0 w.1 w.2) }
    {
        let mut nest = Nest::new(self.alloc, events);
        match self.build(limit, &mut nest, first) {
            Ok(()) => Ok(nest.events),
            Err(kind) => Err((kind, nest.stopped, nest.events)),
        }
    }
}
