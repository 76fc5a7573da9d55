//! Events with what each open container awaits.
ghost use Rattle.std.specs.Prelude.{◌≡◌, ◌≤◌, ◌∷◌, List, [], length, true, false, Ok, IfErr, IsSome, None, OnOk};
ghost use Rattle.std.specs.Prelude.{MatchOption, MatchResult};
ghost use Rattle.std.specs.Bool.{MatchBool};
ghost use Rattle.std.specs.Str.{chars};
ghost use Rattle.tinyjson_number.specs.Number.{Canonical};
ghost use Rattle.tinyjson_number.specs.Text.{decimal_text};
ghost use Rattle.tinyjson_grammar.specs.Kind.{kind_of};
ghost use Rattle.tinyjson_grammar.specs.Machine.{Frame, in_array, at_key, at_value};
ghost use Rattle.tinyjson_grammar.specs.Machine.{complete, stop};
ghost use Rattle.tinyjson_grammar.specs.Tree.{Tree, Members, no_members, items_of, is_string};
ghost use Rattle.tinyjson_grammar.specs.Tree.{array, object, string, number};
ghost use Rattle.tinyjson_grammar.specs.declared.error.JsonParseErrorKind.TheVariants.{OutOfMemory};
ghost use Rattle.tinyjson_grammar.specs.Tree.{literal_tree};
ghost use Rattle.tinyjson.specs.private.Building.{Agree, awaited_of, IsOpen, IsWithin, Joins};
ghost use Rattle.tinyjson.specs.private.Building.{Completed, KeepsEvents, Leaves, TakesValue};
ghost use Rattle.tinyjson.specs.declared.parser.nest.Awaited.{Awaited};

use super::error::JsonParseErrorKind;
use super::events::Events;
use crate::value::JsonKind;
use std::alloc::{AllocError, Global};
use tinyjson_number::JsonNumber;

/// What an open container awaits.
#[derive(Clone, Copy)]
pub(super) enum Awaited {
    Item,
    Key,
    /// The value of a key. Once it is complete, a comma or a brace.
    Value,
}

/// How far the parser is between two tokens.
#[derive(Clone, Copy)]
pub(super) enum Progress {
    /// A value is awaited.
    Awaits,
    /// A value is complete, and was put where it belongs.
    Complete,
}

/// The events that a text is read into, and what each open container awaits, the innermost last.
#[derive(Drop)]
pub(super) struct Nest<E>
where
    E: Events,
{
    pub(super) events: E,
    awaited: Vec<Awaited>,
    /// The error of the event that ended the reading.
    pub(super) stopped: Option<E::Error>,
}

impl<E: Events> Nest<E> {
    pub(super) fn new(alloc: Global, events: E) -> Self
        ensures events { result.events ≡ events }
        ensures none { awaited_of result ≡ [] }
        ensures goes_on { result.stopped ≡ None }
    {
        Nest {
            events,
            awaited: Vec::new(alloc),
            stopped: None,
        }
    }

    /// How many containers are open.
    pub(super) fn depth(&self) -> usize
        ensures { (fs : List Frame) → Agree (awaited_of self.now) fs → result ≡ length fs }
    {
        self.awaited.len()
    }

    /// What the innermost container awaits.
    #[inline(always)]
    pub(super) fn innermost(&self) -> Option<Awaited>
        ensures { MatchOption result (awaited_of self.now ≡ [])
            (λ o. (os : List Awaited) × (awaited_of self.now ≡ o ∷ os)) }
    {
        self.awaited.last().copied()
    }

    /// Whether the innermost container awaits a key.
    #[inline(always)]
    pub(super) fn awaits_key(&self) -> bool
        ensures { (fs : List Frame) → Agree (awaited_of self.now) fs → MatchBool result
            ((ms : Members) × (gs : List Frame) × (fs ≡ at_key ms ∷ gs)) (TakesValue fs) }
    {
        matches!(self.innermost(), Some(Awaited::Key))
    }

    /// Refuses a value of this kind, which is no string, where a key is awaited.
    #[inline(always)]
    fn refuse_key(&self, kind: JsonKind) -> Result<(), JsonParseErrorKind>
        ensures { (fs : List Frame) → Agree (awaited_of self.now) fs → MatchResult result
            (λ _. TakesValue fs) (λ k. (t : Tree) → is_string t ≡ false → kind_of t ≡ kind →
            complete true fs t true ≡ stop k true) }
    {
        if self.awaits_key() {
            return Err(JsonParseErrorKind::KeyNotString(kind));
        }
        Ok(())
    }

    /// Lets the innermost container await this.
    #[inline(always)]
    fn set_innermost(&mut self, awaited: Awaited)
        ensures awaited { (o : Awaited) (os : List Awaited) → awaited_of self.old ≡ o ∷ os →
            awaited_of self.new ≡ awaited ∷ os }
        ensures events { self.new.events ≡ self.old.events }
        ensures stopped { self.new.stopped ≡ self.old.stopped }
    {
        if let Some(innermost) = self.awaited.last_mut() {
            *innermost = awaited;
        }
    }

    /// Lets the innermost container, an object after a member, await a key.
    #[inline(always)]
    pub(super) fn await_key(&mut self)
        ensures { (start : E) (ms : Members) (fs : List Frame) →
            IsWithin (E.holds start) self.old (at_key ms) fs →
            IsOpen (E.holds start) self.new (at_key ms ∷ fs) }
    {
        self.set_innermost(Awaited::Key);
    }

    /// Gives the innermost container, an object, a key.
    #[inline(always)]
    pub(super) fn key(&mut self, key: &str, end: usize) -> Result<(), AllocError>
        requires { (start : E) × (ms : Members) × (fs : List Frame) ×
            E.holds start self.old.events (at_key ms ∷ fs) }
        ensures opens { (start : E) (ms : Members) (fs : List Frame) →
            IsWithin (E.holds start) self.old (at_key ms) fs →
            OnOk result (IsOpen (E.holds start) self.new (at_value ms (chars key.now) ∷ fs)) }
        ensures stops { IfErr result (λ _. IsSome self.new.stopped) }
    {
        let told = self.events.key_before(key, end);
        self.keep(told)?;
        self.set_innermost(Awaited::Value);
        Ok(())
    }

    /// Opens an array.
    #[inline(always)]
    pub(super) fn open_array(&mut self) -> Result<(), AllocError>
        ensures opens { (start : E) (fs : List Frame) → IsOpen (E.holds start) self.old fs →
            OnOk result (IsOpen (E.holds start) self.new (in_array [] ∷ fs)) }
        ensures some { (start : E) (fs : List Frame) → IsOpen (E.holds start) self.old fs →
            IfErr result (λ _. Leaves (E.holds start) (E.is start) OutOfMemory self.new.stopped
            self.new.events) }
    {
        let told = self.events.open_array();
        self.keep(told)?;
        self.awaited.push(Awaited::Item)?;
        Ok(())
    }

    /// Opens an object.
    #[inline(always)]
    pub(super) fn open_object(&mut self) -> Result<(), AllocError>
        ensures opens { (start : E) (fs : List Frame) → IsOpen (E.holds start) self.old fs →
            OnOk result (IsOpen (E.holds start) self.new (at_key no_members ∷ fs)) }
        ensures some { (start : E) (fs : List Frame) → IsOpen (E.holds start) self.old fs →
            IfErr result (λ _. Leaves (E.holds start) (E.is start) OutOfMemory self.new.stopped
            self.new.events) }
    {
        let told = self.events.open_object();
        self.keep(told)?;
        self.awaited.push(Awaited::Key)?;
        Ok(())
    }

    /// Closes the innermost container, an array, which is complete then.
    #[inline(always)]
    pub(super) fn close_array(&mut self) -> Result<Progress, JsonParseErrorKind>
        requires { (start : E) × (ts : List Tree) × (fs : List Frame) ×
            E.holds start self.old.events (in_array ts ∷ fs) }
        ensures joins { (start : E) (ts : List Tree) (fs : List Frame) →
            IsWithin (E.holds start) self.old (in_array ts) fs →
            Joins (E.holds start) (E.is start)
            (complete true fs (array (items_of ts)) true) result self.new }
        ensures kept { KeepsEvents result self.old self.new }
    {
        self.awaited.pop();
        self.refuse_key(JsonKind::Array)?;
        let put = self.events.close_array();
        self.complete(put)
    }

    /// Closes the innermost container, an object, which is complete then.
    #[inline(always)]
    pub(super) fn close_object(&mut self) -> Result<Progress, JsonParseErrorKind>
        requires { (start : E) × (ms : Members) × (fs : List Frame) ×
            E.holds start self.old.events (at_key ms ∷ fs) }
        ensures joins { (start : E) (ms : Members) (fs : List Frame) →
            IsWithin (E.holds start) self.old (at_key ms) fs →
            Joins (E.holds start) (E.is start) (complete true fs (object ms) true) result self.new }
        ensures kept { KeepsEvents result self.old self.new }
    {
        self.awaited.pop();
        self.refuse_key(JsonKind::Object)?;
        let put = self.events.close_object();
        self.complete(put)
    }

    /// Puts an array that has no items where it belongs.
    #[inline(always)]
    pub(super) fn empty_array(&mut self) -> Result<Progress, JsonParseErrorKind>
        requires { (start : E) × (fs : List Frame) × E.holds start self.old.events fs }
        ensures joins { (start : E) (fs : List Frame) → IsOpen (E.holds start) self.old fs →
            Joins (E.holds start) (E.is start)
            (complete true fs (array (items_of [])) true) result self.new }
        ensures kept { KeepsEvents result self.old self.new }
    {
        self.refuse_key(JsonKind::Array)?;
        let put = self.events.empty_array();
        self.complete(put)
    }

    /// Puts an object that has no members where it belongs.
    #[inline(always)]
    pub(super) fn empty_object(&mut self) -> Result<Progress, JsonParseErrorKind>
        requires { (start : E) × (fs : List Frame) × E.holds start self.old.events fs }
        ensures joins { (start : E) (fs : List Frame) → IsOpen (E.holds start) self.old fs →
            Joins (E.holds start) (E.is start)
            (complete true fs (object no_members) true) result self.new }
        ensures kept { KeepsEvents result self.old self.new }
    {
        self.refuse_key(JsonKind::Object)?;
        let put = self.events.empty_object();
        self.complete(put)
    }

    /// Puts a string where it belongs, which is no key.
    #[inline(always)]
    pub(super) fn string(&mut self, value: &str, end: usize) -> Result<Progress, JsonParseErrorKind>
        ensures joins { (start : E) (fs : List Frame) → IsOpen (E.holds start) self.old fs →
            TakesValue fs →
            Joins (E.holds start) (E.is start)
            (complete true fs (string (chars value.now)) true) result self.new }
        ensures kept { KeepsEvents result self.old self.new }
    {
        let put = self.events.string_before(value, end);
        self.complete(put)
    }

    /// Puts a number where it belongs.
    #[inline(always)]
    pub(super) fn number(
        &mut self,
        value: JsonNumber,
        end: usize,
    ) -> Result<Progress, JsonParseErrorKind>
        ensures joins { (start : E) (fs : List Frame) → IsOpen (E.holds start) self.old fs →
            Joins (E.holds start) (E.is start)
            (complete true fs (number value.decimal) true) result self.new }
        ensures kept { KeepsEvents result self.old self.new }
    {
        self.refuse_key(JsonKind::Number)?;
        let put = self.events.number_before(value, end);
        self.complete(put)
    }

    /// Puts a number with this text where it belongs.
    #[inline(always)]
    pub(super) fn number_text(
        &mut self,
        text: &str,
        end: usize,
    ) -> Result<Progress, JsonParseErrorKind>
        ensures joins { (start : E) (fs : List Frame) (n : Canonical) → chars text.now ≡ decimal_text n.decimal →
            length (chars text.now) ≤ 24 → IsOpen (E.holds start) self.old fs →
            Joins (E.holds start) (E.is start)
            (complete true fs (number n.decimal) true) result self.new }
        ensures kept { KeepsEvents result self.old self.new }
    {
        self.refuse_key(JsonKind::Number)?;
        let put = self.events.number_text(text, end);
        self.complete(put)
    }

    /// Puts a boolean, or null, where it belongs.
    #[inline(always)]
    pub(super) fn literal(&mut self, value: Option<bool>) -> Result<Progress, JsonParseErrorKind>
        ensures joins { (start : E) (fs : List Frame) → IsOpen (E.holds start) self.old fs →
            Joins (E.holds start) (E.is start)
            (complete true fs (literal_tree value) true) result self.new }
        ensures kept { KeepsEvents result self.old self.new }
    {
        self.refuse_key(literal_kind(value))?;
        let put = self.events.literal(value);
        self.complete(put)
    }

    /// A value is complete, unless its event returned an error, which is kept.
    #[inline(always)]
    fn complete(&mut self, put: Result<(), E::Error>) -> Result<Progress, JsonParseErrorKind>
        ensures { Completed put result self.old self.new }
    {
        match put {
            Ok(()) => Ok(Progress::Complete),
            Err(error) => {
                self.stopped = Some(error);
                Err(JsonParseErrorKind::OutOfMemory)
            }
        }
    }

    /// Keeps the error of an event.
    #[inline(always)]
    fn keep(&mut self, told: Result<(), E::Error>) -> Result<(), AllocError>
        ensures { MatchResult result (λ _. (told ≡ Ok tt) × (self.new ≡ self.old))
            (λ _. IsSome self.new.stopped) }
    {
        match told {
            Ok(()) => Ok(()),
            Err(error) => {
                self.stopped = Some(error);
                Err(AllocError)
            }
        }
    }
}

/// The kind of a literal.
#[inline(always)]
fn literal_kind(literal: Option<bool>) -> JsonKind
    ensures { result ≡ kind_of (literal_tree literal) }
{
    match literal {
        None => JsonKind::Null,
        Some(_) => JsonKind::Boolean,
    }
}
