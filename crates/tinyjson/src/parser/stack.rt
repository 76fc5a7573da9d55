//! A text read into a value: events that keep a stack of what was read in open containers.
ghost use Rattle.std.specs.Prelude.{◌≡◌, ◌+◌, ◌≤◌, List, [], ◌∷◌, ◌++◌};
ghost use Rattle.std.specs.Prelude.{length, take, drop, false, reverse, IfErr, IfOk, IsTrue, OnOk, Some, None};
ghost use Rattle.tinyjson_grammar.specs.Characters.{BeginsLiteral, is_white};
ghost use Rattle.tinyjson_grammar.specs.Machine.{Frame, at_key, awaited, finished, next};
ghost use Rattle.tinyjson_grammar.specs.Refusal.{begins_growth};
ghost use Rattle.tinyjson_grammar.specs.declared.error.JsonParseErrorKind.TheVariants.{OutOfMemory};
ghost use Rattle.tinyjson_tokens.specs.Steps.{Reads};
ghost use Rattle.tinyjson.specs.private.Building.{IsOpen};
ghost use Rattle.tinyjson.specs.private.Steps.{Grows, ReadsText};
ghost use Rattle.tinyjson_grammar.specs.Tree.{Tree, Members, no_members};
ghost use Rattle.tinyjson.specs.Events.{Puts};
ghost use Rattle.tinyjson.specs.private.Stack.{gather, holds, is, maps_of};
ghost use Rattle.tinyjson.specs.private.Stack.{other_maps, own_members};
ghost use Rattle.tinyjson.specs.View.{view, members_view};
ghost use Rattle.tinyjson_grammar.specs.Tree.{literal_tree};

use super::error::{JsonParseError, JsonParseErrorKind};
use super::events::Events;
use super::nest::Nest;
use super::reader::Reader;
use crate::value::{JsonValue, add_member, insert_member};
use std::alloc::{AllocError, Global};
use std::collections::HashMap;
use std::mem;
use tinyjson_number::JsonNumber;
use tinyjson_tokens::Tokens;

/// Where the values and the keys of an open container begin.
#[derive(Clone, Copy)]
struct Place {
    values: usize,
    keys: usize,
}

/// The members of an object that are on the stack at most, before they are put into its map.
const MANY: usize = 64;

/// The values and the keys that were read in open containers, and where those of each container begin, the
/// innermost last.
#[derive(Drop)]
pub(super) struct Stack {
    alloc: Global,
    places: Vec<Place>,
    values: Vec<JsonValue>,
    keys: Vec<String>,
    /// A map for each object, with its first members if it has many. The outermost objects may lack theirs.
    maps: Vec<HashMap<String, JsonValue>>,
}

impl Events for Stack {
    type Error = AllocError;

    ghost use Rattle.tinyjson.specs.private.Stack.{holds, is};

    ghost holds = { λ s. holds };

    ghost is = { λ s. is };

    #[inline(always)]
    fn open_array(&mut self) -> Result<(), AllocError> {
        let place = self.end();
        self.places.push(place)?;
        Ok(())
    }

    #[inline(always)]
    fn close_array(&mut self) -> Result<(), AllocError> {
        let Some(place) = self.places.pop() else {
            unreachable!()
        };
        let items = self.take_items(place.values)?;
        self.push(JsonValue::Array(items))
    }

    #[inline(always)]
    fn empty_array(&mut self) -> Result<(), AllocError> {
        self.values.reserve(1)?;
        self.values
            .push_reserved(JsonValue::Array(Vec::new(self.alloc)));
        Ok(())
    }

    #[inline(always)]
    fn open_object(&mut self) -> Result<(), AllocError> {
        let place = self.end();
        self.open_map()?;
        self.places.push(place)?;
        Ok(())
    }

    fn close_object(&mut self) -> Result<(), AllocError> {
        let Some(place) = self.places.pop() else {
            unreachable!()
        };
        let mut members = self.take_members(place.values, place.keys)?;
        trim(&mut members);
        self.push(JsonValue::Object(members))
    }

    #[inline(always)]
    fn empty_object(&mut self) -> Result<(), AllocError> {
        self.values.reserve(1)?;
        self.values
            .push_reserved(JsonValue::Object(HashMap::new(self.alloc)));
        Ok(())
    }

    #[inline(always)]
    fn key(&mut self, key: &str) -> Result<(), AllocError> {
        let key = String::from_str(self.alloc, key)?;
        self.settle()?;
        self.keys.push(key)?;
        Ok(())
    }

    #[inline(always)]
    fn string(&mut self, value: &str) -> Result<(), AllocError> {
        let value = String::from_str(self.alloc, value)?;
        self.values.reserve(1)?;
        self.values.push_reserved(JsonValue::String(value));
        Ok(())
    }

    #[inline(always)]
    fn number(&mut self, value: JsonNumber) -> Result<(), AllocError> {
        self.values.reserve(1)?;
        self.values.push_reserved(JsonValue::Number(value));
        Ok(())
    }

    #[inline(always)]
    fn literal(&mut self, value: Option<bool>) -> Result<(), AllocError> {
        self.values.reserve(1)?;
        self.values.push_reserved(literal_value(value));
        Ok(())
    }
}

impl Stack {
    pub(super) fn new(alloc: Global) -> Self
        ensures { holds result [] }
    {
        Stack {
            alloc,
            places: Vec::new(alloc),
            values: Vec::new(alloc),
            keys: Vec::new(alloc),
            maps: Vec::new(alloc),
        }
    }

    /// Where a container that is opened now begins.
    #[inline(always)]
    fn end(&self) -> Place
        ensures values { result.values ≡ length self.now.values.items }
        ensures keys { result.keys ≡ length self.now.keys.items }
    {
        Place {
            values: self.values.len(),
            keys: self.keys.len(),
        }
    }

    /// Puts a value on the stack.
    #[inline(always)]
    fn push(&mut self, value: JsonValue) -> Result<(), AllocError>
        ensures { (fs : List Frame) → holds self.old fs →
            OnOk result (Puts holds is fs (view value) self.new) }
    {
        if self.values.reserve(1).is_err() {
            value.dismantle();
            return Err(AllocError);
        }
        self.values.push_reserved(value);
        Ok(())
    }

    /// Takes the complete value, where no container is open.
    pub(super) fn take_complete(&mut self) -> JsonValue
        requires { (t : Tree) × is self.old t }
        ensures { (t : Tree) → is self.old t → view result ≡ t }
    {
        match self.values.pop() {
            Some(value) => value,
            None => unreachable!(),
        }
    }

    /// Gives an object that is opened an empty map, if an object around it has one.
    fn open_map(&mut self) -> Result<(), AllocError>
        ensures members { OnOk result (own_members (maps_of self.new) ≡ no_members) }
        ensures maps { OnOk result (other_maps (maps_of self.new) ≡ maps_of self.old) }
        ensures places { self.new.places ≡ self.old.places }
        ensures values { self.new.values ≡ self.old.values }
        ensures keys { self.new.keys ≡ self.old.keys }
    {
        if self.maps.is_empty() {
            return Ok(());
        }
        self.maps.push(HashMap::new(self.alloc))?;
        Ok(())
    }

    /// Puts the members of the innermost object that wait into its map, where they are many.
    #[inline(always)]
    fn settle(&mut self) -> Result<(), AllocError>
        requires { (ms : Members) × (fs : List Frame) × holds self.old (at_key ms ∷ fs) }
        ensures { (ms : Members) (fs : List Frame) → holds self.old (at_key ms ∷ fs) →
            OnOk result (holds self.new (at_key ms ∷ fs)) }
    {
        let Some(place) = self.places.last().copied() else {
            unreachable!()
        };
        if self.values.len() - place.values < MANY {
            return Ok(());
        }
        self.settle_many(place)
    }

    /// Puts the many members of the innermost object, which begin at this place, into its map.
    #[inline(never)]
    fn settle_many(&mut self, place: Place) -> Result<(), AllocError>
        requires values { place.values ≤ length self.old.values.items }
        requires keys { place.keys ≤ length self.old.keys.items }
        requires count { length self.old.keys.items + place.values
            ≡ length self.old.values.items + place.keys }
        ensures members { OnOk result (own_members (maps_of self.new)
            ≡ gather (own_members (maps_of self.old)) (drop place.keys self.old.keys.items)
            (drop place.values self.old.values.items)) }
        ensures maps { OnOk result (other_maps (maps_of self.new)
            ≡ other_maps (maps_of self.old)) }
        ensures places { self.new.places ≡ self.old.places }
        ensures values { OnOk result (self.new.values.items
            ≡ take place.values self.old.values.items) }
        ensures keys { OnOk result (self.new.keys.items ≡ take place.keys self.old.keys.items) }
    {
        let members = self.take_members(place.values, place.keys)?;
        if let Err(refused) = self.maps.push(members) {
            JsonValue::Object(refused.value).dismantle();
            return Err(AllocError);
        }
        Ok(())
    }

    /// Takes the values from this place on.
    fn take_items(&mut self, values: usize) -> Result<Vec<JsonValue>, AllocError>
        requires { values ≤ length self.old.values.items }
        ensures items { IfOk result (λ v. v.items ≡ drop values self.old.values.items) }
        ensures values { OnOk result (self.new.values.items ≡ take values self.old.values.items) }
        ensures places { self.new.places ≡ self.old.places }
        ensures keys { self.new.keys ≡ self.old.keys }
        ensures maps { self.new.maps ≡ self.old.maps }
    {
        if values > 0 {
            return self.values.split_off(values);
        }
        let mut items = mem::replace(&mut self.values, Vec::new(self.alloc));
        items.shrink_to_fit();
        Ok(items)
    }

    /// Takes the map of the innermost object, with the members that wait put into it.
    fn take_members(
        &mut self,
        values: usize,
        keys: usize,
    ) -> Result<HashMap<String, JsonValue>, AllocError>
        requires values { values ≤ length self.old.values.items }
        requires keys { keys ≤ length self.old.keys.items }
        requires count { length self.old.keys.items + values ≡ length self.old.values.items + keys }
        ensures members { IfOk result (λ m. members_view m.entries
            ≡ gather (own_members (maps_of self.old)) (drop keys self.old.keys.items)
            (drop values self.old.values.items)) }
        ensures maps { maps_of self.new ≡ other_maps (maps_of self.old) }
        ensures places { self.new.places ≡ self.old.places }
        ensures values { OnOk result (self.new.values.items ≡ take values self.old.values.items) }
        ensures keys { OnOk result (self.new.keys.items ≡ take keys self.old.keys.items) }
    {
        let mut members = self.take_map();
        let count = self.values.len() - values;
        if reserve_members(&mut members, count).is_err()
            || self.fill(&mut members, values, keys).is_err()
        {
            JsonValue::Object(members).dismantle();
            return Err(AllocError);
        }
        Ok(members)
    }

    /// Takes the map of the innermost object.
    fn take_map(&mut self) -> HashMap<String, JsonValue>
        ensures members { members_view result.entries ≡ own_members (maps_of self.old) }
        ensures maps { maps_of self.new ≡ other_maps (maps_of self.old) }
        ensures places { self.new.places ≡ self.old.places }
        ensures values { self.new.values ≡ self.old.values }
        ensures keys { self.new.keys ≡ self.old.keys }
    {
        match self.maps.pop() {
            Some(members) => members,
            None => HashMap::new(self.alloc),
        }
    }

    /// Moves the values and the keys from these places on into a map.
    fn fill(
        &mut self,
        members: &mut HashMap<String, JsonValue>,
        values: usize,
        keys: usize,
    ) -> Result<(), AllocError>
        requires values { values ≤ length self.old.values.items }
        requires keys { keys ≤ length self.old.keys.items }
        requires count { length self.old.keys.items + values ≡ length self.old.values.items + keys }
        ensures members { OnOk result (members_view members.new.entries
            ≡ gather (members_view members.old.entries) (drop keys self.old.keys.items)
            (drop values self.old.values.items)) }
        ensures places { self.new.places ≡ self.old.places }
        ensures maps { self.new.maps ≡ self.old.maps }
        ensures values { OnOk result (self.new.values.items ≡ take values self.old.values.items) }
        ensures keys { OnOk result (self.new.keys.items ≡ take keys self.old.keys.items) }
    {
        if members.is_empty() && self.values.len() - values < MANY {
            return self.fill_empty(members, values, keys);
        }
        self.fill_after(members, values, keys)
    }

    /// Moves the values and the keys from these places on into a map that has no members, the last member
    /// first, which is the last on the stack too.
    fn fill_empty(
        &mut self,
        members: &mut HashMap<String, JsonValue>,
        values: usize,
        keys: usize,
    ) -> Result<(), AllocError>
        requires empty { members_view members.old.entries ≡ no_members }
        requires values { values ≤ length self.old.values.items }
        requires keys { keys ≤ length self.old.keys.items }
        requires count { length self.old.keys.items + values ≡ length self.old.values.items + keys }
        ensures members { OnOk result (members_view members.new.entries
            ≡ gather (members_view members.old.entries) (drop keys self.old.keys.items)
            (drop values self.old.values.items)) }
        ensures places { self.new.places ≡ self.old.places }
        ensures maps { self.new.maps ≡ self.old.maps }
        ensures values { OnOk result (self.new.values.items ≡ take values self.old.values.items) }
        ensures keys { OnOk result (self.new.keys.items ≡ take keys self.old.keys.items) }
    {
        while self.values.len() > values {
            let (Some(key), Some(value)) = (self.keys.pop(), self.values.pop()) else {
                unreachable!()
            };
            add_member(members, key, value)?;
        }
        Ok(())
    }

    /// Moves the values and the keys from these places on into a map after the members that it has, the
    /// first member first.
    #[inline(never)]
    fn fill_after(
        &mut self,
        members: &mut HashMap<String, JsonValue>,
        values: usize,
        keys: usize,
    ) -> Result<(), AllocError>
        requires values { values ≤ length self.old.values.items }
        requires keys { keys ≤ length self.old.keys.items }
        requires count { length self.old.keys.items + values ≡ length self.old.values.items + keys }
        ensures members { OnOk result (members_view members.new.entries
            ≡ gather (members_view members.old.entries) (drop keys self.old.keys.items)
            (drop values self.old.values.items)) }
        ensures places { self.new.places ≡ self.old.places }
        ensures maps { self.new.maps ≡ self.old.maps }
        ensures values { OnOk result (self.new.values.items ≡ take values self.old.values.items) }
        ensures keys { OnOk result (self.new.keys.items ≡ take keys self.old.keys.items) }
    {
        reverse_from(&mut self.keys, keys);
        reverse_from(&mut self.values, values);
        while self.values.len() > values {
            let (Some(key), Some(value)) = (self.keys.pop(), self.values.pop()) else {
                unreachable!()
            };
            insert_member(members, key, value)?;
        }
        Ok(())
    }

    /// Frees what was read, by a loop.
    pub(super) fn abandon(self) {
        JsonValue::Array(self.values).dismantle();
        for members in self.maps {
            JsonValue::Object(members).dismantle();
        }
    }
}

impl<S: Tokens> Reader<S> {
    /// Reads a whole text. An error has the place that was reached. What is not returned is freed by a
    /// loop. A literal alone takes no memory.
    pub(super) fn text(&mut self, limit: Option<usize>) -> Result<JsonValue, JsonParseError>
        ensures reads { ReadsText S.sight limit self.old.tokens.source result
            self.new.tokens.source }
        ensures end { OnOk result (S.sight.shows self.new.tokens.source None) }
        ensures memory { IfErr result (λ e.
            e.kind ≡ OutOfMemory → Grows S.sight self.old.tokens.source) }
    {
        match self.text_value(limit) {
            Ok(value) => Ok(value),
            Err(kind) => {
                let (line, column) = self.tokens.position();
                Err(JsonParseError { kind, line, column })
            }
        }
    }

    /// Reads the value of a whole text, and the end after it.
    fn text_value(&mut self, limit: Option<usize>) -> Result<JsonValue, JsonParseErrorKind>
        ensures reads { Reads S.sight limit self.old.tokens.source (next [] awaited) result
            (λ v. next [] (finished (view v))) self.new.tokens.source }
        ensures end { OnOk result (S.sight.shows self.new.tokens.source None) }
        ensures memory { IfErr result (λ kind.
            kind ≡ OutOfMemory → Grows S.sight self.old.tokens.source) }
    {
        match self.tokens.skip_white() {
            Some(first @ ('n' | 't' | 'f')) => {
                let literal = self.tokens.literal(first)?;
                self.end()?;
                Ok(literal_value(literal))
            }
            Some(first) => {
                let mut nest = Nest::new(self.alloc, Stack::new(self.alloc));
                let read = self.values(limit, &mut nest, first);
                nest.events.abandon();
                read
            }
            None => Err(JsonParseErrorKind::UnexpectedEof),
        }
    }

    /// Reads the text whose first value begins with this character. After an error the stack holds
    /// what was read.
    fn values(
        &mut self,
        limit: Option<usize>,
        nest: &mut Nest<Stack>,
        first: char,
    ) -> Result<JsonValue, JsonParseErrorKind>
        requires shown { S.sight.shows self.old.tokens.source (Some first) }
        requires no_white { is_white first ≡ false }
        requires no_literal { ¬ (BeginsLiteral first) }
        requires open { IsOpen holds nest.old [] }
        ensures reads { Reads S.sight limit self.old.tokens.source (next [] awaited) result
            (λ v. next [] (finished (view v))) self.new.tokens.source }
        ensures end { OnOk result (S.sight.shows self.new.tokens.source None) }
        ensures memory { IfErr result (λ kind. kind ≡ OutOfMemory → IsTrue (begins_growth first)) }
    {
        self.build(limit, nest, first)?;
        Ok(nest.events.take_complete())
    }
}

/// Reverses the elements from this place on.
fn reverse_from<T>(elements: &mut Vec<T>, from: usize)
    requires { from ≤ length elements.old.items }
    ensures { elements.new.items
        ≡ take from elements.old.items ++ reverse (drop from elements.old.items) }
{
    elements[from..].reverse();
}

/// Reserves capacity in a map for `count` more members, and no more than that where it has none yet.
fn reserve_members(members: &mut HashMap<String, JsonValue>, count: usize) -> Result<(), AllocError>
    ensures { members_view members.new.entries ≡ members_view members.old.entries }
{
    members.reserve(count)?;
    if members.is_empty() {
        members.shrink_to(count);
    }
    Ok(())
}

/// Gives back the capacity of a map that its members do not need.
fn trim(members: &mut HashMap<String, JsonValue>)
    ensures { members_view members.new.entries ≡ members_view members.old.entries }
{
    if members.capacity() > members.len() {
        members.shrink_to_fit();
    }
}

/// The value of a literal.
#[inline(always)]
pub(super) fn literal_value(literal: Option<bool>) -> JsonValue
    ensures { view result ≡ literal_tree literal }
{
    match literal {
        None => JsonValue::Null,
        Some(boolean) => JsonValue::Boolean(boolean),
    }
}
