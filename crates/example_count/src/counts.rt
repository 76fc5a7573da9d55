//! The counts, and the events that increase them.
ghost use Rattle.std.specs.Prelude.{◌≡◌, ◌+◌, None, IfOk, OnOk};
ghost use Rattle.std.specs.Str.{chars};
ghost use Rattle.tinyjson.specs.Events.{TellsText};
ghost use Rattle.tinyjson.specs.JsonKind.{JsonKind};
ghost use Rattle.example_count.specs.Counts.{Adds, AtLeast, counted, one};

use std::alloc::{AllocError, Global};
use tinyjson::{Events, JsonKind, JsonNumber, JsonParseError, read_events};

/// How many values of each kind there were. The keys of objects are not values.
#[derive(Drop)]
pub struct Counts {
    pub nulls: u64,
    pub booleans: u64,
    pub numbers: u64,
    pub strings: u64,
    pub arrays: u64,
    pub objects: u64,
}

impl Counts {
    fn none() -> Self
        ensures { (k : JsonKind) → counted result k ≡ 0 }
    {
        Counts {
            nulls: 0,
            booleans: 0,
            numbers: 0,
            strings: 0,
            arrays: 0,
            objects: 0,
        }
    }

    /// Counts a value of this kind, unless its count is at its greatest.
    fn add(&mut self, kind: JsonKind) -> Result<(), AllocError>
        ensures { OnOk result ((k : JsonKind) →
            counted self.new k ≡ one k kind + counted self.old k) }
    {
        match kind {
            JsonKind::Null => self.nulls = one_more(self.nulls)?,
            JsonKind::Boolean => self.booleans = one_more(self.booleans)?,
            JsonKind::Number => self.numbers = one_more(self.numbers)?,
            JsonKind::String => self.strings = one_more(self.strings)?,
            JsonKind::Array => self.arrays = one_more(self.arrays)?,
            JsonKind::Object => self.objects = one_more(self.objects)?,
        }
        Ok(())
    }
}

fn one_more(count: u64) -> Result<u64, AllocError>
    ensures { IfOk result (λ n. n ≡ 1 + count) }
{
    match count.checked_add(1) {
        Some(more) => Ok(more),
        None => Err(AllocError),
    }
}

impl Events for Counts {
    type Error = AllocError;

    ghost use Rattle.std.specs.Prelude.{◌+◌, ◌≤◌, ℕ};
    ghost use Rattle.tinyjson.specs.JsonKind.{JsonKind};
    ghost use Rattle.example_count.specs.Counts.{Adds, counted, open_count};

    ghost holds = { λ s e os. (k : JsonKind) → counted s k + open_count k os ≤ counted e k };

    ghost is = { Adds };

    fn open_array(&mut self) -> Result<(), AllocError> {
        self.add(JsonKind::Array)
    }

    fn close_array(&mut self) -> Result<(), AllocError> {
        Ok(())
    }

    fn open_object(&mut self) -> Result<(), AllocError> {
        self.add(JsonKind::Object)
    }

    fn close_object(&mut self) -> Result<(), AllocError> {
        Ok(())
    }

    fn key(&mut self, _: &str) -> Result<(), AllocError> {
        Ok(())
    }

    fn string(&mut self, _: &str) -> Result<(), AllocError> {
        self.add(JsonKind::String)
    }

    fn number(&mut self, _: JsonNumber) -> Result<(), AllocError> {
        self.add(JsonKind::Number)
    }

    fn literal(&mut self, value: Option<bool>) -> Result<(), AllocError> {
        match value {
            None => self.add(JsonKind::Null),
            Some(_) => self.add(JsonKind::Boolean),
        }
    }
}

/// How many values of each kind a text has. Each of an object's equal keys has a value that counts, although
/// only the last one is kept. An error is that of [`JsonValue::from_str`], or out of memory.
///
/// ```
/// let counts = count_values(alloc, "[1, 2, {\"a\": null}]")?;
/// assert_eq!(rt; counts.numbers, 2);
/// ```
pub fn count_values(alloc: Global, text: &str) -> Result<Counts, JsonParseError>
    ensures { TellsText AtLeast None (chars text.now) result }
{
    add_values(alloc, text, Counts::none())
}

/// Adds to these counts how many values of each kind a text has, if it has a value.
///
/// ```
/// let counts = add_values(alloc, "[true, 3]", count_values(alloc, "[1, 2]")?)?;
/// assert_eq!(rt; counts.numbers, 3);
/// ```
pub fn add_values(alloc: Global, text: &str, counts: Counts) -> Result<Counts, JsonParseError>
    ensures { TellsText (Adds counts) None (chars text.now) result }
{
    match read_events(alloc, text, counts) {
        Ok(counts) => Ok(counts),
        Err((error, _)) => Err(JsonParseError::from(error)),
    }
}
