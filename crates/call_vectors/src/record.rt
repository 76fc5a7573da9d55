//! Events that are written down.
ghost use Rattle.std.specs.Prelude.{⊤};

use std::alloc::{AllocError, Global};
use std::string::ToString;
use tinyjson::{Events, JsonNumber};

/// Why a record ends a reading.
#[derive(Drop, Clone, Copy)]
pub enum Stop {
    Memory,
    /// It refuses numbers.
    Number,
}

impl From<AllocError> for Stop {
    fn from(_: AllocError) -> Stop {
        Stop::Memory
    }
}

/// Writes each event down, with a blank after it: a key with a colon, a string in quotes. It may refuse numbers.
#[derive(Drop)]
pub struct Record {
    alloc: Global,
    refuses_numbers: bool,
    pub told: String,
}

impl Record {
    pub fn new(alloc: Global, refuses_numbers: bool) -> Record {
        Record {
            alloc,
            refuses_numbers,
            told: String::new(alloc),
        }
    }

    /// A record of the same sort, in which nothing is written yet.
    pub fn begun(&self) -> Record {
        Record::new(self.alloc, self.refuses_numbers)
    }

    fn tell(&mut self, event: &str) -> Result<(), Stop> {
        self.told.push_str(event)?;
        self.told.push_str(" ")?;
        Ok(())
    }
}

impl Events for Record {
    type Error = Stop;

    ghost holds = { λ _ _ _. ⊤ };

    ghost is = { λ _ _ _. ⊤ };

    fn open_array(&mut self) -> Result<(), Stop> {
        self.tell("[")
    }

    fn close_array(&mut self) -> Result<(), Stop> {
        self.tell("]")
    }

    fn open_object(&mut self) -> Result<(), Stop> {
        self.tell("{")
    }

    fn close_object(&mut self) -> Result<(), Stop> {
        self.tell("}")
    }

    fn key(&mut self, key: &str) -> Result<(), Stop> {
        self.told.push_str(key)?;
        self.tell(":")
    }

    fn string(&mut self, value: &str) -> Result<(), Stop> {
        self.told.push_str("\"")?;
        self.told.push_str(value)?;
        self.tell("\"")
    }

    fn number(&mut self, value: JsonNumber) -> Result<(), Stop> {
        if self.refuses_numbers {
            return Err(Stop::Number);
        }
        let text = value.to_string(self.alloc)?;
        self.tell(text.as_str())
    }

    fn literal(&mut self, value: Option<bool>) -> Result<(), Stop> {
        self.tell(match value {
            None => "null",
            Some(true) => "true",
            Some(false) => "false",
        })
    }
}
