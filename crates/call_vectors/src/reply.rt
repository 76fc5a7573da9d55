//! The line that answers a call.

use std::alloc::Global;
use std::fmt::Display;
use std::io;
use std::string::ToString;
use tinyjson::JsonValue;

/// The words of an answer, with a tab before each.
#[derive(Drop)]
pub struct Reply {
    pub alloc: Global,
    line: String,
}

impl Reply {
    pub fn new(alloc: Global) -> Reply {
        Reply {
            alloc,
            line: String::new(alloc),
        }
    }

    pub fn as_str(&self) -> &str {
        self.line.as_str()
    }

    /// A word as it is.
    pub fn word(&mut self, word: &str) -> io::Result<()> {
        self.line.push('\t')?;
        self.line.push_str(word)?;
        Ok(())
    }

    /// What is shown so, as a word.
    pub fn shown<T: Display + Drop>(&mut self, it: T) -> io::Result<()> {
        let word = it.to_string(self.alloc)?;
        self.word(word.as_str())
    }

    /// Bytes by their digits.
    pub fn bytes(&mut self, bytes: &[u8]) -> io::Result<()> {
        self.line.push('\t')?;
        for &byte in bytes {
            self.line.push(digit(byte / 16))?;
            self.line.push(digit(byte % 16))?;
        }
        Ok(())
    }

    /// A text by its digits.
    pub fn text(&mut self, text: &str) -> io::Result<()> {
        self.bytes(text.as_bytes())
    }

    /// What is shown so, by the digits of its text.
    pub fn message<T: Display + Drop>(&mut self, it: T) -> io::Result<()> {
        let text = it.to_string(self.alloc)?;
        self.text(text.as_str())
    }

    /// A value by its compact text.
    pub fn value(&mut self, value: &JsonValue) -> io::Result<()> {
        let text = value.stringify(self.alloc)?;
        self.text(text.as_str())
    }
}

fn digit(number: u8) -> char {
    char::from_digit(u32::from(number), 16).unwrap_or('?')
}
