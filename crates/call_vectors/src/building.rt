//! Values that an input describes.

use crate::inputs::text_of;
use std::alloc::Global;
use std::collections::HashMap;
use std::io::{self, ErrorKind};
use tinyjson::{JsonNumber, JsonValue, insert_member};

/// Values that are not yet in a container, and keys that have no member yet.
#[derive(Drop)]
struct Builder {
    alloc: Global,
    keys: Vec<String>,
    values: Vec<JsonValue>,
}

/// The value that these words build, one after the other. `text=DIGITS` reads a text, the others take a variant and its content.
/// `key=DIGITS` is the key of the next value. `array=N` takes the last N values, and `object=N` the last N with their keys.
pub fn built(alloc: Global, words: &str) -> io::Result<JsonValue> {
    let mut built = Builder {
        alloc,
        keys: Vec::new(alloc),
        values: Vec::new(alloc),
    };
    for word in words.split(' ') {
        let (name, content) = word.split_once('=').unwrap_or((word, ""));
        built.add(name, content)?;
    }
    match built.values.pop() {
        Some(value) => Ok(value),
        None => Err(invalid()),
    }
}

impl Builder {
    fn add(&mut self, name: &str, content: &str) -> io::Result<()> {
        match name {
            "key" => self.keys.push(text_of(self.alloc, content)?)?,
            "array" => self.array(content)?,
            "object" => self.object(content)?,
            _ => self.values.push(scalar(self.alloc, name, content)?)?,
        }
        Ok(())
    }

    fn array(&mut self, count: &str) -> io::Result<()> {
        let items = self.last(count)?;
        self.values.push(JsonValue::Array(items))?;
        Ok(())
    }

    fn object(&mut self, count: &str) -> io::Result<()> {
        let mut members = HashMap::new(self.alloc);
        for value in self.last(count)? {
            let key = self.keys.pop().ok_or(invalid())?;
            insert_member(&mut members, key, value)?;
        }
        self.values.push(JsonValue::Object(members))?;
        Ok(())
    }

    /// Takes the last values.
    fn last(&mut self, count: &str) -> io::Result<Vec<JsonValue>> {
        let count = count.parse::<usize>().unwrap_or(0);
        let place = self.values.len().saturating_sub(count);
        Ok(self.values.split_off(place)?)
    }
}

/// A value that is no container, or one that is read from a text.
fn scalar(alloc: Global, name: &str, content: &str) -> io::Result<JsonValue> {
    let text = text_of(alloc, content)?;
    match name {
        "text" => Ok(JsonValue::from_str(alloc, text.as_str())?),
        "string" => Ok(JsonValue::String(text)),
        "number" => number(alloc, text.as_str()),
        "boolean" => Ok(JsonValue::Boolean(text.as_str() == "true")),
        _ => Ok(JsonValue::Null),
    }
}

fn number(alloc: Global, text: &str) -> io::Result<JsonValue> {
    match JsonNumber::from_text(alloc, text) {
        Ok(number) => Ok(JsonValue::Number(number)),
        Err(_) => Err(invalid()),
    }
}

fn invalid() -> io::Error {
    io::Error::new(ErrorKind::InvalidInput, "an input describes no value")
}
