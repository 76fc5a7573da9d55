//! Where the parts of a text begin, and the keys of its members.

use crate::inputs::Inputs;
use crate::reading::error_of;
use crate::reply::Reply;
use std::alloc::Global;
use std::io::{self, ErrorKind};
use tinyjson::JsonParseError;
use tinyjson_pointer::{Place, Pointer, key_place_of, place_of};

/// The inputs are a text and a pointer.
pub fn answer(reply: &mut Reply, name: &str, inputs: &Inputs) -> io::Result<bool> {
    let alloc = reply.alloc;
    match name {
        "place_of" => {
            let pointer = pointer(alloc, inputs.text(1))?;
            found(reply, place_of(alloc, inputs.text(0), &pointer))?;
        }
        "key_place_of" => {
            let pointer = pointer(alloc, inputs.text(1))?;
            found(reply, key_place_of(alloc, inputs.text(0), &pointer))?;
        }
        _ => return Ok(false),
    }
    Ok(true)
}

fn pointer(alloc: Global, text: &str) -> io::Result<Pointer> {
    match Pointer::parse(alloc, text) {
        Ok(pointer) => Ok(pointer),
        Err(_) => Err(io::Error::new(ErrorKind::InvalidInput, "an input is no pointer")),
    }
}

/// The offset, the line and the column of a place, if there is one.
fn found(reply: &mut Reply, answer: Result<Option<Place>, JsonParseError>) -> io::Result<()> {
    match answer {
        Ok(Some(place)) => {
            reply.shown(place.offset)?;
            reply.shown(place.line)?;
            reply.shown(place.column)
        }
        Ok(None) => reply.word("none"),
        Err(error) => error_of(reply, error),
    }
}
