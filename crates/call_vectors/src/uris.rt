//! References that are resolved, and their fragments.

use crate::inputs::Inputs;
use crate::reply::Reply;
use std::io;
use text_uri::{fragment, resolve, without_fragment};

/// The inputs are a base and a reference, or a text.
pub fn answer(reply: &mut Reply, name: &str, inputs: &Inputs) -> io::Result<bool> {
    match name {
        "resolve" => reply.text(resolve(reply.alloc, inputs.text(0), inputs.text(1))?.as_str())?,
        "without_fragment" => reply.text(without_fragment(inputs.text(0)))?,
        "fragment" => part(reply, fragment(inputs.text(0)))?,
        _ => return Ok(false),
    }
    Ok(true)
}

fn part(reply: &mut Reply, part: Option<&str>) -> io::Result<()> {
    match part {
        Some(text) => reply.text(text),
        None => reply.word("none"),
    }
}
