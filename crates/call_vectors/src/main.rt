//! Answers calls of the library, one for each line of standard input, for the checks that compare the answers with a table.
//!
//! A line is the name of a call and its inputs, apart by tabs, each input as the hexadecimal digits of its UTF-8 bytes, so that no
//! input is read by what is tested. The answer is a line of words and of texts in the same digits.
#![tactic(auto)]

mod agreement;
mod beginnings;
mod building;
mod categories;
mod documents;
mod expressions;
mod formats;
mod inputs;
mod merging;
mod normal;
mod numbers;
mod parts;
mod places;
mod reading;
mod record;
mod regexps;
mod reply;
mod uris;
mod values;
mod writer;
mod writing;

use inputs::Inputs;
use reply::Reply;
use std::io;

fn main(rt: HostRuntime) -> io::Result<()> {
    for line in rt.lines(rt.alloc()) {
        let mut reply = Reply::new(rt.alloc());
        answer(&mut reply, line?.as_str())?;
        println!(rt; "{}", reply.as_str())?;
    }
    Ok(())
}

/// Calls what the line names.
fn answer(reply: &mut Reply, line: &str) -> io::Result<()> {
    let (name, inputs) = match line.split_once('\t') {
        Some((name, rest)) => (name, Inputs::read(reply.alloc, rest)?),
        None => (line, Inputs::read(reply.alloc, "")?),
    };
    let is_known = answer_about_text(reply, name, &inputs)?
        || answer_about_value(reply, name, &inputs)?
        || answer_about_document(reply, name, &inputs)?;
    if !is_known {
        reply.word("unknown")?;
    }
    Ok(())
}

/// Calls a library about texts that are no JSON.
fn answer_about_text(reply: &mut Reply, name: &str, inputs: &Inputs) -> io::Result<bool> {
    Ok(
        uris::answer(reply, name, inputs)?
            || categories::answer(reply, name, inputs)?
            || formats::answer(reply, name, inputs)?
            || regexps::answer(reply, name, inputs)?
            || expressions::answer(reply, name, inputs)?,
    )
}

/// Calls `tinyjson`.
fn answer_about_value(reply: &mut Reply, name: &str, inputs: &Inputs) -> io::Result<bool> {
    Ok(
        reading::answer(reply, name, inputs)?
            || writing::answer(reply, name, inputs)?
            || numbers::answer(reply, name, inputs)?
            || values::answer(reply, name, inputs)?
            || parts::answer(reply, name, inputs)?
            || beginnings::answer(reply, name, inputs)?,
    )
}

/// Calls a library that is about documents.
fn answer_about_document(reply: &mut Reply, name: &str, inputs: &Inputs) -> io::Result<bool> {
    Ok(
        places::answer(reply, name, inputs)?
            || agreement::answer(reply, name, inputs)?
            || documents::answer(reply, name, inputs)?
            || merging::answer(reply, name, inputs)?
            || normal::answer(reply, name, inputs)?,
    )
}
