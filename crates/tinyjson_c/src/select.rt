//! What a query selects in a text (JSONPath, RFC 9535), a line each.
ghost use Rattle.std.specs.Prelude.{◌≡◌, ◌++◌, List, MatchResult, OnOk, Some, encode_utf8_all};
ghost use Rattle.tinyjson.specs.Text.{compact};
ghost use Rattle.tinyjson.specs.View.{view};
ghost use Rattle.tinyjson_c.specs.Select.{FindsIn, FindsInText, IsReadQuery, IsUnselected, Selects};
ghost use Rattle.tinyjson_c.specs.Select.{part_line, part_lines, unselected_place, unselected_status};
ghost use Rattle.tinyjson_path.specs.Nodes.{Part, part_view, parts_view, path_view};
ghost use Rattle.tinyjson_path.specs.Views.{tree_of};
ghost use Rattle.tinyjson_path.specs.Paths.{path_text};

use crate::place::TinyjsonPlace;
use crate::status::{BAD_QUERY, PATTERN_LIMIT};
use crate::stop::Stop;
use crate::value::read;
use std::alloc::{AllocError, Global};
use std::str;
use tinyjson::JsonValue;
use tinyjson_path::{
    FindError, Located, Location, ParseErrorKind, Query, ValueView, find, path_text,
};

/// Why nothing is selected.
#[derive(Clone, Copy)]
pub(crate) enum Unselected {
    /// The text is no JSON, or memory ran out.
    Text(Stop),
    /// The query is no query; this many of its characters are before the fault, or bytes if it is not UTF-8.
    BadQuery(usize),
    /// A regular expression is too deep or too large.
    PatternLimit,
}

impl Unselected {
    /// Fills the place, and returns the status.
    pub(crate) fn put(self, text: usize, place: &mut TinyjsonPlace) -> u32
        ensures status { result ≡ unselected_status self }
        ensures place { place.new ≡ unselected_place text self }
    {
        match self {
            Unselected::Text(stop) => stop.put(text, place),
            Unselected::BadQuery(length) => {
                *place = TinyjsonPlace::of_length(1, length);
                BAD_QUERY
            }
            Unselected::PatternLimit => {
                *place = TinyjsonPlace::of_length(text, 0);
                PATTERN_LIMIT
            }
        }
    }
}

/// A line for each node that a query selects in a text. The query is read first.
pub(crate) fn selected(
    alloc: Global,
    text: &[u8],
    query: &[u8],
    paths: bool,
    depth: usize,
) -> Result<Vec<u8>, Unselected>
    ensures { MatchResult result (λ v. (ps : List Part)
        × Selects (Some depth) text.now query.now ps × (v.items ≡ part_lines paths ps))
        (IsUnselected (Some depth) text.now query.now) }
{
    let query = match read_query(alloc, query) {
        Ok(query) => query,
        Err(error) => return Err(error),
    };
    let mut written = Vec::new(alloc);
    match push_selected(alloc, &query, text, paths, depth, &mut written) {
        Ok(()) => Ok(written),
        Err(error) => Err(error),
    }
}

/// Parses the bytes of a query.
pub(crate) fn read_query(alloc: Global, bytes: &[u8]) -> Result<Query, Unselected>
    ensures { IsReadQuery bytes.now result }
{
    let text = match str::from_utf8(bytes) {
        Ok(text) => text,
        Err(error) => return Err(Unselected::BadQuery(error.valid_up_to())),
    };
    match Query::parse(alloc, text) {
        Ok(query) => Ok(query),
        Err(error) => match error.kind {
            ParseErrorKind::OutOfMemory => Err(Unselected::Text(Stop::OutOfMemory)),
            _ => Err(Unselected::BadQuery(error.place)),
        },
    }
}

/// Appends a line for each node that a query selects in a text.
pub(crate) fn push_selected(
    alloc: Global,
    query: &Query,
    text: &[u8],
    paths: bool,
    depth: usize,
    written: &mut Vec<u8>,
) -> Result<(), Unselected>
    ensures { FindsInText (Some depth) query.now text.now paths
        written.old.items written.new.items result }
{
    let value = match read(alloc, text, depth) {
        Ok(value) => value,
        Err(stop) => return Err(Unselected::Text(stop)),
    };
    let answer = push_found(alloc, query, &value, paths, written);
    value.dismantle();
    answer
}

/// Appends a line for each node that a query selects in a value.
fn push_found(
    alloc: Global,
    query: &Query,
    value: &JsonValue,
    paths: bool,
    written: &mut Vec<u8>,
) -> Result<(), Unselected>
    ensures { FindsIn query.now (view value.now) paths
        written.old.items written.new.items result }
{
    match find(query, alloc, value) {
        Ok(nodes) => match push_lines(alloc, nodes.as_slice(), paths, written) {
            Ok(()) => Ok(()),
            Err(AllocError) => Err(Unselected::Text(Stop::OutOfMemory)),
        },
        Err(FindError::Pattern(_)) => Err(Unselected::PatternLimit),
        Err(FindError::OutOfMemory) => Err(Unselected::Text(Stop::OutOfMemory)),
    }
}

/// Appends a line for each node.
fn push_lines(
    alloc: Global,
    nodes: &[Located],
    paths: bool,
    written: &mut Vec<u8>,
) -> Result<(), AllocError>
    ensures { OnOk result (written.new.items
        ≡ written.old.items ++ part_lines paths (parts_view nodes.now)) }
{
    for node in nodes {
        push_line(alloc, node, paths, written)?;
    }
    Ok(())
}

/// Appends the normal form of a node's value, or its path, and a line feed.
fn push_line(
    alloc: Global,
    node: &Located,
    paths: bool,
    written: &mut Vec<u8>,
) -> Result<(), AllocError>
    ensures { OnOk result (written.new.items
        ≡ written.old.items ++ part_line paths (part_view node.now)) }
{
    if paths {
        push_path(alloc, &node.location, written)?;
    } else {
        push_value(alloc, &node.value, written)?;
    }
    Ok(written.push(b'\n')?)
}

/// Appends the normal form of the value of a node.
fn push_value(alloc: Global, value: &ValueView, written: &mut Vec<u8>) -> Result<(), AllocError>
    ensures { OnOk result (written.new.items
        ≡ written.old.items ++ encode_utf8_all (compact (tree_of value.now))) }
{
    match value.write_to(alloc, written) {
        Ok(()) => Ok(()),
        Err(_) => Err(AllocError),
    }
}

/// Appends a normalized path.
fn push_path(alloc: Global, location: &Location, written: &mut Vec<u8>) -> Result<(), AllocError>
    ensures { OnOk result (written.new.items
        ≡ written.old.items ++ encode_utf8_all (path_text (path_view location.now))) }
{
    let path = path_text(alloc, location)?;
    Ok(written.extend_from_slice(path.as_bytes())?)
}
