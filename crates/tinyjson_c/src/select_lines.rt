//! What a query selects in texts that are lines.
ghost use Rattle.std.specs.Prelude.{◌≡◌, ◌≢◌, ◌++◌, ◌∷◌, [], List, MatchResult, Some};
ghost use Rattle.tinyjson.specs.Words.{Tree};
ghost use Rattle.tinyjson_c.specs.SelectLines.{FindsInLine, IsUnselectedAt, SelectsLines};

use crate::lines::split_line;
use crate::select::{Unselected, push_selected, read_query};
use crate::stop::Stop;
use std::alloc::Global;
use tinyjson_path::Query;

/// A line of which nothing is selected: its index from 0, and why.
#[derive(Clone, Copy)]
pub(crate) struct UnselectedLine {
    pub(crate) number: usize,
    pub(crate) error: Unselected,
}

/// A line for each node that a query selects in each line, and an empty line behind those of each. The query is
/// read first.
pub(crate) fn select_lines(
    alloc: Global,
    bytes: &[u8],
    query: &[u8],
    paths: bool,
    depth: usize,
) -> Result<Vec<u8>, UnselectedLine>
    ensures { MatchResult result
        (λ v. SelectsLines (Some depth) bytes.now query.now paths v.items)
        (λ s. IsUnselectedAt (Some depth) bytes.now query.now s.number s.error) }
{
    let query = match read_query(alloc, query) {
        Ok(query) => query,
        Err(error) => return Err(UnselectedLine { number: 0, error }),
    };
    let mut written = Vec::new(alloc);
    let mut rest = bytes;
    let mut number = 0;
    while !rest.is_empty() {
        let (line, later) = split_line(rest);
        match push_line(alloc, &query, line, paths, depth, &mut written) {
            Ok(()) => {}
            Err(error) => return Err(UnselectedLine { number, error }),
        }
        rest = later;
        number += 1;
    }
    Ok(written)
}

/// Appends a line for each node that a query selects in a line, and an empty line.
fn push_line(
    alloc: Global,
    query: &Query,
    line: &[u8],
    paths: bool,
    depth: usize,
    written: &mut Vec<u8>,
) -> Result<(), Unselected>
    ensures { FindsInLine (Some depth) query.now line.now paths
        written.old.items written.new.items result }
{
    match push_selected(alloc, query, line, paths, depth, written) {
        Ok(()) => {}
        Err(error) => return Err(error),
    }
    match written.push(b'\n') {
        Ok(()) => Ok(()),
        Err(_) => Err(Unselected::Text(Stop::OutOfMemory)),
    }
}
