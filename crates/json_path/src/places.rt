//! Places in a value, by the texts of their normalized paths.
ghost use Rattle.std.specs.Prelude.{◌≡◌, ◌≤◌, ℕ, List, nat_lt};
ghost use Rattle.std.specs.Prelude.{cond, true, IfErr, IfOk, OnOk, string_bytes};
ghost use Rattle.std.specs.HashSet.{contains_text};
ghost use Rattle.std.specs.Str.{bytes_eq};
ghost use Rattle.tinyjson.specs.View.{text};
ghost use Rattle.tinyjson_path.specs.Nodes.{Step, path_view};
ghost use Rattle.tinyjson_path.specs.Paths.{path_text};
ghost use Rattle.tinyjson_path.specs.Selections.{left, sources};
ghost use Rattle.tinyjson_path.specs.Strings.{IsFrom};
ghost use Rattle.json_path.specs.Places.{has_path, IsBounded};
ghost use Rattle.json_path.specs.Without.{is_at};

use std::alloc::{AllocError, Global};
use std::collections::HashSet;
use std::rc::Rc;
use tinyjson_path::{FindError, Location, Selection, path_text};

/// A set of places. Each has one normalized path (RFC 9535, 2.7).
#[derive(Drop)]
pub struct Places {
    pub paths: HashSet<String>,
    /// No path has more bytes.
    pub longest: usize,
}

impl Places {
    /// The places of the nodes that are still to come.
    pub fn of_selection(alloc: Global, selection: &mut Selection<'_>) -> Result<Places, FindError>
        ensures paths { IfOk result (λ p. (path : List Step) →
            has_path p path ≡ is_at (left selection.old) path) }
        ensures bounded { IfOk result IsBounded }
        ensures err { IfErr result (IsFrom (sources selection.old)) }
    {
        let mut places = Places {
            paths: HashSet::new(alloc),
            longest: 0,
        };
        while let Some(node) = selection.next()? {
            places.add(place_path(alloc, &node.location)?)?;
        }
        Ok(places)
    }

    fn add(&mut self, path: String) -> Result<(), AllocError>
        ensures paths { OnOk result ((bs : List ℕ) → contains_text self.new.paths bs
            ≡ cond (bytes_eq (string_bytes path) bs) true (contains_text self.old.paths bs)) }
        ensures bounded { OnOk result (IsBounded self.old → IsBounded self.new) }
    {
        self.longest = longer(self.longest, path.len());
        self.paths.insert(path)?;
        Ok(())
    }

    /// Whether this is the path of one of them.
    pub fn contains(&self, path: &str) -> bool
        ensures { result ≡ contains_text self.now.paths path.now }
    {
        self.paths.contains(path)
    }

    /// Whether a path may have more bytes.
    pub fn is_longer(&self, len: usize) -> bool
        ensures { result ≡ nat_lt len self.now.longest }
    {
        len < self.longest
    }
}

/// The normalized path of a place.
pub fn place_path(alloc: Global, place: &Rc<Location<'_>>) -> Result<String, AllocError>
    ensures { IfOk result (λ s. text s ≡ path_text (path_view place.now.value)) }
{
    path_text(alloc, place)
}

fn longer(first: usize, second: usize) -> usize
    ensures first { first ≤ result }
    ensures second { second ≤ result }
{
    if first < second { second } else { first }
}
