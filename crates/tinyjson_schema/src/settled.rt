//! References whose schemas are known to come to an end.
ghost use Rattle.std.specs.Prelude.{◌≡◌, ◌≤◌, [], true, string_bytes};
ghost use Rattle.tinyjson.specs.Tree.{Tree};
ghost use Rattle.tinyjson_schema.specs.Settled.{ends, IsRight};

use std::alloc::{AllocError, Global};
use std::collections::HashMap;
use tinyjson_bytes::are_equal;

/// The fragment of a reference, and steps within which its schema comes to an end.
#[derive(Drop)]
pub struct Found {
    pub fragment: String,
    pub steps: usize,
}

/// The fragments that were followed when a schema is read, so that few are followed twice.
#[derive(Drop)]
pub struct Settled {
    pub found: Vec<Found>,
    /// Where a fragment was found last.
    places: HashMap<String, usize>,
    /// The fewest steps that were left since the fragment that is followed now. A proof needs nothing of it: how many
    /// steps are kept is tried.
    least: usize,
}

impl Settled {
    /// No fragment yet.
    pub fn new(alloc: Global) -> Settled
        ensures { result.found.items ≡ [] }
    {
        Settled {
            found: Vec::new(alloc),
            places: HashMap::new(alloc),
            least: 0,
        }
    }

    /// Whether it is known that the schema of the fragment comes to an end within the steps.
    pub fn knows(&mut self, fragment: &str, steps: usize) -> bool
        ensures is { result ≡ true → (root : Tree) → IsRight root self.old
            → ends root steps fragment.now ≡ true }
        ensures same { self.new.found ≡ self.old.found }
    {
        let Some(place) = self.places.get(fragment).copied() else {
            return false;
        };
        let Some(found) = self.found.get(place) else {
            return false;
        };
        if found.steps > steps || !are_equal(found.fragment.as_bytes(), fragment.as_bytes()) {
            return false;
        }
        let left = steps - found.steps;
        self.reach(left);
        true
    }

    /// Keeps that the schema of the fragment comes to an end within the steps. The only error is out of memory.
    pub fn keep(&mut self, fragment: String, steps: usize, alloc: Global) -> Result<(), AllocError>
        ensures { (root : Tree) → IsRight root self.old
            → ends root steps (string_bytes fragment) ≡ true → IsRight root self.new }
    {
        let key = String::from_str(alloc, fragment.as_str())?;
        let place = self.found.len();
        self.found.push(Found { fragment, steps })?;
        self.places.insert(key, place)?;
        Ok(())
    }

    /// Changes what the fewest steps are that were left. The result are the ones before.
    pub fn put_least(&mut self, steps: usize) -> usize
        ensures { self.new.found ≡ self.old.found }
    {
        let before = self.least;
        self.least = steps;
        before
    }

    /// Notes how many steps are left where a schema is reached.
    pub fn reach(&mut self, steps: usize)
        ensures { self.new.found ≡ self.old.found }
    {
        if steps < self.least {
            self.least = steps;
        }
    }

    /// How many of the steps were taken since the fragment that is followed now.
    pub fn taken(&self, steps: usize) -> usize
        ensures { result ≤ steps }
    {
        steps.saturating_sub(self.least)
    }
}
