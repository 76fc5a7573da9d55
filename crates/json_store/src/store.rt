//! Counts values by their normal text, so that equal values have one count.
ghost use Rattle.std.specs.Prelude.{◌≡◌, IfOk, OnOk, OnErr};
ghost use Rattle.tinyjson.specs.Tree.{Tree};
ghost use Rattle.tinyjson_normal.specs.Normal.{HasTree};
ghost use Rattle.json_store.specs.Store.{count_of, CountsOnce, CountsTheSame};

use std::alloc::{AllocError, Global};
use std::collections::HashMap;
use tinyjson_normal::NormalText;

/// How often each value was added.
///
/// It keeps the compact text of each value. Two values have the same one exactly if they are equal: each
/// number has one spelling, and members are in the order of their keys.
#[derive(Drop)]
pub struct Store {
    counts: HashMap<String, u64>,
}

impl Store {
    /// A store without values.
    ///
    /// ```
    /// let mut store = Store::new(alloc);
    /// ```
    pub fn new(alloc: Global) -> Store
        ensures { (t : Tree) → count_of result t ≡ 0 }
    {
        Store {
            counts: HashMap::new(alloc),
        }
    }

    /// How often values equal to this one were added. The only error is out of memory.
    ///
    /// ```
    /// store.count(alloc, &NormalText::read(alloc, "[1.0]")?)?; // 0, until it is added
    /// ```
    pub fn count(&self, alloc: Global, value: &NormalText) -> Result<u64, AllocError>
        ensures { (t : Tree) → HasTree value.now t → IfOk result (λ n. n ≡ count_of self.now t) }
    {
        let Ok(key) = value.to_string(alloc) else {
            return Err(AllocError);
        };
        Ok(self.counts.get(key.as_str()).copied().unwrap_or(0))
    }

    /// Adds the value once. A count of `u64::MAX` stays as it is. If memory runs out, no count changes.
    ///
    /// ```
    /// store.add(alloc, &NormalText::read(alloc, r#"{"a": 1, "b": 2.0}"#)?)?;
    /// store.count(alloc, &NormalText::read(alloc, r#"{"b": 2, "a": 10e-1}"#)?)?; // 1
    /// ```
    pub fn add(&mut self, alloc: Global, value: &NormalText) -> Result<(), AllocError>
        ensures ok { (t : Tree) → HasTree value.now t →
            OnOk result (CountsOnce self.old t self.new) }
        ensures err { OnErr result (CountsTheSame self.old self.new) }
    {
        let Ok(key) = value.to_string(alloc) else {
            return Err(AllocError);
        };
        let count = self.counts.get(key.as_str()).copied().unwrap_or(0);
        let Ok(_) = self.counts.insert(key, count.saturating_add(1)) else {
            return Err(AllocError);
        };
        Ok(())
    }
}
