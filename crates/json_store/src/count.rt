//! Counts the values of lines.
ghost use Rattle.std.specs.Prelude.{◌≡◌, IfOk, string_bytes};
ghost use Rattle.tinyjson.specs.Tree.{Tree};
ghost use Rattle.json_store.specs.Counts.{GivesCount, count_text};
ghost use Rattle.json_store.specs.Store.{CountsOnce, count_of};
ghost use Rattle.tinyjson_normal.specs.Normal.{HasTree};

use crate::store::Store;
use std::alloc::{AllocError, Global};
use std::io::{self, Write};
use tinyjson_cli::{Input, NoAnswer, Status, Tool};
use tinyjson_lines::{Cause, write_all};
use tinyjson_normal::{NormalReader, NormalText};

/// How often each value was counted.
#[derive(Drop)]
pub struct Counter {
    reader: NormalReader,
    store: Store,
}

impl Counter {
    /// A counter without values.
    pub fn new(alloc: Global) -> Counter
        ensures { (t : Tree) → count_of result.store t ≡ 0 }
    {
        Counter {
            reader: NormalReader::new(alloc),
            store: Store::new(alloc),
        }
    }

    /// Counts a value, and returns its count as it is printed.
    fn count(&mut self, alloc: Global, value: &NormalText) -> Result<String, AllocError>
        ensures { (t : Tree) → HasTree value.now t → IfOk result (λ s.
            CountsOnce self.old.store t self.new.store
            × (string_bytes s ≡ count_text (count_of self.new.store t))) }
    {
        self.store.add(alloc, value)?;
        let count = self.store.count(alloc, value)?;
        format!(in alloc; "{count} ")
    }
}

/// Counts the value of a text, and writes its count and its normal form.
impl Tool for Counter {
    ghost gives = { λ a _ text f b. GivesCount a.store text f b.store };

    fn answer<W: Write>(
        &mut self,
        alloc: Global,
        input: Input<'_>,
        output: &mut W,
    ) -> io::Result<Result<Status, NoAnswer>> {
        match self.reader.read(input.text.as_str(), None) {
            Ok(mut value) => {
                let count = self.count(alloc, &value)?;
                write_all(output, count.as_bytes())?;
                value.write_line_to(alloc, output)?;
                self.reader.reuse(value);
                Ok(Ok(Status::Done))
            }
            Err(error) => {
                if error.is_out_of_memory() {
                    return Err(error.into());
                }
                Ok(Err(NoAnswer::Refused(Cause::NotJson(error))))
            }
        }
    }
}
