//! The answers for values.
ghost use Rattle.std.specs.Prelude.{IfOk};
ghost use Rattle.json_path.specs.Answers.{GivesAnswer, IsNoAnswer};

use crate::selected::{Unanswered, Wanted, write_answer};
use std::alloc::{AllocError, Global};
use std::io::{self, Write};
use tinyjson_cli::{NoAnswer, ValueTool};
use tinyjson_document::Node;
use tinyjson_path::Query;

/// What is asked of each value: what a query selects, or the rest.
#[derive(Clone, Copy)]
pub struct Asked<'a> {
    pub query: &'a Query,
    pub wanted: Wanted,
}

impl ValueTool for Asked<'_> {
    ghost gives = { λ a _ t f. GivesAnswer a.wanted a.query.now t f };

    fn answer_value<W: Write>(
        &self,
        alloc: Global,
        value: Node<'_>,
        _: usize,
        output: &mut W,
    ) -> io::Result<Option<NoAnswer>> {
        match write_answer(alloc, self.query, value, self.wanted, output)? {
            None => Ok(None),
            Some(why) => Ok(Some(no_answer(alloc, why)?)),
        }
    }
}

/// What is reported of a text that has no answer.
fn no_answer(alloc: Global, why: Unanswered) -> Result<NoAnswer, AllocError>
    ensures { IfOk result (IsNoAnswer why) }
{
    let words = why.to_string(alloc)?;
    match why {
        Unanswered::NoNode | Unanswered::NothingLeft => Ok(NoAnswer::No(words)),
        Unanswered::Pattern(_) => Ok(NoAnswer::Failed(words)),
    }
}
