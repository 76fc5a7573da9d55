//! What a source reads at once, if it has its characters in memory: escapes and numbers.
ghost use Rattle.std.specs.Prelude.{ℕ, ◌<◌, ◌≤◌, List, [], false, IfSome, MatchResult, Option};
ghost use Rattle.tinyjson_grammar.specs.Machine.{Frame};
ghost use Rattle.tinyjson_tokens.specs.Numerals.{TakesNumber};
ghost use Rattle.tinyjson_tokens.specs.Steps.{Halts, Leads, within};

use crate::cursor::Characters;
use crate::source::Source;
use std::alloc::{AllocError, Global};
use tinyjson_number::JsonNumber;

/// A source of which the parser reads.
pub trait Tokens: Source {
    /// Within a string, with no unit waiting, after plain characters: takes escapes that spell a character at
    /// once, and plain characters, and adds what they stand for. Where memory runs out, some may be taken.
    fn escaped(&mut self, string: &mut String) -> Result<(), AllocError>
        ensures reads { (limit : Option ℕ) (fs : List Frame) → MatchResult result
            (λ _. Leads Self.sight limit self.old (within fs string.old [] false)
            self.new (within fs string.new [] false))
            (λ _. Halts Self.sight limit self.old (within fs string.old [] false) self.new) }
        ensures left { Self.left self.new ≤ Self.left self.old }
    {
        self.plain(string)
    }

    /// The number that comes next, and the source after it, if this source finds it at once, it is in range, and there
    /// is memory for it. It may find none. With `by_text` a short number whose text is normal need not be made: then it
    /// is `None`, and its text is lent.
    fn ready_number(&self, alloc: Global, by_text: bool) -> Option<(Option<JsonNumber>, Self)>
        ensures takes { IfSome result
            (λ r. TakesNumber Self.sight Self.lent self.now r.0 r.1) }
        ensures left { IfSome result (λ r. Self.left r.1 < Self.left self.now) }
    {
        None
    }
}

impl<I: Iterator<Item = char>> Tokens for Characters<I> {}
