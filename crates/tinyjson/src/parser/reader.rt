//! The reader: values by their first character, arrays and objects (RFC 8259, sections 4 and 5), and the
//! loop over open containers. What is built is a matter of the events.
ghost use Rattle.std.specs.Prelude.{◌≡◌, ℕ, ◌<◌, ◌≤◌, List, [], ◌∷◌, false, OnOk, IfErr};
ghost use Rattle.std.specs.Prelude.{IsTrue, Option, Some, None};
ghost use Rattle.tinyjson_grammar.specs.Characters.{begin_array, begin_object, is_white};
ghost use Rattle.tinyjson_grammar.specs.Characters.{quotation_mark, text};
ghost use Rattle.tinyjson_grammar.specs.Refusal.{begins_growth};
ghost use Rattle.tinyjson_grammar.specs.Machine.{Frame, Next, in_array, at_key, after, awaited};
ghost use Rattle.tinyjson_grammar.specs.Machine.{colon, finished, fits, next};
ghost use Rattle.tinyjson_grammar.specs.Tree.{Tree, Members};
ghost use Rattle.tinyjson.specs.private.Building.{awaited_of, Builds, Continues, IsOpen, IsWithin};
ghost use Rattle.tinyjson.specs.private.Building.{KeepsEvents, LeavesSome, Stands};
ghost use Rattle.tinyjson.specs.private.Steps.{GrowsFor};
ghost use Rattle.tinyjson_tokens.specs.NumberSteps.{BeginsNumber};
ghost use Rattle.tinyjson_tokens.specs.Source.{characters};
ghost use Rattle.tinyjson_tokens.specs.Steps.{NeedsNone, Reads};
ghost use Rattle.tinyjson_grammar.specs.Characters.{BeginsLiteral};
ghost use Rattle.tinyjson_grammar.specs.declared.error.JsonParseErrorKind.TheVariants.{OutOfMemory};
ghost use Rattle.tinyjson.specs.declared.parser.nest.Awaited.{Awaited};
ghost use Rattle.tinyjson.specs.declared.parser.nest.Progress.TheVariants.{Complete};

use super::error::JsonParseErrorKind;
use super::events::Events;
use super::nest::{Awaited, Nest, Progress};
use std::alloc::Global;
use tinyjson_tokens::{Lent, TokenReader, Tokens};

/// Reads values from a source of characters.
#[derive(Drop)]
pub(crate) struct Reader<S>
where
    S: Tokens,
{
    pub(super) alloc: Global,
    pub(super) tokens: TokenReader<S>,
    /// The characters of the last string that was read.
    string: String,
}

impl<S: Tokens> Reader<S> {
    pub(crate) fn new(alloc: Global, source: S) -> Self
        ensures { result.tokens.source ≡ source }
    {
        Reader {
            alloc,
            tokens: TokenReader::new(alloc, source),
            string: String::new(alloc),
        }
    }

    /// Reads the text whose first value begins with this character into events.
    pub(crate) fn build<E: Events>(
        &mut self,
        limit: Option<usize>,
        nest: &mut Nest<E>,
        first: char,
    ) -> Result<(), JsonParseErrorKind>
        requires shown { S.sight.shows self.old.tokens.source (Some first) }
        requires no_white { is_white first ≡ false }
        requires no_literal { ¬ (BeginsLiteral first) }
        requires open { (start : E) × IsOpen (E.holds start) nest.old [] }
        ensures reads { (start : E) → IsOpen (E.holds start) nest.old [] →
            Builds (E.holds start) (E.is start) S.sight limit self.old.tokens.source
            (next [] awaited) result nest.new self.new.tokens.source }
        ensures end { OnOk result (S.sight.shows self.new.tokens.source None) }
        ensures memory { IfErr result (λ kind. kind ≡ OutOfMemory → IsTrue (begins_growth first)) }
        ensures some { (start : E) → IsOpen (E.holds start) nest.old [] →
            LeavesSome (E.holds start) (E.is start) result nest.new }
    {
        let progress = self.value(limit, nest, first)?;
        self.rest(limit, nest, progress)
    }

    /// Reads what is left. One turn for each value that is read or container that is opened.
    fn rest<E: Events>(
        &mut self,
        limit: Option<usize>,
        nest: &mut Nest<E>,
        progress: Progress,
    ) -> Result<(), JsonParseErrorKind>
        requires sound { (start : E) × (n : Next) ×
            Stands (E.holds start) (E.is start) nest.old progress n }
        ensures reads { (start : E) (n : Next) →
            Stands (E.holds start) (E.is start) nest.old progress n →
            Builds (E.holds start) (E.is start) S.sight limit self.old.tokens.source n result
            nest.new self.new.tokens.source }
        ensures end { OnOk result (S.sight.shows self.new.tokens.source None) }
        ensures some { (start : E) (n : Next) →
            Stands (E.holds start) (E.is start) nest.old progress n →
            LeavesSome (E.holds start) (E.is start) result nest.new }
    {
        let mut progress = progress;
        loop {
            progress = match progress {
                Progress::Awaits => self.next(limit, nest)?,
                Progress::Complete => match nest.innermost() {
                    Some(awaited) => self.after(nest, awaited)?,
                    None => return self.end(),
                },
            };
        }
    }

    /// Reads white space and the end of the text.
    pub(crate) fn end(&mut self) -> Result<(), JsonParseErrorKind>
        ensures reads { (limit : Option ℕ) (t : Tree) →
            Reads S.sight limit self.old.tokens.source (next [] (finished t)) result
            (λ _. next [] (finished t)) self.new.tokens.source }
        ensures end { OnOk result (S.sight.shows self.new.tokens.source None) }
        ensures memory { NeedsNone result }
    {
        match self.tokens.skip_white() {
            Some(c) => {
                self.tokens.consume(c);
                Err(JsonParseErrorKind::ExpectedEof(c))
            }
            None => Ok(()),
        }
    }

    /// Reads white space and a value, or opens a container.
    #[inline(always)]
    fn next<E: Events>(
        &mut self,
        limit: Option<usize>,
        nest: &mut Nest<E>,
    ) -> Result<Progress, JsonParseErrorKind>
        requires open { (start : E) × (fs : List Frame) × IsOpen (E.holds start) nest.old fs }
        ensures reads { (start : E) (fs : List Frame) → IsOpen (E.holds start) nest.old fs →
            Continues (E.holds start) (E.is start) S.sight limit self.old.tokens.source
            (next fs awaited) result nest.new self.new.tokens.source }
        ensures left { OnOk result (S.left self.new.tokens.source < S.left self.old.tokens.source) }
        ensures some { (start : E) (fs : List Frame) → IsOpen (E.holds start) nest.old fs →
            LeavesSome (E.holds start) (E.is start) result nest.new }
    {
        match self.tokens.skip_white() {
            Some(first) => self.value(limit, nest, first),
            None => Err(JsonParseErrorKind::UnexpectedEof),
        }
    }

    /// Reads the value that begins with this character, or opens a container.
    #[inline(always)]
    fn value<E: Events>(
        &mut self,
        limit: Option<usize>,
        nest: &mut Nest<E>,
        first: char,
    ) -> Result<Progress, JsonParseErrorKind>
        requires shown { S.sight.shows self.old.tokens.source (Some first) }
        requires no_white { is_white first ≡ false }
        requires open { (start : E) × (fs : List Frame) × IsOpen (E.holds start) nest.old fs }
        ensures reads { (start : E) (fs : List Frame) → IsOpen (E.holds start) nest.old fs →
            Continues (E.holds start) (E.is start) S.sight limit self.old.tokens.source
            (next fs awaited) result nest.new self.new.tokens.source }
        ensures left { OnOk result (S.left self.new.tokens.source < S.left self.old.tokens.source) }
        ensures memory { ¬ (BeginsLiteral first) → GrowsFor first result }
        ensures some { (start : E) (fs : List Frame) → IsOpen (E.holds start) nest.old fs →
            LeavesSome (E.holds start) (E.is start) result nest.new }
    {
        match first {
            'n' | 't' | 'f' => self.literal(nest, first),
            '"' => self.string(nest),
            '[' => self.array(limit, nest),
            '{' => self.object(limit, nest),
            c if c == '-' || c.is_ascii_digit() => self.number(nest),
            c => Err(JsonParseErrorKind::InvalidCharacter(c)),
        }
    }

    /// Reads the literal that begins with this letter, and puts it where it belongs.
    #[inline(always)]
    fn literal<E: Events>(
        &mut self,
        nest: &mut Nest<E>,
        first: char,
    ) -> Result<Progress, JsonParseErrorKind>
        requires shown { S.sight.shows self.old.tokens.source (Some first) }
        requires begins { BeginsLiteral first }
        ensures reads { (start : E) (limit : Option ℕ) (fs : List Frame) →
            IsOpen (E.holds start) nest.old fs →
            Continues (E.holds start) (E.is start) S.sight limit self.old.tokens.source
            (next fs awaited) result nest.new self.new.tokens.source }
        ensures left { OnOk result (S.left self.new.tokens.source < S.left self.old.tokens.source) }
        ensures kept { KeepsEvents result nest.old nest.new }
    {
        let literal = self.tokens.literal(first)?;
        nest.literal(literal)
    }

    /// Reads the string whose quote comes next: the key, or a value that it puts where it belongs.
    #[inline(always)]
    fn string<E: Events>(&mut self, nest: &mut Nest<E>) -> Result<Progress, JsonParseErrorKind>
        requires shown { S.sight.shows self.old.tokens.source (Some quotation_mark) }
        requires open { (start : E) × (fs : List Frame) × IsOpen (E.holds start) nest.old fs }
        ensures reads { (start : E) (limit : Option ℕ) (fs : List Frame) →
            IsOpen (E.holds start) nest.old fs →
            Continues (E.holds start) (E.is start) S.sight limit self.old.tokens.source
            (next fs awaited) result nest.new self.new.tokens.source }
        ensures left { OnOk result (S.left self.new.tokens.source < S.left self.old.tokens.source) }
        ensures some { (start : E) (fs : List Frame) → IsOpen (E.holds start) nest.old fs →
            LeavesSome (E.holds start) (E.is start) result nest.new }
    {
        let lent = self.tokens.string(&mut self.string)?;
        if nest.awaits_key() {
            return self.colon(nest, lent);
        }
        let end = self.tokens.offset();
        nest.string(self.tokens.characters(lent, &self.string), end)
    }

    /// Reads the number whose first character, a minus sign or a digit, comes next, and puts it
    /// where it belongs.
    #[inline(always)]
    fn number<E: Events>(&mut self, nest: &mut Nest<E>) -> Result<Progress, JsonParseErrorKind>
        requires begins { BeginsNumber S.sight self.old.tokens.source }
        ensures reads { (start : E) (limit : Option ℕ) (fs : List Frame) →
            IsOpen (E.holds start) nest.old fs →
            Continues (E.holds start) (E.is start) S.sight limit self.old.tokens.source
            (next fs awaited) result nest.new self.new.tokens.source }
        ensures left { OnOk result (S.left self.new.tokens.source < S.left self.old.tokens.source) }
        ensures kept { KeepsEvents result nest.old nest.new }
    {
        let number = self.tokens.number(nest.events.takes_texts())?;
        let end = self.tokens.offset();
        match number {
            Some(number) => nest.number(number, end),
            None => nest.number_text(self.tokens.lent(), end),
        }
    }

    /// Opens the array whose bracket comes next, or reads all of it if it is empty.
    #[inline(always)]
    fn array<E: Events>(
        &mut self,
        limit: Option<usize>,
        nest: &mut Nest<E>,
    ) -> Result<Progress, JsonParseErrorKind>
        requires shown { S.sight.shows self.old.tokens.source (Some begin_array) }
        requires open { (start : E) × (fs : List Frame) × IsOpen (E.holds start) nest.old fs }
        ensures reads { (start : E) (fs : List Frame) → IsOpen (E.holds start) nest.old fs →
            Continues (E.holds start) (E.is start) S.sight limit self.old.tokens.source
            (next fs awaited) result nest.new self.new.tokens.source }
        ensures left { OnOk result (S.left self.new.tokens.source < S.left self.old.tokens.source) }
        ensures some { (start : E) (fs : List Frame) → IsOpen (E.holds start) nest.old fs →
            LeavesSome (E.holds start) (E.is start) result nest.new }
    {
        if !fits(limit, nest.depth()) {
            return Err(JsonParseErrorKind::TooDeep('['));
        }
        self.tokens.consume('[');
        match self.tokens.skip_white() {
            Some(']') => {
                self.tokens.consume(']');
                nest.empty_array()
            }
            _ => {
                if nest.open_array().is_err() {
                    return Err(JsonParseErrorKind::OutOfMemory);
                }
                Ok(Progress::Awaits)
            }
        }
    }

    /// Opens the object whose brace comes next, or reads all of it if it is empty.
    #[inline(always)]
    fn object<E: Events>(
        &mut self,
        limit: Option<usize>,
        nest: &mut Nest<E>,
    ) -> Result<Progress, JsonParseErrorKind>
        requires shown { S.sight.shows self.old.tokens.source (Some begin_object) }
        requires open { (start : E) × (fs : List Frame) × IsOpen (E.holds start) nest.old fs }
        ensures reads { (start : E) (fs : List Frame) → IsOpen (E.holds start) nest.old fs →
            Continues (E.holds start) (E.is start) S.sight limit self.old.tokens.source
            (next fs awaited) result nest.new self.new.tokens.source }
        ensures left { OnOk result (S.left self.new.tokens.source < S.left self.old.tokens.source) }
        ensures some { (start : E) (fs : List Frame) → IsOpen (E.holds start) nest.old fs →
            LeavesSome (E.holds start) (E.is start) result nest.new }
    {
        if !fits(limit, nest.depth()) {
            return Err(JsonParseErrorKind::TooDeep('{'));
        }
        self.tokens.consume('{');
        match self.tokens.skip_white() {
            Some('}') => {
                self.tokens.consume('}');
                nest.empty_object()
            }
            _ => {
                if nest.open_object().is_err() {
                    return Err(JsonParseErrorKind::OutOfMemory);
                }
                self.key(nest)
            }
        }
    }

    /// Reads a string as the key of its object, and the colon, if a string comes next.
    #[inline(always)]
    fn key<E: Events>(&mut self, nest: &mut Nest<E>) -> Result<Progress, JsonParseErrorKind>
        requires open { (start : E) × (ms : Members) × (fs : List Frame) ×
            IsOpen (E.holds start) nest.old (at_key ms ∷ fs) }
        ensures reads { (start : E) (limit : Option ℕ) (ms : Members) (fs : List Frame) →
            IsOpen (E.holds start) nest.old (at_key ms ∷ fs) →
            Continues (E.holds start) (E.is start) S.sight limit self.old.tokens.source
            (next (at_key ms ∷ fs) awaited) result nest.new self.new.tokens.source }
        ensures left { OnOk result (S.left self.new.tokens.source ≤ S.left self.old.tokens.source) }
        ensures some { (start : E) (ms : Members) (fs : List Frame) →
            IsOpen (E.holds start) nest.old (at_key ms ∷ fs) →
            LeavesSome (E.holds start) (E.is start) result nest.new }
    {
        match self.tokens.skip_white() {
            Some('"') => {
                let lent = self.tokens.string(&mut self.string)?;
                self.colon(nest, lent)
            }
            _ => Ok(Progress::Awaits),
        }
    }

    /// Gives the object its key, the last string that was read, and reads the colon after it.
    #[inline(always)]
    fn colon<E: Events>(
        &mut self,
        nest: &mut Nest<E>,
        lent: Lent,
    ) -> Result<Progress, JsonParseErrorKind>
        requires open { (start : E) × (ms : Members) × (fs : List Frame) ×
            IsOpen (E.holds start) nest.old (at_key ms ∷ fs) }
        ensures reads { (start : E) (limit : Option ℕ) (ms : Members) (fs : List Frame) →
            IsOpen (E.holds start) nest.old (at_key ms ∷ fs) →
            Continues (E.holds start) (E.is start) S.sight limit self.old.tokens.source
            (next (at_key ms ∷ fs)
            (colon (characters lent (S.lent self.old.tokens.source) (text self.old.string))))
            result nest.new self.new.tokens.source }
        ensures left { OnOk result (S.left self.new.tokens.source ≤ S.left self.old.tokens.source) }
        ensures some { (start : E) (ms : Members) (fs : List Frame) →
            IsOpen (E.holds start) nest.old (at_key ms ∷ fs) →
            LeavesSome (E.holds start) (E.is start) result nest.new }
    {
        let end = self.tokens.offset();
        if nest
            .key(self.tokens.characters(lent, &self.string), end)
            .is_err()
        {
            return Err(JsonParseErrorKind::OutOfMemory);
        }
        match self.tokens.skip_white() {
            Some(':') => {
                self.tokens.consume(':');
                Ok(Progress::Awaits)
            }
            Some(c) => {
                self.tokens.consume(c);
                Err(JsonParseErrorKind::ExpectedColon(c))
            }
            None => Err(JsonParseErrorKind::UnexpectedEof),
        }
    }

    /// Reads what follows a value in the innermost container, which awaited it.
    #[inline(always)]
    fn after<E: Events>(
        &mut self,
        nest: &mut Nest<E>,
        awaited: Awaited,
    ) -> Result<Progress, JsonParseErrorKind>
        requires sound { (start : E) × (n : Next) ×
            Stands (E.holds start) (E.is start) nest.old Complete n }
        requires innermost { (os : List Awaited) × (awaited_of nest.old ≡ awaited ∷ os) }
        ensures reads { (start : E) (limit : Option ℕ) (n : Next) →
            Stands (E.holds start) (E.is start) nest.old Complete n →
            Continues (E.holds start) (E.is start) S.sight limit self.old.tokens.source n result
            nest.new self.new.tokens.source }
        ensures left { OnOk result (S.left self.new.tokens.source < S.left self.old.tokens.source) }
        ensures some { (start : E) (n : Next) →
            Stands (E.holds start) (E.is start) nest.old Complete n →
            LeavesSome (E.holds start) (E.is start) result nest.new }
    {
        match awaited {
            Awaited::Item => self.after_item(nest),
            Awaited::Value => self.after_member(nest),
            Awaited::Key => unreachable!(),
        }
    }

    /// Reads a comma or the bracket that closes the array, after an item.
    #[inline(always)]
    fn after_item<E: Events>(&mut self, nest: &mut Nest<E>) -> Result<Progress, JsonParseErrorKind>
        requires open { (start : E) × (ts : List Tree) × (fs : List Frame) ×
            IsOpen (E.holds start) nest.old (in_array ts ∷ fs) }
        ensures reads { (start : E) (limit : Option ℕ) (ts : List Tree) (fs : List Frame) →
            IsOpen (E.holds start) nest.old (in_array ts ∷ fs) →
            Continues (E.holds start) (E.is start) S.sight limit self.old.tokens.source
            (next (in_array ts ∷ fs) after) result nest.new self.new.tokens.source }
        ensures left { OnOk result (S.left self.new.tokens.source < S.left self.old.tokens.source) }
        ensures some { (start : E) (ts : List Tree) (fs : List Frame) →
            IsOpen (E.holds start) nest.old (in_array ts ∷ fs) →
            LeavesSome (E.holds start) (E.is start) result nest.new }
    {
        match self.tokens.skip_white() {
            Some(',') => {
                self.tokens.consume(',');
                Ok(Progress::Awaits)
            }
            Some(']') => {
                self.tokens.consume(']');
                nest.close_array()
            }
            Some(c) => {
                self.tokens.consume(c);
                Err(JsonParseErrorKind::ExpectedCommaOrBracket(c))
            }
            None => Err(JsonParseErrorKind::UnexpectedEof),
        }
    }

    /// Reads a comma or the brace that closes the object, after a member.
    #[inline(always)]
    fn after_member<E: Events>(
        &mut self,
        nest: &mut Nest<E>,
    ) -> Result<Progress, JsonParseErrorKind>
        requires within { (start : E) × (ms : Members) × (fs : List Frame) ×
            IsWithin (E.holds start) nest.old (at_key ms) fs }
        ensures reads { (start : E) (limit : Option ℕ) (ms : Members) (fs : List Frame) →
            IsWithin (E.holds start) nest.old (at_key ms) fs →
            Continues (E.holds start) (E.is start) S.sight limit self.old.tokens.source
            (next (at_key ms ∷ fs) after) result nest.new self.new.tokens.source }
        ensures left { OnOk result (S.left self.new.tokens.source < S.left self.old.tokens.source) }
        ensures some { (start : E) (ms : Members) (fs : List Frame) →
            IsWithin (E.holds start) nest.old (at_key ms) fs →
            LeavesSome (E.holds start) (E.is start) result nest.new }
    {
        match self.tokens.skip_white() {
            Some(',') => {
                self.tokens.consume(',');
                nest.await_key();
                self.key(nest)
            }
            Some('}') => {
                self.tokens.consume('}');
                nest.close_object()
            }
            Some(c) => {
                self.tokens.consume(c);
                Err(JsonParseErrorKind::ExpectedCommaOrBrace(c))
            }
            None => Err(JsonParseErrorKind::UnexpectedEof),
        }
    }
}

/// Whether one more container may be opened.
fn fits(limit: Option<usize>, depth: usize) -> bool
    ensures { result ≡ fits limit depth }
{
    match limit {
        None => true,
        Some(limit) => depth < limit,
    }
}
