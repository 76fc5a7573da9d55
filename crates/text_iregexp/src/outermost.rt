//! Parses the marks of a schema's pattern into its outermost branches.
ghost use Rattle.std.specs.Prelude.{◌≡◌, OnOk, None, Some, true};
ghost use Rattle.text_iregexp.specs.Patterns.{look};
ghost use Rattle.text_iregexp.specs.PatternFronts.{mark_of};
ghost use Rattle.text_iregexp.specs.PatternMachine.{IsFitMark, no_levels};
ghost use Rattle.text_iregexp.specs.PatternCases.{CasesState, StandsFor, TakesOther, TakesCase};
ghost use Rattle.text_iregexp.specs.PatternCases.{FinishesCases, no_cases, closed_look, next_case};
ghost use Rattle.text_iregexp.specs.PatternCases.{is_last, ended, Stands, StandsOut};
ghost use Rattle.text_iregexp.specs.PatternReading.{ReadsCases};

use crate::branches::Branches;
use crate::cases::{Case, Look};
use crate::error::{IRegexpError, IRegexpErrorKind};
use crate::mark::Mark;
use crate::names::next_named;
use crate::token::Token;
use std::alloc::{AllocError, Global};
use std::mem;
use text_regexp::Automaton;

/// What was parsed of a pattern: the outermost branches that have ended, the look-aheads of the
/// last one, and the rest of it. While a look-ahead is open, the rest is what was parsed of that.
#[derive(Drop)]
struct Outermost {
    cases: Vec<Case>,
    looks: Vec<Look>,
    // whether the open look-ahead is negated
    inside: Option<bool>,
    here: Branches,
}

impl Outermost {
    /// The state before the first mark.
    fn new(alloc: Global) -> Outermost
        ensures { StandsFor result no_cases }
    {
        Outermost {
            cases: Vec::new(alloc),
            looks: Vec::new(alloc),
            inside: None,
            here: Branches::new(alloc, false),
        }
    }

    /// Begins a look-ahead.
    fn open_look(&mut self, alloc: Global, negated: bool) -> Result<(), IRegexpErrorKind>
        ensures { TakesCase self.old (look negated) result self.new }
    {
        if self.inside.is_some() {
            return Err(IRegexpErrorKind::Invalid);
        }
        let first = self.looks.is_empty();
        if !self.here.is_before(first) {
            return Err(IRegexpErrorKind::Invalid);
        }
        self.inside = Some(negated);
        self.here = Branches::new(alloc, true);
        Ok(())
    }

    /// Ends a look-ahead.
    fn close_look(&mut self, alloc: Global, negated: bool) -> Result<(), AllocError>
        requires { StandsOut self.old }
        ensures { OnOk result ((s : CasesState) → StandsFor self.old s → s.inside ≡ Some negated
            → no_levels s.here.state.1 ≡ true → StandsFor self.new (closed_look s negated)) }
    {
        let root = self.here.finish(alloc)?;
        self.looks.push(Look { negated, root })?;
        self.inside = None;
        self.here = Branches::new(alloc, true);
        Ok(())
    }

    /// Ends an outermost branch.
    fn end_case(&mut self, alloc: Global) -> Result<(), AllocError>
        requires { StandsOut self.old }
        ensures { OnOk result ((s : CasesState) → StandsFor self.old s → s.inside ≡ None
            → no_levels s.here.state.1 ≡ true → StandsFor self.new (next_case s)) }
    {
        let root = self.here.finish(alloc)?;
        let looks = mem::replace(&mut self.looks, Vec::new(alloc));
        let root = Automaton::new(alloc, root);
        self.cases.push(Case { looks, root })?;
        self.here = Branches::new(alloc, false);
        Ok(())
    }

    /// Ends the look-ahead that is open or, if none is, the branch.
    fn end(&mut self, alloc: Global) -> Result<(), AllocError>
        requires { StandsOut self.old }
        ensures { OnOk result ((s : CasesState) → StandsFor self.old s
            → no_levels s.here.state.1 ≡ true → StandsFor self.new (ended s s.inside)) }
    {
        match self.inside {
            Some(negated) => self.close_look(alloc, negated),
            None => self.end_case(alloc),
        }
    }

    /// Accepts a mark that begins no look-ahead.
    fn take_other(&mut self, alloc: Global, mark: Mark) -> Result<(), IRegexpErrorKind>
        requires fit { IsFitMark (mark_of mark) }
        requires state { Stands self.old }
        ensures { TakesOther self.old (mark_of mark) result self.new }
    {
        let last = self.here.is_outermost() & is_last(self.inside, &mark);
        if last {
            self.end(alloc)?;
            return Ok(());
        }
        self.here.take_mark(alloc, mark)
    }

    /// Accepts a mark.
    fn take_mark(&mut self, alloc: Global, mark: Mark) -> Result<(), IRegexpErrorKind>
        requires fit { IsFitMark (mark_of mark) }
        requires state { Stands self.old }
        ensures { TakesCase self.old (mark_of mark) result self.new }
    {
        match mark {
            Mark::Look(negated) => self.open_look(alloc, negated),
            other => self.take_other(alloc, other),
        }
    }

    /// All outermost branches.
    fn finish(&mut self, alloc: Global) -> Result<Vec<Case>, IRegexpErrorKind>
        requires { Stands self.old }
        ensures { FinishesCases self.old result }
    {
        if self.inside.is_some() {
            return Err(IRegexpErrorKind::Invalid);
        }
        if !self.here.is_outermost() {
            return Err(IRegexpErrorKind::Invalid);
        }
        self.end_case(alloc)?;
        Ok(mem::replace(&mut self.cases, Vec::new(alloc)))
    }
}

/// Whether the mark, outside of groups, ends the look-ahead that is open or, if none is, the
/// branch.
fn is_last(inside: Option<bool>, mark: &Mark) -> bool
    ensures { result ≡ is_last inside (mark_of mark.now) }
{
    match inside {
        Some(_) => matches!(mark, Mark::Token(Token::Close)),
        None => matches!(mark, Mark::Token(Token::Bar)),
    }
}

/// Parses a whole pattern.
pub(crate) fn read_pattern(alloc: Global, text: &[char]) -> Result<Vec<Case>, IRegexpError>
    ensures { ReadsCases text.now result }
{
    let mut outermost = Outermost::new(alloc);
    let mut names = Vec::new(alloc);
    let mut rest = text;
    while !rest.is_empty() {
        let place = text.len().saturating_sub(rest.len());
        let (mark, after) = match next_named(alloc, rest, &mut names) {
            Ok(pair) => pair,
            Err(kind) => return Err(IRegexpError { kind, place }),
        };
        if let Err(kind) = outermost.take_mark(alloc, mark) {
            return Err(IRegexpError { kind, place });
        }
        rest = after;
    }
    let place = text.len();
    match outermost.finish(alloc) {
        Ok(cases) => Ok(cases),
        Err(kind) => Err(IRegexpError { kind, place }),
    }
}
