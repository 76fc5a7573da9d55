//! Parses the marks of branches outside of groups into a tree.
ghost use Rattle.std.specs.Prelude.{◌≡◌, ◌<◌, OnOk, IfOk, true, vec_len};
ghost use Rattle.text_regexp.specs.Building.{Means};
ghost use Rattle.text_iregexp.specs.Fronts.{token_of};
ghost use Rattle.text_iregexp.specs.Levels.{IsFit};
ghost use Rattle.text_iregexp.specs.Patterns.{token};
ghost use Rattle.text_iregexp.specs.PatternFronts.{mark_of};
ghost use Rattle.text_iregexp.specs.PatternMachine.{TakesMark, Finishes, EndsPart, AgreesAt, initial};
ghost use Rattle.text_iregexp.specs.PatternMachine.{open_form, is_bar, no_levels, next_part};
ghost use Rattle.text_iregexp.specs.PatternMachine.{PartsState, IsFitMark, is_before};
ghost use Rattle.text_iregexp.specs.PatternMachine.{is_start_token, is_end_token};

use crate::error::IRegexpErrorKind;
use crate::mark::Mark;
use crate::reader::{Level, accept_token};
use crate::token::Token;
use std::alloc::{AllocError, Global};
use std::mem;
use text_regexp::{Assertion, Class, Expression};

/// What was parsed of branches outside of groups: those that have ended, and the rest. Whether the
/// last one begins with `^`, and ends with `$` so far, is kept for its tree.
#[derive(Drop)]
pub(crate) struct Branches {
    // whether they have to match at the beginning of the text
    fixed: bool,
    parts: Vec<Expression>,
    starts: bool,
    ends: bool,
    outer: Vec<Level>,
    here: Level,
}

impl Branches {
    /// The state before the first mark.
    pub(crate) fn new(alloc: Global, fixed: bool) -> Branches
        ensures { AgreesAt result (initial fixed) }
    {
        Branches {
            fixed,
            parts: Vec::new(alloc),
            starts: false,
            ends: false,
            outer: Vec::new(alloc),
            here: Level::new(alloc, 0),
        }
    }

    /// Ends a branch: a node, with any text before and after it. Instead of an assertion at either
    /// end the node has no such text there.
    fn end_part(&mut self, alloc: Global) -> Result<(), AllocError>
        ensures part { OnOk result (EndsPart self.old self.new.parts.items) }
        ensures some { OnOk result (0 < vec_len self.new.parts) }
        ensures fixed { self.new.fixed ≡ self.old.fixed }
    {
        self.here.cut_first(self.starts);
        self.here.cut_last(self.ends);
        let node = self.here.finish(alloc)?;
        let behind = Expression::concat(alloc, node, open_end(alloc, self.ends)?)?;
        let part = Expression::concat(alloc, open_end(alloc, self.fixed | self.starts)?, behind)?;
        self.parts.push(part)?;
        Ok(())
    }

    /// Accepts a bar outside of groups.
    fn take_bar(&mut self, alloc: Global) -> Result<(), AllocError>
        ensures { OnOk result ((s : PartsState) → AgreesAt self.old s
            → no_levels s.state.1 ≡ true → AgreesAt self.new (next_part s)) }
    {
        self.end_part(alloc)?;
        self.starts = false;
        self.ends = false;
        self.outer = Vec::new(alloc);
        self.here = Level::new(alloc, 0);
        Ok(())
    }

    /// Accepts a token.
    fn take_token(&mut self, alloc: Global, taken: Token) -> Result<(), IRegexpErrorKind>
        requires { IsFit (token_of taken) }
        ensures { TakesMark self.old (token (token_of taken)) result self.new }
    {
        let out = self.outer.is_empty();
        let next = out & is_bar(&taken);
        if next {
            self.take_bar(alloc)?;
            return Ok(());
        }
        let first = self.here.is_blank() & out;
        self.starts = self.starts | (first & is_start(&taken));
        self.ends = out & is_end(&taken);
        accept_token(alloc, &mut self.outer, &mut self.here, taken)
    }

    /// Accepts a mark.
    pub(crate) fn take_mark(&mut self, alloc: Global, mark: Mark) -> Result<(), IRegexpErrorKind>
        requires { IsFitMark (mark_of mark) }
        ensures { TakesMark self.old (mark_of mark) result self.new }
    {
        match mark {
            Mark::Look(_) => Err(IRegexpErrorKind::Invalid),
            Mark::Token(taken) => self.take_token(alloc, taken),
        }
    }

    /// The tree of all branches.
    pub(crate) fn finish(&mut self, alloc: Global) -> Result<Expression, AllocError>
        ensures { IfOk result (λ n. Finishes self.old n) }
    {
        self.end_part(alloc)?;
        let parts = mem::replace(&mut self.parts, Vec::new(alloc));
        Expression::choice_of(alloc, parts)
    }

    /// Whether no group is open.
    pub(crate) fn is_outermost(&self) -> bool
        ensures { (s : PartsState) → AgreesAt self.now s → result ≡ no_levels s.state.1 }
    {
        self.outer.is_empty()
    }

    /// Whether only a `^` was read, or without `starts` nothing.
    pub(crate) fn is_before(&self, starts: bool) -> bool
        ensures { (s : PartsState) → AgreesAt self.now s → result ≡ is_before s starts }
    {
        if !self.outer.is_empty() {
            return false;
        }
        if starts {
            return self.starts & self.here.is_single();
        }
        self.here.is_blank()
    }
}

/// Whether it is a bar.
fn is_bar(token: &Token) -> bool
    ensures { result ≡ is_bar (token_of token.now) }
{
    matches!(token, Token::Bar)
}

/// Whether it is `^`.
fn is_start(token: &Token) -> bool
    ensures { result ≡ is_start_token (token_of token.now) }
{
    matches!(token, Token::Assertion(Assertion::Start))
}

/// Whether it is `$`.
fn is_end(token: &Token) -> bool
    ensures { result ≡ is_end_token (token_of token.now) }
{
    matches!(token, Token::Assertion(Assertion::End))
}

/// Any text, unless this end of a branch is anchored.
fn open_end(alloc: Global, closed: bool) -> Result<Expression, AllocError>
    ensures { IfOk result (λ n. Means n (open_form closed)) }
{
    if closed {
        return Ok(Expression::empty());
    }
    Expression::star(
        alloc,
        Expression::one_of(Class {
            negated: true,
            items: Vec::new(alloc),
        }),
    )
}
