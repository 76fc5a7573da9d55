//! Parses the tokens of a text into a tree.
ghost use Rattle.std.specs.Prelude.{◌≡◌, ◌-◌, List, [], ◌∷◌, ◌<◌, IfOk, OnOk, vec_len, cond};
ghost use Rattle.text_regexp.specs.Forms.{AtMost};
ghost use Rattle.text_regexp.specs.Building.{Means};
ghost use Rattle.text_iregexp.specs.Fronts.{token_of};
ghost use Rattle.text_iregexp.specs.Grammar.{Branch, Piece, Atom, atom_form, regexp_form};
ghost use Rattle.text_iregexp.specs.Reading.{Reads};
ghost use Rattle.text_iregexp.specs.Levels.{Level as Read, Stands, StandsAt, fresh, settle, with_atom};
ghost use Rattle.text_iregexp.specs.Levels.{with_assertion};
ghost use Rattle.text_iregexp.specs.Levels.{barred, regexp_of, Quantifies, Takes, IsFit, Grows};
ghost use Rattle.text_iregexp.specs.Limits.{class_size, repeated};
ghost use Rattle.text_iregexp.specs.PatternMachine.{is_blank, is_single, without_first, without_last};

use crate::error::{IRegexpError, IRegexpErrorKind};
use crate::limits::{DEPTH, SIZE};
use crate::token::{Token, next_token};
use std::alloc::{AllocError, Global};
use std::mem;
use text_regexp::{Assertion, Class, Expression};

/// What was parsed of a group, or of the whole: the branches that have ended, the pieces of the
/// last one, and the atom after these, which may be repeated yet.
#[derive(Drop)]
pub(crate) struct Level {
    branches: Vec<Expression>,
    pieces: Vec<Expression>,
    last: Option<Expression>,
    // the size of all that was parsed up to here, with the groups around it, and that of the atom
    size: usize,
    last_size: usize,
}

impl Level {
    /// An empty group, where all before it has this size.
    pub(crate) fn new(alloc: Global, size: usize) -> Level
        ensures read { StandsAt result fresh }
        ensures size { result.size ≡ size }
    {
        Level {
            branches: Vec::new(alloc),
            pieces: Vec::new(alloc),
            last: None,
            size,
            last_size: 0,
        }
    }

    /// The size with this much more, or `None` if that is too large.
    fn grown(&self, more: usize) -> Option<usize>
        ensures { Grows self.now.size more result }
    {
        let size = self.size.saturating_add(more);
        if size > SIZE {
            return None;
        }
        Some(size)
    }

    /// Appends an atom; all that was parsed has the given size then.
    fn put(&mut self, node: Expression, size: usize) -> Result<(), AllocError>
        ensures read { OnOk result ((l : Read) (a : Atom) → StandsAt self.old l
            → Means node (atom_form a) → StandsAt self.new (with_atom l a)) }
        ensures size { OnOk result (self.new.size ≡ size) }
        ensures last_size { OnOk result (self.new.last_size ≡ size - self.old.size) }
    {
        self.settle()?;
        self.last = Some(node);
        self.last_size = size.saturating_sub(self.size);
        self.size = size;
        Ok(())
    }

    /// Appends an assertion; all that was parsed has the given size then.
    fn put_assertion(&mut self, kind: Assertion, size: usize) -> Result<(), AllocError>
        ensures read { OnOk result ((l : Read) → StandsAt self.old l
            → StandsAt self.new (with_assertion l kind)) }
        ensures size { OnOk result (self.new.size ≡ size) }
    {
        self.settle()?;
        self.pieces.push(Expression::assertion(kind))?;
        self.size = size;
        Ok(())
    }

    /// Removes the first piece, if that is asked and there is one.
    pub(crate) fn cut_first(&mut self, first: bool)
        ensures { (l : Read) → StandsAt self.old l
            → StandsAt self.new (cond first (without_first l) l) }
    {
        if !first {
            return;
        }
        if self.pieces.is_empty() {
            return;
        }
        self.pieces.remove(0);
    }

    /// Removes the last piece, if that is asked and there is one.
    pub(crate) fn cut_last(&mut self, last: bool)
        ensures { (l : Read) → StandsAt self.old l
            → StandsAt self.new (cond last (without_last l) l) }
    {
        if !last {
            return;
        }
        self.pieces.pop();
    }

    /// Moves the last atom to the pieces, as it is not repeated.
    fn settle(&mut self) -> Result<(), AllocError>
        ensures read { OnOk result ((l : Read) → StandsAt self.old l
            → StandsAt self.new (settle l)) }
        ensures size { self.new.size ≡ self.old.size }
        ensures last_size { self.new.last_size ≡ self.old.last_size }
    {
        if let Some(node) = self.last.take() {
            self.pieces.push(node)?;
        }
        Ok(())
    }

    /// Ends a branch.
    fn end_branch(&mut self, alloc: Global) -> Result<(), AllocError>
        ensures read { OnOk result ((l : Read) → StandsAt self.old l
            → StandsAt self.new (barred l)) }
        ensures some { OnOk result (0 < vec_len self.new.branches) }
    {
        self.settle()?;
        let pieces = mem::replace(&mut self.pieces, Vec::new(alloc));
        self.branches.push(Expression::sequence_of(alloc, pieces)?)?;
        Ok(())
    }

    /// The tree of the whole.
    pub(crate) fn finish(&mut self, alloc: Global) -> Result<Expression, AllocError>
        ensures { IfOk result (λ n. (l : Read) → StandsAt self.old l
            → Means n (regexp_form (regexp_of l))) }
    {
        self.end_branch(alloc)?;
        let branches = mem::replace(&mut self.branches, Vec::new(alloc));
        Expression::choice_of(alloc, branches)
    }

    /// Whether it is still empty.
    pub(crate) fn is_blank(&self) -> bool
        ensures { (l : Read) → StandsAt self.now l → result ≡ is_blank l }
    {
        if !self.branches.is_empty() {
            return false;
        }
        if !self.pieces.is_empty() {
            return false;
        }
        self.last.is_none()
    }

    /// Whether it has one piece, and nothing else.
    pub(crate) fn is_single(&self) -> bool
        ensures { (l : Read) → StandsAt self.now l → result ≡ is_single l }
    {
        if !self.branches.is_empty() {
            return false;
        }
        if self.pieces.len() != 1 {
            return false;
        }
        self.last.is_none()
    }

    /// Repeats the last atom.
    fn repeat_last(
        &mut self,
        alloc: Global,
        least: usize,
        most: Option<usize>,
    ) -> Result<(), IRegexpErrorKind>
        requires { AtMost least most }
        ensures { Quantifies self.old least most result self.new }
    {
        let Some(node) = self.last.take() else {
            return Err(IRegexpErrorKind::Invalid);
        };
        let more = repeated(least, most).saturating_mul(self.last_size);
        let Some(size) = self.grown(more) else {
            return Err(IRegexpErrorKind::TooLarge);
        };
        self.pieces.push(node.repeat(alloc, least, most)?)?;
        self.size = size;
        Ok(())
    }
}

/// How often a repeated part is written out in addition.
fn repeated(least: usize, most: Option<usize>) -> usize
    ensures { result ≡ repeated least most }
{
    match most {
        None => least,
        Some(most) => most.saturating_sub(1),
    }
}

/// The part of a class in the size of a regular expression: 1, and 1 more for each 16 of its items.
fn size(class: &Class) -> usize
    ensures { result ≡ class_size class.now.items.items }
{
    class.items.len() / 16 + 1
}

/// Accepts a token. `here` is the innermost group, and `outer` has those around it.
pub(crate) fn accept_token(
    alloc: Global,
    outer: &mut Vec<Level>,
    here: &mut Level,
    token: Token,
) -> Result<(), IRegexpErrorKind>
    requires { IsFit (token_of token) }
    ensures { Takes here.old outer.old.items (token_of token) result here.new outer.new.items }
{
    match token {
        Token::Characters(class) => {
            let more = size(&class);
            let Some(size) = here.grown(more) else {
                return Err(IRegexpErrorKind::TooLarge);
            };
            here.put(Expression::one_of(class), size)?;
            Ok(())
        }
        Token::Open => {
            if outer.len() >= DEPTH {
                return Err(IRegexpErrorKind::TooDeep);
            }
            let Some(size) = here.grown(1) else {
                return Err(IRegexpErrorKind::TooLarge);
            };
            outer.push(mem::replace(here, Level::new(alloc, size)))?;
            Ok(())
        }
        Token::Close => {
            let Some(around) = outer.pop() else {
                return Err(IRegexpErrorKind::Invalid);
            };
            let size = here.size;
            let group = here.finish(alloc)?;
            *here = around;
            here.put(group, size)?;
            Ok(())
        }
        Token::Bar => {
            let Some(size) = here.grown(1) else {
                return Err(IRegexpErrorKind::TooLarge);
            };
            here.end_branch(alloc)?;
            here.size = size;
            Ok(())
        }
        Token::Quantifier { least, most } => here.repeat_last(alloc, least, most),
        Token::Assertion(kind) => {
            let Some(size) = here.grown(1) else {
                return Err(IRegexpErrorKind::TooLarge);
            };
            here.put_assertion(kind, size)?;
            Ok(())
        }
    }
}

/// Parses a whole text.
pub(crate) fn read(alloc: Global, text: &[char]) -> Result<Expression, IRegexpError>
    ensures { Reads text.now result }
{
    let mut outer = Vec::new(alloc);
    let mut here = Level::new(alloc, 0);
    let mut rest = text;
    while !rest.is_empty() {
        let place = text.len().saturating_sub(rest.len());
        let (token, after) = match next_token(alloc, rest) {
            Ok(pair) => pair,
            Err(kind) => return Err(IRegexpError { kind, place }),
        };
        if let Err(kind) = accept_token(alloc, &mut outer, &mut here, token) {
            return Err(IRegexpError { kind, place });
        }
        rest = after;
    }
    let place = text.len();
    if !outer.is_empty() {
        return Err(IRegexpError {
            kind: IRegexpErrorKind::Invalid,
            place,
        });
    }
    match here.finish(alloc) {
        Ok(node) => Ok(node),
        Err(_) => Err(IRegexpError {
            kind: IRegexpErrorKind::OutOfMemory,
            place,
        }),
    }
}
