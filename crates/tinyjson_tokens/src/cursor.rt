//! The place among the characters of an iterator.
ghost use Rattle.std.specs.Prelude.{◌≡◌, ◌+◌, ◌<◌, ◌≤◌, ◌∷◌, [], List, ℕ, false, None, IfSome};
ghost use Rattle.std.specs.Prelude.{OnOk, Option, length};
ghost use Rattle.std.specs.Iterator.{IsFinite};
ghost use Rattle.tinyjson_tokens.specs.Cursor.{Ready, Begins, Gives, Goes, HasPlace, Runs, Skips};
ghost use Rattle.tinyjson_tokens.specs.Cursor.{EndsRun, Shows, left, place};
ghost use Rattle.tinyjson_tokens.specs.Cursor.Laws.{nothing_left, shown_first, shown_once};
ghost use Rattle.tinyjson_grammar.specs.Characters.{is_white, text};
ghost use Rattle.tinyjson_grammar.specs.Position.{advance, position_at, origin};

use crate::source::Source;
use crate::utf16::push;
use std::alloc::AllocError;
use tinyjson_bytes::{Class, Digit, Plain, is_white};

/// The characters that are left, one of which may have been looked at, and the position.
#[derive(Drop)]
pub struct Cursor<I> {
    pub it: I,
    pub peeked: Option<char>,
    /// The iterator has given its end, and is not called again.
    pub done: bool,
    pub line: usize,
    pub column: usize,
}

/// The characters of an iterator.
#[derive(Drop)]
pub struct Characters<I>
where
    I: Iterator<Item = char>,
{
    pub cursor: Cursor<I>,
    pub ghost ready: { ∥ Ready I.can_next I.remaining cursor ∥₁ },
    pub ghost line_fits: { cursor.line < 18446744073709551616 },
    pub ghost column_fits: { cursor.column < 18446744073709551616 },
}

/// The line and the column after a character.
fn advance(line: usize, column: usize, c: char) -> (usize, usize)
    ensures { position_at result.0 result.1 ≡ advance (position_at line column) (c ∷ []) }
{
    if c == '\n' {
        (line.saturating_add(1), 0)
    } else {
        (line, column.saturating_add(1))
    }
}

impl<I: Iterator<Item = char>> Cursor<I> {
    /// Takes characters of a class straight from the iterator, and looks at the character after them.
    fn draw_run<C: Class>(&mut self, string: &mut String) -> Result<(), AllocError>
        requires ready { Ready I.can_next I.remaining self.old }
        requires place { HasPlace self.old }
        requires none { self.old.peeked ≡ None }
        requires more { self.old.done ≡ false }
        requires line { C.test 10 ≡ false }
        ensures ready { Ready I.can_next I.remaining self.new }
        ensures place { HasPlace self.new }
        ensures run { Runs I.next_gives C.test self.old (text string.old) result
            (text string.new) self.new }
        ensures stops { OnOk result (EndsRun C.test self.new) }
        ensures left { left I.remaining self.new ≤ left I.remaining self.old }
        ensures fewer { OnOk result (left I.remaining self.new + length (text string.new)
            ≤ left I.remaining self.old + length (text string.old)) }
    {
        let mut column = self.column;
        loop {
            let next = self.it.next();
            match next {
                Some(c) if C::passes(c) => {
                    if push(string, c).is_err() {
                        self.peeked = next;
                        self.column = column;
                        return Err(AllocError);
                    }
                    column = column.saturating_add(1);
                }
                _ => {
                    self.peeked = next;
                    self.done = next.is_none();
                    self.column = column;
                    return Ok(());
                }
            }
        }
    }

    /// Takes white space straight from the iterator, and shows what follows it.
    fn draw_white(&mut self) -> Option<char>
        requires ready { Ready I.can_next I.remaining self.old }
        requires place { HasPlace self.old }
        requires none { self.old.peeked ≡ None }
        requires more { self.old.done ≡ false }
        ensures ready { Ready I.can_next I.remaining self.new }
        ensures place { HasPlace self.new }
        ensures white { Skips I.next_gives is_white self.old self.new }
        ensures shows { Shows self.new result }
        ensures stops { IfSome result (λ c. is_white c ≡ false) }
        ensures left { left I.remaining self.new ≤ left I.remaining self.old }
    {
        loop {
            let next = self.it.next();
            match next {
                Some(c) if is_white(c) => {
                    let (line, column) = advance(self.line, self.column, c);
                    self.line = line;
                    self.column = column;
                }
                _ => {
                    self.peeked = next;
                    self.done = next.is_none();
                    return next;
                }
            }
        }
    }
}

impl<I: Iterator<Item = char>> Characters<I> {
    /// The source that gives what the iterator gives, up to its first end, from line 1, column 0 on.
    pub fn new(it: I) -> Self
        requires can { I.can_next it }
        requires finite { IsFinite (I.remaining it) }
        ensures gives { (xs : List ℕ) → Begins I.next_gives it xs →
            Gives I.next_gives result.cursor xs }
        ensures start { place result.cursor ≡ origin }
    {
        Characters {
            cursor: Cursor {
                it,
                peeked: None,
                done: false,
                line: 1,
                column: 0,
            },
        }
    }

    /// What the ghost field says: until the end came, the iterator may be called, and ends.
    fn ready(&self)
        ensures { Ready I.can_next I.remaining self.now.cursor }
    {}

    /// Takes the character that was looked at.
    #[inline(always)]
    fn pass(&mut self, c: char)
        requires { self.old.cursor.peeked ≡ Some c }
        ensures takes { Goes I.next_gives self.old.cursor (c ∷ []) self.new.cursor }
        ensures none { self.new.cursor.peeked ≡ None }
        ensures left { left I.remaining self.new.cursor < left I.remaining self.old.cursor }
    {
        let (line, column) = advance(self.cursor.line, self.cursor.column, c);
        self.cursor.peeked = None;
        self.cursor.line = line;
        self.cursor.column = column;
    }

    /// Takes the characters of a class that come next, none of which was looked at.
    fn take_run<C: Class>(&mut self, string: &mut String) -> Result<(), AllocError>
        requires none { self.old.cursor.peeked ≡ None }
        requires line { C.test 10 ≡ false }
        ensures run { Runs I.next_gives C.test self.old.cursor (text string.old) result
            (text string.new) self.new.cursor }
        ensures stops { OnOk result (EndsRun C.test self.new.cursor) }
        ensures still { (o : Option ℕ) → Shows self.old.cursor o → Shows self.new.cursor o }
        ensures left { left I.remaining self.new.cursor ≤ left I.remaining self.old.cursor }
        ensures fewer { OnOk result
            (left I.remaining self.new.cursor + length (text string.new)
            ≤ left I.remaining self.old.cursor + length (text string.old)) }
    {
        self.ready();
        if self.cursor.done {
            return Ok(());
        }
        self.cursor.draw_run::<C>(string)
    }

    /// Takes the characters of a class that come next.
    fn run<C: Class>(&mut self, string: &mut String) -> Result<(), AllocError>
        requires line { C.test 10 ≡ false }
        ensures run { Runs I.next_gives C.test self.old.cursor (text string.old) result
            (text string.new) self.new.cursor }
        ensures stops { OnOk result (EndsRun C.test self.new.cursor) }
        ensures still { OnOk result (text string.new ≡ text string.old →
            (o : Option ℕ) → Shows self.old.cursor o → Shows self.new.cursor o) }
        ensures left { left I.remaining self.new.cursor ≤ left I.remaining self.old.cursor }
        ensures fewer { OnOk result
            (left I.remaining self.new.cursor + length (text string.new)
            ≤ left I.remaining self.old.cursor + length (text string.old)) }
    {
        let Some(c) = self.cursor.peeked else {
            return self.take_run::<C>(string);
        };
        if !C::passes(c) {
            return Ok(());
        }
        push(string, c)?;
        self.pass(c);
        self.take_run::<C>(string)
    }

    /// Passes over the white space that comes next, none of which was looked at, and shows what follows it.
    fn take_white(&mut self) -> Option<char>
        requires { self.old.cursor.peeked ≡ None }
        ensures white { Skips I.next_gives is_white self.old.cursor self.new.cursor }
        ensures shows { Shows self.new.cursor result }
        ensures stops { IfSome result (λ c. is_white c ≡ false) }
        ensures left { left I.remaining self.new.cursor ≤ left I.remaining self.old.cursor }
    {
        self.ready();
        if self.cursor.done {
            return None;
        }
        self.cursor.draw_white()
    }
}

impl<I: Iterator<Item = char>> Source for Characters<I> {
    ghost sight = { record {
      gives = λ p. Gives I.next_gives p.cursor;
      shows = λ p. Shows p.cursor;
      place = λ p. place p.cursor;
      line_fits = λ p. p.line_fits;
      column_fits = λ p. p.column_fits;
      one = λ p. shown_once p.cursor;
      first = λ p. shown_first I.next_gives p.cursor;
      none = λ p. nothing_left I.next_gives p.cursor;
    } };

    ghost left = { λ p. left I.remaining p.cursor };

    ghost lent = { λ p. [] };

    fn peek(&mut self) -> Option<char> {
        self.ready();
        if self.cursor.peeked.is_some() || self.cursor.done {
            return self.cursor.peeked;
        }
        let next = self.cursor.it.next();
        self.cursor.peeked = next;
        self.cursor.done = next.is_none();
        next
    }

    #[inline(always)]
    fn bump(&mut self) -> Option<char> {
        let next = self.peek();
        if let Some(c) = next {
            self.pass(c);
        }
        next
    }

    fn skip_white(&mut self) -> Option<char> {
        let next = self.peek();
        match next {
            Some(c) if is_white(c) => {
                self.pass(c);
                self.take_white()
            }
            _ => next,
        }
    }

    fn plain(&mut self, string: &mut String) -> Result<(), AllocError> {
        self.run::<Plain>(string)
    }

    fn lent(&self) -> &str {
        ""
    }

    fn digits(&mut self, buffer: &mut String) -> Result<(), AllocError> {
        self.run::<Digit>(buffer)
    }

    fn position(&self) -> (usize, usize) {
        (self.cursor.line, self.cursor.column)
    }
}
