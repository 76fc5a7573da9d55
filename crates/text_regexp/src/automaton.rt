//! An automaton of a regular expression, which is built while texts are matched.
ghost use Rattle.std.specs.Prelude.{◌≡◌, ◌↔◌, ◌∷◌, ◌<◌, ◌≤◌, ℕ, [], List, true, false, IsTrue, IfSome, length};
ghost use Rattle.std.specs.Str.{chars};
ghost use Rattle.text_regexp.specs.Automata.{AreStates, Extends, HasMarksAt, IsRowOf, IsState};
ghost use Rattle.text_regexp.specs.Automata.{Knows, LeadsTo, row_reads};
ghost use Rattle.text_regexp.specs.Building.{form_of};
ghost use Rattle.text_regexp.specs.Forms.{Matches};
ghost use Rattle.text_regexp.specs.Marked.{is_plain, placed, reads};
ghost use Rattle.text_regexp.specs.Work.{Spends};
ghost use Rattle.text_regexp.specs.declared.work.Work.{Work};

use crate::expression::Expression;
use crate::run::matches_whole;
use crate::state::State;
use crate::work::Work;
use std::alloc::Global;
use std::collections::HashMap;

/// How many states are kept.
const STATES: usize = 2_500;

/// How many numbers the lists of their marks have; the last one may go beyond.
const NUMBERS: usize = 400_000;

/// How many characters have steps that are kept: those of ASCII.
const ASCII: usize = 128;

/// A regular expression, and what it remembers of the texts that were matched: to which marks the characters of ASCII
/// lead. A text over these characters, whose marks were all met before, takes one look a character.
///
/// Up to 2,500 states of marks are kept, in up to about 2 MB. A text that leads to another one, or that has other
/// characters, is matched as [`Expression::matches`] does. So it is where memory is refused, and where the expression has
/// an assertion.
///
/// ```
/// let digit = Expression::one_of(Class::single(alloc, Item::Range('0', '9'))?);
/// let mut year = Automaton::new(alloc, digit.repeat(alloc, 4, Some(4))?);
/// assert!(rt; year.matches("2026"));
/// assert!(rt; !year.matches("20261"));
/// ```
#[derive(Drop)]
pub struct Automaton {
    pub(crate) expression: Expression,
    alloc: Global,
    states: Vec<State>,
    /// For the start and each state, and for each character of ASCII: the row of the state after it, from 1, or 0.
    steps: Vec<u16>,
    /// Where the state is whose marks have this sum.
    places: HashMap<usize, usize>,
    /// How many more numbers the lists of marks may have.
    room: usize,
    ghost few: { length states.items ≤ 2500 },
    ghost right: { AreStates expression.root states.items },
    ghost known: { Knows expression.root states.items steps.items },
}

impl Automaton {
    /// The automaton of the regular expression. It takes no memory.
    ///
    /// ```
    /// let digit = Expression::one_of(Class::single(alloc, Item::Range('0', '9'))?);
    /// let mut digit = Automaton::new(alloc, digit);
    /// assert!(rt; !digit.matches("a"));
    /// ```
    pub fn new(alloc: Global, expression: Expression) -> Automaton
        ensures { result.expression ≡ expression }
    {
        Automaton {
            expression,
            alloc,
            states: Vec::new(alloc),
            steps: Vec::new(alloc),
            places: HashMap::new(alloc),
            room: NUMBERS,
        }
    }

    /// Whether it matches the whole text. The time is at most proportional to the product of the sizes of the
    /// expression and the text.
    ///
    /// ```
    /// let letter = Expression::one_of(Class::single(alloc, Item::Range('a', 'z'))?);
    /// let mut word = Automaton::new(alloc, Expression::star(alloc, letter)?);
    /// assert!(rt; word.matches("abba"));
    /// ```
    pub fn matches(&mut self, text: &str) -> bool
        ensures matched { IsTrue result ↔ Matches (form_of self.old.expression) (chars text.now) }
        ensures same { form_of self.new.expression ≡ form_of self.old.expression }
    {
        self.matches_within(text, &mut Work::Unlimited)
            .unwrap_or(false)
    }

    /// Whether it matches the whole text; `None` if that takes more work than is left. Steps that it remembers take no
    /// work. What it takes is taken from the work; without an answer, all is.
    ///
    /// ```
    /// let letter = Expression::one_of(Class::single(alloc, Item::Range('a', 'z'))?);
    /// let mut word = Automaton::new(alloc, Expression::star(alloc, letter)?);
    /// assert!(rt; word.matches_within("abba", &mut Work::AtMost(1_000)) == Some(true));
    /// assert!(rt; word.matches_within("cabbage", &mut Work::AtMost(0)).is_none());
    /// ```
    pub fn matches_within(&mut self, text: &str, work: &mut Work) -> Option<bool>
        ensures matched { IfSome result
            (λ b. IsTrue b ↔ Matches (form_of self.old.expression) (chars text.now)) }
        ensures same { form_of self.new.expression ≡ form_of self.old.expression }
        ensures work { Spends work.old result work.new }
    {
        let plain = self.expression.plain;
        if !plain {
            return matches_whole(&mut self.expression.root, plain, text, work);
        }
        match self.judge(text, work) {
            Some(matches) => Some(matches),
            None => matches_whole(&mut self.expression.root, plain, text, work),
        }
    }

    /// Whether it matches the whole text, as far as the steps lead.
    fn judge(&mut self, text: &str, work: &mut Work) -> Option<bool>
        requires plain { is_plain self.old.expression.root ≡ true }
        ensures matched { IfSome result (λ b. b
            ≡ reads true self.old.expression.root (chars text.now)) }
        ensures same { self.new.expression.root ≡ self.old.expression.root }
        ensures unlimited { work.old ≡ Work.Unlimited → work.new ≡ Work.Unlimited }
    {
        let mut row = 0;
        for c in text.chars() {
            row = self.step(row, c, work)?;
            if let Some(matches) = self.verdict(row) {
                return Some(matches);
            }
        }
        Some(self.ends(row))
    }

    /// Whether each text is matched that goes on from the row, or none is, where that is known.
    #[inline(always)]
    fn verdict(&self, row: usize) -> Option<bool>
        requires row { row ≤ length self.now.states.items }
        requires plain { is_plain self.now.expression.root ≡ true }
        ensures { IfSome result (λ b. (cs : List ℕ) →
            row_reads self.now.expression.root self.now.states.items row cs ≡ b) }
    {
        self.states.get(row.checked_sub(1)?)?.verdict
    }

    /// Whether the text is matched that leads to the row.
    #[inline(always)]
    fn ends(&self, row: usize) -> bool
        requires { row ≤ length self.now.states.items }
        ensures { result ≡ row_reads self.now.expression.root self.now.states.items row [] }
    {
        let Some(place) = row.checked_sub(1) else {
            return self.expression.root.skips();
        };
        match self.states.get(place) {
            Some(state) => state.ends,
            None => false,
        }
    }

    /// The row after the character.
    #[inline(always)]
    fn step(&mut self, row: usize, c: char, work: &mut Work) -> Option<usize>
        requires { row ≤ length self.old.states.items }
        ensures same { self.new.expression.root ≡ self.old.expression.root }
        ensures unlimited { work.old ≡ Work.Unlimited → work.new ≡ Work.Unlimited }
        ensures next { IfSome result (λ next. LeadsTo self.old.expression.root self.old.states.items
            self.new.states.items row c next) }
    {
        let at = c as usize;
        if at >= ASCII {
            return None;
        }
        let known = self.steps.get(row * ASCII + at).copied().unwrap_or(0);
        if known > 0 {
            return Some(known as usize);
        }
        self.grow(row, c, work)
    }

    /// The row after a character of ASCII, which is found by the marks, and then kept.
    #[inline(never)]
    fn grow(&mut self, row: usize, c: char, work: &mut Work) -> Option<usize>
        requires row { row ≤ length self.old.states.items }
        requires ascii { c < 128 }
        ensures same { self.new.expression.root ≡ self.old.expression.root }
        ensures unlimited { work.old ≡ Work.Unlimited → work.new ≡ Work.Unlimited }
        ensures next { IfSome result (λ next. LeadsTo self.old.expression.root self.old.states.items
            self.new.states.items row c next) }
    {
        if self.states.len() >= STATES || self.room == 0 {
            return None;
        }
        self.make_room();
        let state = self.moved(row, c)?;
        work.take(state.marks.len().saturating_mul(4).saturating_add(64))?;
        let next = self.row_of(state)?;
        self.put(row, c, next);
        Some(next)
    }

    /// The state after a character, from the row.
    fn moved(&mut self, row: usize, c: char) -> Option<State>
        requires { row ≤ length self.old.states.items }
        ensures same { self.new.expression.root ≡ self.old.expression.root }
        ensures states { self.new.states ≡ self.old.states }
        ensures right { IfSome result (λ s. IsState self.old.expression.root s) }
        ensures reads { IfSome result (λ s. (cs : List ℕ) →
            reads false (placed self.old.expression.root s.marks.items) cs
            ≡ row_reads self.old.expression.root self.old.states.items row (c ∷ cs)) }
    {
        let Some(place) = row.checked_sub(1) else {
            return State::after(self.alloc, &mut self.expression.root, &[], true, c);
        };
        let marks = self.states.get(place)?.marks.as_slice();
        State::after(self.alloc, &mut self.expression.root, marks, false, c)
    }

    /// The row of the state that has the same marks. If there is none, this one is added.
    fn row_of(&mut self, state: State) -> Option<usize>
        requires right { IsState self.old.expression.root state }
        requires room { length self.old.states.items < 2500 }
        ensures same { self.new.expression.root ≡ self.old.expression.root }
        ensures rows { Extends self.old.states.items self.new.states.items }
        ensures next { IfSome result (λ next. IsRowOf self.new.expression.root
            self.new.states.items next state) }
    {
        let sum = sum_of(state.marks.as_slice());
        match self.place_of(sum, &state) {
            Some(place) => Some(place + 1),
            None => self.add(sum, state),
        }
    }

    /// The place of a state that has the same marks, which have this sum.
    fn place_of(&self, sum: usize, state: &State) -> Option<usize>
        ensures { IfSome result (λ place. HasMarksAt self.now.states.items place
            state.now.marks.items) }
    {
        let place = self.places.get(&sum).copied()?;
        let known = self.states.get(place)?;
        if known.marks.as_slice() != state.marks.as_slice() {
            return None;
        }
        Some(place)
    }

    /// Adds the state, and returns its row.
    fn add(&mut self, sum: usize, state: State) -> Option<usize>
        requires right { IsState self.old.expression.root state }
        requires room { length self.old.states.items < 2500 }
        ensures same { self.new.expression.root ≡ self.old.expression.root }
        ensures rows { Extends self.old.states.items self.new.states.items }
        ensures next { IfSome result (λ next. IsRowOf self.new.expression.root
            self.new.states.items next state) }
    {
        self.room = self.room.saturating_sub(state.marks.len());
        if self.states.push(state).is_err() {
            return None;
        }
        let row = self.states.len();
        if self.places.insert(sum, row - 1).is_err() {
            return None;
        }
        Some(row)
    }

    /// Makes room for the steps from one more row, if there is none for the last one, and there is memory.
    fn make_room(&mut self)
        ensures same { self.new.expression.root ≡ self.old.expression.root }
        ensures states { self.new.states ≡ self.old.states }
    {
        if self.steps.len() > self.states.len() * ASCII {
            return;
        }
        if self.steps.extend_from_slice(&[0; ASCII]).is_err() {
            return;
        }
    }

    /// Keeps the step from the row over a character of ASCII to the other row.
    fn put(&mut self, row: usize, c: char, next: usize)
        requires row { row ≤ length self.old.states.items }
        requires next { (0 < next) × (next ≤ length self.old.states.items) }
        requires ascii { c < 128 }
        requires reads { (cs : List ℕ) →
            row_reads self.old.expression.root self.old.states.items next cs
            ≡ row_reads self.old.expression.root self.old.states.items row (c ∷ cs) }
        ensures same { self.new.expression.root ≡ self.old.expression.root }
        ensures states { self.new.states ≡ self.old.states }
    {
        if let Some(step) = self.steps.get_mut(row * ASCII + c as usize) {
            *step = next as u16;
        }
    }
}

/// A number that is the same for the same marks.
fn sum_of(marks: &[u16]) -> usize {
    let mut sum: usize = 0;
    for mark in marks {
        sum = sum.wrapping_mul(1_000_003).wrapping_add(*mark as usize);
    }
    sum
}
