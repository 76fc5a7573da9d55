//! Regular expressions that an input describes, what they match, and what work that takes.

use crate::inputs::{Inputs, text_of};
use crate::reply::Reply;
use std::alloc::Global;
use std::io::{self, ErrorKind};
use text_regexp::{Assertion, Automaton, Class, Expression, Item, Work};

/// The first input describes the expression, and the others are texts; for `matches_within` and an automaton texts with the work that
/// each may take before it.
pub fn answer(reply: &mut Reply, name: &str, inputs: &Inputs) -> io::Result<bool> {
    match name {
        "matches" => matched(reply, inputs)?,
        "searches" => found(reply, inputs)?,
        "matches_within" => within(reply, inputs)?,
        "Automaton" => in_turn(reply, inputs)?,
        _ => return Ok(false),
    }
    Ok(true)
}

fn matched(reply: &mut Reply, inputs: &Inputs) -> io::Result<()> {
    let mut expression = built(reply.alloc, inputs.text(0))?;
    for text in inputs.from(1) {
        reply.shown(expression.matches(text.as_str()))?;
    }
    Ok(())
}

fn found(reply: &mut Reply, inputs: &Inputs) -> io::Result<()> {
    let mut expression = built(reply.alloc, inputs.text(0))?;
    for text in inputs.from(1) {
        reply.shown(expression.searches(text.as_str()))?;
    }
    Ok(())
}

fn within(reply: &mut Reply, inputs: &Inputs) -> io::Result<()> {
    let mut expression = built(reply.alloc, inputs.text(0))?;
    for pair in inputs.from(1).chunks(2) {
        if let [units, text] = pair {
            let mut work = work_of(units.as_str());
            let matches = expression.matches_within(text.as_str(), &mut work);
            judged(reply, matches, work)?;
        }
    }
    Ok(())
}

fn in_turn(reply: &mut Reply, inputs: &Inputs) -> io::Result<()> {
    let mut automaton = Automaton::new(reply.alloc, built(reply.alloc, inputs.text(0))?);
    for pair in inputs.from(1).chunks(2) {
        if let [units, text] = pair {
            asked(reply, &mut automaton, units.as_str(), text.as_str())?;
        }
    }
    Ok(())
}

/// What an automaton answers, without a bound on the work where no number is there.
fn asked(reply: &mut Reply, automaton: &mut Automaton, units: &str, text: &str) -> io::Result<()> {
    if units.is_empty() {
        return reply.shown(automaton.matches(text));
    }
    let mut work = work_of(units);
    let matches = automaton.matches_within(text, &mut work);
    judged(reply, matches, work)
}

/// This much work, or any where it is no number.
pub fn work_of(units: &str) -> Work {
    match units.parse::<usize>() {
        Ok(units) => Work::AtMost(units),
        Err(_) => Work::Unlimited,
    }
}

/// An answer, or `none`, and what work is left.
pub fn judged(reply: &mut Reply, answer: Option<bool>, work: Work) -> io::Result<()> {
    match answer {
        Some(answer) => reply.shown(answer)?,
        None => reply.word("none")?,
    }
    match work {
        Work::AtMost(units) => reply.shown(units),
        Work::Unlimited => reply.word("unlimited"),
    }
}

/// Expressions that are not yet part of another, and items of the next class.
#[derive(Drop)]
struct Builder {
    alloc: Global,
    items: Vec<Item>,
    parts: Vec<Expression>,
}

/// The expression that these words build, one after the other. `range=DIGITS` is an item of the next class, by its first and its last
/// character. `class`, `negated` and `single=DIGITS` are classes; the names of assertions, and `empty`, are expressions too. `star`,
/// `repeat=LEAST,MOST`, `concat`, `sequence=N` and `choice=N` take the last expressions.
fn built(alloc: Global, words: &str) -> io::Result<Expression> {
    let mut built = Builder {
        alloc,
        items: Vec::new(alloc),
        parts: Vec::new(alloc),
    };
    for word in words.split(' ') {
        let (name, content) = word.split_once('=').unwrap_or((word, ""));
        built.add(name, content)?;
    }
    built.part()
}

impl Builder {
    fn add(&mut self, name: &str, content: &str) -> io::Result<()> {
        if name == "range" {
            self.items.push(range(self.alloc, content)?)?;
            return Ok(());
        }
        let added = match assertion(name) {
            Some(kind) => Expression::assertion(kind),
            None => self.made(name, content)?,
        };
        self.parts.push(added)?;
        Ok(())
    }

    fn made(&mut self, name: &str, content: &str) -> io::Result<Expression> {
        match name {
            "single" => self.single(content),
            "class" => self.class(false),
            "negated" => self.class(true),
            "star" => self.star(),
            "repeat" => self.repeat(content),
            "concat" => self.concat(),
            "sequence" => self.sequence(content),
            "choice" => self.choice(content),
            _ => Ok(Expression::empty()),
        }
    }

    fn single(&mut self, content: &str) -> io::Result<Expression> {
        let item = range(self.alloc, content)?;
        Ok(Expression::one_of(Class::single(self.alloc, item)?))
    }

    fn class(&mut self, negated: bool) -> io::Result<Expression> {
        let items = self.items.split_off(0)?;
        Ok(Expression::one_of(Class { negated, items }))
    }

    fn star(&mut self) -> io::Result<Expression> {
        Ok(Expression::star(self.alloc, self.part()?)?)
    }

    fn repeat(&mut self, content: &str) -> io::Result<Expression> {
        let part = self.part()?;
        let (least, most) = content.split_once(',').unwrap_or((content, ""));
        let least = least.parse::<usize>().unwrap_or(0);
        repeated(self.alloc, &part, least, most.parse::<usize>().ok())
    }

    fn concat(&mut self) -> io::Result<Expression> {
        let right = self.part()?;
        Ok(Expression::concat(self.alloc, self.part()?, right)?)
    }

    fn sequence(&mut self, count: &str) -> io::Result<Expression> {
        Ok(Expression::sequence_of(self.alloc, self.last(count)?)?)
    }

    fn choice(&mut self, count: &str) -> io::Result<Expression> {
        let branches = self.last(count)?;
        if branches.is_empty() {
            return Err(invalid());
        }
        Ok(Expression::choice_of(self.alloc, branches)?)
    }

    /// Takes the last expression.
    fn part(&mut self) -> io::Result<Expression> {
        match self.parts.pop() {
            Some(part) => Ok(part),
            None => Err(invalid()),
        }
    }

    /// Takes the last expressions.
    fn last(&mut self, count: &str) -> io::Result<Vec<Expression>> {
        let count = count.parse::<usize>().unwrap_or(0);
        let place = self.parts.len().saturating_sub(count);
        Ok(self.parts.split_off(place)?)
    }
}

fn repeated(
    alloc: Global,
    part: &Expression,
    least: usize,
    most: Option<usize>,
) -> io::Result<Expression> {
    let Some(most) = most else {
        return Ok(part.repeat(alloc, least, None)?);
    };
    if most < least {
        return Err(invalid());
    }
    Ok(part.repeat(alloc, least, Some(most))?)
}

fn assertion(name: &str) -> Option<Assertion> {
    match name {
        "Start" => Some(Assertion::Start),
        "End" => Some(Assertion::End),
        "WordBoundary" => Some(Assertion::WordBoundary),
        "NotWordBoundary" => Some(Assertion::NotWordBoundary),
        _ => None,
    }
}

/// The range from the first of two characters to the last.
fn range(alloc: Global, content: &str) -> io::Result<Item> {
    let text = text_of(alloc, content)?;
    let mut characters = text.chars();
    match (characters.next(), characters.next()) {
        (Some(first), Some(last)) => Ok(Item::Range(first, last)),
        _ => Err(invalid()),
    }
}

fn invalid() -> io::Error {
    io::Error::new(ErrorKind::InvalidInput, "an input describes no expression")
}
