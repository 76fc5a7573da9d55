//! The tree of a regular expression, with marks where the text read so far can end.
ghost use Rattle.std.specs.Prelude.{◌≡◌, ◌++◌, false, IfOk, OnOk};
ghost use Rattle.text_regexp.specs.Marked.{IsKept, shifted, cleared, skips, is_marked, ends_here};
ghost use Rattle.text_regexp.specs.Marked.{is_empty, is_each, is_any, is_settled, fewer, IsCopy};
ghost use Rattle.text_regexp.specs.Marked.{marks_of, placed, behind, first, rest, standing};

use crate::assertion::Assertion;
use crate::class::Class;
use std::alloc::{AllocError, Global};

/// A regular expression. A class is marked if the text read so far can end with a character of it.
/// The next character then has to follow in the regular expression.
#[derive(Drop)]
pub(crate) enum Node {
    Empty,
    Class {
        class: Class,
        mark: bool,
    },
    Assert {
        assertion: Assertion,
        // whether it holds at this place of text
        holds: bool,
    },
    Concat {
        left: Box<Node>,
        right: Box<Node>,
        // whether each part matches the empty text, and whether the left part can end here
        left_empty: bool,
        right_empty: bool,
        left_ends: bool,
        // whether each part has a mark
        left_marked: bool,
        right_marked: bool,
    },
    Alternation {
        left: Box<Node>,
        right: Box<Node>,
        // whether each branch has a mark
        left_marked: bool,
        right_marked: bool,
    },
    Star {
        body: Box<Node>,
        // whether the body can end here
        body_ends: bool,
    },
    // up to `most` characters of the class
    UpTo {
        class: Class,
        most: usize,
        // how many more may follow, if this is marked
        left: Option<usize>,
    },
}

/// Where the text read so far is in a regular expression.
#[derive(Clone, Copy)]
pub(crate) struct Edges {
    /// Whether it can end here.
    pub(crate) ends: bool,
    /// Whether it can go on from here, as there is a mark.
    pub(crate) marked: bool,
}

/// What a regular expression matches at a place of the text.
#[derive(Clone, Copy)]
pub(crate) struct Placed {
    /// Whether it matches the empty text here.
    pub(crate) skips: bool,
    /// Whether the text read so far can end here.
    pub(crate) ends: bool,
}

impl Node {
    /// Whether it is the tree that matches only the empty text.
    pub(crate) fn is_empty(&self) -> bool
        ensures { result ≡ is_empty self.now }
    {
        matches!(self, Node::Empty)
    }

    /// A copy of the tree.
    pub(crate) fn copy(&self, alloc: Global) -> Result<Node, AllocError>
        ensures { IfOk result (λ n. IsCopy self.now n) }
    {
        match self {
            Node::Empty => Ok(Node::Empty),
            Node::Class { class, mark } => Ok(Node::Class {
                class: class.copy(alloc)?,
                mark: *mark,
            }),
            Node::Assert { assertion, holds } => Ok(Node::Assert {
                assertion: *assertion,
                holds: *holds,
            }),
            Node::Concat {
                left,
                right,
                left_empty,
                right_empty,
                left_ends,
                left_marked,
                right_marked,
            } => Ok(Node::Concat {
                left: Box::new(alloc, left.copy(alloc)?)?,
                right: Box::new(alloc, right.copy(alloc)?)?,
                left_empty: *left_empty,
                right_empty: *right_empty,
                left_ends: *left_ends,
                left_marked: *left_marked,
                right_marked: *right_marked,
            }),
            Node::Alternation {
                left,
                right,
                left_marked,
                right_marked,
            } => Ok(Node::Alternation {
                left: Box::new(alloc, left.copy(alloc)?)?,
                right: Box::new(alloc, right.copy(alloc)?)?,
                left_marked: *left_marked,
                right_marked: *right_marked,
            }),
            Node::Star { body, body_ends } => Ok(Node::Star {
                body: Box::new(alloc, body.copy(alloc)?)?,
                body_ends: *body_ends,
            }),
            Node::UpTo { class, most, left } => Ok(Node::UpTo {
                class: class.copy(alloc)?,
                most: *most,
                left: *left,
            }),
        }
    }

    /// Whether it matches the empty text.
    pub(crate) fn skips(&self) -> bool
        ensures { result ≡ skips self.now }
    {
        match self {
            Node::Empty => true,
            Node::Class { .. } => false,
            Node::Assert { holds, .. } => *holds,
            Node::Concat { left, right, .. } => left.skips() && right.skips(),
            Node::Alternation { left, right, .. } => left.skips() || right.skips(),
            Node::Star { .. } | Node::UpTo { .. } => true,
        }
    }

    /// Whether it has a mark.
    pub(crate) fn is_marked(&self) -> bool
        ensures { result ≡ is_marked self.now }
    {
        match self {
            Node::Empty | Node::Assert { .. } => false,
            Node::Class { mark, .. } => *mark,
            Node::Concat {
                left_marked,
                right_marked,
                ..
            }
            | Node::Alternation {
                left_marked,
                right_marked,
                ..
            } => *left_marked || *right_marked,
            Node::Star { body, .. } => body.is_marked(),
            Node::UpTo { left, .. } => left.is_some(),
        }
    }

    /// Whether this is a class that has each character.
    fn is_each(&self) -> bool
        ensures { result ≡ is_each self.now }
    {
        match self {
            Node::Class { class, .. } => class.negated && class.items.is_empty(),
            _ => false,
        }
    }

    /// Whether this matches each text, as what is behind a branch that need not end with the text.
    fn is_any(&self) -> bool
        ensures { result ≡ is_any self.now }
    {
        match self {
            Node::Star { body, .. } => body.is_each(),
            _ => false,
        }
    }

    /// Whether the marks are so that the text is matched whatever follows.
    pub(crate) fn is_settled(&self) -> bool
        ensures { result ≡ is_settled self.now }
    {
        match self {
            Node::Empty | Node::Class { .. } | Node::Assert { .. } | Node::UpTo { .. } => false,
            Node::Concat {
                right,
                left_ends,
                ..
            } => { right.is_settled() || (*left_ends && right.is_any()) }
            Node::Alternation { left, right, .. } => left.is_settled() || right.is_settled(),
            Node::Star { body, body_ends } => *body_ends && body.is_each(),
        }
    }

    /// Appends the marks to a list: for each part whether it has any, and if so those of its parts.
    ///
    /// # Errors
    ///
    /// Memory is refused, or a count is 65,536 or more.
    pub(crate) fn list_marks(&self, list: &mut Vec<u16>) -> Result<(), AllocError>
        ensures { OnOk result (list.new.items ≡ list.old.items ++ marks_of self.now) }
    {
        match self {
            Node::Empty | Node::Assert { .. } => {}
            Node::Class { mark, .. } => list.push(if *mark { 1 } else { 0 })?,
            Node::Concat {
                left,
                right,
                left_marked,
                right_marked,
                ..
            }
            | Node::Alternation {
                left,
                right,
                left_marked,
                right_marked,
            } => {
                if !(*left_marked | *right_marked) {
                    list.push(0)?;
                    return Ok(());
                }
                list.push(1)?;
                left.list_marks(list)?;
                right.list_marks(list)?;
            }
            Node::Star { body, .. } => body.list_marks(list)?,
            Node::UpTo { left: None, .. } => list.push(0)?,
            Node::UpTo {
                left: Some(count),
                ..
            } => {
                list.push(1)?;
                list.push(narrow(*count)?)?;
            }
        }
        Ok(())
    }

    /// Sets the marks of a list in a tree that has none. Returns the rest of the list, and where
    /// the text is then.
    pub(crate) fn set_marks<'a>(&mut self, list: &'a [u16]) -> (&'a [u16], Edges)
        requires kept { IsKept self.old }
        requires unmarked { is_marked self.old ≡ false }
        ensures marks { self.new ≡ placed self.old list.now }
        ensures rest { result.0.now ≡ behind self.old list.now }
        ensures ends { result.1.ends ≡ ends_here self.new }
        ensures marked { result.1.marked ≡ is_marked self.new }
    {
        match self {
            Node::Empty | Node::Assert { .. } => (
                list,
                Edges {
                    ends: false,
                    marked: false,
                },
            ),
            Node::Class { mark, .. } => {
                let (first, rest) = split(list);
                *mark = first > 0;
                (
                    rest,
                    Edges {
                        ends: *mark,
                        marked: *mark,
                    },
                )
            }
            Node::Concat {
                left,
                right,
                right_empty,
                left_ends,
                left_marked,
                right_marked,
                ..
            } => {
                let (first, rest) = split(list);
                if first == 0 {
                    return (
                        rest,
                        Edges {
                            ends: false,
                            marked: false,
                        },
                    );
                }
                let (rest, on_left) = left.set_marks(rest);
                *left_ends = on_left.ends;
                *left_marked = on_left.marked;
                let (rest, on_right) = right.set_marks(rest);
                *right_marked = on_right.marked;
                (
                    rest,
                    Edges {
                        ends: on_right.ends | (on_left.ends & *right_empty),
                        marked: on_left.marked | on_right.marked,
                    },
                )
            }
            Node::Alternation {
                left,
                right,
                left_marked,
                right_marked,
            } => {
                let (first, rest) = split(list);
                if first == 0 {
                    return (
                        rest,
                        Edges {
                            ends: false,
                            marked: false,
                        },
                    );
                }
                let (rest, on_left) = left.set_marks(rest);
                *left_marked = on_left.marked;
                let (rest, on_right) = right.set_marks(rest);
                *right_marked = on_right.marked;
                (
                    rest,
                    Edges {
                        ends: on_left.ends | on_right.ends,
                        marked: on_left.marked | on_right.marked,
                    },
                )
            }
            Node::Star { body, body_ends } => {
                let (rest, in_body) = body.set_marks(list);
                *body_ends = in_body.ends;
                (rest, in_body)
            }
            Node::UpTo { most, left, .. } => {
                let (first, rest) = split(list);
                if first == 0 {
                    return (
                        rest,
                        Edges {
                            ends: false,
                            marked: false,
                        },
                    );
                }
                let (count, rest) = split(rest);
                let count = count as usize;
                *left = (count <= *most).then_some(count);
                (
                    rest,
                    Edges {
                        ends: left.is_some(),
                        marked: left.is_some(),
                    },
                )
            }
        }
    }

    /// Removes all marks, as `clear` does. Where there is none, nothing is done.
    #[cycle(clear)]
    fn clear_if(&mut self, marked: bool)
        requires kept { IsKept self.old }
        requires marked { marked ≡ is_marked self.old }
        ensures { self.new ≡ cleared self.old }
    {
        if !marked {
            return;
        }
        self.clear();
    }

    /// Removes all marks. Parts without marks are passed over.
    #[cycle(clear)]
    pub(crate) fn clear(&mut self)
        requires { IsKept self.old }
        ensures { self.new ≡ cleared self.old }
    {
        match self {
            Node::Empty | Node::Assert { .. } => {}
            Node::Class { mark, .. } => *mark = false,
            Node::Concat {
                left,
                right,
                left_ends,
                left_marked,
                right_marked,
                ..
            } => {
                left.clear_if(*left_marked);
                right.clear_if(*right_marked);
                *left_ends = false;
                *left_marked = false;
                *right_marked = false;
            }
            Node::Alternation {
                left,
                right,
                left_marked,
                right_marked,
            } => {
                left.clear_if(*left_marked);
                right.clear_if(*right_marked);
                *left_marked = false;
                *right_marked = false;
            }
            Node::Star { body, body_ends } => {
                body.clear();
                *body_ends = false;
            }
            Node::UpTo { left, .. } => *left = None,
        }
    }

    /// Places the assertions, and what the tree keeps, between the two characters. Returns what is
    /// matched there. Counts what is looked at.
    pub(crate) fn place_assertions(
        &mut self,
        before: Option<char>,
        after: Option<char>,
        seen: &mut usize,
    ) -> Placed
        ensures stood { self.new ≡ standing before after self.old }
        ensures skips { result.skips ≡ skips self.new }
        ensures ends { result.ends ≡ ends_here self.new }
    {
        look(seen, 1);
        match self {
            Node::Empty => Placed {
                skips: true,
                ends: false,
            },
            Node::Class { mark, .. } => Placed {
                skips: false,
                ends: *mark,
            },
            Node::Assert { assertion, holds } => {
                *holds = assertion.holds(before, after);
                Placed {
                    skips: *holds,
                    ends: false,
                }
            }
            Node::Concat {
                left,
                right,
                left_empty,
                right_empty,
                left_ends,
                ..
            } => {
                let on_left = left.place_assertions(before, after, seen);
                *left_empty = on_left.skips;
                *left_ends = on_left.ends;
                let on_right = right.place_assertions(before, after, seen);
                *right_empty = on_right.skips;
                Placed {
                    skips: on_left.skips & on_right.skips,
                    ends: on_right.ends | (on_left.ends & on_right.skips),
                }
            }
            Node::Alternation { left, right, .. } => {
                let on_left = left.place_assertions(before, after, seen);
                let on_right = right.place_assertions(before, after, seen);
                Placed {
                    skips: on_left.skips | on_right.skips,
                    ends: on_left.ends | on_right.ends,
                }
            }
            Node::Star { body, body_ends } => {
                let in_body = body.place_assertions(before, after, seen);
                *body_ends = in_body.ends;
                Placed {
                    skips: true,
                    ends: in_body.ends,
                }
            }
            Node::UpTo { left, .. } => Placed {
                skips: true,
                ends: left.is_some(),
            },
        }
    }

    /// Moves the marks over a character, as `shift` does. Where the text does not begin here and
    /// there is no mark, nothing is done.
    #[cycle(shift)]
    fn step(&mut self, marked: bool, start: bool, c: char, seen: &mut usize) -> Edges
        requires kept { IsKept self.old }
        requires marked { marked ≡ is_marked self.old }
        ensures marks { self.new ≡ shifted start c self.old }
        ensures ends { result.ends ≡ ends_here self.new }
        ensures marked { result.marked ≡ is_marked self.new }
    {
        if !(start | marked) {
            return Edges {
                ends: false,
                marked: false,
            };
        }
        self.shift(start, c, seen)
    }

    /// Moves the marks over a character, each to the classes that may follow. With `start`, the
    /// text may also begin with this character. Returns where the
    /// text is after it. Counts the parts, and the items of classes, that are looked at.
    #[cycle(shift)]
    pub(crate) fn shift(&mut self, start: bool, c: char, seen: &mut usize) -> Edges
        requires { IsKept self.old }
        ensures marks { self.new ≡ shifted start c self.old }
        ensures ends { result.ends ≡ ends_here self.new }
        ensures marked { result.marked ≡ is_marked self.new }
    {
        look(seen, 1);
        match self {
            Node::Empty | Node::Assert { .. } => Edges {
                ends: false,
                marked: false,
            },
            Node::Class { class, mark } => {
                look(seen, if start { class.items.len() } else { 0 });
                *mark = start && class.contains(c);
                Edges {
                    ends: *mark,
                    marked: *mark,
                }
            }
            Node::Concat {
                left,
                right,
                left_empty,
                right_empty,
                left_ends,
                left_marked,
                right_marked,
            } => {
                let enters = *left_ends | (start & *left_empty);
                let on_left = left.step(*left_marked, start, c, seen);
                *left_ends = on_left.ends;
                *left_marked = on_left.marked;
                let on_right = right.step(*right_marked, enters, c, seen);
                *right_marked = on_right.marked;
                Edges {
                    ends: on_right.ends | (on_left.ends & *right_empty),
                    marked: on_left.marked | on_right.marked,
                }
            }
            Node::Alternation {
                left,
                right,
                left_marked,
                right_marked,
            } => {
                let on_left = left.step(*left_marked, start, c, seen);
                *left_marked = on_left.marked;
                let on_right = right.step(*right_marked, start, c, seen);
                *right_marked = on_right.marked;
                Edges {
                    ends: on_left.ends | on_right.ends,
                    marked: on_left.marked | on_right.marked,
                }
            }
            Node::Star { body, body_ends } => {
                let in_body = body.shift(start | *body_ends, c, seen);
                *body_ends = in_body.ends;
                in_body
            }
            Node::UpTo { class, most, left } => {
                look(seen, class.items.len());
                *left = fewer(class, if start { Some(*most) } else { *left }, c);
                Edges {
                    ends: left.is_some(),
                    marked: left.is_some(),
                }
            }
        }
    }
}

/// Counts what is looked at.
#[inline(always)]
fn look(seen: &mut usize, more: usize) {
    *seen = seen.wrapping_add(more);
}

/// The count as a number of a list, if it fits.
fn narrow(count: usize) -> Result<u16, AllocError>
    ensures { IfOk result (λ n. n ≡ count) }
{
    match u16::try_from(count) {
        Ok(count) => Ok(count),
        Err(_) => Err(AllocError),
    }
}

/// The first number, or 0 if there is none, and the numbers behind it.
fn split(list: &[u16]) -> (u16, &[u16])
    ensures first { result.0 ≡ first list.now }
    ensures rest { result.1.now ≡ rest list.now }
{
    match list.split_first() {
        Some((first, rest)) => (*first, rest),
        None => (0, list),
    }
}

/// How many characters of the class may follow `c`, if `count` of them may begin with it.
fn fewer(class: &Class, count: Option<usize>, c: char) -> Option<usize>
    ensures { result ≡ fewer class.now count c }
{
    match count {
        Some(count) if class.contains(c) => count.checked_sub(1),
        _ => None,
    }
}
