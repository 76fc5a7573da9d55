//! The outermost branches of a schema's pattern, with their look-aheads, as trees.

use text_regexp::{Automaton, Expression};

/// A look-ahead: a tree of the texts before which it holds, or does not hold if it is negated.
#[derive(Drop)]
pub(crate) struct Look {
    pub(crate) negated: bool,
    pub(crate) root: Expression,
}

/// An outermost branch: its look-aheads, and an automaton of the texts that it matches a part of.
#[derive(Drop)]
pub(crate) struct Case {
    pub(crate) looks: Vec<Look>,
    pub(crate) root: Automaton,
}
