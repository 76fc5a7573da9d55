//! Marks that a text has moved to.
ghost use Rattle.std.specs.Prelude.{◌≡◌, ◌∷◌, ℕ, List, true, false, IfSome};
ghost use Rattle.text_regexp.specs.Automata.{IsState};
ghost use Rattle.text_regexp.specs.Marked.{IsKept, is_marked, placed, reads, verdict_in};

use crate::marked::Node;
use std::alloc::Global;

/// Marks that a text has moved to.
#[derive(Drop)]
pub(crate) struct State {
    /// The marks of a tree, as a list.
    pub(crate) marks: Vec<u16>,
    /// Whether a text can end here.
    pub(crate) ends: bool,
    /// Whether each text is matched that goes on from here, or none is, where that is known.
    pub(crate) verdict: Option<bool>,
}

impl State {
    /// The state after a character, from these marks of the tree. It has none before and afterwards.
    pub(crate) fn after(
        alloc: Global,
        tree: &mut Node,
        marks: &[u16],
        start: bool,
        c: char,
    ) -> Option<State>
        requires kept { IsKept tree.old }
        requires unmarked { is_marked tree.old ≡ false }
        ensures same { tree.new ≡ tree.old }
        ensures right { IfSome result (λ s. IsState tree.old s) }
        ensures reads { IfSome result (λ s. (cs : List ℕ) →
            reads false (placed tree.old s.marks.items) cs
            ≡ reads start (placed tree.old marks.now) (c ∷ cs)) }
    {
        let _rest = tree.set_marks(marks);
        let edges = tree.shift(start, c, &mut 0);
        let verdict = verdict_of(tree, edges.marked);
        let mut marks = Vec::new(alloc);
        let listed = tree.list_marks(&mut marks);
        tree.clear();
        let Ok(()) = listed else {
            return None;
        };
        Some(State {
            marks,
            ends: edges.ends,
            verdict,
        })
    }
}

/// Whether each text is matched that goes on from the marks, or none is, where that is plain.
fn verdict_of(tree: &Node, marked: bool) -> Option<bool>
    requires { marked ≡ is_marked tree.now }
    ensures { result ≡ verdict_in tree.now }
{
    if !marked {
        return Some(false);
    }
    if tree.is_settled() {
        return Some(true);
    }
    None
}
