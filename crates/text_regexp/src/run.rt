//! Matching a text: the marks move over its characters.
ghost use Rattle.std.specs.Prelude.{◌≡◌, ◌↔◌, IsTrue, true, false, None, IfSome};
ghost use Rattle.std.specs.Str.{chars};
ghost use Rattle.text_regexp.specs.Forms.{Matches, Searches};
ghost use Rattle.text_regexp.specs.Marked.{cleared, standing, tree_form, is_marked, is_plain};
ghost use Rattle.text_regexp.specs.Marked.{IsKept, Stands};
ghost use Rattle.text_regexp.specs.Work.{Spends};

use crate::marked::Node;
use crate::work::Work;

/// Whether the tree matches the whole text; `None` if that takes more work. It has no marks before and afterwards.
pub(crate) fn matches_whole(
    root: &mut Node,
    plain: bool,
    text: &str,
    work: &mut Work,
) -> Option<bool>
    requires kept { IsKept root.old }
    requires unmarked { is_marked root.old ≡ false }
    requires plain { plain ≡ is_plain root.old }
    requires stood { Stands root.old None None }
    ensures same { root.new ≡ root.old }
    ensures matched { IfSome result (λ b. IsTrue b ↔ Matches (tree_form root.old) (chars text.now)) }
    ensures work { Spends work.old result work.new }
{
    if plain {
        let found = run(root, text, work);
        root.clear();
        return found;
    }
    let found = run_between(root, text, work);
    root.clear();
    root.place_assertions(None, None, &mut 0);
    found
}

/// Whether the tree, which has no marks and no assertions, matches the whole text; `None` if that takes more work. The
/// marks stay where they got to.
fn run(root: &mut Node, text: &str, work: &mut Work) -> Option<bool>
    requires kept { IsKept root.old }
    requires unmarked { is_marked root.old ≡ false }
    requires plain { is_plain root.old ≡ true }
    ensures kept { IsKept root.new }
    ensures same { cleared root.new ≡ root.old }
    ensures matched { IfSome result (λ b. IsTrue b ↔ Matches (tree_form root.old) (chars text.now)) }
    ensures work { Spends work.old result work.new }
{
    let mut seen = 1;
    let mut start = true;
    let mut ends = root.skips();
    for c in text.chars() {
        if work.take(seen).is_none() {
            return None;
        }
        seen = 0;
        let edges = root.shift(start, c, &mut seen);
        if !edges.marked {
            return Some(false);
        }
        if edges.ends && root.is_settled() {
            return Some(true);
        }
        ends = edges.ends;
        start = false;
    }
    Some(ends)
}

/// Whether the tree, which has no marks, matches the whole text; `None` if that takes more work. The marks stay where
/// they got to, and the assertions apply there.
fn run_between(root: &mut Node, text: &str, work: &mut Work) -> Option<bool>
    requires kept { IsKept root.old }
    requires unmarked { is_marked root.old ≡ false }
    ensures kept { IsKept root.new }
    ensures same { standing None None (cleared root.new) ≡ standing None None root.old }
    ensures matched { IfSome result (λ b. IsTrue b ↔ Matches (tree_form root.old) (chars text.now)) }
    ensures work { Spends work.old result work.new }
{
    let mut seen = 1;
    let mut start = true;
    let mut before = None;
    for c in text.chars() {
        if work.take(seen).is_none() {
            return None;
        }
        seen = 0;
        root.place_assertions(before, Some(c), &mut seen);
        let edges = root.shift(start, c, &mut seen);
        if !edges.marked {
            return Some(false);
        }
        start = false;
        before = Some(c);
    }
    let here = root.place_assertions(before, None, &mut 0);
    Some(here.ends | (start & here.skips))
}

/// Whether the tree matches a part of the text. It has no marks before and afterwards.
pub(crate) fn matches_part(root: &mut Node, plain: bool, text: &str) -> bool
    requires kept { IsKept root.old }
    requires unmarked { is_marked root.old ≡ false }
    requires plain { plain ≡ is_plain root.old }
    requires stood { Stands root.old None None }
    ensures same { root.new ≡ root.old }
    ensures matched { IsTrue result ↔ Searches (tree_form root.old) (chars text.now) }
{
    if plain {
        let found = search(root, text);
        root.clear();
        return found;
    }
    let found = search_between(root, text);
    root.clear();
    root.place_assertions(None, None, &mut 0);
    found
}

/// Whether the tree, which has no marks and no assertions, matches a part of the text. The marks
/// stay where they got to.
fn search(root: &mut Node, text: &str) -> bool
    requires kept { IsKept root.old }
    requires unmarked { is_marked root.old ≡ false }
    requires plain { is_plain root.old ≡ true }
    ensures kept { IsKept root.new }
    ensures same { cleared root.new ≡ root.old }
    ensures matched { IsTrue result ↔ Searches (tree_form root.old) (chars text.now) }
{
    if root.skips() {
        return true;
    }
    for c in text.chars() {
        if root.shift(true, c, &mut 0).ends {
            return true;
        }
    }
    false
}

/// Whether the tree, which has no marks, matches a part of the text. The marks stay where they got
/// to, and the assertions apply there.
fn search_between(root: &mut Node, text: &str) -> bool
    requires kept { IsKept root.old }
    requires unmarked { is_marked root.old ≡ false }
    ensures kept { IsKept root.new }
    ensures same { standing None None (cleared root.new) ≡ standing None None root.old }
    ensures matched { IsTrue result ↔ Searches (tree_form root.old) (chars text.now) }
{
    let mut before = None;
    for c in text.chars() {
        let here = root.place_assertions(before, Some(c), &mut 0);
        if here.skips | here.ends {
            return true;
        }
        root.shift(true, c, &mut 0);
        before = Some(c);
    }
    let here = root.place_assertions(before, None, &mut 0);
    here.skips | here.ends
}
