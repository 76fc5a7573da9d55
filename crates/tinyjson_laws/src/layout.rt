//! Laws of layout: the written texts, said once more in the plainest way.
ghost use Rattle.tinyjson_laws.specs.Layout.{CompactLayout, IndentedLayout};

/// The compact text of a tree: no white space, a comma between two items or members.
#[tactic(auto, using(crate::proofs::LayoutLaws::compact_layout))]
pub fn compact_layout()
    ensures { CompactLayout }
{}

/// The indented text of a tree: each item and member on a line of its own, after its indent.
#[tactic(auto, using(crate::proofs::LayoutLaws::indented_layout))]
pub fn indented_layout()
    ensures { IndentedLayout }
{}
