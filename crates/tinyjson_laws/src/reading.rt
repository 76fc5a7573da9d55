//! Laws of reading: texts, and the trees that they have.
ghost use Rattle.tinyjson_laws.specs.Reading.{OneTree, TextsAreSound, TreesHaveTexts, WiderLimit};
ghost use Rattle.tinyjson_laws.specs.Reading.{WiderRange};

/// A list of characters has at most one tree.
pub fn one_tree()
    ensures { OneTree }
{}

/// What a text has is a sound tree.
pub fn texts_are_sound()
    ensures { TextsAreSound }
{}

/// A tree is sound exactly if some text has it.
#[tactic(auto, using(crate::proofs::ReadingLaws::trees_have_texts))]
pub fn trees_have_texts()
    ensures { TreesHaveTexts }
{}

/// What is a text under a limit on nesting is one under every greater limit, and under none.
pub fn wider_limit()
    ensures { WiderLimit }
{}

/// What is a text with the powers of ten of `i32` is one with those of `i64`, with the same tree and
/// the same compact text.
pub fn wider_range()
    ensures { WiderRange }
{}
