//! Laws of writing: what is written of a tree reads back.
ghost use Rattle.tinyjson_laws.specs.Writing.{
  CompactReadsBack,
  IndentedReadsBack,
  SameCompact,
  SameIndented,
  SameNormal,
  WrittenOnce,
  CompactWithin,
  IndentedWithin,
  LimitKept,
  TextsAreUtf8,
  CompactIsUtf8,
  IndentedIsUtf8,
};

/// The compact text of a tree is a text of that tree.
#[tactic(auto, using(crate::proofs::WritingLaws::compact_reads_back))]
pub fn compact_reads_back()
    ensures { CompactReadsBack }
{}

/// The indented text of a tree is a text of that tree, where the indent is white space.
#[tactic(auto, using(crate::proofs::WritingLaws::indented_reads_back))]
pub fn indented_reads_back()
    ensures { IndentedReadsBack }
{}

/// Two trees have one compact text exactly if they are one.
#[tactic(auto, using(crate::proofs::WritingLaws::same_compact))]
pub fn same_compact()
    ensures { SameCompact }
{}

/// Two trees have one indented text exactly if they are one.
#[tactic(auto, using(crate::proofs::WritingLaws::same_indented))]
pub fn same_indented()
    ensures { SameIndented }
{}

/// Two texts have one normal text exactly if they have one value.
pub fn same_normal()
    ensures { SameNormal }
{}

/// Reading a text and writing its tree, done twice, gives the text of once.
pub fn written_once()
    ensures { WrittenOnce }
{}

/// The compact text of a tree is a text under a limit exactly if its containers are nested at most
/// so deep.
pub fn compact_within()
    ensures { CompactWithin }
{}

/// The indented text of a tree is a text under a limit exactly if its containers are nested at most
/// so deep.
pub fn indented_within()
    ensures { IndentedWithin }
{}

/// What is accepted under a limit is, once written, accepted under the same limit.
pub fn limit_kept()
    ensures { LimitKept }
{}

/// The characters of a text have an encoding in UTF-8.
pub fn texts_are_utf8()
    ensures { TextsAreUtf8 }
{}

/// The characters of a compact text have an encoding in UTF-8.
#[tactic(auto, using(crate::proofs::WritingLaws::compact_is_utf8))]
pub fn compact_is_utf8()
    ensures { CompactIsUtf8 }
{}

/// The characters of an indented text have an encoding in UTF-8, where those of the indent have.
#[tactic(auto, using(crate::proofs::WritingLaws::indented_is_utf8))]
pub fn indented_is_utf8()
    ensures { IndentedIsUtf8 }
{}
