//! Laws of the white space between tokens.
ghost use Rattle.tinyjson_laws.specs.WhiteSpace.{WhiteRemoved, SameButWhite, WhiteChangesNothing};

/// A text stays one, with its tree, when the white space outside its strings is taken out.
pub fn white_removed()
    ensures { WhiteRemoved }
{}

/// Two texts that are the same but for white space outside strings have one tree.
pub fn same_but_white()
    ensures { SameButWhite }
{}

/// Where one of two lists that differ in the white space between tokens alone is a text, so is the
/// other, with the same tree.
pub fn white_changes_nothing()
    ensures { WhiteChangesNothing }
{}
