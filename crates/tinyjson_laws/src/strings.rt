//! Laws of strings.
ghost use Rattle.tinyjson_laws.specs.Strings.{PairsAsInStd};

/// A list of UTF-16 units has its surrogates in pairs exactly if the standard library finds no unpaired one,
/// and it then stands for the characters that the standard library decodes.
#[tactic(auto, using(crate::proofs::StringLaws::pairs_as_in_std))]
pub fn pairs_as_in_std()
    ensures { PairsAsInStd }
{}
