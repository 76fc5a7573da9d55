//! Laws of errors: unless memory runs out, what is returned for a text follows from the text.
ghost use Rattle.tinyjson_laws.specs.Refusals.{OneRefusal, OneAnswer};

/// An error for another cause than memory is a function of the list and the limit: two of them have
/// the same kind, with the character or the kind of value that it names, and have consumed the same.
#[tactic(auto, using(crate::proofs::RefusalLaws::one_refusal))]
pub fn one_refusal()
    ensures { OneRefusal }
{}

/// Two results for one text and one limit agree, unless memory ran out: both are values of one tree, or
/// errors of one kind at one position.
pub fn one_answer()
    ensures { OneAnswer }
{}
