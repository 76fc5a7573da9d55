//! Laws of objects.
ghost use Rattle.tinyjson_laws.specs.Members.{LastPairStays, MembersFromFind};

/// An object has a key exactly if some pair of the text has it, with the tree of the last such pair.
pub fn last_pair_stays()
    ensures { LastPairStays }
{}

/// An object is determined by its members: two in which the same is found at every key are one, so the order of
/// pairs with different keys does not count.
#[tactic(auto, using(tinyjson::proofs::Callers::members_from_find))]
pub fn members_from_find()
    ensures { MembersFromFind }
{}
