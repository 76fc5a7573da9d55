//! Laws of positions.
ghost use Rattle.tinyjson_laws.specs.Positions.{AdvanceComposes};

/// Lines and columns count on over calls: what two calls consume leads where one call that consumes both leads.
#[tactic(auto, using(tinyjson_grammar::proofs::Callers::advance_append))]
pub fn advance_composes()
    ensures { AdvanceComposes }
{}
