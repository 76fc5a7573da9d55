//! Laws of JSON Schema: a document with several schema resources, judged by its dynamic scope, and the
//! document of one resource that `tinyjson_schema_bundle` makes of it.
//!
//! Each law is the contract of a public function that does nothing. The statements are in `specs/`.
#![tactic(auto)]

ghost use Rattle.tinyjson_schema_laws.specs.Laws.{
  DecidedAlone,
  DecidedCopied,
  DecidedRead,
  EachDecided,
  Exact,
  ExactAlone,
  ExactCopied,
  ExactRead,
  SameResults,
  ScopeDecides,
};

/// At each number of nested schemas, a document without contested names judges a value by its dynamic
/// scope as the bundled document does.
#[tactic(auto, using(crate::proofs::SameLaws::same_results))]
pub fn same_results()
    ensures { SameResults }
{}

/// Such a document accepts by its dynamic scope exactly the values that the bundled one accepts.
pub fn same_verdict()
    ensures { Exact }
{}

/// Such a document decides on each value at some number of nested schemas, whatever deeper ones say.
pub fn each_decided()
    ensures { EachDecided }
{}

/// A document accepts by its dynamic scope exactly the values that the bundled one accepts, with copies
/// of resources for contested names.
pub fn same_verdict_with_copies()
    ensures { ExactCopied }
{}

/// Such a document decides on each value too.
pub fn each_decided_with_copies()
    ensures { DecidedCopied }
{}

/// A document of one resource, which can be applied as it is, accepts by its dynamic scope exactly
/// the values that it accepts as a root schema.
pub fn same_verdict_alone()
    ensures { ExactAlone }
{}

/// Such a document decides on each value too.
pub fn each_decided_alone()
    ensures { DecidedAlone }
{}

/// A schema in memory accepts by its dynamic scope exactly the values that the bundled one accepts,
/// which `tinyjson_schema_bundle` makes of it, if that can be applied.
pub fn same_verdict_read()
    ensures { ExactRead }
{}

/// Such a schema decides on each value too.
pub fn each_decided_read()
    ensures { DecidedRead }
{}

/// What the bundled document keeps of a dynamic scope decides as the scope does.
#[tactic(auto, using(crate::proofs::Contested::scope_decides))]
pub fn scope_decides()
    ensures { ScopeDecides }
{}
