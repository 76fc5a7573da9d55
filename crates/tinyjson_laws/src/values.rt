//! Laws of values.
ghost use Rattle.std.specs.Prelude.{◌≡◌, ◌↔◌, IsTrue};
ghost use Rattle.tinyjson_grammar.specs.Text.{compact};
ghost use Rattle.tinyjson.specs.View.{view};
ghost use Rattle.tinyjson_laws.specs.Values.{ValuesAreSound, EqualTrees, EqualTexts};

use tinyjson::JsonValue;

/// Every value has a sound tree.
#[tactic(auto, using(tinyjson::proofs::Callers::view_IsTree))]
pub fn values_are_sound()
    ensures { ValuesAreSound }
{}

/// Two values are equal exactly if their trees are one.
#[tactic(auto, using(crate::proofs::ValueLaws::equal_trees))]
pub fn equal_trees()
    ensures { EqualTrees }
{}

/// Two values are equal exactly if their compact texts are one.
///
/// To use a law, call it: what it ensures is then known. [`have_one_text`] calls this one, and its
/// proof needs no answer beyond that. Where one is needed, it cites the law as
/// `c.equal_texts.ensures`.
#[tactic(auto, using(crate::proofs::ValueLaws::equal_texts))]
pub fn equal_texts()
    ensures { EqualTexts }
{}

/// Whether two values have one compact text.
pub fn have_one_text(a: &JsonValue, b: &JsonValue) -> bool
    ensures { IsTrue result ↔ (compact (view a.now) ≡ compact (view b.now)) }
{
    equal_texts();
    a == b
}
