//! Values compared and copied.
ghost use Rattle.std.specs.Prelude.{◌≡◌, ◌↔◌, IsTrue};
ghost use Rattle.tinyjson.specs.View.{view};

use tinyjson::JsonValue;

/// Whether the trees of the values are equal, which is what `==` returns.
#[tactic(auto, using(tinyjson::specs::Equality::tree_eq_Decides))]
pub fn trees_are_equal(a: &JsonValue, b: &JsonValue) -> bool
    ensures { IsTrue result ↔ (view a.now ≡ view b.now) }
{
    a == b
}
