//! A loop over a vector that is taken by value.
ghost use Rattle.std.specs.Prelude.{◌≡◌};
ghost use Rattle.tinyjson.specs.View.{items_view};
ghost use Rattle.documentation_vectors.specs.Nulls.{all_null};

use std::test::Fail;
use tinyjson::JsonValue;

/// Whether every item is null.
fn are_null(items: Vec<JsonValue>) -> bool
    ensures { result ≡ all_null (items_view items.items) }
{
    for item in items {
        let is_null = item.is_null();
        item.dismantle();
        if !is_null {
            return false;
        }
    }
    true
}

#[test]
fn items_that_are_null(rt: HostRuntime) -> Result<(), Fail> {
    let alloc = rt.alloc();
    assert!(rt; are_null(vec![in alloc; JsonValue::Null, JsonValue::Null]?));
    assert!(rt; !are_null(vec![in alloc; JsonValue::Null, JsonValue::Boolean(true)]?));
    Ok(())
}
