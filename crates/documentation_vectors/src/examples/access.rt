//! A member that is replaced.
ghost use Rattle.std.specs.Prelude.{◌≡◌, OnSome};
ghost use Rattle.std.specs.Str.{chars};
ghost use Rattle.tinyjson.specs.Index.{with_tree_at_key};
ghost use Rattle.tinyjson.specs.View.{view};

use std::collections::HashMap;
use std::mem;
use std::test::Fail;
use tinyjson::JsonValue;

fn set_member(value: &mut JsonValue, key: &str, part: JsonValue) -> Option<JsonValue>
    ensures { OnSome result
        (view value.new ≡ with_tree_at_key (view value.old) (chars key.now) (view part)) }
{
    let members = value.get_mut::<HashMap<String, JsonValue>>()?;
    let member = members.get_mut(key)?;
    Some(mem::replace(member, part))
}

#[test]
fn members_that_are_set(rt: HostRuntime) -> Result<(), Fail> {
    let alloc = rt.alloc();
    let mut value = JsonValue::from_str(alloc, "{\"foo\":true}")?;
    assert!(rt; set_member(&mut value, "foo", JsonValue::Null) == Some(JsonValue::from(true)));
    assert!(rt; set_member(&mut value, "bar", JsonValue::Null).is_none());
    Ok(())
}
