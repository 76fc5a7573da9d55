//! A part of a value is replaced, and the old part given back.
ghost use Rattle.std.specs.Prelude.{◌≡◌, IsSome};
ghost use Rattle.std.specs.Str.{chars};
ghost use Rattle.tinyjson.specs.Index.{item_at, member_at, with_item_at, with_tree_at};
ghost use Rattle.tinyjson.specs.Index.{with_tree_at_key};
ghost use Rattle.tinyjson.specs.Index.{IsItemAt, IsMemberAt, IsWithMember};
ghost use Rattle.tinyjson.specs.View.{view};

use super::JsonValue;
use super::index::{array_mut, object_mut};
use std::mem;

impl JsonValue {
    /// Puts `value` in the place of the item at the index of an array, and returns the old item.
    ///
    /// The caller shows that this is an array longer than the index; `get` and `len` are the test. A
    /// caller's proof knows what became of the array, which it does not after `array[index] = value`.
    ///
    /// ```
    /// let mut array = JsonValue::from(vec![in alloc; JsonValue::Null]?);
    /// if array
    ///     .get::<Vec<JsonValue>>()
    ///     .is_some_and(|items| items.len() == 1)
    /// {
    ///     let old = array.replace_item(0, JsonValue::from(true));
    ///     assert!(rt; old.is_null());
    /// }
    /// assert_eq!(rt; array.stringify(alloc)?.as_str(), "[true]");
    /// ```
    pub fn replace_item(&mut self, index: usize, value: JsonValue) -> JsonValue
        requires { IsSome (item_at self.old index) }
        ensures old { IsItemAt self.old index result }
        ensures new { self.new ≡ with_item_at self.old index value }
        ensures tree { view self.new ≡ with_tree_at (view self.old) index (view value) }
    {
        mem::replace(&mut array_mut(self)[index], value)
    }

    /// Puts `value` in the place of the member at the key of an object, and returns the old member.
    ///
    /// The caller shows that this is an object that has the key; `get` and `contains_key` are the
    /// test. A caller's proof knows what became of the object, which it does not after
    /// `object[key] = value`.
    ///
    /// ```
    /// let mut object = JsonValue::from_str(alloc, "{\"foo\": null}")?;
    /// if object
    ///     .get::<HashMap<String, JsonValue>>()
    ///     .is_some_and(|m| m.contains_key("foo"))
    /// {
    ///     let old = object.replace_member("foo", JsonValue::from(true));
    ///     assert!(rt; old.is_null());
    /// }
    /// assert_eq!(rt; object.stringify(alloc)?.as_str(), "{\"foo\":true}");
    /// ```
    pub fn replace_member(&mut self, key: &str, value: JsonValue) -> JsonValue
        requires { IsSome (member_at self.old key.now) }
        ensures old { IsMemberAt self.old key.now result }
        ensures new { IsWithMember self.old key.now value self.new }
        ensures tree { view self.new
            ≡ with_tree_at_key (view self.old) (chars key.now) (view value) }
    {
        let member = object_mut(self).get_mut(key).unwrap();
        mem::replace(member, value)
    }
}
