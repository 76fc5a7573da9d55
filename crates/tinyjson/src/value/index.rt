//! Values by an index of an array and by a key of an object.
ghost use Rattle.std.specs.Borrow.{Lends, LendsSo, sem};
ghost use Rattle.std.specs.HashMap.{get_by_text};
ghost use Rattle.std.specs.Prelude.{◌≡◌, ◌<◌, ⊤, IsSome, Some, OnSome, option_map, length};
ghost use Rattle.std.specs.Prelude.{slice_get};
ghost use Rattle.std.specs.Str.{chars};
ghost use Rattle.std.specs.Vec.{with_item};
ghost use Rattle.tinyjson.specs.Access.{array_part, object_part};
ghost use Rattle.tinyjson.specs.Index.{item_at, member_at, with_item_at, IsItemAt, IsMemberAt};
ghost use Rattle.tinyjson.specs.Index.{tree_at_key, IsMapWith, IsWithMember};
ghost use Rattle.tinyjson.specs.View.{view};
ghost use Rattle.tinyjson.specs.private.Rows.{array_row, object_row};
ghost use Rattle.tinyjson.specs.contracts.value.JsonValue.{the_row};
ghost use Rattle.tinyjson.specs.declared.value.JsonValue as made;

use super::JsonValue;
use std::collections::HashMap;
use std::ops::{Index, IndexMut};

/// The item at the index of an array.
///
/// The caller shows that the value is an array longer than the index; `get` and `len` are the test.
///
/// ```
/// let value = JsonValue::from(vec![in alloc; JsonValue::Null, JsonValue::Boolean(true)]?);
/// if value
///     .get::<Vec<JsonValue>>()
///     .is_some_and(|items| items.len() == 2)
/// {
///     assert!(rt; value[1] == JsonValue::Boolean(true));
/// }
/// ```
///
/// The same by a function of the caller's:
///
/// ```
/// fn has_item(value: &JsonValue, index: usize) -> bool
///     ensures { IsTrue result ↔ IsSome (item_at value.now index) }
/// {
///     value
///         .get::<Vec<JsonValue>>()
///         .is_some_and(|items| index < items.len())
/// }
/// ```
///
/// ```
/// let items = vec![in alloc;
///     JsonValue::from(JsonNumber::from_i64(alloc, 1)?),
///     JsonValue::from(true),
/// ]?;
/// let v = JsonValue::from(items);
/// assert!(rt; has_item(&v, 1));
/// let b = &v[1];
/// assert!(rt; *b == JsonValue::Boolean(true));
/// ```
impl Index<usize> for JsonValue {
    type Output = JsonValue;

    ghost can_index = { λ v i. IsSome (item_at v i) };

    ghost index_gives = { IsItemAt };

    fn index(&self, index: usize) -> &JsonValue {
        let items = self.get::<Vec<JsonValue>>().unwrap();
        &items[index]
    }
}

/// The member at the key of an object.
///
/// The caller shows that the value is an object that has the key; [`JsonValue::member`] is the test.
///
/// ```
/// let mut m = HashMap::new(alloc);
/// let foo = JsonNumber::from_i64(alloc, 1)?;
/// m.insert("foo".to_string(alloc)?, JsonValue::from(foo))?;
/// let v = JsonValue::from(m);
/// assert!(rt; v.member("foo").is_some());
/// let i = &v["foo"];
/// assert!(rt; *i == JsonValue::Number(JsonNumber::from_i64(alloc, 1)?));
/// ```
///
/// A chain of keys and indices needs tests that are functions of their own, whose contracts say that the
/// place is there. A test in place speaks of its own result of `json["foo"]`, and not of the one that is
/// indexed.
///
/// ```
/// fn has_member(value: &JsonValue, key: &str) -> bool
///     ensures { IsTrue result ↔ IsSome (member_at value.now key.now) }
/// {
///     value.member(key).is_some()
/// }
/// ```
///
/// ```
/// let mut json = JsonValue::from_str(
///     alloc,
///     r#"
/// {
///   "foo": {
///     "bar": [
///       { "target": 42 }
///     ]
///   }
/// }
/// "#,
/// )?;
///
/// assert!(rt; has_member(&json, "foo"));
/// assert!(rt; has_member(&json["foo"], "bar"));
/// assert!(rt; has_item(&json["foo"]["bar"], 0));
/// assert!(rt; has_member(&json["foo"]["bar"][0], "target"));
///
/// // Access with the index operators
/// let target_value = json["foo"]["bar"][0]["target"].get::<JsonNumber>();
/// assert!(rt; target_value.is_some_and(|n| n.to_i64() == Some(42)));
/// ```
impl<'k> Index<&'k str> for JsonValue {
    type Output = JsonValue;

    ghost can_index = { λ v key. IsSome (member_at v key.now) };

    ghost index_gives = { λ v key x. IsMemberAt v key.now x };

    fn index(&self, key: &'k str) -> &JsonValue {
        let members = self.get::<HashMap<String, JsonValue>>().unwrap();
        members.get(key).unwrap()
    }
}

/// The item at the index of an array, for writing. Afterwards the value is the old one with what was
/// written in the place of that item.
///
/// The caller shows that the value is an array longer than the index. Where a proof is to know what
/// was written, take [`JsonValue::replace_item`].
///
/// ```
/// let items = vec![in alloc;
///     JsonValue::from(JsonNumber::from_i64(alloc, 1)?),
///     JsonValue::from(true),
/// ]?;
/// let mut v = JsonValue::from(items);
/// assert!(rt; has_item(&v, 1));
/// let b = &mut v[1];
/// assert!(rt; *b == JsonValue::Boolean(true));
/// ```
impl IndexMut<usize> for JsonValue {
    fn index_mut(&mut self, index: usize) -> &mut JsonValue
        requires { IsSome (item_at self.old index) }
        ensures* writes_back { sem 𝓛 (Lends the_row the_row self.entry result
            (with_item_at self.old index)) }
        ensures value { IsItemAt self.old index result.now }
    {
        item_mut(array_mut(self), index)
    }
}

/// The member at the key of an object, for writing. Afterwards the value is the old one with what was
/// written in the place of that member.
///
/// The caller shows that the value is an object that has the key. Where a proof is to know what was
/// written, take [`JsonValue::replace_member`].
///
/// ```
/// let mut m = HashMap::new(alloc);
/// let foo = JsonNumber::from_i64(alloc, 1)?;
/// m.insert("foo".to_string(alloc)?, JsonValue::from(foo))?;
/// let mut v = JsonValue::from(m);
/// assert!(rt; v.member("foo").is_some());
/// v["foo"] = JsonValue::Number(JsonNumber::from_text(alloc, "3.14")?);
/// assert!(rt; v.member("foo").is_some());
/// assert!(rt; v["foo"] == JsonValue::Number(JsonNumber::from_text(alloc, "3.14")?));
/// ```
///
/// A place below others, with the function `has_member` of [`Index`] and `has_item` beside it:
///
/// ```
/// let mut json = JsonValue::from_str(
///     alloc,
///     r#"
/// {
///   "foo": {
///     "bar": [
///       { "target": 42 }
///     ]
///   }
/// }
/// "#,
/// )?;
///
/// assert!(rt; has_member(&json, "foo"));
/// assert!(rt; has_member(&json["foo"], "bar"));
/// assert!(rt; has_item(&json["foo"]["bar"], 0));
/// assert!(rt; has_member(&json["foo"]["bar"][0], "target"));
///
/// // Access with the index operators
/// let target_value = json["foo"]["bar"][0]["target"].get::<JsonNumber>();
/// assert!(rt; target_value.is_some_and(|n| n.to_i64() == Some(42)));
///
/// // Modify with the index operators
/// json["foo"]["bar"][0]["target"] = JsonValue::Boolean(false);
/// assert_eq!(rt;
///     json.stringify(alloc)?.as_str(),
///     r#"{"foo":{"bar":[{"target":false}]}}"#
/// );
/// ```
impl<'k> IndexMut<&'k str> for JsonValue {
    fn index_mut(&mut self, key: &'k str) -> &mut JsonValue
        requires { IsSome (member_at self.old key.now) }
        ensures* writes_back { sem 𝓛 (LendsSo the_row the_row self.entry (Some result)
            (λ n w. IsWithMember self.old key.now w n) (λ n. ⊤)) }
        ensures value { IsMemberAt self.old key.now result.now }
    {
        found(member_mut(object_mut(self), key))
    }
}

impl JsonValue {
    /// The member at the key of an object, or `None` where the object has no such key or the value is
    /// no object.
    ///
    /// ```
    /// let value = JsonValue::from_str(alloc, r#"{"foo": true, "bar": 1}"#)?;
    /// assert!(rt; value.member("foo") == Some(&JsonValue::Boolean(true)));
    /// assert!(rt; value.member("baz").is_none());
    /// assert!(rt; JsonValue::Null.member("foo").is_none());
    /// ```
    pub fn member(&self, key: &str) -> Option<&JsonValue>
        ensures value { option_map (λ x. x.now) result ≡ member_at self.now key.now }
        ensures tree { option_map (λ x. view x.now) result
            ≡ tree_at_key (view self.now) (chars key.now) }
    {
        self.get::<HashMap<String, JsonValue>>()?.get(key)
    }
}

/// The items of an array, for writing.
pub(super) fn array_mut(value: &mut JsonValue) -> &mut Vec<JsonValue>
    requires { IsSome (array_part value.old) }
    ensures* writes_back { sem 𝓛 (Lends the_row array_row value.entry result made.Array) }
    ensures value { array_part value.old ≡ Some result.now }
{
    value.get_mut::<Vec<JsonValue>>().unwrap()
}

/// The item at the index, for writing.
fn item_mut(items: &mut Vec<JsonValue>, index: usize) -> &mut JsonValue
    requires { index < length items.old.items }
    ensures* writes_back { sem 𝓛 (Lends array_row the_row items.entry result
        (with_item items.old index)) }
    ensures value { slice_get items.old.items index ≡ Some result.now }
{
    &mut items[index]
}

/// The members of an object, for writing.
pub(super) fn object_mut(value: &mut JsonValue) -> &mut HashMap<String, JsonValue>
    requires { IsSome (object_part value.old) }
    ensures* writes_back { sem 𝓛 (Lends the_row object_row value.entry result made.Object) }
    ensures value { object_part value.old ≡ Some result.now }
{
    value.get_mut::<HashMap<String, JsonValue>>().unwrap()
}

/// The member at the key, for writing, if there is one.
fn member_mut<'m>(
    members: &'m mut HashMap<String, JsonValue>,
    key: &str,
) -> Option<&'m mut JsonValue>
    ensures* writes_back { sem 𝓛 (LendsSo object_row the_row members.entry result
        (λ n w. OnSome result (IsMapWith members.old key.now w n)) (λ n. n ≡ members.old)) }
    ensures value { option_map (λ x. x.now) result ≡ get_by_text members.old key.now }
{
    members.get_mut(key)
}

/// Unwraps a reference that the caller knows to be there.
fn found<'v>(place: Option<&'v mut JsonValue>) -> &'v mut JsonValue
    requires { IsSome place }
    ensures { place.entry ≡ Some result }
{
    place.unwrap()
}
