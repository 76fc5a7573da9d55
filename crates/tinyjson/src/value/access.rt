//! Typed access to the content of a value.
ghost use Rattle.std.specs.Prelude.{◌≡◌, Option, IsSome, Some, None, option_map};
ghost use Rattle.tinyjson.specs.declared.value.JsonValue as made;
ghost use Rattle.tinyjson.specs.Access.{number_part, boolean_part, string_part, null_part};
ghost use Rattle.tinyjson.specs.Access.{array_part, object_part};
ghost use Rattle.tinyjson.specs.Access.Laws.{number_of_put, boolean_of_put, string_of_put};
ghost use Rattle.tinyjson.specs.Access.Laws.{array_of_put, object_of_put};
ghost use Rattle.tinyjson.specs.Access.Laws.{put_of_number, put_of_boolean, put_of_string};
ghost use Rattle.tinyjson.specs.Access.Laws.{put_of_array, put_of_object};

use super::JsonValue;
use crate::number::JsonNumber;
use std::collections::HashMap;

/// A type that sees a part of some values, for [`JsonValue::get`].
///
/// `part` is that part, as a function of the value alone. Most types see the content of one variant.
///
/// ```
/// let value = JsonValue::Boolean(true);
/// assert!(rt; bool::json_value_as(&value) == Some(&true));
/// assert!(rt; String::json_value_as(&value).is_none());
/// ```
pub trait InnerAsRef {
    ghost use Rattle.tinyjson.specs.declared.value.JsonValue.{JsonValue};

    ghost part: { JsonValue → Option Self };

    /// The part of `v` that this type sees.
    fn json_value_as(v: &JsonValue) -> Option<&Self>
        ensures { option_map (λ x. x.now) result ≡ part v.now };
}

/// A type that sees a part of some values for writing, for [`JsonValue::get_mut`].
///
/// `part` is that part, and `put` is the value once that part was written. Where
/// there is a part, the part of what was put is what was put, and putting back the part changes
/// nothing.
///
/// ```
/// let mut value = JsonValue::Boolean(true);
/// if let Some(b) = bool::json_value_as_mut(&mut value) {
///     *b = false;
/// }
/// assert!(rt; value == JsonValue::Boolean(false));
/// ```
pub trait InnerAsRefMut {
    ghost use Rattle.std.specs.Borrow.{LendsIf, sem};
    ghost use Rattle.tinyjson.specs.contracts.value.JsonValue.{the_row};
    ghost use Rattle.tinyjson.specs.declared.value.JsonValue.{JsonValue};

    ghost part: { JsonValue → Option Self };

    ghost put: { JsonValue → Self → JsonValue };

    /// The part of `v` that this type sees, for writing. Where it sees none, `v` stays as it is.
    fn json_value_as_mut(v: &mut JsonValue) -> Option<&mut Self>
        ensures* writes_back { sem 𝓛 (LendsIf the_row Self.row v.entry result
            (put v.old) v.old) }
        ensures value { option_map (λ x. x.now) result ≡ part v.old };

    ghost part_of_put: { (v : JsonValue) (x : Self) → IsSome (part v) →
        part (put v x) ≡ Some x };

    ghost put_of_part: { (v : JsonValue) (x : Self) → part v ≡ Some x → put v x ≡ v };
}

impl JsonValue {
    ghost use Rattle.std.specs.Borrow.{LendsIf, sem};
    ghost use Rattle.tinyjson.specs.contracts.value.JsonValue.{the_row};

    /// The part of this value that `T` sees.
    ///
    /// ```
    /// let value = JsonValue::from_str(alloc, "[1, 2, 3]")?;
    /// let vec: &Vec<JsonValue> = value.get().expect(&rt, "an array");
    /// assert_eq!(rt; vec.len(), 3);
    /// assert!(rt; vec[0] == JsonValue::from(JsonNumber::from_i64(alloc, 1)?));
    ///
    /// // A type of another kind
    /// assert!(rt; value.get::<JsonNumber>().is_none());
    /// ```
    pub fn get<T: InnerAsRef>(&self) -> Option<&T>
        ensures { option_map (λ x. x.now) result ≡ T.part self.now }
    {
        T::json_value_as(self)
    }

    /// The part of this value that `T` sees, for writing. Afterwards the value is the old one with
    /// what was written in the place of the part; where `T` sees none, it stays as it is.
    ///
    /// Where the write is to be proved, take this and not a `match` on a `&mut JsonValue`. After it
    /// the value is plainly `Object`, `Array` or the like of what was written. A call on a part of a
    /// part, as below, gives of the whole what its own contract gives of the part.
    ///
    /// ```
    /// let mut value = JsonValue::from_str(alloc, "[1, 2, 3]")?;
    /// let vec: &mut Vec<JsonValue> = value.get_mut().expect(&rt, "an array");
    /// assert_eq!(rt; vec.len(), 3);
    /// vec[0] = JsonValue::from(false);
    /// assert_eq!(rt; value.stringify(alloc)?.as_str(), "[false,2,3]");
    ///
    /// // A type of another kind
    /// assert!(rt; value.get_mut::<JsonNumber>().is_none());
    /// ```
    ///
    /// ```
    /// fn set_member(value: &mut JsonValue, key: &str, part: JsonValue) -> Option<JsonValue>
    ///     ensures { OnSome result
    ///         (view value.new ≡ with_tree_at_key (view value.old) (chars key.now) (view part)) }
    /// {
    ///     let members = value.get_mut::<HashMap<String, JsonValue>>()?;
    ///     let member = members.get_mut(key)?;
    ///     Some(mem::replace(member, part))
    /// }
    /// ```
    pub fn get_mut<T: InnerAsRefMut>(&mut self) -> Option<&mut T>
        ensures* writes_back { sem 𝓛 (LendsIf the_row T.row self.entry result
            (T.put self.old) self.old) }
        ensures value { option_map (λ x. x.now) result ≡ T.part self.old }
    {
        T::json_value_as_mut(self)
    }
}

impl InnerAsRef for JsonNumber {
    ghost part = { number_part };

    fn json_value_as(v: &JsonValue) -> Option<&JsonNumber> {
        match v {
            JsonValue::Number(n) => Some(n),
            _ => None,
        }
    }
}

impl InnerAsRef for bool {
    ghost part = { boolean_part };

    fn json_value_as(v: &JsonValue) -> Option<&bool> {
        match v {
            JsonValue::Boolean(b) => Some(b),
            _ => None,
        }
    }
}

impl InnerAsRef for String {
    ghost part = { string_part };

    fn json_value_as(v: &JsonValue) -> Option<&String> {
        match v {
            JsonValue::String(s) => Some(s),
            _ => None,
        }
    }
}

/// Null holds nothing, which is what `()` is.
impl InnerAsRef for () {
    ghost part = { null_part };

    fn json_value_as(v: &JsonValue) -> Option<&()> {
        match v {
            JsonValue::Null => Some(&()),
            _ => None,
        }
    }
}

impl InnerAsRef for Vec<JsonValue> {
    ghost part = { array_part };

    fn json_value_as(v: &JsonValue) -> Option<&Vec<JsonValue>> {
        match v {
            JsonValue::Array(items) => Some(items),
            _ => None,
        }
    }
}

impl InnerAsRef for HashMap<String, JsonValue> {
    ghost part = { object_part };

    fn json_value_as(v: &JsonValue) -> Option<&HashMap<String, JsonValue>> {
        match v {
            JsonValue::Object(members) => Some(members),
            _ => None,
        }
    }
}

impl InnerAsRefMut for JsonNumber {
    ghost part = { number_part };

    ghost put = { λ _ x. made.Number x };

    fn json_value_as_mut(v: &mut JsonValue) -> Option<&mut JsonNumber> {
        match v {
            JsonValue::Number(n) => Some(n),
            _ => None,
        }
    }

    ghost part_of_put = { λ v x seen. number_of_put x };

    ghost put_of_part = { put_of_number };
}

impl InnerAsRefMut for bool {
    ghost part = { boolean_part };

    ghost put = { λ _ x. made.Boolean x };

    fn json_value_as_mut(v: &mut JsonValue) -> Option<&mut bool> {
        match v {
            JsonValue::Boolean(b) => Some(b),
            _ => None,
        }
    }

    ghost part_of_put = { λ v x seen. boolean_of_put x };

    ghost put_of_part = { put_of_boolean };
}

impl InnerAsRefMut for String {
    ghost part = { string_part };

    ghost put = { λ _ x. made.String x };

    fn json_value_as_mut(v: &mut JsonValue) -> Option<&mut String> {
        match v {
            JsonValue::String(s) => Some(s),
            _ => None,
        }
    }

    ghost part_of_put = { λ v x seen. string_of_put x };

    ghost put_of_part = { put_of_string };
}

impl InnerAsRefMut for Vec<JsonValue> {
    ghost part = { array_part };

    ghost put = { λ _ x. made.Array x };

    fn json_value_as_mut(v: &mut JsonValue) -> Option<&mut Vec<JsonValue>> {
        match v {
            JsonValue::Array(items) => Some(items),
            _ => None,
        }
    }

    ghost part_of_put = { λ v x seen. array_of_put x };

    ghost put_of_part = { put_of_array };
}

impl InnerAsRefMut for HashMap<String, JsonValue> {
    ghost part = { object_part };

    ghost put = { λ _ x. made.Object x };

    fn json_value_as_mut(v: &mut JsonValue) -> Option<&mut HashMap<String, JsonValue>> {
        match v {
            JsonValue::Object(members) => Some(members),
            _ => None,
        }
    }

    ghost part_of_put = { λ v x seen. object_of_put x };

    ghost put_of_part = { put_of_object };
}
