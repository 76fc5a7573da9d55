//! JSON values.
ghost use Rattle.std.specs.Prelude.{◌≡◌, is_some};
ghost use Rattle.tinyjson.specs.Access.{number_part, boolean_part, string_part, null_part};
ghost use Rattle.tinyjson.specs.Access.{array_part, object_part};
ghost use Rattle.tinyjson_grammar.specs.Kind.{kind_of};
ghost use Rattle.tinyjson.specs.View.{view};

use crate::number::JsonNumber;
use std::collections::HashMap;

mod access;
mod convert;
mod copy;
mod dismantle;
mod equality;
mod index;
mod members;
mod replace;

pub use access::{InnerAsRef, InnerAsRefMut};
pub use convert::UnexpectedValue;
pub(crate) use dismantle::holds_others;
pub(crate) use members::add_member;
pub use members::{discard_member, insert_member, remove_member, sorted_members};
pub use tinyjson_grammar::JsonKind;

/// A JSON value (RFC 8259, section 3), in plain containers.
///
/// Contracts see it as its tree, `view`: an array as the list of its items' trees, an object as the
/// finite map from its keys' characters to its members' trees.
///
/// A value that goes out of scope is freed by a recursion over its levels, which overruns a stack of
/// 8 MB past some ten thousand levels. [`JsonValue::dismantle`] frees a value of any depth.
///
/// ```
/// // Convert from raw values by `From`
/// let value = JsonValue::from("this is string".to_string(alloc)?);
///
/// // Get a reference to the inner value
/// let maybe_number: Option<&JsonNumber> = value.get();
/// assert!(rt; maybe_number.is_none());
/// let maybe_string: Option<&String> = value.get();
/// assert!(rt; maybe_string.is_some());
///
/// // Check the type of the value
/// assert!(rt; matches!(&value, JsonValue::String(_)));
/// assert!(rt; value.is_string());
///
/// // Convert into raw values by `TryFrom`
/// let original_value = String::try_from(value)?;
/// assert_eq!(rt; original_value.as_str(), "this is string");
/// ```
#[derive(Debug, Drop)]
pub enum JsonValue {
    /// An exact decimal number.
    Number(JsonNumber),
    /// A truth value.
    Boolean(bool),
    /// A string of Unicode scalar values.
    String(String),
    /// Null.
    Null,
    /// An array, its items in order.
    Array(Vec<JsonValue>),
    /// An object, its members by their keys.
    Object(HashMap<String, JsonValue>),
}

impl JsonValue {
    /// Which variant this is.
    ///
    /// ```
    /// assert!(rt; JsonValue::Null.kind() == JsonKind::Null);
    /// ```
    pub fn kind(&self) -> JsonKind
        ensures { result ≡ kind_of (view self.now) }
    {
        match self {
            JsonValue::Null => JsonKind::Null,
            JsonValue::Boolean(_) => JsonKind::Boolean,
            JsonValue::Number(_) => JsonKind::Number,
            JsonValue::String(_) => JsonKind::String,
            JsonValue::Array(_) => JsonKind::Array,
            JsonValue::Object(_) => JsonKind::Object,
        }
    }

    /// Whether this is a truth value.
    ///
    /// ```
    /// let v = JsonValue::from(true);
    /// assert!(rt; v.is_bool());
    /// let v = JsonValue::from(JsonNumber::from_i64(alloc, 1)?);
    /// assert!(rt; !v.is_bool());
    /// ```
    pub fn is_bool(&self) -> bool
        ensures { result ≡ is_some (boolean_part self.now) }
    {
        matches!(self, JsonValue::Boolean(_))
    }

    /// Whether this is a number.
    ///
    /// ```
    /// let v = JsonValue::from(JsonNumber::from_i64(alloc, 1)?);
    /// assert!(rt; v.is_number());
    /// let v = JsonValue::from(false);
    /// assert!(rt; !v.is_number());
    /// ```
    pub fn is_number(&self) -> bool
        ensures { result ≡ is_some (number_part self.now) }
    {
        matches!(self, JsonValue::Number(_))
    }

    /// Whether this is a string.
    ///
    /// ```
    /// let v = JsonValue::from("foo".to_string(alloc)?);
    /// assert!(rt; v.is_string());
    /// let v = JsonValue::from(JsonNumber::from_i64(alloc, 1)?);
    /// assert!(rt; !v.is_string());
    /// ```
    pub fn is_string(&self) -> bool
        ensures { result ≡ is_some (string_part self.now) }
    {
        matches!(self, JsonValue::String(_))
    }

    /// Whether this is null.
    ///
    /// ```
    /// let v = JsonValue::from(());
    /// assert!(rt; v.is_null());
    /// let v = JsonValue::from(false);
    /// assert!(rt; !v.is_null());
    /// ```
    pub fn is_null(&self) -> bool
        ensures { result ≡ is_some (null_part self.now) }
    {
        matches!(self, JsonValue::Null)
    }

    /// Whether this is an array.
    ///
    /// ```
    /// let v = JsonValue::from(Vec::new(alloc));
    /// assert!(rt; v.is_array());
    /// let v = JsonValue::from(JsonNumber::from_i64(alloc, 1)?);
    /// assert!(rt; !v.is_array());
    /// ```
    pub fn is_array(&self) -> bool
        ensures { result ≡ is_some (array_part self.now) }
    {
        matches!(self, JsonValue::Array(_))
    }

    /// Whether this is an object.
    ///
    /// ```
    /// let v = JsonValue::from(HashMap::new(alloc));
    /// assert!(rt; v.is_object());
    /// let v = JsonValue::from(Vec::new(alloc));
    /// assert!(rt; !v.is_object());
    /// ```
    pub fn is_object(&self) -> bool
        ensures { result ≡ is_some (object_part self.now) }
    {
        matches!(self, JsonValue::Object(_))
    }
}
