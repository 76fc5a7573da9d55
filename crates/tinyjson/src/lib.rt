//! A JSON parser and generator: proved contracts say which value each text gives, which error with which
//! position, and which bytes are written.
//!
//! Text by the grammar of RFC 8259, sections 2 to 8, is read from any iterator of characters into a
//! [`JsonValue`] of plain containers. A value goes back to text over any writer, with its keys in the
//! order of their bytes, so each value has exactly one compact text.
//!
//! ```
//! let s = r#"
//!     {
//!         "bool": true,
//!         "arr": [1, null, "test"],
//!         "nested": {
//!             "blah": false,
//!             "blahblah": 3.14
//!         },
//!         "unicode": "\u2764"
//!     }
//! "#;
//!
//! // Parse from strings
//! let parsed = JsonValue::from_str(alloc, s)?;
//!
//! // Access to the inner value as a standard container
//! let object: &HashMap<String, JsonValue> = parsed.get().expect(&rt, "an object");
//! assert_eq!(rt; object.len(), 4);
//!
//! // Generate a JSON text, and one with an indent
//! let compact = parsed.stringify(alloc)?;
//! let indented = parsed.format(alloc)?;
//!
//! // Convert to a standard container
//! let object = HashMap::<String, JsonValue>::try_from(parsed)?;
//! assert!(rt; object.contains_key("nested"));
//!
//! // Create values from standard containers
//! let mut m = HashMap::new(alloc);
//! m.insert("foo".to_string(alloc)?, JsonValue::from(true))?;
//! let mut v = JsonValue::from(m);
//!
//! // Access with the index operators, where the place is known to be there
//! assert!(rt; v.member("foo").is_some());
//! assert!(rt; v["foo"] == JsonValue::Boolean(true));
//! v["foo"] = JsonValue::from("hello".to_string(alloc)?);
//! ```
//!
//! | JSON    | Rattle                       |
//! |---------|------------------------------|
//! | Number  | `JsonNumber`                 |
//! | Boolean | `bool`                       |
//! | String  | `String`                     |
//! | Null    | `()`                         |
//! | Array   | `Vec<JsonValue>`             |
//! | Object  | `HashMap<String, JsonValue>` |
#![tactic(auto)]

pub mod generator;
pub mod number;
pub mod parser;
pub mod value;

pub use generator::{JsonGenerateError, JsonGenerateResult, JsonGenerator, format, stringify};
pub use number::{JsonNumber, JsonNumberError};
pub use parser::{
    Events, JsonParseError, JsonParseErrorKind, JsonParseResult, JsonParser, ReadError, check,
    check_with_depth_limit, read_events, read_events_with_depth_limit,
};
pub use value::{
    InnerAsRef, InnerAsRefMut, JsonKind, JsonValue, UnexpectedValue, discard_member, insert_member,
    remove_member, sorted_members,
};
