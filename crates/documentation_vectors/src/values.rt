//! Values, their kinds and their content; and the values of other examples.

use std::alloc::{AllocError, Global};
use std::collections::HashMap;
use std::test::Fail;
use tinyjson::{JsonNumber, JsonValue};

/// The number 1.
pub(crate) fn one(alloc: Global) -> Result<JsonValue, AllocError> {
    number(alloc, 1)
}

/// A number.
pub(crate) fn number(alloc: Global, n: i64) -> Result<JsonValue, AllocError> {
    Ok(JsonValue::from(JsonNumber::from_i64(alloc, n)?))
}

/// A string.
pub(crate) fn text(alloc: Global, s: &str) -> Result<JsonValue, AllocError> {
    Ok(JsonValue::from(s.to_string(alloc)?))
}

/// The array of 1 and true.
pub(crate) fn array(alloc: Global) -> Result<JsonValue, AllocError> {
    let items = vec![in alloc; one(alloc)?, JsonValue::from(true)]?;
    Ok(JsonValue::from(items))
}

/// The object whose member `foo` is this number.
pub(crate) fn object(alloc: Global, n: i64) -> Result<JsonValue, AllocError> {
    let mut m = HashMap::new(alloc);
    let foo = number(alloc, n)?;
    m.insert("foo".to_string(alloc)?, foo)?;
    Ok(JsonValue::from(m))
}

#[test]
fn content(rt: HostRuntime) -> Result<(), Fail> {
    let value = text(rt.alloc(), "this is string")?;
    let maybe_number: Option<&JsonNumber> = value.get();
    assert!(rt; maybe_number.is_none());
    let maybe_string: Option<&String> = value.get();
    assert!(rt; maybe_string.is_some());
    Ok(())
}

#[test]
fn content_that_is_taken(rt: HostRuntime) -> Result<(), Fail> {
    let value = text(rt.alloc(), "this is string")?;
    assert!(rt; matches!(&value, JsonValue::String(_)));
    assert!(rt; value.is_string());
    let original_value = String::try_from(value)?;
    assert_eq!(rt; original_value.as_str(), "this is string");
    Ok(())
}

#[test]
fn items_by_their_type(rt: HostRuntime) -> Result<(), Fail> {
    let alloc = rt.alloc();
    let value = JsonValue::from_str(alloc, "[1, 2, 3]")?;
    let vec: &Vec<JsonValue> = value.get().expect(&rt, "an array");
    assert_eq!(rt; vec.len(), 3);
    assert!(rt; vec[0] == one(alloc)?);
    assert!(rt; value.get::<JsonNumber>().is_none());
    Ok(())
}

#[test]
fn items_that_change_by_their_type(rt: HostRuntime) -> Result<(), Fail> {
    let alloc = rt.alloc();
    let mut value = JsonValue::from_str(alloc, "[1, 2, 3]")?;
    let vec: &mut Vec<JsonValue> = value.get_mut().expect(&rt, "an array");
    assert_eq!(rt; vec.len(), 3);
    vec[0] = JsonValue::from(false);
    assert_eq!(rt; value.stringify(alloc)?.as_str(), "[false,2,3]");
    assert!(rt; value.get_mut::<JsonNumber>().is_none());
    Ok(())
}

#[test]
fn kinds(rt: HostRuntime) -> Result<(), Fail> {
    let alloc = rt.alloc();
    let (number, text) = (one(alloc)?, text(alloc, "foo")?);
    let (yes, no, null) = (
        JsonValue::from(true),
        JsonValue::from(false),
        JsonValue::from(()),
    );
    assert!(rt; yes.is_bool() && !number.is_bool() && number.is_number() && !no.is_number());
    assert!(rt; text.is_string() && !number.is_string() && null.is_null() && !no.is_null());
    Ok(())
}

#[test]
fn kinds_of_empty_containers(rt: HostRuntime) -> Result<(), Fail> {
    let alloc = rt.alloc();
    let number = one(alloc)?;
    let (array, object) = (
        JsonValue::from(Vec::new(alloc)),
        JsonValue::from(HashMap::new(alloc)),
    );
    assert!(rt; array.is_array() && !number.is_array());
    assert!(rt; object.is_object() && !array.is_object());
    Ok(())
}

#[test]
fn kinds_of_containers(rt: HostRuntime) -> Result<(), Fail> {
    let alloc = rt.alloc();
    assert!(rt; array(alloc)?.is_array());
    assert!(rt; object(alloc, 1)?.is_object());
    Ok(())
}
