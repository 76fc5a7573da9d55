//! The content of values, and errors where it has another type.

use crate::values::{object, one, text};
use std::collections::HashMap;
use std::test::Fail;
use tinyjson::{JsonNumber, JsonValue, UnexpectedValue};

#[test]
fn numbers_that_come_back(rt: HostRuntime) -> Result<(), Fail> {
    let alloc = rt.alloc();
    assert!(rt; JsonNumber::try_from(one(alloc)?).is_ok());
    assert!(rt; JsonNumber::try_from(JsonValue::from(true)).is_err());
    Ok(())
}

#[test]
fn booleans_that_come_back(rt: HostRuntime) -> Result<(), Fail> {
    let alloc = rt.alloc();
    assert!(rt; bool::try_from(JsonValue::from(true)).is_ok());
    assert!(rt; bool::try_from(one(alloc)?).is_err());
    Ok(())
}

#[test]
fn strings_that_come_back(rt: HostRuntime) -> Result<(), Fail> {
    let alloc = rt.alloc();
    assert!(rt; String::try_from(text(alloc, "foo")?).is_ok());
    assert!(rt; String::try_from(one(alloc)?).is_err());
    Ok(())
}

#[test]
fn nulls_that_come_back(rt: HostRuntime) -> Result<(), Fail> {
    let alloc = rt.alloc();
    assert!(rt; <()>::try_from(JsonValue::from(())).is_ok());
    assert!(rt; <()>::try_from(one(alloc)?).is_err());
    Ok(())
}

#[test]
fn arrays_that_come_back(rt: HostRuntime) -> Result<(), Fail> {
    let alloc = rt.alloc();
    let v = JsonValue::from(vec![in alloc; JsonValue::from(true)]?);
    assert!(rt; Vec::<JsonValue>::try_from(v).is_ok());
    assert!(rt; Vec::<JsonValue>::try_from(one(alloc)?).is_err());
    Ok(())
}

#[test]
fn objects_that_come_back(rt: HostRuntime) -> Result<(), Fail> {
    let alloc = rt.alloc();
    let m = HashMap::<String, JsonValue>::try_from(object(alloc, 42)?)?;
    assert_eq!(rt;
        JsonValue::from(m).stringify(alloc)?.as_str(),
        r#"{"foo":42}"#
    );
    assert!(rt; HashMap::<String, JsonValue>::try_from(one(alloc)?).is_err());
    Ok(())
}

#[test]
fn errors_of_conversions(rt: HostRuntime) -> Result<(), Fail> {
    let error = String::try_from(one(rt.alloc())?).expect_err(&rt, "a number");
    assert!(rt; matches!(&error, UnexpectedValue { .. }));
    Ok(())
}

#[test]
fn values_in_errors(rt: HostRuntime) -> Result<(), Fail> {
    let alloc = rt.alloc();
    let error = String::try_from(one(alloc)?).expect_err(&rt, "a number");
    assert!(rt; *error.value() == one(alloc)?);
    Ok(())
}

#[test]
fn values_out_of_errors(rt: HostRuntime) -> Result<(), Fail> {
    let alloc = rt.alloc();
    let error = String::try_from(one(alloc)?).expect_err(&rt, "a number");
    assert!(rt; JsonValue::from(error) == one(alloc)?);
    Ok(())
}
