//! Deep values where memory runs out: what holds one is freed by a loop.
//!
//! With ample memory these tests pass as any do. `tests/memory.py` runs each of them with all
//! requests for memory refused from one on: then a test passes too, or it ends with the out of memory
//! that a call returned.

use crate::common::push_members;
use std::alloc::{AllocError, Global};
use std::collections::HashMap;
use std::test::Fail;
use tinyjson::{JsonValue, discard_member, insert_member};

/// A deep value, with what takes memory before and after it, whichever member a map gives last.
const AMONG_OTHERS: &str = r#"[{"a":"x","b":["x"],"c":@,"d":"x","e":["x"]},"x",["x"]]"#;

/// The first of 66 members, which a map takes before the object ends.
const FIRST_OF_MANY: &str = r#"{"a":@*,"c":"x"}"#;

/// The text with this value in the place of `@`, and 64 members in that of `*`, with a comma before each.
fn placed(alloc: Global, place: &str, value: &str) -> Result<String, AllocError> {
    let mut others = String::new(alloc);
    push_members(&mut others, "01234567", "01234567")?;
    place
        .replace(alloc, "*", others.as_str())?
        .replace(alloc, "@", value)
}

/// The value of the text that has arrays and objects of 100,000 levels in the place of `@`.
fn with_levels(alloc: Global, place: &str) -> Result<JsonValue, Fail> {
    let begin = r#"[{"a":"#.repeat(alloc, 50_000)?;
    let end = "}]".repeat(alloc, 50_000)?;
    let levels = format!(in alloc; "{begin}1{end}")?;
    let text = placed(alloc, place, levels.as_str())?;
    Ok(JsonValue::from_str(alloc, text.as_str())?)
}

#[test]
fn a_deep_value_is_read(rt: HostRuntime) -> Result<(), Fail> {
    with_levels(rt.alloc(), FIRST_OF_MANY)?.dismantle();
    Ok(())
}

#[test]
fn a_deep_value_is_copied(rt: HostRuntime) -> Result<(), Fail> {
    let alloc = rt.alloc();
    let value = with_levels(alloc, AMONG_OTHERS)?;
    let copy = value.try_clone(alloc);
    value.dismantle();
    copy?.dismantle();
    Ok(())
}

/// A member that no memory is left for.
#[test]
fn a_deep_member_is_inserted(rt: HostRuntime) -> Result<(), Fail> {
    let alloc = rt.alloc();
    let key = "a".to_string(alloc)?;
    let value = with_levels(alloc, "@")?;
    let mut members = HashMap::new(alloc);
    let inserted = insert_member(&mut members, key, value);
    JsonValue::from(members).dismantle();
    Ok(inserted?)
}

/// A member that another replaces.
#[test]
fn a_deep_member_is_replaced(rt: HostRuntime) -> Result<(), Fail> {
    let alloc = rt.alloc();
    let keys = ("a".to_string(alloc)?, "a".to_string(alloc)?);
    let value = with_levels(alloc, "@")?;
    let mut members = HashMap::new(alloc);
    let inserted = insert_member(&mut members, keys.0, value);
    let replaced = insert_member(&mut members, keys.1, JsonValue::Null);
    JsonValue::from(members).dismantle();
    inserted?;
    Ok(replaced?)
}

#[test]
fn a_deep_member_is_discarded(rt: HostRuntime) -> Result<(), Fail> {
    let alloc = rt.alloc();
    let key = "a".to_string(alloc)?;
    let value = with_levels(alloc, "@")?;
    let mut members = HashMap::new(alloc);
    let inserted = insert_member(&mut members, key, value);
    discard_member(&mut members, "a");
    assert!(rt; members.is_empty());
    Ok(inserted?)
}
