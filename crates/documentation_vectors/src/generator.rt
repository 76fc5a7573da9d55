//! Texts of values.

use crate::values::{number, one, text};
use std::alloc::{AllocError, Global};
use std::test::Fail;
use tinyjson::{JsonGenerator, JsonValue};

/// The array of 1, 2 and 3.
fn numbers(alloc: Global) -> Result<JsonValue, AllocError> {
    let items = vec![in alloc; one(alloc)?, number(alloc, 2)?, number(alloc, 3)?]?;
    Ok(JsonValue::from(items))
}

/// The array of 1, true and `str`.
fn mixed(alloc: Global) -> Result<JsonValue, AllocError> {
    let items = vec![in alloc; one(alloc)?, JsonValue::from(true), text(alloc, "str")?]?;
    Ok(JsonValue::from(items))
}

const MIXED: &str = "[1,true,\"str\"]";

const MIXED_INDENTED: &str = "[
  1,
  true,
  \"str\"
]";

#[test]
fn texts_of_numbers(rt: HostRuntime) -> Result<(), Fail> {
    let alloc = rt.alloc();
    let s = tinyjson::stringify(alloc, &numbers(alloc)?)?;
    assert_eq!(rt; s.as_str(), "[1,2,3]");
    Ok(())
}

#[test]
fn indented_texts_of_numbers(rt: HostRuntime) -> Result<(), Fail> {
    let alloc = rt.alloc();
    let s = tinyjson::format(alloc, &numbers(alloc)?)?;
    assert_eq!(rt; s.as_str(), "[\n  1,\n  2,\n  3\n]");
    Ok(())
}

#[test]
fn compact_texts(rt: HostRuntime) -> Result<(), Fail> {
    let alloc = rt.alloc();
    assert_eq!(rt; mixed(alloc)?.stringify(alloc)?.as_str(), MIXED);
    Ok(())
}

#[test]
fn compact_bytes(rt: HostRuntime) -> Result<(), Fail> {
    let alloc = rt.alloc();
    let mut bytes = Vec::new(alloc);
    mixed(alloc)?.write_to(alloc, &mut bytes)?;
    assert_eq!(rt; bytes.as_slice(), MIXED.as_bytes());
    Ok(())
}

#[test]
fn indented_texts(rt: HostRuntime) -> Result<(), Fail> {
    let alloc = rt.alloc();
    assert_eq!(rt; mixed(alloc)?.format(alloc)?.as_str(), MIXED_INDENTED);
    Ok(())
}

#[test]
fn indented_bytes(rt: HostRuntime) -> Result<(), Fail> {
    let alloc = rt.alloc();
    let mut bytes = Vec::new(alloc);
    mixed(alloc)?.format_to(alloc, &mut bytes)?;
    assert_eq!(rt; bytes.as_slice(), MIXED_INDENTED.as_bytes());
    Ok(())
}

#[test]
fn texts_of_generators(rt: HostRuntime) -> Result<(), Fail> {
    let alloc = rt.alloc();
    let mut generator = JsonGenerator::new(alloc, Vec::new(alloc));
    generator.generate(&text(alloc, "hello, world")?)?;
    assert_eq!(rt;
        generator.into_inner().as_slice(),
        b"\"hello, world\"".as_slice()
    );
    Ok(())
}

#[test]
fn compact_texts_of_generators(rt: HostRuntime) -> Result<(), Fail> {
    let alloc = rt.alloc();
    let mut generator = JsonGenerator::new(alloc, Vec::new(alloc));
    generator.generate(&numbers(alloc)?)?;
    assert_eq!(rt; generator.into_inner().as_slice(), b"[1,2,3]".as_slice());
    Ok(())
}

#[test]
fn indented_texts_of_generators(rt: HostRuntime) -> Result<(), Fail> {
    let alloc = rt.alloc();
    let wide = "[\n        1,\n        2,\n        3\n]";
    for (indent, expected) in [("  ", "[\n  1,\n  2,\n  3\n]"), ("        ", wide)] {
        let mut generator = JsonGenerator::new(alloc, Vec::new(alloc)).indent(indent);
        generator.generate(&numbers(alloc)?)?;
        assert_eq!(rt; generator.into_inner().as_slice(), expected.as_bytes());
    }
    Ok(())
}
