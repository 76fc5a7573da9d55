//! Values of texts, and an error.

use std::test::Fail;
use tinyjson::{JsonParseError, JsonParser, JsonValue};

#[test]
fn values_of_texts(rt: HostRuntime) -> Result<(), Fail> {
    let alloc = rt.alloc();
    let parsed = JsonParser::new(alloc, "[1, 2, 3]".chars()).parse()?;
    let array = JsonValue::from_str(alloc, "[1, 2, 3]")?;
    assert!(rt; array.is_array());
    assert!(rt; parsed == array);
    Ok(())
}

#[test]
fn an_error_at_the_end(rt: HostRuntime) -> Result<(), Fail> {
    let parsed = JsonParser::new(rt.alloc(), "[1, 2, 3".chars()).parse();
    let error = parsed.expect_err(&rt, "an array with no end");
    assert!(rt; matches!(&error, JsonParseError { .. }));
    assert_eq!(rt; error.line(), 1);
    assert_eq!(rt; error.column(), 8);
    Ok(())
}
