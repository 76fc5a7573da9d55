//! Whole documents, and items and members by operators.
ghost use Rattle.std.specs.Prelude.{IsTrue, IsSome, ◌↔◌};
ghost use Rattle.tinyjson.specs.Index.{item_at, member_at};

use crate::values::{array, object, one, text};
use std::collections::HashMap;
use std::test::Fail;
use tinyjson::{JsonNumber, JsonValue};

const DOCUMENT: &str = r#"
    {
        "bool": true,
        "arr": [1, null, "test"],
        "nested": {
            "blah": false,
            "blahblah": 3.14
        },
        "unicode": "\u2764"
    }
"#;

const COMPACT: &str =
    "{\"arr\":[1,null,\"test\"],\"bool\":true,\"nested\":{\"blah\":false,\"blahblah\":3.14},\"unicode\":\"\u{2764}\"}";

const INDENTED: &str = "{
  \"arr\": [
    1,
    null,
    \"test\"
  ],
  \"bool\": true,
  \"nested\": {
    \"blah\": false,
    \"blahblah\": 3.14
  },
  \"unicode\": \"\u{2764}\"
}";

const PLACE: &str = r#"
{
  "foo": {
    "bar": [
      { "target": 42 }
    ]
  }
}
"#;

/// Whether the value is an object with the key.
fn has_member(value: &JsonValue, key: &str) -> bool
    ensures { IsTrue result ↔ IsSome (member_at value.now key.now) }
{
    value.member(key).is_some()
}

/// Whether the value is an array longer than the index.
fn has_item(value: &JsonValue, index: usize) -> bool
    ensures { IsTrue result ↔ IsSome (item_at value.now index) }
{
    value
        .get::<Vec<JsonValue>>()
        .is_some_and(|items| index < items.len())
}

#[test]
fn a_document_is_read_and_written(rt: HostRuntime) -> Result<(), Fail> {
    let alloc = rt.alloc();
    let parsed = JsonValue::from_str(alloc, DOCUMENT)?;
    let object: &HashMap<String, JsonValue> = parsed.get().expect(&rt, "an object");
    assert_eq!(rt; object.len(), 4);
    assert_eq!(rt; parsed.stringify(alloc)?.as_str(), COMPACT);
    assert_eq!(rt; parsed.format(alloc)?.as_str(), INDENTED);
    Ok(())
}

#[test]
fn a_document_becomes_its_members(rt: HostRuntime) -> Result<(), Fail> {
    let alloc = rt.alloc();
    let parsed = JsonValue::from_str(alloc, DOCUMENT)?;
    let object = HashMap::<String, JsonValue>::try_from(parsed)?;
    for key in ["arr", "bool", "nested", "unicode"] {
        assert!(rt; object.contains_key(key), "{key}");
    }
    Ok(())
}

#[test]
fn a_member_is_read_and_written(rt: HostRuntime) -> Result<(), Fail> {
    let alloc = rt.alloc();
    let mut m = HashMap::new(alloc);
    m.insert("foo".to_string(alloc)?, JsonValue::from(true))?;
    let mut v = JsonValue::from(m);
    assert!(rt; has_member(&v, "foo"));
    assert!(rt; v["foo"] == JsonValue::Boolean(true));
    v["foo"] = text(alloc, "hello")?;
    assert_eq!(rt; v.stringify(alloc)?.as_str(), r#"{"foo":"hello"}"#);
    Ok(())
}

#[test]
fn a_place_is_read_and_written(rt: HostRuntime) -> Result<(), Fail> {
    let alloc = rt.alloc();
    let mut json = JsonValue::from_str(alloc, PLACE)?;
    assert!(rt; has_member(&json, "foo"));
    assert!(rt; has_member(&json["foo"], "bar"));
    assert!(rt; has_item(&json["foo"]["bar"], 0));
    assert!(rt; has_member(&json["foo"]["bar"][0], "target"));
    let target_value = json["foo"]["bar"][0]["target"].get::<JsonNumber>();
    assert!(rt; target_value.is_some_and(|n| n.to_i64() == Some(42)));
    json["foo"]["bar"][0]["target"] = JsonValue::Boolean(false);
    assert_eq!(rt;
        json.stringify(alloc)?.as_str(),
        r#"{"foo":{"bar":[{"target":false}]}}"#
    );
    Ok(())
}

#[test]
fn a_member_by_an_operator(rt: HostRuntime) -> Result<(), Fail> {
    let alloc = rt.alloc();
    let v = object(alloc, 1)?;
    assert!(rt; has_member(&v, "foo"));
    assert!(rt; v["foo"] == one(alloc)?);
    Ok(())
}

#[test]
fn a_member_set_by_an_operator(rt: HostRuntime) -> Result<(), Fail> {
    let alloc = rt.alloc();
    let mut v = object(alloc, 1)?;
    assert!(rt; has_member(&v, "foo"));
    v["foo"] = JsonValue::Number(JsonNumber::from_text(alloc, "3.14")?);
    assert!(rt; has_member(&v, "foo"));
    assert!(rt; v["foo"] == JsonValue::Number(JsonNumber::from_text(alloc, "3.14")?));
    Ok(())
}

#[test]
fn an_item_by_an_operator(rt: HostRuntime) -> Result<(), Fail> {
    let v = array(rt.alloc())?;
    assert!(rt; has_item(&v, 1));
    assert!(rt; v[1] == JsonValue::Boolean(true));
    Ok(())
}

#[test]
fn an_item_that_changes_by_an_operator(rt: HostRuntime) -> Result<(), Fail> {
    let mut v = array(rt.alloc())?;
    assert!(rt; has_item(&v, 1));
    let b = &mut v[1];
    assert!(rt; *b == JsonValue::Boolean(true));
    Ok(())
}
