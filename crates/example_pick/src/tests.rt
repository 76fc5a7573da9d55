//! What no clause says: that members are picked where there is memory.

use crate::{Wanted, pick_members};
use std::alloc::{AllocError, Global};
use std::test::Fail;
use tinyjson::JsonValue;

#[derive(Drop)]
struct NameAndVersion;

impl Wanted for NameAndVersion {
    ghost use Rattle.std.specs.Prelude.{◌||◌, codes};
    ghost use Rattle.std.specs.Str.{bytes_eq};

    ghost is_wanted = { λ k. bytes_eq k (codes "name") || bytes_eq k (codes "version") };

    fn wants(&self, key: &str) -> bool {
        key == "name" || key == "version"
    }
}

#[derive(Drop)]
struct AllKeys;

impl Wanted for AllKeys {
    ghost use Rattle.std.specs.Prelude.{true};

    ghost is_wanted = { λ k. true };

    fn wants(&self, _: &str) -> bool {
        true
    }
}

/// The compact text of what is picked.
fn picked<W: Wanted>(alloc: Global, text: &str, wanted: W) -> Result<String, Fail> {
    let members = pick_members(alloc, text, wanted)?;
    Ok(JsonValue::from(members).stringify(alloc)?)
}

/// An object with `count` members, in the order of their keys.
fn wide_object(alloc: Global, count: usize) -> Result<String, AllocError> {
    let mut text = "{\"\":null".to_string(alloc)?;
    for number in 1_000_000..1_000_000_usize.saturating_add(count) {
        text.push_str(format!(in alloc; ",\"{number}\":{number}")?.as_str())?;
    }
    text.push('}')?;
    Ok(text)
}

/// An object with a long key, a long string, and a value with many containers around it.
fn deep_object(alloc: Global) -> Result<String, AllocError> {
    let long = "x".repeat(alloc, 1_000)?;
    let (front, back) = ("[".repeat(alloc, 1_000)?, "]".repeat(alloc, 1_000)?);
    format!(in alloc;
        "{{\"name\":\"{long}\",\"{long}\":{front}{{\"name\":1}}{back},\"version\":2}}"
    )
}

/// A text, and what is picked from it.
const ROWS: &[(&str, &str)] = &[
    ("\"name\"", "{}"),
    ("[{\"name\": 1}]", "{}"),
    (
        "{\"name\": \"x\", \"other\": 2, \"version\": 1.50}",
        "{\"name\":\"x\",\"version\":1.5}",
    ),
    (
        "{\"a\": [{\"name\": \"y\"}], \"version\": {\"name\": 1}, \"name\": null}",
        "{\"name\":null}",
    ),
    (
        "{\"name\": 1, \"name\": true, \"version\": 2, \"version\": []}",
        "{\"name\":true}",
    ),
];

#[test]
fn wanted_members_are_picked(rt: HostRuntime) -> Result<(), Fail> {
    let alloc = rt.alloc();
    for &(text, expected) in ROWS {
        assert_eq!(rt; picked(alloc, text, NameAndVersion)?.as_str(), expected);
    }
    for count in [3, 1_000] {
        let text = wide_object(alloc, count)?;
        assert!(rt;
            picked(alloc, text.as_str(), AllKeys)? == text,
            "{count} members"
        );
    }
    let long = "x".repeat(alloc, 1_000)?;
    let expected = format!(in alloc; "{{\"name\":\"{long}\",\"version\":2}}")?;
    assert!(rt; picked(alloc, deep_object(alloc)?.as_str(), NameAndVersion)? == expected);
    Ok(())
}
