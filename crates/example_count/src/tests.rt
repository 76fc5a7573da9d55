//! What is counted, and nothing else.

use crate::{Counts, add_values, count_values};
use std::alloc::{AllocError, Global};
use std::test::Fail;
use tinyjson::JsonParseErrorKind;

/// Nulls, booleans, numbers, strings, arrays and objects.
fn in_order(counts: &Counts) -> [u64; 6] {
    [
        counts.nulls,
        counts.booleans,
        counts.numbers,
        counts.strings,
        counts.arrays,
        counts.objects,
    ]
}

/// A text, and its counts.
const ROWS: &[(&str, [u64; 6])] = &[
    ("null", [1, 0, 0, 0, 0, 0]),
    ("false", [0, 1, 0, 0, 0, 0]),
    ("-1e400", [0, 0, 1, 0, 0, 0]),
    ("\"[\"", [0, 0, 0, 1, 0, 0]),
    ("[]", [0, 0, 0, 0, 1, 0]),
    ("{}", [0, 0, 0, 0, 0, 1]),
    ("{\"a\":\"a\",\"b\":[true,false,[]]}", [0, 2, 0, 1, 2, 1]),
    ("{\"a\":1,\"a\":[2],\"a\":null}", [1, 0, 2, 0, 1, 1]),
];

/// How often a text repeats its pieces.
const MANY: usize = 1_000;

/// A text in parts, of which the second and the fourth are repeated, and its counts.
const LARGE_ROWS: &[([&str; 5], [u64; 6])] = &[
    (
        ["[", "null,true,0,\"[\",[],{},", "0", "", "]"],
        [1_000, 1_000, 1_001, 1_000, 1_001, 1_000],
    ),
    (
        ["{", "\"a\":[null],", "\"a\":0", "", "}"],
        [1_000, 0, 1, 0, 1_000, 1],
    ),
    (["", "[", "", "]", ""], [0, 0, 0, 0, 1_000, 0]),
    (
        ["", "{\"a\":[true,", "\"x\"", "]}", ""],
        [0, 1_000, 0, 1, 1_000, 1_000],
    ),
];

fn large_text(alloc: Global, parts: &[&str; 5]) -> Result<String, AllocError> {
    let [start, front, middle, back, end] = *parts;
    let mut text = start.to_string(alloc)?;
    text.push_str(front.repeat(alloc, MANY)?.as_str())?;
    text.push_str(middle)?;
    text.push_str(back.repeat(alloc, MANY)?.as_str())?;
    text.push_str(end)?;
    Ok(text)
}

#[test]
fn each_value_counts_once(rt: HostRuntime) -> Result<(), Fail> {
    let alloc = rt.alloc();
    for &(text, expected) in ROWS {
        let counts = count_values(alloc, text)?;
        assert!(rt; in_order(&counts) == expected, "{text}");
    }
    for (parts, expected) in LARGE_ROWS {
        let text = large_text(alloc, parts)?;
        let counts = count_values(alloc, text.as_str())?;
        assert!(rt; in_order(&counts) == *expected, "{parts:?}");
    }

    let counts = count_values(alloc, "[1, 2, {\"a\": null}]")?;
    assert_eq!(rt; counts.numbers, 2);

    let counts = add_values(alloc, "[true, 3]", count_values(alloc, "[1, 2]")?)?;
    assert!(rt; in_order(&counts) == [0, 1, 3, 0, 2, 0]);

    let refused = count_values(alloc, "[1, 2,]");
    assert!(rt;
        refused.is_err_and(|error| error.kind() == JsonParseErrorKind::InvalidCharacter(']'))
    );
    Ok(())
}
