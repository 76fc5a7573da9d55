//! Answers where memory is refused.
//!
//! With ample memory these tests pass as any do. `tests/memory.py` runs each of them with requests
//! for memory refused: then a test passes too, or it ends with the out of memory that a call returned.

use crate::common::{Answer, agrees, is_answer, parsed, push_members, told};
use std::alloc::{AllocError, Global};
use std::collections::HashMap;
use std::io::ErrorKind;
use std::process::Abort;
use std::test::Fail;
use tinyjson::{
    JsonGenerateResult, JsonGenerator, JsonKind, JsonNumber, JsonNumberError, JsonParseError,
    JsonParseErrorKind as Kind, JsonParseResult, JsonParser, JsonValue, check, insert_member,
};

/// The first example of the crate's documentation.
const DOCUMENT: &str = r#"
    {
        "bool": true,
        "arr": [1, null, "test"],
        "nested": {
            "blah": false,
            "blahblah": 3.14
        },
        "unicode": "\u2764"
    }
"#;

const COMPACT: &str = "{\"arr\":[1,null,\"test\"],\"bool\":true,\
    \"nested\":{\"blah\":false,\"blahblah\":3.14},\"unicode\":\"\u{2764}\"}";

const INDENTED: &str = "{
  \"arr\": [
    1,
    null,
    \"test\"
  ],
  \"bool\": true,
  \"nested\": {
    \"blah\": false,
    \"blahblah\": 3.14
  },
  \"unicode\": \"\u{2764}\"
}";

const TEXTS: &[(&str, Answer)] = &[
    (DOCUMENT, Answer::Text(COMPACT)),
    ("[1,]", Answer::Refusal(Kind::InvalidCharacter(']'), 1, 3)),
    (r#""\ud800""#, Answer::Refusal(Kind::InvalidUtf16, 1, 8)),
    (
        r#"{"a":{"b":[1.5]},"c" 1}"#,
        Answer::Refusal(Kind::ExpectedColon('1'), 1, 22),
    ),
    (r#"{"a":[1,[2]],"a":3}"#, Answer::Text(r#"{"a":3}"#)),
    (
        r#"{[1,[2]]:3}"#,
        Answer::Refusal(Kind::KeyNotString(JsonKind::Array), 1, 8),
    ),
];

/// A whole number with more digits than a small number has.
const LONG: &str = "1234567890123456789012345678901234567890123456789";

/// How many characters of the text precede the place of an error.
fn consumed(text: &str, error: &JsonParseError) -> usize {
    let mut place = (1, 0);
    for (count, c) in text.chars().enumerate() {
        if place == (error.line(), error.column()) {
            return count;
        }
        place = if c == '\n' {
            (place.0.saturating_add(1), 0)
        } else {
            (place.0, place.1.saturating_add(1))
        };
    }
    text.chars().count()
}

/// Whether the results are equal values, or errors of one kind, if memory was refused to neither.
fn are_alike(one: JsonParseResult, other: JsonParseResult) -> bool {
    match (one, other) {
        (Ok(one), Ok(other)) => one == other,
        (Ok(_), Err(error)) | (Err(error), Ok(_)) => error.is_out_of_memory(),
        (Err(one), Err(other)) => {
            one.is_out_of_memory() || other.is_out_of_memory() || one.kind() == other.kind()
        }
    }
}

/// Whether a parser of the text returns the expected answer; or it runs out of memory, and then goes on as a new one would.
fn goes_on(alloc: Global, text: &str, expected: Answer) -> Result<bool, Fail> {
    let mut parser = JsonParser::new(alloc, text.chars());
    match parser.parse() {
        Err(error) if error.kind() == Kind::OutOfMemory => {
            let rest = text.chars().skip(consumed(text, &error));
            let fresh = JsonParser::new(alloc, rest).parse();
            if are_alike(parser.parse(), fresh) {
                Err(Fail::from(error))
            } else {
                Ok(false)
            }
        }
        answer => agrees(alloc, answer, expected),
    }
}

#[test]
fn parse_goes_on(rt: HostRuntime) -> Result<(), Fail> {
    for &(text, expected) in TEXTS {
        assert!(rt; goes_on(rt.alloc(), text, expected)?, "{text}");
    }
    Ok(())
}

/// Whether the text is read so, if there is memory.
fn is_read(alloc: Global, text: &str, expected: Answer) -> Result<bool, Fail> {
    match JsonValue::from_str(alloc, text) {
        Err(error) if error.is_out_of_memory() => Err(Fail::from(error)),
        answer => agrees(alloc, answer, expected),
    }
}

#[test]
fn texts_keep_their_errors(rt: HostRuntime) -> Result<(), Fail> {
    for &(text, expected) in TEXTS {
        assert!(rt; is_read(rt.alloc(), text, expected)?, "{text}");
    }
    Ok(())
}

/// Whether a call that builds no value returned this, if there was memory.
fn is_kept(answer: Result<(), JsonParseError>, expected: Answer) -> Result<bool, Fail> {
    match answer {
        Err(error) if error.is_out_of_memory() => Err(Fail::from(error)),
        _ => Ok(is_answer(answer, expected)),
    }
}

#[test]
fn checks_keep_their_errors(rt: HostRuntime) -> Result<(), Fail> {
    for &(text, expected) in TEXTS {
        let answer = check(rt.alloc(), text);
        assert!(rt; is_kept(answer, expected)?, "{text}");
    }
    Ok(())
}

#[test]
fn events_keep_their_errors(rt: HostRuntime) -> Result<(), Fail> {
    for &(text, expected) in TEXTS {
        let answer = told(rt.alloc(), text);
        assert!(rt; is_kept(answer, expected)?, "{text}");
    }
    Ok(())
}

/// Whether whatever reads the text returns this, also where memory is refused.
fn takes_no_memory(alloc: Global, text: &str, expected: Answer) -> Result<bool, Fail> {
    let is_checked = is_answer(check(alloc, text), expected);
    let is_told = is_answer(told(alloc, text), expected);
    Ok(is_checked && is_told && agrees(alloc, parsed(alloc, text), expected)?)
}

const WITHOUT_MEMORY: [(&str, Answer); 3] = [
    (" true", Answer::Text("true")),
    ("x", Answer::Refusal(Kind::InvalidCharacter('x'), 1, 0)),
    ("", Answer::Refusal(Kind::UnexpectedEof, 1, 0)),
];

#[test]
fn some_texts_take_no_memory(rt: HostRuntime) -> Result<(), Fail> {
    for (text, expected) in WITHOUT_MEMORY {
        assert!(rt; takes_no_memory(rt.alloc(), text, expected)?, "{text}");
    }
    Ok(())
}

fn is_short_read(alloc: Global) -> Result<bool, Fail> {
    let number = JsonNumber::from_text(alloc, "-12.30e-1")?;
    Ok(number.is_negative() && (number.digits(), number.power()) == ("123", -2))
}

fn is_long_read(alloc: Global) -> Result<bool, Fail> {
    let long = JsonNumber::from_text(alloc, LONG)?;
    Ok(long.digits() == LONG && long.power() == 0)
}

fn is_long_copied(alloc: Global) -> Result<bool, Fail> {
    let long = JsonNumber::from_text(alloc, LONG)?;
    Ok(long.try_clone(alloc)? == long)
}

fn is_no_number(alloc: Global) -> bool {
    matches!(
        JsonNumber::from_text(alloc, "1."),
        Err(JsonNumberError::NotANumber)
    )
}

fn is_out_of_range(alloc: Global) -> bool {
    let answer = JsonNumber::from_text(alloc, "1e9223372036854775808");
    matches!(answer, Err(JsonNumberError::OutOfRange))
}

fn is_least_kept(alloc: Global) -> Result<bool, Fail> {
    Ok(JsonNumber::from_i64(alloc, i64::MIN)?.to_i64() == Some(i64::MIN))
}

fn is_greatest_kept(alloc: Global) -> Result<bool, Fail> {
    Ok(JsonNumber::from_u64(alloc, u64::MAX)?.to_u64() == Some(u64::MAX))
}

#[test]
fn numbers_keep_their_errors(rt: HostRuntime) -> Result<(), Fail> {
    let alloc = rt.alloc();
    assert!(rt; is_no_number(alloc));
    assert!(rt; is_out_of_range(alloc));
    assert!(rt; is_short_read(alloc)?);
    assert!(rt; is_long_read(alloc)?);
    assert!(rt; is_long_copied(alloc)?);
    assert!(rt; is_least_kept(alloc)?);
    assert!(rt; is_greatest_kept(alloc)?);
    Ok(())
}

/// Whether the value stays equal to the other where it is copied, and its copy is equal to it.
fn is_copied(alloc: Global, value: &JsonValue, same: &JsonValue) -> Result<bool, AllocError> {
    let copy = value.try_clone(alloc);
    if *value != *same {
        return Ok(false);
    }
    Ok(copy? == *value)
}

#[test]
fn a_refused_copy_changes_nothing(rt: HostRuntime) -> Result<(), Fail> {
    let alloc = rt.alloc();
    let value = JsonValue::from_str(alloc, DOCUMENT)?;
    let same = JsonValue::from_str(alloc, DOCUMENT)?;
    assert!(rt; is_copied(alloc, &value, &same)?);
    value.dismantle();
    same.dismantle();
    Ok(())
}

/// Whether this text was made, or the error has its message, and is then passed on.
fn is_made(answer: JsonGenerateResult, expected: &str) -> Result<bool, Fail> {
    if let Err(error) = &answer {
        if error.message() != "out of memory" {
            return Ok(false);
        }
    }
    Ok(answer?.as_str() == expected)
}

/// Whether the value of the text has this compact text.
fn is_stringified(alloc: Global, text: &str, compact: &str) -> Result<bool, Fail> {
    is_made(JsonValue::from_str(alloc, text)?.stringify(alloc), compact)
}

/// Whether the value of the text has this indented text.
fn is_formatted(alloc: Global, text: &str, indented: &str) -> Result<bool, Fail> {
    is_made(JsonValue::from_str(alloc, text)?.format(alloc), indented)
}

#[test]
fn texts_are_made(rt: HostRuntime) -> Result<(), Fail> {
    let alloc = rt.alloc();
    assert!(rt; is_stringified(alloc, DOCUMENT, COMPACT)?);
    assert!(rt; is_formatted(alloc, DOCUMENT, INDENTED)?);
    let text = wide(alloc)?;
    assert!(rt; is_stringified(alloc, text.as_str(), text.as_str())?);
    Ok(())
}

/// Writes the value into an array, and checks that this text, or a prefix of it, was written.
fn generates(
    rt: &impl Abort,
    alloc: Global,
    value: &JsonValue,
    expected: &str,
) -> Result<(), ErrorKind> {
    let mut bytes = [0; 512];
    let mut output = &mut bytes[..];
    let answer = JsonGenerator::new(alloc, &mut output).generate(value);
    let left = output.len();
    let written = bytes.len().saturating_sub(left);
    let text = expected.as_bytes();
    if answer.is_ok() {
        assert!(rt; written == text.len());
    }
    assert!(rt; text.starts_with(&bytes[..written]));
    match answer {
        Ok(()) => Ok(()),
        Err(error) => Err(error.kind()),
    }
}

#[test]
fn a_value_is_written_to_an_array(rt: HostRuntime) -> Result<(), Fail> {
    let alloc = rt.alloc();
    let value = JsonValue::from_str(alloc, DOCUMENT)?;
    generates(&rt, alloc, &value, COMPACT)?;
    Ok(())
}

/// A text inside what is opened and closed so often.
fn nested(
    alloc: Global,
    open: &str,
    inside: &str,
    close: &str,
    count: usize,
) -> Result<String, Fail> {
    let mut text = open.repeat(alloc, count)?;
    text.push_str(inside)?;
    text.push_str(close.repeat(alloc, count)?.as_str())?;
    Ok(text)
}

/// 64 arrays; 64 containers of which each object has one member, as the outermost, the innermost and each.
const FEW: [(&str, &str, &str, usize); 6] = [
    ("[", "null", "]", 64),
    ("", "{\"a\":1}", "", 1),
    ("[", "{\"a\":1}", "]", 63),
    ("[{\"a\":", "null", "}]", 32),
    ("{\"a\":[", "true", "]}", 32),
    ("{\"a\":", "\"x\"", "}", 64),
];

/// Whether the value of the text is written, also where memory is refused.
fn is_generated(rt: &impl Abort, alloc: Global, text: &str) -> Result<bool, Fail> {
    let value = JsonValue::from_str(alloc, text)?;
    Ok(generates(rt, alloc, &value, text).is_ok())
}

#[test]
fn sixty_four_containers_take_no_memory(rt: HostRuntime) -> Result<(), Fail> {
    let alloc = rt.alloc();
    for (open, inside, close, count) in FEW {
        let text = nested(alloc, open, inside, close, count)?;
        assert!(rt; is_generated(&rt, alloc, text.as_str())?, "{open}");
    }
    Ok(())
}

/// The 64th container, which holds two others.
const INNER: [&str; 3] = ["[[[null]]]", r#"{"a":[[null]]}"#, r#"{"a":1,"b":[[null]]}"#];

#[test]
fn more_containers_take_memory(rt: HostRuntime) -> Result<(), Fail> {
    let alloc = rt.alloc();
    for inner in INNER {
        let text = nested(alloc, "[", inner, "]", 63)?;
        let value = JsonValue::from_str(alloc, text.as_str())?;
        generates(&rt, alloc, &value, text.as_str())?;
    }
    Ok(())
}

/// An object of 131 members, with its keys in order.
fn wide(alloc: Global) -> Result<String, AllocError> {
    let mut text = String::from_str(alloc, r#"{"":0"#)?;
    push_members(&mut text, "abcdefghijklm", "0123456789")?;
    text.push('}')?;
    Ok(text)
}

#[test]
fn a_refused_member_is_dropped(rt: HostRuntime) -> Result<(), Fail> {
    let alloc = rt.alloc();
    let key = String::from_str(alloc, "a")?;
    let value = JsonValue::from("b".to_string(alloc)?);
    let mut members = HashMap::new(alloc);
    insert_member(&mut members, key, value)?;
    assert_eq!(rt; members.len(), 1);
    Ok(())
}
