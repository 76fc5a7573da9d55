//! Marks of names: a set of names is a number that has the bits of their marks.
ghost use Rattle.std.specs.HashMap.{get_by_text};
ghost use Rattle.std.specs.Int.{bit_at};
ghost use Rattle.std.specs.Prelude.{◌≡◌, ◌<◌, ℕ, List, None};
ghost use Rattle.tinyjson.specs.View.{view};
ghost use Rattle.tinyjson_schema_keywords.specs.Names.{name};
ghost use Rattle.tinyjson_schema_table.specs.Marks.{mark, HasMarks};

use std::collections::HashMap;
use tinyjson::JsonValue;
use tinyjson_schema_keywords::Keyword;

/// The marks of the schema's names.
pub fn marks_of(schema: &JsonValue) -> u64
    ensures { HasMarks result (view schema.now) }
{
    match schema {
        JsonValue::Object(members) => marks_among(members),
        _ => 0,
    }
}

fn marks_among(members: &HashMap<String, JsonValue>) -> u64
    ensures { (bs : List ℕ) → bit_at result (mark bs) ≡ 0 → get_by_text members.now bs ≡ None }
{
    let mut marks = 0;
    for (key, _) in members {
        marks |= 1 << mark(key.as_str());
    }
    marks
}

/// The mark of a name: a number below 64 that tells most keywords apart.
fn mark(name: &str) -> usize
    ensures is { result ≡ mark name.now }
    ensures below { result < 64 }
{
    let bytes = name.as_bytes();
    if bytes.len() < 3 {
        return 0;
    }
    (2 * (bytes.len() % 64) + 25 * usize::from(bytes[1]) + 38 * usize::from(bytes[2])) % 64
}

/// The marks of the keywords' names, in the order in which the enum lists them.
const MARKS: [u8; 58] = [
    59, 31, 53, 12, 23, 40, 27, 16, 22, 22, 30, 62, 6, 21, 0, 46, 38, 29, 54, 28, 59, 48, 19, 4,
    54, 28, 38, 57, 36, 53, 9, 23, 10, 35, 10, 27, 39, 63, 25, 37, 42, 31, 43, 35, 47, 51, 31, 15,
    9, 11, 5, 3, 5, 15, 17, 19, 10, 46,
];

/// The mark of the keyword's name.
#[inline(always)]
pub fn mark_of(keyword: Keyword) -> usize
    ensures is { result ≡ mark (name keyword) }
    ensures below { result < 64 }
{
    usize::from(MARKS[keyword as usize])
}
