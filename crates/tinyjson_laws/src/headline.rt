//! What a new parser returns for a text, in two sentences.
//!
//! Unless memory runs out, the result is exactly the value that the grammar relates to the characters, and an error
//! where it relates none (`FollowsGrammar`). An error is reported neither early nor late: either all characters were
//! consumed, or no text continues the consumed characters and the next one; and one character earlier a text of the
//! loose grammar still could (`IsTimely`).
ghost use Rattle.std.specs.Iterator.{IsFinite};
ghost use Rattle.std.specs.Prelude.{None, Some, ℕ, List};
ghost use Rattle.std.specs.Str.{chars};
ghost use Rattle.tinyjson.specs.Parser.{Provides};
ghost use Rattle.tinyjson_laws.specs.Headline.{FollowsGrammar, IsTimely};

use std::alloc::Global;
use tinyjson::{JsonParseResult, JsonParser, JsonValue};

/// The result for a text.
pub fn parsed(alloc: Global, text: &str) -> JsonParseResult
    ensures grammar { FollowsGrammar None (chars text.now) result }
    ensures timely { IsTimely None (chars text.now) result }
{
    JsonValue::from_str(alloc, text)
}

/// The result for the characters that an iterator gives.
pub fn parsed_from<I: Iterator<Item = char> + Drop>(alloc: Global, it: I) -> JsonParseResult
    requires can { I.can_next it }
    requires finite { IsFinite (I.remaining it) }
    ensures grammar { (xs : List ℕ) → Provides I.next_gives it xs →
        FollowsGrammar None xs result }
    ensures timely { (xs : List ℕ) → Provides I.next_gives it xs → IsTimely None xs result }
{
    JsonParser::new(alloc, it).parse()
}

/// The result of a parser with a limit on depth: the grammars bound the open containers by it.
pub fn parsed_within<I: Iterator<Item = char> + Drop>(
    alloc: Global,
    it: I,
    limit: usize,
) -> JsonParseResult
    requires can { I.can_next it }
    requires finite { IsFinite (I.remaining it) }
    ensures grammar { (xs : List ℕ) → Provides I.next_gives it xs →
        FollowsGrammar (Some limit) xs result }
    ensures timely { (xs : List ℕ) → Provides I.next_gives it xs →
        IsTimely (Some limit) xs result }
{
    JsonParser::with_depth_limit(alloc, it, limit).parse()
}
