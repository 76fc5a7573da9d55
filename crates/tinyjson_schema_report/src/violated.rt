//! What a value lacks that violates a schema, in words.
ghost use Rattle.std.specs.Prelude.{IfOk};
ghost use Rattle.std.specs.String.{string_bytes};
ghost use Rattle.tinyjson.specs.View.{view};
ghost use Rattle.tinyjson_view.specs.Views.{tree_of};
ghost use Rattle.tinyjson_pointer.specs.Tokens.{tokens_of};
ghost use Rattle.tinyjson_schema_report.specs.Nearest.{IsWords};

use crate::ending::ending;
use crate::keyword::keyword_words;
use crate::nearest::with_nearest;
use std::alloc::AllocError;
use tinyjson_pointer::Pointer;
use tinyjson_schema_keywords::Walk;
use tinyjson_view::ValueView;

/// The place in the schema and the place in the value of a violation.
#[derive(Clone, Copy)]
pub struct Places<'p> {
    /// The place of the keyword, or of the schema `false`.
    pub keyword: &'p Pointer,
    /// The place in the value.
    pub instance: &'p Pointer,
}

/// What the part of the value lacks that violates the keyword, as `must be at most 10, is 12`. Of `anyOf` and `oneOf`
/// also what it lacks of the nearest schema, if that is seen and the walk's budget has enough steps.
///
/// ```
/// let words = words(places, &value.as_view(), walk)?;
/// ```
pub fn words(
    places: Places<'_>,
    value: &ValueView<'_>,
    walk: Walk<'_, '_>,
) -> Result<String, AllocError>
    ensures { IfOk result (λ s. IsWords (view walk.entry.whole.now.root.now) (tree_of value.now)
        (tokens_of places.entry.keyword.now) (tokens_of places.entry.instance.now)
        (string_bytes s)) }
{
    let Some(end) = ending(places.keyword.tokens(), walk)? else {
        return String::from_str(walk.alloc, UNMET);
    };
    let Some(part) = places.instance.find_part(*value) else {
        return String::from_str(walk.alloc, UNMET);
    };
    match end.keyword {
        Some(keyword) => {
            let words = keyword_words(keyword, end.value, &part, walk.alloc)?;
            with_nearest(words, keyword, end.value, &part, walk)
        }
        None => String::from_str(walk.alloc, "is not allowed"),
    }
}

/// The words for a place that leads to nothing.
const UNMET: &str = "does not meet the schema";
