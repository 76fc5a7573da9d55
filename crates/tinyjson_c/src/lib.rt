//! `tinyjson` for C, and for languages that call C: a text is its bytes, an answer is a number, and output is
//! written to the caller's buffer.
#![tactic(auto)]

ghost use Rattle.std.specs.Char.{IsScalar};
ghost use Rattle.std.specs.Prelude.{◌≡◌, ◌≢◌, ◌<◌, ◌⊎◌, ◌↔◌, ℕ};
ghost use Rattle.std.specs.Prelude.{[], IsTrue, List, None, Option, Some};
ghost use Rattle.std.specs.Prelude.{codes, false, true};
ghost use Rattle.std.specs.Prelude.{Ok, encode_utf8_all, length};
ghost use Rattle.std.specs.Str.{IsUtf8, chars};
ghost use Rattle.tinyjson.specs.Error.{JsonParseErrorKind};
ghost use Rattle.tinyjson.specs.Words.{Tree, compact, indented};
ghost use Rattle.tinyjson_c.specs.Buffer.{Fills, HasWritten, LacksRoom};
ghost use Rattle.tinyjson_c.specs.Lines.{AreLines, StopsAtLine, lines_text};
ghost use Rattle.tinyjson_c.specs.Merge.{Merges, patch_depth};
ghost use Rattle.tinyjson_c.specs.Message.{error_words};
ghost use Rattle.tinyjson_c.specs.Part.{IsBadPointer, IsNoText, Leads};
ghost use Rattle.tinyjson_c.specs.Patch.{Fails, IsBadPatch, Patches};
ghost use Rattle.tinyjson_c.specs.Place.{IsError, length_place, memory_place};
ghost use Rattle.tinyjson_c.specs.Schema.{IsBadSchema, IsMisfit, IsSchemaOf, IsUncheckable};
ghost use Rattle.tinyjson_c.specs.Schema.{IsValidText, Violates, misfit_text, report_text};
ghost use Rattle.tinyjson_c.specs.Schema.{schema_depth};
ghost use Rattle.tinyjson_c.specs.SchemaLines.{JudgesLines, reports_text};
ghost use Rattle.tinyjson_c.specs.Select.{HasLargePattern, IsBadQuery, IsQueryOf, Selects};
ghost use Rattle.tinyjson_c.specs.Select.{part_lines};
ghost use Rattle.tinyjson_c.specs.SelectLines.{IsLineAt, SelectsLines};
ghost use Rattle.tinyjson_c.specs.Stop.{IsAcceptedText, IsTextOf, Stops};
ghost use Rattle.tinyjson_grammar.specs.Refusal.{MayGrow};
ghost use Rattle.tinyjson_normal.specs.Normal.{IsNormal};
ghost use Rattle.tinyjson_path.specs.Nodes.{Part};
ghost use Rattle.tinyjson_path.specs.Query.{Query};
ghost use Rattle.tinyjson_schema_report.specs.declared.located.Located.{Located};

mod buffer;
mod lines;
mod merge;
mod message;
mod part;
mod patch;
mod place;
mod schema;
mod select;
mod select_lines;
mod status;
mod stop;
mod text;
mod valid_lines;
mod value;

use buffer::{fill, put};
use message::{Message, kind_at};
pub use place::TinyjsonPlace;
use schema::Verdict;
pub use status::{
    BAD_PATCH, BAD_POINTER, BAD_QUERY, BAD_SCHEMA, FAILED, INVALID, NO_ERROR, NOT_FOUND, NOT_UTF8,
    OK, OUT_OF_MEMORY, PATTERN_LIMIT, REFUSED, SCHEMA_FAULT, STEP_LIMIT, TOO_SMALL,
};
use std::alloc::Global;
use stop::text_of;

/// Checks that the bytes are a JSON text with at most `depth` nested containers.
#[unsafe(no_mangle)]
pub extern "C" fn tinyjson_check(
    alloc: Global,
    text: &[u8],
    depth: usize,
    place: &mut TinyjsonPlace,
) -> u32
    ensures accepted { result ≡ OK → IsAcceptedText (Some depth) text.now
        × (place.new ≡ length_place 0 0) }
    ensures stopped { result ≢ OK → Stops (Some depth) text.now 0 result place.new }
    ensures memory { result ≡ OUT_OF_MEMORY → MayGrow (chars text.now) }
{
    match text::check(alloc, text, depth) {
        Ok(()) => {
            *place = TinyjsonPlace::of_length(0, 0);
            OK
        }
        Err(stop) => stop.put(0, place),
    }
}

/// Writes the normal form of a text to the front of a buffer, if it fits.
#[unsafe(no_mangle)]
pub extern "C" fn tinyjson_normal(
    alloc: Global,
    text: &[u8],
    depth: usize,
    buffer: &mut [u8],
    place: &mut TinyjsonPlace,
) -> u32
    ensures written { result ≡ OK → (t : Tree) × IsTextOf (Some depth) text.now t
        × HasWritten (encode_utf8_all (compact t)) buffer.old buffer.new place.new }
    ensures too_small { result ≡ TOO_SMALL → (t : Tree) × IsTextOf (Some depth) text.now t
        × LacksRoom (encode_utf8_all (compact t)) buffer.old place.new }
    ensures stopped { result ≢ OK → result ≢ TOO_SMALL
        → Stops (Some depth) text.now 0 result place.new }
    ensures left { result ≢ OK → buffer.new ≡ buffer.old }
{
    match text::normal(alloc, text, depth) {
        Ok(written) => put(&written, buffer, place),
        Err(stop) => stop.put(0, place),
    }
}

/// Writes a text indented with two spaces, in the order of its keys, to the front of a buffer, if it fits.
#[unsafe(no_mangle)]
pub extern "C" fn tinyjson_indented(
    alloc: Global,
    text: &[u8],
    depth: usize,
    buffer: &mut [u8],
    place: &mut TinyjsonPlace,
) -> u32
    ensures written { result ≡ OK → (t : Tree) × IsTextOf (Some depth) text.now t
        × HasWritten (encode_utf8_all (indented t (codes "  ") 0)) buffer.old buffer.new place.new }
    ensures too_small { result ≡ TOO_SMALL → (t : Tree) × IsTextOf (Some depth) text.now t
        × LacksRoom (encode_utf8_all (indented t (codes "  ") 0)) buffer.old place.new }
    ensures stopped { result ≢ OK → result ≢ TOO_SMALL
        → Stops (Some depth) text.now 0 result place.new }
    ensures left { result ≢ OK → buffer.new ≡ buffer.old }
{
    match text::indented(alloc, text, depth) {
        Ok(written) => put(&written, buffer, place),
        Err(stop) => stop.put(0, place),
    }
}

/// Checks whether the bytes are a text in normal form. A text that is no JSON is not.
#[unsafe(no_mangle)]
pub extern "C" fn tinyjson_is_normal(alloc: Global, text: &[u8], is_normal: &mut bool) -> u32
    ensures answered { result ≡ OK → IsUtf8 text.now
        × (IsTrue is_normal.new ↔ IsNormal (chars text.now)) }
    ensures not_utf8 { result ≡ NOT_UTF8 → ¬ IsUtf8 text.now }
    ensures memory { result ≡ OUT_OF_MEMORY → IsUtf8 text.now }
    ensures status { (result ≡ OK) ⊎ ((result ≡ NOT_UTF8) ⊎ (result ≡ OUT_OF_MEMORY)) }
    ensures left { result ≢ OK → is_normal.new ≡ is_normal.old }
{
    let Ok(text) = text_of(text) else {
        return NOT_UTF8;
    };
    match tinyjson_normal::is_normal(alloc, text) {
        Ok(answer) => {
            *is_normal = answer;
            OK
        }
        Err(_) => OUT_OF_MEMORY,
    }
}

/// Checks whether two texts have equal values. If one is no JSON, the place says which.
#[unsafe(no_mangle)]
pub extern "C" fn tinyjson_equal(
    alloc: Global,
    first: &[u8],
    second: &[u8],
    depth: usize,
    equal: &mut bool,
    place: &mut TinyjsonPlace,
) -> u32
    ensures answered { result ≡ OK → (t : Tree) × IsTextOf (Some depth) first.now t
        × (u : Tree) × IsTextOf (Some depth) second.now u × (IsTrue equal.new ↔ (t ≡ u))
        × (place.new ≡ length_place 0 0) }
    ensures stopped { result ≢ OK → Stops (Some depth) first.now 0 result place.new
        ⊎ (IsAcceptedText (Some depth) first.now
        × Stops (Some depth) second.now 1 result place.new) }
    ensures left { result ≢ OK → equal.new ≡ equal.old }
{
    let one = match text::normal(alloc, first, depth) {
        Ok(written) => written,
        Err(stop) => return stop.put(0, place),
    };
    let other = match text::normal(alloc, second, depth) {
        Ok(written) => written,
        Err(stop) => return stop.put(1, place),
    };
    *equal = one.as_slice() == other.as_slice();
    *place = TinyjsonPlace::of_length(0, 0);
    OK
}

/// Writes the normal form of each line, each with a line feed, to the front of a buffer, if it all fits. The
/// last line may lack its line feed. If a line is no JSON, the place is that in the line, and has the number
/// of lines before it.
#[unsafe(no_mangle)]
pub extern "C" fn tinyjson_normal_lines(
    alloc: Global,
    text: &[u8],
    depth: usize,
    buffer: &mut [u8],
    place: &mut TinyjsonPlace,
) -> u32
    ensures written { result ≡ OK → (ts : List Tree) × AreLines (Some depth) text.now ts
        × HasWritten (lines_text ts) buffer.old buffer.new place.new }
    ensures too_small { result ≡ TOO_SMALL → (ts : List Tree) × AreLines (Some depth) text.now ts
        × LacksRoom (lines_text ts) buffer.old place.new }
    ensures stopped { result ≢ OK → result ≢ TOO_SMALL
        → StopsAtLine (Some depth) text.now result place.new }
    ensures left { result ≢ OK → buffer.new ≡ buffer.old }
{
    match lines::normal_lines(alloc, text, depth) {
        Ok(written) => put(&written, buffer, place),
        Err(line) => line.stop.put(line.number, place),
    }
}

/// Writes the normal form of the part that a JSON pointer (RFC 6901) names in a text to the front of a
/// buffer, if it fits.
#[unsafe(no_mangle)]
pub extern "C" fn tinyjson_part(
    alloc: Global,
    text: &[u8],
    pointer: &[u8],
    depth: usize,
    buffer: &mut [u8],
    place: &mut TinyjsonPlace,
) -> u32
    ensures written { result ≡ OK → (u : Tree)
        × Leads (Some depth) text.now pointer.now (Some u)
        × HasWritten (encode_utf8_all (compact u)) buffer.old buffer.new place.new }
    ensures too_small { result ≡ TOO_SMALL → (u : Tree)
        × Leads (Some depth) text.now pointer.now (Some u)
        × LacksRoom (encode_utf8_all (compact u)) buffer.old place.new }
    ensures not_found { result ≡ NOT_FOUND → Leads (Some depth) text.now pointer.now None
        × (place.new ≡ length_place 0 0) }
    ensures bad_pointer { result ≡ BAD_POINTER → IsBadPointer pointer.now
        × (place.new ≡ length_place 1 0) }
    ensures stopped { result ≢ OK → result ≢ TOO_SMALL → result ≢ NOT_FOUND
        → result ≢ BAD_POINTER → Stops (Some depth) text.now 0 result place.new
        ⊎ IsNoText pointer.now result place.new }
    ensures left { result ≢ OK → buffer.new ≡ buffer.old }
{
    match part::part(alloc, text, pointer, depth) {
        Ok(written) => put(&written, buffer, place),
        Err(none) => none.put(place),
    }
}

/// Applies a merge patch (RFC 7396) to a target, and writes the normal form of the result to the front of a
/// buffer, if it fits. At most `depth` containers may be nested in the target, and at most 1,000 in the
/// patch. The target is read first. The place says which text is no JSON.
#[unsafe(no_mangle)]
pub extern "C" fn tinyjson_merge(
    alloc: Global,
    target: &[u8],
    patch: &[u8],
    depth: usize,
    buffer: &mut [u8],
    place: &mut TinyjsonPlace,
) -> u32
    ensures written { result ≡ OK → (m : Tree) × Merges depth target.now patch.now m
        × HasWritten (encode_utf8_all (compact m)) buffer.old buffer.new place.new }
    ensures too_small { result ≡ TOO_SMALL → (m : Tree) × Merges depth target.now patch.now m
        × LacksRoom (encode_utf8_all (compact m)) buffer.old place.new }
    ensures stopped { result ≢ OK → result ≢ TOO_SMALL
        → Stops (Some depth) target.now 0 result place.new
        ⊎ (IsAcceptedText (Some depth) target.now
        × Stops (Some (patch_depth depth)) patch.now 1 result place.new) }
    ensures left { result ≢ OK → buffer.new ≡ buffer.old }
{
    match merge::merged(alloc, target, patch, depth) {
        Ok(written) => put(&written, buffer, place),
        Err(none) => none.put(place),
    }
}

/// Applies a patch (RFC 6902) to a text, and writes the normal form of the result to the front of a buffer,
/// if it fits. At most `depth` containers may be nested in the text, and at most 1,000 in the patch. The text
/// is read first. The place says which of them is at fault. If the patch is no list of operations, or an
/// operation can't be applied, the length is the index of the first such item, from 0.
#[unsafe(no_mangle)]
pub extern "C" fn tinyjson_patch(
    alloc: Global,
    text: &[u8],
    patch: &[u8],
    depth: usize,
    buffer: &mut [u8],
    place: &mut TinyjsonPlace,
) -> u32
    ensures written { result ≡ OK → (u : Tree) × Patches depth text.now patch.now (Ok u)
        × HasWritten (encode_utf8_all (compact u)) buffer.old buffer.new place.new }
    ensures too_small { result ≡ TOO_SMALL → (u : Tree) × Patches depth text.now patch.now (Ok u)
        × LacksRoom (encode_utf8_all (compact u)) buffer.old place.new }
    ensures failed { result ≡ FAILED → (n : ℕ) × Fails depth text.now patch.now n
        × (place.new ≡ length_place 1 n) }
    ensures bad_patch { result ≡ BAD_PATCH → (n : ℕ) × IsBadPatch depth text.now patch.now n
        × (place.new ≡ length_place 1 n) }
    ensures stopped { result ≢ OK → result ≢ TOO_SMALL → result ≢ FAILED → result ≢ BAD_PATCH
        → Stops (Some depth) text.now 0 result place.new
        ⊎ (IsAcceptedText (Some depth) text.now
        × Stops (Some (patch_depth depth)) patch.now 1 result place.new) }
    ensures left { result ≢ OK → buffer.new ≡ buffer.old }
{
    match patch::patched(alloc, text, patch, depth) {
        Ok(written) => put(&written, buffer, place),
        Err(none) => none.put(place),
    }
}

/// Writes a line for each value that a JSONPath query (RFC 9535) selects in a text to the front of a buffer, if
/// they fit: its normal form. The query is read first. If it is no query, the length is how many characters are before
/// the fault, or bytes if it is not UTF-8.
#[unsafe(no_mangle)]
pub extern "C" fn tinyjson_select(
    alloc: Global,
    text: &[u8],
    query: &[u8],
    depth: usize,
    buffer: &mut [u8],
    place: &mut TinyjsonPlace,
) -> u32
    ensures written { result ≡ OK → (ps : List Part)
        × Selects (Some depth) text.now query.now ps
        × HasWritten (part_lines false ps) buffer.old buffer.new place.new }
    ensures too_small { result ≡ TOO_SMALL → (ps : List Part)
        × Selects (Some depth) text.now query.now ps
        × LacksRoom (part_lines false ps) buffer.old place.new }
    ensures bad_query { result ≡ BAD_QUERY → (n : ℕ) × IsBadQuery query.now n
        × (place.new ≡ length_place 1 n) }
    ensures limit { result ≡ PATTERN_LIMIT → HasLargePattern (Some depth) text.now query.now
        × (place.new ≡ length_place 0 0) }
    ensures memory { result ≡ OUT_OF_MEMORY → place.new ≡ memory_place 0 }
    ensures stopped { result ≢ OK → result ≢ TOO_SMALL → result ≢ BAD_QUERY
        → result ≢ PATTERN_LIMIT → result ≢ OUT_OF_MEMORY
        → ((q : Query) × IsQueryOf query.now q)
        × Stops (Some depth) text.now 0 result place.new }
    ensures left { result ≢ OK → buffer.new ≡ buffer.old }
{
    match select::selected(alloc, text, query, false, depth) {
        Ok(written) => put(&written, buffer, place),
        Err(error) => error.put(0, place),
    }
}

/// The same, with the normalized path of each value.
#[unsafe(no_mangle)]
pub extern "C" fn tinyjson_select_paths(
    alloc: Global,
    text: &[u8],
    query: &[u8],
    depth: usize,
    buffer: &mut [u8],
    place: &mut TinyjsonPlace,
) -> u32
    ensures written { result ≡ OK → (ps : List Part)
        × Selects (Some depth) text.now query.now ps
        × HasWritten (part_lines true ps) buffer.old buffer.new place.new }
    ensures too_small { result ≡ TOO_SMALL → (ps : List Part)
        × Selects (Some depth) text.now query.now ps
        × LacksRoom (part_lines true ps) buffer.old place.new }
    ensures bad_query { result ≡ BAD_QUERY → (n : ℕ) × IsBadQuery query.now n
        × (place.new ≡ length_place 1 n) }
    ensures limit { result ≡ PATTERN_LIMIT → HasLargePattern (Some depth) text.now query.now
        × (place.new ≡ length_place 0 0) }
    ensures memory { result ≡ OUT_OF_MEMORY → place.new ≡ memory_place 0 }
    ensures stopped { result ≢ OK → result ≢ TOO_SMALL → result ≢ BAD_QUERY
        → result ≢ PATTERN_LIMIT → result ≢ OUT_OF_MEMORY
        → ((q : Query) × IsQueryOf query.now q)
        × Stops (Some depth) text.now 0 result place.new }
    ensures left { result ≢ OK → buffer.new ≡ buffer.old }
{
    match select::selected(alloc, text, query, true, depth) {
        Ok(written) => put(&written, buffer, place),
        Err(error) => error.put(0, place),
    }
}

/// Writes what `tinyjson_select` writes of each line, with an empty line after it, to the front of a buffer, if
/// it all fits. The last line may lack its line feed. If a line is no JSON, or a regular expression that it needs
/// exceeds a limit, the place is that in the line, and has the number of lines before it.
#[unsafe(no_mangle)]
pub extern "C" fn tinyjson_select_lines(
    alloc: Global,
    text: &[u8],
    query: &[u8],
    depth: usize,
    buffer: &mut [u8],
    place: &mut TinyjsonPlace,
) -> u32
    ensures written { result ≡ OK → (bs : List ℕ)
        × SelectsLines (Some depth) text.now query.now false bs
        × HasWritten bs buffer.old buffer.new place.new }
    ensures too_small { result ≡ TOO_SMALL → (bs : List ℕ)
        × SelectsLines (Some depth) text.now query.now false bs
        × LacksRoom bs buffer.old place.new }
    ensures bad_query { result ≡ BAD_QUERY → (n : ℕ) × IsBadQuery query.now n
        × (place.new ≡ length_place 1 n) }
    ensures limit { result ≡ PATTERN_LIMIT → (n : ℕ) × (line : List ℕ)
        × IsLineAt (Some depth) text.now n line
        × HasLargePattern (Some depth) line query.now × (place.new ≡ length_place n 0) }
    ensures memory { result ≡ OUT_OF_MEMORY → (n : ℕ) × (place.new ≡ memory_place n) }
    ensures stopped { result ≢ OK → result ≢ TOO_SMALL → result ≢ BAD_QUERY
        → result ≢ PATTERN_LIMIT → result ≢ OUT_OF_MEMORY
        → ((q : Query) × IsQueryOf query.now q)
        × StopsAtLine (Some depth) text.now result place.new }
    ensures left { result ≢ OK → buffer.new ≡ buffer.old }
{
    match select_lines::select_lines(alloc, text, query, false, depth) {
        Ok(written) => put(&written, buffer, place),
        Err(line) => line.error.put(line.number, place),
    }
}

/// The same, with the normalized path of each value.
#[unsafe(no_mangle)]
pub extern "C" fn tinyjson_select_lines_paths(
    alloc: Global,
    text: &[u8],
    query: &[u8],
    depth: usize,
    buffer: &mut [u8],
    place: &mut TinyjsonPlace,
) -> u32
    ensures written { result ≡ OK → (bs : List ℕ)
        × SelectsLines (Some depth) text.now query.now true bs
        × HasWritten bs buffer.old buffer.new place.new }
    ensures too_small { result ≡ TOO_SMALL → (bs : List ℕ)
        × SelectsLines (Some depth) text.now query.now true bs
        × LacksRoom bs buffer.old place.new }
    ensures bad_query { result ≡ BAD_QUERY → (n : ℕ) × IsBadQuery query.now n
        × (place.new ≡ length_place 1 n) }
    ensures limit { result ≡ PATTERN_LIMIT → (n : ℕ) × (line : List ℕ)
        × IsLineAt (Some depth) text.now n line
        × HasLargePattern (Some depth) line query.now × (place.new ≡ length_place n 0) }
    ensures memory { result ≡ OUT_OF_MEMORY → (n : ℕ) × (place.new ≡ memory_place n) }
    ensures stopped { result ≢ OK → result ≢ TOO_SMALL → result ≢ BAD_QUERY
        → result ≢ PATTERN_LIMIT → result ≢ OUT_OF_MEMORY
        → ((q : Query) × IsQueryOf query.now q)
        × StopsAtLine (Some depth) text.now result place.new }
    ensures left { result ≢ OK → buffer.new ≡ buffer.old }
{
    match select_lines::select_lines(alloc, text, query, true, depth) {
        Ok(written) => put(&written, buffer, place),
        Err(line) => line.error.put(line.number, place),
    }
}

/// Checks a text by a schema: JSON Schema 2020-12, or the draft that its `$schema` names. Writes to the front of a
/// buffer, if it fits, the report of a value that is not valid, with the line and the column of the part, or a pointer
/// to what can't be applied in the schema. At most `depth` containers may be nested in both, and at most 100. The
/// schema is read first. For `STEP_LIMIT` the place has the length 200 if more nested schemas are applied, or else 0.
#[unsafe(no_mangle)]
pub extern "C" fn tinyjson_valid(
    alloc: Global,
    text: &[u8],
    schema: &[u8],
    depth: usize,
    buffer: &mut [u8],
    place: &mut TinyjsonPlace,
) -> u32
    ensures valid { result ≡ OK → IsValidText (Some (schema_depth depth)) text.now schema.now
        × (place.new ≡ length_place 0 0) }
    ensures invalid { result ≡ INVALID → (l : Located)
        × Violates (Some (schema_depth depth)) text.now schema.now l
        × HasWritten (report_text l.place.line l) buffer.old buffer.new place.new }
    ensures fault { result ≡ SCHEMA_FAULT → (ks : List (List ℕ))
        × IsMisfit (Some (schema_depth depth)) schema.now ks
        × HasWritten (misfit_text ks) buffer.old buffer.new place.new }
    ensures too_small { result ≡ TOO_SMALL → ((l : Located)
        × Violates (Some (schema_depth depth)) text.now schema.now l
        × LacksRoom (report_text l.place.line l) buffer.old place.new)
        ⊎ ((ks : List (List ℕ)) × IsMisfit (Some (schema_depth depth)) schema.now ks
        × LacksRoom (misfit_text ks) buffer.old place.new) }
    ensures bad_schema { result ≡ BAD_SCHEMA
        → IsBadSchema (Some (schema_depth depth)) schema.now place.new }
    ensures limit { result ≡ STEP_LIMIT → (nested : ℕ)
        × IsUncheckable (Some (schema_depth depth)) text.now schema.now nested
        × (place.new ≡ length_place 0 nested) }
    ensures memory { result ≡ OUT_OF_MEMORY → (n : ℕ) × (place.new ≡ memory_place n) }
    ensures stopped { result ≢ OK → result ≢ INVALID → result ≢ SCHEMA_FAULT
        → result ≢ TOO_SMALL → result ≢ BAD_SCHEMA → result ≢ STEP_LIMIT
        → result ≢ OUT_OF_MEMORY
        → ((s : Tree) × IsSchemaOf (Some (schema_depth depth)) schema.now s)
        × Stops (Some (schema_depth depth)) text.now 0 result place.new }
    ensures left { result ≢ INVALID → result ≢ SCHEMA_FAULT → buffer.new ≡ buffer.old }
{
    match schema::checked(alloc, text, schema, depth) {
        Ok(verdict) => verdict.put(buffer, place),
        Err(error) => error.put(0, place),
    }
}

/// Checks each line by a schema, as `tinyjson_valid` checks a text. Writes to the front of a buffer, if it all fits,
/// the report of each line that is not valid, with the line's number, from 1, and a line feed. The last line may
/// lack its line feed. A line that is no JSON, or that can't be checked, stops the call: the place has the number of
/// lines before it.
#[unsafe(no_mangle)]
pub extern "C" fn tinyjson_valid_lines(
    alloc: Global,
    text: &[u8],
    schema: &[u8],
    depth: usize,
    buffer: &mut [u8],
    place: &mut TinyjsonPlace,
) -> u32
    ensures valid { result ≡ OK → (os : List (Option Located))
        × JudgesLines (Some (schema_depth depth)) text.now schema.now os
        × (reports_text 1 os ≡ []) × (place.new ≡ length_place 0 0) }
    ensures invalid { result ≡ INVALID → (os : List (Option Located))
        × JudgesLines (Some (schema_depth depth)) text.now schema.now os
        × (reports_text 1 os ≢ [])
        × HasWritten (reports_text 1 os) buffer.old buffer.new place.new }
    ensures fault { result ≡ SCHEMA_FAULT → (ks : List (List ℕ))
        × IsMisfit (Some (schema_depth depth)) schema.now ks
        × HasWritten (misfit_text ks) buffer.old buffer.new place.new }
    ensures too_small { result ≡ TOO_SMALL → ((os : List (Option Located))
        × JudgesLines (Some (schema_depth depth)) text.now schema.now os
        × LacksRoom (reports_text 1 os) buffer.old place.new)
        ⊎ ((ks : List (List ℕ)) × IsMisfit (Some (schema_depth depth)) schema.now ks
        × LacksRoom (misfit_text ks) buffer.old place.new) }
    ensures bad_schema { result ≡ BAD_SCHEMA
        → IsBadSchema (Some (schema_depth depth)) schema.now place.new }
    ensures limit { result ≡ STEP_LIMIT → (n : ℕ) × (line : List ℕ)
        × IsLineAt (Some (schema_depth depth)) text.now n line
        × (nested : ℕ) × IsUncheckable (Some (schema_depth depth)) line schema.now nested
        × (place.new ≡ length_place n nested) }
    ensures memory { result ≡ OUT_OF_MEMORY → (n : ℕ) × (place.new ≡ memory_place n) }
    ensures stopped { result ≢ OK → result ≢ INVALID → result ≢ SCHEMA_FAULT
        → result ≢ TOO_SMALL → result ≢ BAD_SCHEMA → result ≢ STEP_LIMIT
        → result ≢ OUT_OF_MEMORY
        → ((s : Tree) × IsSchemaOf (Some (schema_depth depth)) schema.now s)
        × StopsAtLine (Some (schema_depth depth)) text.now result place.new }
    ensures left { result ≢ INVALID → result ≢ SCHEMA_FAULT → buffer.new ≡ buffer.old }
{
    match valid_lines::checked_lines(alloc, text, schema, depth) {
        Ok(verdict) => verdict.put(buffer, place),
        Err(line) => line.error.put(line.number, place),
    }
}

/// Writes the message of the error in this place to the front of a buffer, if it fits.
#[unsafe(no_mangle)]
pub extern "C" fn tinyjson_message(
    alloc: Global,
    place: &TinyjsonPlace,
    buffer: &mut [u8],
    needed: &mut usize,
) -> u32
    ensures written { result ≡ OK → (k : JsonParseErrorKind) × IsError place.now k
        × Fills (error_words k place.now.line place.now.column) buffer.old buffer.new
        × (needed.new ≡ length (error_words k place.now.line place.now.column)) }
    ensures too_small { result ≡ TOO_SMALL → (k : JsonParseErrorKind) × IsError place.now k
        × (length buffer.old < length (error_words k place.now.line place.now.column))
        × (needed.new ≡ length (error_words k place.now.line place.now.column)) }
    ensures no_error { result ≡ NO_ERROR → IsScalar place.now.found
        → (k : JsonParseErrorKind) → ¬ IsError place.now k }
    ensures status { (result ≡ OK) ⊎ ((result ≡ TOO_SMALL) ⊎ ((result ≡ NO_ERROR)
        ⊎ (result ≡ OUT_OF_MEMORY))) }
    ensures left { result ≢ OK → buffer.new ≡ buffer.old }
    ensures not_needed { result ≢ OK → result ≢ TOO_SMALL → needed.new ≡ needed.old }
{
    let Some(kind) = kind_at(place) else {
        return NO_ERROR;
    };
    let message = Message {
        kind,
        line: place.line,
        column: place.column,
    };
    let Ok(words) = message.to_string(alloc) else {
        return OUT_OF_MEMORY;
    };
    *needed = words.len();
    fill(words.as_bytes(), buffer)
}
