//! The names in a schema that are not keywords.
ghost use Rattle.std.specs.Prelude.{IfOk, OnOk};
ghost use Rattle.tinyjson.specs.View.{view};
ghost use Rattle.tinyjson_schema_keywords.specs.Subschemas.{seen, all_seen};
ghost use Rattle.tinyjson_schema_keywords.specs.Unknown.{AreWords, Gathers, unknown_words, words_among};
ghost use Rattle.tinyjson_schema_keywords.specs.Unknown.{word_of};

use crate::subschemas::{SchemaMember, schema_members};
use std::alloc::{AllocError, Global};
use std::collections::BTreeSet;
use tinyjson::JsonValue;

/// The names that are not keywords, in the schema and its subschemas: each once, in the order of bytes. Names
/// outside of schemas do not count, as the keys of `properties` and `$defs` and what is in an `enum`. The only
/// error is out of memory.
///
/// It takes stack with the nesting of the schema.
pub fn unknown_words(schema: &JsonValue, alloc: Global) -> Result<BTreeSet<String>, AllocError>
    ensures { IfOk result (AreWords (unknown_words (view schema.now))) }
{
    let members = schema_members(schema, alloc)?;
    words_among(members.as_slice(), alloc)
}

fn words_among(members: &[SchemaMember<'_>], alloc: Global) -> Result<BTreeSet<String>, AllocError>
    ensures { IfOk result (AreWords (words_among (all_seen members.now))) }
{
    let mut words = BTreeSet::new(alloc);
    for member in members {
        gather_word(*member, alloc, &mut words)?;
    }
    Ok(words)
}

/// Inserts the member's name, unless it is that of a keyword.
fn gather_word(
    member: SchemaMember<'_>,
    alloc: Global,
    words: &mut BTreeSet<String>,
) -> Result<(), AllocError>
    ensures { OnOk result (Gathers (word_of (seen member.entry)) words.old words.new) }
{
    if member.keyword.is_some() {
        return Ok(());
    }
    let word = String::from_str(alloc, member.name.as_str())?;
    let Ok(_) = words.insert(word) else {
        return Err(AllocError);
    };
    Ok(())
}
