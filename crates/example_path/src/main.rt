//! Prints what a JSONPath query selects in a document: a proved caller of `tinyjson_path`.
#![tactic(auto)]

mod error;

ghost use Rattle.std.specs.Prelude.{◌≡◌, ◌++◌, map, IfOk, IfErr};
ghost use Rattle.tinyjson.specs.Words.{chars, text, view};
ghost use Rattle.tinyjson_path.specs.Nodes.{parts_view};
ghost use Rattle.tinyjson_path.specs.Patterns.{judged};
ghost use Rattle.tinyjson_path.specs.Queries.{query_parts};
ghost use Rattle.tinyjson_path.specs.Strings.{query_strings, strings_in, IsFrom};
ghost use Rattle.example_path.specs.Texts.{part_texts, AreSelected, Explains};

use error::TextsError;
use std::alloc::Global;
use std::io::{self, ErrorKind};
use tinyjson::JsonValue;
use tinyjson_path::{FindError, Located, Query, find};

const DOCUMENT: &str =
    r#"{"book": [{"title": "Emma", "price": 8.990}, {"title": "Ulysses", "price": 12}]}"#;

/// The compact texts of the values that the query selects in the document, in order. At most 100 containers
/// may be nested in the document.
fn texts(alloc: Global, document: &str, query: &str) -> Result<Vec<String>, TextsError>
    ensures ok { IfOk result (λ texts.
        AreSelected (chars document.now) (chars query.now) (map text texts.items)) }
    ensures err { IfErr result (Explains (chars document.now) (chars query.now)) }
{
    let query = match Query::parse(alloc, query) {
        Ok(query) => query,
        Err(error) => return Err(TextsError::Query(error)),
    };
    match JsonValue::from_str_with_depth_limit(alloc, document, 100) {
        Ok(value) => {
            let texts = value_texts(alloc, &value, &query);
            value.dismantle();
            match texts {
                Ok(texts) => Ok(texts),
                Err(error) => Err(TextsError::Find(error)),
            }
        }
        Err(error) => Err(TextsError::Document(error)),
    }
}

/// The compact texts of what the query selects in the value.
fn value_texts(alloc: Global, value: &JsonValue, query: &Query) -> Result<Vec<String>, FindError>
    ensures ok { IfOk result (λ texts. map text texts.items
        ≡ part_texts (query_parts judged query.now (view value.now))) }
    ensures err { IfErr result (IsFrom (query_strings query.now ++ strings_in (view value.now))) }
{
    let nodes = find(query, alloc, value)?;
    match node_texts(alloc, nodes.as_slice()) {
        Ok(texts) => Ok(texts),
        Err(_) => Err(FindError::OutOfMemory),
    }
}

/// The compact text of each node's value. The only error is out of memory.
fn node_texts(alloc: Global, nodes: &[Located]) -> Result<Vec<String>, FindError>
    ensures ok { IfOk result (λ texts. map text texts.items ≡ part_texts (parts_view nodes.now)) }
    ensures err { IfErr result (λ e. e ≡ FindError.OutOfMemory) }
{
    let mut texts = Vec::new(alloc);
    for node in nodes {
        match node.value.stringify(alloc) {
            Ok(text) => texts.push(text)?,
            Err(_) => return Err(FindError::OutOfMemory),
        }
    }
    Ok(texts)
}

fn main(rt: HostRuntime) -> io::Result<()> {
    let Ok(texts) = texts(rt.alloc(), DOCUMENT, "$.book[?@.price < 10]") else {
        return Err(io::Error::from(ErrorKind::InvalidData));
    };
    for text in texts.as_slice() {
        println!(rt; "{text}")?;
    }
    Ok(())
}
