//! Checks a value against a schema, and returns where it is not valid. Both are JSON texts.
#![tactic(auto)]

ghost use Rattle.std.specs.Prelude.{Some, IfOk, IfErr};
ghost use Rattle.tinyjson.specs.Words.{Tree, IsText, chars, view};
ghost use Rattle.example_schema.specs.Failures.{IsFailure, IsFailureBy, IsJudged};

mod failure;

use failure::Failure;
use std::alloc::Global;
use std::io;
use tinyjson::JsonValue;
use tinyjson_schema::{Schema, Violation};

/// The place in the schema that the value violates, and the place in the value. `None` means that the value
/// is valid. At most 100 containers may be nested in a text, and at most 200 nested schemas are applied.
fn invalid_place(alloc: Global, schema: &str, value: &str) -> Result<Option<Violation>, Failure>
    ensures ok { IfOk result (λ place. (s : Tree) × IsText (Some 100) (chars schema.now) s
        × IsJudged s (chars value.now) place) }
    ensures err { IfErr result (IsFailure (chars schema.now) (chars value.now)) }
{
    match JsonValue::from_str_with_depth_limit(alloc, schema, 100) {
        Ok(tree) => {
            let answer = place_by(alloc, &tree, value);
            tree.dismantle();
            answer
        }
        Err(error) => Err(Failure::SchemaText(error)),
    }
}

/// The same, for a schema that is parsed.
fn place_by(alloc: Global, tree: &JsonValue, value: &str) -> Result<Option<Violation>, Failure>
    ensures ok { IfOk result (IsJudged (view tree.now) (chars value.now)) }
    ensures err { IfErr result (IsFailureBy (view tree.now) (chars value.now)) }
{
    let schema = match Schema::read(tree, alloc) {
        Ok(schema) => schema,
        Err(error) => return Err(Failure::Schema(error)),
    };
    match JsonValue::from_str_with_depth_limit(alloc, value, 100) {
        Ok(value) => {
            let answer = schema.invalid_place(&value, 200, alloc);
            value.dismantle();
            match answer {
                Ok(place) => Ok(place),
                Err(error) => Err(Failure::Check(error)),
            }
        }
        Err(error) => Err(Failure::ValueText(error)),
    }
}

fn main(rt: HostRuntime) -> io::Result<()> {
    let schema = r#"{"properties": {"tags": {"items": {"type": "string"}}}}"#;
    for value in [
        r#"{"tags": ["a", "b"]}"#,
        r#"{"tags": ["a", 3]}"#,
        r#"{"tags": ["#,
    ] {
        match invalid_place(rt.alloc(), schema, value) {
            Ok(None) => println!(rt; "valid")?,
            Ok(Some(place)) => {
                let Violation {
                    instance_location,
                    keyword_location,
                } = place;
                println!(rt; "{instance_location} does not meet {keyword_location}")?;
            }
            Err(failure) => println!(rt; "not checked: {failure}")?,
        }
    }
    Ok(())
}
