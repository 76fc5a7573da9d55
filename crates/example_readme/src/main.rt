//! The program of the README: marks a task as done.
#![tactic(auto)]

ghost use Rattle.std.specs.IoError.{error_kind};
ghost use Rattle.std.specs.Prelude.{◌≡◌, ◌≢◌, true, codes, Some, IfOk, IfErr};
ghost use Rattle.tinyjson.specs.Words.{Tree, boolean, IsText, IsAccepted};
ghost use Rattle.tinyjson.specs.Words.{chars, compact, text, with_tree_at_key};

use std::alloc::Global;
use std::collections::HashMap;
use std::io::{self, ErrorKind};
use tinyjson::{JsonValue, insert_member};

/// The text of the task with `true` at the key `done`. At most 100 containers may be nested.
fn mark_done(alloc: Global, task: &str) -> io::Result<String>
    ensures ok { IfOk result (λ done. (t : Tree) × IsText (Some 100) (chars task.now) t
        × (text done ≡ compact (with_tree_at_key t (codes "done") (boolean true)))) }
    ensures err { IfErr result (λ e. error_kind e ≢ ErrorKind.OutOfMemory →
        ¬ IsAccepted (Some 100) (chars task.now)) }
{
    let mut value = JsonValue::from_str_with_depth_limit(alloc, task, 100)?;
    if let Some(members) = value.get_mut::<HashMap<String, JsonValue>>() {
        insert_member(members, "done".to_string(alloc)?, JsonValue::from(true))?;
    }
    Ok(value.stringify(alloc)?)
}

fn main(rt: HostRuntime) -> io::Result<()> {
    let task = r#"{"task": "pay", "sum": 12345678901234567890.10}"#;
    println!(rt; "{}", mark_done(rt.alloc(), task)?)
}
