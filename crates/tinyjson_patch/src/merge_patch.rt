//! Merges a patch into a value.
ghost use Rattle.std.specs.Prelude.{◌≡◌, IfOk, OnOk, unwrap_or};
ghost use Rattle.std.specs.Str.{chars};
ghost use Rattle.tinyjson.specs.Tree.{null, find, put, remove};
ghost use Rattle.tinyjson.specs.View.{view, text, members_view};
ghost use Rattle.tinyjson_patch.specs.Merge.{merge_patch, members_of};

use std::alloc::{AllocError, Global};
use std::collections::HashMap;
use tinyjson::{JsonValue, discard_member, remove_member};
use tinyjson_pointer::put_member;

/// Applies the patch to the target: `MergePatch(Target, Patch)` of RFC 7396, section 2.
///
/// The only error is out of memory, and then the target is freed. It is recursive: it takes stack with the
/// nesting of the patch, not with that of the target.
///
/// ```
/// let merged = merge(target, &patch, alloc)?; // {"a":1,"b":2} by {"a":null,"c":3} is {"b":2,"c":3}
/// ```
pub fn merge(target: JsonValue, patch: &JsonValue, alloc: Global) -> Result<JsonValue, AllocError>
    ensures { IfOk result (λ v. view v ≡ merge_patch (view target) (view patch.now)) }
{
    merge_into(patch, target, alloc)
}

fn merge_into(patch: &JsonValue, target: JsonValue, alloc: Global) -> Result<JsonValue, AllocError>
    ensures { IfOk result (λ v. view v ≡ merge_patch (view target) (view patch.now)) }
{
    let JsonValue::Object(changes) = patch else {
        target.dismantle();
        return patch.try_clone(alloc);
    };
    let mut members = members_of(target, alloc);
    for (key, change) in changes {
        if change.is_null() {
            discard_member(&mut members, key.as_str());
        } else {
            let old = take_or_null(&mut members, key.as_str());
            let Ok(new) = merge_into(change, old, alloc) else {
                return Err(give_up(members));
            };
            let Ok(()) = put_member(&mut members, key.as_str(), new, alloc) else {
                return Err(give_up(members));
            };
        }
    }
    Ok(JsonValue::Object(members))
}

/// The members of an object. Another value is freed, and there are none.
fn members_of(value: JsonValue, alloc: Global) -> HashMap<String, JsonValue>
    ensures { members_view result.entries ≡ members_of (view value) }
{
    match value {
        JsonValue::Object(members) => members,
        other => {
            other.dismantle();
            HashMap::new(alloc)
        }
    }
}

/// Removes the member at the key and returns it, or `null` if there is none.
fn take_or_null(members: &mut HashMap<String, JsonValue>, key: &str) -> JsonValue
    ensures old { view result
        ≡ unwrap_or (find (chars key.now) (members_view members.old.entries)) null }
    ensures new { members_view members.new.entries
        ≡ remove (chars key.now) (members_view members.old.entries) }
{
    remove_member(members, key).unwrap_or(JsonValue::Null)
}

/// Frees the members in a loop, and returns the error.
fn give_up(members: HashMap<String, JsonValue>) -> AllocError {
    JsonValue::Object(members).dismantle();
    AllocError
}
