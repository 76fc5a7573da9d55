//! Copies and parts of values.
ghost use Rattle.std.specs.Prelude.{◌≡◌, IfOk, IsTrue, is_some};
ghost use Rattle.std.specs.Str.{chars};
ghost use Rattle.tinyjson.specs.Tree.{find};
ghost use Rattle.tinyjson.specs.View.{view};
ghost use Rattle.tinyjson_document.specs.Parts.{members_in};
ghost use Rattle.tinyjson_view.specs.Views.{tree_of};

use std::alloc::{AllocError, Global};
use tinyjson::JsonValue;
use tinyjson_document::JsonView;
use tinyjson_view::ValueView;

/// A copy of the value.
pub(crate) fn copy_of(alloc: Global, value: ValueView<'_>) -> Result<JsonValue, AllocError>
    ensures { IfOk result (λ v. view v ≡ tree_of value.entry) }
{
    match value {
        ValueView::InDocument(node) => node.to_value(alloc),
        ValueView::InValue(value) => value.try_clone(alloc),
    }
}

/// Whether the object has the key.
pub(crate) fn has_key(object: ValueView<'_>, key: &str) -> bool
    ensures { result ≡ is_some (find (chars key.now) (members_in (tree_of object.entry))) }
{
    object.member(key).is_some()
}

/// Whether the values are equal, if that is asked at this depth: of containers below 1, 2, 4, 8 and so on others. So
/// most equal parts are found at once, and a part of a value with 1,000 levels is compared at most 10 times.
pub(crate) fn are_found_equal(depth: usize, old: ValueView<'_>, new: ValueView<'_>) -> bool
    ensures { IsTrue result → tree_of old.entry ≡ tree_of new.entry }
{
    if !depth.is_power_of_two() || new.len() == 0 {
        return false;
    }
    old.equals(&new)
}
