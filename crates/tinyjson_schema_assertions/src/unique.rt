//! Whether the items of an array are all different.
ghost use Rattle.std.specs.Prelude.{◌≡◌, IfOk, true};
ghost use Rattle.tinyjson.specs.Tree.{boolean};
ghost use Rattle.tinyjson.specs.Text.{compact};
ghost use Rattle.tinyjson.specs.View.{view, text};
ghost use Rattle.tinyjson_schema_assertions.specs.Distinct.{are_distinct};
ghost use Rattle.tinyjson_view.specs.Views.{tree_of, trees_of};
ghost use Rattle.tinyjson_schema_assertions.specs.Assertions.{are_unique};

use std::alloc::{AllocError, Global};
use std::collections::BTreeSet;
use tinyjson::JsonValue;
use tinyjson_view::ValueView;

/// Whether no two items of an array are equal, if `asked` is true; true for other values.
pub fn are_unique(
    asked: &JsonValue,
    value: &ValueView<'_>,
    alloc: Global,
) -> Result<bool, AllocError>
    ensures { IfOk result (λ is. is ≡ are_unique (view asked.now) (tree_of value.now)) }
{
    match asked {
        JsonValue::Boolean(true) => are_all_different(value, alloc),
        _ => Ok(true),
    }
}

/// Whether no two items of an array are equal; true for other values.
pub fn are_all_different(value: &ValueView<'_>, alloc: Global) -> Result<bool, AllocError>
    ensures { IfOk result (λ are. are ≡ are_unique (boolean true) (tree_of value.now)) }
{
    let items = value.items(alloc)?;
    are_distinct(items.as_slice(), alloc)
}

/// Whether no two of the values are equal. It sorts their normal texts, so the time is nearly linear in the size of all
/// texts.
fn are_distinct(values: &[ValueView<'_>], alloc: Global) -> Result<bool, AllocError>
    ensures { IfOk result (λ are. are ≡ are_distinct (trees_of values.now)) }
{
    let mut texts = BTreeSet::new(alloc);
    for value in values {
        let text = normal_text(value, alloc)?;
        let Ok(added) = texts.insert(text) else {
            return Err(AllocError);
        };
        if !added {
            return Ok(false);
        }
    }
    Ok(true)
}

fn normal_text(value: &ValueView<'_>, alloc: Global) -> Result<String, AllocError>
    ensures { IfOk result (λ written. text written ≡ compact (tree_of value.now)) }
{
    match value.stringify(alloc) {
        Ok(text) => Ok(text),
        Err(_) => Err(AllocError),
    }
}
