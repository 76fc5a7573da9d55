//! Texts of values, cut where they are long.
ghost use Rattle.std.specs.Prelude.{◌≡◌, IfOk};
ghost use Rattle.std.specs.Str.{chars};
ghost use Rattle.std.specs.String.{string_bytes};
ghost use Rattle.tinyjson.specs.View.{view, items_view};
ghost use Rattle.tinyjson_view.specs.Views.{tree_of};
ghost use Rattle.tinyjson_schema_report.specs.Brief.{cut, brief, listed, brief_list, written};

use std::alloc::{AllocError, Global};
use tinyjson::JsonValue;
use tinyjson_view::ValueView;

/// How many characters of a text are shown.
const SHOWN: usize = 60;

/// The first characters of a text, and `...` if there are more.
fn cut(text: &str, alloc: Global) -> Result<String, AllocError>
    ensures { IfOk result (λ s. string_bytes s ≡ cut 60 (chars text.now)) }
{
    let mut words = String::new(alloc);
    let mut left = SHOWN;
    for c in text.chars() {
        let Some(less) = left.checked_sub(1) else {
            words.push_str("...")?;
            return Ok(words);
        };
        words.push(c)?;
        left = less;
    }
    Ok(words)
}

/// The value's text, cut.
pub fn brief(value: &JsonValue, alloc: Global) -> Result<String, AllocError>
    ensures { IfOk result (λ s. string_bytes s ≡ brief (view value.now)) }
{
    brief_of(&ValueView::InValue(value), alloc)
}

/// The text of a value that is checked, cut.
pub fn brief_of(value: &ValueView<'_>, alloc: Global) -> Result<String, AllocError>
    ensures { IfOk result (λ s. string_bytes s ≡ brief (tree_of value.now)) }
{
    let text = written(value, alloc)?;
    cut(text.as_str(), alloc)
}

/// The texts of the values, with commas between them, cut.
pub fn brief_list(values: &[JsonValue], alloc: Global) -> Result<String, AllocError>
    ensures { IfOk result (λ s. string_bytes s ≡ brief_list (items_view values.now)) }
{
    let text = listed(values, alloc)?;
    cut(text.as_str(), alloc)
}

fn listed(values: &[JsonValue], alloc: Global) -> Result<String, AllocError>
    ensures { IfOk result (λ s. string_bytes s ≡ listed (items_view values.now)) }
{
    let Some((first, more)) = values.split_first() else {
        return Ok(String::new(alloc));
    };
    let mut text = written(&ValueView::InValue(first), alloc)?;
    for value in more {
        let one = written(&ValueView::InValue(value), alloc)?;
        text.push_str(", ")?;
        text.push_str(one.as_str())?;
    }
    Ok(text)
}

/// The compact text of a value.
fn written(value: &ValueView<'_>, alloc: Global) -> Result<String, AllocError>
    ensures { IfOk result (λ s. string_bytes s ≡ written (tree_of value.now)) }
{
    match value.stringify(alloc) {
        Ok(text) => Ok(text),
        Err(_) => Err(AllocError),
    }
}
