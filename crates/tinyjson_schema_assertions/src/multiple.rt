//! `multipleOf`: multiples of a number.
ghost use Rattle.std.specs.Prelude.{◌≡◌};
ghost use Rattle.tinyjson.specs.View.{view};
ghost use Rattle.tinyjson_view.specs.Views.{tree_of};
ghost use Rattle.tinyjson_schema_assertions.specs.Assertions.{are_multiple};

use tinyjson::JsonValue;
use tinyjson_document::JsonView;
use tinyjson_schema_keywords::Walk;
use tinyjson_view::ValueView;

/// Whether the number is a multiple of the divisor; true if one is no number, or the divisor is not allowed. Division by a
/// long one takes steps of the walk's budget.
pub fn are_multiple(number: &ValueView<'_>, divisor: &JsonValue, walk: Walk<'_, '_>) -> bool
    ensures { result ≡ are_multiple (tree_of number.now) (view divisor.now) }
{
    charge(number, divisor, walk);
    are_divided(number, divisor)
}

fn are_divided(number: &ValueView<'_>, divisor: &JsonValue) -> bool
    ensures { result ≡ are_multiple (tree_of number.now) (view divisor.now) }
{
    let JsonValue::Number(divisor) = divisor else {
        return true;
    };
    let Some(number) = number.number() else {
        return true;
    };
    !divisor.is_divisor() || number.as_number().is_multiple(divisor)
}

/// Takes the steps of a division: none for a divisor of up to 19 digits.
fn charge(number: &ValueView<'_>, divisor: &JsonValue, walk: Walk<'_, '_>) {
    if let (Some(number), JsonValue::Number(divisor)) = (number.number(), divisor) {
        let len = divisor.digits().len();
        let digits = len
            .saturating_mul(4)
            .saturating_add(number.as_number().digits().len());
        walk.whole
            .budget
            .charge(digits.saturating_mul(len / 20) / 51);
    }
}
