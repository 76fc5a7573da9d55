//! Which values are the same for each node that a filter tests.
ghost use Rattle.std.specs.Prelude.{◌≡◌, true};
ghost use Rattle.tinyjson.specs.Tree.{Tree};
ghost use Rattle.tinyjson_path.specs.Comparing.{origin_tree};
ghost use Rattle.tinyjson_path.specs.Queries.{comparable_value, holds_of};

use tinyjson_path_query::{Comparable, Expression, FunctionExpression, Origin};

/// Whether the value is a literal, or asks of the root alone.
pub(crate) fn is_steady(comparable: &Comparable) -> bool
    ensures { result ≡ true → (root here : Tree)
        → comparable_value comparable.now root here ≡ comparable_value comparable.now root root }
{
    match comparable {
        Comparable::Literal(_) => true,
        Comparable::SingularQuery(query) => is_root(query.origin),
        Comparable::Function(function) => match function {
            FunctionExpression::Length(argument) => is_steady(argument),
            FunctionExpression::Count(query) => is_root(query.origin),
            FunctionExpression::Value(query) => is_root(query.origin),
        },
    }
}

/// Whether the expression compares or matches steady values alone.
pub(crate) fn is_test_steady(expression: &Expression) -> bool
    ensures { result ≡ true → (root here : Tree)
        → holds_of expression.now root here ≡ holds_of expression.now root root }
{
    match expression {
        Expression::Comparison(_, left, right) => is_steady(left) && is_steady(right),
        Expression::Pattern(_, value, pattern) => is_steady(value) && is_steady(pattern),
        _ => false,
    }
}

fn is_root(origin: Origin) -> bool
    ensures { result ≡ true → (root here : Tree) → origin_tree origin root here ≡ root }
{
    match origin {
        Origin::Root => true,
        Origin::CurrentNode => false,
    }
}
