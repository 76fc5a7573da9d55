//! A value in a document or a `JsonValue`, as one type.
ghost use Rattle.std.specs.Prelude.{◌≡◌, IfOk, codes, string_bytes};
ghost use Rattle.std.specs.Str.{chars};
ghost use Rattle.tinyjson.specs.Equality.{tree_eq};
ghost use Rattle.tinyjson.specs.Text.{compact, indented};
ghost use Rattle.tinyjson.specs.View.{view};
ghost use Rattle.tinyjson.specs.Written.{WritesText};
ghost use Rattle.tinyjson_grammar.specs.Tree.{Tree};
ghost use Rattle.tinyjson_document.specs.Document.{tree as node_tree};
ghost use Rattle.tinyjson_view.specs.Views.{tree_of};

use std::alloc::Global;
use std::io::{self, Write};
use tinyjson::{JsonGenerateResult, JsonKind, JsonValue};
use tinyjson_document::{JsonView, Node, NumberView};

/// A value in a document, or a `JsonValue`. It is copied freely. Its kind, its scalars and its parts are those of
/// `JsonView`.
#[derive(Clone, Copy)]
pub enum ValueView<'v> {
    InDocument(Node<'v>),
    InValue(&'v JsonValue),
}

/// A member of an object: its value with its key.
#[derive(Clone, Copy)]
pub struct MemberView<'v> {
    pub key: &'v str,
    pub value: ValueView<'v>,
}

/// What can be read as a tree: a node of a document, or a `&JsonValue`.
///
/// Contracts see it as its `tree`.
pub trait AsView<'v>: Copy {
    ghost tree: { Self → Tree };

    /// It as the one type.
    ///
    /// ```
    /// let view = document.root().as_view();
    /// ```
    fn as_view(&self) -> ValueView<'v>
        ensures { tree_of result ≡ tree self.now };
}

impl<'v> AsView<'v> for Node<'v> {
    ghost tree = { node_tree };

    fn as_view(&self) -> ValueView<'v> {
        ValueView::InDocument(*self)
    }
}

impl<'v> AsView<'v> for &'v JsonValue {
    ghost tree = { λ v. view v.now };

    fn as_view(&self) -> ValueView<'v> {
        ValueView::InValue(*self)
    }
}

impl<'v> AsView<'v> for ValueView<'v> {
    ghost tree = { tree_of };

    fn as_view(&self) -> ValueView<'v> {
        *self
    }
}

impl<'v> ValueView<'v> {
    /// The compact text. The only error is out of memory.
    ///
    /// ```
    /// view.stringify(alloc)?; // of 2.50: 2.5
    /// ```
    pub fn stringify(&self, alloc: Global) -> JsonGenerateResult
        ensures { IfOk result (λ s. chars (string_bytes s) ≡ compact (tree_of self.now)) }
    {
        match self {
            ValueView::InDocument(node) => node.to_string(alloc),
            ValueView::InValue(value) => value.stringify(alloc),
        }
    }

    /// Writes the compact text in UTF-8. The errors are those of `JsonValue::write_to`.
    ///
    /// ```
    /// view.write_to(alloc, &mut output)?; // of 2.50: writes 2.5
    /// ```
    pub fn write_to<W: Write>(&self, alloc: Global, out: &mut W) -> io::Result<()>
        ensures { WritesText (W.contents out.old) (W.contents out.new)
            (compact (tree_of self.now)) result }
    {
        match self {
            ValueView::InDocument(node) => node.write_to(alloc, out),
            ValueView::InValue(value) => value.write_to(alloc, out),
        }
    }

    /// Writes the text indented with two spaces, in UTF-8. The errors are those of `JsonValue::format_to`.
    ///
    /// ```
    /// view.format_to(alloc, &mut output)?; // of [2.50]: writes "[\n  2.5\n]"
    /// ```
    pub fn format_to<W: Write>(&self, alloc: Global, out: &mut W) -> io::Result<()>
        ensures { WritesText (W.contents out.old) (W.contents out.new)
            (indented (tree_of self.now) (codes "  ") 0) result }
    {
        match self {
            ValueView::InDocument(node) => node.format_to(alloc, out),
            ValueView::InValue(value) => value.format_to(alloc, out),
        }
    }

    /// Whether both values are equal, by their trees.
    ///
    /// ```
    /// view.equals(&other) // of 1.50 and 1.5: true
    /// ```
    pub fn equals(&self, other: &ValueView<'_>) -> bool
        ensures { result ≡ tree_eq (tree_of self.now) (tree_of other.now) }
    {
        match (self, other) {
            (ValueView::InDocument(left), ValueView::InDocument(right)) => *left == *right,
            (ValueView::InDocument(left), ValueView::InValue(right)) => left.equals_value(right),
            (ValueView::InValue(left), ValueView::InDocument(right)) => right.equals_value(left),
            (ValueView::InValue(left), ValueView::InValue(right)) => **left == **right,
        }
    }

    /// Whether a value is equal to it, by their trees.
    ///
    /// ```
    /// view.equals_value(&value) // of 1.50 and 1.5: true
    /// ```
    pub fn equals_value(&self, value: &JsonValue) -> bool
        ensures { result ≡ tree_eq (tree_of self.now) (view value.now) }
    {
        match self {
            ValueView::InDocument(node) => node.equals_value(value),
            ValueView::InValue(own) => **own == *value,
        }
    }
}

impl<'v> JsonView<'v> for ValueView<'v> {
    ghost tree = { tree_of };

    fn kind(&self) -> JsonKind {
        match self {
            ValueView::InDocument(node) => node.kind(),
            ValueView::InValue(value) => JsonView::kind(value),
        }
    }

    fn boolean(&self) -> Option<bool> {
        match self {
            ValueView::InDocument(node) => node.boolean(),
            ValueView::InValue(value) => JsonView::boolean(value),
        }
    }

    fn number(&self) -> Option<NumberView<'v>> {
        match self {
            ValueView::InDocument(node) => node.number(),
            ValueView::InValue(value) => JsonView::number(value),
        }
    }

    fn string(&self) -> Option<&'v str> {
        match self {
            ValueView::InDocument(node) => node.string(),
            ValueView::InValue(value) => JsonView::string(value),
        }
    }

    fn len(&self) -> usize {
        match self {
            ValueView::InDocument(node) => node.len(),
            ValueView::InValue(value) => JsonView::len(value),
        }
    }

    fn item(&self, index: usize) -> Option<ValueView<'v>> {
        match self {
            ValueView::InDocument(node) => Some(ValueView::InDocument(node.item(index)?)),
            ValueView::InValue(value) => Some(ValueView::InValue(JsonView::item(value, index)?)),
        }
    }

    fn member(&self, key: &str) -> Option<ValueView<'v>> {
        match self {
            ValueView::InDocument(node) => Some(ValueView::InDocument(node.member(key)?)),
            ValueView::InValue(value) => Some(ValueView::InValue(JsonView::member(value, key)?)),
        }
    }
}
