//! One trait for reading a tree, whatever type holds it.
ghost use Rattle.std.specs.Prelude.{◌≡◌, Option, option_map};
ghost use Rattle.std.specs.Str.{chars};
ghost use Rattle.tinyjson.specs.Index.{tree_at, tree_at_key};
ghost use Rattle.tinyjson_grammar.specs.Kind.{kind_of};
ghost use Rattle.tinyjson_grammar.specs.Tree.{Tree};
ghost use Rattle.tinyjson_document.specs.Numbers.{decimal_of};
ghost use Rattle.tinyjson_document.specs.Parts.{boolean_in, number_in, string_in, size};

use crate::node::Node;
use crate::number::NumberView;
use tinyjson::{JsonKind, JsonValue};

/// A tree to be read: a value in a document, or a `&JsonValue`. A search or a check that is written for this trait
/// works on both, and is proved once.
///
/// Contracts see it as its `tree`.
///
/// ```
/// fn is_named<'t, V: JsonView<'t>>(view: V, name: &str) -> bool {
///     match view.member("name") {
///         Some(part) => part.string() == Some(name),
///         None => false,
///     }
/// }
/// ```
pub trait JsonView<'t>: Copy {
    ghost tree: { Self → Tree };

    /// The kind of the value.
    fn kind(&self) -> JsonKind
        ensures { result ≡ kind_of (tree self.now) };

    /// The boolean, or `None` if the value is of another kind.
    fn boolean(&self) -> Option<bool>
        ensures { result ≡ boolean_in (tree self.now) };

    /// The number, exact, or `None` if the value is of another kind.
    fn number(&self) -> Option<NumberView<'t>>
        ensures { option_map decimal_of result ≡ number_in (tree self.now) };

    /// The characters of the string, or `None` if the value is of another kind.
    fn string(&self) -> Option<&'t str>
        ensures { option_map (λ s. chars s.now) result ≡ string_in (tree self.now) };

    /// The number of items or members; 0 for a scalar.
    fn len(&self) -> usize
        ensures { result ≡ size (tree self.now) };

    /// The item at the index, from 0 on. `None` if there is none, or if the value is no array.
    fn item(&self, index: usize) -> Option<Self>
        ensures { option_map tree result ≡ tree_at (tree self.now) index };

    /// The member with the key. `None` if there is none, or if the value is no object.
    fn member(&self, key: &str) -> Option<Self>
        ensures { option_map tree result ≡ tree_at_key (tree self.now) (chars key.now) };
}

impl<'d> JsonView<'d> for Node<'d> {
    ghost use Rattle.tinyjson_document.specs.Document.{tree as node_tree};

    ghost tree = { node_tree };

    fn kind(&self) -> JsonKind {
        Node::kind(self)
    }

    fn boolean(&self) -> Option<bool> {
        Node::boolean(self)
    }

    fn number(&self) -> Option<NumberView<'d>> {
        Node::number(self)
    }

    fn string(&self) -> Option<&'d str> {
        Node::string(self)
    }

    fn len(&self) -> usize {
        Node::len(self)
    }

    fn item(&self, index: usize) -> Option<Node<'d>> {
        Node::item(self, index)
    }

    fn member(&self, key: &str) -> Option<Node<'d>> {
        Node::member(self, key)
    }
}

impl<'v> JsonView<'v> for &'v JsonValue {
    ghost use Rattle.tinyjson.specs.View.{view};

    ghost tree = { λ v. view v.now };

    fn kind(&self) -> JsonKind {
        JsonValue::kind(self)
    }

    fn boolean(&self) -> Option<bool> {
        match self {
            JsonValue::Boolean(boolean) => Some(*boolean),
            _ => None,
        }
    }

    fn number(&self) -> Option<NumberView<'v>> {
        match self {
            JsonValue::Number(number) => Some(NumberView::Kept(number)),
            _ => None,
        }
    }

    fn string(&self) -> Option<&'v str> {
        match self {
            JsonValue::String(string) => Some(string.as_str()),
            _ => None,
        }
    }

    fn len(&self) -> usize {
        match self {
            JsonValue::Array(items) => items.len(),
            JsonValue::Object(members) => members.len(),
            _ => 0,
        }
    }

    fn item(&self, index: usize) -> Option<&'v JsonValue> {
        match self {
            JsonValue::Array(items) => items.get(index),
            _ => None,
        }
    }

    fn member(&self, key: &str) -> Option<&'v JsonValue> {
        match self {
            JsonValue::Object(members) => members.get(key),
            _ => None,
        }
    }
}
