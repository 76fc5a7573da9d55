//! A value in a document.
ghost use Rattle.tinyjson_document.specs.Known.{Known, Known_prop};

use crate::document::Document;
use crate::equality::equals;
use crate::iterators::{Items, Members};
use crate::number::NumberView;
use tinyjson::{JsonKind, JsonValue};
use tinyjson_cells::sorting::find;
use tinyjson_cells::store::{Cell, Span, part, text_at};

/// A value in a document. It is a reference and an index, so it is copied freely.
///
/// Contracts see it as its `tree`: the part of the document's tree that it stands for.
///
/// ```
/// let document = Document::read(alloc, r#"{"b": [1.50], "a": null}"#)?;
/// let root = document.root();
/// assert!(rt; root.is_object());
/// assert!(rt; root.member("a").is_some_and(|node| node.is_null()));
/// ```
#[derive(Clone, Copy)]
pub struct Node<'d> {
    pub(crate) document: &'d Document,
    pub(crate) cell: Cell,
    ghost known: { Known document.now.store cell } by { Known_prop document.now.store cell },
}

impl<'d> Node<'d> {
    ghost use Rattle.std.specs.Prelude.{◌≡◌, option_map};
    ghost use Rattle.std.specs.Str.{chars};
    ghost use Rattle.tinyjson.specs.Access.{is_array, is_boolean, is_null, is_number, is_object};
    ghost use Rattle.tinyjson.specs.Access.{is_string};
    ghost use Rattle.tinyjson.specs.Equality.{tree_eq};
    ghost use Rattle.tinyjson.specs.Index.{tree_at, tree_at_key};
    ghost use Rattle.tinyjson.specs.View.{view};
    ghost use Rattle.tinyjson_grammar.specs.Kind.{kind_of};
    ghost use Rattle.tinyjson_document.specs.Document.{tree, items_left, members_left};
    ghost use Rattle.tinyjson_document.specs.Numbers.{decimal_of};
    ghost use Rattle.tinyjson_document.specs.Parts.{boolean_in, number_in, string_in, size};
    ghost use Rattle.tinyjson_document.specs.Parts.{items_in, members_in};

    /// The kind of the value.
    ///
    /// ```
    /// let document = Document::read(alloc, r#"{"a": null}"#)?;
    /// assert!(rt; document.root().kind() == JsonKind::Object);
    /// ```
    pub fn kind(&self) -> JsonKind
        ensures { result ≡ kind_of (tree self.now) }
    {
        match self.cell {
            Cell::Null => JsonKind::Null,
            Cell::Boolean(_) => JsonKind::Boolean,
            Cell::Short(_) | Cell::Kept(_) => JsonKind::Number,
            Cell::String(_) => JsonKind::String,
            Cell::Array(_) => JsonKind::Array,
            Cell::Object(_) => JsonKind::Object,
        }
    }

    /// Whether it is null.
    pub fn is_null(&self) -> bool
        ensures { result ≡ is_null (tree self.now) }
    {
        matches!(self.cell, Cell::Null)
    }

    /// Whether it is a boolean.
    pub fn is_bool(&self) -> bool
        ensures { result ≡ is_boolean (tree self.now) }
    {
        matches!(self.cell, Cell::Boolean(_))
    }

    /// Whether it is a number.
    pub fn is_number(&self) -> bool
        ensures { result ≡ is_number (tree self.now) }
    {
        matches!(self.cell, Cell::Short(_) | Cell::Kept(_))
    }

    /// Whether it is a string.
    pub fn is_string(&self) -> bool
        ensures { result ≡ is_string (tree self.now) }
    {
        matches!(self.cell, Cell::String(_))
    }

    /// Whether it is an array.
    pub fn is_array(&self) -> bool
        ensures { result ≡ is_array (tree self.now) }
    {
        matches!(self.cell, Cell::Array(_))
    }

    /// Whether it is an object.
    pub fn is_object(&self) -> bool
        ensures { result ≡ is_object (tree self.now) }
    {
        matches!(self.cell, Cell::Object(_))
    }

    /// The boolean, or `None` if the value is of another kind.
    ///
    /// ```
    /// node.boolean() // of true: Some(true); of null: None
    /// ```
    pub fn boolean(&self) -> Option<bool>
        ensures { result ≡ boolean_in (tree self.now) }
    {
        match self.cell {
            Cell::Boolean(boolean) => Some(boolean),
            _ => None,
        }
    }

    /// The number, exact, or `None` if the value is of another kind.
    ///
    /// ```
    /// node.number() // of 1.50: the number 1.5; of "1.5": None
    /// ```
    pub fn number(&self) -> Option<NumberView<'d>>
        ensures { option_map decimal_of result ≡ number_in (tree self.now) }
    {
        match self.cell {
            Cell::Short(span) => match self.document.store.short_number(span) {
                Some(number) => Some(NumberView::Made(number)),
                None => None,
            },
            Cell::Kept(index) => match self.document.store.kept_number(index) {
                Some(number) => Some(NumberView::Kept(number)),
                None => None,
            },
            _ => None,
        }
    }

    /// The characters of the string, or `None` if the value is of another kind.
    ///
    /// ```
    /// node.string() // of "a\u0062": Some("ab"); of 1: None
    /// ```
    pub fn string(&self) -> Option<&'d str>
        ensures { option_map (λ s. chars s.now) result ≡ string_in (tree self.now) }
    {
        match self.cell {
            Cell::String(span) => text_at(&self.document.store.texts, span),
            _ => None,
        }
    }

    /// The number of items or members; 0 for a scalar.
    ///
    /// ```
    /// node.len() // of [7,8]: 2; of {"a":1}: 1; of "ab": 0
    /// ```
    pub fn len(&self) -> usize
        ensures { result ≡ size (tree self.now) }
    {
        match self.cell {
            Cell::Array(span) => part(&self.document.store.items, span).len(),
            Cell::Object(span) => part(&self.document.store.members, span).len(),
            _ => 0,
        }
    }

    /// The item at the index, from 0 on. `None` if there is none, or if the value is no array.
    ///
    /// ```
    /// node.item(1) // of [7,8]: the node of 8; of {"1":8}: None
    /// ```
    pub fn item(&self, index: usize) -> Option<Node<'d>>
        ensures { option_map tree result ≡ tree_at (tree self.now) index }
    {
        let Cell::Array(span) = self.cell else {
            return None;
        };
        let cell = part(&self.document.store.items, span).get(index)?;
        Some(Node {
            document: self.document,
            cell: *cell,
        })
    }

    /// The member with the key: of equal keys in the text, the last one. `None` if there is none, or if the value
    /// is no object. It is found by binary search.
    ///
    /// ```
    /// node.member("a") // of {"a":1,"a":2}: the node of 2
    /// ```
    pub fn member(&self, key: &str) -> Option<Node<'d>>
        ensures { option_map tree result ≡ tree_at_key (tree self.now) (chars key.now) }
    {
        let Cell::Object(span) = self.cell else {
            return None;
        };
        let store = &self.document.store;
        let member = find(&store.texts, part(&store.members, span), key.as_bytes())?;
        Some(Node {
            document: self.document,
            cell: member.value,
        })
    }

    /// The items, in order; none if the value is no array.
    ///
    /// ```
    /// node.items().next() // of [7,8]: the node of 7
    /// ```
    pub fn items(&self) -> Items<'d>
        ensures { items_left result ≡ items_in (tree self.now) }
    {
        let span = match self.cell {
            Cell::Array(span) => span,
            _ => Span { from: 0, to: 0 },
        };
        Items {
            document: self.document,
            rest: part(&self.document.store.items, span),
        }
    }

    /// The members with their keys, in the order of the keys' bytes; none if the value is no object.
    ///
    /// ```
    /// node.members().next() // of {"b":1,"a":2}: "a" and the node of 2
    /// ```
    pub fn members(&self) -> Members<'d>
        ensures { members_left result ≡ members_in (tree self.now) }
    {
        let span = match self.cell {
            Cell::Object(span) => span,
            _ => Span { from: 0, to: 0 },
        };
        Members {
            document: self.document,
            rest: part(&self.document.store.members, span),
        }
    }

    /// Whether a value is equal to it, as [`Node::eq`] compares two nodes.
    ///
    /// ```
    /// let document = Document::read(alloc, r#"{"a": [1.50]}"#)?;
    /// let value = JsonValue::from_str(alloc, r#"{"a":[1.5]}"#)?;
    /// assert!(rt; document.root().equals_value(&value));
    /// ```
    pub fn equals_value(&self, value: &JsonValue) -> bool
        ensures { result ≡ tree_eq (tree self.now) (view value.now) }
    {
        equals(*self, value)
    }
}

/// Two nodes are equal if their trees are: arrays item by item, objects with the same keys and equal members at
/// each. Of one document or of two.
///
/// The comparison takes no memory up to 64 nested containers. What is nested deeper is compared by a loop, whose
/// stack is on the heap, and by a recursion where memory for that is refused.
///
/// ```
/// let one = Document::read(alloc, r#"{"a": 1, "b": [2]}"#)?;
/// let other = Document::read(alloc, r#"{"b": [2.0], "a": 1}"#)?;
/// assert!(rt; one.root() == other.root());
/// ```
impl<'d> PartialEq for Node<'d> {
    ghost use Rattle.std.specs.Cmp.{partial_equiv_from_equiv};
    ghost use Rattle.tinyjson_document.specs.Equality.{same_tree, same_tree_equiv};

    ghost eq = { same_tree };

    ghost laws = { partial_equiv_from_equiv same_tree_equiv };

    fn eq(&self, other: &Node<'d>) -> bool {
        equals(*self, *other)
    }
}

impl<'d> Eq for Node<'d> {
    ghost use Rattle.tinyjson_document.specs.Equality.{same_tree_equiv};

    ghost laws = { same_tree_equiv };
}
