//! Equality of a value in a document and of what is looked into, by their trees.
ghost use Rattle.std.specs.Prelude.{◌≡◌, ◌<◌, ◌≤◌, ◌+◌, option_map};
ghost use Rattle.std.specs.Bool.{beq};
ghost use Rattle.std.specs.Str.{bytes_eq, chars};
ghost use Rattle.tinyjson.specs.Equality.{tree_eq, items_eq, members_eq};
ghost use Rattle.tinyjson.specs.Index.{tree_at, tree_at_key};
ghost use Rattle.tinyjson_grammar.specs.Kind.{kind_of};
ghost use Rattle.tinyjson_grammar.specs.Soundness.{IsTree};
ghost use Rattle.tinyjson_grammar.specs.Tree.{Tree};
ghost use Rattle.tinyjson_grammar.specs.declared.kind.JsonKind.TheVariants as kind;
ghost use Rattle.tinyjson_number.specs.Number.{decimal_eq};
ghost use Rattle.tinyjson_document.specs.Comparing.{are_among, both, items_from, scalar_eq};
ghost use Rattle.tinyjson_document.specs.Comparing.{compared_eq, rest_eq, step_eq};
ghost use Rattle.tinyjson_document.specs.Comparing.{compared_weight, rest_weight, step_weight};
ghost use Rattle.tinyjson_document.specs.Comparing.{weight, items_weight, members_weight};
ghost use Rattle.tinyjson_document.specs.Document.{items_left, members_left};
ghost use Rattle.tinyjson_document.specs.Document.{tree as node_tree};
ghost use Rattle.tinyjson_document.specs.Numbers.{decimal_of};
ghost use Rattle.tinyjson_document.specs.Parts.{boolean_in, items_in, members_in, number_in, size, string_in};

use crate::iterators::{Items, Members};
use crate::node::Node;
use crate::number::NumberView;
use crate::view::JsonView;
use std::alloc::Global;
use tinyjson::{JsonKind, JsonValue};

/// What a node is compared with: a [`JsonView`] whose parts need no lifetime.
pub(crate) trait Other: Copy {
    ghost tree: { Self → Tree };

    fn kind(&self) -> JsonKind
        ensures { result ≡ kind_of (tree self.now) };

    /// Whether both are the same scalar.
    fn is_same_scalar(&self, node: Node<'_>) -> bool
        ensures { result ≡ scalar_eq (node_tree node.entry) (tree self.now) };

    fn len(&self) -> usize
        ensures { result ≡ size (tree self.now) };

    fn item(&self, index: usize) -> Option<Self>
        ensures { option_map tree result ≡ tree_at (tree self.now) index };

    fn member(&self, key: &str) -> Option<Self>
        ensures { option_map tree result ≡ tree_at_key (tree self.now) (chars key.now) };

    ghost sound: { (v : Self) → ∥ IsTree (tree v) ∥₁ };
}

impl<'o> Other for Node<'o> {
    ghost tree = { node_tree };

    fn kind(&self) -> JsonKind {
        Node::kind(self)
    }

    fn is_same_scalar(&self, node: Node<'_>) -> bool {
        is_same_scalar(
            node,
            Node::kind(self),
            Node::boolean(self),
            Node::number(self),
            Node::string(self),
        )
    }

    fn len(&self) -> usize {
        Node::len(self)
    }

    fn item(&self, index: usize) -> Option<Node<'o>> {
        Node::item(self, index)
    }

    fn member(&self, key: &str) -> Option<Node<'o>> {
        Node::member(self, key)
    }

    ghost sound = { λ n. n.known.sound };
}

impl<'o> Other for &'o JsonValue {
    ghost use Rattle.tinyjson.proofs.Callers.{view_IsTree};
    ghost use Rattle.tinyjson.specs.View.{view};

    ghost tree = { λ v. view v.now };

    fn kind(&self) -> JsonKind {
        JsonView::kind(self)
    }

    fn is_same_scalar(&self, node: Node<'_>) -> bool {
        is_same_scalar(
            node,
            JsonView::kind(self),
            JsonView::boolean(self),
            JsonView::number(self),
            JsonView::string(self),
        )
    }

    fn len(&self) -> usize {
        JsonView::len(self)
    }

    fn item(&self, index: usize) -> Option<&'o JsonValue> {
        JsonView::item(self, index)
    }

    fn member(&self, key: &str) -> Option<&'o JsonValue> {
        JsonView::member(self, key)
    }

    ghost sound = { λ v. ∣ view_IsTree v.now ∣₁ };
}

/// The number of levels that are compared by a recursion.
const NEAR: usize = 64;

/// What is left to be compared of two arrays, or of an object and one with as many members.
#[derive(Clone, Copy, Drop)]
pub(crate) enum Rest<'d, V> {
    Items {
        items: Items<'d>,
        other: V,
        index: usize,
    },
    Members {
        members: Members<'d>,
        other: V,
    },
}

/// Whether two values are the same, or what has to be compared for that.
#[derive(Clone, Copy, Drop)]
pub(crate) enum Compared<'d, V> {
    Known(bool),
    Inside(Rest<'d, V>),
}

/// Whether two rests are the same; or two containers in them, and what is left after those.
#[derive(Clone, Copy, Drop)]
pub(crate) enum Step<'d, V> {
    Known(bool),
    Inside(Rest<'d, V>, Rest<'d, V>),
}

/// Whether both have one tree.
///
/// It recurses over the outer 64 levels, and compares deeper ones by a loop, whose stack is on the heap. Where
/// memory for that is refused, it recurses over the levels that are left.
pub(crate) fn equals<'d, V: Other>(node: Node<'d>, other: V) -> bool
    ensures { result ≡ tree_eq (node_tree node.entry) (V.tree other) }
{
    let alloc = *node.document.store.items.allocator();
    match compare(node, other) {
        Compared::Known(same) => same,
        Compared::Inside(rest) => compare_near(rest, NEAR - 1, alloc),
    }
}

/// Compares two values as far as that needs no look into containers.
fn compare<'d, V: Other>(node: Node<'d>, other: V) -> Compared<'d, V>
    ensures same { compared_eq V.tree result ≡ tree_eq (node_tree node.entry) (V.tree other) }
    ensures left { compared_weight result ≤ weight (node_tree node.entry) }
{
    match node.kind() {
        JsonKind::Array => compare_arrays(node, other),
        JsonKind::Object => compare_objects(node, other),
        _ => Compared::Known(other.is_same_scalar(node)),
    }
}

fn compare_arrays<'d, V: Other>(node: Node<'d>, other: V) -> Compared<'d, V>
    requires array { kind_of (node_tree node) ≡ kind.Array }
    ensures same { compared_eq V.tree result ≡ tree_eq (node_tree node.entry) (V.tree other) }
    ensures left { compared_weight result ≤ weight (node_tree node.entry) }
{
    if other.kind() != JsonKind::Array {
        return Compared::Known(false);
    }
    Compared::Inside(Rest::Items {
        items: node.items(),
        other,
        index: 0,
    })
}

fn compare_objects<'d, V: Other>(node: Node<'d>, other: V) -> Compared<'d, V>
    requires object { kind_of (node_tree node) ≡ kind.Object }
    ensures same { compared_eq V.tree result ≡ tree_eq (node_tree node.entry) (V.tree other) }
    ensures left { compared_weight result ≤ weight (node_tree node.entry) }
{
    if other.kind() != JsonKind::Object {
        return Compared::Known(false);
    }
    if node.len() != other.len() {
        return Compared::Known(false);
    }
    Compared::Inside(Rest::Members {
        members: node.members(),
        other,
    })
}

/// Whether a node is the same scalar as what has that kind and those parts.
fn is_same_scalar(
    node: Node<'_>,
    kind: JsonKind,
    boolean: Option<bool>,
    number: Option<NumberView<'_>>,
    string: Option<&str>,
) -> bool
    ensures { (u : Tree) → kind ≡ kind_of u → boolean ≡ boolean_in u
        → option_map decimal_of number.entry ≡ number_in u
        → option_map (λ s. chars s.now) string.entry ≡ string_in u
        → result ≡ scalar_eq (node_tree node.entry) u }
{
    match node.kind() {
        JsonKind::Null => kind == JsonKind::Null,
        JsonKind::Boolean => match (node.boolean(), boolean) {
            (Some(boolean), Some(other)) => boolean == other,
            _ => false,
        },
        JsonKind::Number => is_same_number(node.number(), number),
        JsonKind::String => match (node.string(), string) {
            (Some(string), Some(other)) => is_same_text(string, other),
            _ => false,
        },
        _ => false,
    }
}

fn is_same_number(number: Option<NumberView<'_>>, other: Option<NumberView<'_>>) -> bool
    ensures { result ≡ both decimal_eq (option_map decimal_of number.entry)
        (option_map decimal_of other.entry) }
{
    match (number, other) {
        (Some(number), Some(other)) => *number.as_number() == *other.as_number(),
        _ => false,
    }
}

fn is_same_text(text: &str, other: &str) -> bool
    ensures { result ≡ bytes_eq (chars text.now) (chars other.now) }
{
    text == other
}

/// Compares up to two containers at the same place.
fn next<'d, V: Other>(rest: Rest<'d, V>) -> Step<'d, V>
    ensures same { step_eq V.tree result ≡ rest_eq V.tree rest.entry }
    ensures left { step_weight result < rest_weight rest.entry }
{
    match rest {
        Rest::Items {
            items,
            other,
            index,
        } => next_items(items, other, index),
        Rest::Members { members, other } => next_members(members, other),
    }
}

fn next_items<'d, V: Other>(items: Items<'d>, other: V, index: usize) -> Step<'d, V>
    ensures same { step_eq V.tree result
        ≡ items_eq (items_left items.entry) (items_from index (items_in (V.tree other))) }
    ensures left { step_weight result ≤ items_weight (items_left items.entry) }
{
    let count = other.len();
    let mut items = items;
    let mut index = index;
    while let Some(item) = items.next() {
        if index >= count {
            return Step::Known(false);
        }
        let Some(part) = other.item(index) else {
            return Step::Known(false);
        };
        index += 1;
        match compare(item, part) {
            Compared::Known(true) => {}
            Compared::Known(false) => return Step::Known(false),
            Compared::Inside(inner) => {
                let outer = Rest::Items {
                    items,
                    other,
                    index,
                };
                return Step::Inside(inner, outer);
            }
        }
    }
    Step::Known(other.item(index).is_none())
}

fn next_members<'d, V: Other>(members: Members<'d>, other: V) -> Step<'d, V>
    ensures same { step_eq V.tree result
        ≡ are_among (members_left members.entry) (members_in (V.tree other)) }
    ensures left { step_weight result ≤ members_weight (members_left members.entry) }
{
    let mut members = members;
    while let Some((key, member)) = members.next() {
        let Some(part) = other.member(key) else {
            return Step::Known(false);
        };
        match compare(member, part) {
            Compared::Known(true) => {}
            Compared::Known(false) => return Step::Known(false),
            Compared::Inside(inner) => {
                return Step::Inside(inner, Rest::Members { members, other });
            }
        }
    }
    Step::Known(true)
}

/// Compares this number of levels by a recursion, and deeper ones by a loop.
fn compare_near<'d, V: Other>(rest: Rest<'d, V>, levels: usize, alloc: Global) -> bool
    ensures { result ≡ rest_eq V.tree rest.entry }
{
    let mut rest = rest;
    loop {
        rest = match next(rest) {
            Step::Known(same) => return same,
            Step::Inside(inner, outer) => {
                let equal = match levels.checked_sub(1) {
                    Some(fewer) => compare_near(inner, fewer, alloc),
                    None => compare_all(inner, alloc),
                };
                if !equal {
                    return false;
                }
                outer
            }
        };
    }
}

/// Compares by a loop, the innermost containers first.
fn compare_all<'d, V: Other>(rest: Rest<'d, V>, alloc: Global) -> bool
    ensures { result ≡ rest_eq V.tree rest.entry }
{
    let mut stack = Vec::new(alloc);
    let mut rest = rest;
    loop {
        rest = match next(rest) {
            Step::Known(false) => return false,
            Step::Known(true) => match stack.pop() {
                Some(outer) => outer,
                None => return true,
            },
            Step::Inside(inner, outer) => match stack.push(outer) {
                Ok(()) => inner,
                Err(refused) => {
                    if !compare_deep(inner) {
                        return false;
                    }
                    refused.value
                }
            },
        };
    }
}

/// Compares by a recursion, without memory.
fn compare_deep<'d, V: Other>(rest: Rest<'d, V>) -> bool
    ensures { result ≡ rest_eq V.tree rest.entry }
{
    let mut rest = rest;
    loop {
        rest = match next(rest) {
            Step::Known(same) => return same,
            Step::Inside(inner, outer) => {
                if !compare_deep(inner) {
                    return false;
                }
                outer
            }
        };
    }
}
