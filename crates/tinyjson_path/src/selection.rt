//! The nodes that a query selects, all at once or one by one.
ghost use Rattle.std.specs.Prelude.{◌≡◌, ◌++◌, [], true, OnErr, IfOk, IfErr};
ghost use Rattle.tinyjson.specs.View.{view};
ghost use Rattle.tinyjson_document.specs.Document.{tree};
ghost use Rattle.tinyjson_path.specs.Nodes.{Takes, parts_view};
ghost use Rattle.tinyjson_path.specs.Patterns.{judged};
ghost use Rattle.tinyjson_path.specs.Queries.{query_parts};
ghost use Rattle.tinyjson_path.specs.Strings.{query_strings, strings_in, are_among, IsFrom};
ghost use Rattle.tinyjson_path.specs.Waiting.{waits_view, waits_strings};
ghost use Rattle.tinyjson_view.specs.Views.{tree_of};

use crate::node::Located;
use crate::patterns::{FindError, Patterns};
use crate::select::Finder;
use crate::waiting::{Waiting, first};
use std::alloc::{AllocError, Global};
use std::mem;
use tinyjson::JsonValue;
use tinyjson_path_query::{Query, Segment};
use tinyjson_view::ValueView;

/// Returns the nodes that the query selects in the value, in the order of RFC 9535, 2.1.2. A node that is selected
/// twice is returned twice. The members of an object come in the order of their keys' bytes, since the RFC leaves
/// their order open. Nodes borrow the value and the query. The errors are out of memory, and a regular expression that is
/// too deep or too large.
///
/// A regular expression that is a literal of the query is parsed once, when it is first needed; one from the value is
/// kept for the next node with the same one. What a filter asks of the root alone is found once for all nodes that it
/// tests. The stack grows with the nesting of the query, not with the depth of the value.
///
/// ```
/// let value = JsonValue::from_str(alloc, r#"{"a": [{"b": 1}, {"b": 2.50}]}"#)?;
/// let query = Query::parse(alloc, "$.a[?@.b > 1].b")?;
/// let nodes = find(&query, alloc, &value)?;
/// assert_eq!(rt; nodes.len(), 1);
/// let number = nodes[0].value.stringify(alloc)?;
/// assert_eq!(rt; number.as_str(), "2.5");
/// let path = path_text(alloc, &nodes[0].location)?;
/// assert_eq!(rt; path.as_str(), "$['a'][1]['b']");
/// ```
pub fn find<'v>(
    query: &'v Query,
    alloc: Global,
    value: &'v JsonValue,
) -> Result<Vec<Located<'v>>, FindError>
    ensures ok { IfOk result (λ v. parts_view v.items
        ≡ query_parts judged query.now (view value.now)) }
    ensures err { IfErr result (IsFrom (query_strings query.now ++ strings_in (view value.now))) }
{
    Selection::in_value(query, alloc, value)?.collect()
}

/// Returns the nodes that the query selects in a value of a document, as [`find`] does in a `JsonValue`.
///
/// ```
/// let document = Document::read(alloc, r#"{"a": [{"b": 1}, {"b": 2.50}]}"#)?;
/// let query = Query::parse(alloc, "$.a[?@.b > 1].b")?;
/// let nodes = find_in(&query, alloc, document.root())?;
/// assert_eq!(rt; nodes.len(), 1);
/// ```
pub fn find_in<'v>(
    query: &'v Query,
    alloc: Global,
    value: tinyjson_document::Node<'v>,
) -> Result<Vec<Located<'v>>, FindError>
    ensures ok { IfOk result (λ v. parts_view v.items
        ≡ query_parts judged query.now (tree value.entry)) }
    ensures err { IfErr result (IsFrom (query_strings query.now ++ strings_in (tree value.entry))) }
{
    Selection::in_document(query, alloc, value)?.collect()
}

/// The nodes that a query selects and that are still to come, in the order of [`find`]. Each is found when it is asked
/// for: a selection keeps none that came, however many there are, and of those to come only what is beside the way to
/// the next one.
///
/// ```
/// let value = JsonValue::from_str(alloc, r#"{"a": [{"b": 1}, {"b": 2.50}]}"#)?;
/// let query = Query::parse(alloc, "$.a[*].b")?;
/// let mut selection = Selection::in_value(&query, alloc, &value)?;
/// while let Some(node) = selection.next()? {
///     node.value.stringify(alloc)?; // 1, then 2.5
/// }
/// ```
#[derive(Drop)]
pub struct Selection<'v> {
    finder: Finder<'v>,
    segments: &'v [Segment],
    waiting: Vec<Waiting<'v>>,
    ghost within: { are_among (waits_strings (waits_view waiting.items))
        (strings_in (tree_of finder.root)) ≡ true },
}

impl<'v> Selection<'v> {
    ghost use Rattle.tinyjson_path.specs.Selections.{left, sources};

    /// What the query selects in the value. The only error is out of memory.
    ///
    /// ```
    /// let mut selection = Selection::in_value(&query, alloc, &value)?;
    /// ```
    pub fn in_value(
        query: &'v Query,
        alloc: Global,
        value: &'v JsonValue,
    ) -> Result<Selection<'v>, AllocError>
        ensures left { IfOk result (λ s. left s ≡ query_parts judged query.now (view value.now)) }
        ensures sources { IfOk result (λ s. sources s
            ≡ query_strings query.now ++ strings_in (view value.now)) }
    {
        Selection::below(query, alloc, ValueView::InValue(value))
    }

    /// What the query selects in a value of a document. The only error is out of memory.
    ///
    /// ```
    /// let document = Document::read(alloc, "[[1, 2], [3]]")?;
    /// let query = Query::parse(alloc, "$[*][0]")?;
    /// let mut selection = Selection::in_document(&query, alloc, document.root())?;
    /// let first = selection.next()?; // the node of 1
    /// ```
    pub fn in_document(
        query: &'v Query,
        alloc: Global,
        value: tinyjson_document::Node<'v>,
    ) -> Result<Selection<'v>, AllocError>
        ensures left { IfOk result (λ s. left s ≡ query_parts judged query.now (tree value.entry)) }
        ensures sources { IfOk result (λ s. sources s
            ≡ query_strings query.now ++ strings_in (tree value.entry)) }
    {
        Selection::below(query, alloc, ValueView::InDocument(value))
    }

    fn below(
        query: &'v Query,
        alloc: Global,
        root: ValueView<'v>,
    ) -> Result<Selection<'v>, AllocError>
        ensures left { IfOk result (λ s. left s
            ≡ query_parts judged query.now (tree_of root.entry)) }
        ensures sources { IfOk result (λ s. sources s
            ≡ query_strings query.now ++ strings_in (tree_of root.entry)) }
    {
        let waiting = first(alloc, root)?;
        let finder = Finder {
            alloc,
            root,
            answers: Vec::new(alloc),
            patterns: Patterns::new(alloc),
        };
        Ok(Selection {
            finder,
            segments: query.segments.as_slice(),
            waiting,
        })
    }

    /// The next node, or `None` if no more is selected. The errors are those of [`find`]. After an error `None`
    /// follows.
    ///
    /// ```
    /// while let Some(node) = selection.next()? {
    ///     node.value.write_to(alloc, &mut output)?;
    /// }
    /// ```
    pub fn next(&mut self) -> Result<Option<Located<'v>>, FindError>
        ensures next { IfOk result (Takes (left self.old) (left self.new)) }
        ensures sources { sources self.new ≡ sources self.old }
        ensures err { IfErr result (IsFrom (sources self.old)) }
        ensures ends { OnErr result (left self.new ≡ []) }
    {
        let nothing = Vec::new(self.finder.alloc);
        let mut waiting = mem::replace(&mut self.waiting, nothing);
        let next = self.finder.next_found(self.segments, &mut waiting)?;
        self.waiting = waiting;
        Ok(next)
    }

    fn collect(mut self) -> Result<Vec<Located<'v>>, FindError>
        ensures ok { IfOk result (λ v. parts_view v.items ≡ left self.entry) }
        ensures err { IfErr result (IsFrom (sources self.entry)) }
    {
        let mut nodes = Vec::new(self.finder.alloc);
        while let Some(node) = self.next()? {
            nodes.push(node)?;
        }
        Ok(nodes)
    }
}
