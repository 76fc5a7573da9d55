//! What a query selects in a value, or what is left without it.
ghost use Rattle.std.specs.Prelude.{◌≡◌, List, Some};
ghost use Rattle.tinyjson.specs.Written.{WritesPrefix};
ghost use Rattle.tinyjson_document.specs.Document.{tree};
ghost use Rattle.tinyjson_path.specs.Nodes.{Part, Step, parts_view};
ghost use Rattle.tinyjson_path.specs.Patterns.{judged};
ghost use Rattle.tinyjson_path.specs.Selections.{left};
ghost use Rattle.json_path.specs.Places.{has_path, IsBounded};
ghost use Rattle.json_path.specs.Selected.{Answers, AnswersWanted, GivesNodes};
ghost use Rattle.json_path.specs.Selected.{GivesSelected, GivesRest, is_answer, printed, unanswered_message};
ghost use Rattle.json_path.specs.Shapes.{begun};
ghost use Rattle.json_path.specs.Without.{is_at};
ghost use Rattle.json_path.specs.declared.selected.Wanted.TheVariants.{Rest, Selected};

use crate::array::{write_array, write_array_begun};
use crate::lines::{write_lines, write_lines_begun};
use crate::places::Places;
use crate::rest::write_without;
use std::alloc::Global;
use std::fmt;
use std::io::{self, ErrorKind, Write};
use tinyjson_document::Node;
use tinyjson_lines::write_all;
use tinyjson_path::{FindError, Located, PatternLimit, Query, Selection, find_in, has_pattern};

/// The form of a value's text.
#[derive(Clone, Copy)]
pub enum Layout {
    Compact,
    /// Indented with two spaces.
    Indented,
}

/// What is written of a node. In an array each text is compact.
#[derive(Clone, Copy)]
pub enum Shape {
    /// The text of its value.
    Value(Layout),
    /// The characters of a string, or else the text of its value.
    Raw(Layout),
    /// Its normalized path.
    Path,
}

/// How what is selected is written.
#[derive(Clone, Copy)]
pub struct Form {
    /// What is written of each node.
    pub shape: Shape,
    /// Whether the nodes are written as one array on a line, and not each on a line.
    pub is_array: bool,
    /// Whether it is an answer that nothing is selected.
    pub or_none: bool,
}

/// What is asked of a value.
#[derive(Clone, Copy)]
pub enum Wanted {
    /// What the query selects, in this form.
    Selected(Form),
    /// The value without what the query selects.
    Rest,
}

/// Why a value has no answer.
#[derive(Drop)]
pub enum Unanswered {
    /// The query selects no node.
    NoNode,
    /// The query selects the whole value, and nothing would be left.
    NothingLeft,
    /// A regular expression of `match` or `search` is too deep or too large.
    Pattern(PatternLimit),
}

/// The message that the program writes.
impl fmt::Display for Unanswered {
    ghost output = { λ why. Some (unanswered_message why) };

    fn fmt<W: fmt::Write>(&self, f: &mut fmt::Formatter<W>) -> fmt::Result {
        match self {
            Unanswered::NoNode => f.write_str("the query selects no node"),
            Unanswered::NothingLeft => f.write_str("nothing is left"),
            Unanswered::Pattern(limit) => write!(f, "{limit}"),
        }
    }
}

/// Writes what the query selects in the value, in order, or the value without it; or returns why there is no answer.
///
/// After an error of the writer, or if memory runs out, a prefix may be written. The value may be nested to any depth.
///
/// ```
/// write_answer(alloc, &query, value, wanted, &mut output)?; // of $.a[1:] in {"a":[1,2,3]}: 2 and 3, on a line each
/// ```
pub fn write_answer<W: Write>(
    alloc: Global,
    query: &Query,
    value: Node<'_>,
    wanted: Wanted,
    output: &mut W,
) -> io::Result<Option<Unanswered>>
    ensures { AnswersWanted wanted query.now (tree value.entry)
        (W.contents output.old) (W.contents output.new) result }
{
    write_found(alloc, query, value, wanted, output)
}

fn write_found<W: Write>(
    alloc: Global,
    query: &Query,
    root: Node<'_>,
    wanted: Wanted,
    output: &mut W,
) -> io::Result<Option<Unanswered>>
    ensures { Answers (GivesNodes judged wanted query.now (tree root.entry))
        (W.contents output.old) (W.contents output.new) result }
{
    match wanted {
        Wanted::Selected(form) => write_selection(alloc, query, root, form, output),
        Wanted::Rest => write_rest(alloc, query, root, output),
    }
}

/// Writes each node as it is found. A query with patterns may fail at any node, so all of its nodes are found first.
fn write_selection<W: Write>(
    alloc: Global,
    query: &Query,
    root: Node<'_>,
    form: Form,
    output: &mut W,
) -> io::Result<Option<Unanswered>>
    ensures { Answers (GivesNodes judged (Selected form) query.now (tree root.entry))
        (W.contents output.old) (W.contents output.new) result }
{
    if has_pattern(query) {
        return write_collected(alloc, query, root, form, output);
    }
    let mut selection = Selection::in_document(query, alloc, root)?;
    match selection.next() {
        Ok(first) => write_begun(alloc, first, &mut selection, form, output),
        Err(FindError::Pattern(limit)) => Ok(Some(Unanswered::Pattern(limit))),
        Err(FindError::OutOfMemory) => Err(io::Error::from(ErrorKind::OutOfMemory)),
    }
}

fn write_collected<W: Write>(
    alloc: Global,
    query: &Query,
    root: Node<'_>,
    form: Form,
    output: &mut W,
) -> io::Result<Option<Unanswered>>
    ensures { Answers (GivesNodes judged (Selected form) query.now (tree root.entry))
        (W.contents output.old) (W.contents output.new) result }
{
    match find_in(query, alloc, root) {
        Ok(nodes) => write_selected(alloc, nodes.as_slice(), form, output),
        Err(FindError::Pattern(limit)) => Ok(Some(Unanswered::Pattern(limit))),
        Err(FindError::OutOfMemory) => Err(io::Error::from(ErrorKind::OutOfMemory)),
    }
}

fn write_selected<W: Write>(
    alloc: Global,
    nodes: &[Located],
    form: Form,
    output: &mut W,
) -> io::Result<Option<Unanswered>>
    ensures { Answers (GivesSelected form (parts_view nodes.now))
        (W.contents output.old) (W.contents output.new) result }
{
    if !is_answer(nodes, form) {
        return Ok(Some(Unanswered::NoNode));
    }
    write_nodes(alloc, nodes, form, output)?;
    Ok(None)
}

fn is_answer(nodes: &[Located], form: Form) -> bool
    ensures { result ≡ is_answer form (parts_view nodes.now) }
{
    if form.or_none {
        return true;
    }
    !nodes.is_empty()
}

fn write_nodes<W: Write>(
    alloc: Global,
    nodes: &[Located],
    form: Form,
    output: &mut W,
) -> io::Result<()>
    ensures { WritesPrefix (W.contents output.old) (W.contents output.new)
        (printed form (parts_view nodes.now)) result }
{
    if form.is_array {
        write_array(alloc, nodes, form.shape, output)
    } else {
        write_lines(alloc, nodes, form.shape, output)
    }
}

/// Writes the first node, if there is one, and those that come behind it.
fn write_begun<'v, W: Write>(
    alloc: Global,
    first: Option<Located<'v>>,
    rest: &mut Selection<'v>,
    form: Form,
    output: &mut W,
) -> io::Result<Option<Unanswered>>
    ensures { Answers (GivesSelected form (begun first.entry (left rest.old)))
        (W.contents output.old) (W.contents output.new) result }
{
    if !is_begun_answer(&first, form) {
        return Ok(Some(Unanswered::NoNode));
    }
    write_nodes_begun(alloc, first, rest, form, output)?;
    Ok(None)
}

fn is_begun_answer(first: &Option<Located>, form: Form) -> bool
    ensures { (ps : List Part) → result ≡ is_answer form (begun first.now ps) }
{
    match first {
        Some(_) => true,
        None => form.or_none,
    }
}

fn write_nodes_begun<'v, W: Write>(
    alloc: Global,
    first: Option<Located<'v>>,
    rest: &mut Selection<'v>,
    form: Form,
    output: &mut W,
) -> io::Result<()>
    ensures { WritesPrefix (W.contents output.old) (W.contents output.new)
        (printed form (begun first.entry (left rest.old))) result }
{
    if form.is_array {
        write_array_begun(alloc, first, rest, form.shape, output)
    } else {
        write_lines_begun(alloc, first, rest, form.shape, output)
    }
}

fn write_rest<W: Write>(
    alloc: Global,
    query: &Query,
    root: Node<'_>,
    output: &mut W,
) -> io::Result<Option<Unanswered>>
    ensures { Answers (GivesNodes judged Rest query.now (tree root.entry))
        (W.contents output.old) (W.contents output.new) result }
{
    let mut selection = Selection::in_document(query, alloc, root)?;
    match Places::of_selection(alloc, &mut selection) {
        Ok(places) => write_left(alloc, root, &places, output),
        Err(FindError::Pattern(limit)) => Ok(Some(Unanswered::Pattern(limit))),
        Err(FindError::OutOfMemory) => Err(io::Error::from(ErrorKind::OutOfMemory)),
    }
}

/// Writes the value without these places of it.
fn write_left<W: Write>(
    alloc: Global,
    root: Node<'_>,
    places: &Places,
    output: &mut W,
) -> io::Result<Option<Unanswered>>
    requires { IsBounded places.now }
    ensures { (ps : List Part) → ((path : List Step) → has_path places.now path ≡ is_at ps path)
        → Answers (GivesRest (tree root.entry) ps)
        (W.contents output.old) (W.contents output.new) result }
{
    if places.contains("$") {
        return Ok(Some(Unanswered::NothingLeft));
    }
    write_without(alloc, root, places, output)?;
    write_all(output, b"\n")?;
    Ok(None)
}
