//! Writes a line for each node.
ghost use Rattle.std.specs.Prelude.{◌≡◌, ◌∷◌, [], encode_utf8_all, IfOk};
ghost use Rattle.std.specs.Str.{chars};
ghost use Rattle.tinyjson.specs.Written.{WritesPrefix};
ghost use Rattle.json_path.specs.Shapes.{begun, layout_text, line_of, lines_of, raw_text, shape_text};
ghost use Rattle.tinyjson_path.specs.Nodes.{Takes, path_view, part_view, parts_view};
ghost use Rattle.tinyjson_path.specs.Selections.{left};
ghost use Rattle.tinyjson_path.specs.Views.{tree_of};
ghost use Rattle.tinyjson_path.specs.Paths.{path_text};

use crate::selected::{Layout, Shape};
use std::alloc::Global;
use std::io::{self, ErrorKind, Write};
use tinyjson_document::JsonView;
use tinyjson_lines::write_all;
use tinyjson_path::{FindError, Located, Location, Selection, ValueView, path_text};

/// Writes a line for each node.
pub fn write_lines<W: Write>(
    alloc: Global,
    nodes: &[Located],
    shape: Shape,
    output: &mut W,
) -> io::Result<()>
    ensures { WritesPrefix (W.contents output.old) (W.contents output.new)
        (lines_of shape (parts_view nodes.now)) result }
{
    for node in nodes {
        write_line(alloc, node, shape, output)?;
    }
    Ok(())
}

/// Writes a line for the first node, if there is one, and for each that comes behind it.
pub fn write_lines_begun<'v, W: Write>(
    alloc: Global,
    first: Option<Located<'v>>,
    rest: &mut Selection<'v>,
    shape: Shape,
    output: &mut W,
) -> io::Result<()>
    ensures { WritesPrefix (W.contents output.old) (W.contents output.new)
        (lines_of shape (begun first.entry (left rest.old))) result }
{
    let mut next = first;
    while let Some(node) = next {
        write_line(alloc, &node, shape, output)?;
        next = next_of(rest)?;
    }
    Ok(())
}

/// The next node. An error of a pattern is one of the output, which ends within the answer.
pub fn next_of<'v>(selection: &mut Selection<'v>) -> io::Result<Option<Located<'v>>>
    ensures { IfOk result (Takes (left selection.old) (left selection.new)) }
{
    match selection.next() {
        Ok(next) => Ok(next),
        Err(FindError::OutOfMemory) => Err(io::Error::from(ErrorKind::OutOfMemory)),
        Err(FindError::Pattern(_)) => Err(io::Error::from(ErrorKind::InvalidData)),
    }
}

fn write_line<W: Write>(
    alloc: Global,
    node: &Located,
    shape: Shape,
    output: &mut W,
) -> io::Result<()>
    ensures { WritesPrefix (W.contents output.old) (W.contents output.new)
        (line_of shape (part_view node.now)) result }
{
    write_node(alloc, node, shape, output)?;
    write_all(output, b"\n")
}

fn write_node<W: Write>(
    alloc: Global,
    node: &Located,
    shape: Shape,
    output: &mut W,
) -> io::Result<()>
    ensures { WritesPrefix (W.contents output.old) (W.contents output.new)
        (encode_utf8_all (shape_text shape (part_view node.now))) result }
{
    match shape {
        Shape::Value(layout) => write_text(alloc, &node.value, layout, output),
        Shape::Raw(layout) => write_raw(alloc, &node.value, layout, output),
        Shape::Path => write_path(alloc, &node.location, output),
    }
}

fn write_raw<W: Write>(
    alloc: Global,
    value: &ValueView<'_>,
    layout: Layout,
    output: &mut W,
) -> io::Result<()>
    ensures { WritesPrefix (W.contents output.old) (W.contents output.new)
        (encode_utf8_all (raw_text layout (tree_of value.now))) result }
{
    match value.string() {
        Some(characters) => write_characters(characters, output),
        None => write_text(alloc, value, layout, output),
    }
}

fn write_text<W: Write>(
    alloc: Global,
    value: &ValueView<'_>,
    layout: Layout,
    output: &mut W,
) -> io::Result<()>
    ensures { WritesPrefix (W.contents output.old) (W.contents output.new)
        (encode_utf8_all (layout_text layout (tree_of value.now))) result }
{
    match layout {
        Layout::Compact => value.write_to(alloc, output),
        Layout::Indented => value.format_to(alloc, output),
    }
}

/// Writes the characters in UTF-8.
fn write_characters<W: Write>(characters: &str, output: &mut W) -> io::Result<()>
    ensures { WritesPrefix (W.contents output.old) (W.contents output.new)
        (encode_utf8_all (chars characters.now)) result }
{
    write_all(output, characters.as_bytes())
}

fn write_path<W: Write>(alloc: Global, location: &Location, output: &mut W) -> io::Result<()>
    ensures { WritesPrefix (W.contents output.old) (W.contents output.new)
        (encode_utf8_all (path_text (path_view location.now))) result }
{
    let path = path_text(alloc, location)?;
    write_characters(path.as_str(), output)
}
