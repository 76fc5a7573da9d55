//! Writes an array of all nodes, on a line.
ghost use Rattle.std.specs.Prelude.{true, encode_utf8_all};
ghost use Rattle.tinyjson.specs.Written.{WritesPrefix};
ghost use Rattle.tinyjson.specs.Text.{compact};
ghost use Rattle.tinyjson.specs.Tree.{string};
ghost use Rattle.json_path.specs.Shapes.{array_line, begun, item_text, items_text, next_text};
ghost use Rattle.tinyjson_path.specs.Nodes.{path_view, part_view, parts_view};
ghost use Rattle.tinyjson_path.specs.Paths.{path_text};
ghost use Rattle.tinyjson_path.specs.Selections.{left};

use crate::lines::next_of;
use crate::selected::Shape;
use std::alloc::Global;
use std::io::{self, Write};
use tinyjson::JsonValue;
use tinyjson_lines::write_all;
use tinyjson_path::{Located, Location, Selection, path_text};

/// Writes the values of the nodes, or their paths, as a compact array on a line.
pub fn write_array<W: Write>(
    alloc: Global,
    nodes: &[Located],
    shape: Shape,
    output: &mut W,
) -> io::Result<()>
    ensures { WritesPrefix (W.contents output.old) (W.contents output.new)
        (array_line shape (parts_view nodes.now)) result }
{
    write_all(output, b"[")?;
    write_items(alloc, nodes, shape, output)?;
    write_all(output, b"]\n")
}

fn write_items<W: Write>(
    alloc: Global,
    nodes: &[Located],
    shape: Shape,
    output: &mut W,
) -> io::Result<()>
    ensures { WritesPrefix (W.contents output.old) (W.contents output.new)
        (items_text shape true (parts_view nodes.now)) result }
{
    let mut is_first = true;
    for node in nodes {
        write_next(alloc, node, is_first, shape, output)?;
        is_first = false;
    }
    Ok(())
}

/// Writes such an array of the first node, if there is one, and of those that come behind it.
pub fn write_array_begun<'v, W: Write>(
    alloc: Global,
    first: Option<Located<'v>>,
    rest: &mut Selection<'v>,
    shape: Shape,
    output: &mut W,
) -> io::Result<()>
    ensures { WritesPrefix (W.contents output.old) (W.contents output.new)
        (array_line shape (begun first.entry (left rest.old))) result }
{
    write_all(output, b"[")?;
    write_items_begun(alloc, first, rest, shape, output)?;
    write_all(output, b"]\n")
}

fn write_items_begun<'v, W: Write>(
    alloc: Global,
    first: Option<Located<'v>>,
    rest: &mut Selection<'v>,
    shape: Shape,
    output: &mut W,
) -> io::Result<()>
    ensures { WritesPrefix (W.contents output.old) (W.contents output.new)
        (items_text shape true (begun first.entry (left rest.old))) result }
{
    let mut next = first;
    let mut is_first = true;
    while let Some(node) = next {
        write_next(alloc, &node, is_first, shape, output)?;
        is_first = false;
        next = next_of(rest)?;
    }
    Ok(())
}

/// Writes an item, behind a comma if it is not the first.
fn write_next<W: Write>(
    alloc: Global,
    node: &Located,
    is_first: bool,
    shape: Shape,
    output: &mut W,
) -> io::Result<()>
    ensures { WritesPrefix (W.contents output.old) (W.contents output.new)
        (next_text shape is_first (part_view node.now)) result }
{
    if is_first {
        return write_item(alloc, node, shape, output);
    }
    write_all(output, b",")?;
    write_item(alloc, node, shape, output)
}

fn write_item<W: Write>(
    alloc: Global,
    node: &Located,
    shape: Shape,
    output: &mut W,
) -> io::Result<()>
    ensures { WritesPrefix (W.contents output.old) (W.contents output.new)
        (encode_utf8_all (item_text shape (part_view node.now))) result }
{
    match shape {
        Shape::Value(_) => node.value.write_to(alloc, output),
        Shape::Raw(_) => node.value.write_to(alloc, output),
        Shape::Path => write_quoted_path(alloc, &node.location, output),
    }
}

fn write_quoted_path<W: Write>(alloc: Global, location: &Location, output: &mut W) -> io::Result<()>
    ensures { WritesPrefix (W.contents output.old) (W.contents output.new)
        (encode_utf8_all (compact (string (path_text (path_view location.now))))) result }
{
    let path = JsonValue::String(path_text(alloc, location)?);
    path.write_to(alloc, output)
}
