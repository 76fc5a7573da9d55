//! The program's arguments.
ghost use Rattle.std.specs.Prelude.{◌≡◌, ◌&&◌, not};
ghost use Rattle.tinyjson_cli.specs.Arguments.{given_of};
ghost use Rattle.json_path.specs.Options.{form_asked, layout_asked, shape_asked, wanted_asked};
ghost use Rattle.json_path.specs.Options.{IsWithoutEnd};

use crate::selected::{Form, Layout, Shape, Wanted};
use tinyjson_cli::{Arguments, Known};

/// `-p` and `--paths`.
pub const PATHS: Known<'static> = Known {
    letter: b'p',
    name: "paths",
    takes: None,
};

/// `-f` and `--flat`.
pub const FLAT: Known<'static> = Known {
    letter: b'f',
    name: "flat",
    takes: None,
};

/// `-e` and `--empty`.
pub const EMPTY: Known<'static> = Known {
    letter: b'e',
    name: "empty",
    takes: None,
};

/// `-v` and `--rest`.
pub const REST: Known<'static> = Known {
    letter: b'v',
    name: "rest",
    takes: None,
};

/// `-q` and `--query-file`.
pub const QUERY_FILE: Known<'static> = Known {
    letter: b'q',
    name: "query-file",
    takes: None,
};

/// What is asked of each value.
pub fn wanted_of(arguments: &Arguments<'_>) -> Wanted
    ensures { result ≡ wanted_asked (given_of arguments.now) }
{
    let form = form_of(arguments);
    if arguments.has(b'v') {
        Wanted::Rest
    } else {
        Wanted::Selected(form)
    }
}

fn form_of(arguments: &Arguments<'_>) -> Form
    ensures { result ≡ form_asked (given_of arguments.now) }
{
    let or_none = arguments.has(b'e');
    let is_array = is_array(arguments.has(b'l'), arguments.has(b'f'));
    let layout = layout_of(arguments.has(b'i'));
    let shape = shape_of(arguments.has(b'p'), arguments.has(b'r'), layout);
    Form {
        shape,
        is_array,
        or_none,
    }
}

fn is_array(by_lines: bool, is_flat: bool) -> bool
    ensures { result ≡ (by_lines && not is_flat) }
{
    by_lines && !is_flat
}

fn layout_of(is_indented: bool) -> Layout
    ensures { result ≡ layout_asked is_indented }
{
    if is_indented {
        Layout::Indented
    } else {
        Layout::Compact
    }
}

fn shape_of(is_path: bool, is_raw: bool, layout: Layout) -> Shape
    ensures { result ≡ shape_asked is_path is_raw layout }
{
    if is_path {
        Shape::Path
    } else if is_raw {
        Shape::Raw(layout)
    } else {
        Shape::Value(layout)
    }
}

/// The query in the text of a file, without the line feed that ends it.
pub fn without_end(text: &str) -> &str
    ensures { IsWithoutEnd text.now result.now }
{
    match text.strip_suffix('\n') {
        Some(query) => query,
        None => text,
    }
}
