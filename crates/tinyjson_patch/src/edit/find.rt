//! Finds the part that a pointer names.
ghost use Rattle.std.specs.Prelude.{◌≡◌, option_map};
ghost use Rattle.std.specs.Str.{chars};
ghost use Rattle.tinyjson_patch.specs.private.Edited.{tree, part_tree};
ghost use Rattle.tinyjson_pointer.specs.Tokens.{tokens_of};
ghost use Rattle.tinyjson_pointer.specs.Walk.{step, part_at};

use crate::edit::edited::Edited;
use tinyjson_pointer::{Pointer, child_part, index};
use tinyjson_view::ValueView;

/// A part of a value.
#[derive(Clone, Copy)]
pub(crate) enum Part<'e, 'd> {
    /// A value as it was.
    Kept(ValueView<'d>),
    /// A value that was taken apart.
    Changed(&'e Edited<'d>),
}

/// The part that the pointer names, if there is one.
pub(crate) fn find<'e, 'd>(whole: &'e Edited<'d>, pointer: &Pointer) -> Option<Part<'e, 'd>>
    ensures { option_map part_tree result ≡ part_at (tree whole.now) (tokens_of pointer.now) }
{
    let mut here = part_of(whole);
    for token in pointer.tokens() {
        here = child(here, token.as_str())?;
    }
    Some(here)
}

/// The value as a part.
pub(crate) fn part_of<'e, 'd>(value: &'e Edited<'d>) -> Part<'e, 'd>
    ensures { part_tree result ≡ tree value.now }
{
    match value {
        Edited::Kept(view) => Part::Kept(*view),
        _ => Part::Changed(value),
    }
}

/// The part that one token names.
fn child<'e, 'd>(part: Part<'e, 'd>, token: &str) -> Option<Part<'e, 'd>>
    ensures { option_map part_tree result ≡ step (part_tree part.entry) (chars token.now) }
{
    match part {
        Part::Kept(view) => Some(Part::Kept(child_part(view, token)?)),
        Part::Changed(value) => changed(value, token),
    }
}

/// The part that one token names in a value that may be taken apart.
fn changed<'e, 'd>(value: &'e Edited<'d>, token: &str) -> Option<Part<'e, 'd>>
    ensures { option_map part_tree result ≡ step (tree value.now) (chars token.now) }
{
    match value {
        Edited::Kept(view) => Some(Part::Kept(child_part(*view, token)?)),
        Edited::Array(items) => Some(part_of(items.get(index(token)?)?.as_ref())),
        Edited::Object(members) => Some(part_of(members.get(token)?)),
    }
}
