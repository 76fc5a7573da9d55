//! Applies the operations of a patch.
ghost use Rattle.std.specs.Prelude.{◌≡◌, map};
ghost use Rattle.tinyjson.specs.View.{view, text};
ghost use Rattle.tinyjson_patch.specs.private.Applying.{Applies, Completes, IsInsertion, StopsFor};
ghost use Rattle.tinyjson_patch.specs.private.Edited.{tree};
ghost use Rattle.tinyjson_patch.specs.Operation.{action_of, applied, added, removed, replaced, moved};
ghost use Rattle.tinyjson_patch.specs.Operation.{stayed, copied, tested};
ghost use Rattle.tinyjson_pointer.specs.Tokens.{tokens_of};

use crate::edit::change::{Change, ChangeError, change_at};
use crate::edit::copy::copy_of;
use crate::edit::edited::{Edited, dismantle_old};
use crate::edit::find::{Part, find};
use crate::edit::write::document_of;
use crate::operation::{Operation, Reason};
use std::alloc::{AllocError, Global};
use tinyjson::JsonValue;
use tinyjson_pointer::Pointer;
use tinyjson_view::ValueView;

/// With more nested containers that are taken apart, a part is not copied as it is. The copy recurses once for each.
const LEVELS: usize = 64;

/// Why an operation was not applied.
#[derive(Clone, Copy)]
pub(crate) enum Stop {
    /// It can't be applied.
    Failed(Reason),
    /// An allocation failed.
    OutOfMemory,
    /// It copies a part of which too many nested containers are taken apart. Nothing was changed.
    TakenApart,
}

impl From<AllocError> for Stop {
    ghost use Rattle.tinyjson_patch.specs.declared.edit.apply.Stop.{Stop};

    ghost from_gives = { λ _ e. e ≡ Stop.OutOfMemory };

    fn from(_: AllocError) -> Stop {
        Stop::OutOfMemory
    }
}

/// Applies the operation. After an error but `TakenApart` the target may be any value.
pub(crate) fn apply_to<'d>(
    operation: &'d Operation,
    alloc: Global,
    target: &mut Edited<'d>,
) -> Result<(), Stop>
    ensures { Applies (applied (action_of operation.now) (tree target.old)) (tree target.old)
        result (tree target.new) }
{
    match operation {
        Operation::Add { path, value } => add(alloc, target, path, lent(value)),
        Operation::Remove { path } => remove(alloc, target, path),
        Operation::Replace { path, value } => replace(alloc, target, path, lent(value)),
        Operation::Move { from, path } => move_part(alloc, target, from, path),
        Operation::Copy { from, path } => copy(alloc, target, from, path),
        Operation::Test { path, value } => test(alloc, target, path, value),
    }
}

/// A value of the patch, as it is.
fn lent<'d>(value: &'d JsonValue) -> Edited<'d>
    ensures { tree result ≡ view value.now }
{
    Edited::Kept(ValueView::InValue(value))
}

/// The reason for a change that found nothing, or that memory ran out.
fn stop_for(error: ChangeError, reason: Reason) -> Stop
    ensures { StopsFor error reason result }
{
    match error {
        ChangeError::NoPlace => Stop::Failed(reason),
        ChangeError::OutOfMemory => Stop::OutOfMemory,
    }
}

fn add<'d>(
    alloc: Global,
    target: &mut Edited<'d>,
    path: &Pointer,
    part: Edited<'d>,
) -> Result<(), Stop>
    ensures { Completes (added (tokens_of path.now) (tree part.entry) (tree target.old))
        result (tree target.new) }
{
    let (change, tokens) = insertion(path, part);
    match change_at(target, alloc, tokens, change) {
        Ok(old) => {
            dismantle_old(alloc, old);
            Ok(())
        }
        Err(error) => Err(stop_for(error, Reason::NoPlace)),
    }
}

/// The change that inserts the part at the path, and the tokens of what is changed.
fn insertion<'d, 't>(path: &'t Pointer, part: Edited<'d>) -> (Change<'d, 't>, &'t [String])
    ensures { IsInsertion (tokens_of path.now) (tree part.entry) result.0 (map text result.1.now) }
{
    match path.tokens().split_last() {
        Some((last, front)) => (Change::Insert(last.as_str(), part), front),
        None => (Change::Replace(part), path.tokens()),
    }
}

fn remove(alloc: Global, target: &mut Edited<'_>, path: &Pointer) -> Result<(), Stop>
    ensures { Completes (removed (tokens_of path.now) (tree target.old))
        result (tree target.new) }
{
    let Some((last, front)) = path.tokens().split_last() else {
        return Err(Stop::Failed(Reason::WholeRemoved));
    };
    match change_at(target, alloc, front, Change::Remove(last.as_str())) {
        Ok(old) => {
            dismantle_old(alloc, old);
            Ok(())
        }
        Err(error) => Err(stop_for(error, Reason::NoTarget)),
    }
}

fn replace<'d>(
    alloc: Global,
    target: &mut Edited<'d>,
    path: &Pointer,
    part: Edited<'d>,
) -> Result<(), Stop>
    ensures { Completes (replaced (tokens_of path.now) (tree part.entry) (tree target.old))
        result (tree target.new) }
{
    match change_at(target, alloc, path.tokens(), Change::Replace(part)) {
        Ok(old) => {
            dismantle_old(alloc, old);
            Ok(())
        }
        Err(error) => Err(stop_for(error, Reason::NoTarget)),
    }
}

fn move_part(
    alloc: Global,
    target: &mut Edited<'_>,
    from: &Pointer,
    path: &Pointer,
) -> Result<(), Stop>
    ensures { Completes (moved (tokens_of from.now) (tokens_of path.now) (tree target.old))
        result (tree target.new) }
{
    if path.starts_with(from) {
        if !from.starts_with(path) {
            return Err(Stop::Failed(Reason::IntoItself));
        }
        return stay(target, from);
    }
    let Some((last, front)) = from.tokens().split_last() else {
        return Err(Stop::Failed(Reason::IntoItself));
    };
    match change_at(target, alloc, front, Change::Remove(last.as_str())) {
        Ok(Some(part)) => add(alloc, target, path, part),
        Ok(None) => Err(Stop::OutOfMemory),
        Err(error) => Err(stop_for(error, Reason::NoSource)),
    }
}

/// Moves a part to its own place.
fn stay(target: &Edited<'_>, from: &Pointer) -> Result<(), Stop>
    ensures { Completes (stayed (tokens_of from.now) (tree target.now))
        result (tree target.now) }
{
    match find(target, from) {
        Some(_) => Ok(()),
        None => Err(Stop::Failed(Reason::NoSource)),
    }
}

fn copy(alloc: Global, target: &mut Edited<'_>, from: &Pointer, path: &Pointer) -> Result<(), Stop>
    ensures { Applies (copied (tokens_of from.now) (tokens_of path.now) (tree target.old))
        (tree target.old) result (tree target.new) }
{
    match find(target, from) {
        Some(Part::Kept(view)) => add(alloc, target, path, Edited::Kept(view)),
        Some(Part::Changed(part)) => {
            let Some(part) = copy_of(alloc, part, LEVELS)? else {
                return Err(Stop::TakenApart);
            };
            add(alloc, target, path, part)
        }
        None => Err(Stop::Failed(Reason::NoSource)),
    }
}

fn test(
    alloc: Global,
    target: &Edited<'_>,
    path: &Pointer,
    expected: &JsonValue,
) -> Result<(), Stop>
    ensures { Completes (tested (tokens_of path.now) (view expected.now) (tree target.now))
        result (tree target.now) }
{
    let is_same = match find(target, path) {
        Some(Part::Kept(view)) => view.equals_value(expected),
        Some(Part::Changed(part)) => document_of(alloc, part)?.root().equals_value(expected),
        None => return Err(Stop::Failed(Reason::NoTarget)),
    };
    if !is_same {
        return Err(Stop::Failed(Reason::Different));
    }
    Ok(())
}
