//! Copies of values.
ghost use Rattle.std.specs.Prelude.{◌≡◌, ◌+◌, ◌<◌, ◌≤◌, ◌∷◌, ◌++◌, [], map, IfOk, IfSome};
ghost use Rattle.std.specs.Prelude.{MatchOption};
ghost use Rattle.std.specs.Slice.Iter.{iter_rest};
ghost use Rattle.tinyjson.specs.private.Copy.{put_all, filled, filled_all, step_view};
ghost use Rattle.tinyjson.specs.private.Copy.{weight, items_weight, entries_weight};
ghost use Rattle.tinyjson.specs.private.Copy.{partial_weight, stack_weight, step_weight};
ghost use Rattle.tinyjson_grammar.specs.Tree.{array, object, items_of, put};
ghost use Rattle.tinyjson.specs.View.{view, text, members_view};

use super::JsonValue;
use super::members::insert_member;
use std::alloc::{AllocError, Global};
use std::collections::{HashMap, hash_map};
use std::slice;

impl JsonValue {
    /// An equal value, in memory of its own, by a loop: the stack does not grow with the depth. If
    /// memory runs out, what was copied is freed in the same way.
    ///
    /// ```
    /// let value = JsonValue::from_str(alloc, "[null, true]")?;
    /// let copy = value.try_clone(alloc)?;
    /// assert!(rt; copy == value);
    /// assert!(rt; copy.kind() == JsonKind::Array);
    /// ```
    pub fn try_clone(&self, alloc: Global) -> Result<JsonValue, AllocError>
        ensures { IfOk result (λ v. view v ≡ view self.now) }
    {
        let mut stack = Vec::new(alloc);
        let copied = copy(self, alloc, &mut stack);
        while let Some(partial) = stack.pop() {
            partial.dismantle();
        }
        copied
    }
}

/// A container that is being copied: its first values in the copy, the key of the value that is being
/// copied, and the values after that one.
#[derive(Drop)]
enum Partial<'v> {
    Array(Vec<JsonValue>, slice::Iter<'v, JsonValue>),
    Object(HashMap<String, JsonValue>, String, hash_map::Iter<'v, String, JsonValue>),
}

impl Partial<'_> {
    /// Frees what was copied.
    fn dismantle(self) {
        match self {
            Partial::Array(copies, _) => JsonValue::Array(copies).dismantle(),
            Partial::Object(copies, _, _) => JsonValue::Object(copies).dismantle(),
        }
    }
}

/// A container that is to be copied, or a copy.
#[derive(Drop)]
enum Step<'v> {
    Array(&'v Vec<JsonValue>),
    Object(&'v HashMap<String, JsonValue>),
    Copied(JsonValue),
}

/// Copies a value. After an error the stack holds what was copied.
fn copy<'v>(
    value: &'v JsonValue,
    alloc: Global,
    stack: &mut Vec<Partial<'v>>,
) -> Result<JsonValue, AllocError>
    requires { stack.old.items ≡ [] }
    ensures { IfOk result (λ v. view v ≡ view value.now) }
{
    let mut step = begin(value, alloc)?;
    loop {
        step = match step {
            Step::Array(items) => {
                let copies = Vec::with_capacity(alloc, items.len())?;
                copy_items(copies, items.iter(), alloc, stack)?
            }
            Step::Object(members) => {
                let copies = HashMap::with_capacity(alloc, members.len())?;
                copy_members(copies, members.iter(), alloc, stack)?
            }
            Step::Copied(copy) => match stack.pop() {
                Some(partial) => fill(partial, copy, alloc, stack)?,
                None => return Ok(copy),
            },
        };
    }
}

/// Copies a scalar, or returns the content of a container.
fn begin<'v>(value: &'v JsonValue, alloc: Global) -> Result<Step<'v>, AllocError>
    ensures view { IfOk result (λ s. step_view s ≡ view value.now) }
    ensures left { IfOk result (λ s. step_weight s ≤ weight value.now) }
{
    match value {
        JsonValue::Null => Ok(Step::Copied(JsonValue::Null)),
        JsonValue::Boolean(b) => Ok(Step::Copied(JsonValue::Boolean(*b))),
        JsonValue::Number(n) => Ok(Step::Copied(JsonValue::Number(n.try_clone(alloc)?))),
        JsonValue::String(s) => {
            let copy = String::from_str(alloc, s.as_str())?;
            Ok(Step::Copied(JsonValue::String(copy)))
        }
        JsonValue::Array(items) => Ok(Step::Array(items)),
        JsonValue::Object(members) => Ok(Step::Object(members)),
    }
}

/// Puts a copy into its container, and goes on in that.
fn fill<'v>(
    partial: Partial<'v>,
    copy: JsonValue,
    alloc: Global,
    stack: &mut Vec<Partial<'v>>,
) -> Result<Step<'v>, AllocError>
    ensures view { IfOk result (λ s. filled_all stack.new.items (step_view s)
        ≡ filled_all stack.old.items (filled partial.entry (view copy))) }
    ensures left { IfOk result (λ s. step_weight s + stack_weight stack.new.items
        < 1 + partial_weight partial.entry + stack_weight stack.old.items) }
{
    match partial {
        Partial::Array(mut copies, rest) => {
            if let Err(refused) = copies.push(copy) {
                refused.value.dismantle();
                JsonValue::Array(copies).dismantle();
                return Err(AllocError);
            }
            copy_items(copies, rest, alloc, stack)
        }
        Partial::Object(mut copies, key, rest) => {
            if insert_member(&mut copies, key, copy).is_err() {
                JsonValue::Object(copies).dismantle();
                return Err(AllocError);
            }
            copy_members(copies, rest, alloc, stack)
        }
    }
}

/// Copies the items of an array as far as the next container.
fn copy_items<'v>(
    copies: Vec<JsonValue>,
    rest: slice::Iter<'v, JsonValue>,
    alloc: Global,
    stack: &mut Vec<Partial<'v>>,
) -> Result<Step<'v>, AllocError>
    ensures view { IfOk result (λ s. filled_all stack.new.items (step_view s)
        ≡ filled_all stack.old.items
        (array (items_of (map view copies.items ++ map view (iter_rest rest.entry))))) }
    ensures left { IfOk result (λ s. step_weight s + stack_weight stack.new.items
        ≤ 1 + items_weight (iter_rest rest.entry) + stack_weight stack.old.items) }
{
    let mut copies = copies;
    let mut rest = rest;
    match copy_leaves(&mut copies, &mut rest, alloc) {
        Ok(Some(step)) => suspend(Partial::Array(copies, rest), step, stack),
        Ok(None) => Ok(Step::Copied(JsonValue::Array(copies))),
        Err(refused) => {
            JsonValue::Array(copies).dismantle();
            Err(refused)
        }
    }
}

/// Copies the members of an object as far as the next container.
fn copy_members<'v>(
    copies: HashMap<String, JsonValue>,
    rest: hash_map::Iter<'v, String, JsonValue>,
    alloc: Global,
    stack: &mut Vec<Partial<'v>>,
) -> Result<Step<'v>, AllocError>
    ensures view { IfOk result (λ s. filled_all stack.new.items (step_view s)
        ≡ filled_all stack.old.items (object (put_all rest.entry (members_view copies.entries)))) }
    ensures left { IfOk result (λ s. step_weight s + stack_weight stack.new.items
        ≤ 1 + entries_weight rest.entry + stack_weight stack.old.items) }
{
    let mut copies = copies;
    let mut rest = rest;
    match copy_leaf_members(&mut copies, &mut rest, alloc) {
        Ok(Some((key, step))) => suspend(Partial::Object(copies, key, rest), step, stack),
        Ok(None) => Ok(Step::Copied(JsonValue::Object(copies))),
        Err(refused) => {
            JsonValue::Object(copies).dismantle();
            Err(refused)
        }
    }
}

/// Leaves a container for one that it holds.
fn suspend<'v>(
    partial: Partial<'v>,
    step: Step<'v>,
    stack: &mut Vec<Partial<'v>>,
) -> Result<Step<'v>, AllocError>
    ensures view { IfOk result (λ s. filled_all stack.new.items (step_view s)
        ≡ filled_all stack.old.items (filled partial.entry (step_view step.entry))) }
    ensures left { IfOk result (λ s. step_weight s + stack_weight stack.new.items
        ≡ step_weight step.entry + (partial_weight partial.entry + stack_weight stack.old.items)) }
{
    match stack.push(partial) {
        Ok(()) => Ok(step),
        Err(refused) => {
            refused.value.dismantle();
            Err(AllocError)
        }
    }
}

/// Copies items until one is a container, which is the result.
fn copy_leaves<'v>(
    copies: &mut Vec<JsonValue>,
    rest: &mut slice::Iter<'v, JsonValue>,
    alloc: Global,
) -> Result<Option<Step<'v>>, AllocError>
    ensures view { IfOk result (λ r. MatchOption r
        (map view copies.new.items ≡ map view copies.old.items ++ map view (iter_rest rest.old))
        (λ s. map view copies.new.items ++ step_view s ∷ map view (iter_rest rest.new)
        ≡ map view copies.old.items ++ map view (iter_rest rest.old))) }
    ensures left { IfOk result (λ r. IfSome r (λ s.
        step_weight s + items_weight (iter_rest rest.new) ≤ items_weight (iter_rest rest.old))) }
{
    while let Some(item) = rest.next() {
        match begin(item, alloc)? {
            Step::Copied(copy) => copies.push(copy)?,
            container => return Ok(Some(container)),
        }
    }
    Ok(None)
}

/// Copies members until the value of one is a container. The result is the key and that container.
fn copy_leaf_members<'v>(
    copies: &mut HashMap<String, JsonValue>,
    rest: &mut hash_map::Iter<'v, String, JsonValue>,
    alloc: Global,
) -> Result<Option<(String, Step<'v>)>, AllocError>
    ensures view { IfOk result (λ r. MatchOption r
        (members_view copies.new.entries ≡ put_all rest.old (members_view copies.old.entries))
        (λ p. put_all rest.new (put (text p.0) (step_view p.1) (members_view copies.new.entries))
        ≡ put_all rest.old (members_view copies.old.entries))) }
    ensures left { IfOk result (λ r. IfSome r (λ p.
        step_weight p.1 + entries_weight rest.new ≤ entries_weight rest.old)) }
{
    while let Some((key, member)) = rest.next() {
        let key = String::from_str(alloc, key.as_str())?;
        match begin(member, alloc)? {
            Step::Copied(copy) => insert_member(copies, key, copy)?,
            container => return Ok(Some((key, container))),
        }
    }
    Ok(None)
}
