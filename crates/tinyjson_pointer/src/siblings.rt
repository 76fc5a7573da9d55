//! The items of an array, taken out of their value to insert and remove many in turn. Each is in a box,
//! so that an insertion moves only pointers.
ghost use Rattle.std.specs.Box.{box_value};
ghost use Rattle.std.specs.Prelude.{◌≡◌, IsSome, MatchOption, option_map};
ghost use Rattle.std.specs.Str.{chars};
ghost use Rattle.tinyjson.specs.Tree.{array};
ghost use Rattle.tinyjson.specs.View.{view, items_view};
ghost use Rattle.tinyjson_pointer.specs.Change.{with_child, without_child, Inserts, Removes};
ghost use Rattle.tinyjson_pointer.specs.Siblings.{container_at, with_container, child_name, are_beside, IsTaken};
ghost use Rattle.tinyjson_pointer.specs.Siblings.{boxes_view};
ghost use Rattle.tinyjson_pointer.specs.Tokens.{tokens_of};
ghost use Rattle.tinyjson_pointer.specs.Walk.{step};

use crate::array_index::index;
use crate::change::{InsertError, insertion_index, put_back, take_at};
use crate::pointer::Pointer;
use std::collections::VecDeque;
use tinyjson::JsonValue;

impl Pointer {
    /// Whether both name places in the same container: all their tokens but the last are equal.
    ///
    /// ```
    /// pointer.is_beside(&other) // /a/0 and /a/-: true; /a/0 and /b/0: false
    /// ```
    pub fn is_beside(&self, other: &Pointer) -> bool
        ensures { result ≡ are_beside (tokens_of self.now) (tokens_of other.now) }
    {
        let Some((_, front)) = self.tokens.as_slice().split_last() else {
            return false;
        };
        let Some((_, other_front)) = other.tokens.as_slice().split_last() else {
            return false;
        };
        front.starts_with(other_front) && other_front.starts_with(front)
    }

    /// Takes the items of the array in which this names a place, and leaves null there. If there is no
    /// array, it returns `None`, and the value is unchanged. It recurses once for each token.
    ///
    /// ```
    /// let place = Pointer::parse(alloc, "/a/0")?;
    /// let mut items = place.take_items(&mut value).unwrap(); // {"a":[7,8]} is then {"a":null}
    /// items.push_back(JsonValue::Null)?;
    /// place.put_items(&mut value, items); // and then {"a":[7,8,null]}
    /// ```
    pub fn take_items(&self, value: &mut JsonValue) -> Option<VecDeque<JsonValue>>
        ensures { MatchOption result (view value.new ≡ view value.old)
            (λ items. IsTaken (view value.old) (tokens_of self.now)
            (array (items_view items.items)) (view value.new)) }
    {
        let (_, front) = self.tokens.as_slice().split_last()?;
        match take_at(value, front)? {
            JsonValue::Array(items) => Some(VecDeque::from_vec(items)),
            other => {
                put_back(value, front, other);
                None
            }
        }
    }

    /// Replaces the container in which this names a place by an array of the items, and frees the old
    /// one. It recurses once for each token.
    ///
    /// ```
    /// place.put_items(&mut value, items); // by /a/0: {"a":null} is then {"a":[7,8]}
    /// ```
    pub fn put_items(&self, value: &mut JsonValue, items: VecDeque<JsonValue>)
        ensures { IsSome (container_at (view value.old) (tokens_of self.now)) →
            view value.new ≡ with_container (view value.old) (tokens_of self.now)
            (array (items_view items.items)) }
    {
        let container = JsonValue::Array(Vec::from(items));
        match self.tokens.as_slice().split_last() {
            Some((_, front)) => put_back(value, front, container),
            None => container.dismantle(),
        }
    }

    /// The item that the last token names, as [`Pointer::find`] finds it in an array of the items.
    ///
    /// ```
    /// place.find_in(&items) // by /a/1 among 7, 8: the number 8
    /// ```
    pub fn find_in<'i>(&self, items: &'i VecDeque<Box<JsonValue>>) -> Option<&'i JsonValue>
        ensures { option_map (λ x. view x.now) result
            ≡ step (array (boxes_view items.now.items)) (child_name (tokens_of self.now)) }
    {
        let (last, _) = self.tokens.as_slice().split_last()?;
        item_at(items, last.as_str())
    }

    /// Inserts the part at the place that the last token names, as [`Pointer::insert`] does. After an
    /// error the items are unchanged, and the part is freed.
    ///
    /// ```
    /// place.insert_in(&mut items, Box::new(alloc, JsonValue::Null)?)?; // by /0 7, 8 are then null, 7, 8
    /// ```
    pub fn insert_in(
        &self,
        items: &mut VecDeque<Box<JsonValue>>,
        part: Box<JsonValue>,
    ) -> Result<(), InsertError>
        ensures { Inserts
            (with_child (array (boxes_view items.old.items)) (child_name (tokens_of self.now))
            (view part.value))
            (array (boxes_view items.old.items)) result (array (boxes_view items.new.items)) }
    {
        match self.tokens.as_slice().split_last() {
            Some((last, _)) => insert_at(items, last.as_str(), part),
            None => {
                Box::into_inner(part).dismantle();
                Err(InsertError::NoPlace)
            }
        }
    }

    /// Removes the item that the last token names, as [`Pointer::remove`] does.
    ///
    /// ```
    /// place.remove_from(&mut items) // by /a/0: 7, 8 are then 8
    /// ```
    pub fn remove_from(&self, items: &mut VecDeque<Box<JsonValue>>) -> Option<Box<JsonValue>>
        ensures { Removes
            (step (array (boxes_view items.old.items)) (child_name (tokens_of self.now)))
            (without_child (array (boxes_view items.old.items)) (child_name (tokens_of self.now)))
            (array (boxes_view items.old.items)) (option_map box_value result)
            (array (boxes_view items.new.items)) }
    {
        let (last, _) = self.tokens.as_slice().split_last()?;
        remove_at(items, last.as_str())
    }
}

fn item_at<'i>(items: &'i VecDeque<Box<JsonValue>>, token: &str) -> Option<&'i JsonValue>
    ensures { option_map (λ x. view x.now) result
        ≡ step (array (boxes_view items.now.items)) (chars token.now) }
{
    match items.get(index(token)?) {
        Some(item) => Some(&**item),
        None => None,
    }
}

fn insert_at(
    items: &mut VecDeque<Box<JsonValue>>,
    token: &str,
    part: Box<JsonValue>,
) -> Result<(), InsertError>
    ensures { Inserts
        (with_child (array (boxes_view items.old.items)) (chars token.now) (view part.value))
        (array (boxes_view items.old.items)) result (array (boxes_view items.new.items)) }
{
    let Some(at) = insertion_index(token, items.len()) else {
        Box::into_inner(part).dismantle();
        return Err(InsertError::NoPlace);
    };
    match items.insert(at, part) {
        Ok(()) => Ok(()),
        Err(refused) => {
            Box::into_inner(refused.value).dismantle();
            Err(InsertError::OutOfMemory)
        }
    }
}

fn remove_at(items: &mut VecDeque<Box<JsonValue>>, token: &str) -> Option<Box<JsonValue>>
    ensures { Removes (step (array (boxes_view items.old.items)) (chars token.now))
        (without_child (array (boxes_view items.old.items)) (chars token.now))
        (array (boxes_view items.old.items)) (option_map box_value result)
        (array (boxes_view items.new.items)) }
{
    items.remove(index(token)?)
}
