//! Which keys are wanted, and the events that keep their members.
ghost use Rattle.std.specs.Prelude.{◌≡◌, ℕ, ◌+◌, ◌-◌, List, Bool, None, OnOk, option_map};
ghost use Rattle.std.specs.Str.{chars};
ghost use Rattle.tinyjson.specs.Events.{TellsText};
ghost use Rattle.tinyjson.specs.View.{members_view, text, view};
ghost use Rattle.example_pick.specs.Picking.{members_of, Picks, stored, without};

use std::alloc::{AllocError, Global};
use std::collections::HashMap;
use tinyjson::{
    Events, JsonNumber, JsonParseError, JsonValue, discard_member, insert_member, read_events,
};

/// Which keys are wanted.
///
/// ```
/// impl Wanted for NameAndVersion {
///     fn wants(&self, key: &str) -> bool {
///         key == "name" || key == "version"
///     }
/// }
/// ```
pub trait Wanted: Drop {
    ghost is_wanted: { List ℕ → Bool };

    /// Whether the key is wanted.
    fn wants(&self, key: &str) -> bool
        ensures { result ≡ is_wanted (chars key.now) };
}

/// The members that are picked so far.
#[derive(Drop)]
struct Picking<W>
where
    W: Wanted,
{
    alloc: Global,
    wanted: W,
    /// How many containers are open.
    depth: usize,
    /// The key of the outermost object whose value comes next.
    key: Option<String>,
    members: HashMap<String, JsonValue>,
}

impl<W: Wanted> Picking<W> {
    /// Opens a container; it is not picked.
    fn open(&mut self) -> Result<(), AllocError>
        ensures depth { OnOk result (self.new.depth ≡ 1 + self.old.depth) }
        ensures key { self.new.key ≡ None }
        ensures members { members_view self.new.members.entries
            ≡ without (option_map text self.old.key) (members_view self.old.members.entries) }
    {
        if let Some(key) = self.key.take() {
            discard_member(&mut self.members, key.as_str());
        }
        match self.depth.checked_add(1) {
            Some(depth) => {
                self.depth = depth;
                Ok(())
            }
            None => Err(AllocError),
        }
    }

    /// Closes a container.
    fn close(&mut self)
        ensures depth { self.new.depth ≡ self.old.depth - 1 }
        ensures key { self.new.key ≡ self.old.key }
        ensures members { self.new.members ≡ self.old.members }
    {
        self.depth = self.depth.saturating_sub(1);
    }

    /// Picks the value, if it is at a wanted key of the outermost object.
    fn value(&mut self, value: JsonValue) -> Result<(), AllocError>
        ensures depth { self.new.depth ≡ self.old.depth }
        ensures key { self.new.key ≡ None }
        ensures members { OnOk result (members_view self.new.members.entries
            ≡ stored W.is_wanted (option_map text self.old.key) (view value)
            (members_view self.old.members.entries)) }
    {
        let Some(key) = self.key.take() else {
            return Ok(());
        };
        if !self.wanted.wants(key.as_str()) {
            return Ok(());
        }
        insert_member(&mut self.members, key, value)
    }
}

impl<W: Wanted> Events for Picking<W> {
    type Error = AllocError;

    ghost use Rattle.std.specs.Prelude.{option_map};
    ghost use Rattle.tinyjson.specs.View.{members_view, text};
    ghost use Rattle.example_pick.specs.Picking.{Holds, members_of, Picks};

    ghost holds = { λ _ e os. Holds W.is_wanted e.depth (option_map text e.key)
        (members_view e.members.entries) os };

    ghost is = { λ _ e t. Picks W.is_wanted (members_of t) (members_view e.members.entries) };

    fn open_array(&mut self) -> Result<(), AllocError> {
        self.open()
    }

    fn close_array(&mut self) -> Result<(), AllocError> {
        self.close();
        Ok(())
    }

    fn open_object(&mut self) -> Result<(), AllocError> {
        self.open()
    }

    fn close_object(&mut self) -> Result<(), AllocError> {
        self.close();
        Ok(())
    }

    fn key(&mut self, key: &str) -> Result<(), AllocError> {
        if self.depth == 1 {
            self.key = Some(String::from_str(self.alloc, key)?);
        }
        Ok(())
    }

    fn string(&mut self, value: &str) -> Result<(), AllocError> {
        let value = String::from_str(self.alloc, value)?;
        self.value(JsonValue::String(value))
    }

    fn number(&mut self, value: JsonNumber) -> Result<(), AllocError> {
        self.value(JsonValue::Number(value))
    }

    fn literal(&mut self, value: Option<bool>) -> Result<(), AllocError> {
        match value {
            None => self.value(JsonValue::Null),
            Some(b) => self.value(JsonValue::Boolean(b)),
        }
    }
}

/// The scalar members of a text's outermost object with wanted keys; none if the text's value is no object.
/// Of equal keys the last member counts.
///
/// An error is that of [`JsonValue::from_str`], or out of memory.
pub fn pick_members<W: Wanted>(
    alloc: Global,
    text: &str,
    wanted: W,
) -> Result<HashMap<String, JsonValue>, JsonParseError>
    ensures { TellsText (λ ms t. Picks W.is_wanted (members_of t) (members_view ms.entries)) None
        (chars text.now) result }
{
    let start = Picking {
        alloc,
        wanted,
        depth: 0,
        key: None,
        members: HashMap::new(alloc),
    };
    match read_events(alloc, text, start) {
        Ok(picking) => Ok(picking.members),
        Err((error, _)) => Err(JsonParseError::from(error)),
    }
}
