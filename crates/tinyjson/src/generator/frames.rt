//! The open containers, and what each has still to write.
ghost use Rattle.std.specs.Prelude.{◌≡◌, ◌+◌, ◌∷◌, [], length, MatchOption, OnOk};
ghost use Rattle.tinyjson.specs.private.Encoding.{IsStack, frames};

use crate::value::JsonValue;
use std::alloc::{AllocError, Global};

/// What an open container has still to write before its closing bracket. With `first` nothing of it is
/// written yet.
#[derive(Clone, Copy, Drop)]
pub(super) enum Frame<'a> {
    Items { rest: &'a [JsonValue], first: bool },
    /// The one member of an object that has no other.
    Member { key: &'a str, value: &'a JsonValue },
    /// The first `left` of the gathered members.
    Members { left: usize, first: bool },
}

/// How many frames are kept in place.
const NEAR: usize = 64;

/// The open containers, the innermost last. The first 64 take no memory.
#[derive(Drop)]
pub(super) struct Stack<'a> {
    near: [Frame<'a>; NEAR],
    far: Vec<Frame<'a>>,
    depth: usize,
}

impl<'a> Stack<'a> {
    pub(super) fn new(alloc: Global) -> Self
        ensures stack { IsStack result }
        ensures frames { frames result ≡ [] }
    {
        let none = Frame::Members {
            left: 0,
            first: true,
        };
        Stack {
            near: [none; NEAR],
            far: Vec::new(alloc),
            depth: 0,
        }
    }

    pub(super) fn push(&mut self, frame: Frame<'a>) -> Result<(), AllocError>
        requires { IsStack self.old }
        ensures stack { OnOk result (IsStack self.new) }
        ensures frames { OnOk result (frames self.new ≡ frame.entry ∷ frames self.old) }
    {
        // No memory holds a value that is nested so deep that the count doesn't fit.
        let last = self.depth;
        let depth = last.checked_add(1).ok_or(AllocError)?;
        if last < NEAR {
            let near = &mut self.near[..];
            near[last] = frame;
        } else {
            self.far.push(frame)?;
        }
        self.depth = depth;
        Ok(())
    }

    /// Pushes a container that goes on after the inner one, and that one.
    pub(super) fn enter(&mut self, outer: Frame<'a>, inner: Frame<'a>) -> Result<(), AllocError>
        requires { IsStack self.old }
        ensures stack { OnOk result (IsStack self.new) }
        ensures frames { OnOk result (frames self.new ≡ inner.entry ∷ outer.entry
            ∷ frames self.old) }
    {
        self.push(outer)?;
        self.push(inner)
    }

    /// The innermost container, and how many are open with it.
    pub(super) fn pop(&mut self) -> Option<(Frame<'a>, usize)>
        requires { IsStack self.old }
        ensures stack { IsStack self.new }
        ensures frames { MatchOption result (frames self.old ≡ [])
            (λ p. (frames self.old ≡ p.0 ∷ frames self.new)
            × (p.1 ≡ length (frames self.new) + 1)) }
    {
        let depth = self.depth;
        let last = depth.checked_sub(1)?;
        self.depth = last;
        let frame = if last < NEAR {
            let near = &mut self.near[..];
            near[last]
        } else {
            self.far.pop()?
        };
        Some((frame, depth))
    }
}
