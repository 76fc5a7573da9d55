//! Events that take a value of a document as a whole.
ghost use Rattle.std.specs.Prelude.{List, OnOk};
ghost use Rattle.tinyjson.specs.Events.{Open, Puts};
ghost use Rattle.tinyjson_document.specs.Document.{tree};

use crate::arena::Arena;
use crate::node::Node;
use crate::sending::replay;
use std::alloc::Global;
use tinyjson::Events;

/// Events that take a value of a document, too. What copies the value in a shorter way than event by event does that
/// here.
pub trait NodeEvents: Events {
    /// Passes a value of a document. It has the contract of [`replay`](crate::replay()), and calls it unless a type has
    /// a way of its own.
    ///
    /// An error is the one that an event returned, or out of memory. Then nothing is known of the events.
    ///
    /// ```
    /// impl NodeEvents for Numbers {} // numbers.replay(alloc, node) is replay(alloc, node, &mut numbers)
    /// ```
    fn replay(&mut self, alloc: Global, node: Node<'_>) -> Result<(), Self::Error>
        requires { (start : Self) × (os : List Open) × Self.holds start self.old os }
        ensures { (start : Self) (os : List Open) → Self.holds start self.old os →
            OnOk result (Puts (Self.holds start) (Self.is start) os (tree node.entry) self.new) }
    {
        replay(alloc, node, self)
    }
}

impl NodeEvents for Arena<'_> {}
