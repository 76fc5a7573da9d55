//! Iterators over the items of an array and over the members of an object.
ghost use Rattle.tinyjson_document.specs.Known.{KnownItems, KnownItems_prop};
ghost use Rattle.tinyjson_document.specs.Known.{KnownMembers, KnownMembers_prop};

use crate::document::Document;
use crate::node::Node;
use tinyjson_cells::store::{Cell, Member, text_at};

/// Iterates over the items of an array. Contracts see the items that are left.
#[derive(Clone, Copy, Drop)]
pub struct Items<'d> {
    pub(crate) document: &'d Document,
    pub(crate) rest: &'d [Cell],
    ghost known: { KnownItems document.now.store rest.now } by { KnownItems_prop document.now.store rest.now },
}

impl<'d> Iterator for Items<'d> {
    ghost use Rattle.std.specs.Iterator.{at_most};
    ghost use Rattle.std.specs.Prelude.{length};
    ghost use Rattle.tinyjson_document.specs.Document.{GivesItem};

    type Item = Node<'d>;

    ghost next_gives = { GivesItem };

    ghost remaining = { λ s. at_most (length s.rest.now) };

    fn next(&mut self) -> Option<Node<'d>> {
        let (cell, rest) = self.rest.split_first()?;
        let document = self.document;
        *self = Items { document, rest };
        Some(Node {
            document,
            cell: *cell,
        })
    }
}

/// Iterates over the members of an object, in the order of their keys' bytes. Contracts see the members that are
/// left.
#[derive(Clone, Copy, Drop)]
pub struct Members<'d> {
    pub(crate) document: &'d Document,
    pub(crate) rest: &'d [Member],
    ghost known: { KnownMembers document.now.store rest.now } by { KnownMembers_prop document.now.store rest.now },
}

impl<'d> Iterator for Members<'d> {
    ghost use Rattle.std.specs.Iterator.{at_most};
    ghost use Rattle.std.specs.Prelude.{length};
    ghost use Rattle.tinyjson_document.specs.Document.{GivesMember};

    type Item = (&'d str, Node<'d>);

    ghost next_gives = { GivesMember };

    ghost remaining = { λ s. at_most (length s.rest.now) };

    fn next(&mut self) -> Option<(&'d str, Node<'d>)> {
        let (member, rest) = self.rest.split_first()?;
        let document = self.document;
        let key = text_at(&document.store.texts, member.key)?;
        *self = Members { document, rest };
        Some((
            key,
            Node {
                document,
                cell: member.value,
            },
        ))
    }
}
