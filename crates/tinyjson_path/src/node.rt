//! The nodes of a value, each with its location.
ghost use Rattle.std.specs.Prelude.{◌≡◌, ◌++◌, ◌∷◌, [], IfOk};
ghost use Rattle.std.specs.Str.{chars};
ghost use Rattle.tinyjson_path.specs.Nodes.{at_key, at_index, path_of, part_view, root_part, below};
ghost use Rattle.tinyjson_view.specs.Views.{tree_of};

use std::alloc::{AllocError, Global};
use std::rc::Rc;
use tinyjson_view::ValueView;

/// The place of a node in the queried value, as its normalized path (RFC 9535, 2.7). It shares the path of its
/// parent.
pub enum Location<'v> {
    Root,
    Member(Rc<Location<'v>>, &'v str),
    Item(Rc<Location<'v>>, usize),
}

/// Frees in a loop, so that a long path takes no stack. Steps that other nodes share stay.
impl Drop for Location<'_> {
    fn drop(mut self) {
        loop {
            let up = match self {
                Location::Root => return,
                Location::Member(up, _) => up,
                Location::Item(up, _) => up,
            };
            match Rc::into_inner(up) {
                Some(location) => self = location,
                None => return,
            }
        }
    }
}

/// A node (RFC 9535, 1.1): a part of the queried value, and its location.
#[derive(Drop)]
pub struct Located<'v> {
    pub location: Rc<Location<'v>>,
    pub value: ValueView<'v>,
}

impl<'v> Located<'v> {
    pub(crate) fn root(alloc: Global, value: ValueView<'v>) -> Result<Located<'v>, AllocError>
        ensures { IfOk result (λ n. part_view n ≡ root_part (tree_of value.entry)) }
    {
        Ok(Located {
            location: Rc::new(alloc, Location::Root)?,
            value,
        })
    }

    /// The node of a member of this one.
    pub(crate) fn member(
        &self,
        alloc: Global,
        name: &'v str,
        value: ValueView<'v>,
    ) -> Result<Located<'v>, AllocError>
        ensures { IfOk result (λ n. part_view n
            ≡ below (path_of self.now) (at_key (chars name.now)) (tree_of value.entry)) }
    {
        Ok(Located {
            location: Rc::new(alloc, Location::Member(self.location.clone()?, name))?,
            value,
        })
    }

    /// The node of an item of this one.
    pub(crate) fn item(
        &self,
        alloc: Global,
        index: usize,
        value: ValueView<'v>,
    ) -> Result<Located<'v>, AllocError>
        ensures { IfOk result (λ n. part_view n
            ≡ below (path_of self.now) (at_index index) (tree_of value.entry)) }
    {
        Ok(Located {
            location: Rc::new(alloc, Location::Item(self.location.clone()?, index))?,
            value,
        })
    }

    pub(crate) fn try_clone(&self) -> Result<Located<'v>, AllocError>
        ensures { IfOk result (λ n. part_view n ≡ part_view self.now) }
    {
        Ok(Located {
            location: self.location.clone()?,
            value: self.value,
        })
    }
}
