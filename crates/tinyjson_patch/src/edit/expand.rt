//! Takes containers apart.
ghost use Rattle.std.specs.Prelude.{◌≡◌, IfOk, OnOk};
ghost use Rattle.tinyjson_grammar.specs.Soundness.{IsSorted};
ghost use Rattle.tinyjson_view.specs.Views.{tree_of, trees_of, members_of};
ghost use Rattle.tinyjson_patch.specs.private.Edited.{tree, items_tree, members_tree, IsApart};

use crate::edit::edited::Edited;
use std::alloc::{AllocError, Global};
use std::collections::{BTreeMap, VecDeque};
use tinyjson::JsonKind;
use tinyjson_document::JsonView;
use tinyjson_view::{MemberView, ValueView};

impl<'d> Edited<'d> {
    /// Takes a container apart into its parts, which stay where they are. A scalar is left, and so is what was taken
    /// apart. The tree stays the same, also where memory runs out.
    pub(crate) fn expand(&mut self, alloc: Global) -> Result<(), AllocError>
        ensures same { tree self.new ≡ tree self.old }
        ensures apart { OnOk result (IsApart self.new) }
    {
        if let Edited::Kept(view) = self {
            *self = parts_of(alloc, *view)?;
        }
        Ok(())
    }
}

/// The value, taken apart if it is a container.
#[tactic(auto, using(crate::proofs::Editing::Trees::tree_Array))]
fn parts_of<'d>(alloc: Global, view: ValueView<'d>) -> Result<Edited<'d>, AllocError>
    ensures same { IfOk result (λ e. tree e ≡ tree_of view.entry) }
    ensures apart { IfOk result IsApart }
{
    match view.kind() {
        JsonKind::Array => Ok(Edited::Array(kept_items(alloc, view.items(alloc)?)?)),
        JsonKind::Object => Ok(Edited::Object(kept_members(alloc, view.members(alloc)?)?)),
        _ => Ok(Edited::Kept(view)),
    }
}

fn kept_items<'d>(
    alloc: Global,
    views: Vec<ValueView<'d>>,
) -> Result<VecDeque<Box<Edited<'d>>>, AllocError>
    ensures { IfOk result (λ items. items_tree items.items ≡ trees_of views.entry.items) }
{
    let mut items = VecDeque::with_capacity(alloc, views.len())?;
    for view in &views {
        items.push_back(Box::new(alloc, Edited::Kept(*view))?)?;
    }
    Ok(items)
}

fn kept_members<'d>(
    alloc: Global,
    views: Vec<MemberView<'d>>,
) -> Result<BTreeMap<String, Edited<'d>>, AllocError>
    requires { IsSorted (members_of views.items) }
    ensures { IfOk result (λ members.
        members_tree members.entries ≡ members_of views.entry.items) }
{
    let mut members = BTreeMap::new(alloc);
    for view in &views {
        members.insert(String::from_str(alloc, view.key)?, Edited::Kept(view.value))?;
    }
    Ok(members)
}
