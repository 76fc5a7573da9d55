//! A number of a tree, whatever holds the tree.

use tinyjson::JsonNumber;

/// A number of a tree: that of a value, or one that was made of its text in a document.
///
/// Contracts see it by its decimal, `decimal_of`.
#[derive(Drop)]
pub enum NumberView<'t> {
    /// A number that is there.
    Kept(&'t JsonNumber),
    /// A number of its own. It has at most 24 digits, which take no memory.
    Made(JsonNumber),
}

impl NumberView<'_> {
    ghost use Rattle.std.specs.Prelude.{◌≡◌};
    ghost use Rattle.tinyjson_document.specs.Numbers.{decimal_of};

    /// The number, exact.
    ///
    /// ```
    /// node.number().is_some_and(|number| number.as_number().is_zero())
    /// ```
    pub fn as_number(&self) -> &JsonNumber
        ensures { result.now.decimal ≡ decimal_of self.now }
    {
        match self {
            NumberView::Kept(number) => number,
            NumberView::Made(number) => number,
        }
    }
}
