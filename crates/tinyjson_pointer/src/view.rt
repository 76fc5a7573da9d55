//! Finds the part that a pointer names, in a document or in a value.
ghost use Rattle.std.specs.Prelude.{◌≡◌, option_map};
ghost use Rattle.std.specs.Str.{chars};
ghost use Rattle.tinyjson_pointer.specs.Tokens.{tokens_of};
ghost use Rattle.tinyjson_pointer.specs.Walk.{step, part_at};

use crate::array_index::index;
use crate::pointer::Pointer;
use tinyjson::JsonKind;
use tinyjson_document::JsonView;

impl Pointer {
    /// The part that this names in a document's node, or in another [`JsonView`], if there is one. In a
    /// value it is what [`Pointer::find`] returns.
    ///
    /// ```
    /// let document = Document::read(alloc, r#"{"a/b":[7]}"#)?;
    /// let part = Pointer::parse(alloc, "/a~1b/0")?.find_part(document.root()); // the number 7
    /// ```
    pub fn find_part<'t, V: JsonView<'t>>(&self, whole: V) -> Option<V>
        ensures { option_map V.tree result ≡ part_at (V.tree whole) (tokens_of self.now) }
    {
        let mut here = whole;
        for token in &self.tokens {
            here = child_part(here, token.as_str())?;
        }
        Some(here)
    }
}

/// The part that one token names in a document's node, or in another [`JsonView`].
///
/// ```
/// let part = child_part(document.root(), "0"); // of [7,8] the number 7
/// ```
pub fn child_part<'t, V: JsonView<'t>>(view: V, token: &str) -> Option<V>
    ensures { option_map V.tree result ≡ step (V.tree view) (chars token.now) }
{
    match view.kind() {
        JsonKind::Object => view.member(token),
        JsonKind::Array => {
            let count = view.len();
            let at = index(token)?;
            if at >= count {
                return None;
            }
            view.item(at)
        }
        _ => None,
    }
}
