//! Laws of the parts of texts.
ghost use Rattle.text_uri.specs.Laws.{TextOfParts, FragmentOfParts};

/// A text is composed of its parts again, whatever its characters are.
///
/// ```
/// text_of_parts(); // of `a?#b` too, whose query is there and empty
/// ```
pub fn text_of_parts()
    ensures { TextOfParts }
{}

/// The fragment of a text is all after its first `#`.
///
/// ```
/// fragment_of_parts(); // of `a#b#c` it is `b#c`
/// ```
pub fn fragment_of_parts()
    ensures { FragmentOfParts }
{}
