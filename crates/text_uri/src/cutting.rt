//! Where texts are cut.
ghost use Rattle.std.specs.Prelude.{◌≡◌, ℕ, Bool, length};
ghost use Rattle.std.specs.String.{string_bytes};
ghost use Rattle.text_uri.specs.Letters.{before, from, after};
ghost use Rattle.text_uri.specs.Letters.{before_last_slash, through_last_slash};
ghost use Rattle.text_uri.specs.Splitting.{ends, now};

/// A kind of places in texts: a part of a text ends at the first such byte.
pub trait Ends: Copy {
    ghost ends: { Self → ℕ → Bool };

    /// Whether the part ends at the byte.
    fn ends(self, byte: u8) -> bool
        ensures { result ≡ ends self byte };
}

/// Where a part of a URI ends.
#[derive(Clone, Copy)]
pub(crate) enum End {
    Scheme,
    Authority,
    Path,
    Query,
    Segment,
}

/// The part before the end, and the rest from there on.
pub fn cut<E: Ends>(text: &[u8], end: E) -> (&[u8], &[u8])
    ensures front { result.0.now ≡ before (E.ends end) text.now }
    ensures rest { result.1.now ≡ from (E.ends end) text.now }
{
    text.split_at(end_in(text, end))
}

/// The part before the end, and the rest from there on.
pub(crate) fn cut_text(text: &str, end: End) -> (&str, &str)
    ensures front { result.0.now ≡ before (ends end) text.now }
    ensures rest { result.1.now ≡ from (ends end) text.now }
{
    text.split_at(end_in(text.as_bytes(), end))
}

/// The number of bytes before the end.
pub(crate) fn end_in<E: Ends>(bytes: &[u8], end: E) -> usize
    ensures { result ≡ length (before (E.ends end) bytes.now) }
{
    for (i, byte) in bytes.iter().enumerate() {
        if end.ends(*byte) {
            return i;
        }
    }
    bytes.len()
}

impl Ends for End {
    ghost ends = { ends };

    fn ends(self, byte: u8) -> bool {
        match self {
            End::Scheme => byte == b':' || byte == b'/' || byte == b'?' || byte == b'#',
            End::Authority => byte == b'/' || byte == b'?' || byte == b'#',
            End::Path => byte == b'?' || byte == b'#',
            End::Query => byte == b'#',
            End::Segment => byte == b'/',
        }
    }
}

/// The text after the front, if it begins with it.
pub(crate) fn after<'t>(front: &str, text: &'t str) -> Option<&'t str>
    ensures { now result ≡ after front.now text.now }
{
    text.strip_prefix(front)
}

/// The text up to and with its last `/`; empty if it has none.
pub(crate) fn through_last_slash(text: &str) -> &str
    ensures { result.now ≡ through_last_slash text.now }
{
    match text.rfind('/') {
        Some(at) => text.split_at(at + 1).0,
        None => "",
    }
}

/// Removes the last `/` and all after it; or all, if there is none.
pub(crate) fn remove_last_segment(text: &mut String)
    ensures { string_bytes text.new ≡ before_last_slash (string_bytes text.old) }
{
    let at = text.as_str().rfind('/').unwrap_or(0);
    text.truncate(at);
}
