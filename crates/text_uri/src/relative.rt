//! The reference that leads from one path to another.
ghost use Rattle.std.specs.Prelude.{◌≡◌, IfOk, length};
ghost use Rattle.std.specs.String.{string_bytes};
ghost use Rattle.text_uri.specs.Relative.{relative_reference, shared, ups};

use std::alloc::{AllocError, Global};

/// The relative reference that leads from one path to another (RFC 3986, section 4.2): `..` for each folder of the base
/// that does not have the target, and the rest of the target. A target that begins with `/` and shares no folder stays.
/// The only error is out of memory.
///
/// ```
/// let found = relative_reference(alloc, "a/b/c.json", "a/d.json")?;
/// assert_eq!(rt; found.as_str(), "../d.json");
/// ```
pub fn relative_reference(alloc: Global, base: &str, target: &str) -> Result<String, AllocError>
    ensures { IfOk result (λ s. string_bytes s ≡ relative_reference base.now target.now) }
{
    let shared = shared_len(base.as_bytes(), target.as_bytes());
    if shared == 0 && target.as_bytes().first() == Some(&b'/') {
        return String::from_str(alloc, target);
    }
    let mut reference = ups(alloc, base.split_at(shared).1)?;
    reference.push_str(target.split_at(shared).1)?;
    Ok(reference)
}

/// `../` for each folder.
fn ups(alloc: Global, base: &str) -> Result<String, AllocError>
    ensures { IfOk result (λ s. string_bytes s ≡ ups base.now) }
{
    let mut ups = String::new(alloc);
    for byte in base.as_bytes() {
        if *byte == b'/' {
            ups.push_str("../")?;
        }
    }
    Ok(ups)
}

/// The length of the path of the innermost folder that has both files.
fn shared_len(base: &[u8], target: &[u8]) -> usize
    ensures { result ≡ length (shared base.now target.now) }
{
    let mut shared = 0;
    for (at, byte) in base.iter().enumerate() {
        if at >= target.len() || target[at] != *byte {
            return shared;
        }
        if *byte == b'/' {
            shared = at + 1;
        }
    }
    shared
}
