//! Resolving a reference against a base.
ghost use Rattle.std.specs.Prelude.{◌≡◌, IfOk, option_map};
ghost use Rattle.std.specs.String.{string_bytes};
ghost use Rattle.text_uri.specs.Resolving.{resolved, without_fragment, fragment_of};
ghost use Rattle.text_uri.specs.Resolving.{merged, path_from};
ghost use Rattle.text_uri.specs.Splitting.{parts_of};

use crate::cutting::{End, after, cut_text, through_last_slash};
use crate::dots::without_dots;
use crate::parts::{Reference, compose, split};
use std::alloc::{AllocError, Global};

/// Resolves the reference against the base (RFC 3986, section 5.2, strict). The result keeps the fragment of
/// the reference. The only error is out of memory.
///
/// Any two texts are accepted: nothing is decoded, and no character is rejected. If neither has a scheme, the
/// result has none.
///
/// ```
/// let target = resolve(alloc, "http://example.com/a/b?c", "../d")?;
/// assert_eq!(rt; target.as_str(), "http://example.com/d");
/// ```
pub fn resolve(alloc: Global, base: &str, reference: &str) -> Result<String, AllocError>
    ensures { IfOk result (λ s. string_bytes s ≡ resolved base.now reference.now) }
{
    let base = split(base);
    let reference = split(reference);
    let scheme = reference.scheme.or(base.scheme);
    if reference.scheme.is_some() || reference.authority.is_some() {
        let path = without_dots(alloc, reference.path)?;
        return compose(
            alloc,
            scheme,
            reference.authority,
            path.as_str(),
            reference.query,
            reference.fragment,
        );
    }
    if reference.path.is_empty() {
        let query = reference.query.or(base.query);
        return compose(
            alloc,
            scheme,
            base.authority,
            base.path,
            query,
            reference.fragment,
        );
    }
    let path = path_from(alloc, base, reference.path)?;
    compose(
        alloc,
        scheme,
        base.authority,
        path.as_str(),
        reference.query,
        reference.fragment,
    )
}

/// The path of the result, if the reference has a path, but neither scheme nor authority.
fn path_from(alloc: Global, base: Reference<'_>, path: &str) -> Result<String, AllocError>
    ensures { IfOk result (λ s. string_bytes s ≡ path_from (parts_of base.entry) path.now) }
{
    if after("/", path).is_some() {
        return without_dots(alloc, path);
    }
    let merged = merge(alloc, base, path)?;
    without_dots(alloc, merged.as_str())
}

/// The path after the base's, which is cut after its last `/` (section 5.2.3).
fn merge(alloc: Global, base: Reference<'_>, path: &str) -> Result<String, AllocError>
    ensures { IfOk result (λ s. string_bytes s ≡ merged (parts_of base.entry) path.now) }
{
    let front = if base.authority.is_some() && base.path.is_empty() {
        "/"
    } else {
        through_last_slash(base.path)
    };
    let mut merged = String::from_str(alloc, front)?;
    merged.push_str(path)?;
    Ok(merged)
}

/// The text before the first `#`.
///
/// ```
/// assert_eq!(rt; without_fragment("a/b#c"), "a/b");
/// ```
pub fn without_fragment(text: &str) -> &str
    ensures { result.now ≡ without_fragment text.now }
{
    cut_text(text, End::Query).0
}

/// The text after the first `#`, or `None` if there is none.
///
/// ```
/// assert!(rt; fragment("a/b#c") == Some("c"));
/// assert!(rt; fragment("a/b").is_none());
/// ```
pub fn fragment(text: &str) -> Option<&str>
    ensures { option_map (λ x. x.now) result ≡ fragment_of text.now }
{
    after("#", cut_text(text, End::Query).1)
}
