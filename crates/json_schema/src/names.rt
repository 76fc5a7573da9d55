//! The names of files.
ghost use Rattle.std.specs.Prelude.{◌≡◌, option_map};
ghost use Rattle.json_schema.specs.Names.{located, plain};

/// The URI and the name of a document's file: of `URI=NAME`, or of a name alone.
pub fn located(text: &str) -> (Option<&str>, &str)
    ensures { (option_map (λ uri. uri.now) result.0, result.1.now) ≡ located text.now }
{
    match text.split_once('=') {
        Some((uri, name)) => (Some(uri), name),
        None => (None, text),
    }
}

/// A file's name without `./` at its front.
pub fn plain(name: &str) -> &str
    ensures { result.now ≡ plain name.now }
{
    name.strip_prefix("./").unwrap_or(name)
}
