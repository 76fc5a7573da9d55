//! The documents of the drafts by their URIs.
ghost use Rattle.std.specs.Prelude.{◌≡◌, map, option_map};
ghost use Rattle.tinyjson_schema_drafts.specs.Meta.{documents_with, has_document, published};

mod draft_2019_09;
mod draft_2020_12;
mod draft_4;
mod draft_6;
mod draft_7;

/// A document that json-schema.org publishes.
#[derive(Clone, Copy, Debug)]
pub struct MetaSchema {
    /// Its URI, without a fragment.
    pub uri: &'static str,
    /// Its text, which is JSON.
    pub text: &'static str,
}

/// The meta-schema of a draft, and those of its vocabularies, if the URI is that of one of them. They refer to one another
/// alone. The URI has no fragment.
///
/// ```
/// let found = meta_schemas("https://json-schema.org/draft/2019-09/meta/core"); // seven, the one of the draft first
/// ```
pub fn meta_schemas(uri: &str) -> Option<&'static [MetaSchema]>
    ensures { option_map (λ found. map published found.now) result ≡ documents_with uri.now }
{
    let draft_2020_12 = draft_2020_12::documents();
    if has_document(draft_2020_12, uri) {
        return Some(draft_2020_12);
    }
    let draft_2019_09 = draft_2019_09::documents();
    if has_document(draft_2019_09, uri) {
        return Some(draft_2019_09);
    }
    let draft_7 = draft_7::documents();
    if has_document(draft_7, uri) {
        return Some(draft_7);
    }
    let draft_6 = draft_6::documents();
    if has_document(draft_6, uri) {
        return Some(draft_6);
    }
    let draft_4 = draft_4::documents();
    if has_document(draft_4, uri) {
        return Some(draft_4);
    }
    None
}

/// Whether one of the documents has the URI.
///
/// ```
/// let found = has_document(documents, "http://json-schema.org/draft-07/schema");
/// ```
pub fn has_document(documents: &[MetaSchema], uri: &str) -> bool
    ensures { result ≡ has_document (map published documents.now) uri.now }
{
    for document in documents {
        if document.uri == uri {
            return true;
        }
    }
    false
}
