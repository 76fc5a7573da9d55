//! A JSON Schema of any draft, with all that its references lead into, as one of 2020-12.
//!
//! A schema of draft 4, 6, 7 or 2019-09 is put into the words of 2020-12, and further documents are embedded in it. So
//! are the meta-schemas of the drafts, as json-schema.org publishes them, without their comments.
//!
//! ```
//! let schema = read_as(schema, Draft::Draft202012, alloc)?; // in the draft that it names, or in 2020-12
//! let compound = embed(compound, "common.json", common, Draft::Draft202012, alloc)?;
//! let whole = with_meta_schemas(compound, alloc)?; // one resource, for `Schema::read` of `tinyjson_schema`
//! ```
#![tactic(auto)]

mod compound;
mod dialect;
mod document;
mod draft;
mod meta;
mod read;
mod recursive;
mod reference;
mod retrieval;
mod rule;
mod translate;
mod wanted;

pub use compound::{
    Compound, EmbedError, compound_of, embed, empty_compound, referring, resource_of,
    with_meta_schemas,
};
pub use dialect::{draft_of, is_older, meta_schema_of, uri_of};
pub use document::{base_of, found_at, has_definition, with_document};
pub use draft::{Dialect, Draft};
pub use meta::{MetaSchema, has_document, meta_schemas};
pub use read::{dialect_of, read_as, unknown_dialect};
pub use retrieval::with_retrieval_uri;
pub use translate::translated;
