//! The keywords of JSON Schema 2020-12 and their values in a schema: the forms that they need, the subschemas, the
//! names of schemas, and where references lead.
//!
//! ```
//! let items = schema_at(&schema, Keyword::Items);
//! let unknown = unknown_words(&schema, alloc)?;
//! ```
#![tactic(auto)]

mod anchor;
mod budget;
mod document;
mod keyword;
mod pattern;
mod reference;
mod subschemas;
mod unknown;
mod walk;

pub use anchor::{Anchor, anchored, anchors_of, is_plain_name, repeated};
pub use budget::Budget;
pub use document::{Document, Whole};
pub use keyword::{Form, Keyword, form_at, form_by, keyword_of};
pub use pattern::{KeptPatterns, PatternError, is_pattern};
pub use reference::{
    at_pointer, percent_decoded, read_pointer, read_reference, referenced, target,
};
pub use subschemas::{
    Part, SchemaMember, Token, branch, has_key, is_some_item, items_in, listed_members, name_of,
    operand, parts_of, schema_at, schema_map_at, schema_members, schemas_at,
};
pub use unknown::unknown_words;
pub use walk::{CheckError, SearchError, Walk};
