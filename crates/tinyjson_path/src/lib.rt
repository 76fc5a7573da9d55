//! JSONPath (RFC 9535): the nodes that a query selects in a JSON value or in a document, with their normalized paths.
//!
//! ```
//! let query = Query::parse(alloc, "$.a[?@ > 1]")?;
//! let nodes = find(&query, alloc, &value)?;
//! let nodes = find_in(&query, alloc, document.root())?;
//! let selection = Selection::in_document(&query, alloc, document.root())?; // the same nodes, one by one
//! ```
#![tactic(auto)]

mod answers;
mod asking;
mod children;
mod key;
mod node;
mod operand;
mod path;
mod patterns;
mod same;
mod select;
mod selection;
mod slice;
mod steady;
mod waiting;

pub use asking::has_pattern;
pub use node::{Located, Location};
pub use path::path_text;
pub use patterns::{FindError, PatternLimit};
pub use selection::{Selection, find, find_in};
pub use tinyjson_path_query::{ParseError, ParseErrorKind, Query};
pub use tinyjson_view::ValueView;
