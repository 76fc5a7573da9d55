//! Regular expressions of RFC 9485 (I-Regexp), and the patterns that JSON Schema recommends. A
//! regular expression is matched in a single pass over the text, and a pattern in one for each of
//! its outermost branches and look-aheads. Neither takes memory.
//!
//! ```
//! let mut months = IRegexp::parse(alloc, "[0-9]{4}-[0-9]{2}")?;
//! let is_month = months.matches("2026-11");
//! assert!(rt; is_month);
//! ```
#![tactic(auto)]

mod branches;
mod cases;
mod error;
mod letter;
mod limits;
mod mark;
mod names;
mod outermost;
mod pattern;
mod pattern_error;
mod reader;
mod refusal;
mod regexp;
mod search;
mod token;

pub use error::{IRegexpError, IRegexpErrorKind};
pub use pattern::SchemaPattern;
pub use pattern_error::{SchemaPatternError, SchemaPatternErrorKind};
pub use regexp::IRegexp;
pub use text_regexp::Work;
