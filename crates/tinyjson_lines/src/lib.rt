//! Lines of JSON for any reader and any writer. If a write fails, a prefix was written.
//!
//! ```
//! write_line(alloc, &value, &mut output)?; // {"a":1} and a line feed
//! ```
#![tactic(auto)]

mod checked;
mod each;
mod line;
mod lines;
mod refusal;
mod within;

pub use checked::{CheckedRead, read_line_checked};
pub use each::{LineHandler, for_each_line};
pub use line::write_line;
pub use lines::{content, read_line};
pub use refusal::{Cause, Refusal};
pub use tinyjson_output::write_all;
pub use within::{LineRead, read_line_within};
