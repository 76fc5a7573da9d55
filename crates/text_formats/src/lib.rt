//! Formats of texts: those of JSON Schema's `format` that are exact and short.
//!
//! ```
//! assert!(rt; is_date("2024-02-29"));
//! assert!(rt; !is_date("1900-02-29"));
//! ```
#![tactic(auto)]

mod date;
mod duration;
mod email;
mod form;
mod format;
mod host;
mod ip;
mod letters;
mod pointer;
mod template;
mod uri;

pub use date::{is_date, is_date_time, is_time};
pub use duration::is_duration;
pub use email::is_email;
pub use form::is_uuid;
pub use format::Format;
pub use host::is_hostname;
pub use ip::{is_ipv4, is_ipv6};
pub use pointer::{is_json_pointer, is_relative_json_pointer};
pub use template::is_uri_template;
pub use uri::{is_uri, is_uri_reference};
