//! Assertions of JSON Schema 2020-12: the keywords that constrain a value itself, not its parts (Validation, sections 6 and 7).
//!
//! ```
//! let is_met = accepts(Keyword::Maximum, &limit, &value, walk)?;
//! ```
#![tactic(auto)]

mod assertion;
mod formats;
mod forms;
mod kinds;
mod multiple;
mod unique;

pub use assertion::{
    accepts, is_among, is_count_at_least, is_count_at_most, item_count, member_count,
};
pub use formats::unknown_formats;
pub use forms::{
    are_types, is_array, is_base, is_boolean, is_boolean_or_object, is_count, is_dialect,
    is_divisor_number, is_key_list, is_key_map, is_number, is_object, is_string,
};
pub use kinds::kind_met;
