//! The statuses that calls return.

/// The call succeeded.
pub const OK: u32 = 0;
/// The text is no JSON.
pub const REFUSED: u32 = 1;
/// The bytes are not UTF-8.
pub const NOT_UTF8: u32 = 2;
/// Memory ran out.
pub const OUT_OF_MEMORY: u32 = 3;
/// The answer does not fit the buffer.
pub const TOO_SMALL: u32 = 4;
/// The place has no error.
pub const NO_ERROR: u32 = 5;
/// The pointer names no part.
pub const NOT_FOUND: u32 = 6;
/// The text of the pointer is not a pointer.
pub const BAD_POINTER: u32 = 7;
/// The patch is not a list of operations.
pub const BAD_PATCH: u32 = 8;
/// An operation of the patch can't be applied.
pub const FAILED: u32 = 9;
/// The text of the query is not a query.
pub const BAD_QUERY: u32 = 10;
/// A regular expression of the query or the text is too deep or too large.
pub const PATTERN_LIMIT: u32 = 11;
/// The value is not valid by the schema.
pub const INVALID: u32 = 12;
/// The schema is no JSON.
pub const BAD_SCHEMA: u32 = 13;
/// The schema can't be applied.
pub const SCHEMA_FAULT: u32 = 14;
/// The check needs too many nested schemas, or too many steps.
pub const STEP_LIMIT: u32 = 15;
