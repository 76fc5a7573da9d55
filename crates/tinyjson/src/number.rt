//! Exact decimal numbers: the crate `tinyjson_number`.

pub use tinyjson_number::{
    ExponentParts, JsonNumber, JsonNumberError, Layout, LiteralError, NumberParts,
};
