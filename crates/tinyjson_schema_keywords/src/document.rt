//! A whole schema with its anchors, the patterns parsed so far, and what a check may still do.
ghost use Rattle.std.specs.Prelude.{◌≡◌, option_map, true};
ghost use Rattle.std.specs.String.{string_bytes};
ghost use Rattle.tinyjson.specs.View.{view};
ghost use Rattle.tinyjson_schema_keywords.specs.Anchors.{anchors_in, repeated, has_anchors};

use crate::anchor::Anchor;
use crate::budget::Budget;
use crate::pattern::KeptPatterns;
use tinyjson::JsonValue;

/// A whole schema, its anchors, the patterns parsed so far, and how many steps the running check may still take.
#[derive(Drop)]
pub struct Whole<'s> {
    pub root: &'s JsonValue,
    pub anchors: Vec<Anchor<'s>>,
    pub patterns: KeptPatterns,
    pub budget: Budget,
    pub ghost gathered: { has_anchors (view root.now) anchors.items ≡ true },
}

/// A whole schema, and the first name that two of its anchors have.
#[derive(Clone, Copy)]
pub struct Document<'d, 's> {
    pub whole: &'d Whole<'s>,
    pub again: Option<&'s String>,
    pub ghost twice: { option_map (λ x. string_bytes x.now) again
        ≡ repeated (anchors_in (view whole.now.root.now)) },
}
