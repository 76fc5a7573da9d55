//! Schemas that are applied, with marks of their names.
ghost use Rattle.std.specs.Int.{bit_at};
ghost use Rattle.std.specs.Prelude.{◌≡◌, ◌==◌, Some, None, IfOk, true, false, option_map};
ghost use Rattle.std.specs.Str.{chars};
ghost use Rattle.tinyjson.specs.Index.{nth};
ghost use Rattle.tinyjson.specs.Soundness.{IsSorted};
ghost use Rattle.tinyjson.specs.View.{view, items_view, members_listed};
ghost use Rattle.tinyjson_schema_keywords.specs.Applied.{schema_at, schemas_at, schema_map_at};
ghost use Rattle.tinyjson_schema_keywords.specs.Names.{name};
ghost use Rattle.tinyjson_schema_keywords.specs.References.{referenced};
ghost use Rattle.tinyjson_schema_keywords.specs.declared.keyword.Keyword.{Keyword};
ghost use Rattle.tinyjson_schema_table.specs.Links.{keyed};
ghost use Rattle.tinyjson_schema_table.specs.Marks.{mark, HasMarks};
ghost use Rattle.tinyjson_schema_table.specs.Places.{is_of};
ghost use Rattle.tinyjson_schema.specs.Marks.{AppliesNothing, DemandsNothing, RefersNowhere};
ghost use Rattle.tinyjson_schema.specs.Marks.{TestsNothing};

use crate::leads::led;
use crate::walk::Walk;
use std::alloc::{AllocError, Global};
use tinyjson::JsonValue;
use tinyjson_schema_keywords::{Keyword, items_in, listed_members, schema_at, target};
use tinyjson_schema_table::{Known, Way, known_part, mark_of, marks_of};

/// The marks of the keywords that apply schemas.
const APPLICATORS: u64 = 0x4841_0140_7029_0051;

/// The marks of those among them that only accept or reject.
const TESTING: u64 = 0x4840_0000_0020_0040;

/// The marks of those that apply schemas to the value itself, or by patterns, and whose violations are in these
/// schemas.
const DEMANDING: u64 = 0x6008_0001;

/// The marks of references.
const REFERRING: u64 = 0x0100_0001_0000;

/// A schema that is applied, and the marks of its names. A keyword whose mark is not among these is not in the schema,
/// so it is not looked up. A schema that is known is in a table, from which its subschemas are. It is passed by
/// reference, for the stack that nested schemas take.
#[derive(Clone, Copy)]
pub struct Applied<'s> {
    pub schema: &'s JsonValue,
    pub marks: u64,
    pub known: Option<Known<'s>>,
    pub ghost marked: { HasMarks marks (view schema.now) },
    pub ghost same: { is_of known (view schema.now) ≡ true },
}

impl<'s> Applied<'s> {
    /// A schema that is in no table.
    pub fn of(schema: &'s JsonValue) -> Self
        ensures { result.schema ≡ schema.entry }
    {
        Applied {
            schema,
            marks: marks_of(schema),
            known: None,
        }
    }

    /// A schema that is in a table.
    pub fn known(known: Known<'s>) -> Self
        ensures { result.schema ≡ known.entry.shape.now.schema }
    {
        Applied {
            schema: known.shape.schema,
            marks: known.shape.marks,
            known: Some(known),
        }
    }

    /// A schema that may be in a table.
    pub fn by(schema: &'s JsonValue, known: Option<Known<'s>>) -> Self
        requires { is_of known (view schema.now) ≡ true }
        ensures { view result.schema.now ≡ view schema.now }
    {
        match known {
            Some(known) => Applied::known(known),
            None => Applied::of(schema),
        }
    }

    /// Whether the schema may have the keyword. If not, it does not have it.
    #[inline(always)]
    fn may_have(&self, keyword: Keyword) -> bool
        ensures { result ≡ (bit_at self.now.marks (mark (name keyword)) == 1) }
    {
        (self.marks >> mark_of(keyword)) & 1 == 1
    }

    /// Whether the schema may have a keyword whose mark is in the set. If not, it has none of these.
    #[inline(always)]
    fn may_have_some(&self, set: u64) -> bool
        ensures { result ≡ false → (k : Keyword) → bit_at set (mark (name k)) ≡ 1
            → schema_at (view self.now.schema.now) k ≡ None }
    {
        self.marks & set != 0
    }

    /// Whether the schema may apply schemas. If not, it has no keyword that does.
    pub fn may_apply(&self) -> bool
        ensures { result ≡ false → AppliesNothing (view self.now.schema.now) }
    {
        self.may_have_some(APPLICATORS)
    }

    /// Whether the schema may have a keyword that counts or combines what its subschemas accept. If not, it has none.
    pub fn may_test(&self) -> bool
        ensures { result ≡ false → TestsNothing (view self.now.schema.now) }
    {
        self.may_have_some(TESTING)
    }

    /// Whether the schema may have `allOf`, `if`, `dependentSchemas` or `patternProperties`. If not, it has none.
    pub fn may_demand(&self) -> bool
        ensures { result ≡ false → DemandsNothing (view self.now.schema.now) }
    {
        self.may_have_some(DEMANDING)
    }

    /// Whether the schema may have a reference. If not, it has none.
    pub fn may_refer(&self) -> bool
        ensures { result ≡ false → RefersNowhere (view self.now.schema.now) }
    {
        self.may_have_some(REFERRING)
    }

    /// Whether it is known to have no more than one assertion.
    #[inline(always)]
    pub fn asserts_once(&self) -> bool {
        match self.known {
            Some(known) => known.shape.given.len() < 2,
            None => false,
        }
    }

    /// The value of the schema's keyword, if it has it.
    #[inline(always)]
    pub fn schema_at(&self, keyword: Keyword) -> Option<&'s JsonValue>
        ensures { option_map (λ x. view x.now) result
            ≡ schema_at (view self.now.schema.now) keyword }
    {
        if !self.may_have(keyword) {
            return None;
        }
        match self.known {
            Some(known) => known.shape.value_of(keyword),
            None => schema_at(self.schema, keyword),
        }
    }

    /// The schema that is the value of the keyword, if the schema has it. Neither this nor the next two are inlined, for
    /// the stack that nested schemas take.
    #[inline(never)]
    pub fn part(&self, keyword: Keyword) -> Option<Applied<'s>>
        ensures { option_map (λ x. view x.schema.now) result
            ≡ schema_at (view self.now.schema.now) keyword }
    {
        let Some(schema) = self.schema_at(keyword) else {
            return None;
        };
        let known = known_part(self.known, Way::Single(keyword), 0);
        Some(Applied::by(schema, known))
    }

    /// The schema that the keyword's list has at the index.
    #[inline(never)]
    pub fn listed_part(&self, keyword: Keyword, index: usize, schema: &'s JsonValue) -> Applied<'s>
        requires { nth (schemas_at (view self.now.schema.now) keyword) index
            ≡ Some (view schema.now) }
        ensures { view result.schema.now ≡ view schema.now }
    {
        let known = known_part(self.known, Way::Listed(keyword, index), index);
        Applied::by(schema, known)
    }

    /// The schema that the keyword's object has at the key.
    #[inline(never)]
    pub fn keyed_part(&self, keyword: Keyword, key: &str, schema: &'s JsonValue) -> Applied<'s>
        requires { keyed (view self.now.schema.now) keyword (chars key.now)
            ≡ Some (view schema.now) }
        ensures { view result.schema.now ≡ view schema.now }
    {
        let known = known_part(self.known, Way::Keyed(keyword, key), 0);
        Applied::by(schema, known)
    }

    /// The list of schemas that the keyword has, or an empty one.
    pub fn schemas_at(&self, keyword: Keyword) -> &'s [JsonValue]
        ensures { items_view result.now ≡ schemas_at (view self.now.schema.now) keyword }
    {
        match self.schema_at(keyword) {
            Some(list) => items_in(list),
            None => &[],
        }
    }

    /// The members of the object of schemas that the keyword has, in the order of their keys; or none.
    pub fn schema_map_at(
        &self,
        keyword: Keyword,
        alloc: Global,
    ) -> Result<Vec<(&'s String, &'s JsonValue)>, AllocError>
        ensures listed { IfOk result (λ listed.
            members_listed listed.items ≡ schema_map_at (view self.now.schema.now) keyword) }
        ensures sorted { IfOk result (λ listed. IsSorted (members_listed listed.items)) }
    {
        match self.schema_at(keyword) {
            Some(map) => listed_members(map, alloc),
            None => Ok(Vec::new(alloc)),
        }
    }

    /// The schema to which the keyword, `$ref` or `$dynamicRef`, leads, within the whole schema.
    pub fn referenced<'w>(
        &self,
        keyword: Keyword,
        walk: Walk<'_, 'w>,
    ) -> Result<Option<Applied<'w>>, AllocError>
        ensures { IfOk result (λ r. option_map (λ x. view x.schema.now) r
            ≡ referenced (view walk.entry.ground.now.whole.now.root.now) keyword
            (view self.now.schema.now)) }
    {
        let Some(reference) = self.schema_at(keyword) else {
            return Ok(None);
        };
        if let JsonValue::String(text) = reference {
            if let Some(lead) = led(walk.ground.leads, text.as_str()) {
                return Ok(Some(Applied::by(lead.schema, lead.table.first())));
            }
        }
        let found = target(reference, walk.following())?;
        match found {
            Some(schema) => Ok(Some(Applied::of(schema))),
            None => Ok(None),
        }
    }
}
