//! What becomes of the members of a schema.
ghost use Rattle.std.specs.Prelude.{◌≡◌, Some, option_map, is_some};
ghost use Rattle.tinyjson.specs.Access.{is_array, is_boolean};
ghost use Rattle.tinyjson_schema_drafts.specs.Rules.{is_true};
ghost use Rattle.tinyjson.specs.View.{view};
ghost use Rattle.tinyjson_schema_drafts.specs.Rules.{traits_of, has_list, limit_of, has_true, is_kept_beside};
ghost use Rattle.tinyjson_schema_drafts.specs.Rules.{rule_of, rule_by};
ghost use Rattle.tinyjson_schema_drafts.specs.Rules.{other_rule, rest_rule, own_id_rule, dialect_rule, id_rule, id_rule_by};
ghost use Rattle.tinyjson_schema_drafts.specs.Rules.{fragment_rule, items_rule, if_rule, later_rule};
ghost use Rattle.tinyjson_schema_drafts.specs.Rules.{additional_rule, limit_rule, flag_rule, is_limit};
ghost use Rattle.tinyjson_schema_drafts.specs.Rules.{hides, is_hidden, has_dependencies};
ghost use Rattle.tinyjson_schema_drafts.specs.Rules.{newer_rule, dependent_rule};
ghost use Rattle.tinyjson_schema_drafts.specs.Rules.{named_id_rule, recursive_rule, anchor_rule};
ghost use Rattle.tinyjson_schema_drafts.specs.Rules.{mark_rule, is_false};

use crate::draft::{Dialect, Draft, dialect_named};
use text_uri::{fragment, without_fragment};
use tinyjson::JsonValue;
use tinyjson_schema_keywords::{Keyword, has_key, keyword_of, schema_at};

/// What becomes of a member of a schema.
#[derive(Clone, Copy)]
pub enum Rule {
    /// It stays.
    Keep,
    /// It is left out.
    Drop,
    /// It becomes null, which its keyword does not accept: the keyword is one of another draft, and would apply.
    Reject,
    /// A schema.
    Schema,
    /// The schema of the items that a list leaves: `items`.
    Rest,
    /// The same, as a boolean.
    RestFlag,
    /// A number that is not accepted, nor are those above: `exclusiveMaximum`.
    Below,
    /// A number that is not accepted, nor are those below: `exclusiveMinimum`.
    Above,
    /// An array of schemas.
    Schemas,
    /// The schemas of the first items: `prefixItems`.
    Prefix,
    /// An object of schemas.
    Map,
    /// An object of schemas and of arrays of keys: `dependentSchemas` and `dependentRequired`.
    Dependencies,
    /// A URI, without an empty fragment: `$id`.
    Id,
    /// A fragment that is a name: `$anchor`.
    Name,
    /// A reference.
    Reference,
    /// A reference that the scope decides: `$dynamicRef`.
    Recursive,
    /// The mark that it leads to: `$dynamicAnchor`.
    RecursiveAnchor,
}

/// The limit that `maximum` or `minimum` sets.
#[derive(Clone, Copy)]
pub enum Limit {
    /// There is none.
    Missing,
    /// It is accepted.
    Inclusive,
    /// It is not accepted: `exclusiveMaximum` or `exclusiveMinimum` of draft 4 is true.
    Exclusive,
}

/// What decides over the members of a schema.
#[derive(Clone, Copy)]
pub struct Traits {
    pub draft: Draft,
    /// Whether the schema has a `$ref` that hides what is beside it.
    pub is_hidden: bool,
    /// Whether its `items` is an array.
    pub has_list: bool,
    /// Whether it has `dependencies`.
    pub has_dependencies: bool,
    pub maximum: Limit,
    pub minimum: Limit,
}

pub fn traits_of(draft: Draft, schema: &JsonValue) -> Traits
    ensures { result ≡ traits_of draft (view schema.now) }
{
    Traits {
        draft,
        is_hidden: is_hidden(schema, draft),
        has_list: has_list(schema),
        has_dependencies: has_dependencies(schema),
        maximum: limit_of(schema, Keyword::Maximum, Keyword::ExclusiveMaximum),
        minimum: limit_of(schema, Keyword::Minimum, Keyword::ExclusiveMinimum),
    }
}

/// Whether the schema has a `$ref` that hides what is beside it.
pub fn is_hidden(schema: &JsonValue, draft: Draft) -> bool
    ensures { result ≡ is_hidden draft (view schema.now) }
{
    hides(draft) && schema_at(schema, Keyword::Ref).is_some()
}

fn has_dependencies(schema: &JsonValue) -> bool
    ensures { result ≡ has_dependencies (view schema.now) }
{
    has_key(schema, "dependencies")
}

/// Whether `$ref` hides what is beside it.
fn hides(draft: Draft) -> bool
    ensures { result ≡ hides draft }
{
    match draft {
        Draft::Draft201909 | Draft::Draft202012 => false,
        _ => true,
    }
}

fn limit_of(schema: &JsonValue, limit: Keyword, flag: Keyword) -> Limit
    ensures { result ≡ limit_of (view schema.now) limit flag }
{
    if schema_at(schema, limit).is_none() {
        return Limit::Missing;
    }
    if has_true(schema, flag) {
        Limit::Exclusive
    } else {
        Limit::Inclusive
    }
}

fn has_true(schema: &JsonValue, keyword: Keyword) -> bool
    ensures { result ≡ has_true (view schema.now) keyword }
{
    match schema_at(schema, keyword) {
        Some(value) => is_true(value),
        None => false,
    }
}

pub fn is_true(value: &JsonValue) -> bool
    ensures { result ≡ is_true (view value.now) }
{
    match value {
        JsonValue::Boolean(value) => *value,
        _ => false,
    }
}

fn is_boolean(value: &JsonValue) -> bool
    ensures { result ≡ is_boolean (view value.now) }
{
    matches!(value, JsonValue::Boolean(_))
}

fn has_list(schema: &JsonValue) -> bool
    ensures { result ≡ has_list (view schema.now) }
{
    match schema_at(schema, Keyword::Items) {
        Some(items) => is_array(items),
        None => false,
    }
}

pub fn is_array(value: &JsonValue) -> bool
    ensures { result ≡ is_array (view value.now) }
{
    matches!(value, JsonValue::Array(_))
}

/// What becomes of the member with this name and value.
pub fn rule_of(traits: Traits, name: &str, value: &JsonValue) -> Rule
    ensures { result ≡ rule_of traits name.now (view value.now) }
{
    let keyword = keyword_of(name);
    if traits.is_hidden && !is_kept_beside(keyword) {
        return Rule::Drop;
    }
    match keyword {
        Some(keyword) => rule_by(traits, keyword, value),
        None => other_rule(traits, name, value),
    }
}

/// Whether a keyword beside `$ref` is no keyword that `$ref` hides: itself, and the schemas that references lead to.
fn is_kept_beside(keyword: Option<Keyword>) -> bool
    ensures { result ≡ is_kept_beside keyword }
{
    match keyword {
        Some(Keyword::Ref | Keyword::Defs | Keyword::Definitions) => true,
        _ => false,
    }
}

fn rule_by(traits: Traits, keyword: Keyword, value: &JsonValue) -> Rule
    ensures { result ≡ rule_by traits keyword (view value.now) }
{
    match keyword {
        Keyword::Schema => dialect_rule(traits.draft, value),
        Keyword::Id => named_id_rule(traits.draft, value),
        Keyword::Ref => Rule::Reference,
        Keyword::Defs | Keyword::Definitions | Keyword::Properties | Keyword::PatternProperties =>
            Rule::Map,
        Keyword::AllOf | Keyword::AnyOf | Keyword::OneOf => Rule::Schemas,
        Keyword::Not => Rule::Schema,
        Keyword::Contains | Keyword::PropertyNames => later_rule(traits.draft, Rule::Schema),
        Keyword::AdditionalProperties => additional_rule(value),
        Keyword::Maximum => limit_rule(traits.draft, traits.maximum, Rule::Below),
        Keyword::Minimum => limit_rule(traits.draft, traits.minimum, Rule::Above),
        Keyword::ExclusiveMaximum => flag_rule(traits.draft, traits.maximum, value),
        Keyword::ExclusiveMinimum => flag_rule(traits.draft, traits.minimum, value),
        Keyword::If | Keyword::Then | Keyword::Else => if_rule(traits.draft),
        Keyword::Items => items_rule(traits.has_list),
        Keyword::DynamicRef
        | Keyword::DynamicAnchor
        | Keyword::PrefixItems
        | Keyword::UnevaluatedItems => Rule::Reject,
        Keyword::Anchor | Keyword::MaxContains | Keyword::MinContains => newer_rule(
            traits.draft,
            Rule::Keep,
        ),
        Keyword::DependentSchemas => dependent_rule(traits, Rule::Map),
        Keyword::DependentRequired => dependent_rule(traits, Rule::Keep),
        Keyword::UnevaluatedProperties | Keyword::ContentSchema => newer_rule(
            traits.draft,
            Rule::Schema,
        ),
        _ => Rule::Keep,
    }
}

/// What becomes of a keyword that came with 2019-09.
fn newer_rule(draft: Draft, rule: Rule) -> Rule
    ensures { result ≡ newer_rule draft rule }
{
    match draft {
        Draft::Draft201909 => rule,
        _ => Rule::Reject,
    }
}

/// What becomes of `dependentSchemas` and `dependentRequired`, which `dependencies` beside them becomes, too.
fn dependent_rule(traits: Traits, rule: Rule) -> Rule
    ensures { result ≡ dependent_rule traits rule }
{
    if traits.has_dependencies {
        Rule::Reject
    } else {
        newer_rule(traits.draft, rule)
    }
}

/// What becomes of `$id`, which is no name in 2019-09.
fn named_id_rule(draft: Draft, value: &JsonValue) -> Rule
    ensures { result ≡ named_id_rule draft (view value.now) }
{
    match draft {
        Draft::Draft4 => Rule::Reject,
        Draft::Draft201909 => Rule::Id,
        _ => id_rule(value),
    }
}

/// The draft's own name is left out of a schema inside.
fn dialect_rule(draft: Draft, value: &JsonValue) -> Rule
    ensures { result ≡ dialect_rule draft (view value.now) }
{
    match (draft, dialect_named(value)) {
        (Draft::Draft4, Dialect::Known(Draft::Draft4)) => Rule::Drop,
        (Draft::Draft6, Dialect::Known(Draft::Draft6)) => Rule::Drop,
        (Draft::Draft7, Dialect::Known(Draft::Draft7)) => Rule::Drop,
        (Draft::Draft201909, Dialect::Known(Draft::Draft201909)) => Rule::Drop,
        _ => Rule::Reject,
    }
}

/// `if`, `then` and `else` are keywords from draft 7 on.
fn if_rule(draft: Draft) -> Rule
    ensures { result ≡ if_rule draft }
{
    match draft {
        Draft::Draft4 | Draft::Draft6 => Rule::Reject,
        _ => Rule::Schema,
    }
}

/// What becomes of a keyword that came with draft 6.
fn later_rule(draft: Draft, rule: Rule) -> Rule
    ensures { result ≡ later_rule draft rule }
{
    match draft {
        Draft::Draft4 => Rule::Reject,
        _ => rule,
    }
}

/// In draft 4, too, the value may be a boolean.
fn additional_rule(value: &JsonValue) -> Rule
    ensures { result ≡ additional_rule (view value.now) }
{
    if is_boolean(value) {
        Rule::Keep
    } else {
        Rule::Schema
    }
}

/// What becomes of `maximum` or `minimum`, given what the limit becomes where draft 4 excludes it.
fn limit_rule(draft: Draft, limit: Limit, exclusive: Rule) -> Rule
    ensures { result ≡ limit_rule draft limit exclusive }
{
    match (draft, limit) {
        (Draft::Draft4, Limit::Exclusive) => exclusive,
        _ => Rule::Keep,
    }
}

/// What becomes of `exclusiveMaximum` or `exclusiveMinimum`: in draft 4 a boolean, beside a limit.
fn flag_rule(draft: Draft, limit: Limit, value: &JsonValue) -> Rule
    ensures { result ≡ flag_rule draft limit (view value.now) }
{
    match draft {
        Draft::Draft4 => {
            if is_boolean(value) && is_limit(limit) {
                Rule::Drop
            } else {
                Rule::Reject
            }
        }
        _ => Rule::Keep,
    }
}

fn is_limit(limit: Limit) -> bool
    ensures { result ≡ is_limit limit }
{
    match limit {
        Limit::Missing => false,
        _ => true,
    }
}

fn items_rule(is_list: bool) -> Rule
    ensures { result ≡ items_rule is_list }
{
    if is_list { Rule::Prefix } else { Rule::Schema }
}

/// An `$id` is a name, or a URI. One that is an empty fragment or a pointer is left out.
fn id_rule(value: &JsonValue) -> Rule
    ensures { result ≡ id_rule (view value.now) }
{
    match value {
        JsonValue::String(id) => id_rule_by(id.as_str()),
        _ => Rule::Id,
    }
}

fn id_rule_by(id: &str) -> Rule
    ensures { result ≡ id_rule_by id.now }
{
    if !without_fragment(id).is_empty() {
        return Rule::Id;
    }
    match fragment(id) {
        Some(name) => fragment_rule(name.as_bytes()),
        None => Rule::Drop,
    }
}

fn fragment_rule(fragment: &[u8]) -> Rule
    ensures { result ≡ fragment_rule fragment.now }
{
    match fragment.split_first() {
        Some((b'/', _)) | None => Rule::Drop,
        Some(_) => Rule::Name,
    }
}

/// What becomes of a name that is no keyword of 2020-12.
fn other_rule(traits: Traits, name: &str, value: &JsonValue) -> Rule
    ensures { result ≡ other_rule traits name.now (view value.now) }
{
    match name {
        "additionalItems" => {
            if traits.has_list {
                rest_rule(value)
            } else {
                Rule::Drop
            }
        }
        "dependencies" => Rule::Dependencies,
        "id" => own_id_rule(traits.draft, value),
        "$recursiveRef" => recursive_rule(traits.draft),
        "$recursiveAnchor" => anchor_rule(traits.draft, value),
        _ => Rule::Keep,
    }
}

fn recursive_rule(draft: Draft) -> Rule
    ensures { result ≡ recursive_rule draft }
{
    match draft {
        Draft::Draft201909 => Rule::Recursive,
        _ => Rule::Keep,
    }
}

/// A `$recursiveAnchor` that is false marks nothing.
fn anchor_rule(draft: Draft, value: &JsonValue) -> Rule
    ensures { result ≡ anchor_rule draft (view value.now) }
{
    match draft {
        Draft::Draft201909 => mark_rule(value),
        _ => Rule::Keep,
    }
}

fn mark_rule(value: &JsonValue) -> Rule
    ensures { result ≡ mark_rule (view value.now) }
{
    if is_false(value) {
        Rule::Drop
    } else {
        Rule::RecursiveAnchor
    }
}

fn is_false(value: &JsonValue) -> bool
    ensures { result ≡ is_false (view value.now) }
{
    match value {
        JsonValue::Boolean(value) => !*value,
        _ => false,
    }
}

fn rest_rule(value: &JsonValue) -> Rule
    ensures { result ≡ rest_rule (view value.now) }
{
    if is_boolean(value) {
        Rule::RestFlag
    } else {
        Rule::Rest
    }
}

/// `$id` is `id` in draft 4.
fn own_id_rule(draft: Draft, value: &JsonValue) -> Rule
    ensures { result ≡ own_id_rule draft (view value.now) }
{
    match draft {
        Draft::Draft4 => id_rule(value),
        _ => Rule::Keep,
    }
}
