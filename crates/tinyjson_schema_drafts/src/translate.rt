//! Schemas in the words of 2020-12.
ghost use Rattle.std.specs.Prelude.{◌≡◌, ◌&&◌, IfOk, OnOk, option_map};
ghost use Rattle.tinyjson.specs.Access.{is_array};
ghost use Rattle.std.specs.Str.{chars};
ghost use Rattle.tinyjson.specs.View.{view, items_view, members_view, members_listed};
ghost use Rattle.tinyjson_schema_drafts.specs.Translated.{translated, in_words, words_among, value_of};
ghost use Rattle.tinyjson_schema_drafts.specs.Translated.{list_in_words, items_in_words, map_in_words};
ghost use Rattle.tinyjson_schema_drafts.specs.Translated.{members_in_words, other_in_words, resource_in, is_resource};
ghost use Rattle.tinyjson_schema_drafts.specs.Translated.{id_of, has_uri, has_later_const};
ghost use Rattle.tinyjson_schema_drafts.specs.Translated.{id_in_words, name_in_words, key_lists};
ghost use Rattle.tinyjson_schema_drafts.specs.Translated.{is_uri, has_empty_fragment};
ghost use Rattle.tinyjson_schema_drafts.specs.Translated.{lists_among, value_alone};
ghost use Rattle.tinyjson_schema_drafts.specs.Translated.{put_by, put_new, word_of, put_lists};

use crate::draft::Draft;
use crate::recursive::{anchor_in_words, recursive_in_words};
use crate::reference::reference_in_words;
use crate::rule::{Rule, Traits, is_array, is_hidden, rule_of, traits_of};
use std::alloc::{AllocError, Global};
use std::collections::HashMap;
use text_uri::{fragment, without_fragment};
use tinyjson::{JsonValue, sorted_members};
use tinyjson_pointer::put_member;
use tinyjson_schema_keywords::{Keyword, operand, schema_at};

/// Where a schema is read: its draft, and the resource that it is in, by which references are judged.
#[derive(Clone, Copy)]
pub struct Reading<'a> {
    pub draft: Draft,
    pub resource: &'a JsonValue,
    pub alloc: Global,
}

/// A schema of draft 4, 6, 7 or 2019-09 in the words of 2020-12; the only error is out of memory.
///
/// A keyword that the draft has not, and that would apply in 2020-12, becomes null, and so does a reference that
/// would lead elsewhere: `Schema::read` of `tinyjson_schema` then rejects the schema at that place.
///
/// It calls itself for each nested schema, so it takes stack as the schema is nested.
///
/// ```
/// // Of {"items": [true], "additionalItems": false}: {"prefixItems": [true], "items": false}
/// let schema = translated(&schema, Draft::Draft7, alloc)?;
/// ```
#[inline(never)]
pub fn translated(schema: &JsonValue, draft: Draft, alloc: Global) -> Result<JsonValue, AllocError>
    ensures { IfOk result (λ v. view v ≡ translated draft (view schema.now)) }
{
    let reading = Reading {
        draft,
        resource: schema,
        alloc,
    };
    in_words(schema, reading)
}

#[cycle(words)]
fn in_words(schema: &JsonValue, reading: Reading<'_>) -> Result<JsonValue, AllocError>
    ensures { IfOk result (λ v. view v ≡ in_words reading.entry.draft
        (view reading.entry.resource.now) (view schema.now)) }
{
    let JsonValue::Object(keywords) = schema else {
        return other_in_words(schema, reading.draft, reading.alloc);
    };
    if has_later_const(schema, reading.draft) {
        return Ok(JsonValue::Null);
    }
    let traits = traits_of(reading.draft, schema);
    let inner = Reading {
        draft: reading.draft,
        resource: resource_in(reading.resource, schema, reading.draft),
        alloc: reading.alloc,
    };
    let sorted = sorted_members(reading.alloc, keywords)?;
    let members = words_among(sorted.as_slice(), traits, inner)?;
    Ok(JsonValue::Object(members))
}

/// Whether a schema of draft 4 has `const`, which is of draft 6, and which would accept null in its place.
fn has_later_const(schema: &JsonValue, draft: Draft) -> bool
    ensures { result ≡ has_later_const draft (view schema.now) }
{
    match draft {
        Draft::Draft4 => {
            schema_at(schema, Keyword::Ref).is_none() && schema_at(schema, Keyword::Const).is_some()
        }
        _ => false,
    }
}

/// A schema that is no object; draft 4 has none.
fn other_in_words(schema: &JsonValue, draft: Draft, alloc: Global) -> Result<JsonValue, AllocError>
    ensures { IfOk result (λ v. view v ≡ other_in_words draft (view schema.now)) }
{
    match draft {
        Draft::Draft4 => Ok(JsonValue::Null),
        _ => schema.try_clone(alloc),
    }
}

/// The resource that the keywords of a schema are in: the schema itself, if it has a URI.
fn resource_in<'a>(resource: &'a JsonValue, schema: &'a JsonValue, draft: Draft) -> &'a JsonValue
    ensures { view result.now ≡ resource_in draft (view resource.now) (view schema.now) }
{
    if is_resource(schema, draft) {
        schema
    } else {
        resource
    }
}

fn is_resource(schema: &JsonValue, draft: Draft) -> bool
    ensures { result ≡ is_resource draft (view schema.now) }
{
    if is_hidden(schema, draft) {
        return false;
    }
    match id_of(schema, draft) {
        Some(id) => has_uri(id),
        None => false,
    }
}

/// The `$id` of a schema, which is `id` in draft 4.
fn id_of(schema: &JsonValue, draft: Draft) -> Option<&JsonValue>
    ensures { option_map (λ x. view x.now) result ≡ id_of draft (view schema.now) }
{
    match draft {
        Draft::Draft4 => operand(schema, "id"),
        _ => schema_at(schema, Keyword::Id),
    }
}

/// The keywords of a schema, from the last one on.
#[cycle(words)]
fn words_among(
    keywords: &[(&String, &JsonValue)],
    traits: Traits,
    reading: Reading<'_>,
) -> Result<HashMap<String, JsonValue>, AllocError>
    ensures { IfOk result (λ m. members_view m.entries ≡ words_among traits
        reading.entry.draft (view reading.entry.resource.now) (members_listed keywords.now)) }
{
    let mut members = HashMap::new(reading.alloc);
    let mut left = keywords.len();
    while left > 0 {
        left -= 1;
        let keyword = keywords[left];
        let (name, operand) = keyword;
        let name = name.as_str();
        let rule = rule_of(traits, name, operand);
        let value = value_of(rule, operand, reading)?;
        put_lists(&mut members, rule, operand, reading.alloc)?;
        put_by(&mut members, rule, name, value, reading.alloc)?;
    }
    Ok(members)
}

/// What a keyword's value becomes. Neither this is inlined nor what it calls, so that the recursion takes less stack.
#[cycle(words)]
#[inline(never)]
fn value_of(
    rule: Rule,
    operand: &JsonValue,
    reading: Reading<'_>,
) -> Result<Option<JsonValue>, AllocError>
    ensures { IfOk result (λ o. option_map view o ≡ value_of rule reading.entry.draft
        (view reading.entry.resource.now) (view operand.now)) }
{
    match rule {
        Rule::Schema | Rule::Rest => Ok(Some(in_words(operand, reading)?)),
        Rule::Schemas | Rule::Prefix => Ok(Some(list_in_words(operand, reading)?)),
        Rule::Map => Ok(Some(map_in_words(operand, false, reading)?)),
        Rule::Dependencies => Ok(Some(map_in_words(operand, true, reading)?)),
        _ => value_alone(rule, operand, reading),
    }
}

#[cycle(words)]
#[inline(never)]
fn list_in_words(schemas: &JsonValue, reading: Reading<'_>) -> Result<JsonValue, AllocError>
    ensures { IfOk result (λ v. view v ≡ list_in_words reading.entry.draft
        (view reading.entry.resource.now) (view schemas.now)) }
{
    let JsonValue::Array(items) = schemas else {
        return schemas.try_clone(reading.alloc);
    };
    let items = items_in_words(items.as_slice(), reading)?;
    Ok(JsonValue::Array(items))
}

#[cycle(words)]
fn items_in_words(schemas: &[JsonValue], reading: Reading<'_>) -> Result<Vec<JsonValue>, AllocError>
    ensures { IfOk result (λ l. items_view l.items ≡ items_in_words reading.entry.draft
        (view reading.entry.resource.now) (items_view schemas.now)) }
{
    let mut items = Vec::new(reading.alloc);
    for schema in schemas {
        let item = in_words(schema, reading)?;
        items.push(item)?;
    }
    Ok(items)
}

#[cycle(words)]
#[inline(never)]
fn map_in_words(
    schemas: &JsonValue,
    has_lists: bool,
    reading: Reading<'_>,
) -> Result<JsonValue, AllocError>
    ensures { IfOk result (λ v. view v ≡ map_in_words has_lists reading.entry.draft
        (view reading.entry.resource.now) (view schemas.now)) }
{
    let JsonValue::Object(members) = schemas else {
        return schemas.try_clone(reading.alloc);
    };
    let sorted = sorted_members(reading.alloc, members)?;
    let members = members_in_words(sorted.as_slice(), has_lists, reading)?;
    Ok(JsonValue::Object(members))
}

/// The schemas at keys; arrays, where there may be some, are left out.
#[cycle(words)]
fn members_in_words(
    schemas: &[(&String, &JsonValue)],
    has_lists: bool,
    reading: Reading<'_>,
) -> Result<HashMap<String, JsonValue>, AllocError>
    ensures { IfOk result (λ m. members_view m.entries ≡ members_in_words has_lists
        reading.entry.draft (view reading.entry.resource.now) (members_listed schemas.now)) }
{
    let mut members = HashMap::new(reading.alloc);
    let mut left = schemas.len();
    while left > 0 {
        left -= 1;
        let member = schemas[left];
        let (key, schema) = member;
        if !is_left_out(has_lists, schema) {
            let value = in_words(schema, reading)?;
            put_member(&mut members, key.as_str(), value, reading.alloc)?;
        }
    }
    Ok(members)
}

/// Whether it is an array, where there may be some.
fn is_left_out(has_lists: bool, value: &JsonValue) -> bool
    ensures { result ≡ has_lists && is_array (view value.now) }
{
    has_lists && is_array(value)
}

/// What the value of a keyword without schemas becomes.
#[inline(never)]
fn value_alone(
    rule: Rule,
    operand: &JsonValue,
    reading: Reading<'_>,
) -> Result<Option<JsonValue>, AllocError>
    ensures { IfOk result (λ o. option_map view o ≡ value_alone rule
        (view reading.entry.resource.now) (view operand.now)) }
{
    match rule {
        Rule::Drop => Ok(None),
        Rule::Reject => Ok(Some(JsonValue::Null)),
        Rule::Id => Ok(Some(id_in_words(operand, reading.alloc)?)),
        Rule::Name => Ok(Some(name_in_words(operand, reading.alloc)?)),
        Rule::Reference => Ok(Some(reference_in_words(operand, reading.resource, reading.alloc)?)),
        Rule::Recursive => Ok(Some(recursive_in_words(operand, reading.resource, reading.alloc)?)),
        Rule::RecursiveAnchor => Ok(Some(anchor_in_words(
            operand,
            reading.resource,
            reading.alloc,
        )?)),
        _ => Ok(Some(operand.try_clone(reading.alloc)?)),
    }
}

/// Whether an `$id` is more than a fragment.
fn has_uri(id: &JsonValue) -> bool
    ensures { result ≡ has_uri (view id.now) }
{
    match id {
        JsonValue::String(id) => is_uri(id.as_str()),
        _ => false,
    }
}

fn is_uri(id: &str) -> bool
    ensures { result ≡ is_uri id.now }
{
    !without_fragment(id).is_empty()
}

/// An `$id` without an empty fragment.
fn id_in_words(id: &JsonValue, alloc: Global) -> Result<JsonValue, AllocError>
    ensures { IfOk result (λ v. view v ≡ id_in_words (view id.now)) }
{
    let JsonValue::String(text) = id else {
        return id.try_clone(alloc);
    };
    let text = text.as_str();
    if !has_empty_fragment(text) {
        return id.try_clone(alloc);
    }
    let uri = String::from_str(alloc, without_fragment(text))?;
    Ok(JsonValue::String(uri))
}

fn has_empty_fragment(id: &str) -> bool
    ensures { result ≡ has_empty_fragment id.now }
{
    match fragment(id) {
        Some(fragment) => fragment.is_empty(),
        None => false,
    }
}

/// The name that an `$id` is.
fn name_in_words(id: &JsonValue, alloc: Global) -> Result<JsonValue, AllocError>
    ensures { IfOk result (λ v. view v ≡ name_in_words (view id.now)) }
{
    let JsonValue::String(text) = id else {
        return id.try_clone(alloc);
    };
    match fragment(text.as_str()) {
        Some(name) => Ok(JsonValue::String(String::from_str(alloc, name)?)),
        None => id.try_clone(alloc),
    }
}

/// Puts the value at the keyword's word, if there is one.
#[inline(never)]
fn put_by(
    members: &mut HashMap<String, JsonValue>,
    rule: Rule,
    name: &str,
    value: Option<JsonValue>,
    alloc: Global,
) -> Result<(), AllocError>
    ensures { OnOk result (members_view members.new.entries ≡ put_by rule (chars name.now)
        (option_map view value) (members_view members.old.entries)) }
{
    let Some(value) = value else {
        return Ok(());
    };
    match word_of(rule) {
        Some(word) => put_new(members, word, value, alloc),
        None => put_member(members, name, value, alloc),
    }
}

/// The keyword of 2020-12, where its name is another one.
fn word_of(rule: Rule) -> Option<Keyword>
    ensures { result ≡ word_of rule }
{
    match rule {
        Rule::Rest | Rule::RestFlag => Some(Keyword::Items),
        Rule::Below => Some(Keyword::ExclusiveMaximum),
        Rule::Above => Some(Keyword::ExclusiveMinimum),
        Rule::Id => Some(Keyword::Id),
        Rule::Prefix => Some(Keyword::PrefixItems),
        Rule::Dependencies => Some(Keyword::DependentSchemas),
        Rule::Name => Some(Keyword::Anchor),
        Rule::Recursive => Some(Keyword::DynamicRef),
        Rule::RecursiveAnchor => Some(Keyword::DynamicAnchor),
        _ => None,
    }
}

/// Puts the arrays of keys of `dependencies` at `dependentRequired`.
#[inline(never)]
fn put_lists(
    members: &mut HashMap<String, JsonValue>,
    rule: Rule,
    operand: &JsonValue,
    alloc: Global,
) -> Result<(), AllocError>
    ensures { OnOk result (members_view members.new.entries ≡ put_lists rule
        (view operand.now) (members_view members.old.entries)) }
{
    match rule {
        Rule::Dependencies => {
            let lists = key_lists(operand, alloc)?;
            put_new(members, Keyword::DependentRequired, lists, alloc)
        }
        _ => Ok(()),
    }
}

/// The arrays among the members of an object.
fn key_lists(value: &JsonValue, alloc: Global) -> Result<JsonValue, AllocError>
    ensures { IfOk result (λ v. view v ≡ key_lists (view value.now)) }
{
    let JsonValue::Object(members) = value else {
        return value.try_clone(alloc);
    };
    let sorted = sorted_members(alloc, members)?;
    let lists = lists_among(sorted.as_slice(), alloc)?;
    Ok(JsonValue::Object(lists))
}

fn lists_among(
    members: &[(&String, &JsonValue)],
    alloc: Global,
) -> Result<HashMap<String, JsonValue>, AllocError>
    ensures { IfOk result (λ m. members_view m.entries
        ≡ lists_among (members_listed members.now)) }
{
    let mut lists = HashMap::new(alloc);
    let mut left = members.len();
    while left > 0 {
        left -= 1;
        let member = members[left];
        let (key, value) = member;
        if is_array(value) {
            let list = value.try_clone(alloc)?;
            put_member(&mut lists, key.as_str(), list, alloc)?;
        }
    }
    Ok(lists)
}

/// Puts the value at the keyword, if there is none: a keyword of another draft there is rejected as it was.
fn put_new(
    members: &mut HashMap<String, JsonValue>,
    keyword: Keyword,
    value: JsonValue,
    alloc: Global,
) -> Result<(), AllocError>
    ensures { OnOk result (members_view members.new.entries ≡ put_new keyword (view value)
        (members_view members.old.entries)) }
{
    if members.contains_key(keyword.name()) {
        return Ok(());
    }
    put_member(members, keyword.name(), value, alloc)
}
