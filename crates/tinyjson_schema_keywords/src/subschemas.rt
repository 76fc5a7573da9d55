//! The subschemas of a schema: by keyword, and all their members in one walk.
ghost use Rattle.std.specs.Prelude.{◌≡◌, option_map, IfOk, OnOk, is_some};
ghost use Rattle.std.specs.HashMap.{get_by_text};
ghost use Rattle.std.specs.Str.{chars};
ghost use Rattle.tinyjson.specs.Index.{tree_at_key};
ghost use Rattle.tinyjson.specs.Tree.{string};
ghost use Rattle.tinyjson.specs.View.{view, text, items_view, members_listed};
ghost use Rattle.tinyjson.specs.Soundness.{IsSorted};
ghost use Rattle.tinyjson_schema_keywords.specs.Applied.{schema_at, schemas_at, schema_map_at};
ghost use Rattle.tinyjson_schema_keywords.specs.Applied.{items_in, members_in, branch};
ghost use Rattle.tinyjson_schema_keywords.specs.Forms.{is_some_item};
ghost use Rattle.tinyjson_schema_keywords.specs.Subschemas.{parts_of, keyword_parts, item_parts};
ghost use Rattle.tinyjson_schema_keywords.specs.Subschemas.{entry_parts, part_seen, all_parts};
ghost use Rattle.tinyjson_schema_keywords.specs.Subschemas.{schema_members, members_by_form};
ghost use Rattle.tinyjson_schema_keywords.specs.Subschemas.{own_member, all_seen, Gathers};

use crate::keyword::{Form, Keyword, form_by, keyword_of};
use std::alloc::{AllocError, Global};
use std::collections::HashMap;
use tinyjson::{JsonValue, sorted_members};
use tinyjson_bytes::are_equal;

/// How many keys are compared one by one.
const FEW: usize = 8;

/// The value of an object at a key; `None` for another value.
pub fn operand<'s>(schema: &'s JsonValue, name: &str) -> Option<&'s JsonValue>
    ensures { option_map (λ x. view x.now) result
        ≡ tree_at_key (view schema.now) (chars name.now) }
{
    match schema {
        JsonValue::Object(keywords) => found(keywords, name),
        _ => None,
    }
}

/// The value at a key. Few keys are compared one by one, which is faster than to hash one.
fn found<'s>(members: &'s HashMap<String, JsonValue>, name: &str) -> Option<&'s JsonValue>
    ensures { option_map (λ x. x.now) result ≡ get_by_text members.now name.now }
{
    if members.len() > FEW {
        return members.get(name);
    }
    for (key, value) in members {
        if are_equal(name.as_bytes(), key.as_bytes()) {
            return Some(value);
        }
    }
    None
}

/// The value of the schema's keyword, if it has it.
pub fn schema_at(schema: &JsonValue, keyword: Keyword) -> Option<&JsonValue>
    ensures { option_map (λ x. view x.now) result ≡ schema_at (view schema.now) keyword }
{
    operand(schema, keyword.name())
}

/// The list of schemas that the keyword has, or an empty one.
pub fn schemas_at(schema: &JsonValue, keyword: Keyword) -> &[JsonValue]
    ensures { items_view result.now ≡ schemas_at (view schema.now) keyword }
{
    match schema_at(schema, keyword) {
        Some(list) => items_in(list),
        None => &[],
    }
}

/// The items of an array; none for another value.
pub fn items_in(value: &JsonValue) -> &[JsonValue]
    ensures { items_view result.now ≡ items_in (view value.now) }
{
    match value {
        JsonValue::Array(items) => items.as_slice(),
        _ => &[],
    }
}

/// Whether there are items.
pub fn is_some_item(items: &[JsonValue]) -> bool
    ensures { result ≡ is_some_item (items_view items.now) }
{
    !items.is_empty()
}

/// The members of the object of schemas that the keyword has, in the order of their keys; or none.
pub fn schema_map_at(
    schema: &JsonValue,
    keyword: Keyword,
    alloc: Global,
) -> Result<Vec<(&String, &JsonValue)>, AllocError>
    ensures listed { IfOk result
        (λ listed. members_listed listed.items ≡ schema_map_at (view schema.now) keyword) }
    ensures sorted { IfOk result (λ listed. IsSorted (members_listed listed.items)) }
{
    let Some(map) = schema_at(schema, keyword) else {
        return Ok(Vec::new(alloc));
    };
    match map {
        JsonValue::Object(schemas) => sorted_members(alloc, schemas),
        _ => Ok(Vec::new(alloc)),
    }
}

/// The members of an object, in the order of their keys; none for another value.
pub fn listed_members(
    value: &JsonValue,
    alloc: Global,
) -> Result<Vec<(&String, &JsonValue)>, AllocError>
    ensures listed { IfOk result
        (λ listed. members_listed listed.items ≡ members_in (view value.now)) }
    ensures sorted { IfOk result (λ listed. IsSorted (members_listed listed.items)) }
{
    match value {
        JsonValue::Object(members) => sorted_members(alloc, members),
        _ => Ok(Vec::new(alloc)),
    }
}

/// The key as a string value.
pub fn name_of(key: &String, alloc: Global) -> Result<JsonValue, AllocError>
    ensures { IfOk result (λ name. view name ≡ string (text key.now)) }
{
    let text = String::from_str(alloc, key.as_str())?;
    Ok(JsonValue::String(text))
}

/// Whether the value is an object that has the key.
pub fn has_key(value: &JsonValue, key: &str) -> bool
    ensures { result ≡ is_some (tree_at_key (view value.now) (chars key.now)) }
{
    operand(value, key).is_some()
}

/// The keyword that `if` chooses: `then` if its schema accepts the value, else `else`.
pub fn branch(is_accepted: bool) -> Keyword
    ensures { result ≡ branch is_accepted }
{
    if is_accepted {
        Keyword::Then
    } else {
        Keyword::Else
    }
}

/// What leads from a value to a part of it.
#[derive(Clone, Copy)]
pub enum Token<'s> {
    Key(&'s String),
    Index(usize),
}

/// A part of a schema: the value of a member, or a schema in such a value; with the form that it needs.
#[derive(Clone, Copy)]
pub struct Part<'s> {
    pub token: Token<'s>,
    /// The keyword of the member's name, if it is one.
    pub keyword: Option<Keyword>,
    pub form: Form,
    pub value: &'s JsonValue,
}

/// The parts of a value that needs the form: the members of a schema, or the schemas in a list or in an object of
/// them. Members come in the order of their keys. Another value has none.
pub fn parts_of(form: Form, value: &JsonValue, alloc: Global) -> Result<Vec<Part<'_>>, AllocError>
    ensures { IfOk result (λ parts. all_parts parts.items ≡ parts_of form (view value.now)) }
{
    match form {
        Form::Schema => {
            let members = listed_members(value, alloc)?;
            keyword_parts(members.as_slice(), alloc)
        }
        Form::Schemas => item_parts(items_in(value), alloc),
        Form::SchemaMap | Form::PatternMap => {
            let schemas = listed_members(value, alloc)?;
            entry_parts(schemas.as_slice(), alloc)
        }
        _ => Ok(Vec::new(alloc)),
    }
}

fn keyword_parts<'s>(
    members: &[(&'s String, &'s JsonValue)],
    alloc: Global,
) -> Result<Vec<Part<'s>>, AllocError>
    ensures { IfOk result
        (λ parts. all_parts parts.items ≡ keyword_parts (members_listed members.now)) }
{
    let mut parts = Vec::new(alloc);
    for &(name, value) in members {
        let keyword = keyword_of(name.as_str());
        parts.push(Part {
            token: Token::Key(name),
            keyword,
            form: form_by(keyword),
            value,
        })?;
    }
    Ok(parts)
}

fn item_parts(schemas: &[JsonValue], alloc: Global) -> Result<Vec<Part<'_>>, AllocError>
    ensures { IfOk result
        (λ parts. all_parts parts.items ≡ item_parts 0 (items_view schemas.now)) }
{
    let mut parts = Vec::new(alloc);
    for (index, value) in schemas.iter().enumerate() {
        parts.push(Part {
            token: Token::Index(index),
            keyword: None,
            form: Form::Schema,
            value,
        })?;
    }
    Ok(parts)
}

fn entry_parts<'s>(
    schemas: &[(&'s String, &'s JsonValue)],
    alloc: Global,
) -> Result<Vec<Part<'s>>, AllocError>
    ensures { IfOk result
        (λ parts. all_parts parts.items ≡ entry_parts (members_listed schemas.now)) }
{
    let mut parts = Vec::new(alloc);
    for &(key, value) in schemas {
        parts.push(Part {
            token: Token::Key(key),
            keyword: None,
            form: Form::Schema,
            value,
        })?;
    }
    Ok(parts)
}

/// A member of a schema or of a subschema.
#[derive(Clone, Copy)]
pub struct SchemaMember<'s> {
    pub schema: &'s JsonValue,
    pub name: &'s String,
    /// The keyword of that name, if it is one.
    pub keyword: Option<Keyword>,
    pub value: &'s JsonValue,
}

/// The members of a schema and of all its subschemas, in the order of their keys. After each member come those of
/// the schemas in its value. The only error is out of memory.
///
/// It is recursive: it takes stack with the nesting of the schema.
pub fn schema_members(
    schema: &JsonValue,
    alloc: Global,
) -> Result<Vec<SchemaMember<'_>>, AllocError>
    ensures { IfOk result (λ found. all_seen found.items ≡ schema_members (view schema.now)) }
{
    let mut found = Vec::new(alloc);
    gather(Form::Schema, schema, alloc, &mut found)?;
    Ok(found)
}

/// Appends the members of a schema, or of the schemas in a value of another form.
fn gather<'s>(
    form: Form,
    value: &'s JsonValue,
    alloc: Global,
    found: &mut Vec<SchemaMember<'s>>,
) -> Result<(), AllocError>
    ensures { OnOk result
        (Gathers (members_by_form form (view value.now)) found.old.items found.new.items) }
{
    let parts = parts_of(form, value, alloc)?;
    for part in parts.as_slice() {
        gather_own(form, value, *part, found)?;
        gather(part.form, part.value, alloc, found)?;
    }
    Ok(())
}

/// Appends the part, if it is a member of a schema.
fn gather_own<'s>(
    form: Form,
    value: &'s JsonValue,
    part: Part<'s>,
    found: &mut Vec<SchemaMember<'s>>,
) -> Result<(), AllocError>
    ensures { OnOk result (Gathers (own_member form (view value.now) (part_seen part.entry))
        found.old.items found.new.items) }
{
    let (Form::Schema, Token::Key(name)) = (form, part.token) else {
        return Ok(());
    };
    found.push(SchemaMember {
        schema: value,
        name,
        keyword: part.keyword,
        value: part.value,
    })?;
    Ok(())
}
