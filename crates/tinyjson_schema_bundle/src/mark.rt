//! The resources, names and references of a document.
ghost use Rattle.std.specs.Prelude.{◌≡◌, Some, IfOk, OnOk};
ghost use Rattle.std.specs.String.{string_bytes};
ghost use Rattle.tinyjson.specs.Access.{is_string};
ghost use Rattle.tinyjson.specs.View.{view};
ghost use Rattle.tinyjson_schema_keywords.specs.Subschemas.{part_seen, parts_of};
ghost use Rattle.tinyjson_schema_bundle.specs.Bundles.{base_by, base_in, is_resource, is_fragment};
ghost use Rattle.tinyjson_schema_bundle.specs.Bundles.{marks_of, marks_in, marks_within};
ghost use Rattle.tinyjson_schema_bundle.specs.Bundles.{marks_of_parts, own_marks, resource_marks};
ghost use Rattle.tinyjson_schema_bundle.specs.Bundles.{name_kind, name_marks, reference_kind, reference_marks};
ghost use Rattle.tinyjson_schema_bundle.specs.Bundles.{is_bundled_by, is_bundle, marked};
ghost use Rattle.tinyjson_schema_bundle.specs.Bundles.{all_marked, Gathers, with_name};

use crate::place::at_token;
use std::alloc::{AllocError, Global};
use text_uri::{resolve, without_fragment};
use tinyjson::JsonValue;
use tinyjson_schema_keywords::{Form, Keyword, Part, Token, parts_of, schema_at};

/// The kind of a mark.
#[derive(Clone, Copy)]
pub enum Kind {
    /// A schema resource: the root, or a schema with an `$id`.
    Resource,
    /// A schema with a name by `$anchor`.
    Name,
    /// A schema with a name by `$dynamicAnchor`.
    DynamicName,
    /// A schema with a reference that is only a fragment.
    Inside,
    /// A schema with any other reference.
    Outside,
}

/// A URI in a document, and the place of its schema.
#[derive(Drop)]
pub struct Mark {
    pub kind: Kind,
    pub uri: String,
    pub place: String,
}

impl Mark {
    pub fn try_clone(&self, alloc: Global) -> Result<Mark, AllocError>
        ensures { IfOk result (λ m. marked m ≡ marked self.now) }
    {
        Ok(Mark {
            kind: self.kind,
            uri: String::from_str(alloc, self.uri.as_str())?,
            place: String::from_str(alloc, self.place.as_str())?,
        })
    }
}

/// The place of a schema, and a base URI: that in it, or that around it.
#[derive(Clone, Copy)]
pub struct Spot<'a> {
    pub base: &'a str,
    pub place: &'a str,
}

/// The base URI in a schema, given the one around it (Core, 8.2.1).
#[inline(never)]
pub fn base_in(base: &str, schema: &JsonValue, alloc: Global) -> Result<String, AllocError>
    ensures { IfOk result (λ s. string_bytes s ≡ base_in base.now (view schema.now)) }
{
    let Some(id) = schema_at(schema, Keyword::Id) else {
        return String::from_str(alloc, base);
    };
    base_by(base, id, alloc)
}

fn base_by(base: &str, id: &JsonValue, alloc: Global) -> Result<String, AllocError>
    ensures { IfOk result (λ s. string_bytes s ≡ base_by base.now (Some (view id.now))) }
{
    let JsonValue::String(id) = id else {
        return String::from_str(alloc, base);
    };
    let uri = resolve(alloc, base, id.as_str())?;
    String::from_str(alloc, without_fragment(uri.as_str()))
}

/// Whether the schema is the root, or has an `$id`.
fn is_resource(place: &str, schema: &JsonValue) -> bool
    ensures { result ≡ is_resource place.now (view schema.now) }
{
    if place.is_empty() {
        return true;
    }
    match schema_at(schema, Keyword::Id) {
        Some(id) => is_string(id),
        None => false,
    }
}

fn is_string(value: &JsonValue) -> bool
    ensures { result ≡ is_string (view value.now) }
{
    matches!(value, JsonValue::String(_))
}

/// The resources, names and references of a document, with members in the order of their keys. The only error is
/// out of memory.
///
/// It is recursive: it takes stack with the nesting of the schema.
pub fn marks_of(document: &JsonValue, alloc: Global) -> Result<Vec<Mark>, AllocError>
    ensures { IfOk result (λ marks. all_marked marks.items ≡ marks_of (view document.now)) }
{
    let mut marks = Vec::new(alloc);
    let spot = Spot {
        base: "",
        place: "",
    };
    gather(Form::Schema, document, spot, alloc, &mut marks)?;
    Ok(marks)
}

/// Appends the marks of a schema, or of the schemas in a value of another form.
#[cycle(marks)]
fn gather(
    form: Form,
    value: &JsonValue,
    spot: Spot<'_>,
    alloc: Global,
    marks: &mut Vec<Mark>,
) -> Result<(), AllocError>
    ensures { OnOk result (Gathers
        (marks_within form spot.entry.base.now spot.entry.place.now (view value.now))
        marks.old.items marks.new.items) }
{
    match form {
        Form::Schema => gather_schema(value, spot, alloc, marks),
        _ => gather_parts(form, value, spot, alloc, marks),
    }
}

#[cycle(marks)]
fn gather_schema(
    schema: &JsonValue,
    spot: Spot<'_>,
    alloc: Global,
    marks: &mut Vec<Mark>,
) -> Result<(), AllocError>
    ensures { OnOk result (Gathers
        (marks_in spot.entry.base.now spot.entry.place.now (view schema.now))
        marks.old.items marks.new.items) }
{
    match schema {
        JsonValue::Object(_) => {
            let base = base_in(spot.base, schema, alloc)?;
            let spot = Spot {
                base: base.as_str(),
                place: spot.place,
            };
            gather_resource(schema, spot, alloc, marks)?;
            gather_parts(Form::Schema, schema, spot, alloc, marks)
        }
        _ => Ok(()),
    }
}

/// Appends the schema itself, if it is a resource.
#[inline(never)]
fn gather_resource(
    schema: &JsonValue,
    spot: Spot<'_>,
    alloc: Global,
    marks: &mut Vec<Mark>,
) -> Result<(), AllocError>
    ensures { OnOk result (Gathers
        (resource_marks spot.entry.base.now spot.entry.place.now (view schema.now))
        marks.old.items marks.new.items) }
{
    if !is_resource(spot.place, schema) {
        return Ok(());
    }
    let mark = Mark {
        kind: Kind::Resource,
        uri: String::from_str(alloc, spot.base)?,
        place: String::from_str(alloc, spot.place)?,
    };
    marks.push(mark)?;
    Ok(())
}

/// Appends the marks of the parts of a value that needs the form. The base URI is that in it.
#[cycle(marks)]
fn gather_parts(
    form: Form,
    value: &JsonValue,
    spot: Spot<'_>,
    alloc: Global,
    marks: &mut Vec<Mark>,
) -> Result<(), AllocError>
    ensures { OnOk result (Gathers
        (marks_of_parts spot.entry.base.now spot.entry.place.now (parts_of form (view value.now)))
        marks.old.items marks.new.items) }
{
    let parts = parts_of(form, value, alloc)?;
    for part in parts.as_slice() {
        gather_own(*part, spot, alloc, marks)?;
        let place = at_token(spot.place, part.token, alloc)?;
        let inner = Spot {
            base: spot.base,
            place: place.as_str(),
        };
        gather(part.form, part.value, inner, alloc, marks)?;
    }
    Ok(())
}

/// Appends the mark that a keyword gives its schema, which is at the spot.
fn gather_own(
    part: Part<'_>,
    spot: Spot<'_>,
    alloc: Global,
    marks: &mut Vec<Mark>,
) -> Result<(), AllocError>
    ensures { OnOk result (Gathers
        (own_marks spot.entry.base.now spot.entry.place.now (part_seen part.entry))
        marks.old.items marks.new.items) }
{
    let Token::Key(name) = part.token else {
        return Ok(());
    };
    match part.form {
        Form::Anchor => gather_name(name_kind(name.as_str()), part.value, spot, alloc, marks),
        Form::Reference => gather_reference(part.value, spot.place, alloc, marks),
        _ => Ok(()),
    }
}

/// The kind of a name by this keyword.
fn name_kind(keyword: &str) -> Kind
    ensures { result ≡ name_kind keyword.now }
{
    if keyword == Keyword::DynamicAnchor.name() {
        return Kind::DynamicName;
    }
    Kind::Name
}

/// Appends the name of the schema.
#[inline(never)]
fn gather_name(
    kind: Kind,
    operand: &JsonValue,
    spot: Spot<'_>,
    alloc: Global,
    marks: &mut Vec<Mark>,
) -> Result<(), AllocError>
    ensures { OnOk result (Gathers
        (name_marks kind spot.entry.base.now spot.entry.place.now (view operand.now))
        marks.old.items marks.new.items) }
{
    let JsonValue::String(name) = operand else {
        return Ok(());
    };
    let mark = Mark {
        kind,
        uri: with_name(spot.base, name.as_str(), alloc)?,
        place: String::from_str(alloc, spot.place)?,
    };
    marks.push(mark)?;
    Ok(())
}

/// The URI of a name in the resource with this base URI.
pub fn with_name(base: &str, name: &str, alloc: Global) -> Result<String, AllocError>
    ensures { IfOk result (λ s. string_bytes s ≡ with_name base.now name.now) }
{
    format!(in alloc; "{base}#{name}")
}

/// Appends the reference of the schema.
#[inline(never)]
fn gather_reference(
    operand: &JsonValue,
    place: &str,
    alloc: Global,
    marks: &mut Vec<Mark>,
) -> Result<(), AllocError>
    ensures { OnOk result (Gathers (reference_marks place.now (view operand.now))
        marks.old.items marks.new.items) }
{
    let JsonValue::String(reference) = operand else {
        return Ok(());
    };
    let mark = Mark {
        kind: reference_kind(reference.as_str()),
        uri: String::from_str(alloc, reference.as_str())?,
        place: String::from_str(alloc, place)?,
    };
    marks.push(mark)?;
    Ok(())
}

/// The kind of a reference.
fn reference_kind(reference: &str) -> Kind
    ensures { result ≡ reference_kind reference.now }
{
    if is_fragment(reference) {
        return Kind::Inside;
    }
    Kind::Outside
}

fn is_fragment(reference: &str) -> bool
    ensures { result ≡ is_fragment reference.now }
{
    match reference.as_bytes().split_first() {
        Some((first, _)) => *first == b'#',
        None => false,
    }
}

/// Whether the document has to be bundled: a subschema is a resource, or a reference is more than a fragment.
pub fn is_bundle(marks: &[Mark]) -> bool
    ensures { result ≡ is_bundle (all_marked marks.now) }
{
    for mark in marks {
        if is_bundled_by(mark) {
            return true;
        }
    }
    false
}

fn is_bundled_by(mark: &Mark) -> bool
    ensures { result ≡ is_bundled_by mark.now.kind (string_bytes mark.now.place) }
{
    match mark.kind {
        Kind::Resource => !mark.place.is_empty(),
        Kind::Name | Kind::DynamicName | Kind::Inside => false,
        Kind::Outside => true,
    }
}
