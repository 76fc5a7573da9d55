//! Compound documents: a schema with further documents embedded.
ghost use Rattle.std.specs.Prelude.{◌≡◌, ◌||◌, false, map, IfErr, IfOk};
ghost use Rattle.std.specs.Option.{option_map_or};
ghost use Rattle.tinyjson.specs.Tree.{object, no_members};
ghost use Rattle.tinyjson.specs.View.{view};
ghost use Rattle.tinyjson_schema_drafts.specs.Meta.{published};
ghost use Rattle.tinyjson_schema_drafts.specs.References.{compound_of, draft_of, is_older, embed, seen};
ghost use Rattle.tinyjson_schema_drafts.specs.References.{referring, with_reference};
ghost use Rattle.tinyjson_schema_drafts.specs.References.{EmbedsOne, EmbedsAll, HasMetaSchemas};
ghost use Rattle.tinyjson_schema_drafts.specs.References.{IsCause, IsResourceOf};
ghost use Rattle.std.specs.Prelude.{Some};
ghost use Rattle.tinyjson_schema_drafts.specs.Messages.{embed_error_message};

use crate::dialect::{draft_of, is_older};
use crate::document::{string_of, with_document};
use crate::draft::Draft;
use crate::meta::MetaSchema;
use crate::read::read_as;
use crate::wanted::wanted;
use std::alloc::{AllocError, Global};
use std::collections::HashMap;
use std::error::Error;
use std::fmt;
use tinyjson::{JsonParseError, JsonValue};
use tinyjson_pointer::put_member;
use tinyjson_schema_bundle::{bundle_of, bundled};
use tinyjson_schema_keywords::Keyword;

/// A compound document (Core, 9.3): a schema in the words of 2020-12, with its documents in `$defs`.
#[derive(Drop)]
pub struct Compound {
    pub tree: JsonValue,
    /// Whether the schema or one of the documents is of an older draft.
    pub is_older: bool,
}

/// Why a meta-schema is not embedded.
#[derive(Debug, Drop)]
pub enum EmbedError {
    /// The text of this meta-schema is no JSON. None of this crate is so.
    NotJson(MetaSchema, JsonParseError),
    /// An allocation failed.
    OutOfMemory,
}

impl From<AllocError> for EmbedError {
    ghost use Rattle.tinyjson_schema_drafts.specs.declared.compound.EmbedError.{EmbedError};

    ghost from_gives = { λ _ e. e ≡ EmbedError.OutOfMemory };

    fn from(_: AllocError) -> EmbedError {
        EmbedError::OutOfMemory
    }
}

impl fmt::Display for EmbedError {
    ghost output = { λ e. Some (embed_error_message e) };

    fn fmt<W: fmt::Write>(&self, f: &mut fmt::Formatter<W>) -> fmt::Result {
        match self {
            EmbedError::NotJson(schema, _) => write!(
                f,
                "the meta-schema {} is no JSON text",
                schema.uri
            ),
            EmbedError::OutOfMemory => f.write_str("out of memory"),
        }
    }
}

impl Error for EmbedError {}

/// The schema in the words of 2020-12, with no further document: by the draft that it names, or else by the default. The
/// only error is out of memory.
///
/// ```
/// // Of {"$schema":"http://json-schema.org/draft-07/schema#","items":[true]}:
/// let compound = compound_of(schema, Draft::Draft202012, alloc)?; // {"prefixItems":[true]}, and it is older
/// ```
pub fn compound_of(schema: JsonValue, default: Draft, alloc: Global) -> Result<Compound, AllocError>
    ensures { IfOk result (λ c. seen c ≡ compound_of default (view schema)) }
{
    let is_older = is_older(draft_of(&schema, default));
    let tree = read_as(schema, default, alloc)?;
    Ok(Compound { tree, is_older })
}

/// A schema without keywords, and without documents.
pub fn empty_compound(alloc: Global) -> Compound
    ensures { seen result ≡ (object no_members, false) }
{
    Compound {
        tree: JsonValue::Object(HashMap::new(alloc)),
        is_older: false,
    }
}

/// The schema as a document of one resource in the words of 2020-12, without meta-schemas: as [`read_as`] returns it, and
/// then as `bundled` of `tinyjson_schema_bundle` does. The only error is out of memory.
///
/// ```
/// // Of {"$ref":"x","$defs":{"y":{"$id":"x"}}}:
/// let tree = resource_of(schema, Draft::Draft202012, alloc)?; // {"$defs":{"y":{}},"$ref":"#/$defs/y"}
/// ```
pub fn resource_of(
    schema: JsonValue,
    default: Draft,
    alloc: Global,
) -> Result<JsonValue, AllocError>
    ensures { IfOk result (λ v. IsResourceOf default (view schema) (view v)) }
{
    let tree = read_as(schema, default, alloc)?;
    let whole = bundled(&tree, alloc);
    tree.dismantle();
    whole
}

/// The schema with a further document that was found at the URI (Core, 9.1.1 and 9.3.1), which is read in the draft that
/// it names, or else in the default. The only error is out of memory.
///
/// ```
/// // Of {"$ref":"a"} and {"$schema":"http://json-schema.org/draft-07/schema#","items":[true]}, found at a:
/// let compound = embed(compound, "a", document, Draft::Draft202012, alloc)?;
/// // {"$defs":{"a":{"$id":"a","prefixItems":[true]}},"$ref":"a"}
/// ```
pub fn embed(
    compound: Compound,
    uri: &str,
    document: JsonValue,
    default: Draft,
    alloc: Global,
) -> Result<Compound, AllocError>
    ensures { IfOk result
        (λ c. seen c ≡ embed default uri.now (view document) (seen compound)) }
{
    let is_older = has_older(&compound, &document, default);
    let document = read_as(document, default, alloc)?;
    let tree = with_document(compound.tree, uri, document, alloc)?;
    Ok(Compound { tree, is_older })
}

/// Whether the schema or the document is of an older draft.
fn has_older(compound: &Compound, document: &JsonValue, default: Draft) -> bool
    ensures { result ≡ (seen compound.now).1 || is_older (draft_of default (view document.now)) }
{
    compound.is_older || is_older(draft_of(document, default))
}

/// The schema as a document of one resource, as [`bundled`] of `tinyjson_schema_bundle` makes it. The meta-schemas are
/// embedded first that it does not have, and into which references lead that lead nowhere in it (Core, 9.3.1).
///
/// It is recursive: it takes stack with the nesting of the schema.
///
/// ```
/// // Of {"$ref":"http://json-schema.org/draft-07/schema#"}:
/// let whole = with_meta_schemas(compound, alloc)?; // a schema that accepts the schemas of draft 7
/// ```
pub fn with_meta_schemas(compound: Compound, alloc: Global) -> Result<Compound, EmbedError>
    ensures ok { IfOk result (λ c. HasMetaSchemas (seen compound) (seen c)) }
    ensures err { IfErr result IsCause }
{
    let bundle = bundle_of(&compound.tree, alloc)?;
    let single = bundle_or(&bundle, &compound.tree);
    let documents = wanted(&compound.tree, single, alloc)?;
    if documents.as_slice().is_empty() {
        return Ok(in_its_place(compound, bundle));
    }
    if let Some(tree) = bundle {
        tree.dismantle();
    }
    let whole = with_all(compound, documents.as_slice(), alloc)?;
    let bundle = bundle_of(&whole.tree, alloc)?;
    Ok(in_its_place(whole, bundle))
}

/// The bundle of a schema, which is the schema itself if there is no other.
fn bundle_or<'a>(bundle: &'a Option<JsonValue>, tree: &'a JsonValue) -> &'a JsonValue
    ensures { view result.now ≡ option_map_or view bundle.now (view tree.now) }
{
    match bundle {
        Some(bundle) => bundle,
        None => tree,
    }
}

/// The schema with the bundle in its place, if there is one.
fn in_its_place(compound: Compound, bundle: Option<JsonValue>) -> Compound
    ensures { seen result ≡ (option_map_or view bundle (view compound.tree), compound.is_older) }
{
    let Some(tree) = bundle else {
        return compound;
    };
    compound.tree.dismantle();
    Compound {
        tree,
        is_older: compound.is_older,
    }
}

/// The schema with these meta-schemas.
fn with_all(
    compound: Compound,
    documents: &[MetaSchema],
    alloc: Global,
) -> Result<Compound, EmbedError>
    ensures ok { IfOk result
        (λ c. EmbedsAll (map published documents.now) (seen compound) (seen c)) }
    ensures err { IfErr result IsCause }
{
    let mut whole = compound;
    for document in documents {
        let next = with_one(whole, *document, alloc)?;
        whole = next;
    }
    Ok(whole)
}

/// The schema with this meta-schema.
fn with_one(compound: Compound, document: MetaSchema, alloc: Global) -> Result<Compound, EmbedError>
    ensures ok { IfOk result (λ c. EmbedsOne (published document) (seen compound) (seen c)) }
    ensures err { IfErr result IsCause }
{
    match JsonValue::from_str(alloc, document.text) {
        Ok(tree) => {
            let whole = embed(compound, document.uri, tree, Draft::Draft202012, alloc)?;
            Ok(whole)
        }
        Err(error) => {
            if error.is_out_of_memory() {
                return Err(EmbedError::OutOfMemory);
            }
            Err(EmbedError::NotJson(document, error))
        }
    }
}

/// The schema with a reference to the URI, in the place of one that it has. A schema that is no object stays. The only
/// error is out of memory.
///
/// ```
/// let schema = referring(&schema, "a", alloc)?; // {"$defs":{}} becomes {"$defs":{},"$ref":"a"}
/// ```
pub fn referring(schema: &JsonValue, uri: &str, alloc: Global) -> Result<JsonValue, AllocError>
    ensures { IfOk result (λ v. view v ≡ referring uri.now (view schema.now)) }
{
    let reference = string_of(uri, alloc)?;
    let copy = schema.try_clone(alloc)?;
    with_reference(copy, reference, alloc)
}

/// The object with this `$ref`; any other value stays.
fn with_reference(
    schema: JsonValue,
    reference: JsonValue,
    alloc: Global,
) -> Result<JsonValue, AllocError>
    ensures { IfOk result (λ v. view v ≡ with_reference (view reference) (view schema)) }
{
    match schema {
        JsonValue::Object(mut members) => {
            put_member(&mut members, Keyword::Ref.name(), reference, alloc)?;
            Ok(JsonValue::Object(members))
        }
        other => Ok(other),
    }
}
