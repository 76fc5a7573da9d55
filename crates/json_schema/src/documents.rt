//! The further documents that the references of a schema lead into.
ghost use Rattle.std.specs.Prelude.{◌≡◌, option_map, IfOk};
ghost use Rattle.std.specs.String.{string_bytes};
ghost use Rattle.tinyjson_schema_drafts.specs.References.{seen};
ghost use Rattle.json_schema.specs.Meta.{document_uri, found_in, EmbedsNew, EmbedsSome, with_ways};

use crate::failure::{SchemaFailure, document_failure, schema_failure};
use crate::names::{located, plain};
use crate::tell_unknown;
use crate::verdict::DEPTH_LIMIT;
use std::alloc::{AllocError, Global};
use std::fs;
use std::os::unix::fs::MetadataExt;
use text_uri::relative_reference;
use tinyjson::JsonValue;
use tinyjson_cli::{Failure, Text, is_folder, join_path, json_files, read_named};
use tinyjson_schema_drafts::{
    Compound, Draft, embed, found_at, has_definition, with_retrieval_uri,
};

/// The schema of this file with the documents that the texts of `-r` name. A document that names no draft is read in the
/// schema's. The schema was found at `/` and its file's name, so that they can refer to it.
pub fn with_documents(
    rt: &HostRuntime,
    compound: Compound,
    file: &str,
    draft: Draft,
    texts: &[Text<'_>],
) -> Result<Compound, Failure>
    ensures { IfOk result
        (λ c. EmbedsSome draft (found_in file.now (seen compound)) (seen c)) }
{
    let documents = documents_of(rt, file, texts)?;
    let mut compound = found_in(rt.alloc(), compound, file)?;
    for document in &documents {
        compound = with_file(rt, compound, document, draft)?;
    }
    Ok(compound)
}

/// The schema that was found in this file.
fn found_in(alloc: Global, compound: Compound, file: &str) -> Result<Compound, AllocError>
    ensures { IfOk result (λ c. seen c ≡ found_in file.now (seen compound)) }
{
    let uri = join_path(alloc, "/", plain(file))?;
    let tree = found_at(compound.tree, uri.as_str(), alloc)?;
    Ok(Compound {
        tree,
        is_older: compound.is_older,
    })
}

/// A further document.
#[derive(Drop)]
struct Document {
    /// Where it was found, by the URI of the schema.
    uri: String,
    /// The name of its file.
    file: String,
    /// Whether the arguments say where it was found.
    is_located: bool,
}

/// The document in this file: found at this URI, or else where the schema's file leads to it.
fn document_of(
    alloc: Global,
    schema: &str,
    uri: Option<&str>,
    file: &str,
) -> Result<Document, AllocError>
    ensures file { IfOk result (λ d. string_bytes d.file ≡ file.now) }
    ensures uri { IfOk result (λ d. string_bytes d.uri
        ≡ document_uri schema.now (option_map (λ u. u.now) uri.entry) file.now) }
{
    let is_located = uri.is_some();
    let uri = document_uri(alloc, schema, uri, file)?;
    let file = String::from_str(alloc, file)?;
    Ok(Document {
        uri,
        file,
        is_located,
    })
}

fn document_uri(
    alloc: Global,
    schema: &str,
    uri: Option<&str>,
    file: &str,
) -> Result<String, AllocError>
    ensures { IfOk result (λ s. string_bytes s
        ≡ document_uri schema.now (option_map (λ u. u.now) uri.entry) file.now) }
{
    match uri {
        Some(uri) => String::from_str(alloc, uri),
        None => relative_reference(alloc, plain(schema), plain(file)),
    }
}

/// The documents that the texts of `-r` name.
fn documents_of(
    rt: &HostRuntime,
    schema: &str,
    texts: &[Text<'_>],
) -> Result<Vec<Document>, Failure> {
    let mut documents = Vec::new(rt.alloc());
    for text in texts {
        let (uri, name) = located(text.value);
        if name != "-" && is_folder(rt, name) {
            add_files(rt, &mut documents, schema, uri, name)?;
        } else {
            let document = document_of(rt.alloc(), schema, uri, name)?;
            add(&mut documents, document)?;
        }
    }
    Ok(documents)
}

/// Adds the documents below a folder but the schema. Where the folder has a URI, theirs begin with it.
fn add_files(
    rt: &HostRuntime,
    documents: &mut Vec<Document>,
    schema: &str,
    uri: Option<&str>,
    folder: &str,
) -> Result<(), Failure> {
    let alloc = rt.alloc();
    for name in &json_files(rt, folder)? {
        let file = join_path(alloc, folder, name.as_str())?;
        if is_same(rt, schema, file.as_str()) {
            continue;
        }
        let document = match uri {
            Some(uri) => Document {
                uri: join_path(alloc, uri, name.as_str())?,
                file,
                is_located: true,
            },
            None => document_of(alloc, schema, None, file.as_str())?,
        };
        add(documents, document)?;
    }
    Ok(())
}

fn add(documents: &mut Vec<Document>, document: Document) -> Result<(), AllocError> {
    documents.push(document)?;
    Ok(())
}

/// Whether two names are of one file.
fn is_same(rt: &HostRuntime, one: &str, other: &str) -> bool {
    match (fs::metadata(rt, one), fs::metadata(rt, other)) {
        (Ok(one), Ok(other)) => one.dev() == other.dev() && one.ino() == other.ino(),
        _ => false,
    }
}

/// The schema with the document of a file.
fn with_file(
    rt: &HostRuntime,
    compound: Compound,
    document: &Document,
    default: Draft,
) -> Result<Compound, Failure>
    ensures { IfOk result
        (λ c. EmbedsNew default (document.now.is_located, string_bytes document.now.uri)
        (seen compound) (seen c)) }
{
    let uri = document.uri.as_str();
    if has_definition(&compound.tree, uri) {
        return Err(schema_failure(rt.alloc(), &SchemaFailure::Twice(uri)));
    }
    let tree = document_tree(rt, document.file.as_str())?;
    tell_unknown(rt, &tree)?;
    let compound = embed(compound, uri, tree, default, rt.alloc())?;
    Ok(with_ways(rt.alloc(), compound, uri, document.is_located)?)
}

/// The schema with its document at this URI, which references also lead into by the URI where it was found.
fn with_ways(
    alloc: Global,
    compound: Compound,
    uri: &str,
    is_located: bool,
) -> Result<Compound, AllocError>
    ensures { IfOk result (λ c. seen c ≡ with_ways is_located uri.now (seen compound)) }
{
    if is_located {
        return with_retrieval_uri(compound, uri, alloc);
    }
    Ok(compound)
}

/// Parses a document's file. Not inlined, so that a later check has all of the stack.
#[inline(never)]
fn document_tree(rt: &HostRuntime, file: &str) -> Result<JsonValue, Failure> {
    let alloc = rt.alloc();
    let text = read_named(rt, file)?;
    match JsonValue::from_str_with_depth_limit(alloc, text.as_str(), DEPTH_LIMIT) {
        Ok(tree) => Ok(tree),
        Err(error) => Err(document_failure(alloc, file, error)),
    }
}
