//! Schemas that are checked by their meta-schemas.
ghost use Rattle.std.specs.Prelude.{◌≡◌, [], false, IfOk};
ghost use Rattle.tinyjson.specs.Tree.{object, no_members};
ghost use Rattle.tinyjson_schema_drafts.specs.References.{seen, HasMetaSchemas};
ghost use Rattle.json_schema.specs.Meta.{FailsMeta, TellsUnknown};

use crate::documents::with_documents;
use crate::failure::{SchemaFailure, embed_failure, schema_failure};
use std::alloc::Global;
use tinyjson_cli::{Failure, Shown, Text};
use tinyjson_schema_drafts::{Compound, Draft, empty_compound, uri_of, with_meta_schemas};
use tinyjson_schema_report::{MetaError, MetaSchemas};

/// The schema as a document of one resource, with the meta-schemas that its references lead into.
pub fn whole_of(alloc: Global, compound: Compound) -> Result<Compound, Failure>
    ensures { IfOk result (λ c. HasMetaSchemas (seen compound) (seen c)) }
{
    match with_meta_schemas(compound, alloc) {
        Ok(whole) => Ok(whole),
        Err(error) => Err(embed_failure(alloc, error)),
    }
}

/// The meta-schemas of the drafts, and in their place those of further documents, which the texts of `-r` name.
pub fn meta_schemas(
    rt: &HostRuntime,
    draft: Draft,
    formats: bool,
    most: Option<usize>,
    texts: &[Text<'_>],
) -> Result<MetaSchemas, Failure>
    ensures draft { IfOk result (λ m. m.draft ≡ draft) }
    ensures formats { IfOk result (λ m. m.formats ≡ formats) }
    ensures most { IfOk result (λ m. m.most ≡ most) }
    ensures none { texts.now ≡ [] →
        IfOk result (λ m. seen m.documents ≡ (object no_members, false)) }
{
    let empty = empty_compound(rt.alloc());
    let checks = MetaSchemas {
        documents: match texts {
            [] => empty,
            texts => with_documents(rt, empty, "", draft, texts)?,
        },
        draft,
        formats,
        most,
    };
    if !texts.is_empty() {
        // It fails where one of the documents can't be applied.
        if let Err(error) = checks.check_by(rt.alloc(), uri_of(draft), "null") {
            return Err(meta_failure(rt.alloc(), error));
        }
    }
    Ok(checks)
}

/// The failure of a check by a meta-schema.
pub fn meta_failure(alloc: Global, error: MetaError) -> Failure
    ensures { FailsMeta error result }
{
    match error {
        MetaError::Unknown(uri) => unknown_failure(alloc, uri.as_str()),
        MetaError::Refused { place, words } => {
            schema_failure(alloc, &SchemaFailure::Refused { place, words })
        }
        MetaError::Embed(error) => embed_failure(alloc, error),
        MetaError::OutOfMemory => Failure::OutOfMemory,
    }
}

/// The failure of a schema whose `$schema` is not known.
fn unknown_failure(alloc: Global, uri: &str) -> Failure
    ensures { TellsUnknown uri.now result }
{
    match format!(in alloc; "\"{}\" is an unknown $schema", Shown(uri)) {
        Ok(words) => Failure::Refused(words),
        Err(_) => Failure::OutOfMemory,
    }
}
