//! Schemas that are checked by their meta-schemas.
ghost use Rattle.std.specs.Prelude.{◌≡◌, IfOk};
ghost use Rattle.std.specs.Str.{chars};
ghost use Rattle.tinyjson.specs.View.{view};
ghost use Rattle.tinyjson_schema_drafts.specs.References.{seen, meta_schema_of, HasMetaSchemas};
ghost use Rattle.tinyjson_schema_report.specs.Meta.{judged_by, GivesBy, IsErrorOf, SchemaGives, WholeGives};
ghost use Rattle.tinyjson_schema_report.specs.Verdicts.{TextGivesAs};
ghost use Rattle.std.specs.Prelude.{Some};
ghost use Rattle.tinyjson_schema_report.specs.Messages.{meta_error_message};

use crate::refused::{Refusal, refused_words};
use crate::verdict::{Cause, DEPTH_LIMIT, Every, Judge, check_as};
use std::alloc::{AllocError, Global};
use std::error::Error;
use std::fmt;
use tinyjson::JsonValue;
use tinyjson_buffers::Buffers;
use tinyjson_schema::{Schema, SchemaError};
use tinyjson_schema_drafts::{
    Compound, Draft, EmbedError, meta_schema_of, referring, with_meta_schemas,
};

/// What schemas are checked by: each by its meta-schema.
#[derive(Drop)]
pub struct MetaSchemas {
    /// A schema without keywords, with the further documents, which are taken in place of meta-schemas with their URIs.
    pub documents: Compound,
    /// The draft of a schema that names none.
    pub draft: Draft,
    /// Whether `format` is an assertion.
    pub formats: bool,
    /// How many violations are looked for, if it is not only the first one.
    pub most: Option<usize>,
}

/// Why a schema is not checked by its meta-schema.
#[derive(Debug, Drop)]
pub enum MetaError {
    /// The meta-schema with this URI is not known.
    Unknown(String),
    /// It can't be applied, or a further document can't, as the words say, at the place to which the pointer leads.
    Refused { place: String, words: String },
    /// A meta-schema is not embedded.
    Embed(EmbedError),
    /// An allocation failed.
    OutOfMemory,
}

impl From<AllocError> for MetaError {
    ghost use Rattle.tinyjson_schema_report.specs.declared.meta.MetaError.{MetaError};

    ghost from_gives = { λ _ e. e ≡ MetaError.OutOfMemory };

    fn from(_: AllocError) -> MetaError {
        MetaError::OutOfMemory
    }
}

impl fmt::Display for MetaError {
    ghost output = { λ e. Some (meta_error_message e) };

    fn fmt<W: fmt::Write>(&self, f: &mut fmt::Formatter<W>) -> fmt::Result {
        match self {
            MetaError::Unknown(uri) => write!(f, "the meta-schema {uri} is not known"),
            MetaError::Refused { place, words } => write!(f, "{place} {words}"),
            MetaError::Embed(error) => error.fmt(f),
            MetaError::OutOfMemory => f.write_str("out of memory"),
        }
    }
}

impl Error for MetaError {}

impl MetaSchemas {
    /// Checks the schema of a text by its meta-schema. It fails if that is not known.
    ///
    /// ```
    /// // Of {"minLength": "a"}: /minLength must be an integer, is a string
    /// let every = checks.check(alloc, "{\"minLength\": \"a\"}")?;
    /// ```
    // Not inlined, so that the check has all of the stack.
    #[inline(never)]
    pub fn check(&self, alloc: Global, text: &str) -> Result<Every, MetaError>
        ensures { IfOk result (SchemaGives self.now (chars text.now)) }
    {
        match JsonValue::from_str_with_depth_limit(alloc, text, DEPTH_LIMIT) {
            Ok(schema) => self.check_schema(alloc, schema, text),
            Err(error) => {
                if error.is_out_of_memory() {
                    return Err(MetaError::OutOfMemory);
                }
                Ok(Every::Refused(Cause::NotJson(error)))
            }
        }
    }

    /// Checks the text of a schema by its meta-schema.
    fn check_schema(&self, alloc: Global, schema: JsonValue, text: &str) -> Result<Every, MetaError>
        ensures { IfOk result (GivesBy self.now (meta_schema_of self.now.draft (view schema))
            (chars text.now)) }
    {
        let uri = String::from_str(alloc, meta_schema_of(&schema, self.draft))?;
        schema.dismantle();
        self.check_by(alloc, uri.as_str(), text)
    }

    /// Checks a text by a reference to the meta-schema with this URI.
    ///
    /// ```
    /// let every = checks.check_by(alloc, uri_of(Draft::Draft7), "null")?;
    /// ```
    pub fn check_by(&self, alloc: Global, uri: &str, text: &str) -> Result<Every, MetaError>
        ensures { IfOk result (GivesBy self.now uri.now (chars text.now)) }
    {
        let tree = referring(&self.documents.tree, uri, alloc)?;
        let compound = Compound {
            tree,
            is_older: self.documents.is_older,
        };
        let whole = whole_of(alloc, compound)?;
        let every = self.check_whole(alloc, &whole, uri, text);
        whole.tree.dismantle();
        every
    }

    /// Checks a text by a schema that refers to the meta-schema with this URI.
    fn check_whole(
        &self,
        alloc: Global,
        whole: &Compound,
        uri: &str,
        text: &str,
    ) -> Result<Every, MetaError>
        ensures { IfOk result (WholeGives self.now (seen whole.now) (chars text.now)) }
    {
        match Schema::read(&whole.tree, alloc) {
            Ok(schema) => self.verdict_by(alloc, &schema, text),
            Err(SchemaError::OutOfMemory) => Err(MetaError::OutOfMemory),
            Err(SchemaError::Refused(place) | SchemaError::PatternLimit(place)) => {
                let refusal = Refusal {
                    root: &whole.tree,
                    place: &place,
                    is_older: whole.is_older,
                };
                Err(refused_by(alloc, uri, refusal)?)
            }
        }
    }

    fn verdict_by(&self, alloc: Global, schema: &Schema<'_>, text: &str) -> Result<Every, MetaError>
        ensures { IfOk result
            (TextGivesAs self.now.most (judged_by self.now schema.entry.now) (chars text.now)) }
    {
        let buffers = Buffers::new(alloc);
        let judge = Judge {
            schema,
            formats: self.formats,
            buffers: &buffers,
        };
        let every = check_as(alloc, judge, text, self.most)?;
        Ok(every)
    }
}

/// The schema as a document of one resource, with the meta-schemas that its references lead into.
fn whole_of(alloc: Global, compound: Compound) -> Result<Compound, MetaError>
    ensures { IfOk result (λ c. HasMetaSchemas (seen compound) (seen c)) }
{
    match with_meta_schemas(compound, alloc) {
        Ok(whole) => Ok(whole),
        Err(error) => Err(MetaError::Embed(error)),
    }
}

/// The error where the meta-schema with this URI is not known, or can't be applied.
// Not inlined, so that the check has all of the stack.
#[inline(never)]
fn refused_by(alloc: Global, uri: &str, refusal: Refusal<'_>) -> Result<MetaError, AllocError>
    ensures { IfOk result (IsErrorOf uri.now refusal.entry) }
{
    let place = refusal.place.to_string(alloc)?;
    if place.as_str() == "/$ref" {
        let uri = String::from_str(alloc, uri)?;
        return Ok(MetaError::Unknown(uri));
    }
    let words = refused_words(refusal, alloc)?;
    Ok(MetaError::Refused { place, words })
}
