//! Reads a patch from its JSON document.
ghost use Rattle.std.specs.Prelude.{◌≡◌, false, option_map, MatchOption};
ghost use Rattle.std.specs.Str.{chars};
ghost use Rattle.tinyjson.specs.Index.{tree_at_key};
ghost use Rattle.tinyjson.specs.View.{view};
ghost use Rattle.tinyjson_patch.specs.Document.{key, is_name, ReadsPatch};
ghost use Rattle.tinyjson_patch.specs.Reading.{name, ReadsName, ReadsString, ReadsPointer};
ghost use Rattle.tinyjson_patch.specs.Reading.{ReadsValue, ReadsOperation};

use crate::fault::{Fault, Member, PatchError};
use crate::operation::Operation;
use crate::patch::Patch;
use std::alloc::{AllocError, Global};
use tinyjson::JsonValue;
use tinyjson_pointer::{Pointer, PointerError};

/// How many tokens a pointer of an operation may have: a change recurses once for each.
const TOKEN_LIMIT: usize = 1_000;

/// Why an operation is not read.
pub(crate) enum ReadError {
    Malformed(Fault),
    OutOfMemory,
}

impl From<AllocError> for ReadError {
    ghost use Rattle.tinyjson_patch.specs.declared.document.ReadError.{ReadError};

    ghost from_gives = { λ _ e. e ≡ ReadError.OutOfMemory };

    fn from(_: AllocError) -> ReadError {
        ReadError::OutOfMemory
    }
}

/// The name of an operation.
#[derive(Clone, Copy)]
pub(crate) enum Name {
    Add,
    Remove,
    Replace,
    Move,
    Copy,
    Test,
}

impl Name {
    /// The operation with this name.
    fn from_text(text: &str) -> Option<Name>
        ensures { MatchOption result (is_name (chars text.now) ≡ false)
            (λ n. chars text.now ≡ name n) }
    {
        if text == "add" {
            Some(Name::Add)
        } else if text == "remove" {
            Some(Name::Remove)
        } else if text == "replace" {
            Some(Name::Replace)
        } else if text == "move" {
            Some(Name::Move)
        } else if text == "copy" {
            Some(Name::Copy)
        } else if text == "test" {
            Some(Name::Test)
        } else {
            None
        }
    }
}

impl Patch {
    /// Reads a patch from its document (RFC 6902, sections 3 and 4): an array of objects, each with the
    /// members of its operation. Other members are ignored. Pointers may have up to 1,000 tokens.
    ///
    /// The error names the first item that is no operation. Values are copied, and no call recurses.
    ///
    /// ```
    /// let document = JsonValue::from_str(alloc, r#"[{"op":"remove","path":"/a"}]"#)?;
    /// let patch = Patch::from_value(alloc, &document)?;
    /// ```
    pub fn from_value(alloc: Global, document: &JsonValue) -> Result<Patch, PatchError>
        ensures { ReadsPatch (view document.now) result }
    {
        let JsonValue::Array(items) = document else {
            return Err(PatchError::NoArray);
        };
        let mut operations = Vec::new(alloc);
        for (number, item) in items.iter().enumerate() {
            match read_operation(alloc, item) {
                Ok(operation) => {
                    let Ok(()) = operations.push(operation) else {
                        return Err(PatchError::OutOfMemory);
                    };
                }
                Err(ReadError::Malformed(fault)) => {
                    return Err(PatchError::Malformed(number, fault));
                }
                Err(ReadError::OutOfMemory) => return Err(PatchError::OutOfMemory),
            }
        }
        Ok(Patch { operations })
    }
}

/// Of several faults it returns that of `op`, else that of `path`, else that of the third member.
fn read_operation(alloc: Global, document: &JsonValue) -> Result<Operation, ReadError>
    ensures { ReadsOperation (view document.now) result }
{
    if !document.is_object() {
        return Err(ReadError::Malformed(Fault::NoObject));
    }
    let name = name_of(document)?;
    let path = pointer_of(alloc, document, Member::Path)?;
    match name {
        Name::Add => Ok(Operation::Add {
            path,
            value: value_of(alloc, document)?,
        }),
        Name::Remove => Ok(Operation::Remove { path }),
        Name::Replace => Ok(Operation::Replace {
            path,
            value: value_of(alloc, document)?,
        }),
        Name::Move => Ok(Operation::Move {
            from: pointer_of(alloc, document, Member::From)?,
            path,
        }),
        Name::Copy => Ok(Operation::Copy {
            from: pointer_of(alloc, document, Member::From)?,
            path,
        }),
        Name::Test => Ok(Operation::Test {
            path,
            value: value_of(alloc, document)?,
        }),
    }
}

fn name_of(document: &JsonValue) -> Result<Name, ReadError>
    ensures { ReadsName (view document.now) result }
{
    let text = string_of(document, Member::Op)?;
    match Name::from_text(text.as_str()) {
        Some(name) => Ok(name),
        None => Err(ReadError::Malformed(Fault::NoOperation)),
    }
}

fn pointer_of(alloc: Global, document: &JsonValue, member: Member) -> Result<Pointer, ReadError>
    ensures { ReadsPointer (view document.now) member result }
{
    let text = string_of(document, member)?;
    match Pointer::parse(alloc, text.as_str()) {
        Ok(pointer) if pointer.depth() > TOKEN_LIMIT => {
            Err(ReadError::Malformed(Fault::LongPointer(member)))
        }
        Ok(pointer) => Ok(pointer),
        Err(PointerError::OutOfMemory) => Err(ReadError::OutOfMemory),
        Err(_) => Err(ReadError::Malformed(Fault::NoPointer(member))),
    }
}

fn value_of(alloc: Global, document: &JsonValue) -> Result<JsonValue, ReadError>
    ensures { ReadsValue (view document.now) result }
{
    match member_of(document, Member::Value) {
        Some(value) => Ok(value.try_clone(alloc)?),
        None => Err(ReadError::Malformed(Fault::Missing(Member::Value))),
    }
}

/// The member, if it is a string.
fn string_of(document: &JsonValue, member: Member) -> Result<&String, ReadError>
    ensures { ReadsString (view document.now) member result }
{
    match member_of(document, member) {
        Some(JsonValue::String(text)) => Ok(text),
        Some(_) => Err(ReadError::Malformed(Fault::NoString(member))),
        None => Err(ReadError::Malformed(Fault::Missing(member))),
    }
}

fn member_of(document: &JsonValue, member: Member) -> Option<&JsonValue>
    ensures { option_map (λ x. view x.now) result ≡ tree_at_key (view document.now) (key member) }
{
    match document {
        JsonValue::Object(members) => members.get(member.key()),
        _ => None,
    }
}
