//! What is wrong with a patch document.
ghost use Rattle.std.specs.Prelude.{◌≡◌, Some};
ghost use Rattle.tinyjson_patch.specs.Document.{key};
ghost use Rattle.tinyjson_patch.specs.Message.{fault_message, patch_error_message};

use std::alloc::AllocError;
use std::error::Error;
use std::fmt;

/// A member of an operation in a patch document (RFC 6902, section 4).
#[derive(Clone, Copy, Debug, PartialEq, Eq)]
pub enum Member {
    /// `op`: the operation's name.
    Op,
    /// `path`: a pointer.
    Path,
    /// `from`: a pointer, in a move or a copy.
    From,
    /// `value`: any value, in an addition, a replacement or a test.
    Value,
}

impl Member {
    /// The key of the member.
    ///
    /// ```
    /// Member::Op.key() // "op"
    /// ```
    pub fn key(self) -> &'static str
        ensures { result.now ≡ key self }
    {
        match self {
            Member::Op => "op",
            Member::Path => "path",
            Member::From => "from",
            Member::Value => "value",
        }
    }
}

/// Why an item of a patch document is no operation.
#[derive(Clone, Copy, Debug, PartialEq, Eq)]
pub enum Fault {
    /// It is no object.
    NoObject,
    /// It lacks a member that its operation needs.
    Missing(Member),
    /// The member is not a string.
    NoString(Member),
    /// `op` does not name an operation.
    NoOperation,
    /// The member is not a pointer (RFC 6901).
    NoPointer(Member),
    /// The member is a pointer with more than 1,000 tokens.
    LongPointer(Member),
}

impl fmt::Display for Fault {
    ghost output = { λ f. Some (fault_message f) };

    fn fmt<W: fmt::Write>(&self, f: &mut fmt::Formatter<W>) -> fmt::Result {
        match *self {
            Fault::NoObject => f.write_str("it is no object"),
            Fault::Missing(member) => write!(f, "'{}' is missing", member.key()),
            Fault::NoString(member) => write!(f, "'{}' is no string", member.key()),
            Fault::NoOperation => f.write_str("'op' names no operation"),
            Fault::NoPointer(member) => write!(f, "'{}' is no pointer", member.key()),
            Fault::LongPointer(member) => write!(
                f,
                "'{}' is a pointer of more than 1000 tokens",
                member.key()
            ),
        }
    }
}

/// Why a value is not a patch document.
#[derive(Clone, Copy, Debug, PartialEq, Eq)]
pub enum PatchError {
    /// It is no array.
    NoArray,
    /// The item with this index is no operation, for this reason. Indices begin at 0.
    Malformed(usize, Fault),
    /// An allocation failed.
    OutOfMemory,
}

impl fmt::Display for PatchError {
    ghost output = { λ e. Some (patch_error_message e) };

    fn fmt<W: fmt::Write>(&self, f: &mut fmt::Formatter<W>) -> fmt::Result {
        match self {
            PatchError::NoArray => f.write_str("it is no array"),
            PatchError::Malformed(number, fault) => write!(f, "operation {number}: {fault}"),
            PatchError::OutOfMemory => f.write_str("out of memory"),
        }
    }
}

impl Error for PatchError {}
