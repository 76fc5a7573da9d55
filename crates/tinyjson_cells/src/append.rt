//! Appending short texts to a vector.
ghost use Rattle.std.specs.Prelude.{◌≡◌, ◌++◌, ◌∷◌, [], IfOk, OnOk, encode_utf8_all};
ghost use Rattle.std.specs.Bool.{MatchBool};
ghost use Rattle.tinyjson_grammar.specs.Characters.{quotation_mark};
ghost use Rattle.tinyjson_number.specs.Text.{decimal_text};

use std::alloc::AllocError;
use tinyjson_bytes::copy;
use tinyjson_number::JsonNumber;

/// How many bytes are appended at once. The vector is then cut to the length that is meant.
pub const ROOM: usize = 32;

/// The longest text that fits into [`ROOM`] with its quotes and the byte after them.
const SHORT: usize = ROOM - 3;

/// Appends the bytes.
#[inline(always)]
pub fn append(text: &mut Vec<u8>, bytes: &[u8]) -> Result<(), AllocError>
    ensures { OnOk result (text.new.items ≡ text.old.items ++ bytes.now) }
{
    if bytes.len() > ROOM {
        return text.extend_from_slice(bytes);
    }
    let at = text.len();
    text.extend_from_slice(&[0; ROOM])?;
    copy(text.as_mut_slice(), at, bytes);
    text.truncate(at + bytes.len());
    Ok(())
}

/// Appends the bytes in quotes, and one byte after them.
#[inline(always)]
pub fn append_quoted(text: &mut Vec<u8>, bytes: &[u8], behind: u8) -> Result<(), AllocError>
    ensures { OnOk result (text.new.items ≡ ((text.old.items ++ quotation_mark ∷ [])
        ++ bytes.now) ++ quotation_mark ∷ behind ∷ []) }
{
    if bytes.len() > SHORT {
        text.push(b'"')?;
        text.extend_from_slice(bytes)?;
        return text.extend_from_slice(&[b'"', behind]);
    }
    let inside = text.len() + 1;
    text.extend_from_slice(&[b'"'; ROOM])?;
    copy(text.as_mut_slice(), inside, bytes);
    copy(text.as_mut_slice(), inside + bytes.len(), &[b'"', behind]);
    text.truncate(inside + bytes.len() + 2);
    Ok(())
}

/// Appends the text of a short number, and returns whether it did.
#[inline(always)]
pub fn append_number(text: &mut Vec<u8>, number: &JsonNumber) -> Result<bool, AllocError>
    ensures { IfOk result (λ done. MatchBool done (text.new.items ≡ text.old.items
        ++ encode_utf8_all (decimal_text number.now.decimal))
        (text.new.items ≡ text.old.items)) }
{
    let at = text.len();
    text.extend_from_slice(&[0; ROOM])?;
    match number.write_short(&mut text[at..]) {
        Some(count) => {
            text.truncate(at + count);
            Ok(true)
        }
        None => {
            text.truncate(at);
            Ok(false)
        }
    }
}
