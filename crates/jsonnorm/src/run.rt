//! From the bytes of a reader to a value's normal text in a writer.
ghost use Rattle.std.specs.Prelude.{◌<◌, Bool, IfOk, None, Some, vec_len};
ghost use Rattle.std.specs.Str.{chars};
ghost use Rattle.tinyjson.specs.Events.{TellsText};
ghost use Rattle.tinyjson.specs.Tree.{Tree};
ghost use Rattle.tinyjson.specs.Written.{WritesPrefix};
ghost use Rattle.tinyjson_document.specs.Document.{HasTree as HasNodes};
ghost use Rattle.tinyjson_normal.specs.Normal.{HasTree};
ghost use Rattle.jsonnorm.specs.Input.{ReadsToEnd};
ghost use Rattle.jsonnorm.specs.Parsed.{IsParsed};
ghost use Rattle.jsonnorm.specs.Run.{Runs, line_of};

use crate::fault::{RunFault, refusal, writing_error};
use std::alloc::{AllocError, Global};
use std::io::{self, ErrorKind, Read, Write};
use std::{mem, str};
use tinyjson::JsonParseError;
use tinyjson_document::Document;
use tinyjson_normal::NormalText;

/// How many bytes are asked for at once.
const PIECE_LEN: usize = 65_536;

/// How many reads may give bytes.
const MAX_READS: u32 = 1_073_741_824;

/// How a text is read and written.
#[derive(Clone, Copy)]
pub struct Options {
    /// Whether the text is indented with two spaces.
    pub indented: bool,
    /// How many containers may be open at once, if there is a limit.
    pub limit: Option<usize>,
}

/// What was read of a text: indented text is written from nodes, so that no compact text is made first.
#[derive(Drop)]
pub(crate) enum Parsed {
    Compact(NormalText),
    Nodes(Document),
}

/// Reads one JSON text in UTF-8 to the end of the input, and writes its value's compact text, or
/// the text indented with two spaces, and a line feed.
///
/// All is read and parsed before anything is written. After an error of writing a prefix of the
/// line is written, and nothing is flushed.
///
/// No value is built. The memory of what was read is not given back: the program ends soon after.
///
/// ```
/// let mut output = Vec::new(alloc);
/// run(alloc, &mut b" [1, 2.0] ".as_slice(), &mut output, false)?; // [1,2] and a line feed
/// ```
pub fn run<R: Read, W: Write>(
    alloc: Global,
    input: &mut R,
    output: &mut W,
    indented: bool,
) -> Result<(), RunFault>
    ensures { Runs None indented (R.remaining input.old) (R.remaining input.new)
        (W.contents output.old) (W.contents output.new) result }
{
    let limit = None;
    normalize(alloc, input, output, Options { indented, limit })
}

/// Does what [`run`] does, but refuses a text in which more than `limit` containers are open at once.
pub fn run_limited<R: Read, W: Write>(
    alloc: Global,
    input: &mut R,
    output: &mut W,
    indented: bool,
    limit: usize,
) -> Result<(), RunFault>
    ensures { Runs (Some limit) indented (R.remaining input.old) (R.remaining input.new)
        (W.contents output.old) (W.contents output.new) result }
{
    let limit = Some(limit);
    normalize(alloc, input, output, Options { indented, limit })
}

fn normalize<R: Read, W: Write>(
    alloc: Global,
    input: &mut R,
    output: &mut W,
    options: Options,
) -> Result<(), RunFault>
    ensures { Runs options.limit options.indented (R.remaining input.old) (R.remaining input.new)
        (W.contents output.old) (W.contents output.new) result }
{
    let bytes = read_all(alloc, input)?;
    let Ok(text) = str::from_utf8(bytes.as_slice()) else {
        return Err(RunFault::NotUtf8);
    };
    let parsed = parse(alloc, text, options);
    // What was read of it is all that is needed from here on.
    drop(bytes);
    match parsed {
        Err(error) => Err(refusal(error)),
        Ok(mut parsed) => {
            let written = write_line(alloc, output, &mut parsed);
            // The program ends soon, and walking the numbers only to free them would cost time.
            mem::forget(parsed);
            match written {
                Ok(()) => Ok(()),
                Err(error) => Err(writing_error(error)),
            }
        }
    }
}

/// Reads until a read gives nothing. An interruption is an error like any other.
fn read_all<R: Read>(alloc: Global, input: &mut R) -> Result<Vec<u8>, RunFault>
    ensures { ReadsToEnd (R.remaining input.old) (R.remaining input.new) result }
{
    let mut bytes = Vec::new(alloc);
    let Ok(mut piece) = new_piece(alloc) else {
        return Err(RunFault::OutOfMemory);
    };
    for _ in 0..MAX_READS {
        let Ok(count) = input.read(piece.as_mut_slice()) else {
            return Err(RunFault::Reading);
        };
        if count == 0 {
            return Ok(bytes);
        }
        if bytes.extend_from_slice(&piece[..count]).is_err() {
            return Err(RunFault::OutOfMemory);
        }
    }
    Err(RunFault::Reading)
}

/// The place that a read fills.
fn new_piece(alloc: Global) -> Result<Vec<u8>, AllocError>
    ensures { IfOk result (λ piece. 0 < vec_len piece) }
{
    vec![in alloc; 0; PIECE_LEN]
}

/// Reads the text into what is written with or without an indent.
fn parse(alloc: Global, text: &str, options: Options) -> Result<Parsed, JsonParseError>
    ensures { TellsText (IsParsed options.indented) options.limit (chars text.now) result }
{
    if options.indented {
        match parse_nodes(alloc, text, options.limit) {
            Ok(document) => Ok(Parsed::Nodes(document)),
            Err(error) => Err(error),
        }
    } else {
        match parse_compact(alloc, text, options.limit) {
            Ok(normal) => Ok(Parsed::Compact(normal)),
            Err(error) => Err(error),
        }
    }
}

fn parse_nodes(alloc: Global, text: &str, limit: Option<usize>) -> Result<Document, JsonParseError>
    ensures { TellsText HasNodes limit (chars text.now) result }
{
    match limit {
        None => Document::read(alloc, text),
        Some(limit) => Document::read_with_depth_limit(alloc, text, limit),
    }
}

fn parse_compact(
    alloc: Global,
    text: &str,
    limit: Option<usize>,
) -> Result<NormalText, JsonParseError>
    ensures { TellsText HasTree limit (chars text.now) result }
{
    match limit {
        None => NormalText::read(alloc, text),
        Some(limit) => NormalText::read_with_depth_limit(alloc, text, limit),
    }
}

/// Writes the text of what was read and a line feed, and ends with the first error.
fn write_line<W: Write>(alloc: Global, output: &mut W, parsed: &mut Parsed) -> io::Result<()>
    ensures { (indented : Bool) (t : Tree) → IsParsed indented parsed.old t →
        WritesPrefix (W.contents output.old) (W.contents output.new) (line_of indented t) result }
{
    match parsed {
        Parsed::Compact(normal) => normal.write_line_to(alloc, output),
        Parsed::Nodes(document) => document.root().format_line_to(alloc, output),
    }
}
