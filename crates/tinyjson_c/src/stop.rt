//! Why a text has no answer.
ghost use Rattle.std.specs.Prelude.{◌≡◌, MatchResult};
ghost use Rattle.std.specs.Str.{IsUtf8};
ghost use Rattle.std.specs.Str.Lossy.{utf8_valid_len};
ghost use Rattle.tinyjson_c.specs.Stop.{StopOf, stop_place, stop_status};

use crate::place::TinyjsonPlace;
use crate::status::{NOT_UTF8, OUT_OF_MEMORY, REFUSED};
use std::str;
use tinyjson::JsonParseError;

/// Why a text has no answer.
#[derive(Clone, Copy)]
pub(crate) enum Stop {
    /// It is no JSON.
    Refused(JsonParseError),
    /// It is not UTF-8; this many bytes before the fault are.
    NotUtf8(usize),
    /// Memory ran out.
    OutOfMemory,
}

impl Stop {
    /// The reason for an error of the parser.
    pub(crate) fn of(error: JsonParseError) -> Stop
        ensures { StopOf error result }
    {
        if error.is_out_of_memory() {
            Stop::OutOfMemory
        } else {
            Stop::Refused(error)
        }
    }

    /// Fills the place for the text with this index, and returns the status.
    pub(crate) fn put(self, text: usize, place: &mut TinyjsonPlace) -> u32
        ensures status { result ≡ stop_status self }
        ensures place { place.new ≡ stop_place text self }
    {
        match self {
            Stop::Refused(error) => {
                *place = TinyjsonPlace::of_error(text, &error);
                REFUSED
            }
            Stop::NotUtf8(length) => {
                *place = TinyjsonPlace::of_length(text, length);
                NOT_UTF8
            }
            Stop::OutOfMemory => {
                *place = TinyjsonPlace::of_memory(text);
                OUT_OF_MEMORY
            }
        }
    }
}

/// The bytes as a text.
pub(crate) fn text_of(bytes: &[u8]) -> Result<&str, Stop>
    ensures { MatchResult result (λ s. (s.now ≡ bytes.now) × IsUtf8 bytes.now)
        (λ s. ¬ IsUtf8 bytes.now × (s ≡ Stop.NotUtf8 (utf8_valid_len bytes.now))) }
{
    match str::from_utf8(bytes) {
        Ok(text) => Ok(text),
        Err(error) => Err(Stop::NotUtf8(error.valid_up_to())),
    }
}
