//! The caller's buffer.
ghost use Rattle.std.specs.Prelude.{◌≡◌, ◌<◌, ◌⊎◌, ◌≢◌, length};
ghost use Rattle.tinyjson_c.specs.Buffer.{Fills, HasWritten, LacksRoom};

use crate::place::TinyjsonPlace;
use crate::status::{OK, TOO_SMALL};

/// Writes the bytes to the front of the buffer, if they fit, and their length to the place.
pub(crate) fn put(bytes: &[u8], buffer: &mut [u8], place: &mut TinyjsonPlace) -> u32
    ensures status { (result ≡ OK) ⊎ (result ≡ TOO_SMALL) }
    ensures written { result ≡ OK → HasWritten bytes.now buffer.old buffer.new place.new }
    ensures too_small { result ≡ TOO_SMALL → LacksRoom bytes.now buffer.old place.new }
    ensures left { result ≢ OK → buffer.new ≡ buffer.old }
{
    *place = TinyjsonPlace::of_length(0, bytes.len());
    fill(bytes, buffer)
}

/// Writes the bytes to the front of the buffer, if they fit.
pub(crate) fn fill(bytes: &[u8], buffer: &mut [u8]) -> u32
    ensures status { (result ≡ OK) ⊎ (result ≡ TOO_SMALL) }
    ensures written { result ≡ OK → Fills bytes.now buffer.old buffer.new }
    ensures too_small { result ≡ TOO_SMALL → length buffer.old < length bytes.now }
    ensures left { result ≢ OK → buffer.new ≡ buffer.old }
{
    if bytes.len() > buffer.len() {
        return TOO_SMALL;
    }
    buffer[..bytes.len()].copy_from_slice(bytes);
    OK
}
