//! Durations.
ghost use Rattle.std.specs.Prelude.{◌≡◌, codes};
ghost use Rattle.text_formats.specs.Duration.{is_duration, is_dates, is_time_part, is_rest};
ghost use Rattle.text_formats.specs.Duration.{after_unit, after_chain, after_units};
ghost use Rattle.text_formats.specs.Splitting.{now};

use crate::letters::{End, is_letter};
use text_uri::cut;

/// Whether the text is a duration (RFC 3339, appendix A): years, months and days, or weeks, or hours, minutes and
/// seconds after a `T`, without a gap between the units. Letters may be small.
///
/// ```
/// assert!(rt; is_duration("P4DT12H30M5S"));
/// assert!(rt; !is_duration("P1W1D"));
/// ```
pub fn is_duration(text: &str) -> bool
    ensures { result ≡ is_duration text.now }
{
    match text.as_bytes().split_first() {
        Some((b'P' | b'p', rest)) => is_dates(rest) || is_rest(after_unit(b'W', rest)),
        _ => false,
    }
}

fn is_dates(text: &[u8]) -> bool
    ensures { result ≡ is_dates text.now (after_units (codes "YMD") text.now) }
{
    match after_units(b"YMD", text) {
        Some(rest) => is_time_part(rest),
        None => !text.is_empty() && is_time_part(text),
    }
}

/// Whether the text is empty, or `T` and hours, minutes and seconds.
fn is_time_part(text: &[u8]) -> bool
    ensures { result ≡ is_time_part text.now }
{
    match text.split_first() {
        None => true,
        Some((b'T' | b't', rest)) => is_rest(after_units(b"HMS", rest)),
        Some(_) => false,
    }
}

fn is_rest(rest: Option<&[u8]>) -> bool
    ensures { result ≡ is_rest (now rest.entry) }
{
    match rest {
        Some(rest) => rest.is_empty(),
        None => false,
    }
}

/// What follows digits and the unit, if the text begins with them.
fn after_unit(unit: u8, text: &[u8]) -> Option<&[u8]>
    ensures { now result ≡ after_unit unit text.now }
{
    let (digits, rest) = cut(text, End::Digits);
    match rest {
        [c, more @ ..] if !digits.is_empty() && is_letter(unit, *c) => Some(more),
        _ => None,
    }
}

/// What follows the units, one after the other as far as they are there.
fn after_chain<'t>(units: &[u8], text: &'t [u8]) -> &'t [u8]
    ensures { result.now ≡ after_chain units.now text.now }
{
    match units.split_first() {
        Some((unit, more)) => match after_unit(*unit, text) {
            Some(rest) => after_chain(more, rest),
            None => text,
        },
        None => text,
    }
}

/// What follows one of the units and the chain behind it.
fn after_units<'t>(units: &[u8], text: &'t [u8]) -> Option<&'t [u8]>
    ensures { now result ≡ after_units units.now text.now }
{
    let (unit, more) = units.split_first()?;
    match after_unit(*unit, text) {
        Some(rest) => Some(after_chain(more, rest)),
        None => after_units(more, text),
    }
}
