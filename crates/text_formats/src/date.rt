//! Dates and times (RFC 3339).
ghost use Rattle.std.specs.Char.{is_ascii_digit};
ghost use Rattle.std.specs.Prelude.{◌≡◌, ◌+◌, ◌*◌, ◌<◌, ◌≤◌, ◌&&◌, ◌==◌, nat_le, length, IfSome};
ghost use Rattle.text_formats.specs.Date.{is_date, days_in_month, is_leap, is_day, is_time, is_time_on};
ghost use Rattle.text_formats.specs.Date.{is_date_time, is_time_after, is_last_day};
ghost use Rattle.text_formats.specs.Date.{after_fraction, ahead, minutes, is_second};
ghost use Rattle.text_formats.specs.Form.{two};
ghost use Rattle.text_formats.specs.Letters.{begins};

use crate::form::{has_form, two};
use crate::letters::End;
use text_uri::cut;

/// Whether the text is a date of the Gregorian calendar: `full-date` of RFC 3339, section 5.6.
///
/// ```
/// assert!(rt; is_date("2024-02-29"));
/// assert!(rt; !is_date("1900-02-29"));
/// ```
pub fn is_date(text: &str) -> bool
    ensures { result ≡ is_date text.now }
{
    is_full_date(text.as_bytes())
}

/// Whether the text is a time with its offset from UTC: `full-time` of RFC 3339, section 5.6. The second 60 is
/// accepted only where it is 23:59:60 in UTC.
///
/// ```
/// assert!(rt; is_time("15:59:60.5-08:00"));
/// assert!(rt; !is_time("12:00:60Z"));
/// ```
pub fn is_time(text: &str) -> bool
    ensures { result ≡ is_time text.now }
{
    is_full_time(LeapDays::ALL, text.as_bytes())
}

/// Whether the text is a date and a time: `date-time` of RFC 3339, section 5.6. The second 60 is accepted only where it
/// is 23:59:60 in UTC of a month's last day.
///
/// ```
/// assert!(rt; is_date_time("1985-04-12T23:20:50.52Z"));
/// assert!(rt; is_date_time("1990-12-31T15:59:60-08:00"));
/// assert!(rt; !is_date_time("1985-06-15T23:59:60Z"));
/// ```
pub fn is_date_time(text: &str) -> bool
    ensures { result ≡ is_date_time text.now }
{
    let bytes = text.as_bytes();
    if bytes.len() < 10 {
        return false;
    }
    let (date, rest) = bytes.split_at(10);
    is_full_date(date) && is_time_after(LeapDays::at(date), rest)
}

/// Which days may have a leap second at their end: the one before a date, and that of the date.
#[derive(Clone, Copy)]
struct LeapDays {
    before: bool,
    this: bool,
}

impl LeapDays {
    /// For a time without a date.
    const ALL: LeapDays = LeapDays {
        before: true,
        this: true,
    };

    /// Those that are the last of their month.
    fn at(date: &[u8]) -> LeapDays
        requires { length date.now ≡ 10 }
        ensures before { result.before ≡ (two 8 date.now == 1) }
        ensures this { result.this ≡ is_last_day date.now }
    {
        let year = 100 * two(date, 0) + two(date, 2);
        let (month, day) = (two(date, 5), two(date, 8));
        LeapDays {
            before: day == 1,
            this: day == days_in_month(year, month),
        }
    }
}

/// Whether the text is `T` and a time, of a date with such days.
fn is_time_after(days: LeapDays, text: &[u8]) -> bool
    ensures { result ≡ is_time_after days.before days.this text.now }
{
    match text.split_first() {
        Some((b'T' | b't', time)) => is_full_time(days, time),
        _ => false,
    }
}

fn is_full_date(text: &[u8]) -> bool
    ensures { result ≡ is_date text.now }
{
    has_form(b"0000-00-00", text)
        && is_day(
            100 * two(text, 0) + two(text, 2),
            two(text, 5),
            two(text, 8),
        )
}

fn is_day(year: u32, month: u32, day: u32) -> bool
    ensures { result ≡ is_day year month day }
{
    (1..=12).contains(&month) && 1 <= day && day <= days_in_month(year, month)
}

fn days_in_month(year: u32, month: u32) -> u32
    ensures { result ≡ days_in_month year month }
{
    match month {
        2 if is_leap(year) => 29,
        2 => 28,
        4 | 6 | 9 | 11 => 30,
        _ => 31,
    }
}

fn is_leap(year: u32) -> bool
    ensures { result ≡ is_leap year }
{
    year % 4 == 0 && (year % 100 != 0 || year % 400 == 0)
}

fn is_full_time(days: LeapDays, text: &[u8]) -> bool
    ensures { result ≡ is_time_on days.before days.this text.now }
{
    if text.len() < 8 {
        return false;
    }
    let (clock, rest) = text.split_at(8);
    match ahead(after_fraction(rest)) {
        Some(ahead) => has_form(b"00:00:00", clock) && is_clock(days, clock, ahead),
        None => false,
    }
}

/// Whether there is such a time of a day, by the minutes that UTC is ahead, and a day.
fn is_clock(days: LeapDays, clock: &[u8], ahead: u32) -> bool
    requires long { length clock.now ≡ 8 }
    requires ahead { ahead < 2880 }
    ensures { result ≡ ((nat_le (two 0 clock.now) 23 && nat_le (two 3 clock.now) 59)
        && is_second days.before days.this (two 6 clock.now)
        (60 * two 0 clock.now + two 3 clock.now + ahead)) }
{
    let (hour, minute, second) = (two(clock, 0), two(clock, 3), two(clock, 6));
    hour <= 23 && minute <= 59 && is_second(days, second, 60 * hour + minute + ahead)
}

/// What follows the point and the digits of a fraction, if the text begins with one.
fn after_fraction(text: &[u8]) -> &[u8]
    ensures { result.now ≡ after_fraction text.now }
{
    match text {
        [b'.', rest @ ..] if begins_with_digit(rest) => cut(rest, End::Digits).1,
        _ => text,
    }
}

fn begins_with_digit(text: &[u8]) -> bool
    ensures { result ≡ begins is_ascii_digit text.now }
{
    match text.first() {
        Some(c) => c.is_ascii_digit(),
        None => false,
    }
}

/// The minutes that UTC is ahead of a time with the offset, and a day.
fn ahead(offset: &[u8]) -> Option<u32>
    ensures value { result ≡ ahead offset.now }
    ensures small { IfSome result (λ m. m < 2880) }
{
    let (sign, rest) = offset.split_first()?;
    match *sign {
        b'+' => Some(1440 - minutes(rest)?),
        b'-' => Some(1440 + minutes(rest)?),
        b'Z' | b'z' if rest.is_empty() => Some(1440),
        _ => None,
    }
}

fn minutes(offset: &[u8]) -> Option<u32>
    ensures value { result ≡ minutes offset.now }
    ensures small { IfSome result (λ m. m < 1440) }
{
    if !has_form(b"00:00", offset) {
        return None;
    }
    let (hour, minute) = (two(offset, 0), two(offset, 3));
    if hour <= 23 && minute <= 59 {
        return Some(60 * hour + minute);
    }
    None
}

/// Whether there is such a second in the minute of UTC, counted from the beginning of the day before.
fn is_second(days: LeapDays, second: u32, minute: u32) -> bool
    ensures { result ≡ is_second days.before days.this second minute }
{
    second <= 59
        || (second == 60 && ((minute == 1439 && days.before) || (minute == 2879 && days.this)))
}
