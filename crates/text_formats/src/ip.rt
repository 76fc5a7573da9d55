//! Addresses of the Internet Protocol.
ghost use Rattle.std.specs.Char.{is_ascii_digit};
ghost use Rattle.std.specs.Prelude.{◌≡◌, ◌+◌, ◌-◌, ◌*◌, ◌&&◌, ◌||◌, ◌==◌, not, true, length};
ghost use Rattle.text_formats.specs.Ip.{takes_zeros, is_octet, dotted, are_octets, is_quad, is_ipv4};
ghost use Rattle.text_formats.specs.Ip.{is_piece, after_colon, least, is_whole, is_last, are_pieces, is_address, is_ipv6};
ghost use Rattle.text_formats.specs.Letters.{begins, is_colon, is_empty};

use crate::form::digit;
use crate::letters::{End, Letters, are};
use text_uri::cut;

/// The rules of an address.
#[derive(Clone, Copy)]
pub(crate) enum Rules {
    /// RFC 3986, section 3.2.2.
    Uri,
    /// RFC 5321, section 4.1.3: numbers may have leading zeros, and `::` stands for two pieces or more.
    Mail,
}

impl Rules {
    fn takes_zeros(self) -> bool
        ensures { result ≡ takes_zeros self }
    {
        matches!(self, Rules::Mail)
    }

    /// How many pieces `::` stands for at least.
    fn least(self) -> u32
        ensures { result ≡ least self }
    {
        match self {
            Rules::Uri => 1,
            Rules::Mail => 2,
        }
    }
}

/// Whether the text is an address of IPv4: four numbers up to 255 between dots, without leading zeros (`IPv4address` of
/// RFC 3986, section 3.2.2). The `dotted-quad` of RFC 2673, which JSON Schema names, may have leading zeros; its official
/// tests reject them, as some programs read such numbers as octal.
///
/// ```
/// assert!(rt; is_ipv4("192.168.0.1"));
/// assert!(rt; !is_ipv4("192.168.0.256"));
/// assert!(rt; !is_ipv4("192.168.0.01"));
/// ```
pub fn is_ipv4(text: &str) -> bool
    ensures { result ≡ is_ipv4 text.now }
{
    is_quad(Rules::Uri, text.as_bytes())
}

pub(crate) fn is_quad(rules: Rules, text: &[u8]) -> bool
    ensures { result ≡ is_quad rules text.now }
{
    count(text) == 4 && are_octets(rules, text)
}

/// The number of parts between dots.
fn count(text: &[u8]) -> usize
    ensures { result ≡ length (dotted text.now) }
{
    text.split(|c| *c == b'.').count()
}

fn are_octets(rules: Rules, text: &[u8]) -> bool
    ensures { result ≡ are_octets rules text.now }
{
    text.split(|c| *c == b'.').all(|part| is_octet(rules, part))
}

fn is_octet(rules: Rules, part: &[u8]) -> bool
    ensures { result ≡ is_octet rules part.now }
{
    match part {
        [a] => a.is_ascii_digit(),
        [a, b] => a.is_ascii_digit() && b.is_ascii_digit() && may_begin(rules, *a),
        [a, b, c] => are_digits(*a, *b, *c) && may_begin(rules, *a) && number(*a, *b, *c) <= 255,
        _ => false,
    }
}

/// Whether the digit may begin a number that has more.
fn may_begin(rules: Rules, digit: u8) -> bool
    ensures { result ≡ (takes_zeros rules || not (digit == 48)) }
{
    rules.takes_zeros() || digit != b'0'
}

fn are_digits(a: u8, b: u8, c: u8) -> bool
    ensures { result ≡ (is_ascii_digit a && (is_ascii_digit b && is_ascii_digit c)) }
{
    a.is_ascii_digit() && b.is_ascii_digit() && c.is_ascii_digit()
}

/// The number that three digits write.
fn number(a: u8, b: u8, c: u8) -> u32
    ensures { result ≡ 100 * (a - 48) + (10 * (b - 48) + (c - 48)) }
{
    100 * digit(a) + (10 * digit(b) + digit(c))
}

/// Whether the text is an address of IPv6 (RFC 4291, section 2.2), without a zone.
///
/// ```
/// assert!(rt; is_ipv6("::ffff:192.168.0.1"));
/// assert!(rt; !is_ipv6("1::2::3"));
/// ```
pub fn is_ipv6(text: &str) -> bool
    ensures { result ≡ is_ipv6 text.now }
{
    is_address(Rules::Uri, text.as_bytes())
}

pub(crate) fn is_address(rules: Rules, text: &[u8]) -> bool
    ensures { result ≡ is_address rules text.now }
{
    match text.split_first() {
        None => false,
        Some((b':', rest)) => begins_with_colon(rest) && are_pieces(rules, 8, false, rest),
        Some(_) => are_pieces(rules, 8, false, text),
    }
}

fn begins_with_colon(text: &[u8]) -> bool
    ensures { result ≡ begins is_colon text.now }
{
    matches!(text, [b':', ..])
}

/// Whether the text is pieces of 16 bits, of which `left` may follow; `gap` if there was a `::`.
#[tactic(auto, using(crate::proofs::Pieces::opened))]
fn are_pieces(rules: Rules, left: u32, gap: bool, text: &[u8]) -> bool
    ensures { result ≡ are_pieces rules left gap text.now }
{
    if left == 0 {
        return false;
    }
    let (front, rest) = cut(text, End::Host);
    if rest.is_empty() {
        return is_last(rules, left - 1, gap, front);
    }
    let more = after_colon(rest);
    if front.is_empty() {
        return !gap
            && (ends_with_gap(rules, left - 1, more) || are_pieces(rules, left - 1, true, more));
    }
    is_piece(front) && are_pieces(rules, left - 1, gap, more)
}

/// What follows the colon at the front.
fn after_colon(text: &[u8]) -> &[u8]
    ensures { result.now ≡ after_colon text.now }
{
    match text {
        [_, rest @ ..] => rest,
        [] => text,
    }
}

/// Whether nothing follows `::`, and it stands for enough pieces, of which `left` beside one are missing.
fn ends_with_gap(rules: Rules, left: u32, rest: &[u8]) -> bool
    ensures { result ≡ (is_empty rest.now && is_whole rules true left) }
{
    rest.is_empty() && is_whole(rules, true, left)
}

/// Whether `left` pieces may be missing behind the last.
fn is_whole(rules: Rules, gap: bool, left: u32) -> bool
    ensures { result ≡ is_whole rules gap left }
{
    if gap {
        return rules.least().saturating_sub(1) <= left;
    }
    left == 0
}

/// Whether the piece may be the last, where `left` are missing behind it.
fn is_last(rules: Rules, left: u32, gap: bool, piece: &[u8]) -> bool
    ensures { result ≡ is_last rules left gap piece.now }
{
    (is_piece(piece) && is_whole(rules, gap, left))
        || (is_quad(rules, piece) && left >= 1 && is_whole(rules, gap, left - 1))
}

/// Whether it is one to four hexadecimal digits.
fn is_piece(text: &[u8]) -> bool
    ensures { result ≡ is_piece text.now }
{
    are(Letters::Hex, text) && (1..=4).contains(&text.len())
}
