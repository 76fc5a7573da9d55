//! Characters from UTF-16 units.
ghost use Rattle.std.specs.Prelude.{◌≡◌, ◌++◌, ◌∷◌, [], IfOk, true};
ghost use Rattle.tinyjson_grammar.specs.Characters.{text};
ghost use Rattle.tinyjson_grammar.specs.Characters.{is_high, is_low, pair_of, paired, decode};

use std::alloc::AllocError;

/// Whether a UTF-16 unit is the first of a surrogate pair.
pub fn is_high(unit: u16) -> bool
    ensures { result ≡ is_high unit }
{
    unit >= 0xd800 && unit < 0xdc00
}

/// Whether a UTF-16 unit is the second of a surrogate pair.
pub fn is_low(unit: u16) -> bool
    ensures { result ≡ is_low unit }
{
    unit >= 0xdc00 && unit < 0xe000
}

/// The character that a pair of surrogates stands for.
pub fn pair(high: u16, low: u16) -> char
    requires high { is_high high ≡ true }
    requires low { is_low low ≡ true }
    ensures { result ≡ pair_of high low }
{
    char::from_u32(0x10000 + (high as u32 - 0xd800) * 1024 + (low as u32 - 0xdc00)).unwrap()
}

/// Appends a character, unless memory runs out.
pub fn push(string: &mut String, c: char) -> Result<(), AllocError>
    ensures { IfOk result (λ _. text string.new ≡ text string.old ++ c ∷ []) }
{
    string.push(c)
}

/// Appends the characters that units spell; `false` where a surrogate has no partner.
pub fn decode(units: &[u16], string: &mut String) -> Result<bool, AllocError>
    ensures whole { IfOk result (λ whole. whole ≡ paired units.now) }
    ensures text { IfOk result (λ whole. whole ≡ true →
        text string.new ≡ text string.old ++ decode units.now) }
{
    let mut high: Option<u16> = None;
    for unit in units {
        match high {
            Some(first) => {
                if !is_low(*unit) {
                    return Ok(false);
                }
                push(string, pair(first, *unit))?;
                high = None;
            }
            None if is_high(*unit) => high = Some(*unit),
            None => {
                let Some(c) = char::from_u32(*unit as u32) else {
                    return Ok(false);
                };
                push(string, c)?;
            }
        }
    }
    Ok(high.is_none())
}
