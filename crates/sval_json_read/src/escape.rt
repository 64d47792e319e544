//! Escapes of strings.

ghost use Rattle.std.specs.Prelude.{◌≡◌, ◌∷◌, ◌+◌, ◌≤◌, length, get_or, None, true, false};
ghost use Rattle.std.specs.Char.{encode_utf8, IsScalar};
ghost use Rattle.sval_json.specs.Grammar.{escaped_byte, is_high_surrogate};
ghost use Rattle.sval_json_read.specs.Calls.{escape_after};
ghost use Rattle.sval_json_read.specs.RawStrings.{IsRaw, unit_from};

use crate::string::hex_value;

/// What an escape stands for, and how many bytes follow its backslash.
pub(crate) struct Unescaped {
    pub(crate) character: char,
    pub(crate) follow: usize,
}

/// The byte that a short escape stands for.
fn short(letter: u8) -> Option<u8>
    ensures { result ≡ escaped_byte letter }
{
    match letter {
        b'"' | b'\\' | b'/' => Some(letter),
        b'b' => Some(8),
        b'f' => Some(12),
        b'n' => Some(10),
        b'r' => Some(13),
        b't' => Some(9),
        _ => None,
    }
}

/// The number of the four hex digits from this place on.
fn unit(raw: &[u8], from: usize) -> u32
    requires long { from + 4 ≤ length raw.now }
    ensures { result ≡ unit_from raw.now from }
{
    u32::from(hex_value(raw[from])) * 4096
        + u32::from(hex_value(raw[from + 1])) * 256
        + u32::from(hex_value(raw[from + 2])) * 16
        + u32::from(hex_value(raw[from + 3]))
}

/// The character of this number.
fn scalar(code: u32) -> char
    requires is_scalar { IsScalar code }
    ensures { result ≡ code }
{
    match char::from_u32(code) {
        Some(character) => character,
        None => unreachable!(),
    }
}

/// Whether a unit is a high surrogate.
fn is_high(unit: u32) -> bool
    ensures { result ≡ is_high_surrogate unit }
{
    0xd800 <= unit && unit <= 0xdbff
}

/// The escape of this unit, which is no surrogate.
#[tactic(auto, using(crate::proofs::EscapePlaces::one_unit))]
fn one_unit(raw: &[u8], code: u32) -> Unescaped
    requires is_raw { IsRaw (92 ∷ raw.now) }
    requires no_short { escaped_byte (get_or raw.now 0 0) ≡ None }
    requires code_is { code ≡ unit_from raw.now 1 }
    requires not_high { is_high_surrogate code ≡ false }
    ensures stands_for { encode_utf8 result.character ≡ (escape_after raw.now).stands_for }
    ensures follow { result.follow ≡ (escape_after raw.now).follow }
{
    Unescaped {
        character: scalar(code),
        follow: 5,
    }
}

/// The escape of this high surrogate, and the low one behind it.
#[tactic(auto, using(crate::proofs::EscapePlaces::two_units, crate::proofs::EscapePlaces::pair_long))]
fn two_units(raw: &[u8], high: u32) -> Unescaped
    requires is_raw { IsRaw (92 ∷ raw.now) }
    requires no_short { escaped_byte (get_or raw.now 0 0) ≡ None }
    requires high_is { high ≡ unit_from raw.now 1 }
    requires is_high { is_high_surrogate high ≡ true }
    ensures stands_for { encode_utf8 result.character ≡ (escape_after raw.now).stands_for }
    ensures follow { result.follow ≡ (escape_after raw.now).follow }
{
    let low = unit(raw, 7);
    Unescaped {
        character: scalar(0x10000 + (high - 0xd800) * 1024 + (low - 0xdc00)),
        follow: 11,
    }
}

/// The escape whose backslash these bytes follow.
pub(crate) fn unescape(raw: &[u8]) -> Unescaped
    requires is_raw { IsRaw (92 ∷ raw.now) }
    ensures stands_for { encode_utf8 result.character ≡ (escape_after raw.now).stands_for }
    ensures follow { result.follow ≡ (escape_after raw.now).follow }
{
    if let Some(byte) = short(raw[0]) {
        return Unescaped {
            character: byte as char,
            follow: 1,
        };
    }
    let code = unit(raw, 1);
    if is_high(code) {
        two_units(raw, code)
    } else {
        one_unit(raw, code)
    }
}
