//! Bytes that are looked at together, to pass over digits, white space and the plain bytes of a string.

ghost use Rattle.std.specs.Prelude.{◌≡◌, ◌≤◌, length, map, not, take};
ghost use Rattle.std.specs.Char.{is_ascii_digit};
ghost use Rattle.std.specs.Simd.Lanes.{mask_l};
ghost use Rattle.sval_json.specs.Escape.{is_plain};
ghost use Rattle.sval_json.specs.Grammar.{is_space};

use std::simd::prelude::*;

/// How many bytes are looked at together.
pub(super) const LANES: usize = 16;

/// Which of the first 16 bytes are no digits: bit k tells it of byte k.
#[inline(always)]
pub(super) fn others_than_digits(bytes: &[u8]) -> u64
    requires { 16 ≤ length bytes.now }
    ensures { result ≡ mask_l (map (λ byte. not (is_ascii_digit byte)) (take 16 bytes.now)) }
{
    let ahead = u8x16::from_slice(bytes);
    let below = ahead.simd_lt(u8x16::splat(b'0'));
    let above = ahead.simd_gt(u8x16::splat(b'9'));
    (below | above).to_bitmask()
}

/// Which of the first 16 bytes are no white space: bit k tells it of byte k.
#[inline(always)]
pub(super) fn others_than_spaces(bytes: &[u8]) -> u64
    requires { 16 ≤ length bytes.now }
    ensures { result ≡ mask_l (map (λ byte. not (is_space byte)) (take 16 bytes.now)) }
{
    let ahead = u8x16::from_slice(bytes);
    let no_blank = ahead.simd_ne(u8x16::splat(b' ')) & ahead.simd_ne(u8x16::splat(b'\t'));
    let no_break = ahead.simd_ne(u8x16::splat(b'\n')) & ahead.simd_ne(u8x16::splat(b'\r'));
    (no_blank & no_break).to_bitmask()
}

/// Which of the first 16 bytes are escaped between quotes: bit k tells it of byte k.
#[inline(always)]
pub(super) fn others_than_plain(bytes: &[u8]) -> u64
    requires { 16 ≤ length bytes.now }
    ensures { result ≡ mask_l (map (λ byte. not (is_plain byte)) (take 16 bytes.now)) }
{
    let ahead = u8x16::from_slice(bytes);
    let low = ahead.simd_lt(u8x16::splat(b' '));
    let quotes = ahead.simd_eq(u8x16::splat(b'"'));
    let backslashes = ahead.simd_eq(u8x16::splat(b'\\'));
    (low | quotes | backslashes).to_bitmask()
}
