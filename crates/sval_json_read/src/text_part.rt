//! Parts of a text, by the places where they begin and end.

ghost use Rattle.std.specs.Prelude.{◌≡◌, ◌<◌, ◌≤◌, length, get_or, map, take, true};
ghost use Rattle.std.specs.List.{list_all};
ghost use Rattle.std.specs.Simd.Lanes.{mask_l};
ghost use Rattle.memchr.specs.Find.{is_byte};
ghost use Rattle.sval_json_read.specs.DueEscapes as due;
ghost use Rattle.sval_json_read.specs.DueEscapes.{HasDueEscapes};
ghost use Rattle.sval_json_read.specs.RawStrings.{is_no_backslash};
ghost use Rattle.sval_json_read.specs.TextParts.{IsReadyPart, IsStringIn};

use memchr::memchr;
use std::simd::prelude::*;

/// How many bytes are looked at for an escape, where a string is shorter.
const LOOK_AHEAD: usize = 1024;

/// How many bytes are looked at together.
const LANES: usize = 16;

/// The part of a text from one place up to another.
#[derive(Clone, Copy)]
pub(crate) struct TextPart {
    pub(crate) from: usize,
    pub(crate) to: usize,
}

impl TextPart {
    /// Whether the string from `from` up to `to` is in the part, and begins where the part does or behind a quote.
    #[inline(always)]
    pub(crate) fn has_string(self, bytes: &[u8], from: usize, to: usize) -> bool
        requires order { from ≤ to }
        requires within { to ≤ length bytes.now }
        ensures { result ≡ true → IsStringIn bytes.now self from to }
    {
        self.from <= from && to <= self.to && (from == self.from || bytes[from - 1] == b'"')
    }
}

/// Which of the first 16 bytes are backslashes: bit k tells it of byte k.
#[inline(always)]
fn backslashes_ahead(bytes: &[u8]) -> u64
    requires { 16 ≤ length bytes.now }
    ensures { result ≡ mask_l (map (is_byte 92) (take 16 bytes.now)) }
{
    u8x16::from_slice(bytes)
        .simd_eq(u8x16::splat(b'\\'))
        .to_bitmask()
}

/// How many bytes come before the first backslash.
///
/// Escapes often come close together, so the first 16 bytes are looked at within the caller.
#[inline(always)]
fn before_backslash(bytes: &[u8]) -> usize
    ensures within { result ≤ length bytes.now }
    ensures before { list_all is_no_backslash (take result bytes.now) ≡ true }
    ensures found { result < length bytes.now → is_byte 92 (get_or bytes.now result 0) ≡ true }
{
    if bytes.len() >= LANES {
        let backslashes = backslashes_ahead(bytes);
        if backslashes != 0 {
            return backslashes.trailing_zeros() as usize;
        }
    }
    match memchr(b'\\', bytes) {
        Some(place) => place,
        None => bytes.len(),
    }
}

/// Whether a backslash and this letter are an escape that is written again as it is.
#[inline(always)]
fn is_due_letter(letter: u8) -> bool
    ensures { result ≡ due.is_due_letter letter }
{
    match letter {
        b'"' | b'\\' | b'b' | b'f' | b'n' | b'r' | b't' => true,
        _ => false,
    }
}

/// Whether these digits end a long escape that is written again as it is: that of a byte that has no short one.
fn is_due_unit(high: u8, low: u8) -> bool
    ensures { result ≡ due.is_due_unit high low }
{
    match high {
        b'0' => match low {
            b'0'..=b'7' | b'b' | b'e' | b'f' => true,
            _ => false,
        },
        b'1' => match low {
            b'0'..=b'9' | b'a'..=b'f' => true,
            _ => false,
        },
        _ => false,
    }
}

/// Whether the first six bytes are a long escape that is written again as it is.
#[inline(always)]
fn has_due_unit(bytes: &[u8]) -> bool
    requires { get_or bytes.now 0 0 ≡ 92 }
    ensures within { result ≡ true → 6 ≤ length bytes.now }
    ensures due { result ≡ true → HasDueEscapes (take 6 bytes.now) }
{
    match bytes {
        [_, b'u', b'0', b'0', high, low, ..] => is_due_unit(*high, *low),
        _ => false,
    }
}

/// How many bytes the first escape has, if it is written again as it is, or 0.
#[inline(always)]
fn due_escape(bytes: &[u8]) -> usize
    requires { 0 < length bytes.now → get_or bytes.now 0 0 ≡ 92 }
    ensures within { result ≤ length bytes.now }
    ensures due { HasDueEscapes (take result bytes.now) }
{
    if bytes.len() < 2 {
        return 0;
    }
    if is_due_letter(bytes[1]) {
        return 2;
    }
    if has_due_unit(bytes) {
        return 6;
    }
    0
}

/// The part from a place on up to the first escape that is written in another way, or up to a place at `to` or behind it.
#[inline(never)]
pub(crate) fn ready_part(bytes: &[u8], from: usize, to: usize) -> TextPart
    requires order { from ≤ to }
    requires within { to ≤ length bytes.now }
    ensures ready { IsReadyPart bytes.now result }
    ensures begin { result.from ≡ from }
    ensures stop { result.to < to → get_or bytes.now result.to 0 ≡ 92 }
{
    let end = from.saturating_add(LOOK_AHEAD).max(to).min(bytes.len());
    let mut at = from;
    loop {
        let escape = at + before_backslash(&bytes[at..end]);
        let length = due_escape(&bytes[escape..end]);
        if length == 0 {
            return TextPart { from, to: escape };
        }
        at = escape + length;
    }
}
