//! How a text is written between quotes (RFC 8259, section 7).

ghost use Rattle.std.specs.Prelude.{◌≡◌, ℕ, ◌<◌, ◌≤◌, ◌++◌, true, codes, length, slice_index, take, map};
ghost use Rattle.std.specs.Char.{digit_char};
ghost use Rattle.std.specs.List.{AllPass};
ghost use Rattle.std.specs.Simd.Lanes.{mask_l};
ghost use Rattle.sval_io.specs.Sinks.{WritesAll};
ghost use Rattle.sval_json.specs.Escape.{escape, escaped, is_escaped, is_plain, low_byte, short_escape};

use std::simd::prelude::*;
use sval_io::{Sink, SinkError, write_all, write_in_place};

/// Whether a byte has to be escaped between quotes.
fn needs_escape(byte: u8) -> bool
    ensures { result ≡ is_escaped byte }
{
    byte < b' ' || byte == b'"' || byte == b'\\'
}

/// How many bytes come before the first that is escaped, looked at one by one.
fn plain_bytes(bytes: &[u8]) -> usize
    ensures within { result ≤ length bytes.now }
    ensures plain { AllPass is_plain (take result bytes.now) }
    ensures found { result < length bytes.now → is_escaped (slice_index bytes.now result) ≡ true }
{
    bytes
        .iter()
        .position(|byte| needs_escape(*byte))
        .unwrap_or(bytes.len())
}

/// Which of the first bytes are escaped: bit k tells it of byte k.
#[inline(always)]
fn escapes_ahead<const N: usize>(bytes: &[u8]) -> u64
    requires long { N ≤ length bytes.now }
    requires few { N ≤ 64 }
    ensures { result ≡ mask_l (map is_escaped (take N bytes.now)) }
{
    let ahead = Simd::<u8, N>::from_slice(bytes);
    let low = ahead.simd_lt(Simd::splat(b' '));
    let quotes = ahead.simd_eq(Simd::splat(b'"'));
    let backslashes = ahead.simd_eq(Simd::splat(b'\\'));
    (low | quotes | backslashes).to_bitmask()
}

/// How many of the first N bytes come before one that is escaped, looked at together.
#[inline(always)]
fn plain_ahead<const N: usize>(bytes: &[u8]) -> usize
    requires long { N ≤ length bytes.now }
    requires few { N ≤ 64 }
    ensures within { result ≤ N }
    ensures plain { AllPass is_plain (take result bytes.now) }
    ensures found { result < N → is_escaped (slice_index bytes.now result) ≡ true }
{
    let escapes = escapes_ahead::<N>(bytes);
    if escapes == 0 {
        return N;
    }
    escapes.trailing_zeros() as usize
}

/// How many of the first 32 bytes come before one to escape between quotes. All are looked at together, which is for
/// short texts with other bytes behind them.
///
/// ```
/// assert_eq!(rt; plain_front(b"a short text\x00 and what is behind it"), 12);
/// ```
#[inline(always)]
pub fn plain_front(bytes: &[u8]) -> usize
    requires { 32 ≤ length bytes.now }
    ensures within { result ≤ 32 }
    ensures plain { AllPass is_plain (take result bytes.now) }
    ensures found { result < 32 → is_escaped (slice_index bytes.now result) ≡ true }
{
    plain_ahead::<32>(bytes)
}

/// How many bytes come before the first that is escaped, looked at N at a time. The last of them may be looked at
/// twice.
#[inline(always)]
fn plain_by_lanes<const N: usize>(bytes: &[u8]) -> usize
    requires long { N ≤ length bytes.now }
    requires some { 0 < N }
    requires few { N ≤ 64 }
    ensures within { result ≤ length bytes.now }
    ensures plain { AllPass is_plain (take result bytes.now) }
    ensures found { result < length bytes.now → is_escaped (slice_index bytes.now result) ≡ true }
{
    let last = bytes.len() - N;
    let mut start = 0;
    while start < last {
        let run = plain_ahead::<N>(&bytes[start..]);
        if run < N {
            return start + run;
        }
        start += N;
    }
    last + plain_ahead::<N>(&bytes[last..])
}

/// The index of the first byte of a text to escape between quotes, or the length where there is none.
///
/// A quotation mark, a reverse solidus and a byte below 0x20 are escaped (RFC 8259, section 7). It takes no memory.
///
/// ```
/// assert_eq!(rt; first_escape(b"ab\"c"), 2);
/// assert_eq!(rt; first_escape(b"abc"), 3);
/// ```
pub fn first_escape(bytes: &[u8]) -> usize
    ensures within { result ≤ length bytes.now }
    ensures plain { AllPass is_plain (take result bytes.now) }
    ensures found { result < length bytes.now → is_escaped (slice_index bytes.now result) ≡ true }
{
    match bytes.len() {
        0..=3 => plain_bytes(bytes),
        4..=7 => plain_by_lanes::<4>(bytes),
        8..=15 => plain_by_lanes::<8>(bytes),
        16..=31 => plain_by_lanes::<16>(bytes),
        _ => plain_by_lanes::<32>(bytes),
    }
}

/// A hex digit in lower case.
fn hex_digit(digit: u8) -> u8
    requires { digit < 16 }
    ensures { result ≡ digit_char digit }
{
    if digit < 10 {
        b'0' + digit
    } else {
        b'a' - 10 + digit
    }
}

/// The letter of a byte's short escape, if it has one.
fn escape_letter(byte: u8) -> Option<u8>
    ensures { result ≡ short_escape byte }
{
    match byte {
        0x08 => Some(b'b'),
        b'\t' => Some(b't'),
        b'\n' => Some(b'n'),
        0x0c => Some(b'f'),
        b'\r' => Some(b'r'),
        b'"' => Some(b'"'),
        b'\\' => Some(b'\\'),
        _ => None,
    }
}

/// Writes the escape of a byte that has no short one.
#[inline(never)]
fn write_long_escape<K: Sink>(sink: &mut K, byte: u8) -> Result<(), SinkError>
    ensures { WritesAll result (K.told sink.old) (codes "\\u00" ++ low_byte byte) (K.told sink.new) }
{
    let high = hex_digit(byte / 16);
    let low = hex_digit(byte % 16);
    write_all(sink, &[b'\\', b'u', b'0', b'0', high, low])
}

/// Writes the escape of a byte that has one.
#[inline(always)]
fn write_escape<K: Sink>(sink: &mut K, byte: u8) -> Result<(), SinkError>
    requires { is_escaped byte ≡ true }
    ensures { WritesAll result (K.told sink.old) (escape byte) (K.told sink.new) }
{
    match escape_letter(byte) {
        Some(letter) => write_in_place(sink, &[b'\\', letter]),
        None => write_long_escape(sink, byte),
    }
}

/// Whether a text needs no escape between quotes.
pub(crate) fn is_all_plain(bytes: &[u8]) -> bool
    ensures { result ≡ true → escaped bytes.now ≡ bytes.now }
{
    first_escape(bytes) == bytes.len()
}

/// Writes a text with its escapes, as it comes between quotes (RFC 8259, section 7).
///
/// Each run without an escape is one piece, and so is each escape.
///
/// It is for whoever writes texts between quotes, as JSON does.
///
/// ```
/// write_escaped(&mut sink, b"a\"b")?;
/// assert_eq!(rt; sink.as_slice(), b"a\\\"b".as_slice());
/// ```
///
/// # Errors
///
/// [`SinkError::Failed`] comes only where the sink's count of faults rose, and never where the sink tells room for all
/// of that text. [`SinkError::NoMemory`] comes only where its count of wants rose. After either a first part of the
/// text was taken, and not all.
pub fn write_escaped<K: Sink>(sink: &mut K, bytes: &[u8]) -> Result<(), SinkError>
    ensures { WritesAll result (K.told sink.old) (escaped bytes.now) (K.told sink.new) }
{
    let run = first_escape(bytes);
    if run == bytes.len() {
        return write_all(sink, bytes);
    }
    write_runs(sink, bytes, run)
}

/// Writes a text with its escapes. `first` is the index of the first byte to escape, or the length where there is none.
#[inline(never)]
fn write_runs<K: Sink>(sink: &mut K, bytes: &[u8], first: usize) -> Result<(), SinkError>
    requires within { first ≤ length bytes.now }
    requires plain { AllPass is_plain (take first bytes.now) }
    requires found { first < length bytes.now → is_escaped (slice_index bytes.now first) ≡ true }
    ensures { WritesAll result (K.told sink.old) (escaped bytes.now) (K.told sink.new) }
{
    let mut rest = bytes;
    let mut run = first;
    while run < rest.len() {
        write_all(sink, &rest[..run])?;
        write_escape(sink, rest[run])?;
        rest = &rest[run + 1..];
        run = first_escape(rest);
    }
    write_all(sink, rest)
}
