//! Whether bytes are a text.

ghost use Rattle.std.specs.Prelude.{◌≡◌, true, ◌<◌, ◌≤◌, take, length};
ghost use Rattle.std.specs.Bool.{MatchBool};
ghost use Rattle.std.specs.Str.{IsAscii, IsUtf8};

use std::simd::prelude::*;

/// Whether the first N bytes are ASCII, looked at together.
#[inline(always)]
fn is_ascii_ahead<const N: usize>(bytes: &[u8]) -> bool
    requires long { N ≤ length bytes.now }
    requires few { N ≤ 64 }
    ensures { result ≡ true → IsAscii (take N bytes.now) }
{
    let high = Simd::<u8, N>::from_slice(bytes).simd_ge(Simd::splat(128));
    high.to_bitmask() == 0
}

/// Whether all bytes are ASCII, looked at N at a time. The last of them may be looked at twice.
#[inline(always)]
fn are_ascii_by_lanes<const N: usize>(bytes: &[u8]) -> bool
    requires long { N ≤ length bytes.now }
    requires some { 0 < N }
    requires few { N ≤ 64 }
    ensures { result ≡ true → IsAscii bytes.now }
{
    let last = bytes.len() - N;
    let mut start = 0;
    while start < last {
        if !is_ascii_ahead::<N>(&bytes[start..]) {
            return false;
        }
        start += N;
    }
    is_ascii_ahead::<N>(&bytes[last..])
}

/// Whether all bytes are ASCII, looked at one by one.
#[inline(always)]
fn are_ascii_each(bytes: &[u8]) -> bool
    ensures { result ≡ true → IsAscii bytes.now }
{
    for byte in bytes {
        if *byte >= 128 {
            return false;
        }
    }
    true
}

/// Whether all bytes are ASCII.
#[inline(always)]
fn are_ascii(bytes: &[u8]) -> bool
    ensures { result ≡ true → IsAscii bytes.now }
{
    match bytes.len() {
        0..=3 => are_ascii_each(bytes),
        4..=7 => are_ascii_by_lanes::<4>(bytes),
        8..=15 => are_ascii_by_lanes::<8>(bytes),
        _ => are_ascii_by_lanes::<16>(bytes),
    }
}

/// Whether bytes are UTF-8 (RFC 3629). It takes no memory, and is quick for short bytes that are all ASCII, as most
/// texts of data are.
///
/// ```
/// assert!(rt; is_text("\u{e4}".as_bytes()));
/// assert!(rt; !is_text(b"a\xe4".as_slice()));
/// ```
#[inline(always)]
pub fn is_text(bytes: &[u8]) -> bool
    ensures { MatchBool result (IsUtf8 bytes.now) (¬ (IsUtf8 bytes.now)) }
{
    if bytes.len() < 64 && are_ascii(bytes) {
        return true;
    }
    is_utf8(bytes)
}

/// Bytes are UTF-8.
#[inline(never)]
fn is_utf8(bytes: &[u8]) -> bool
    ensures { MatchBool result (IsUtf8 bytes.now) (¬ (IsUtf8 bytes.now)) }
{
    simdutf8::basic::from_utf8(bytes).is_ok()
}
