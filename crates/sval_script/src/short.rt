//! Short runs of bytes.

ghost use Rattle.std.specs.Prelude.{◌≡◌, ◌↔◌, ◌+◌, ◌≤◌, length, take, IsTrue, bytes_eq};
ghost use Rattle.std.specs.Int.{bit_at};
ghost use Rattle.memchr.specs.Find.{IsFirst, IsFirstByte, is_byte, is_byte2};
ghost use Rattle.sval_script.specs.Runs.{MarksFirst, SameFrom};

use memchr::{memchr, memchr2};
use std::simd::prelude::*;

/// The first space or line feed, which is mostly near.
#[inline(always)]
pub(crate) fn field_end(bytes: &[u8]) -> Option<usize>
    ensures { IsFirstByte (is_byte2 32 10) bytes.now result }
{
    if bytes.len() < 16 {
        return memchr2(b' ', b'\n', bytes);
    }
    if let Some(end) = lowest(near_ends(bytes)) {
        return Some(end);
    }
    let end = far_end(&bytes[16..])?;
    Some(16 + end)
}

/// The first space or line feed behind the first bytes of a field.
#[inline(always)]
fn far_end(bytes: &[u8]) -> Option<usize>
    ensures { IsFirstByte (is_byte2 32 10) bytes.now result }
{
    if bytes.len() < 16 {
        return memchr2(b' ', b'\n', bytes);
    }
    if let Some(end) = lowest(near_ends(bytes)) {
        return Some(end);
    }
    let end = memchr2(b' ', b'\n', &bytes[16..])?;
    Some(16 + end)
}

/// Whether none of the first 16 bytes is a space or a line feed.
#[inline(always)]
pub(crate) fn is_end_far(bytes: &[u8]) -> bool {
    bytes.len() >= 16 && near_ends(bytes) == 0
}

/// The first `:`.
pub(crate) fn colon(bytes: &[u8]) -> Option<usize>
    ensures { IsFirstByte (is_byte 58) bytes.now result }
{
    if bytes.len() < 16 {
        return memchr(b':', bytes);
    }
    if let Some(place) = lowest(near_colons(bytes)) {
        return Some(place);
    }
    let place = memchr(b':', &bytes[16..])?;
    Some(16 + place)
}

/// Which of the first 16 bytes are spaces or line feeds.
#[inline(always)]
fn near_ends(bytes: &[u8]) -> u64
    requires { 16 ≤ length bytes.now }
    ensures { MarksFirst (is_byte2 32 10) bytes.now 16 result }
{
    let near = u8x16::from_slice(bytes);
    (near.simd_eq(u8x16::splat(b' ')) | near.simd_eq(u8x16::splat(b'\n'))).to_bitmask()
}

/// Which of the first 16 bytes are colons.
#[inline(always)]
fn near_colons(bytes: &[u8]) -> u64
    requires { 16 ≤ length bytes.now }
    ensures { MarksFirst (is_byte 58) bytes.now 16 result }
{
    u8x16::from_slice(bytes)
        .simd_eq(u8x16::splat(b':'))
        .to_bitmask()
}

/// The lowest bit that is set.
#[inline(always)]
fn lowest(mask: u64) -> Option<usize>
    ensures { IsFirst (λ k. bit_at mask k ≡ 1) 0 64 result }
{
    if mask == 0 {
        None
    } else {
        Some(mask.trailing_zeros() as usize)
    }
}

/// Whether two runs are the same.
#[inline(always)]
pub(crate) fn same(a: &[u8], b: &[u8]) -> bool
    ensures { result ≡ bytes_eq a.now b.now }
{
    if a.len() != b.len() {
        return false;
    }
    match a.len() {
        0..=3 => same_by_one(a, b),
        4..=7 => same_four(a, b, 0) && same_four(a, b, a.len() - 4),
        8..=15 => same_eight(a, b, 0) && same_eight(a, b, a.len() - 8),
        16..=32 => same_sixteen(a, b, 0) && same_sixteen(a, b, a.len() - 16),
        _ => a == b,
    }
}

/// Whether a run begins with these at most 80 bytes.
#[inline(always)]
pub(crate) fn begins_with(run: &[u8], front: &[u8]) -> bool
    requires { length front.now ≤ 80 }
    ensures { IsTrue result → take (length front.now) run.now ≡ front.now }
{
    if run.len() < front.len() {
        return false;
    }
    let run = &run[..front.len()];
    if front.len() < 16 {
        same(front, run)
    } else {
        same_long(front, run)
    }
}

/// Whether two runs of one length are the same, of 16 to 80 bytes.
#[inline(always)]
fn same_long(a: &[u8], b: &[u8]) -> bool
    requires same_len { length a.now ≡ length b.now }
    requires long { 16 ≤ length a.now }
    requires short { length a.now ≤ 80 }
    ensures { IsTrue result → a.now ≡ b.now }
{
    let len = a.len();
    same_sixteen(a, b, 0)
        && (len <= 32 || same_sixteen(a, b, 16))
        && (len <= 48 || same_sixteen(a, b, 32))
        && (len <= 64 || same_sixteen(a, b, 48))
        && same_sixteen(a, b, len - 16)
}

/// Whether two runs of one length are the same.
#[inline(always)]
fn same_by_one(a: &[u8], b: &[u8]) -> bool
    requires { length a.now ≡ length b.now }
    ensures { IsTrue result ↔ SameFrom 0 (length a.now) a.now b.now }
{
    for i in 0..a.len() {
        if a[i] != b[i] {
            return false;
        }
    }
    true
}

/// Whether two runs have the same four bytes from a place on.
#[inline(always)]
fn same_four(a: &[u8], b: &[u8], from: usize) -> bool
    requires in_a { from + 4 ≤ length a.now }
    requires in_b { from + 4 ≤ length b.now }
    ensures { IsTrue result ↔ SameFrom from 4 a.now b.now }
{
    let four = u8x4::from_slice(&a[from..]);
    four.simd_ne(u8x4::from_slice(&b[from..])).to_bitmask() == 0
}

/// Whether two runs have the same eight bytes from a place on.
#[inline(always)]
fn same_eight(a: &[u8], b: &[u8], from: usize) -> bool
    requires in_a { from + 8 ≤ length a.now }
    requires in_b { from + 8 ≤ length b.now }
    ensures { IsTrue result ↔ SameFrom from 8 a.now b.now }
{
    let eight = u8x8::from_slice(&a[from..]);
    eight.simd_ne(u8x8::from_slice(&b[from..])).to_bitmask() == 0
}

/// Whether two runs have the same sixteen bytes from a place on.
#[inline(always)]
fn same_sixteen(a: &[u8], b: &[u8], from: usize) -> bool
    requires in_a { from + 16 ≤ length a.now }
    requires in_b { from + 16 ≤ length b.now }
    ensures { IsTrue result ↔ SameFrom from 16 a.now b.now }
{
    let sixteen = u8x16::from_slice(&a[from..]);
    sixteen.simd_ne(u8x16::from_slice(&b[from..])).to_bitmask() == 0
}
