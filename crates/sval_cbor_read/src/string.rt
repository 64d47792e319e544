//! Definite strings.

ghost use Rattle.std.specs.Prelude.{◌≡◌, ◌<◌, ◌≤◌, ◌+◌, List, ℕ, length, take, drop, IfSome, IsUtf8};
ghost use Rattle.std.specs.Str.{IsAscii};
ghost use Rattle.sval_cbor_read.specs.SeenStrings.{IsBehind, IsStringAt, HasNoString};

use crate::head::{Head, read_head};
use std::simd::prelude::*;
use std::str::from_utf8_unchecked;
use sval_script::is_text;

/// A string, and the place behind it.
#[derive(Clone, Copy)]
pub(crate) struct Piece<T> {
    pub(crate) content: T,
    pub(crate) next: usize,
}

/// The bytes behind a head, as many as its number says.
#[inline(always)]
pub(crate) fn binary_behind(bytes: &[u8], head: Head) -> Option<Piece<&[u8]>>
    requires { head.next ≤ length bytes.now }
    ensures found { IfSome result (λ piece. IsBehind bytes.now head piece.content.now piece.next) }
    ensures nothing { result ≡ None → length bytes.now < head.next + head.number }
{
    if head.number > (bytes.len() - head.next) as u64 {
        return None;
    }
    let next = head.next + head.number as usize;
    Some(Piece {
        content: &bytes[head.next..next],
        next,
    })
}

/// How many of the first 32 bytes come before one that isn't ASCII. All are looked at together.
#[inline(always)]
pub(crate) fn ascii_front(bytes: &[u8]) -> usize
    requires { 32 ≤ length bytes.now }
    ensures within { result ≤ 32 }
    ensures ascii { IsAscii (take result bytes.now) }
{
    let high = Simd::<u8, 32>::from_slice(bytes)
        .simd_ge(Simd::splat(128))
        .to_bitmask();
    if high == 0 {
        return 32;
    }
    high.trailing_zeros() as usize
}

/// The bytes as a text, where they are UTF-8.
#[inline(always)]
fn as_text(bytes: &[u8]) -> Option<&str>
    ensures found { IfSome result (λ text. (text.now ≡ bytes.now) × IsUtf8 bytes.now) }
    ensures nothing { result ≡ None → IsUtf8 bytes.now → ⊥ }
{
    if is_text(bytes) {
        Some(unsafe { from_utf8_unchecked(bytes) })
    } else {
        None
    }
}

/// The text behind a head, of as many bytes as its number says.
#[inline(always)]
pub(crate) fn text_behind(bytes: &[u8], head: Head) -> Option<Piece<&str>>
    requires { head.next ≤ length bytes.now }
    ensures found { IfSome result
        (λ piece. IsBehind bytes.now head piece.content.now piece.next × IsUtf8 piece.content.now) }
    ensures nothing { result ≡ None → head.next + head.number ≤ length bytes.now →
        IsUtf8 (take head.number (drop head.next bytes.now)) → ⊥ }
{
    match binary_behind(bytes, head) {
        None => None,
        Some(piece) => match as_text(piece.content) {
            None => None,
            Some(content) => Some(Piece {
                content,
                next: piece.next,
            }),
        },
    }
}

/// The byte string at a place.
pub(crate) fn binary_at(bytes: &[u8], at: usize) -> Option<Piece<&[u8]>>
    requires { at ≤ length bytes.now }
    ensures found { IfSome result (λ piece. IsStringAt 2 bytes.now at piece.content.now piece.next) }
    ensures nothing { result ≡ None → HasNoString 2 (drop at bytes.now) }
{
    match read_head(bytes, at) {
        None => None,
        Some(head) => if head.major == 2 {
            binary_behind(bytes, head)
        } else {
            None
        },
    }
}

/// The text at a place.
pub(crate) fn text_at(bytes: &[u8], at: usize) -> Option<Piece<&str>>
    requires { at ≤ length bytes.now }
    ensures found { IfSome result (λ piece. IsStringAt 3 bytes.now at piece.content.now piece.next) }
    ensures nothing { result ≡ None → HasNoString 3 (drop at bytes.now) }
{
    match read_head(bytes, at) {
        None => None,
        Some(head) => if head.major == 3 {
            text_behind(bytes, head)
        } else {
            None
        },
    }
}
