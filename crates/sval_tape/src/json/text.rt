//! Texts, and numbers in texts.

ghost use Rattle.std.specs.Prelude.{◌≡◌, ◌++◌, ◌∷◌, true, length, Ok, Some, IfSome};
ghost use Rattle.sval_core.specs.Spells.{IsSize};
ghost use Rattle.sval_json.specs.Digits.{after_digits};
ghost use Rattle.sval_json.specs.Number.{normal};
ghost use Rattle.sval_tape.specs.JsonAtFront.{FragmentAt, FragmentsAt, IsFraction, NumberAt, ValueAt};

use crate::json::is_size;
use crate::json::names::behind;
use crate::json::pieces::{put, put_escaped};
use crate::reading::{read_size, read_text};
use sval_io::VecSink;

/// The text of a fragment, and what follows it.
#[inline(always)]
fn fragment<'t>(bytes: &'t [u8]) -> Option<(&'t str, &'t [u8])>
    ensures { IfSome result (λ x. FragmentAt bytes.now x.0.now x.1.now) }
{
    match behind(13, bytes) {
        Some(operand) => read_text(operand),
        None => read_text(behind(14, bytes)?),
    }
}

/// The fragments of a text up to its end, and the number of their bytes. What is given follows the end.
#[inline(always)]
fn fragments<'t>(bytes: &'t [u8], out: &mut VecSink) -> Option<(&'t [u8], usize)>
    ensures { IfSome result (λ x. FragmentsAt bytes.now (15 ∷ x.0.now) out.old.bytes out.new.bytes x.1) }
{
    let mut rest = bytes;
    let mut size = 0_usize;
    for _ in 0..bytes.len() {
        if let Some(ended) = behind(15, rest) {
            return Some((ended, size));
        }
        let (text, following) = fragment(rest)?;
        put_escaped(out, text.as_bytes())?;
        size = size.checked_add(text.len())?;
        rest = following;
    }
    None
}

/// A text.
pub(super) fn text<'t>(bytes: &'t [u8], out: &mut VecSink) -> Option<&'t [u8]>
    ensures { IfSome result (λ rest. ValueAt (12 ∷ bytes.now) rest.now out.old.bytes out.new.bytes) }
{
    let (given, inner) = read_size(bytes)?;
    put(out, b"\"")?;
    let (rest, size) = fragments(inner, out)?;
    if !is_size(given, size) {
        return None;
    }
    put(out, b"\"")?;
    Some(rest)
}

/// What follows the digits at the front of bytes.
#[inline(always)]
fn behind_digits(bytes: &[u8]) -> &[u8]
    ensures { result.now ≡ after_digits bytes.now }
{
    let mut rest = bytes;
    'digits: while let Some((first, behind)) = rest.split_first() {
        if !first.is_ascii_digit() {
            return rest;
        }
        rest = behind;
    }
    rest
}

/// Whether bytes are a number without a sign: digits without a zero in front, a point, and digits.
fn is_fraction(bytes: &[u8]) -> bool
    ensures { result ≡ true → IsFraction bytes.now }
{
    let Some((first, rest)) = bytes.split_first() else {
        return false;
    };
    let tail = behind_digits(rest);
    let Some(digits) = behind(b'.', tail) else {
        return false;
    };
    let Some((next, last)) = digits.split_first() else {
        return false;
    };
    first.is_ascii_digit()
        && (*first != b'0' || tail.len() == rest.len())
        && next.is_ascii_digit()
        && behind_digits(last).is_empty()
}

/// Whether a text is a number with a fraction, and in its normal form.
fn is_normal(text: &[u8]) -> bool
    ensures { result ≡ true → normal text.now ≡ Ok text.now }
{
    match behind(b'-', text) {
        Some(unsigned) => is_fraction(unsigned),
        None => is_fraction(text),
    }
}

/// A number in its normal form, as the text that a tag says to be one.
pub(super) fn number<'t>(bytes: &'t [u8], out: &mut VecSink) -> Option<&'t [u8]>
    ensures { IfSome result (λ rest. NumberAt bytes.now rest.now out.old.bytes out.new.bytes) }
{
    let (given, inner) = read_size(behind(12, bytes)?)?;
    let (text, following) = fragment(inner)?;
    if !is_size(given, text.len()) || !is_normal(text.as_bytes()) {
        return None;
    }
    put(out, text.as_bytes())?;
    behind(15, following)
}
