//! Errors of each format.

use crate::report::expected::{Expected, is_unknown, push_expected};
use crate::report::found::{Found, begins_value, push_found, push_hex};
use crate::report::place::Place;
use std::alloc::AllocError;

/// Adds the error of bytes that are no JSON from this place on, and what was expected there, if that is known.
///
/// ```
/// let mut out = String::new(alloc);
/// push_bad_json(&mut out, &Place::in_document("log.json", b"[1 x]", 3), Expected::CommaOrBracket)?;
/// assert_eq!(rt; out.as_str(), "sval: log.json:1:4: expected `,` or `]`, found `x`\n  [1 x]\n     ^\n");
/// ```
pub(crate) fn push_bad_json(
    out: &mut String,
    place: &Place<'_>,
    expected: Expected,
) -> Result<(), AllocError> {
    place.push(out)?;
    push_wrong(out, expected, place.found())?;
    out.push_str("\n")?;
    place.push_line(out)?;
    if place.begins_line() && is_second_value(expected, place.found()) {
        out.push_str("hint: several values, one a line: give --lines\n")?;
    }
    Ok(())
}

/// Whether what was found in place of the end of a text may begin a value.
fn is_second_value(expected: Expected, found: Found) -> bool {
    matches!(expected, Expected::End) && begins_value(found)
}

/// Adds the error of a text of JSON that a byte order mark begins.
///
/// ```
/// let mut out = String::new(alloc);
/// push_byte_order_mark(&mut out, &Place::in_document("a.json", [0xef, 0xbb, 0xbf, 0x31].as_slice(), 0))?;
/// assert_eq!(rt; out.as_str(), "sval: a.json:1:1: a byte order mark (EF BB BF) begins the text; JSON has none\n");
/// ```
pub(crate) fn push_byte_order_mark(out: &mut String, place: &Place<'_>) -> Result<(), AllocError> {
    place.push(out)?;
    out.push_str("a byte order mark (EF BB BF) begins the text; JSON has none\n")
}

/// Adds what is wrong, and what was expected if that is known.
fn push_wrong(out: &mut String, expected: Expected, found: Found) -> Result<(), AllocError> {
    if is_unknown(expected) {
        out.push_str("unexpected ")?;
        return push_found(out, found);
    }
    out.push_str("expected ")?;
    push_expected(out, expected)?;
    out.push_str(", found ")?;
    push_found(out, found)
}

/// Adds the error of bytes that are no UTF-8 from this place on.
pub(crate) fn push_not_utf8(out: &mut String, place: &Place<'_>) -> Result<(), AllocError> {
    place.push(out)?;
    out.push_str("not UTF-8: ")?;
    push_found(out, place.found())?;
    out.push_str("\n")?;
    place.push_line(out)?;
    if place.begins_input() && begins_container(place.found()) {
        out.push_str("hint: this may be CBOR: give --from cbor\n")?;
    }
    Ok(())
}

/// Whether what was found may begin an array or a map of CBOR (RFC 8949, section 3.1), and no text.
fn begins_container(found: Found) -> bool {
    matches!(found, Found::Byte(0x80..=0xbf))
}

/// Adds a line with the first eight of these bytes, if there are any.
fn push_bytes(out: &mut String, bytes: &[u8]) -> Result<(), AllocError> {
    if bytes.is_empty() {
        return Ok(());
    }
    out.push_str(" ")?;
    for byte in bytes.iter().take(8) {
        out.push_str(" ")?;
        push_hex(out, *byte)?;
    }
    if bytes.len() > 8 {
        out.push_str(" ...")?;
    }
    out.push_str("\n")
}

/// Adds the error of bytes that are no item of CBOR: the offset, why, and eight bytes at most from there.
pub(crate) fn push_bad_cbor(
    out: &mut String,
    name: &str,
    bytes: &[u8],
    at: u64,
    said: &str,
) -> Result<(), AllocError> {
    out.push_str("sval: ")?;
    out.push_str(name)?;
    write!(out, ": byte {at}: {said}\n")?;
    let from = usize::try_from(at).unwrap_or(bytes.len());
    push_bytes(out, bytes.get(from..).unwrap_or_default())?;
    if matches!(bytes.first(), Some(b'{' | b'[')) {
        out.push_str("hint: this looks like JSON: leave --from cbor out\n")?;
    }
    Ok(())
}

/// Adds the error of bytes behind the one item of CBOR that is read.
pub(crate) fn push_left_over(
    out: &mut String,
    name: &str,
    bytes: &[u8],
    at: u64,
) -> Result<(), AllocError> {
    push_bad_cbor(
        out,
        name,
        bytes,
        at,
        "these bytes are left over behind the item",
    )?;
    out.push_str("hint: several items, one behind another: give --lines\n")
}
