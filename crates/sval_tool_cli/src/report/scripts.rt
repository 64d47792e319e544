//! Errors of scripts.

use crate::report::excerpt::push_shown;
use crate::report::place::utf8_front;
use std::alloc::AllocError;

/// A line of a script that is no call.
#[derive(Clone, Copy)]
struct BadLine<'a> {
    /// What it has before its line feed.
    text: &'a [u8],
    /// It has a line feed.
    ended: bool,
}

/// The line with this number, counted from 1.
fn line_at<'a>(bytes: &'a [u8], number: u64) -> BadLine<'a> {
    let skipped = usize::try_from(number.saturating_sub(1)).unwrap_or(usize::MAX);
    let mut lines = bytes.split(|byte| *byte == b'\n').skip(skipped);
    let text = lines.next().unwrap_or_default();
    BadLine {
        text,
        ended: lines.next().is_some(),
    }
}

/// Whether one of the fields is `=` with an odd number of digits behind it. A tag of a label isn't one of them.
fn has_odd_hex(text: &[u8]) -> bool {
    for field in text.split(|byte| *byte == b' ') {
        let label = field.split(|byte| *byte == b':').next().unwrap_or_default();
        if label.starts_with(b"=".as_slice()) && label.len() % 2 == 0 {
            return true;
        }
    }
    false
}

/// Whether a line begins as an object, an array or a string of JSON.
fn looks_like_json(text: &[u8]) -> bool {
    match text.first() {
        Some(first) => matches!(*first, b'{' | b'[' | b'"'),
        None => false,
    }
}

/// What to do about a bad line, if its cause is a common one.
fn remedy(line: &BadLine<'_>) -> Option<&'static str> {
    if looks_like_json(line.text) {
        return Some("this looks like JSON: give --from json");
    }
    if line.text.ends_with(b"\r".as_slice()) {
        return Some("lines end with CR LF here, and those of a script with a line feed alone");
    }
    if !line.ended {
        return Some("this line has no line feed at its end, and each line of a script has one");
    }
    if has_odd_hex(line.text) {
        return Some("behind `=` the number of hex digits is odd, and a byte has two");
    }
    if line.text.is_empty() {
        return Some("a script has no empty lines");
    }
    None
}

/// Adds what is wrong with a line of a script: its number, and below that the line.
fn push_wrong_line(
    out: &mut String,
    name: &str,
    line: &BadLine<'_>,
    number: u64,
    what: &str,
) -> Result<(), AllocError> {
    out.push_str("sval: ")?;
    out.push_str(name)?;
    write!(out, ":{number}: {what}\n  ")?;
    push_shown(out, utf8_front(line.text))?;
    out.push_str("\n")
}

/// Adds the error of a line of a script that is no call: its number, the line, and what to do where the cause is common.
///
/// ```
/// let mut out = String::new(alloc);
/// push_bad_line(&mut out, "a.script", b"text_fragment =616\n".as_slice(), 1)?;
/// ```
///
/// This adds `sval: a.script:1: not a call`, the line, and `hint: behind `=` the number of hex digits is odd, and a byte
/// has two`.
pub(crate) fn push_bad_line(
    out: &mut String,
    name: &str,
    bytes: &[u8],
    number: u64,
) -> Result<(), AllocError> {
    let line = line_at(bytes, number);
    push_wrong_line(out, name, &line, number, "not a call")?;
    if let Some(text) = remedy(&line) {
        out.push_str("hint: ")?;
        out.push_str(text)?;
        out.push_str("\n")?;
    }
    Ok(())
}

/// Adds the error of a line of a script with whose call no value goes on: its number and the line.
pub(crate) fn push_bad_call(
    out: &mut String,
    name: &str,
    bytes: &[u8],
    number: u64,
) -> Result<(), AllocError> {
    let line = line_at(bytes, number);
    push_wrong_line(out, name, &line, number, "no value goes on with this call")
}
