//! A place in an input, and the line that it is in.

use crate::report::excerpt::push_excerpt;
use crate::report::expected::{Expected, expected_behind};
use crate::report::found::Found;
use std::alloc::{AllocError, Global};
use std::str::from_utf8;
use sval_io::line_and_column;

/// A place in an input, and the line that it is in.
#[derive(Drop)]
pub(crate) struct Place<'a> {
    /// The input's name.
    name: &'a str,
    /// The line's number, counted from 1.
    line: u64,
    /// The column in bytes, counted from 1.
    column: u64,
    /// What the line has before the place.
    before: &'a str,
    /// What the line has from the place on.
    behind: &'a str,
    /// What was found there.
    found: Found,
}

/// The longest front of bytes that is UTF-8.
pub(crate) fn utf8_front<'a>(bytes: &'a [u8]) -> &'a str {
    match from_utf8(bytes) {
        Ok(text) => text,
        Err(error) => {
            let front = bytes.get(..error.valid_up_to()).unwrap_or_default();
            from_utf8(front).unwrap_or("")
        }
    }
}

/// The bytes before a place, and those from it on.
fn parted<'a>(bytes: &'a [u8], at: u64) -> (&'a [u8], &'a [u8]) {
    let at = usize::try_from(at).unwrap_or(bytes.len());
    bytes.split_at(at.min(bytes.len()))
}

/// The bytes behind the last line feed.
fn last_line<'a>(bytes: &'a [u8]) -> &'a [u8] {
    bytes
        .rsplit(|byte| *byte == b'\n')
        .next()
        .unwrap_or_default()
}

/// The bytes before the first line feed.
fn first_line<'a>(bytes: &'a [u8]) -> &'a [u8] {
    bytes
        .split(|byte| *byte == b'\n')
        .next()
        .unwrap_or_default()
}

/// What bytes begin with.
fn found_first(bytes: &[u8]) -> Found {
    match utf8_front(bytes).chars().next() {
        Some(character) => Found::Character(character),
        None => match bytes.first() {
            Some(byte) => Found::Byte(*byte),
            None => Found::End,
        },
    }
}

/// What may follow the beginning of a text of JSON that ends at a place.
///
/// What is behind the longest front of UTF-8 before that place isn't looked at.
pub(crate) fn expected_at(alloc: Global, bytes: &[u8], at: u64) -> Expected {
    let (front, _) = parted(bytes, at);
    expected_behind(alloc, utf8_front(front))
}

impl<'a> Place<'a> {
    /// The place of a byte of these bytes, in a line of this number.
    fn of(name: &'a str, line: u64, column: u64, bytes: &'a [u8], at: u64) -> Self {
        let (front, back) = parted(bytes, at);
        Place {
            name,
            line,
            column,
            before: utf8_front(last_line(front)),
            behind: utf8_front(first_line(back)),
            found: found_first(back),
        }
    }

    /// The place of this byte in a document.
    pub(crate) fn in_document(name: &'a str, bytes: &'a [u8], at: u64) -> Self {
        let (line, column) = line_and_column(bytes, at);
        Place::of(name, line, column, bytes, at)
    }

    /// The place of this byte in a line, which has this number and is given without its line feed.
    pub(crate) fn in_line(name: &'a str, number: u64, bytes: &'a [u8], at: u64) -> Self {
        let (_, column) = line_and_column(bytes, at);
        Place::of(name, number, column, bytes, at)
    }

    /// What was found there.
    pub(crate) fn found(&self) -> Found {
        self.found
    }

    /// Whether the place is that of the first byte.
    pub(crate) fn begins_input(&self) -> bool {
        self.line == 1 && self.column == 1
    }

    /// Whether the place is in a second line or a later one, and only white space is before it there.
    pub(crate) fn begins_line(&self) -> bool {
        self.line > 1 && self.before.trim().is_empty()
    }

    /// Adds the program's name and the place.
    pub(crate) fn push(&self, out: &mut String) -> Result<(), AllocError> {
        let line = self.line;
        let column = self.column;
        out.push_str("sval: ")?;
        out.push_str(self.name)?;
        write!(out, ":{line}:{column}: ")
    }

    /// Adds the line and a caret under the place.
    pub(crate) fn push_line(&self, out: &mut String) -> Result<(), AllocError> {
        push_excerpt(out, self.before, self.behind)
    }
}
