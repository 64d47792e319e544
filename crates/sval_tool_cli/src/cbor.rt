//! Conversions from CBOR.

use crate::trouble::{Trouble, Unwritten, of_item, of_left_over};
use crate::values::write_asked;
use crate::words::{Options, Output};
use std::alloc::Global;
use sval_cbor_read::{CborDoc, CborReadError, json_front_at_once};
use sval_io::{Sink, write_all};

/// What is said of bytes that are not well-formed.
const MALFORMED: &'static str = "no CBOR that is read goes on with these bytes";

/// What is said where the bytes end within an item.
const CUT: &'static str = "cut short: the bytes end before the item does";

/// What is said of a well-formed item that isn't read.
const UNSUPPORTED: &'static str =
    "well-formed CBOR that isn't read: a float, a simple value, invalid UTF-8, \
    or a bignum that is invalid or too large";

/// The trouble with an item that isn't read. The item begins at this offset of the bytes.
fn unread(alloc: Global, name: &str, bytes: &[u8], from: usize, error: CborReadError) -> Trouble {
    let from = from as u64;
    match error {
        CborReadError::Malformed { at } => {
            let at = at.saturating_add(from);
            let said = if at < bytes.len() as u64 {
                MALFORMED
            } else {
                CUT
            };
            of_item(alloc, name, bytes, at, said)
        }
        CborReadError::Unsupported { at } => {
            of_item(alloc, name, bytes, at.saturating_add(from), UNSUPPORTED)
        }
        CborReadError::NoMemory => Trouble::NoMemory,
    }
}

/// Whether an item is written as it is, as JSON that isn't laid out.
fn is_plain(options: &Options) -> bool {
    options.rule.is_none()
        && options.pointer.is_none()
        && matches!(options.to, None | Some(Output::Json))
}

/// The JSON of the first item of bytes, and how many bytes it takes, where it is written as it is and is of the
/// commonest kinds.
fn at_once(alloc: Global, options: &Options, bytes: &[u8]) -> Option<(Vec<u8>, usize)> {
    if !is_plain(options) {
        return None;
    }
    json_front_at_once(alloc, bytes)
}

/// Writes JSON, and ends its line.
fn write_line<K: Sink>(json: &[u8], out: &mut K) -> Result<(), Unwritten> {
    write_all(out, json)?;
    Ok(write_all(out, b"\n".as_slice())?)
}

/// Writes what is due of an item.
fn write_item<K: Sink>(
    alloc: Global,
    options: &Options,
    doc: &CborDoc<'_>,
    out: &mut K,
) -> Result<(), Unwritten> {
    if !is_plain(options) {
        return write_asked(alloc, options, doc, out);
    }
    match doc.write_json(out) {
        Ok(()) => Ok(write_all(out, b"\n".as_slice())?),
        Err(error) => Err(Unwritten::from(error.kind())),
    }
}

/// Reads the items of a sequence (RFC 8742), and writes what is due of each.
pub(crate) fn convert_items<K: Sink>(
    alloc: Global,
    options: &Options,
    name: &str,
    bytes: &[u8],
    out: &mut K,
) -> Result<(), Trouble> {
    let mut from: usize = 0;
    for number in 1..u64::MAX {
        let rest = bytes.get(from..).unwrap_or_default();
        if rest.is_empty() {
            return Ok(());
        }
        let written = match at_once(alloc, options, rest) {
            Some((json, used)) => write_line(json.as_slice(), out).map(|()| used),
            None => match CborDoc::read_front(alloc, rest) {
                Ok((doc, used)) => write_item(alloc, options, &doc, out).map(|()| used),
                Err(error) => return Err(unread(alloc, name, bytes, from, error)),
            },
        };
        let used = written.map_err(|why| why.of(alloc, name, Some(number)))?;
        from = from.saturating_add(used);
    }
    Ok(())
}

/// Reads the one item of the bytes.
fn read_one<'a>(alloc: Global, name: &str, bytes: &'a [u8]) -> Result<CborDoc<'a>, Trouble> {
    match CborDoc::read_front(alloc, bytes) {
        Ok((doc, used)) => if used < bytes.len() {
            Err(of_left_over(alloc, name, bytes, used as u64))
        } else {
            Ok(doc)
        },
        Err(error) => Err(unread(alloc, name, bytes, 0, error)),
    }
}

/// Reads one item, and writes what is due of it.
pub(crate) fn convert_item<K: Sink>(
    alloc: Global,
    options: &Options,
    name: &str,
    bytes: &[u8],
    out: &mut K,
) -> Result<(), Trouble> {
    let written = match at_once(alloc, options, bytes) {
        Some((json, used)) if used == bytes.len() => write_line(json.as_slice(), out),
        _ => match read_one(alloc, name, bytes) {
            Ok(doc) => write_item(alloc, options, &doc, out),
            Err(trouble) => return Err(trouble),
        },
    };
    written.map_err(|why| why.of(alloc, name, None))
}

/// Reads one item, or those of a sequence, and writes nothing.
pub(crate) fn check_items(
    alloc: Global,
    options: &Options,
    name: &str,
    bytes: &[u8],
) -> Result<(), Trouble> {
    if !options.lines {
        return match read_one(alloc, name, bytes) {
            Ok(_) => Ok(()),
            Err(trouble) => Err(trouble),
        };
    }
    let mut from: usize = 0;
    for _ in 0..bytes.len() {
        let rest = bytes.get(from..).unwrap_or_default();
        if rest.is_empty() {
            return Ok(());
        }
        match CborDoc::read_front(alloc, rest) {
            Ok((_doc, used)) => from = from.saturating_add(used),
            Err(error) => return Err(unread(alloc, name, bytes, from, error)),
        }
    }
    Ok(())
}
