//! Where bytes that aren't read fail, as it is found by trying bytes. What reading says of a place isn't asked for that.

use crate::cases::Case;
use crate::cbor::items::bytes_of;
use crate::shown::{holds, must};
use std::alloc::Global;
use std::process::Abort;
use sval_cbor_read::{CborDoc, CborReadError};

/// Bytes in hex that aren't read, and behind `error` why, if the place that this tells is the one that is found.
pub(crate) struct BadBytes;

impl Case for BadBytes {
    fn seen(rt: &impl Abort, alloc: Global, input: &str, _due: &str) -> String {
        let bytes = bytes_of(rt, alloc, input);
        let error = must_fail(rt, alloc, &bytes);
        let place = last_place(rt, alloc, &bytes) as u64;
        holds(rt, place_of(error) == Some(place), input);
        must(rt, format!(in alloc; "error {error:?}"))
    }
}

/// Why bytes aren't read. The test ends where they are.
fn must_fail(rt: &impl Abort, alloc: Global, bytes: &[u8]) -> CborReadError {
    CborDoc::read(alloc, bytes)
        .err()
        .expect(rt, "bytes that are read")
}

/// The place that an error tells.
fn place_of(error: CborReadError) -> Option<u64> {
    match error {
        CborReadError::Malformed { at } | CborReadError::Unsupported { at } => Some(at),
        CborReadError::NoMemory => None,
    }
}

/// The last place in the longest front of the bytes that goes on to an item at which a head, a chunk or a break may
/// begin, or the item has ended.
fn last_place(rt: &impl Abort, alloc: Global, bytes: &[u8]) -> usize {
    let mut place = 0;
    for at in 0..bytes.len() {
        let front = &bytes[..at + 1];
        if !goes_on(rt, alloc, front) {
            break;
        }
        if is_between(rt, alloc, front) {
            place = at + 1;
        }
    }
    place
}

/// Whether a head, a chunk or a break may come behind this front, or it is a whole item. No head begins with `1c`.
/// Within a head or a string that byte goes on, or else none of the empty strings `40` and `60` and the break `ff`.
fn is_between(rt: &impl Abort, alloc: Global, front: &[u8]) -> bool {
    if CborDoc::read(alloc, front).is_ok() {
        return true;
    }
    if goes_on_with(rt, alloc, front, 0x1c) {
        return false;
    }
    goes_on_with(rt, alloc, front, 0x40)
        || goes_on_with(rt, alloc, front, 0x60)
        || goes_on_with(rt, alloc, front, 0xff)
}

/// Whether some item begins with the front and then this byte.
fn goes_on_with(rt: &impl Abort, alloc: Global, front: &[u8], next: u8) -> bool {
    goes_on(rt, alloc, &joined(rt, alloc, front, &[next]))
}

/// Whether some item begins with this front: one that ends it with an empty string or none, and then with zeros and
/// breaks by turns.
fn goes_on(rt: &impl Abort, alloc: Global, front: &[u8]) -> bool {
    ends_with_zeros(rt, alloc, front)
        || ends_with_zeros(rt, alloc, &joined(rt, alloc, front, b"\x40"))
        || ends_with_zeros(rt, alloc, &joined(rt, alloc, front, b"\x60"))
}

/// Whether some item begins with these bytes and then has up to nine zeros, and ends with breaks, a zero and breaks.
fn ends_with_zeros(rt: &impl Abort, alloc: Global, bytes: &[u8]) -> bool {
    let zeros = [0; 9];
    for count in 0..10 {
        if ends_with_breaks(rt, alloc, &joined(rt, alloc, bytes, &zeros[..count])) {
            return true;
        }
    }
    false
}

/// Whether these bytes are an item with up to four breaks behind them, and a zero and up to two breaks behind those.
fn ends_with_breaks(rt: &impl Abort, alloc: Global, bytes: &[u8]) -> bool {
    let breaks = [0xff; 4];
    for count in 0..5 {
        if is_ended(rt, alloc, &joined(rt, alloc, bytes, &breaks[..count])) {
            return true;
        }
    }
    false
}

/// Whether these bytes are an item, or with a zero and up to two breaks behind them.
fn is_ended(rt: &impl Abort, alloc: Global, bytes: &[u8]) -> bool {
    let ends: [&[u8]; 4] = [b"", b"\0", b"\0\xff", b"\0\xff\xff"];
    for end in &ends {
        if CborDoc::read(alloc, &joined(rt, alloc, bytes, end)).is_ok() {
            return true;
        }
    }
    false
}

/// Two runs of bytes as one.
fn joined(rt: &impl Abort, alloc: Global, first: &[u8], second: &[u8]) -> Vec<u8> {
    must(rt, [first, second].concat(alloc))
}
