//! Items of many levels.

use crate::cbor::items::bytes_of;
use crate::levels::nested;
use crate::shown::{holds, must};
use std::alloc::Global;
use std::process::Abort;
use sval_cbor::stream_to_cbor;
use sval_cbor_read::{CborDoc, CborReadError};
use sval_io::VecSink;
use sval_json::stream_to_string;

/// Reads levels in hex, as [`nested`] has them, and compares the JSON that is written of them with levels of JSON.
fn try_read(rt: &impl Abort, alloc: Global, levels: &str, json: &str) {
    let bytes = bytes_of(rt, alloc, &nested(rt, alloc, levels));
    let doc = must(rt, CborDoc::read(alloc, &bytes));
    let written = must(rt, stream_to_string(alloc, &doc));
    holds(rt, written == nested(rt, alloc, json), levels);
}

/// Reads levels behind a value that isn't read, and compares the error.
fn try_unread(rt: &impl Abort, alloc: Global, levels: &str, error: CborReadError) {
    let levels_in_hex = nested(rt, alloc, levels);
    let bytes = bytes_of(rt, alloc, &must(rt, ["82f7", &levels_in_hex].concat(alloc)));
    holds(
        rt,
        CborDoc::read(alloc, &bytes).err() == Some(error),
        levels,
    );
}

/// Reads levels that a break ends, and compares what is written of them with their bytes.
fn try_again(rt: &impl Abort, alloc: Global, levels: &str) {
    let bytes = bytes_of(rt, alloc, &nested(rt, alloc, levels));
    let doc = must(rt, CborDoc::read(alloc, &bytes));
    let mut sink = VecSink::new(alloc);
    must(rt, stream_to_cbor(alloc, &mut sink, &doc));
    holds(rt, sink.as_slice() == bytes.as_slice(), levels);
}

#[test]
fn arrays_of_a_size(rt: HostRuntime) {
    try_read(&rt, rt.alloc(), "81|f6|", "[|null|]");
}

#[test]
fn arrays_that_a_break_ends(rt: HostRuntime) {
    try_read(&rt, rt.alloc(), "9f|f6|ff", "[|null|]");
}

#[test]
fn maps_that_a_break_ends(rt: HostRuntime) {
    try_read(&rt, rt.alloc(), "bf00|f6|ff", r#"{"0":|null|}"#);
}

#[test]
fn tags(rt: HostRuntime) {
    try_read(&rt, rt.alloc(), "c6|f6|", "|null|");
}

#[test]
fn levels_that_are_well_formed(rt: HostRuntime) {
    let error = CborReadError::Unsupported { at: 1 };
    try_unread(&rt, rt.alloc(), "bf009f|81f6|ff01f6ff", error);
}

#[test]
fn levels_that_are_not(rt: HostRuntime) {
    let error = CborReadError::Malformed { at: 1 };
    try_unread(&rt, rt.alloc(), "bf009f|81f6|ff01ff", error);
}

#[test]
fn arrays_that_are_written_again(rt: HostRuntime) {
    try_again(&rt, rt.alloc(), "9f|f6|ff");
}

#[test]
fn maps_that_are_written_again(rt: HostRuntime) {
    try_again(&rt, rt.alloc(), "bf6161|9fff|ff");
}
