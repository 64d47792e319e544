//! Documents of many levels.

use crate::levels::nested;
use crate::shown::{holds, must};
use std::alloc::Global;
use std::process::Abort;
use sval_buffer::ValueBuf;
use sval_check::check;
use sval_json::stream_to_string;
use sval_json_read::{JsonDoc, ReadError};

/// A document is read as one value, which is written as it is, also once it was captured.
fn try_written_again(rt: &impl Abort, alloc: Global, text: &str, levels: &str) {
    let doc = must(rt, JsonDoc::read(alloc, text.as_bytes()));
    holds(rt, check(alloc, &doc).is_ok(), levels);
    let captured: ValueBuf<'_> = must(rt, ValueBuf::collect(alloc, &doc));
    let written = must(rt, stream_to_string(alloc, &doc));
    let replayed = must(rt, stream_to_string(alloc, &captured));
    holds(
        rt,
        written.as_str() == text && replayed.as_str() == text,
        levels,
    );
}

/// Whether a document fails at its end where its last byte is missing.
fn misses_its_last_end(alloc: Global, text: &str) -> bool {
    let Some((_, front)) = text.as_bytes().split_last() else {
        return false;
    };
    let at = front.len() as u64;
    JsonDoc::read(alloc, front).err() == Some(ReadError::BadJson { at })
}

/// Tries a document of levels as [`nested`] has them.
fn try_levels(rt: &impl Abort, alloc: Global, levels: &str) {
    let text = nested(rt, alloc, levels);
    try_written_again(rt, alloc, &text, levels);
    holds(rt, misses_its_last_end(alloc, &text), levels);
}

#[test]
fn arrays(rt: HostRuntime) {
    try_levels(&rt, rt.alloc(), "[|[]|]");
}

#[test]
fn objects(rt: HostRuntime) {
    try_levels(&rt, rt.alloc(), r#"{"a":|1|}"#);
}

#[test]
fn objects_in_arrays(rt: HostRuntime) {
    try_levels(&rt, rt.alloc(), r#"[null,{"":|""|},2]"#);
}
