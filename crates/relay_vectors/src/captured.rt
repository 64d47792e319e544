//! Calls that no value goes on with, captured: which are refused, and what is made again of the others.

use crate::shown::must;
use std::alloc::Global;
use std::process::Abort;
use sval_buffer::ValueBuf;
use sval_core::Value;
use sval_io::VecSink;
use sval_json::stream_to_io_write;
use sval_ref::ValueRef;
use sval_script::{Printer, Script};

/// A buffer after the calls of a script's lines, refused ones among them.
fn buffer_of(alloc: Global, script: &Script) -> ValueBuf<'_> {
    let mut buffer: ValueBuf<'_> = ValueBuf::new(alloc);
    for place in 0..script.line_count() {
        if let Some(line) = script.slice(place, place + 1) {
            let _answer = line.stream_ref(&mut buffer);
        }
    }
    buffer
}

/// The calls that a buffer makes again, as lines.
fn lines_of(rt: &impl Abort, alloc: Global, buffer: &ValueBuf<'_>) -> String {
    let mut printer = Printer::new(VecSink::new(alloc));
    must(rt, buffer.stream(&mut printer));
    must(rt, String::from_utf8(printer.into_inner().into_vec()))
}

/// Whether a buffer is complete, and why it refused a call, if it did.
fn state_of(rt: &impl Abort, alloc: Global, buffer: ValueBuf<'_>) -> String {
    let is_complete = buffer.is_complete();
    let state = match buffer.into_err() {
        Some(error) => format!(in alloc; "{is_complete}, {:?}", error.kind()),
        None => format!(in alloc; "{is_complete}, no error"),
    };
    must(rt, state)
}

/// Whether what is captured of a script's calls is complete, why a call was refused, if one was, and the calls that are
/// made again, as lines.
pub(crate) fn captured_of(rt: &impl Abort, alloc: Global, script: &str) -> String {
    let read = must(rt, Script::read(alloc, script.as_bytes()));
    let buffer = buffer_of(alloc, &read);
    let lines = lines_of(rt, alloc, &buffer);
    let state = state_of(rt, alloc, buffer);
    must(rt, format!(in alloc; "{state}: {lines}"))
}

/// The JSON of what is captured of a script's calls.
pub(crate) fn captured_json_of(rt: &impl Abort, alloc: Global, script: &str) -> String {
    let read = must(rt, Script::read(alloc, script.as_bytes()));
    let buffer = buffer_of(alloc, &read);
    let mut out = VecSink::new(alloc);
    must(rt, stream_to_io_write(&mut out, &buffer));
    must(rt, String::from_utf8(out.into_vec()))
}
