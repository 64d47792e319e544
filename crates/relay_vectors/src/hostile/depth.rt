//! Values of many levels, for which the machine's stack has no room, and a long text.

use crate::shown::{agrees, holds, must};
use std::alloc::Global;
use std::process::Abort;
use sval_buffer::{Value as CapturedValue, ValueBuf};
use sval_check::{Checked, check, check_into};
use sval_core::{Lent, Value};
use sval_io::{CountSink, VecSink};
use sval_json::stream_to_io_write;
use sval_script::{Printer, Script, print_canon};

/// The canonical script of 500,000 sequences, each but the last around another, and a null in that.
fn sequences(rt: &impl Abort, alloc: Global) -> Vec<u8> {
    let mut script = Vec::new(alloc);
    for _ in 0..500_000 {
        must(
            rt,
            script.extend_from_slice(b"seq_begin -\nseq_value_begin\n"),
        );
    }
    must(rt, script.extend_from_slice(b"null\n"));
    for _ in 0..500_000 {
        must(rt, script.extend_from_slice(b"seq_value_end\nseq_end\n"));
    }
    script
}

/// How long the JSON of a value is.
fn json_length<'v, V: Value<'v, Lent<'v>>>(rt: &impl Abort, value: &'v V) -> u64 {
    let mut count = CountSink::new();
    must(rt, stream_to_io_write(&mut count, value));
    count.count()
}

/// How many lines a whole script has, and how long its JSON is.
fn written_of(rt: &impl Abort, alloc: Global, script: &Script) -> String {
    must(rt, check(alloc, script));
    let length = json_length(rt, script);
    must(
        rt,
        format!(in alloc; "{} lines, {length} bytes", script.line_count()),
    )
}

/// Whether the calls of a script are whole, and whether these lines are printed of them, as they are checked.
fn checked_of(rt: &impl Abort, alloc: Global, script: &Script, lines: &[u8]) -> String {
    let mut checked = Checked::new(alloc, Printer::new(VecSink::new(alloc)));
    must(rt, script.stream(&mut checked));
    let is_whole = checked.is_whole();
    let printed = checked.into_inner().into_inner();
    let is_same = printed.as_slice() == lines;
    must(
        rt,
        format!(in alloc; "whole: {is_whole}, the same: {is_same}"),
    )
}

/// What is told of what is captured of a script.
fn captured_of(rt: &impl Abort, alloc: Global, script: &Script, lines: &[u8]) -> String {
    let buffer: ValueBuf<'_> = ValueBuf::new(alloc);
    match check_into(alloc, script, buffer) {
        Some(captured) => told_of(rt, alloc, &captured, lines),
        None => String::new(alloc),
    }
}

/// Whether what was captured is complete, how long its JSON is, and whether its canonical calls are these lines.
fn told_of(rt: &impl Abort, alloc: Global, captured: &ValueBuf<'_>, lines: &[u8]) -> String {
    must(rt, check(alloc, captured));
    let is_complete = captured.is_complete();
    let length = json_length(rt, captured);
    let is_same = canon_of(rt, alloc, captured).as_slice() == lines;
    must(
        rt,
        format!(in alloc; "complete: {is_complete}, {length} bytes, the same: {is_same}"),
    )
}

/// The calls of what is captured, canonically.
fn canon_of(rt: &impl Abort, alloc: Global, captured: &ValueBuf<'_>) -> Vec<u8> {
    let mut calls = VecSink::new(alloc);
    must(rt, print_canon(captured, &mut calls));
    calls.into_vec()
}

/// How long the JSON of an owned copy of what is captured of a script is.
fn copy_length(rt: &impl Abort, alloc: Global, script: &Script) -> u64 {
    let owned: ValueBuf<'static> = must(rt, ValueBuf::collect_owned(alloc, script));
    let copy = copy_of(rt, &must(rt, owned.to_value()));
    json_length(rt, &copy)
}

/// A copy of a value that borrows nothing. The test ends where memory for it is wanting.
fn copy_of(rt: &impl Abort, value: &CapturedValue<'_>) -> CapturedValue<'static> {
    let copy = must(rt, value.try_clone());
    copy.into_owned().ok().expect(rt, "no owned copy")
}

#[test]
fn many_levels(rt: HostRuntime) {
    let lines = sequences(&rt, rt.alloc());
    let script = must(&rt, Script::read(rt.alloc(), &lines));
    let written = written_of(&rt, rt.alloc(), &script);
    agrees(&rt, &written, "2000001 lines, 1000004 bytes");
    let checked = checked_of(&rt, rt.alloc(), &script, &lines);
    agrees(&rt, &checked, "whole: true, the same: true");
    let captured = captured_of(&rt, rt.alloc(), &script, &lines);
    let due = "complete: true, 1000004 bytes, the same: true";
    agrees(&rt, &captured, due);
    let length = copy_length(&rt, rt.alloc(), &script);
    holds(&rt, length == 1_000_004, "an owned copy");
}

/// The JSON of a text of 1,000,002 bytes without an escape.
#[test]
fn a_plain_text(rt: HostRuntime) {
    let letters = must(&rt, vec![in rt.alloc(); b'a'; 1_000_002]);
    let text = must(&rt, std::str::from_utf8(&letters));
    holds(&rt, json_length(&rt, &text) == 1_000_004, "the JSON");
}
