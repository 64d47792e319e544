//! Errors that a program passes up to `main` by `?`, as `anyhow` has them.

use crate::shown::shows;
use anyhow::{Context, Result};
use std::alloc::{AllocError, Global};
use sval_buffer::ValueBuf;
use sval_check::check;
use sval_json::stream_to_string;
use sval_script::Script;

/// The JSON of what a script captures.
fn json_of(alloc: Global, lines: &str) -> Result<String> {
    let script = Script::read(alloc, lines.as_bytes())?;
    check(alloc, &script).context("no whole value")?;
    let captured: ValueBuf<'_> = ValueBuf::collect(alloc, &script)?;
    let json = stream_to_string(alloc, &captured).context("no JSON")?;
    Ok(json)
}

/// A map whose key is a sequence.
const BAD_KEY: &str = "map_begin -\n\
    map_key_begin\nseq_begin -\nseq_end\nmap_key_end\n\
    map_value_begin\nnull\nmap_value_end\n\
    map_end\n";

/// A script, and its JSON or the text of the error, with its causes.
const ANSWERS: [(&str, &str); 4] = [
    ("bool true\n", "true"),
    ("nul\n", "line 1: not a call"),
    (
        "null\nnull\n",
        "no whole value: no value goes on with call 2",
    ),
    (BAD_KEY, "no JSON: attempt to serialize a non-string key"),
];

#[test]
fn errors_are_passed_up(rt: HostRuntime) {
    let alloc = rt.alloc();
    for (lines, want) in &ANSWERS {
        shows(&rt, answer_of(alloc, lines), want);
    }
}

/// The JSON of what a script captures, or the text of the error, with its causes.
fn answer_of(alloc: Global, lines: &str) -> std::result::Result<String, AllocError> {
    match json_of(alloc, lines) {
        Ok(json) => Ok(json),
        Err(error) => format!(in alloc; "{error:#}"),
    }
}
