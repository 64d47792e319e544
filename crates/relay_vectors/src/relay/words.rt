//! Words that are no form.

use crate::forms::run_words;
use crate::pictures::plain_text;
use crate::shown::{holds, must};
use std::alloc::Global;
use std::process::Abort;
use sval_io::{FaultySink, VecSink};
use sval_relay::{MemSource, Source};

/// Words, each behind a bar. The first row has no word.
const ROWS: &'static str = r#"
no words
|
|Direct
|direct␠
|direc
|directs
|direct|direct
|direct|
|Buffered
|buffer
|buffered|direct
|beside
|beside|direct
|calls|beside
|direct|Beside
|direct|besides
|direct|inside
|direct|lines|beside
|direct|beside|line
|direct|lines|lines
|direct|beside|lines|lines
|lines
|Calls
|calls|calls
|calls|beside|lines
|calls|1
|made
|made|
|made|50001
|made|01
|made|+1
|made|1|lines
|buffered|beside|beside
|--help
|--version
"#;

/// What is told of them.
const USAGE: &'static [u8] =
    b"usage: sval_relay direct [beside] [lines]|buffered [beside] [lines]|calls [lines]|made N\n";

/// The words of a row.
fn words_of(rt: &impl Abort, alloc: Global, row: &str) -> Vec<String> {
    let mut words = Vec::new(alloc);
    for word in row.split('|').skip(1) {
        must(rt, words.push(plain_text(rt, alloc, word)));
    }
    words
}

/// Nothing is read and nothing is written, and the third device is told the usage. It fails after `taken` bytes.
fn try_words(rt: &impl Abort, alloc: Global, row: &str, taken: usize) {
    let words = words_of(rt, alloc, row);
    let failing = [(taken as u64).saturating_add(1)];
    let mut input = MemSource::new(b"null\n");
    let mut out = VecSink::new(alloc);
    let mut diag = FaultySink::new(alloc, 1, &failing);
    let status = run_words(alloc, &words, &mut input, &mut out, &mut diag);
    holds(rt, status == 2 && out.as_slice().is_empty(), row);
    holds(rt, input.read(&mut [0; 8]) == Ok(5), row);
    holds(rt, begins_usage(diag.as_slice(), taken), row);
}

/// Whether `told` is the first `taken` bytes of the usage.
fn begins_usage(told: &[u8], taken: usize) -> bool {
    told.len() == taken && USAGE.starts_with(told)
}

#[test]
fn no_form(rt: HostRuntime) {
    for row in ROWS.lines() {
        if !row.is_empty() {
            for taken in [USAGE.len(), 0, 1, 2] {
                try_words(&rt, rt.alloc(), row, taken);
            }
        }
    }
}
