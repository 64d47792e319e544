//! What serving a script of one value or of many answers and writes.

use crate::shown::{agrees, compare, must, push};
use std::alloc::Global;
use std::fmt::Write;
use std::process::Abort;
use sval_io::{FaultySink, VecSink};
use sval_relay::{Way, relay, relay_lines};

/// The ways that write JSON.
const WAYS: [Way; 4] = [
    Way::Direct,
    Way::Buffered,
    Way::DirectBeside,
    Way::BufferedBeside,
];

/// A script, and the answer and what is written.
const ROWS: [(&'static str, &'static str); 7] = [
    ("nul\n", "Err(BadLine { line: 1 }): "),
    ("null\nnull\n", "Err(BadCall { line: 2 }): "),
    ("null\nnull\nnul\n", "Err(BadLine { line: 3 }): "),
    ("", "Err(Unfinished): "),
    ("seq_begin -\n", "Err(Unfinished): "),
    ("null\n", "Ok(()): null"),
    (
        "seq_begin -\nseq_value_begin\ntext_begin 1\ntext_fragment =61\ntext_end\nseq_value_end\nseq_end\n",
        "Ok(()): [\"a\"]",
    ),
];

/// A script of many values, and the answer and what is written.
const LISTS: [(&'static str, &'static str); 9] = [
    ("nul\n", "Err(BadLine { line: 1 }): "),
    ("null\nnul\n", "Err(BadLine { line: 2 }): "),
    ("null\nseq_end\n", "Err(BadCall { line: 2 }): "),
    ("null\nseq_begin -\n", "Err(Unfinished): "),
    ("", "Ok(()): "),
    ("tag_hint NUMBER\n", "Ok(()): "),
    ("null\nbool true\n", "Ok(()): null\ntrue\n"),
    (
        "u8 1\ntagged_begin NUMBER - -\ntext_begin 2\ntext_fragment =3178\ntext_end\ntagged_end NUMBER - -\nnull\n",
        "Err(InvalidNumber): 1\n1",
    ),
    (
        "u8 1\nmap_begin -\nmap_key_begin\nseq_begin -\nseq_end\nmap_key_end\nmap_value_begin\nnull\nmap_value_end\n\
         map_end\n",
        "Err(InvalidKey): 1\n{\"",
    ),
];

/// The answer for a script of many values in a way, and what is written.
fn list_of(rt: &impl Abort, alloc: Global, way: Way, script: &str) -> String {
    let mut out = VecSink::new(alloc);
    let answer = relay_lines(alloc, script.as_bytes(), way, &mut out);
    let text = must(rt, std::str::from_utf8(out.as_slice()));
    must(rt, format!(in alloc; "{answer:?}: {text}"))
}

#[test]
fn answers_for_lists(rt: HostRuntime) {
    for (script, due) in &LISTS {
        for way in &WAYS {
            compare(&rt, &list_of(&rt, rt.alloc(), *way, script), due, script);
        }
    }
}

/// The answer for a script of one value in a way, and what is written.
fn value_of(rt: &impl Abort, alloc: Global, way: Way, script: &str) -> String {
    let mut out = VecSink::new(alloc);
    let answer = relay(alloc, script.as_bytes(), way, &mut out);
    let text = must(rt, std::str::from_utf8(out.as_slice()));
    must(rt, format!(in alloc; "{answer:?}: {text}"))
}

#[test]
fn answers(rt: HostRuntime) {
    for (script, due) in &ROWS {
        for way in &WAYS {
            compare(&rt, &value_of(&rt, rt.alloc(), *way, script), due, script);
        }
    }
}

/// Scripts that are served one after another, and the way of each.
const APPENDED: [(&'static str, Way); 3] = [
    ("bool true\n", Way::Direct),
    ("i64 -9\n", Way::Buffered),
    ("bool true\n", Way::Direct),
];

/// The answers for these scripts, and what is written of them, up to a write that fails.
fn appended_of(rt: &impl Abort, alloc: Global) -> String {
    let mut out = FaultySink::new(alloc, 1, &[9]);
    let mut seen = String::new(alloc);
    for (script, way) in &APPENDED {
        let answer = relay(alloc, script.as_bytes(), *way, &mut out);
        must(rt, write!(seen, "{answer:?}, "));
    }
    push(rt, &mut seen, must(rt, std::str::from_utf8(out.as_slice())));
    seen
}

#[test]
fn appends(rt: HostRuntime) {
    let due = "Ok(()), Ok(()), Err(Write), true-9tr";
    agrees(&rt, &appended_of(&rt, rt.alloc()), due);
}
