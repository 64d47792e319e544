//! What is told of scripts that are made.

use crate::shown::{agrees, compare, holds, must};
use std::alloc::Global;
use std::process::Abort;
use sval_io::{FaultySink, VecSink};
use sval_relay::{MadeError, Way, relay, relay_made};

/// The script of one record.
const ONE_RECORD: &'static str = r#"seq_begin 1
seq_value_begin
record_begin - - - 2
record_value_begin - =6964:VALUE_IDENT
u64 0
record_value_end - =6964:VALUE_IDENT
record_value_begin - =6e616d65:VALUE_IDENT
text_begin -
text_fragment =6e
text_fragment_computed =30
text_end
record_value_end - =6e616d65:VALUE_IDENT
record_end - - -
seq_value_end
seq_end
"#;

/// How many records are made, and what is told of their script.
const LINES: [(u32, &'static str); 4] = [
    (0, "calls 2 json 2\n"),
    (1, "calls 15 json 22\n"),
    (2, "calls 28 json 43\n"),
    (50_000, "calls 650002 json 1427781\n"),
];

/// The JSON of a script.
fn json_of(rt: &impl Abort, alloc: Global, script: &str) -> String {
    let mut out = VecSink::new(alloc);
    must(rt, relay(alloc, script.as_bytes(), Way::Buffered, &mut out));
    must(rt, String::from_utf8(out.into_vec()))
}

#[test]
fn serves_one_record(rt: HostRuntime) {
    let json = "[{\"id\":0,\"name\":\"n0\"}]";
    agrees(&rt, &json_of(&rt, rt.alloc(), ONE_RECORD), json);
}

/// What is told of a script of made records.
fn line_of(rt: &impl Abort, alloc: Global, count: u32) -> String {
    let mut out = VecSink::new(alloc);
    must(rt, relay_made(alloc, count, &mut out));
    must(rt, String::from_utf8(out.into_vec()))
}

#[test]
fn tells_of_scripts(rt: HostRuntime) {
    for (count, line) in &LINES {
        agrees(&rt, &line_of(&rt, rt.alloc(), *count), line);
    }
}

#[test]
fn tells_in_part_where_the_output_fails(rt: HostRuntime) {
    let mut out = FaultySink::new(rt.alloc(), 1, &[10]);
    let answer = relay_made(rt.alloc(), 2, &mut out);
    holds(&rt, answer == Err(MadeError::Write), "the answer");
    compare(
        &rt,
        must(&rt, std::str::from_utf8(out.as_slice())),
        "calls 28 ",
        "the line",
    );
}
