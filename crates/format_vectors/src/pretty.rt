//! Texts, what is written of them, and a sink that fails on the way.

use crate::shown::{holds, must};
use sval_io::{FixedSink, SinkError};
use sval_pretty::{pretty_to_vec, write_pretty};

/// A text, and its pretty text as `jq --indent 2 .` prints it, but for its last line feed.
const ROWS: [(&'static str, &'static str); 10] = [
    ("", ""),
    ("7", "7"),
    ("[]", "[]"),
    ("{ }", "{}"),
    ("[1,[],{}]", "[\n  1,\n  [],\n  {}\n]"),
    (
        "{\"a\":1,\"b\":[true,null]}",
        "{\n  \"a\": 1,\n  \"b\": [\n    true,\n    null\n  ]\n}",
    ),
    (" {\n\t\"a\" : [ ] }\r\n", "{\n  \"a\": []\n}"),
    (
        "[\"[,:]\",\"\\\"{\",\"\\\\\"]",
        "[\n  \"[,:]\",\n  \"\\\"{\",\n  \"\\\\\"\n]",
    ),
    ("[\" \u{e9} \"]", "[\n  \" \u{e9} \"\n]"),
    ("[[[0]]]", "[\n  [\n    [\n      0\n    ]\n  ]\n]"),
];

#[test]
fn lays_out_its_rows(rt: HostRuntime) {
    for (json, pretty) in &ROWS {
        let out = must(&rt, pretty_to_vec(rt.alloc(), json.as_bytes()));
        holds(&rt, out.as_slice() == pretty.as_bytes(), json);
    }
}

#[test]
fn stops_where_the_sink_is_full(rt: HostRuntime) {
    let mut buffer = [0; 6];
    let mut sink = FixedSink::new(&mut buffer);
    let answer = write_pretty(&mut sink, b"[[0]]".as_slice());
    holds(&rt, answer == Err(SinkError::Failed), "a full sink");
    holds(
        &rt,
        sink.as_slice() == b"[\n  [\n".as_slice(),
        "a full sink",
    );
}
