//! JSON that is written as it is, and what takes JSON.

use crate::cases::{agrees, holds, must, shows};
use crate::written::told;
use std::alloc::Global;
use std::process::Abort;
use sval_io::{CountSink, FaultySink, FixedSink, TrickleSink, VecSink};
use sval_json::escape::first_escape;
use sval_json::{
    JsonStr, JsonString, stream_to_fmt_write, stream_to_io_write, stream_to_json_str,
    stream_to_string, stream_to_vec,
};

#[test]
fn writes_json_as_it_is(rt: HostRuntime) {
    let json = JsonString::boxed(must(&rt, String::from_str(rt.alloc(), "[1, 2]")));
    let text = json.as_json_str();
    holds(&rt, text.is_text("[1, 2]"), "its text");
    holds(&rt, text == JsonStr::from("[1, 2]"), "an equal one");
    shows(&rt, format!(in rt.alloc(); "{text}"), "[1, 2]");
    let mut sink = VecSink::new(rt.alloc());
    let answer = stream_to_io_write(&mut sink, &text);
    agrees(
        &rt,
        &told(&rt, rt.alloc(), sink.as_slice(), answer),
        "[1, 2]",
    );
}

/// A JSON of 13 bytes.
const FIELD: &'static str = "{\"field_0\":1}";

#[test]
fn takes_one_byte_a_call_and_counts(rt: HostRuntime) {
    let value = JsonStr::new(FIELD);
    let mut sink = TrickleSink::new(rt.alloc());
    let answer = stream_to_io_write(&mut sink, &value);
    agrees(&rt, &told(&rt, rt.alloc(), sink.as_slice(), answer), FIELD);
    let mut count = CountSink::new();
    must(&rt, stream_to_io_write(&mut count, &value));
    holds(&rt, count.count() == 13, "the count");
}

/// What a sink over a buffer takes of the JSON, why not all, and what room is left.
fn fitted(rt: &impl Abort, alloc: Global, buffer: &mut [u8]) -> String {
    let mut sink = FixedSink::new(buffer);
    let answer = stream_to_io_write(&mut sink, &JsonStr::new(FIELD));
    let room = sink.room();
    let seen = told(rt, alloc, sink.into_slice(), answer);
    must(rt, format!(in alloc; "{seen} {room}"))
}

#[test]
fn takes_what_fits(rt: HostRuntime) {
    let want = "IO: failed to write JSON, after `{\"field_0\"` 0";
    agrees(&rt, &fitted(&rt, rt.alloc(), &mut [0; 10]), want);
    let want = "{\"field_0\":1} 0";
    agrees(&rt, &fitted(&rt, rt.alloc(), &mut [0; 13]), want);
}

#[test]
fn fails_where_it_is_told_to(rt: HostRuntime) {
    let mut sink = FaultySink::new(rt.alloc(), 1, &[3]);
    let answer = stream_to_io_write(&mut sink, &JsonStr::new(FIELD));
    let seen = told(&rt, rt.alloc(), sink.as_slice(), answer);
    agrees(&rt, &seen, "IO: failed to write JSON, after `{\"`");
}

#[test]
fn writes_the_same_to_all_targets(rt: HostRuntime) {
    let value = JsonStr::new(FIELD);
    let bytes = must(&rt, stream_to_vec(rt.alloc(), &value));
    shows(&rt, String::from_utf8(bytes), FIELD);
    shows(&rt, stream_to_string(rt.alloc(), &value), FIELD);
    let json = must(&rt, stream_to_json_str(rt.alloc(), &value));
    agrees(&rt, json.as_json_str().as_str(), FIELD);
}

#[test]
fn writes_the_same_to_sinks(rt: HostRuntime) {
    let value = JsonStr::new(FIELD);
    let mut sink = TrickleSink::new(rt.alloc());
    let answer = stream_to_fmt_write(&mut sink, &value);
    agrees(&rt, &told(&rt, rt.alloc(), sink.as_slice(), answer), FIELD);
    let mut buffer = [0; 10];
    let mut short = FixedSink::new(&mut buffer);
    let answer = stream_to_fmt_write(&mut short, &value);
    let seen = told(&rt, rt.alloc(), short.as_slice(), answer);
    let want = "Generic: an error occurred serializing a value to JSON, after `{\"field_0\"`";
    agrees(&rt, &seen, want);
}

/// Texts, and the place of the first byte of each that is escaped, or the length where none is. The lengths are those
/// at which bytes are looked through in wider steps.
const ESCAPES: &'static str = r#"0:
0:"
1:a\
2:ab
3:abc"
3:é?\
7:abcdefg\
8:abcdefgh
15:abcdefghijklmno"
16:abcdefghijklmnop
30:abcdefghijklmnopqrstuvwxyzabcd"
31:abcdefghijklmnopqrstuvwxyzabcde
32:abcdefghijklmnopqrstuvwxyzabcdef\
33:abcdefghijklmnopqrstuvwxyzabcdefg
63:abcdefghijklmnopqrstuvwxyzabcdefabcdefghijklmnopqrstuvwxyzabcde"\
64:abcdefghijklmnopqrstuvwxyzabcdefabcdefghijklmnopqrstuvwxyzabcdef
66:abcdefghijklmnopqrstuvwxyzabcdefabcdefghijklmnopqrstuvwxyzabcdefgh""#;

/// Compares the place that is found in a text with that of its row.
fn try_escape(rt: &impl Abort, row: &str) {
    let (place, text) = row.split_once(':').unwrap_or((row, ""));
    let place = must(rt, place.parse::<usize>());
    holds(rt, first_escape(text.as_bytes()) == place, text);
}

#[test]
fn finds_the_first_byte_to_escape(rt: HostRuntime) {
    for row in ESCAPES.lines() {
        try_escape(&rt, row);
    }
}

#[test]
fn finds_a_control_character(rt: HostRuntime) {
    for (bytes, place) in [(b"ab\n".as_slice(), 2), (b"\x1f", 0), (b"\x7f ", 2)] {
        holds(&rt, first_escape(bytes) == place, "a control character");
    }
}
