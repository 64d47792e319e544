//! Tapes of all calls: written by hand, read and written again, cut short and spoiled.

use crate::cases::{holds, must};
use std::alloc::Global;
use std::process::Abort;
use sval_core::{Index, Label, Stream, Tag, Value};
use sval_io::{FixedSink, VecSink};
use sval_json::stream_to_vec;
use sval_tape::{Tape, TapeError, TapeWriter, json_at_once, stream_tape};

/// Each call at least once, in the order of the numbers.
const CALLS: [&'static [u8]; 55] = [
    &[0],
    &[1, 0],
    &[1, 1],
    &[2, 255, 1],
    &[3, 128, 1],
    &[4, 255, 255, 255, 255, 15],
    &[5, 255, 255, 255, 255, 255, 255, 255, 255, 255, 1],
    &[
        6, 255, 255, 255, 255, 255, 255, 255, 255, 255, 255, 255, 255, 255, 255, 255, 255, 255,
        255, 3,
    ],
    &[7, 255, 1],
    &[8, 13],
    &[9, 0],
    &[10, 254, 255, 255, 255, 255, 255, 255, 255, 255, 1],
    &[
        11, 255, 255, 255, 255, 255, 255, 255, 255, 255, 255, 255, 255, 255, 255, 255, 255, 255,
        255, 3,
    ],
    &[12, 0],
    &[12, 1, 2],
    &[13, 2, 104, 105],
    &[14, 2, 195, 169],
    &[15],
    &[16, 1, 0],
    &[17, 3, 0, 127, 255],
    &[18, 0],
    &[19],
    &[20, 1, 9, 82, 85, 83, 84, 95, 85, 78, 73, 84, 0, 0],
    &[21, 6, 78, 85, 77, 66, 69, 82],
    &[22, 0, 0, 0],
    &[23, 0, 0, 0],
    &[24, 0, 1, 1, 65, 0, 1, 5, 0],
    &[25, 0, 1, 1, 65, 0, 1, 5, 0],
    &[26, 1, 200, 1],
    &[27, 0],
    &[28, 0, 1, 1, 82, 0, 0, 1, 1],
    &[29, 0, 0, 0, 1, 2],
    &[30, 0, 0, 1, 4, 1, 6, 78, 85, 77, 66, 69, 82, 0],
    &[31],
    &[32],
    &[33, 0, 1, 1, 82, 0, 0],
    &[34, 0, 0, 0],
    &[35, 0, 0, 1, 4, 0],
    &[36],
    &[37],
    &[38],
    &[
        39, 0, 2, 105, 100, 1, 11, 86, 65, 76, 85, 69, 95, 73, 68, 69, 78, 84,
    ],
    &[
        40, 0, 0, 1, 12, 86, 65, 76, 85, 69, 95, 79, 70, 70, 83, 69, 84,
    ],
    &[
        41, 0, 1, 120, 0, 254, 255, 255, 255, 255, 255, 255, 255, 255, 3, 0,
    ],
    &[
        41, 0, 1, 120, 0, 255, 255, 255, 255, 255, 255, 255, 255, 255, 1, 0,
    ],
    &[42],
    &[43],
    &[44],
    &[45, 0, 0, 0],
    &[46, 0, 2, 0],
    &[47, 0, 1, 120, 0, 1, 0],
    &[13, 0],
    &[14, 0],
    &[17, 0],
    &[0],
];

/// Bytes that begin no call.
const SPOILED: [&'static [u8]; 22] = [
    &[48],
    &[255, 0],
    &[1, 2],
    &[2, 128, 2],
    &[2, 129, 0],
    &[2, 128],
    &[3, 128, 128, 4],
    &[5, 255, 255, 255, 255, 255, 255, 255, 255, 255, 2],
    &[
        6, 255, 255, 255, 255, 255, 255, 255, 255, 255, 255, 255, 255, 255, 255, 255, 255, 255,
        255, 4,
    ],
    &[7, 128, 2],
    &[12, 2],
    &[12, 1, 255, 255, 255, 255, 255, 255, 255, 255, 255, 2],
    &[13, 2, 104],
    &[13, 1, 200],
    &[13, 2, 195, 40],
    &[21, 6, 78, 85, 77, 66, 69, 83],
    &[21, 0],
    &[20, 1, 1, 65, 0, 0],
    &[40, 0, 255, 255, 255, 255, 255, 255, 255, 255, 255, 3, 0],
    &[40, 0, 128, 128, 128, 128, 128, 128, 128, 128, 128, 4, 0],
    &[39, 0, 1, 128, 0],
    &[39, 0],
];

/// The tape of all calls.
fn tape_of_all(rt: &impl Abort, alloc: Global) -> Vec<u8> {
    must(rt, CALLS.concat(alloc))
}

/// Compares the bytes of a tape.
fn has_written(rt: &impl Abort, writer: TapeWriter<VecSink>, due: &[u8]) {
    let written = writer.into_inner();
    holds(rt, written.as_slice() == due, "what is written");
}

#[test]
fn all_calls_are_read_and_written_again(rt: HostRuntime) {
    let bytes = tape_of_all(&rt, rt.alloc());
    let tape = must(&rt, Tape::read(&bytes));
    let mut writer = TapeWriter::new(VecSink::new(rt.alloc()));
    must(&rt, tape.stream(&mut writer));
    has_written(&rt, writer, &bytes);
}

/// Where a tape is bad, if it is.
fn bad_place(bytes: &[u8]) -> Option<usize> {
    match Tape::read(bytes) {
        Ok(_tape) => None,
        Err(TapeError::Bad { at }) => Some(at),
    }
}

/// Where a tape is to be bad whose last call has a beginning of these bytes.
fn bad_place_due(begin: usize, length: usize, call: &[u8]) -> Option<usize> {
    if length.saturating_sub(begin) < call.len() {
        Some(begin)
    } else {
        None
    }
}

/// Adds a call to a tape byte by byte, and compares where the tape is bad behind each byte.
fn try_cuts(rt: &impl Abort, tape: &mut Vec<u8>, call: &[u8]) {
    let begin = tape.len();
    for byte in call {
        must(rt, tape.push(*byte));
        let due = bad_place_due(begin, tape.len(), call);
        holds(rt, bad_place(tape) == due, "a cut call");
    }
}

#[test]
fn bytes_cut_within_a_call_are_bad_where_it_begins(rt: HostRuntime) {
    let mut tape = Vec::new(rt.alloc());
    for call in &CALLS {
        try_cuts(&rt, &mut tape, call);
    }
}

#[test]
fn spoiled_calls_are_bad_where_they_begin(rt: HostRuntime) {
    for call in &SPOILED {
        let bytes = must(&rt, [&[0, 15], *call].concat(rt.alloc()));
        holds(&rt, bad_place(&bytes) == Some(2), "a spoiled call");
    }
}

#[test]
fn writes_the_bytes_of_a_record(rt: HostRuntime) {
    let mut writer = TapeWriter::new(VecSink::new(rt.alloc()));
    let label = Label::new("id");
    let index = Index::new_i32(-3);
    let own = Tag::new("own");
    let answers = [
        writer.record_tuple_begin(Some(&own), None, None, Some(300)),
        writer.record_tuple_value_begin(None, &label, &index),
        writer.i32(-300),
    ];
    let taken = answers.iter().all(|answer| answer.is_ok());
    holds(&rt, taken, "the answers");
    let due = [
        30, 1, 3, 111, 119, 110, 0, 0, 1, 172, 2, 41, 0, 2, 105, 100, 0, 5, 0, 9, 215, 4,
    ];
    has_written(&rt, writer, &due);
}

#[test]
fn all_calls_are_streamed_as_they_are_read(rt: HostRuntime) {
    let bytes = tape_of_all(&rt, rt.alloc());
    let mut writer = TapeWriter::new(VecSink::new(rt.alloc()));
    must(&rt, must(&rt, stream_tape(&bytes, &mut writer)));
    has_written(&rt, writer, &bytes);
}

/// A null, a text's end, and a byte that begins no call.
const BAD: [u8; 3] = [0, 15, 48];

#[test]
fn streaming_ends_at_a_bad_call(rt: HostRuntime) {
    let mut writer = TapeWriter::new(VecSink::new(rt.alloc()));
    let streamed = stream_tape(&BAD, &mut writer);
    let is_bad = streamed.err() == Some(TapeError::Bad { at: 2 });
    holds(&rt, is_bad, "the answer");
    has_written(&rt, writer, &BAD[..2]);
}

#[test]
fn streaming_ends_at_a_refused_call(rt: HostRuntime) {
    let mut room = [0; 1];
    let mut writer = TapeWriter::new(FixedSink::new(&mut room));
    let streamed = must(&rt, stream_tape(&BAD, &mut writer));
    holds(&rt, streamed.is_err(), "the answer");
    let written = writer.into_inner();
    holds(&rt, written.as_slice() == &BAD[..1], "the bytes");
}

/// Tapes of the commonest calls, and their JSON.
const COMMON: [(&'static [u8], &'static str); 25] = [
    (b"\x00", "null"),
    (b"\x01\x01", "true"),
    (b"\x05\xff\x01", "255"),
    (b"\x03\x07", "7"),
    (b"\x04\x07", "7"),
    (b"\x02\x07", "7"),
    (b"\x07\x01", "-1"),
    (b"\x08\x01", "-1"),
    (b"\x09\xff\x01", "-128"),
    (b"\x0a\x01", "-1"),
    (
        b"\x18\x00\x01\x01W\x00\x00\x00\x19\x00\x01\x01W\x00\x00",
        "null",
    ),
    (
        b"\x14\x01\x10RUST_OPTION_NONE\x01\x04None\x01\x0bVALUE_IDENT\x01\x00\x01\x0cVALUE_OFFSET",
        "null",
    ),
    (
        b"\x18\x01\x10RUST_OPTION_SOME\x01\x04Some\x01\x0bVALUE_IDENT\x01\x02\x01\x0cVALUE_OFFSET\x02\x05\x19\x01\x10RUST_OPTION_SOME\x01\x04Some\x01\x0bVALUE_IDENT\x01\x02\x01\x0cVALUE_OFFSET",
        "5",
    ),
    (b"\x0c\x01\x02\x0d\x01h\x0e\x01\"\x0f", "\"h\\\"\""),
    (b"\x0c\x00\x0f", "\"\""),
    (b"\x1a\x00\x1f", "[]"),
    (
        b"\x1a\x01\x02\x24\x01\x00\x2a\x24\x00\x2a\x1f",
        "[false,null]",
    ),
    (b"\x1c\x00\x00\x00\x00\x21\x00\x00\x00", "{}"),
    (
        b"\x1c\x00\x01\x01R\x00\x00\x01\x02\x27\x00\x02id\x00\x02\x07\x2d\x00\x02id\x00\x27\x00\x02\"b\x00\x00\x2d\x00\x02\"b\x00\x21\x00\x01\x01R\x00\x00",
        "{\"id\":7,\"\\\"b\":null}",
    ),
    (
        b"\x1e\x00\x00\x00\x00\x29\x00\x01a\x01\x0bVALUE_IDENT\x02\x01\x0cVALUE_OFFSET\x00\x2f\x00\x01a\x01\x0bVALUE_IDENT\x02\x01\x0cVALUE_OFFSET\x23\x00\x00\x00",
        "{\"a\":null}",
    ),
    (
        b"\x16\x00\x00\x00\x14\x00\x01\x04Info\x00\x00\x17\x00\x00\x00",
        "\"Info\"",
    ),
    (b"\x14\x01\x10RUST_OPTION_NONE\x01\x04None\x00\x00", "null"),
    (
        b"\x18\x01\x10RUST_OPTION_SOME\x00\x00\x02\x05\x19\x01\x10RUST_OPTION_SOME\x00\x00",
        "5",
    ),
    (
        b"\x18\x01\x06NUMBER\x00\x00\x0c\x00\x0d\x06-17.25\x0f\x19\x01\x06NUMBER\x00\x00",
        "-17.25",
    ),
    (
        b"\x18\x01\x06NUMBER\x00\x00\x0c\x01\x03\x0d\x030.5\x0f\x19\x01\x06NUMBER\x00\x00",
        "0.5",
    ),
];

/// Tapes that aren't written at once: their calls aren't one whole value, or aren't of the commonest kinds.
const OTHERS: [&'static [u8]; 12] = [
    b"",
    b"\x00\x00",
    b"\x0c\x01\x03\x0d\x02hi\x0f",
    b"\x0c\x00\x0d\x02hi",
    b"\x1a\x01\x01\x1f",
    b"\x1a\x00\x24\x00\x1f",
    b"\x1c\x00\x00\x00\x00\x27\x00\x01a\x00\x00\x2d\x00\x01b\x00\x21\x00\x00\x00",
    b"\x1c\x00\x01\x01R\x00\x00\x00\x21\x00\x00\x00",
    b"\x16\x00\x00\x00\x00\x17\x00\x00\x00",
    b"\x18\x01\x06NUMBER\x00\x00\x0c\x00\x0d\x0501.25\x0f\x19\x01\x06NUMBER\x00\x00",
    b"\x18\x01\x06NUMBER\x00\x00\x0c\x00\x0d\x03x.5\x0f\x19\x01\x06NUMBER\x00\x00",
    b"\x10\x00\x13",
];

/// Compares the JSON of a tape, as it is written at once and by its calls.
fn has_json(rt: &impl Abort, alloc: Global, tape: &[u8], due: &str) {
    match json_at_once(alloc, tape) {
        Some(json) => holds(rt, json.as_slice() == due.as_bytes(), "JSON at once"),
        None => holds(rt, false, "no JSON at once"),
    }
    let calls = must(rt, Tape::read(tape));
    let json = must(rt, stream_to_vec(alloc, &calls));
    holds(rt, json.as_slice() == due.as_bytes(), "JSON of the calls");
}

#[test]
fn common_calls_are_written_at_once(rt: HostRuntime) {
    for (tape, due) in &COMMON {
        has_json(&rt, rt.alloc(), tape, due);
    }
}

#[test]
fn other_calls_are_not_written_at_once(rt: HostRuntime) {
    for tape in &OTHERS {
        holds(
            &rt,
            json_at_once(rt.alloc(), tape).is_none(),
            "another tape",
        );
    }
}

/// The tape of `depth` sequences, one in another.
fn nested(rt: &impl Abort, alloc: Global, depth: usize) -> Vec<u8> {
    let mut tape = Vec::new(alloc);
    for _ in 1..depth {
        must(rt, tape.extend_from_slice(b"\x1a\x00\x24"));
    }
    must(rt, tape.extend_from_slice(b"\x1a\x00\x1f"));
    for _ in 1..depth {
        must(rt, tape.extend_from_slice(b"\x2a\x1f"));
    }
    tape
}

#[test]
fn depth_is_bounded_at_once(rt: HostRuntime) {
    let shallow = nested(&rt, rt.alloc(), 65);
    holds(
        &rt,
        json_at_once(rt.alloc(), &shallow).is_some(),
        "64 levels around a value",
    );
    let deep = nested(&rt, rt.alloc(), 66);
    holds(
        &rt,
        json_at_once(rt.alloc(), &deep).is_none(),
        "65 levels around a value",
    );
}

#[test]
fn many_items_are_written_at_once(rt: HostRuntime) {
    let mut tape = Vec::new(rt.alloc());
    must(&rt, tape.extend_from_slice(b"\x1a\x00"));
    for _ in 0..100_000 {
        must(&rt, tape.extend_from_slice(b"\x24\x00\x2a"));
    }
    must(&rt, tape.push(31));
    match json_at_once(rt.alloc(), &tape) {
        Some(json) => holds(&rt, json.len() == 500_001, "100,000 items"),
        None => holds(&rt, false, "no JSON of 100,000 items"),
    }
}
