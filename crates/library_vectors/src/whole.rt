//! What is written and captured of values whose calls are checked first.

use crate::captured::makes_again;
use crate::shown::{holds, must, script_of, shows};
use records::{Metres, MyRecord, Shape};
use std::alloc::{AllocError, Global};
use sval_buffer::ValueBuf;
use sval_check::CheckError;
use sval_core::{Lent, Value};
use sval_io::{FixedSink, VecSink};
use sval_json::Variants;
use sval_whole::{
    WriteError, collect_whole, to_json_string, to_json_string_with, to_json_vec, to_json_vec_with,
    write_json, write_json_with,
};

/// The JSON of a value, or why there is none.
fn json_of<'v, V: Value<'v, Lent<'v>>>(alloc: Global, value: &'v V) -> Result<String, AllocError> {
    match to_json_string(alloc, value) {
        Ok(json) => Ok(json),
        Err(error) => format!(in alloc; "{error}"),
    }
}

/// Calls, and the JSON of their value, or why there is none.
const ROWS: [(&str, &str); 9] = [
    // a sequence that forgets its end, one that forgets the end of its item, and no call
    (
        "seq_begin -\nseq_value_begin\nbool true\nseq_value_end\n",
        "the calls end before the value is whole",
    ),
    (
        "seq_begin -\nseq_value_begin\nbool true\nseq_end\n",
        "no value goes on with call 4",
    ),
    ("", "the calls end before the value is whole"),
    // one that ends too much, and two values
    (
        "seq_begin -\nseq_end\nseq_end\n",
        "no value goes on with call 3",
    ),
    ("null\nnull\n", "no value goes on with call 2"),
    // a container as a key
    (
        "map_begin 1\nmap_key_begin\nseq_begin 0\nseq_end\nmap_key_end\n\
         map_value_begin\nnull\nmap_value_end\nmap_end\n",
        "attempt to serialize a non-string key",
    ),
    // a text in two halves, as itself and as a number
    (
        "text_begin 4\ntext_fragment =6162\ntext_fragment_computed =6364\ntext_end\n",
        "\"abcd\"",
    ),
    (
        "tagged_begin NUMBER - -\ntext_begin -\ntext_fragment =31\ntext_fragment =2d35\ntext_end\n\
         tagged_end NUMBER - -\n",
        "attempt to serialize an invalid number",
    ),
    // a size that is wrong
    (
        "seq_begin 2\nseq_value_begin\nbool true\nseq_value_end\nseq_end\n",
        "no value goes on with call 5",
    ),
];

#[test]
fn writes_whole_values_alone(rt: HostRuntime) {
    let alloc = rt.alloc();
    for (lines, want) in &ROWS {
        shows(&rt, json_of(alloc, &script_of(&rt, alloc, lines)), want);
    }
}

const RECORD: MyRecord<'static> = MyRecord {
    field_0: 1,
    field_1: true,
    field_2: "some text",
};

const JSON: &str = "{\"field_0\":1,\"field_1\":true,\"field_2\":\"some text\"}";

#[test]
fn writes_a_struct_to_each_target(rt: HostRuntime) {
    let alloc = rt.alloc();
    shows(&rt, json_of(alloc, &RECORD), JSON);
    let bytes = must(&rt, to_json_vec(alloc, &RECORD));
    shows(&rt, String::from_utf8(bytes), JSON);
    let mut sink = VecSink::new(alloc);
    must(&rt, write_json(alloc, &mut sink, &RECORD));
    shows(&rt, String::from_utf8(sink.into_vec()), JSON);
}

/// A variant beside its name.
const BESIDE: &str = "{\"variant\":\"Circle\",\"value\":3}";

#[test]
fn writes_variants_beside_their_names(rt: HostRuntime) {
    let alloc = rt.alloc();
    let circle = Shape::Circle(Metres(3));
    shows(
        &rt,
        to_json_string_with(alloc, &circle, Variants::Beside),
        BESIDE,
    );
    let bytes = must(&rt, to_json_vec_with(alloc, &circle, Variants::Beside));
    shows(&rt, String::from_utf8(bytes), BESIDE);
    let mut sink = VecSink::new(alloc);
    must(
        &rt,
        write_json_with(alloc, &mut sink, &circle, Variants::Beside),
    );
    shows(&rt, String::from_utf8(sink.into_vec()), BESIDE);
}

#[test]
fn leaves_a_sink_as_it_was(rt: HostRuntime) {
    let alloc = rt.alloc();
    let mut sink = VecSink::new(alloc);
    must(&rt, write_json(alloc, &mut sink, &true));
    let script = script_of(&rt, alloc, "seq_begin -\n");
    let answer = write_json(alloc, &mut sink, &script);
    holds(
        &rt,
        answer == Err(WriteError::Unfinished),
        "it is cut short",
    );
    shows(&rt, String::from_utf8(sink.into_vec()), "true");
}

#[test]
fn writes_up_to_the_room(rt: HostRuntime) {
    let mut buffer = [0; 10];
    let mut sink = FixedSink::new(&mut buffer);
    let answer = write_json(rt.alloc(), &mut sink, &RECORD);
    holds(&rt, answer == Err(WriteError::Write), "room is lacking");
    let is_front = sink.into_slice() == b"{\"field_0\"".as_slice();
    holds(&rt, is_front, "the room is filled");
}

/// A text in two halves, as it is captured: in one fragment.
const TEXT: &str = "text_begin 4\ntext_fragment_computed =61626364\ntext_end\n";

#[test]
fn captures_whole_values(rt: HostRuntime) {
    let alloc = rt.alloc();
    let halves = "text_begin 4\ntext_fragment =6162\ntext_fragment =6364\ntext_end\n";
    let script = script_of(&rt, alloc, halves);
    let slice = script.as_slice();
    let captured: ValueBuf<'_> = must(&rt, collect_whole(alloc, &slice));
    makes_again(&rt, alloc, &captured, TEXT);
}

#[test]
fn captures_nothing_else(rt: HostRuntime) {
    let script = script_of(&rt, rt.alloc(), "seq_begin -\nseq_end\nseq_end\n");
    let slice = script.as_slice();
    let refused: Result<ValueBuf<'_>, CheckError> = collect_whole(rt.alloc(), &slice);
    let is_due = refused.err() == Some(CheckError::BadCall { at: 3 });
    holds(&rt, is_due, "the third call is refused");
}
