//! The JSON of one struct in each of the targets.

use crate::shown::{compare, holds, must, shows};
use records::MyRecord;
use std::alloc::{AllocError, Global};
use sval_io::{FixedSink, VecSink};
use sval_json::{
    Error, stream_to_fmt_write, stream_to_io_write, stream_to_json_str, stream_to_string,
    stream_to_vec,
};

const VALUE: MyRecord<'static> = MyRecord {
    field_0: 1,
    field_1: true,
    field_2: "some text",
};

const JSON: &str = "{\"field_0\":1,\"field_1\":true,\"field_2\":\"some text\"}";

#[test]
fn writes_the_same_to_each_target(rt: HostRuntime) {
    let alloc = rt.alloc();
    let bytes = must(&rt, stream_to_vec(alloc, &VALUE));
    shows(&rt, String::from_utf8(bytes), JSON);
    let json = must(&rt, stream_to_json_str(alloc, &VALUE));
    compare(&rt, json.as_json_str().as_str(), JSON);
    let mut sink = VecSink::new(alloc);
    must(&rt, stream_to_fmt_write(&mut sink, &VALUE));
    shows(&rt, String::from_utf8(sink.into_vec()), JSON);
    shows(&rt, stream_to_string(alloc, &VALUE), JSON);
}

/// What is told of a target with too little room.
fn told(alloc: Global, answer: Result<(), Error>) -> Result<String, AllocError> {
    match answer {
        Ok(()) => String::from_str(alloc, "written"),
        Err(error) => format!(in alloc; "{:?}", error.kind()),
    }
}

/// What has room in ten bytes.
const FRONT: &[u8] = b"{\"field_0\"";

#[test]
fn tells_want_of_room_by_its_target(rt: HostRuntime) {
    let mut buffer = [0; 10];
    let mut sink = FixedSink::new(&mut buffer);
    let answer = stream_to_fmt_write(&mut sink, &VALUE);
    shows(&rt, told(rt.alloc(), answer), "Generic");
    holds(&rt, sink.into_slice() == FRONT, "the room is filled");
    let mut buffer = [0; 10];
    let mut sink = FixedSink::new(&mut buffer);
    let answer = stream_to_io_write(&mut sink, &VALUE);
    shows(&rt, told(rt.alloc(), answer), "IO");
    holds(&rt, sink.into_slice() == FRONT, "the room is filled");
}
