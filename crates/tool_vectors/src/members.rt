//! An object of many members: none is lost, and the last is found.

use crate::converting::{Way, convert};
use crate::shown::{holds, must};
use std::alloc::Global;
use std::fmt::Write;
use std::process::Abort;
use sval_io::{MemSource, VecSink};
use sval_tool::{Shape, Target};

/// How many members there are.
const COUNT: usize = 100_000;

/// An object of a first member and this many behind it, and a line feed.
fn object_of(rt: &impl Abort, alloc: Global, count: usize) -> String {
    let mut text = must(rt, String::from_str(alloc, "{\"a\":0"));
    for number in 0..count {
        must(rt, write!(&mut text, ",\"{number}\":{number}"));
    }
    must(rt, text.push_str("}\n"));
    text
}

/// What is written of an object of all members without the member of this name.
fn written_without(rt: &impl Abort, alloc: Global, path: &'static str) -> Vec<u8> {
    let text = object_of(rt, alloc, COUNT);
    let way = Way {
        form: Shape::Lines,
        target: Target::Json,
        path,
    };
    let mut out = must(rt, VecSink::with_capacity(alloc, text.len()));
    must(
        rt,
        convert(rt, alloc, way, MemSource::new(text.as_bytes()), &mut out),
    );
    out.into_vec()
}

/// Compares what is written without a member of this name with an object of this many members.
fn try_without(rt: &impl Abort, alloc: Global, path: &'static str, count: usize) {
    let due = object_of(rt, alloc, count);
    let written = written_without(rt, alloc, path);
    holds(rt, written.as_slice() == due.as_bytes(), path);
}

#[test]
fn none_of_many_members_is_lost(rt: HostRuntime) {
    try_without(&rt, rt.alloc(), "", COUNT);
    try_without(&rt, rt.alloc(), "99999", COUNT - 1);
}
