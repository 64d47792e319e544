//! Devices that fail at one call, each in turn.

use crate::converting::{Way, convert};
use crate::shown::holds;
use std::alloc::Global;
use std::process::Abort;
use sval_io::{FaultySink, FaultySource, MemSource, VecSink};
use sval_lines::LineError;
use sval_tool::{ConvertError, Shape, Target};

/// Three lines. The second is empty.
const INPUT: &'static [u8] = b"{\"a\":[1,2]}\n\n{\"user\":{\"password\":1}}\n";

/// What is made of them.
const WAYS: [Way; 3] = [
    Way {
        form: Shape::Lines,
        target: Target::Json,
        path: "user.password",
    },
    Way {
        form: Shape::Lines,
        target: Target::Pretty,
        path: "",
    },
    Way {
        form: Shape::Lines,
        target: Target::Cbor,
        path: "user.password",
    },
];

/// What is written where nothing fails.
fn whole(rt: &impl Abort, alloc: Global, way: Way) -> Vec<u8> {
    let mut out = VecSink::new(alloc);
    let _ = convert(rt, alloc, way, MemSource::new(INPUT), &mut out);
    out.into_vec()
}

/// Something is written with this answer: a first part of what is due, and all of it where nothing failed.
fn try_part(
    rt: &impl Abort,
    alloc: Global,
    way: Way,
    written: &[u8],
    done: Result<(), ConvertError>,
) {
    let due = whole(rt, alloc, way);
    holds(rt, due.starts_with(written), way.path);
    holds(rt, done.is_err() || written == due.as_slice(), way.path);
}

/// The sink, which takes 3 bytes a call, fails at this call. It has a first part of what is due, and the error says so.
/// Gives whether it failed.
fn fails_to_write(rt: &impl Abort, alloc: Global, way: Way, at: u64) -> bool {
    let failing = [at];
    let mut out = FaultySink::new(alloc, 3, &failing);
    let done = convert(rt, alloc, way, MemSource::new(INPUT), &mut out);
    try_part(rt, alloc, way, out.as_slice(), done);
    holds(
        rt,
        matches!(done, Ok(()) | Err(ConvertError::Line { .. })),
        way.path,
    );
    done.is_err()
}

/// How many of the first calls fail, where each is tried in turn.
fn failed_writes(rt: &impl Abort, alloc: Global, way: Way) -> usize {
    let mut failed = 0_usize;
    for at in 1..60 {
        failed = failed.saturating_add(usize::from(fails_to_write(rt, alloc, way, at)));
    }
    failed
}

#[test]
fn keeps_a_first_part_at_each_fault_of_the_sink(rt: HostRuntime) {
    for way in &WAYS {
        let failed = failed_writes(&rt, rt.alloc(), *way);
        holds(&rt, failed > 3 && failed < 59, way.path);
    }
}

/// The source, which gives 5 bytes a call, fails at this call. What is due of the lines before is written. Gives whether
/// it failed.
fn fails_to_read(rt: &impl Abort, alloc: Global, way: Way, at: u64) -> bool {
    let failing = [at];
    let mut out = VecSink::new(alloc);
    let done = convert(
        rt,
        alloc,
        way,
        FaultySource::new(INPUT, 5, &failing),
        &mut out,
    );
    try_part(rt, alloc, way, out.as_slice(), done);
    let fault = Err(ConvertError::Unread(LineError::ReadFault));
    holds(rt, done == Ok(()) || done == fault, way.path);
    done.is_err()
}

/// How many of the first reads fail, where each is tried in turn.
fn failed_reads(rt: &impl Abort, alloc: Global, way: Way) -> usize {
    let mut failed = 0_usize;
    for at in 1..20 {
        failed = failed.saturating_add(usize::from(fails_to_read(rt, alloc, way, at)));
    }
    failed
}

#[test]
fn writes_what_is_due_of_the_lines_before_a_read_fault(rt: HostRuntime) {
    for way in &WAYS {
        let failed = failed_reads(&rt, rt.alloc(), *way);
        holds(&rt, failed > 3 && failed < 19, way.path);
    }
}
