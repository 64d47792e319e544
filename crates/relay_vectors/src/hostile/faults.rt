//! Devices that give and take a few bytes at a time, and a device that fails at one call, each in turn, over each
//! script in each form.

ghost use Rattle.std.specs.Prelude.{◌≤◌};

use super::cases::{Answer, Case, compare, each_case};
use crate::forms::{EACH_WAY, Taking, answer_over, run_over};
use crate::shown::{agrees, answer_text, holds, must};
use std::alloc::Global;
use std::process::Abort;
use sval_io::{FaultySink, VecSink};
use sval_relay::{FaultySource, MemSource, Source};

/// What is told of an output that fails.
const WRITE_FAULT: &'static [u8] = b"write fault\n";

/// What is told of an input that fails.
const READ_FAULT: &'static [u8] = b"read fault\n";

/// More calls than any device gets.
const CALLS: usize = 10_000;

/// What a case came to: a status, what was written, and what was told.
#[derive(Drop)]
struct Ran {
    status: u8,
    out: Vec<u8>,
    diag: Vec<u8>,
}

impl Ran {
    fn new(rt: &impl Abort, alloc: Global, status: u8, out: &[u8], diag: &[u8]) -> Ran {
        Ran {
            status,
            out: must(rt, Vec::from_slice(alloc, out)),
            diag: must(rt, Vec::from_slice(alloc, diag)),
        }
    }

    /// What a case comes to over these devices.
    fn over<I: Source, K: Taking, D: Taking>(
        rt: &impl Abort,
        alloc: Global,
        case: &Case,
        input: &mut I,
        out: &mut K,
        diag: &mut D,
    ) -> Ran {
        let status = run_over(rt, alloc, case.form, input, out, diag);
        Ran::new(rt, alloc, status, out.taken(), diag.taken())
    }

    fn answer(&self) -> Answer<'_> {
        (self.status, &self.out, &self.diag)
    }
}

/// Runs a case over an output that takes at most `chunk` bytes a call, and fails at this call.
fn write_at(rt: &impl Abort, alloc: Global, case: &Case, chunk: usize, call: u64) -> Ran
    requires { 1 ≤ chunk }
{
    let failing = [call];
    let mut input = MemSource::new(case.script.as_bytes());
    let mut out = FaultySink::new(alloc, chunk, &failing);
    let mut diag = VecSink::new(alloc);
    Ran::over(rt, alloc, case, &mut input, &mut out, &mut diag)
}

/// Runs a form over an output that takes at most `chunk` bytes a call, and fails at each of its calls in turn, until a
/// run meets no failure. The output has a first part of what is due. With one byte a call these are exactly the bytes
/// before the failure.
fn try_writes(rt: &impl Abort, alloc: Global, case: &Case, chunk: usize)
    requires { 1 ≤ chunk }
{
    for made in 0..CALLS {
        let ran = write_at(rt, alloc, case, chunk, made as u64 + 1);
        holds(rt, chunk > 1 || ran.out.len() == made, case.form);
        if ran.out.len() == case.out.len() {
            compare(rt, case, made, ran.answer(), case.answer());
            return;
        }
        holds(rt, case.out.as_bytes().starts_with(&ran.out), case.form);
        compare(rt, case, made, ran.answer(), (8, &ran.out, WRITE_FAULT));
    }
    holds(rt, false, case.form);
}

/// Runs a case over an input that gives seven bytes a call, and fails at this call.
fn read_at(rt: &impl Abort, alloc: Global, case: &Case, call: u64) -> Ran {
    let failing = [call];
    let mut input = FaultySource::new(case.script.as_bytes(), 7, &failing);
    let mut out = VecSink::new(alloc);
    let mut diag = VecSink::new(alloc);
    Ran::over(rt, alloc, case, &mut input, &mut out, &mut diag)
}

/// Runs a form over an input that gives seven bytes a call, and fails at each in turn, the one that sees the end too:
/// nothing is written. A failure behind that one isn't met.
fn try_reads(rt: &impl Abort, alloc: Global, case: &Case) {
    let parts = case.script.len().div_ceil(7);
    for made in 0..CALLS {
        let ran = read_at(rt, alloc, case, made as u64 + 1);
        if made > parts {
            compare(rt, case, made, ran.answer(), case.answer());
            return;
        }
        compare(rt, case, made, ran.answer(), (9, b"", READ_FAULT));
    }
    holds(rt, false, case.form);
}

/// Runs a case over a third device that takes one byte a call, and fails at this call.
fn report_at(rt: &impl Abort, alloc: Global, case: &Case, call: u64) -> Ran {
    let failing = [call];
    let mut input = MemSource::new(case.script.as_bytes());
    let mut out = VecSink::new(alloc);
    let mut diag = FaultySink::new(alloc, 1, &failing);
    Ran::over(rt, alloc, case, &mut input, &mut out, &mut diag)
}

/// Runs a form over a third device that takes one byte a call, and fails at each in turn until it meets no failure: it
/// has the bytes before the failure, and all else is as if it took them all.
fn try_reports(rt: &impl Abort, alloc: Global, case: &Case) {
    let (status, out, line) = case.answer();
    for made in 0..CALLS {
        let ran = report_at(rt, alloc, case, made as u64 + 1);
        let told = ran.diag.as_slice();
        holds(rt, told.len() == made && line.starts_with(told), case.form);
        compare(rt, case, made, ran.answer(), (status, out, told));
        if told.len() == line.len() {
            return;
        }
    }
    holds(rt, false, case.form);
}

/// Runs a case over devices that give at most `given` and take at most `taken` bytes a call.
fn run_in_parts(rt: &impl Abort, alloc: Global, case: &Case, given: usize, taken: usize) -> Ran
    requires gives { 1 ≤ given }
    requires takes { 1 ≤ taken }
{
    let mut input = FaultySource::new(case.script.as_bytes(), given, &[]);
    let mut out = FaultySink::new(alloc, taken, &[]);
    let mut diag = FaultySink::new(alloc, given, &[]);
    Ran::over(rt, alloc, case, &mut input, &mut out, &mut diag)
}

/// Runs a form over devices that give and take from 1 to 70 bytes a call at most.
fn try_sizes(rt: &impl Abort, alloc: Global, case: &Case) {
    for size in 1..71 {
        let ran = run_in_parts(rt, alloc, case, size, 71 - size);
        compare(rt, case, size, ran.answer(), case.answer());
    }
}

/// Outputs that fail take bytes one by one, and whole pieces.
#[test]
fn devices_in_each_case(rt: HostRuntime) {
    for case in &each_case(&rt, rt.alloc()) {
        try_writes(&rt, rt.alloc(), case, 1);
        try_writes(&rt, rt.alloc(), case, 1000);
        try_reads(&rt, rt.alloc(), case);
        try_reports(&rt, rt.alloc(), case);
        try_sizes(&rt, rt.alloc(), case);
    }
}

/// What is answered and written of a made script, and told, over an output and a third device that fail at the same
/// call, as two texts. The input, which would fail, isn't read.
fn made_at(rt: &impl Abort, alloc: Global, form: &str, call: u64) -> String {
    let failing = [call];
    let mut input = FaultySource::new(b"nil\n", 1, &[1]);
    let mut out = FaultySink::new(alloc, 1, &failing);
    let mut diag = FaultySink::new(alloc, 1, &failing);
    answer_over(rt, alloc, form, &mut input, &mut out, &mut diag)
}

/// The line of a made script over an output that fails at a call, and a third device that fails at the same one.
fn try_made(rt: &impl Abort, alloc: Global, form: &str, line: &[u8]) {
    for taken in 0..line.len() {
        let told = &WRITE_FAULT[..taken.min(WRITE_FAULT.len())];
        let due = answer_text(rt, alloc, 8, &line[..taken], told);
        agrees(rt, &made_at(rt, alloc, form, taken as u64 + 1), &due);
    }
}

#[test]
fn made_scripts(rt: HostRuntime) {
    try_made(&rt, rt.alloc(), "made 0", b"calls 2 json 2\n");
    try_made(&rt, rt.alloc(), "made 2", b"calls 28 json 43\n")
}

/// Calls at which the input fails, and the output; and the status, what is written, and what is told, of a third device
/// that fails at its fourth call.
const TOGETHER: [(&'static [u64], &'static [u64], &'static str); 4] = [
    (&[2], &[2], "9 |rea"),
    (&[1], &[], "9 |rea"),
    (&[], &[2], "8 t|wri"),
    (&[], &[], "0 true|"),
];

/// What a form answers, writes and tells where calls of all three devices fail.
fn run_failing(
    rt: &impl Abort,
    alloc: Global,
    form: &str,
    reads: &[u64],
    writes: &[u64],
) -> String {
    let mut input = FaultySource::new(b"bool true\n", 4, reads);
    let mut out = FaultySink::new(alloc, 1, writes);
    let mut diag = FaultySink::new(alloc, 1, &[4]);
    answer_over(rt, alloc, form, &mut input, &mut out, &mut diag)
}

/// Where two or all devices fail, the input's failure is the answer, and then the output's.
#[test]
fn devices_that_fail_together(rt: HostRuntime) {
    for form in &EACH_WAY {
        for (reads, writes, due) in &TOGETHER {
            agrees(&rt, &run_failing(&rt, rt.alloc(), form, reads, writes), due);
        }
    }
}
