//! A device that fails at one call, each in turn, in each program.

ghost use Rattle.std.specs.Prelude.{◌≤◌};

use crate::process::devices::Failing;
use crate::process::row::ProgramRow;
use crate::shown::{holds, must};
use std::alloc::Global;
use std::process::Abort;
use std::str::from_utf8;
use sval_io::{FaultySource, MemSource, RealSink, Source};
use sval_program::{Job, job};

/// What is told of an output that fails.
const WRITE_FAULT: &'static [u8] = b"write fault\n";

/// What is told of an input that fails.
const READ_FAULT: &'static [u8] = b"read fault\n";

/// How many bytes a source gives a call where it fails.
const PART: usize = 7;

/// The most bytes that are read, and how many are asked for at a time.
const LIMIT: usize = 16_777_216;

const ASKED: usize = 65_536;

/// A row, its words behind the program's name, and how many bytes each writer takes a call at most.
#[derive(Drop)]
struct Trial<'a> {
    alloc: Global,
    row: &'a ProgramRow<'a>,
    words: &'a [String],
    part: usize,
}

/// A status, and what the two writers got.
#[derive(Drop)]
struct Ran {
    status: u8,
    out: Failing,
    diag: Failing,
}

/// Runs a program over a source and two writers. Each writer fails at one call, if that is given.
fn run<J: Job, I: Source>(
    trial: &Trial<'_>,
    input: &mut I,
    out: Option<usize>,
    diag: Option<usize>,
) -> Ran {
    let mut out = Failing::new(trial.alloc, trial.part, out);
    let mut diag = Failing::new(trial.alloc, trial.part, diag);
    let status = job::run::<J, I, _, _>(
        trial.alloc,
        trial.words,
        input,
        &mut RealSink::new(&mut out),
        &mut RealSink::new(&mut diag),
    );
    Ran { status, out, diag }
}

impl Ran {
    /// The status, and what the writers took.
    fn answer(&self) -> (u8, &[u8], &[u8]) {
        (self.status, &self.out.taken, &self.diag.taken)
    }
}

/// Compares what a trial came to with a status, an output and a line.
fn compare(rt: &impl Abort, trial: &Trial<'_>, ran: &Ran, due: (u8, &[u8], &[u8])) {
    holds(rt, ran.answer() == due, trial.row.name);
}

/// The first bytes of these.
fn front(bytes: &[u8], count: usize) -> &[u8] {
    &bytes[..count.min(bytes.len())]
}

/// The row over an output that fails at each of its calls in turn. `marks` has the number of bytes that were taken
/// before each call. The flush, which comes after status 0 alone, is one of the calls. What was taken before stays, and
/// the status is 8.
fn try_writes<J: Job>(rt: &impl Abort, trial: &Trial<'_>, marks: &[usize]) {
    let row = trial.row;
    let flushes = usize::from(row.status == 0);
    holds(
        rt,
        trial.part > 1 || marks.len() == row.written.len() + flushes,
        row.name,
    );
    for (at, mark) in marks.iter().enumerate() {
        let mut input = MemSource::new(row.input);
        let ran = run::<J, _>(trial, &mut input, Some(at), None);
        compare(
            rt,
            trial,
            &ran,
            (8, front(&row.written, *mark), WRITE_FAULT),
        );
    }
}

/// The row with a fault at each call of the third device, the flush too, which is the last: it has what it took before,
/// and all else is as if it took its whole line.
fn try_reports<J: Job>(rt: &impl Abort, trial: &Trial<'_>, marks: &[usize]) {
    let row = trial.row;
    let told = marks.last().copied().unwrap_or(0);
    holds(rt, told == row.line.len(), row.name);
    for (at, mark) in marks.iter().enumerate() {
        let mut input = MemSource::new(row.input);
        let ran = run::<J, _>(trial, &mut input, None, Some(at));
        compare(
            rt,
            trial,
            &ran,
            (row.status, &row.written, front(&row.line, *mark)),
        );
    }
}

/// A fault at each call of a source that gives 7 bytes a call, that which sees the end too, before an output that would
/// fail: nothing is written, and the status is 9. One behind that isn't met; where the words are no form, none is.
fn try_reads<J: Job>(rt: &impl Abort, trial: &Trial<'_>) {
    let parts = trial.row.input.len().div_ceil(PART);
    let calls = if trial.row.status == 2 { 0 } else { parts + 1 };
    for at in 0..calls {
        let ran = read_at::<J>(trial, at as u64 + 1, Some(0));
        compare(rt, trial, &ran, (9, b"", READ_FAULT));
    }
    for at in calls..parts + 2 {
        let ran = read_at::<J>(trial, at as u64 + 1, None);
        compare(rt, trial, &ran, trial.row.answer());
    }
}

/// The row over a source that gives 7 bytes a call and fails at this one, counted from 1, and an output that
/// may fail at one, counted from 0.
fn read_at<J: Job>(trial: &Trial<'_>, call: u64, out: Option<usize>) -> Ran {
    let failing = [call];
    let mut input = FaultySource::new(trial.row.input, PART, &failing);
    run::<J, _>(trial, &mut input, out, None)
}

/// The row over devices that don't fail, and then with a fault at each call of each writer.
fn try_trial<J: Job>(rt: &impl Abort, trial: &Trial<'_>)
    requires { 1 ≤ trial.now.part }
{
    let mut input = FaultySource::new(trial.row.input, trial.part, &[]);
    let plain = run::<J, _>(trial, &mut input, None, None);
    compare(rt, trial, &plain, trial.row.answer());
    try_writes::<J>(rt, trial, &plain.out.marks);
    try_reports::<J>(rt, trial, &plain.diag.marks);
}

/// The words behind the program's name.
fn words_of(rt: &impl Abort, alloc: Global, row: &ProgramRow<'_>) -> Vec<String> {
    let mut words = Vec::new(alloc);
    for word in row.words.iter().skip(1) {
        let word = must(rt, from_utf8(word));
        must(rt, words.push(must(rt, String::from_str(alloc, word))));
    }
    words
}

/// A fault at each call of each writer, where devices give and take 1 byte, 7 and 1000 bytes a call at most, and at
/// each call of a source that gives 7.
pub(crate) fn try_faults<J: Job>(rt: &impl Abort, alloc: Global, row: &ProgramRow<'_>) {
    let words = words_of(rt, alloc, row);
    let mut trial = Trial {
        alloc,
        row,
        words: &words,
        part: 1,
    };
    try_trial::<J>(rt, &trial);
    trial.part = PART;
    try_trial::<J>(rt, &trial);
    try_reads::<J>(rt, &trial);
    trial.part = 1000;
    try_trial::<J>(rt, &trial);
}

/// The row's words over an input of one byte more than is read, from a source that fails at the call that sees that
/// there is more, or behind it: the output, which would fail, isn't written.
pub(crate) fn try_long<J: Job>(rt: &impl Abort, alloc: Global, row: &ProgramRow<'_>) {
    let words = words_of(rt, alloc, row);
    let trial = Trial {
        alloc,
        row,
        words: &words,
        part: PART,
    };
    let asked = (LIMIT / ASKED) as u64;
    try_call::<J>(rt, &trial, asked + 1, (9, b"", READ_FAULT));
    try_call::<J>(rt, &trial, asked + 2, (row.status, b"", &row.line));
}

/// The row's words over an input of one byte more than is read, from a source that fails at this call.
fn try_call<J: Job>(rt: &impl Abort, trial: &Trial<'_>, call: u64, due: (u8, &[u8], &[u8])) {
    let bytes = must(rt, vec![in trial.alloc; b' '; LIMIT + 1]);
    let failing = [call];
    let mut input = FaultySource::new(&bytes, ASKED, &failing);
    let ran = run::<J, _>(trial, &mut input, Some(0), None);
    holds(rt, ran.out.marks.is_empty(), trial.row.name);
    compare(rt, trial, &ran, due);
}
