//! Scripts with what is due of each, as rows of text, and what tries them.
//!
//! A row is the lines of a script and, behind them, lines that say what is due of it:
//!
//! ```text
//! = json TEXT          its JSON
//! = inside TEXT        its JSON with variants inside an object under their names
//! = beside TEXT        its JSON with variants beside their names
//! = bad-key TEXT       a key is no text, and this is written before it
//! = bad-number TEXT    a number is none, and this is written before its fault
//! = bad-line N         line N is no call
//! = bad-call N         no value goes on with the call of line N, nor does a list of values
//! = second N           a second value begins at line N
//! = unfinished         its calls are not one whole value
//! = lines              each of its lines is a call, whatever they spell
//! = canon LINES        its calls are printed canonically as these lines
//! = captured COMPLETE, ERROR: LINES    what is captured of its calls, one by one ([`captured_of`])
//! = captured-json TEXT the JSON of what is captured of its calls, one by one
//! = run WORDS: STATUS TEXT|LINE    what a run in these words answers, writes and tells
//! ```
//!
//! A blank line says nothing, and neither does one that begins with `# `. A script's line that ends with `␄` has no
//! newline, and `␀`, `␉`, `␊`, `␍`, `␠` and `␡` are pictures of the letters that they stand for.

use crate::captured::{captured_json_of, captured_of};
use crate::forms::{EACH_WAY, LISTS, answer_over, run_over, run_over_std};
use crate::pictures::{add_line, plain_text};
use crate::shown::{answer_text, compare, holds, must};
use std::alloc::Global;
use std::process::Abort;
use sval_check::{Checked, check, check_into};
use sval_core::Value;
use sval_io::{FaultySink, VecSink};
use sval_relay::MemSource;
use sval_script::{Printer, Script, print_canon};

/// Tries each row.
pub(crate) fn try_rows(rt: &impl Abort, alloc: Global, rows: &str) {
    let mut script = String::new(alloc);
    let mut is_whole = false;
    for line in rows.lines() {
        if line.is_empty() || line.starts_with("# ") {
            continue;
        }
        if let Some(due) = line.strip_prefix("= ") {
            try_row(rt, alloc, &script, &plain_text(rt, alloc, due));
            is_whole = true;
        } else {
            if is_whole {
                script.clear();
                is_whole = false;
            }
            add_line(rt, &mut script, line);
        }
    }
}

/// Tries a script at what is due of it.
fn try_row(rt: &impl Abort, alloc: Global, script: &str, due: &str) {
    let (kind, rest) = due.split_once(' ').unwrap_or((due, ""));
    match kind {
        "run" => try_run(rt, alloc, script, rest),
        "canon" => compare(rt, &canon_of(rt, alloc, script), rest, script),
        "captured" => compare(rt, &captured_of(rt, alloc, script), rest, script),
        "captured-json" => compare(rt, &captured_json_of(rt, alloc, script), rest, script),
        "lines" => try_reading(rt, alloc, script, kind, rest),
        _ => {
            try_reading(rt, alloc, script, kind, rest);
            try_checking(rt, alloc, script, kind, rest);
            try_ways(rt, alloc, script, kind, rest)
        }
    }
}

/// Runs a form on a script. `row` has the form, and what is due.
fn try_run(rt: &impl Abort, alloc: Global, script: &str, row: &str) {
    let (form, due) = row.split_once(": ").unwrap_or((row, ""));
    try_way(rt, alloc, form, script, due)
}

/// A script's calls, printed canonically.
fn canon_of(rt: &impl Abort, alloc: Global, script: &str) -> String {
    let read = must(rt, Script::read(alloc, script.as_bytes()));
    let mut sink = VecSink::new(alloc);
    must(rt, print_canon(&read.as_slice(), &mut sink));
    must(rt, String::from_utf8(sink.into_vec()))
}

/// How many lines a script has, or which of them is no call.
fn reading_of(rt: &impl Abort, alloc: Global, script: &str) -> String {
    let seen = match Script::read(alloc, script.as_bytes()) {
        Ok(read) => format!(in alloc; "{} lines", read.line_count()),
        Err(error) => format!(in alloc; "{error:?}"),
    };
    must(rt, seen)
}

/// What is due of reading a script.
fn reading_due(rt: &impl Abort, alloc: Global, script: &str, kind: &str, rest: &str) -> String {
    let due = if kind == "bad-line" {
        format!(in alloc; "BadLine {{ line: {rest} }}")
    } else {
        format!(in alloc; "{} lines", script.lines().count())
    };
    must(rt, due)
}

/// Reads a script: how many lines it has, or which of them is no call.
fn try_reading(rt: &impl Abort, alloc: Global, script: &str, kind: &str, rest: &str) {
    let seen = reading_of(rt, alloc, script);
    let due = reading_due(rt, alloc, script, kind, rest);
    compare(rt, &seen, &due, script);
}

/// What checking says of a script's calls, also on the way to a printer.
fn checking_of(rt: &impl Abort, alloc: Global, script: &str) -> String {
    let read = must(rt, Script::read(alloc, script.as_bytes()));
    let answer = check(alloc, &read);
    let is_passed_on = check_into(alloc, &read, Printer::new(VecSink::new(alloc))).is_some();
    holds(rt, is_passed_on == answer.is_ok(), script);
    must(rt, format!(in alloc; "{answer:?}"))
}

/// What is due of checking a script.
fn checking_due(rt: &impl Abort, alloc: Global, kind: &str, rest: &str) -> String {
    let due = match kind {
        "bad-call" | "second" => format!(in alloc; "Err(BadCall {{ at: {rest} }})"),
        "unfinished" => String::from_str(alloc, "Err(Unfinished)"),
        _ => String::from_str(alloc, "Ok(())"),
    };
    must(rt, due)
}

/// Checks a script whose lines are calls.
fn try_checking(rt: &impl Abort, alloc: Global, script: &str, kind: &str, rest: &str) {
    if kind == "bad-line" {
        return;
    }
    let due = checking_due(rt, alloc, kind, rest);
    compare(rt, &checking_of(rt, alloc, script), &due, script);
    if due.starts_with("Err(BadCall") {
        try_refused(rt, alloc, script, rest);
    }
}

/// Streams a script's calls into a `Checked`, which refuses the one of this line.
fn try_refused(rt: &impl Abort, alloc: Global, script: &str, line: &str) {
    let due = must(rt, format!(in alloc; "Some(NotViable) at line {line}"));
    compare(rt, &checked_calls(rt, alloc, script), &due, script);
}

/// Why a `Checked` refused a call of a script, and the line behind those of the calls that it took.
fn checked_calls(rt: &impl Abort, alloc: Global, text: &str) -> String {
    let script = must(rt, Script::read(alloc, text.as_bytes()));
    let mut checked = Checked::new(alloc, Printer::new(VecSink::new(alloc)));
    let _answer = script.stream(&mut checked);
    let why = checked.why();
    let taken = checked.into_inner().into_inner().into_vec();
    if !text.as_bytes().starts_with(&taken) {
        return must(rt, String::from_str(alloc, "other calls"));
    }
    must(
        rt,
        format!(in alloc; "{why:?} at line {}", newlines(&taken).saturating_add(1)),
    )
}

/// How many newlines there are.
fn newlines(bytes: &[u8]) -> usize {
    bytes.iter().filter(|byte| **byte == b'\n').count()
}

/// The status of a run on a script in memory, what it wrote, and behind a bar what it told.
pub(crate) fn run_in(rt: &impl Abort, alloc: Global, form: &str, script: &str) -> String {
    let mut input = MemSource::new(script.as_bytes());
    let mut out = VecSink::new(alloc);
    let mut diag = VecSink::new(alloc);
    answer_over(rt, alloc, form, &mut input, &mut out, &mut diag)
}

/// The status, the output and the line of a form on a script, over std's readers and writers.
pub(crate) fn run_over_streams(rt: &impl Abort, alloc: Global, form: &str, script: &str) -> String {
    let mut out = Vec::new(alloc);
    let mut diag = Vec::new(alloc);
    let status = run_over_std(rt, alloc, form, script.as_bytes(), &mut out, &mut diag);
    answer_text(rt, alloc, status, &out, &diag)
}

/// What is due of a run that writes JSON.
fn json_due(rt: &impl Abort, alloc: Global, kind: &str, rest: &str) -> String {
    let due = match kind {
        "bad-line" => format!(in alloc; "3 |line {rest}: not a call\n"),
        "bad-call" | "second" => {
            format!(in alloc; "4 |line {rest}: no value goes on with this call\n")
        }
        "unfinished" => String::from_str(alloc, "5 |the calls are not one whole value\n"),
        "bad-key" => format!(in alloc; "6 {rest}|attempt to serialize a non-string key\n"),
        "bad-number" => format!(in alloc; "7 {rest}|attempt to serialize an invalid number\n"),
        _ => format!(in alloc; "0 {rest}|"),
    };
    must(rt, due)
}

/// Whether a row of a kind tells of the JSON that a way writes.
fn tells_of(kind: &str, way: &str) -> bool {
    match kind {
        "inside" => !way.ends_with("beside"),
        "beside" => way.ends_with("beside"),
        _ => true,
    }
}

/// Runs a way on a script, over memory and over std's readers and writers.
fn try_way(rt: &impl Abort, alloc: Global, way: &str, script: &str, due: &str) {
    compare(rt, &run_in(rt, alloc, way, script), due, script);
    compare(rt, &run_over_streams(rt, alloc, way, script), due, script);
}

/// Runs each way on a script, and prints the script's calls.
fn try_ways(rt: &impl Abort, alloc: Global, script: &str, kind: &str, rest: &str) {
    let due = json_due(rt, alloc, kind, rest);
    for way in &EACH_WAY {
        if tells_of(kind, way) {
            try_way(rt, alloc, way, script, &due);
        }
    }
    try_reports(rt, alloc, script, &due);
    try_calls(rt, alloc, script, kind, rest, &due)
}

/// Prints a script's calls, where what is due tells of them.
fn try_calls(rt: &impl Abort, alloc: Global, script: &str, kind: &str, rest: &str, due: &str) {
    match kind {
        "beside" => (),
        "bad-line" | "second" | "unfinished" => try_in_memory(rt, alloc, "calls", script, due),
        "bad-call" => {
            try_in_memory(rt, alloc, "calls", script, due);
            try_behind_a_value(rt, alloc, script, rest)
        }
        _ => try_canonical(rt, alloc, script, due),
    }
}

/// Runs a form on a script over memory.
fn try_in_memory(rt: &impl Abort, alloc: Global, form: &str, script: &str, due: &str) {
    compare(rt, &run_in(rt, alloc, form, script), due, script);
}

/// The status of a run on a script, and a space, where the third device fails at this call.
fn status_at(rt: &impl Abort, alloc: Global, script: &str, failing: u64) -> String {
    let failing = [failing];
    let mut input = MemSource::new(script.as_bytes());
    let mut out = VecSink::new(alloc);
    let mut diag = FaultySink::new(alloc, 1, &failing);
    let status = run_over(rt, alloc, "direct", &mut input, &mut out, &mut diag);
    must(rt, format!(in alloc; "{status} "))
}

/// A line that isn't taken changes no status.
fn try_reports(rt: &impl Abort, alloc: Global, script: &str, due: &str) {
    for failing in 1..4 {
        let status = status_at(rt, alloc, script, failing);
        holds(rt, due.starts_with(status.as_str()), script);
    }
}

/// Runs each form that takes many values on a script behind a value.
fn try_behind_a_value(rt: &impl Abort, alloc: Global, script: &str, line: &str) {
    let behind = must(rt, format!(in alloc; "null\n{script}"));
    let line = must(rt, line.parse::<u64>()).saturating_add(1);
    let due = must(
        rt,
        format!(in alloc; "4 |line {line}: no value goes on with this call\n"),
    );
    for form in &LISTS {
        try_in_memory(rt, alloc, form, &behind, &due);
    }
}

/// Prints a script's canonical one, which gives the same JSON, or the same refusal of it, and prints as itself.
fn try_canonical(rt: &impl Abort, alloc: Global, script: &str, due: &str) {
    let printed = run_in(rt, alloc, "calls", script);
    let (status, rest) = printed.split_once(' ').unwrap_or(("", ""));
    let (lines, told) = rest.split_once('|').unwrap_or((rest, "no bar"));
    compare(rt, status, "0", script);
    compare(rt, told, "", script);
    try_in_memory(rt, alloc, "direct", lines, due);
    try_in_memory(rt, alloc, "calls", lines, &printed)
}
