//! The forms of the program's words, and a run of one over any devices.

use crate::shown::{answer_text, must};
use std::alloc::Global;
use std::io::{Read, Write};
use std::process::Abort;
use sval_io::{FaultySink, Sink, VecSink};
use sval_relay::{Source, relay_streams, run};

/// Each form that reads a script, its words with a space between two.
pub(crate) const FORMS: [&'static str; 10] = [
    "direct",
    "buffered",
    "direct beside",
    "buffered beside",
    "calls",
    "direct lines",
    "buffered lines",
    "direct beside lines",
    "buffered beside lines",
    "calls lines",
];

/// The forms that write one value's JSON with variants under their names.
pub(crate) const INSIDE: [&'static str; 2] = ["direct", "buffered"];

/// The forms that write one value's JSON.
pub(crate) const EACH_WAY: [&'static str; 4] = [
    "direct",
    "buffered",
    "direct beside",
    "buffered beside",
];

/// The forms that take many values.
pub(crate) const LISTS: [&'static str; 5] = [
    "direct lines",
    "buffered lines",
    "direct beside lines",
    "buffered beside lines",
    "calls lines",
];

/// What is written of a value.
#[derive(Clone, Copy)]
pub(crate) enum Text {
    /// JSON with variants under their names.
    Inside,
    /// JSON with variants beside their names.
    Beside,
    /// A canonical script.
    Calls,
}

/// What a form writes of a value.
pub(crate) fn text_of(form: &str) -> Text {
    if form.starts_with("calls") {
        Text::Calls
    } else if form.contains("beside") {
        Text::Beside
    } else {
        Text::Inside
    }
}

/// Whether a form takes many values.
pub(crate) fn takes_many(form: &str) -> bool {
    form.ends_with("lines")
}

/// The words of a form.
fn words_of(rt: &impl Abort, alloc: Global, form: &str) -> Vec<String> {
    let mut words = Vec::new(alloc);
    for word in form.split(' ') {
        must(rt, words.push(must(rt, String::from_str(alloc, word))));
    }
    words
}

/// Runs words over these devices, and answers the status. It promises nothing, so that tests have little to prove.
pub(crate) fn run_words<I: Source, K: Sink, D: Sink>(
    alloc: Global,
    words: &[String],
    input: &mut I,
    out: &mut K,
    diag: &mut D,
) -> u8 {
    run(alloc, words, input, out, diag)
}

/// Runs a form over std's readers and writers, and answers the status.
pub(crate) fn run_over_std<R: Read + Drop, W: Write + Drop>(
    rt: &impl Abort,
    alloc: Global,
    form: &str,
    input: R,
    out: &mut W,
    diag: &mut W,
) -> u8 {
    let words = words_of(rt, alloc, form);
    relay_streams(alloc, &words, input, out, diag)
}

/// Runs a form over these devices, and answers the status.
pub(crate) fn run_over<I: Source, K: Sink, D: Sink>(
    rt: &impl Abort,
    alloc: Global,
    form: &str,
    input: &mut I,
    out: &mut K,
    diag: &mut D,
) -> u8 {
    let words = words_of(rt, alloc, form);
    run_words(alloc, &words, input, out, diag)
}

/// A sink that shows what it has taken.
pub(crate) trait Taking: Sink {
    /// What it has taken.
    fn taken(&self) -> &[u8];
}

impl Taking for VecSink {
    fn taken(&self) -> &[u8] {
        self.as_slice()
    }
}

impl Taking for FaultySink<'_> {
    fn taken(&self) -> &[u8] {
        self.as_slice()
    }
}

/// Runs a form over these devices: the status, what was written, and behind a bar what was told.
pub(crate) fn answer_over<I: Source, K: Taking, D: Taking>(
    rt: &impl Abort,
    alloc: Global,
    form: &str,
    input: &mut I,
    out: &mut K,
    diag: &mut D,
) -> String {
    let status = run_over(rt, alloc, form, input, out, diag);
    answer_text(rt, alloc, status, out.taken(), diag.taken())
}
