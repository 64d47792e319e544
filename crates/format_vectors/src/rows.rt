//! Rows of tests: inputs, and what is due of each.
//!
//! A table of rows is a text of lines:
//!
//! ```text
//! TEXT          a line of an input; the first behind what is due begins another input
//! @ NAME COUNT  the lines of an input that several tables have, with the count in the place of `$`
//! = DUE         what is due of the input; there may be several
//! ```
//!
//! A blank line says nothing, and neither does one that begins with `# `. A line of an input that ends with `␄` has no
//! newline, and `␀`, `␉`, `␊`, `␍`, `␠` and `␡` are pictures of the letters that they stand for. Between two `¦` is
//! what no picture shows, in hex: `¦c328¦` is two bytes, and `¦600*33¦` is one byte 600 times.

use crate::inputs::lines_of;
use crate::shown::{holds, must};
use std::alloc::Global;
use std::process::Abort;

/// An input, and what is due of it.
#[derive(Drop)]
pub(crate) struct Row {
    pub(crate) input: Vec<u8>,
    pub(crate) due: String,
}

/// The rows of a table.
pub(crate) fn rows_of(rt: &impl Abort, alloc: Global, table: &str) -> Vec<Row> {
    let mut rows = Rows::new(alloc);
    for line in table.lines() {
        rows.take(rt, alloc, line);
    }
    holds(rt, rows.is_whole, "the last input, of which nothing is due");
    rows.rows
}

/// The rows that are read so far, and the lines of an input.
#[derive(Drop)]
struct Rows {
    rows: Vec<Row>,
    input: Vec<u8>,
    /// Whether something is due of the input, so that a further line begins another.
    is_whole: bool,
}

impl Rows {
    fn new(alloc: Global) -> Self {
        Rows {
            rows: Vec::new(alloc),
            input: Vec::new(alloc),
            is_whole: false,
        }
    }

    /// Takes a line of a table.
    fn take(&mut self, rt: &impl Abort, alloc: Global, line: &str) {
        if line.is_empty() || line.starts_with("# ") {
            return;
        }
        match line.strip_prefix("= ") {
            Some(due) => self.take_due(rt, alloc, due),
            None => self.take_input(rt, alloc, line),
        }
    }

    /// Takes what is due of the input.
    fn take_due(&mut self, rt: &impl Abort, alloc: Global, due: &str) {
        self.is_whole = true;
        let input = must(rt, Vec::from_slice(alloc, &self.input));
        let due = plain_text(rt, alloc, due);
        must(rt, self.rows.push(Row { input, due }));
    }

    /// Takes a line of an input, or the name of one that several tables have.
    fn take_input(&mut self, rt: &impl Abort, alloc: Global, line: &str) {
        if self.is_whole {
            self.input.clear();
            self.is_whole = false;
        }
        match line.strip_prefix("@ ") {
            Some(name) => add_named(rt, alloc, &mut self.input, name),
            None => add_line(rt, alloc, &mut self.input, line),
        }
    }
}

/// Adds the lines of an input that several tables have, with a count in the place of `$`.
fn add_named(rt: &impl Abort, alloc: Global, bytes: &mut Vec<u8>, words: &str) {
    let (name, count) = words.split_once(' ').unwrap_or((words, ""));
    let lines = must(rt, lines_of(name).replace(alloc, '$', count));
    add_text(rt, alloc, bytes, &lines);
}

/// Adds a line of an input: with a newline, unless it ends with `␄`.
fn add_line(rt: &impl Abort, alloc: Global, bytes: &mut Vec<u8>, line: &str) {
    match line.split_once('␄') {
        Some((text, _behind)) => add_text(rt, alloc, bytes, text),
        None => {
            add_text(rt, alloc, bytes, line);
            must(rt, bytes.push(b'\n'));
        }
    }
}

/// Adds a text of a table: letters, and in turns what is between two `¦`.
pub(crate) fn add_text(rt: &impl Abort, alloc: Global, bytes: &mut Vec<u8>, shown: &str) {
    let mut is_between = false;
    for piece in shown.split('¦') {
        if is_between {
            add_run(rt, alloc, bytes, piece);
        } else {
            let text = plain_text(rt, alloc, piece);
            must(rt, bytes.extend_from_slice(text.as_bytes()));
        }
        is_between = !is_between;
    }
}

/// Adds what is between two `¦`: bytes, or bytes that are repeated.
fn add_run(rt: &impl Abort, alloc: Global, bytes: &mut Vec<u8>, run: &str) {
    let (count, run) = run.split_once('*').unwrap_or(("1", run));
    let digits = must(rt, run.repeat(alloc, must(rt, count.parse::<usize>())));
    let run = must(rt, hex::decode(alloc, &digits));
    must(rt, bytes.extend_from_slice(&run));
}

/// A text of a table, with the letters that its pictures stand for.
fn plain_text(rt: &impl Abort, alloc: Global, shown: &str) -> String {
    let mut text = String::new(alloc);
    for letter in shown.chars() {
        must(rt, text.push(plain(letter)));
    }
    text
}

/// The letter that a picture stands for, and any other letter as it is.
fn plain(letter: char) -> char {
    match letter {
        '␀' => '\0',
        '␉' => '\t',
        '␊' => '\n',
        '␍' => '\r',
        '␠' => ' ',
        '␡' => '\u{7f}',
        other => other,
    }
}
