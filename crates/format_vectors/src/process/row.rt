//! Rows of programs: words, an input, and what they give.

use crate::rows::{Row, add_text};
use crate::shown::must;
use std::alloc::Global;
use std::process::Abort;

/// Words and an input, and the status, the output and the line that they give.
#[derive(Drop)]
pub(crate) struct ProgramRow<'a> {
    /// The words as the table has them.
    pub(crate) name: &'a str,
    pub(crate) words: Vec<Vec<u8>>,
    pub(crate) input: &'a [u8],
    pub(crate) status: u8,
    pub(crate) written: Vec<u8>,
    pub(crate) line: Vec<u8>,
}

impl<'a> ProgramRow<'a> {
    /// Reads what is due, `WORDS: STATUS TEXT|LINE`: the words of a process, its program's name first, and the status,
    /// the output and the line that they give for an input.
    pub(crate) fn read(rt: &impl Abort, alloc: Global, row: &'a Row, due: &'a str) -> Self {
        let (name, given) = due.split_once(": ").unwrap_or((due, ""));
        let (status, told) = given.split_once(' ').unwrap_or((given, ""));
        let (written, line) = told.split_once('|').unwrap_or((told, ""));
        ProgramRow {
            name,
            words: words_of(rt, alloc, name),
            input: &row.input,
            status: must(rt, status.parse::<u8>()),
            written: bytes_of(rt, alloc, written),
            line: bytes_of(rt, alloc, line),
        }
    }

    /// The status, the output and the line.
    pub(crate) fn answer(&self) -> (u8, &[u8], &[u8]) {
        (self.status, &self.written, &self.line)
    }
}

/// The bytes of a text of a table.
fn bytes_of(rt: &impl Abort, alloc: Global, shown: &str) -> Vec<u8> {
    let mut bytes = Vec::new(alloc);
    add_text(rt, alloc, &mut bytes, shown);
    bytes
}

/// The words of a row, with a space between two.
fn words_of(rt: &impl Abort, alloc: Global, shown: &str) -> Vec<Vec<u8>> {
    let mut words = Vec::new(alloc);
    for word in shown.split_whitespace() {
        must(rt, words.push(bytes_of(rt, alloc, word)));
    }
    words
}
