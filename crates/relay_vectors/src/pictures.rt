//! Letters that a table can't show, as pictures of them.

use crate::shown::{must, push};
use std::alloc::Global;
use std::process::Abort;

/// The letter that a picture stands for, and any other letter as it is.
fn plain(letter: char) -> char {
    match letter {
        '␀' => '\0',
        '␉' => '\t',
        '␊' => '\n',
        '␍' => '\r',
        '␠' => ' ',
        '␡' => '\u{7f}',
        other => other,
    }
}

/// A text of a table, with the letters that its pictures stand for.
pub(crate) fn plain_text(rt: &impl Abort, alloc: Global, shown: &str) -> String {
    let mut text = String::new(alloc);
    for letter in shown.chars() {
        must(rt, text.push(plain(letter)));
    }
    text
}

/// Adds a line of a table to a script: with a newline, unless it ends with `␄`.
pub(crate) fn add_line(rt: &impl Abort, script: &mut String, shown: &str) {
    let mut newline = true;
    for letter in shown.chars() {
        if letter == '␄' {
            newline = false;
        } else {
            must(rt, script.push(plain(letter)));
        }
    }
    if newline {
        push(rt, script, "\n");
    }
}
