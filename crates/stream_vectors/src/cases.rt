//! Tables of scripts, and what is seen of the calls of each.

use crate::replayed::captured;
use crate::{checked, collected, replayed, written};
use std::alloc::Global;
use std::fmt::Debug;
use std::process::Abort;
use sval_buffer::ValueBuf;
use sval_json::Variants;
use sval_script::Script;

/// What is looked at, of the calls of a script.
#[derive(Clone, Copy)]
pub(crate) enum Look {
    /// What checking says of them.
    Check,
    /// What a checked stream passes on, of the calls before the first that it refuses.
    Passed,
    /// What a checked stream over one with so much room answers to each of them.
    Answers(usize),
    /// What a buffer captures of them, and why it refused any.
    Captured,
    /// The text that is collected of what a buffer captures of them.
    Text,
    /// The binary that is collected of what a buffer captures of them.
    Binary,
    /// The JSON of what a buffer captures of them.
    Json(Variants),
}

/// Looks at the calls of a script.
fn look_at(rt: &impl Abort, alloc: Global, look: Look, script: &Script) -> String {
    match look {
        Look::Check => checked::spelled(rt, alloc, script),
        Look::Passed => checked::passed(rt, alloc, script),
        Look::Answers(room) => checked::answers(rt, alloc, script, room),
        Look::Captured => replayed::replayed(rt, alloc, script),
        _ => look_at_captured(rt, alloc, look, &captured(alloc, script)),
    }
}

/// Looks at what a buffer captured of the calls of a script.
fn look_at_captured(rt: &impl Abort, alloc: Global, look: Look, value: &ValueBuf<'_>) -> String {
    match look {
        Look::Binary => collected::binary_of(rt, alloc, value),
        Look::Json(variants) => written::written(rt, alloc, value, variants),
        _ => collected::text_of(rt, alloc, value),
    }
}

/// Looks at each case of a table.
///
/// A case is the lines of a script and, behind `= `, what is to be seen of its calls. The next line begins another
/// script. A blank line says nothing. A line that ends with `␄` has no newline, and `␊` stands for one in what is to be
/// seen.
fn agree(rt: &impl Abort, alloc: Global, look: Look, table: &'static str) {
    let mut lines = String::new(alloc);
    let mut is_whole = false;
    for line in table.lines() {
        if line.is_empty() {
            continue;
        }
        if let Some(want) = line.strip_prefix("= ") {
            try_case(rt, alloc, look, &lines, want);
            is_whole = true;
        } else {
            if is_whole {
                lines.clear();
                is_whole = false;
            }
            add_line(rt, &mut lines, line);
        }
    }
    holds(rt, is_whole, lines.as_str());
}

/// Compares what is seen of a script with what is to be seen.
fn try_case(rt: &impl Abort, alloc: Global, look: Look, lines: &str, want: &str) {
    let script = must(rt, Script::read(alloc, lines.as_bytes()));
    let seen = look_at(rt, alloc, look, &script);
    compare(rt, &seen, &plain_text(rt, alloc, want), lines);
}

/// Adds a line of a table to a script: with a newline, unless it ends with `␄`.
fn add_line(rt: &impl Abort, lines: &mut String, line: &str) {
    match line.strip_suffix("␄") {
        Some(text) => push(rt, lines, text),
        None => {
            push(rt, lines, line);
            push(rt, lines, "\n");
        }
    }
}

/// A text of a table, with newlines in the places of their pictures.
fn plain_text(rt: &impl Abort, alloc: Global, shown: &str) -> String {
    must(rt, shown.replace(alloc, '␊', "\n"))
}

/// What is found. The test ends where that is an error.
pub(crate) fn must<T, E: Debug>(rt: &impl Abort, found: Result<T, E>) -> T {
    found.expect(rt, "a call failed")
}

/// Adds a text to another.
pub(crate) fn push(rt: &impl Abort, text: &mut String, more: &str) {
    must(rt, text.push_str(more));
}

/// Asserts that a text was made, and that it is what is to be seen.
pub(crate) fn shows<E: Debug>(rt: &impl Abort, seen: Result<String, E>, want: &str) {
    agrees(rt, &must(rt, seen), want);
}

/// Compares a text with what is to be seen.
pub(crate) fn agrees(rt: &impl Abort, seen: &str, want: &str) {
    compare(rt, seen, want, want);
}

/// Compares what is seen with what is to be seen. A failure names `place`.
pub(crate) fn compare(rt: &impl Abort, seen: &str, want: &str, place: &str) {
    assert_eq!(rt; seen, want, "of {place}");
}

/// Asserts what is so. A failure names `place`.
pub(crate) fn holds(rt: &impl Abort, is_so: bool, place: &str) {
    assert!(rt; is_so, "{place}");
}

/// What is looked at in each table.
const TABLES: [(Look, &'static str); 10] = [
    (Look::Check, checked::SPELLED),
    (Look::Passed, checked::COMPLETED),
    (Look::Answers(9), checked::VIABLE),
    (Look::Answers(1), checked::REFUSED_INSIDE),
    (Look::Text, collected::TEXTS),
    (Look::Binary, collected::BINARIES),
    (Look::Captured, replayed::CALLS),
    (Look::Captured, replayed::NAMES),
    (Look::Json(Variants::Inside), written::INSIDE),
    (Look::Json(Variants::Beside), written::BESIDE),
];

#[test]
fn calls_of_scripts_show_what_is_due(rt: HostRuntime) {
    for (look, table) in &TABLES {
        agree(&rt, rt.alloc(), *look, table);
    }
}
