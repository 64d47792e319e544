//! Lines of sources that give little at a time, and of one that fails.

ghost use Rattle.std.specs.Prelude.{◌≤◌};

use crate::shown::{compare, holds, must};
use std::alloc::Global;
use std::fmt::Write;
use std::process::Abort;
use sval_io::FaultySource;
use sval_lines::{LineError, Lines};

/// An input, and its lines that aren't empty, with their numbers.
const ROWS: [(&'static str, &'static str); 7] = [
    ("", ""),
    ("\n\n", ""),
    ("a", "1 a;"),
    ("a\nb\n", "1 a;2 b;"),
    ("\n\na\n\nbc", "3 a;5 bc;"),
    ("a\r\n \n", "1 a\r;2  ;"),
    ("{\"a\":1}\n{\"a\":2}", "1 {\"a\":1};2 {\"a\":2};"),
];

/// Reads the next line, if there is one, and puts it and its number behind what was given.
fn give_line(rt: &impl Abort, lines: &mut Lines<FaultySource<'_>>, given: &mut String) {
    if must(rt, lines.next_line()) {
        let number = lines.number();
        let line = must(rt, str::from_utf8(lines.line()));
        must(rt, write!(given, "{number} {line};"));
    }
}

/// The first three lines of an input that aren't empty, with their numbers. A read gives `chunk` bytes at most.
fn lines_given(rt: &impl Abort, alloc: Global, input: &str, chunk: usize) -> String
    requires { 1 ≤ chunk }
{
    let source = FaultySource::new(input.as_bytes(), chunk, &[]);
    let mut lines = must(rt, Lines::new(alloc, source));
    let mut given = String::new(alloc);
    give_line(rt, &mut lines, &mut given);
    give_line(rt, &mut lines, &mut given);
    give_line(rt, &mut lines, &mut given);
    given
}

#[test]
fn gives_the_lines_of_its_rows(rt: HostRuntime) {
    for (input, due) in &ROWS {
        compare(&rt, &lines_given(&rt, rt.alloc(), input, 1), due, input);
        compare(&rt, &lines_given(&rt, rt.alloc(), input, 3), due, input);
    }
}

#[test]
fn keeps_what_was_read_before_a_fault(rt: HostRuntime) {
    let source = FaultySource::new(b"a\nbc\n".as_slice(), 3, &[2]);
    let mut lines = must(&rt, Lines::new(rt.alloc(), source));
    holds(&rt, lines.next_line() == Ok(true), "the first line");
    holds(
        &rt,
        lines.next_line() == Err(LineError::ReadFault),
        "the fault",
    );
    holds(
        &rt,
        lines.line() == b"b".as_slice(),
        "what was read before it",
    );
    holds(&rt, lines.number() == 1, "the number");
}
