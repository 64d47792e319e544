//! Which slices a script has, and the lines of each.

use crate::shown::{compare, must};
use std::alloc::Global;
use std::process::Abort;
use sval_core::Value;
use sval_io::VecSink;
use sval_script::{Printer, Script};

/// Two values between others, with the texts and numbers that are kept beside their lines.
const VALUES: &'static str = "u64 1\n\
    text_begin -\ntext_fragment =6162\ntext_end\n\
    tag - =c3a9 -7\n\
    u128 18446744073709551616\n";

/// The first line of a slice, the line behind its last, and its lines.
const SLICES: [(u64, u64, Option<&'static str>); 9] = [
    (0, 0, Some("")),
    (0, 6, Some(VALUES)),
    (1, 4, Some("text_begin -\ntext_fragment =6162\ntext_end\n")),
    (4, 5, Some("tag - =c3a9 -7\n")),
    (5, 6, Some("u128 18446744073709551616\n")),
    (6, 6, Some("")),
    (5, 4, None),
    (6, 7, None),
    (7, 7, None),
];

/// How many lines the slice from `from` to `to` has, and these lines, or that there is no slice.
fn slice_of(rt: &impl Abort, alloc: Global, script: &Script, from: u64, to: u64) -> String {
    let Some(slice) = script.slice(from, to) else {
        return must(rt, String::from_str(alloc, "no slice"));
    };
    let mut printer = Printer::new(VecSink::new(alloc));
    must(rt, slice.stream(&mut printer));
    let lines = must(rt, String::from_utf8(printer.into_inner().into_vec()));
    must(
        rt,
        format!(in alloc; "{} lines: {lines}", slice.line_count()),
    )
}

/// What is due of these lines from one place to another.
fn slice_due(rt: &impl Abort, alloc: Global, from: u64, to: u64, lines: Option<&str>) -> String {
    let due = match lines {
        Some(lines) => format!(in alloc; "{} lines: {lines}", to.saturating_sub(from)),
        None => String::from_str(alloc, "no slice"),
    };
    must(rt, due)
}

#[test]
fn has_the_lines_of_its_place(rt: HostRuntime) {
    let script = must(&rt, Script::read(rt.alloc(), VALUES.as_bytes()));
    for (from, to, lines) in &SLICES {
        let seen = slice_of(&rt, rt.alloc(), &script, *from, *to);
        let due = slice_due(&rt, rt.alloc(), *from, *to, *lines);
        compare(&rt, &seen, &due, "a slice");
    }
}
