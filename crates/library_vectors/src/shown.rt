//! What tests take for sure, what compares what they saw with what is due, and what is seen of values: texts, the lines
//! of their calls, and their JSON.

use std::alloc::Global;
use std::fmt::Debug;
use std::process::Abort;
use sval_core::{Lent, Value};
use sval_io::VecSink;
use sval_json::stream_to_string;
use sval_script::{Printer, Script};

/// What is found. The test ends where that is an error.
pub(crate) fn must<T, E: Debug>(rt: &impl Abort, found: Result<T, E>) -> T {
    found.expect(rt, "a call failed")
}

/// A copy of a text.
pub(crate) fn copy_of(rt: &impl Abort, alloc: Global, text: &str) -> String {
    must(rt, String::from_str(alloc, text))
}

/// The script of these lines.
pub(crate) fn script_of(rt: &impl Abort, alloc: Global, lines: &str) -> Script {
    must(rt, Script::read(alloc, lines.as_bytes()))
}

/// Asserts that a text was made, and that it is this one.
pub(crate) fn shows<E: Drop>(rt: &impl Abort, seen: Result<String, E>, want: &str) {
    match seen {
        Ok(text) => compare(rt, text.as_str(), want),
        Err(_) => holds(rt, false, "a text is made"),
    }
}

/// Compares a text with what is due.
pub(crate) fn compare(rt: &impl Abort, seen: &str, want: &str) {
    assert_eq!(rt; seen, want);
}

/// Asserts what is so. A failure names `what`.
pub(crate) fn holds(rt: &impl Abort, is_so: bool, what: &str) {
    assert!(rt; is_so, "{what}");
}

/// What prints calls as the lines of a script.
pub(crate) fn new_printer(alloc: Global) -> Printer<VecSink> {
    Printer::new(VecSink::new(alloc))
}

/// Asserts that these lines were printed.
pub(crate) fn has_printed(rt: &impl Abort, printer: Printer<VecSink>, lines: &str) {
    shows(
        rt,
        String::from_utf8(printer.into_inner().into_vec()),
        lines,
    );
}

/// Asserts that a value makes the calls of these lines.
pub(crate) fn makes<'v, V: Value<'v, Lent<'v>>>(
    rt: &impl Abort,
    alloc: Global,
    value: &'v V,
    lines: &str,
) {
    let mut printer = new_printer(alloc);
    holds(rt, value.stream(&mut printer).is_ok(), "the value streams");
    has_printed(rt, printer, lines);
}

/// Asserts that this is a value's JSON.
pub(crate) fn writes<'v, V: Value<'v, Lent<'v>>>(
    rt: &impl Abort,
    alloc: Global,
    value: &'v V,
    json: &str,
) {
    shows(rt, stream_to_string(alloc, value), json);
}
