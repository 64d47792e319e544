//! What tests take for sure, what is seen of runs and of answers, as texts, and what compares it with what is due. Each
//! ends the test where it isn't so, so that a test has nothing left to prove of an error.

use std::alloc::Global;
use std::fmt::Debug;
use std::process::Abort;

/// What is found. The test ends where that is an error.
pub(crate) fn must<T, E: Debug>(rt: &impl Abort, found: Result<T, E>) -> T {
    found.expect(rt, "a call failed")
}

/// Adds a text to another.
pub(crate) fn push(rt: &impl Abort, text: &mut String, more: &str) {
    must(rt, text.push_str(more));
}

/// Compares what is seen with what is due. A failure names `place`.
pub(crate) fn compare(rt: &impl Abort, seen: &str, due: &str, place: &str) {
    assert_eq!(rt; seen, due, "at {place:?}");
}

/// Compares what is seen with what is due.
pub(crate) fn agrees(rt: &impl Abort, seen: &str, due: &str) {
    compare(rt, seen, due, due);
}

/// Compares a text that was made with what is due.
pub(crate) fn shows<E: Debug>(rt: &impl Abort, seen: Result<String, E>, due: &str) {
    agrees(rt, &must(rt, seen), due);
}

/// Asserts what is so. A failure names `place`.
pub(crate) fn holds(rt: &impl Abort, is_so: bool, place: &str) {
    assert!(rt; is_so, "at {place:?}");
}

/// A status, what was written, and behind a bar what was told.
pub(crate) fn answer_text(
    rt: &impl Abort,
    alloc: Global,
    status: u8,
    out: &[u8],
    diag: &[u8],
) -> String {
    let out = must(rt, std::str::from_utf8(out));
    let diag = must(rt, std::str::from_utf8(diag));
    must(rt, format!(in alloc; "{status} {out}|{diag}"))
}
