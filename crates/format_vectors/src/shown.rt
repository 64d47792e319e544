//! What tests take for sure, and what compares what they saw with what is due. Each ends the test where it isn't so, so
//! that a test has nothing left to prove of an error.

use std::fmt::Debug;
use std::process::Abort;

/// What is found. The test ends where that is an error.
pub(crate) fn must<T, E: Debug>(rt: &impl Abort, found: Result<T, E>) -> T {
    found.expect(rt, "a call failed")
}

/// Compares what is seen with what is due. A failure names `place`.
pub(crate) fn compare(rt: &impl Abort, seen: &str, due: &str, place: &str) {
    assert_eq!(rt; seen, due, "at {place:?}");
}

/// Asserts what is so. A failure names `place`.
pub(crate) fn holds(rt: &impl Abort, is_so: bool, place: &str) {
    assert!(rt; is_so, "at {place:?}");
}

/// Adds a text to another.
pub(crate) fn push(rt: &impl Abort, text: &mut String, more: &str) {
    must(rt, text.push_str(more));
}
