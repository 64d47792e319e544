//! What tests take for sure, and what they assert. Each ends the test where it isn't so, so that a test has nothing left
//! to prove of an error.

use std::fmt::Debug;
use std::process::Abort;

/// What is found. The test ends where that is an error.
pub(crate) fn must<T, E: Debug>(rt: &impl Abort, found: Result<T, E>) -> T {
    found.expect(rt, "a call failed")
}

/// Asserts what is so. A failure names `place`.
pub(crate) fn holds(rt: &impl Abort, is_so: bool, place: &str) {
    assert!(rt; is_so, "at {place:?}");
}
