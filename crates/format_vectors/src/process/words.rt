//! The status where a process has no words.

use crate::shown::holds;
use std::io;
use sval_program::status_without_words;

/// Whether an error of this kind gives this status.
fn gives(error: io::ErrorKind, status: u8) -> bool {
    status_without_words(&io::Error::from(error)) == status
}

#[test]
fn errors_of_the_system(rt: HostRuntime) {
    holds(&rt, gives(io::ErrorKind::OutOfMemory, 10), "OutOfMemory");
    holds(&rt, gives(io::ErrorKind::InvalidData, 17), "InvalidData");
    holds(&rt, gives(io::ErrorKind::Other, 17), "Other");
}
