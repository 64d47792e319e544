//! Readers that are interrupted, or fail.

use super::sources::reads_of;
use crate::shown::{agrees, must};
use std::alloc::Global;
use std::io;
use std::process::Abort;
use sval_relay::RealSource;

/// Fails with this error the first times, and then gives one byte a call.
#[derive(Drop)]
struct Failing {
    error: io::ErrorKind,
    times: u32,
}

impl io::Read for Failing {
    fn read(&mut self, buffer: &mut [u8]) -> io::Result<usize> {
        if let Some(times) = self.times.checked_sub(1) {
            self.times = times;
            return Err(io::Error::from(self.error));
        }
        let Some(first) = buffer.first_mut() else {
            return Ok(0);
        };
        *first = b'x';
        Ok(1)
    }
}

/// How a reader fails, how often, and how many reads there are. Then what is told of these reads, and the number of
/// failures that are left. A read that fails makes one call of the reader, or up to 1,000 where it is interrupted.
const READERS: [(io::ErrorKind, u32, u64, &'static str); 11] = [
    (io::ErrorKind::Interrupted, 0, 1, "Ok(1) x---\n0"),
    (io::ErrorKind::Interrupted, 2, 1, "Ok(1) x---\n0"),
    (io::ErrorKind::Interrupted, 999, 1, "Ok(1) x---\n0"),
    (io::ErrorKind::Interrupted, 1000, 1, "Err(Failed) ----\n0"),
    (
        io::ErrorKind::Interrupted,
        5000,
        1,
        "Err(Failed) ----\n4000",
    ),
    (
        io::ErrorKind::Interrupted,
        u32::MAX,
        1,
        "Err(Failed) ----\n4294966295",
    ),
    (io::ErrorKind::PermissionDenied, 1, 1, "Err(Failed) ----\n0"),
    (
        io::ErrorKind::PermissionDenied,
        5000,
        1,
        "Err(Failed) ----\n4999",
    ),
    (io::ErrorKind::WouldBlock, 1, 1, "Err(Failed) ----\n0"),
    (io::ErrorKind::WouldBlock, 5000, 1, "Err(Failed) ----\n4999"),
    (
        io::ErrorKind::TimedOut,
        2,
        3,
        "Err(Failed) ----\nErr(Failed) ----\nOk(1) x---\n0",
    ),
];

/// What is told of reads of a reader, and the number of failures that it has left.
fn reads_of_failing(rt: &impl Abort, alloc: Global, mut reader: Failing, count: u64) -> String {
    let mut source = RealSource::new(&mut reader);
    let told = reads_of(rt, alloc, &mut source, &mut [b'-'; 4], count);
    drop(source);
    must(rt, format!(in alloc; "{told}{}", reader.times))
}

#[test]
fn errors_of_readers(rt: HostRuntime) {
    for (error, times, count, due) in &READERS {
        let reader = Failing {
            error: *error,
            times: *times,
        };
        agrees(&rt, &reads_of_failing(&rt, rt.alloc(), reader, *count), due);
    }
}

/// A read asks the reader for all that has room.
#[test]
fn fills_the_buffer(rt: HostRuntime) {
    let mut bytes: &[u8] = &[b'a'; 10_000];
    let mut source = RealSource::new(&mut bytes);
    let seen = reads_of(&rt, rt.alloc(), &mut source, &mut [0; 9_000], 3);
    agrees(&rt, &seen, "Ok(9000) aaaa\nOk(1000) aaaa\nOk(0) aaaa\n");
}
