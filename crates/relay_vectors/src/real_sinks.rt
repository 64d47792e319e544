//! Std's writers, and writers that work late or never.

use crate::shown::{agrees, holds, must, shows};
use crate::sinks::answer_of;
use std::alloc::Global;
use std::io;
use std::io::{Cursor, Write};
use std::process::Abort;
use sval_core::Null;
use sval_io::{RealSink, Sink, SinkError};

/// A writer whose first calls fail, or take nothing where no kind of error is given.
#[derive(Drop)]
struct Late {
    taken: Vec<u8>,
    delay: u32,
    kind: Option<io::ErrorKind>,
    /// How often it took a piece.
    pieces: u32,
    /// How often it was flushed.
    flushes: u32,
}

impl Late {
    fn new(alloc: Global, delay: u32, kind: Option<io::ErrorKind>) -> Late {
        Late {
            taken: Vec::new(alloc),
            delay,
            kind,
            pieces: 0,
            flushes: 0,
        }
    }
}

impl Write for Late {
    fn write(&mut self, piece: &[u8]) -> io::Result<usize> {
        if self.delay > 0 {
            self.delay -= 1;
            return match self.kind {
                Some(kind) => Err(io::Error::from(kind)),
                None => Ok(0),
            };
        }
        self.taken.extend_from_slice(piece)?;
        self.pieces = self.pieces.saturating_add(1);
        Ok(piece.len())
    }

    fn flush(&mut self) -> io::Result<()> {
        if self.delay > 0 {
            self.delay -= 1;
            if let Some(kind) = self.kind {
                return Err(io::Error::from(kind));
            }
        }
        self.flushes = self.flushes.saturating_add(1);
        Ok(())
    }
}

/// How many calls come to nothing, and how. Then what is told of writing a null and of flushing: the answer, the last
/// error, the number of calls that would still come to nothing, and what was written.
const LATE: [(u32, Option<io::ErrorKind>, &'static str, &'static str); 10] = [
    (0, None, "Ok, None, 0 left: null", "Ok(()), None, 0 left"),
    (
        2,
        Some(io::ErrorKind::Interrupted),
        "Ok, None, 0 left: null",
        "Ok(()), None, 0 left",
    ),
    (
        999,
        Some(io::ErrorKind::Interrupted),
        "Ok, None, 0 left: null",
        "Ok(()), None, 0 left",
    ),
    (
        1000,
        Some(io::ErrorKind::Interrupted),
        "IO, Some(Interrupted), 0 left: ",
        "Err(Failed), Some(Interrupted), 0 left",
    ),
    (
        5000,
        Some(io::ErrorKind::Interrupted),
        "IO, Some(Interrupted), 4000 left: ",
        "Err(Failed), Some(Interrupted), 4000 left",
    ),
    (
        2,
        Some(io::ErrorKind::PermissionDenied),
        "IO, Some(PermissionDenied), 1 left: ",
        "Err(Failed), Some(PermissionDenied), 1 left",
    ),
    (
        2,
        Some(io::ErrorKind::WouldBlock),
        "IO, Some(WouldBlock), 1 left: ",
        "Err(Failed), Some(WouldBlock), 1 left",
    ),
    (
        2,
        Some(io::ErrorKind::TimedOut),
        "IO, Some(TimedOut), 1 left: ",
        "Err(Failed), Some(TimedOut), 1 left",
    ),
    (
        2,
        Some(io::ErrorKind::BrokenPipe),
        "IO, Some(BrokenPipe), 1 left: ",
        "Err(Failed), Some(BrokenPipe), 1 left",
    ),
    (
        2,
        None,
        "IO, Some(WriteZero), 1 left: ",
        "Ok(()), None, 1 left",
    ),
];

/// What is told of writing a null over a late writer.
fn told_of_writing(rt: &impl Abort, alloc: Global, mut writer: Late) -> String {
    let mut sink = RealSink::new(&mut writer);
    let answer = answer_of(rt, alloc, &mut sink, &Null);
    let error = sink.last_error();
    drop(sink);
    let taken = must(rt, std::str::from_utf8(&writer.taken));
    must(
        rt,
        format!(in alloc; "{answer}, {error:?}, {} left: {taken}", writer.delay),
    )
}

/// What is told of flushing a late writer.
fn told_of_flushing(rt: &impl Abort, alloc: Global, mut writer: Late) -> String {
    let mut sink = RealSink::new(&mut writer);
    let answer = sink.flush();
    let error = sink.last_error();
    drop(sink);
    must(
        rt,
        format!(in alloc; "{answer:?}, {error:?}, {} left", writer.delay),
    )
}

/// Interrupted calls are made again, up to 1,000 times, and others aren't.
#[test]
fn late_writers(rt: HostRuntime) {
    for (delay, kind, writing, flushing) in &LATE {
        let seen = told_of_writing(&rt, rt.alloc(), Late::new(rt.alloc(), *delay, *kind));
        agrees(&rt, &seen, writing);
        let seen = told_of_flushing(&rt, rt.alloc(), Late::new(rt.alloc(), *delay, *kind));
        agrees(&rt, &seen, flushing);
    }
}

#[test]
fn flushes_after_a_fault(rt: HostRuntime) {
    let denied = Some(io::ErrorKind::PermissionDenied);
    let mut writer = Late::new(rt.alloc(), 1, denied);
    let mut sink = RealSink::new(&mut writer);
    let failed = sink.write(b"a");
    holds(
        &rt,
        failed == Err(SinkError::Failed) && sink.flush() == Ok(()),
        "a",
    );
    let taken = sink.write(b"b");
    holds(&rt, taken == Ok(1) && sink.flush() == Ok(()), "b");
    holds(&rt, sink.last_error() == denied, "the error");
    drop(sink);
    holds(&rt, writer.flushes == 2, "the flushes");
    shows(&rt, String::from_utf8(writer.taken), "b");
}

/// A piece is passed to the writer whole, by one call.
#[test]
fn passes_a_piece_whole(rt: HostRuntime) {
    let piece = must(&rt, vec![in rt.alloc(); b'a'; 100_000]);
    let mut writer = Late::new(rt.alloc(), 0, None);
    let taken = RealSink::new(&mut writer).write(piece.as_slice());
    holds(
        &rt,
        taken == Ok(100_000) && writer.pieces == 1,
        "a long piece",
    );
}

#[test]
fn passes_no_empty_piece(rt: HostRuntime) {
    let mut sink = RealSink::new(Late::new(rt.alloc(), 1, None));
    holds(&rt, sink.write(b"") == Ok(0), "the answer");
    holds(&rt, sink.last_error().is_none(), "the error");
}

#[test]
fn writes_to_memory(rt: HostRuntime) {
    let mut bytes: Vec<u8> = Vec::new(rt.alloc());
    let answer = answer_of(&rt, rt.alloc(), &mut RealSink::new(&mut bytes), &-7i64);
    agrees(&rt, &answer, "Ok");
    shows(&rt, String::from_utf8(bytes), "-7");
}

#[test]
fn writes_up_to_the_room(rt: HostRuntime) {
    let mut full = Cursor::new([0u8; 4]);
    let mut sink = RealSink::new(&mut full);
    agrees(&rt, &answer_of(&rt, rt.alloc(), &mut sink, &false), "IO");
    let error = sink.last_error();
    holds(&rt, error == Some(io::ErrorKind::WriteZero), "the error");
    drop(sink);
    holds(&rt, full.into_inner() == *b"fals", "the bytes");
}
