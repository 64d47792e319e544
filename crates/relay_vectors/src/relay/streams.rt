//! What the program answers and writes over std's readers and writers that fail.

use crate::forms::run_over_std;
use crate::shown::{agrees, answer_text};
use std::alloc::Global;
use std::io;
use std::process::Abort;

/// A writer that takes `room` bytes, and then gives an error.
#[derive(Drop)]
struct Limited {
    taken: Vec<u8>,
    room: usize,
    error: io::ErrorKind,
}

impl Limited {
    fn new(alloc: Global, room: usize, error: io::ErrorKind) -> Self {
        Limited {
            taken: Vec::new(alloc),
            room,
            error,
        }
    }
}

impl io::Write for Limited {
    fn write(&mut self, piece: &[u8]) -> io::Result<usize> {
        let count = piece.len().min(self.room);
        if count == 0 && !piece.is_empty() {
            return Err(io::Error::from(self.error));
        }
        self.taken.extend_from_slice(&piece[..count])?;
        self.room -= count;
        Ok(count)
    }

    fn flush(&mut self) -> io::Result<()> {
        Ok(())
    }
}

/// A reader that gives an error.
#[derive(Clone, Copy)]
struct Broken;

impl io::Read for Broken {
    fn read(&mut self, _buffer: &mut [u8]) -> io::Result<usize> {
        Err(io::Error::from(io::ErrorKind::PermissionDenied))
    }
}

/// Runs a form over a reader, an output and a third device: the status, what was written and what was told.
fn run_limited<R: io::Read + Drop>(
    rt: &impl Abort,
    alloc: Global,
    form: &str,
    input: R,
    mut stdout: Limited,
    mut stderr: Limited,
) -> String {
    let status = run_over_std(rt, alloc, form, input, &mut stdout, &mut stderr);
    answer_text(rt, alloc, status, &stdout.taken, &stderr.taken)
}

/// The room of the output and how it fails, the room of the third device, and what is answered, written and told.
const OUTPUTS: [(usize, io::ErrorKind, usize, &'static str); 6] = [
    (0, io::ErrorKind::BrokenPipe, 100, "8 |write fault\n"),
    (0, io::ErrorKind::StorageFull, 3, "8 |wri"),
    (3, io::ErrorKind::StorageFull, 0, "8 [tr|"),
    (5, io::ErrorKind::BrokenPipe, 0, "8 [true|"),
    (0, io::ErrorKind::Interrupted, 100, "8 |write fault\n"),
    (3, io::ErrorKind::Interrupted, 0, "8 [tr|"),
];

/// A sequence of one truth value.
const SCRIPT: &'static [u8] = b"seq_begin 1\nseq_value_begin\nbool true\nseq_value_end\nseq_end\n";

/// An output that is closed, or full after some bytes, and a third device that takes nothing or little.
#[test]
fn outputs_that_fail(rt: HostRuntime) {
    let alloc = rt.alloc();
    for (room, error, told, due) in &OUTPUTS {
        let stdout = Limited::new(alloc, *room, *error);
        let stderr = Limited::new(alloc, *told, io::ErrorKind::BrokenPipe);
        agrees(
            &rt,
            &run_limited(&rt, alloc, "direct", SCRIPT, stdout, stderr),
            due,
        );
    }
}

#[test]
fn an_input_that_fails(rt: HostRuntime) {
    let alloc = rt.alloc();
    let stdout = Limited::new(alloc, 100, io::ErrorKind::StorageFull);
    let stderr = Limited::new(alloc, 100, io::ErrorKind::StorageFull);
    let seen = run_limited(&rt, alloc, "buffered", Broken, stdout, stderr);
    agrees(&rt, &seen, "9 |read fault\n");
}
