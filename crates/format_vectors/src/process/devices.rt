//! A writer in memory that fails at one of its calls.

use std::alloc::Global;
use std::io;

/// A writer that takes at most `chunk` bytes a call, and fails at one of its calls, counted from 0. Calls are writes of
/// pieces that aren't empty, and flushes.
#[derive(Drop)]
pub(crate) struct Failing {
    /// The bytes that it took.
    pub(crate) taken: Vec<u8>,
    /// How many bytes it had taken at each of its calls.
    pub(crate) marks: Vec<usize>,
    chunk: usize,
    failing: Option<usize>,
}

impl Failing {
    /// A writer that took nothing yet.
    pub(crate) fn new(alloc: Global, chunk: usize, failing: Option<usize>) -> Self {
        Failing {
            taken: Vec::new(alloc),
            marks: Vec::new(alloc),
            chunk,
            failing,
        }
    }

    /// Counts a call, which may be the one that fails.
    fn call(&mut self) -> io::Result<()> {
        let fails = self.failing == Some(self.marks.len());
        self.marks.push(self.taken.len())?;
        if fails {
            return Err(io::Error::from(io::ErrorKind::BrokenPipe));
        }
        Ok(())
    }
}

impl io::Write for Failing {
    fn write(&mut self, piece: &[u8]) -> io::Result<usize> {
        if piece.is_empty() {
            return Ok(0);
        }
        self.call()?;
        let count = piece.len().min(self.chunk);
        self.taken.extend_from_slice(&piece[..count])?;
        Ok(count)
    }

    fn flush(&mut self) -> io::Result<()> {
        self.call()
    }
}
