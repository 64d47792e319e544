//! A sink that counts.

ghost use Rattle.std.specs.Prelude.{◌≡◌, length};
ghost use Rattle.sval_io.specs.Counted.{counted, counted_told};

use crate::sink::{Sink, SinkError};
use std::marker::Model;

/// A sink that takes all, and keeps only how many bytes that were. It tells no text, never fails and takes no memory.
///
/// ```
/// let mut sink = CountSink::new();
/// write_all(&mut sink, b"null")?;
/// assert_eq!(rt; sink.count(), 4);
/// ```
#[derive(Drop)]
pub struct CountSink {
    count: u64,
}

impl Model for CountSink {
    ghost use Rattle.std.specs.Prelude.{ℕ};

    ghost Value = { ℕ };

    ghost view = { λ sink. sink.count };
}

impl CountSink {
    /// A sink that has counted nothing.
    pub fn new() -> Self
        ensures { result ≡ 0 }
    {
        CountSink { count: 0 }
    }

    /// How many bytes it took. The count stops at the greatest `u64`.
    pub fn count(&self) -> u64
        ensures { result ≡ self.now }
    {
        self.count
    }
}

impl Sink for CountSink {
    ghost told = { counted_told };

    fn write(&mut self, piece: &[u8]) -> Result<usize, SinkError>
        ensures all { result ≡ Ok (length piece.now) }
        ensures counted { self.new ≡ counted self.old (length piece.now) }
    {
        self.count = self.count.saturating_add(piece.len() as u64);
        Ok(piece.len())
    }

    fn flush(&mut self) -> Result<(), SinkError>
        ensures idle { result ≡ Ok tt }
        ensures same { self.new ≡ self.old }
    {
        Ok(())
    }
}
