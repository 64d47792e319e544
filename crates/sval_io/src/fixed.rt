//! A sink over a buffer of the caller's.

ghost use Rattle.std.specs.Prelude.{◌≡◌, ◌↔◌, [], IfOk, IsErr, OnErr, drop, length, min};
ghost use Rattle.sval_core.specs.Law.{one_more};
ghost use Rattle.sval_io.specs.Filled.{filled_told, room_of, IsFullFor};
ghost use Rattle.sval_io.specs.Sinks.{Writes, Flushes};

use crate::sink::{Sink, SinkError};
use std::marker::Model;

/// A sink over a buffer: it takes what fits, and tells its room. It takes no memory.
///
/// It fails exactly where its buffer is full and the piece isn't empty. Where a value doesn't refuse, its calls spell a
/// tree that has a JSON, and the text of that has room, `stream_to_io_write` of `sval_json` answers `Ok`.
///
/// ```
/// let mut buffer = [0; 64];
/// let mut sink = FixedSink::new(&mut buffer);
/// write_all(&mut sink, b"null")?;
/// assert_eq!(rt; sink.as_slice(), b"null".as_slice());
/// ```
#[derive(Drop)]
pub struct FixedSink<'a> {
    buffer: &'a mut [u8],
    taken: usize,
    faults: u64,
}

impl<'a> Model for FixedSink<'a> {
    ghost use Rattle.std.specs.Prelude.{◌≤◌, drop, length, take};
    ghost use Rattle.sval_io.specs.Filled.{Filled};

    ghost Value = { Filled };

    ghost view = { λ sink. record {
      bytes = take sink.taken sink.buffer.now;
      behind = drop sink.taken sink.buffer.now;
      faults = sink.faults;
    } };

    ghost invariant = { λ sink. sink.taken ≤ length sink.buffer.now };
}

impl<'a> FixedSink<'a> {
    /// A sink over `buffer` that has taken no bytes. All of the buffer is free.
    pub fn new(buffer: &'a mut [u8]) -> Self
        ensures { result ≡ record { bytes = []; behind = buffer.old; faults = 0 } }
    {
        FixedSink {
            buffer,
            taken: 0,
            faults: 0,
        }
    }

    /// The bytes taken so far.
    pub fn as_slice(&self) -> &[u8]
        ensures { result.now ≡ self.now.bytes }
    {
        &self.buffer[..self.taken]
    }

    /// The bytes taken, for as long as the buffer is lent.
    ///
    /// ```
    /// let mut buffer = [0; 64];
    /// let mut sink = FixedSink::new(&mut buffer);
    /// write_all(&mut sink, b"null")?;
    /// assert_eq!(rt; sink.into_slice(), b"null".as_slice());
    /// ```
    pub fn into_slice(self) -> &'a [u8]
        ensures { result.now ≡ self.entry.bytes }
    {
        let buffer = self.buffer;
        &buffer[..self.taken]
    }

    /// How many bytes are free.
    pub fn room(&self) -> usize
        ensures { result ≡ room_of self.now }
    {
        self.buffer.len() - self.taken
    }
}

impl<'a> Sink for FixedSink<'a> {
    ghost told = { filled_told };

    fn write(&mut self, piece: &[u8]) -> Result<usize, SinkError>
        ensures fits { IfOk result (λ count. count ≡ min (length piece.now) (room_of self.old)) }
        ensures rest { IfOk result (λ count. self.new.behind ≡ drop count self.old.behind) }
        ensures full { IsErr result ↔ IsFullFor self.old piece.now }
        ensures writes { Writes result (filled_told self.old) piece.now (filled_told self.new) }
        ensures once { OnErr result (self.new.faults ≡ one_more self.old.faults) }
    {
        let room = self.room();
        if room == 0 && !piece.is_empty() {
            self.faults = self.faults.saturating_add(1);
            return Err(SinkError::Failed);
        }
        let count = piece.len().min(room);
        let end = self.taken + count;
        self.buffer[self.taken..end].copy_from_slice(&piece[..count]);
        self.taken = end;
        Ok(count)
    }

    fn flush(&mut self) -> Result<(), SinkError>
        ensures idle { result ≡ Ok tt }
        ensures same { self.new ≡ self.old }
        ensures flushes { Flushes result (filled_told self.old) (filled_told self.new) }
    {
        Ok(())
    }
}
