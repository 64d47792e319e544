//! Where JSON is written to.

ghost use Rattle.std.specs.Prelude.{◌≡◌, [], IfOk, OnErr, length};
ghost use Rattle.sval_core.specs.Law.{one_more};
ghost use Rattle.sval_io.specs.Sinks.{Told, Writes, Flushes, WritesAll, IsFull};
ghost use Rattle.sval_io.specs.Taken.{Taken, taken_told};

use std::alloc::{AllocError, Global};
use std::error::Error;
use std::fmt;
use std::marker::Model;

/// Why a sink declined a call.
#[derive(Clone, Copy, Debug, PartialEq, Eq)]
pub enum SinkError {
    /// The sink failed.
    Failed,
    /// The sink had no memory.
    NoMemory,
}

impl fmt::Display for SinkError {
    ghost use Rattle.std.specs.Prelude.{Some};
    ghost use Rattle.sval_io.specs.ErrorTexts.{sink_error_text};

    ghost output = { λ error. Some (sink_error_text error) };

    fn fmt<W: fmt::Write>(&self, f: &mut fmt::Formatter<W>) -> fmt::Result {
        f.write_str(match self {
            SinkError::Failed => "write fault",
            SinkError::NoMemory => "out of memory",
        })
    }
}

impl Error for SinkError {}

impl From<AllocError> for SinkError {
    ghost use Rattle.sval_io.specs.declared.sink.SinkError.TheVariants as sink_error;

    ghost from_gives = { λ _ why. why ≡ sink_error.NoMemory };

    fn from(_cause: AllocError) -> SinkError {
        SinkError::NoMemory
    }
}

/// A place that bytes are written to, piece by piece.
///
/// A sink counts its faults and its refusals for want of memory. Neither count ever falls, so an error is one of this
/// call. What a sink holds back, if it does, it passes on at [`flush`](Sink::flush).
pub trait Sink {
    /// What it tells of itself: the bytes that it took, its room, how many of those bytes it holds back, its counts.
    ghost told: { Self → Told };

    /// Takes the first bytes of a piece and answers how many: at least one, unless the piece is empty. Writing a piece
    /// whole is the caller's loop, as [`write_all`].
    ///
    /// [`SinkError::Failed`] comes only where the count of faults rose, and [`SinkError::NoMemory`] only where that of
    /// wants did. Either leaves the text and the room as they were. A sink that tells its room takes no more than that,
    /// and fails only where none is left.
    fn write(&mut self, piece: &[u8]) -> Result<usize, SinkError>
        ensures { Writes result (told self.old) piece.now (told self.new) };

    /// Passes on what this sink holds back of the bytes that it took.
    ///
    /// The text and the room stay as they were, and each error has its cause as at [`write`](Sink::write).
    fn flush(&mut self) -> Result<(), SinkError>
        ensures { Flushes result (told self.old) (told self.new) };
}

/// Writes a piece whole, by as many calls of [`Sink::write`] as it takes.
///
/// After an error a first part of it was taken, and not all. An empty piece makes no call. A sink that tells its room
/// fails only where the piece has no place in it.
#[inline(never)]
pub fn write_all<K: Sink>(sink: &mut K, piece: &[u8]) -> Result<(), SinkError>
    ensures writes { WritesAll result (K.told sink.old) piece.now (K.told sink.new) }
    ensures nothing { piece.now ≡ [] → (result ≡ Ok tt) × (sink.new ≡ sink.old) }
    ensures full { result ≡ Err SinkError.Failed → IsFull (K.told sink.new) }
{
    write_in_place(sink, piece)
}

/// Does the same as [`write_all`] within its caller.
///
/// That is less work for a piece of a byte or two that the caller names.
#[inline(always)]
pub fn write_in_place<K: Sink>(sink: &mut K, piece: &[u8]) -> Result<(), SinkError>
    ensures writes { WritesAll result (K.told sink.old) piece.now (K.told sink.new) }
    ensures nothing { piece.now ≡ [] → (result ≡ Ok tt) × (sink.new ≡ sink.old) }
    ensures full { result ≡ Err SinkError.Failed → IsFull (K.told sink.new) }
{
    if piece.is_empty() {
        return Ok(());
    }
    let count = sink.write(piece)?;
    if count == piece.len() {
        return Ok(());
    }
    write_rest(sink, &piece[count..])
}

/// Writes what a first call left of a piece.
#[cold]
#[inline(never)]
fn write_rest<K: Sink>(sink: &mut K, piece: &[u8]) -> Result<(), SinkError>
    ensures writes { WritesAll result (K.told sink.old) piece.now (K.told sink.new) }
    ensures full { result ≡ Err SinkError.Failed → IsFull (K.told sink.new) }
{
    let mut rest = piece;
    while !rest.is_empty() {
        let count = sink.write(rest)?;
        rest = &rest[count..];
    }
    Ok(())
}

/// A sink in memory: a write takes its whole piece, or memory is wanting. It never fails.
///
/// ```
/// let mut sink = VecSink::new(alloc);
/// write_all(&mut sink, b"null")?;
/// assert_eq!(rt; sink.as_slice(), b"null".as_slice());
/// ```
#[derive(Drop)]
pub struct VecSink {
    bytes: Vec<u8>,
    wants: u64,
}

impl Model for VecSink {
    ghost Value = { Taken };

    ghost view = { λ sink. record { bytes = sink.bytes.items; wants = sink.wants } };
}

impl VecSink {
    /// An empty sink, which takes no memory yet.
    pub fn new(alloc: Global) -> Self
        ensures { result ≡ record { bytes = []; wants = 0 } }
    {
        VecSink {
            bytes: Vec::new(alloc),
            wants: 0,
        }
    }

    /// An empty sink with room for `capacity` bytes, which are asked for at once.
    ///
    /// # Errors
    ///
    /// Want of memory for the room.
    pub fn with_capacity(alloc: Global, capacity: usize) -> Result<Self, AllocError>
        ensures { IfOk result (λ sink. sink ≡ record { bytes = []; wants = 0 }) }
    {
        Ok(VecSink {
            bytes: Vec::with_capacity(alloc, capacity)?,
            wants: 0,
        })
    }

    /// The bytes taken so far.
    pub fn as_slice(&self) -> &[u8]
        ensures { result.now ≡ self.now.bytes }
    {
        self.bytes.as_slice()
    }

    /// The bytes taken, as a `Vec`.
    pub fn into_vec(self) -> Vec<u8>
        ensures { result.items ≡ self.bytes }
    {
        self.bytes
    }
}

impl Sink for VecSink {
    ghost told = { taken_told };

    #[inline(always)]
    fn write(&mut self, piece: &[u8]) -> Result<usize, SinkError>
        ensures all { IfOk result (λ count. count ≡ length piece.now) }
        ensures writes { Writes result (taken_told self.old) piece.now (taken_told self.new) }
        ensures once { OnErr result (self.new.wants ≡ one_more self.old.wants) }
    {
        match self.bytes.extend_from_slice(piece) {
            Ok(()) => Ok(piece.len()),
            Err(cause) => {
                self.wants = self.wants.saturating_add(1);
                Err(SinkError::from(cause))
            }
        }
    }

    fn flush(&mut self) -> Result<(), SinkError>
        ensures idle { result ≡ Ok tt }
        ensures same { self.new ≡ self.old }
    {
        Ok(())
    }
}
