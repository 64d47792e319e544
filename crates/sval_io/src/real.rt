//! The sink over std's writers: the trusted edge.

ghost use Rattle.std.specs.Prelude.{◌≡◌, ◌<◌, None, OnOk, OnErr, IfOk, IsSome, length};
ghost use Rattle.std.specs.Io.{WritesAtMost};
ghost use Rattle.std.specs.Io.KnownBytes.{Keeps, WriteAppends};
ghost use Rattle.sval_core.specs.Law.{one_more};
ghost use Rattle.sval_io.specs.OverWriter.{OverWriter, over_writer_told};
ghost use Rattle.sval_io.specs.Sinks.{Writes, Flushes, Declines};

use crate::sink::{Sink, SinkError};
use std::io;
use std::io::Write;
use std::marker::Model;

/// How often in a row a call is made that is interrupted each time.
pub(crate) const TRIES: u32 = 1000;

/// A sink over one of std's writers. It tells no text and no room, and each error that it answers is one fault.
///
/// It holds nothing back: each piece is a call of the writer, some twenty for a short record of JSON. So a writer whose
/// calls cost goes behind a `BufWriter`, and the sink is flushed at the end.
///
/// A call that is interrupted is made again, and has failed where that happened 1,000 times in a row. A writer that
/// takes nothing of a piece that isn't empty has failed. Where the writer tells what it holds, that grows by the bytes
/// that a call answers, and by no others.
#[derive(Drop)]
pub struct RealSink<W> {
    writer: W,
    faults: u64,
    last_error: Option<io::ErrorKind>,
}

impl<W> Model for RealSink<W> {
    ghost Value = { OverWriter W };

    ghost view = { λ sink. record { writer = sink.writer; faults = sink.faults; last_error = sink.last_error } };
}

impl<W> RealSink<W> {
    /// A sink over this writer, with no fault.
    pub fn new(writer: W) -> Self
        ensures { result ≡ record { writer = writer; faults = 0; last_error = None } }
    {
        RealSink {
            writer,
            faults: 0,
            last_error: None,
        }
    }

    /// What kind of error the last fault was, if there was one.
    pub fn last_error(&self) -> Option<io::ErrorKind>
        ensures { result ≡ self.now.last_error }
    {
        self.last_error
    }

    /// Counts a fault.
    #[cold]
    fn fault(&mut self, kind: io::ErrorKind) -> SinkError
        ensures failed { result ≡ SinkError.Failed }
        ensures declines { Declines result (over_writer_told self.old) (over_writer_told self.new) }
        ensures counted { self.new ≡ record self.old { faults = one_more self.old.faults; last_error = Some kind } }
    {
        self.last_error = Some(kind);
        self.faults = self.faults.saturating_add(1);
        SinkError::Failed
    }
}

impl<W: Write> RealSink<W> {
    /// Writes a piece, and answers what kind of error that was. To take nothing of a piece that isn't empty is one.
    #[inline(always)]
    fn write_once(&mut self, piece: &[u8]) -> Result<usize, io::ErrorKind>
        ensures told { over_writer_told self.new ≡ over_writer_told self.old }
        ensures last_kept { self.new.last_error ≡ self.old.last_error }
        ensures bound { WritesAtMost result piece.now }
        ensures some { IfOk result (λ count. 0 < length piece.now → 0 < count) }
        ensures passed_on { WriteAppends (W.contents self.old.writer) (W.contents self.new.writer) result piece.now }
    {
        match self.writer.write(piece) {
            Ok(0) if !piece.is_empty() => Err(io::ErrorKind::WriteZero),
            Ok(count) => Ok(count),
            Err(error) => Err(error.kind()),
        }
    }

    /// Writes a piece again after an error of this kind, as often as it is interrupted.
    #[cold]
    #[inline(never)]
    fn write_again(&mut self, kind: io::ErrorKind, piece: &[u8]) -> Result<usize, SinkError>
        ensures writes { Writes result (over_writer_told self.old) piece.now (over_writer_told self.new) }
        ensures failed { OnErr result (result ≡ Err SinkError.Failed) }
        ensures once { OnErr result (self.new.faults ≡ one_more self.old.faults) }
        ensures passed_on { WriteAppends (W.contents self.old.writer) (W.contents self.new.writer) result piece.now }
        ensures last_kept { OnOk result (self.new.last_error ≡ self.old.last_error) }
        ensures last_told { OnErr result (IsSome self.new.last_error) }
    {
        let mut kind = kind;
        for _ in 1..TRIES {
            if kind != io::ErrorKind::Interrupted {
                return Err(self.fault(kind));
            }
            match self.write_once(piece) {
                Ok(count) => return Ok(count),
                Err(next) => kind = next,
            }
        }
        Err(self.fault(kind))
    }
}

impl<W: Write> Sink for RealSink<W> {
    ghost told = { over_writer_told };

    #[inline(always)]
    fn write(&mut self, piece: &[u8]) -> Result<usize, SinkError>
        ensures writes { Writes result (over_writer_told self.old) piece.now (over_writer_told self.new) }
        ensures failed { OnErr result (result ≡ Err SinkError.Failed) }
        ensures once { OnErr result (self.new.faults ≡ one_more self.old.faults) }
        ensures passed_on { WriteAppends (W.contents self.old.writer) (W.contents self.new.writer) result piece.now }
        ensures last_kept { OnOk result (self.new.last_error ≡ self.old.last_error) }
        ensures last_told { OnErr result (IsSome self.new.last_error) }
    {
        match self.write_once(piece) {
            Ok(count) => Ok(count),
            Err(kind) => self.write_again(kind, piece),
        }
    }

    fn flush(&mut self) -> Result<(), SinkError>
        ensures flushes { Flushes result (over_writer_told self.old) (over_writer_told self.new) }
        ensures failed { OnErr result (result ≡ Err SinkError.Failed) }
        ensures once { OnErr result (self.new.faults ≡ one_more self.old.faults) }
        ensures passed_on { Keeps (W.contents self.old.writer) (W.contents self.new.writer) }
        ensures last_kept { OnOk result (self.new.last_error ≡ self.old.last_error) }
        ensures last_told { OnErr result (IsSome self.new.last_error) }
    {
        for _ in 0..TRIES {
            match self.writer.flush() {
                Ok(()) => return Ok(()),
                Err(error) => {
                    if error.kind() != io::ErrorKind::Interrupted {
                        return Err(self.fault(error.kind()));
                    }
                }
            }
        }
        Err(self.fault(io::ErrorKind::Interrupted))
    }
}
