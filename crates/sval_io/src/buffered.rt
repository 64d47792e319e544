//! A sink over a buffer of std, and a source over a reader, that tell their bytes.

ghost use Rattle.std.specs.Prelude.{◌≡◌, [], IfOk, IfErr};
ghost use Rattle.std.specs.IoError.{error_kind};
ghost use Rattle.sval_core.specs.Law.{one_more};
ghost use Rattle.sval_io.specs.Known.{IsPassedOn};
ghost use Rattle.sval_io.specs.OverBuffer.{taken_bytes, bytes_held, sink_faults};
ghost use Rattle.sval_io.specs.OverBuffer.{over_buffer_told, known_reader_told};
ghost use Rattle.sval_io.specs.OverReader.{OverReader};
ghost use Rattle.sval_io.specs.Sinks.{Declines};

use crate::patient::Patient;
use crate::real_source::RealSource;
use crate::sink::{Sink, SinkError};
use crate::source::{Source, SourceError};
use crate::tells::{Tells, TellsLeft};
use std::alloc::Global;
use std::io;
use std::io::{BufWriter, ErrorKind, Write};
use std::marker::Model;

/// A sink over a writer, which holds back what it took until its buffer is full, or is flushed. It tells what it took
/// where the writer tells what it holds.
///
/// Each error of the writer is one fault. A call of the writer that is interrupted is made again, and has failed where
/// that happened 1,000 times in a row. A writer that takes nothing of a piece that isn't empty has failed.
///
/// ```
/// let mut sink = BufferedSink::with_capacity(alloc, 512, Vec::new(alloc))?;
/// write_all(&mut sink, b"null")?;
/// assert_eq!(rt; sink.into_writer().as_slice(), b"null".as_slice());
/// ```
#[derive(Drop)]
pub struct BufferedSink<W: Write + Drop> {
    writer: BufWriter<Patient<W>>,
    faults: u64,
}

impl<W: Write + Drop> BufferedSink<W> {
    /// A sink over this writer, with a buffer of `capacity` bytes. Where there is no memory for the buffer, the writer
    /// is dropped.
    #[tactic(auto, using(crate::proofs::Buffering::nothing_behind))]
    pub fn with_capacity(alloc: Global, capacity: usize, writer: W) -> io::Result<Self>
        ensures contents { IfOk result (λ sink. taken_bytes W.contents sink ≡ W.contents writer) }
        ensures empty { IfOk result (λ sink. bytes_held sink ≡ []) }
        ensures faults { IfOk result (λ sink. sink_faults sink ≡ 0) }
        ensures err { IfErr result (λ error. error_kind error ≡ ErrorKind.OutOfMemory) }
    {
        Ok(BufferedSink {
            writer: BufWriter::with_capacity(alloc, capacity, Patient::new(writer))?,
            faults: 0,
        })
    }

    /// Passes on what is held back, and gives the writer back. Where the writer fails, the rest is lost, and that isn't
    /// told.
    pub fn into_writer(self) -> W
        ensures { IsPassedOn (taken_bytes W.contents self) (bytes_held self) (W.contents result) }
    {
        if self.writer.buffer().is_empty() {
            let (patient, _) = self.writer.into_parts();
            return patient.into_writer();
        }
        match self.writer.into_inner() {
            Ok(patient) => patient.into_writer(),
            Err(error) => {
                let (patient, _) = error.into_inner().into_parts();
                patient.into_writer()
            }
        }
    }

    /// Counts a fault.
    #[cold]
    fn fault(&mut self) -> SinkError
        ensures failed { result ≡ SinkError.Failed }
        ensures declines { Declines result (over_buffer_told W.contents self.old)
            (over_buffer_told W.contents self.new) }
        ensures counted { self.new ≡ record self.old { faults = one_more self.old.faults } }
    {
        self.faults = self.faults.saturating_add(1);
        SinkError::Failed
    }
}

impl<W: Tells + Drop> Sink for BufferedSink<W> {
    ghost told = { over_buffer_told W.contents };

    #[inline(always)]
    fn write(&mut self, piece: &[u8]) -> Result<usize, SinkError> {
        match self.writer.write(piece) {
            Ok(0) if !piece.is_empty() => Err(self.fault()),
            Ok(count) => Ok(count),
            Err(_) => Err(self.fault()),
        }
    }

    fn flush(&mut self) -> Result<(), SinkError> {
        match self.writer.flush() {
            Ok(()) => Ok(()),
            Err(_) => Err(self.fault()),
        }
    }
}

/// A source over a reader, which tells what it has left where the reader does. Its calls are those of a
/// [`RealSource`].
#[derive(Drop)]
pub struct KnownSource<R> {
    source: RealSource<R>,
}

impl<R> Model for KnownSource<R> {
    ghost Value = { OverReader R };

    ghost view = { λ known. known.source };
}

impl<R> KnownSource<R> {
    /// A source over this reader, with no fault.
    pub fn new(reader: R) -> Self
        ensures { result ≡ record { reader = reader; faults = 0 } }
    {
        KnownSource {
            source: RealSource::new(reader),
        }
    }
}

impl<R: TellsLeft> Source for KnownSource<R> {
    ghost told = { known_reader_told R.remaining };

    fn read(&mut self, buffer: &mut [u8]) -> Result<usize, SourceError> {
        self.source.read(buffer)
    }
}
