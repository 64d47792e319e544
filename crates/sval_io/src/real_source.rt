//! The source over std's readers: the trusted edge.

ghost use Rattle.std.specs.Prelude.{◌≡◌, ◌≤◌, OnErr};
ghost use Rattle.std.specs.Io.KnownBytes.{ReadConsumes};
ghost use Rattle.sval_core.specs.Law.{one_more};
ghost use Rattle.sval_io.specs.OverReader.{OverReader, over_reader_told};
ghost use Rattle.sval_io.specs.Sources.{ReadsInto};

use crate::real::TRIES;
use crate::source::{Source, SourceError};
use std::io;
use std::io::Read;
use std::marker::Model;

/// A source over one of std's readers. It doesn't tell what it has left, and each error of the reader is one fault.
///
/// A call that is interrupted is made again, and has failed where that happened 1,000 times in a row. Where the reader
/// tells what it has left, a call takes just the bytes that it answers from the front of that.
#[derive(Drop)]
pub struct RealSource<R> {
    reader: R,
    faults: u64,
}

impl<R> Model for RealSource<R> {
    ghost Value = { OverReader R };

    ghost view = { λ source. record { reader = source.reader; faults = source.faults } };
}

impl<R> RealSource<R> {
    /// A source over this reader, with no fault.
    pub fn new(reader: R) -> Self
        ensures { result ≡ record { reader = reader; faults = 0 } }
    {
        RealSource { reader, faults: 0 }
    }

    /// Counts a fault.
    fn fault(&mut self) -> SourceError
        ensures counted { self.new ≡ record self.old { faults = one_more self.old.faults } }
        ensures kept { self.old.faults ≤ self.new.faults }
    {
        self.faults = self.faults.saturating_add(1);
        SourceError::Failed
    }
}

impl<R: Read> Source for RealSource<R> {
    ghost told = { over_reader_told };

    fn read(&mut self, buffer: &mut [u8]) -> Result<usize, SourceError>
        ensures reads { ReadsInto result (over_reader_told self.old) buffer.new (over_reader_told self.new) }
        ensures once { OnErr result (self.new.faults ≡ one_more self.old.faults) }
        ensures passed_on { ReadConsumes (R.remaining self.old.reader) (R.remaining self.new.reader) result buffer.new }
    {
        for _ in 0..TRIES {
            match self.reader.read(buffer) {
                Ok(count) => return Ok(count),
                Err(error) => {
                    if error.kind() != io::ErrorKind::Interrupted {
                        return Err(self.fault());
                    }
                }
            }
        }
        Err(self.fault())
    }
}
