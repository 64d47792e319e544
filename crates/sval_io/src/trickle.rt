//! A sink that takes little at a time.

ghost use Rattle.std.specs.Prelude.{◌≡◌, [], IfOk, OnErr, length, min};
ghost use Rattle.sval_core.specs.Law.{one_more};
ghost use Rattle.sval_io.specs.Sinks.{Writes};
ghost use Rattle.sval_io.specs.Taken.{taken_told};

use crate::sink::{Sink, SinkError, VecSink};
use std::alloc::Global;
use std::marker::Model;

/// A sink in memory that takes one byte a call, or memory is wanting. It never fails.
#[derive(Drop)]
pub struct TrickleSink {
    taken: VecSink,
}

impl Model for TrickleSink {
    ghost use Rattle.sval_io.specs.Taken.{Taken};

    ghost Value = { Taken };

    ghost view = { λ sink. sink.taken };
}

impl TrickleSink {
    /// An empty sink, which takes no memory yet.
    pub fn new(alloc: Global) -> Self
        ensures { result ≡ record { bytes = []; wants = 0 } }
    {
        TrickleSink {
            taken: VecSink::new(alloc),
        }
    }

    /// The bytes taken so far.
    pub fn as_slice(&self) -> &[u8]
        ensures { result.now ≡ self.now.bytes }
    {
        self.taken.as_slice()
    }
}

impl Sink for TrickleSink {
    ghost told = { taken_told };

    fn write(&mut self, piece: &[u8]) -> Result<usize, SinkError>
        ensures one { IfOk result (λ count. count ≡ min 1 (length piece.now)) }
        ensures empty { piece.now ≡ [] → (result ≡ Ok 0) × (self.new ≡ self.old) }
        ensures writes { Writes result (taken_told self.old) piece.now (taken_told self.new) }
        ensures once { OnErr result (self.new.wants ≡ one_more self.old.wants) }
    {
        match piece {
            [] => Ok(0),
            [first, ..] => self.taken.write(&[*first]),
        }
    }

    fn flush(&mut self) -> Result<(), SinkError>
        ensures idle { result ≡ Ok tt }
        ensures same { self.new ≡ self.old }
    {
        Ok(())
    }
}
