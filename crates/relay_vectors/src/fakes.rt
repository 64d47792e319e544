//! Streams and sinks for tests.

ghost use Rattle.std.specs.Prelude.{◌≡◌, ◌+◌, ◌++◌, None, Some, length};
ghost use Rattle.sval_core.specs.Law.{Answers};
ghost use Rattle.sval_core.specs.Lenient.{lenient, with_wants};
ghost use Rattle.sval_label.specs.Made.{lent_call};

use crate::forms::Taking;
use std::alloc::Global;
use std::fmt::Write;
use sval_core::{Call, Lent, Stream, refusal};
use sval_io::{Sink, SinkError, VecSink};

/// Writes each call down in a line, and refuses one where memory is wanting.
#[derive(Drop)]
pub(crate) struct Record {
    pub(crate) text: String,
    wants: u64,
}

impl Record {
    pub(crate) fn new(alloc: Global) -> Record {
        Record {
            text: String::new(alloc),
            wants: 0,
        }
    }
}

impl<'v> Stream<Lent<'v>> for Record {
    ghost View = { Unit {0} };

    ghost law = { lenient };

    ghost standing = { λ said. with_wants said.wants };

    fn take(&mut self, call: Call<'v, '_>) -> sval_core::Result
        ensures { Answers lenient result
            (with_wants self.old.wants) (lent_call call.entry) (with_wants self.new.wants) }
    {
        match write!(self.text, "{call:?}\n") {
            Ok(()) => Ok(()),
            Err(_) => {
                self.wants = self.wants.saturating_add(1);
                refusal()
            }
        }
    }
}

/// A sink in memory that counts its calls, and may take one byte a call, or stop at a call or at each flush.
#[derive(Drop)]
pub(crate) struct Balky {
    pub(crate) taken: VecSink,
    pub(crate) calls: usize,
    pub(crate) flushes: usize,
    /// Takes one byte a call.
    trickles: bool,
    /// The number of the call that is answered by an error, and the error. Where the number is 0, each flush is
    /// answered by it.
    stops: Option<(usize, SinkError)>,
    faults: u64,
    wants: u64,
}

impl Balky {
    /// A sink that takes all that it is given.
    pub(crate) fn new(alloc: Global) -> Balky {
        Balky {
            taken: VecSink::new(alloc),
            calls: 0,
            flushes: 0,
            trickles: false,
            stops: None,
            faults: 0,
            wants: 0,
        }
    }

    /// A sink that takes one byte a call, and stops at the call of this number, or at each flush where it is 0.
    pub(crate) fn trickling(alloc: Global, stops: Option<(usize, SinkError)>) -> Balky {
        let mut sink = Balky::new(alloc);
        sink.trickles = true;
        sink.stops = stops;
        sink
    }
}

impl Sink for Balky {
    ghost told = { λ sink. record {
      text = Some sink.taken.bytes;
      room = None;
      held = Some 0;
      faults = sink.faults;
      wants = sink.taken.wants + sink.wants;
    } };

    fn write(&mut self, piece: &[u8]) -> Result<usize, SinkError> {
        self.calls = self.calls.saturating_add(1);
        match self.stops {
            Some((at, SinkError::Failed)) if at == self.calls => {
                self.faults = self.faults.saturating_add(1);
                return Err(SinkError::Failed);
            }
            Some((at, SinkError::NoMemory)) if at == self.calls => {
                self.wants = self.wants.saturating_add(1);
                return Err(SinkError::NoMemory);
            }
            _ => {}
        }
        if self.trickles && !piece.is_empty() {
            self.taken.write(&piece[..1])
        } else {
            self.taken.write(piece)
        }
    }

    fn flush(&mut self) -> Result<(), SinkError> {
        self.flushes = self.flushes.saturating_add(1);
        match self.stops {
            Some((0, SinkError::Failed)) => {
                self.faults = self.faults.saturating_add(1);
                Err(SinkError::Failed)
            }
            _ => Ok(()),
        }
    }
}

impl Taking for Balky {
    fn taken(&self) -> &[u8] {
        self.taken.as_slice()
    }
}

/// Holds back all that it takes until it is flushed.
#[derive(Drop)]
pub(crate) struct HoldingSink {
    /// The bytes that it passed on.
    pub(crate) passed: Vec<u8>,
    held: Vec<u8>,
    wants: u64,
}

impl HoldingSink {
    pub(crate) fn new(alloc: Global) -> Self {
        HoldingSink {
            passed: Vec::new(alloc),
            held: Vec::new(alloc),
            wants: 0,
        }
    }
}

impl Sink for HoldingSink {
    ghost told = { λ sink. record {
      text = Some (sink.passed.items ++ sink.held.items);
      room = None;
      held = Some (length sink.held.items);
      faults = 0;
      wants = sink.wants;
    } };

    fn write(&mut self, piece: &[u8]) -> Result<usize, SinkError> {
        match self.held.extend_from_slice(piece) {
            Ok(()) => Ok(piece.len()),
            Err(_) => {
                self.wants = self.wants.saturating_add(1);
                Err(SinkError::NoMemory)
            }
        }
    }

    fn flush(&mut self) -> Result<(), SinkError> {
        match self.passed.extend_from_slice(&self.held) {
            Ok(()) => {
                self.held.clear();
                Ok(())
            }
            Err(_) => {
                self.wants = self.wants.saturating_add(1);
                Err(SinkError::NoMemory)
            }
        }
    }
}

impl Taking for HoldingSink {
    fn taken(&self) -> &[u8] {
        &self.passed
    }
}
