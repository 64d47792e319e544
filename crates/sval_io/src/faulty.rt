//! A sink that fails where it is told to.

ghost use Rattle.std.specs.Prelude.{◌≡◌, ◌↔◌, ◌≤◌, [], IfOk, IfErr, length, min};
ghost use Rattle.sval_io.specs.FaultPlans.{new_plan};
ghost use Rattle.sval_io.specs.Faulty.{faulty_told, after_write, FailsNext};
ghost use Rattle.sval_io.specs.Sinks.{IsCountedOnce, Writes, Flushes};

use crate::fault_plan::FaultPlan;
use crate::sink::{Sink, SinkError, VecSink};
use std::alloc::Global;
use std::marker::Model;

/// A sink in memory that takes at most a given number of bytes a call, and fails at the calls whose numbers are given.
///
/// Calls are counted from 1, over pieces that aren't empty. Each error counts once, and a flush never fails.
#[derive(Drop)]
pub struct FaultySink<'a> {
    taken: VecSink,
    plan: FaultPlan<'a>,
}

impl<'a> Model for FaultySink<'a> {
    ghost use Rattle.sval_io.specs.Faulty.{Faulty};

    ghost Value = { Faulty };

    ghost view = { λ sink. record { bytes = sink.taken.bytes; plan = sink.plan; wants = sink.taken.wants } };
}

impl<'a> FaultySink<'a> {
    /// An empty sink, which takes no memory yet.
    pub fn new(alloc: Global, chunk: usize, failing: &'a [u64]) -> Self
        requires { 1 ≤ chunk }
        ensures { result ≡ record { bytes = []; plan = new_plan chunk failing.now; wants = 0 } }
    {
        FaultySink {
            taken: VecSink::new(alloc),
            plan: FaultPlan::new(chunk, failing),
        }
    }

    /// The bytes taken so far.
    pub fn as_slice(&self) -> &[u8]
        ensures { result.now ≡ self.now.bytes }
    {
        self.taken.as_slice()
    }
}

impl<'a> Sink for FaultySink<'a> {
    ghost told = { faulty_told };

    fn write(&mut self, piece: &[u8]) -> Result<usize, SinkError>
        ensures chunk { IfOk result (λ count. count ≡ min self.old.plan.chunk (length piece.now)) }
        ensures fails { (result ≡ Err SinkError.Failed) ↔ FailsNext self.old piece.now }
        ensures writes { Writes result (faulty_told self.old) piece.now (faulty_told self.new) }
        ensures once { IfErr result (λ why. IsCountedOnce why (faulty_told self.old) (faulty_told self.new)) }
        ensures empty { piece.now ≡ [] → (result ≡ Ok 0) × (self.new ≡ self.old) }
        ensures plan { self.new.plan ≡ after_write result piece.now self.old.plan }
    {
        if piece.is_empty() {
            return Ok(0);
        }
        if self.plan.fails_next() {
            return Err(SinkError::Failed);
        }
        self.taken.write(&piece[..self.plan.share(piece.len())])
    }

    fn flush(&mut self) -> Result<(), SinkError>
        ensures idle { result ≡ Ok tt }
        ensures same { self.new ≡ self.old }
        ensures flushes { Flushes result (faulty_told self.old) (faulty_told self.new) }
    {
        Ok(())
    }
}
