//! A source that fails where it is told to.

ghost use Rattle.std.specs.Prelude.{◌≡◌, ◌↔◌, ◌≤◌, IfOk, OnErr, drop, length};
ghost use Rattle.sval_io.specs.FaultPlans.{new_plan, IsDueToFail};
ghost use Rattle.sval_io.specs.FaultySources.{after_read, faulty_source_told, given};
ghost use Rattle.sval_io.specs.Sources.{ReadsInto};

use crate::fault_plan::FaultPlan;
use crate::source::{Source, SourceError};
use std::marker::Model;

/// A source in memory that gives at most a given number of bytes a call, and fails at the calls whose numbers are
/// given.
///
/// All calls are counted, from 1. A call that fails takes nothing of what is left, and leaves the buffer as it was; one
/// that gives bytes leaves it so behind them.
///
/// ```
/// let mut source = FaultySource::new(b"null\n", 3, &[2]);
/// let mut buffer = [0; 8];
/// assert_eq!(rt; source.read(&mut buffer), Ok(3));
/// assert_eq!(rt; source.read(&mut buffer), Err(SourceError::Failed));
/// assert_eq!(rt; source.read(&mut buffer), Ok(2));
/// ```
#[derive(Drop)]
pub struct FaultySource<'a> {
    left: &'a [u8],
    plan: FaultPlan<'a>,
}

impl<'a> Model for FaultySource<'a> {
    ghost use Rattle.sval_io.specs.FaultySources.{FaultySupply};

    ghost Value = { FaultySupply };

    ghost view = { λ source. record { left = source.left.now; plan = source.plan } };
}

impl<'a> FaultySource<'a> {
    /// A source that has these bytes.
    pub fn new(bytes: &'a [u8], chunk: usize, failing: &'a [u64]) -> Self
        requires { 1 ≤ chunk }
        ensures { result ≡ record { left = bytes.now; plan = new_plan chunk failing.now } }
    {
        FaultySource {
            left: bytes,
            plan: FaultPlan::new(chunk, failing),
        }
    }
}

impl<'a> Source for FaultySource<'a> {
    ghost told = { faulty_source_told };

    fn read(&mut self, buffer: &mut [u8]) -> Result<usize, SourceError>
        ensures chunk { IfOk result (λ count. count ≡ given self.old (length buffer.old)) }
        ensures fails { (result ≡ Err SourceError.Failed) ↔ IsDueToFail self.old.plan }
        ensures reads { ReadsInto result (faulty_source_told self.old) buffer.new (faulty_source_told self.new) }
        ensures rest { IfOk result (λ count. drop count buffer.new ≡ drop count buffer.old) }
        ensures untouched { OnErr result (buffer.new ≡ buffer.old) }
        ensures plan { self.new.plan ≡ after_read result self.old.plan }
    {
        if self.plan.fails_next() {
            return Err(SourceError::Failed);
        }
        let count = self.plan.share(buffer.len().min(self.left.len()));
        let (given, left) = self.left.split_at(count);
        buffer[..count].copy_from_slice(given);
        self.left = left;
        Ok(count)
    }
}
