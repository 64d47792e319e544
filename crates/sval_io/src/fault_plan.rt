//! A plan of a device that fails.

ghost use Rattle.std.specs.Prelude.{◌≡◌, ◌↔◌, ◌<◌, ◌≤◌, IsTrue, true, false, min};
ghost use Rattle.sval_io.specs.FaultPlans.{new_plan, IsDueToFail, went_well, failed};

use std::marker::Model;

/// How many bytes a call of a device moves at most, and the calls at which the device fails, by their numbers from 1.
///
/// It counts the calls and the failures.
#[derive(Drop)]
pub struct FaultPlan<'a> {
    chunk: usize,
    failing: &'a [u64],
    calls: u64,
    faults: u64,
}

impl<'a> Model for FaultPlan<'a> {
    ghost use Rattle.std.specs.Prelude.{◌≤◌};
    ghost use Rattle.sval_io.specs.FaultPlans.{Plan};

    ghost Value = { Plan };

    ghost view = { λ plan. record {
      chunk = plan.chunk;
      failing = plan.failing.now;
      calls = plan.calls;
      faults = plan.faults;
    } };

    ghost invariant = { λ plan. 1 ≤ plan.chunk };
}

impl<'a> FaultPlan<'a> {
    /// The plan before any call.
    pub fn new(chunk: usize, failing: &'a [u64]) -> Self
        requires { 1 ≤ chunk }
        ensures { result ≡ new_plan chunk failing.now }
    {
        FaultPlan {
            chunk,
            failing,
            calls: 0,
            faults: 0,
        }
    }

    /// How many of `len` bytes a call moves: all, or the plan's chunk where that is less. It is at least 1 where `len`
    /// is.
    pub fn share(&self, len: usize) -> usize
        ensures chunk { result ≡ min self.now.chunk len }
        ensures some { 0 < len → 0 < result }
    {
        len.min(self.chunk)
    }

    /// Counts the next call, and answers whether it is one of those that fail.
    pub fn fails_next(&mut self) -> bool
        ensures fails { IsTrue result ↔ IsDueToFail self.old }
        ensures failed { result ≡ true → self.new ≡ failed self.old }
        ensures counts { self.old.faults ≤ self.new.faults }
        ensures went_well { result ≡ false → self.new ≡ went_well self.old }
    {
        self.calls = self.calls.saturating_add(1);
        let fails = self.failing.contains(&self.calls);
        if fails {
            self.faults = self.faults.saturating_add(1);
        }
        fails
    }
}
