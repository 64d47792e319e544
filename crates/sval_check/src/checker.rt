//! A stream that checks calls for one tree.

ghost use Rattle.std.specs.Prelude.{◌≡◌};
ghost use Rattle.sval_label.specs.Made.{call_of};
ghost use Rattle.sval_core.specs.Law.{Answers};
ghost use Rattle.sval_core.specs.CheckerSteps.{is_whole_tree};
ghost use Rattle.sval_check.specs.Checking.{Checking, checking, checking_law, checking_standing};
ghost use Rattle.sval_check.specs.Checking.{nothing_checked, StepsOrRefuses, stop_by};

use crate::error::CheckError;
use crate::machine::{Machine, Refusal};
use std::alloc::Global;
use sval_core::{AnyCall, Error, Lending, Stream};

/// Takes the calls that can be completed to a value.
///
/// After a refusal it takes no call.
#[derive(Drop)]
pub(crate) struct Checker {
    pub(crate) machine: Machine,
    /// The number of the calls so far with one that was refused, or the greatest `u64`.
    pub(crate) taken: u64,
    /// Why a call was refused.
    pub(crate) why: Option<Refusal>,
}

impl Checker {
    /// One that has taken no call, and no memory yet.
    pub(crate) fn new(alloc: Global) -> Self
        ensures { checking result ≡ nothing_checked }
    {
        Checker {
            machine: Machine::new(alloc),
            taken: 0,
            why: None,
        }
    }

    /// The calls so far are one whole value.
    pub(crate) fn is_whole(&self) -> bool
        ensures { result ≡ is_whole_tree self.now.machine }
    {
        self.machine.is_whole()
    }

    /// Why not all calls were taken, or that the value itself refused where they were.
    pub(crate) fn cause(&self) -> CheckError
        ensures { result ≡ stop_by self.now.why self.now.taken }
    {
        match self.why {
            Some(Refusal::NotViable) => CheckError::BadCall { at: self.taken },
            Some(Refusal::NoMemory) => CheckError::NoMemory,
            None => CheckError::Refused,
        }
    }

    /// Counts a call and goes on with it, or says why it doesn't go on.
    #[inline(always)]
    fn step<L: Lending>(&mut self, call: AnyCall<'_, L::Text, L::Bytes>) -> Result<(), Refusal>
        ensures { StepsOrRefuses (checking self.old) (call_of L.text L.bytes call.entry) (checking self.new) result }
    {
        self.taken = self.taken.saturating_add(1);
        self.machine.step::<L>(call)
    }
}

impl<L: Lending> Stream<L> for Checker {
    ghost View = { Checking };

    ghost law = { checking_law };

    ghost standing = { λ checker. checking_standing (checking checker) };

    #[inline(always)]
    fn take(&mut self, call: AnyCall<'_, L::Text, L::Bytes>) -> sval_core::Result
        ensures { Answers checking_law result (checking_standing (checking self.old))
            (call_of L.text L.bytes call.entry) (checking_standing (checking self.new)) }
    {
        if self.why.is_some() {
            return Err(Error::new());
        }
        match self.step::<L>(call) {
            Ok(()) => Ok(()),
            Err(why) => {
                self.why = Some(why);
                Err(Error::new())
            }
        }
    }
}
