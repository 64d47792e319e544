//! A stream whose calls are checked until one is refused.

ghost use Rattle.std.specs.Prelude.{◌≡◌, ◌≤◌, [], List};
ghost use Rattle.std.specs.Bool.{Decides};
ghost use Rattle.sval_label.specs.Calls.{Call};
ghost use Rattle.sval_label.specs.Made.{call_of};
ghost use Rattle.sval_core.specs.Law.{Answers, one_more};
ghost use Rattle.sval_core.specs.Spells.{Spells};
ghost use Rattle.sval_core.specs.Trees.{Tree};
ghost use Rattle.sval_check.specs.Checked.{CheckedView, StandsFor, checked_standing};
ghost use Rattle.sval_check.specs.Passing.{StepsAndPasses, passing_inner, passing_law, passing_state, seen_passing};

use crate::checked::{Why, twice};
use crate::machine::Machine;
use std::alloc::Global;
use sval_core::{AnyCall, Error, Lending, Stream};

/// A stream that takes the calls that [`Checked`](crate::Checked) does, and is of no more use once it refused one.
///
/// It goes on with a call before the inner stream takes it, and has nothing to undo. So a call is checked and passed on
/// in one go, and each kind of call is compiled down to what it needs.
#[derive(Drop)]
pub(crate) struct Passing<S> {
    machine: Machine,
    inner: S,
    /// How many calls were refused, or the greatest `u64`.
    refusals: u64,
}

impl<S> Passing<S> {
    /// A stream over this one, which has taken no call. What calls begin is kept in memory of `alloc`.
    pub(crate) fn new(alloc: Global, stream: S) -> Self
        ensures stands_for { StandsFor (passing_state result) [] }
        ensures inner { passing_inner result ≡ stream }
    {
        Passing {
            machine: Machine::new(alloc),
            inner: stream,
            refusals: 0,
        }
    }

    /// Whether the calls so far are one whole value.
    pub(crate) fn is_whole(&self) -> bool
        ensures { (calls : List Call) → StandsFor (passing_state self.now) calls
            → Decides result ((tree : Tree) × Spells calls tree) }
    {
        self.machine.is_whole()
    }

    /// The inner stream, as the calls that were passed on left it.
    pub(crate) fn into_inner(self) -> S
        ensures { result ≡ passing_inner self }
    {
        self.inner
    }

    /// Counts a refusal.
    #[inline(never)]
    fn count(&mut self)
        ensures machine { self.new.machine ≡ self.old.machine }
        ensures inner { self.new.inner ≡ self.old.inner }
        ensures refusals { self.new.refusals ≡ one_more self.old.refusals }
        ensures never_falls { self.old.refusals ≤ self.new.refusals }
    {
        self.refusals = self.refusals.saturating_add(1);
    }
}

/// Goes on with a call and passes it on, or says why it isn't taken.
#[inline(always)]
fn pass<L: Lending, S: Stream<L>>(
    passing: &mut Passing<S>,
    call: AnyCall<'_, L::Text, L::Bytes>,
) -> Result<(), Why>
    ensures { StepsAndPasses S.law (seen_passing S.standing passing.old) (call_of L.text L.bytes call.entry)
        (seen_passing S.standing passing.new) result }
{
    let (call, passed) = twice(call);
    passing.machine.step::<L>(call)?;
    match passing.inner.take(passed) {
        Ok(()) => Ok(()),
        Err(_) => Err(Why::Inner),
    }
}

impl<L: Lending, S: Stream<L>> Stream<L> for Passing<S> {
    ghost View = { CheckedView S.View };

    ghost law = { passing_law S.law };

    ghost standing = { λ passing. checked_standing (seen_passing S.standing passing) };

    #[inline(always)]
    fn take(&mut self, call: AnyCall<'_, L::Text, L::Bytes>) -> sval_core::Result
        ensures { Answers (passing_law S.law) result (checked_standing (seen_passing S.standing self.old))
            (call_of L.text L.bytes call.entry) (checked_standing (seen_passing S.standing self.new)) }
    {
        match pass(self, call) {
            Ok(()) => Ok(()),
            Err(_) => {
                self.count();
                Err(Error::new())
            }
        }
    }
}
