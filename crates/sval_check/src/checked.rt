//! A stream whose calls are checked as they come.

ghost use Rattle.std.specs.Prelude.{◌≡◌, ◌≤◌, [], List, None, Some};
ghost use Rattle.std.specs.Bool.{Decides};
ghost use Rattle.sval_label.specs.Calls.{Call};
ghost use Rattle.sval_label.specs.Made.{call_of};
ghost use Rattle.sval_core.specs.Law.{Answers};
ghost use Rattle.sval_core.specs.CheckerSteps.{unfilled, is_whole_tree};
ghost use Rattle.sval_core.specs.Spells.{Spells};
ghost use Rattle.sval_core.specs.Trees.{Tree};
ghost use Rattle.sval_check.specs.Checked.{CheckedView, PassesCall, StandsFor, checked_law, checked_standing};
ghost use Rattle.sval_check.specs.Checked.{inner_of, last_why, own_wants, seen, state_of, wants_after};

use crate::machine::{Machine, Refusal};
use std::alloc::Global;
use std::fmt;
use sval_core::{AnyCall, Error, Lending, Stream};

/// Why a [`Checked`] refused a call.
#[derive(Clone, Copy, Debug, PartialEq, Eq)]
pub enum Why {
    /// No value goes on with the call after those so far.
    NotViable,
    /// Memory was wanting for what the call begins.
    NoMemory,
    /// The inner stream refused the call.
    Inner,
}

impl fmt::Display for Why {
    ghost use Rattle.std.specs.Prelude.{Some};
    ghost use Rattle.sval_check.specs.ErrorTexts.{why_text};

    ghost output = { λ error. Some (why_text error) };

    fn fmt<W: fmt::Write>(&self, f: &mut fmt::Formatter<W>) -> fmt::Result {
        f.write_str(match self {
            Why::NotViable => "no value goes on with the call",
            Why::NoMemory => "cannot allocate for a check",
            Why::Inner => "the inner stream refused the call",
        })
    }
}

impl std::error::Error for Why {}

impl From<Refusal> for Why {
    ghost use Rattle.sval_check.specs.Checked.{why_of};

    ghost from_gives = { λ refusal why. why ≡ why_of refusal };

    fn from(refusal: Refusal) -> Why {
        match refusal {
            Refusal::NotViable => Why::NotViable,
            Refusal::NoMemory => Why::NoMemory,
        }
    }
}

/// A stream that checks each call as it comes, and passes on those which can still be completed to a value.
///
/// Other streams trust that calls, ends, names and sizes are right, and under a `Checked` they may. Where
/// [`is_whole`](Checked::is_whole) answers true, what was passed on is one whole value. It keeps what has begun and has
/// no end yet, as [`check`](crate::check) does, and no list of calls.
///
/// A call is refused for the first of these causes, which [`why`](Checked::why) then tells:
///
/// - [`Why::NotViable`] comes exactly where no value goes on with the call after those so far.
/// - [`Why::NoMemory`] comes only where one does, the call begins something, and memory was wanting to keep that.
/// - [`Why::Inner`] comes only where one does, and the inner stream refused the call.
///
/// After a refusal the calls so far are as before, so the next call may be another one in its place. The inner stream
/// gets a call only after both checks.
///
/// ```
/// let mut checked = Checked::new(alloc, stream);
/// checked.seq_begin(None)?;
/// assert_eq!(rt; checked.map_end().is_err(), true);
/// assert_eq!(rt; checked.why(), Some(Why::NotViable));
/// assert_eq!(rt; checked.is_whole(), false);
/// checked.seq_end()?;
/// assert_eq!(rt; checked.is_whole(), true);
/// let stream = checked.into_inner();
/// ```
///
/// What its law means for the calls so far is proved in [`laws::checked_laws`](crate::laws::checked_laws).
#[derive(Drop)]
pub struct Checked<S> {
    machine: Machine,
    inner: S,
    /// The cause of the last refusal.
    why: Option<Why>,
    /// How often a call that can be completed was refused.
    wants: u64,
}

impl<S> Checked<S> {
    /// A stream over this one, which has taken no call. What calls begin is kept in memory of `alloc`.
    pub fn new(alloc: Global, stream: S) -> Self
        ensures fresh { state_of result ≡ unfilled [] }
        ensures stands_for { StandsFor (state_of result) [] }
        ensures inner { inner_of result ≡ stream }
        ensures why { last_why result ≡ None }
        ensures wants { own_wants result ≡ 0 }
    {
        Checked {
            machine: Machine::new(alloc),
            inner: stream,
            why: None,
            wants: 0,
        }
    }

    /// Whether the calls so far are one whole value.
    pub fn is_whole(&self) -> bool
        ensures state { result ≡ is_whole_tree (state_of self.now) }
        ensures spells { (calls : List Call) → StandsFor (state_of self.now) calls
            → Decides result ((tree : Tree) × Spells calls tree) }
    {
        self.machine.is_whole()
    }

    /// The cause of the last refusal, if there was one. A call that is taken leaves it.
    pub fn why(&self) -> Option<Why>
        ensures { result ≡ last_why self.now }
    {
        self.why
    }

    /// The inner stream, as the calls that were passed on left it.
    pub fn into_inner(self) -> S
        ensures { result ≡ inner_of self }
    {
        self.inner
    }

    /// Keeps why a call was refused.
    fn keep(&mut self, why: Why)
        ensures machine { self.new.machine ≡ self.old.machine }
        ensures inner { self.new.inner ≡ self.old.inner }
        ensures why { self.new.why ≡ Some why }
        ensures wants { self.new.wants ≡ wants_after why self.old.wants }
        ensures never_falls { self.old.wants ≤ self.new.wants }
    {
        if why != Why::NotViable {
            self.wants = self.wants.saturating_add(1);
        }
        self.why = Some(why);
    }
}

/// A value and its copy.
#[inline(always)]
pub(crate) fn twice<T: Copy>(value: T) -> (T, T)
    ensures { result ≡ (value, value) }
{
    (value, value)
}

/// Passes a call on where it can be completed and memory isn't wanting for it, or says why it isn't taken.
fn pass<L: Lending, S: Stream<L>>(
    checked: &mut Checked<S>,
    call: AnyCall<'_, L::Text, L::Bytes>,
) -> Result<(), Why>
    ensures { PassesCall S.law (seen S.standing checked.old) (call_of L.text L.bytes call.entry)
        (seen S.standing checked.new) result }
{
    let (call, passed) = twice(call);
    let due = checked.machine.ready::<L>(call)?;
    match checked.inner.take(passed) {
        Ok(()) => {
            checked.machine.finish(due);
            Ok(())
        }
        Err(_) => {
            checked.machine.undo(due);
            Err(Why::Inner)
        }
    }
}

impl<L: Lending, S: Stream<L>> Stream<L> for Checked<S> {
    ghost View = { CheckedView S.View };

    ghost law = { checked_law S.law };

    ghost standing = { λ checked. checked_standing (seen S.standing checked) };

    fn take(&mut self, call: AnyCall<'_, L::Text, L::Bytes>) -> sval_core::Result
        ensures { Answers (checked_law S.law) result (checked_standing (seen S.standing self.old))
            (call_of L.text L.bytes call.entry) (checked_standing (seen S.standing self.new)) }
    {
        match pass(self, call) {
            Ok(()) => Ok(()),
            Err(why) => {
                self.keep(why);
                Err(Error::new())
            }
        }
    }
}
