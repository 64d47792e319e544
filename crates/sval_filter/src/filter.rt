//! The filter as a stream.

ghost use Rattle.std.specs.Prelude.{◌≡◌, ◌≤◌, List, [], None, Some};
ghost use Rattle.std.specs.Bool.{Decides};
ghost use Rattle.sval_label.specs.Calls.{Call};
ghost use Rattle.sval_label.specs.Made.{call_of};
ghost use Rattle.sval_core.specs.Law.{Answers};
ghost use Rattle.sval_core.specs.CheckerSteps.{is_whole_tree, unfilled};
ghost use Rattle.sval_core.specs.Spells.{Spells};
ghost use Rattle.sval_core.specs.Trees.{Tree};
ghost use Rattle.sval_check.specs.Checked.{StandsFor};
ghost use Rattle.sval_filter.specs.Filtering.{fresh};
ghost use Rattle.sval_filter.specs.FilterLaw.{Ruled, wants_after, is_stopped, ruled_law, ruled_standing};
ghost use Rattle.sval_filter.specs.SeenFilters.{ruled_of, rule_in, paths_of, state_in, kept_in, stream_in, why_in, wants_in, why_by, Filters};

use crate::paths::{Paths, Rule};
use crate::sieve::{Hindrance, Sieve, step, twice};
use std::alloc::Global;
use sval_check::{Machine, Why};
use sval_core::{AnyCall, Error, Lending, Stream};

/// A stream that passes on the calls of what a rule and paths leave of a value.
///
/// It is for one value. It takes calls as [`Checked`](sval_check::Checked) does, and passes none on of a field or an
/// entry that is left out. The begin of a map, a record or a record tuple goes without its size, since fewer entries
/// may come. The key of an entry is held until its end, since its text says whether the entry is left out; then it goes
/// on with computed fragments.
///
/// Until the inner stream has refused a call that was due, a call is refused for the first of these causes, which
/// [`why`](Filter::why) then tells:
///
/// - [`Why::NotViable`] comes exactly where no value goes on with the call after those so far. It leaves all as before.
/// - [`Why::NoMemory`] comes only where one does, and memory was wanting for what the call begins, for the key that is
///   held, or, at the end of a key that is a text, for its label. It leaves all as before.
/// - [`Why::Inner`] comes only where one does, and the inner stream refused a call that was due. It then took a front
///   of those that were. No later call is taken: each is refused as this, whether a value goes on with it or not.
///
/// ```
/// let mut paths = Paths::new(alloc);
/// paths.push_word("user.password")?;
/// let mut filter = Filter::new(alloc, Rule::Drop, &paths, stream);
/// filter.value(&event)?;
/// assert_eq!(rt; filter.is_whole(), true);
/// let stream = filter.into_inner();
/// ```
///
/// Where its calls spell a value, those that the inner stream took spell what is left of that, which is proved in
/// [`laws::stream_laws`](crate::laws::stream_laws).
#[derive(Drop)]
pub struct Filter<'p, S> {
    machine: Machine,
    sieve: Sieve<'p, S>,
    /// The cause of the last refusal.
    why: Option<Why>,
    /// How often a call was refused that goes on.
    wants: u64,
}

impl<'p, S> Filter<'p, S> {
    /// A filter over this stream, which has taken no call, and takes no memory yet.
    pub fn new(alloc: Global, rule: Rule, paths: &'p Paths, stream: S) -> Self
        ensures rule { rule_in result ≡ rule }
        ensures paths { paths_of result ≡ paths.now }
        ensures state { state_in result ≡ unfilled [] }
        ensures kept { kept_in result ≡ fresh }
        ensures inner { stream_in result ≡ stream }
        ensures why { why_in result ≡ None }
        ensures wants { wants_in result ≡ 0 }
    {
        Filter {
            machine: Machine::new(alloc),
            sieve: Sieve::new(alloc, rule, paths, stream),
            why: None,
            wants: 0,
        }
    }

    /// Whether the calls that were taken are one whole value.
    pub fn is_whole(&self) -> bool
        ensures state { result ≡ is_whole_tree (state_in self.now) }
        ensures spells { (calls : List Call) → StandsFor (state_in self.now) calls
            → Decides result ((tree : Tree) × Spells calls tree) }
    {
        self.machine.is_whole()
    }

    /// The cause of the last refusal, if there was one. A call that is taken leaves it.
    pub fn why(&self) -> Option<Why>
        ensures { result ≡ why_in self.now }
    {
        self.why
    }

    /// The inner stream, as the calls that were passed on left it.
    pub fn into_inner(self) -> S
        ensures { result ≡ stream_in self.entry }
    {
        self.sieve.into_inner()
    }

    /// The inner stream has refused a call that was due.
    fn is_stopped(&self) -> bool
        ensures { result ≡ is_stopped (why_in self.now) }
    {
        match self.why {
            Some(Why::Inner) => true,
            Some(Why::NotViable) => false,
            Some(Why::NoMemory) => false,
            None => false,
        }
    }

    /// Keeps why a call was refused.
    fn keep(&mut self, why: Why)
        ensures machine { self.new.machine ≡ self.old.machine }
        ensures sieve { self.new.sieve ≡ self.old.sieve }
        ensures why { self.new.why ≡ Some why }
        ensures wants { self.new.wants ≡ wants_after why self.old.wants }
        ensures never_falls { self.old.wants ≤ self.new.wants }
    {
        if why != Why::NotViable {
            self.wants = self.wants.saturating_add(1);
        }
        self.why = Some(why);
    }
}

/// Passes the calls on that are due at a call, where it can be completed and memory isn't wanting for it, or says why
/// it isn't taken.
fn pass<L: Lending, S: Stream<L>>(
    filter: &mut Filter<'_, S>,
    call: AnyCall<'_, L::Text, L::Bytes>,
) -> Result<(), Why>
    ensures { Filters S.law (ruled_of S.standing filter.old) (call_of L.text L.bytes call.entry) result
        (ruled_of S.standing filter.new) }
{
    let (call, same) = twice(call);
    let due = filter.machine.ready::<L>(call)?;
    match step(&mut filter.sieve, same) {
        Ok(()) => {
            filter.machine.finish(due);
            Ok(())
        }
        Err(hindrance) => {
            filter.machine.undo(due);
            Err(hindrance.why())
        }
    }
}

impl Hindrance {
    /// The cause of the filter's refusal.
    fn why(self) -> Why
        ensures { result ≡ why_by self }
    {
        match self {
            Hindrance::NoMemory => Why::NoMemory,
            Hindrance::Inside => Why::Inner,
        }
    }
}

impl<'p, L: Lending, S: Stream<L>> Stream<L> for Filter<'p, S> {
    ghost View = { Ruled S.View };

    ghost law = { ruled_law S.law };

    ghost standing = { λ filter. ruled_standing (ruled_of S.standing filter) };

    fn take(&mut self, call: AnyCall<'_, L::Text, L::Bytes>) -> sval_core::Result
        ensures { Answers (ruled_law S.law) result (ruled_standing (ruled_of S.standing self.old))
            (call_of L.text L.bytes call.entry) (ruled_standing (ruled_of S.standing self.new)) }
    {
        if self.is_stopped() {
            self.keep(Why::Inner);
            return Err(Error::new());
        }
        match pass::<L, S>(self, call) {
            Ok(()) => Ok(()),
            Err(why) => {
                self.keep(why);
                Err(Error::new())
            }
        }
    }
}
