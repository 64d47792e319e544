//! What passes calls on that go on.

ghost use Rattle.std.specs.Prelude.{◌≡◌, true, ◌∷◌, [], is_some};
ghost use Rattle.sval_label.specs.Calls as calls;
ghost use Rattle.sval_label.specs.Made.{call_of};
ghost use Rattle.sval_label.specs.Grouped.{seen_head, seen_slot};
ghost use Rattle.sval_core.specs.Law.{Emits, as_computed};
ghost use Rattle.sval_core.specs.Values.{makes, between};
ghost use Rattle.sval_core.specs.Stacks.{below};
ghost use Rattle.sval_buffer.specs.Forest.{empty_forest, replayed};
ghost use Rattle.sval_buffer.specs.SeenBuffers.{capture_of};
ghost use Rattle.sval_filter.specs.Paths as path;
ghost use Rattle.sval_filter.specs.SeenLayers.{seen_fate, seen_mode, entry_by};
ghost use Rattle.sval_filter.specs.Filtering.{mode_in, entry_in, with_entry, mode_of_part, passed, hint_due, without_size};
ghost use Rattle.sval_filter.specs.Filtering.{held_label, may_take_memory};
ghost use Rattle.sval_filter.specs.Sieves.{sieve_view, due_at, next_kept, mode_now, one_if, key_and_end};
ghost use Rattle.sval_filter.specs.Sieves.{PassesCalls, Moves, TakesCall, TakesBegin, Settles, OpensLayer};

use crate::held::{hold, read_text};
use crate::key_text::KeyText;
use crate::layer::{Fate, Mode};
use crate::layers::Layers;
use crate::paths::{Paths, Rule};
use std::alloc::Global;
use sval_buffer::ValueBuf;
use sval_core::{AnyCall, GroupedCall, Head, Lending, NoMemory, Slot, Stream};

/// Why a sieve doesn't take a call.
#[derive(Clone, Copy)]
pub(crate) enum Hindrance {
    /// Memory was wanting.
    NoMemory,
    /// The inner stream refused a call that was due.
    Inside,
}

impl From<NoMemory> for Hindrance {
    ghost use Rattle.sval_filter.specs.declared.sieve.Hindrance.TheVariants.{NoMemory};

    ghost from_gives = { λ _ hindrance. hindrance ≡ NoMemory };

    fn from(_cause: NoMemory) -> Hindrance {
        Hindrance::NoMemory
    }
}

/// Passes on the calls that are due of those that it takes, which have to go on with each other.
#[derive(Drop)]
pub(crate) struct Sieve<'p, S> {
    pub(crate) rule: Rule,
    pub(crate) layers: Layers<'p>,
    pub(crate) held: ValueBuf<'static>,
    pub(crate) text: KeyText,
    pub(crate) inner: S,
    pub(crate) alloc: Global,
}

/// A value and its copy.
pub(crate) fn twice<T: Copy>(value: T) -> (T, T)
    ensures { result ≡ (value, value) }
{
    (value, value)
}

/// Passes a call on, if it is to be.
fn pass_on<L: Lending, S: Stream<L>>(
    inner: &mut S,
    passes: bool,
    call: AnyCall<'_, L::Text, L::Bytes>,
) -> Result<(), Hindrance>
    ensures { let due = one_if passes (call_of L.text L.bytes call.entry) in
        PassesCalls S.law (S.standing inner.old) due result (S.standing inner.new) }
{
    if !passes {
        return Ok(());
    }
    match inner.take(call) {
        Ok(()) => Ok(()),
        Err(_) => Err(Hindrance::Inside),
    }
}

/// Passes the held key on, with its begin and this end, where its entry isn't left out.
fn pass_key<L: Lending, S: Stream<L>>(
    inner: &mut S,
    held: &ValueBuf<'static>,
    fate: &Fate<'_>,
    end: AnyCall<'_, L::Text, L::Bytes>,
) -> Result<(), Hindrance>
    ensures { let due =
        key_and_end (seen_fate fate.now) (capture_of held.now).forest (call_of L.text L.bytes end.entry) in
        PassesCalls S.law (S.standing inner.old) due result (S.standing inner.new) }
{
    if fate.is_left_out() {
        return Ok(());
    }
    match stream_key(inner, held, end) {
        Ok(()) => Ok(()),
        Err(_) => Err(Hindrance::Inside),
    }
}

/// Streams the held key, with its begin and this end.
#[tactic(auto, using(sval_core::proofs::ValueProofs::of_between))]
fn stream_key<L: Lending, S: Stream<L>>(
    inner: &mut S,
    held: &ValueBuf<'static>,
    end: AnyCall<'_, L::Text, L::Bytes>,
) -> sval_core::Result
    ensures { let key = as_computed (makes (replayed (capture_of held.now).forest)) in
        let emission = between (calls.PartBegin calls.Key) (call_of L.text L.bytes end.entry) key in
        Emits S.law result (S.standing inner.old) emission (S.standing inner.new) }
{
    inner.map_key_begin()?;
    inner.value_computed(held)?;
    inner.take(end)?;
    Ok(())
}

/// Holds a call of a key, or passes another one on in its place, if that is to be.
fn settle<L: Lending, S: Stream<L>>(
    sieve: &mut Sieve<'_, S>,
    holds: bool,
    passes: bool,
    call: AnyCall<'_, L::Text, L::Bytes>,
    relayed: AnyCall<'_, L::Text, L::Bytes>,
) -> Result<(), Hindrance>
    ensures { let held = call_of L.text L.bytes call.entry in
        let due = call_of L.text L.bytes relayed.entry in
        Settles S.law holds passes held due (sieve_view S.standing sieve.old) result (sieve_view S.standing sieve.new) }
{
    if !holds {
        return pass_on(&mut sieve.inner, passes, relayed);
    }
    match hold::<L>(&mut sieve.held, call) {
        Ok(()) => Ok(()),
        Err(cause) => Err(Hindrance::from(cause)),
    }
}

/// A call that begins and ends nothing.
fn single<L: Lending, S: Stream<L>>(
    sieve: &mut Sieve<'_, S>,
    call: AnyCall<'_, L::Text, L::Bytes>,
) -> Result<(), Hindrance>
    ensures { let old = sieve_view S.standing sieve.old in
        let taken = call_of L.text L.bytes call.entry in
        TakesCall S.law old taken (passed (mode_now old) (taken ∷ [])) old.kept.layers result
        (sieve_view S.standing sieve.new) }
{
    let mode = &sieve.layers.innermost().mode;
    let holds = mode.is_holding();
    let passes = mode.passes();
    let (call, relayed) = twice(call);
    settle(sieve, holds, passes, call, relayed)
}

/// A hint.
fn hint<L: Lending, S: Stream<L>>(
    sieve: &mut Sieve<'_, S>,
    call: AnyCall<'_, L::Text, L::Bytes>,
) -> Result<(), Hindrance>
    ensures { let old = sieve_view S.standing sieve.old in
        let taken = call_of L.text L.bytes call.entry in
        TakesCall S.law old taken (hint_due (mode_now old) (entry_in old.kept.layers) taken) old.kept.layers result
        (sieve_view S.standing sieve.new) }
{
    let layer = sieve.layers.innermost();
    let holds = layer.mode.is_holding();
    let passes = layer.passes_hint();
    let (call, relayed) = twice(call);
    settle(sieve, holds, passes, call, relayed)
}

/// Opens a layer in which calls are treated so, for a call in whose place another one is passed on.
fn open<'p, L: Lending, S: Stream<L>>(
    sieve: &mut Sieve<'p, S>,
    mode: Mode<'p>,
    call: AnyCall<'_, L::Text, L::Bytes>,
    relayed: AnyCall<'_, L::Text, L::Bytes>,
) -> Result<(), Hindrance>
    ensures { let held = call_of L.text L.bytes call.entry in
        let due = call_of L.text L.bytes relayed.entry in
        OpensLayer S.law (seen_mode mode.entry) held due (sieve_view S.standing sieve.old) result
        (sieve_view S.standing sieve.new) }
{
    let holds = sieve.layers.innermost().mode.is_holding();
    let passes = mode.passes();
    sieve.layers.push(mode)?;
    match settle(sieve, holds, passes, call, relayed) {
        Ok(()) => Ok(()),
        Err(why) => {
            sieve.layers.pop();
            Err(why)
        }
    }
}

/// The begin of a value, in whose place another one is passed on.
fn begin<L: Lending, S: Stream<L>>(
    sieve: &mut Sieve<'_, S>,
    call: AnyCall<'_, L::Text, L::Bytes>,
    relayed: AnyCall<'_, L::Text, L::Bytes>,
) -> Result<(), Hindrance>
    ensures { let old = sieve_view S.standing sieve.old in
        TakesBegin S.law old (call_of L.text L.bytes call.entry) (call_of L.text L.bytes relayed.entry)
        (mode_now old) result (sieve_view S.standing sieve.new) }
{
    match sieve.layers.innermost().mode.share() {
        Ok(mode) => open(sieve, mode, call, relayed),
        Err(cause) => Err(Hindrance::from(cause)),
    }
}

/// The begin of a value, which is passed on as it is.
fn begin_same<L: Lending, S: Stream<L>>(
    sieve: &mut Sieve<'_, S>,
    call: AnyCall<'_, L::Text, L::Bytes>,
) -> Result<(), Hindrance>
    ensures { let old = sieve_view S.standing sieve.old in
        let taken = call_of L.text L.bytes call.entry in
        TakesBegin S.law old taken taken (mode_now old) result (sieve_view S.standing sieve.new) }
{
    let (call, relayed) = twice(call);
    begin(sieve, call, relayed)
}

/// The begin of a part.
fn begin_part<L: Lending, S: Stream<L>>(
    sieve: &mut Sieve<'_, S>,
    slot: Slot<'_>,
    call: AnyCall<'_, L::Text, L::Bytes>,
) -> Result<(), Hindrance>
    ensures { let old = sieve_view S.standing sieve.old in
        let taken = call_of L.text L.bytes call.entry in
        let part = mode_of_part old.rule (mode_now old) (entry_in old.kept.layers) (seen_slot slot.entry) in
        TakesBegin S.law old taken taken part result (sieve_view S.standing sieve.new) }
{
    let (alloc, rule) = (sieve.alloc, sieve.rule);
    match sieve.layers.innermost().mode_of_part(alloc, rule, slot) {
        Ok(mode) => {
            let (call, relayed) = twice(call);
            open(sieve, mode, call, relayed)
        }
        Err(cause) => Err(Hindrance::from(cause)),
    }
}

/// The end of a value.
fn end<L: Lending, S: Stream<L>>(
    sieve: &mut Sieve<'_, S>,
    call: AnyCall<'_, L::Text, L::Bytes>,
) -> Result<(), Hindrance>
    ensures { let old = sieve_view S.standing sieve.old in
        let taken = call_of L.text L.bytes call.entry in
        TakesCall S.law old taken (passed (mode_now old) (taken ∷ [])) (below old.kept.layers) result
        (sieve_view S.standing sieve.new) }
{
    match single(sieve, call) {
        Ok(()) => {
            sieve.layers.pop();
            Ok(())
        }
        Err(why) => Err(why),
    }
}

/// The end of a part that is no key, or is in another key.
fn end_part<L: Lending, S: Stream<L>>(
    sieve: &mut Sieve<'_, S>,
    call: AnyCall<'_, L::Text, L::Bytes>,
) -> Result<(), Hindrance>
    ensures { let old = sieve_view S.standing sieve.old in
        let taken = call_of L.text L.bytes call.entry in
        TakesCall S.law old taken (passed (mode_now old) (taken ∷ [])) (with_entry path.Stays (below old.kept.layers))
        result (sieve_view S.standing sieve.new) }
{
    match single(sieve, call) {
        Ok(()) => {
            sieve.layers.close(Fate::Stays);
            Ok(())
        }
        Err(why) => Err(why),
    }
}

/// The end of a key that is in no other key.
fn end_key<L: Lending, S: Stream<L>>(
    sieve: &mut Sieve<'_, S>,
    call: AnyCall<'_, L::Text, L::Bytes>,
) -> Result<(), Hindrance>
    ensures { let old = sieve_view S.standing sieve.old in
        let taken = call_of L.text L.bytes call.entry in
        let fate = entry_by old.rule (mode_in old.paths (below old.kept.layers)) (held_label old.kept.held) in
        Moves S.law old (key_and_end fate old.kept.held taken)
        (record { layers = with_entry fate (below old.kept.layers); held = empty_forest })
        (is_some (held_label old.kept.held)) result (sieve_view S.standing sieve.new) }
{
    read_text(&sieve.held, &mut sieve.text)?;
    let (alloc, rule) = (sieve.alloc, sieve.rule);
    let fate = sieve.layers.around().entry(alloc, rule, sieve.text.text())?;
    match pass_key(&mut sieve.inner, &sieve.held, &fate, call) {
        Ok(()) => {
            sieve.layers.close(fate);
            sieve.held.clear();
            Ok(())
        }
        Err(why) => Err(why),
    }
}

/// The size that is passed on of a container's begin.
fn size_of(head: Head<'_>, size: Option<usize>) -> Option<usize>
    ensures { let head = seen_head head.entry in
        calls.Begin head result ≡ without_size (calls.Begin head size) }
{
    match head {
        Head::Seq => size,
        Head::Map => None,
        Head::Record(_) => None,
        Head::Tuple(_) => size,
        Head::RecordTuple(_) => None,
    }
}

/// Takes a call, and passes on the calls that are due at it.
pub(crate) fn step<L: Lending, S: Stream<L>>(
    sieve: &mut Sieve<'_, S>,
    call: AnyCall<'_, L::Text, L::Bytes>,
) -> Result<(), Hindrance>
    ensures { let old = sieve_view S.standing sieve.old in
        let taken = call_of L.text L.bytes call.entry in
        Moves S.law old (due_at old taken) (next_kept old taken) (may_take_memory old.paths old.kept taken)
        result (sieve_view S.standing sieve.new) }
{
    let (call, same) = twice(call);
    match same.grouped() {
        GroupedCall::Null
        | GroupedCall::Bool(_)
        | GroupedCall::Int(_)
        | GroupedCall::Tag(_)
        | GroupedCall::TextFragment(_)
        | GroupedCall::BinaryFragment(_) => single(sieve, call),
        GroupedCall::TagHint(_) => hint(sieve, call),
        GroupedCall::TextBegin(_)
        | GroupedCall::BinaryBegin(_)
        | GroupedCall::EnumBegin(_)
        | GroupedCall::TaggedBegin(_) => begin_same(sieve, call),
        GroupedCall::Begin(head, size) => {
            let relayed = GroupedCall::Begin(head, size_of(head, size)).call();
            begin(sieve, call, relayed)
        }
        GroupedCall::TextEnd
        | GroupedCall::BinaryEnd
        | GroupedCall::EnumEnd(_)
        | GroupedCall::TaggedEnd(_)
        | GroupedCall::End(_) => end(sieve, call),
        GroupedCall::PartBegin(slot) => begin_part(sieve, slot, call),
        GroupedCall::PartEnd(_) if sieve.layers.is_key() => end_key(sieve, call),
        GroupedCall::PartEnd(_) => end_part(sieve, call),
    }
}

impl<'p, S> Sieve<'p, S> {
    /// One that has taken no call, over this stream. It takes no memory yet.
    pub(crate) fn new(alloc: Global, rule: Rule, paths: &'p Paths, inner: S) -> Self
        ensures rule { result.rule ≡ rule }
        ensures layers { result.layers ≡ record { paths = paths.now; layers = [] } }
        ensures held { (capture_of result.held).forest ≡ empty_forest }
        ensures inner { result.inner ≡ inner }
    {
        Sieve {
            rule,
            layers: Layers::new(alloc, paths.as_slice()),
            held: ValueBuf::new(alloc),
            text: KeyText::new(alloc),
            inner,
            alloc,
        }
    }

    /// The inner stream.
    pub(crate) fn into_inner(self) -> S
        ensures { result ≡ self.entry.inner }
    {
        self.inner
    }
}
