//! Captured values.

ghost use Rattle.std.specs.Prelude.{◌≡◌, ◌≤◌, false, Some, map, IsOk, IfOk, IfErr};
ghost use Rattle.sval_label.specs.Made.{lent_call};
ghost use Rattle.sval_core.specs.Trees.{Tree};
ghost use Rattle.sval_core.specs.Spells.{Spells};
ghost use Rattle.sval_core.specs.Law.{Answers, Emits, computed};
ghost use Rattle.sval_buffer.specs.Forest as forest;
ghost use Rattle.sval_buffer.specs.Forest.{HoldsNoPart};
ghost use Rattle.sval_buffer.specs.Capture.{Capture, IsNoAlloc, no_calls, wants_after_error, capture_law};
ghost use Rattle.sval_buffer.specs.Owned.{owned, owning_law};
ghost use Rattle.sval_buffer.specs.FlatForest.{forest_in};
ghost use Rattle.sval_core.specs.Values.{makes};
ghost use Rattle.sval_buffer.specs.SeenBuffers.{capture_of, buffer_standing};
ghost use Rattle.sval_buffer.specs.CapturedValues.{IsCaptured, IsCapturedOwned, IsOwnedCause, KeepsTree, IsCollectCause, IsOkOrNoAlloc, cause_by};

use crate::any_value::AnyValue;
use crate::error::{Error, ErrorKind, Word};
use crate::named::{CallStore, NamedCalls};
use crate::parts::Parts;
use crate::refused::{Refused, no_memory};
use std::alloc::Global;
use std::fmt;
use sval_core::{Call, Lent, Stream, Value};
use sval_ref::ValueRef;

/// A captured value: the calls that were taken, from which they can be made again.
///
/// As a stream it takes the calls of any value. A text or a binary of one fragment that is lent for `'sval` is kept by
/// reference, and so are the texts of static labels. All other texts and binaries are copied into one store, and the
/// texts of all other labels into another. Calls with names are kept in a list, with a table of those that were kept
/// lately. So a call takes memory only where the parts, this list, its table or these stores grow. An end ends the
/// newest container that has none, whichever it is, and its name isn't looked at. The end of a text or a binary is taken
/// anywhere. A hint within a text or a binary is taken and not kept. What holds no call is made again as `null`.
///
/// - [`ErrorKind::OutsideContainer`] answers a fragment of a text where the last part isn't a text, and one of a binary
///   where it isn't a binary.
/// - [`ErrorKind::InvalidValue`] with [`Word::Unbalanced`] answers an end where no container is without its end.
/// - [`ErrorKind::NoAlloc`] answers a call for which there was no memory. An end takes none, and neither does a
///   borrowed fragment onto an empty text or binary. It also answers the begin of a container behind 2^32 - 1 parts or
///   more.
///
/// After any refusal the buffer holds what it held before.
///
/// ```
/// let mut buffer = ValueBuf::new(alloc);
/// buffer.seq_begin(Some(1))?;
/// buffer.seq_value_begin()?;
/// buffer.null()?;
/// buffer.seq_value_end()?;
/// buffer.seq_end()?;
/// assert!(rt; buffer.is_complete());
/// stream.value(&buffer)?;
/// ```
pub type ValueBuf<'sval> = AnyValueBuf<'sval, NamedCalls>;

/// A captured value, for any store `N` of the calls with names. Most code says [`ValueBuf`].
#[derive(Drop)]
pub struct AnyValueBuf<'sval, N: CallStore> {
    parts: Parts<'sval, N>,
    /// Why the last refused call was refused.
    refusal: Option<ErrorKind>,
    /// How often memory was wanting.
    wants: u64,
    alloc: Global,
}

impl<'sval, N: CallStore> AnyValueBuf<'sval, N> {
    /// A buffer that has taken no call, and takes no memory yet.
    pub fn new(alloc: Global) -> Self
        ensures { capture_of result ≡ no_calls 0 }
    {
        AnyValueBuf {
            parts: Parts::new(alloc),
            refusal: None,
            wants: 0,
            alloc,
        }
    }

    /// A buffer that has taken no call, with room for `parts` parts where there is memory for them.
    ///
    /// A value has a part for each call but fragments, ends, and hints within a text or a binary. `parts` changes no
    /// answer: where it is too small, or there is no memory for that room, the buffer grows as the parts come.
    pub fn with_capacity(alloc: Global, parts: usize) -> Self
        ensures { capture_of result ≡ no_calls 0 }
    {
        let mut buffer = AnyValueBuf::new(alloc);
        buffer.parts.reserve(parts);
        buffer
    }

    /// Captures a value. Of one that doesn't refuse and whose calls spell a tree it fails only where memory was
    /// wanting, and what it holds makes calls that spell the same tree. It doesn't test that the calls are one whole
    /// value; `collect_whole` of `sval_whole` does so first.
    ///
    /// - [`ErrorKind::OutsideContainer`] and [`ErrorKind::InvalidValue`] with [`Word::Unbalanced`] come where one of
    ///   its calls is refused so.
    /// - [`ErrorKind::InvalidValue`] with [`Word::FailedToStream`] comes where none is, and the value itself refuses.
    /// - [`ErrorKind::NoAlloc`] comes where memory was wanting in one of its calls: the calls before it are taken, and
    ///   so is this one, which may take memory.
    ///
    /// ```
    /// let buffer = ValueBuf::collect(alloc, &value)?;
    /// stream.value(&buffer)?;
    /// ```
    pub fn collect<V: Value<'sval, Lent<'sval>>>(alloc: Global, v: &'sval V) -> Result<Self, Error>
    where
        N: 'sval,
        ensures ok { IfOk result (λ buffer. IsCaptured (V.emission v.now) (capture_of buffer)) }
        ensures err { IfErr result (λ why. IsCollectCause (V.emission v.now) why) }
        ensures keeps_the_tree { IfOk result (λ buffer. KeepsTree (V.emission v.now) (capture_of buffer).forest) }
        ensures complete { let e = V.emission v.now in
            (tree : Tree) → e.refuses ≡ false → Spells e.calls tree → IsOkOrNoAlloc result }
    {
        AnyValueBuf::collect_with_capacity(alloc, 0, v)
    }

    /// Captures a value as [`ValueBuf::collect`] does, with room for `parts` parts from the start.
    ///
    /// A value has a part for each call but fragments, ends, and hints within a text or a binary. `parts` changes no
    /// answer: where it is too small, or there is no memory for that room, the buffer grows as the parts come.
    pub fn collect_with_capacity<V: Value<'sval, Lent<'sval>>>(
        alloc: Global,
        parts: usize,
        v: &'sval V,
    ) -> Result<Self, Error>
    where
        N: 'sval,
        ensures ok { IfOk result (λ buffer. IsCaptured (V.emission v.now) (capture_of buffer)) }
        ensures err { IfErr result (λ why. IsCollectCause (V.emission v.now) why) }
        ensures keeps_the_tree { IfOk result (λ buffer. KeepsTree (V.emission v.now) (capture_of buffer).forest) }
        ensures complete { let e = V.emission v.now in
            (tree : Tree) → e.refuses ≡ false → Spells e.calls tree → IsOkOrNoAlloc result }
    {
        let mut buffer: AnyValueBuf<'sval, N> = AnyValueBuf::with_capacity(alloc, parts);
        match v.stream(&mut buffer) {
            Ok(()) => Ok(buffer),
            Err(_) => Err(buffer.cause()),
        }
    }

    /// A value that makes the calls of this buffer: a copy of its parts.
    ///
    /// [`ErrorKind::NoAlloc`] comes where memory was wanting, and never where the buffer holds no part.
    pub fn to_value(&self) -> Result<AnyValue<'sval, N>, Error>
        ensures ok { IfOk result (λ value. forest_in value ≡ (capture_of self.now).forest) }
        ensures err { IfErr result IsNoAlloc }
        ensures no_part_needs_none { HoldsNoPart (capture_of self.now).forest → IsOk result }
    {
        match self.parts.try_clone() {
            Ok(parts) => Ok(AnyValue::new(parts)),
            Err(cause) => Err(no_memory(cause)),
        }
    }

    /// A value that makes the calls of this buffer, of its parts. It takes no memory.
    pub fn into_value(self) -> AnyValue<'sval, N>
        ensures { forest_in result ≡ (capture_of self.entry).forest }
    {
        AnyValue::new(self.parts)
    }

    /// This buffer for every lifetime, with a copy of each text and binary. It borrows none, not even an empty one. So
    /// its replay makes the same calls, each with a computed fragment in place of a borrowed one.
    ///
    /// Containers without an end stay so, and so does the last refusal. [`ErrorKind::NoAlloc`] comes where memory was
    /// wanting, and then the buffer is handed back as it was. It never comes where the buffer holds no part.
    ///
    /// ```
    /// let owned = ValueBuf::collect(alloc, &value)?.into_owned()?;
    /// stream.value(&owned)?;
    /// ```
    #[tactic(auto, using(crate::proofs::OwnedForest::replay_computed))]
    pub fn into_owned<'o>(self) -> Result<AnyValueBuf<'o, N>, Refused<Self>>
        ensures ok { let was = capture_of self.entry in
            IfOk result (λ buffer. capture_of buffer ≡ record was { forest = owned was.forest }) }
        ensures replay { let calls = forest.replayed (capture_of self.entry).forest in
            IfOk result (λ buffer. forest.replayed (capture_of buffer).forest ≡ map computed calls) }
        ensures no_alloc { IfErr result (λ refused. IsNoAlloc refused.error) }
        ensures handed_back { IfErr result (λ refused. capture_of refused.value ≡ capture_of self.entry) }
        ensures no_part_needs_none { HoldsNoPart (capture_of self.entry).forest → IsOk result }
    {
        match self.parts.into_owned() {
            Ok(parts) => Ok(AnyValueBuf {
                parts,
                refusal: self.refusal,
                wants: self.wants,
                alloc: self.alloc,
            }),
            Err(refused) => Err(Refused {
                value: AnyValueBuf {
                    parts: refused.value,
                    refusal: self.refusal,
                    wants: self.wants,
                    alloc: self.alloc,
                },
                error: refused.error,
            }),
        }
    }

    /// Captures a value by copies of its texts and binaries, so that the buffer borrows nothing and is for every
    /// lifetime.
    ///
    /// It holds what [`collect`](AnyValueBuf::collect) and then [`into_owned`](AnyValueBuf::into_owned) hold, but
    /// copies each fragment once, as it comes. It answers the errors of `collect`; each fragment may take memory.
    ///
    /// ```
    /// let event: ValueBuf<'_> = ValueBuf::collect_owned(alloc, &value)?;
    /// stream.value(&event)?;
    /// ```
    pub fn collect_owned<'o, V: Value<'sval, Lent<'sval>>>(
        alloc: Global,
        v: &'sval V,
    ) -> Result<AnyValueBuf<'o, N>, Error>
        ensures ok { IfOk result (λ buffer. IsCapturedOwned (V.emission v.now) (capture_of buffer)) }
        ensures err { IfErr result (λ why. IsOwnedCause (V.emission v.now) why) }
        ensures keeps_the_tree { IfOk result (λ buffer. KeepsTree (V.emission v.now) (capture_of buffer).forest) }
        ensures complete { let e = V.emission v.now in
            (tree : Tree) → e.refuses ≡ false → Spells e.calls tree → IsOkOrNoAlloc result }
    {
        let mut owning: Owning<'o, N> = Owning::new(alloc);
        match owning.take_all(v) {
            Ok(()) => Ok(owning.buffer),
            Err(_) => Err(owning.buffer.cause()),
        }
    }

    /// There is a part, each container has its end, and no text or binary has begun without one of either ending since.
    pub fn is_complete(&self) -> bool
        ensures { result ≡ forest.is_complete (capture_of self.now).forest }
    {
        self.parts.is_complete()
    }

    /// Forgets all calls, and the last refusal.
    pub fn clear(&mut self)
        ensures { capture_of self.new ≡ no_calls (capture_of self.old).wants }
    {
        self.parts.clear();
        self.refusal = None;
    }

    /// Why the last refused call was refused, if one was since the buffer was new or cleared.
    pub fn into_err(self) -> Option<Error>
        ensures { result ≡ (capture_of self.entry).refusal }
    {
        self.refusal.map(Error::new)
    }

    /// Why a value wasn't captured: a refused call, or else the value itself.
    fn cause(self) -> Error
        ensures { result ≡ cause_by (capture_of self.entry).refusal }
    {
        match self.refusal {
            Some(kind) => Error::new(kind),
            None => Error::new(ErrorKind::InvalidValue {
                reason: Word::FailedToStream,
            }),
        }
    }

    /// Keeps why a call was refused.
    fn keep(&mut self, why: ErrorKind)
        ensures kept { let was = capture_of self.old in
            capture_of self.new ≡ record was { refusal = Some why; wants = wants_after_error why was.wants } }
        ensures rises { self.old.wants ≤ self.new.wants }
    {
        if let ErrorKind::NoAlloc { .. } = why {
            self.wants = self.wants.saturating_add(1);
        }
        self.refusal = Some(why);
    }
}

impl<'sval, N: CallStore> Stream<Lent<'sval>> for AnyValueBuf<'sval, N> {
    ghost View = { Capture };

    ghost law = { capture_law };

    ghost standing = { buffer_standing };

    #[inline(always)]
    fn take(&mut self, call: Call<'sval, '_>) -> sval_core::Result
        ensures { let taken = lent_call call.entry in
            Answers capture_law result (buffer_standing self.old) taken (buffer_standing self.new) }
    {
        match self.parts.capture(call) {
            Ok(()) => Ok(()),
            Err(why) => {
                self.keep(why);
                Err(sval_core::Error::new())
            }
        }
    }
}

/// A buffer that keeps each fragment by a copy, so that it takes what is lent for any lifetime.
#[derive(Drop)]
struct Owning<'o, N: CallStore> {
    buffer: AnyValueBuf<'o, N>,
}

impl<'o, N: CallStore> Owning<'o, N> {
    /// A stream that has taken no call.
    fn new(alloc: Global) -> Self
        ensures { capture_of result.buffer ≡ no_calls 0 }
    {
        Owning {
            buffer: AnyValueBuf::new(alloc),
        }
    }

    /// Takes the calls of a value.
    fn take_all<'v, V: Value<'v, Lent<'v>>>(&mut self, v: &'v V) -> sval_core::Result
        ensures { let e = V.emission v.now in
            Emits owning_law result (buffer_standing self.old.buffer) e (buffer_standing self.new.buffer) }
    {
        v.stream(self)
    }
}

impl<'b, 'o, N: CallStore> Stream<Lent<'b>> for Owning<'o, N> {
    ghost View = { Capture };

    ghost law = { owning_law };

    ghost standing = { λ owning. buffer_standing owning.buffer };

    fn take(&mut self, call: Call<'b, '_>) -> sval_core::Result
        ensures { let taken = lent_call call.entry in
            Answers owning_law result (buffer_standing self.old.buffer) taken (buffer_standing self.new.buffer) }
    {
        match self.buffer.parts.capture_owned(call) {
            Ok(()) => Ok(()),
            Err(why) => {
                self.buffer.keep(why);
                Err(sval_core::Error::new())
            }
        }
    }
}

impl<'v, 'sval, N: CallStore> Value<'v, Lent<'v>> for AnyValueBuf<'sval, N> {
    ghost emission = { λ buffer. makes (forest.replayed (capture_of buffer).forest) };

    fn stream<S: Stream<Lent<'v>>>(&'v self, stream: &mut S) -> sval_core::Result {
        let shorter: &'v AnyValueBuf<'v, N> = self;
        shorter.parts.replay(stream)
    }
}

impl<'sval, N: CallStore> ValueRef<Lent<'sval>> for AnyValueBuf<'sval, N> {
    ghost ref_emission = { λ buffer. makes (forest.replayed (capture_of buffer).forest) };

    fn stream_ref<S: Stream<Lent<'sval>>>(&self, stream: &mut S) -> sval_core::Result {
        self.parts.replay(stream)
    }
}

/// Lists the calls that it makes.
impl<'sval, N: CallStore> fmt::Debug for AnyValueBuf<'sval, N> {
    fn fmt<W: fmt::Write>(&self, f: &mut fmt::Formatter<W>) -> fmt::Result {
        fmt::Debug::fmt(&self.parts, f)
    }
}
