//! Captured values that take no more calls.

ghost use Rattle.std.specs.Prelude.{◌≡◌, false, map, IsOk, IfOk, IfErr};
ghost use Rattle.sval_core.specs.Trees.{Tree};
ghost use Rattle.sval_core.specs.Spells.{Spells};
ghost use Rattle.sval_core.specs.Law.{computed};
ghost use Rattle.sval_core.specs.Values.{makes};
ghost use Rattle.sval_buffer.specs.Forest.{HoldsNoPart, replayed};
ghost use Rattle.sval_buffer.specs.FlatForest.{forest_in};
ghost use Rattle.sval_buffer.specs.Capture.{IsNoAlloc};
ghost use Rattle.sval_buffer.specs.Owned.{owned};
ghost use Rattle.sval_buffer.specs.CapturedValues.{IsCapturedForest, IsTakenOwned, IsOwnedCause, KeepsTree, IsCollectCause, IsOkOrNoAlloc};

use crate::error::Error;
use crate::named::{CallStore, NamedCalls};
use crate::parts::Parts;
use crate::refused::{Refused, no_memory};
use crate::value_buf::AnyValueBuf;
use std::alloc::Global;
use std::fmt;
use std::marker::Model;
use sval_core::{Lent, Stream};
use sval_ref::ValueRef;

/// A captured value that takes no more calls, and makes those that it holds.
///
/// A [`ValueBuf`](crate::ValueBuf) makes one of its parts, or of a copy of them.
///
/// ```
/// let value = Value::collect(alloc, &point)?;
/// stream.value(&value)?;
/// ```
pub type Value<'sval> = AnyValue<'sval, NamedCalls>;

/// A captured value, for any store `N` of the calls with names. Most code says [`Value`].
#[derive(Drop)]
pub struct AnyValue<'sval, N: CallStore> {
    parts: Parts<'sval, N>,
}

impl<'sval, N: CallStore> Model for AnyValue<'sval, N> {
    ghost use Rattle.sval_buffer.specs.FlatForest.{FlatForest};

    ghost Value = { FlatForest };

    ghost view = { λ value. value.parts };
}

impl<'sval, N: CallStore> AnyValue<'sval, N> {
    /// A value of these parts.
    pub(crate) fn new(parts: Parts<'sval, N>) -> Self
        ensures { result ≡ parts.entry }
    {
        AnyValue { parts }
    }

    /// Captures a value. It answers as [`ValueBuf::collect`](crate::ValueBuf::collect) does.
    pub fn collect<V: sval_core::Value<'sval, Lent<'sval>>>(
        alloc: Global,
        v: &'sval V,
    ) -> Result<Self, Error>
    where
        N: 'sval,
        ensures ok { IfOk result (λ value. IsCapturedForest (V.emission v.now) (forest_in value)) }
        ensures err { IfErr result (λ why. IsCollectCause (V.emission v.now) why) }
        ensures keeps_the_tree { IfOk result (λ value. KeepsTree (V.emission v.now) (forest_in value)) }
        ensures complete { let e = V.emission v.now in
            (tree : Tree) → e.refuses ≡ false → Spells e.calls tree → IsOkOrNoAlloc result }
    {
        let collected: Result<AnyValueBuf<'sval, N>, Error> = AnyValueBuf::collect(alloc, v);
        match collected {
            Ok(buffer) => Ok(buffer.into_value()),
            Err(error) => Err(error),
        }
    }

    /// Captures a value by copies of its texts and binaries. It answers as
    /// [`ValueBuf::collect_owned`](crate::ValueBuf::collect_owned) does.
    pub fn collect_owned<'o, V: sval_core::Value<'sval, Lent<'sval>>>(
        alloc: Global,
        v: &'sval V,
    ) -> Result<AnyValue<'o, N>, Error>
        ensures ok { IfOk result (λ value. IsTakenOwned (V.emission v.now) (forest_in value)) }
        ensures err { IfErr result (λ why. IsOwnedCause (V.emission v.now) why) }
        ensures keeps_the_tree { IfOk result (λ value. KeepsTree (V.emission v.now) (forest_in value)) }
        ensures complete { let e = V.emission v.now in
            (tree : Tree) → e.refuses ≡ false → Spells e.calls tree → IsOkOrNoAlloc result }
    {
        let collected: Result<AnyValueBuf<'o, N>, Error> = AnyValueBuf::collect_owned(alloc, v);
        match collected {
            Ok(buffer) => Ok(buffer.into_value()),
            Err(error) => Err(error),
        }
    }

    /// A copy, which makes the same calls.
    ///
    /// [`ErrorKind::NoAlloc`](crate::ErrorKind::NoAlloc) comes where memory was wanting, and never where the value
    /// holds no part.
    pub fn try_clone(&self) -> Result<Self, Error>
        ensures ok { IfOk result (λ copy. copy ≡ self.now) }
        ensures err { IfErr result IsNoAlloc }
        ensures no_part_needs_none { HoldsNoPart (forest_in self.now) → IsOk result }
    {
        match self.parts.try_clone() {
            Ok(parts) => Ok(AnyValue::new(parts)),
            Err(cause) => Err(no_memory(cause)),
        }
    }

    /// This value for every lifetime, with a copy of each text and binary. It borrows none, not even an empty one. So
    /// it makes the same calls, each with a computed fragment in place of a borrowed one.
    ///
    /// [`ErrorKind::NoAlloc`](crate::ErrorKind::NoAlloc) comes where memory was wanting, and then the value is handed
    /// back as it was. It never comes where the value holds no part.
    #[tactic(auto, using(crate::proofs::OwnedForest::replay_computed))]
    pub fn into_owned<'o>(self) -> Result<AnyValue<'o, N>, Refused<Self>>
        ensures ok { IfOk result (λ value. forest_in value ≡ owned (forest_in self.entry)) }
        ensures replay { let calls = replayed (forest_in self.entry) in
            IfOk result (λ value. replayed (forest_in value) ≡ map computed calls) }
        ensures no_alloc { IfErr result (λ refused. IsNoAlloc refused.error) }
        ensures handed_back { IfErr result (λ refused. refused.value ≡ self.entry) }
        ensures no_part_needs_none { HoldsNoPart (forest_in self.entry) → IsOk result }
    {
        match self.parts.into_owned() {
            Ok(parts) => Ok(AnyValue::new(parts)),
            Err(refused) => Err(Refused {
                value: AnyValue::new(refused.value),
                error: refused.error,
            }),
        }
    }
}

impl<'v, 'sval, N: CallStore> sval_core::Value<'v, Lent<'v>> for AnyValue<'sval, N> {
    ghost emission = { λ value. makes (replayed (forest_in value)) };

    fn stream<S: Stream<Lent<'v>>>(&'v self, stream: &mut S) -> sval_core::Result {
        let shorter: &'v AnyValue<'v, N> = self;
        shorter.parts.replay(stream)
    }
}

impl<'sval, N: CallStore> ValueRef<Lent<'sval>> for AnyValue<'sval, N> {
    ghost ref_emission = { λ value. makes (replayed (forest_in value)) };

    fn stream_ref<S: Stream<Lent<'sval>>>(&self, stream: &mut S) -> sval_core::Result {
        self.parts.replay(stream)
    }
}

/// Lists the calls that it makes.
impl<'sval, N: CallStore> fmt::Debug for AnyValue<'sval, N> {
    fn fmt<W: fmt::Write>(&self, f: &mut fmt::Formatter<W>) -> fmt::Result {
        fmt::Debug::fmt(&self.parts, f)
    }
}
