//! What the parts of a captured value speak of.

ghost use Rattle.std.specs.Prelude.{◌≡◌, ◌≤◌, ◌<◌, ◌++◌, ◌∷◌, [], length, map, slice_range, IfOk, OnOk, OnErr};
ghost use Rattle.sval_label.specs.SeenName.{seen_name};
ghost use Rattle.sval_core.specs.Law.{Emits, computed};
ghost use Rattle.sval_core.specs.Values.{makes};
ghost use Rattle.sval_buffer.specs.Forest.{end_of};
ghost use Rattle.sval_buffer.specs.SeenNames.{named_call, call_at, HasName, Extends, KeepsNamedCall};
ghost use Rattle.sval_buffer.specs.SeenStores.{no_stores, Appends};

use crate::named::{CallStore, NamedKind};
use std::alloc::{AllocError, Global};
use std::marker::Model;
use sval_core::{Lending, Name, NoMemory, Result, Stream};

/// The calls with names, and the bytes of the texts and binaries that are copied.
#[derive(Drop)]
pub(crate) struct Stores<N: CallStore> {
    named: N,
    bytes: Vec<u8>,
}

impl<N: CallStore> Model for Stores<N> {
    ghost use Rattle.sval_buffer.specs.SeenStores.{SeenStores};

    ghost Value = { SeenStores };

    ghost view = { λ s. record { calls = N.calls s.named; bytes = s.bytes.items } };
}

impl<N: CallStore> Stores<N> {
    /// Stores of nothing, which take no memory yet.
    pub(crate) fn new(alloc: Global) -> Self
        ensures { result ≡ no_stores }
    {
        Stores {
            named: N::empty(alloc),
            bytes: Vec::new(alloc),
        }
    }

    /// Forgets all calls and bytes.
    pub(crate) fn clear(&mut self)
        ensures { self.new ≡ no_stores }
    {
        self.named.clear();
        self.bytes.clear();
    }

    /// Keeps a call, and gives its place. Want of memory changes nothing.
    pub(crate) fn push_call(
        &mut self,
        kind: NamedKind,
        name: Name<'_>,
    ) -> std::result::Result<usize, NoMemory>
        requires { HasName kind (seen_name name) }
        ensures kept { let call = named_call kind (seen_name name.entry) in
            IfOk result (λ at. KeepsNamedCall self.new.calls at call) }
        ensures extends { OnOk result (Extends self.old.calls self.new.calls) }
        ensures bytes { self.new.bytes ≡ self.old.bytes }
        ensures err { OnErr result (self.new ≡ self.old) }
    {
        self.named.push(kind, name)
    }

    /// Makes the call at a place.
    #[inline(always)]
    pub(crate) fn stream_call<L: Lending, S: Stream<L>>(&self, at: usize, stream: &mut S) -> Result
        requires { at < length self.now.calls }
        ensures { let made = call_at self.now.calls at ∷ [] in
            Emits S.law result (S.standing stream.old) (makes made) (S.standing stream.new) }
    {
        self.named.stream_call(at, stream)
    }

    /// Makes the end of what the call at a place begins.
    #[inline(always)]
    pub(crate) fn stream_end<L: Lending, S: Stream<L>>(&self, at: usize, stream: &mut S) -> Result
        requires { at < length self.now.calls }
        ensures { let made = end_of (call_at self.now.calls at) ∷ [] in
            Emits S.law result (S.standing stream.old) (makes made) (S.standing stream.new) }
    {
        self.named.stream_end(at, stream)
    }

    /// How many bytes there are.
    pub(crate) fn len(&self) -> usize
        ensures { result ≡ length self.now.bytes }
    {
        self.bytes.len()
    }

    /// The bytes between two places.
    pub(crate) fn range(&self, start: usize, end: usize) -> &[u8]
        requires order { start ≤ end }
        requires within { end ≤ length self.now.bytes }
        ensures { result.now ≡ slice_range self.now.bytes start end }
    {
        &self.bytes[start..end]
    }

    /// Puts bytes behind the others. Want of memory changes nothing.
    pub(crate) fn append(&mut self, bytes: &[u8]) -> std::result::Result<(), AllocError>
        ensures { Appends self.old bytes.now result self.new }
    {
        self.bytes.extend_from_slice(bytes)
    }

    /// Puts the bytes between two places behind the others once more. Want of memory changes nothing.
    pub(crate) fn repeat(&mut self, start: usize, end: usize) -> std::result::Result<(), AllocError>
        requires order { start ≤ end }
        requires within { end ≤ length self.old.bytes }
        ensures { Appends self.old (slice_range self.old.bytes start end) result self.new }
    {
        self.bytes.extend_from_within(start..end)
    }

    /// A copy of both.
    pub(crate) fn try_clone(&self, alloc: Global) -> std::result::Result<Self, AllocError>
        ensures { IfOk result (λ copy. copy ≡ self.now) }
    {
        Ok(Stores {
            named: self.named.try_clone(alloc)?,
            bytes: Vec::from_slice(alloc, &self.bytes)?,
        })
    }

    /// Shows that no call is a fragment, so that none borrows. It does nothing when it runs.
    pub(crate) fn show_names_alone(&self)
        ensures { map computed self.now.calls ≡ self.now.calls }
    {
        self.named.show_names_alone();
    }
}
