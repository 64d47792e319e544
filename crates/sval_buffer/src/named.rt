//! The calls with names of a captured value.

ghost use Rattle.std.specs.Prelude.{◌≡◌, ◌<◌, ℕ, Some, List, [], ◌∷◌, ◌++◌, length, map, IfOk, IfSome, OnOk, OnErr, string_bytes};
ghost use Rattle.std.specs.Bool.{OnTrue};
ghost use Rattle.sval_label.specs.Grouped.{grouped_call, seen_head, seen_slot};
ghost use Rattle.sval_label.specs.Calls.{Call};
ghost use Rattle.sval_label.specs.SeenTags.{seen_ref_tag};
ghost use Rattle.sval_label.specs.SeenName.{seen_name};
ghost use Rattle.sval_core.specs.Law.{Emits, computed};
ghost use Rattle.sval_core.specs.Values.{makes};
ghost use Rattle.sval_buffer.specs.Forest.{end_of};
ghost use Rattle.sval_buffer.specs.SeenNames.{hinted, named_head, named_slot, named_call, call_at, HasParts, HasName, Extends, KeepsNamedCall};

use crate::kept::{NamedCall, keep, shown_label};
use crate::recent::{Recent, slot_of};
use std::alloc::{AllocError, Global};
use std::marker::Model;
use sval_core::{GroupedCall, Head, Lending, Name, NoMemory, Result, Slot, Stream, Tag};

/// A container with a size and a name, or that may have one.
#[derive(Clone, Copy, PartialEq, Eq)]
pub enum NamedHead {
    Record,
    Tuple,
    RecordTuple,
}

impl NamedHead {
    /// The head with a name.
    fn head(self, name: Name<'_>) -> Head<'_>
        ensures { seen_head result ≡ named_head self (seen_name name.entry) }
    {
        match self {
            NamedHead::Record => Head::Record(name),
            NamedHead::Tuple => Head::Tuple(name),
            NamedHead::RecordTuple => Head::RecordTuple(name),
        }
    }
}

/// A part of a container whose place has a name: a label, an index or both.
#[derive(Clone, Copy, PartialEq, Eq)]
pub enum NamedSlot {
    Field,
    Place,
    FieldPlace,
}

impl NamedSlot {
    /// The place with a name.
    fn slot(self, name: Name<'_>) -> Slot<'_>
        requires { HasParts self (seen_name name) }
        ensures { seen_slot result ≡ named_slot self (seen_name name.entry) }
    {
        match (self, name.label, name.index) {
            (NamedSlot::Field, Some(label), _) => Slot::Field(name.tag, label),
            (NamedSlot::Place, _, Some(index)) => Slot::Place(name.tag, index),
            (NamedSlot::FieldPlace, Some(label), Some(index)) => Slot::FieldPlace(
                name.tag, label, index,
            ),
            _ => unreachable!(),
        }
    }
}

/// What a call with a name is: a tag, a hint, or the begin of a container.
#[derive(Clone, Copy, PartialEq, Eq)]
pub enum NamedKind {
    Tag,
    Hint,
    Enum,
    Tagged,
    Sized(NamedHead, Option<usize>),
    Part(NamedSlot),
}

impl NamedKind {
    /// The call of this kind with a name.
    fn call<'c, T, B>(self, name: Name<'c>) -> GroupedCall<'c, T, B>
        requires { HasName self (seen_name name) }
        ensures { (text : T → List ℕ) (bytes : B → List ℕ)
            → grouped_call text bytes result ≡ named_call self (seen_name name.entry) }
    {
        match self {
            NamedKind::Tag => GroupedCall::Tag(name),
            NamedKind::Hint => GroupedCall::TagHint(hint(name)),
            NamedKind::Enum => GroupedCall::EnumBegin(name),
            NamedKind::Tagged => GroupedCall::TaggedBegin(name),
            NamedKind::Sized(head, size) => GroupedCall::Begin(head.head(name), size),
            NamedKind::Part(slot) => GroupedCall::PartBegin(slot.slot(name)),
        }
    }

    /// The end of what begins so, with the same name.
    fn end<'c, T, B>(self, name: Name<'c>) -> GroupedCall<'c, T, B>
        requires { HasName self (seen_name name) }
        ensures { (text : T → List ℕ) (bytes : B → List ℕ)
            → grouped_call text bytes result ≡ end_of (named_call self (seen_name name.entry)) }
    {
        match self {
            NamedKind::Tag => GroupedCall::Tag(name),
            NamedKind::Hint => GroupedCall::TagHint(hint(name)),
            NamedKind::Enum => GroupedCall::EnumEnd(name),
            NamedKind::Tagged => GroupedCall::TaggedEnd(name),
            NamedKind::Sized(head, _) => GroupedCall::End(head.head(name)),
            NamedKind::Part(slot) => GroupedCall::PartEnd(slot.slot(name)),
        }
    }
}

/// The tag of a name that is a hint.
fn hint(name: Name<'_>) -> &Tag
    requires { HasName hinted (seen_name name) }
    ensures { Some (seen_ref_tag result) ≡ (seen_name name.entry).tag }
{
    match name.tag {
        Some(tag) => tag,
        None => unreachable!(),
    }
}

/// Calls with names. The texts of all labels that aren't static are in one store.
///
/// A call that was kept lately isn't kept again. Values repeat their names, as the records of a list do, so it is
/// mostly one place that many parts speak of.
#[derive(Drop)]
pub struct NamedCalls {
    calls: Vec<NamedCall>,
    texts: String,
    /// Where calls were kept lately.
    recent: Recent,
}

impl Model for NamedCalls {
    ghost use Rattle.std.specs.Prelude.{List, map, string_bytes};
    ghost use Rattle.sval_label.specs.Calls.{Call};

    ghost Value = { List Call };

    ghost use Rattle.sval_buffer.specs.SeenNames.{kept_call, AllStand};

    ghost view = { λ n. map (kept_call (string_bytes n.texts)) n.calls.items };

    ghost invariant = { λ n. AllStand (string_bytes n.texts) n.calls.items };
}

/// What keeps the calls with names of a captured value.
///
/// It stands for a list of calls. A [`ValueBuf`](crate::ValueBuf) has [`NamedCalls`] for it, by a parameter, since a
/// function that names a lifetime in a bound beside a text of the program gets no proof. Nobody else can implement it,
/// since what it takes can't be named outside of this crate.
pub trait CallStore: Sized + Drop {
    /// The calls, in order.
    ghost calls: { Self → List Call };

    /// No calls, which take no memory yet.
    fn empty(alloc: Global) -> Self
        ensures { calls result ≡ [] };

    /// Forgets all calls.
    fn clear(&mut self)
        ensures { calls self.new ≡ [] };

    /// Keeps a call, and gives its place, which may be that of the same call before. Want of memory changes nothing.
    fn push(&mut self, kind: NamedKind, name: Name<'_>) -> std::result::Result<usize, NoMemory>
        requires { HasName kind (seen_name name) }
        ensures kept { let call = named_call kind (seen_name name.entry) in
            IfOk result (λ at. KeepsNamedCall (calls self.new) at call) }
        ensures extends { OnOk result (Extends (calls self.old) (calls self.new)) }
        ensures err { OnErr result (calls self.new ≡ calls self.old) };

    /// Makes the call at a place.
    fn stream_call<L: Lending, S: Stream<L>>(&self, at: usize, stream: &mut S) -> Result
        requires { at < length (calls self.now) }
        ensures { let made = call_at (calls self.now) at ∷ [] in
            Emits S.law result (S.standing stream.old) (makes made) (S.standing stream.new) };

    /// Makes the end of what the call at a place begins.
    fn stream_end<L: Lending, S: Stream<L>>(&self, at: usize, stream: &mut S) -> Result
        requires { at < length (calls self.now) }
        ensures { let made = end_of (call_at (calls self.now) at) ∷ [] in
            Emits S.law result (S.standing stream.old) (makes made) (S.standing stream.new) };

    /// A copy of the calls.
    fn try_clone(&self, alloc: Global) -> std::result::Result<Self, AllocError>
        ensures { IfOk result (λ copy. calls copy ≡ calls self.now) };

    /// Shows that no call is a fragment, so that none borrows. It does nothing when it runs.
    fn show_names_alone(&self)
        ensures { map computed (calls self.now) ≡ calls self.now };
}

impl CallStore for NamedCalls {
    ghost calls = { λ n. n };

    fn empty(alloc: Global) -> NamedCalls {
        NamedCalls {
            calls: Vec::new(alloc),
            texts: String::new(alloc),
            recent: Recent::new(alloc),
        }
    }

    fn clear(&mut self) {
        // What is remembered of places may stay, since whoever asks for one compares.
        self.calls.clear();
        self.texts.clear();
    }

    fn push(&mut self, kind: NamedKind, name: Name<'_>) -> std::result::Result<usize, NoMemory> {
        let slot = slot_of(&name);
        let place = match self.find(slot, kind, &name) {
            Some(place) => place,
            None => self.add(kind, name)?,
        };
        self.recent.put(slot, place);
        Ok(place)
    }

    #[inline(always)]
    fn stream_call<L: Lending, S: Stream<L>>(&self, at: usize, stream: &mut S) -> Result {
        let call = &self.calls[at];
        let label = shown_label(self.texts.as_str(), &call.label);
        make(call.kind.call(call.name(label.as_ref())), stream)
    }

    fn stream_end<L: Lending, S: Stream<L>>(&self, at: usize, stream: &mut S) -> Result {
        let call = &self.calls[at];
        let label = shown_label(self.texts.as_str(), &call.label);
        make(call.kind.end(call.name(label.as_ref())), stream)
    }

    fn try_clone(&self, alloc: Global) -> std::result::Result<NamedCalls, AllocError> {
        Ok(NamedCalls {
            calls: Vec::from_slice(alloc, self.calls.as_slice())?,
            texts: String::from_str(alloc, self.texts.as_str())?,
            recent: Recent::new(alloc),
        })
    }

    fn show_names_alone(&self) {
        // What a field holds is known once it is read.
        let _calls = &self.calls;
    }
}

impl NamedCalls {
    /// The place of a call among those that a slot remembers, if it is one of them.
    fn find(&self, slot: usize, kind: NamedKind, name: &Name<'_>) -> Option<usize>
        ensures { let call = named_call kind (seen_name name.now) in
            IfSome result (λ place. KeepsNamedCall self.now place call) }
    {
        let (last, before) = self.recent.get(slot)?;
        if self.is_kept(last, kind, name) {
            return Some(last);
        }
        if self.is_kept(before, kind, name) {
            return Some(before);
        }
        None
    }

    /// This call is kept at a place.
    fn is_kept(&self, place: usize, kind: NamedKind, name: &Name<'_>) -> bool
        ensures { OnTrue result (KeepsNamedCall self.now place (named_call kind (seen_name name.now))) }
    {
        match self.calls.get(place) {
            Some(call) => call.is_same(self.texts.as_str(), kind, name),
            None => false,
        }
    }

    /// Keeps one more call, and gives its place. Want of memory changes nothing.
    #[inline(never)]
    fn add(&mut self, kind: NamedKind, name: Name<'_>) -> std::result::Result<usize, NoMemory>
        requires { HasName kind (seen_name name) }
        ensures place { IfOk result (λ at. at ≡ length self.old) }
        ensures kept { let call = named_call kind (seen_name name.entry) in
            OnOk result (self.new ≡ self.old ++ (call ∷ [])) }
        ensures err { OnErr result (self.new ≡ self.old) }
    {
        self.calls.reserve(1)?;
        let call = keep(&mut self.texts, kind, name)?;
        let at = self.calls.len();
        self.calls.push_reserved(call);
        Ok(at)
    }
}

/// Makes a call in a stream.
#[inline(always)]
pub(crate) fn make<L: Lending, S: Stream<L>>(
    call: GroupedCall<'_, L::Text, L::Bytes>,
    stream: &mut S,
) -> Result
    ensures { let made = grouped_call L.text L.bytes call.entry in
        Emits S.law result (S.standing stream.old) (makes (made ∷ [])) (S.standing stream.new) }
{
    stream.take(call.call())
}
