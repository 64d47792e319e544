//! The parts of a captured value.

ghost use Rattle.std.specs.Prelude.{◌≡◌, ℕ, List, IfOk, IfErr};
ghost use Rattle.sval_label.specs.Grouped.{grouped_call};
ghost use Rattle.sval_core.specs.Law.{Emits};
ghost use Rattle.sval_core.specs.Values.{makes};
ghost use Rattle.sval_buffer.specs.Flat.{held_part, push_part};
ghost use Rattle.sval_buffer.specs.Replay.{head_calls};
ghost use Rattle.sval_buffer.specs.Nested.{ends_of_part, is_holder};
ghost use Rattle.sval_buffer.specs.Forest.{end_of};
ghost use Rattle.sval_buffer.specs.SeenHolder.{held_place};
ghost use Rattle.sval_buffer.specs.SeenStores.{SeenStores, Grows};
ghost use Rattle.sval_buffer.specs.SeenParts.{seen_part, FragmentPushes, fragment_bytes, with_holds, flat_kind, holds_of, holder_of, single_call, begin_call, first_bytes, HoldsBytes, IsKept, IsPushCause, Pushed, Suits};

use crate::error::{ErrorKind, Word};
use crate::fragments::{join_borrowed, join_stored, outside, stream_borrowed, stream_computed};
use crate::holder::Holder;
use crate::named::{CallStore, make};
use crate::stores::Stores;
use crate::wide::Wide;
use std::mem::size_of;
use sval_core::{Fragment, GroupedCall, Head, Int, Lent, Slot, Stream};

/// A call that is complete by itself, has no name, and is no number of 128 bits.
#[derive(Clone, Copy)]
pub(crate) enum Single {
    Null,
    Bool(bool),
    U8(u8),
    U16(u16),
    U32(u32),
    U64(u64),
    I8(i8),
    I16(i16),
    I32(i32),
    I64(i64),
}

impl Single {
    /// What it is called.
    pub(crate) fn word(self) -> Word {
        match self {
            Single::Null => Word::Null,
            Single::Bool(_) => Word::Boolean,
            _ => Word::Integer,
        }
    }

    /// The call.
    fn call<'c, T, B>(self) -> GroupedCall<'c, T, B>
        ensures { (text : T → List ℕ) (bytes : B → List ℕ)
            → grouped_call text bytes result ≡ single_call self }
    {
        match self {
            Single::Null => GroupedCall::Null,
            Single::Bool(value) => GroupedCall::Bool(value),
            Single::U8(number) => GroupedCall::Int(Int::U8(number)),
            Single::U16(number) => GroupedCall::Int(Int::U16(number)),
            Single::U32(number) => GroupedCall::Int(Int::U32(number)),
            Single::U64(number) => GroupedCall::Int(Int::U64(number)),
            Single::I8(number) => GroupedCall::Int(Int::I8(number)),
            Single::I16(number) => GroupedCall::Int(Int::I16(number)),
            Single::I32(number) => GroupedCall::Int(Int::I32(number)),
            Single::I64(number) => GroupedCall::Int(Int::I64(number)),
        }
    }
}

/// The begin of a container that has no name. A container is all that has a begin and an end but a text and a binary.
#[derive(Clone, Copy)]
pub(crate) enum Begin {
    Seq,
    /// A sequence of a given size.
    SizedSeq,
    Map,
    /// A map of a given size.
    SizedMap,
    Item,
    Key,
    Value,
}

impl Begin {
    /// The begin, where a size is given that of this size.
    fn call<'c, T, B>(self, size: usize) -> GroupedCall<'c, T, B>
        ensures { (text : T → List ℕ) (bytes : B → List ℕ)
            → grouped_call text bytes result ≡ begin_call self size }
    {
        match self {
            Begin::Seq => GroupedCall::Begin(Head::Seq, None),
            Begin::SizedSeq => GroupedCall::Begin(Head::Seq, Some(size)),
            Begin::Map => GroupedCall::Begin(Head::Map, None),
            Begin::SizedMap => GroupedCall::Begin(Head::Map, Some(size)),
            Begin::Item => GroupedCall::PartBegin(Slot::Item),
            Begin::Key => GroupedCall::PartBegin(Slot::Key),
            Begin::Value => GroupedCall::PartBegin(Slot::Value),
        }
    }

    /// The end that belongs to the begin.
    fn end<'c, T, B>(self) -> GroupedCall<'c, T, B>
        ensures { (text : T → List ℕ) (bytes : B → List ℕ) (size : ℕ)
            → grouped_call text bytes result ≡ end_of (begin_call self size) }
    {
        match self {
            Begin::Seq | Begin::SizedSeq => GroupedCall::End(Head::Seq),
            Begin::Map | Begin::SizedMap => GroupedCall::End(Head::Map),
            Begin::Item => GroupedCall::PartEnd(Slot::Item),
            Begin::Key => GroupedCall::PartEnd(Slot::Key),
            Begin::Value => GroupedCall::PartEnd(Slot::Value),
        }
    }
}

/// How a text or a binary keeps its fragments.
#[derive(Clone, Copy)]
pub(crate) enum Keeping {
    /// By reference where one borrowed fragment is all of it, and else by a copy.
    ByReference,
    /// By a copy.
    ByCopy,
}

/// What fragments are of.
#[derive(Clone, Copy, PartialEq, Eq)]
pub(crate) enum Medium {
    Text,
    Binary,
}

impl Medium {
    /// What it is called.
    pub(crate) fn word(self) -> Word {
        match self {
            Medium::Text => Word::Text,
            Medium::Binary => Word::Binary,
        }
    }
}

/// A part of a captured value, with the place of the container that holds it, if one does.
#[derive(Clone, Copy)]
pub(crate) enum Part<'sval> {
    /// A call that is complete by itself and has no name.
    Single {
        holder: Holder,
        call: Single,
    },
    /// A whole number of 128 bits, with its sign or without one.
    Wide {
        signed: bool,
        holder: Holder,
        number: Wide,
    },
    /// A tag or a hint, by its place in the calls with names.
    Named {
        holder: Holder,
        at: usize,
    },
    /// A text or a binary of one borrowed fragment, or of none.
    Borrowed {
        medium: Medium,
        holder: Holder,
        bytes: &'sval [u8],
    },
    /// A text or a binary that is copied: the bytes between two places of the store.
    Stored {
        medium: Medium,
        holder: Holder,
        start: usize,
        end: usize,
    },
    /// A container, the size that its begin gives, if it gives one, and the number of parts after it that it holds:
    /// none, as long as it has no end.
    Container {
        begin: Begin,
        holder: Holder,
        size: usize,
        holds: usize,
    },
    /// A container with a name, by the place of its begin in the calls with names, and the number of parts after it
    /// that it holds, as for a container without a name.
    NamedContainer {
        holder: Holder,
        at: usize,
        holds: usize,
    },
}

/// Capturing is bound by the memory that it is the first to touch, and most of that are parts.
const _: () = prove!(size_of::<Part<'static>>() == 24);

impl<'sval> Part<'sval> {
    /// The place of the container that holds it, if one does.
    pub(crate) fn holder(&self) -> Option<usize>
        ensures { result ≡ holder_of self.now }
    {
        self.held_by().get()
    }

    /// The container that holds it, if one does.
    pub(crate) fn held_by(&self) -> Holder
        ensures { held_place result ≡ holder_of self.now }
    {
        match self {
            Part::Single { holder, .. }
            | Part::Wide { holder, .. }
            | Part::Named { holder, .. }
            | Part::Borrowed { holder, .. }
            | Part::Stored { holder, .. }
            | Part::Container { holder, .. }
            | Part::NamedContainer { holder, .. } => *holder,
        }
    }

    /// A text or a binary without fragments.
    pub(crate) fn empty<N: CallStore>(
        medium: Medium,
        keeping: Keeping,
        holder: Holder,
        stores: &Stores<N>,
    ) -> Part<'sval>
        ensures { HoldsBytes stores.now medium holder (first_bytes keeping) result }
    {
        match keeping {
            Keeping::ByReference => Part::Borrowed {
                medium,
                holder,
                bytes: &[],
            },
            Keeping::ByCopy => Part::Stored {
                medium,
                holder,
                start: stores.len(),
                end: stores.len(),
            },
        }
    }

    /// Pushes a fragment, if this is a text or a binary of this medium. What is copied goes behind what the stores have.
    pub(crate) fn push<N: CallStore>(
        &mut self,
        stores: &mut Stores<N>,
        medium: Medium,
        fragment: Fragment<&'sval [u8], &[u8]>,
    ) -> Result<(), ErrorKind>
        requires kept { IsKept stores.old self.old }
        requires suits { Suits medium (fragment_bytes fragment).bytes }
        ensures pushes { FragmentPushes medium (seen_part stores.old self.old) (fragment_bytes fragment.entry)
            result (seen_part stores.new self.new) }
        ensures still { IsKept stores.new self.new }
        ensures grows { Grows stores.old stores.new }
    {
        *self = self.pushed(stores, medium, fragment)?;
        Ok(())
    }

    /// The part with a fragment more, if this is a text or a binary of this medium.
    fn pushed<N: CallStore>(
        self,
        stores: &mut Stores<N>,
        medium: Medium,
        fragment: Fragment<&'sval [u8], &[u8]>,
    ) -> Result<Part<'sval>, ErrorKind>
        requires kept { IsKept stores.old self }
        requires suits { Suits medium (fragment_bytes fragment).bytes }
        ensures pushes { IfOk result (λ next. Pushed
            (push_part medium (fragment_bytes fragment.entry) (flat_kind stores.old self.entry))
            (seen_part stores.old self.entry) (seen_part stores.new next)) }
        ensures kept { IfOk result (IsKept stores.new) }
        ensures refused { let held = held_part medium (flat_kind stores.old self.entry) in
            IfErr result (IsPushCause medium (fragment_bytes fragment.entry) held) }
        ensures grows { Grows stores.old stores.new }
    {
        match self {
            Part::Borrowed {
                medium: own,
                holder,
                bytes,
            } if own == medium => join_borrowed(medium, holder, bytes, fragment, stores),
            Part::Stored {
                medium: own,
                holder,
                start,
                end,
            } if own == medium => join_stored(medium, holder, start, end, fragment, stores),
            _ => Err(outside(medium)),
        }
    }

    /// The number of parts after it that it holds.
    pub(crate) fn holds(&self) -> usize
        ensures { result ≡ holds_of self.now }
    {
        match self {
            Part::Container { holds, .. } | Part::NamedContainer { holds, .. } => *holds,
            _ => 0,
        }
    }

    /// This is a container.
    pub(crate) fn is_container(&self) -> bool
        ensures { (s : SeenStores) → result ≡ is_holder (flat_kind s self.now) }
    {
        match self {
            Part::Container { .. } | Part::NamedContainer { .. } => true,
            _ => false,
        }
    }

    /// Makes the calls of this part, of a container its begin.
    pub(crate) fn stream_head<N: CallStore, S: Stream<Lent<'sval>>>(
        &self,
        stores: &Stores<N>,
        stream: &mut S,
    ) -> sval_core::Result
        requires { IsKept stores.now self.now }
        ensures { let calls = head_calls (flat_kind stores.now self.now) in
            Emits S.law result (S.standing stream.old) (makes calls) (S.standing stream.new) }
    {
        match *self {
            Part::Single { call, .. } => make(call.call(), stream),
            Part::Wide { signed, number, .. } => {
                make(GroupedCall::Int(number.int(signed)), stream)
            }
            Part::Named { at, .. } | Part::NamedContainer { at, .. } => {
                stores.stream_call(at, stream)
            }
            Part::Borrowed { medium, bytes, .. } => stream_borrowed(medium, bytes, stream),
            Part::Stored {
                medium,
                start,
                end,
                ..
            } => stream_computed(medium, stores.range(start, end), stream),
            Part::Container { begin, size, .. } => make(begin.call(size), stream),
        }
    }

    /// Makes the end of this part, if it is a container.
    #[inline(always)]
    pub(crate) fn stream_end<N: CallStore, S: Stream<Lent<'sval>>>(
        &self,
        stores: &Stores<N>,
        stream: &mut S,
    ) -> sval_core::Result
        requires { IsKept stores.now self.now }
        ensures { let calls = ends_of_part (flat_kind stores.now self.now) in
            Emits S.law result (S.standing stream.old) (makes calls) (S.standing stream.new) }
    {
        match self {
            Part::Container { begin, .. } => make(begin.end(), stream),
            Part::NamedContainer { at, .. } => stores.stream_end(*at, stream),
            _ => Ok(()),
        }
    }

    /// Sets the number of parts after this container that it holds, and gives the container that holds it.
    pub(crate) fn close(&mut self, parts: usize) -> Holder
        ensures closed { self.new ≡ with_holds self.old parts }
        ensures around { held_place result ≡ holder_of self.old }
    {
        let around = self.held_by();
        match self {
            Part::Container { holds, .. } => *holds = parts,
            Part::NamedContainer { holds, .. } => *holds = parts,
            _ => {}
        }
        around
    }
}
