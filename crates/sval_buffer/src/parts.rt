//! The parts of a captured value, in a flat list.

ghost use Rattle.std.specs.Prelude.{◌≡◌, ◌≤◌, ◌-◌, ◌^◌, true, false, not, length, Some, IsOk, IfOk, IfErr, OnErr, if◌then◌else◌};
ghost use Rattle.sval_label.specs.Calls as calls;
ghost use Rattle.sval_label.specs.Made.{lent_call};
ghost use Rattle.sval_label.specs.SeenTags.{seen_ref_tag};
ghost use Rattle.sval_label.specs.SeenName.{seen_name};
ghost use Rattle.sval_label.specs.Grouped.{int_call};
ghost use Rattle.sval_core.specs.Law.{Emits};
ghost use Rattle.sval_core.specs.Values.{makes};
ghost use Rattle.sval_buffer.specs.Forest as forest;
ghost use Rattle.sval_buffer.specs.Forest.{Becomes, HoldsNoPart, add, with_flag, begun, push_into, close_newest, fragment_may_grow, may_grow, empty_forest};
ghost use Rattle.sval_buffer.specs.FlatForest.{forest_in};
ghost use Rattle.sval_buffer.specs.Capture.{CapturesBy, IsNoAlloc};
ghost use Rattle.sval_buffer.specs.Owned.{owned};
ghost use Rattle.sval_buffer.specs.SeenNames.{named_call, IsBegin, HasName};
ghost use Rattle.sval_buffer.specs.SeenHolder.{held_place};
ghost use Rattle.sval_buffer.specs.SeenInts.{wide_int};
ghost use Rattle.sval_buffer.specs.SeenParts.{single_call, begin_call, no_fragments, fragment_bytes, Suits};

use crate::copies::owned_parts;
use crate::error::{ErrorKind, Word, no_alloc};
use crate::fragments::outside;
use crate::holder::Holder;
use crate::named::{CallStore, NamedKind};
use crate::one_pass::replay_parts;
use crate::part::{Begin, Keeping, Medium, Part, Single};
use crate::refused::{Refused, no_memory};
use crate::stores::Stores;
use crate::wide::Wide;
use std::alloc::Global;
use std::marker::Model;
use sval_core::{Call, Fragment, GroupedCall, Lent, Name, NoMemory, Stream, Tag};

/// The parts of a captured value. `forest_in` reads the forest that they make.
#[derive(Drop)]
pub(crate) struct Parts<'sval, N: CallStore> {
    parts: Vec<Part<'sval>>,
    /// What the parts speak of.
    stores: Stores<N>,
    /// The newest container without an end. What holds it is the next older one, and so on.
    newest: Holder,
    /// A text or a binary has begun, and none has ended since.
    in_fragments: bool,
}

impl<'sval, N: CallStore> Model for Parts<'sval, N> {
    ghost use Rattle.std.specs.Prelude.{map};
    ghost use Rattle.sval_buffer.specs.FlatForest.{FlatForest};
    ghost use Rattle.sval_buffer.specs.SeenHolder.{held_place};
    ghost use Rattle.sval_buffer.specs.SeenParts.{flat_part_of, seen_parts, places_around, PartsTell};

    ghost Value = { FlatForest };

    ghost view = { λ p.
        let seen = seen_parts p.stores p.parts.items in
        let places = places_around seen (held_place p.newest) in
        record { parts = map flat_part_of seen; places = places; in_fragments = p.in_fragments } };

    ghost invariant = { λ p.
        let places = places_around (seen_parts p.stores p.parts.items) (held_place p.newest) in
        PartsTell p.stores p.parts.items places p.in_fragments };
}

impl<'sval, N: CallStore> Parts<'sval, N> {
    /// No parts, which take no memory yet.
    pub(crate) fn new(alloc: Global) -> Self
        ensures { forest_in result ≡ empty_forest }
    {
        Parts {
            parts: Vec::new(alloc),
            stores: Stores::new(alloc),
            newest: Holder::none(),
            in_fragments: false,
        }
    }

    /// Makes room for this many parts, where there is memory for them; else they make room as they come.
    pub(crate) fn reserve(&mut self, parts: usize)
        ensures { self.new ≡ self.old }
    {
        let _ = self.parts.reserve(parts);
    }

    /// Forgets all parts.
    pub(crate) fn clear(&mut self)
        ensures { forest_in self.new ≡ empty_forest }
    {
        self.parts.clear();
        self.stores.clear();
        self.newest = Holder::none();
        self.in_fragments = false;
    }

    /// There is a part, each container has its end, and no text or binary has begun without one of either ending since.
    pub(crate) fn is_complete(&self) -> bool
        ensures { result ≡ forest.is_complete (forest_in self.now) }
    {
        if self.parts.is_empty() || self.newest.get().is_some() {
            return false;
        }
        !self.in_fragments
    }

    /// The place of a container that begins now. Behind 2^32 - 1 parts or more, want of memory is answered.
    fn next_place(&self) -> Result<Holder, ErrorKind>
        ensures place { IfOk result (λ holder. held_place holder ≡ Some (length self.now.parts)) }
        ensures no_alloc { IfErr result IsNoAlloc }
        ensures too_far { OnErr result (2 ^ 32 - 1 ≤ length self.now.parts) }
    {
        match Holder::new(self.parts.len()) {
            Some(place) => Ok(place),
            None => Err(ErrorKind::NoAlloc {
                method: Word::Sequence,
            }),
        }
    }

    /// Adds a call that is complete by itself and has no name.
    #[inline(always)]
    pub(crate) fn single(&mut self, call: Single) -> Result<(), ErrorKind>
        ensures { let node = forest.Single (single_call call) in
            CapturesBy (λ _. true) (λ f. Becomes (add node f)) self.old result self.new }
    {
        let holder = self.newest;
        match self.parts.push(Part::Single { holder, call }) {
            Ok(()) => {}
            Err(failed) => return Err(no_alloc(NoMemory::from(failed), call.word())),
        }
        Ok(())
    }

    /// Adds a whole number of 128 bits.
    pub(crate) fn wide(&mut self, signed: bool, number: Wide) -> Result<(), ErrorKind>
        ensures { let node = forest.Single (int_call (wide_int signed number)) in
            CapturesBy (λ _. true) (λ f. Becomes (add node f)) self.old result self.new }
    {
        let holder = self.newest;
        let part = Part::Wide {
            signed,
            holder,
            number,
        };
        match self.parts.push(part) {
            Ok(()) => {}
            Err(failed) => return Err(no_alloc(NoMemory::from(failed), Word::Integer)),
        }
        Ok(())
    }

    /// Adds a hint, but within a text or a binary.
    pub(crate) fn hint(&mut self, tag: &Tag) -> Result<(), ErrorKind>
        ensures { let node = forest.Single (calls.TagHint (seen_ref_tag tag.entry)) in
            CapturesBy (λ f. not f.in_fragments) (λ f. Becomes (if f.in_fragments then f else add node f))
            self.old result self.new }
    {
        if self.in_fragments {
            return Ok(());
        }
        let name = Name {
            tag: Some(tag),
            label: None,
            index: None,
        };
        self.single_named(NamedKind::Hint, name)
    }

    /// Adds a tag or a hint. There is memory for its part before its name is kept.
    pub(crate) fn single_named(&mut self, kind: NamedKind, name: Name<'_>) -> Result<(), ErrorKind>
        requires name { HasName kind (seen_name name) }
        ensures { let node = forest.Single (named_call kind (seen_name name.entry)) in
            CapturesBy (λ _. true) (λ f. Becomes (add node f)) self.old result self.new }
    {
        let holder = self.newest;
        if let Err(cause) = self.parts.reserve(1) {
            return Err(no_alloc(NoMemory::from(cause), Word::Text));
        }
        match self.stores.push_call(kind, name) {
            Ok(at) => {
                self.parts.push_reserved(Part::Named { holder, at });
                Ok(())
            }
            Err(cause) => Err(no_alloc(cause, Word::Text)),
        }
    }

    /// Begins a text or a binary.
    #[inline(always)]
    pub(crate) fn begin_fragments(
        &mut self,
        medium: Medium,
        keeping: Keeping,
    ) -> Result<(), ErrorKind>
        ensures { let node = no_fragments medium keeping in
            CapturesBy (λ _. true) (λ f. Becomes (with_flag true (add node f))) self.old result self.new }
    {
        let holder = self.newest;
        let part = Part::empty(medium, keeping, holder, &self.stores);
        match self.parts.push(part) {
            Ok(()) => {
                self.in_fragments = true;
                Ok(())
            }
            Err(failed) => Err(no_alloc(NoMemory::from(failed), medium.word())),
        }
    }

    /// Ends a text or a binary.
    pub(crate) fn end_fragments(&mut self)
        ensures { forest_in self.new ≡ with_flag false (forest_in self.old) }
    {
        self.in_fragments = false;
    }

    /// Pushes a fragment into the last part, if that is of this medium.
    pub(crate) fn push(
        &mut self,
        medium: Medium,
        fragment: Fragment<&'sval [u8], &[u8]>,
    ) -> Result<(), ErrorKind>
        requires { Suits medium (fragment_bytes fragment).bytes }
        ensures { let pushed = fragment_bytes fragment.entry in
            CapturesBy (fragment_may_grow medium pushed.borrowed) (push_into medium pushed) self.old result self.new }
    {
        match self.parts.last_mut() {
            Some(part) => part.push(&mut self.stores, medium, fragment),
            None => Err(outside(medium)),
        }
    }

    /// Begins a container without a name.
    pub(crate) fn begin(&mut self, begin: Begin, size: usize) -> Result<(), ErrorKind>
        ensures { CapturesBy (λ _. true) (λ f. Becomes (begun (begin_call begin size) f)) self.old result self.new }
    {
        let place = self.next_place()?;
        let part = Part::Container {
            begin,
            holder: self.newest,
            size,
            holds: 0,
        };
        match self.parts.push(part) {
            Ok(()) => {
                self.newest = place;
                Ok(())
            }
            Err(failed) => Err(no_alloc(NoMemory::from(failed), Word::Sequence)),
        }
    }

    /// Begins a container with a name. There is memory for its part before its name is kept.
    pub(crate) fn begin_named(&mut self, kind: NamedKind, name: Name<'_>) -> Result<(), ErrorKind>
        requires begins { IsBegin kind }
        requires name { HasName kind (seen_name name) }
        ensures { let begin = named_call kind (seen_name name.entry) in
            CapturesBy (λ _. true) (λ f. Becomes (begun begin f)) self.old result self.new }
    {
        let place = self.next_place()?;
        if let Err(cause) = self.parts.reserve(1) {
            return Err(no_alloc(NoMemory::from(cause), Word::Sequence));
        }
        match self.stores.push_call(kind, name) {
            Ok(at) => {
                self.parts.push_reserved(Part::NamedContainer {
                    holder: self.newest,
                    at,
                    holds: 0,
                });
                self.newest = place;
                Ok(())
            }
            Err(cause) => Err(no_alloc(cause, Word::Sequence)),
        }
    }

    /// Makes the calls again, or that of no value where there is no part.
    pub(crate) fn replay<S: Stream<Lent<'sval>>>(&self, stream: &mut S) -> sval_core::Result
        ensures { let calls = forest.replayed (forest_in self.now) in
            Emits S.law result (S.standing stream.old) (makes calls) (S.standing stream.new) }
    {
        if self.parts.is_empty() {
            return stream.null();
        }
        replay_parts(&self.parts, &self.stores, stream)
    }

    /// A copy, which borrows what these parts borrow.
    pub(crate) fn try_clone(&self) -> Result<Self, NoMemory>
        ensures copy { IfOk result (λ copy. copy ≡ self.now) }
        ensures no_part_needs_none { HoldsNoPart (forest_in self.now) → IsOk result }
    {
        let alloc = *self.parts.allocator();
        if self.parts.is_empty() {
            return Ok(Parts {
                parts: Vec::new(alloc),
                stores: Stores::new(alloc),
                newest: self.newest,
                in_fragments: self.in_fragments,
            });
        }
        let parts = Vec::from_slice(alloc, &self.parts)?;
        let stores = self.stores.try_clone(alloc)?;
        Ok(Parts {
            parts,
            stores,
            newest: self.newest,
            in_fragments: self.in_fragments,
        })
    }

    /// The parts with no text or binary borrowed. Without memory for that they are handed back as they are.
    pub(crate) fn into_owned<'o>(self) -> Result<Parts<'o, N>, Refused<Self>>
        ensures ok { IfOk result (λ parts. forest_in parts ≡ owned (forest_in self.entry)) }
        ensures err { IfErr result (λ refused. (refused.value ≡ self.entry) × IsNoAlloc refused.error) }
        ensures no_part_needs_none { HoldsNoPart (forest_in self.entry) → IsOk result }
    {
        self.stores.show_names_alone();
        let Parts {
            parts,
            mut stores,
            newest,
            in_fragments,
        } = self;
        match owned_parts(*parts.allocator(), &parts, &mut stores) {
            Ok(parts) => Ok(Parts {
                parts,
                stores,
                newest,
                in_fragments,
            }),
            Err(cause) => Err(Refused {
                value: Parts {
                    parts,
                    stores,
                    newest,
                    in_fragments,
                },
                error: no_memory(cause),
            }),
        }
    }

    /// Takes a call.
    #[tactic(auto, unfolding(crate::specs::Forest::take, crate::specs::Forest::may_grow))]
    #[inline(always)]
    pub(crate) fn capture(&mut self, call: Call<'sval, '_>) -> Result<(), ErrorKind>
        ensures { let taken = lent_call call.entry in
            CapturesBy (λ f. may_grow f taken) (λ f. forest.take f taken) self.old result self.new }
    {
        match call.grouped() {
            GroupedCall::Null => self.null(),
            GroupedCall::Bool(value) => self.truth(value),
            GroupedCall::Int(value) => self.int(value),
            GroupedCall::Tag(name) => self.tag(name),
            GroupedCall::TagHint(tag) => self.hint(tag),
            GroupedCall::TextBegin(_) => {
                self.begin_fragments(Medium::Text, Keeping::ByReference)
            }
            GroupedCall::BinaryBegin(_) => {
                self.begin_fragments(Medium::Binary, Keeping::ByReference)
            }
            GroupedCall::TextFragment(fragment) => self.push_text(fragment),
            GroupedCall::BinaryFragment(fragment) => self.push_binary(fragment),
            GroupedCall::TextEnd | GroupedCall::BinaryEnd => {
                self.end_fragments();
                Ok(())
            }
            GroupedCall::EnumBegin(name) => self.begin_enum(name),
            GroupedCall::TaggedBegin(name) => self.begin_tagged(name),
            GroupedCall::Begin(head, size) => self.begin_head(head, size),
            GroupedCall::PartBegin(slot) => self.begin_slot(slot),
            GroupedCall::EnumEnd(_)
            | GroupedCall::TaggedEnd(_)
            | GroupedCall::End(_)
            | GroupedCall::PartEnd(_) => self.end(),
        }
    }

    /// Ends the newest container without an end.
    pub(crate) fn end(&mut self) -> Result<(), ErrorKind>
        ensures { CapturesBy (λ _. false) close_newest self.old result self.new }
    {
        match self.newest.get() {
            Some(place) => {
                let holds = self.parts.len() - place - 1;
                self.newest = self.parts[place].close(holds);
                Ok(())
            }
            None => Err(ErrorKind::InvalidValue {
                reason: Word::Unbalanced,
            }),
        }
    }
}
