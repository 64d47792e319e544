//! What is around the innermost frame, in one byte for each frame, and eight where a count isn't zero.

ghost use Rattle.std.specs.Prelude.{◌≡◌, ◌∷◌, [], length, drop, reverse, true, false, IfOk};
ghost use Rattle.sval_cbor_read.specs.SeenFrames.{frame_of};
ghost use Rattle.sval_cbor_read.specs.KeptFrames.{is_counted, kept_frame, first_count, TakesFrame};

use crate::stack::Frame;
use std::alloc::Global;
use std::marker::Model;
use std::mem::size_of;
use sval_core::NoMemory;

/// A frame without its count, which is kept beside where it isn't zero.
#[derive(Clone, Copy)]
pub(crate) enum Kept {
    /// Items of an array, and how many is kept beside.
    Items,
    /// No more items of an array.
    NoItems,
    /// Items of an array up to a break.
    ItemsToBreak,
    /// Pairs of a map, and how many is kept beside.
    Keys,
    /// No more pairs of a map.
    NoKeys,
    /// Pairs of a map up to a break.
    KeysToBreak,
    /// The value of a pair, and then pairs, and how many is kept beside.
    Values,
    /// The value of the last pair.
    LastValue,
    /// The value of a pair, and then pairs up to a break.
    ValuesToBreak,
}

/// Each byte of a deep item may open an array of one item. Such an array keeps this one byte.
const _: () = prove!(size_of::<Kept>() == 1);

/// Frames around the innermost one, seen as a list with the innermost of them first.
#[derive(Drop)]
pub(crate) struct Outer {
    /// The outermost is the first.
    frames: Vec<Kept>,
    /// The counts of those that have one, in the same order.
    counts: Vec<usize>,
}

impl Model for Outer {
    ghost use Rattle.std.specs.Prelude.{List, reverse};
    ghost use Rattle.sval_cbor_read.specs.Reading.{OpenItem};
    ghost use Rattle.sval_cbor_read.specs.KeptFrames.{kept_frames};

    ghost Value = { List OpenItem };

    ghost view = { λ outer. kept_frames (reverse outer.frames.items) (reverse outer.counts.items) };
}

/// Room for more frames than this is given back while arrays and maps end, since each end is kept as a node.
const LARGE: usize = 1 << 16;

/// Takes the last count, or zero where there is none.
#[inline(always)]
fn take_count(counts: &mut Vec<usize>) -> usize
    ensures count { result ≡ first_count (reverse counts.old.items) }
    ensures others { reverse counts.new.items ≡ drop 1 (reverse counts.old.items) }
{
    counts.pop().unwrap_or(0)
}

impl Outer {
    /// No frame; it takes no memory yet.
    #[inline(always)]
    pub(crate) fn new(alloc: Global) -> Self
        ensures { result ≡ [] }
    {
        Outer {
            frames: Vec::new(alloc),
            counts: Vec::new(alloc),
        }
    }

    /// How many frames there are.
    #[tactic(auto, using(crate::proofs::KeptFrames::kept_length))]
    pub(crate) fn len(&self) -> usize
        ensures { result ≡ length self.now }
    {
        self.frames.len()
    }

    /// Whether this frame takes no more memory.
    #[inline(always)]
    pub(crate) fn has_room_for(&self, frame: Frame) -> bool {
        let (Frame::Items(left) | Frame::Keys(left) | Frame::Values(left)) = frame;
        let is_counted = left.unwrap_or(0) > 0;
        self.frames.len() < self.frames.capacity()
            && (!is_counted || self.counts.len() < self.counts.capacity())
    }

    /// Lets all frames go.
    #[inline(always)]
    pub(crate) fn clear(&mut self)
        ensures { self.new ≡ [] }
    {
        self.frames.clear();
        self.counts.clear();
    }

    /// Keeps a frame that has no count.
    #[tactic(auto, using(crate::proofs::KeptFrames::uncounted))]
    #[inline(always)]
    fn keep(&mut self, kept: Kept) -> Result<(), NoMemory>
        requires { is_counted kept ≡ false }
        ensures { IfOk result (λ done. self.new ≡ kept_frame kept 0 ∷ self.old) }
    {
        self.frames.push(kept)?;
        Ok(())
    }

    /// Keeps a frame and its count.
    #[tactic(auto, using(crate::proofs::KeptFrames::counted))]
    #[inline(always)]
    fn keep_counted(&mut self, kept: Kept, count: usize) -> Result<(), NoMemory>
        requires { is_counted kept ≡ true }
        ensures { IfOk result (λ done. self.new ≡ kept_frame kept count ∷ self.old) }
    {
        self.counts.push(count)?;
        self.frames.push(kept)?;
        Ok(())
    }

    /// Puts a frame within the others.
    #[inline(always)]
    pub(crate) fn push(&mut self, frame: Frame) -> Result<(), NoMemory>
        ensures { IfOk result (λ done. self.new ≡ frame_of frame ∷ self.old) }
    {
        match frame {
            Frame::Items(None) => self.keep(Kept::ItemsToBreak),
            Frame::Items(Some(0)) => self.keep(Kept::NoItems),
            Frame::Items(Some(left)) => self.keep_counted(Kept::Items, left),
            Frame::Keys(None) => self.keep(Kept::KeysToBreak),
            Frame::Keys(Some(0)) => self.keep(Kept::NoKeys),
            Frame::Keys(Some(left)) => self.keep_counted(Kept::Keys, left),
            Frame::Values(None) => self.keep(Kept::ValuesToBreak),
            Frame::Values(Some(0)) => self.keep(Kept::LastValue),
            Frame::Values(Some(left)) => self.keep_counted(Kept::Values, left),
        }
    }

    /// Whether half of much room for frames is free.
    #[inline(always)]
    fn has_much_free_room(&self) -> bool {
        let room = self.frames.capacity();
        room > LARGE && self.frames.len() <= room / 2
    }

    /// Gives back the room that no frame takes.
    #[cold]
    #[inline(never)]
    fn give_back(&mut self)
        ensures { self.new ≡ self.old }
    {
        self.frames.shrink_to_fit();
    }

    /// Takes the innermost frame, if there is one.
    #[tactic(auto, using(crate::proofs::KeptFrames::kept_first))]
    pub(crate) fn pop(&mut self) -> Option<Frame>
        ensures { TakesFrame result self.old self.new }
    {
        if self.has_much_free_room() {
            self.give_back();
        }
        match self.frames.pop() {
            None => None,
            Some(Kept::Items) => Some(Frame::Items(Some(take_count(&mut self.counts)))),
            Some(Kept::NoItems) => Some(Frame::Items(Some(0))),
            Some(Kept::ItemsToBreak) => Some(Frame::Items(None)),
            Some(Kept::Keys) => Some(Frame::Keys(Some(take_count(&mut self.counts)))),
            Some(Kept::NoKeys) => Some(Frame::Keys(Some(0))),
            Some(Kept::KeysToBreak) => Some(Frame::Keys(None)),
            Some(Kept::Values) => Some(Frame::Values(Some(take_count(&mut self.counts)))),
            Some(Kept::LastValue) => Some(Frame::Values(Some(0))),
            Some(Kept::ValuesToBreak) => Some(Frame::Values(None)),
        }
    }
}
