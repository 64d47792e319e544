//! What is open.

ghost use Rattle.std.specs.Prelude.{◌≡◌, nat_lt, [], ◌∷◌, length, IfOk};
ghost use Rattle.sval_cbor_read.specs.SeenFrames.{frame_of, open_frames, TopFrameIs, around_frame, changed};

use crate::outer::Outer;
use std::alloc::Global;
use std::marker::Model;
use std::mem::replace;
use sval_core::NoMemory;

/// An array or a map that has begun and not ended: what comes in it next, and how many items or pairs are still to come
/// after that, or none where a break ends it.
#[derive(Clone, Copy)]
pub(crate) enum Frame {
    /// Items of an array.
    Items(Option<usize>),
    /// Pairs of a map.
    Keys(Option<usize>),
    /// The value of a pair, and then pairs.
    Values(Option<usize>),
}

/// What is open, seen as a list with the innermost first.
///
/// The innermost frame is kept apart, since each item changes it.
#[derive(Drop)]
pub(crate) struct Stack {
    top: Option<Frame>,
    outer: Outer,
    alloc: Global,
}

/// These frames with another one behind them, or none where there is no other one. They are taken by value, so that the
/// reader stays in registers.
#[cold]
#[inline(never)]
fn with_inner(mut outer: Outer, inner: Option<Frame>) -> Result<Outer, NoMemory>
    ensures { IfOk result (λ all. all ≡ open_frames inner outer) }
{
    match inner {
        None => outer.clear(),
        Some(frame) => outer.push(frame)?,
    }
    Ok(outer)
}

impl Model for Stack {
    ghost use Rattle.std.specs.Prelude.{List};
    ghost use Rattle.sval_cbor_read.specs.Reading.{OpenItem};
    ghost use Rattle.sval_cbor_read.specs.SeenFrames.{open_frames};

    ghost Value = { List OpenItem };

    ghost view = { λ stack. open_frames stack.top stack.outer };
}

impl Stack {
    /// A stack on which nothing is open; it takes no memory yet.
    #[inline(always)]
    pub(crate) fn new(alloc: Global) -> Self
        ensures { result ≡ [] }
    {
        Stack {
            top: None,
            outer: Outer::new(alloc),
            alloc,
        }
    }

    /// The innermost frame.
    #[inline(always)]
    pub(crate) fn top(&self) -> Option<Frame>
        ensures { TopFrameIs result self.now }
    {
        self.top
    }

    /// Whether more arrays and maps are open than this number.
    pub(crate) fn is_deeper_than(&self, depth: usize) -> bool
        ensures { result ≡ nat_lt depth (length self.now) }
    {
        self.top.is_some() && self.outer.len() >= depth
    }

    /// Opens an array or a map in the innermost one. Where there is room the frame around it is kept in place.
    #[inline(always)]
    pub(crate) fn push(&mut self, frame: Frame) -> Result<(), NoMemory>
        ensures { IfOk result (λ done. self.new ≡ frame_of frame ∷ self.old) }
    {
        match self.top {
            Some(inner) if self.outer.has_room_for(inner) => self.outer.push(inner)?,
            top => {
                let outer = replace(&mut self.outer, Outer::new(self.alloc));
                let _none = replace(&mut self.outer, with_inner(outer, top)?);
            },
        }
        self.top = Some(frame);
        Ok(())
    }

    /// Puts another frame in the place of the innermost one, if there is one.
    #[inline(always)]
    pub(crate) fn change(&mut self, frame: Frame)
        ensures { self.new ≡ changed (frame_of frame) self.old }
    {
        if self.top.is_some() {
            self.top = Some(frame);
        }
    }

    /// Closes the innermost array or map, if there is one.
    #[tactic(auto, using(crate::proofs::KeptFrames::taken))]
    #[inline(always)]
    pub(crate) fn pop(&mut self)
        ensures { self.new ≡ around_frame self.old }
    {
        if self.top.is_some() {
            self.top = self.outer.pop();
        }
    }
}
