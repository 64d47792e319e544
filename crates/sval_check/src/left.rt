//! Sizes as what is still to come, so that none is too great to be kept.

ghost use Rattle.std.specs.Prelude.{◌≡◌};
ghost use Rattle.sval_core.specs.CheckerSteps.{take_off, is_used_up};

use std::marker::Model;
use std::mem::size_of;

/// What is still to come of a text, a binary or a container, if its size was given. It is seen as an `Option` of that.
#[derive(Drop)]
pub(crate) struct Left {
    /// The bytes of what is still to come, which need no alignment.
    size: [u8; 8],
    /// A size was given.
    is_given: bool,
}

/// Checking a deep value is bound by the memory that it is the first to touch, and each open container keeps a `Left`.
const _: () = prove!(size_of::<Left>() == 9);

impl Model for Left {
    ghost use Rattle.std.specs.Prelude.{ℕ, Option};
    ghost use Rattle.std.specs.Bool.{then_some};
    ghost use Rattle.std.specs.Int.{w64, from_le_bytes};

    ghost Value = { Option ℕ };

    ghost view = { λ left. then_some left.is_given (from_le_bytes w64 left.size) };
}

impl Left {
    /// Keeps what is still to come, if a size was given.
    #[inline(always)]
    pub(crate) fn new(left: Option<usize>) -> Left
        ensures { result ≡ left }
    {
        match left {
            None => Left {
                size: [0; 8],
                is_given: false,
            },
            Some(size) => Left {
                size: size.to_ne_bytes(),
                is_given: true,
            },
        }
    }

    /// What is still to come, if a size was given.
    #[inline(always)]
    pub(crate) fn get(&self) -> Option<usize>
        ensures { result ≡ self.now }
    {
        if self.is_given {
            Some(usize::from_ne_bytes(self.size))
        } else {
            None
        }
    }
}

/// What is left of a size where `count` of it come, if that is not too many.
pub(crate) fn take_off(left: Option<usize>, count: usize) -> Option<Option<usize>>
    ensures { result ≡ take_off left count }
{
    match left {
        None => Some(None),
        Some(due) => due.checked_sub(count).map(Some),
    }
}

/// Of a size nothing is still to come, if it was given.
pub(crate) fn is_used_up(left: Option<usize>) -> bool
    ensures { result ≡ is_used_up left }
{
    match left {
        None => true,
        Some(due) => due == 0,
    }
}
