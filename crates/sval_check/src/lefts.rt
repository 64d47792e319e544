//! What is still to come of what has begun, and how a part is counted.

ghost use Rattle.std.specs.Prelude.{◌≡◌, reverse};
ghost use Rattle.sval_check.specs.Stacked.{below_if};
ghost use Rattle.sval_check.specs.Frames.{innermost_left};
ghost use Rattle.sval_check.specs.Tops.{advanced, is_container_top, lefts_after, lefts_after_around, on_top, under_top};

use crate::frame::Frame;
use crate::left::Left;

/// What is still to come of the innermost text, binary or container, if its size was given.
#[inline(always)]
pub(crate) fn innermost_left(lefts: &[Left]) -> Option<usize>
    ensures { result ≡ innermost_left (reverse lefts.now) }
{
    match lefts.last() {
        Some(left) => left.get(),
        None => None,
    }
}

/// Puts what is still to come of the innermost text, binary or container.
#[inline(always)]
pub(crate) fn put_left(lefts: &mut [Left], left: Option<usize>)
    ensures { reverse lefts.new ≡ on_top (λ _. left) (reverse lefts.old) }
{
    if let Some(innermost) = lefts.last_mut() {
        *innermost = Left::new(left);
    }
}

/// Puts a part into the innermost frame, where it is a container, and says whether it is.
#[inline(always)]
fn advance_frame(frames: &mut [Frame]) -> bool
    ensures frames { reverse frames.new ≡ on_top advanced (reverse frames.old) }
    ensures is_container { result ≡ is_container_top (reverse frames.old) }
{
    match frames.last_mut() {
        None => false,
        Some(top) => {
            let is_container = top.is_container();
            *top = top.advanced();
            is_container
        }
    }
}

/// Puts a part into the innermost frame, where it is a container. `left` is the number of its entries that are still to
/// come after the part.
#[inline(always)]
pub(crate) fn advance(frames: &mut [Frame], lefts: &mut [Left], left: Option<usize>)
    ensures frames { reverse frames.new ≡ on_top advanced (reverse frames.old) }
    ensures lefts { reverse lefts.new ≡ lefts_after left (reverse frames.old) (reverse lefts.old) }
{
    if advance_frame(frames) {
        put_left(lefts, left);
    }
}

/// Puts a part into the frame around the innermost one, where it is a container. `left` is the number of its entries
/// that are still to come after the part.
pub(crate) fn advance_around(frames: &mut [Frame], lefts: &mut [Left], left: Option<usize>)
    ensures frames { reverse frames.new ≡ under_top (on_top advanced) (reverse frames.old) }
    ensures lefts { reverse lefts.new ≡ lefts_after_around left (reverse frames.old) (reverse lefts.old) }
{
    if let Some((top, around)) = frames.split_last_mut() {
        if top.has_left() {
            advance_under(around, lefts, left);
        } else {
            advance(around, lefts, left);
        }
    }
}

/// Puts a part into the innermost of these frames, where it is a container, around another whose rest is the innermost.
fn advance_under(frames: &mut [Frame], lefts: &mut [Left], left: Option<usize>)
    ensures frames { reverse frames.new ≡ on_top advanced (reverse frames.old) }
    ensures lefts { reverse lefts.new ≡ under_top (lefts_after left (reverse frames.old)) (reverse lefts.old) }
{
    match lefts.split_last_mut() {
        None => {
            let _ = advance_frame(frames);
        }
        Some((_innermost, around)) => advance(frames, around, left),
    }
}

/// Takes off what is still to come of the innermost frame, where that is kept.
#[inline(always)]
pub(crate) fn take_left(lefts: &mut Vec<Left>, has_left: bool)
    ensures { reverse lefts.new.items ≡ below_if has_left (reverse lefts.old.items) }
{
    if has_left {
        let _ = lefts.pop();
    }
}
