//! Well-formed items of CBOR (RFC 8949, section 3 and appendix C), whatever they mean.

ghost use Rattle.std.specs.Prelude.{◌≡◌, ◌<◌, ◌≤◌, ◌⊎◌, length, drop, get_or, IfOk, IfErr};
ghost use Rattle.sval_cbor_read.specs.Items.{head_at_front};
ghost use Rattle.sval_cbor_read.specs.SeenHeads.{IsHead};
ghost use Rattle.sval_cbor_read.specs.SeenWellFormed.{EndsAt, BeginsChunksOf, FrontIs, IsNextIn, ComesBehind, IsDueAt, GoesOn, WellFormedUpTo};
ghost use Rattle.sval_cbor_read.specs.WellFormed.{IsStringOf, AreChunksOf, HoldsItems};

use crate::head::{Head, read_head};
use crate::part::{NextPart, next_part};
use crate::stack::{Frame, Stack};
use crate::string::binary_behind;
use std::alloc::Global;
use sval_core::NoMemory;

/// What a well-formed item begins with, and the place behind that.
#[derive(Clone, Copy)]
enum Front {
    /// A whole item.
    Whole(usize),
    /// A tag.
    Tag(usize),
    /// The head of an array or a map, and what is to come in it.
    Opens(Frame, usize),
}

/// What comes next in an array or a map.
#[derive(Clone, Copy)]
enum InFrame {
    /// An item, and what is to come behind it.
    Item(Frame),
    /// The end, and the place behind it.
    End(usize),
    /// Neither.
    Nothing,
}

/// What comes behind an item.
#[derive(Clone, Copy)]
enum Behind {
    /// Another item, at this place.
    Item(usize),
    /// The end of all that is open, and the place behind it.
    End(usize),
    /// Neither.
    Nothing,
}

/// The place behind the definite string of this major type that begins at `at`.
fn string_end(bytes: &[u8], at: usize, major: u8) -> Option<usize>
    requires { at ≤ length bytes.now }
    ensures { EndsAt (IsStringOf major) bytes.now at result }
{
    match read_head(bytes, at) {
        None => None,
        Some(head) => if head.major == major {
            match binary_behind(bytes, head) {
                None => None,
                Some(piece) => Some(piece.next),
            }
        } else {
            None
        },
    }
}

/// The place behind the break that ends the chunks of this major type from `from` on.
fn chunks_end(bytes: &[u8], from: usize, major: u8) -> Option<usize>
    requires { from ≤ length bytes.now }
    ensures { EndsAt (AreChunksOf major) bytes.now from result }
{
    let mut at = from;
    while at < bytes.len() {
        if bytes[at] == 0xff {
            return Some(at + 1);
        }
        match string_end(bytes, at, major) {
            None => return None,
            Some(next) => at = next,
        }
    }
    None
}

/// The string of this major type that begins at `at`.
fn string_front(bytes: &[u8], at: usize, head: Head) -> Option<Front>
    requires within { at ≤ length bytes.now }
    requires is { IsHead bytes.now at head (head_at_front (drop at bytes.now)) }
    requires string { (head.major ≡ 2) ⊎ (head.major ≡ 3) }
    ensures { FrontIs bytes.now at result }
{
    match string_end(bytes, at, head.major) {
        None => None,
        Some(next) => Some(Front::Whole(next)),
    }
}

/// The simple value or the float that begins with this head at `at`.
fn simple_front(bytes: &[u8], at: usize, head: Head) -> Option<Front>
    requires within { at < length bytes.now }
    requires is { (at < head.next) × IsHead bytes.now at head (head_at_front (drop at bytes.now)) }
    requires major { head.major ≡ 7 }
    ensures { FrontIs bytes.now at result }
{
    if bytes[at] == 0xf8 && head.number < 32 {
        return None;
    }
    Some(Front::Whole(head.next))
}

/// What begins with this head at `at`.
fn headed_front(bytes: &[u8], at: usize, head: Head) -> Option<Front>
    requires within { at < length bytes.now }
    requires is { (at < head.next) × IsHead bytes.now at head (head_at_front (drop at bytes.now)) }
    ensures { FrontIs bytes.now at result }
{
    let next = head.next;
    match head.major {
        0 => Some(Front::Whole(next)),
        1 => Some(Front::Whole(next)),
        2 => string_front(bytes, at, head),
        3 => string_front(bytes, at, head),
        4 => Some(Front::Opens(Frame::Items(Some(head.number as usize)), next)),
        5 => Some(Front::Opens(Frame::Keys(Some(head.number as usize)), next)),
        6 => Some(Front::Tag(next)),
        7 => simple_front(bytes, at, head),
        _ => None,
    }
}

/// The string in chunks of this major type whose chunks begin behind `at`.
fn chunked_front(bytes: &[u8], at: usize, major: u8) -> Option<Front>
    requires within { at < length bytes.now }
    requires first { BeginsChunksOf (get_or bytes.now at 0) major }
    ensures { FrontIs bytes.now at result }
{
    match chunks_end(bytes, at + 1, major) {
        None => None,
        Some(next) => Some(Front::Whole(next)),
    }
}

/// What a well-formed item begins with at a place.
fn front_at(bytes: &[u8], at: usize) -> Option<Front>
    requires { at ≤ length bytes.now }
    ensures { FrontIs bytes.now at result }
{
    if at >= bytes.len() {
        return None;
    }
    match bytes[at] {
        0x5f => chunked_front(bytes, at, 2),
        0x7f => chunked_front(bytes, at, 3),
        0x9f => Some(Front::Opens(Frame::Items(None), at + 1)),
        0xbf => Some(Front::Opens(Frame::Keys(None), at + 1)),
        _ => match read_head(bytes, at) {
            None => None,
            Some(head) => headed_front(bytes, at, head),
        },
    }
}

/// What comes at a place in the innermost array or map.
fn next_in(frame: Frame, bytes: &[u8], at: usize) -> InFrame
    requires { at ≤ length bytes.now }
    ensures { IsNextIn frame bytes.now at result }
{
    match frame {
        Frame::Items(left) => match next_part(left, bytes, at) {
            NextPart::Another(left) => InFrame::Item(Frame::Items(left)),
            NextPart::End(next) => InFrame::End(next),
            NextPart::Nothing => InFrame::Nothing,
        },
        Frame::Keys(left) => match next_part(left, bytes, at) {
            NextPart::Another(left) => InFrame::Item(Frame::Values(left)),
            NextPart::End(next) => InFrame::End(next),
            NextPart::Nothing => InFrame::Nothing,
        },
        Frame::Values(left) => InFrame::Item(Frame::Keys(left)),
    }
}

/// What comes behind an item that ends at `from`. Each array and map that has ended is closed.
fn behind_item(opened: &mut Stack, bytes: &[u8], from: usize) -> Behind
    requires { from ≤ length bytes.now }
    ensures { ComesBehind bytes.now opened.old from opened.new result }
{
    let mut at = from;
    while let Some(frame) = opened.top() {
        match next_in(frame, bytes, at) {
            InFrame::Item(behind) => {
                opened.change(behind);
                return Behind::Item(at);
            },
            InFrame::End(next) => {
                opened.pop();
                at = next;
            },
            InFrame::Nothing => return Behind::Nothing,
        }
    }
    Behind::End(at)
}

/// Reads what the item at a place begins with, and says what comes behind that.
fn step(opened: &mut Stack, bytes: &[u8], at: usize) -> Result<Behind, NoMemory>
    requires { IsDueAt bytes.now opened.old at }
    ensures goes { IfOk result (GoesOn bytes.now at opened.new) }
    ensures no_memory { IfErr result (λ error. HoldsItems bytes.now) }
{
    match front_at(bytes, at) {
        None => Ok(Behind::Nothing),
        Some(Front::Whole(next)) => Ok(behind_item(opened, bytes, next)),
        Some(Front::Tag(next)) => Ok(Behind::Item(next)),
        Some(Front::Opens(frame, next)) => {
            opened.push(frame)?;
            Ok(behind_item(opened, bytes, next))
        },
    }
}

/// The place behind the well-formed item with which the bytes begin, if they begin with one. What is open is kept on a
/// stack, so nothing recurses.
#[cold]
pub(crate) fn well_formed_end(alloc: Global, bytes: &[u8]) -> Result<Option<usize>, NoMemory>
    ensures found { IfOk result (WellFormedUpTo bytes.now) }
    ensures no_memory { IfErr result (λ error. HoldsItems bytes.now) }
{
    let mut opened = Stack::new(alloc);
    let mut at = 0;
    loop {
        match step(&mut opened, bytes, at)? {
            Behind::Item(next) => at = next,
            Behind::End(end) => return Ok(Some(end)),
            Behind::Nothing => return Ok(None),
        }
    }
}
