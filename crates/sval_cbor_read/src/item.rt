//! What begins at a place of the bytes.

ghost use Rattle.std.specs.Prelude.{◌≡◌, ◌≤◌, length, IfSome};
ghost use Rattle.sval_cbor_read.specs.Reading.{mark_of};
ghost use Rattle.sval_cbor_read.specs.SeenItems.{IsMarked, Begins, BeginsBehind, BeginsNothing, BeginsNothingBehind};

use crate::bignum::read_bignum;
use crate::head::{Head, read_head, short_text_head};
use crate::stack::Frame;
use crate::string::{binary_behind, text_behind};

/// What a string of indefinite length holds.
#[derive(Clone, Copy)]
pub(crate) enum Medium {
    Text,
    Binary,
}

/// What an item begins with.
#[derive(Clone, Copy)]
pub(crate) enum Item {
    /// A whole item.
    Whole,
    /// A number under the tag 2, with its byte string at this place.
    Big(usize),
    /// A number under the tag 3, with its byte string at this place.
    NegativeBig(usize),
    /// An array or a map begins.
    Container(Frame),
    /// A string of indefinite length begins.
    Pieces(Medium),
    /// A tag that is passed over.
    Tag,
}

/// What an item begins with, and the place behind that.
#[derive(Clone, Copy)]
pub(crate) struct Begun {
    pub(crate) item: Item,
    pub(crate) next: usize,
}

/// The byte string behind a head.
#[inline(always)]
fn binary_item(bytes: &[u8], head: Head) -> Option<Begun>
    requires within { head.next ≤ length bytes.now }
    requires is { head.major ≡ 2 }
    ensures found { IfSome result (λ begun. BeginsBehind bytes.now head begun) }
    ensures nothing { result ≡ None → BeginsNothingBehind bytes.now head }
{
    match binary_behind(bytes, head) {
        None => None,
        Some(piece) => Some(Begun {
            item: Item::Whole,
            next: piece.next,
        }),
    }
}

/// The text behind a head.
#[inline(always)]
fn text_item(bytes: &[u8], head: Head) -> Option<Begun>
    requires within { head.next ≤ length bytes.now }
    requires is { head.major ≡ 3 }
    ensures found { IfSome result (λ begun. BeginsBehind bytes.now head begun) }
    ensures nothing { result ≡ None → BeginsNothingBehind bytes.now head }
{
    match text_behind(bytes, head) {
        None => None,
        Some(piece) => Some(Begun {
            item: Item::Whole,
            next: piece.next,
        }),
    }
}

/// The number under the tag 2.
fn big_item(bytes: &[u8], head: Head) -> Option<Begun>
    requires within { head.next ≤ length bytes.now }
    requires is { head.major ≡ 6 }
    requires tag { head.number ≡ 2 }
    ensures found { IfSome result (λ begun. BeginsBehind bytes.now head begun) }
    ensures nothing { result ≡ None → BeginsNothingBehind bytes.now head }
{
    match read_bignum(bytes, head.next) {
        None => None,
        Some(bignum) => Some(Begun {
            item: Item::Big(head.next),
            next: bignum.next,
        }),
    }
}

/// The number under the tag 3.
fn negative_big_item(bytes: &[u8], head: Head) -> Option<Begun>
    requires within { head.next ≤ length bytes.now }
    requires is { head.major ≡ 6 }
    requires tag { head.number ≡ 3 }
    ensures found { IfSome result (λ begun. BeginsBehind bytes.now head begun) }
    ensures nothing { result ≡ None → BeginsNothingBehind bytes.now head }
{
    match read_bignum(bytes, head.next) {
        None => None,
        Some(bignum) => if bignum.number < 1 << 127 {
            Some(Begun {
                item: Item::NegativeBig(head.next),
                next: bignum.next,
            })
        } else {
            None
        },
    }
}

/// A number under one of the two tags of numbers, or another tag, which is passed over.
fn tagged_item(bytes: &[u8], head: Head) -> Option<Begun>
    requires within { head.next ≤ length bytes.now }
    requires is { head.major ≡ 6 }
    ensures found { IfSome result (λ begun. BeginsBehind bytes.now head begun) }
    ensures nothing { result ≡ None → BeginsNothingBehind bytes.now head }
{
    match head.number {
        2 => big_item(bytes, head),
        3 => negative_big_item(bytes, head),
        _ => Some(Begun {
            item: Item::Tag,
            next: head.next,
        }),
    }
}

/// The item that begins with a head.
#[inline(always)]
fn headed_item(bytes: &[u8], head: Head) -> Option<Begun>
    requires { head.next ≤ length bytes.now }
    ensures found { IfSome result (λ begun. BeginsBehind bytes.now head begun) }
    ensures nothing { result ≡ None → BeginsNothingBehind bytes.now head }
{
    let next = head.next;
    match head.major {
        0 => Some(Begun {
            item: Item::Whole,
            next,
        }),
        1 => Some(Begun {
            item: Item::Whole,
            next,
        }),
        2 => binary_item(bytes, head),
        3 => text_item(bytes, head),
        4 => Some(Begun {
            item: Item::Container(Frame::Items(Some(head.number as usize))),
            next,
        }),
        5 => Some(Begun {
            item: Item::Container(Frame::Keys(Some(head.number as usize))),
            next,
        }),
        6 => tagged_item(bytes, head),
        _ => None,
    }
}

/// The item that one byte begins by itself: what a break ends, or a simple value.
#[inline(always)]
fn marked_item(first: u8) -> Option<Item>
    ensures found { IfSome result (λ item. IsMarked first item) }
    ensures nothing { result ≡ None → mark_of first ≡ None }
{
    match first {
        0x5f => Some(Item::Pieces(Medium::Binary)),
        0x7f => Some(Item::Pieces(Medium::Text)),
        0x9f => Some(Item::Container(Frame::Items(None))),
        0xbf => Some(Item::Container(Frame::Keys(None))),
        0xf4 => Some(Item::Whole),
        0xf5 => Some(Item::Whole),
        0xf6 => Some(Item::Whole),
        _ => None,
    }
}

/// The item that begins at a place of the bytes.
#[inline(always)]
pub(crate) fn item_at(bytes: &[u8], at: usize) -> Option<Begun>
    requires { at ≤ length bytes.now }
    ensures found { IfSome result (λ begun. Begins bytes.now at begun) }
    ensures nothing { result ≡ None → BeginsNothing bytes.now at }
{
    if at >= bytes.len() {
        return None;
    }
    if let Some(head) = short_text_head(bytes, at) {
        return text_item(bytes, head);
    }
    match marked_item(bytes[at]) {
        Some(item) => Some(Begun { item, next: at + 1 }),
        None => match read_head(bytes, at) {
            None => None,
            Some(head) => headed_item(bytes, head),
        },
    }
}
