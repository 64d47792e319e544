//! What an item is, by the bytes at its first node.

ghost use Rattle.std.specs.Prelude.{◌≡◌, ◌≢◌, [], ◌∷◌, ◌<◌, ◌≤◌, length, take, drop, true, None, IfSome};
ghost use Rattle.sval_cbor_read.specs.Reading.{mark_of, first_step, item_step, body_step, string_step, number_call};
ghost use Rattle.sval_cbor_read.specs.SeenNodes.{byte_string, step_calls, node_own_calls, node_offset, IsBignum, NodeStands};
ghost use Rattle.sval_cbor_read.specs.NodeSpans.{is_first};
ghost use Rattle.sval_cbor_read.specs.SeenFound.{AreFound, AreOfItem, found_value, level_behind, value_at};

use crate::head::{Head, read_head};
use crate::node::{Kind, Node};
use crate::node_calls::{big_at, content_behind, negative_big_at};
use std::str::from_utf8_unchecked;

/// What an item is. Strings in one chunk are lent.
#[derive(Clone, Copy)]
pub(crate) enum Found<'d> {
    Null,
    Bool(bool),
    Unsigned(u128),
    /// The number -1 - n.
    Negative(u128),
    Text(&'d str),
    Bytes(&'d [u8]),
    /// A text whose chunks follow.
    TextChunks,
    /// A byte string whose chunks follow.
    ByteChunks,
    Array,
    Map,
}

/// The text behind a head.
fn text_behind_head<'d>(bytes: &'d [u8], head: Head) -> &'d str
    requires within { head.next ≤ length bytes.now }
    requires some { 0 < length (step_calls (string_step 3 head.number (drop head.next bytes.now) [])) }
    ensures { result.now ≡ take head.number (drop head.next bytes.now) }
{
    unsafe { from_utf8_unchecked(content_behind(bytes, head)) }
}

/// The byte string behind a head.
fn binary_behind_head<'d>(bytes: &'d [u8], head: Head) -> &'d [u8]
    requires within { head.next ≤ length bytes.now }
    requires some { 0 < length (step_calls (string_step 2 head.number (drop head.next bytes.now) [])) }
    ensures { result.now ≡ take head.number (drop head.next bytes.now) }
{
    content_behind(bytes, head)
}

/// What the item is that one byte begins by itself: what a break ends, or a simple value.
fn marked_found<'d>(first: u8) -> Option<Found<'d>>
    ensures found { IfSome result (AreFound (step_calls (first_step (mark_of first) [] None []))) }
    ensures mark { IfSome result (λ found. mark_of first ≢ None) }
    ensures nothing { result ≡ None → mark_of first ≡ None }
{
    match first {
        0x5f => Some(Found::ByteChunks),
        0x7f => Some(Found::TextChunks),
        0x9f => Some(Found::Array),
        0xbf => Some(Found::Map),
        0xf4 => Some(Found::Bool(false)),
        0xf5 => Some(Found::Bool(true)),
        0xf6 => Some(Found::Null),
        _ => None,
    }
}

/// What the item of a head is.
fn headed_found<'d>(bytes: &'d [u8], head: Head) -> Found<'d>
    requires within { head.next ≤ length bytes.now }
    requires some { 0 < length (step_calls (body_step head.major head.number (drop head.next bytes.now) [])) }
    ensures { AreFound (step_calls (body_step head.major head.number (drop head.next bytes.now) [])) result }
{
    match head.major {
        0 => Found::Unsigned(head.number as u128),
        1 => Found::Negative(head.number as u128),
        2 => Found::Bytes(binary_behind_head(bytes, head)),
        3 => Found::Text(text_behind_head(bytes, head)),
        4 => Found::Array,
        5 => Found::Map,
        _ => Found::Null,
    }
}

/// What the item is that begins at a place.
fn item_found<'d>(bytes: &'d [u8], at: usize) -> Found<'d>
    requires within { at < length bytes.now }
    requires some { 0 < length (step_calls (item_step (drop at bytes.now) [])) }
    ensures { AreFound (step_calls (item_step (drop at bytes.now) [])) result }
{
    match marked_found(bytes[at]) {
        Some(found) => found,
        None => match read_head(bytes, at) {
            None => Found::Null,
            Some(head) => headed_found(bytes, head),
        },
    }
}

/// The number under the tag 2 with the byte string at a place.
fn big_found<'d>(bytes: &'d [u8], at: usize) -> Found<'d>
    requires { IsBignum 2 (drop at bytes.now) }
    ensures { AreFound (number_call 2 (byte_string (drop at bytes.now)) ∷ []) result }
{
    Found::Unsigned(big_at(bytes, at))
}

/// The number under the tag 3 with the byte string at a place.
fn negative_big_found<'d>(bytes: &'d [u8], at: usize) -> Found<'d>
    requires { IsBignum 3 (drop at bytes.now) }
    ensures { AreFound (number_call 3 (byte_string (drop at bytes.now)) ∷ []) result }
{
    Found::Negative(negative_big_at(bytes, at))
}

/// What the item of its first node is.
pub(crate) fn node_found<'d>(bytes: &'d [u8], node: Node) -> Found<'d>
    requires stands { NodeStands bytes.now node }
    requires first { is_first node.kind ≡ true }
    ensures { AreFound (node_own_calls node.kind (drop (node_offset node) bytes.now)) result }
{
    match node.kind {
        Kind::Item => item_found(bytes, node.at()),
        Kind::Begin => item_found(bytes, node.at()),
        Kind::Big => big_found(bytes, node.at()),
        Kind::NegativeBig => negative_big_found(bytes, node.at()),
        _ => Found::Null,
    }
}

/// What the first item of some nodes is.
pub(crate) fn first_found<'d>(bytes: &'d [u8], nodes: &[Node]) -> Found<'d>
    requires { AreOfItem bytes.now nodes.now }
    ensures { value_at bytes.now nodes.now ≡ found_value result (level_behind bytes.now nodes.now) }
{
    node_found(bytes, nodes[0])
}
