//! The calls of nodes.

ghost use Rattle.std.specs.Prelude.{◌≡◌, ◌≢◌, ◌∷◌, [], true, false, ◌+◌, ◌^◌, ◌<◌, ◌≤◌, length, take, drop, pos, negsuc, Some, None, IfSome};
ghost use Rattle.sval_label.specs.Calls as call;
ghost use Rattle.sval_core.specs.Law.{Emits};
ghost use Rattle.sval_core.specs.Values.{makes};
ghost use Rattle.sval_cbor_read.specs.Items.{negative_type, big_endian};
ghost use Rattle.sval_cbor_read.specs.Reading.{mark_of, first_step, item_step, body_step, string_step, number_call};
ghost use Rattle.sval_cbor_read.specs.SeenNodes.{item_place_begins, item_place_ends, byte_string, step_calls, piece_calls, IsBignum, IsTextAt, map_key_calls, item_begins_before, node_own_calls, item_ends_behind, node_offset, cbor_node_calls, NodeStands, NodesStand, streamed_items};

use crate::bignum::read_bignum;
use crate::head::{Head, read_head, short_text_head};
use crate::node::{Kind, Node, Place};
use std::str::from_utf8_unchecked;
use sval_core::{Lending, Lent, Result, Stream};

impl Place {
    /// Begins the part that holds an item in this place.
    #[inline(always)]
    fn begin<L: Lending, S: Stream<L>>(self, stream: &mut S) -> Result
        ensures { Emits S.law result
            (S.standing stream.old) (makes (item_place_begins self)) (S.standing stream.new) }
    {
        match self {
            Place::Alone => Ok(()),
            Place::Item => stream.seq_value_begin(),
            Place::Key => stream.map_key_begin(),
            Place::Value => stream.map_value_begin(),
        }
    }

    /// Ends the part that holds an item in this place.
    #[inline(always)]
    fn end<L: Lending, S: Stream<L>>(self, stream: &mut S) -> Result
        ensures { Emits S.law result
            (S.standing stream.old) (makes (item_place_ends self)) (S.standing stream.new) }
    {
        match self {
            Place::Alone => Ok(()),
            Place::Item => stream.seq_value_end(),
            Place::Key => stream.map_key_end(),
            Place::Value => stream.map_value_end(),
        }
    }
}

/// Makes the calls of a byte string in one fragment.
#[inline(always)]
fn stream_binary<L: Lending, S: Stream<L>>(bytes: L::Bytes, len: usize, stream: &mut S) -> Result
    ensures { Emits S.law result (S.standing stream.old)
        (makes (call.BinaryBegin (Some len) ∷ call.BinaryFragment true (L.bytes bytes) ∷ call.BinaryEnd ∷ []))
        (S.standing stream.new) }
{
    stream.binary_begin(Some(len))?;
    stream.binary_fragment(bytes)?;
    stream.binary_end()
}

/// Makes the call of the number -1 - `n`, in 64 bits where it has no more.
#[inline(always)]
fn stream_negative<L: Lending, S: Stream<L>>(n: u64, stream: &mut S) -> Result
    ensures { Emits S.law result (S.standing stream.old)
        (makes (call.Int (negative_type n) (negsuc n) ∷ [])) (S.standing stream.new) }
{
    if n < 1 << 63 {
        stream.i64(-1 - n as i64)
    } else {
        stream.i128(-1 - n as i128)
    }
}

/// Whether a byte begins an item of indefinite length, or is `false`, `true` or null.
#[inline(always)]
pub(crate) fn is_mark(first: u8) -> bool
    ensures mark { result ≡ true → mark_of first ≢ None }
    ensures none { result ≡ false → mark_of first ≡ None }
{
    matches!(first, 0x5f | 0x7f | 0x9f | 0xbf | 0xf4 | 0xf5 | 0xf6)
}

/// Makes the call of a byte that begins an item of indefinite length, or is `false`, `true` or null. Another byte has
/// none.
#[inline(always)]
fn stream_mark<L: Lending, S: Stream<L>>(first: u8, stream: &mut S) -> Result
    ensures { Emits S.law result (S.standing stream.old)
        (makes (step_calls (first_step (mark_of first) [] None []))) (S.standing stream.new) }
{
    match first {
        0x5f => stream.binary_begin(None),
        0x7f => stream.text_begin(None),
        0x9f => stream.seq_begin(None),
        0xbf => stream.map_begin(None),
        0xf4 => stream.bool(false),
        0xf5 => stream.bool(true),
        0xf6 => stream.null(),
        _ => Ok(()),
    }
}

/// The bytes behind a head, as many as its number says.
#[inline(always)]
pub(crate) fn content_behind(bytes: &[u8], head: Head) -> &[u8]
    requires { head.next + head.number ≤ length bytes.now }
    ensures { result.now ≡ take head.number (drop head.next bytes.now) }
{
    &bytes[head.next..head.next + head.number as usize]
}

/// Makes the calls of the byte string behind a head.
#[inline(always)]
fn stream_binary_behind<'v, S: Stream<Lent<'v>>>(
    bytes: &'v [u8],
    head: Head,
    stream: &mut S,
) -> Result
    requires within { head.next ≤ length bytes.now }
    requires some { 0 < length (step_calls (string_step 2 head.number (drop head.next bytes.now) [])) }
    ensures { Emits S.law result (S.standing stream.old)
        (makes (step_calls (string_step 2 head.number (drop head.next bytes.now) []))) (S.standing stream.new) }
{
    let content = content_behind(bytes, head);
    stream_binary::<Lent<'v>, S>(content, head.number as usize, stream)
}

/// Makes the calls of the text behind a head.
#[inline(always)]
fn stream_text_behind<'v, S: Stream<Lent<'v>>>(
    bytes: &'v [u8],
    head: Head,
    stream: &mut S,
) -> Result
    requires within { head.next ≤ length bytes.now }
    requires some { 0 < length (step_calls (string_step 3 head.number (drop head.next bytes.now) [])) }
    ensures { Emits S.law result (S.standing stream.old)
        (makes (step_calls (string_step 3 head.number (drop head.next bytes.now) []))) (S.standing stream.new) }
{
    let content = unsafe { from_utf8_unchecked(content_behind(bytes, head)) };
    stream.whole_text(content, Some(head.number as usize))
}

/// Makes the calls with which the item of a head begins.
#[inline(always)]
fn stream_headed<'v, S: Stream<Lent<'v>>>(bytes: &'v [u8], head: Head, stream: &mut S) -> Result
    requires within { head.next ≤ length bytes.now }
    requires some { 0 < length (step_calls (body_step head.major head.number (drop head.next bytes.now) [])) }
    ensures { Emits S.law result (S.standing stream.old)
        (makes (step_calls (body_step head.major head.number (drop head.next bytes.now) []))) (S.standing stream.new) }
{
    match head.major {
        0 => stream.u64(head.number),
        1 => stream_negative(head.number, stream),
        2 => stream_binary_behind(bytes, head, stream),
        3 => stream_text_behind(bytes, head, stream),
        4 => stream.seq_begin(Some(head.number as usize)),
        5 => stream.map_begin(Some(head.number as usize)),
        _ => Ok(()),
    }
}

/// Makes the calls with which the item at a place begins.
#[inline(always)]
fn stream_item<'v, S: Stream<Lent<'v>>>(bytes: &'v [u8], at: usize, stream: &mut S) -> Result
    requires within { at < length bytes.now }
    requires some { 0 < length (step_calls (item_step (drop at bytes.now) [])) }
    ensures { Emits S.law result (S.standing stream.old)
        (makes (step_calls (item_step (drop at bytes.now) []))) (S.standing stream.new) }
{
    if let Some(head) = short_text_head(bytes, at) {
        return stream_text_behind(bytes, head, stream);
    }
    if is_mark(bytes[at]) {
        return stream_mark(bytes[at], stream);
    }
    match read_head(bytes, at) {
        None => Ok(()),
        Some(head) => stream_headed(bytes, head, stream),
    }
}

/// The head of the definite text at a place, if there is one.
#[inline(always)]
fn text_head(bytes: &[u8], at: usize) -> Option<Head>
    requires { at < length bytes.now }
    ensures { IfSome result (λ head. IsTextAt bytes.now at head) }
{
    if let Some(head) = short_text_head(bytes, at) {
        return Some(head);
    }
    if is_mark(bytes[at]) {
        return None;
    }
    match read_head(bytes, at) {
        Some(head) if head.major == 3 => Some(head),
        _ => None,
    }
}

/// Makes the calls of a key that is the text behind a head.
#[inline(always)]
fn stream_text_key<'v, S: Stream<Lent<'v>>>(bytes: &'v [u8], head: Head, stream: &mut S) -> Result
    requires within { head.next ≤ length bytes.now }
    requires some { 0 < length (step_calls (string_step 3 head.number (drop head.next bytes.now) [])) }
    ensures { Emits S.law result (S.standing stream.old)
        (makes (map_key_calls (step_calls (string_step 3 head.number (drop head.next bytes.now) []))))
        (S.standing stream.new) }
{
    let content = unsafe { from_utf8_unchecked(content_behind(bytes, head)) };
    stream.whole_text_key(content, Some(head.number as usize))
}

/// The number under the tag 2 with the byte string at a place.
pub(crate) fn big_at(bytes: &[u8], at: usize) -> u128
    requires { IsBignum 2 (drop at bytes.now) }
    ensures { call.Int call.U128 (pos result) ≡ number_call 2 (byte_string (drop at bytes.now)) }
{
    match read_bignum(bytes, at) {
        None => 0,
        Some(bignum) => bignum.number,
    }
}

/// The number -1 - `n`.
pub(crate) fn negative_of(n: u128) -> i128
    requires { n < 2 ^ 127 }
    ensures { result ≡ negsuc n }
{
    -1 - n as i128
}

/// The number n of the byte string under the tag 3 at a place. The item is -1 - n.
pub(crate) fn negative_big_at(bytes: &[u8], at: usize) -> u128
    requires { IsBignum 3 (drop at bytes.now) }
    ensures value { result ≡ big_endian (byte_string (drop at bytes.now)) }
    ensures small { result < 2 ^ 127 }
{
    match read_bignum(bytes, at) {
        None => 0,
        Some(bignum) => bignum.number,
    }
}

/// Makes the call of a chunk of a text at a place.
fn stream_text_piece<'v, S: Stream<Lent<'v>>>(bytes: &'v [u8], at: usize, stream: &mut S) -> Result
    requires { 0 < length (piece_calls 3 (drop at bytes.now)) }
    ensures { Emits S.law result (S.standing stream.old)
        (makes (piece_calls 3 (drop at bytes.now))) (S.standing stream.new) }
{
    match read_head(bytes, at) {
        None => Ok(()),
        Some(head) => {
            stream.text_fragment(unsafe { from_utf8_unchecked(content_behind(bytes, head)) })
        },
    }
}

/// Makes the call of the piece of a byte string at a place.
fn stream_binary_piece<'v, S: Stream<Lent<'v>>>(
    bytes: &'v [u8],
    at: usize,
    stream: &mut S,
) -> Result
    requires { 0 < length (piece_calls 2 (drop at bytes.now)) }
    ensures { Emits S.law result (S.standing stream.old)
        (makes (piece_calls 2 (drop at bytes.now))) (S.standing stream.new) }
{
    match read_head(bytes, at) {
        None => Ok(()),
        Some(head) => stream.binary_fragment(content_behind(bytes, head)),
    }
}

impl Node {
    /// Begins the part that holds this node, if it is the first node of an item.
    #[inline(always)]
    fn begin<L: Lending, S: Stream<L>>(self, stream: &mut S) -> Result
        ensures { Emits S.law result (S.standing stream.old)
            (makes (item_begins_before self.kind self.place)) (S.standing stream.new) }
    {
        match self.kind {
            Kind::Item | Kind::Big | Kind::NegativeBig | Kind::Begin => self.place.begin(stream),
            Kind::TextPiece
            | Kind::BinaryPiece
            | Kind::EndText
            | Kind::EndBinary
            | Kind::EndSeq
            | Kind::EndMap => Ok(()),
        }
    }

    /// Makes the node's own calls, from the bytes of the document.
    #[inline(always)]
    pub(crate) fn make<'v, S: Stream<Lent<'v>>>(self, bytes: &'v [u8], stream: &mut S) -> Result
        requires { NodeStands bytes.now self }
        ensures { Emits S.law result (S.standing stream.old)
            (makes (node_own_calls self.kind (drop (node_offset self) bytes.now))) (S.standing stream.new) }
    {
        match self.kind {
            Kind::Item | Kind::Begin => stream_item(bytes, self.at(), stream),
            Kind::Big => stream.u128(big_at(bytes, self.at())),
            Kind::NegativeBig => stream.i128(negative_of(negative_big_at(bytes, self.at()))),
            Kind::TextPiece => stream_text_piece(bytes, self.at(), stream),
            Kind::BinaryPiece => stream_binary_piece(bytes, self.at(), stream),
            Kind::EndText => stream.text_end(),
            Kind::EndBinary => stream.binary_end(),
            Kind::EndSeq => stream.seq_end(),
            Kind::EndMap => stream.map_end(),
        }
    }

    /// Ends the part that holds this node, if it is the last node of an item.
    #[inline(always)]
    fn end<L: Lending, S: Stream<L>>(self, stream: &mut S) -> Result
        ensures { Emits S.law result (S.standing stream.old)
            (makes (item_ends_behind self.kind self.place)) (S.standing stream.new) }
    {
        match self.kind {
            Kind::Begin | Kind::TextPiece | Kind::BinaryPiece => Ok(()),
            Kind::Item
            | Kind::Big
            | Kind::NegativeBig
            | Kind::EndText
            | Kind::EndBinary
            | Kind::EndSeq
            | Kind::EndMap => self.place.end(stream),
        }
    }

    /// Makes the node's calls, from the bytes of the document.
    #[inline(always)]
    pub(crate) fn stream<'v, S: Stream<Lent<'v>>>(self, bytes: &'v [u8], stream: &mut S) -> Result
        requires { NodeStands bytes.now self }
        ensures { Emits S.law result (S.standing stream.old)
            (makes (cbor_node_calls bytes.now self)) (S.standing stream.new) }
    {
        if let (Kind::Item, Place::Key) = (self.kind, self.place) {
            if let Some(head) = text_head(bytes, self.at()) {
                return stream_text_key(bytes, head, stream);
            }
        }
        self.begin(stream)?;
        self.make(bytes, stream)?;
        self.end(stream)
    }
}

/// Makes the calls of nodes, from the bytes of the document.
pub(crate) fn stream_nodes<'v, S: Stream<Lent<'v>>>(
    bytes: &'v [u8],
    nodes: &[Node],
    stream: &mut S,
) -> Result
    requires { NodesStand bytes.now nodes.now }
    ensures { Emits S.law result (S.standing stream.old)
        (makes (streamed_items bytes.now nodes.now)) (S.standing stream.new) }
{
    for node in nodes {
        node.stream(bytes, stream)?;
    }
    Ok(())
}
