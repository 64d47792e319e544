//! The JSON of an item (RFC 8259), written as the item is read.
//!
//! It goes by the commonest items, and gives up at any other. It makes no calls and keeps no nodes: each head is read
//! once. What is written goes into memory, since the bytes may turn out to be no item.

ghost use Rattle.std.specs.Prelude.{◌≡◌, ◌+◌, ◌<◌, ◌≤◌, ◌++◌, IfSome, codes, drop, get_or, length};
ghost use Rattle.sval_json.specs.Json.{comma};
ghost use Rattle.sval_cbor_read.specs.Items.{head_at_front};
ghost use Rattle.sval_cbor_read.specs.ItemJson.{text_of, BodyAt, ItemAt, KeyAt, KeyBodyAt, NumberAt, PairAt, TextAt};
ghost use Rattle.sval_cbor_read.specs.JsonFronts.{IsJsonOfFront, IsJsonOfItem};
ghost use Rattle.sval_cbor_read.specs.SeenHeads.{IsHead};

mod written;

use crate::head::{Head, read_head, short_text_head};
use crate::item_json::written::Written;
use crate::string::{binary_behind, text_behind};
use itoa::Buffer;
use std::alloc::Global;

/// How many arrays and maps may be nested. A deeper item is left to its nodes, since each level takes room on the stack.
const LEVELS: usize = 64;

/// The digits of a whole number of 64 bits with its sign, or without one.
#[inline(always)]
fn number(head: Head, out: &mut Written) -> Option<()>
    requires room { length out.old.joined + 24 ≤ 256 }
    ensures written { IfSome result (λ done. NumberAt head (text_of out.old) (text_of out.new)) }
    ensures short { length out.new.joined ≤ length out.old.joined + 20 }
{
    match head.major {
        0 => {
            out.join(Buffer::new().format(head.number).as_bytes());
            Some(())
        },
        1 if head.number < 1 << 63 => {
            let number = -1 - head.number as i64;
            out.join(Buffer::new().format(number).as_bytes());
            Some(())
        },
        _ => None,
    }
}

/// The quote that opens a text, behind the comma that is due.
#[inline(always)]
fn opening_quote(is_first: bool) -> &'static [u8]
    ensures same { result.now ≡ comma is_first ++ codes "\"" }
    ensures short { length result.now ≤ 2 }
{
    if is_first { b"\"" } else { b",\"" }
}

/// The text behind a head, with the comma that is due and its quote, and then what closes it.
#[inline(always)]
fn text(
    is_first: bool,
    closing: &[u8],
    bytes: &[u8],
    head: Head,
    out: &mut Written,
) -> Option<usize>
    requires within { head.next ≤ length bytes.now }
    requires short { length closing.now ≤ 2 }
    requires room { length out.old.joined + 60 ≤ 256 }
    ensures { IfSome result (λ next. TextAt bytes.now head closing.now next
        (text_of out.old ++ comma is_first) (text_of out.new)) }
{
    out.join(opening_quote(is_first));
    if out.join_plain(bytes, head) {
        out.join(closing);
        return Some(head.next + head.number as usize);
    }
    let piece = text_behind(bytes, head)?;
    out.put_escaped(piece.content)?;
    out.join(closing);
    Some(piece.next)
}

/// The byte string behind a head, as an array of numbers.
#[inline(never)]
fn byte_string(bytes: &[u8], head: Head, out: &mut Written) -> Option<usize>
    requires is { head.major ≡ 2 }
    requires within { head.next ≤ length bytes.now }
    requires room { length out.old.joined + 60 ≤ 256 }
    ensures { IfSome result (λ next. BodyAt bytes.now head next (text_of out.old) (text_of out.new)) }
{
    let piece = binary_behind(bytes, head)?;
    out.join(b"[");
    for (index, byte) in piece.content.iter().enumerate() {
        out.make_room()?;
        out.join_comma(index == 0);
        out.join(Buffer::new().format(*byte).as_bytes());
    }
    out.make_room()?;
    out.join(b"]");
    Some(piece.next)
}

/// A key and its colon, with the comma that is due. That of a number is its digits, between quotes.
#[inline(always)]
fn key_body(is_first: bool, bytes: &[u8], head: Head, out: &mut Written) -> Option<usize>
    requires within { head.next ≤ length bytes.now }
    requires room { length out.old.joined + 64 ≤ 256 }
    ensures { IfSome result (λ next. KeyBodyAt bytes.now head next
        (text_of out.old ++ comma is_first) (text_of out.new)) }
{
    if head.major == 3 {
        return text(is_first, b"\":", bytes, head, out);
    }
    out.join(opening_quote(is_first));
    number(head, out)?;
    out.join(b"\":");
    Some(head.next)
}

/// The head at a place, if there is one. That of a short text is told sooner.
#[inline(always)]
fn head_at(bytes: &[u8], at: usize) -> Option<Head>
    ensures { IfSome result (λ h. (at < h.next) × IsHead bytes.now at h (head_at_front (drop at bytes.now))) }
{
    if at >= bytes.len() {
        return None;
    }
    match short_text_head(bytes, at) {
        Some(head) => Some(head),
        None => read_head(bytes, at),
    }
}

/// The key at a place and its colon, with the comma that is due.
#[inline(always)]
fn key(is_first: bool, bytes: &[u8], at: usize, out: &mut Written) -> Option<usize>
    ensures { IfSome result (λ next. KeyAt bytes.now at next
        (text_of out.old ++ comma is_first) (text_of out.new)) }
{
    out.make_room()?;
    let head = head_at(bytes, at)?;
    key_body(is_first, bytes, head, out)
}

/// The pair at a place, with the comma that is due.
#[inline(always)]
#[cycle(items)]
fn pair(is_first: bool, bytes: &[u8], at: usize, depth: usize, out: &mut Written) -> Option<usize>
    ensures { IfSome result (λ next. PairAt bytes.now at next
        (text_of out.old ++ comma is_first) (text_of out.new)) }
{
    let behind = key(is_first, bytes, at, out)?;
    item(true, bytes, behind, depth, out)
}

/// An array of a definite length, behind its head.
#[inline(never)]
#[cycle(items)]
fn array(bytes: &[u8], head: Head, depth: usize, out: &mut Written) -> Option<usize>
    requires is { head.major ≡ 4 }
    requires within { head.next ≤ length bytes.now }
    requires room { length out.old.joined + 60 ≤ 256 }
    ensures { IfSome result (λ next. BodyAt bytes.now head next (text_of out.old) (text_of out.new)) }
{
    if depth == 0 {
        return None;
    }
    out.join(b"[");
    let mut at = head.next;
    for index in 0..head.number {
        at = item(index == 0, bytes, at, depth - 1, out)?;
    }
    out.make_room()?;
    out.join(b"]");
    Some(at)
}

/// A map of a definite length, behind its head.
#[inline(never)]
#[cycle(items)]
fn map(bytes: &[u8], head: Head, depth: usize, out: &mut Written) -> Option<usize>
    requires is { head.major ≡ 5 }
    requires within { head.next ≤ length bytes.now }
    requires room { length out.old.joined + 60 ≤ 256 }
    ensures { IfSome result (λ next. BodyAt bytes.now head next (text_of out.old) (text_of out.new)) }
{
    if depth == 0 {
        return None;
    }
    out.join(b"{");
    let mut at = head.next;
    for index in 0..head.number {
        at = pair(index == 0, bytes, at, depth - 1, out)?;
    }
    out.make_room()?;
    out.join(b"}");
    Some(at)
}

/// The array at a place that a break ends.
#[inline(never)]
#[cycle(items)]
fn array_to_break(bytes: &[u8], from: usize, depth: usize, out: &mut Written) -> Option<usize>
    requires within { from < length bytes.now }
    requires is { get_or bytes.now from 0 ≡ 159 }
    requires room { length out.old.joined + 60 ≤ 256 }
    ensures { IfSome result (λ next. ItemAt bytes.now from next (text_of out.old) (text_of out.new)) }
{
    if depth == 0 {
        return None;
    }
    out.join(b"[");
    let mut at = from + 1;
    while *bytes.get(at)? != 0xff {
        at = item(at == from + 1, bytes, at, depth - 1, out)?;
    }
    out.make_room()?;
    out.join(b"]");
    Some(at + 1)
}

/// The map at a place that a break ends.
#[inline(never)]
#[cycle(items)]
fn map_to_break(bytes: &[u8], from: usize, depth: usize, out: &mut Written) -> Option<usize>
    requires within { from < length bytes.now }
    requires is { get_or bytes.now from 0 ≡ 191 }
    requires room { length out.old.joined + 60 ≤ 256 }
    ensures { IfSome result (λ next. ItemAt bytes.now from next (text_of out.old) (text_of out.new)) }
{
    if depth == 0 {
        return None;
    }
    out.join(b"{");
    let mut at = from + 1;
    while *bytes.get(at)? != 0xff {
        at = pair(at == from + 1, bytes, at, depth - 1, out)?;
    }
    out.make_room()?;
    out.join(b"}");
    Some(at + 1)
}

/// The item of a tag that is passed over.
#[inline(never)]
#[cycle(items)]
fn tagged(bytes: &[u8], head: Head, depth: usize, out: &mut Written) -> Option<usize>
    requires is { head.major ≡ 6 }
    requires within { head.next ≤ length bytes.now }
    ensures { IfSome result (λ next. BodyAt bytes.now head next (text_of out.old) (text_of out.new)) }
{
    if depth == 0 || head.number == 2 || head.number == 3 {
        return None;
    }
    item(true, bytes, head.next, depth - 1, out)
}

/// The item of a head.
#[inline(always)]
#[cycle(items)]
fn body(bytes: &[u8], head: Head, depth: usize, out: &mut Written) -> Option<usize>
    requires within { head.next ≤ length bytes.now }
    requires room { length out.old.joined + 60 ≤ 256 }
    ensures { IfSome result (λ next. BodyAt bytes.now head next (text_of out.old) (text_of out.new)) }
{
    match head.major {
        2 => byte_string(bytes, head, out),
        3 => text(true, b"\"", bytes, head, out),
        4 => array(bytes, head, depth, out),
        5 => map(bytes, head, depth, out),
        6 => tagged(bytes, head, depth, out),
        _ => {
            number(head, out)?;
            Some(head.next)
        },
    }
}

/// The item at a place, with the comma that is due.
#[inline(always)]
#[cycle(items)]
fn item(is_first: bool, bytes: &[u8], at: usize, depth: usize, out: &mut Written) -> Option<usize>
    ensures { IfSome result (λ next. ItemAt bytes.now at next
        (text_of out.old ++ comma is_first) (text_of out.new)) }
{
    out.make_room()?;
    if at >= bytes.len() {
        return None;
    }
    if let Some(head) = short_text_head(bytes, at) {
        return text(is_first, b"\"", bytes, head, out);
    }
    out.join_comma(is_first);
    match bytes[at] {
        0x9f => array_to_break(bytes, at, depth, out),
        0xbf => map_to_break(bytes, at, depth, out),
        0xf4 => {
            out.join(b"false");
            Some(at + 1)
        },
        0xf5 => {
            out.join(b"true");
            Some(at + 1)
        },
        0xf6 => {
            out.join(b"null");
            Some(at + 1)
        },
        _ => {
            let head = read_head(bytes, at)?;
            body(bytes, head, depth, out)
        },
    }
}

/// The JSON of the first item of the bytes, without white space, and how many bytes the item takes, if it is of the
/// commonest kinds. What follows it isn't looked at, so a sequence of items (RFC 8742) is written one by one.
///
/// It reads each head once, makes no calls, and takes memory for the JSON alone. So it is faster than
/// [`CborDoc::read_front`](crate::CborDoc::read_front) and then [`CborDoc::write_json`](crate::CborDoc::write_json).
///
/// The commonest kinds are `null`, truth values, whole numbers from -2^63 up to 2^64-1, strings of a definite length,
/// arrays and maps of these, and all of them under tags but 2 and 3. Keys are texts or whole numbers there, and at most 64
/// arrays, maps and tags are nested. `None` says nothing of the bytes: the item may be of another kind or none, or memory
/// may be wanting.
///
/// ```
/// let json = json_front_at_once(alloc, b"\xa1\x61a\x82\x01\x20\xf6".as_slice());
/// assert!(rt; json.is_some_and(|(json, used)| json.as_slice() == b"{\"a\":[1,-1]}".as_slice() && used == 6));
/// ```
pub fn json_front_at_once(alloc: Global, bytes: &[u8]) -> Option<(Vec<u8>, usize)>
    ensures { IfSome result (λ front. IsJsonOfFront bytes.now front.0.items front.1) }
{
    let mut out = Written::new(alloc);
    let used = item(true, bytes, 0, LEVELS, &mut out)?;
    Some((out.into_vec()?, used))
}

/// The JSON of bytes that are one item, if it is of the commonest kinds: as [`json_front_at_once`], but nothing may
/// follow the item.
///
/// ```
/// let json = json_at_once(alloc, b"\x82\x01\x61a".as_slice());
/// assert!(rt; json.is_some_and(|json| json.as_slice() == b"[1,\"a\"]".as_slice()));
/// assert!(rt; json_at_once(alloc, b"\x01\x02".as_slice()).is_none());
/// ```
pub fn json_at_once(alloc: Global, bytes: &[u8]) -> Option<Vec<u8>>
    ensures { IfSome result (λ json. IsJsonOfItem bytes.now json.items) }
{
    let (json, used) = json_front_at_once(alloc, bytes)?;
    if used < bytes.len() {
        return None;
    }
    Some(json)
}
