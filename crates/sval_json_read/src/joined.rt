//! Short parts of an output that are joined on the stack, so that a sink takes many of them at once.

ghost use Rattle.std.specs.Prelude.{◌≡◌, ◌+◌, ◌-◌, ◌<◌, ◌≤◌, ◌∷◌, ◌++◌, true, [], IfOk, IfErr, IfSome, OnOk, IsCharBoundary, codes, if◌then◌else◌, get_or, length};
ghost use Rattle.std.specs.List.{between};
ghost use Rattle.sval_io.specs.Sinks.{WritesAll, WritesFront};
ghost use Rattle.sval_json.specs.Escape.{escaped, in_quotes};
ghost use Rattle.sval_json_read.specs.Joining.{IsJoined};
ghost use Rattle.sval_json_read.specs.Nodes.{placed_in};
ghost use Rattle.sval_json_read.specs.RawStrings.{IsRaw};
ghost use Rattle.sval_json_read.specs.SeenNodes.{node_place, seen_node, IsKeptOf};
ghost use Rattle.sval_json_read.specs.SeenValues.{text_in};
ghost use Rattle.sval_json_read.specs.TextParts.{IsReadyPart, IsTextPiece, IsWrittenUpTo};
ghost use Rattle.sval_json_read.specs.TokenTexts.{colon_behind, comma_at, placed_text};
ghost use Rattle.sval_json_read.specs.Trees.{settled_number};

use crate::node::{Node, Place};
use crate::text_part::{TextPart, ready_part};
use std::marker::Model;
use sval_io::{Sink, SinkError, write_all};

/// How many bytes are joined at most.
const ROOM: usize = 256;

/// How many bytes of a short token are copied at once.
const SHORT: usize = 32;

/// Bytes that are due, and that the sink didn't take yet: 256 at most, seen as a list of them.
#[derive(Drop)]
pub struct Joined {
    room: [u8; ROOM],
    length: usize,
}

impl Model for Joined {
    ghost use Rattle.std.specs.Prelude.{ℕ, ◌≤◌, List, take};

    ghost Value = { List ℕ };

    ghost view = { λ joined. take joined.length joined.room };

    ghost invariant = { λ joined. joined.length ≤ 256 };
}

impl Joined {
    /// No bytes.
    #[inline(always)]
    pub fn new() -> Self
        ensures { result ≡ [] }
    {
        Joined {
            room: [0; ROOM],
            length: 0,
        }
    }

    /// Has the sink take them all.
    #[inline(always)]
    pub(crate) fn pass_on<K: Sink>(&mut self, out: &mut K) -> Result<(), SinkError>
        ensures writes { WritesAll result (K.told out.old) self.old (K.told out.new) }
        ensures empty { OnOk result (self.new ≡ []) }
    {
        write_all(out, &self.room[..self.length])?;
        self.length = 0;
        Ok(())
    }

    /// Has the sink take them, unless there is room for a short token and the comma before it.
    #[inline(always)]
    fn make_room<K: Sink>(&mut self, out: &mut K) -> Result<(), SinkError>
        ensures room { OnOk result (length self.new + 33 ≤ 256) }
        ensures written { OnOk result (IsWrittenUpTo (K.told out.old) self.old self.new (K.told out.new)) }
        ensures err { IfErr result (λ why. WritesFront why (K.told out.old) self.old (K.told out.new)) }
    {
        if self.length < ROOM - SHORT {
            return Ok(());
        }
        self.pass_on(out)
    }

    /// For how many bytes there is room.
    #[inline(always)]
    fn room_left(&self) -> usize
        ensures { length self.now + result ≡ 256 }
    {
        ROOM - self.length
    }

    /// The bytes.
    #[inline(always)]
    pub fn as_slice(&self) -> &[u8]
        ensures { result.now ≡ self.now }
    {
        &self.room[..self.length]
    }

    /// How many bytes there are, 256 at most.
    #[inline(always)]
    pub fn len(&self) -> usize
        ensures { result ≡ length self.now }
    {
        self.length
    }

    /// Forgets the bytes.
    #[inline(always)]
    pub fn clear(&mut self)
        ensures { self.new ≡ [] }
    {
        self.length = 0;
    }

    /// Adds a piece.
    #[inline(always)]
    pub fn add(&mut self, piece: &[u8])
        requires { length self.old + length piece.now ≤ 256 }
        ensures { self.new ≡ self.old ++ piece.now }
    {
        let end = self.length + piece.len();
        self.room[self.length..end].copy_from_slice(piece);
        self.length = end;
    }

    /// Adds the bytes from `from` up to `to`. Where these are few, what is behind them is copied too, so that all short
    /// tokens take one copy of the same size.
    #[inline(always)]
    pub fn add_part(&mut self, bytes: &[u8], from: usize, to: usize)
        requires order { from ≤ to }
        requires within { to ≤ length bytes.now }
        requires room { length self.old + (to - from) ≤ 256 }
        requires ahead { length self.old + 32 ≤ 256 }
        ensures { self.new ≡ self.old ++ between from to bytes.now }
    {
        if to - from > SHORT || bytes.len() - from < SHORT {
            return self.add(&bytes[from..to]);
        }
        let begin = self.length;
        self.room[begin..begin + SHORT].copy_from_slice(&bytes[from..from + SHORT]);
        self.length = begin + (to - from);
    }
}

/// The place behind this byte, if it is at `at`.
#[tactic(auto, using(crate::proofs::TextParts::piece_byte))]
#[inline(always)]
pub(crate) fn behind_byte(bytes: &[u8], at: usize, due: u8) -> Option<usize>
    ensures { IfSome result (λ upto. IsTextPiece bytes.now at upto (due ∷ [])) }
{
    if at < bytes.len() && bytes[at] == due {
        return Some(at + 1);
    }
    None
}

/// The place behind the closing quote of a string from `from` up to `to`, if its opening quote is at `at`.
#[inline(always)]
fn behind_quoted(bytes: &[u8], at: usize, from: usize, to: usize) -> Option<usize>
    requires order { from ≤ to }
    requires within { to ≤ length bytes.now }
    ensures quote { IfSome result (λ upto. get_or bytes.now (from - 1) 0 ≡ 34) }
    ensures piece { IfSome result (λ upto. IsTextPiece bytes.now at upto (in_quotes (between from to bytes.now))) }
{
    match behind_byte(bytes, at, b'"') {
        None => None,
        Some(begin) => {
            if begin != from {
                return None;
            }
            behind_byte(bytes, to, b'"')
        },
    }
}

impl Place {
    /// The place behind the colon of a name, if it is at `at`, or `at` behind another string.
    #[inline(always)]
    fn behind_colon(self, bytes: &[u8], at: usize) -> Option<usize>
        requires { at ≤ length bytes.now }
        ensures { IfSome result (λ upto. IsTextPiece bytes.now at upto (colon_behind (node_place self))) }
    {
        match self {
            Place::Key => behind_byte(bytes, at, b':'),
            Place::Alone | Place::Item | Place::Value => Some(at),
        }
    }

    /// The place behind the string from `from` up to `to` and its colon, if its quote is at `at` and the ready part has it.
    #[inline(always)]
    pub(crate) fn behind_text(
        self,
        bytes: &[u8],
        ready: TextPart,
        at: usize,
        from: usize,
        to: usize,
    ) -> Option<usize>
        requires order { from ≤ to }
        requires within { to ≤ length bytes.now }
        requires raw { IsRaw (between from to bytes.now) }
        requires ready { IsReadyPart bytes.now ready }
        ensures { IfSome result (λ upto. IsTextPiece bytes.now at upto
            (in_quotes (escaped (text_in (between from to bytes.now))) ++ colon_behind (node_place self))) }
    {
        if from < ready.from || ready.to < to {
            return None;
        }
        match behind_quoted(bytes, at, from, to) {
            None => None,
            Some(end) => self.behind_colon(bytes, end),
        }
    }

    /// Joins the comma that is due.
    #[inline(always)]
    fn join_comma(self, is_first: bool, joined: &mut Joined)
        requires { length joined.old + 1 ≤ 256 }
        ensures joins { joined.new ≡ joined.old ++ comma_at is_first (node_place self) }
        ensures short { length joined.new ≤ length joined.old + 1 }
    {
        if self.has_comma(is_first) {
            joined.add(b",");
        }
    }

    /// Joins the comma that is due, and a word or a bracket.
    #[inline(always)]
    fn join_word(self, is_first: bool, word: &[u8], joined: &mut Joined)
        requires short { length word.now ≤ 32 }
        requires room { length joined.old + 33 ≤ 256 }
        ensures { joined.new ≡ joined.old ++ (comma_at is_first (node_place self) ++ word.now) }
    {
        self.join_comma(is_first, joined);
        joined.add(word);
    }

    /// Joins the comma that is due, and the bytes from `from` up to `to`, if there is room for them.
    #[inline(always)]
    fn join_part(
        self,
        is_first: bool,
        bytes: &[u8],
        from: usize,
        to: usize,
        joined: &mut Joined,
    ) -> bool
        requires order { from ≤ to }
        requires within { to ≤ length bytes.now }
        requires room { length joined.old + 33 ≤ 256 }
        ensures { IsJoined result joined.old (comma_at is_first (node_place self) ++ between from to bytes.now)
            joined.new }
    {
        if to - from >= joined.room_left() {
            return false;
        }
        self.join_comma(is_first, joined);
        joined.add_part(bytes, from, to);
        true
    }

    /// Joins the number from `from` up to `to`, if there is room for it and it is written as it was read.
    #[inline(always)]
    fn join_number(
        self,
        is_first: bool,
        text: &str,
        from: usize,
        to: usize,
        joined: &mut Joined,
    ) -> bool
        requires order { from ≤ to }
        requires begin { IsCharBoundary text.now from }
        requires end { IsCharBoundary text.now to }
        requires room { length joined.old + 33 ≤ 256 }
        ensures { IsJoined result joined.old
            (comma_at is_first (node_place self) ++ settled_number (between from to text.now)) joined.new }
    {
        if &text[from..to] == "-0" {
            return false;
        }
        self.join_part(is_first, text.as_bytes(), from, to, joined)
    }

    /// Joins the string from `from` up to `to` and its colon, if there is room for it and the ready part has it.
    #[inline(always)]
    fn join_text(
        self,
        is_first: bool,
        bytes: &[u8],
        ready: TextPart,
        from: usize,
        to: usize,
        joined: &mut Joined,
    ) -> bool
        requires order { from ≤ to }
        requires within { to ≤ length bytes.now }
        requires raw { IsRaw (between from to bytes.now) }
        requires ready { IsReadyPart bytes.now ready }
        requires room { length joined.old + 33 ≤ 256 }
        ensures { IsJoined result joined.old (comma_at is_first (node_place self)
            ++ (in_quotes (escaped (text_in (between from to bytes.now))) ++ colon_behind (node_place self)))
            joined.new }
    {
        let begin = from.saturating_sub(1);
        match self.behind_text(bytes, ready, begin, from, to) {
            None => false,
            Some(end) => self.join_part(is_first, bytes, begin, end, joined),
        }
    }
}

impl Node {
    /// Joins the token behind its comma, if there is room for it and it is written as it was read.
    #[inline(always)]
    fn join(&self, text: &str, ready: TextPart, is_first: bool, joined: &mut Joined) -> bool
        requires kept { IsKeptOf text.now self.now }
        requires ready { IsReadyPart text.now ready }
        requires room { length joined.old + 33 ≤ 256 }
        ensures { IsJoined result joined.old (placed_text is_first (placed_in text.now (seen_node self.now)))
            joined.new }
    {
        match *self {
            Node::Number(place, from, length) => {
                let from = from.get();
                return place.join_number(is_first, text, from, from + length as usize, joined);
            },
            Node::Text(place, from, length) => {
                let from = from.get();
                let to = from + length as usize;
                return place.join_text(is_first, text.as_bytes(), ready, from, to, joined);
            },
            Node::Null(place) => place.join_word(is_first, b"null", joined),
            Node::Bool(place, true) => place.join_word(is_first, b"true", joined),
            Node::Bool(place, false) => place.join_word(is_first, b"false", joined),
            Node::BeginArray(place, _) => place.join_word(is_first, b"[", joined),
            Node::EndArray(_) => joined.add(b"]"),
            Node::BeginObject(place, _) => place.join_word(is_first, b"{", joined),
            Node::EndObject(_) => joined.add(b"}"),
        }
        true
    }

    /// A part of the text in which each escape is written again as it is. It holds the node's string if that has no other
    /// escape, and is the known one where that holds the string.
    #[inline(always)]
    pub(crate) fn ready_around(&self, text: &str, known: TextPart) -> TextPart
        requires kept { IsKeptOf text.now self.now }
        requires known { IsReadyPart text.now known }
        ensures { IsReadyPart text.now result }
    {
        match *self {
            Node::Text(_, from, length) => {
                let from = from.get();
                let to = from + length as usize;
                if known.from <= from && to <= known.to {
                    return known;
                }
                ready_part(text.as_bytes(), from, to)
            },
            _ => known,
        }
    }

    /// Writes what is joined, and the token behind it.
    #[inline(never)]
    fn write_behind<K: Sink>(
        &self,
        text: &str,
        ready: TextPart,
        is_first: bool,
        joined: &mut Joined,
        out: &mut K,
    ) -> Result<(), SinkError>
        requires kept { IsKeptOf text.now self.now }
        requires ready { IsReadyPart text.now ready }
        ensures writes { WritesAll result (K.told out.old)
            (joined.old ++ placed_text is_first (placed_in text.now (seen_node self.now))) (K.told out.new) }
        ensures empty { OnOk result (joined.new ≡ []) }
    {
        joined.pass_on(out)?;
        self.write(text, ready, is_first, out)
    }

    /// Joins the token to what is joined, if there is room for it and it is written as it was read. Otherwise writes both.
    #[inline(always)]
    pub(crate) fn write_next<K: Sink>(
        &self,
        text: &str,
        ready: TextPart,
        is_first: bool,
        joined: &mut Joined,
        out: &mut K,
    ) -> Result<(), SinkError>
        requires kept { IsKeptOf text.now self.now }
        requires ready { IsReadyPart text.now ready }
        ensures written { OnOk result (IsWrittenUpTo (K.told out.old)
            (joined.old ++ placed_text is_first (placed_in text.now (seen_node self.now)))
            joined.new (K.told out.new)) }
        ensures err { IfErr result (λ why. WritesFront why (K.told out.old)
            (joined.old ++ placed_text is_first (placed_in text.now (seen_node self.now)))
            (K.told out.new)) }
    {
        joined.make_room(out)?;
        if self.join(text, ready, is_first, joined) {
            return Ok(());
        }
        self.write_behind(text, ready, is_first, joined, out)
    }
}
