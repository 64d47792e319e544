//! Nodes that are written as they were read: they follow each other in the text, with no white space between them.

ghost use Rattle.std.specs.Prelude.{◌≡◌, ◌<◌, ◌≤◌, ◌++◌, IfSome, IsCharBoundary, OnOk, [], length};
ghost use Rattle.std.specs.List.{between};
ghost use Rattle.sval_io.specs.Sinks.{WritesAll};
ghost use Rattle.sval_json.specs.Escape.{escaped, in_quotes};
ghost use Rattle.sval_json_read.specs.Nodes.{placed_in};
ghost use Rattle.sval_json_read.specs.RawStrings.{IsRaw};
ghost use Rattle.sval_json_read.specs.SeenNodes.{node_place, seen_node, IsKeptOf, AreKeptOf};
ghost use Rattle.sval_json_read.specs.SeenValues.{text_in};
ghost use Rattle.sval_json_read.specs.TextParts.{part_bytes, IsPartOf, IsReadyPart, IsTextPiece};
ghost use Rattle.sval_json_read.specs.TokenTexts.{colon_behind, comma_at, placed_text};
ghost use Rattle.sval_json_read.specs.Trees.{settled_number};
ghost use Rattle.sval_json_read.specs.UnchangedNodes.{IsUnchanged};

use crate::joined::{Joined, behind_byte};
use crate::node::{Node, Place};
use crate::text_part::TextPart;
use sval_io::{Sink, SinkError, write_all};

/// The first of some nodes, as far as they follow each other in the text as they are written.
#[derive(Clone, Copy)]
pub(crate) struct Unchanged {
    /// How many they are.
    pub(crate) count: usize,
    /// Where they are in the text.
    pub(crate) part: TextPart,
    /// Whether the node behind them is the first of its array or object.
    pub(crate) is_first: bool,
    /// A part of the text in which each escape is written again as it is.
    pub(crate) ready: TextPart,
}

impl Place {
    /// The place behind the comma that is due, if it is at `at`, or `at` where none is due.
    #[inline(always)]
    fn behind_comma(self, is_first: bool, bytes: &[u8], at: usize) -> Option<usize>
        requires { at ≤ length bytes.now }
        ensures { IfSome result (λ upto. IsTextPiece bytes.now at upto (comma_at is_first (node_place self))) }
    {
        if self.has_comma(is_first) {
            return behind_byte(bytes, at, b',');
        }
        Some(at)
    }

    /// The place behind a word or a bracket and the comma before it, if they are at `at`.
    #[inline(always)]
    fn behind_word(self, is_first: bool, bytes: &[u8], at: usize, word: &[u8]) -> Option<usize>
        requires { at ≤ length bytes.now }
        ensures { IfSome result (λ upto. IsTextPiece bytes.now at upto
            (comma_at is_first (node_place self) ++ word.now)) }
    {
        match self.behind_comma(is_first, bytes, at) {
            None => None,
            Some(begin) => {
                if bytes[begin..].starts_with(word) {
                    return Some(begin + word.len());
                }
                None
            },
        }
    }

    /// The place behind the bytes from `from` up to `to` and the comma before them, if they are at `at`.
    #[inline(always)]
    fn behind_part(
        self,
        is_first: bool,
        bytes: &[u8],
        at: usize,
        from: usize,
        to: usize,
    ) -> Option<usize>
        requires at { at ≤ length bytes.now }
        requires order { from ≤ to }
        requires within { to ≤ length bytes.now }
        ensures { IfSome result (λ upto. IsTextPiece bytes.now at upto
            (comma_at is_first (node_place self) ++ between from to bytes.now)) }
    {
        match self.behind_comma(is_first, bytes, at) {
            None => None,
            Some(begin) => {
                if begin != from {
                    return None;
                }
                Some(to)
            },
        }
    }

    /// The place behind the number from `from` up to `to` and its comma, if they are at `at` as they are written.
    #[inline(always)]
    fn behind_number(
        self,
        is_first: bool,
        text: &str,
        at: usize,
        from: usize,
        to: usize,
    ) -> Option<usize>
        requires at { at ≤ length text.now }
        requires order { from ≤ to }
        requires begin { IsCharBoundary text.now from }
        requires end { IsCharBoundary text.now to }
        ensures { IfSome result (λ upto. IsTextPiece text.now at upto
            (comma_at is_first (node_place self) ++ settled_number (between from to text.now))) }
    {
        if &text[from..to] == "-0" {
            return None;
        }
        self.behind_part(is_first, text.as_bytes(), at, from, to)
    }

    /// The place behind the string from `from` up to `to`, its comma and its colon, if they are at `at` as they are
    /// written.
    #[inline(always)]
    fn behind_string(
        self,
        is_first: bool,
        bytes: &[u8],
        ready: TextPart,
        at: usize,
        from: usize,
        to: usize,
    ) -> Option<usize>
        requires at { at ≤ length bytes.now }
        requires order { from ≤ to }
        requires within { to ≤ length bytes.now }
        requires raw { IsRaw (between from to bytes.now) }
        requires ready { IsReadyPart bytes.now ready }
        ensures { IfSome result (λ upto. IsTextPiece bytes.now at upto (comma_at is_first (node_place self)
            ++ (in_quotes (escaped (text_in (between from to bytes.now))) ++ colon_behind (node_place self)))) }
    {
        match self.behind_comma(is_first, bytes, at) {
            None => None,
            Some(begin) => self.behind_text(bytes, ready, begin, from, to),
        }
    }
}

impl Node {
    /// The place behind the token and its comma, if they are at `at` as they are written.
    #[inline(always)]
    fn behind(&self, text: &str, ready: TextPart, is_first: bool, at: usize) -> Option<usize>
        requires at { at ≤ length text.now }
        requires kept { IsKeptOf text.now self.now }
        requires ready { IsReadyPart text.now ready }
        ensures { IfSome result (λ upto. IsTextPiece text.now at upto
            (placed_text is_first (placed_in text.now (seen_node self.now)))) }
    {
        let bytes = text.as_bytes();
        match *self {
            Node::Number(place, from, length) => {
                let from = from.get();
                place.behind_number(is_first, text, at, from, from + length as usize)
            },
            Node::Text(place, from, length) => {
                let from = from.get();
                place.behind_string(is_first, bytes, ready, at, from, from + length as usize)
            },
            Node::Null(place) => place.behind_word(is_first, bytes, at, b"null"),
            Node::Bool(place, true) => place.behind_word(is_first, bytes, at, b"true"),
            Node::Bool(place, false) => place.behind_word(is_first, bytes, at, b"false"),
            Node::BeginArray(place, _) => place.behind_word(is_first, bytes, at, b"["),
            Node::EndArray(_) => behind_byte(bytes, at, b']'),
            Node::BeginObject(place, _) => place.behind_word(is_first, bytes, at, b"{"),
            Node::EndObject(_) => behind_byte(bytes, at, b'}'),
        }
    }

    /// Where the token and its comma may begin. A word or a bracket has no place, and may begin the text.
    #[inline(always)]
    fn may_begin(self, is_first: bool) -> usize {
        match self {
            Node::Number(place, from, _) => {
                from.get()
                    .saturating_sub(place.has_comma(is_first) as usize)
            },
            Node::Text(place, from, _) => {
                from.get()
                    .saturating_sub(1 + place.has_comma(is_first) as usize)
            },
            _ => 0,
        }
    }
}

impl Unchanged {
    /// The first of these nodes. Where the first is no number or string, it is looked for at the begin of the text.
    #[inline(never)]
    pub(crate) fn first_of(text: &str, nodes: &[Node], is_first: bool, ready: TextPart) -> Self
        requires some { 0 < length nodes.now }
        requires kept { AreKeptOf text.now nodes.now }
        requires ready { IsReadyPart text.now ready }
        ensures { IsUnchanged text.now is_first nodes.now result }
    {
        let begin = nodes[0].may_begin(is_first).min(text.len());
        let mut found = Unchanged {
            count: 0,
            part: TextPart {
                from: begin,
                to: begin,
            },
            is_first,
            ready,
        };
        while found.count < nodes.len() {
            let node = &nodes[found.count];
            let ready = node.ready_around(text, found.ready);
            match node.behind(text, ready, found.is_first, found.part.to) {
                None => return found,
                Some(to) => {
                    found = Unchanged {
                        count: found.count + 1,
                        part: TextPart {
                            from: found.part.from,
                            to,
                        },
                        is_first: node.is_begin(),
                        ready,
                    };
                },
            }
        }
        found
    }

    /// Writes what is joined, and these nodes as one piece.
    #[inline(never)]
    pub(crate) fn write<K: Sink>(
        self,
        text: &str,
        joined: &mut Joined,
        out: &mut K,
    ) -> Result<(), SinkError>
        requires { IsPartOf text.now self.part }
        ensures writes { WritesAll result (K.told out.old) (joined.old ++ part_bytes text.now self.part)
            (K.told out.new) }
        ensures empty { OnOk result (joined.new ≡ []) }
    {
        joined.pass_on(out)?;
        write_all(out, &text.as_bytes()[self.part.from..self.part.to])
    }
}
