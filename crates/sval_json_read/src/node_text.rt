//! The JSON of nodes, from the text of the document.

ghost use Rattle.std.specs.Prelude.{◌≡◌, ◌<◌, ◌≤◌, ◌++◌, ℕ, List, [], IfSome, IsCharBoundary, codes, drop, get_or, if◌then◌else◌, length, map, true};
ghost use Rattle.std.specs.List.{between};
ghost use Rattle.sval_io.specs.Sinks.{WritesAll};
ghost use Rattle.sval_json.specs.Escape.{escaped, in_quotes};
ghost use Rattle.sval_json_read.specs.Calls.{piece_bytes};
ghost use Rattle.sval_json_read.specs.Nodes.{placed_in, tokens_in};
ghost use Rattle.sval_json_read.specs.RawStrings.{IsRaw};
ghost use Rattle.sval_json_read.specs.SeenNodes.{node_place, seen_node, IsKeptOf, AreKeptOf};
ghost use Rattle.sval_json_read.specs.SeenPieces.{seen_piece};
ghost use Rattle.sval_json_read.specs.SeenValues.{text_in};
ghost use Rattle.sval_json_read.specs.TextParts.{IsReadyPart};
ghost use Rattle.sval_json_read.specs.TokenTexts.{begins_container, comma_at, colon_behind, placed_text, tokens_text};
ghost use Rattle.sval_json_read.specs.Trees.{settled_number};

use crate::joined::Joined;
use crate::node::{Node, Place};
use crate::piece::{Piece, first_escape};
use crate::text_part::{TextPart, ready_part};
use crate::unchanged::Unchanged;
use sval_io::{Sink, SinkError, write_all, write_in_place};
use sval_json::escape::write_escaped;

/// How many nodes are joined before the next ones are looked at as one piece. A prime, so that a look comes at another
/// node of each record, where all records have as many nodes.
const STEP: usize = 61;

/// How many nodes are one piece at least.
const FEW: usize = 8;

/// Writes the text of a run or of an escape, with the escapes that it needs.
fn write_piece<K: Sink>(piece: Piece<'_>, out: &mut K) -> Result<(), SinkError>
    ensures { WritesAll result (K.told out.old) (escaped (piece_bytes (seen_piece piece.entry))) (K.told out.new) }
{
    match piece {
        Piece::Run(run) => write_escaped(out, run.as_bytes()),
        Piece::Escape(character) => {
            let mut buffer = [0; 4];
            write_escaped(out, character.encode_utf8(&mut buffer).as_bytes())
        }
    }
}

/// What is written as it was read of the text between a string's quotes, up to an escape that may be written in another
/// way, and what follows it.
fn split_ready(raw: &str) -> (&str, &str)
    requires { IsRaw raw.now }
    ensures text { escaped (text_in raw.now) ≡ result.0.now ++ escaped (text_in result.1.now) }
    ensures is_raw { IsRaw result.1.now }
    ensures escape { 0 < length result.1.now → get_or result.1.now 0 0 ≡ 92 }
    ensures shorter { length result.1.now ≤ length raw.now }
{
    let ready = ready_part(raw.as_bytes(), 0, raw.len());
    raw.split_at(ready.to)
}

/// Writes the text of a string: what is written as it was read in one piece, and each other escape by itself.
fn write_pieces<K: Sink>(raw: &str, out: &mut K) -> Result<(), SinkError>
    requires { IsRaw raw.now }
    ensures { WritesAll result (K.told out.old) (escaped (text_in raw.now)) (K.told out.new) }
{
    let mut rest = raw;
    loop {
        let (ready, other) = split_ready(rest);
        write_in_place(out, ready.as_bytes())?;
        if other.is_empty() {
            return Ok(());
        }
        let (escape, behind) = first_escape(other);
        write_piece(escape, out)?;
        rest = behind;
    }
}

/// The bytes from `from` up to `to` together with those around them, if these are `before` and `behind`.
#[inline(always)]
fn extended<'b>(
    before: &[u8],
    bytes: &'b [u8],
    from: usize,
    to: usize,
    behind: &[u8],
) -> Option<&'b [u8]>
    requires order { from ≤ to }
    requires within { to ≤ length bytes.now }
    ensures { IfSome result (λ piece. piece.now ≡ before.now ++ (between from to bytes.now ++ behind.now)) }
{
    if bytes[..from].ends_with(before) && bytes[to..].starts_with(behind) {
        Some(&bytes[from - before.len()..to + behind.len()])
    } else {
        None
    }
}

/// Writes three pieces, one after another.
#[inline(never)]
fn write_three<K: Sink>(
    before: &[u8],
    piece: &[u8],
    behind: &[u8],
    out: &mut K,
) -> Result<(), SinkError>
    ensures { WritesAll result (K.told out.old) (before.now ++ (piece.now ++ behind.now)) (K.told out.new) }
{
    write_all(out, before)?;
    write_all(out, piece)?;
    write_all(out, behind)
}

/// Writes the bytes from `from` up to `to` between `before` and `behind`: as one piece if these are around them.
#[inline(always)]
fn write_between<K: Sink>(
    before: &[u8],
    bytes: &[u8],
    from: usize,
    to: usize,
    behind: &[u8],
    out: &mut K,
) -> Result<(), SinkError>
    requires order { from ≤ to }
    requires within { to ≤ length bytes.now }
    ensures { WritesAll result (K.told out.old)
        (before.now ++ (between from to bytes.now ++ behind.now)) (K.told out.new) }
{
    match extended(before, bytes, from, to, behind) {
        Some(piece) => write_all(out, piece),
        None => write_three(before, &bytes[from..to], behind, out),
    }
}

/// Does the same where `before` begins with the comma that is due. That is a piece by itself if it is elsewhere, as before
/// white space.
#[inline(always)]
fn write_behind_comma<K: Sink>(
    before: &[u8],
    bytes: &[u8],
    from: usize,
    to: usize,
    behind: &[u8],
    out: &mut K,
) -> Result<(), SinkError>
    requires comma { before.now ≡ codes "," ++ drop 1 before.now }
    requires order { from ≤ to }
    requires within { to ≤ length bytes.now }
    ensures { WritesAll result (K.told out.old)
        (before.now ++ (between from to bytes.now ++ behind.now)) (K.told out.new) }
{
    if let Some(piece) = extended(before, bytes, from, to, behind) {
        return write_all(out, piece);
    }
    write_in_place(out, b",")?;
    write_between(&before[1..], bytes, from, to, behind, out)
}

impl Place {
    /// Whether a comma is due: before an element or a name, unless it is the first one.
    #[inline(always)]
    pub(crate) fn has_comma(self, is_first: bool) -> bool
        ensures { comma_at is_first (node_place self) ≡ (if result then codes "," else []) }
    {
        match self {
            Place::Item | Place::Key => !is_first,
            Place::Alone | Place::Value => false,
        }
    }

    /// Writes the quote behind a string, and the colon behind a name.
    fn write_end<K: Sink>(self, out: &mut K) -> Result<(), SinkError>
        ensures { WritesAll result (K.told out.old) (codes "\"" ++ colon_behind (node_place self)) (K.told out.new) }
    {
        match self {
            Place::Key => write_in_place(out, b"\":"),
            Place::Alone | Place::Item | Place::Value => write_in_place(out, b"\""),
        }
    }

    /// Writes a word, a bracket or a quote. `word` has the comma before it, which is left out where none is due.
    #[inline(always)]
    fn write_word<K: Sink>(self, is_first: bool, word: &[u8], out: &mut K) -> Result<(), SinkError>
        requires { word.now ≡ codes "," ++ drop 1 word.now }
        ensures { WritesAll result (K.told out.old)
            (comma_at is_first (node_place self) ++ drop 1 word.now) (K.told out.new) }
    {
        if self.has_comma(is_first) {
            return write_in_place(out, word);
        }
        write_in_place(out, &word[1..])
    }

    /// Writes the number from `from` up to `to` as it was read, but `-0` as `0`.
    #[inline(always)]
    fn write_number<K: Sink>(
        self,
        is_first: bool,
        text: &str,
        from: usize,
        to: usize,
        out: &mut K,
    ) -> Result<(), SinkError>
        requires order { from ≤ to }
        requires begin { IsCharBoundary text.now from }
        requires end { IsCharBoundary text.now to }
        ensures { WritesAll result (K.told out.old)
            (comma_at is_first (node_place self) ++ settled_number (between from to text.now)) (K.told out.new) }
    {
        let number = &text[from..to];
        if number == "-0" {
            return self.write_word(is_first, b",0", out);
        }
        if self.has_comma(is_first) {
            return write_behind_comma(b",", text.as_bytes(), from, to, b"", out);
        }
        write_all(out, number.as_bytes())
    }

    /// Writes a string that is not written as it was read, with all that is due around it.
    #[inline(never)]
    fn write_text_with_escape<K: Sink>(
        self,
        is_first: bool,
        raw: &str,
        out: &mut K,
    ) -> Result<(), SinkError>
        requires { IsRaw raw.now }
        ensures { WritesAll result (K.told out.old) (comma_at is_first (node_place self)
            ++ (in_quotes (escaped (text_in raw.now)) ++ colon_behind (node_place self))) (K.told out.new) }
    {
        self.write_word(is_first, b",\"", out)?;
        write_pieces(raw, out)?;
        self.write_end(out)
    }

    /// Writes a string that is written as it was read, with all that is due around it.
    #[inline(always)]
    fn write_plain_text<K: Sink>(
        self,
        is_first: bool,
        bytes: &[u8],
        from: usize,
        to: usize,
        out: &mut K,
    ) -> Result<(), SinkError>
        requires order { from ≤ to }
        requires within { to ≤ length bytes.now }
        ensures { WritesAll result (K.told out.old) (comma_at is_first (node_place self)
            ++ (in_quotes (between from to bytes.now) ++ colon_behind (node_place self))) (K.told out.new) }
    {
        match (self, is_first) {
            (Place::Key, true) => write_between(b"\"", bytes, from, to, b"\":", out),
            (Place::Key, false) => write_behind_comma(b",\"", bytes, from, to, b"\":", out),
            (Place::Item, false) => write_behind_comma(b",\"", bytes, from, to, b"\"", out),
            (Place::Item, true) | (Place::Alone | Place::Value, _) => {
                write_between(b"\"", bytes, from, to, b"\"", out)
            },
        }
    }

    /// Writes the string from `from` up to `to` with all that is due around it. A string that the ready part has is one piece,
    /// as it was read, if the bytes around it are what is due.
    #[inline(always)]
    fn write_text<K: Sink>(
        self,
        is_first: bool,
        text: &str,
        ready: TextPart,
        from: usize,
        to: usize,
        out: &mut K,
    ) -> Result<(), SinkError>
        requires order { from ≤ to }
        requires begin { IsCharBoundary text.now from }
        requires end { IsCharBoundary text.now to }
        requires raw { IsRaw (between from to text.now) }
        requires ready { IsReadyPart text.now ready }
        ensures { WritesAll result (K.told out.old) (comma_at is_first (node_place self)
            ++ (in_quotes (escaped (text_in (between from to text.now))) ++ colon_behind (node_place self)))
            (K.told out.new) }
    {
        if !ready.has_string(text.as_bytes(), from, to) {
            return self.write_text_with_escape(is_first, &text[from..to], out);
        }
        self.write_plain_text(is_first, text.as_bytes(), from, to, out)
    }
}

impl Node {
    /// Whether it begins an array or object.
    #[inline(always)]
    pub(crate) fn is_begin(self) -> bool
        ensures { (text : List ℕ) → result ≡ begins_container (placed_in text (seen_node self)).token }
    {
        match self {
            Node::BeginArray(..) | Node::BeginObject(..) => true,
            _ => false,
        }
    }

    /// Writes it behind its comma, from the text of the document. A string that the ready part has is written as it was read.
    #[inline(always)]
    pub(crate) fn write<K: Sink>(
        self,
        text: &str,
        ready: TextPart,
        is_first: bool,
        out: &mut K,
    ) -> Result<(), SinkError>
        requires kept { IsKeptOf text.now self }
        requires ready { IsReadyPart text.now ready }
        ensures { WritesAll result (K.told out.old) (placed_text is_first (placed_in text.now (seen_node self)))
            (K.told out.new) }
    {
        match self {
            Node::Null(place) => place.write_word(is_first, b",null", out),
            Node::Bool(place, true) => place.write_word(is_first, b",true", out),
            Node::Bool(place, false) => place.write_word(is_first, b",false", out),
            Node::Number(place, from, length) => {
                let from = from.get();
                place.write_number(is_first, text, from, from + length as usize, out)
            },
            Node::Text(place, from, length) => {
                let from = from.get();
                place.write_text(is_first, text, ready, from, from + length as usize, out)
            },
            Node::BeginArray(place, _) => place.write_word(is_first, b",[", out),
            Node::EndArray(_) => write_in_place(out, b"]"),
            Node::BeginObject(place, _) => place.write_word(is_first, b",{", out),
            Node::EndObject(_) => write_in_place(out, b"}"),
        }
    }
}

/// Writes nodes, one after another, from the text of the document. Nodes that follow each other in the text as they are
/// written are one piece. Other short ones are joined, so that the sink takes many of them at once.
pub(crate) fn write_nodes<K: Sink>(text: &str, nodes: &[Node], out: &mut K) -> Result<(), SinkError>
    requires { AreKeptOf text.now nodes.now }
    ensures { WritesAll result (K.told out.old) (tokens_text true (tokens_in text.now (map seen_node nodes.now)))
        (K.told out.new) }
{
    let mut ready = TextPart { from: 0, to: 0 };
    let mut joined = Joined::new();
    let mut is_first = true;
    let mut index = 0;
    let mut due = 0;
    while index < nodes.len() {
        if index >= due {
            due = index.saturating_add(STEP);
            let found = Unchanged::first_of(text, &nodes[index..], is_first, ready);
            if found.count >= FEW {
                found.write(text, &mut joined, out)?;
                ready = found.ready;
                is_first = found.is_first;
                index += found.count;
                continue;
            }
        }
        let node = &nodes[index];
        ready = node.ready_around(text, ready);
        node.write_next(text, ready, is_first, &mut joined, out)?;
        is_first = node.is_begin();
        index += 1;
    }
    joined.pass_on(out)
}
