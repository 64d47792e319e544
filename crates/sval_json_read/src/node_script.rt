//! The canonical script of nodes, from the text of the document.

ghost use Rattle.std.specs.Prelude.{◌≡◌, ◌++◌, codes, decimal, length, map, true};
ghost use Rattle.std.specs.Fmt.{signed_decimal};
ghost use Rattle.hex.specs.Hex.{encode_lower};
ghost use Rattle.sval_io.specs.Sinks.{WritesAll};
ghost use Rattle.sval_json.specs.Digits.{is_json_number};
ghost use Rattle.sval_json_read.specs.Calls.{piece_bytes};
ghost use Rattle.sval_json_read.specs.Nodes.{placed_in, tokens_in};
ghost use Rattle.sval_json_read.specs.RawStrings.{IsRaw};
ghost use Rattle.sval_json_read.specs.SeenNodes.{node_place, seen_node, IsKeptOf, AreKeptOf};
ghost use Rattle.sval_json_read.specs.SeenPieces.{seen_piece};
ghost use Rattle.sval_json_read.specs.SeenValues.{text_in};
ghost use Rattle.sval_json_read.specs.TokenScripts.{line_before, line_behind, text_lines, number_text_lines, number_lines, placed_lines, tokens_script};

use crate::node::{Node, Place};
use crate::piece::{Piece, first_piece};
use crate::script_pieces::{write_between, write_hex};
use crate::string_calls::is_one_run;
use itoa::Buffer;
use sval_io::{FixedSink, Sink, SinkError, write_all, write_in_place};

/// How many bytes of a node's lines are joined on the stack at most.
const ROOM: usize = 256;

/// Writes the text of a run or of an escape in hex.
fn write_piece_hex<K: Sink>(piece: Piece<'_>, out: &mut K) -> Result<(), SinkError>
    ensures { WritesAll result (K.told out.old) (encode_lower (piece_bytes (seen_piece piece.entry)))
        (K.told out.new) }
{
    match piece {
        Piece::Run(run) => write_hex(run.as_bytes(), out),
        Piece::Escape(character) => {
            let mut buffer = [0; 4];
            write_hex(character.encode_utf8(&mut buffer).as_bytes(), out)
        },
    }
}

/// Writes the text of a string in hex.
fn write_text_hex<K: Sink>(raw: &str, out: &mut K) -> Result<(), SinkError>
    requires { IsRaw raw.now }
    ensures { WritesAll result (K.told out.old) (encode_lower (text_in raw.now)) (K.told out.new) }
{
    let mut rest = raw;
    while !rest.is_empty() {
        let (piece, behind) = first_piece(rest);
        write_piece_hex(piece, out)?;
        rest = behind;
    }
    Ok(())
}

/// The length of the text of a run or of an escape.
fn piece_len(piece: Piece<'_>) -> usize
    ensures { result ≡ length (piece_bytes (seen_piece piece.entry)) }
{
    match piece {
        Piece::Run(run) => run.len(),
        Piece::Escape(character) => character.len_utf8(),
    }
}

/// The length of the text of a string.
fn text_len(raw: &str) -> usize
    requires { IsRaw raw.now }
    ensures { result ≡ length (text_in raw.now) }
{
    let all = raw.len();
    if is_one_run(raw) {
        return all;
    }
    let mut len = 0;
    let mut rest = raw;
    while !rest.is_empty() {
        let (piece, behind) = first_piece(rest);
        len += piece_len(piece);
        rest = behind;
    }
    len
}

/// Writes two pieces, one after the other.
#[inline(always)]
fn write_two<K: Sink>(first: &[u8], second: &[u8], out: &mut K) -> Result<(), SinkError>
    ensures { WritesAll result (K.told out.old) (first.now ++ second.now) (K.told out.new) }
{
    write_in_place(out, first)?;
    write_in_place(out, second)
}

/// Writes the lines of a text of this length, up to its digits.
#[inline(always)]
fn write_text_begin<K: Sink>(len: usize, out: &mut K) -> Result<(), SinkError>
    ensures { WritesAll result (K.told out.old)
        (codes "text_begin " ++ (decimal len ++ codes "\ntext_fragment =")) (K.told out.new) }
{
    write_between(
        b"text_begin ",
        Buffer::new().format(len).as_bytes(),
        b"\ntext_fragment =",
        out,
    )
}

/// Writes the lines of a text that has no escape.
fn write_plain<K: Sink>(text: &str, out: &mut K) -> Result<(), SinkError>
    ensures { WritesAll result (K.told out.old) (text_lines text.now) (K.told out.new) }
{
    write_text_begin(text.len(), out)?;
    write_hex(text.as_bytes(), out)?;
    write_in_place(out, b"\ntext_end\n")
}

/// Writes the lines of a string.
fn write_string<K: Sink>(raw: &str, out: &mut K) -> Result<(), SinkError>
    requires { IsRaw raw.now }
    ensures { WritesAll result (K.told out.old) (text_lines (text_in raw.now)) (K.told out.new) }
{
    write_text_begin(text_len(raw), out)?;
    write_text_hex(raw, out)?;
    write_in_place(out, b"\ntext_end\n")
}

/// Writes the line of a whole number.
fn write_whole<K: Sink>(number: i64, out: &mut K) -> Result<(), SinkError>
    ensures { WritesAll result (K.told out.old) (codes "i64 " ++ (signed_decimal number ++ codes "\n"))
        (K.told out.new) }
{
    write_between(b"i64 ", Buffer::new().format(number).as_bytes(), b"\n", out)
}

/// Writes the lines of a number's text, under a tag.
fn write_number_text<K: Sink>(text: &str, out: &mut K) -> Result<(), SinkError>
    ensures { WritesAll result (K.told out.old) (number_text_lines text.now) (K.told out.new) }
{
    write_in_place(out, b"tagged_begin NUMBER - -\n")?;
    write_plain(text, out)?;
    write_in_place(out, b"tagged_end NUMBER - -\n")
}

/// Writes the lines of a number.
fn write_number<K: Sink>(text: &str, out: &mut K) -> Result<(), SinkError>
    requires { is_json_number text.now ≡ true }
    ensures { WritesAll result (K.told out.old) (number_lines text.now) (K.told out.new) }
{
    match text.parse::<i64>() {
        Ok(number) => write_whole(number, out),
        Err(_) => write_number_text(text, out),
    }
}

impl Place {
    /// The line before a value in this place.
    #[inline(always)]
    fn line_before(self) -> &'static [u8]
        ensures { result.now ≡ line_before (node_place self) }
    {
        match self {
            Place::Alone => b"",
            Place::Item => b"seq_value_begin\n",
            Place::Key => b"map_key_begin\n",
            Place::Value => b"map_value_begin\n",
        }
    }

    /// The line behind a value in this place.
    #[inline(always)]
    fn line_behind(self) -> &'static [u8]
        ensures { result.now ≡ line_behind (node_place self) }
    {
        match self {
            Place::Alone => b"",
            Place::Item => b"seq_value_end\n",
            Place::Key => b"map_key_end\n",
            Place::Value => b"map_value_end\n",
        }
    }

    /// Writes the line of a word in this place.
    #[inline(always)]
    fn print_word<K: Sink>(self, line: &[u8], out: &mut K) -> Result<(), SinkError>
        ensures { WritesAll result (K.told out.old)
            (line_before (node_place self) ++ (line.now ++ line_behind (node_place self))) (K.told out.new) }
    {
        write_between(self.line_before(), line, self.line_behind(), out)
    }

    /// Writes the line with which an array or object begins in this place.
    #[inline(always)]
    fn print_begin<K: Sink>(self, line: &[u8], out: &mut K) -> Result<(), SinkError>
        ensures { WritesAll result (K.told out.old) (line_before (node_place self) ++ line.now) (K.told out.new) }
    {
        write_two(self.line_before(), line, out)
    }

    /// Writes the line with which one ends in this place.
    #[inline(always)]
    fn print_end<K: Sink>(self, line: &[u8], out: &mut K) -> Result<(), SinkError>
        ensures { WritesAll result (K.told out.old) (line.now ++ line_behind (node_place self)) (K.told out.new) }
    {
        write_two(line, self.line_behind(), out)
    }

    /// Writes the lines of a number in this place.
    #[inline(always)]
    fn print_number<K: Sink>(self, text: &str, out: &mut K) -> Result<(), SinkError>
        requires { is_json_number text.now ≡ true }
        ensures { WritesAll result (K.told out.old)
            (line_before (node_place self) ++ (number_lines text.now ++ line_behind (node_place self)))
            (K.told out.new) }
    {
        write_in_place(out, self.line_before())?;
        write_number(text, out)?;
        write_in_place(out, self.line_behind())
    }

    /// Writes the lines of a string in this place.
    #[inline(always)]
    fn print_text<K: Sink>(self, raw: &str, out: &mut K) -> Result<(), SinkError>
        requires { IsRaw raw.now }
        ensures { WritesAll result (K.told out.old)
            (line_before (node_place self) ++ (text_lines (text_in raw.now) ++ line_behind (node_place self)))
            (K.told out.new) }
    {
        write_in_place(out, self.line_before())?;
        write_string(raw, out)?;
        write_in_place(out, self.line_behind())
    }
}

impl Node {
    /// Writes its lines, from the text of the document.
    fn print_lines<K: Sink>(self, text: &str, out: &mut K) -> Result<(), SinkError>
        requires { IsKeptOf text.now self }
        ensures { WritesAll result (K.told out.old) (placed_lines (placed_in text.now (seen_node self)))
            (K.told out.new) }
    {
        match self {
            Node::Null(place) => place.print_word(b"null\n", out),
            Node::Bool(place, true) => place.print_word(b"bool true\n", out),
            Node::Bool(place, false) => place.print_word(b"bool false\n", out),
            Node::Number(place, from, length) => {
                let from = from.get();
                place.print_number(&text[from..from + length as usize], out)
            },
            Node::Text(place, from, length) => {
                let from = from.get();
                place.print_text(&text[from..from + length as usize], out)
            },
            Node::BeginArray(place, _) => place.print_begin(b"seq_begin -\n", out),
            Node::EndArray(place) => place.print_end(b"seq_end\n", out),
            Node::BeginObject(place, _) => place.print_begin(b"map_begin -\n", out),
            Node::EndObject(place) => place.print_end(b"map_end\n", out),
        }
    }

    /// Does the same, and writes the lines as one piece where they are short.
    fn print<K: Sink>(self, text: &str, out: &mut K) -> Result<(), SinkError>
        requires { IsKeptOf text.now self }
        ensures { WritesAll result (K.told out.old) (placed_lines (placed_in text.now (seen_node self)))
            (K.told out.new) }
    {
        let mut buffer = [0; ROOM];
        let mut joined = FixedSink::new(&mut buffer);
        match self.print_lines(text, &mut joined) {
            Ok(()) => write_all(out, joined.as_slice()),
            Err(_) => self.print_lines(text, out),
        }
    }
}

/// Writes the lines of nodes, one node after the other, from the text of the document.
pub(crate) fn print_nodes<K: Sink>(text: &str, nodes: &[Node], out: &mut K) -> Result<(), SinkError>
    requires { AreKeptOf text.now nodes.now }
    ensures { WritesAll result (K.told out.old) (tokens_script (tokens_in text.now (map seen_node nodes.now)))
        (K.told out.new) }
{
    for node in nodes {
        node.print(text, out)?;
    }
    Ok(())
}
