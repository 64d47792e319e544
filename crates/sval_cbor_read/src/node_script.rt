//! The canonical script of nodes, from the bytes of the document.

ghost use Rattle.std.specs.Prelude.{◌≡◌, ◌∷◌, [], ◌++◌, ◌+◌, ◌^◌, ◌<◌, ◌≤◌, decimal, length, drop, pos, negsuc};
ghost use Rattle.hex.specs.Hex.{encode_lower};
ghost use Rattle.sval_label.specs.Calls as call;
ghost use Rattle.sval_io.specs.Sinks.{WritesAll};
ghost use Rattle.sval_cbor_read.specs.Items.{negative_type};
ghost use Rattle.sval_cbor_read.specs.Reading.{mark_of, first_step, item_step, body_step, string_step};
ghost use Rattle.sval_cbor_read.specs.SeenNodes.{item_place_begins, item_place_ends, step_calls, item_begins_before, node_own_calls, item_ends_behind, node_offset, cbor_node_calls, NodeStands, NodesStand, streamed_items};
ghost use Rattle.sval_cbor_read.specs.ItemScripts.{chunks_length, script_within, sized_script, item_script, IsChunkLength, IsStringSize};

use crate::cbor_text::{byte_chunk_at, text_chunk_at};
use crate::head::{Head, read_head, short_text_head};
use crate::node::{Kind, Node, Place};
use crate::node_calls::{big_at, content_behind, is_mark, negative_big_at, negative_of};
use crate::span::behind_first;
use itoa::Buffer;
use sval_io::{FixedSink, Sink, SinkError, write_all, write_in_place};
use sval_json_read::script_pieces::{write_between, write_hex};

/// How many bytes of a node's lines are joined on the stack at most.
const ROOM: usize = 256;

impl Place {
    /// The line before an item in this place.
    #[inline(always)]
    fn line_before(self) -> &'static [u8]
        ensures { result.now ≡ sized_script (item_place_begins self) }
    {
        match self {
            Place::Alone => b"",
            Place::Item => b"seq_value_begin\n",
            Place::Key => b"map_key_begin\n",
            Place::Value => b"map_value_begin\n",
        }
    }

    /// The line behind an item in this place.
    #[inline(always)]
    fn line_behind(self) -> &'static [u8]
        ensures { result.now ≡ sized_script (item_place_ends self) }
    {
        match self {
            Place::Alone => b"",
            Place::Item => b"seq_value_end\n",
            Place::Key => b"map_key_end\n",
            Place::Value => b"map_value_end\n",
        }
    }
}

/// Writes the line of a number of 64 bits.
#[inline(always)]
fn print_u64<K: Sink>(number: u64, out: &mut K) -> Result<(), SinkError>
    ensures { WritesAll result (K.told out.old) (sized_script (call.Int call.U64 (pos number) ∷ []))
        (K.told out.new) }
{
    write_between(b"u64 ", Buffer::new().format(number).as_bytes(), b"\n", out)
}

/// Writes the line of a number of 128 bits.
fn print_u128<K: Sink>(number: u128, out: &mut K) -> Result<(), SinkError>
    ensures { WritesAll result (K.told out.old) (sized_script (call.Int call.U128 (pos number) ∷ []))
        (K.told out.new) }
{
    write_between(
        b"u128 ",
        Buffer::new().format(number).as_bytes(),
        b"\n",
        out,
    )
}

/// Writes the line of the number -1 - `n`, of 128 bits.
fn print_wide_negative<K: Sink>(n: u128, out: &mut K) -> Result<(), SinkError>
    requires { n < 2 ^ 127 }
    ensures { WritesAll result (K.told out.old) (sized_script (call.Int call.I128 (negsuc n) ∷ []))
        (K.told out.new) }
{
    write_between(
        b"i128 ",
        Buffer::new().format(negative_of(n)).as_bytes(),
        b"\n",
        out,
    )
}

/// Writes the line of the number -1 - `n`, of 64 bits.
#[inline(always)]
fn print_short_negative<K: Sink>(n: u64, out: &mut K) -> Result<(), SinkError>
    requires { n < 2 ^ 63 }
    ensures { WritesAll result (K.told out.old) (sized_script (call.Int call.I64 (negsuc n) ∷ []))
        (K.told out.new) }
{
    let number = -1 - n as i64;
    write_between(b"i64 ", Buffer::new().format(number).as_bytes(), b"\n", out)
}

/// Writes the line of the number -1 - `n`, of 64 bits where it has no more.
#[inline(always)]
fn print_negative<K: Sink>(n: u64, out: &mut K) -> Result<(), SinkError>
    ensures { WritesAll result (K.told out.old) (sized_script (call.Int (negative_type n) (negsuc n) ∷ []))
        (K.told out.new) }
{
    if n < 1 << 63 {
        print_short_negative(n, out)
    } else {
        print_wide_negative(n as u128, out)
    }
}

/// Writes the begin of a string of this size, up to its digits.
#[inline(always)]
fn print_string_begin<K: Sink>(
    begin: &[u8],
    size: u128,
    fragment: &[u8],
    out: &mut K,
) -> Result<(), SinkError>
    ensures { WritesAll result (K.told out.old) (begin.now ++ (decimal size ++ fragment.now)) (K.told out.new) }
{
    write_between(begin, Buffer::new().format(size).as_bytes(), fragment, out)
}

/// Writes the lines of a string in one fragment: `begin`, its size, `fragment`, its digits and `end`.
fn print_string<K: Sink>(
    begin: &[u8],
    fragment: &[u8],
    end: &[u8],
    content: &[u8],
    out: &mut K,
) -> Result<(), SinkError>
    ensures { WritesAll result (K.told out.old) (begin.now ++ (decimal (length content.now)
        ++ (fragment.now ++ (encode_lower content.now ++ end.now)))) (K.told out.new) }
{
    write_between(
        begin,
        Buffer::new().format(content.len()).as_bytes(),
        fragment,
        out,
    )?;
    write_hex(content, out)?;
    write_in_place(out, end)
}

/// Writes the lines of the text behind a head.
#[inline(always)]
fn print_text_behind<K: Sink>(bytes: &[u8], head: Head, out: &mut K) -> Result<(), SinkError>
    requires within { head.next ≤ length bytes.now }
    requires some { 0 < length (step_calls (string_step 3 head.number (drop head.next bytes.now) [])) }
    ensures { WritesAll result (K.told out.old)
        (sized_script (step_calls (string_step 3 head.number (drop head.next bytes.now) []))) (K.told out.new) }
{
    let content = content_behind(bytes, head);
    print_string(
        b"text_begin ",
        b"\ntext_fragment =",
        b"\ntext_end\n",
        content,
        out,
    )
}

/// Writes the lines of the byte string behind a head.
#[inline(always)]
fn print_binary_behind<K: Sink>(bytes: &[u8], head: Head, out: &mut K) -> Result<(), SinkError>
    requires within { head.next ≤ length bytes.now }
    requires some { 0 < length (step_calls (string_step 2 head.number (drop head.next bytes.now) [])) }
    ensures { WritesAll result (K.told out.old)
        (sized_script (step_calls (string_step 2 head.number (drop head.next bytes.now) []))) (K.told out.new) }
{
    let content = content_behind(bytes, head);
    print_string(
        b"binary_begin ",
        b"\nbinary_fragment =",
        b"\nbinary_end\n",
        content,
        out,
    )
}

/// Writes the lines with which the item of a head begins.
#[inline(always)]
fn print_headed<K: Sink>(bytes: &[u8], head: Head, out: &mut K) -> Result<(), SinkError>
    requires within { head.next ≤ length bytes.now }
    requires some { 0 < length (step_calls (body_step head.major head.number (drop head.next bytes.now) [])) }
    ensures { WritesAll result (K.told out.old)
        (sized_script (step_calls (body_step head.major head.number (drop head.next bytes.now) [])))
        (K.told out.new) }
{
    match head.major {
        0 => print_u64(head.number, out),
        1 => print_negative(head.number, out),
        2 => print_binary_behind(bytes, head, out),
        3 => print_text_behind(bytes, head, out),
        4 => write_in_place(out, b"seq_begin -\n"),
        5 => write_in_place(out, b"map_begin -\n"),
        _ => Ok(()),
    }
}

/// Writes the line of a byte that begins an item of indefinite length, or is `false`, `true` or null. A string in
/// chunks has this size. Another byte has no line.
#[inline(always)]
fn print_mark<K: Sink>(first: u8, size: u128, out: &mut K) -> Result<(), SinkError>
    ensures { WritesAll result (K.told out.old)
        (script_within size (step_calls (first_step (mark_of first) [] None []))) (K.told out.new) }
{
    match first {
        0x5f => print_string_begin(b"binary_begin ", size, b"\nbinary_fragment =", out),
        0x7f => print_string_begin(b"text_begin ", size, b"\ntext_fragment =", out),
        0x9f => write_in_place(out, b"seq_begin -\n"),
        0xbf => write_in_place(out, b"map_begin -\n"),
        0xf4 => write_in_place(out, b"bool false\n"),
        0xf5 => write_in_place(out, b"bool true\n"),
        0xf6 => write_in_place(out, b"null\n"),
        _ => Ok(()),
    }
}

/// Writes the lines with which the item at a place begins. A string in chunks has this size.
#[inline(always)]
fn print_item<K: Sink>(bytes: &[u8], at: usize, size: u128, out: &mut K) -> Result<(), SinkError>
    requires within { at < length bytes.now }
    requires some { 0 < length (step_calls (item_step (drop at bytes.now) [])) }
    ensures { WritesAll result (K.told out.old)
        (script_within size (step_calls (item_step (drop at bytes.now) []))) (K.told out.new) }
{
    if let Some(head) = short_text_head(bytes, at) {
        return print_text_behind(bytes, head, out);
    }
    if is_mark(bytes[at]) {
        return print_mark(bytes[at], size, out);
    }
    match read_head(bytes, at) {
        None => Ok(()),
        Some(head) => print_headed(bytes, head, out),
    }
}

impl Node {
    /// The line before its own, if it is the first node of an item.
    #[inline(always)]
    fn line_before(self) -> &'static [u8]
        ensures { result.now ≡ sized_script (item_begins_before self.kind self.place) }
    {
        match self.kind {
            Kind::Item | Kind::Big | Kind::NegativeBig | Kind::Begin => self.place.line_before(),
            Kind::TextPiece
            | Kind::BinaryPiece
            | Kind::EndText
            | Kind::EndBinary
            | Kind::EndSeq
            | Kind::EndMap => b"",
        }
    }

    /// The line behind its own, if it is the last node of an item.
    #[inline(always)]
    fn line_behind(self) -> &'static [u8]
        ensures { result.now ≡ sized_script (item_ends_behind self.kind self.place) }
    {
        match self.kind {
            Kind::Begin | Kind::TextPiece | Kind::BinaryPiece => b"",
            Kind::Item
            | Kind::Big
            | Kind::NegativeBig
            | Kind::EndText
            | Kind::EndBinary
            | Kind::EndSeq
            | Kind::EndMap => self.place.line_behind(),
        }
    }

    /// Writes its own lines, from the bytes of the document. A string in chunks has this size.
    #[inline(always)]
    fn print_own<K: Sink>(self, size: u128, bytes: &[u8], out: &mut K) -> Result<(), SinkError>
        requires { NodeStands bytes.now self }
        ensures { WritesAll result (K.told out.old)
            (script_within size (node_own_calls self.kind (drop (node_offset self) bytes.now))) (K.told out.new) }
    {
        match self.kind {
            Kind::Item | Kind::Begin => print_item(bytes, self.at(), size, out),
            Kind::Big => print_u128(big_at(bytes, self.at()), out),
            Kind::NegativeBig => print_wide_negative(negative_big_at(bytes, self.at()), out),
            Kind::TextPiece => write_hex(text_chunk_at(bytes, self.at()).as_bytes(), out),
            Kind::BinaryPiece => write_hex(byte_chunk_at(bytes, self.at()), out),
            Kind::EndText => write_in_place(out, b"\ntext_end\n"),
            Kind::EndBinary => write_in_place(out, b"\nbinary_end\n"),
            Kind::EndSeq => write_in_place(out, b"seq_end\n"),
            Kind::EndMap => write_in_place(out, b"map_end\n"),
        }
    }

    /// Writes its lines, from the bytes of the document. A string in chunks has this size.
    #[inline(always)]
    fn print_lines<K: Sink>(self, size: u128, bytes: &[u8], out: &mut K) -> Result<(), SinkError>
        requires { NodeStands bytes.now self }
        ensures { WritesAll result (K.told out.old) (script_within size (cbor_node_calls bytes.now self))
            (K.told out.new) }
    {
        write_in_place(out, self.line_before())?;
        self.print_own(size, bytes, out)?;
        write_in_place(out, self.line_behind())
    }

    /// Does the same, and writes the lines as one piece where they are short.
    fn print<K: Sink>(self, size: u128, bytes: &[u8], out: &mut K) -> Result<(), SinkError>
        requires { NodeStands bytes.now self }
        ensures { WritesAll result (K.told out.old) (script_within size (cbor_node_calls bytes.now self))
            (K.told out.new) }
    {
        let mut buffer = [0; ROOM];
        let mut joined = FixedSink::new(&mut buffer);
        match self.print_lines(size, bytes, &mut joined) {
            Ok(()) => write_all(out, joined.as_slice()),
            Err(_) => self.print_lines(size, bytes, out),
        }
    }
}

/// The length of a node's chunk. Only a node of a chunk has one.
fn chunk_len(bytes: &[u8], node: Node) -> Option<usize>
    requires { NodeStands bytes.now node }
    ensures { IsChunkLength bytes.now node result }
{
    match node.kind {
        Kind::TextPiece => Some(text_chunk_at(bytes, node.at()).len()),
        Kind::BinaryPiece => Some(byte_chunk_at(bytes, node.at()).len()),
        _ => None,
    }
}

/// The length of all chunks that some nodes begin with. It has 128 bits, since no fact about nodes says that their
/// chunks don't overlap.
fn chunks_len(bytes: &[u8], nodes: &[Node]) -> u128
    requires { NodesStand bytes.now nodes.now }
    ensures { result ≡ chunks_length (streamed_items bytes.now nodes.now) }
{
    let mut len: u128 = 0;
    for node in nodes {
        match chunk_len(bytes, *node) {
            None => return len,
            Some(more) => len += more as u128,
        }
    }
    len
}

/// The size of the string that a node begins, by the nodes behind it. What else a node may be needs none.
fn string_size(bytes: &[u8], node: Node, behind: &[Node]) -> u128
    requires { NodesStand bytes.now behind.now }
    ensures { IsStringSize bytes.now node behind.now result }
{
    match node.kind {
        Kind::Begin => chunks_len(bytes, behind),
        _ => 0,
    }
}

/// Writes the lines of nodes, one node after the other, from the bytes of the document.
pub(crate) fn print_nodes<K: Sink>(
    bytes: &[u8],
    nodes: &[Node],
    out: &mut K,
) -> Result<(), SinkError>
    requires { NodesStand bytes.now nodes.now }
    ensures { WritesAll result (K.told out.old) (item_script (streamed_items bytes.now nodes.now))
        (K.told out.new) }
{
    let mut rest = nodes;
    while !rest.is_empty() {
        let node = rest[0];
        rest = behind_first(rest);
        let size = string_size(bytes, node, rest);
        node.print(size, bytes, out)?;
    }
    Ok(())
}
