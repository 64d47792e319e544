//! The JSON of nodes, from the bytes of the document.

ghost use Rattle.std.specs.Prelude.{◌≡◌, ◌≢◌, ◌++◌, ◌+◌, ◌<◌, ◌≤◌, ℕ, List, [], codes, drop, length, take, true, false, None, Some, OnOk};
ghost use Rattle.sval_json.specs.Escape.{escaped};
ghost use Rattle.sval_json.specs.Actions.{◌sets◌, between, set_empty, write};
ghost use Rattle.sval_json.specs.Steps.{writer_steps};
ghost use Rattle.sval_json.specs.WriterLaw.{Does, HasDone, WriterView, writer_view};
ghost use Rattle.sval_json.specs.declared.style.Variants.TheVariants.{Inside};
ghost use Rattle.sval_label.specs.Calls.{Call};
ghost use Rattle.sval_json_read.specs.Joining.{IsJoined};
ghost use Rattle.sval_cbor_read.specs.JoinedNodes.{comma_in, quoted_in, placed_calls, is_first_behind, AreMade, JoinsCalls, MakesCalls};
ghost use Rattle.sval_cbor_read.specs.Reading.{body_step, first_step, item_step, mark_of};
ghost use Rattle.sval_cbor_read.specs.SeenNodes.{cbor_node_calls, item_place_begins, item_place_ends, step_calls, streamed_items, NodesStand, NodeStands};
ghost use Rattle.sval_cbor_read.specs.WrittenItems.{WritesSteps};
ghost use Rattle.sval_cbor_read.specs.declared.node.Place.TheVariants as place;

use crate::head::{Head, read_head, short_text_head};
use crate::node::{Kind, Node, Place};
use crate::node_calls::is_mark;
use itoa::Buffer;
use sval_core::Result;
use sval_io::Sink;
use sval_json::escape::plain_front;
use sval_json::{Error as JsonError, JsonWriter, Variants};
use sval_json_read::joined::Joined;

/// How many bytes an item's text has at most where it is joined.
const SHORT: usize = 32;

/// How many bytes are joined at most before another item.
const FULL: usize = 256 - 64;

impl Place {
    /// Whether it is that of a key.
    #[inline(always)]
    fn is_key(self) -> bool
        ensures key { result ≡ true → self ≡ place.Key }
        ensures other { result ≡ false → (text : List ℕ) → quoted_in self text ≡ codes "\"" ++ (text ++ codes "\"") }
    {
        matches!(self, Place::Key)
    }

    /// Joins the comma that is due before an item in this place.
    #[inline(always)]
    fn join_comma(self, is_first: bool, joined: &mut Joined)
        requires { length joined.old + 1 ≤ 256 }
        ensures joins { joined.new ≡ joined.old ++ comma_in is_first self }
        ensures short { length joined.new ≤ length joined.old + 1 }
    {
        match self {
            Place::Item | Place::Key => if !is_first {
                joined.add(b",");
            },
            Place::Alone | Place::Value => {},
        }
    }

    /// Joins a word, a number or a bracket behind its comma. A key that is none of text isn't joined.
    #[inline(always)]
    fn join_word(self, is_first: bool, word: &[u8], joined: &mut Joined) -> bool
        requires short { length word.now ≤ 40 }
        requires room { length joined.old + 64 ≤ 256 }
        ensures no_key { result ≡ true → self ≢ place.Key }
        ensures joined { IsJoined result joined.old (comma_in is_first self ++ word.now) joined.new }
    {
        if let Place::Key = self {
            return false;
        }
        self.join_comma(is_first, joined);
        joined.add(word);
        true
    }

    /// Joins a short text that needs no escape, behind its comma and between quotes.
    #[inline(always)]
    fn join_text(self, is_first: bool, bytes: &[u8], head: Head, joined: &mut Joined) -> bool
        requires within { head.next + head.number ≤ length bytes.now }
        requires room { length joined.old + 64 ≤ 256 }
        ensures { IsJoined result joined.old
            (comma_in is_first self ++ quoted_in self (escaped (take head.number (drop head.next bytes.now))))
            joined.new }
    {
        if head.number > SHORT as u64 || bytes.len() - head.next < SHORT {
            return false;
        }
        let end = head.next + head.number as usize;
        if plain_front(&bytes[head.next..]) < head.number as usize {
            return false;
        }
        self.join_comma(is_first, joined);
        joined.add(b"\"");
        joined.add_part(bytes, head.next, end);
        if self.is_key() {
            joined.add(b"\":");
        } else {
            joined.add(b"\"");
        }
        true
    }

    /// Joins a closing bracket. What ends as a key isn't joined.
    #[inline(always)]
    fn join_end(self, bracket: &[u8], joined: &mut Joined) -> bool
        requires short { length bracket.now ≤ 40 }
        requires room { length joined.old + 64 ≤ 256 }
        ensures no_key { result ≡ true → self ≢ place.Key }
        ensures joined { IsJoined result joined.old bracket.now joined.new }
    {
        if let Place::Key = self {
            return false;
        }
        joined.add(bracket);
        true
    }
}

/// Joins the item of a head, where its text is short.
fn join_headed(place: Place, is_first: bool, bytes: &[u8], head: Head, joined: &mut Joined) -> bool
    requires within { head.next ≤ length bytes.now }
    requires some { 0 < length (step_calls (body_step head.major head.number (drop head.next bytes.now) [])) }
    requires room { length joined.old + 64 ≤ 256 }
    ensures { JoinsCalls result
        (placed_calls place (step_calls (body_step head.major head.number (drop head.next bytes.now) [])))
        is_first false joined.old joined.new }
{
    match head.major {
        0 => place.join_word(
            is_first,
            Buffer::new().format(head.number).as_bytes(),
            joined,
        ),
        1 if head.number < 1 << 63 => {
            let number = -1 - head.number as i64;
            place.join_word(is_first, Buffer::new().format(number).as_bytes(), joined)
        },
        3 => place.join_text(is_first, bytes, head, joined),
        _ => false,
    }
}

/// Joins the word of a byte that is `false`, `true` or null. Another byte has none.
#[inline(always)]
fn join_mark(place: Place, is_first: bool, first: u8, joined: &mut Joined) -> bool
    requires { length joined.old + 64 ≤ 256 }
    ensures { JoinsCalls result (placed_calls place (step_calls (first_step (mark_of first) [] None [])))
        is_first false joined.old joined.new }
{
    match first {
        0xf4 => place.join_word(is_first, b"false", joined),
        0xf5 => place.join_word(is_first, b"true", joined),
        0xf6 => place.join_word(is_first, b"null", joined),
        _ => false,
    }
}

/// Joins the item at a place of the bytes, where its text is short.
#[inline(always)]
fn join_item(place: Place, is_first: bool, bytes: &[u8], at: usize, joined: &mut Joined) -> bool
    requires within { at < length bytes.now }
    requires some { 0 < length (step_calls (item_step (drop at bytes.now) [])) }
    requires room { length joined.old + 64 ≤ 256 }
    ensures { JoinsCalls result (placed_calls place (step_calls (item_step (drop at bytes.now) [])))
        is_first false joined.old joined.new }
{
    if let Some(head) = short_text_head(bytes, at) {
        return join_headed(place, is_first, bytes, head, joined);
    }
    if is_mark(bytes[at]) {
        return join_mark(place, is_first, bytes[at], joined);
    }
    match read_head(bytes, at) {
        None => false,
        Some(head) => join_headed(place, is_first, bytes, head, joined),
    }
}

/// Joins the bracket of an array or a map that a break ends, where this byte begins one.
#[inline(always)]
fn join_begin_mark(place: Place, is_first: bool, first: u8, joined: &mut Joined) -> bool
    requires { length joined.old + 64 ≤ 256 }
    ensures { JoinsCalls result
        (item_place_begins place ++ (step_calls (first_step (mark_of first) [] None []) ++ []))
        is_first true joined.old joined.new }
{
    match first {
        0x9f => place.join_word(is_first, b"[", joined),
        0xbf => place.join_word(is_first, b"{", joined),
        _ => false,
    }
}

/// Joins the bracket of an array or a map of a definite length, where this head begins one.
#[inline(always)]
fn join_begin_head(
    place: Place,
    is_first: bool,
    bytes: &[u8],
    head: Head,
    joined: &mut Joined,
) -> bool
    requires { length joined.old + 64 ≤ 256 }
    ensures { JoinsCalls result
        (item_place_begins place ++ (step_calls (body_step head.major head.number (drop head.next bytes.now) []) ++ []))
        is_first true joined.old joined.new }
{
    match head.major {
        4 => place.join_word(is_first, b"[", joined),
        5 => place.join_word(is_first, b"{", joined),
        _ => false,
    }
}

/// Joins the bracket of the array or map that begins at a place of the bytes.
#[inline(always)]
fn join_begin(place: Place, is_first: bool, bytes: &[u8], at: usize, joined: &mut Joined) -> bool
    requires within { at < length bytes.now }
    requires room { length joined.old + 64 ≤ 256 }
    ensures { JoinsCalls result
        (item_place_begins place ++ (step_calls (item_step (drop at bytes.now) []) ++ []))
        is_first true joined.old joined.new }
{
    if is_mark(bytes[at]) {
        return join_begin_mark(place, is_first, bytes[at], joined);
    }
    match read_head(bytes, at) {
        None => false,
        Some(head) => join_begin_head(place, is_first, bytes, head, joined),
    }
}

/// Has the writer take what is joined. `is_first` says whether the next item or key is the first one behind it.
#[inline(always)]
fn pass_on<K: Sink>(is_first: bool, joined: &mut Joined, writer: &mut JsonWriter<'_, K>) -> Result
    ensures does { Does (write joined.old sets set_empty is_first) result
        (writer_view K.told writer.old) (writer_view K.told writer.new) }
    ensures empty { OnOk result (joined.new ≡ []) }
{
    writer.write_joined(joined.as_slice(), is_first)?;
    joined.clear();
    Ok(())
}

/// Has the writer take what is joined, unless there is room for another item.
#[inline(always)]
fn make_room<K: Sink>(is_first: bool, joined: &mut Joined, writer: &mut JsonWriter<'_, K>) -> Result
    ensures room { OnOk result (length joined.new + 64 ≤ 256) }
    ensures made { (start : WriterView) (calls : List Call)
        → AreMade start calls (writer_view K.told writer.old) (Some is_first) joined.old
        → MakesCalls result start calls (writer_view K.told writer.new) (Some is_first) joined.new }
{
    if joined.len() <= FULL {
        return Ok(());
    }
    pass_on(is_first, joined, writer)
}

impl Node {
    /// Whether the next item or key is the first one behind it.
    #[inline(always)]
    fn is_begin(self) -> bool
        ensures { result ≡ is_first_behind self.kind }
    {
        matches!(self.kind, Kind::Begin)
    }

    /// Joins the node's JSON, where it is short. A string in chunks, a byte string, a key that is no text and a number of
    /// 128 bits aren't joined.
    #[inline(always)]
    fn join(self, is_first: bool, bytes: &[u8], joined: &mut Joined) -> bool
        requires stands { NodeStands bytes.now self }
        requires room { length joined.old + 64 ≤ 256 }
        ensures { JoinsCalls result (cbor_node_calls bytes.now self) is_first (is_first_behind self.kind)
            joined.old joined.new }
    {
        match self.kind {
            Kind::Item => join_item(self.place, is_first, bytes, self.at(), joined),
            Kind::Begin => join_begin(self.place, is_first, bytes, self.at(), joined),
            Kind::EndSeq => self.place.join_end(b"]", joined),
            Kind::EndMap => self.place.join_end(b"}", joined),
            Kind::Big
            | Kind::NegativeBig
            | Kind::TextPiece
            | Kind::BinaryPiece
            | Kind::EndText
            | Kind::EndBinary => false,
        }
    }

    /// Has the writer take the node's calls, where nothing is joined.
    #[inline(never)]
    fn write_calls<K: Sink>(
        self,
        bytes: &[u8],
        is_first: &mut Option<bool>,
        writer: &mut JsonWriter<'_, K>,
    ) -> Result
        requires { NodeStands bytes.now self }
        ensures { (start : WriterView) (calls : List Call) → start.style ≡ Inside
            → HasDone (writer_steps Inside calls) start (writer_view K.told writer.old)
            → MakesCalls result start (calls ++ cbor_node_calls bytes.now self) (writer_view K.told writer.new)
            is_first.new [] }
    {
        self.stream(bytes, writer)?;
        *is_first = writer.is_first();
        Ok(())
    }

    /// Joins the node's JSON, where it is short and an item or a key may come. Else has the writer take what is joined, and
    /// then the node's calls.
    #[inline(always)]
    fn write_next<K: Sink>(
        self,
        bytes: &[u8],
        is_first: &mut Option<bool>,
        joined: &mut Joined,
        writer: &mut JsonWriter<'_, K>,
    ) -> Result
        requires { NodeStands bytes.now self }
        ensures { (start : WriterView) (calls : List Call) → start.style ≡ Inside
            → AreMade start calls (writer_view K.told writer.old) is_first.old joined.old
            → MakesCalls result start (calls ++ cbor_node_calls bytes.now self) (writer_view K.told writer.new)
            is_first.new joined.new }
    {
        let Some(first) = *is_first else {
            return self.write_calls(bytes, is_first, writer);
        };
        make_room(first, joined, writer)?;
        if self.join(first, bytes, joined) {
            *is_first = Some(self.is_begin());
            return Ok(());
        }
        pass_on(first, joined, writer)?;
        self.write_calls(bytes, is_first, writer)
    }
}

/// Has a writer that has taken no call take those of nodes.
fn write_each<K: Sink>(bytes: &[u8], nodes: &[Node], writer: &mut JsonWriter<'_, K>) -> Result
    requires stand { NodesStand bytes.now nodes.now }
    requires style { (writer_view K.told writer.old).style ≡ Inside }
    requires start { (writer_view K.told writer.old).state ≡ between true }
    ensures { Does (writer_steps Inside (streamed_items bytes.now nodes.now)) result
        (writer_view K.told writer.old) (writer_view K.told writer.new) }
{
    let mut joined = Joined::new();
    let mut is_first = Some(true);
    for node in nodes {
        node.write_next(bytes, &mut is_first, &mut joined, writer)?;
    }
    match is_first {
        None => Ok(()),
        Some(first) => pass_on(first, &mut joined, writer),
    }
}

/// Writes the JSON of nodes, from the bytes of the document. Short items are joined, so that the sink takes many of them
/// at once.
pub(crate) fn write_nodes<K: Sink>(
    bytes: &[u8],
    nodes: &[Node],
    out: &mut K,
) -> Result<(), JsonError>
    requires { NodesStand bytes.now nodes.now }
    ensures { WritesSteps (streamed_items bytes.now nodes.now) result (K.told out.old) (K.told out.new) }
{
    let mut writer = JsonWriter::new(out, Variants::Inside);
    match write_each(bytes, nodes, &mut writer) {
        Ok(()) => Ok(()),
        Err(_) => Err(writer.error()),
    }
}
