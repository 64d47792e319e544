//! The JSON of a tape (RFC 8259), appended as the tape is read.
//!
//! It goes by the commonest calls, and gives up at any other. It makes no calls, so nothing has to check them: each kind
//! of value is read whole, and the end of a part or of a container is compared with its begin byte by byte.

ghost use Rattle.std.specs.Prelude.{◌≡◌, ◌++◌, ◌∷◌, ◌==◌, ◌+◌, true, false, IfSome, option_map};
ghost use Rattle.sval_label.specs.Texts.{truth_text};
ghost use Rattle.sval_core.specs.Spells.{IsSize};
ghost use Rattle.sval_core.specs.Trees.{Ordinary, text_kind};
ghost use Rattle.sval_tape.specs.ReadCalls.{label_read, name_read, tag_read, tape_int_type};
ghost use Rattle.sval_tape.specs.Tapes.{name_bytes, type_number};
ghost use Rattle.sval_tape.specs.JsonAtFront.{IsJsonOf, ValueAt, FieldsAt, FieldAt, ItemsAt, ItemAt, SlotAt};
ghost use Rattle.sval_tape.specs.JsonAtFront.{begin_number, end_number, number_name, part_begin_number, part_end_number};

mod names;
mod pieces;
mod text;

use crate::ints::{IntType, read_int};
use crate::json::names::{behind, behind_end, behind_none, behind_number, behind_some};
use crate::json::pieces::{put, put_comma, put_key, put_own};
use crate::json::text::{number, text};
use crate::read_call::{LabelRead, NameRead, TagRead};
use crate::reading::{read_field, read_field_place, read_name, read_size, read_truth};
use itoa::Buffer;
use std::alloc::Global;
use sval_io::VecSink;

/// How many values may be nested. A value that is deeper is left to its calls, since each level takes room on the stack.
const LEVELS: usize = 64;

/// What the fields of a container say.
#[derive(Clone, Copy)]
enum FieldKind {
    /// A label: in a record.
    Labels,
    /// A label and an index: in a record that is a tuple too.
    LabelsAndIndexes,
}

impl FieldKind {
    /// The number of the call that begins a field.
    #[inline(always)]
    fn part_begin(self) -> u8
        ensures { result ≡ part_begin_number self }
    {
        match self {
            FieldKind::Labels => 39,
            FieldKind::LabelsAndIndexes => 41,
        }
    }

    /// The number of the call that ends a field.
    #[inline(always)]
    fn part_end(self) -> u8
        ensures { result ≡ part_end_number self }
    {
        match self {
            FieldKind::Labels => 45,
            FieldKind::LabelsAndIndexes => 47,
        }
    }

    /// The number of the call that ends the container.
    #[inline(always)]
    fn end(self) -> u8
        ensures { result ≡ end_number self }
    {
        match self {
            FieldKind::Labels => 33,
            FieldKind::LabelsAndIndexes => 35,
        }
    }
}

/// Whether a size that is given is this one.
#[inline(always)]
fn is_size(size: Option<usize>, count: usize) -> bool
    ensures { result ≡ true → IsSize size count }
{
    match size {
        Some(size) => size == count,
        None => true,
    }
}

/// A whole number.
fn int<'t>(kind: IntType, bytes: &'t [u8], out: &mut VecSink) -> Option<&'t [u8]>
    ensures { IfSome result (λ rest.
        ValueAt ((2 + type_number (tape_int_type kind)) ∷ bytes.now) rest.now out.old.bytes out.new.bytes) }
{
    let (number, rest) = read_int(kind, bytes)?;
    put(out, number.format(&mut Buffer::new()).as_bytes())?;
    Some(rest)
}

/// How a truth value is spelled.
#[inline(always)]
fn spelled(value: bool) -> &'static str
    ensures { result.now ≡ truth_text value }
{
    if value { "true" } else { "false" }
}

/// A truth value.
fn truth<'t>(bytes: &'t [u8], out: &mut VecSink) -> Option<&'t [u8]>
    ensures { IfSome result (λ rest. ValueAt (1 ∷ bytes.now) rest.now out.old.bytes out.new.bytes) }
{
    let (value, rest) = read_truth(bytes)?;
    put(out, spelled(value).as_bytes())?;
    Some(rest)
}

/// No value.
#[inline(always)]
fn null<'t>(bytes: &'t [u8], out: &mut VecSink) -> Option<&'t [u8]>
    ensures { IfSome result (λ rest. ValueAt (0 ∷ bytes.now) rest.now out.old.bytes out.new.bytes) }
{
    put(out, b"null")?;
    Some(bytes)
}

/// A tag by itself.
fn alone<'t>(bytes: &'t [u8], out: &mut VecSink) -> Option<&'t [u8]>
    ensures { IfSome result (λ rest. ValueAt (20 ∷ bytes.now) rest.now out.old.bytes out.new.bytes) }
{
    if let Some(rest) = behind_none(bytes) {
        put(out, b"null")?;
        return Some(rest);
    }
    let (name, rest) = read_name(bytes)?;
    put_own(name, out)?;
    Some(rest)
}

/// An enum whose variant is a tag by itself.
fn variant<'t>(bytes: &'t [u8], out: &mut VecSink) -> Option<&'t [u8]>
    ensures { IfSome result (λ rest. ValueAt (22 ∷ bytes.now) rest.now out.old.bytes out.new.bytes) }
{
    let (_name, inner) = read_name(bytes)?;
    let (own, rest) = read_name(behind(20, inner)?)?;
    put_own(own, out)?;
    behind_end(23, bytes, inner, rest)
}

/// What a field's begin and its end say: its label, and what follows.
#[inline(always)]
fn slot<'t>(kind: FieldKind, bytes: &'t [u8]) -> Option<(LabelRead<'t>, &'t [u8])>
    ensures { IfSome result (λ x. SlotAt kind bytes.now (label_read x.0) x.1.now) }
{
    match kind {
        FieldKind::Labels => {
            let ((_tag, label), rest) = read_field(bytes)?;
            Some((label, rest))
        }
        FieldKind::LabelsAndIndexes => {
            let ((_tag, label, _index), rest) = read_field_place(bytes)?;
            Some((label, rest))
        }
    }
}

/// Whether text under this tag is ordinary text.
#[inline(always)]
fn is_ordinary(tag: Option<TagRead>) -> bool
    ensures { result ≡ true → text_kind (option_map tag_read tag) ≡ Ordinary }
{
    match tag {
        Some(TagRead::Number | TagRead::JsonValue | TagRead::JsonText | TagRead::JsonNumber) => {
            false
        }
        _ => true,
    }
}

/// A number under its tag alone. `bytes` follow that name.
fn tagged_number<'t>(bytes: &'t [u8], out: &mut VecSink) -> Option<&'t [u8]>
    ensures { IfSome result (λ rest. ValueAt (24 ∷ name_bytes number_name ++ bytes.now) rest.now
        out.old.bytes out.new.bytes) }
{
    let rest = number(bytes, out)?;
    behind_number(behind(25, rest)?)
}

/// A value under a name.
#[cycle(values)]
fn tagged<'t>(bytes: &'t [u8], depth: usize, out: &mut VecSink) -> Option<&'t [u8]>
    ensures { IfSome result (λ rest. ValueAt (24 ∷ bytes.now) rest.now out.old.bytes out.new.bytes) }
{
    if let Some(inner) = behind_number(bytes) {
        return tagged_number(inner, out);
    }
    if depth == 0 {
        return None;
    }
    if let Some(inner) = behind_some(bytes) {
        let rest = value(inner, depth - 1, out)?;
        return behind_some(behind(25, rest)?);
    }
    let (name, inner) = read_name(bytes)?;
    if !is_ordinary(name.tag) {
        return None;
    }
    let rest = value(inner, depth - 1, out)?;
    behind_end(25, bytes, inner, rest)
}

/// A field: its key, its value and its end. `bytes` follow the number of its begin.
#[cycle(values)]
fn field<'t>(
    kind: FieldKind,
    first: bool,
    bytes: &'t [u8],
    depth: usize,
    out: &mut VecSink,
) -> Option<&'t [u8]>
    ensures { IfSome result (λ rest. FieldAt kind first (part_begin_number kind ∷ bytes.now) rest.now
        out.old.bytes out.new.bytes) }
{
    if depth == 0 {
        return None;
    }
    let (label, inner) = slot(kind, bytes)?;
    put_key(first, label, out)?;
    let rest = value(inner, depth - 1, out)?;
    behind_end(kind.part_end(), bytes, inner, rest)
}

/// The fields of a container, as many as there are, and their number.
#[cycle(values)]
fn fields<'t>(
    kind: FieldKind,
    bytes: &'t [u8],
    depth: usize,
    out: &mut VecSink,
) -> Option<(&'t [u8], usize)>
    ensures { IfSome result (λ x. FieldsAt kind true bytes.now x.0.now out.old.bytes out.new.bytes x.1) }
{
    let mut rest = bytes;
    for count in 0..bytes.len() {
        let Some(operand) = behind(kind.part_begin(), rest) else {
            return Some((rest, count));
        };
        rest = field(kind, count == 0, operand, depth, out)?;
    }
    None
}

/// A container with a name and fields. `bytes` follow the number of its begin.
#[cycle(values)]
fn container<'t>(
    kind: FieldKind,
    bytes: &'t [u8],
    depth: usize,
    out: &mut VecSink,
) -> Option<&'t [u8]>
    ensures { IfSome result (λ rest. ValueAt (begin_number kind ∷ bytes.now) rest.now out.old.bytes out.new.bytes) }
{
    let (_name, sized) = read_name(bytes)?;
    let (size, inner) = read_size(sized)?;
    put(out, b"{")?;
    let (rest, count) = fields(kind, inner, depth, out)?;
    if !is_size(size, count) {
        return None;
    }
    put(out, b"}")?;
    behind_end(kind.end(), bytes, sized, rest)
}

/// An item of a sequence: its value and its end. `bytes` follow the number of its begin.
#[cycle(values)]
fn item<'t>(first: bool, bytes: &'t [u8], depth: usize, out: &mut VecSink) -> Option<&'t [u8]>
    ensures { IfSome result (λ rest. ItemAt first (36 ∷ bytes.now) rest.now out.old.bytes out.new.bytes) }
{
    if depth == 0 {
        return None;
    }
    put_comma(first, out)?;
    let rest = value(bytes, depth - 1, out)?;
    behind(42, rest)
}

/// The items of a sequence, as many as there are, and their number.
#[cycle(values)]
fn items<'t>(bytes: &'t [u8], depth: usize, out: &mut VecSink) -> Option<(&'t [u8], usize)>
    ensures { IfSome result (λ x. ItemsAt true bytes.now x.0.now out.old.bytes out.new.bytes x.1) }
{
    let mut rest = bytes;
    for count in 0..bytes.len() {
        let Some(inner) = behind(36, rest) else {
            return Some((rest, count));
        };
        rest = item(count == 0, inner, depth, out)?;
    }
    None
}

/// A sequence. `bytes` follow the number of its begin.
#[cycle(values)]
fn sequence<'t>(bytes: &'t [u8], depth: usize, out: &mut VecSink) -> Option<&'t [u8]>
    ensures { IfSome result (λ rest. ValueAt (26 ∷ bytes.now) rest.now out.old.bytes out.new.bytes) }
{
    let (size, inner) = read_size(bytes)?;
    put(out, b"[")?;
    let (rest, count) = items(inner, depth, out)?;
    if !is_size(size, count) {
        return None;
    }
    put(out, b"]")?;
    behind(31, rest)
}

/// The value at the front of bytes.
#[cycle(values)]
fn value<'t>(bytes: &'t [u8], depth: usize, out: &mut VecSink) -> Option<&'t [u8]>
    ensures { IfSome result (λ rest. ValueAt bytes.now rest.now out.old.bytes out.new.bytes) }
{
    let (number, operand) = bytes.split_first()?;
    match *number {
        0 => null(operand, out),
        1 => truth(operand, out),
        2 => int(IntType::U8, operand, out),
        3 => int(IntType::U16, operand, out),
        4 => int(IntType::U32, operand, out),
        5 => int(IntType::U64, operand, out),
        7 => int(IntType::I8, operand, out),
        8 => int(IntType::I16, operand, out),
        9 => int(IntType::I32, operand, out),
        10 => int(IntType::I64, operand, out),
        12 => text(operand, out),
        20 => alone(operand, out),
        22 => variant(operand, out),
        24 => tagged(operand, depth, out),
        26 => sequence(operand, depth, out),
        28 => container(FieldKind::Labels, operand, depth, out),
        30 => container(FieldKind::LabelsAndIndexes, operand, depth, out),
        _ => None,
    }
}

/// The JSON of a tape, without white space, if its calls are of the commonest kinds.
///
/// It writes as it reads, and makes no calls. So it takes a third of the time of [`stream_tape`](crate::stream_tape)
/// through a check. It takes memory for the JSON alone: as many bytes as the tape has, and more where the JSON is longer.
///
/// The commonest kinds are `null`, truth values, whole numbers of 64 bits, texts, numbers under their tag with a
/// fraction and no exponent, sequences, records, records that are tuples too, tags with a label, enums that hold a tag alone,
/// and values under a name whose tag doesn't say how text is meant. At most 64 may be nested. `None` says nothing of the
/// tape: its calls may be of another kind or no whole value, or memory may be wanting.
///
/// ```
/// let tape = b"\x1a\x00\x24\x01\x01\x2a\x1f";
/// let json = json_at_once(alloc, tape);
/// assert!(rt; json.is_some_and(|json| json.as_slice() == b"[true]".as_slice()));
/// ```
pub fn json_at_once(alloc: Global, tape: &[u8]) -> Option<Vec<u8>>
    ensures { IfSome result (λ json. IsJsonOf tape.now json.items) }
{
    let Ok(mut out) = VecSink::with_capacity(alloc, tape.len()) else {
        return None;
    };
    let rest = value(tape, LEVELS, &mut out)?;
    if rest.is_empty() {
        return Some(out.into_vec());
    }
    None
}
