//! What the fields of a line say.

ghost use Rattle.std.specs.Prelude.{◌≡◌, ◌≤◌, ◌-◌, ◌^◌, None, option_map, option_and_then, IfOk, drop, length};
ghost use Rattle.std.specs.Str.{IsUtf8};
ghost use Rattle.sval_label.specs.Ranges.{is_index};
ghost use Rattle.sval_script.specs.Lines as script;
ghost use Rattle.sval_script.specs.FieldValues.{StoresText, StoresBytes, StoresLabel, StoresLabelField};
ghost use Rattle.sval_script.specs.FieldValues.{parts_of, part_and_tag, index_number, index_of, index_field_of};
ghost use Rattle.sval_script.specs.NameNumbers.{label_count, label_len, index_count};
ghost use Rattle.sval_script.specs.declared.field.LineError.TheVariants.{NoMemory};

use crate::bytes::Bytes;
use crate::number::{integer, natural};
use crate::short::colon;
use crate::tag::TagField;
use crate::text::is_text;
use std::alloc::{AllocError, AllocFailed};

/// Why a line wasn't read.
#[derive(Clone, Copy)]
pub(crate) enum LineError {
    /// It spells no call.
    Bad,
    /// There was no memory for what it says, or it has a text or a binary of 4 GiB or more.
    NoMemory,
}

impl<T: Drop> From<AllocFailed<T>> for LineError {
    ghost from_gives = { λ _ r. r ≡ NoMemory };

    fn from(_e: AllocFailed<T>) -> LineError {
        LineError::NoMemory
    }
}

impl From<AllocError> for LineError {
    ghost from_gives = { λ _ r. r ≡ NoMemory };

    fn from(_e: AllocError) -> LineError {
        LineError::NoMemory
    }
}

/// A label that was read. Its text is in a store.
#[derive(Clone, Copy)]
pub(crate) struct LabelRead {
    /// Its tag.
    pub(crate) tag: TagField,
    /// How many bytes its text has.
    pub(crate) len: u32,
}

/// What a field says of a label, but for its text.
#[derive(Clone, Copy)]
pub(crate) enum LabelField {
    /// No label.
    Absent,
    /// A label with this tag.
    Present(TagField),
}

impl LabelField {
    /// How many numbers say the length of the label's text.
    pub(crate) fn count(self) -> usize
        ensures { result ≡ label_count self }
    {
        match self {
            LabelField::Absent => 0,
            LabelField::Present(_) => 1,
        }
    }

    /// How many bytes the label's text has, where these numbers begin with it.
    pub(crate) fn len(self, numbers: &[u64]) -> usize
        requires { label_count self ≤ length numbers.now }
        ensures { result ≡ label_len self numbers.now }
    {
        match self {
            LabelField::Absent => 0,
            LabelField::Present(_) => numbers[0] as usize,
        }
    }
}

/// How the number of an index is kept in 64 bits.
#[derive(Clone, Copy)]
pub(crate) enum Sign {
    /// As it is.
    Natural,
    /// As the bits of a number with its sign.
    Signed,
}

/// An index that was read.
#[derive(Clone, Copy)]
pub(crate) struct IndexRead {
    pub(crate) sign: Sign,
    pub(crate) tag: TagField,
    pub(crate) number: u64,
}

/// What a field says of an index, but for its number.
#[derive(Clone, Copy)]
pub(crate) enum IndexField {
    /// No index.
    Absent,
    /// An index with this tag.
    Present(Sign, TagField),
}

impl IndexField {
    /// How many numbers the index has.
    pub(crate) fn count(self) -> usize
        ensures { result ≡ index_count self }
    {
        match self {
            IndexField::Absent => 0,
            IndexField::Present(_, _) => 1,
        }
    }
}

/// A truth value.
#[inline(never)]
pub(crate) fn truth(field: &[u8]) -> Option<bool>
    ensures { result ≡ script.truth field.now }
{
    match field {
        b"true" => Some(true),
        b"false" => Some(false),
        _ => None,
    }
}

/// A size, or `-` where there is none.
#[inline(always)]
pub(crate) fn size(field: &[u8]) -> Option<Option<usize>>
    ensures { result ≡ script.size field.now }
{
    match field {
        b"-" => Some(None),
        _ => Some(Some(natural(field)? as usize)),
    }
}

/// What comes before a field's `:`, and the tag behind it.
#[inline(always)]
fn split_tag(field: &[u8]) -> Option<(&[u8], TagField)>
    ensures { option_map part_and_tag result ≡ parts_of (script.cut_at 58 field.now) }
{
    match colon(field) {
        None => Some((field, TagField::Absent)),
        Some(end) => Some((&field[..end], TagField::read(&field[end + 1..])?)),
    }
}

/// The number of an index.
#[inline(always)]
fn index_of_digits(field: &[u8]) -> Option<(Sign, u64)>
    ensures { option_map index_number result ≡ option_and_then (script.keep is_index)
        (script.signed_integer field.now) }
{
    match field {
        [b'-', ..] => Some((Sign::Signed, integer(field)?.cast_unsigned())),
        _ => Some((Sign::Natural, natural(field)?)),
    }
}

/// An index.
#[inline(always)]
pub(crate) fn index(field: &[u8]) -> Option<IndexRead>
    ensures { option_map index_of result ≡ script.index field.now }
{
    let (part, tag) = split_tag(field)?;
    let (sign, number) = index_of_digits(part)?;
    Some(IndexRead { sign, tag, number })
}

/// An index, or `-` where there is none, and its number.
#[inline(always)]
pub(crate) fn index_or_dash(field: &[u8]) -> Option<(IndexField, u64)>
    ensures { option_map index_field_of result ≡ script.or_dash script.index field.now }
{
    match field {
        b"-" => Some((IndexField::Absent, 0)),
        _ => {
            let index = index(field)?;
            Some((IndexField::Present(index.sign, index.tag), index.number))
        }
    }
}

/// The length as lines keep it, in 32 bits.
pub(crate) fn kept_len(len: usize) -> Result<u32, LineError>
    ensures same { IfOk result (λ kept. kept ≡ len) }
    ensures no_memory { ¬ (result ≡ Err LineError.Bad) }
    ensures too_long { result ≡ Err LineError.NoMemory → 2 ^ 32 ≤ len }
{
    u32::try_from(len).map_err(|_| LineError::NoMemory)
}

/// Answers how many bytes the store has from `start` on, if they are a text.
#[inline(always)]
pub(crate) fn text_len(store: &Bytes, start: usize) -> Result<u32, LineError>
    requires { start ≤ length store.now.items }
    ensures same { IfOk result (λ len. len ≡ length store.now.items - start) }
    ensures text { IfOk result (λ _. IsUtf8 (drop start store.now.items)) }
    ensures bad { result ≡ Err LineError.Bad → ¬ (IsUtf8 (drop start store.now.items)) }
{
    if is_text(&store.as_slice()[start..]) {
        kept_len(store.len() - start)
    } else {
        Err(LineError::Bad)
    }
}

/// Puts the text that a field spells behind what the store has, and answers how many bytes it has.
#[inline(never)]
pub(crate) fn store_text(store: &mut Bytes, field: &[u8]) -> Result<u32, LineError>
    ensures stored { IfOk result (λ len. StoresText field.now store.old.items store.new.items len) }
    ensures bad { result ≡ Err LineError.Bad → script.text field.now ≡ None }
{
    let [b'=', digits @ ..] = field else {
        return Err(LineError::Bad);
    };
    let start = store.len();
    store.decode(digits)?;
    text_len(store, start)
}

/// Puts the bytes that a field spells behind what the store has, and answers how many they are.
pub(crate) fn store_bytes(store: &mut Bytes, field: &[u8]) -> Result<u32, LineError>
    ensures stored { IfOk result (λ len. StoresBytes field.now store.old.items store.new.items len) }
    ensures bad { result ≡ Err LineError.Bad → script.bytes field.now ≡ None }
{
    let [b'=', digits @ ..] = field else {
        return Err(LineError::Bad);
    };
    let start = store.len();
    store.decode(digits)?;
    kept_len(store.len() - start)
}

/// Puts a label's text behind what the store has.
#[inline(always)]
pub(crate) fn store_label(store: &mut Bytes, field: &[u8]) -> Result<LabelRead, LineError>
    ensures stored { IfOk result (λ label. StoresLabel field.now store.old.items store.new.items label) }
    ensures bad { result ≡ Err LineError.Bad → script.label field.now ≡ None }
{
    let (part, tag) = split_tag(field).ok_or(LineError::Bad)?;
    let len = store_text(store, part)?;
    Ok(LabelRead { tag, len })
}

/// Puts a label's text behind what the store has, or nothing for `-`, and answers how many bytes it has.
#[inline(always)]
pub(crate) fn store_label_or_dash(
    store: &mut Bytes,
    field: &[u8],
) -> Result<(LabelField, u32), LineError>
    ensures stored { IfOk result (λ read.
        StoresLabelField field.now store.old.items store.new.items read.0 read.1) }
    ensures bad { result ≡ Err LineError.Bad → script.or_dash script.label field.now ≡ None }
{
    match field {
        b"-" => Ok((LabelField::Absent, 0)),
        _ => {
            let label = store_label(store, field)?;
            Ok((LabelField::Present(label.tag), label.len))
        }
    }
}
