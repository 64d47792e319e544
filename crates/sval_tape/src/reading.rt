//! Operands, read from the front of bytes.

ghost use Rattle.std.specs.Prelude.{◌≡◌, Some, None, option_map, if◌then◌else◌};
ghost use Rattle.sval_label.specs.Ranges.{is_index};
ghost use Rattle.sval_label.specs.Tags.{is_tag_name};
ghost use Rattle.sval_tape.specs.Reading as tape;
ghost use Rattle.sval_tape.specs.ReadCalls.{tag_read, index_number_read, index_read, label_read, name_read};

use crate::ints::unzigzag;
use crate::read_call::{IndexNumber, IndexRead, LabelRead, NameRead, TagRead};
use crate::text::{as_text, is_text};

/// 2^121: above seven bits, a number of 128 bits has less.
const ABOVE: u128 = 0x0200_0000_0000_0000_0000_0000_0000_0000;

/// A number in `room` bytes at most.
#[inline(never)]
fn read_number_in(bytes: &[u8], room: usize) -> Option<(u128, &[u8])>
    ensures { option_map (λ x. (x.0, x.1.now)) result ≡ tape.leb128_at_in room bytes.now }
{
    if room == 0 {
        return None;
    }
    let [byte, rest @ ..] = bytes else {
        return None;
    };
    if *byte < 128 {
        return Some((u128::from(*byte), rest));
    }
    let (high, behind) = read_number_in(rest, room - 1)?;
    if high == 0 || high >= ABOVE {
        return None;
    }
    Some((u128::from(*byte - 128) + 128 * high, behind))
}

/// A number.
#[tactic(auto, unfolding(crate::specs::Reading::leb128_at))]
#[inline(always)]
pub(crate) fn read_number(bytes: &[u8]) -> Option<(u128, &[u8])>
    ensures { option_map (λ x. (x.0, x.1.now)) result ≡ tape.leb128_at bytes.now }
{
    if let [byte, rest @ ..] = bytes {
        if *byte < 128 {
            return Some((u128::from(*byte), rest));
        }
    }
    read_number_in(bytes, 19)
}

/// Bytes behind their number.
#[tactic(auto, unfolding(crate::specs::Reading::block_at))]
#[inline(always)]
pub(crate) fn read_block(bytes: &[u8]) -> Option<(&[u8], &[u8])>
    ensures { option_map (λ x. (x.0.now, x.1.now)) result ≡ tape.block_at bytes.now }
{
    let (len, rest) = read_number(bytes)?;
    if (rest.len() as u128) < len {
        return None;
    }
    Some(rest.split_at(len as usize))
}

/// A text.
#[tactic(auto, unfolding(crate::specs::Reading::text_at))]
pub(crate) fn read_text(bytes: &[u8]) -> Option<(&str, &[u8])>
    ensures { option_map (λ x. (x.0.now, x.1.now)) result ≡ tape.text_at bytes.now }
{
    let (block, rest) = read_block(bytes)?;
    match as_text(block) {
        Some(text) => Some((text, rest)),
        None => None,
    }
}

/// The tag of the ten with this text.
fn known_tag(text: &[u8]) -> Option<TagRead>
    ensures { option_map tag_read result ≡ (if is_tag_name text.now then Some text.now else None) }
{
    if is_text(text, b"VALUE_IDENT") {
        return Some(TagRead::ValueIdent);
    }
    if is_text(text, b"VALUE_OFFSET") {
        return Some(TagRead::ValueOffset);
    }
    if is_text(text, b"RUST_OPTION_SOME") {
        return Some(TagRead::RustOptionSome);
    }
    if is_text(text, b"RUST_OPTION_NONE") {
        return Some(TagRead::RustOptionNone);
    }
    if is_text(text, b"NUMBER") {
        return Some(TagRead::Number);
    }
    if is_text(text, b"RUST_UNIT") {
        return Some(TagRead::RustUnit);
    }
    if is_text(text, b"CONSTANT_SIZE") {
        return Some(TagRead::ConstantSize);
    }
    if is_text(text, b"JSON_VALUE") {
        return Some(TagRead::JsonValue);
    }
    if is_text(text, b"JSON_TEXT") {
        return Some(TagRead::JsonText);
    }
    if is_text(text, b"JSON_NUMBER") {
        return Some(TagRead::JsonNumber);
    }
    None
}

/// A tag of the ten.
#[tactic(auto, unfolding(crate::specs::Reading::tag_at))]
#[inline(always)]
pub(crate) fn read_tag(bytes: &[u8]) -> Option<(TagRead, &[u8])>
    ensures { option_map (λ x. (tag_read x.0, x.1.now)) result ≡ tape.tag_at bytes.now }
{
    let (block, rest) = read_block(bytes)?;
    match known_tag(block) {
        Some(tag) => Some((tag, rest)),
        None => None,
    }
}

/// A tag, where one is given.
#[tactic(auto, unfolding(crate::specs::Reading::tag_option_at))]
#[inline(always)]
fn read_tag_option(bytes: &[u8]) -> Option<(Option<TagRead>, &[u8])>
    ensures { option_map (λ x. (option_map tag_read x.0, x.1.now)) result ≡ tape.tag_option_at bytes.now }
{
    match bytes {
        [] => None,
        [0, rest @ ..] => Some((None, rest)),
        [1, rest @ ..] => {
            let (tag, behind) = read_tag(rest)?;
            Some((Some(tag), behind))
        }
        [_, ..] => None,
    }
}

/// A truth value.
#[inline(always)]
pub(crate) fn read_truth(bytes: &[u8]) -> Option<(bool, &[u8])>
    ensures { option_map (λ x. (x.0, x.1.now)) result ≡ tape.truth_at bytes.now }
{
    match bytes {
        [] => None,
        [0, rest @ ..] => Some((false, rest)),
        [1, rest @ ..] => Some((true, rest)),
        [_, ..] => None,
    }
}

/// A size, where one is given.
#[tactic(auto, unfolding(crate::specs::Reading::size_at))]
#[inline(always)]
pub(crate) fn read_size(bytes: &[u8]) -> Option<(Option<usize>, &[u8])>
    ensures { option_map (λ x. (x.0, x.1.now)) result ≡ tape.size_at bytes.now }
{
    match bytes {
        [] => None,
        [0, rest @ ..] => Some((None, rest)),
        [1, rest @ ..] => {
            let (size, behind) = read_number(rest)?;
            if size >= 0x1_0000_0000_0000_0000 {
                return None;
            }
            Some((Some(size as usize), behind))
        }
        [_, ..] => None,
    }
}

/// A label.
#[tactic(auto, unfolding(crate::specs::Reading::label_at))]
#[inline(always)]
pub(crate) fn read_label(bytes: &[u8]) -> Option<(LabelRead<'_>, &[u8])>
    ensures { option_map (λ x. (label_read x.0, x.1.now)) result ≡ tape.label_at bytes.now }
{
    let (text, rest) = read_text(bytes)?;
    let (tag, behind) = read_tag_option(rest)?;
    Some((LabelRead { text, tag }, behind))
}

/// The number of an index, where it is in the range of indexes.
#[inline(always)]
fn index_number(number: i128) -> Option<IndexNumber>
    ensures { option_map index_number_read result ≡ (if is_index number then Some number else None) }
{
    if let Ok(number) = u64::try_from(number) {
        return Some(IndexNumber::Unsigned(number));
    }
    match i64::try_from(number) {
        Ok(number) => Some(IndexNumber::Signed(number)),
        Err(_) => None,
    }
}

/// The number of an index.
#[tactic(auto, unfolding(crate::specs::Reading::index_number_at))]
#[inline(always)]
fn read_index_number(bytes: &[u8]) -> Option<(IndexNumber, &[u8])>
    ensures { option_map (λ x. (index_number_read x.0, x.1.now)) result ≡ tape.index_number_at bytes.now }
{
    let (number, rest) = read_number(bytes)?;
    match index_number(unzigzag(number)) {
        Some(number) => Some((number, rest)),
        None => None,
    }
}

/// An index.
#[tactic(auto, unfolding(crate::specs::Reading::index_at))]
#[inline(always)]
pub(crate) fn read_index(bytes: &[u8]) -> Option<(IndexRead, &[u8])>
    ensures { option_map (λ x. (index_read x.0, x.1.now)) result ≡ tape.index_at bytes.now }
{
    let (number, rest) = read_index_number(bytes)?;
    let (tag, behind) = read_tag_option(rest)?;
    Some((IndexRead { number, tag }, behind))
}

/// A label, where one is given.
#[inline(always)]
fn read_label_option(bytes: &[u8]) -> Option<(Option<LabelRead<'_>>, &[u8])>
    ensures { option_map (λ x. (option_map label_read x.0, x.1.now)) result
        ≡ tape.optional_at tape.label_at bytes.now }
{
    match bytes {
        [] => None,
        [0, rest @ ..] => Some((None, rest)),
        [1, rest @ ..] => {
            let (label, behind) = read_label(rest)?;
            Some((Some(label), behind))
        }
        [_, ..] => None,
    }
}

/// An index, where one is given.
#[inline(always)]
fn read_index_option(bytes: &[u8]) -> Option<(Option<IndexRead>, &[u8])>
    ensures { option_map (λ x. (option_map index_read x.0, x.1.now)) result
        ≡ tape.optional_at tape.index_at bytes.now }
{
    match bytes {
        [] => None,
        [0, rest @ ..] => Some((None, rest)),
        [1, rest @ ..] => {
            let (index, behind) = read_index(rest)?;
            Some((Some(index), behind))
        }
        [_, ..] => None,
    }
}

/// A name.
#[tactic(auto, unfolding(crate::specs::Reading::name_at_front, crate::specs::Reading::label_and_index_at))]
#[inline(never)]
pub(crate) fn read_name(bytes: &[u8]) -> Option<(NameRead<'_>, &[u8])>
    ensures { option_map (λ x. (name_read x.0, x.1.now)) result ≡ tape.name_at_front bytes.now }
{
    let (tag, rest) = read_tag_option(bytes)?;
    let (label, rest) = read_label_option(rest)?;
    let (index, rest) = read_index_option(rest)?;
    Some((NameRead { tag, label, index }, rest))
}

/// A tag, where one is given, and a label.
#[tactic(auto, unfolding(crate::specs::Reading::field_at))]
#[inline(always)]
pub(crate) fn read_field(bytes: &[u8]) -> Option<((Option<TagRead>, LabelRead<'_>), &[u8])>
    ensures { option_map (λ x. ((option_map tag_read x.0.0, label_read x.0.1), x.1.now)) result
        ≡ tape.field_at bytes.now }
{
    let (tag, rest) = read_tag_option(bytes)?;
    let (label, behind) = read_label(rest)?;
    Some(((tag, label), behind))
}

/// A tag, where one is given, and an index.
#[tactic(auto, unfolding(crate::specs::Reading::place_at))]
#[inline(always)]
pub(crate) fn read_place(bytes: &[u8]) -> Option<((Option<TagRead>, IndexRead), &[u8])>
    ensures { option_map (λ x. ((option_map tag_read x.0.0, index_read x.0.1), x.1.now)) result
        ≡ tape.place_at bytes.now }
{
    let (tag, rest) = read_tag_option(bytes)?;
    let (index, behind) = read_index(rest)?;
    Some(((tag, index), behind))
}

/// A tag, where one is given, a label and an index.
#[tactic(auto, unfolding(crate::specs::Reading::field_place_at, crate::specs::Reading::label_then_index_at))]
#[inline(always)]
pub(crate) fn read_field_place(
    bytes: &[u8],
) -> Option<((Option<TagRead>, LabelRead<'_>, IndexRead), &[u8])>
    ensures { let seen = option_map
        (λ x. ((option_map tag_read x.0.0, (label_read x.0.1, index_read x.0.2)), x.1.now)) result in
        seen ≡ tape.field_place_at bytes.now }
{
    let (tag, rest) = read_tag_option(bytes)?;
    let (label, rest) = read_label(rest)?;
    let (index, rest) = read_index(rest)?;
    Some(((tag, label, index), rest))
}
