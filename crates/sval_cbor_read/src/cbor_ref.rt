//! Items of a document.

ghost use Rattle.std.specs.Prelude.{◌≡◌, ◌^◌, ℤ, pos, negsuc, nat_lt, if◌then◌else◌, option_map, Some, None, drop};
ghost use Rattle.sval_cbor_read.specs.CborParts.{IsCborPart};
ghost use Rattle.sval_cbor_read.specs.CborValues.{cbor_value_in};
ghost use Rattle.sval_cbor_read.specs.SeenFound.{AreOfItem, value_at};
ghost use Rattle.sval_cbor_read.specs.CborLookups.{cbor_kind_of, cbor_is_null, cbor_truth_of, within_bits, signed_of, cbor_unsigned_of, cbor_text_of, cbor_str_of, cbor_bytes_of, cbor_slice_of, cbor_items_of, cbor_item_at, cbor_entries_of, cbor_len_of, cbor_entry_of, is_this_text};

use crate::cbor_part::CborPart;
use crate::cbor_parts::{CborEntries, CborItems};
use crate::cbor_text::{CborBytes, CborText};
use crate::found::{Found, first_found};
use crate::node::Node;
use crate::span::behind_first;
use std::alloc::AllocError;
use std::marker::Model;

/// Which of the seven an item is.
#[derive(Clone, Copy, Debug, PartialEq, Eq)]
pub enum CborKind {
    Null,
    Bool,
    /// An integer, of up to 128 bits and a sign.
    Int,
    Text,
    /// A byte string.
    Bytes,
    Array,
    Map,
}

/// An item that a document holds, seen as its value. It takes no memory, and lends its strings from the bytes.
///
/// Tags aren't seen, but for those of integers: an item is the one that its tags enclose (RFC 8949, section 3.4).
///
/// ```
/// let doc = CborDoc::read(alloc, b"\xa2\x64user\x18\x2a\x64tags\x82\x61a\x41\x00".as_slice())?;
/// let tags = doc.root().get("tags");
/// assert_eq!(rt; doc.root().get("user").and_then(|user| user.as_i64()), Some(42));
/// assert_eq!(rt; tags.and_then(|tags| tags.item(0)).and_then(|tag| tag.as_str()), Some("a"));
/// ```
#[derive(Drop)]
pub struct CborRef<'d> {
    bytes: &'d [u8],
    nodes: &'d [Node],
}

impl<'d> Model for CborRef<'d> {
    ghost use Rattle.sval_cbor_read.specs.CborValues.{CborValue};
    ghost use Rattle.sval_cbor_read.specs.CborCodes.{cbor_value_code};
    ghost use Rattle.sval_cbor_read.specs.SeenFound.{AreOfItem, value_at};

    ghost Value = { CborValue };

    ghost coded = { cbor_value_code };

    ghost view = { λ here. value_at here.bytes.now here.nodes.now };

    ghost invariant = { λ here. AreOfItem here.bytes.now here.nodes.now };
}

impl<'d> CborRef<'d> {
    /// The item that these nodes of the bytes begin with.
    pub(crate) fn new(bytes: &'d [u8], nodes: &'d [Node]) -> Self
        requires { AreOfItem bytes.now nodes.now }
        ensures { result ≡ value_at bytes.now nodes.now }
    {
        CborRef { bytes, nodes }
    }

    /// A second view of this item.
    pub(crate) fn again(&self) -> CborRef<'d>
        ensures { result ≡ self.now }
    {
        CborRef::new(self.bytes, self.nodes)
    }

    /// The item as a value that any stream takes, as if it were the whole document. It takes no memory.
    ///
    /// ```
    /// let doc = CborDoc::read(alloc, b"\xa1\x64tags\x82\x61a\xa1\x61b\x07".as_slice())?;
    /// if let Some(tag) = doc.root().pointer("/tags/1") {
    ///     assert_eq!(rt; stream_to_vec(alloc, &tag.part())?.as_slice(), b"{\"b\":7}".as_slice());
    /// }
    /// ```
    pub fn part(&self) -> CborPart<'d>
        ensures part { IsCborPart result self.now }
        ensures value { cbor_value_in result ≡ self.now }
    {
        CborPart::new(self.bytes, self.nodes)
    }

    /// Which of the seven it is.
    pub fn kind(&self) -> CborKind
        ensures { result ≡ cbor_kind_of self.now }
    {
        match first_found(self.bytes, self.nodes) {
            Found::Null => CborKind::Null,
            Found::Bool(_) => CborKind::Bool,
            Found::Unsigned(_) => CborKind::Int,
            Found::Negative(_) => CborKind::Int,
            Found::Text(_) => CborKind::Text,
            Found::TextChunks => CborKind::Text,
            Found::Bytes(_) => CborKind::Bytes,
            Found::ByteChunks => CborKind::Bytes,
            Found::Array => CborKind::Array,
            Found::Map => CborKind::Map,
        }
    }

    /// Whether it is null.
    pub fn is_null(&self) -> bool
        ensures { result ≡ cbor_is_null self.now }
    {
        match self.kind() {
            CborKind::Null => true,
            _ => false,
        }
    }

    /// The truth value, if this is one.
    pub fn as_bool(&self) -> Option<bool>
        ensures { result ≡ cbor_truth_of self.now }
    {
        match first_found(self.bytes, self.nodes) {
            Found::Bool(value) => Some(value),
            _ => None,
        }
    }

    /// The integer, if this is one and fits an `i64`.
    ///
    /// ```
    /// let doc = CborDoc::read(alloc, b"\x82\x38\x63\x1b\xff\xff\xff\xff\xff\xff\xff\xff".as_slice())?;
    /// assert_eq!(rt; doc.root().item(0).and_then(|item| item.as_i64()), Some(-100));
    /// assert_eq!(rt; doc.root().item(1).and_then(|item| item.as_i64()), None);
    /// assert_eq!(rt; doc.root().item(1).and_then(|item| item.as_u64()), Some(18446744073709551615));
    /// ```
    pub fn as_i64(&self) -> Option<i64>
        ensures { result ≡ signed_of 63 self.now }
    {
        match first_found(self.bytes, self.nodes) {
            Found::Unsigned(n) => if n < 1 << 63 { Some(n as i64) } else { None },
            Found::Negative(n) => if n < 1 << 63 {
                Some(-1 - n as i64)
            } else {
                None
            },
            _ => None,
        }
    }

    /// The integer, if this is one and fits a `u64`.
    pub fn as_u64(&self) -> Option<u64>
        ensures { result ≡ cbor_unsigned_of 64 self.now }
    {
        match first_found(self.bytes, self.nodes) {
            Found::Unsigned(n) => if n < 1 << 64 { Some(n as u64) } else { None },
            _ => None,
        }
    }

    /// The integer, if this is one and fits an `i128`. Integers of more than 64 bits are byte strings with a tag (RFC
    /// 8949, section 3.4.3).
    pub fn as_i128(&self) -> Option<i128>
        ensures { result ≡ signed_of 127 self.now }
    {
        match first_found(self.bytes, self.nodes) {
            Found::Unsigned(n) => if n < 1 << 127 { Some(n as i128) } else { None },
            Found::Negative(n) => if n < 1 << 127 {
                Some(-1 - n as i128)
            } else {
                None
            },
            _ => None,
        }
    }

    /// The integer, if this is one and fits a `u128`.
    pub fn as_u128(&self) -> Option<u128>
        ensures { result ≡ cbor_unsigned_of 128 self.now }
    {
        match first_found(self.bytes, self.nodes) {
            Found::Unsigned(n) => Some(n),
            _ => None,
        }
    }

    /// The text, if this is one, chunk by chunk.
    pub fn text(&self) -> Option<CborText<'d>>
        ensures { result ≡ cbor_text_of self.now }
    {
        match first_found(self.bytes, self.nodes) {
            Found::Text(text) => Some(CborText::whole(self.bytes, self.nodes, text)),
            Found::TextChunks => Some(CborText::chunks(self.bytes, behind_first(self.nodes))),
            _ => None,
        }
    }

    /// The text, if this is one and one chunk holds it. A text of definite length is one chunk.
    ///
    /// ```
    /// let doc = CborDoc::read(alloc, b"\x82\x62ab\x7f\x61a\x61b\xff".as_slice())?;
    /// assert_eq!(rt; doc.root().item(0).and_then(|item| item.as_str()), Some("ab"));
    /// assert_eq!(rt; doc.root().item(1).and_then(|item| item.as_str()), None);
    /// assert_eq!(rt; doc.root().item(1).and_then(|item| item.text()).map(|text| text.is("ab")), Some(true));
    /// ```
    pub fn as_str(&self) -> Option<&'d str>
        ensures { option_map (λ text. text.now) result ≡ cbor_str_of self.now }
    {
        match self.text() {
            Some(text) => text.only(),
            None => None,
        }
    }

    /// Whether this is a text, and this one.
    pub(crate) fn is_text(&self, name: &str) -> bool
        ensures { result ≡ is_this_text name.now self.now }
    {
        match self.text() {
            Some(text) => text.is(name),
            None => false,
        }
    }

    /// The byte string, if this is one, chunk by chunk.
    pub fn bytes(&self) -> Option<CborBytes<'d>>
        ensures { result ≡ cbor_bytes_of self.now }
    {
        match first_found(self.bytes, self.nodes) {
            Found::Bytes(content) => Some(CborBytes::whole(self.bytes, self.nodes, content)),
            Found::ByteChunks => Some(CborBytes::chunks(self.bytes, behind_first(self.nodes))),
            _ => None,
        }
    }

    /// The byte string, if this is one and one chunk holds it. A byte string of definite length is one chunk.
    pub fn as_bytes(&self) -> Option<&'d [u8]>
        ensures { option_map (λ content. content.now) result ≡ cbor_slice_of self.now }
    {
        match self.bytes() {
            Some(content) => content.only(),
            None => None,
        }
    }

    /// The items, if this is an array.
    pub fn items(&self) -> Option<CborItems<'d>>
        ensures { result ≡ cbor_items_of self.now }
    {
        match first_found(self.bytes, self.nodes) {
            Found::Array => Some(CborItems::new(self.bytes, behind_first(self.nodes))),
            _ => None,
        }
    }

    /// The item of the array at this index, from 0 on.
    pub fn item(&self, index: usize) -> Option<CborRef<'d>>
        ensures { result ≡ cbor_item_at index self.now }
    {
        match self.items() {
            Some(items) => items.nth(index),
            None => None,
        }
    }

    /// The pairs of keys and values, if this is a map. Equal keys may come more than once.
    pub fn entries(&self) -> Option<CborEntries<'d>>
        ensures { result ≡ cbor_entries_of self.now }
    {
        match first_found(self.bytes, self.nodes) {
            Found::Map => Some(CborEntries::new(self.bytes, behind_first(self.nodes))),
            _ => None,
        }
    }

    /// How many items the array has, or pairs the map.
    pub fn len(&self) -> Option<usize>
        ensures { result ≡ cbor_len_of self.now }
    {
        match self.items() {
            Some(items) => Some(items.count()),
            None => match self.entries() {
                Some(entries) => Some(entries.count()),
                None => None,
            },
        }
    }

    /// The value of the last pair whose key is this text, if this is a map and has one. The key may be in chunks.
    pub fn get(&self, name: &str) -> Option<CborRef<'d>>
        ensures { result ≡ cbor_entry_of name.now self.now }
    {
        match self.entries() {
            Some(entries) => entries.last_named(name),
            None => None,
        }
    }
}

/// It takes no memory, and never fails. Like every `clone` it answers a `Result`:
///
/// ```
/// let again = doc.root().clone()?;
/// ```
impl<'d> Clone for CborRef<'d> {
    ghost use Rattle.std.specs.Prelude.{◌≡◌, ⊤};

    ghost is_clone = { λ value copy. copy ≡ value };

    ghost is_infallible = { λ _. ⊤ };

    fn clone(&self) -> Result<CborRef<'d>, AllocError> {
        Ok(self.again())
    }
}
