//! Strings of indefinite length.

ghost use Rattle.std.specs.Prelude.{◌≡◌, ◌≢◌, ◌<◌, ◌≤◌, IfOk, IfErr, length, get_or};
ghost use Rattle.sval_cbor_read.specs.Steps.{MakesSomeCall};
ghost use Rattle.sval_cbor_read.specs.SeenNodes.{item_node};
ghost use Rattle.sval_cbor_read.specs.SeenFrames.{item_place_in};
ghost use Rattle.sval_cbor_read.specs.SeenReader.{spot_of, AddsItemNode, EndsItem, chunk_kind_of, end_kind_of, ReadsItemsOn};
ghost use Rattle.sval_cbor_read.specs.declared.item.Medium.TheVariants as medium;
ghost use Rattle.sval_cbor_read.specs.declared.reader.Expected.TheVariants as expected;

use super::{Expected, Reader};
use crate::item::Medium;
use crate::node::Kind;
use crate::string::{binary_at, text_at};
use sval_core::NoMemory;

impl Reader {
    /// Keeps a chunk of a string, up to this place.
    #[inline(always)]
    fn add_piece(&mut self, medium: Medium, next: usize) -> Result<(), NoMemory>
        ensures { IfOk result (λ done. AddsItemNode self.old
            (item_node (chunk_kind_of medium) (item_place_in self.old.opened) self.old.at) next
            (expected.APiece medium) self.new) }
    {
        let place = self.place();
        match medium {
            Medium::Text => self.add(
                Kind::TextPiece,
                place,
                self.at,
                next,
                Expected::APiece(medium),
            ),
            Medium::Binary => self.add(
                Kind::BinaryPiece,
                place,
                self.at,
                next,
                Expected::APiece(medium),
            ),
        }
    }

    /// Reads a chunk of a text.
    #[inline(always)]
    fn text_piece(&mut self, bytes: &[u8]) -> Result<bool, NoMemory>
        requires at_in { self.old.at < length bytes.now }
        requires no_break { get_or bytes.now self.old.at 0 ≢ 255 }
        requires is { self.old.expected ≡ expected.APiece medium.Text }
        ensures goes { IfOk result (ReadsItemsOn bytes.now self.old self.new) }
        ensures no_memory { IfErr result (λ error. MakesSomeCall (spot_of bytes.now self.old)) }
    {
        match text_at(bytes, self.at) {
            None => Ok(false),
            Some(piece) => match self.add_piece(Medium::Text, piece.next) {
                Ok(()) => Ok(true),
                Err(error) => Err(error),
            },
        }
    }

    /// Reads a piece of a byte string.
    #[inline(always)]
    fn binary_piece(&mut self, bytes: &[u8]) -> Result<bool, NoMemory>
        requires at_in { self.old.at < length bytes.now }
        requires no_break { get_or bytes.now self.old.at 0 ≢ 255 }
        requires is { self.old.expected ≡ expected.APiece medium.Binary }
        ensures goes { IfOk result (ReadsItemsOn bytes.now self.old self.new) }
        ensures no_memory { IfErr result (λ error. MakesSomeCall (spot_of bytes.now self.old)) }
    {
        match binary_at(bytes, self.at) {
            None => Ok(false),
            Some(piece) => match self.add_piece(Medium::Binary, piece.next) {
                Ok(()) => Ok(true),
                Err(error) => Err(error),
            },
        }
    }

    /// Ends a string of indefinite length, up to this place.
    #[inline(always)]
    fn end_pieces(&mut self, medium: Medium, next: usize) -> Result<(), NoMemory>
        ensures { IfOk result (λ done. EndsItem self.old.opened self.old
            (item_node (end_kind_of medium) (item_place_in self.old.opened) self.old.at) next self.new) }
    {
        let place = self.place();
        match medium {
            Medium::Text => self.end_item(Kind::EndText, place, self.at, next),
            Medium::Binary => self.end_item(Kind::EndBinary, place, self.at, next),
        }
    }

    /// Reads a chunk of a string, or the break.
    #[inline(always)]
    pub(super) fn piece(&mut self, medium: Medium, bytes: &[u8]) -> Result<bool, NoMemory>
        requires within { self.old.at ≤ length bytes.now }
        requires is { self.old.expected ≡ expected.APiece medium }
        ensures goes { IfOk result (ReadsItemsOn bytes.now self.old self.new) }
        ensures no_memory { IfErr result (λ error. MakesSomeCall (spot_of bytes.now self.old)) }
    {
        if self.at >= bytes.len() {
            return Ok(false);
        }
        if bytes[self.at] != 0xff {
            return match medium {
                Medium::Text => self.text_piece(bytes),
                Medium::Binary => self.binary_piece(bytes),
            };
        }
        match self.end_pieces(medium, self.at + 1) {
            Ok(()) => Ok(true),
            Err(error) => Err(error),
        }
    }
}
