//! The items of arrays, and the pairs of maps.

ghost use Rattle.std.specs.Prelude.{◌≡◌, length, slice_get};
ghost use Rattle.sval_cbor_read.specs.CborValues.{cbor_values_in};
ghost use Rattle.sval_cbor_read.specs.CborLookups.{cbor_last_named, cbor_values_listed, cbor_paired};
ghost use Rattle.sval_cbor_read.specs.SeenFound.{AreInItem};
ghost use Rattle.sval_cbor_read.specs.SeenNodes.{streamed_items};
ghost use Rattle.sval_cbor_read.specs.SeenEntries.{TakesFirstItem, TakesFirstEntry};

use crate::cbor_ref::CborRef;
use crate::node::Node;
use crate::span::behind_item;
use std::marker::Model;

/// The items of an array that are left, seen as a list of them.
#[derive(Drop)]
pub struct CborItems<'d> {
    bytes: &'d [u8],
    nodes: &'d [Node],
}

impl<'d> Model for CborItems<'d> {
    ghost use Rattle.std.specs.Prelude.{List};
    ghost use Rattle.std.specs.Coded.{coded_list};
    ghost use Rattle.sval_cbor_read.specs.CborValues.{CborValue, cbor_values_in};
    ghost use Rattle.sval_cbor_read.specs.CborCodes.{cbor_value_code};
    ghost use Rattle.sval_cbor_read.specs.CborLookups.{cbor_values_listed};
    ghost use Rattle.sval_cbor_read.specs.SeenFound.{AreInItem};
    ghost use Rattle.sval_cbor_read.specs.SeenNodes.{streamed_items};

    ghost Value = { List CborValue };

    ghost coded = { coded_list cbor_value_code };

    ghost view = { λ items. cbor_values_listed (cbor_values_in (streamed_items items.bytes.now items.nodes.now)) };

    ghost invariant = { λ items. AreInItem items.bytes.now items.nodes.now };
}

impl<'d> CborItems<'d> {
    /// The items that these nodes of the bytes begin with, up to the end of the array.
    pub(crate) fn new(bytes: &'d [u8], nodes: &'d [Node]) -> Self
        requires { AreInItem bytes.now nodes.now }
        ensures { result ≡ cbor_values_listed (cbor_values_in (streamed_items bytes.now nodes.now)) }
    {
        CborItems { bytes, nodes }
    }

    /// Takes the first item that is left.
    pub fn next(&mut self) -> Option<CborRef<'d>>
        ensures { TakesFirstItem result self.old self.new }
    {
        match behind_item(self.nodes) {
            None => None,
            Some(behind) => {
                let item = CborRef::new(self.bytes, self.nodes);
                self.nodes = behind;
                Some(item)
            },
        }
    }

    /// The item at this index among those that are left.
    #[tactic(auto, using(crate::proofs::CborCounts::behind_first))]
    pub(crate) fn nth(self, index: usize) -> Option<CborRef<'d>>
        ensures { result ≡ slice_get self.entry index }
    {
        let mut left = self;
        let mut before = index;
        while let Some(item) = left.next() {
            if before == 0 {
                return Some(item);
            }
            before -= 1;
        }
        None
    }

    /// How many items are left.
    pub(crate) fn count(self) -> usize
        ensures { result ≡ length self.entry }
    {
        let most = self.nodes.len();
        let mut left = self;
        let mut count = 0;
        while count < most && left.next().is_some() {
            count += 1;
        }
        count
    }
}

/// A pair of a map. The key is an item of any kind.
#[derive(Drop)]
pub struct CborEntry<'d> {
    pub key: CborRef<'d>,
    pub value: CborRef<'d>,
}

/// The pairs of a map that are left, in order, seen as a list of them.
#[derive(Drop)]
pub struct CborEntries<'d> {
    bytes: &'d [u8],
    nodes: &'d [Node],
}

impl<'d> Model for CborEntries<'d> {
    ghost use Rattle.std.specs.Prelude.{List};
    ghost use Rattle.std.specs.Coded.{coded_list};
    ghost use Rattle.sval_cbor_read.specs.CborValues.{cbor_values_in};
    ghost use Rattle.sval_cbor_read.specs.CborCodes.{entry_code};
    ghost use Rattle.sval_cbor_read.specs.CborLookups.{Entry, cbor_values_listed, cbor_paired};
    ghost use Rattle.sval_cbor_read.specs.SeenFound.{AreInItem};
    ghost use Rattle.sval_cbor_read.specs.SeenNodes.{streamed_items};

    ghost Value = { List Entry };

    ghost coded = { coded_list entry_code };

    ghost view = { λ entries.
        cbor_paired (cbor_values_listed (cbor_values_in (streamed_items entries.bytes.now entries.nodes.now))) };

    ghost invariant = { λ entries. AreInItem entries.bytes.now entries.nodes.now };
}

impl<'d> CborEntries<'d> {
    /// The pairs that these nodes of the bytes begin with, up to the end of the map.
    pub(crate) fn new(bytes: &'d [u8], nodes: &'d [Node]) -> Self
        requires { AreInItem bytes.now nodes.now }
        ensures { result ≡ cbor_paired (cbor_values_listed (cbor_values_in (streamed_items bytes.now nodes.now))) }
    {
        CborEntries { bytes, nodes }
    }

    /// Takes the first pair that is left.
    pub fn next(&mut self) -> Option<CborEntry<'d>>
        ensures { TakesFirstEntry result self.old self.new }
    {
        match behind_item(self.nodes) {
            None => None,
            Some(values) => match behind_item(values) {
                None => None,
                Some(behind) => {
                    let key = CborRef::new(self.bytes, self.nodes);
                    let value = CborRef::new(self.bytes, values);
                    self.nodes = behind;
                    Some(CborEntry { key, value })
                },
            },
        }
    }

    /// How many pairs are left.
    pub(crate) fn count(self) -> usize
        ensures { result ≡ length self.entry }
    {
        let most = self.nodes.len();
        let mut left = self;
        let mut count = 0;
        while count < most && left.next().is_some() {
            count += 1;
        }
        count
    }

    /// The value of the last pair that is left whose key is this text.
    pub(crate) fn last_named(self, name: &str) -> Option<CborRef<'d>>
        ensures { result ≡ cbor_last_named name.now self.entry }
    {
        let mut left = self;
        let mut found = None;
        while let Some(entry) = left.next() {
            if entry.key.is_text(name) {
                found = Some(entry.value);
            }
        }
        found
    }
}
