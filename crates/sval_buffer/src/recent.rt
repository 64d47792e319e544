//! Where calls with names were kept lately.

ghost use Rattle.std.specs.Prelude.{◌≡◌, ◌<◌, slice_get};

use std::alloc::Global;
use sval_core::{Index, Label, Name};

/// The number of slots. Each remembers two places, so that two names which take turns at a slot both stay.
const SLOTS: usize = 64;

/// The places of calls that were kept lately, the last two of each slot.
///
/// A value repeats few names very often. So a call is mostly kept already, and its place is mostly in this table. But
/// the place may be that of another call, or of none any more, so who asks for a place compares.
#[derive(Drop)]
pub(crate) struct Recent {
    places: Vec<(usize, usize)>,
}

impl Recent {
    /// No places, which take no memory yet.
    pub(crate) fn new(alloc: Global) -> Recent {
        Recent {
            places: Vec::new(alloc),
        }
    }

    /// The places at a slot, that of the last call first.
    pub(crate) fn get(&self, slot: usize) -> Option<(usize, usize)>
        ensures { result ≡ slice_get self.now.places.items slot }
    {
        self.places.get(slot).copied()
    }

    /// Remembers a place at a slot, as that of the last call. Without memory for the slots nothing is remembered, and
    /// calls that repeat are kept once more.
    pub(crate) fn put(&mut self, slot: usize, place: usize) {
        if self.places.is_empty() && self.places.resize(SLOTS, (0, 0)).is_err() {
            return;
        }
        if let Some(places) = self.places.get_mut(slot) {
            if places.0 != place {
                *places = (place, places.0);
            }
        }
    }
}

/// The slot of a name, which few other names of a value share.
pub(crate) fn slot_of(name: &Name<'_>) -> usize
    ensures { result < 64 }
{
    let label = match name.label {
        Some(label) => label_slot(label),
        None => 0,
    };
    let index = match name.index {
        Some(index) => index_slot(index),
        None => 0,
    };
    (label + index) % SLOTS
}

/// A number of a label below that of the slots, by the length of its text and three of its bytes.
fn label_slot(label: &Label<'_>) -> usize
    ensures { result < 64 }
{
    let text = label.as_str().as_bytes();
    if text.is_empty() {
        return 0;
    }
    let first = usize::from(text[0]);
    let middle = usize::from(text[text.len() / 2]);
    let last = usize::from(text[text.len() - 1]);
    (text.len() % SLOTS + 3 * first + 5 * middle + 7 * last) % SLOTS
}

/// A number of an index below that of the slots.
fn index_slot(index: &Index) -> usize
    ensures { result < 64 }
{
    match index.to_usize() {
        Some(number) => number % SLOTS,
        None => 0,
    }
}
