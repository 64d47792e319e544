//! How many items or pairs the containers of a value have.

ghost use Rattle.std.specs.Prelude.{◌≡◌, Err, IfOk, IfErr, false};
ghost use Rattle.sval_label.specs.Grouped.{seen_slot};
ghost use Rattle.sval_label.specs.Made.{lent_call};
ghost use Rattle.sval_core.specs.Law.{Answers};
ghost use Rattle.sval_cbor.specs.Counting.{Counting, nothing_counted, part_begun, close_row, counts_of, counts_due};
ghost use Rattle.sval_cbor.specs.CounterLaw.{counter_law, counter_standing, counter_view, BeginsRow, CountsCall};

use crate::error::CborError;
use crate::open_rows::{OpenRow, OpenRows};
use crate::style::Lengths;
use std::alloc::Global;
use sval_core::{Call, Error, GroupedCall, Lent, NoMemory, Slot, Stream, Value};

/// Counts the items or pairs of each container whose calls it takes.
///
/// It refuses a call only where memory is wanting.
#[derive(Drop)]
pub(crate) struct Counter {
    /// The counts of the containers, in the order of their begins.
    counts: Vec<u64>,
    rows: OpenRows,
    /// How often memory was wanting.
    wants: u64,
}

impl Counter {
    /// One that has taken no call, and no memory yet.
    fn new(alloc: Global) -> Self
        ensures { counter_view result ≡ nothing_counted }
    {
        Counter {
            counts: Vec::new(alloc),
            rows: OpenRows::new(alloc),
            wants: 0,
        }
    }

    /// Begins a container.
    fn begin(&mut self) -> Result<(), NoMemory>
        ensures { BeginsRow (counter_standing self.old) result (counter_standing self.new) }
    {
        let at = self.counts.len();
        self.counts.push(0)?;
        self.rows.push(OpenRow { at, entries: 0 })
    }

    /// Ends the innermost container.
    fn end(&mut self)
        ensures { counter_standing self.new ≡
            record (counter_standing self.old) { view = close_row self.old.counts.items self.old.rows } }
    {
        if let Some(row) = self.rows.innermost() {
            if row.at < self.counts.len() {
                self.counts[row.at] = row.entries;
            }
        }
        self.rows.pop();
    }

    /// Begins a part of the innermost container.
    fn begin_part(&mut self, slot: Slot)
        ensures { counter_standing self.new ≡ record (counter_standing self.old)
            { view = record (counter_view self.old) { rows = part_begun (seen_slot slot.entry) self.old.rows } } }
    {
        match slot {
            Slot::Value => {}
            Slot::Item | Slot::Key | Slot::Field(_, _) => self.rows.count_entry(),
            Slot::Place(_, _) | Slot::FieldPlace(_, _, _) => self.rows.count_entry(),
        }
    }

    /// Counts a call.
    fn count(&mut self, call: Call<'_, '_>) -> Result<(), NoMemory>
        ensures { CountsCall (counter_standing self.old) (lent_call call.entry) result (counter_standing self.new) }
    {
        match call.grouped() {
            GroupedCall::Begin(_, _) => self.begin(),
            GroupedCall::End(_) => {
                self.end();
                Ok(())
            }
            GroupedCall::PartBegin(slot) => {
                self.begin_part(slot);
                Ok(())
            }
            _ => Ok(()),
        }
    }
}

impl<'sval> Stream<Lent<'sval>> for Counter {
    ghost View = { Counting };

    ghost law = { counter_law };

    ghost standing = { counter_standing };

    fn take(&mut self, call: Call<'sval, '_>) -> sval_core::Result
        ensures { Answers counter_law result
            (counter_standing self.old) (lent_call call.entry) (counter_standing self.new) }
    {
        match self.count(call) {
            Ok(()) => Ok(()),
            Err(_) => {
                self.wants = self.wants.saturating_add(1);
                Err(Error::new())
            }
        }
    }
}

/// The counts of the containers of a value, in the order of their begins.
fn count_entries<'v, V: Value<'v, Lent<'v>>>(alloc: Global, v: &'v V) -> Result<Vec<u64>, CborError>
    requires { (V.emission v.now).refuses ≡ false }
    ensures ok { IfOk result (λ counts. counts.items ≡ counts_of (V.emission v.now).calls) }
    ensures err { IfErr result (λ why. why ≡ CborError.NoMemory) }
{
    let mut counter = Counter::new(alloc);
    match v.stream(&mut counter) {
        Ok(()) => Ok(counter.counts),
        Err(_) => Err(CborError::NoMemory),
    }
}

/// The counts of the containers of a value where lengths are definite, and else none.
pub(crate) fn counts_due<'v, V: Value<'v, Lent<'v>>>(
    alloc: Global,
    v: &'v V,
    lengths: Lengths,
) -> Result<Vec<u64>, CborError>
    requires { (V.emission v.now).refuses ≡ false }
    ensures ok { IfOk result (λ counts. counts.items ≡ counts_due lengths (V.emission v.now).calls) }
    ensures err { IfErr result (λ why. why ≡ CborError.NoMemory) }
{
    match lengths {
        Lengths::Indefinite => Ok(Vec::new(alloc)),
        Lengths::Definite => count_entries(alloc, v),
    }
}
