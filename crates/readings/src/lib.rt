//! What an instrument wrote down, as a value: a small library, as a user of these crates writes one.
//!
//! - [`Reading`] and [`Readings`] are values. The list of their calls, and the tree that these spell, are in
//!   `specs/Readings.antt`.
//! - [`check_readings`] answers Ok unless memory is wanting, since the calls spell that tree.
//! - [`to_json`] gives exactly the text of `specs/Written.antt`, unless memory is wanting.
//! - [`total_of`] streams any value into a stream of this crate's own. The law of that stream is in
//!   `specs/Totals.antt`.
//! - [`Report`] is a struct. One of its fields is another value of this crate.
//! - [`Unit`] lends its name for longer than it is borrowed itself.
//!
//! # What the proofs take
//!
//! 1. A value of calls one after another, and the function that streams one item, are proved as written.
//! 2. The loop over items wants the attribute with `of_loops`, and its invariant
//!    (`proofs/ReadingsValueLent/stream/Invariants.antt`): the begin and the items so far were streamed.
//! 3. A struct by `stream_struct` is proved as written.
//! 4. That the calls spell the tree is a lemma for each kind of reading, and one for the sequence (`proofs/Told.antt`).
//! 5. What is written is the JSON of that tree, by one equation for each kind of reading (`proofs/Written.antt`).
//! 6. What a stream has taken after a value is the fold of its law over the value's calls (`proofs/total`).
//!
//! All lemmas come from the page `proofs/ValueProofs.antt` of `sval_core`, but for those on checking and on writing,
//! which `sval_check` and `sval_json` have in `proofs/Told.antt`.
#![tactic(auto)]

ghost use Rattle.std.specs.Prelude.{IsOkUnless};
ghost use Rattle.sval_core.specs.Law.{Emits};
ghost use Rattle.sval_core.specs.Values.{makes};
ghost use Rattle.sval_core.specs.ValueCalls.{item_calls};
ghost use Rattle.readings.specs.Readings.{reading_calls, readings_emission};

mod json;
mod report;
mod total;
mod unit;

pub use json::to_json;
pub use report::Report;
use std::alloc::Global;
use sval::{Lent, Result, Stream, Value};
use sval_check::{CheckError, check};
pub use total::total_of;
pub use unit::Unit;

/// A note or a measure.
#[derive(Drop)]
pub enum Reading {
    /// What was noted.
    Note(String),
    /// What was measured.
    Measure(i64),
}

/// All that an instrument wrote down.
#[derive(Drop)]
pub struct Readings {
    /// The readings, in order.
    pub readings: Vec<Reading>,
}

impl<'v> Value<'v, Lent<'v>> for Reading {
    ghost emission = { λ reading. makes (reading_calls reading) };

    fn stream<S: Stream<Lent<'v>>>(&'v self, stream: &mut S) -> Result {
        match self {
            Reading::Note(text) => {
                stream.text_begin(Some(text.len()))?;
                stream.text_fragment(text.as_str())?;
                stream.text_end()
            }
            Reading::Measure(number) => stream.i64(*number),
        }
    }
}

/// Streams a reading as an item of a sequence.
fn stream_item<'v, S: Stream<Lent<'v>>>(stream: &mut S, reading: &'v Reading) -> Result
    ensures { Emits S.law result
        (S.standing stream.old) (makes (item_calls reading_calls reading.now)) (S.standing stream.new) }
{
    stream.seq_value_begin()?;
    stream.value(reading)?;
    stream.seq_value_end()
}

impl<'v> Value<'v, Lent<'v>> for Readings {
    ghost emission = { readings_emission };

    #[tactic(auto, using(sval_core::proofs::ValueProofs::of_loops))]
    fn stream<S: Stream<Lent<'v>>>(&'v self, stream: &mut S) -> Result {
        stream.seq_begin(Some(self.readings.len()))?;
        for reading in &self.readings {
            stream_item(stream, reading)?;
        }
        stream.seq_end()
    }
}

/// Checks that readings are one whole value, as they always are.
pub fn check_readings(alloc: Global, readings: &Readings) -> std::result::Result<(), CheckError>
    ensures { IsOkUnless result CheckError.NoMemory }
{
    check(alloc, readings)
}
