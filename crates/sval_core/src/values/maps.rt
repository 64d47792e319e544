//! Maps.

ghost use Rattle.std.specs.Prelude.{◌≡◌, true, false};
ghost use Rattle.sval_label.specs.Calls.{Key, Value as ValueSlot};
ghost use Rattle.sval_core.specs.Law.{Emits};
ghost use Rattle.sval_core.specs.OneValue.{EachEntryIsWhole, TakesAnyValue};
ghost use Rattle.sval_core.specs.Values.{part_emission, entry_emission, map_emission};

use crate::glance::is_surely_whole;
use crate::stream::Stream;
use crate::value::Value;
use std::collections::BTreeMap;
use sval_label::{Lent, Result};

/// Streams a key of a map.
#[tactic(auto, using(crate::proofs::Between::of_between))]
fn stream_key<'v, K: Value<'v, Lent<'v>>, S: Stream<Lent<'v>>>(stream: &mut S, key: &'v K) -> Result
    ensures { Emits S.law result
        (S.standing stream.old) (part_emission Key (K.emission key.now)) (S.standing stream.new) }
{
    stream.map_key_begin()?;
    key.stream(stream)?;
    stream.map_key_end()
}

/// Streams the value of a key of a map.
#[tactic(auto, using(crate::proofs::Between::of_between))]
fn stream_value<'v, V: Value<'v, Lent<'v>>, S: Stream<Lent<'v>>>(
    stream: &mut S,
    value: &'v V,
) -> Result
    ensures { Emits S.law result
        (S.standing stream.old) (part_emission ValueSlot (V.emission value.now)) (S.standing stream.new) }
{
    stream.map_value_begin()?;
    value.stream(stream)?;
    stream.map_value_end()
}

/// Streams an entry of a map: its key and then its value.
#[tactic(auto, using(crate::proofs::Emissions::of_emissions))]
fn stream_entry<'v, K: Value<'v, Lent<'v>>, V: Value<'v, Lent<'v>>, S: Stream<Lent<'v>>>(
    stream: &mut S,
    key: &'v K,
    value: &'v V,
) -> Result
    ensures { Emits S.law result (S.standing stream.old)
        (entry_emission (K.emission key.now) (V.emission value.now)) (S.standing stream.new) }
{
    stream_key(stream, key)?;
    stream_value(stream, value)
}

/// Whether each key and each value of a map is surely whole.
fn are_entries_whole<'v, K: Value<'v, Lent<'v>> + Ord, V: Value<'v, Lent<'v>>>(
    map: &'v BTreeMap<K, V>,
) -> bool
    ensures { result ≡ true → EachEntryIsWhole K.emission V.emission map.now.entries }
{
    for (key, value) in map {
        if !is_surely_whole::<Lent<'v>, K>(key) || !is_surely_whole::<Lent<'v>, V>(value) {
            return false;
        }
    }
    true
}

/// Skips a map, where the stream asks if it is whole and each key and each value surely is.
fn skip_map<'v, K: Value<'v, Lent<'v>> + Ord, V: Value<'v, Lent<'v>>, S: Stream<Lent<'v>>>(
    stream: &mut S,
    map: &'v BTreeMap<K, V>,
) -> bool
    ensures whole { result ≡ true → EachEntryIsWhole K.emission V.emission map.now.entries }
    ensures skipped { result ≡ true → TakesAnyValue S.law (S.standing stream.old) (S.standing stream.new) }
    ensures left { result ≡ false → S.standing stream.new ≡ S.standing stream.old }
{
    if !stream.asks_if_whole() || !are_entries_whole(map) {
        return false;
    }
    stream.skip_value()
}

/// Makes the calls of a map.
fn stream_entries<'v, K: Value<'v, Lent<'v>> + Ord, V: Value<'v, Lent<'v>>, S: Stream<Lent<'v>>>(
    stream: &mut S,
    map: &'v BTreeMap<K, V>,
) -> Result
    ensures { Emits S.law result (S.standing stream.old)
        (map_emission K.emission V.emission map.now.entries) (S.standing stream.new) }
{
    stream.map_begin(Some(map.len()))?;
    for (key, value) in map {
        stream_entry(stream, key, value)?;
    }
    stream.map_end()
}

/// The entries in the order of their keys.
impl<'v, K: Value<'v, Lent<'v>> + Ord, V: Value<'v, Lent<'v>>> Value<'v, Lent<'v>>
    for BTreeMap<K, V> {
    ghost emission = { λ map. map_emission K.emission V.emission map.entries };

    fn stream<S: Stream<Lent<'v>>>(&'v self, stream: &mut S) -> Result {
        if skip_map(stream, self) {
            return Ok(());
        }
        stream_entries(stream, self)
    }
}
