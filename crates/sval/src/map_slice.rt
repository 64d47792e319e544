//! Pairs as a map.

ghost use Rattle.std.specs.Prelude.{◌≡◌};
ghost use Rattle.sval_core.specs.Law.{Emits};
ghost use Rattle.sval_label.specs.Calls.{Slot};
ghost use Rattle.sval_core.specs.Values.{part_emission, entry_emission, map_emission};
ghost use Rattle.sval.specs.Seen.{map_pairs};

use sval_core::{Lent, Result, Stream, Value};

/// Pairs as a map, in their order. Nothing looks whether a key comes twice.
///
/// A slice of pairs by itself is a sequence of tuples. One that is made within a value's `stream` lives no longer than
/// that call, so it goes to the stream by `value_computed`.
///
/// ```
/// let map = MapSlice::new(&[("a", 1u8), ("b", 2)]);
/// assert_eq!(rt; map.as_slice().len(), 2);
/// ```
#[derive(Clone, Copy, Debug)]
pub struct MapSlice<'a, K, V> {
    map: &'a [(K, V)],
}

impl<'a, K, V> MapSlice<'a, K, V> {
    /// The map of these pairs.
    pub fn new(map: &'a [(K, V)]) -> Self
        ensures { map_pairs result ≡ map.now }
    {
        MapSlice { map }
    }

    /// The pairs.
    pub fn as_slice(&self) -> &'a [(K, V)]
        ensures { result.now ≡ map_pairs self.now }
    {
        self.map
    }
}

/// Streams a key of a map.
fn stream_key<'v, K: Value<'v, Lent<'v>>, S: Stream<Lent<'v>>>(stream: &mut S, key: &'v K) -> Result
    ensures { Emits S.law result
        (S.standing stream.old) (part_emission Slot.Key (K.emission key.now)) (S.standing stream.new) }
{
    stream.map_key_begin()?;
    key.stream(stream)?;
    stream.map_key_end()
}

/// Streams the value of a key of a map.
fn stream_value<'v, V: Value<'v, Lent<'v>>, S: Stream<Lent<'v>>>(
    stream: &mut S,
    value: &'v V,
) -> Result
    ensures { Emits S.law result
        (S.standing stream.old) (part_emission Slot.Value (V.emission value.now)) (S.standing stream.new) }
{
    stream.map_value_begin()?;
    value.stream(stream)?;
    stream.map_value_end()
}

/// Streams an entry of a map: its key and then its value.
#[tactic(auto, using(sval_core::proofs::ValueProofs::of_emissions))]
fn stream_entry<'v, K: Value<'v, Lent<'v>>, V: Value<'v, Lent<'v>>, S: Stream<Lent<'v>>>(
    stream: &mut S,
    entry: &'v (K, V),
) -> Result
    ensures { Emits S.law result (S.standing stream.old)
        (entry_emission (K.emission entry.now.0) (V.emission entry.now.1)) (S.standing stream.new) }
{
    stream_key(stream, &entry.0)?;
    stream_value(stream, &entry.1)
}

/// Streams pairs as a map that tells how many they are: what [`MapSlice`] streams, of pairs that a value holds.
///
/// # Errors
///
/// It refuses where a key or a value refuses by itself, after its calls, or at the first call that the stream refuses.
pub fn stream_map<'v, K: Value<'v, Lent<'v>>, V: Value<'v, Lent<'v>>, S: Stream<Lent<'v>>>(
    stream: &mut S,
    entries: &'v [(K, V)],
) -> Result
    ensures { Emits S.law result (S.standing stream.old)
        (map_emission K.emission V.emission entries.now) (S.standing stream.new) }
{
    stream.map_begin(Some(entries.len()))?;
    for entry in entries {
        stream_entry(stream, entry)?;
    }
    stream.map_end()
}

impl<'v, 'a, K: Value<'v, Lent<'v>>, V: Value<'v, Lent<'v>>> Value<'v, Lent<'v>>
    for MapSlice<'a, K, V> {
    ghost use Rattle.sval_core.specs.Values.{map_emission};
    ghost use Rattle.sval.specs.Seen.{map_pairs};

    ghost emission = { λ map. map_emission K.emission V.emission (map_pairs map) };

    fn stream<S: Stream<Lent<'v>>>(&'v self, stream: &mut S) -> Result {
        stream_map(stream, self.map)
    }
}
