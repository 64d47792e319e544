//! Collections that are sequences of their items, in their order.

ghost use Rattle.std.specs.Prelude.{◌≡◌, List, length};
ghost use Rattle.std.specs.Iterator.{AlwaysYields, IsFinite};
ghost use Rattle.sval_core.specs.Law.{Emits};
ghost use Rattle.sval_core.specs.Values.{seq_emission};

use crate::stream::Stream;
use crate::value::Value;
use crate::values::sequences::stream_item;
use std::collections::{BTreeSet, LinkedList, VecDeque};
use sval_label::{Lent, Result};

/// Streams the `size` items of an iterator as a sequence.
fn stream_items<
    'v,
    T: Value<'v, Lent<'v>> + 'v,
    I: Iterator<Item = &'v T> + Drop,
    S: Stream<Lent<'v>>,
>(stream: &mut S, size: usize, items: I) -> Result
    requires can { I.can_next items }
    requires ends { IsFinite (I.remaining items) }
    ensures { (all : List T) → AlwaysYields I.next_gives (λ x. x.now) items all → length all ≡ size
        → Emits S.law result (S.standing stream.old) (seq_emission T.emission all) (S.standing stream.new) }
{
    stream.seq_begin(Some(size))?;
    for item in items {
        stream_item(stream, item)?;
    }
    stream.seq_end()
}

impl<'v, T: Value<'v, Lent<'v>>> Value<'v, Lent<'v>> for VecDeque<T> {
    ghost emission = { λ items. seq_emission T.emission items.items };

    fn stream<S: Stream<Lent<'v>>>(&'v self, stream: &mut S) -> Result {
        stream_items(stream, self.len(), self.iter())
    }
}

impl<'v, T: Value<'v, Lent<'v>>> Value<'v, Lent<'v>> for LinkedList<T> {
    ghost emission = { seq_emission T.emission };

    fn stream<S: Stream<Lent<'v>>>(&'v self, stream: &mut S) -> Result {
        stream_items(stream, self.len(), self.iter())
    }
}

impl<'v, T: Value<'v, Lent<'v>> + Ord> Value<'v, Lent<'v>> for BTreeSet<T> {
    ghost emission = { λ items. seq_emission T.emission items.keys };

    fn stream<S: Stream<Lent<'v>>>(&'v self, stream: &mut S) -> Result {
        stream_items(stream, self.len(), self.iter())
    }
}
