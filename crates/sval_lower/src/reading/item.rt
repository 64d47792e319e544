//! The last item of a value, and the one item of a value.

ghost use Rattle.std.specs.Prelude.{◌≡◌, Option, option_map};
ghost use Rattle.sval_label.specs.Made.{call_of};
ghost use Rattle.sval_core.specs.Law.{Answers};
ghost use Rattle.sval_lower.specs.Readers.{found};
ghost use Rattle.sval_lower.specs.Reading.{holding, item_law, item_of};

use crate::reading::Reading;
use std::marker::PhantomData;
use sval_core::{AnyCall, Lending, Result, Stream, Value, refusal};

/// Holds the last item that `R` read. It refuses a call that `R` neither reads nor passes over, and a second item where
/// `R` reads one.
#[derive(Drop)]
struct ItemReader<R, T> {
    held: Option<T>,
    reads: PhantomData<R>,
}

impl<L: Lending, T: Copy, R: Reading<L, T>> Stream<L> for ItemReader<R, T> {
    ghost View = { Option R.Read };

    ghost law = { item_law R.once R.read_of R.over };

    ghost standing = { λ reader. holding (option_map R.seen reader.held) };

    fn take(&mut self, call: AnyCall<'_, L::Text, L::Bytes>) -> Result
        ensures { Answers (item_law R.once R.read_of R.over) result (holding (option_map R.seen self.old.held))
            (call_of L.text L.bytes call.entry) (holding (option_map R.seen self.new.held)) }
    {
        let goes_on = match R::read(&call) {
            Some(_) if R::reads_one() && self.held.is_some() => false,
            Some(item) => {
                self.held = Some(item);
                true
            }
            None => R::passes_over(&call),
        };
        if goes_on { Ok(()) } else { refusal() }
    }
}

/// The last item of a value, or the one item, where the value doesn't refuse and each call was read or passed over.
pub(crate) fn item<'v, L: Lending, T: Copy, R: Reading<L, T>, V: Value<'v, L>>(
    value: &'v V,
) -> Option<T>
    ensures { option_map R.seen result ≡ found (item_of R.once) R.read_of R.over (V.emission value.now) }
{
    let mut reader: ItemReader<R, T> = ItemReader {
        held: None,
        reads: PhantomData,
    };
    match value.stream(&mut reader) {
        Ok(()) => reader.held,
        Err(_) => None,
    }
}
