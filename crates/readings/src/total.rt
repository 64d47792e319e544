//! The total of a value's `i64` numbers.

ghost use Rattle.std.specs.Prelude.{◌≡◌, ℤ};
ghost use Rattle.sval_label.specs.Made.{call_of};
ghost use Rattle.sval_core.specs.Law.{Answers};
ghost use Rattle.readings.specs.Totals.{total_law, total_standing, total_of};

use sval::{AnyCall, GroupedCall, Int, Lending, Lent, Result, Stream, Value};

/// Adds up the `i64` numbers of a value, whatever else it says, and stops at the ends of that type.
#[derive(Drop)]
struct Total {
    total: i64,
}

impl<L: Lending> Stream<L> for Total {
    ghost View = { ℤ };

    ghost law = { total_law };

    ghost standing = { λ total. total_standing total.total };

    fn take(&mut self, call: AnyCall<'_, L::Text, L::Bytes>) -> Result
        ensures { Answers total_law result (total_standing self.old.total)
            (call_of L.text L.bytes call.entry) (total_standing self.new.total) }
    {
        if let GroupedCall::Int(Int::I64(number)) = call.grouped() {
            self.total = self.total.saturating_add(number);
        }
        Ok(())
    }
}

impl Total {
    /// What was added up.
    fn sum(&self) -> i64
        ensures { result ≡ self.now.total }
    {
        self.total
    }
}

/// The total of a value's `i64` numbers, if it doesn't refuse.
pub fn total_of<'v, V: Value<'v, Lent<'v>>>(value: &'v V) -> Option<i64>
    ensures { result ≡ total_of (V.emission value.now) }
{
    let mut total = Total { total: 0 };
    match value.stream(&mut total) {
        Ok(()) => Some(total.sum()),
        Err(_) => None,
    }
}
