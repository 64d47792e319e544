//! Values one after another: where they end, and what is no list of them.

ghost use Rattle.std.specs.Prelude.{[], ◌∷◌};
ghost use Rattle.sval_label.specs.Calls as call;
ghost use Rattle.sval_core.specs.Values.{fails_after};

use crate::shown::{script_of, shows};
use std::alloc::{AllocError, Global};
use sval_check::check_all;
use sval_core::{Lent, Stream, Value, refusal};

/// Where the values of a list end, twice, how many they are, whether there is none, and where the second ends; or why
/// it is no list of values.
fn told<'v, V: Value<'v, Lent<'v>>>(alloc: Global, list: &'v V) -> Result<String, AllocError> {
    match check_all(alloc, list) {
        Ok(ends) => format!(in alloc;
            "{ends:?} {:?} {} {} {:?}",
            ends.as_slice(),
            ends.len(),
            ends.is_empty(),
            ends.get(1)
        ),
        Err(error) => format!(in alloc; "{error:?}"),
    }
}

/// A script of values one after another, and what is told of it.
const LISTS: [(&str, &str); 6] = [
    ("", "[] [] 0 true None"),
    ("tag_hint NUMBER\n", "[] [] 0 true None"),
    ("null\nbool true\n", "[1, 2] [1, 2] 2 false Some(2)"),
    (
        "null\ntag_hint NUMBER\nseq_begin 0\nseq_end\ntag_hint NUMBER\n",
        "[1, 4] [1, 4] 2 false Some(4)",
    ),
    ("null\nseq_begin -\n", "Unfinished"),
    ("null\nseq_end\n", "BadCall { at: 2 }"),
];

#[test]
fn tells_where_values_end(rt: HostRuntime) {
    let alloc = rt.alloc();
    for (lines, ends) in &LISTS {
        shows(&rt, told(alloc, &script_of(&rt, alloc, lines)), ends);
    }
}

/// A value, and then a refusal.
struct RefusesAfterOne {}

impl<'v> Value<'v, Lent<'v>> for RefusesAfterOne {
    ghost emission = { λ _. fails_after (call.Null ∷ []) };

    fn stream<S: Stream<Lent<'v>>>(&'v self, stream: &mut S) -> sval_core::Result {
        stream.null()?;
        refusal()
    }
}

#[test]
fn tells_a_refusal(rt: HostRuntime) {
    shows(&rt, told(rt.alloc(), &RefusesAfterOne {}), "Refused");
}
