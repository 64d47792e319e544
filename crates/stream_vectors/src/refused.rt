//! Values that refuse, and keys that can't be one: why there is nothing of them.

ghost use Rattle.std.specs.Prelude.{[], true};

use crate::cases::{holds, must, shows};
use std::alloc::{AllocError, Global};
use std::process::Abort;
use sval_buffer::{BinaryBuf, TextBuf, Value as Captured, ValueBuf};
use sval_check::{CheckError, check};
use sval_core::{Lent, Stream, Value};
use sval_json::{Error, stream_to_json_str, stream_to_string, stream_to_vec};
use sval_script::Script;

/// Refuses, and makes no call.
#[derive(Drop)]
struct Refusing {}

impl<'v> Value<'v, Lent<'v>> for Refusing {
    ghost emission = { λ _. record { calls = []; refuses = true } };

    fn stream<S: Stream<Lent<'v>>>(&'v self, _stream: &mut S) -> sval_core::Result {
        Err(sval_core::Error::new())
    }
}

/// Why there is no JSON.
fn why_unwritten<T: Drop>(alloc: Global, json: Result<T, Error>) -> Result<String, AllocError> {
    match json {
        Ok(_json) => Ok(String::new(alloc)),
        Err(error) => format!(in alloc; "{:?}: {error}", error.kind()),
    }
}

/// Asserts that a value is written to no target in memory, for this cause.
fn is_unwritten<'v, V: Value<'v, Lent<'v>>>(
    rt: &impl Abort,
    alloc: Global,
    value: &'v V,
    want: &str,
) {
    let bytes = stream_to_vec(alloc, value);
    shows(rt, why_unwritten(alloc, bytes), want);
    let text = stream_to_string(alloc, value);
    shows(rt, why_unwritten(alloc, text), want);
    let json = stream_to_json_str(alloc, value);
    shows(rt, why_unwritten(alloc, json), want);
}

/// A map with a sequence as its key.
const SEQ_AS_KEY: &'static [u8] = b"map_begin -\nmap_key_begin\nseq_begin -\nseq_end\nmap_key_end\n\
    map_value_begin\nnull\nmap_value_end\nmap_end\n";

#[test]
fn tells_why_there_is_no_json(rt: HostRuntime) {
    let want = "Generic: an error occurred serializing a value to JSON";
    is_unwritten(&rt, rt.alloc(), &Refusing {}, want);
    let seq_as_key = must(&rt, Script::read(rt.alloc(), SEQ_AS_KEY));
    let want = "InvalidKey: attempt to serialize a non-string key";
    is_unwritten(&rt, rt.alloc(), &seq_as_key, want);
}

/// Why nothing was collected.
fn why_uncollected<T: Drop>(
    alloc: Global,
    collected: Result<T, sval_buffer::Error>,
) -> Result<String, AllocError> {
    match collected {
        Ok(_collected) => Ok(String::new(alloc)),
        Err(error) => format!(in alloc; "{error}"),
    }
}

/// What is told where a value refuses, whatever was to be made of it.
const REFUSED: &'static str = "the value is invalid: the value itself failed to stream";

#[test]
fn tells_that_a_value_refused(rt: HostRuntime) {
    let alloc = rt.alloc();
    let refusing = Refusing {};
    let captured: Result<ValueBuf<'_>, sval_buffer::Error> = ValueBuf::collect(alloc, &refusing);
    shows(&rt, why_uncollected(alloc, captured), REFUSED);
    let text = TextBuf::collect(alloc, &refusing);
    shows(&rt, why_uncollected(alloc, text), REFUSED);
    let binary = BinaryBuf::collect(alloc, &refusing);
    shows(&rt, why_uncollected(alloc, binary), REFUSED);
    let answer = check(alloc, &refusing);
    holds(&rt, answer == Err(CheckError::Refused), "a check");
}

#[test]
fn tells_that_an_owned_value_refused(rt: HostRuntime) {
    let alloc = rt.alloc();
    let refusing = Refusing {};
    let captured: Result<Captured<'_>, sval_buffer::Error> = Captured::collect(alloc, &refusing);
    shows(&rt, why_uncollected(alloc, captured), REFUSED);
    let owned: Result<Captured<'_>, sval_buffer::Error> = Captured::collect_owned(alloc, &refusing);
    shows(&rt, why_uncollected(alloc, owned), REFUSED);
}
