//! Sinks that fail, and that are just large enough.

use crate::shown::{holds, must};
use sval_cbor::{CborError, stream_to_cbor};
use sval_io::{FaultySink, FixedSink};
use sval_script::Script;

/// The text `abc`.
const TEXT: &'static [u8] = b"text_begin -\ntext_fragment =616263\ntext_end\n";

#[test]
fn sinks_that_decline(rt: HostRuntime) {
    let value = must(&rt, Script::read(rt.alloc(), TEXT));
    let mut faulty = FaultySink::new(rt.alloc(), 1, &[3]);
    let answer = stream_to_cbor(rt.alloc(), &mut faulty, &value);
    let fails = answer == Err(CborError::Write) && faulty.as_slice() == b"ca".as_slice();
    holds(&rt, fails, "a sink that fails");
    let mut buffer = [0; 4];
    let mut fixed = FixedSink::new(&mut buffer);
    must(&rt, stream_to_cbor(rt.alloc(), &mut fixed, &value));
    holds(
        &rt,
        fixed.as_slice() == b"cabc".as_slice(),
        "a sink of four bytes",
    );
}
