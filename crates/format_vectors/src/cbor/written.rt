//! Scripts, and the CBOR that is written of them.

mod examples;
mod heads;
mod refused;
mod styles;

use crate::cases::{Case, try_cases};
use crate::shown::must;
use std::alloc::Global;
use std::process::Abort;
use sval_cbor::{Lengths, Style, stream_to_cbor, stream_to_cbor_with};
use sval_io::VecSink;
use sval_script::Script;

/// A script, and behind `cbor` the bytes that are written of it in hex, or behind `error` why none are. A word before
/// that asks for a style: `strings` for byte strings, `definite` for these and definite lengths, and `counted` for
/// definite lengths alone.
struct Written;

/// The style that the first word of what is due asks for, and that word.
fn style_of(due: &str) -> (Style, &'static str) {
    if due.starts_with("strings ") {
        return (Style::BYTE_STRINGS, "strings ");
    }
    if due.starts_with("definite ") {
        return (Style::DEFINITE, "definite ");
    }
    if due.starts_with("counted ") {
        let mut style = Style::DEFAULT;
        style.lengths = Lengths::Definite;
        return (style, "counted ");
    }
    (Style::DEFAULT, "")
}

impl Case for Written {
    fn seen(rt: &impl Abort, alloc: Global, input: &str, due: &str) -> String {
        let script = must(rt, Script::read(alloc, input.as_bytes()));
        let mut sink = VecSink::new(alloc);
        let (style, word) = style_of(due);
        let answer = match word {
            "" => stream_to_cbor(alloc, &mut sink, &script),
            _ => stream_to_cbor_with(alloc, &mut sink, &script, style),
        };
        let bytes = must(rt, hex::encode(alloc, sink.as_slice()));
        let seen = match answer {
            Ok(()) => format!(in alloc; "{word}cbor {bytes}"),
            Err(error) => format!(in alloc; "{word}error {bytes}{error:?}"),
        };
        must(rt, seen)
    }
}

#[test]
fn scripts_that_are_written(rt: HostRuntime) {
    try_cases::<Written>(&rt, rt.alloc(), examples::ROWS);
    try_cases::<Written>(&rt, rt.alloc(), styles::ROWS);
    try_cases::<Written>(&rt, rt.alloc(), refused::ROWS);
}
