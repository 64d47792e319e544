//! Texts and binaries that are collected of values, and what printed values add to a text.

use crate::rendered::Unprintable;
use crate::shown::{compare, holds, must, shows};
use std::alloc::{AllocError, Global};
use sval::{BinarySlice, Render, StdDisplay};
use sval_buffer::{BinaryBuf, Error, TextBuf};
use sval_core::{Lent, Value};

/// Why nothing is collected.
fn why(alloc: Global, error: &Error) -> Result<String, AllocError> {
    format!(in alloc; "{error}")
}

/// A text, and whether it is borrowed.
fn text_seen(alloc: Global, text: &TextBuf<'_>) -> Result<String, AllocError> {
    let is_borrowed = text.as_borrowed_str().is_some();
    format!(in alloc; "{} {is_borrowed}", text.as_str())
}

/// The text that is collected of a value, and whether it is borrowed, or why there is none.
fn text_of<'v, V: Value<'v, Lent<'v>>>(alloc: Global, value: &'v V) -> Result<String, AllocError> {
    match TextBuf::collect(alloc, value) {
        Ok(text) => text_seen(alloc, &text),
        Err(error) => why(alloc, &error),
    }
}

/// A binary, and whether it is borrowed.
fn binary_seen(alloc: Global, binary: &BinaryBuf<'_>) -> Result<String, AllocError> {
    let is_borrowed = binary.as_borrowed_slice().is_some();
    format!(in alloc; "{:?} {is_borrowed}", binary.as_slice())
}

/// The binary that is collected of a value, and whether it is borrowed, or why there is none.
fn binary_of<'v, V: Value<'v, Lent<'v>>>(
    alloc: Global,
    value: &'v V,
) -> Result<String, AllocError> {
    match BinaryBuf::collect(alloc, value) {
        Ok(binary) => binary_seen(alloc, &binary),
        Err(error) => why(alloc, &error),
    }
}

#[test]
fn collects_values(rt: HostRuntime) {
    let alloc = rt.alloc();
    shows(&rt, text_of(alloc, &"a string"), "a string true");
    shows(
        &rt,
        text_of(alloc, &u128::MAX),
        "340282366920938463463374607431768211455 false",
    );
    shows(
        &rt,
        text_of(alloc, &1u8),
        "unexpected integer, expected text",
    );
}

#[test]
fn collects_binaries(rt: HostRuntime) {
    let alloc = rt.alloc();
    let lent = "[97, 32, 115, 116, 114, 105, 110, 103] true";
    let binary = BinarySlice::new(b"a string");
    shows(&rt, binary_of(alloc, &binary), lent);
    let copied = "[97, 32, 115, 116, 114, 105, 110, 103] false";
    shows(&rt, binary_of(alloc, b"a string"), copied);
    shows(
        &rt,
        binary_of(alloc, &true),
        "unexpected boolean, expected binary",
    );
}

/// The text that is collected of what a value prints, or why there is none.
fn printed_of<V: Render>(alloc: Global, value: &V) -> Result<String, AllocError> {
    match TextBuf::collect_display(alloc, value) {
        Ok(text) => String::from_str(alloc, text.as_str()),
        Err(error) => why(alloc, &error),
    }
}

#[test]
fn collects_what_is_printed(rt: HostRuntime) {
    let alloc = rt.alloc();
    shows(&rt, printed_of(alloc, &true), "true");
    let unprintable = StdDisplay { value: Unprintable };
    let refused = printed_of(alloc, &unprintable);
    shows(&rt, refused, "the value is invalid: formatting failed");
}

#[test]
fn adds_what_is_printed(rt: HostRuntime) {
    let mut text = TextBuf::new(rt.alloc());
    must(&rt, text.push_display(&true));
    must(&rt, text.push_display(&false));
    compare(&rt, text.as_str(), "truefalse");
    holds(&rt, text.as_borrowed_str().is_none(), "a copy is kept");
}

#[test]
fn adds_nothing_where_printing_fails(rt: HostRuntime) {
    let mut text = TextBuf::from_text(rt.alloc(), "n = ");
    let refused = text.push_display(&StdDisplay { value: Unprintable });
    holds(&rt, refused.is_err(), "printing fails");
    let is_lent = text.as_borrowed_str() == Some("n = ");
    holds(&rt, is_lent, "the text is as it was");
}
