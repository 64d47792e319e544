//! What captured values make again, as the lines of a script.

use crate::shown::{has_printed, holds, makes, must, new_printer, writes};
use std::alloc::Global;
use std::process::Abort;
use sval::{BinarySlice, MapSlice, Stream};
use sval_buffer::{Value, ValueBuf, stream_to_value};
use sval_check::check;
use sval_core::Lent;
use sval_ref::stream_ref;

/// An option that holds 42.
pub(crate) const SOME: &str = "tagged_begin RUST_OPTION_SOME =536f6d65:VALUE_IDENT 1:VALUE_OFFSET\n\
    i32 42\n\
    tagged_end RUST_OPTION_SOME =536f6d65:VALUE_IDENT 1:VALUE_OFFSET\n";

/// Asserts that what was captured makes the calls of these lines.
pub(crate) fn makes_again(rt: &impl Abort, alloc: Global, captured: &ValueBuf<'_>, lines: &str) {
    let mut printer = new_printer(alloc);
    let answer = stream_ref(&mut printer, captured);
    holds(rt, answer.is_ok(), "it streams");
    has_printed(rt, printer, lines);
}

/// Captures a value, and asserts that the calls of these lines are made of it.
pub(crate) fn captures<'v, V: sval_core::Value<'v, Lent<'v>>>(
    rt: &impl Abort,
    alloc: Global,
    value: &'v V,
    lines: &str,
) {
    let captured: Result<ValueBuf<'v>, sval_buffer::Error> = stream_to_value(alloc, value);
    match captured {
        Ok(captured) => makes_again(rt, alloc, &captured, lines),
        Err(_) => holds(rt, false, "the value is captured"),
    }
}

#[test]
fn makes_values_again(rt: HostRuntime) {
    let alloc = rt.alloc();
    captures(&rt, alloc, &Some(42i32), SOME);
    captures(
        &rt,
        alloc,
        &"abc",
        "text_begin 3\ntext_fragment =616263\ntext_end\n",
    );
    captures(
        &rt,
        alloc,
        &BinarySlice::new(b"abc"),
        "binary_begin 3\nbinary_fragment =616263\nbinary_end\n",
    );
    let no_pairs: [(i32, bool); 0] = [];
    captures(
        &rt,
        alloc,
        &MapSlice::new(&no_pairs),
        "map_begin 0\nmap_end\n",
    );
    let no_items: &[i32] = &[];
    captures(&rt, alloc, &no_items, "seq_begin 0\nseq_end\n");
    let none: Option<i32> = None;
    captures(
        &rt,
        alloc,
        &none,
        "tag RUST_OPTION_NONE =4e6f6e65:VALUE_IDENT 0:VALUE_OFFSET\n",
    );
}

#[test]
fn makes_truths_and_numbers_again(rt: HostRuntime) {
    let alloc = rt.alloc();
    captures(&rt, alloc, &true, "bool true\n");
    captures(&rt, alloc, &1i8, "i8 1\n");
    captures(&rt, alloc, &2i16, "i16 2\n");
    captures(&rt, alloc, &3i32, "i32 3\n");
    captures(&rt, alloc, &4i64, "i64 4\n");
    captures(&rt, alloc, &5i128, "i128 5\n");
    captures(&rt, alloc, &1u8, "u8 1\n");
    captures(&rt, alloc, &2u16, "u16 2\n");
    captures(&rt, alloc, &3u32, "u32 3\n");
    captures(&rt, alloc, &4u64, "u64 4\n");
    captures(&rt, alloc, &5u128, "u128 5\n");
}

#[test]
fn captures_what_was_captured(rt: HostRuntime) {
    let alloc = rt.alloc();
    let some = Some(42i32);
    holds(&rt, check(alloc, &some).is_ok(), "the value is whole");
    let buffer: ValueBuf<'_> = must(&rt, ValueBuf::collect(alloc, &some));
    makes_again(&rt, alloc, &buffer, SOME);
    captures_value_of(&rt, alloc, &buffer, SOME);
}

/// Captures the value that a buffer hands out, and asserts that the calls of these lines are made of it.
fn captures_value_of(rt: &impl Abort, alloc: Global, buffer: &ValueBuf<'_>, lines: &str) {
    let value: Value<'_> = must(rt, buffer.to_value());
    captures(rt, alloc, &value, lines);
}

/// Three sequences of sequences of numbers. The first is empty.
const NUMBERS: &str = "[[],[[1,2,3],[4]],[[5,6],[7,8,9]]]";

/// A row of numbers.
fn row(rt: &impl Abort, alloc: Global, numbers: &[i32]) -> Vec<i32> {
    must(rt, Vec::from_slice(alloc, numbers))
}

/// Two rows of numbers.
fn rows(rt: &impl Abort, alloc: Global, first: &[i32], second: &[i32]) -> Vec<Vec<i32>> {
    let mut rows = Vec::new(alloc);
    must(rt, rows.push(row(rt, alloc, first)));
    must(rt, rows.push(row(rt, alloc, second)));
    rows
}

/// These sequences.
fn numbers(rt: &impl Abort, alloc: Global) -> Vec<Vec<Vec<i32>>> {
    let mut numbers = Vec::new(alloc);
    must(rt, numbers.push(Vec::new(alloc)));
    must(rt, numbers.push(rows(rt, alloc, &[1, 2, 3], &[4])));
    must(rt, numbers.push(rows(rt, alloc, &[5, 6], &[7, 8, 9])));
    numbers
}

#[test]
fn captures_sequences_in_sequences(rt: HostRuntime) {
    let alloc = rt.alloc();
    let numbers = numbers(&rt, alloc);
    let buffer: ValueBuf<'_> = must(&rt, ValueBuf::collect(alloc, &numbers));
    writes(&rt, alloc, &buffer, NUMBERS);
    let again: ValueBuf<'_> = must(&rt, ValueBuf::collect(alloc, &buffer));
    writes(&rt, alloc, &again, NUMBERS);
}

/// Asserts that a buffer hands out a value that makes the calls of these lines, and clears the buffer.
fn hands_out(rt: &impl Abort, alloc: Global, buffer: &mut ValueBuf<'static>, lines: &str) {
    let value: Value<'static> = must(rt, buffer.to_value());
    makes(rt, alloc, &value, lines);
    buffer.clear();
}

#[test]
fn hands_out_values(rt: HostRuntime) {
    let mut buffer: ValueBuf<'static> = ValueBuf::new(rt.alloc());
    must(&rt, buffer.i32(42));
    hands_out(&rt, rt.alloc(), &mut buffer, "i32 42\n");
    must(&rt, buffer.bool(true));
    hands_out(&rt, rt.alloc(), &mut buffer, "bool true\n");
    let nothing: Value<'_> = buffer.into_value();
    makes(&rt, rt.alloc(), &nothing, "null\n");
}
