//! What captured values make again whose texts are their own, as the lines of a script.

use crate::captured::{SOME, makes_again};
use crate::shown::{copy_of, holds, makes, must, shows};
use std::alloc::Global;
use std::process::Abort;
use sval::Stream;
use sval_buffer::{Error, Value, ValueBuf, stream_to_value_owned};

/// A text that is the buffer's own.
const TEXT: &str = "text_begin 3\ntext_fragment_computed =616263\ntext_end\n";

/// Asserts that a buffer was made of a whole value, and that it makes the calls of these lines.
fn owns(rt: &impl Abort, alloc: Global, owned: Result<ValueBuf<'static>, Error>, lines: &str) {
    let owned = must(rt, owned);
    holds(rt, owned.is_complete(), "the value is whole");
    makes_again(rt, alloc, &owned, lines);
}

#[test]
fn owns_texts(rt: HostRuntime) {
    let alloc = rt.alloc();
    let text = copy_of(&rt, alloc, "abc");
    owns(&rt, alloc, stream_to_value_owned(alloc, &text), TEXT);
    owns(&rt, alloc, ValueBuf::collect_owned(alloc, &text), TEXT);
}

/// A buffer that borrows nothing. The test ends where memory for it is wanting.
fn owned_of(rt: &impl Abort, buffer: ValueBuf<'_>) -> ValueBuf<'static> {
    buffer.into_owned().ok().expect(rt, "no owned buffer")
}

#[test]
fn makes_texts_its_own(rt: HostRuntime) {
    let alloc = rt.alloc();
    let text = copy_of(&rt, alloc, "abc");
    let captured: ValueBuf<'_> = must(&rt, ValueBuf::collect(alloc, &text));
    makes_again(&rt, alloc, &owned_of(&rt, captured), TEXT);
}

#[test]
fn owns_options(rt: HostRuntime) {
    let alloc = rt.alloc();
    let some = Some(42i32);
    let value: Value<'_> = must(&rt, Value::collect_owned(alloc, &some));
    makes(&rt, alloc, &value, SOME);
    owns(&rt, alloc, ValueBuf::collect_owned(alloc, &some), SOME);
    owns(&rt, alloc, stream_to_value_owned(alloc, &some), SOME);
}

#[test]
fn owns_copies(rt: HostRuntime) {
    let some = Some(42i32);
    let captured: Value<'_> = must(&rt, Value::collect(rt.alloc(), &some));
    let copy = must(&rt, captured.try_clone());
    let owned: Value<'static> = copy.into_owned().ok().expect(&rt, "no owned value");
    makes(&rt, rt.alloc(), &owned, SOME);
}

#[test]
fn goes_on_owned(rt: HostRuntime) {
    let mut buffer: ValueBuf<'_> = ValueBuf::new(rt.alloc());
    must(&rt, buffer.seq_begin(None));
    let mut owned = owned_of(&rt, buffer);
    must(&rt, owned.seq_end());
    holds(&rt, owned.is_complete(), "the value is whole");
}

#[test]
fn stays_refused_owned(rt: HostRuntime) {
    let alloc = rt.alloc();
    let mut buffer: ValueBuf<'_> = ValueBuf::new(alloc);
    holds(&rt, buffer.seq_end().is_err(), "the end is refused");
    let error = owned_of(&rt, buffer).into_err();
    shows(
        &rt,
        format!(in alloc; "{error:?}"),
        "Some(Error { kind: InvalidValue { reason: Unbalanced } })",
    );
}
