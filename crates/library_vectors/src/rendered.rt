//! Values that print themselves, and that can't.

use crate::shown::{compare, copy_of, holds, must, shows};
use std::fmt;
use std::process::Abort;
use sval::{BinaryArray, BinarySlice, Display, MapSlice, Render, StdDisplay};

/// A value that can't be printed.
#[derive(Drop)]
pub(crate) struct Unprintable;

impl fmt::Display for Unprintable {
    fn fmt<W: fmt::Write>(&self, _f: &mut fmt::Formatter<W>) -> fmt::Result {
        Err(fmt::Error)
    }
}

/// Appends what a value prints.
fn append<V: Render>(rt: &impl Abort, text: &mut String, value: &V) {
    holds(rt, value.render(text).is_ok(), "the value is printed");
}

#[test]
fn appends_what_values_print(rt: HostRuntime) {
    let alloc = rt.alloc();
    let mut text = copy_of(&rt, alloc, ":");
    append(&rt, &mut text, &true);
    append(&rt, &mut text, &'é');
    append(&rt, &mut text, &0u8);
    append(&rt, &mut text, &i128::MIN);
    append(&rt, &mut text, &"a b");
    append(&rt, &mut text, &copy_of(&rt, alloc, "c"));
    append(&rt, &mut text, &&&7u64);
    append(&rt, &mut text, &StdDisplay { value: 42u16 });
    let want = ":trueé0-170141183460469231731687303715884105728a bc742";
    compare(&rt, text.as_str(), want);
}

#[test]
fn appends_each_type_of_numbers(rt: HostRuntime) {
    let mut text = String::new(rt.alloc());
    append(&rt, &mut text, &u8::MAX);
    append(&rt, &mut text, &1u16);
    append(&rt, &mut text, &2u32);
    append(&rt, &mut text, &3u64);
    append(&rt, &mut text, &u128::MAX);
    append(&rt, &mut text, &i8::MIN);
    append(&rt, &mut text, &-1i16);
    append(&rt, &mut text, &-2i32);
    append(&rt, &mut text, &-3i64);
    append(&rt, &mut text, &4i128);
    let want = "255123340282366920938463463374607431768211455-128-1-2-34";
    compare(&rt, text.as_str(), want);
}

#[test]
fn tells_what_cannot_be_printed(rt: HostRuntime) {
    let alloc = rt.alloc();
    let unprintable = StdDisplay { value: Unprintable };
    let mut text = copy_of(&rt, alloc, "a");
    let answer = unprintable.render(&mut text);
    shows(&rt, format!(in alloc; "{answer:?} {text}"), "Err(Format) a");
    let error = Display::new(alloc, unprintable).err();
    shows(&rt, format!(in alloc; "{error:?}"), "Some(Format)");
}

#[test]
fn holds_what_it_was_given(rt: HostRuntime) {
    let alloc = rt.alloc();
    let held = format!(in alloc;
        "{} {} {:?} {:?} {}",
        must(&rt, Display::new(alloc, 42u8)).into_inner(),
        must(&rt, Display::new_borrowed(alloc, &42u8)).inner(),
        BinarySlice::new(b"ab").as_slice(),
        BinaryArray::new(&[1, 2]).as_slice(),
        MapSlice::new(&[(1u8, true)]).as_slice().len()
    );
    shows(&rt, held, "42 42 [97, 98] [1, 2] 1");
}
