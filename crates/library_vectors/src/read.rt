//! What readers answer of values of std and of a binary, as functions and as methods.

use crate::shown::shows;
use std::alloc::{AllocError, Global};
use sval::{BinarySlice, Readers, default_value};
use sval_core::{Lent, Tag, Value};
use sval_lower::GivenTag;

#[test]
fn reads_numbers(rt: HostRuntime) {
    let small = 5i32;
    let byte = 5u8;
    let wide = 5i128;
    let large = 300i128;
    let read = format!(in rt.alloc();
        "{:?} {:?}, {:?} {:?}, {:?} {:?}",
        default_value::to_i32(&small),
        default_value::to_i64(&small),
        default_value::to_u64(&byte),
        default_value::to_i64(&byte),
        default_value::to_i8(&wide),
        default_value::to_i8(&large)
    );
    shows(&rt, read, "Some(5) None, Some(5) None, Some(5) None");
}

#[test]
fn reads_texts_that_are_lent(rt: HostRuntime) {
    let letter = 'a';
    let some = Some("x");
    let read = format!(in rt.alloc();
        "{:?} {:?}",
        default_value::to_text(&letter),
        default_value::to_text(&some)
    );
    shows(&rt, read, "None Some(\"x\")");
}

#[test]
fn reads_tags(rt: HostRuntime) {
    let unit: Option<Tag> = default_value::tag(&());
    let byte = 5u8;
    let number: Option<Tag> = default_value::tag(&byte);
    let text = "x";
    let none: Option<Tag> = default_value::tag(&text);
    let read = format!(in rt.alloc(); "{unit:?} {number:?} {none:?}");
    shows(
        &rt,
        read,
        "Some(Tag { text: \"RUST_UNIT\" }) Some(Tag { text: \"NUMBER\" }) None",
    );
}

/// The signed and then the unsigned numbers that a value is read as, from the shortest type to the longest.
fn numbers_of<'v, V: Value<'v, Lent<'v>>>(
    alloc: Global,
    value: &'v V,
) -> Result<String, AllocError> {
    let signed = format!(in alloc;
        "{:?} {:?} {:?} {:?} {:?}",
        value.to_i8(),
        value.to_i16(),
        value.to_i32(),
        value.to_i64(),
        value.to_i128()
    )?;
    format!(in alloc;
        "{signed}, {:?} {:?} {:?} {:?} {:?}",
        value.to_u8(),
        value.to_u16(),
        value.to_u32(),
        value.to_u64(),
        value.to_u128()
    )
}

#[test]
fn reads_numbers_by_methods(rt: HostRuntime) {
    let alloc = rt.alloc();
    let want = "None None Some(5) None None, None None None None None";
    shows(&rt, numbers_of(alloc, &5i32), want);
    let want = "None None None None None, Some(5) Some(5) Some(5) Some(5) Some(5)";
    shows(&rt, numbers_of(alloc, &5u8), want);
    let want = "Some(5) Some(5) Some(5) Some(5) Some(5), None None None None None";
    shows(&rt, numbers_of(alloc, &5i128), want);
    let want = "None Some(300) Some(300) Some(300) Some(300), None None None None None";
    shows(&rt, numbers_of(alloc, &300i128), want);
    let want = "None None None None None, None Some(300) Some(300) Some(300) Some(300)";
    shows(&rt, numbers_of(alloc, &300u16), want);
}

/// What a value is read as that is no number: a truth value, a text and a binary.
fn others_of<'v, V: Value<'v, Lent<'v>>>(
    alloc: Global,
    value: &'v V,
) -> Result<String, AllocError> {
    let text = value.to_text();
    let binary = value.to_binary();
    format!(in alloc; "{:?} {text:?} {binary:?}", value.to_bool())
}

#[test]
fn reads_others_by_methods(rt: HostRuntime) {
    let alloc = rt.alloc();
    shows(&rt, others_of(alloc, &true), "Some(true) None None");
    shows(&rt, others_of(alloc, &'a'), "None None None");
    shows(&rt, others_of(alloc, &"x"), "None Some(\"x\") None");
    shows(&rt, others_of(alloc, &Some("x")), "None Some(\"x\") None");
    let binary = BinarySlice::new(b"ab");
    shows(&rt, others_of(alloc, &binary), "None None Some([97, 98])");
}

/// The tag of a value.
fn tag_of<'v, T: GivenTag, V: Value<'v, Lent<'v>>>(value: &'v V) -> Option<T> {
    value.tag()
}

#[test]
fn reads_tags_by_methods(rt: HostRuntime) {
    let some = Some("x");
    let tag: Option<Tag> = tag_of(&some);
    let read = format!(in rt.alloc(); "{tag:?}");
    shows(&rt, read, "Some(Tag { text: \"RUST_OPTION_SOME\" })");
}
