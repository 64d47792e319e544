//! What a refusal says, and what labels and indexes keep.

use crate::shown::{compare, copy_of, holds, must, shows};
use std::alloc::Global;
use std::fmt::Debug;
use std::process::Abort;
use sval_core::{Error, Index, Label, Tag, refusal, tags};

#[test]
fn says_nothing_of_a_cause(rt: HostRuntime) {
    let text = format!(in rt.alloc(); "{}, {:?}", Error::new(), refusal::<u8>());
    shows(&rt, text, "failed to stream data, Err(Error)");
}

/// Asserts what a label says: its text, its tag, and its text again if it is static.
fn label_says(rt: &impl Abort, alloc: Global, label: &Label<'_>, want: &str) {
    let text = format!(in alloc;
        "{} {:?} {:?}",
        label.as_str(),
        label.tag(),
        label.as_static_str()
    );
    shows(rt, text, want);
}

#[test]
fn labels_keep_text_tag_and_staticness(rt: HostRuntime) {
    let alloc = rt.alloc();
    let computed = Label::new_computed("a").with_tag(&tags::VALUE_IDENT);
    let want = "a Some(Tag { text: \"VALUE_IDENT\" }) None";
    copy_says(&rt, alloc, computed.to_owned(alloc), want);
    copy_says(&rt, alloc, computed.try_to_owned(alloc), want);
    copy_says(&rt, alloc, computed.try_clone(alloc), want);
}

/// Asserts that a label was copied, and what the copy says.
fn copy_says<E: Debug>(rt: &impl Abort, alloc: Global, copy: Result<Label<'_>, E>, want: &str) {
    label_says(rt, alloc, &must(rt, copy), want);
}

#[test]
fn labels_are_equal_by_their_texts(rt: HostRuntime) {
    let fixed = Label::new("a");
    label_says(&rt, rt.alloc(), &fixed, "a None Some(\"a\")");
    let computed = Label::new_computed("a").with_tag(&tags::VALUE_IDENT);
    holds(&rt, fixed == computed, "the texts are equal");
    let other = Label::new_owned(copy_of(&rt, rt.alloc(), "b"));
    holds(&rt, other != fixed, "the texts differ");
}

/// Asserts what an index says: its number, the same in each type that holds it, and its tag.
fn index_says(rt: &impl Abort, alloc: Global, index: Index, want: &str) {
    let text = format!(in alloc;
        "{index} {:?} {:?} {:?} {:?} {:?} {:?} {:?}",
        index.to_usize(),
        index.to_u32(),
        index.to_u64(),
        index.to_isize(),
        index.to_i32(),
        index.to_i64(),
        index.tag()
    );
    shows(rt, text, want);
}

#[test]
fn indexes_are_exact_in_each_type(rt: HostRuntime) {
    let alloc = rt.alloc();
    index_says(
        &rt,
        alloc,
        Index::new_i64(i64::MIN),
        "-9223372036854775808 None None None \
         Some(-9223372036854775808) None Some(-9223372036854775808) None",
    );
    index_says(
        &rt,
        alloc,
        Index::new_u64(u64::MAX),
        "18446744073709551615 Some(18446744073709551615) None Some(18446744073709551615) \
         None None None None",
    );
    index_says(
        &rt,
        alloc,
        Index::from(1i32 << 30),
        "1073741824 Some(1073741824) Some(1073741824) Some(1073741824) \
         Some(1073741824) Some(1073741824) Some(1073741824) None",
    );
    index_says(
        &rt,
        alloc,
        Index::from(u32::MAX),
        "4294967295 Some(4294967295) Some(4294967295) Some(4294967295) \
         Some(4294967295) None Some(4294967295) None",
    );
    index_says(
        &rt,
        alloc,
        Index::new(7).with_tag(&tags::VALUE_OFFSET),
        "7 Some(7) Some(7) Some(7) Some(7) Some(7) Some(7) Some(Tag { text: \"VALUE_OFFSET\" })",
    );
}

#[test]
fn indexes_are_equal_and_ordered_by_number(rt: HostRuntime) {
    let tagged = Index::new(7).with_tag(&tags::VALUE_OFFSET);
    holds(&rt, tagged == Index::new_i32(7), "the numbers are equal");
    holds(&rt, Index::new_isize(-1) < tagged, "-1 is below 7");
    let tag = Tag::new("VALUE_OFFSET");
    holds(&rt, tag == tags::VALUE_OFFSET, "the tags are equal");
}

/// Each tag, and its name.
const TAGS: [(Tag, &'static str); 7] = [
    (tags::RUST_OPTION_SOME, "RUST_OPTION_SOME"),
    (tags::RUST_OPTION_NONE, "RUST_OPTION_NONE"),
    (tags::RUST_UNIT, "RUST_UNIT"),
    (tags::NUMBER, "NUMBER"),
    (tags::CONSTANT_SIZE, "CONSTANT_SIZE"),
    (tags::VALUE_IDENT, "VALUE_IDENT"),
    (tags::VALUE_OFFSET, "VALUE_OFFSET"),
];

#[test]
fn the_text_of_each_tag_is_its_name(rt: HostRuntime) {
    for (tag, name) in &TAGS {
        compare(&rt, tag.text, name);
    }
}
