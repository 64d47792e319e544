//! What is collected of values as texts and as binaries.

use crate::cases::{agrees, must};
use std::alloc::Global;
use std::process::Abort;
use sval_buffer::{BinaryBuf, TextBuf, ValueBuf};
use sval_core::{Call, Label, Name, Stream, tags};

/// What is collected of captured calls as a text, and whether it is borrowed, or why nothing is.
pub(crate) fn text_of(rt: &impl Abort, alloc: Global, value: &ValueBuf<'_>) -> String {
    let seen = match TextBuf::collect(alloc, value) {
        Ok(text) => format!(in alloc; "{text:?} {}", text.as_borrowed_str().is_some()),
        Err(error) => format!(in alloc; "{error}"),
    };
    must(rt, seen)
}

/// What is collected of captured calls as a binary, and whether it is borrowed, or why nothing is.
pub(crate) fn binary_of(rt: &impl Abort, alloc: Global, value: &ValueBuf<'_>) -> String {
    let seen = match BinaryBuf::collect(alloc, value) {
        Ok(bytes) => format!(in alloc; "{bytes:?} {}", bytes.as_borrowed_slice().is_some()),
        Err(error) => format!(in alloc; "{error}"),
    };
    must(rt, seen)
}

/// Texts, integers that no `i64` is, labels, and what no text is collected of.
pub(crate) const TEXTS: &'static str = r#"
text_begin -
text_end
= "" true

text_begin 8
text_fragment =6120737472696e67
text_end
= "a string" true

u128 340282366920938463463374607431768211455
= "340282366920938463463374607431768211455" false

u64 9223372036854775808
= "9223372036854775808" false

i128 -9223372036854775809
= "-9223372036854775809" false

u64 9223372036854775807
= unexpected integer, expected text

u8 1
= unexpected integer, expected text

bool true
= unexpected boolean, expected text

map_begin -
= unexpected sequence, expected text

binary_begin -
= unexpected sequence, expected text

tagged_begin CONSTANT_SIZE - -
text_begin -
text_fragment =61
text_fragment_computed =62
text_end
tagged_end CONSTANT_SIZE - -
= "ab" false

tag - =7769647468 -
= "width" false
"#;

/// What is collected as a text of a tag of this name.
fn text_of_a_tag(rt: &impl Abort, alloc: Global, name: Name<'_>) -> String {
    let mut value: ValueBuf<'_> = ValueBuf::new(alloc);
    must(rt, value.take(Call::Tag(name)));
    text_of(rt, alloc, &value)
}

/// Scripts have no static labels, which a text borrows.
#[test]
fn collects_static_labels(rt: HostRuntime) {
    let label = Label::new("kind");
    let kind = Name {
        tag: None,
        label: Some(&label),
        index: None,
    };
    let text = text_of_a_tag(&rt, rt.alloc(), kind);
    agrees(&rt, &text, "\"kind\" true");
    let none = Name {
        tag: Some(&tags::RUST_OPTION_NONE),
        label: Some(&label),
        index: None,
    };
    let text = text_of_a_tag(&rt, rt.alloc(), none);
    agrees(&rt, &text, "unexpected null, expected text");
}

/// Binaries, bytes alone and in a sequence, and what no binary is collected of.
pub(crate) const BINARIES: &'static str = r#"
tagged_begin CONSTANT_SIZE - -
seq_begin 2
seq_value_begin
u8 97
seq_value_end
seq_value_begin
u8 32
seq_value_end
seq_end
tagged_end CONSTANT_SIZE - -
= [97, 32] false

binary_begin -
binary_fragment =6162
binary_end
= [97, 98] true

u8 7
= [7] false

bool true
= unexpected boolean, expected binary

u16 7
= unexpected integer, expected binary

u64 9223372036854775808
= unexpected text, expected binary

text_begin -
= unexpected text, expected binary

map_begin -
= unexpected map, expected binary
"#;
