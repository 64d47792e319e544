//! What is looked up in items of CBOR.

use crate::cases::{Case, try_cases};
use crate::cbor::items::bytes_of;
use crate::shown::{must, push};
use std::alloc::Global;
use std::fmt::Write;
use std::process::Abort;
use sval_cbor_read::{CborBytes, CborDoc, CborEntries, CborItems, CborRef, CborText};

/// Bytes in hex, a pointer (RFC 6901) behind a space where the row has one, and what is looked up in their item: behind
/// `parts` the item itself, behind `get` the last value in their map whose key is the text `a`, behind `item` the item at
/// index 1 of their array, and behind `at` what the pointer references. Of each it is said what it is taken for, item by
/// item and pair by pair.
struct LookedUp;

impl Case for LookedUp {
    fn seen(rt: &impl Abort, alloc: Global, input: &str, due: &str) -> String {
        let line = input.trim_end();
        let (digits, pointer) = line.split_once(' ').unwrap_or((line, ""));
        let bytes = bytes_of(rt, alloc, digits);
        let doc = must(rt, CborDoc::read(alloc, &bytes));
        let kind = first_word(due);
        let mut seen = must(rt, String::from_str(alloc, kind));
        push(rt, &mut seen, " ");
        match look_up(&doc, kind, pointer) {
            Some(value) => push_parts(rt, alloc, &value, &mut seen),
            None => push(rt, &mut seen, "nothing"),
        }
        seen
    }
}

/// The first word of a text.
fn first_word(text: &str) -> &str {
    let (word, _behind) = text.split_once(' ').unwrap_or((text, ""));
    word
}

/// What a row of this kind looks up.
fn look_up<'a>(doc: &'a CborDoc<'_>, kind: &str, pointer: &str) -> Option<CborRef<'a>> {
    let root = doc.root();
    match kind {
        "parts" => Some(root),
        "get" => root.get("a"),
        "item" => root.item(1),
        _ => root.pointer(pointer),
    }
}

/// What an integer is as each of the four types.
fn push_number(rt: &impl Abort, value: &CborRef<'_>, seen: &mut String) {
    let short = value.as_i64();
    let natural = value.as_u64();
    let long = value.as_i128();
    let large = value.as_u128();
    must(
        rt,
        write!(seen, " {short:?} {natural:?} {long:?} {large:?}"),
    );
}

/// What an item is taken for: its kind, and what else is of that kind.
fn push_one(rt: &impl Abort, alloc: Global, value: &CborRef<'_>, seen: &mut String) {
    must(rt, write!(seen, "{:?}", value.kind()));
    if value.is_null() {
        push(rt, seen, " null");
    }
    if let Some(truth) = value.as_bool() {
        must(rt, write!(seen, " {truth:?}"));
    }
    if value.as_i128().is_some() || value.as_u128().is_some() {
        push_number(rt, value, seen);
    }
    if let Some(len) = value.len() {
        must(rt, write!(seen, " {len}"));
    }
    if let Some(text) = value.text() {
        push_text(rt, alloc, value, &text, seen);
        push_chunks(rt, text, seen);
    }
    if let Some(bytes) = value.bytes() {
        must(rt, write!(seen, " {:?}", value.as_bytes()));
        push_bytes(rt, bytes, seen);
    }
}

/// What one chunk of a text holds, what is copied of it, and whether it is what was copied.
fn push_text(
    rt: &impl Abort,
    alloc: Global,
    value: &CborRef<'_>,
    text: &CborText<'_>,
    seen: &mut String,
) {
    let lent = value.as_str();
    let copied = must(rt, text.to_text(alloc));
    let is_copied = text.is(&copied);
    must(rt, write!(seen, " {lent:?} {copied:?} {is_copied:?}"));
}

/// The chunks of a text.
fn push_chunks(rt: &impl Abort, text: CborText<'_>, seen: &mut String) {
    let mut left = text;
    while let Some(chunk) = left.next() {
        must(rt, write!(seen, " {chunk:?}"));
    }
}

/// The chunks of a byte string.
fn push_bytes(rt: &impl Abort, bytes: CborBytes<'_>, seen: &mut String) {
    let mut left = bytes;
    while let Some(slice) = left.next() {
        must(rt, write!(seen, " {slice:?}"));
    }
}

/// What an item, and each item directly in it, is taken for.
fn push_parts(rt: &impl Abort, alloc: Global, value: &CborRef<'_>, seen: &mut String) {
    push_one(rt, alloc, value, seen);
    if let Some(items) = value.items() {
        push_items(rt, alloc, items, seen);
    }
    if let Some(entries) = value.entries() {
        push_entries(rt, alloc, entries, seen);
    }
}

/// What each of these items is taken for.
fn push_items(rt: &impl Abort, alloc: Global, items: CborItems<'_>, seen: &mut String) {
    let mut left = items;
    while let Some(item) = left.next() {
        push(rt, seen, "; ");
        push_one(rt, alloc, &item, seen);
    }
}

/// What the key and the value of each of these pairs is taken for.
fn push_entries(rt: &impl Abort, alloc: Global, entries: CborEntries<'_>, seen: &mut String) {
    let mut left = entries;
    while let Some(entry) = left.next() {
        push(rt, seen, "; ");
        push_one(rt, alloc, &entry.key, seen);
        push(rt, seen, ": ");
        push_one(rt, alloc, &entry.value, seen);
    }
}

/// Items of each kind. Integers are those of RFC 8949, appendix A, and at the ends of the types.
const PARTS: &'static str = r#"
f6
= parts Null null
f4
= parts Bool false
f5
= parts Bool true
c1f5
= parts Bool true
00
= parts Int Some(0) Some(0) Some(0) Some(0)
1903e8
= parts Int Some(1000) Some(1000) Some(1000) Some(1000)
20
= parts Int Some(-1) None Some(-1) None
1b7fffffffffffffff
= parts Int Some(9223372036854775807) Some(9223372036854775807) Some(9223372036854775807) Some(9223372036854775807)
1b8000000000000000
= parts Int None Some(9223372036854775808) Some(9223372036854775808) Some(9223372036854775808)
1bffffffffffffffff
= parts Int None Some(18446744073709551615) Some(18446744073709551615) Some(18446744073709551615)
3b7fffffffffffffff
= parts Int Some(-9223372036854775808) None Some(-9223372036854775808) None
3b8000000000000000
= parts Int None None Some(-9223372036854775809) None
3bffffffffffffffff
= parts Int None None Some(-18446744073709551616) None
c249010000000000000000
= parts Int None None Some(18446744073709551616) Some(18446744073709551616)
c349010000000000000000
= parts Int None None Some(-18446744073709551617) None
c24107
= parts Int Some(7) Some(7) Some(7) Some(7)
c25f4101420203ff
= parts Int Some(66051) Some(66051) Some(66051) Some(66051)
c2507fffffffffffffffffffffffffffffff
= parts Int None None Some(170141183460469231731687303715884105727) Some(170141183460469231731687303715884105727)
c25080000000000000000000000000000000
= parts Int None None None Some(170141183460469231731687303715884105728)
c250ffffffffffffffffffffffffffffffff
= parts Int None None None Some(340282366920938463463374607431768211455)
c3507fffffffffffffffffffffffffffffff
= parts Int None None Some(-170141183460469231731687303715884105728) None
60
= parts Text Some("") "" true ""
626162
= parts Text Some("ab") "ab" true "ab"
7fff
= parts Text None "" true
7f626162ff
= parts Text Some("ab") "ab" true "ab"
7f616160626263ff
= parts Text None "abc" true "a" "" "bc"
40
= parts Bytes Some([]) []
43010203
= parts Bytes Some([1, 2, 3]) [1, 2, 3]
5fff
= parts Bytes None
5f41014102ff
= parts Bytes None [1] [2]
5f420102ff
= parts Bytes Some([1, 2]) [1, 2]
80
= parts Array 0
9fff
= parts Array 0
a0
= parts Map 0
bfff
= parts Map 0
8301820203f6
= parts Array 3; Int Some(1) Some(1) Some(1) Some(1); Array 2; Null null
9f9f7f6161ffff5f4101ffa1f6f480ff
= parts Array 4; Array 1; Bytes Some([1]) [1]; Map 1; Array 0
a3616180f681f680f4
= parts Map 3; Text Some("a") "a" true "a": Array 0; Null null: Array 1; Array 0: Bool false
bf7f61616162ffbf00f5ff6161a16161f6ff
= parts Map 2; Text None "ab" true "a" "b": Map 1; Text Some("a") "a" true "a": Map 1
c1a1c16161c1820102
= parts Map 1; Text Some("a") "a" true "a": Array 2
"#;

/// Maps, and their values of the name `a`: of equal names the last, names in chunks and behind tags, and keys that are
/// no texts.
const NAMED: &'static str = r#"
f6
= get nothing
826161f6
= get nothing
a0
= get nothing
a16162f5
= get nothing
a16161f5
= get Bool true
a3616101616102616203
= get Int Some(2) Some(2) Some(2) Some(2)
bf7f6161ff0161620260f4ff
= get Int Some(1) Some(1) Some(1) Some(1)
a261610a7f606161ff80
= get Array 0
a26161017f616160ff02
= get Int Some(2) Some(2) Some(2) Some(2)
a24161f50af5
= get nothing
a1c16161c1f6
= get Null null
a281616101a1616102f5
= get nothing
a2a16161028080826161f5
= get nothing
a1616182a1616102f5
= get Array 2; Map 1; Bool true
a161627f6161ff
= get nothing
a162616101
= get nothing
"#;

/// Arrays, and their items at index 1: behind strings, arrays and maps of both lengths.
const SECOND: &'static str = r#"
f5
= item nothing
80
= item nothing
81f5
= item nothing
82f4f5
= item Bool true
828201820203f5
= item Bool true
9f9f9f9fffff80fff5f4ff
= item Bool true
82bf00a1019fff02a0fff5
= item Bool true
827f61616162fff5
= item Bool true
825f41014102ff5f4101ff
= item Bytes Some([1]) [1]
82c24107c34107
= item Int Some(-8) None Some(-8) None
a200f401f5
= item nothing
"#;

/// Pointers into `{"a/b": [1, {"m~n": 8}], "": 0}`, into keys in chunks, of equal keys, into keys that are no texts, and
/// into items behind tags.
const POINTED: &'static str = r#"
a263612f628201a1636d7e6e086000
= at Map 2; Text Some("a/b") "a/b" true "a/b": Array 2; Text Some("") "" true "": Int Some(0) Some(0) Some(0) Some(0)
a263612f628201a1636d7e6e086000 /
= at Int Some(0) Some(0) Some(0) Some(0)
a263612f628201a1636d7e6e086000 /a~1b/0
= at Int Some(1) Some(1) Some(1) Some(1)
a263612f628201a1636d7e6e086000 /a~1b/1/m~0n
= at Int Some(8) Some(8) Some(8) Some(8)
a263612f628201a1636d7e6e086000 /a~1b/01
= at nothing
a263612f628201a1636d7e6e086000 /a~1b/2
= at nothing
a263612f628201a1636d7e6e086000 /a~1b/1/m~n
= at nothing
a263612f628201a1636d7e6e086000 /a/b
= at nothing
a263612f628201a1636d7e6e086000 /a~1
= at nothing
a263612f628201a1636d7e6e086000 a~1b
= at nothing
bf7f6161622f62ff01ff /a~1b
= at Int Some(1) Some(1) Some(1) Some(1)
bf7f616d617e616eff02ff /m~0n
= at Int Some(2) Some(2) Some(2) Some(2)
bf7f616d617e616eff02ff /m~0
= at nothing
a2616101616102 /a
= at Int Some(2) Some(2) Some(2) Some(2)
a200014130f5 /0
= at nothing
c1a16161c1820102 /a/1
= at Int Some(2) Some(2) Some(2) Some(2)
6130 /0
= at nothing
"#;

#[test]
fn what_an_item_holds(rt: HostRuntime) {
    try_cases::<LookedUp>(&rt, rt.alloc(), PARTS);
}

#[test]
fn what_is_looked_up(rt: HostRuntime) {
    try_cases::<LookedUp>(&rt, rt.alloc(), NAMED);
    try_cases::<LookedUp>(&rt, rt.alloc(), SECOND);
    try_cases::<LookedUp>(&rt, rt.alloc(), POINTED);
}
