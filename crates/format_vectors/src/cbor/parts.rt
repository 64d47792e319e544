//! Values of an item, taken by themselves: what is written of one, and the last of many.

use crate::cases::{Case, try_cases};
use crate::cbor::items::bytes_of;
use crate::shown::{holds, must};
use std::alloc::Global;
use std::process::Abort;
use sval_buffer::ValueBuf;
use sval_cbor_read::{CborDoc, CborRef};
use sval_json::stream_to_string;

/// Bytes in hex, a pointer (RFC 6901) behind a space, and behind `json` what is written of the item by itself that the
/// pointer references: first of the item, and then of what is captured of it.
struct Written;

impl Case for Written {
    fn seen(rt: &impl Abort, alloc: Global, input: &str, _due: &str) -> String {
        let line = input.trim_end();
        let (digits, pointer) = line.split_once(' ').unwrap_or((line, ""));
        let bytes = bytes_of(rt, alloc, digits);
        let doc = must(rt, CborDoc::read(alloc, &bytes));
        match doc.root().pointer(pointer) {
            Some(item) => written_of(rt, alloc, &item),
            None => must(rt, String::from_str(alloc, "nothing")),
        }
    }
}

/// What is written of an item by itself, and of what is captured of it.
fn written_of(rt: &impl Abort, alloc: Global, item: &CborRef<'_>) -> String {
    let part = item.part();
    let captured: ValueBuf<'_> = must(rt, ValueBuf::collect(alloc, &part));
    let written = must(rt, stream_to_string(alloc, &part));
    let replayed = must(rt, stream_to_string(alloc, &captured));
    must(rt, format!(in alloc; "json {written} {replayed}"))
}

/// The whole, and items in arrays and maps of both lengths: of each kind, first and last ones, and behind tags.
const WRITTEN: &'static str = r#"
f6
= json null null
c1f5
= json true true
7f6161ff
= json "a" "a"
8201820203
= json [1,[2,3]] [1,[2,3]]
8301820203f6 /0
= json 1 1
8301820203f6 /1
= json [2,3] [2,3]
8301820203f6 /1/1
= json 3 3
8301820203f6 /2
= json null null
9f01820203bf6161f4ff80ff /1
= json [2,3] [2,3]
9f01820203bf6161f4ff80ff /2
= json {"a":false} {"a":false}
9f01820203bf6161f4ff80ff /2/a
= json false false
9f01820203bf6161f4ff80ff /3
= json [] []
826261627f616160626263ff /0
= json "ab" "ab"
826261627f616160626263ff /1
= json "abc" "abc"
82430102035f41014102ff /0
= json [1,2,3] [1,2,3]
82430102035f41014102ff /1
= json [1,2] [1,2]
822038ff /0
= json -1 -1
822038ff /1
= json -256 -256
83c249010000000000000000c34901000000000000000000 /0
= json 18446744073709551616 18446744073709551616
83c249010000000000000000c34901000000000000000000 /1
= json -18446744073709551617 -18446744073709551617
a261610161628301a1616102a0 /b
= json [1,{"a":2},{}] [1,{"a":2},{}]
a261610161628301a1616102a0 /b/1
= json {"a":2} {"a":2}
a261610161628301a1616102a0 /b/1/a
= json 2 2
a261610161628301a1616102a0 /b/2
= json {} {}
bf7f61616162ff81f5ff /ab
= json [true] [true]
c1a16161c1820102 /a
= json [1,2] [1,2]
8100 /1
= nothing
"#;

#[test]
fn what_is_written_of_an_item(rt: HostRuntime) {
    try_cases::<Written>(&rt, rt.alloc(), WRITTEN);
}

/// An array of 100,000 items, each an array of one byte string.
fn many_bytes(rt: &impl Abort, alloc: Global) -> Vec<u8> {
    let mut bytes = must(
        rt,
        Vec::from_slice(alloc, b"\x9a\x00\x01\x86\xa0".as_slice()),
    );
    for index in 0..100_000u32 {
        must(
            rt,
            bytes.extend_from_slice(&[0x81, 0x41, (index % 251) as u8]),
        );
    }
    bytes
}

/// 100,000 items, and the last of them.
#[test]
fn many_items(rt: HostRuntime) {
    let bytes = many_bytes(&rt, rt.alloc());
    let doc = must(&rt, CborDoc::read(rt.alloc(), &bytes));
    let root = doc.root();
    holds(&rt, root.len() == Some(100_000), "the length");
    holds(
        &rt,
        root.item(100_000).is_none(),
        "the item behind the last",
    );
    holds(&rt, inner_length(&root, 99_999) == Some(1), "the last item");
}

/// How many bytes the first item of an item of an array has, if that is a byte string in one chunk.
fn inner_length(root: &CborRef<'_>, index: usize) -> Option<usize> {
    match root.item(index)?.item(0)?.as_bytes() {
        Some(bytes) => Some(bytes.len()),
        None => None,
    }
}
