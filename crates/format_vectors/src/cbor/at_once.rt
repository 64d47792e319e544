//! The JSON of items, written as they are read.

use crate::cases::{Case, try_cases};
use crate::cbor::items::bytes_of;
use crate::shown::{holds, must};
use std::alloc::Global;
use std::process::Abort;
use std::str::from_utf8;
use sval_cbor_read::{json_at_once, json_front_at_once};

/// Bytes in hex, and behind `json` how many of them the first item takes and its JSON, or `none`.
struct AtOnce;

impl Case for AtOnce {
    fn seen(rt: &impl Abort, alloc: Global, input: &str, _due: &str) -> String {
        let bytes = bytes_of(rt, alloc, input);
        let seen = match json_front_at_once(alloc, &bytes) {
            Some((json, used)) => format!(in alloc; "json {used} {}", must(rt, from_utf8(&json))),
            None => String::from_str(alloc, "none"),
        };
        must(rt, seen)
    }
}

/// Items of the commonest kinds, alone and before other bytes.
const COMMON: &'static str = r#"
00
= json 1 0
1818f6
= json 2 24
1bffffffffffffffff
= json 9 18446744073709551615
20
= json 1 -1
3b7fffffffffffffff
= json 9 -9223372036854775808
f4f5
= json 1 false
f5
= json 1 true
f6
= json 1 null
60
= json 1 ""
6161ff
= json 2 "a"
62c3a4
= json 3 "ä"
6322095c
= json 4 "\"\t\\"
78206162636465666768696a6b6c6d6e6f707172737475767778797a30313233343536
= json 34 "abcdefghijklmnopqrstuvwxyz012345"
782061620a636465666768696a6b6c6d6e6f707172737475767778797a3031323334616161616161616161616161616161616161616161616161616161616161616161
= json 34 "ab\ncdefghijklmnopqrstuvwxyz01234"
78206162636465666768696a6b6c6d6e6f707172737475767778797a303132333435
= json 34 "abcdefghijklmnopqrstuvwxyz012345"
6161616161616161616161616161616161616161616161616161616161616161616161
= json 2 "a"
63e282ac61616161616161616161616161616161616161616161616161616161616161616161
= json 4 "€"
80
= json 1 []
9fff
= json 2 []
a0
= json 1 {}
bfff
= json 2 {}
8301820203f6
= json 6 [1,[2,3],null]
9f019f0203ff04ffff
= json 8 [1,[2,3],4]
a26161016162a0
= json 7 {"a":1,"b":{}}
bf6161f4616280ff
= json 8 {"a":false,"b":[]}
a3001820200261638120
= json 10 {"0":32,"-1":2,"c":[-1]}
40
= json 1 []
824100f6
= json 4 [[0],null]
4301ff64f6
= json 4 [1,255,100]
c100
= json 2 0
d9d9f7816161
= json 6 ["a"]
a16161c18102
= json 6 {"a":[2]}
"#;

/// Items of other kinds, and bytes that no item begins.
const OTHERS: &'static str = r#"
7f6161ff
= none
5f4100ff
= none
c24101
= none
3b8000000000000000
= none
a1f600
= none
a14000
= none
a18000
= none
f7
= none
f90000
= none
fb3ff199999999999a
= none
1c
= none
18
= none
6261
= none
61ff
= none
61ff61616161616161616161616161616161616161616161616161616161616161616161
= none
81
= none
9f01
= none
a101
= none
bf01ff
= none
ff
= none
"#;

#[test]
fn common_items_are_written_at_once(rt: HostRuntime) {
    try_cases::<AtOnce>(&rt, rt.alloc(), COMMON);
}

#[test]
fn other_items_are_not_written_at_once(rt: HostRuntime) {
    try_cases::<AtOnce>(&rt, rt.alloc(), OTHERS);
}

/// Whether an empty array in `outer` arrays, one in another, is written at once.
fn has_levels(rt: &impl Abort, alloc: Global, outer: usize) -> bool {
    let outer = must(rt, "81".repeat(alloc, outer));
    let bytes = bytes_of(rt, alloc, &must(rt, [outer.as_str(), "80"].concat(alloc)));
    json_at_once(alloc, &bytes).is_some()
}

#[test]
fn depth_is_bounded_at_once(rt: HostRuntime) {
    holds(&rt, has_levels(&rt, rt.alloc(), 63), "64 levels");
    holds(&rt, !has_levels(&rt, rt.alloc(), 64), "65 levels");
}

/// Compares the length of the JSON of 100,000 times a piece, behind what begins an item and before what ends it.
fn try_many(rt: &impl Abort, alloc: Global, begin: &[u8], piece: &[u8], end: &[u8], due: usize) {
    let mut bytes = Vec::new(alloc);
    must(rt, bytes.extend_from_slice(begin));
    for _ in 0..100_000 {
        must(rt, bytes.extend_from_slice(piece));
    }
    must(rt, bytes.extend_from_slice(end));
    let json = json_at_once(alloc, &bytes);
    holds(rt, json.is_some_and(|json| json.len() == due), "100,000");
}

#[test]
fn many_items_are_written_at_once(rt: HostRuntime) {
    try_many(
        &rt,
        rt.alloc(),
        b"\x9a\x00\x01\x86\xa0",
        b"\xf6",
        b"",
        500_001,
    );
    try_many(&rt, rt.alloc(), b"\x9f", b"\x20", b"\xff", 300_001);
    try_many(
        &rt,
        rt.alloc(),
        b"\xba\x00\x01\x86\xa0",
        b"\x61a\x00",
        b"",
        600_001,
    );
    try_many(&rt, rt.alloc(), b"\xbf", b"\x61\n\xf4", b"\xff", 1_100_001);
    try_many(&rt, rt.alloc(), b"\x7a\x00\x01\x86\xa0", b"b", b"", 100_002);
}
