//! Bytes, and what is written of them as JSON or why they aren't read.

use crate::cases::{Case, try_cases};
use crate::shown::{holds, must};
use std::alloc::Global;
use std::process::Abort;
use sval_cbor_read::{CborDoc, json_at_once};
use sval_check::TokenBuf;
use sval_json::stream_to_string;
use sval_ref::stream_ref;

/// The bytes that a line has in hex.
pub(crate) fn bytes_of(rt: &impl Abort, alloc: Global, line: &str) -> Vec<u8> {
    must(rt, hex::decode(alloc, line.trim_end()))
}

/// Bytes in hex, and behind `json` what is written of them, or behind `error` why they aren't read. What is written of
/// them at once is the same, or nothing.
pub(crate) struct Read;

impl Case for Read {
    fn seen(rt: &impl Abort, alloc: Global, input: &str, _due: &str) -> String {
        let bytes = bytes_of(rt, alloc, input);
        let at_once = json_at_once(alloc, &bytes);
        let seen = match CborDoc::read(alloc, &bytes) {
            Ok(doc) => {
                let json = must(rt, stream_to_string(alloc, &doc));
                let same = at_once.is_none_or(|found| found.as_slice() == json.as_bytes());
                holds(rt, same, input);
                format!(in alloc; "json {json}")
            },
            Err(error) => {
                holds(rt, at_once.is_none(), input);
                format!(in alloc; "error {error:?}")
            },
        };
        must(rt, seen)
    }
}

/// Bytes in hex, and behind `front` how many of them the first item takes and what is written of it as JSON, or behind
/// `error` what is said where none begins them.
pub(crate) struct Front;

impl Case for Front {
    fn seen(rt: &impl Abort, alloc: Global, input: &str, _due: &str) -> String {
        let bytes = bytes_of(rt, alloc, input);
        let seen = match CborDoc::read_front(alloc, &bytes) {
            Ok((doc, used)) => {
                format!(in alloc; "front {used} {}", must(rt, stream_to_string(alloc, &doc)))
            },
            Err(error) => format!(in alloc; "error {error}"),
        };
        must(rt, seen)
    }
}

/// Bytes in hex, and behind `calls` their calls.
struct Calls;

impl Case for Calls {
    fn seen(rt: &impl Abort, alloc: Global, input: &str, _due: &str) -> String {
        let bytes = bytes_of(rt, alloc, input);
        let calls = kept(rt, alloc, &bytes);
        let tokens = calls.as_tokens();
        must(rt, format!(in alloc; "calls {tokens:?}"))
    }
}

/// The calls of a document, which keep its texts for longer than it is there.
fn kept<'a>(rt: &impl Abort, alloc: Global, bytes: &'a [u8]) -> TokenBuf<'a> {
    let mut calls = TokenBuf::new(alloc);
    let doc = must(rt, CborDoc::read(alloc, bytes));
    must(rt, stream_ref(&mut calls, &doc));
    calls
}

/// The whole numbers and simple values of RFC 8949, appendix A.
const NUMBERS: &'static str = r#"
00
= json 0
01
= json 1
0a
= json 10
17
= json 23
1818
= json 24
1819
= json 25
1864
= json 100
1903e8
= json 1000
1a000f4240
= json 1000000
1b000000e8d4a51000
= json 1000000000000
1bffffffffffffffff
= json 18446744073709551615
c249010000000000000000
= json 18446744073709551616
3bffffffffffffffff
= json -18446744073709551616
c349010000000000000000
= json -18446744073709551617
20
= json -1
29
= json -10
3863
= json -100
3903e7
= json -1000
f4
= json false
f5
= json true
f6
= json null
"#;

/// Its strings and tags.
const STRINGS: &'static str = r#"
c074323031332d30332d32315432303a30343a30305a
= json "2013-03-21T20:04:00Z"
c11a514b67b0
= json 1363896240
d74401020304
= json [1,2,3,4]
d818456449455446
= json [100,73,69,84,70]
d82076687474703a2f2f7777772e6578616d706c652e636f6d
= json "http://www.example.com"
40
= json []
4401020304
= json [1,2,3,4]
60
= json ""
6161
= json "a"
6449455446
= json "IETF"
62225c
= json "\"\\"
62c3bc
= json "ü"
63e6b0b4
= json "水"
64f0908591
= json "𐅑"
"#;

/// Its arrays and maps, and its strings in chunks.
const CONTAINERS: &'static str = r#"
80
= json []
83010203
= json [1,2,3]
8301820203820405
= json [1,[2,3],[4,5]]
98190102030405060708090a0b0c0d0e0f101112131415161718181819
= json [1,2,3,4,5,6,7,8,9,10,11,12,13,14,15,16,17,18,19,20,21,22,23,24,25]
a0
= json {}
a201020304
= json {"1":2,"3":4}
a26161016162820203
= json {"a":1,"b":[2,3]}
826161a161626163
= json ["a",{"b":"c"}]
a56161614161626142616361436164614461656145
= json {"a":"A","b":"B","c":"C","d":"D","e":"E"}
5f42010243030405ff
= json [1,2,3,4,5]
7f657374726561646d696e67ff
= json "streaming"
9fff
= json []
9f018202039f0405ffff
= json [1,[2,3],[4,5]]
9f01820203820405ff
= json [1,[2,3],[4,5]]
83018202039f0405ff
= json [1,[2,3],[4,5]]
83019f0203ff820405
= json [1,[2,3],[4,5]]
9f0102030405060708090a0b0c0d0e0f101112131415161718181819ff
= json [1,2,3,4,5,6,7,8,9,10,11,12,13,14,15,16,17,18,19,20,21,22,23,24,25]
bf61610161629f0203ffff
= json {"a":1,"b":[2,3]}
826161bf61626163ff
= json ["a",{"b":"c"}]
bf6346756ef563416d7421ff
= json {"Fun":true,"Amt":-2}
"#;

/// Maps that a break ends, texts in chunks, big numbers in chunks and with zeros in front, wide heads and tags.
const OTHERS: &'static str = r#"
bf6130f46131f5ff
= json {"0":false,"1":true}
7f61616162ff
= json "ab"
c24105
= json 5
c25f41054106ff
= json 1286
c240
= json 0
c258110000000000000000000000000000000000
= json 0
1b0000000000000000
= json 0
d9d9f783010203
= json [1,2,3]
9fc250ffffffffffffffffffffffffffffffffc3507fffffffffffffffffffffffffffffffff
= json [340282366920938463463374607431768211455,-170141183460469231731687303715884105728]
"#;

/// Bytes that are no item of this profile, beside those of the standard's appendix F: floats and other simple values,
/// texts that are no UTF-8 piece by piece, and numbers of more than 128 bits. The first are no bytes.
const BAD: &'static str = r#"
␄
= error Malformed { at: 0 }
f93c00
= error Unsupported { at: 0 }
f7
= error Unsupported { at: 0 }
0000
= error Malformed { at: 1 }
62c3
= error Malformed { at: 0 }
7f61c361a9ff
= error Unsupported { at: 1 }
818181
= error Malformed { at: 3 }
8301
= error Malformed { at: 2 }
5f
= error Malformed { at: 1 }
9f01
= error Malformed { at: 2 }
bf0102
= error Malformed { at: 3 }
c350ffffffffffffffffffffffffffffffff
= error Unsupported { at: 1 }
c200
= error Unsupported { at: 1 }
c25f4100
= error Malformed { at: 4 }
f4f5
= error Malformed { at: 1 }
c2510100000000000000000000000000000000
= error Unsupported { at: 1 }
c35080000000000000000000000000000000
= error Unsupported { at: 1 }
c25f4101
= error Malformed { at: 4 }
c25f41016161ff
= error Malformed { at: 4 }
c25f41015000000000000000000000000000000000ff
= error Unsupported { at: 21 }
c35f5080000000000000000000000000000000ff
= error Unsupported { at: 19 }
82c15f4100
= error Malformed { at: 5 }
a26161f4ff
= error Malformed { at: 4 }
d8189f00f6f9
= error Malformed { at: 5 }
c1c1c1c1
= error Malformed { at: 4 }
"#;

/// Sequences of items (RFC 8742), how many bytes the first item takes, and what is written of it. What follows it isn't
/// looked at.
const FRONTS: &'static str = r#"
0102
= front 1 1
616161
= front 2 "a"
9f01ff9f
= front 3 [1]
c25f4101ffff
= front 5 1
d9d9f7a161610000
= front 7 {"a":0}
a0
= front 1 {}
7f6161ff1c
= front 4 "a"
␄
= error invalid CBOR at byte 0: cut short, not well-formed or left over
ff00
= error invalid CBOR at byte 0: cut short, not well-formed or left over
820100f5
= front 3 [1,0]
8201
= error invalid CBOR at byte 2: cut short, not well-formed or left over
"#;

/// Bytes and their calls, with each chunk of a text. The calls tell a size where the bytes do.
const CALLS: &'static str = r#"
a180f6
= calls [MapBegin(Some(1)), MapKeyBegin, SeqBegin(Some(0)), SeqEnd, MapKeyEnd, MapValueBegin, Null, MapValueEnd, MapEnd]
bf9ffff6ff
= calls [MapBegin(None), MapKeyBegin, SeqBegin(None), SeqEnd, MapKeyEnd, MapValueBegin, Null, MapValueEnd, MapEnd]
7f616160626263ff
= calls [TextBegin(None), TextFragment("a"), TextFragment(""), TextFragment("bc"), TextEnd]
"#;

#[test]
fn items_and_their_calls(rt: HostRuntime) {
    try_cases::<Read>(&rt, rt.alloc(), NUMBERS);
    try_cases::<Read>(&rt, rt.alloc(), STRINGS);
    try_cases::<Read>(&rt, rt.alloc(), CONTAINERS);
    try_cases::<Read>(&rt, rt.alloc(), OTHERS);
    try_cases::<Read>(&rt, rt.alloc(), BAD);
    try_cases::<Front>(&rt, rt.alloc(), FRONTS);
    try_cases::<Calls>(&rt, rt.alloc(), CALLS);
}
