//! Texts that denote no value, and where they fail, as it is found character by character.

use crate::cases::{Case, try_cases};
use crate::shown::{holds, must};
use std::alloc::Global;
use std::process::Abort;
use sval_json_read::{JsonDoc, ReadError, expected};

/// A text that denotes no value, and behind `bad` the place that reading it tells, where that is the length of its
/// longest front that a text begins with.
struct BadText;

impl Case for BadText {
    fn seen(rt: &impl Abort, alloc: Global, input: &str, _due: &str) -> String {
        let at = place_of(rt, alloc, input) as u64;
        let error = JsonDoc::read_str(alloc, input).err();
        holds(rt, error == Some(ReadError::BadJson { at }), input);
        must(rt, format!(in alloc; "bad {at}"))
    }
}

/// How long the longest front of a text is that a text begins with.
fn place_of(rt: &impl Abort, alloc: Global, text: &str) -> usize {
    let mut front = String::new(alloc);
    for character in text.chars() {
        if !must(rt, expected(alloc, &front)).contains(character) {
            break;
        }
        must(rt, front.push(character));
    }
    front.len()
}

const BAD_TEXTS: &'static str = r#"
␄
= bad 0
  ␄
= bad 2
x␄
= bad 0
nul␄
= bad 3
nulx␄
= bad 3
nULL␄
= bad 1
True␄
= bad 0
tru␄
= bad 3
falsy␄
= bad 4
nullx␄
= bad 4
+1␄
= bad 0
-␄
= bad 1
-x␄
= bad 1
01␄
= bad 1
-01␄
= bad 2
00␄
= bad 1
1.␄
= bad 2
1.x␄
= bad 2
.5␄
= bad 0
1e␄
= bad 2
1e+␄
= bad 3
1E-x␄
= bad 3
0x1␄
= bad 1
1_0␄
= bad 1
1,␄
= bad 1
1 2␄
= bad 2
--1␄
= bad 1
Infinity␄
= bad 0
NaN␄
= bad 0
-Infinity␄
= bad 1
0e␄
= bad 2
1.5.2␄
= bad 3
1e5.␄
= bad 3
"␄
= bad 1
"a␄
= bad 2
"\␄
= bad 2
"\x␄
= bad 2
"\u␄
= bad 3
"\u12␄
= bad 5
"\u12g4␄
= bad 5
"\ud800␄
= bad 7
"\ud800"␄
= bad 7
"\ud800\n"␄
= bad 8
"\ud800\u0041"␄
= bad 9
"\ud800\ud800"␄
= bad 10
"\udc00"␄
= bad 4
"a␉b"␄
= bad 2
"a"b␄
= bad 3
"é␄
= bad 3
"é"x␄
= bad 4
[␄
= bad 1
[1␄
= bad 2
[1,␄
= bad 3
[1,]␄
= bad 3
[,␄
= bad 1
[1 2]␄
= bad 3
[1}␄
= bad 2
]␄
= bad 0
[[]␄
= bad 3
[1]]␄
= bad 3
[1],␄
= bad 3
{␄
= bad 1
{a␄
= bad 1
{1␄
= bad 1
{"a"␄
= bad 4
{"a"}␄
= bad 4
{"a":␄
= bad 5
{"a":}␄
= bad 5
{"a":1␄
= bad 6
{"a":1,␄
= bad 7
{"a":1,}␄
= bad 7
{"a" 1␄
= bad 5
{,␄
= bad 1
{"a":1]␄
= bad 6
}␄
= bad 0
{"a":1 "b"␄
= bad 7
//␄
= bad 0
[1]//␄
= bad 3
'a'␄
= bad 0
é␄
= bad 0
[é␄
= bad 1
"#;

#[test]
fn places_of_bad_texts(rt: HostRuntime) {
    try_cases::<BadText>(&rt, rt.alloc(), BAD_TEXTS);
}
