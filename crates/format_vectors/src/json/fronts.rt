//! The first values of texts, and what texts go on with.

use crate::cases::{Case, try_cases};
use crate::levels::nested;
use crate::shown::{holds, must, push};
use std::alloc::Global;
use std::process::Abort;
use sval_json::stream_to_string;
use sval_json_read::{JsonDoc, NextCharacters, ReadError, expected, goes_on};

/// A text, and behind `front` how many bytes the first value takes and what is written of it, or behind `error` why
/// there is none. The bytes are read with one behind them that is no UTF-8.
struct Front;

impl Case for Front {
    fn seen(rt: &impl Abort, alloc: Global, input: &str, _due: &str) -> String {
        let bytes = must(rt, [input.as_bytes(), b"\xff".as_slice()].concat(alloc));
        front_of(rt, alloc, &bytes)
    }
}

/// A text, and behind `front` or `error` the same where nothing is behind it.
struct Last;

impl Case for Last {
    fn seen(rt: &impl Abort, alloc: Global, input: &str, _due: &str) -> String {
        front_of(rt, alloc, input.as_bytes())
    }
}

/// What the first value of some bytes is, or why there is none.
fn front_of(rt: &impl Abort, alloc: Global, bytes: &[u8]) -> String {
    match JsonDoc::read_front(alloc, bytes) {
        Ok((doc, used)) => {
            let written = must(rt, stream_to_string(alloc, &doc));
            must(rt, format!(in alloc; "front {used} {written}"))
        },
        Err(error) => must(rt, format!(in alloc; "error {error:?}")),
    }
}

/// A front, and behind `on` each character of ASCII that it may go on with, and then whether it may with the `others`,
/// and may `end`. Reading the front with each character behind it has to tell the same.
struct Following;

impl Case for Following {
    fn seen(rt: &impl Abort, alloc: Global, input: &str, _due: &str) -> String {
        let next = must(rt, expected(alloc, input));
        let mut on = String::new(alloc);
        for byte in 0..128u8 {
            let character = byte as char;
            if comes(rt, alloc, input, next, character) {
                must(rt, on.push(character));
            }
        }
        let mut seen = must(rt, format!(in alloc; "on {on:?}"));
        push(rt, &mut seen, ending(next));
        seen
    }
}

/// Whether a front goes on with a character. Reading the front with it has to tell the same.
fn comes(
    rt: &impl Abort,
    alloc: Global,
    front: &str,
    next: NextCharacters,
    character: char,
) -> bool {
    let comes = next.contains(character);
    holds(
        rt,
        comes == must(rt, goes_on(alloc, front, character)),
        front,
    );
    holds(rt, comes == reads_on(rt, alloc, front, character), front);
    comes
}

/// Whether the other characters may come, and the end.
fn ending(next: NextCharacters) -> &'static str {
    match (next.contains('\u{e9}'), next.may_end()) {
        (true, true) => " others end",
        (true, false) => " others",
        (false, true) => " end",
        (false, false) => "",
    }
}

/// Whether a front is read to its end, and then this character.
fn reads_on(rt: &impl Abort, alloc: Global, front: &str, character: char) -> bool {
    let text = must(rt, format!(in alloc; "{front}{character}"));
    match JsonDoc::read_str(alloc, &text) {
        Ok(_) => true,
        Err(error) => error
            == ReadError::BadJson {
                at: text.len() as u64,
            },
    }
}

const FRONTS: &'static str = r#"
12 3␄
= front 2 12
 [1, -0]{}␄
= front 8 [1,0]
01␄
= front 1 0
1-2␄
= front 1 1
1.5.5␄
= front 3 1.5
nullx␄
= front 4 null
"a""b"␄
= front 3 "a"
{"a":[{}]}  x␄
= front 10 {"a":[{}]}
12␄
= front 2 12
12.␄
= error NotUtf8 { at: 3 }
12.x␄
= error BadJson { at: 3 }
[1,]␄
= error BadJson { at: 3 }
["␄
= error NotUtf8 { at: 2 }
  ␄
= error NotUtf8 { at: 2 }
"#;

const LAST: &'static str = r#"
␄
= error BadJson { at: 0 }
 12␄
= front 3 12
[1␄
= error BadJson { at: 2 }
1e␄
= error BadJson { at: 2 }
"\ud834"␄
= error BadJson { at: 7 }
"#;

const FOLLOWING: &'static str = r##"
␄
= on "\t\n\r \"-0123456789[fnt{"
[␄
= on "\t\n\r \"-0123456789[]fnt{"
[1␄
= on "\t\n\r ,.0123456789E]e"
[0␄
= on "\t\n\r ,.E]e"
-␄
= on "0123456789"
01␄
= on ""
0␄
= on "\t\n\r .Ee" end
 12␄
= on "\t\n\r .0123456789Ee" end
-0.␄
= on "0123456789"
1.5␄
= on "\t\n\r 0123456789Ee" end
1e␄
= on "+-0123456789"
1e+␄
= on "0123456789"
{␄
= on "\t\n\r \"}"
{"a"␄
= on "\t\n\r :"
{"a":1,␄
= on "\t\n\r \""
{"a":1␄
= on "\t\n\r ,.0123456789Ee}"
{"a":[]␄
= on "\t\n\r ,}"
"a␄
= on " !\"#$%&'()*+,-./0123456789:;<=>?@ABCDEFGHIJKLMNOPQRSTUVWXYZ[\\]^_`abcdefghijklmnopqrstuvwxyz{|}~\u{7f}" others
"\␄
= on "\"/\\bfnrtu"
"\u00␄
= on "0123456789ABCDEFabcdef"
"\ud834␄
= on "\\"
"\ud834\ud␄
= on "CDEFcdef"
tr␄
= on "u"
null␄
= on "\t\n\r " end
[]␄
= on "\t\n\r " end
[]]␄
= on ""
nul]␄
= on ""
"##;

#[test]
fn first_values_and_what_follows(rt: HostRuntime) {
    try_cases::<Front>(&rt, rt.alloc(), FRONTS);
    try_cases::<Last>(&rt, rt.alloc(), LAST);
    try_cases::<Following>(&rt, rt.alloc(), FOLLOWING);
}

#[test]
fn a_first_value_of_many_levels(rt: HostRuntime) {
    let text = nested(&rt, rt.alloc(), "[|[]|]");
    let two = must(&rt, [text.as_str(), "]"].concat(rt.alloc()));
    let (doc, used) = must(&rt, JsonDoc::read_front(rt.alloc(), two.as_bytes()));
    holds(
        &rt,
        used == text.len() && doc.root().len() == Some(1),
        "the first value",
    );
}
