//! Texts as the JSONTestSuite has them among those that a parser has to accept: what their items and members are
//! written as, one by one, is what the whole is written as.

use crate::cases::{Case, try_cases};
use crate::shown::{compare, must, push};
use std::alloc::Global;
use std::fmt::Write;
use std::process::Abort;
use sval_json::stream_to_string;
use sval_json_read::{JsonDoc, JsonItems, JsonMembers, JsonRef};

/// A text, and behind it `same`.
struct Parted;

impl Case for Parted {
    fn seen(rt: &impl Abort, alloc: Global, input: &str, _due: &str) -> String {
        let doc = must(rt, JsonDoc::read_str(alloc, input));
        let whole = must(rt, stream_to_string(alloc, &doc));
        let joined = joined(rt, alloc, doc.root());
        compare(rt, &joined, &whole, input);
        compare(rt, &joined_again(rt, alloc, &joined), &whole, input);
        must(rt, String::from_str(alloc, "same"))
    }
}

/// What is written of a text by its parts.
fn joined_again(rt: &impl Abort, alloc: Global, text: &str) -> String {
    let doc = must(rt, JsonDoc::read_str(alloc, text));
    joined(rt, alloc, doc.root())
}

/// What is written of a value by its parts.
fn joined(rt: &impl Abort, alloc: Global, value: JsonRef<'_>) -> String {
    if let Some(items) = value.items() {
        return joined_items(rt, alloc, items);
    }
    if let Some(members) = value.members() {
        return joined_members(rt, alloc, members);
    }
    must(rt, stream_to_string(alloc, &value.part()))
}

/// The items of an array, between brackets and with a comma before each but the first.
fn joined_items(rt: &impl Abort, alloc: Global, items: JsonItems<'_>) -> String {
    let mut text = String::new(alloc);
    let mut left = items;
    while let Some(item) = left.next() {
        push_comma(rt, &mut text);
        push(
            rt,
            &mut text,
            &must(rt, stream_to_string(alloc, &item.part())),
        );
    }
    must(rt, format!(in alloc; "[{text}]"))
}

/// Adds a comma to a text that isn't empty.
fn push_comma(rt: &impl Abort, text: &mut String) {
    if !text.is_empty() {
        push(rt, text, ",");
    }
}

/// The members of an object, with their names, between braces and with a comma before each but the first.
fn joined_members(rt: &impl Abort, alloc: Global, members: JsonMembers<'_>) -> String {
    let mut text = String::new(alloc);
    let mut left = members;
    while let Some(member) = left.next() {
        let name = must(rt, member.name.to_text(alloc));
        let name = must(rt, stream_to_string(alloc, &name.as_str()));
        let value = must(rt, stream_to_string(alloc, &member.value.part()));
        push_comma(rt, &mut text);
        must(rt, write!(&mut text, "{name}:{value}"));
    }
    must(rt, format!(in alloc; "{{{text}}}"))
}

const ACCEPTED: &'static str = r#"
[[]   ]␄
= same
[""]␄
= same
[]␄
= same
["a"]␄
= same
[false]␄
= same
[null, 1, "1", {}]␄
= same
[null]␄
= same
 [1]␄
= same
[1,null,null,null,2]␄
= same
[2] ␄
= same
[123e65]␄
= same
[0e+1]␄
= same
[0e1]␄
= same
[ 4]␄
= same
[-0.000000000000000000000000000000000000000000000000000000000000000000000000000001]␄
= same
[20e1]␄
= same
[-0]␄
= same
[-123]␄
= same
[-1]␄
= same
[1E22]␄
= same
[1E-2]␄
= same
[1E+2]␄
= same
[123e45]␄
= same
[123.456e78]␄
= same
[1e-2]␄
= same
[1e+2]␄
= same
[123]␄
= same
[123.456789]␄
= same
{"asd":"sdf", "dfg":"fgh"}␄
= same
{"asd":"sdf"}␄
= same
{"a":"b","a":"c"}␄
= same
{"a":"b","a":"b"}␄
= same
{}␄
= same
{"":0}␄
= same
{"foo\u0000bar": 42}␄
= same
{ "min": -1.0e+28, "max": 1.0e+28 }␄
= same
{"x":[{"id": "xxxxxxxxxxxxxxxxxxxxxxxxxxxxxxxxxxxxxxxx"}], "id": "xxxxxxxxxxxxxxxxxxxxxxxxxxxxxxxxxxxxxxxx"}␄
= same
{"a":[]}␄
= same
{"title":"\u041f\u043e\u043b\u0442\u043e\u0440\u0430 \u0417\u0435\u043c\u043b\u0435\u043a\u043e\u043f\u0430" }␄
= same
["\u0060\u012a\u12AB"]␄
= same
["\uD801\udc37"]␄
= same
["\ud83d\ude39\ud83d\udc8d"]␄
= same
["\"\\\/\b\f\n\r\t"]␄
= same
["\\u0000"]␄
= same
["\""]␄
= same
["a/*b*/c/*d//e"]␄
= same
["\\a"]␄
= same
["\\n"]␄
= same
["\u0012"]␄
= same
["\uFFFF"]␄
= same
["asd"]␄
= same
[ "asd"]␄
= same
["\uDBFF\uDFFF"]␄
= same
["new\u00A0line"]␄
= same
["􏿿"]␄
= same
["￿"]␄
= same
["\u0000"]␄
= same
["\u002c"]␄
= same
["π"]␄
= same
["𛿿"]␄
= same
["asd "]␄
= same
" "␄
= same
["\uD834\uDd1e"]␄
= same
["\u0821"]␄
= same
["\u0123"]␄
= same
["\u2028"]␄
= same
["\u2029"]␄
= same
["\u0061\u30af\u30EA\u30b9"]␄
= same
["new\u000Aline"]␄
= same
["⍂㈴⍂"]␄
= same
["\u005C"]␄
= same
["\u0022"]␄
= same
["\uA66D"]␄
= same
["\u200B"]␄
= same
["\u2064"]␄
= same
["\uFDD0"]␄
= same
["\uFFFE"]␄
= same
["\uDBFF\uDFFE"]␄
= same
["\uD83F\uDFFE"]␄
= same
["€𝄞"]␄
= same
["aa"]␄
= same
false␄
= same
42␄
= same
-0.1␄
= same
null␄
= same
"asd"␄
= same
true␄
= same
""␄
= same
["a"]␄
= same
[true]␄
= same
 [] ␄
= same
[1
]␄
= same
{
"a": "b"
}␄
= same
["a"]
␄
= same
"#;

#[test]
fn parts_make_the_whole(rt: HostRuntime) {
    try_cases::<Parted>(&rt, rt.alloc(), ACCEPTED);
}
