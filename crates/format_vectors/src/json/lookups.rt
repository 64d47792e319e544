//! What is looked up in documents.

use crate::cases::{Case, try_cases};
use crate::shown::{must, push};
use std::alloc::Global;
use std::fmt::Write;
use std::process::Abort;
use sval_json_read::{JsonDoc, JsonItems, JsonMembers, JsonRef, JsonText};

/// A text, and behind `parts` what its value is taken for, item by item and member by member.
struct Parts;

impl Case for Parts {
    fn seen(rt: &impl Abort, alloc: Global, input: &str, _due: &str) -> String {
        let doc = must(rt, JsonDoc::read(alloc, input.as_bytes()));
        let mut seen = must(rt, String::from_str(alloc, "parts "));
        push_parts(rt, alloc, &doc.root(), &mut seen);
        seen
    }
}

/// A text, and behind `member` what the last member of it with the name `a` and a line feed is as an `i64`.
struct Member;

impl Case for Member {
    fn seen(rt: &impl Abort, alloc: Global, input: &str, _due: &str) -> String {
        let doc = must(rt, JsonDoc::read(alloc, input.as_bytes()));
        let number = match doc.root().get("a\n") {
            Some(value) => value.as_i64(),
            None => None,
        };
        must(rt, format!(in alloc; "member {number:?}"))
    }
}

/// A text, and behind `wide` what its value is as an `i128` and as a `u128`.
struct Wide;

impl Case for Wide {
    fn seen(rt: &impl Abort, alloc: Global, input: &str, _due: &str) -> String {
        let doc = must(rt, JsonDoc::read_str(alloc, input));
        let value = doc.root();
        let signed = value.as_i128();
        let unsigned = value.as_u128();
        must(rt, format!(in alloc; "wide {signed:?} {unsigned:?}"))
    }
}

/// A text, and behind `size` how many items or pairs its value has, and of the item at 1 whether it is `null`, how many
/// it has, and what it is as an `i64`.
struct Size;

impl Case for Size {
    fn seen(rt: &impl Abort, alloc: Global, input: &str, _due: &str) -> String {
        let doc = must(rt, JsonDoc::read_str(alloc, input));
        let value = doc.root();
        let size = value.len();
        let mut seen = must(rt, format!(in alloc; "size {size:?}"));
        if let Some(item) = value.item(1) {
            push_size(rt, &item, &mut seen);
        }
        seen
    }
}

/// Whether an item is `null`, how many it has, and what it is as an `i64`.
fn push_size(rt: &impl Abort, item: &JsonRef<'_>, seen: &mut String) {
    let is_null = item.is_null();
    let items = item.len();
    let number = item.as_i64();
    must(rt, write!(seen, " {is_null:?} {items:?} {number:?}"));
}

/// A pointer, and behind `at` what it references in the example of RFC 6901, section 5.
struct Example;

impl Case for Example {
    fn seen(rt: &impl Abort, alloc: Global, input: &str, _due: &str) -> String {
        referenced(rt, alloc, EXAMPLE, input)
    }
}

/// A line that is a pointer, a document, and behind `at` what the pointer references in it.
struct Pointed;

impl Case for Pointed {
    fn seen(rt: &impl Abort, alloc: Global, input: &str, _due: &str) -> String {
        let (pointer, document) = input.split_once('\n').unwrap_or((input, "null"));
        referenced(rt, alloc, document, pointer)
    }
}

/// What a pointer references in a document.
fn referenced(rt: &impl Abort, alloc: Global, document: &str, pointer: &str) -> String {
    let doc = must(rt, JsonDoc::read_str(alloc, document));
    let mut seen = must(rt, String::from_str(alloc, "at "));
    match doc.root().pointer(pointer) {
        Some(value) => push_parts(rt, alloc, &value, &mut seen),
        None => push(rt, &mut seen, "nothing"),
    }
    seen
}

/// What a value is taken for.
fn push_one(rt: &impl Abort, alloc: Global, value: &JsonRef<'_>, seen: &mut String) {
    let kind = value.kind();
    let truth = value.as_bool();
    let signed = value.as_i64();
    let unsigned = value.as_u64();
    let number = value.as_number();
    must(
        rt,
        write!(
            seen,
            "{kind:?} {truth:?} {signed:?} {unsigned:?} {number:?}"
        ),
    );
    if let Some(text) = value.as_text() {
        push_text(rt, alloc, &text, seen);
    }
}

/// What a text is lent as and copied as, and whether it is what was copied.
fn push_text(rt: &impl Abort, alloc: Global, text: &JsonText<'_>, seen: &mut String) {
    let lent = text.as_lent();
    let copied = must(rt, text.to_text(alloc));
    let is_copied = text.is(&copied);
    must(rt, write!(seen, " {lent:?} {copied:?} {is_copied:?}"));
}

/// What a value, and each value directly in it, is taken for.
fn push_parts(rt: &impl Abort, alloc: Global, value: &JsonRef<'_>, seen: &mut String) {
    push_one(rt, alloc, value, seen);
    if let Some(items) = value.items() {
        push_items(rt, alloc, items, seen);
    }
    if let Some(members) = value.members() {
        push_members(rt, alloc, members, seen);
    }
}

/// What each of these items is taken for.
fn push_items(rt: &impl Abort, alloc: Global, items: JsonItems<'_>, seen: &mut String) {
    let mut left = items;
    while let Some(item) = left.next() {
        push(rt, seen, "; ");
        push_one(rt, alloc, &item, seen);
    }
}

/// The name of each of these members, and what its value is taken for.
fn push_members(rt: &impl Abort, alloc: Global, members: JsonMembers<'_>, seen: &mut String) {
    let mut left = members;
    while let Some(member) = left.next() {
        let name = must(rt, member.name.to_text(alloc));
        must(rt, write!(seen, "; {name:?} "));
        push_one(rt, alloc, &member.value, seen);
    }
}

const PARTS: &'static str = r#"
null␄
= parts Null None None None None
 true ␄
= parts Bool Some(true) None None None
-0␄
= parts Number None Some(0) None Some("-0")
1.0␄
= parts Number None None None Some("1.0")
18446744073709551615␄
= parts Number None None Some(18446744073709551615) Some("18446744073709551615")
18446744073709551616␄
= parts Number None None None Some("18446744073709551616")
-9223372036854775808␄
= parts Number None Some(-9223372036854775808) None Some("-9223372036854775808")
""␄
= parts Text None None None None Some("") "" true
"ab"␄
= parts Text None None None None Some("ab") "ab" true
"a\u0062"␄
= parts Text None None None None None "ab" true
[]␄
= parts Array None None None None
[[1,[2]],{"a":3},4]␄
= parts Array None None None None; Array None None None None; Object None None None None; Number None Some(4) Some(4) Some("4")
{}␄
= parts Object None None None None
{"a":[{"b":1}],"\u0063":2}␄
= parts Object None None None None; "a" Array None None None None; "c" Number None Some(2) Some(2) Some("2")
"#;

const MEMBERS: &'static str = r#"
1␄
= member None
[1]␄
= member None
{}␄
= member None
{"a":1}␄
= member None
{"a\n":1}␄
= member Some(1)
{"a\u000a":1,"b":{"a\n":3},"a\n":2,"a":4}␄
= member Some(2)
{"a\n":1,"a\n":"x"}␄
= member None
"#;

const WIDE: &'static str = r#"
-170141183460469231731687303715884105728␄
= wide Some(-170141183460469231731687303715884105728) None
-170141183460469231731687303715884105729␄
= wide None None
170141183460469231731687303715884105727␄
= wide Some(170141183460469231731687303715884105727) Some(170141183460469231731687303715884105727)
170141183460469231731687303715884105728␄
= wide None Some(170141183460469231731687303715884105728)
340282366920938463463374607431768211455␄
= wide None Some(340282366920938463463374607431768211455)
340282366920938463463374607431768211456␄
= wide None None
-0␄
= wide Some(0) None
1e2␄
= wide None None
"1"␄
= wide None None
"#;

const SIZES: &'static str = r#"
null␄
= size None
"ab"␄
= size None
[]␄
= size Some(0)
{}␄
= size Some(0)
{"a":[1,2],"a":3}␄
= size Some(2)
[[7,8]]␄
= size Some(1)
[[1,[2]],7,9]␄
= size Some(3) false None Some(7)
[{"a":[]},null]␄
= size Some(2) true None None
[1,[2,[3],{}],4,{"b":5}]␄
= size Some(4) false Some(3) None
"#;

/// The document of RFC 6901, section 5.
const EXAMPLE: &'static str = r#"{
  "foo": ["bar", "baz"],
  "": 0,
  "a/b": 1,
  "c%d": 2,
  "e^f": 3,
  "g|h": 4,
  "i\\j": 5,
  "k\"l": 6,
  " ": 7,
  "m~n": 8
}"#;

/// The pointers of that section, and others.
const EXAMPLES: &'static str = r#"
␄
= at Object None None None None; "foo" Array None None None None; "" Number None Some(0) Some(0) Some("0"); "a/b" Number None Some(1) Some(1) Some("1"); "c%d" Number None Some(2) Some(2) Some("2"); "e^f" Number None Some(3) Some(3) Some("3"); "g|h" Number None Some(4) Some(4) Some("4"); "i\\j" Number None Some(5) Some(5) Some("5"); "k\"l" Number None Some(6) Some(6) Some("6"); " " Number None Some(7) Some(7) Some("7"); "m~n" Number None Some(8) Some(8) Some("8")
/foo␄
= at Array None None None None; Text None None None None Some("bar") "bar" true; Text None None None None Some("baz") "baz" true
/foo/0␄
= at Text None None None None Some("bar") "bar" true
/␄
= at Number None Some(0) Some(0) Some("0")
/a~1b␄
= at Number None Some(1) Some(1) Some("1")
/c%d␄
= at Number None Some(2) Some(2) Some("2")
/e^f␄
= at Number None Some(3) Some(3) Some("3")
/g|h␄
= at Number None Some(4) Some(4) Some("4")
/i\j␄
= at Number None Some(5) Some(5) Some("5")
/k"l␄
= at Number None Some(6) Some(6) Some("6")
/ ␄
= at Number None Some(7) Some(7) Some("7")
/m~0n␄
= at Number None Some(8) Some(8) Some("8")
/foo/1␄
= at Text None None None None Some("baz") "baz" true
/foo/2␄
= at nothing
/foo/00␄
= at nothing
/foo/01␄
= at nothing
/foo/+1␄
= at nothing
/foo/-␄
= at nothing
/foo/␄
= at nothing
/foo/18446744073709551616␄
= at nothing
/foo/0/0␄
= at nothing
foo␄
= at nothing
/a/b␄
= at nothing
/a~1␄
= at nothing
/a~1b/␄
= at nothing
/m~n␄
= at nothing
/m~␄
= at nothing
/a~2b␄
= at nothing
/m~01n␄
= at nothing
"#;

/// Escapes of names in both, names that come twice, and names that look like indexes.
const POINTERS: &'static str = r#"
/~01
{"/":1,"~1":2}␄
= at Number None Some(2) Some(2) Some("2")
/~10
{"~10":1,"/0":2}␄
= at Number None Some(2) Some(2) Some("2")
/~1~0/0
{"/~":[3]}␄
= at Number None Some(3) Some(3) Some("3")
/~1
{"\u002f":1,"~1":2}␄
= at Number None Some(1) Some(1) Some("1")
/~0
{"\u007e":1,"~0":2}␄
= at Number None Some(1) Some(1) Some("1")
/ä~1𝄞
{"\u00e4\/\ud834\udd1e":4}␄
= at Number None Some(4) Some(4) Some("4")
/a/1/b
{"a":[1],"a":[0,{"b":5,"b":6}]}␄
= at Number None Some(6) Some(6) Some("6")
/a/0
{"a":[1],"a":{"0":7}}␄
= at Number None Some(7) Some(7) Some("7")
/0/10
[[0,1,2,3,4,5,6,7,8,9,11]]␄
= at Number None Some(11) Some(11) Some("11")
/0
7␄
= at nothing
/
""␄
= at nothing
"#;

#[test]
fn values_members_numbers_sizes_and_pointers(rt: HostRuntime) {
    try_cases::<Parts>(&rt, rt.alloc(), PARTS);
    try_cases::<Member>(&rt, rt.alloc(), MEMBERS);
    try_cases::<Wide>(&rt, rt.alloc(), WIDE);
    try_cases::<Size>(&rt, rt.alloc(), SIZES);
    try_cases::<Example>(&rt, rt.alloc(), EXAMPLES);
    try_cases::<Pointed>(&rt, rt.alloc(), POINTERS);
}
