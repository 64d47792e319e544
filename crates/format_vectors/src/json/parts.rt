//! Values of a document, taken by themselves: what is written of one.

use crate::cases::{Case, try_cases};
use crate::shown::must;
use std::alloc::Global;
use std::process::Abort;
use sval_json::stream_to_string;
use sval_json_read::JsonDoc;

/// A line that is a document, a pointer (RFC 6901), and behind `json` what is written of the value that the pointer
/// references in it.
struct Written;

impl Case for Written {
    fn seen(rt: &impl Abort, alloc: Global, input: &str, _due: &str) -> String {
        let (document, pointer) = input.split_once('\n').unwrap_or((input, ""));
        let doc = must(rt, JsonDoc::read_str(alloc, document));
        let seen = match doc.root().pointer(pointer) {
            Some(value) => format!(in alloc;
                "json {}",
                must(rt, stream_to_string(alloc, &value.part()))
            ),
            None => String::from_str(alloc, "nothing"),
        };
        must(rt, seen)
    }
}

/// The whole, items and members, and what is within those.
const WRITTEN: &'static str = r#"
 null 
␄
= json null
-0
␄
= json 0
"a\u0062\"\ud834\udd1e"
␄
= json "ab\"𝄞"
[ ]
␄
= json []
{ }
␄
= json {}
[1, {"a" : [2]}]
␄
= json [1,{"a":[2]}]
[null, 1]
/0␄
= json null
[null, true]
/1␄
= json true
[null, true, false, 1]
/2␄
= json false
[1.50e+3]
/0␄
= json 1.50e+3
[18446744073709551616]
/0␄
= json 18446744073709551616
["", "a\tb", "c"]
/1␄
= json "a\tb"
["", "a\tb", "c"]
/0␄
= json ""
[[], 1]
/0␄
= json []
[[], {}, 2]
/1␄
= json {}
[[1], [2, [3], {"a": 4}], [5]]
/1␄
= json [2,[3],{"a":4}]
[[1], [2, [3], {"a": 4}], [5]]
/1/1␄
= json [3]
[[1], [2, [3], {"a": 4}], [5]]
/1/2␄
= json {"a":4}
[[1], [2, [3], {"a": 4}], [5]]
/1/2/a␄
= json 4
{"a": "\u0061\\", "b": 1}
/a␄
= json "a\\"
{"a": 1, "b": {"a": [2, {}], "c": {"b": []}}, "d": 3}
/b␄
= json {"a":[2,{}],"c":{"b":[]}}
{"a": 1, "b": {"a": [2, {}], "c": {"b": []}}, "d": 3}
/b/c␄
= json {"b":[]}
{"a": 1, "b": {"a": [2, {}], "c": {"b": []}}, "d": 3}
/b/c/b␄
= json []
{"a": 1, "b": {"a": [2, {}], "c": {"b": []}}, "d": 3}
/b/a/1␄
= json {}
{"a": 1, "a": {"x": 1, "\u0078": 2}}
/a␄
= json {"x":1,"x":2}
{"a/b": {"m~n": [8]}}
/a~1b/m~0n␄
= json [8]
[0]
/1␄
= nothing
"#;

#[test]
fn what_is_written_of_a_part(rt: HostRuntime) {
    try_cases::<Written>(&rt, rt.alloc(), WRITTEN);
}
