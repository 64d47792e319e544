//! Texts, what they are written as again, where they fail, and the calls that they make.

use crate::cases::{Case, try_cases};
use crate::rows::rows_of;
use crate::shown::{compare, holds, must};
use std::alloc::Global;
use std::process::Abort;
use sval_check::TokenBuf;
use sval_io::VecSink;
use sval_json::stream_to_string;
use sval_json_read::JsonDoc;
use sval_ref::stream_ref;

/// A text, and behind `json` what is written of it, or behind `error` why it isn't read.
struct Written;

impl Case for Written {
    fn seen(rt: &impl Abort, alloc: Global, input: &str, _due: &str) -> String {
        json_of(rt, alloc, input.as_bytes())
    }
}

/// What is written of bytes, or why they aren't read.
fn json_of(rt: &impl Abort, alloc: Global, bytes: &[u8]) -> String {
    match JsonDoc::read(alloc, bytes) {
        Ok(doc) => must(rt, format!(in alloc; "json {}", text_of(rt, alloc, &doc))),
        Err(error) => must(rt, format!(in alloc; "error {error:?}")),
    }
}

/// What is written of a document. Of its calls the same has to be written as by the document itself.
fn text_of(rt: &impl Abort, alloc: Global, doc: &JsonDoc<'_>) -> String {
    let written = must(rt, stream_to_string(alloc, doc));
    let mut out = VecSink::new(alloc);
    must(rt, doc.write_json(&mut out));
    holds(rt, out.as_slice() == written.as_bytes(), &written);
    written
}

/// A text, and behind `calls` its calls.
struct Calls;

impl Case for Calls {
    fn seen(rt: &impl Abort, alloc: Global, input: &str, _due: &str) -> String {
        let calls = kept(rt, alloc, input.as_bytes());
        let tokens = calls.as_tokens();
        must(rt, format!(in alloc; "calls {tokens:?}"))
    }
}

/// The calls of a document, which keep its texts for longer than it is there.
fn kept<'a>(rt: &impl Abort, alloc: Global, bytes: &'a [u8]) -> TokenBuf<'a> {
    let mut calls = TokenBuf::new(alloc);
    let doc = must(rt, JsonDoc::read(alloc, bytes));
    must(rt, stream_ref(&mut calls, &doc));
    calls
}

/// Texts, the first of no bytes. The longest two are the examples of RFC 8259, section 13.
const WRITTEN: &'static str = r#"
␄
= error BadJson { at: 0 }

01␄
= error BadJson { at: 1 }

[1,]␄
= error BadJson { at: 3 }

"\ud800"␄
= error BadJson { at: 7 }

{"a" 1}␄
= error BadJson { at: 5 }

1 2␄
= error BadJson { at: 2 }

nul␄
= error BadJson { at: 3 }

 {"a" : [1, -0, 1.50e+3, "x\u0041\n"]}␄
= json {"a":[1,0,1.50e+3,"xA\n"]}

{
  "Image": {
    "Width":  800,
    "Height": 600,
    "Title":  "View from 15th Floor",
    "Thumbnail": {
      "Url":    "http://www.example.com/image/481989943",
      "Height": 125,
      "Width":  100
    },
    "Animated" : false,
    "IDs": [116, 943, 234, 38793]
  }
}␄
= json {"Image":{"Width":800,"Height":600,"Title":"View from 15th Floor","Thumbnail":{"Url":"http://www.example.com/image/481989943","Height":125,"Width":100},"Animated":false,"IDs":[116,943,234,38793]}}

[
  {
    "precision": "zip",
    "Latitude":  37.7668,
    "Longitude": -122.3959,
    "Address":   "",
    "City":      "SAN FRANCISCO",
    "State":     "CA",
    "Zip":       "94107",
    "Country":   "US"
  }
]␄
= json [{"precision":"zip","Latitude":37.7668,"Longitude":-122.3959,"Address":"","City":"SAN FRANCISCO","State":"CA","Zip":"94107","Country":"US"}]

"Hello world!"␄
= json "Hello world!"

42␄
= json 42

true␄
= json true

[null,[],{},false]␄
= json [null,[],{},false]

# With and without white space around commas, colons and quotes.
{"a":1,"b":"c","":"","d":[1,"e",2,"f",null,{},[],true,"",-0,{"g":-0}]}␄
= json {"a":1,"b":"c","":"","d":[1,"e",2,"f",null,{},[],true,"",0,{"g":0}]}

{"a" :1 ,"b": "c" , "d":"e", "f" : [ "g" , "h","i" ,2 , 3,-0, -0 ,[ ] ]}␄
= json {"a":1,"b":"c","d":"e","f":["g","h","i",2,3,0,0,[]]}

# Escapes in a name and in a string, and what else stands around a string within one.
{"a\n":1,"\u0062":"\/","c":"\"","\"":"\"d\""}␄
= json {"a\n":1,"b":"/","c":"\"","\"":"\"d\""}

[",",":","\",\"",",",{",":":",":":","}]␄
= json [",",":","\",\"",",",{",":":",":":","}]

""␄
= json ""

-0␄
= json 0
"#;

/// Bytes that are no UTF-8: a byte that is none, one that begins no character, a surrogate, and a front of a character.
const NOT_UTF8: &'static str = r#"
¦ff¦␄
= error NotUtf8 { at: 0 }

[1,¦c328¦␄
= error NotUtf8 { at: 3 }

"ä¦eda080¦"␄
= error NotUtf8 { at: 3 }

"ä¦f09d84¦␄
= error NotUtf8 { at: 3 }

[1,,¦80¦␄
= error NotUtf8 { at: 4 }
"#;

/// A number that fits no `i64` is text.
const CALLS: &'static str = r#"
9223372036854775808␄
= calls [TaggedBegin(TokenName { tag: Some(Tag { text: "NUMBER" }), label: None, index: None }), TextBegin(Some(19)), TextFragment("9223372036854775808"), TextEnd, TaggedEnd(TokenName { tag: Some(Tag { text: "NUMBER" }), label: None, index: None })]
["a", 2]␄
= calls [SeqBegin(None), SeqValueBegin, TextBegin(None), TextFragment("a"), TextEnd, SeqValueEnd, SeqValueBegin, I64(2), SeqValueEnd, SeqEnd]
"#;

#[test]
fn texts_and_their_calls(rt: HostRuntime) {
    try_cases::<Written>(&rt, rt.alloc(), WRITTEN);
    try_cases::<Calls>(&rt, rt.alloc(), CALLS);
}

#[test]
fn bytes_that_are_no_utf8(rt: HostRuntime) {
    for row in &rows_of(&rt, rt.alloc(), NOT_UTF8) {
        compare(
            &rt,
            &json_of(&rt, rt.alloc(), &row.input),
            &row.due,
            NOT_UTF8,
        );
    }
}
