//! The JSON that is written for calls.

use crate::cases::must;
use std::alloc::Global;
use std::process::Abort;
use sval_buffer::ValueBuf;
use sval_io::VecSink;
use sval_json::{Error, Variants, stream_to_io_write_with};

/// What a sink took, and why not all.
pub(crate) fn told(
    rt: &impl Abort,
    alloc: Global,
    taken: &[u8],
    answer: Result<(), Error>,
) -> String {
    let json = must(rt, str::from_utf8(taken));
    let told = match answer {
        Ok(()) => String::from_str(alloc, json),
        Err(error) => format!(in alloc; "{:?}: {error}, after `{json}`", error.kind()),
    };
    must(rt, told)
}

/// What is written for captured calls in a style of variants, and why not all.
pub(crate) fn written(
    rt: &impl Abort,
    alloc: Global,
    value: &ValueBuf<'_>,
    variants: Variants,
) -> String {
    let mut sink = VecSink::new(alloc);
    let answer = stream_to_io_write_with(&mut sink, value, variants);
    told(rt, alloc, sink.as_slice(), answer)
}

/// A binary, fields, a variant, empty enums, texts by their tags, and what is refused: numbers that are none and a
/// binary as a key.
pub(crate) const INSIDE: &'static str = r#"
binary_begin -
binary_fragment =00ff
binary_end
= [0,255]

record_begin - - - -
record_value_begin - =612262
null
record_value_end - =612262
record_end - - -
= {"a\"b":null}

record_begin - - - -
record_value_begin - =632264:VALUE_IDENT
null
record_value_end - =632264:VALUE_IDENT
record_end - - -
= {"c"d":null}

enum_begin - - -
tuple_begin - =56 -7 -
tuple_end - =56 -7
enum_end - - -
= {"V":[]}

enum_begin - - -
enum_begin - - -7
enum_end - - -7
enum_end - - -
= {"-7":-7}

enum_begin - - -
enum_begin - - 9223372036854775808
enum_end - - 9223372036854775808
enum_end - - -
= null

tagged_begin NUMBER - -
text_begin -
text_fragment =2d30
text_end
tagged_end NUMBER - -
= 0

tagged_begin JSON_VALUE - -
text_begin -
text_fragment =5b312c20325d
text_end
tagged_end JSON_VALUE - -
= [1, 2]

tagged_begin JSON_TEXT - -
text_begin -
text_fragment =5c6e
text_end
tagged_end JSON_TEXT - -
= "\n"

tagged_begin JSON_NUMBER - -
text_begin -
text_fragment =314535
text_end
tagged_end JSON_NUMBER - -
= 1E5

tagged_begin RUST_UNIT - -
text_begin -
text_fragment =0a
text_end
tagged_end RUST_UNIT - -
= "\n"

tagged_begin NUMBER - -
text_begin -
text_fragment =312e
text_end
tagged_end NUMBER - -
= InvalidNumber: attempt to serialize an invalid number, after `1.`

tagged_begin NUMBER - -
text_begin -
text_fragment =312232
text_end
tagged_end NUMBER - -
= InvalidNumber: attempt to serialize an invalid number, after `1`

tagged_begin NUMBER - -
text_begin -
text_end
tagged_end NUMBER - -
= InvalidNumber: attempt to serialize an invalid number, after ``

map_begin -
map_key_begin
binary_begin -
binary_end
map_key_end
map_value_begin
null
map_value_end
map_end
= InvalidKey: attempt to serialize a non-string key, after `{"`
"#;

/// A variant without a label.
pub(crate) const BESIDE: &'static str = r#"
enum_begin - - -
tuple_begin - - -7 -
tuple_end - - -7
enum_end - - -
= {"variant":"-7","value":[]}
"#;
