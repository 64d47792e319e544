//! What a buffer captures of calls, refused ones among them, and what it makes again.

use crate::cases::{agrees, holds, must};
use std::alloc::Global;
use std::fmt::Write;
use std::process::Abort;
use sval_buffer::ValueBuf;
use sval_core::{Lent, Value};
use sval_io::VecSink;
use sval_ref::{ValueRef, stream_ref};
use sval_script::{Printer, Script};

/// A buffer after the calls of a script. A call that is refused is made once more, as after want of memory.
pub(crate) fn captured<'s>(alloc: Global, script: &'s Script) -> ValueBuf<'s> {
    let mut buffer: ValueBuf<'s> = ValueBuf::new(alloc);
    for at in 0..script.line_count() {
        let Some(line) = script.slice(at, at + 1) else {
            break;
        };
        if line.stream_ref(&mut buffer).is_err() {
            let _answer = line.stream_ref(&mut buffer);
        }
    }
    buffer
}

/// The calls of a value, as a script.
pub(crate) fn script_of<'v, V: Value<'v, Lent<'v>>>(
    rt: &impl Abort,
    alloc: Global,
    value: &'v V,
) -> String {
    let mut printer = Printer::new(VecSink::new(alloc));
    must(rt, value.stream(&mut printer));
    must(rt, String::from_utf8(printer.into_inner().into_vec()))
}

/// The calls of a value by `stream_ref`, as a script.
pub(crate) fn lent_script_of<'sval, V: ValueRef<Lent<'sval>>>(
    rt: &impl Abort,
    alloc: Global,
    value: &V,
) -> String {
    let mut printer = Printer::new(VecSink::new(alloc));
    must(rt, stream_ref(&mut printer, value));
    must(rt, String::from_utf8(printer.into_inner().into_vec()))
}

/// What a buffer makes again of the calls of a script, whether that is a whole value, and why the last refused call was
/// refused.
pub(crate) fn replayed(rt: &impl Abort, alloc: Global, script: &Script) -> String {
    let buffer = captured(alloc, script);
    let mut seen = made_again(rt, alloc, &buffer, script);
    if let Some(error) = buffer.into_err() {
        must(rt, write!(seen, "\n{:?}: {error}", error.kind()));
    }
    seen
}

/// What a buffer makes again of the calls of a script, and whether that is a whole value.
fn made_again(rt: &impl Abort, alloc: Global, buffer: &ValueBuf<'_>, script: &Script) -> String {
    let again = script_of(rt, alloc, buffer);
    let alike = lent_script_of(rt, alloc, buffer) == again;
    let is_same = script_of(rt, alloc, script) == again;
    let calls = if is_same {
        "the same\n"
    } else {
        again.as_str()
    };
    let complete = buffer.is_complete();
    let seen = format!(in alloc; "{calls}complete: {complete}, lent alike: {alike}");
    must(rt, seen)
}

/// Calls that are no value's, or not whole: what can be is made again with its ends, and without what was refused.
pub(crate) const CALLS: &'static str = r#"
␄
= null␊complete: false, lent alike: true

seq_end
= null␊complete: false, lent alike: true␊InvalidValue { reason: Unbalanced }: the value is invalid: unbalanced calls to `begin` and `end`

text_fragment =61
= null␊complete: false, lent alike: true␊OutsideContainer { method: Text }: expected a fragment while buffering text

binary_fragment =61
= null␊complete: false, lent alike: true␊OutsideContainer { method: Binary }: expected a fragment while buffering binary

seq_begin -
seq_value_end
= seq_begin -␊seq_end␊complete: true, lent alike: true

seq_begin -
null
= seq_begin -␊seq_end␊null␊complete: false, lent alike: true

seq_begin -
seq_value_begin
bool true
= seq_begin -␊seq_end␊seq_value_begin␊seq_value_end␊bool true␊complete: false, lent alike: true

text_begin -
text_fragment =61
text_end
text_fragment =62
= text_begin 2␊text_fragment_computed =6162␊text_end␊complete: true, lent alike: true

text_begin -
null
text_fragment =61
= text_begin 0␊text_fragment =␊text_end␊null␊complete: false, lent alike: true␊OutsideContainer { method: Text }: expected a fragment while buffering text

seq_begin 2
seq_value_begin
seq_begin 0
seq_end
seq_value_end
seq_value_begin
text_begin 1
text_fragment =61
text_end
seq_value_end
seq_end
= the same␊complete: true, lent alike: true

seq_begin -
seq_value_begin
i64 -7
seq_value_end
seq_end
seq_end
= seq_begin -␊seq_value_begin␊i64 -7␊seq_value_end␊seq_end␊complete: true, lent alike: true␊InvalidValue { reason: Unbalanced }: the value is invalid: unbalanced calls to `begin` and `end`

seq_begin -
seq_value_begin
text_begin -
text_fragment =61
text_fragment_computed =62
text_fragment =63
text_end
seq_value_end
seq_end
= seq_begin -␊seq_value_begin␊text_begin 3␊text_fragment_computed =616263␊text_end␊seq_value_end␊seq_end␊complete: true, lent alike: true

tagged_begin RUST_UNIT =6b696e64 -
seq_end
= tagged_begin RUST_UNIT =6b696e64 -␊tagged_end RUST_UNIT =6b696e64 -␊complete: true, lent alike: true

seq_begin 2
seq_value_begin
bool false
seq_value_end
seq_value_begin
bool true
seq_value_end
seq_end
= the same␊complete: true, lent alike: true

map_begin 2
map_key_begin
i32 0
map_key_end
map_value_begin
bool false
map_value_end
map_key_begin
i32 1
map_key_end
map_value_begin
bool true
map_value_end
map_end
= the same␊complete: true, lent alike: true

enum_begin - =456e756d -
enum_end - =456e756d -
record_begin - =5265636f7264 - 0
record_end - =5265636f7264 -
tuple_begin - =5475706c65 - 0
tuple_end - =5475706c65 -
= the same␊complete: true, lent alike: true

binary_begin -
tag_hint NUMBER
binary_fragment =6162
binary_end
= binary_begin 2␊binary_fragment =6162␊binary_end␊complete: true, lent alike: true
"#;

/// Calls that are made again as they came: numbers, the containers with names, and calls with names that differ in one
/// thing each, in turns.
pub(crate) const NAMES: &'static str = r#"
u8 255
u16 65535
u32 4294967295
u64 18446744073709551615
u128 18446744073709551616
u128 340282366920938463463374607431768211455
i8 -128
i16 -32768
i32 -2147483648
i64 -9223372036854775808
i128 -1
i128 -170141183460469231731687303715884105728
= the same␊complete: true, lent alike: true

tuple_begin RUST_UNIT =7769647468 18446744073709551615 -
tuple_value_begin - 18446744073709551615
map_begin 1
map_key_begin
i8 -7
map_key_end
map_value_begin
bool false
map_value_end
map_end
tuple_value_end - 18446744073709551615
tuple_end RUST_UNIT =7769647468 18446744073709551615
record_tuple_begin RUST_UNIT =7769647468 18446744073709551615 -
record_tuple_value_begin - =7769647468 18446744073709551615
null
record_tuple_value_end - =7769647468 18446744073709551615
record_tuple_end RUST_UNIT =7769647468 18446744073709551615
= the same␊complete: true, lent alike: true

tag - =6964 -
tag RUST_UNIT =6964 -
tag RUST_UNIT =6964 -
tag - =6964 -
tag - - -
tag - - -
tag - =6964 -
tag - =6164 -
tag - =6164 -
tag - =6964 -
tag - =6964:VALUE_IDENT -
tag - =6964:VALUE_IDENT -
= the same␊complete: true, lent alike: true

tag - =6964 0
tag - =6964 -
tag - =6964 -
tag - =6964 0
tag - =6964 1
tag - =6964 1
tag - =6964 0
tag - =6964 0:VALUE_OFFSET
tag - =6964 0:VALUE_OFFSET
= the same␊complete: true, lent alike: true

enum_begin - =6964 -
enum_end - =6964 -
tag - =6964 -
tuple_begin - =6964 - 1
tuple_end - =6964 -
tuple_begin - =6964 - -
tuple_end - =6964 -
tuple_begin - =6964 - 1
tuple_end - =6964 -
= the same␊complete: true, lent alike: true
"#;

/// Values that are captured a second time, from their capture: a sequence, a number, a record tuple, a tuple and an
/// enum.
const VALUES: [&'static str; 5] = [
    "seq_begin -\nseq_value_begin\nnull\nseq_value_end\nseq_end\n",
    "i32 42\n",
    "record_tuple_begin - - - 2\n\
     record_tuple_value_begin - =61 0\ni32 42\nrecord_tuple_value_end - =61 0\n\
     record_tuple_value_begin - =62 1\nbool true\nrecord_tuple_value_end - =62 1\n\
     record_tuple_end - - -\n",
    "tuple_begin - - - 2\n\
     tuple_value_begin - 0\ni32 42\ntuple_value_end - 0\n\
     tuple_value_begin - 1\nbool true\ntuple_value_end - 1\n\
     tuple_end - - -\n",
    "enum_begin - =45 -\ntag - =41 0\nenum_end - =45 -\n",
];

/// Captures the value of these lines a second time, from its capture, and compares its calls with the lines.
fn try_again(rt: &impl Abort, alloc: Global, buffer: &ValueBuf<'_>, lines: &str) {
    let again: ValueBuf<'_> = must(rt, ValueBuf::collect(alloc, buffer));
    holds(rt, again.is_complete(), lines);
    agrees(rt, &script_of(rt, alloc, &again), lines);
}

/// Captures the value of these lines, and then a second time.
fn try_twice(rt: &impl Abort, alloc: Global, lines: &str) {
    let script = must(rt, Script::read(alloc, lines.as_bytes()));
    try_again(rt, alloc, &captured(alloc, &script), lines);
}

#[test]
fn collects_values(rt: HostRuntime) {
    for lines in &VALUES {
        try_twice(&rt, rt.alloc(), lines);
    }
}

#[test]
fn forgets_calls(rt: HostRuntime) {
    let script = must(&rt, Script::read(rt.alloc(), b"seq_begin -\ntext_end\n"));
    let mut buffer = captured(rt.alloc(), &script);
    buffer.clear();
    agrees(&rt, &script_of(&rt, rt.alloc(), &buffer), "null\n");
}
