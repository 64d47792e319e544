//! Functions that stream one value each, here into a stream in a box, as the lines of a script.

use crate::shown::{has_printed, must, new_printer};
use sval::{
    Call, Stream, fields, stream, stream_binary, stream_computed, stream_map, stream_record,
    stream_seq, stream_str,
};

/// A text, the same through a computed stream, a binary, and a number.
const LEAVES: &str = "text_begin 1\ntext_fragment =61\ntext_end\n\
    text_begin 1\ntext_fragment_computed =61\ntext_end\n\
    binary_begin 1\nbinary_fragment =61\nbinary_end\n\
    u8 7\n";

#[test]
fn streams_leaves(rt: HostRuntime) {
    let mut boxed = must(&rt, Box::new(rt.alloc(), new_printer(rt.alloc())));
    must(&rt, stream_str(&mut boxed, "a"));
    must(&rt, stream_computed(&mut boxed, &"a"));
    must(&rt, stream_binary(&mut boxed, b"a"));
    must(&rt, stream(&mut boxed, &7u8));
    has_printed(&rt, Box::into_inner(boxed), LEAVES);
}

/// A sequence, a map, and a record without a name, whose second field has a name that is no identifier.
const PARTS: &str = "seq_begin 1\nseq_value_begin\nu8 1\nseq_value_end\nseq_end\n\
    map_begin 1\n\
    map_key_begin\nu8 1\nmap_key_end\n\
    map_value_begin\nbool true\nmap_value_end\n\
    map_end\n\
    record_begin - - - 2\n\
    record_value_begin - =61\nu8 1\nrecord_value_end - =61\n\
    record_value_begin - =6220\nbool false\nrecord_value_end - =6220\n\
    record_end - - -\n";

#[test]
fn streams_parts(rt: HostRuntime) {
    let mut boxed = must(&rt, Box::new(rt.alloc(), new_printer(rt.alloc())));
    must(&rt, stream_seq(&mut boxed, &[1u8]));
    must(&rt, stream_map(&mut boxed, &[(1u8, true)]));
    must(
        &rt,
        stream_record(&mut boxed, fields!("a" => 1u8, "b " => false)),
    );
    has_printed(&rt, Box::into_inner(boxed), PARTS);
}

#[test]
fn calls_are_copied(rt: HostRuntime) {
    let mut printer = new_printer(rt.alloc());
    let call = Call::Bool(true);
    let copy = call;
    must(&rt, printer.take(copy));
    must(&rt, printer.take(must(&rt, call.clone())));
    has_printed(&rt, printer, "bool true\nbool true\n");
}
