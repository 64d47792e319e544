//! What stands for calls that a stream doesn't take itself, as the lines of a script.

use crate::shown::{has_printed, must, new_printer};
use sval::default_stream;

/// The begin of a key, as that of a pair; a wide number, as its digits; and one that a smaller type holds.
const LOWER: &str = "seq_value_begin\ntuple_begin - - - 2\ntuple_value_begin - 0\n\
    tagged_begin NUMBER - -\n\
    text_begin -\ntext_fragment_computed =39323233333732303336383534373735383038\ntext_end\n\
    tagged_end NUMBER - -\n\
    i64 -1\n";

#[test]
fn makes_lower_calls(rt: HostRuntime) {
    let mut printer = new_printer(rt.alloc());
    must(&rt, default_stream::map_key_begin(&mut printer));
    must(
        &rt,
        default_stream::u128(&mut printer, 9_223_372_036_854_775_808),
    );
    must(&rt, default_stream::i128(&mut printer, -1));
    has_printed(&rt, printer, LOWER);
}
