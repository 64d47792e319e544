//! What is printed for each kind of call, and canonically.

ghost use Rattle.std.specs.Prelude.{◌∷◌, [], None, Some};
ghost use Rattle.sval_label.specs.SeenTags.{seen_tag};
ghost use Rattle.sval_label.specs.Calls.{TagHint, Null, Standalone};
ghost use Rattle.sval_core.specs.Values.{makes};

use crate::shown::{holds, must, shows};
use std::io::Cursor;
use std::process::Abort;
use sval_core::{Index, Label, Lending, Stream, Tag, Value, tags};
use sval_io::{RealSink, VecSink};
use sval_ref::ValueRef;
use sval_script::{PrintError, Printer, Script, print_canon};

/// A line for each kind of call, with tags, sizes and hints.
const EACH_CALL: &'static str = r#"null
bool true
bool false
u8 255
u16 65535
u32 4294967295
u64 18446744073709551615
u128 340282366920938463463374607431768211455
i8 -128
i16 -32768
i32 -2147483648
i64 -9223372036854775808
i128 -170141183460469231731687303715884105728
text_begin 18446744073709551615
text_fragment =c3a9
text_fragment_computed =
text_end
binary_begin -
binary_fragment =00ff0a20
binary_fragment_computed =000102030405060708090a0b0c0d0e0f101112131415161718191a1b1c1d1e1f20
binary_end
map_begin 1
map_key_begin
map_key_end
map_value_begin
map_value_end
map_end
seq_begin -
seq_value_begin
seq_value_end
seq_end
enum_begin RUST_OPTION_SOME =536f6d65 1:VALUE_OFFSET
enum_end - - -
tagged_begin NUMBER - -
tagged_end JSON_NUMBER - -9223372036854775808
tag RUST_OPTION_NONE =4e6f6e65:VALUE_IDENT 18446744073709551615
tag_hint CONSTANT_SIZE
record_begin - = 0 2
record_value_begin RUST_UNIT =6964
record_value_end - =6964:JSON_TEXT
record_end - - -
tuple_begin - - - -
tuple_value_begin - 0
tuple_value_end JSON_VALUE 1:VALUE_OFFSET
tuple_end - - 7
record_tuple_begin JSON_VALUE = -1 3
record_tuple_value_begin - =61 0
record_tuple_value_end JSON_TEXT =61:VALUE_IDENT 0:VALUE_OFFSET
record_tuple_end - =62 -
"#;

#[test]
fn prints_what_is_read(rt: HostRuntime) {
    let script = must(&rt, Script::read(rt.alloc(), EACH_CALL.as_bytes()));
    let mut printer = Printer::new(VecSink::new(rt.alloc()));
    must(&rt, script.stream(&mut printer));
    has_printed(&rt, printer, EACH_CALL);
}

/// Asserts that these lines were printed.
fn has_printed(rt: &impl Abort, printer: Printer<VecSink>, lines: &str) {
    shows(
        rt,
        String::from_utf8(printer.into_inner().into_vec()),
        lines,
    );
}

/// Labels and tags of the program.
#[test]
fn prints_known_names(rt: HostRuntime) {
    let mut printer = Printer::new(VecSink::new(rt.alloc()));
    let label = Label::new("id").with_tag(&tags::VALUE_IDENT);
    must(&rt, printer.record_value_begin(None, &label));
    must(
        &rt,
        printer.tuple_value_end(Some(&tags::NUMBER), &Index::new(3)),
    );
    holds(&rt, printer.why().is_none(), "known tags");
    let lines = "record_value_begin - =6964:VALUE_IDENT\ntuple_value_end NUMBER 3\n";
    has_printed(&rt, printer, lines);
}

/// Unknown tags. Each is refused for good.
#[test]
fn refuses_unknown_tags(rt: HostRuntime) {
    let mut printer = Printer::new(VecSink::new(rt.alloc()));
    let own = Tag::new("OWN");
    must(&rt, printer.tag(Some(&tags::NUMBER), None, None));
    holds(&rt, printer.tag_hint(&own).is_err(), "a hint");
    holds(&rt, printer.why() == Some(PrintError::UnknownTag), "a hint");
    let label = Label::new("id").with_tag(&own);
    let end = printer.record_value_end(Some(&tags::RUST_UNIT), &label);
    holds(&rt, end.is_err(), "a field's end");
    must(&rt, printer.null());
    holds(
        &rt,
        printer.why() == Some(PrintError::UnknownTag),
        "the end",
    );
    has_printed(&rt, printer, "tag NUMBER - -\nnull\n");
}

#[test]
fn prints_up_to_the_room(rt: HostRuntime) {
    let mut room = Cursor::new([b'-'; 10]);
    let mut printer = Printer::new(RealSink::new(&mut room));
    let answers = [printer.null(), printer.bool(true)];
    holds(&rt, answers[0].is_ok(), "the first answer");
    holds(&rt, answers[1].is_err(), "the second answer");
    holds(&rt, printer.why() == Some(PrintError::Write), "the error");
    drop(printer);
    holds(&rt, room.into_inner() == *b"null\nbool ", "the bytes");
}

/// A hint, a null and a name, with one tag.
#[derive(Drop)]
struct Hinted {
    tag: Tag,
}

impl<L: Lending> ValueRef<L> for Hinted {
    ghost ref_emission = { λ hinted. makes (TagHint (seen_tag hinted.tag) ∷ Null
        ∷ Standalone (record { tag = Some (seen_tag hinted.tag); label = None; index = None }) ∷ []) };

    fn stream_ref<S: Stream<L>>(&self, stream: &mut S) -> sval_core::Result {
        stream.tag_hint(&self.tag)?;
        stream.null()?;
        stream.tag(Some(&self.tag), None, None)
    }
}

/// What is printed canonically of it: no hint is asked for its tag.
#[test]
fn prints_canonically(rt: HostRuntime) {
    let mut sink = VecSink::new(rt.alloc());
    let unknown = Hinted {
        tag: Tag::new("OWN"),
    };
    let refused = print_canon(&unknown, &mut sink);
    holds(
        &rt,
        refused == Err(PrintError::UnknownTag),
        "an unknown tag",
    );
    let known = Hinted { tag: tags::NUMBER };
    holds(&rt, print_canon(&known, &mut sink) == Ok(()), "a known tag");
    let lines = "null\nnull\ntag NUMBER - -\n";
    shows(&rt, String::from_utf8(sink.into_vec()), lines);
}

#[test]
fn prints_canonically_up_to_the_room(rt: HostRuntime) {
    let known = Hinted { tag: tags::NUMBER };
    let mut room = Cursor::new([b'-'; 8]);
    let written = print_canon(&known, &mut RealSink::new(&mut room));
    holds(&rt, written == Err(PrintError::Write), "the answer");
    holds(&rt, room.into_inner() == *b"null\ntag", "the bytes");
}
