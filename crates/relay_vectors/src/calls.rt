//! Calls as a stream takes them: those of scripts' lines, and each named call, through the bounds.

ghost use Rattle.sval_core.specs.Law.{emits};
ghost use Rattle.sval_label.specs.Calls as call;

use crate::fakes::Record;
use crate::shown::{agrees, compare, holds, must};
use std::alloc::Global;
use std::fmt::Write;
use std::process::Abort;
use sval_core::{Index, Label, Lending, Lent, Result, Stream, Tag, Value, tags};
use sval_script::Script;

/// A line of a script, and its call.
const LINES: &'static str = r#"
# Calls without names.
null -> Null
bool true -> Bool(true)
u8 1 -> Int(U8(1))
u16 2 -> Int(U16(2))
u32 3 -> Int(U32(3))
u64 4 -> Int(U64(4))
u128 5 -> Int(U128(5))
i8 -1 -> Int(I8(-1))
i16 -2 -> Int(I16(-2))
i32 -3 -> Int(I32(-3))
i64 -4 -> Int(I64(-4))
i128 -5 -> Int(I128(-5))
text_begin 3 -> TextBegin(Some(3))
text_fragment =61 -> TextFragment(Borrowed("a"))
text_fragment_computed =C3a9 -> TextFragment(Computed("é"))
text_end -> TextEnd
binary_begin - -> BinaryBegin(None)
binary_fragment =00ff -> BinaryFragment(Borrowed([0, 255]))
binary_fragment_computed = -> BinaryFragment(Computed([]))
binary_end -> BinaryEnd
map_begin 1 -> Begin(Map, Some(1))
map_key_begin -> PartBegin(Key)
map_key_end -> PartEnd(Key)
map_value_begin -> PartBegin(Value)
map_value_end -> PartEnd(Value)
map_end -> End(Map)
seq_begin - -> Begin(Seq, None)
seq_value_begin -> PartBegin(Item)
seq_value_end -> PartEnd(Item)
seq_end -> End(Seq)

# Whole numbers at the ends of their types.
u8 0 -> Int(U8(0))
u8 255 -> Int(U8(255))
u16 65535 -> Int(U16(65535))
u32 4294967295 -> Int(U32(4294967295))
u64 18446744073709551615 -> Int(U64(18446744073709551615))
u128 18446744073709551616 -> Int(U128(18446744073709551616))
u128 340282366920938463463374607431768211455 -> Int(U128(340282366920938463463374607431768211455))
i8 -128 -> Int(I8(-128))
i8 127 -> Int(I8(127))
i16 -32768 -> Int(I16(-32768))
i16 32767 -> Int(I16(32767))
i32 -2147483648 -> Int(I32(-2147483648))
i32 2147483647 -> Int(I32(2147483647))
i64 -9223372036854775808 -> Int(I64(-9223372036854775808))
i64 9223372036854775807 -> Int(I64(9223372036854775807))
i128 -1 -> Int(I128(-1))
i128 -170141183460469231731687303715884105728 -> Int(I128(-170141183460469231731687303715884105728))
i128 170141183460469231731687303715884105727 -> Int(I128(170141183460469231731687303715884105727))

# Calls with names, whose texts and numbers stand in a store between those of other lines.
enum_begin RUST_OPTION_SOME =45:VALUE_IDENT 1:VALUE_OFFSET -> EnumBegin(Name { tag: Some(Tag { text: "RUST_OPTION_SOME" }), label: Some(Label { text: Computed("E"), tag: Some(Tag { text: "VALUE_IDENT" }) }), index: Some(Index { number: 1, tag: Some(Tag { text: "VALUE_OFFSET" }) }) })
enum_end - - - -> EnumEnd(Name { tag: None, label: None, index: None })
tagged_begin - =c3a9 - -> TaggedBegin(Name { tag: None, label: Some(Label { text: Computed("é"), tag: None }), index: None })
tagged_end - - -1 -> TaggedEnd(Name { tag: None, label: None, index: Some(Index { number: -1, tag: None }) })
tag NUMBER = 18446744073709551615 -> Tag(Name { tag: Some(Tag { text: "NUMBER" }), label: Some(Label { text: Computed(""), tag: None }), index: Some(Index { number: 18446744073709551615, tag: None }) })
tag_hint JSON_TEXT -> TagHint(Tag { text: "JSON_TEXT" })
record_begin - =52 - 7 -> Begin(Record(Name { tag: None, label: Some(Label { text: Computed("R"), tag: None }), index: None }), Some(7))
record_value_begin CONSTANT_SIZE =66:VALUE_IDENT -> PartBegin(Field(Some(Tag { text: "CONSTANT_SIZE" }), Label { text: Computed("f"), tag: Some(Tag { text: "VALUE_IDENT" }) }))
record_value_end - =67 -> PartEnd(Field(None, Label { text: Computed("g"), tag: None }))
record_end RUST_UNIT =53 2 -> End(Record(Name { tag: Some(Tag { text: "RUST_UNIT" }), label: Some(Label { text: Computed("S"), tag: None }), index: Some(Index { number: 2, tag: None }) }))
tuple_begin - - 3 - -> Begin(Tuple(Name { tag: None, label: None, index: Some(Index { number: 3, tag: None }) }), None)
tuple_value_begin - 0:VALUE_OFFSET -> PartBegin(Place(None, Index { number: 0, tag: Some(Tag { text: "VALUE_OFFSET" }) }))
tuple_value_end JSON_NUMBER -9223372036854775808 -> PartEnd(Place(Some(Tag { text: "JSON_NUMBER" }), Index { number: -9223372036854775808, tag: None }))
tuple_end - - 4 -> End(Tuple(Name { tag: None, label: None, index: Some(Index { number: 4, tag: None }) }))
record_tuple_begin RUST_OPTION_NONE =54 5 6 -> Begin(RecordTuple(Name { tag: Some(Tag { text: "RUST_OPTION_NONE" }), label: Some(Label { text: Computed("T"), tag: None }), index: Some(Index { number: 5, tag: None }) }), Some(6))
record_tuple_value_begin - =68:VALUE_IDENT 8:VALUE_OFFSET -> PartBegin(FieldPlace(None, Label { text: Computed("h"), tag: Some(Tag { text: "VALUE_IDENT" }) }, Index { number: 8, tag: Some(Tag { text: "VALUE_OFFSET" }) }))
record_tuple_value_end JSON_VALUE =69 -9 -> PartEnd(FieldPlace(Some(Tag { text: "JSON_VALUE" }), Label { text: Computed("i"), tag: None }, Index { number: -9, tag: None }))
record_tuple_end - - - -> End(RecordTuple(Name { tag: None, label: None, index: None }))
"#;

/// Adds a row's line to a script, and its call to those that are due.
fn add_row(rt: &impl Abort, row: &str, script: &mut String, calls: &mut String) {
    if let Some((line, call)) = row.split_once(" -> ") {
        must(rt, write!(script, "{line}\n"));
        must(rt, write!(calls, "{call}\n"));
    }
}

/// What is written down of a script's calls.
fn calls_of(rt: &impl Abort, alloc: Global, script: &str) -> String {
    let mut record = Record::new(alloc);
    let script = must(rt, Script::read(alloc, script.as_bytes()));
    must(rt, script.stream(&mut record));
    record.text
}

#[test]
fn makes_the_calls_of_its_lines(rt: HostRuntime) {
    let mut script = String::new(rt.alloc());
    let mut calls = String::new(rt.alloc());
    for row in LINES.lines() {
        add_row(&rt, row, &mut script, &mut calls);
    }
    agrees(&rt, &calls_of(&rt, rt.alloc(), &script), &calls);
}

/// A value that says that there is none.
struct Nothing {}

impl<'v> Value<'v, Lent<'v>> for Nothing {
    ghost emission = { λ _. emits call.Null };

    #[tactic(auto, using(sval_core::proofs::Emissions::streams_one, sval_core::proofs::Emissions::stops_one))]
    fn stream<S: Stream<Lent<'v>>>(&'v self, stream: &mut S) -> Result {
        stream.null()
    }
}

/// The calls of a null, a truth value and numbers without a sign.
fn make_unsigned<L: Lending, S: Stream<L>>(stream: &mut S) -> [Result; 7] {
    [
        stream.null(),
        stream.bool(true),
        stream.u8(8),
        stream.u16(16),
        stream.u32(32),
        stream.u64(64),
        stream.u128(128),
    ]
}

/// The calls of numbers with a sign.
fn make_signed<L: Lending, S: Stream<L>>(stream: &mut S) -> [Result; 5] {
    [
        stream.i8(-8),
        stream.i16(-16),
        stream.i32(-32),
        stream.i64(-64),
        stream.i128(-128),
    ]
}

/// The calls of a text.
fn make_text<'v, S: Stream<Lent<'v>>>(stream: &mut S) -> [Result; 4] {
    [
        stream.text_begin(Some(2)),
        stream.text_fragment("a"),
        stream.text_fragment_computed("b"),
        stream.text_end(),
    ]
}

/// The calls of a binary.
fn make_binary<'v, S: Stream<Lent<'v>>>(stream: &mut S) -> [Result; 4] {
    [
        stream.binary_begin(Some(2)),
        stream.binary_fragment(b"a"),
        stream.binary_fragment_computed(b"b"),
        stream.binary_end(),
    ]
}

/// The calls of a map.
fn make_map<L: Lending, S: Stream<L>>(stream: &mut S) -> [Result; 6] {
    [
        stream.map_begin(Some(1)),
        stream.map_key_begin(),
        stream.map_key_end(),
        stream.map_value_begin(),
        stream.map_value_end(),
        stream.map_end(),
    ]
}

/// The calls of a sequence.
fn make_seq<L: Lending, S: Stream<L>>(stream: &mut S) -> [Result; 4] {
    [
        stream.seq_begin(Some(1)),
        stream.seq_value_begin(),
        stream.seq_value_end(),
        stream.seq_end(),
    ]
}

/// The calls of enums, tags and tagged values.
fn make_named<L: Lending, S: Stream<L>>(stream: &mut S, tag: &Tag) -> [Result; 6] {
    [
        stream.enum_begin(Some(tag), None, None),
        stream.enum_end(None, None, None),
        stream.tagged_begin(None, None, None),
        stream.tagged_end(None, None, None),
        stream.tag(Some(tag), None, None),
        stream.tag_hint(tag),
    ]
}

/// The calls of a record.
fn make_record<L: Lending, S: Stream<L>>(stream: &mut S, label: &Label) -> [Result; 4] {
    [
        stream.record_begin(None, Some(label), None, Some(1)),
        stream.record_value_begin(None, label),
        stream.record_value_end(None, label),
        stream.record_end(None, None, None),
    ]
}

/// The calls of a tuple.
fn make_tuple<L: Lending, S: Stream<L>>(stream: &mut S, index: &Index) -> [Result; 4] {
    [
        stream.tuple_begin(None, None, Some(index), Some(1)),
        stream.tuple_value_begin(None, index),
        stream.tuple_value_end(None, index),
        stream.tuple_end(None, None, None),
    ]
}

/// The calls of a record tuple.
fn make_record_tuple<L: Lending, S: Stream<L>>(
    stream: &mut S,
    label: &Label,
    index: &Index,
) -> [Result; 4] {
    [
        stream.record_tuple_begin(None, None, None, None),
        stream.record_tuple_value_begin(None, label, index),
        stream.record_tuple_value_end(None, label, index),
        stream.record_tuple_end(None, None, None),
    ]
}

/// What is written down of the calls that are made.
const CALLS: &'static str = r#"Null
Bool(true)
Int(U8(8))
Int(U16(16))
Int(U32(32))
Int(U64(64))
Int(U128(128))
Int(I8(-8))
Int(I16(-16))
Int(I32(-32))
Int(I64(-64))
Int(I128(-128))
TextBegin(Some(2))
TextFragment(Borrowed("a"))
TextFragment(Computed("b"))
TextEnd
BinaryBegin(Some(2))
BinaryFragment(Borrowed([97]))
BinaryFragment(Computed([98]))
BinaryEnd
Begin(Map, Some(1))
PartBegin(Key)
PartEnd(Key)
PartBegin(Value)
PartEnd(Value)
End(Map)
Begin(Seq, Some(1))
PartBegin(Item)
PartEnd(Item)
End(Seq)
EnumBegin(Name { tag: Some(Tag { text: "NUMBER" }), label: None, index: None })
EnumEnd(Name { tag: None, label: None, index: None })
TaggedBegin(Name { tag: None, label: None, index: None })
TaggedEnd(Name { tag: None, label: None, index: None })
Tag(Name { tag: Some(Tag { text: "NUMBER" }), label: None, index: None })
TagHint(Tag { text: "NUMBER" })
Begin(Record(Name { tag: None, label: Some(Label { text: Static("a"), tag: None }), index: None }), Some(1))
PartBegin(Field(None, Label { text: Static("a"), tag: None }))
PartEnd(Field(None, Label { text: Static("a"), tag: None }))
End(Record(Name { tag: None, label: None, index: None }))
Begin(Tuple(Name { tag: None, label: None, index: Some(Index { number: 0, tag: None }) }), Some(1))
PartBegin(Place(None, Index { number: 0, tag: None }))
PartEnd(Place(None, Index { number: 0, tag: None }))
End(Tuple(Name { tag: None, label: None, index: None }))
Begin(RecordTuple(Name { tag: None, label: None, index: None }), None)
PartBegin(FieldPlace(None, Label { text: Static("a"), tag: None }, Index { number: 0, tag: None }))
PartEnd(FieldPlace(None, Label { text: Static("a"), tag: None }, Index { number: 0, tag: None }))
End(RecordTuple(Name { tag: None, label: None, index: None }))
Null
Null
"#;

/// Whether each call was taken.
fn all_taken(answers: &[Result]) -> bool {
    answers.iter().all(|answer| answer.is_ok())
}

/// Whether a stream takes the calls of leaves.
fn takes_leaves<'v, S: Stream<Lent<'v>>>(stream: &mut S) -> bool {
    all_taken(&make_unsigned(stream))
        && all_taken(&make_signed(stream))
        && all_taken(&make_text(stream))
        && all_taken(&make_binary(stream))
}

/// Whether a stream takes the calls of containers, and those with names.
fn takes_containers<L: Lending, S: Stream<L>>(stream: &mut S) -> bool {
    let label = Label::new("a");
    let index = Index::new(0);
    all_taken(&make_map(stream))
        && all_taken(&make_seq(stream))
        && all_taken(&make_named(stream, &tags::NUMBER))
        && all_taken(&make_record(stream, &label))
        && all_taken(&make_tuple(stream, &index))
        && all_taken(&make_record_tuple(stream, &label, &index))
}

#[test]
fn passes_each_call_on(rt: HostRuntime) {
    let mut record = Record::new(rt.alloc());
    holds(&rt, takes_leaves(&mut record), "leaves");
    holds(&rt, takes_containers(&mut record), "containers");
    let answers = [
        record.value(&Nothing {}),
        record.value_computed(&Nothing {}),
    ];
    holds(&rt, all_taken(&answers), "values");
    compare(&rt, &record.text, CALLS, "each call");
}
