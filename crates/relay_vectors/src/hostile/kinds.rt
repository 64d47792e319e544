//! A script of each kind of value, with what is written of it.

use crate::pictures::{add_line, plain_text};
use crate::shown::{must, push};
use std::alloc::Global;
use std::process::Abort;

/// The kinds, with a blank line between two, as rows that [`try_rows`](crate::rows::try_rows) could read: the lines of
/// a script, its JSON, and its canonical script.
const KINDS: &'static str = r#"
# Text.
text_begin 8
text_fragment =225c00
text_fragment =
text_fragment_computed =0a1f7fc3a9
text_end
= json "\"\\\u0000\n\u001f␡é"
= canon text_begin 8␊text_fragment =225c000a1f7fc3a9␊text_end␊

# Binary.
binary_begin 3
binary_fragment =00
binary_fragment_computed =80FF
binary_end
= json [0,128,255]
= canon binary_begin 3␊binary_fragment =0080ff␊binary_end␊

# Numbers.
seq_begin 4
seq_value_begin
u8 255
seq_value_end
seq_value_begin
i128 -170141183460469231731687303715884105728
seq_value_end
seq_value_begin
tagged_begin NUMBER - -
text_begin -
text_fragment =2b30
text_fragment =372e3530
text_end
tagged_end NUMBER - -
seq_value_end
seq_value_begin
bool true
seq_value_end
seq_end
= json [255,-170141183460469231731687303715884105728,7.50,true]
= canon seq_begin -␊seq_value_begin␊u8 255␊seq_value_end␊seq_value_begin␊i128 -170141183460469231731687303715884105728␊seq_value_end␊seq_value_begin␊tagged_begin NUMBER - -␊text_begin 6␊text_fragment =2b30372e3530␊text_end␊tagged_end NUMBER - -␊seq_value_end␊seq_value_begin␊bool true␊seq_value_end␊seq_end␊

# Sequence.
seq_begin 3
seq_value_begin
seq_begin 0
seq_end
seq_value_end
seq_value_begin
null
seq_value_end
seq_value_begin
seq_begin -
seq_value_begin
bool false
seq_value_end
seq_end
seq_value_end
seq_end
= json [[],null,[false]]
= canon seq_begin -␊seq_value_begin␊seq_begin -␊seq_end␊seq_value_end␊seq_value_begin␊null␊seq_value_end␊seq_value_begin␊seq_begin -␊seq_value_begin␊bool false␊seq_value_end␊seq_end␊seq_value_end␊seq_end␊

# Map.
map_begin 2
map_key_begin
text_begin -
text_fragment_computed =6b
text_end
map_key_end
map_value_begin
null
map_value_end
map_key_begin
i8 -1
map_key_end
map_value_begin
map_begin 0
map_end
map_value_end
map_end
= json {"k":null,"-1":{}}
= canon map_begin -␊map_key_begin␊text_begin 1␊text_fragment =6b␊text_end␊map_key_end␊map_value_begin␊null␊map_value_end␊map_key_begin␊i8 -1␊map_key_end␊map_value_begin␊map_begin -␊map_end␊map_value_end␊map_end␊

# Record.
record_begin - =52:VALUE_IDENT - 2
record_value_begin - =6964:VALUE_IDENT
u64 7
record_value_end - =6964
record_value_begin RUST_UNIT =2261
null
record_value_end RUST_UNIT =2261
record_end - =52 -
= json {"id":7,"\"a":null}
= canon record_begin - =52:VALUE_IDENT - -␊record_value_begin - =6964:VALUE_IDENT␊u64 7␊record_value_end - =6964:VALUE_IDENT␊record_value_begin RUST_UNIT =2261␊null␊record_value_end RUST_UNIT =2261␊record_end - =52:VALUE_IDENT -␊

# Tuple.
tuple_begin - =54 3 2
tuple_value_begin - 0:VALUE_OFFSET
u8 1
tuple_value_end - 0
tuple_value_begin - 1
bool true
tuple_value_end - 1:NUMBER
tuple_end - =54 3
= json [1,true]
= canon tuple_begin - =54 3 -␊tuple_value_begin - 0:VALUE_OFFSET␊u8 1␊tuple_value_end - 0:VALUE_OFFSET␊tuple_value_begin - 1␊bool true␊tuple_value_end - 1␊tuple_end - =54 3␊

# Record tuple.
record_tuple_begin - =5254 - 1
record_tuple_value_begin - =61:VALUE_IDENT 0:VALUE_OFFSET
i16 -300
record_tuple_value_end - =61 0
record_tuple_end - =5254 -
= json {"a":-300}
= canon record_tuple_begin - =5254 - -␊record_tuple_value_begin - =61:VALUE_IDENT 0:VALUE_OFFSET␊i16 -300␊record_tuple_value_end - =61:VALUE_IDENT 0:VALUE_OFFSET␊record_tuple_end - =5254 -␊

# Variant.
enum_begin - =45 -
enum_begin - =46 -
tagged_begin - =56 -
i32 1
tagged_end - =56 -
enum_end - =46 -
enum_end - =45 -
= inside {"F":{"V":1}}
= beside {"variant":"F","value":{"variant":"V","value":1}}
= canon enum_begin - =45 -␊enum_begin - =46 -␊tagged_begin - =56 -␊i32 1␊tagged_end - =56 -␊enum_end - =46 -␊enum_end - =45 -␊

# Empty enum.
enum_begin - =45 -
enum_begin - =4c -
enum_end - =4c:NUMBER -
enum_end - =45 -
= inside {"L":"L"}
= beside {"variant":"L","value":"L"}
= canon enum_begin - =45 -␊enum_begin - =4c -␊enum_end - =4c -␊enum_end - =45 -␊

# Option.
tagged_begin RUST_OPTION_SOME =536f6d65:VALUE_IDENT 1:VALUE_OFFSET
tag RUST_OPTION_NONE =4e 0
tagged_end RUST_OPTION_SOME =536f6d65 1
= json null
= canon tagged_begin RUST_OPTION_SOME =536f6d65:VALUE_IDENT 1:VALUE_OFFSET␊tag RUST_OPTION_NONE =4e 0␊tagged_end RUST_OPTION_SOME =536f6d65:VALUE_IDENT 1:VALUE_OFFSET␊

# Hints.
tag_hint NUMBER
seq_begin 1
tag_hint RUST_UNIT
seq_value_begin
text_begin -
text_fragment =61
tag_hint JSON_TEXT
text_fragment =62
text_end
seq_value_end
tag_hint NUMBER
seq_end
= json ["ab"]
= canon seq_begin -␊seq_value_begin␊text_begin 2␊text_fragment =6162␊text_end␊seq_value_end␊seq_end␊

# Raw text.
tagged_begin JSON_VALUE - -
text_begin 6
text_fragment =5b312c
text_fragment =20325d
text_end
tagged_end JSON_VALUE - -
= json [1, 2]
= canon tagged_begin JSON_VALUE - -␊text_begin 6␊text_fragment =5b312c20325d␊text_end␊tagged_end JSON_VALUE - -␊
"#;

/// A script, and what is written of the value that it spells.
#[derive(Drop)]
pub(crate) struct Kind {
    pub(crate) script: String,
    /// Its JSON with variants under their names.
    pub(crate) inside: String,
    /// Its JSON with variants beside their names.
    pub(crate) beside: String,
    /// Its canonical script.
    pub(crate) canonical: String,
}

impl Kind {
    fn new(alloc: Global) -> Kind {
        Kind {
            script: String::new(alloc),
            inside: String::new(alloc),
            beside: String::new(alloc),
            canonical: String::new(alloc),
        }
    }

    /// Adds a line of the table.
    fn add(&mut self, rt: &impl Abort, alloc: Global, line: &str) {
        if line.is_empty() || line.starts_with("# ") {
            return;
        }
        match line.strip_prefix("= ") {
            Some(due) => self.add_due(rt, &plain_text(rt, alloc, due)),
            None => add_line(rt, &mut self.script, line),
        }
    }

    /// Adds what is due.
    fn add_due(&mut self, rt: &impl Abort, due: &str) {
        let (kind, text) = due.split_once(' ').unwrap_or((due, ""));
        match kind {
            "canon" => push(rt, &mut self.canonical, text),
            "inside" => push(rt, &mut self.inside, text),
            "beside" => push(rt, &mut self.beside, text),
            _ => {
                push(rt, &mut self.inside, text);
                push(rt, &mut self.beside, text);
            }
        }
    }

    /// Adds lines of the script, JSON in both forms, and lines of the canonical script.
    fn push_text(&mut self, rt: &impl Abort, script: &str, json: &str, canonical: &str) {
        push(rt, &mut self.script, script);
        push(rt, &mut self.inside, json);
        push(rt, &mut self.beside, json);
        push(rt, &mut self.canonical, canonical);
    }

    /// Adds another value of a sequence, behind this comma.
    fn push(&mut self, rt: &impl Abort, kind: &Kind, comma: &str) {
        let (begin, end) = ("seq_value_begin\n", "seq_value_end\n");
        push_between(rt, &mut self.script, begin, &kind.script, end);
        push_between(rt, &mut self.inside, comma, &kind.inside, "");
        push_between(rt, &mut self.beside, comma, &kind.beside, "");
        push_between(rt, &mut self.canonical, begin, &kind.canonical, end);
    }
}

/// Adds `part` to `text`, with `before` in front of it and `behind` after it.
fn push_between(rt: &impl Abort, text: &mut String, before: &str, part: &str, behind: &str) {
    push(rt, text, before);
    push(rt, text, part);
    push(rt, text, behind);
}

/// Each kind.
pub(crate) fn each_kind(rt: &impl Abort, alloc: Global) -> Vec<Kind> {
    let mut kinds = Vec::new(alloc);
    for rows in KINDS.split("\n\n") {
        must(rt, kinds.push(kind_of(rt, alloc, rows)));
    }
    kinds
}

/// The kind of some rows.
fn kind_of(rt: &impl Abort, alloc: Global, rows: &str) -> Kind {
    let mut kind = Kind::new(alloc);
    for line in rows.lines() {
        kind.add(rt, alloc, line);
    }
    kind
}

/// A sequence of the 13 values of all kinds.
pub(crate) fn together(rt: &impl Abort, alloc: Global, kinds: &[Kind]) -> Kind {
    let mut all = Kind::new(alloc);
    all.push_text(rt, "seq_begin 13\n", "[", "seq_begin -\n");
    for (place, kind) in kinds.iter().enumerate() {
        all.push(rt, kind, if place == 0 { "" } else { "," });
    }
    all.push_text(rt, "seq_end\n", "]", "seq_end\n");
    all
}
