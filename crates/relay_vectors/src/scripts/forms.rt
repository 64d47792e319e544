//! Each form of the words, with what is answered, written and told.

/// Rows as [`try_rows`](crate::rows::try_rows) reads them.
pub(super) const ROWS: &'static str = r#"
# Canonical scripts, letter for letter.
tagged_begin NUMBER - -
text_begin -
text_fragment =2d30
text_fragment =30312e35
text_fragment =30652b33
text_end
tagged_end NUMBER - -
= run calls: 0 tagged_begin NUMBER - -␊text_begin 10␊text_fragment =2d3030312e3530652b33␊text_end␊tagged_end NUMBER - -␊|
text_begin 2
text_fragment =61
tag_hint NUMBER
text_fragment_computed =62
text_end
= run calls: 0 text_begin 2␊text_fragment =6162␊text_end␊|
record_begin - =52 - -
record_end - =52:VALUE_IDENT -
= run calls: 0 record_begin - =52 - -␊record_end - =52 -␊|
text_begin -
text_end
= run calls: 0 text_begin 0␊text_fragment =␊text_end␊|
binary_begin -
binary_fragment =0A
binary_fragment_computed =fF
binary_end
= run calls: 0 binary_begin 2␊binary_fragment =0aff␊binary_end␊|
map_begin -
map_key_begin
seq_begin 0
seq_end
map_key_end
map_value_begin
null
map_value_end
map_end
= run calls: 0 map_begin -␊map_key_begin␊seq_begin -␊seq_end␊map_key_end␊map_value_begin␊null␊map_value_end␊map_end␊|
enum_begin - =45 -9223372036854775808
tag - - 18446744073709551615:VALUE_OFFSET
enum_end - =45 -9223372036854775808
= run calls: 0 enum_begin - =45 -9223372036854775808␊tag - - 18446744073709551615:VALUE_OFFSET␊enum_end - =45 -9223372036854775808␊|

# One value.
bool true
= run direct: 0 true|
bool true
= run buffered: 0 true|
bool true
= run direct beside: 0 true|
bool true
= run buffered beside: 0 true|
bool true
= run calls: 0 bool true␊|
record_begin - - - 1
record_value_begin - =61
seq_begin 1
seq_value_begin
null
seq_value_end
seq_end
record_value_end - =61
record_end - - -
= run calls: 0 record_begin - - - -␊record_value_begin - =61␊seq_begin -␊seq_value_begin␊null␊seq_value_end␊seq_end␊record_value_end - =61␊record_end - - -␊|
text_begin 2
text_fragment =61
text_fragment_computed =62
text_end
= run calls: 0 text_begin 2␊text_fragment =6162␊text_end␊|
␄
= run calls: 5 |the calls are not one whole value␊
null
null
= run calls: 4 |line 2: no value goes on with this call␊

# Many values.
null
bool true
= run direct lines: 0 null␊true␊|
null
bool true
= run buffered lines: 0 null␊true␊|
null
bool true
= run direct beside lines: 0 null␊true␊|
null
bool true
= run buffered beside lines: 0 null␊true␊|
null
bool true
= run calls lines: 0 null␊bool true␊|
␄
= run direct lines: 0 |
tag_hint NUMBER
= run direct lines: 0 |
null
tag_hint NUMBER
seq_begin 0
seq_end
= run calls lines: 0 null␊seq_begin -␊seq_end␊|
nil
= run calls lines: 3 |line 1: not a call␊
null
seq_end
= run direct lines: 4 |line 2: no value goes on with this call␊
null
seq_begin -
= run buffered lines: 5 |the calls are not whole values␊
i64 1
map_begin -
map_key_begin
seq_begin -
seq_end
map_key_end
map_value_begin
null
map_value_end
map_end
= run direct lines: 6 1␊{"|attempt to serialize a non-string key␊
i64 1
map_begin -
map_key_begin
seq_begin -
seq_end
map_key_end
map_value_begin
null
map_value_end
map_end
= run buffered lines: 6 1␊{"|attempt to serialize a non-string key␊
i64 1
map_begin -
map_key_begin
seq_begin -
seq_end
map_key_end
map_value_begin
null
map_value_end
map_end
= run direct: 4 |line 2: no value goes on with this call␊

# The input isn't read.
nil
= run made 0: 0 calls 2 json 2␊|
nil
= run made 2: 0 calls 28 json 43␊|

# Words that are no form.
null
= run direct inside: 2 |usage: sval_relay direct [beside] [lines]|buffered [beside] [lines]|calls [lines]|made N␊
null
= run --help: 2 |usage: sval_relay direct [beside] [lines]|buffered [beside] [lines]|calls [lines]|made N␊

# Hints, sizes and computed fragments, which canonical calls leave out.
tag_hint NUMBER
i32 -7
tag_hint RUST_UNIT
= canon i32 -7␊
text_begin 2
text_fragment_computed =61
text_fragment =62
text_end
= canon text_begin 2␊text_fragment =61␊text_fragment =62␊text_end␊
binary_begin -
binary_fragment_computed =00
binary_end
= canon binary_begin -␊binary_fragment =00␊binary_end␊
map_begin 1
map_key_begin
map_end
= canon map_begin -␊map_key_begin␊map_end␊
seq_begin 18446744073709551615
seq_end
= canon seq_begin -␊seq_end␊
record_begin NUMBER =61:VALUE_IDENT 1:VALUE_OFFSET 2
record_value_begin RUST_UNIT =62:VALUE_IDENT
record_end - - -
= canon record_begin NUMBER =61:VALUE_IDENT 1:VALUE_OFFSET -␊record_value_begin RUST_UNIT =62:VALUE_IDENT␊record_end - - -␊
tuple_begin - - 3 4
= canon tuple_begin - - 3 -␊
record_tuple_begin - - - 0
= canon record_tuple_begin - - - -␊
"#;
