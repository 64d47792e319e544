//! Maps, records, tuples, record tuples and binaries.

/// Rows as [`try_rows`](crate::rows::try_rows) reads them.
pub(super) const ROWS: &'static str = r#"
# A record tuple.
record_tuple_begin - =4d795265636f7264:VALUE_IDENT - 3
record_tuple_value_begin - =6669656c645f30:VALUE_IDENT 0:VALUE_OFFSET
i32 1
record_tuple_value_end - =6669656c645f30:VALUE_IDENT 0:VALUE_OFFSET
record_tuple_value_begin - =6669656c645f31:VALUE_IDENT 1:VALUE_OFFSET
bool true
record_tuple_value_end - =6669656c645f31:VALUE_IDENT 1:VALUE_OFFSET
record_tuple_value_begin - =6669656c645f32:VALUE_IDENT 2:VALUE_OFFSET
text_begin 9
text_fragment =736f6d652074657874
text_end
record_tuple_value_end - =6669656c645f32:VALUE_IDENT 2:VALUE_OFFSET
record_tuple_end - =4d795265636f7264:VALUE_IDENT -
= json {"field_0":1,"field_1":true,"field_2":"some text"}

# Maps.
map_begin 2
map_key_begin
i32 0
map_key_end
map_value_begin
bool false
map_value_end
map_key_begin
i32 1
map_key_end
map_value_begin
bool true
map_value_end
map_end
= json {"0":false,"1":true}
map_begin -
map_end
= json {}
map_begin 2
map_key_begin
text_begin 1
text_fragment =61
text_end
map_key_end
map_value_begin
map_begin -
map_key_begin
text_begin 1
text_fragment =62
text_end
map_key_end
map_value_begin
null
map_value_end
map_end
map_value_end
map_key_begin
text_begin 1
text_fragment =61
text_end
map_key_end
map_value_begin
null
map_value_end
map_end
= json {"a":{"b":null},"a":null}
map_begin 2
map_key_begin
i32 0
map_key_end
map_value_begin
bool false
map_value_end
map_key_begin
i32 1
map_key_end
map_value_begin
bool true
map_value_end
= unfinished
map_begin 1
map_key_begin
i32 0
map_key_end
map_value_begin
bool false
map_value_end
map_key_begin
i32 1
map_key_end
map_value_begin
bool true
map_value_end
map_end
= bad-call 8
map_begin 3
map_key_begin
i32 0
map_key_end
map_value_begin
bool false
map_value_end
map_key_begin
i32 1
map_key_end
map_value_begin
bool true
map_value_end
map_end
= bad-call 14
map_begin -
map_key_begin
null
map_key_end
map_end
= bad-call 5
map_begin -
map_value_begin
= bad-call 2

# Records.
record_begin - =52 - -
record_end - =52 -
= json {}
record_begin - - - 3
record_value_begin - =61
i32 1
record_value_end - =61
record_value_begin - =62:NUMBER
text_begin 1
text_fragment =63
text_end
record_value_end - =62:NUMBER
record_value_begin - =2261
null
record_value_end - =2261
record_end - - -
= json {"a":1,"b":"c","\"a":null}
record_begin - =52 - -
record_end - =53 -
= bad-call 2
record_begin - - - 1
record_end - - -
= bad-call 2
record_begin - =61:VALUE_IDENT 1 -
record_end - =61 1:VALUE_OFFSET
= json {}
record_begin - =61 - -
record_value_begin - =62
null
record_value_end - =63
= bad-call 4

# Tuples.
tuple_begin - =54 - -
tuple_end - =54 -
= json []
tuple_begin - - - 2
tuple_value_begin - 0:VALUE_OFFSET
null
tuple_value_end - 0
tuple_value_begin - 1:VALUE_OFFSET
tuple_begin - =54 - -
tuple_value_begin - 0:VALUE_OFFSET
u8 7
tuple_value_end - 0
tuple_end - =54 -
tuple_value_end - 1
tuple_end - - -
= json [null,[7]]
tuple_begin - - 1 -
tuple_end - - 2
= bad-call 2
tuple_begin - - - -
tuple_value_begin - 0
null
tuple_value_end - 1
= bad-call 4
tuple_begin - - - -
record_value_begin - =61
= bad-call 2

# Sequences.
seq_begin 0
seq_end
= json []
seq_begin -
seq_value_begin
i64 -7
seq_value_end
seq_end
= json [-7]
seq_begin 3
seq_value_begin
null
seq_value_end
seq_value_begin
text_begin -
text_end
seq_value_end
seq_value_begin
bool false
seq_value_end
seq_end
= json [null,"",false]
seq_begin -
seq_value_begin
seq_begin -
seq_end
seq_value_end
seq_value_begin
seq_begin -
seq_end
seq_value_end
seq_end
= json [[],[]]
seq_begin -
seq_value_begin
seq_begin -
seq_value_begin
seq_begin -
seq_end
seq_value_end
seq_end
seq_value_end
seq_end
= json [[[]]]
seq_begin -
seq_value_begin
seq_begin -
seq_value_begin
seq_begin -
seq_value_begin
i64 1
seq_value_end
seq_value_begin
i64 2
seq_value_end
seq_end
seq_value_end
seq_value_begin
i64 3
seq_value_end
seq_end
seq_value_end
seq_value_begin
i64 4
seq_value_end
seq_end
= json [[[1,2],3],4]

# Binaries.
binary_begin 2
binary_fragment =00ff
binary_end
= json [0,255]
binary_begin -
binary_fragment =01
binary_fragment_computed =80fe
binary_fragment =
binary_end
= json [1,128,254]
binary_begin 0
binary_end
= json []
binary_begin 2
binary_fragment =00ff01
= bad-call 2
binary_begin 2
text_fragment =00
= bad-call 2
binary_begin 2
binary_fragment =0
= bad-line 2

# A log event.
record_tuple_begin - =4576656e74:VALUE_IDENT - 5
record_tuple_value_begin - =7473:VALUE_IDENT 0:VALUE_OFFSET
text_begin 20
text_fragment =323032342d30312d30325430333a30343a30355a
text_end
record_tuple_value_end - =7473:VALUE_IDENT 0:VALUE_OFFSET
record_tuple_value_begin - =6c766c:VALUE_IDENT 1:VALUE_OFFSET
enum_begin - =4c6576656c:VALUE_IDENT -
tag - =496e666f:VALUE_IDENT 1:VALUE_OFFSET
enum_end - =4c6576656c:VALUE_IDENT -
record_tuple_value_end - =6c766c:VALUE_IDENT 1:VALUE_OFFSET
record_tuple_value_begin - =6d7367:VALUE_IDENT 2:VALUE_OFFSET
text_begin -
text_fragment =7573657220
text_fragment_computed =6c6f67696e
text_end
record_tuple_value_end - =6d7367:VALUE_IDENT 2:VALUE_OFFSET
record_tuple_value_begin - =75736572:VALUE_IDENT 3:VALUE_OFFSET
tagged_begin RUST_OPTION_SOME =536f6d65:VALUE_IDENT 1:VALUE_OFFSET
u64 42
tagged_end RUST_OPTION_SOME =536f6d65:VALUE_IDENT 1:VALUE_OFFSET
record_tuple_value_end - =75736572:VALUE_IDENT 3:VALUE_OFFSET
record_tuple_value_begin - =657272:VALUE_IDENT 4:VALUE_OFFSET
tag RUST_OPTION_NONE =4e6f6e65:VALUE_IDENT 0:VALUE_OFFSET
record_tuple_value_end - =657272:VALUE_IDENT 4:VALUE_OFFSET
record_tuple_end - =4576656e74:VALUE_IDENT -
= json {"ts":"2024-01-02T03:04:05Z","lvl":"Info","msg":"user login","user":42,"err":null}

# Hints leave no trace.
text_begin 2
text_fragment =61
tag_hint NUMBER
text_fragment =62
text_end
= json "ab"
tag_hint JSON_VALUE
seq_begin -
tag_hint RUST_UNIT
seq_end
tag_hint NUMBER
= json []
tag_hint NUMBER
= unfinished
tag_hint -
= bad-line 1
"#;
