//! The fields of lines, each right and each broken in one place.

/// Rows as [`try_rows`](crate::rows::try_rows) reads them.
pub(super) const ROWS: &'static str = r#"
# Tags.
tag RUST_OPTION_SOME - -
= json null
tag RUST_OPTION_NONE - -
= json null
tag NUMBER - -
= json null
tag CONSTANT_SIZE - -
= json null
tag VALUE_IDENT - -
= json null
tag VALUE_OFFSET - -
= json null
tag JSON_VALUE - -
= json null
tag JSON_TEXT - -
= json null
tag JSON_NUMBER - -
= json null
tag NUMBE - -
= bad-line 1
tag NUMBERS - -
= bad-line 1
tag number - -
= bad-line 1
tag RUST_OPTION - -
= bad-line 1
tag VALUE_INDEX - -
= bad-line 1
tag  - -
= bad-line 1
tag JSON - -
= bad-line 1
tag -- - -
= bad-line 1

# Labels.
tag - = -
= json ""
tag - =6161:NUMBER -
= json "aa"
tag - =6A:NUMBER -
= json "j"
tag - 61 -
= bad-line 1
tag - =6 -
= bad-line 1
tag - =6g -
= bad-line 1
tag - =ff -
= bad-line 1
tag - =61: -
= bad-line 1
tag - =61:X -
= bad-line 1
tag - =61:- -
= bad-line 1
tag - == -
= bad-line 1
tag - =61NUMBER -
= bad-line 1
tag -  -
= bad-line 1
record_begin - - - -
record_value_begin - -
= bad-line 2

# Indexes.
tag - - 0
= json 0
tag - - -1
= json -1
tag - - 7:VALUE_OFFSET
= json 7
tag - - -9223372036854775809
= bad-line 1
tag - - 18446744073709551616
= bad-line 1
tag - - 01
= bad-line 1
tag - - -0
= bad-line 1
tag - - +1
= bad-line 1
tag - - 7:
= bad-line 1
tag - - 7:X
= bad-line 1
tag - - 7:-
= bad-line 1
tag - - 1.
= bad-line 1
tag - -␠
= bad-line 1
tag - - -␠
= bad-line 1
tuple_begin - - - -
tuple_value_begin - -
= bad-line 2

# Labels that come again: two that differ in one byte, one of 16 bytes, one of 17 and one of 24.
record_begin - - - 7
record_value_begin - =6161
null
record_value_end - =6161
record_value_begin - =6171
null
record_value_end - =6171
record_value_begin - =61616161616161616161616161616161
null
record_value_end - =61616161616161616161616161616161
record_value_begin - =6161616161616161616161616161616161
null
record_value_end - =6161616161616161616161616161616161
record_value_begin - =616161616161616161616161616161616161616161616161
null
record_value_end - =616161616161616161616161616161616161616161616161
record_value_begin - =6161
null
record_value_end - =6161
record_value_begin - =6171
null
record_value_end - =6171
record_end - - -
= json {"aa":null,"aq":null,"aaaaaaaaaaaaaaaa":null,"aaaaaaaaaaaaaaaaa":null,"aaaaaaaaaaaaaaaaaaaaaaaa":null,"aa":null,"aq":null}
record_begin - - - 1
record_value_begin - =6161
null
record_value_end - =6171
= bad-call 4

# Lines that come again with other values, and others in their place.
seq_begin 5
seq_value_begin
record_tuple_begin - =41 - 1
record_tuple_value_begin - =61 7:VALUE_OFFSET
u64 1
record_tuple_value_end - =61 7:VALUE_OFFSET
record_tuple_end - =41 -
seq_value_end
seq_value_begin
record_tuple_begin - =41 - 1
record_tuple_value_begin - =61 7:VALUE_OFFSET
u64 2
record_tuple_value_end - =61 7:VALUE_OFFSET
record_tuple_end - =41 -
seq_value_end
seq_value_begin
record_tuple_begin - =41 - 1
record_tuple_value_begin - =62 8:VALUE_OFFSET
u64 3
record_tuple_value_end - =62 8:VALUE_OFFSET
record_tuple_end - =41 -
seq_value_end
seq_value_begin
record_tuple_begin - =41 - 1
record_tuple_value_begin - =61 7:VALUE_OFFSET
u64 4
record_tuple_value_end - =61 7:VALUE_OFFSET
record_tuple_end - =41 -
seq_value_end
seq_value_begin
record_tuple_begin - =41 - 1
record_tuple_value_begin - =62 7:VALUE_OFFSET
u64 5
record_tuple_value_end - =62 7:VALUE_OFFSET
record_tuple_end - =41 -
seq_value_end
seq_end
= json [{"a":1},{"a":2},{"b":3},{"a":4},{"b":5}]
seq_begin -
seq_value_begin
null
seq_value_end
seq_value_begin
null
seq_value_end
seq_value_begin
null
seq_value_end
seq_value_begin 
= bad-line 11

# Fields of named calls.
tag - -
= bad-line 1
tag - - - -
= bad-line 1
enum_begin - -
= bad-line 1
record_begin - - -
= bad-line 1
record_begin - - - 01
= bad-line 1
record_end - - - -
= bad-line 1
tag_hint
= bad-line 1
tag_hint NUMBER NUMBER
= bad-line 1
map_begin
= bad-line 1
map_key_begin -
= bad-line 1
binary_fragment 61
= bad-line 1
record_tuple_begin - - - -
record_tuple_value_begin - =61
= bad-line 2
f64 1
= bad-line 1
"#;
