//! Calls that no value goes on with.

/// Rows as [`try_rows`](crate::rows::try_rows) reads them.
pub(super) const ROWS: &'static str = r#"
# Texts and binaries.
text_fragment =61
= bad-call 1
binary_fragment_computed =61
= bad-call 1
binary_end
= bad-call 1
text_begin -
text_begin -
= bad-call 2
text_begin -
binary_fragment =61
= bad-call 2
text_begin -
binary_end
= bad-call 2
text_begin -
seq_begin -
= bad-call 2
text_begin 0
text_fragment_computed =61
= bad-call 2
binary_begin -
text_fragment =61
= bad-call 2
binary_begin -
text_end
= bad-call 2
binary_begin 1
binary_fragment =6162
= bad-call 2
binary_begin 3
binary_fragment =61
binary_end
= bad-call 3
binary_begin 18446744073709551615
binary_end
= bad-call 2

# Sequences and maps.
tag_hint NUMBER
tag_hint NUMBER
text_end
= bad-call 3
seq_value_end
= bad-call 1
seq_begin -
map_end
= bad-call 2
seq_begin -
seq_value_begin
null
null
= bad-call 4
seq_begin -
seq_value_begin
null
seq_end
= bad-call 4
map_key_begin
= bad-call 1
map_begin -
seq_value_begin
= bad-call 2
map_begin 0
map_key_begin
= bad-call 2
map_begin 1
map_end
= bad-call 2
map_begin -
map_key_begin
map_key_end
= bad-call 3
map_begin -
map_key_begin
null
map_value_begin
= bad-call 4
map_begin -
map_key_begin
null
map_key_end
map_key_begin
= bad-call 5
map_begin -
map_key_begin
null
map_key_end
map_value_begin
map_value_end
= bad-call 6
map_begin 1
map_key_begin
null
map_key_end
map_value_begin
null
map_value_end
map_key_begin
= bad-call 8

# Records, tuples and record tuples.
record_value_begin - =61
= bad-call 1
record_begin - - - -
map_key_begin
= bad-call 2
record_begin - - - -
tuple_end - - -
= bad-call 2
record_begin - - - -
record_tuple_value_begin - =61 0
= bad-call 2
record_begin - - - 0
record_value_begin - =61
= bad-call 2
record_begin - - - -
record_end RUST_UNIT - -
= bad-call 2
record_begin - - - -
record_value_begin - =61
record_value_end - =61
= bad-call 3
record_begin - - - -
record_value_begin NUMBER =61
null
record_value_end - =61
= bad-call 4
tuple_begin - - - 1
tuple_end - - -
= bad-call 2
tuple_begin - - - -
seq_value_begin
= bad-call 2
tuple_begin - - - -
tuple_value_begin - 0
null
tuple_value_end NUMBER 0
= bad-call 4
record_tuple_begin - - - -
record_value_begin - =61
= bad-call 2
record_tuple_begin - - - -
tuple_value_begin - 0
= bad-call 2
record_tuple_begin - - - -
record_tuple_value_begin - =61 0
null
record_tuple_value_end - =61 1
= bad-call 4
record_tuple_begin - - - -
record_tuple_value_begin - =61 0
null
record_tuple_value_end - =62 0
= bad-call 4

# Tags and enums.
tagged_end - - -
= bad-call 1
tagged_begin - - -
seq_value_begin
= bad-call 2
tagged_begin - =61 -
null
tagged_end - =62 -
= bad-call 3
tagged_begin - =61 -
null
tagged_end - - -
= bad-call 3
tagged_begin NUMBER - -
null
= bad-call 2
tagged_begin JSON_TEXT - -
binary_begin -
= bad-call 2
tagged_begin JSON_VALUE - -
text_begin -
text_end
null
= bad-call 4
tagged_begin JSON_NUMBER - -
enum_begin - - -
= bad-call 2
enum_end - - -
= bad-call 1
enum_begin - - -
binary_begin -
= bad-call 2
enum_begin - - -
u8 1
= bad-call 2
enum_begin - - -
enum_begin - - -
enum_end - - -
tag - - -
= bad-call 4
enum_begin - - -
tuple_begin - - - -
tuple_end - - -
null
= bad-call 4

# A second value, which is refused where one may come.
null
tag_hint NUMBER
null
= second 3
seq_begin -
seq_end
text_begin -
= second 3
tag - - -
tag - - -
= second 2
enum_begin - - -
tag - - -
enum_end - - -
enum_begin - - -
= second 4
text_begin -
text_end
binary_begin -
= second 3
"#;
