//! Keys of maps.

/// Rows as [`try_rows`](crate::rows::try_rows) reads them.
pub(super) const ROWS: &'static str = r#"
# Keys are texts.
map_begin 1
map_key_begin
tagged_begin RUST_OPTION_SOME =536f6d65:VALUE_IDENT 1:VALUE_OFFSET
text_begin 1
text_fragment =6b
text_end
tagged_end RUST_OPTION_SOME =536f6d65 1
map_key_end
map_value_begin
record_begin - =52 - -
record_value_begin - =61
i32 1
record_value_end - =61
record_end - =52 -
map_value_end
map_end
= json {"k":{"a":1}}
= run calls: 0 map_begin -␊map_key_begin␊tagged_begin RUST_OPTION_SOME =536f6d65:VALUE_IDENT 1:VALUE_OFFSET␊text_begin 1␊text_fragment =6b␊text_end␊tagged_end RUST_OPTION_SOME =536f6d65:VALUE_IDENT 1:VALUE_OFFSET␊map_key_end␊map_value_begin␊record_begin - =52 - -␊record_value_begin - =61␊i32 1␊record_value_end - =61␊record_end - =52 -␊map_value_end␊map_end␊|
map_begin -
map_key_begin
null
map_key_end
map_value_begin
null
map_value_end
map_end
= json {"null":null}
map_begin -
map_key_begin
bool true
map_key_end
map_value_begin
null
map_value_end
map_end
= json {"true":null}
map_begin -
map_key_begin
i128 -1
map_key_end
map_value_begin
null
map_value_end
map_end
= json {"-1":null}
map_begin -
map_key_begin
text_begin 3
text_fragment =61220a
text_end
map_key_end
map_value_begin
null
map_value_end
map_end
= json {"a\"\n":null}
map_begin -
map_key_begin
tag - =61 -
map_key_end
map_value_begin
null
map_value_end
map_end
= json {"a":null}
map_begin -
map_key_begin
tag - - 7
map_key_end
map_value_begin
null
map_value_end
map_end
= json {"7":null}
map_begin -
map_key_begin
tag RUST_OPTION_NONE =61 -
map_key_end
map_value_begin
null
map_value_end
map_end
= json {"null":null}
map_begin -
map_key_begin
enum_begin - =4c -
enum_end - =4c -
map_key_end
map_value_begin
null
map_value_end
map_end
= json {"L":null}
map_begin -
map_key_begin
enum_begin - =4c -
tag - =22 -
enum_end - =4c -
map_key_end
map_value_begin
null
map_value_end
map_end
= json {"\"":null}
map_begin -
map_key_begin
tagged_begin NUMBER - -
text_begin -
text_fragment =2b303037
text_end
tagged_end NUMBER - -
map_key_end
map_value_begin
null
map_value_end
map_end
= json {"7":null}
map_begin -
map_key_begin
tagged_begin JSON_TEXT - -
text_begin -
text_fragment =612262
text_end
tagged_end JSON_TEXT - -
map_key_end
map_value_begin
null
map_value_end
map_end
= json {"a"b":null}
map_begin -
map_key_begin
tagged_begin JSON_NUMBER - -
text_begin -
text_fragment =3132
text_end
tagged_end JSON_NUMBER - -
map_key_end
map_value_begin
null
map_value_end
map_end
= json {"12":null}
map_begin -
map_key_begin
tagged_begin - =61 -
u8 1
tagged_end - =61 -
map_key_end
map_value_begin
null
map_value_end
map_end
= json {"1":null}
map_begin -
map_key_begin
tag_hint NUMBER
text_begin 1
text_fragment =61
text_end
map_key_end
map_value_begin
null
map_value_end
map_end
= json {"a":null}

# No keys.
map_begin -
map_key_begin
seq_begin -
seq_end
map_key_end
map_value_begin
null
map_value_end
map_end
= bad-key {"
map_begin -
map_key_begin
tagged_begin JSON_VALUE - -
text_begin -
text_fragment =
text_end
tagged_end JSON_VALUE - -
map_key_end
map_value_begin
null
map_value_end
map_end
= bad-key {"
map_begin -
map_key_begin
binary_begin -
binary_end
map_key_end
map_value_begin
null
map_value_end
map_end
= bad-key {"
map_begin -
map_key_begin
map_begin -
map_end
map_key_end
map_value_begin
null
map_value_end
map_end
= bad-key {"
map_begin -
map_key_begin
record_begin - - - -
record_end - - -
map_key_end
map_value_begin
null
map_value_end
map_end
= bad-key {"
map_begin -
map_key_begin
tuple_begin - =54 - -
tuple_end - =54 -
map_key_end
map_value_begin
null
map_value_end
map_end
= bad-key {"
map_begin -
map_key_begin
enum_begin - =45 -
record_begin - =56 - 1
record_value_begin - =61
i32 1
record_value_end - =61
record_end - =56 -
enum_end - =45 -
map_key_end
map_value_begin
null
map_value_end
map_end
= bad-key {"
map_begin -
map_key_begin
enum_begin - =45 -
tagged_begin - =56 -
null
tagged_end - =56 -
enum_end - =45 -
map_key_end
map_value_begin
null
map_value_end
map_end
= bad-key {"
map_begin -
map_key_begin
enum_begin - =45 -
enum_begin - =46 -
enum_end - =46 -
enum_end - =45 -
map_key_end
map_value_begin
null
map_value_end
map_end
= bad-key {"
map_begin -
map_key_begin
text_begin 1
text_fragment =61
text_end
map_key_end
map_value_begin
null
map_value_end
map_key_begin
seq_begin -
seq_end
map_key_end
map_value_begin
null
map_value_end
map_end
= bad-key {"a":null,"

# Names after keys.
map_begin -
map_key_begin
enum_begin - =45 -
tag - =61 -
enum_end - =45 -
map_key_end
map_value_begin
record_begin - =56 - 1
record_value_begin - =61
i32 1
record_value_end - =61
record_end - =56 -
map_value_end
map_end
= json {"a":{"a":1}}
map_begin -
map_key_begin
enum_begin - =45 -
enum_end - =45 -
map_key_end
map_value_begin
enum_begin - =45 -
record_begin - =56 - 1
record_value_begin - =61
i32 1
record_value_end - =61
record_end - =56 -
enum_end - =45 -
map_value_end
map_end
= inside {"E":{"V":{"a":1}}}
= beside {"E":{"variant":"V","value":{"a":1}}}
seq_begin -
seq_value_begin
map_begin -
map_key_begin
text_begin 1
text_fragment =61
text_end
map_key_end
map_value_begin
tagged_begin - =61 -
null
tagged_end - =61 -
map_value_end
map_end
seq_value_end
seq_end
= json [{"a":null}]
"#;
