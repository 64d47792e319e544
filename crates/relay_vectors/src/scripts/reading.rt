//! Lines, each right and each broken in one place, whatever they spell.

/// Rows as [`try_rows`](crate::rows::try_rows) reads them.
pub(super) const ROWS: &'static str = r#"
# Layout.
␠
= bad-line 1
null -
= bad-line 1
bool
= bad-line 1
bool true true
= bad-line 1
seq_begin - -
= bad-line 1
text_fragment = =
= bad-line 1
null
null
nil
none
= bad-line 3
nulll
= bad-line 1
u8
= bad-line 1
seq_value_begin
seq_value_end
seq_end
text_end
null
= lines

# Numbers.
i64 99999999999999999999999999
= bad-line 1
i64 --1
= bad-line 1
i64␠
= bad-line 1
i64 1a
= bad-line 1
bool true
bool false
= lines
bool -
= bad-line 1
seq_begin 0
text_begin 0
= lines
text_begin 18446744073709551615
= lines
seq_begin -
text_begin -
= lines
seq_begin
= bad-line 1
seq_begin -0
= bad-line 1
seq_begin 00
= bad-line 1

# Tags, labels and indexes, each in each form, and broken in one place.
tag_hint number
= bad-line 1
tag_hint NUMBERS
= bad-line 1
tag_hint VALUE_IDENT␠
= bad-line 1
tag_hint␠
= bad-line 1
tag_hint J
= bad-line 1
tag - =61 -
= lines
tag - =61:NUMBER -
= lines
tag - =61:NUMBER: -
= bad-line 1
tag - =61:NUMBER:NUMBER -
= bad-line 1
tag - :NUMBER -
= bad-line 1
tag - -:NUMBER -
= bad-line 1
tag - - 1:VALUE_OFFSET
= lines
tag - - 1:VALUE_OFFSETS
= bad-line 1
tag - - -1:VALUE_OFFSET
= lines
tag - - -:NUMBER
= bad-line 1
record_begin - - - 1
= lines
record_end - - - 1
= bad-line 1
record_value_begin - -
= bad-line 1
record_value_begin - =
= lines
tuple_value_begin - -
= bad-line 1
tuple_value_begin - 0
= lines
record_tuple_value_begin - =
= bad-line 1
record_tuple_value_begin - = 0
= lines

# Texts.
text_fragment =
= lines
text_fragment =C3A9
text_fragment_computed =c3a9
= lines
text_fragment =c3
text_fragment =a9
= bad-line 1
text_fragment =eda080
= bad-line 1
text_fragment =6
= bad-line 1
text_fragment =6g
= bad-line 1
text_fragment =61␠
= bad-line 1
text_fragment =6 61
= bad-line 1
text_fragment 61
= bad-line 1
text_fragment -
= bad-line 1
text_fragment
= bad-line 1
text_end =
= bad-line 1
binary_fragment =
= lines
binary_fragment =C3
binary_fragment_computed =c3
= lines
binary_fragment =6
= bad-line 1
binary_fragment =6g
= bad-line 1
"#;
