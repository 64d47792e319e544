//! Texts, whole and in fragments.

/// Rows as [`try_rows`](crate::rows::try_rows) reads them.
pub(super) const ROWS: &'static str = r#"
# Escapes.
text_begin 8
text_fragment =225c00
text_fragment =
text_fragment =0a1f7fc3a9
text_end
= json "\"\\\u0000\n\u001f␡é"
text_begin 8
text_fragment =225c000a1f7fc3a9
text_end
= json "\"\\\u0000\n\u001f␡é"
text_begin -
text_fragment_computed =225C000A1F7FC3A9
text_end
= json "\"\\\u0000\n\u001f␡é"
text_begin -
text_fragment =22
text_fragment_computed =5c
text_fragment =00
text_fragment =0a
text_fragment_computed =1f
text_fragment =7f
text_fragment =c3a9
text_end
= json "\"\\\u0000\n\u001f␡é"
text_begin -
text_fragment =08090c0d2f
text_end
= json "\b\t\f\r/"

# Empty texts.
text_begin -
text_end
= json ""
text_begin 0
text_end
= json ""
text_begin 0
text_fragment =
text_fragment_computed =
text_end
= json ""
text_begin 1
text_fragment =61
text_fragment_computed =
text_fragment =
text_end
= json "a"

# Fields of texts.
text_begin -
text_fragment =4A4b
text_end
= json "JK"
text_begin -
text_fragment =c3
text_fragment =a9
text_end
= bad-line 2
text_begin -
text_fragment =6
text_end
= bad-line 2
text_begin -
text_fragment =6g
text_end
= bad-line 2
text_begin -
text_fragment =ff
text_end
= bad-line 2
text_begin -
text_fragment =eda080
text_end
= bad-line 2
text_begin -
text_fragment 61
text_end
= bad-line 2
text_begin -
text_fragment
text_end
= bad-line 2
text_begin -
text_fragment -
text_end
= bad-line 2
text_begin
text_end
= bad-line 1

# Escapes texts.
text_begin 0
text_fragment =
text_end
= json ""
text_begin -
text_fragment_computed =
text_end
= json ""
text_begin 1
text_fragment =61
text_end
= json "a"
text_begin -
text_fragment_computed =61
text_end
= json "a"
text_begin 1
text_fragment =22
text_end
= json "\""
text_begin -
text_fragment_computed =22
text_end
= json "\""
text_begin 1
text_fragment =5c
text_end
= json "\\"
text_begin -
text_fragment_computed =5c
text_end
= json "\\"
text_begin 1
text_fragment =2f
text_end
= json "/"
text_begin -
text_fragment_computed =2f
text_end
= json "/"
text_begin 1
text_fragment =08
text_end
= json "\b"
text_begin -
text_fragment_computed =08
text_end
= json "\b"
text_begin 1
text_fragment =09
text_end
= json "\t"
text_begin -
text_fragment_computed =09
text_end
= json "\t"
text_begin 1
text_fragment =0a
text_end
= json "\n"
text_begin -
text_fragment_computed =0a
text_end
= json "\n"
text_begin 1
text_fragment =0c
text_end
= json "\f"
text_begin -
text_fragment_computed =0c
text_end
= json "\f"
text_begin 1
text_fragment =0d
text_end
= json "\r"
text_begin -
text_fragment_computed =0d
text_end
= json "\r"
text_begin 1
text_fragment =00
text_end
= json "\u0000"
text_begin -
text_fragment_computed =00
text_end
= json "\u0000"
text_begin 1
text_fragment =0b
text_end
= json "\u000b"
text_begin -
text_fragment_computed =0b
text_end
= json "\u000b"
text_begin 1
text_fragment =1f
text_end
= json "\u001f"
text_begin -
text_fragment_computed =1f
text_end
= json "\u001f"
text_begin 1
text_fragment =7f
text_end
= json "␡"
text_begin -
text_fragment_computed =7f
text_end
= json "␡"
text_begin 2
text_fragment =c3a9
text_end
= json "é"
text_begin -
text_fragment_computed =c3a9
text_end
= json "é"
text_begin 6
text_fragment =612222620a63
text_end
= json "a\"\"b\nc"
text_begin -
text_fragment_computed =612222620a63
text_end
= json "a\"\"b\nc"

# Pieces that are escaped, empty, lent and computed.
text_begin -
text_fragment =6122
text_fragment =
text_fragment_computed =0a
text_fragment_computed =
text_fragment =c3a901
text_fragment_computed =7a
text_end
= json "a\"\né\u0001z"
seq_begin -
seq_value_begin
i64 -7
seq_value_end
seq_value_begin
text_begin -
text_fragment =6122
text_end
seq_value_end
seq_end
= json [-7,"a\""]
"#;
