//! Sizes that are too small, too large and exact, at several depths.

/// Rows as [`try_rows`](crate::rows::try_rows) reads them.
pub(super) const ROWS: &'static str = r#"
# Sizes of texts.
text_begin 3
text_fragment =616263
text_end
= json "abc"
text_begin 3
text_fragment =61626364
text_end
= bad-call 2
text_begin 3
text_fragment =6162
text_end
= bad-call 3
text_begin 1
text_fragment =
text_end
= bad-call 3
text_begin 1
text_fragment =c3a9
text_end
= bad-call 2
text_begin 18446744073709551615
text_fragment =61
= unfinished
text_begin 18446744073709551616
= bad-line 1
text_begin 00
= bad-line 1

# Sizes of sequences.
seq_begin 0
seq_value_begin
= bad-call 2
seq_begin 1
seq_end
= bad-call 2
seq_begin 1
seq_value_begin
null
seq_value_end
seq_end
= json [null]
seq_begin 2
seq_value_begin
null
seq_value_end
seq_end
= bad-call 5
seq_begin 1
seq_value_begin
null
seq_value_end
seq_value_begin
null
seq_value_end
seq_end
= bad-call 5
seq_begin 18446744073709551615
= unfinished
seq_begin 18446744073709551616
= bad-line 1
seq_begin -1
= bad-line 1

# The sizes of sequences and texts inside others.
seq_begin 1
seq_value_begin
text_begin 1
text_fragment =61
text_end
seq_value_end
seq_end
= json ["a"]
seq_begin 1
seq_value_begin
text_begin 2
text_fragment =61
text_end
seq_value_end
seq_end
= bad-call 5
seq_begin 1
seq_value_begin
seq_begin 1
seq_value_begin
seq_begin 0
seq_end
seq_value_end
seq_end
seq_value_end
seq_end
= json [[[]]]
seq_begin 1
seq_value_begin
seq_begin 2
seq_value_begin
seq_begin 0
seq_end
seq_value_end
seq_end
seq_value_end
seq_end
= bad-call 8
seq_begin 1
seq_value_begin
seq_begin -
seq_value_begin
seq_begin 1
seq_value_begin
text_begin 1
text_fragment =
text_fragment =6162
= bad-call 9
seq_begin 1
seq_value_begin
seq_begin 0
seq_end
seq_value_end
seq_value_begin
= bad-call 6

# Sizes of texts in one and in two fragments.
text_begin 2
text_fragment =6162
text_end
= json "ab"
text_begin 1
text_fragment =6162
text_end
= bad-call 2
text_begin 3
text_fragment_computed =6162
text_end
= bad-call 3
text_begin -
text_fragment =6162
text_fragment_computed =63
text_end
= json "abc"
text_begin 18446744073709551615
text_fragment =6162
= unfinished
text_begin 18446744073709551615
text_fragment =6162
text_end
= bad-call 3

# The largest size of a sequence.
seq_begin 18446744073709551615
seq_value_begin
= unfinished
seq_begin 18446744073709551615
seq_end
= bad-call 2

# An inner sequence that is full, one without an end around it, and one that is short.
seq_begin 1
seq_value_begin
seq_begin 1
seq_value_begin
i64 -1
seq_value_end
seq_end
seq_value_end
seq_end
= json [[-1]]
seq_begin 1
seq_value_begin
seq_begin 1
seq_value_begin
i64 -1
seq_value_end
seq_end
seq_value_end
= unfinished
seq_begin 1
seq_value_begin
seq_begin 2
seq_value_begin
i64 -1
seq_value_end
seq_end
seq_value_end
seq_end
= bad-call 7
"#;
