//! Truth values, numbers and sequences.

/// Rows as [`try_rows`](crate::rows::try_rows) reads them.
pub(super) const ROWS: &'static str = r#"
# Truth values.
bool true
= json true
bool false
= json false
bool True
= bad-line 1
bool 1
= bad-line 1

# Numbers.
i64 0
= json 0
i64 -1
= json -1
i64 10
= json 10
i64 18446744073709551616
= bad-line 1
i64 -0
= bad-line 1
i64 +1
= bad-line 1
i64 01
= bad-line 1
i64 -01
= bad-line 1
i64 -
= bad-line 1
i64 1e3
= bad-line 1

# Sequences.
seq_begin -
seq_end
= json []
seq_begin 2
seq_value_begin
i64 -7
seq_value_end
seq_value_begin
text_begin -
text_fragment =61
text_fragment_computed =0a62
text_end
seq_value_end
seq_end
= json [-7,"a\nb"]
seq_begin -
seq_value_begin
seq_begin -
seq_end
seq_value_end
seq_value_begin
bool false
seq_value_end
seq_value_begin
seq_begin -
seq_value_begin
null
seq_value_end
seq_end
seq_value_end
seq_end
= json [[],false,[null]]

# A number below 0.
i64 -7
= json -7
"#;
