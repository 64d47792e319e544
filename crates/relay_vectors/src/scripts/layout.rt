//! Which lines are calls, and which calls are a value.

/// Rows as [`try_rows`](crate::rows::try_rows) reads them.
pub(super) const ROWS: &'static str = r#"
# One value.
␄
= unfinished
null
= json null
null
null
= second 2
null
bool true
null
= second 2
seq_end
= bad-call 1
text_begin -
= unfinished
text_begin -
null
= bad-call 2
seq_begin -
null
= bad-call 2
seq_begin -
seq_value_begin
seq_value_end
= bad-call 3

# A bad line comes before a bad call, wherever it stands.
null
null
nil
= bad-line 3
seq_end
null␄
= bad-line 2
seq_begin -
␊␄
null
nil
= bad-line 2

# Layout of lines.
null␄
= bad-line 1
null
null␄
= bad-line 2
␊␄
= bad-line 1
null
␊␄
= bad-line 2
null␠
= bad-line 1
␠null
= bad-line 1
null␍
= bad-line 1
i64  1
= bad-line 1
i64␉1
= bad-line 1
i64 1␠
= bad-line 1
i64 1 1
= bad-line 1
i64
= bad-line 1
null 1
= bad-line 1
u24 1
= bad-line 1
Null
= bad-line 1
nul
= bad-line 1
␀
= bad-line 1

# Ends of what is not open.
text_end
= bad-call 1
bool true
seq_end
= bad-call 2
seq_begin -
= unfinished
null
nil
= bad-line 2
null
null
nul
= bad-line 3
"#;
