//! Numbers in texts.

/// Rows as [`try_rows`](crate::rows::try_rows) reads them.
pub(super) const ROWS: &'static str = r#"
# Numbers in pieces.
tagged_begin NUMBER - -
text_begin -
text_fragment =2d30
text_fragment_computed =30312e35
text_fragment =30652b33
text_end
tagged_end NUMBER - -
= json -1.50e+3
tagged_begin NUMBER - -
text_begin -
text_fragment =2d
text_fragment_computed =
text_fragment =30
text_fragment_computed =30
text_fragment =6535
text_end
tagged_end NUMBER - -
= json -0e5
tagged_begin NUMBER - -
text_begin -
text_fragment =2b
text_fragment_computed =303037
text_end
tagged_end NUMBER - -
= json 7
tagged_begin NUMBER - -
text_begin -
text_fragment =
text_fragment_computed =3132
text_fragment =
text_fragment_computed =2e
text_fragment =35
text_end
tagged_end NUMBER - -
= json 12.5
tagged_begin NUMBER - -
text_begin -
text_fragment =2d69
text_fragment_computed =6e66
text_end
tagged_end NUMBER - -
= json null

# Numbers lose what json has not.
tagged_begin NUMBER - -
text_begin -
text_fragment =306535
text_end
tagged_end NUMBER - -
= json 0e5
tagged_begin NUMBER - -
text_begin -
text_fragment =2d30
text_end
tagged_end NUMBER - -
= json 0
tagged_begin NUMBER - -
text_begin -
text_fragment =2d302e30
text_end
tagged_end NUMBER - -
= json -0.0
tagged_begin NUMBER - -
text_begin -
text_fragment =2b303037
text_end
tagged_end NUMBER - -
= json 7
tagged_begin NUMBER - -
text_begin -
text_fragment =2d3030
text_end
tagged_end NUMBER - -
= json 0
tagged_begin NUMBER - -
text_begin -
text_fragment =30
text_end
tagged_end NUMBER - -
= json 0
tagged_begin NUMBER - -
text_begin -
text_fragment =31
text_end
tagged_end NUMBER - -
= json 1
tagged_begin NUMBER - -
text_begin -
text_fragment =2d312e3530452d3033
text_end
tagged_end NUMBER - -
= json -1.50E-03
tagged_begin NUMBER - -
text_begin -
text_fragment =30302e3130
text_end
tagged_end NUMBER - -
= json 0.10

# Words are null.
tagged_begin NUMBER - -
text_begin -
text_fragment =2d696e66
text_end
tagged_end NUMBER - -
= json null
tagged_begin NUMBER - -
text_begin -
text_fragment =6e616e
text_end
tagged_end NUMBER - -
= json null
tagged_begin NUMBER - -
text_begin -
text_fragment =4e614e
text_end
tagged_end NUMBER - -
= json null
tagged_begin NUMBER - -
text_begin -
text_fragment =2b496e66696e697479
text_end
tagged_end NUMBER - -
= json null
tagged_begin NUMBER - -
text_begin -
text_fragment =7369676e616c
text_end
tagged_end NUMBER - -
= json null
tagged_begin NUMBER - -
text_begin -
text_fragment =4e78
text_end
tagged_end NUMBER - -
= json null

# No numbers.
tagged_begin NUMBER - -
text_begin -
text_fragment =312e
text_end
tagged_end NUMBER - -
= bad-number 1.
tagged_begin NUMBER - -
text_begin -
text_fragment =
text_end
tagged_end NUMBER - -
= bad-number
tagged_begin NUMBER - -
text_begin -
text_fragment =2d2d31
text_end
tagged_end NUMBER - -
= bad-number
tagged_begin NUMBER - -
text_begin -
text_fragment =c3a930
text_end
tagged_end NUMBER - -
= bad-number
tagged_begin NUMBER - -
text_begin -
text_fragment =6535
text_end
tagged_end NUMBER - -
= bad-number
tagged_begin NUMBER - -
text_begin -
text_fragment =2e35
text_end
tagged_end NUMBER - -
= bad-number
tagged_begin NUMBER - -
text_begin -
text_fragment =30783130
text_end
tagged_end NUMBER - -
= bad-number
tagged_begin NUMBER - -
text_begin -
text_fragment =3165
text_end
tagged_end NUMBER - -
= bad-number 1e
tagged_begin NUMBER - -
text_begin -
text_fragment =31652b
text_end
tagged_end NUMBER - -
= bad-number 1e+
tagged_begin NUMBER - -
text_begin -
text_fragment =3120
text_end
tagged_end NUMBER - -
= bad-number 1
tagged_begin NUMBER - -
text_begin -
text_fragment =2d
text_end
tagged_end NUMBER - -
= bad-number
tagged_begin NUMBER - -
text_begin -
text_fragment =2b
text_end
tagged_end NUMBER - -
= bad-number
tagged_begin NUMBER - -
text_begin -
text_fragment =312e2e32
text_end
tagged_end NUMBER - -
= bad-number 1.
tagged_begin NUMBER - -
text_begin -
text_fragment =313261
text_end
tagged_end NUMBER - -
= bad-number 12

# Prefixes of a number.
tagged_begin NUMBER - -
text_begin -
text_fragment =2d31
text_end
tagged_end NUMBER - -
= json -1
tagged_begin NUMBER - -
text_begin -
text_fragment =2d3132
text_end
tagged_end NUMBER - -
= json -12
tagged_begin NUMBER - -
text_begin -
text_fragment =2d31322e
text_end
tagged_end NUMBER - -
= bad-number -12.
tagged_begin NUMBER - -
text_begin -
text_fragment =2d31322e35
text_end
tagged_end NUMBER - -
= json -12.5
tagged_begin NUMBER - -
text_begin -
text_fragment =2d31322e3530
text_end
tagged_end NUMBER - -
= json -12.50
tagged_begin NUMBER - -
text_begin -
text_fragment =2d31322e353065
text_end
tagged_end NUMBER - -
= bad-number -12.50e
tagged_begin NUMBER - -
text_begin -
text_fragment =2d31322e3530652b
text_end
tagged_end NUMBER - -
= bad-number -12.50e+
tagged_begin NUMBER - -
text_begin -
text_fragment =2d31322e3530652b30
text_end
tagged_end NUMBER - -
= json -12.50e+0
tagged_begin NUMBER - -
text_begin -
text_fragment =2d31322e3530652b3033
text_end
tagged_end NUMBER - -
= json -12.50e+03

# A number with a letter behind it.
tagged_begin NUMBER - -
text_begin -
text_fragment =3178
text_end
tagged_end NUMBER - -
= bad-number 1
"#;
