//! Texts that are written unchanged, and what tags promise of them.

/// Rows as [`try_rows`](crate::rows::try_rows) reads them.
pub(super) const ROWS: &'static str = r#"
# Texts as they are.
tagged_begin JSON_VALUE - -
text_begin -
text_fragment =5b312c20325d
text_end
tagged_end JSON_VALUE - -
= json [1, 2]
tagged_begin JSON_VALUE - -
text_begin -
text_fragment =7b2261223a
text_fragment_computed =317d
text_end
tagged_end JSON_VALUE - -
= json {"a":1}
tagged_begin JSON_TEXT - -
text_begin -
text_fragment =615c6e62
text_end
tagged_end JSON_TEXT - -
= json "a\nb"
tagged_begin JSON_NUMBER - -
text_begin -
text_fragment =312e3530
text_end
tagged_end JSON_NUMBER - -
= json 1.50
tagged_begin JSON_TEXT - -
text_begin -
text_fragment =
text_end
tagged_end JSON_TEXT - -
= json ""

# Promises that are not kept.
tagged_begin JSON_VALUE - -
text_begin -
text_fragment =5b312c
text_end
tagged_end JSON_VALUE - -
= json [1,
tagged_begin JSON_TEXT - -
text_begin -
text_fragment =612262
text_end
tagged_end JSON_TEXT - -
= json "a"b"
tagged_begin JSON_NUMBER - -
text_begin -
text_fragment =78
text_end
tagged_end JSON_NUMBER - -
= json x
record_begin - - - -
record_value_begin - =22:VALUE_IDENT
null
record_value_end - =22:VALUE_IDENT
record_end - - -
= json {""":null}

# Raw texts in variants.
enum_begin - =45 -
tagged_begin NUMBER =4e -
text_begin 2
text_fragment =3031
text_end
tagged_end NUMBER =4e -
enum_end - =45 -
= inside {"N":1}
= beside {"variant":"N","value":1}
enum_begin - =45 -
tagged_begin JSON_NUMBER =4e -
text_begin -
text_fragment =31
text_end
tagged_end JSON_NUMBER =4e -
enum_end - =45 -
= inside {"N":1}
= beside {"variant":"N","value":1}
enum_begin - =45 -
tagged_begin JSON_VALUE =4e -
text_begin -
text_fragment =5b5d
text_end
tagged_end JSON_VALUE =4e -
enum_end - =45 -
= inside {"N":[]}
= beside {"variant":"N","value":[]}
enum_begin - =45 -
tagged_begin JSON_TEXT =4e -
text_begin -
text_fragment =6122
text_end
tagged_end JSON_TEXT =4e -
enum_end - =45 -
= inside {"N":"a""}
= beside {"variant":"N","value":"a""}

# Raw values hold one text.
tagged_begin NUMBER - -
i32 1
= bad-call 2
tagged_begin JSON_VALUE - -
seq_begin -
= bad-call 2
tagged_begin JSON_TEXT - -
tagged_begin - - -
= bad-call 2
tagged_begin NUMBER - -
text_begin -
text_fragment =31
text_end
text_begin -
= bad-call 5
tagged_begin JSON_NUMBER - -
tagged_end JSON_NUMBER - -
= bad-call 2
"#;
