//! Enums, tags and tagged values.

/// Rows as [`try_rows`](crate::rows::try_rows) reads them.
pub(super) const ROWS: &'static str = r#"
# Variants under their names.
enum_begin - =45 -
record_begin - =56 - 1
record_value_begin - =61
i32 1
record_value_end - =61
record_end - =56 -
enum_end - =45 -
= inside {"V":{"a":1}}
= beside {"variant":"V","value":{"a":1}}
record_begin - =56 - 1
record_value_begin - =61
i32 1
record_value_end - =61
record_end - =56 -
= json {"a":1}
enum_begin - =45 -
tagged_begin - =4e -
i32 1
tagged_end - =4e -
enum_end - =45 -
= inside {"N":1}
= beside {"variant":"N","value":1}
enum_begin - =45 -
tuple_begin - =54 - -
tuple_value_begin - 0:VALUE_OFFSET
u8 1
tuple_value_end - 0
tuple_value_begin - 1:VALUE_OFFSET
u8 2
tuple_value_end - 1
tuple_end - =54 -
enum_end - =45 -
= inside {"T":[1,2]}
= beside {"variant":"T","value":[1,2]}
enum_begin - =45 -
record_tuple_begin - =52 - -
record_tuple_value_begin - =61 0
null
record_tuple_value_end - =61 0
record_tuple_end - =52 -
enum_end - =45 -
= inside {"R":{"a":null}}
= beside {"variant":"R","value":{"a":null}}

# Variants without names.
enum_begin - =45 -
tagged_begin - - 9223372036854775808
bool true
tagged_end - - 9223372036854775808
enum_end - =45 -
= json true
enum_begin - =45 -
tagged_begin - - 7
bool true
tagged_end - - 7
enum_end - =45 -
= inside {"7":true}
= beside {"variant":"7","value":true}
enum_begin - =45 -
tagged_begin - - -9223372036854775808
bool true
tagged_end - - -9223372036854775808
enum_end - =45 -
= inside {"-9223372036854775808":true}
= beside {"variant":"-9223372036854775808","value":true}
enum_begin - =45 -
tagged_begin - - -
null
tagged_end - - -
enum_end - =45 -
= json null
enum_begin - - -
record_begin - =56 - 1
record_value_begin - =61
i32 1
record_value_end - =61
record_end - =56 -
enum_end - - -
= inside {"V":{"a":1}}
= beside {"variant":"V","value":{"a":1}}
enum_begin - =45 -
tagged_begin - =2209 -
null
tagged_end - =2209 -
enum_end - =45 -
= inside {"\"\t":null}
= beside {"variant":"\"\t","value":null}

# Enums in enums.
enum_begin - =4531 -
enum_begin - =4532 -
enum_end - =4532 -
enum_end - =4531 -
= inside {"E2":"E2"}
= beside {"variant":"E2","value":"E2"}
enum_begin - =45 -
enum_begin - - -
tagged_begin - =56 -
i32 1
tagged_end - =56 -
enum_end - - -
enum_end - =45 -
= inside {"V":1}
= beside {"variant":"V","value":1}
enum_begin - =45 -
enum_begin - =46 -
tagged_begin - =56 -
i32 1
tagged_end - =56 -
enum_end - =46 -
enum_end - =45 -
= inside {"F":{"V":1}}
= beside {"variant":"F","value":{"variant":"V","value":1}}
enum_begin - =45 -
enum_begin - - -
enum_end - - -
enum_end - =45 -
= json null
enum_begin - =45 -
enum_begin - =46 -
enum_begin - =47 -
record_begin - =56 - 1
record_value_begin - =61
i32 1
record_value_end - =61
record_end - =56 -
enum_end - =47 -
enum_end - =46 -
enum_end - =45 -
= inside {"F":{"G":{"V":{"a":1}}}}
= beside {"variant":"F","value":{"variant":"G","value":{"variant":"V","value":{"a":1}}}}
enum_begin - =45 -
enum_begin - - -
enum_begin - =47 -
enum_end - =47 -
enum_end - - -
enum_end - =45 -
= inside {"G":"G"}
= beside {"variant":"G","value":"G"}

# Empty enums.
enum_begin - =4c -
enum_end - =4c -
= json "L"
enum_begin - - -
enum_end - - -
= json null
enum_begin - - 5
enum_end - - 5
= json 5
enum_begin - - 9223372036854775808
enum_end - - 9223372036854775808
= json null

# Tags.
tag - =61 5
= json "a"
tag - - 5
= json 5
tag - - -
= json null
tag - - -9223372036854775808
= json -9223372036854775808
tag - - 18446744073709551615
= json null
tag RUST_OPTION_NONE =61 5
= json null
enum_begin - =45 -
tag - =61 -
enum_end - =45 -
= json "a"
tag RUST_UNIT - -
= json null
tag - =225c -
= json "\"\\"

# Tagged values.
tagged_begin - =61 -
null
tagged_end - =61 -
= json null
tagged_begin - =61 -
tagged_begin - =62 -
u8 1
tagged_end - =62 -
tagged_end - =61 -
= json 1
enum_begin - =45 -
tagged_begin - =61 -
tagged_begin - =62 -
u8 1
tagged_end - =62 -
tagged_end - =61 -
enum_end - =45 -
= inside {"a":1}
= beside {"variant":"a","value":1}
tagged_begin - =61 -
enum_begin - =45 -
record_begin - =56 - 1
record_value_begin - =61
i32 1
record_value_end - =61
record_end - =56 -
enum_end - =45 -
tagged_end - =61 -
= inside {"V":{"a":1}}
= beside {"variant":"V","value":{"a":1}}
seq_begin -
seq_value_begin
enum_begin - =45 -
record_begin - =56 - 1
record_value_begin - =61
i32 1
record_value_end - =61
record_end - =56 -
enum_end - =45 -
seq_value_end
seq_value_begin
enum_begin - =45 -
record_begin - =56 - 1
record_value_begin - =61
i32 1
record_value_end - =61
record_end - =56 -
enum_end - =45 -
seq_value_end
seq_end
= inside [{"V":{"a":1}},{"V":{"a":1}}]
= beside [{"variant":"V","value":{"a":1}},{"variant":"V","value":{"a":1}}]

# Enums hold variants alone.
enum_begin - - -
null
= bad-call 2
enum_begin - - -
seq_begin -
= bad-call 2
enum_begin - - -
map_begin -
= bad-call 2
enum_begin - - -
text_begin -
= bad-call 2
enum_begin - - -
tag - - -
tag - - -
= bad-call 3
enum_begin - =61 -
enum_end - =62 -
= bad-call 2
enum_begin NUMBER - -
enum_end - - -
= bad-call 2
enum_begin - - 1
enum_end - - -
= bad-call 2
tagged_begin - - -
tagged_end - - -
= bad-call 2
tagged_begin - - -
null
null
= bad-call 3

# A variant that holds a number.
enum_begin - - -
tagged_begin - =61 -
u64 7
tagged_end - =61 -
enum_end - - -
= inside {"a":7}
= beside {"variant":"a","value":7}
"#;
