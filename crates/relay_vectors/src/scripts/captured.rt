//! Calls that no value goes on with, captured.

/// Rows as [`try_rows`](crate::rows::try_rows) reads them.
pub(super) const ROWS: &'static str = r#"
# Containers and texts without an end, and with sizes that don't fit.
map_begin -
null
= captured false, no error: map_begin -␊map_end␊null␊
seq_begin 9
= captured false, no error: seq_begin 9␊seq_end␊
seq_begin 9
seq_end
= captured true, no error: seq_begin 9␊seq_end␊
map_begin -
map_end
= captured true, no error: map_begin -␊map_end␊
text_begin 9
= captured false, no error: text_begin 0␊text_fragment =␊text_end␊
text_begin 9
text_end
= captured true, no error: text_begin 0␊text_fragment =␊text_end␊
binary_begin -
binary_fragment =61
= captured false, no error: binary_begin 1␊binary_fragment =61␊binary_end␊
binary_begin -
binary_end
binary_fragment =61
= captured true, no error: binary_begin 1␊binary_fragment =61␊binary_end␊
text_end
= captured false, no error: null␊
tag_hint NUMBER
= captured true, no error: tag_hint NUMBER␊

# Ends that aren't those of what is open.
seq_begin -
map_end
= captured true, no error: seq_begin -␊seq_end␊
enum_begin - =45 -
record_end - - -
= captured true, no error: enum_begin - =45 -␊enum_end - =45 -␊
record_begin - =45 - 1
map_key_end
= captured true, no error: record_begin - =45 - 1␊record_end - =45 -␊
map_end
= captured false, InvalidValue { reason: Unbalanced }: null␊
enum_end - =45 -
= captured false, InvalidValue { reason: Unbalanced }: null␊
null
map_key_end
null
= captured true, InvalidValue { reason: Unbalanced }: null␊null␊
seq_value_begin
map_key_begin
map_key_end
tagged_end - - -
= captured true, no error: seq_value_begin␊map_key_begin␊map_key_end␊seq_value_end␊

# Fragments behind what is no text, or no binary.
null
text_fragment =61
= captured true, OutsideContainer { method: Text }: null␊
binary_fragment_computed =61
= captured false, OutsideContainer { method: Binary }: null␊
text_begin -
binary_fragment =61
= captured false, OutsideContainer { method: Binary }: text_begin 0␊text_fragment =␊text_end␊
text_begin -
text_fragment =61
seq_begin -
text_fragment =62
= captured false, OutsideContainer { method: Text }: text_begin 1␊text_fragment =61␊text_end␊seq_begin -␊seq_end␊
text_begin -
tag_hint NUMBER
text_fragment =61
text_end
tag_hint RUST_UNIT
= captured true, no error: text_begin 1␊text_fragment =61␊text_end␊tag_hint RUST_UNIT␊

# Parts of values, and what is written of them.
seq_begin -
null
= captured false, no error: seq_begin -␊seq_end␊null␊
= captured-json []null
seq_end
= captured false, InvalidValue { reason: Unbalanced }: null␊
= captured-json null
␄
= captured false, no error: null␊
= captured-json null
"#;
