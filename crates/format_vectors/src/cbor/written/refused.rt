//! Scripts that CBOR has no place for, or not for all, and why.

/// Rows, as [`super::Written`] says.
pub(super) const ROWS: &'static str = r#"
# Numbers that are not whole.
tagged_begin NUMBER - -
text_begin -
text_fragment =2d30
text_fragment =30312e35
text_fragment =30652b33
text_end
tagged_end NUMBER - -
= error NotInteger

tagged_begin NUMBER - -
text_begin -
text_fragment =333430323832333636393230393338343633343633333734363037343331373638323131343536
text_end
tagged_end NUMBER - -
= error NotInteger

tagged_begin NUMBER - -
text_begin -
text_fragment =312e
text_end
tagged_end NUMBER - -
= error Number

# Raw JSON, which has no place.
tagged_begin JSON_VALUE - -
text_begin -
text_fragment =5b312c20325d
text_end
tagged_end JSON_VALUE - -
= error Raw

map_begin 1
map_key_begin
tagged_begin JSON_TEXT - -
text_begin -
text_end
tagged_end JSON_TEXT - -
map_key_end
map_value_begin
null
map_value_end
map_end
= error Raw

map_begin 1
map_key_begin
tagged_begin JSON_VALUE - -
text_begin -
text_end
tagged_end JSON_VALUE - -
map_key_end
map_value_begin
null
map_value_end
map_end
= error Key

# Calls that are no value, and a key that is none.
seq_begin 1
= error Unfinished

null
null
= error BadCall { at: 2 }

seq_begin -
seq_value_begin
seq_end
= error BadCall { at: 3 }

map_begin -
map_key_begin
seq_begin -
seq_end
map_key_end
map_value_begin
null
map_value_end
map_end
= error Key
"#;
