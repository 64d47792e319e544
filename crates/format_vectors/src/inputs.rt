//! Inputs that several tables have, by their names.

/// A record with a record, a sequence, a truth value and a text in it.
const RECORD: &'static str = r#"record_begin - =52 - 3
record_value_begin - =61
record_begin - - - 2
record_value_begin - =62
seq_begin 2
seq_value_begin
i64 1
seq_value_end
seq_value_begin
i8 -2
seq_value_end
seq_end
record_value_end - =62
record_value_begin - =63
null
record_value_end - =63
record_end - - -
record_value_end - =61
record_value_begin - =62
bool true
record_value_end - =62
record_value_begin - =63
text_begin -
text_fragment =78
text_fragment_computed =0a
text_end
record_value_end - =63
record_end - =52 -
"#;

/// A record with a text, a number and a variant. Its first field's name, the number and the variant's label have `$`
/// digits, and its text has twice as many.
const LONG: &'static str = r#"record_begin - - - 3
record_value_begin - =¦$*33¦¦$*33¦
text_begin -
text_fragment =¦$*33¦¦$*33¦
text_fragment_computed =¦$*33¦¦$*33¦
text_end
record_value_end - =¦$*33¦¦$*33¦
record_value_begin - =34
tagged_begin NUMBER - -
text_begin $
text_fragment =¦$*33¦¦$*33¦
text_end
tagged_end NUMBER - -
record_value_end - =34
record_value_begin - =35
enum_begin - - -
tagged_begin - =¦$*33¦¦$*33¦ -
null
tagged_end - =¦$*33¦¦$*33¦ -
enum_end - - -
record_value_end - =35
record_end - - -
"#;

/// The record of `LONG` without its number.
const LONG_TEXTS: &'static str = r#"record_begin - - - 2
record_value_begin - =¦$*33¦¦$*33¦
text_begin -
text_fragment =¦$*33¦¦$*33¦
text_fragment_computed =¦$*33¦¦$*33¦
text_end
record_value_end - =¦$*33¦¦$*33¦
record_value_begin - =35
enum_begin - - -
tagged_begin - =¦$*33¦¦$*33¦ -
null
tagged_end - =¦$*33¦¦$*33¦ -
enum_end - - -
record_value_end - =35
record_end - - -
"#;

/// A sequence of a number and a map whose key is a sequence.
const BAD_KEY: &'static str = r#"seq_begin -
seq_value_begin
u8 1
seq_value_end
seq_value_begin
map_begin -
map_key_begin
seq_begin -
seq_end
map_key_end
map_value_begin
null
map_value_end
map_end
seq_value_end
seq_end
"#;

/// A map of truth values with numbers as keys.
const TWO_KEYS: &'static str = r#"map_begin 2
map_key_begin
i32 0
map_key_end
map_value_begin
bool false
map_value_end
map_key_begin
i32 1
map_key_end
map_value_begin
bool true
map_value_end
map_end
"#;

/// The lines of an input, or of another name none.
pub(crate) fn lines_of(name: &str) -> &'static str {
    match name {
        "record" => RECORD,
        "long" => LONG,
        "long_texts" => LONG_TEXTS,
        "bad_key" => BAD_KEY,
        "two_keys" => TWO_KEYS,
        _ => "",
    }
}
