//! Scripts in styles that are asked for, and the CBOR that is written of them.

/// Rows, as [`super::Written`] says.
pub(super) const ROWS: &'static str = r#"
# Binaries as byte strings and as arrays of numbers. The first two byte strings are examples of RFC 8949, appendix A.
binary_begin -
binary_end
= strings cbor 40
= cbor 9fff

binary_begin 4
binary_fragment =01020304
binary_end
= strings cbor 4401020304
= cbor 9f01020304ff

binary_begin -
binary_fragment =0102
binary_fragment_computed =03ff
binary_end
= strings cbor 44010203ff
= cbor 9f01020318ffff

binary_begin -
binary_fragment =000102030405060708090a0b0c0d0e0f1011121314151617
binary_end
= strings cbor 5818000102030405060708090a0b0c0d0e0f1011121314151617
= cbor 9f000102030405060708090a0b0c0d0e0f1011121314151617ff

seq_begin 1
seq_value_begin
binary_begin 2
binary_fragment =00ff
binary_end
seq_value_end
seq_end
= strings cbor 9f4200ffff
= cbor 9f9f0018ffffff

enum_begin - =45 -
tagged_begin - =56 -
binary_begin -
binary_fragment =61
binary_end
tagged_end - =56 -
enum_end - =45 -
= strings cbor bf61564161ff
= cbor bf61569f1861ffff

text_begin -
text_fragment =61
text_end
= strings cbor 6161

@ two_keys
= strings cbor bf6130f46131f5ff

map_begin -
map_key_begin
binary_begin -
binary_end
map_key_end
map_value_begin
null
map_value_end
map_end
= strings error Key
= error Key

seq_begin 1
= strings error Unfinished

tagged_begin NUMBER - -
text_begin -
text_fragment =312e35
text_end
tagged_end NUMBER - -
= strings error NotInteger

# Arrays and maps of definite length, some of them examples of RFC 8949, appendix A. A size that calls don't tell is
# counted, and a variant with its name is a map of one pair.
seq_begin -
seq_end
= definite cbor 80
= counted cbor 80
= strings cbor 9fff

seq_begin 0
seq_end
= definite cbor 80

map_begin -
map_end
= definite cbor a0

seq_begin -
seq_value_begin
u8 1
seq_value_end
seq_value_begin
seq_begin -
seq_value_begin
u8 2
seq_value_end
seq_value_begin
u8 3
seq_value_end
seq_end
seq_value_end
seq_value_begin
seq_begin 2
seq_value_begin
u8 4
seq_value_end
seq_value_begin
u8 5
seq_value_end
seq_end
seq_value_end
seq_end
= definite cbor 8301820203820405

@ two_keys
= definite cbor a26130f46131f5
= counted cbor a26130f46131f5

record_begin - =52 - 2
record_value_begin - =61
u8 1
record_value_end - =61
record_value_begin - =62
seq_begin -
seq_value_begin
u8 2
seq_value_end
seq_value_begin
u8 3
seq_value_end
seq_end
record_value_end - =62
record_end - =52 -
= definite cbor a26161016162820203

binary_begin -
binary_fragment =01
binary_fragment =02ff
binary_end
= definite cbor 430102ff
= counted cbor 83010218ff

binary_begin -
binary_end
= definite cbor 40
= counted cbor 80

enum_begin - =45 -
record_begin - =56 - 1
record_value_begin - =61
i32 1
record_value_end - =61
record_end - =56 -
enum_end - =45 -
= definite cbor a16156a1616101

enum_begin - =4f -
enum_begin - =45 -
tagged_begin - - 7
seq_begin -
seq_value_begin
enum_begin - =4c -
enum_end - =4c -
seq_value_end
seq_end
tagged_end - - 7
enum_end - =45 -
enum_end - =4f -
= definite cbor a16145a1613781614c

map_begin -
map_key_begin
enum_begin - =4c -
enum_end - =4c -
map_key_end
map_value_begin
map_begin -
map_end
map_value_end
map_end
= definite cbor a1614ca0

map_begin -
map_key_begin
seq_begin -
seq_end
map_key_end
map_value_begin
null
map_value_end
map_end
= definite error Key

seq_begin 1
= definite error Unfinished
"#;
