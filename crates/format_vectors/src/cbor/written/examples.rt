//! Scripts in the default style, and the CBOR that is written of them.

/// Rows, as [`super::Written`] says.
pub(super) const ROWS: &'static str = r#"
# RFC 8949, appendix A, as far as the profile has them.
u8 0
= cbor 00

u8 1
= cbor 01

u8 10
= cbor 0a

u8 23
= cbor 17

u8 24
= cbor 1818

u8 25
= cbor 1819

u8 100
= cbor 1864

u16 1000
= cbor 1903e8

u32 1000000
= cbor 1a000f4240

u64 1000000000000
= cbor 1b000000e8d4a51000

u64 18446744073709551615
= cbor 1bffffffffffffffff

u128 18446744073709551616
= cbor c249010000000000000000

i128 -18446744073709551616
= cbor 3bffffffffffffffff

i128 -18446744073709551617
= cbor c349010000000000000000

i8 -1
= cbor 20

i8 -10
= cbor 29

i8 -100
= cbor 3863

i16 -1000
= cbor 3903e7

bool false
= cbor f4

bool true
= cbor f5

null
= cbor f6

text_begin -
text_end
= cbor 60

text_begin -
text_fragment =61
text_end
= cbor 6161

text_begin -
text_fragment =49455446
text_end
= cbor 6449455446

text_begin -
text_fragment =225c
text_end
= cbor 62225c

text_begin -
text_fragment =c3bc
text_end
= cbor 62c3bc

text_begin -
text_fragment =e6b0b4
text_end
= cbor 63e6b0b4

seq_begin -
seq_end
= cbor 9fff

# Maps and their keys.
@ two_keys
= cbor bf6130f46131f5ff

record_begin - =52 - 1
record_value_begin - =61
i32 1
record_value_end - =61
record_end - =52 -
= cbor bf616101ff

map_begin -
map_key_begin
tagged_begin NUMBER - -
text_begin -
text_fragment =2b30
text_fragment =30372e35
text_end
tagged_end NUMBER - -
map_key_end
map_value_begin
null
map_value_end
map_end
= cbor bf63372e35f6ff

# Numbers of 128 bits, and binaries.
seq_begin 2
seq_value_begin
u128 340282366920938463463374607431768211455
seq_value_end
seq_value_begin
i128 -170141183460469231731687303715884105728
seq_value_end
seq_end
= cbor 9fc250ffffffffffffffffffffffffffffffffc3507fffffffffffffffffffffffffffffffff

binary_begin 2
binary_fragment =00ff
binary_end
= cbor 9f0018ffff

binary_begin -
binary_fragment =00
binary_fragment =ff
binary_end
= cbor 9f0018ffff

i64 -1
= cbor 20

u16 256
= cbor 190100

# Numbers that come as text.
enum_begin - =45 -
tagged_begin NUMBER =4e -
text_begin 2
text_fragment =3031
text_end
tagged_end NUMBER =4e -
enum_end - =45 -
= cbor bf614e01ff

tagged_begin NUMBER - -
text_begin -
text_fragment =2d
text_fragment =30313030
text_end
tagged_end NUMBER - -
= cbor 3863

tagged_begin NUMBER - -
text_begin -
text_fragment =2d30
text_end
tagged_end NUMBER - -
= cbor 00

tagged_begin NUMBER - -
text_begin -
text_fragment =6e616e
text_end
tagged_end NUMBER - -
= cbor f6

# Texts of several fragments. Each is written as one text string.
text_begin -
text_fragment =61
text_fragment_computed =62
text_end
= cbor 626162

text_begin 2
text_fragment =
text_fragment =6162
text_end
= cbor 626162

# Variants with names.
enum_begin - =4c -
enum_end - =4c -
= cbor 614c

enum_begin - =45 -
record_begin - =56 - 1
record_value_begin - =61
i32 1
record_value_end - =61
record_end - =56 -
enum_end - =45 -
= cbor bf6156bf616101ffff

enum_begin - =45 -
tagged_begin - - 7
bool true
tagged_end - - 7
enum_end - =45 -
= cbor bf6137f5ff

tag RUST_OPTION_NONE =4e -
= cbor f6

tag - - 300
= cbor 19012c
"#;
