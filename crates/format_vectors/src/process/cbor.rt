//! The program `sval_cbor`.

use crate::process::trying::try_rows;
use sval_cbor::WriteCbor;

/// Rows of each status, as [`crate::process::trying`] says. The last input is one byte longer than is read.
const ROWS: &'static str = r#"
@ record
= faults sval_cbor: 0 ¦bf6161bf61629f0121ff6163f6ff6162f5616362780aff¦|

u16 256
= faults sval_cbor: 0 ¦190100¦|

null
= faults sval_cbor json: 2 |usage: sval_cbor␊
= run sval_cbor ¦¦: 2 |usage: sval_cbor␊

null
nul
= faults sval_cbor: 3 |line 2: not a call␊

null
null
= faults sval_cbor: 4 |line 2: no value goes on with this call␊

seq_begin 1
= faults sval_cbor: 5 |the calls are not one whole value␊

␄
= faults sval_cbor: 5 |the calls are not one whole value␊

@ bad_key
= faults sval_cbor: 6 |attempt to serialize a non-string key␊

record_begin - - - 1
record_value_begin - =61
tagged_begin NUMBER - -
text_begin -
text_fragment =312e
text_end
tagged_end NUMBER - -
record_value_end - =61
record_end - - -
= faults sval_cbor: 7 |attempt to serialize an invalid number␊

tagged_begin JSON_VALUE - -
text_begin -
text_fragment =5b5d
text_end
tagged_end JSON_VALUE - -
= faults sval_cbor: 14 |attempt to write raw JSON as CBOR␊

tagged_begin NUMBER - -
text_begin -
text_fragment =302e35
text_end
tagged_end NUMBER - -
= faults sval_cbor: 15 |attempt to write a number that is no whole number of 128 bits␊

@ two_keys
= run sval_cbor: 0 ¦bf6130f46131f5ff¦|

map_begin 1
map_key_begin
tagged_begin JSON_VALUE - -
text_begin -
text_end
tagged_end JSON_VALUE - -
map_key_end
map_value_begin
null
map_value_end
map_end
= run sval_cbor: 6 |attempt to serialize a non-string key␊

seq_begin -
seq_value_begin
null
seq_value_end
seq_value_begin
tagged_begin NUMBER - -
text_begin -
text_fragment =312e
text_end
tagged_end NUMBER - -
seq_value_end
seq_end
= run sval_cbor: 7 |attempt to serialize an invalid number␊

tagged_begin JSON_VALUE - -
text_begin -
text_fragment =5b312c20325d
text_end
tagged_end JSON_VALUE - -
= run sval_cbor: 14 |attempt to write raw JSON as CBOR␊

map_begin 1
map_key_begin
tagged_begin JSON_TEXT - -
text_begin -
text_end
tagged_end JSON_TEXT - -
map_key_end
map_value_begin
null
map_value_end
map_end
= run sval_cbor: 14 |attempt to write raw JSON as CBOR␊

tagged_begin NUMBER - -
text_begin -
text_fragment =2d30
text_fragment =30312e35
text_fragment =30652b33
text_end
tagged_end NUMBER - -
= run sval_cbor: 15 |attempt to write a number that is no whole number of 128 bits␊

i64 -1
= faults sval_cbor: 0 ␠|
= run : 0 ␠|
= run sval_cbor json: 2 |usage: sval_cbor␊
= run sval_cbor ¦¦: 2 |usage: sval_cbor␊
= run sval_cbor ¦ff¦: 17 |

@ long 300
= run sval_cbor: 15 |attempt to write a number that is no whole number of 128 bits␊

@ long_texts 300
= run sval_cbor: 0 ¦bf79012c¦¦300*33¦¦790258¦¦600*33¦¦6135bf79012c¦¦300*33¦¦f6ffff¦|

@ long 70000
= run sval_cbor: 15 |attempt to write a number that is no whole number of 128 bits␊

@ long_texts 70000
= run sval_cbor: 0 ¦bf7a00011170¦¦70000*33¦¦7a000222e0¦¦140000*33¦¦6135bf7a00011170¦¦70000*33¦¦f6ffff¦|

␄
= long sval_cbor: 11 |the input is longer than 16777216 bytes␊
"#;

#[test]
fn rows_of_sval_cbor(rt: HostRuntime) {
    try_rows::<WriteCbor>(&rt, rt.alloc(), ROWS);
}
