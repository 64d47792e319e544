//! The program `sval_filter`.

use crate::process::trying::try_rows;
use sval_filter::FilterFields;

/// Rows of each status, as [`crate::process::trying`] says. The last input is one byte longer than is read.
const ROWS: &'static str = r#"
@ record
= faults sval_filter drop a.c b: 0 {"a":{"b":[1,-2]},"c":"x\n"}|
= faults sval_filter keep c: 0 {"c":"x\n"}|

null
= faults sval_filter drop: 2 |usage: sval_filter drop|keep PATH...␊
= faults sval_filter keep a..b: 2 |usage: sval_filter drop|keep PATH...␊
= run sval_filter: 2 |usage: sval_filter drop|keep PATH...␊

null
nul
= faults sval_filter drop a: 3 |line 2: not a call␊

null
null
= faults sval_filter keep a: 4 |line 2: no value goes on with this call␊
= run sval_filter drop a: 4 |line 2: no value goes on with this call␊

seq_begin 1
= faults sval_filter drop a: 5 |the calls are not one whole value␊
= run sval_filter keep a: 5 |the calls are not one whole value␊

␄
= faults sval_filter keep a: 5 |the calls are not one whole value␊

@ bad_key
= faults sval_filter drop a: 6 [1,{"|attempt to serialize a non-string key␊

record_begin - - - 1
record_value_begin - =61
tagged_begin NUMBER - -
text_begin -
text_fragment =312e
text_end
tagged_end NUMBER - -
record_value_end - =61
record_end - - -
= faults sval_filter keep a: 7 {"a":1.|attempt to serialize an invalid number␊
= faults sval_filter drop a: 0 {}|

record_tuple_begin - =4d795265636f7264:VALUE_IDENT - 3
record_tuple_value_begin - =6669656c645f30:VALUE_IDENT 0:VALUE_OFFSET
i32 1
record_tuple_value_end - =6669656c645f30:VALUE_IDENT 0:VALUE_OFFSET
record_tuple_value_begin - =6669656c645f31:VALUE_IDENT 1:VALUE_OFFSET
bool true
record_tuple_value_end - =6669656c645f31:VALUE_IDENT 1:VALUE_OFFSET
record_tuple_value_begin - =6669656c645f32:VALUE_IDENT 2:VALUE_OFFSET
text_begin 9
text_fragment =736f6d652074657874
text_end
record_tuple_value_end - =6669656c645f32:VALUE_IDENT 2:VALUE_OFFSET
record_tuple_end - =4d795265636f7264:VALUE_IDENT -
= run sval_filter drop field_1: 0 {"field_0":1,"field_2":"some text"}|
= run sval_filter keep field_2: 0 {"field_2":"some text"}|
= run sval_filter keep none: 0 {}|
= run sval_filter keep field_2 field_0: 0 {"field_0":1,"field_2":"some text"}|
= run sval_filter drop: 2 |usage: sval_filter drop|keep PATH...␊
= run sval_filter drop a..b: 2 |usage: sval_filter drop|keep PATH...␊
= run sval_filter drop a .b: 2 |usage: sval_filter drop|keep PATH...␊
= run sval_filter Drop a: 2 |usage: sval_filter drop|keep PATH...␊

enum_begin - =45 -
record_begin - =56 - 1
record_value_begin - =61
i32 1
record_value_end - =61
record_end - =56 -
enum_end - =45 -
= run sval_filter drop a: 0 {"V":{}}|

map_begin 1
map_key_begin
tagged_begin RUST_OPTION_SOME =536f6d65:VALUE_IDENT 1:VALUE_OFFSET
text_begin 1
text_fragment =6b
text_end
tagged_end RUST_OPTION_SOME =536f6d65 1
map_key_end
map_value_begin
record_begin - =52 - -
record_value_begin - =61
i32 1
record_value_end - =61
record_end - =52 -
map_value_end
map_end
= run sval_filter drop k: 0 {"k":{"a":1}}|
= run sval_filter keep k: 0 {}|

map_begin -
map_key_begin
seq_begin -
seq_end
map_key_end
map_value_begin
null
map_value_end
map_end
= run sval_filter drop a: 6 {"|attempt to serialize a non-string key␊
= run sval_filter keep a: 0 {}|

i64 -1
= run sval_filter drop a.b.c: 0 -1|
= run sval_filter drop a: 0 -1|
= run sval_filter keep a.b c: 0 -1|
= run sval_filter drop: 2 |usage: sval_filter drop|keep PATH...␊
= run sval_filter drop ¦¦: 2 |usage: sval_filter drop|keep PATH...␊
= run : 2 |usage: sval_filter drop|keep PATH...␊
= run sval_filter drop ¦ff¦: 17 |
= faults sval_filter keep a: 0 -1|

@ long 300
= run sval_filter drop ¦300*33¦: 0 {"4":¦300*33¦,"5":{"¦300*33¦":null}}|
= run sval_filter keep 6 ¦300*33¦: 0 {"¦300*33¦":"¦300*33¦¦300*33¦"}|

@ long 70000
= run sval_filter drop ¦70000*33¦: 0 {"4":¦70000*33¦,"5":{"¦70000*33¦":null}}|
= run sval_filter keep 6 ¦70000*33¦: 0 {"¦70000*33¦":"¦70000*33¦¦70000*33¦"}|

␄
= long sval_filter drop a.c b: 11 |the input is longer than 16777216 bytes␊
"#;

#[test]
fn rows_of_sval_filter(rt: HostRuntime) {
    try_rows::<FilterFields>(&rt, rt.alloc(), ROWS);
}
