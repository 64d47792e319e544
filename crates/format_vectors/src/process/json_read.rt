//! The program `sval_json_read`.

use crate::process::trying::try_rows;
use sval_json_read::ReadJson;

/// Rows of each status, as [`crate::process::trying`] says. The last input is one byte longer than is read.
const ROWS: &'static str = r#"
 [1, {"a\n": [true, null, 2.50]}, "b"]␠␄
= faults sval_json_read json: 0 [1,{"a\n":[true,null,2.50]},"b"]|

[true, "a"]␄
= faults sval_json_read calls: 0 seq_begin -␊seq_value_begin␊bool true␊seq_value_end␊seq_value_begin␊text_begin 1␊text_fragment =61␊text_end␊seq_value_end␊seq_end␊|

1␄
= faults sval_json_read: 2 |usage: sval_json_read json|calls␊
= faults sval_json_read json calls: 2 |usage: sval_json_read json|calls␊
= run sval_json_read Json: 2 |usage: sval_json_read json|calls␊
= run sval_json_read ¦¦: 2 |usage: sval_json_read json|calls␊
= run sval_json_read json json: 2 |usage: sval_json_read json|calls␊

¦5b22ff225d¦␄
= faults sval_json_read json: 12 |the input is not UTF-8␊

¦c3¦␄
= faults sval_json_read calls: 12 |the input is not UTF-8␊

[1,]␄
= faults sval_json_read json: 13 |byte 3: not JSON␊

␄
= faults sval_json_read calls: 13 |byte 0: not JSON␊

 {"a" : [1, -0, 1.50e+3, "x\u0041\n"]}␄
= run sval_json_read json: 0 {"a":[1,0,1.50e+3,"xA\n"]}|

01␄
= run sval_json_read json: 13 |byte 1: not JSON␊

"\ud800"␄
= run sval_json_read calls: 13 |byte 7: not JSON␊

¦efbbbf31¦␄
= run sval_json_read json: 13 |byte 0: not JSON␊

¦ff¦␄
= run sval_json_read json: 12 |the input is not UTF-8␊

9223372036854775808␄
= run sval_json_read calls: 0 tagged_begin NUMBER - -␊text_begin 19␊text_fragment =39323233333732303336383534373735383038␊text_end␊tagged_end NUMBER - -␊|

[true]␄
= run sval_json_read calls: 0 seq_begin -␊seq_value_begin␊bool true␊seq_value_end␊seq_end␊|

 [ -0 ]␠␄
= run sval_json_read json: 0 [0]|
= run sval_json_read calls: 0 seq_begin -␊seq_value_begin␊i64 0␊seq_value_end␊seq_end␊|
= run sval_json_read json calls: 2 |usage: sval_json_read json|calls␊
= run sval_json_read: 2 |usage: sval_json_read json|calls␊
= run : 2 |usage: sval_json_read json|calls␊
= run sval_json_read ¦ff¦: 17 |

[1, {"a\n": [true, null, 2.5]}, "b"]␄
= run sval_json_read json: 0 [1,{"a\n":[true,null,2.5]},"b"]|
= run sval_json_read calls: 0 seq_begin -␊seq_value_begin␊i64 1␊seq_value_end␊seq_value_begin␊map_begin -␊map_key_begin␊text_begin 2␊text_fragment =610a␊text_end␊map_key_end␊map_value_begin␊seq_begin -␊seq_value_begin␊bool true␊seq_value_end␊seq_value_begin␊null␊seq_value_end␊seq_value_begin␊tagged_begin NUMBER - -␊text_begin 3␊text_fragment =322e35␊text_end␊tagged_end NUMBER - -␊seq_value_end␊seq_end␊map_value_end␊map_end␊seq_value_end␊seq_value_begin␊text_begin 1␊text_fragment =62␊text_end␊seq_value_end␊seq_end␊|

{"¦300*33¦":["¦300*33¦\n",¦300*33¦]}␄
= run sval_json_read json: 0 {"¦300*33¦":["¦300*33¦\n",¦300*33¦]}|
= run sval_json_read calls: 0 map_begin -␊map_key_begin␊text_begin 300␊text_fragment =¦600*33¦␊text_end␊map_key_end␊map_value_begin␊seq_begin -␊seq_value_begin␊text_begin 301␊text_fragment =¦600*33¦0a␊text_end␊seq_value_end␊seq_value_begin␊tagged_begin NUMBER - -␊text_begin 300␊text_fragment =¦600*33¦␊text_end␊tagged_end NUMBER - -␊seq_value_end␊seq_end␊map_value_end␊map_end␊|

{"¦70000*33¦":["¦70000*33¦\n",¦70000*33¦]}␄
= run sval_json_read json: 0 {"¦70000*33¦":["¦70000*33¦\n",¦70000*33¦]}|
= run sval_json_read calls: 0 map_begin -␊map_key_begin␊text_begin 70000␊text_fragment =¦140000*33¦␊text_end␊map_key_end␊map_value_begin␊seq_begin -␊seq_value_begin␊text_begin 70001␊text_fragment =¦140000*33¦0a␊text_end␊seq_value_end␊seq_value_begin␊tagged_begin NUMBER - -␊text_begin 70000␊text_fragment =¦140000*33¦␊text_end␊tagged_end NUMBER - -␊seq_value_end␊seq_end␊map_value_end␊map_end␊|

␄
= long sval_json_read json: 11 |the input is longer than 16777216 bytes␊
"#;

/// Inputs of as many bytes as are read, and of more.
const LONG: &'static str = r#"
1¦16777215*20¦␄
= run sval_json_read json: 0 1|

¦16777216*20¦␄
= run sval_json_read json: 13 |byte 16777216: not JSON␊

1¦16777216*20¦␄
= run sval_json_read json: 11 |the input is longer than 16777216 bytes␊

x¦16777217*20¦␄
= run sval_json_read json: 11 |the input is longer than 16777216 bytes␊
"#;

#[test]
fn rows_of_sval_json_read(rt: HostRuntime) {
    try_rows::<ReadJson>(&rt, rt.alloc(), ROWS);
}

#[test]
fn long_inputs_of_sval_json_read(rt: HostRuntime) {
    try_rows::<ReadJson>(&rt, rt.alloc(), LONG)
}
