//! The program `sval_cbor_read`.

use crate::process::trying::try_rows;
use sval_cbor_read::ReadCbor;

/// Rows of each status, as [`crate::process::trying`] says. The last inputs are one byte longer than is read.
const ROWS: &'static str = r#"
¦bf61619f0121ff05f562780a4200ffff¦␄
= faults sval_cbor_read json: 0 {"a":[1,-2],"5":true,"x\n":[0,255]}|

¦82f56161¦␄
= faults sval_cbor_read calls: 0 seq_begin -␊seq_value_begin␊bool true␊seq_value_end␊seq_value_begin␊text_begin 1␊text_fragment =61␊text_end␊seq_value_end␊seq_end␊|

¦a180f6¦␄
= faults sval_cbor_read calls: 0 map_begin -␊map_key_begin␊seq_begin -␊seq_end␊map_key_end␊map_value_begin␊null␊map_value_end␊map_end␊|
= run sval_cbor_read json: 6 {"|attempt to serialize a non-string key␊

¦01¦␄
= faults sval_cbor_read: 2 |usage: sval_cbor_read json|calls␊
= faults sval_cbor_read calls json: 2 |usage: sval_cbor_read json|calls␊
= run sval_cbor_read Json: 2 |usage: sval_cbor_read json|calls␊
= run sval_cbor_read ¦¦: 2 |usage: sval_cbor_read json|calls␊

¦8201a180f6¦␄
= faults sval_cbor_read json: 6 [1,{"|attempt to serialize a non-string key␊

¦8201¦␄
= faults sval_cbor_read json: 16 |not one CBOR item of this profile␊

¦62c328¦␄
= faults sval_cbor_read calls: 16 |not one CBOR item of this profile␊

␄
= faults sval_cbor_read calls: 16 |not one CBOR item of this profile␊
= run sval_cbor_read json: 16 |not one CBOR item of this profile␊

¦bf6130f46131f5ff¦␄
= run sval_cbor_read json: 0 {"0":false,"1":true}|

¦7f61616162ff¦␄
= run sval_cbor_read json: 0 "ab"|

¦c24105¦␄
= run sval_cbor_read json: 0 5|

¦3bffffffffffffffff¦␄
= run sval_cbor_read json: 0 -18446744073709551616|

¦8201a2020340f6¦␄
= run sval_cbor_read json: 6 [1,{"2":3,"|attempt to serialize a non-string key␊

¦7f6161606162ff¦␄
= run sval_cbor_read calls: 0 text_begin 2␊text_fragment =6162␊text_end␊|

¦d9d9f717¦␄
= run sval_cbor_read calls: 0 u64 23␊|

¦f93c00¦␄
= run sval_cbor_read json: 16 |not one CBOR item of this profile␊

¦f7¦␄
= run sval_cbor_read calls: 16 |not one CBOR item of this profile␊

¦0000¦␄
= run sval_cbor_read json: 16 |not one CBOR item of this profile␊

¦62c3¦␄
= run sval_cbor_read calls: 16 |not one CBOR item of this profile␊

¦7f61c361a9ff¦␄
= run sval_cbor_read json: 16 |not one CBOR item of this profile␊

¦9fc250ffffffffffffffffffffffffffffffffc3507fffffffffffffffffffffffffffffffff¦␄
= run sval_cbor_read json: 0 [340282366920938463463374607431768211455,-170141183460469231731687303715884105728]|

¦8120¦␄
= run sval_cbor_read json: 0 [-1]|
= run sval_cbor_read calls: 0 seq_begin -␊seq_value_begin␊i64 -1␊seq_value_end␊seq_end␊|
= run sval_cbor_read json calls: 2 |usage: sval_cbor_read json|calls␊
= run sval_cbor_read: 2 |usage: sval_cbor_read json|calls␊
= run : 2 |usage: sval_cbor_read json|calls␊
= run sval_cbor_read ¦ff¦: 17 |

¦820102¦␄
= faults sval_cbor_read json: 0 [1,2]|

¦a179012c¦¦300*33¦¦8379012c¦¦300*33¦¦c259012c¦¦299*00¦¦0759012c¦¦300*33¦␄
= run sval_cbor_read calls: 0 map_begin -␊map_key_begin␊text_begin 300␊text_fragment =¦600*33¦␊text_end␊map_key_end␊map_value_begin␊seq_begin -␊seq_value_begin␊text_begin 300␊text_fragment =¦600*33¦␊text_end␊seq_value_end␊seq_value_begin␊u128 7␊seq_value_end␊seq_value_begin␊binary_begin 300␊binary_fragment =¦600*33¦␊binary_end␊seq_value_end␊seq_end␊map_value_end␊map_end␊|

¦a179012c¦¦300*33¦¦8279012c¦¦300*33¦¦c259012c¦¦299*00¦¦07¦␄
= run sval_cbor_read json: 0 {"¦300*33¦":["¦300*33¦",7]}|

¦c259012c¦¦300*33¦␄
= run sval_cbor_read json: 16 |not one CBOR item of this profile␊

¦a17a00011170¦¦70000*33¦¦837a00011170¦¦70000*33¦¦c25a00011170¦¦69999*00¦¦075a00011170¦¦70000*33¦␄
= run sval_cbor_read calls: 0 map_begin -␊map_key_begin␊text_begin 70000␊text_fragment =¦140000*33¦␊text_end␊map_key_end␊map_value_begin␊seq_begin -␊seq_value_begin␊text_begin 70000␊text_fragment =¦140000*33¦␊text_end␊seq_value_end␊seq_value_begin␊u128 7␊seq_value_end␊seq_value_begin␊binary_begin 70000␊binary_fragment =¦140000*33¦␊binary_end␊seq_value_end␊seq_end␊map_value_end␊map_end␊|

¦a17a00011170¦¦70000*33¦¦827a00011170¦¦70000*33¦¦c25a00011170¦¦69999*00¦¦07¦␄
= run sval_cbor_read json: 0 {"¦70000*33¦":["¦70000*33¦",7]}|

¦c25a00011170¦¦70000*33¦␄
= run sval_cbor_read json: 16 |not one CBOR item of this profile␊

␄
= long sval_cbor_read json: 11 |the input is longer than 16777216 bytes␊

¦16777217*f6¦␄
= run sval_cbor_read calls: 11 |the input is longer than 16777216 bytes␊
"#;

#[test]
fn rows_of_sval_cbor_read(rt: HostRuntime) {
    try_rows::<ReadCbor>(&rt, rt.alloc(), ROWS);
}
