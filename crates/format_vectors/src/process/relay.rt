//! The program `sval_relay`.

use crate::process::trying::try_rows;
use sval_relay::Relay;

/// Rows of words that make a form or none, and of scripts that are refused, as [`crate::process::trying`] says.
const ROWS: &'static str = r#"
null
= faults sval_relay direct: 0 null|
= faults sval_relay buffered beside: 0 null|
= faults sval_relay direct inside: 2 |usage: sval_relay direct [beside] [lines]|buffered [beside] [lines]|calls [lines]|made N␊
= faults sval_relay direct beside beside: 2 |usage: sval_relay direct [beside] [lines]|buffered [beside] [lines]|calls [lines]|made N␊
= faults sval_relay: 2 |usage: sval_relay direct [beside] [lines]|buffered [beside] [lines]|calls [lines]|made N␊
= faults : 2 |usage: sval_relay direct [beside] [lines]|buffered [beside] [lines]|calls [lines]|made N␊
= run sval_relay direct ¦ff¦: 17 |

nil
= faults sval_relay direct: 3 |line 1: not a call␊

seq_end
= faults sval_relay direct: 4 |line 1: no value goes on with this call␊

␄
= faults sval_relay direct: 5 |the calls are not one whole value␊

@ long 300
= run sval_relay direct: 0 {"¦300*33¦":"¦300*33¦¦300*33¦","4":¦300*33¦,"5":{"¦300*33¦":null}}|
= run sval_relay buffered: 0 {"¦300*33¦":"¦300*33¦¦300*33¦","4":¦300*33¦,"5":{"¦300*33¦":null}}|
= run sval_relay direct beside: 0 {"¦300*33¦":"¦300*33¦¦300*33¦","4":¦300*33¦,"5":{"variant":"¦300*33¦","value":null}}|
= run sval_relay buffered beside: 0 {"¦300*33¦":"¦300*33¦¦300*33¦","4":¦300*33¦,"5":{"variant":"¦300*33¦","value":null}}|
= run sval_relay calls: 0 record_begin - - - -␊record_value_begin - =¦600*33¦␊text_begin 600␊text_fragment =¦600*33¦¦600*33¦␊text_end␊record_value_end - =¦600*33¦␊record_value_begin - =34␊tagged_begin NUMBER - -␊text_begin 300␊text_fragment =¦600*33¦␊text_end␊tagged_end NUMBER - -␊record_value_end - =34␊record_value_begin - =35␊enum_begin - - -␊tagged_begin - =¦600*33¦ -␊null␊tagged_end - =¦600*33¦ -␊enum_end - - -␊record_value_end - =35␊record_end - - -␊|

@ long 70000
= run sval_relay direct: 0 {"¦70000*33¦":"¦70000*33¦¦70000*33¦","4":¦70000*33¦,"5":{"¦70000*33¦":null}}|
= run sval_relay buffered: 0 {"¦70000*33¦":"¦70000*33¦¦70000*33¦","4":¦70000*33¦,"5":{"¦70000*33¦":null}}|
= run sval_relay direct beside: 0 {"¦70000*33¦":"¦70000*33¦¦70000*33¦","4":¦70000*33¦,"5":{"variant":"¦70000*33¦","value":null}}|
= run sval_relay buffered beside: 0 {"¦70000*33¦":"¦70000*33¦¦70000*33¦","4":¦70000*33¦,"5":{"variant":"¦70000*33¦","value":null}}|
= run sval_relay calls: 0 record_begin - - - -␊record_value_begin - =¦140000*33¦␊text_begin 140000␊text_fragment =¦140000*33¦¦140000*33¦␊text_end␊record_value_end - =¦140000*33¦␊record_value_begin - =34␊tagged_begin NUMBER - -␊text_begin 70000␊text_fragment =¦140000*33¦␊text_end␊tagged_end NUMBER - -␊record_value_end - =34␊record_value_begin - =35␊enum_begin - - -␊tagged_begin - =¦140000*33¦ -␊null␊tagged_end - =¦140000*33¦ -␊enum_end - - -␊record_value_end - =35␊record_end - - -␊|
"#;

#[test]
fn rows_of_sval_relay(rt: HostRuntime) {
    try_rows::<Relay>(&rt, rt.alloc(), ROWS);
}
