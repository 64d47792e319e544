//! Long and deep scripts, as rows of repeated pieces.

use crate::pictures::plain_text;
use crate::rows::{run_in, run_over_streams};
use crate::shown::{holds, must, push};
use std::alloc::Global;
use std::process::Abort;

/// Scripts, with a blank line between two: its lines, then forms behind `= `, and what a run in each of these answers,
/// writes, and tells behind a bar; then further forms.
///
/// A line is a piece of a script, or of what is due. `N * PIECE` is PIECE repeated N times. `$` in PIECE is the text of
/// the pieces behind `$ ` before it. Pictures stand for newlines and for spaces at an end, and a line behind `# ` says
/// nothing.
const ROWS: &'static str = r#"
# A text of one fragment with 1,048,576 letters.
text_begin -␊text_fragment =
1048576 * 61
␊text_end␊
= direct, buffered
0␠"
1048576 * a
"|

# One of 1,024 fragments with 1,024 letters each.
$ 1024 * 61
text_begin -␊
1024 * text_fragment =$␊
text_end␊
= direct, buffered
0␠"
1048576 * a
"|

# One of 70 fragments with 1,000 letters each, which is more than the output's buffer holds.
$ 1000 * 61
text_begin -␊
70 * text_fragment =$␊
text_end␊
= buffered
0␠"
70000 * a
"|

# More than 1,000,000 lines and 9,999,999 bytes.
seq_begin -␊
340000 * seq_value_begin␊null␊seq_value_end␊
seq_end␊
= direct, buffered
0␠[
339999 * null,
null]|

# 100,000 values.
100000 * u8 7␊
= direct lines, buffered lines
0␠
100000 * 7␊
|
= calls lines
0␠
100000 * u8 7␊
|

# More than 1,000,000 values.
1000001 * null␊
= direct lines, buffered lines, calls lines
0␠
1000001 * null␊
|
= direct
4␠|line 2: no value goes on with this call␊

# The same, and a line that is no call.
1000001 * null␊
nil␊
= buffered lines
3␠|line 1000002: not a call␊

# 500,000 levels of enums, of which the innermost is empty. The default stack is enough for each way.
500000 * enum_begin - - -␊
500000 * enum_end - - -␊
= calls
0␠
500000 * enum_begin - - -␊
500000 * enum_end - - -␊
|
= buffered
0␠null|

# 100,000 levels of each kind.
100000 * seq_begin 1␊seq_value_begin␊
null␊
100000 * seq_value_end␊seq_end␊
= direct, buffered
0␠
100000 * [
null
100000 * ]
|

100000 * map_begin -␊map_key_begin␊i8 1␊map_key_end␊map_value_begin␊
null␊
100000 * map_value_end␊map_end␊
= direct
0␠
100000 * {"1":
null
100000 * }
|
= buffered beside
0␠
100000 * {"1":
null
100000 * }
|
= calls
0␠
100000 * map_begin -␊map_key_begin␊i8 1␊map_key_end␊map_value_begin␊
null␊
100000 * map_value_end␊map_end␊
|

100000 * record_begin - =52 - -␊record_value_begin - =61␊
null␊
100000 * record_value_end - =61␊record_end - =52 -␊
= direct
0␠
100000 * {"a":
null
100000 * }
|
= buffered beside
0␠
100000 * {"a":
null
100000 * }
|
= calls
0␠
100000 * record_begin - =52 - -␊record_value_begin - =61␊
null␊
100000 * record_value_end - =61␊record_end - =52 -␊
|

100000 * tuple_begin - =54 - -␊tuple_value_begin - 0␊
null␊
100000 * tuple_value_end - 0␊tuple_end - =54 -␊
= direct
0␠
100000 * [
null
100000 * ]
|
= buffered beside
0␠
100000 * [
null
100000 * ]
|
= calls
0␠
100000 * tuple_begin - =54 - -␊tuple_value_begin - 0␊
null␊
100000 * tuple_value_end - 0␊tuple_end - =54 -␊
|

100000 * record_tuple_begin - - 1 -␊record_tuple_value_begin - =61 0␊
null␊
100000 * record_tuple_value_end - =61 0␊record_tuple_end - - 1␊
= direct
0␠
100000 * {"a":
null
100000 * }
|
= buffered beside
0␠
100000 * {"a":
null
100000 * }
|
= calls
0␠
100000 * record_tuple_begin - - 1 -␊record_tuple_value_begin - =61 0␊
null␊
100000 * record_tuple_value_end - =61 0␊record_tuple_end - - 1␊
|

100000 * tagged_begin - =61 -␊
null␊
100000 * tagged_end - =61 -␊
= direct
0␠null|
= buffered beside
0␠null|
= calls
0␠
100000 * tagged_begin - =61 -␊
null␊
100000 * tagged_end - =61 -␊
|

100000 * enum_begin - =45 -␊enum_begin - - -␊
enum_begin - =45 -␊tag RUST_OPTION_NONE - -␊enum_end - =45 -␊
100000 * enum_end - - -␊enum_end - =45 -␊
= direct
0␠
100000 * {"E":
null
100000 * }
|
= buffered beside
0␠
100000 * {"variant":"E","value":
null
100000 * }
|
= calls
0␠
100000 * enum_begin - =45 -␊enum_begin - - -␊
enum_begin - =45 -␊tag RUST_OPTION_NONE - -␊enum_end - =45 -␊
100000 * enum_end - - -␊enum_end - =45 -␊
|

# A byte less than is read, as much, and a byte more: 16,777,168, 16,777,178 and 16,777,170 digits behind the words.
$ 1000 * 3
text_begin -␊text_fragment_computed =
16777 * $
168 * 3
␊text_end␊
= direct, buffered
0␠"
8388 * $
584 * 3
"|
= calls
0␠text_begin 8388584␊text_fragment =
16777 * $
168 * 3
␊text_end␊|
= direct lines, buffered beside lines
0␠"
8388 * $
584 * 3
"␊|

$ 1000 * 3
text_begin -␊text_fragment =
16777 * $
178 * 3
␊text_end␊
= direct, buffered
0␠"
8388 * $
589 * 3
"|
= calls
0␠text_begin 8388589␊text_fragment =
16777 * $
178 * 3
␊text_end␊|
= direct lines, buffered beside lines
0␠"
8388 * $
589 * 3
"␊|

$ 1000 * 3
text_begin -␊text_fragment_computed =
16777 * $
170 * 3
␊text_end␊
= direct, buffered, calls, direct lines, buffered beside lines
11␠|the input is longer than 16777216 bytes␊
"#;

/// Adds a line of the table to a text, with a part in the place of `$`.
fn add_pieces(rt: &impl Abort, alloc: Global, text: &mut String, line: &str, part: &str) {
    let (times, shown) = line.split_once(" * ").unwrap_or(("1", line));
    let mut piece = String::new(alloc);
    for letter in plain_text(rt, alloc, shown).chars() {
        if letter == '$' {
            push(rt, &mut piece, part);
        } else {
            must(rt, piece.push(letter));
        }
    }
    for _ in 0..must(rt, times.parse::<u64>()) {
        push(rt, text, &piece);
    }
}

/// Runs these forms on a script, over memory and over std's readers and writers. A failure doesn't show what is due,
/// since it may be long.
fn try_forms(rt: &impl Abort, alloc: Global, forms: &str, script: &str, due: &str) {
    for form in forms.split(", ") {
        holds(rt, run_in(rt, alloc, form, script).as_str() == due, form);
        let streamed = run_over_streams(rt, alloc, form, script);
        holds(rt, streamed.as_str() == due, form);
    }
}

/// Tries the script of some rows.
fn try_script(rt: &impl Abort, alloc: Global, rows: &str) {
    let mut part = String::new(alloc);
    let mut script = String::new(alloc);
    let mut due = String::new(alloc);
    let mut forms = String::new(alloc);
    for line in rows.lines() {
        if let Some(pieces) = line.strip_prefix("$ ") {
            add_pieces(rt, alloc, &mut part, pieces, "");
        } else if let Some(next) = line.strip_prefix("= ") {
            if !forms.is_empty() {
                try_forms(rt, alloc, &forms, &script, &due);
                forms.clear();
            }
            due.clear();
            push(rt, &mut forms, next);
        } else if forms.is_empty() {
            if !line.starts_with("# ") {
                add_pieces(rt, alloc, &mut script, line, &part);
            }
        } else {
            add_pieces(rt, alloc, &mut due, line, &part);
        }
    }
    try_forms(rt, alloc, &forms, &script, &due)
}

#[test]
fn long_scripts(rt: HostRuntime) {
    for rows in ROWS.split("\n\n") {
        try_script(&rt, rt.alloc(), rows);
    }
}
