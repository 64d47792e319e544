//! Inputs at the limit of what is read, and a script in memory that is longer.

use crate::forms::{answer_over, run_over};
use crate::shown::{agrees, answer_text, holds, must};
use std::alloc::Global;
use std::process::Abort;
use sval_io::VecSink;
use sval_relay::{FaultySource, MemSource, Source, Way, relay};

/// `count` letters 3 between `before` and `behind`.
fn threes(rt: &impl Abort, alloc: Global, before: &str, count: usize, behind: &str) -> Vec<u8> {
    let mut text = must(rt, Vec::from_slice(alloc, before.as_bytes()));
    must(
        rt,
        text.extend_from_slice(&must(rt, vec![in alloc; b'3'; count])),
    );
    must(rt, text.extend_from_slice(behind.as_bytes()));
    text
}

/// How many newlines are given, how many bytes are left of them, and the status and, behind a bar, the line.
const NEWLINES: [(usize, usize, &'static str); 4] = [
    (16_777_216, 0, "3 |line 1: not a call\n"),
    (
        16_777_217,
        0,
        "11 |the input is longer than 16777216 bytes\n",
    ),
    (
        16_777_218,
        1,
        "11 |the input is longer than 16777216 bytes\n",
    ),
    (
        50_331_648,
        33_554_431,
        "11 |the input is longer than 16777216 bytes\n",
    ),
];

/// The longest input that is read, and longer inputs. Of a longer one, one byte more is read.
#[test]
fn reads_up_to_the_limit(rt: HostRuntime) {
    let alloc = rt.alloc();
    for (count, left, due) in &NEWLINES {
        let feeds = must(&rt, vec![in alloc; b'\n'; *count]);
        let mut input = MemSource::new(&feeds);
        agrees(&rt, &run_direct(&rt, alloc, &mut input), due);
        let read = input.read(&mut must(&rt, vec![in alloc; 0; *count]));
        holds(&rt, read == Ok(*left), due);
    }
}

/// What a run over an input answers, writes and tells.
fn run_direct<I: Source>(rt: &impl Abort, alloc: Global, input: &mut I) -> String {
    let mut out = VecSink::new(alloc);
    let mut diag = VecSink::new(alloc);
    answer_over(rt, alloc, "direct", input, &mut out, &mut diag)
}

/// How many hex digits a script of 16,777,216 bytes or of one more has, the call of the source that fails, and the
/// status, whether JSON is written, and the line: at the last part, at the call that looks for a byte past the limit, and behind it. With a byte
/// past the limit that call is the last one too.
const FAULTS: [(&'static str, usize, u64, &'static str); 6] = [
    ("text_fragment", 16_777_178, 256, "9 |read fault\n"),
    ("text_fragment", 16_777_178, 257, "9 |read fault\n"),
    ("text_fragment", 16_777_178, 258, "0 JSON|"),
    ("text_fragment_computed", 16_777_170, 256, "9 |read fault\n"),
    ("text_fragment_computed", 16_777_170, 257, "9 |read fault\n"),
    (
        "text_fragment_computed",
        16_777_170,
        258,
        "11 |the input is longer than 16777216 bytes\n",
    ),
];

/// What a run over a source of a script answers and tells, and whether it writes nothing, where this call of the source
/// fails.
fn run_failing(rt: &impl Abort, alloc: Global, script: &[u8], failing: u64) -> String {
    let failing = [failing];
    let mut input = FaultySource::new(script, 65_536, &failing);
    let mut out = VecSink::new(alloc);
    let mut diag = VecSink::new(alloc);
    let status = run_over(rt, alloc, "direct", &mut input, &mut out, &mut diag);
    let written = if out.as_slice().is_empty() {
        ""
    } else {
        "JSON"
    };
    answer_text(rt, alloc, status, written.as_bytes(), diag.as_slice())
}

#[test]
fn faults_at_the_limit(rt: HostRuntime) {
    let alloc = rt.alloc();
    for (fragment, digits, failing, due) in &FAULTS {
        let before = must(&rt, format!(in alloc; "text_begin -\n{fragment} ="));
        let script = threes(&rt, alloc, &before, *digits, "\ntext_end\n");
        agrees(&rt, &run_failing(&rt, alloc, &script, *failing), due);
    }
}

/// A script in memory that is longer than what the program reads: two fragments of 5,000,000 bytes each.
#[test]
fn two_long_fragments(rt: HostRuntime) {
    let alloc = rt.alloc();
    let script = long_script(&rt, alloc);
    let json = threes(&rt, alloc, "\"", 10_000_000, "\"");
    for way in [Way::Direct, Way::Buffered, Way::BufferedBeside] {
        let written = json_of(&rt, alloc, &script, way);
        holds(&rt, written.as_slice() == json.as_slice(), "a way");
    }
}

/// The script of a text of two fragments with 10,000,000 digits each.
fn long_script(rt: &impl Abort, alloc: Global) -> Vec<u8> {
    let begin = "text_begin 10000000\ntext_fragment =";
    let mut script = threes(rt, alloc, begin, 10_000_000, "\n");
    let begin = "text_fragment_computed =";
    let second = threes(rt, alloc, begin, 10_000_000, "\ntext_end\n");
    must(rt, script.extend_from_slice(&second));
    script
}

/// The JSON of a script in a way.
fn json_of(rt: &impl Abort, alloc: Global, script: &[u8], way: Way) -> Vec<u8> {
    let mut out = VecSink::new(alloc);
    must(rt, relay(alloc, script, way, &mut out));
    out.into_vec()
}
