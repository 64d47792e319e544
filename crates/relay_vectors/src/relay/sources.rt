//! Reading memory, and a source that fails where it is told to.

use crate::forms::{INSIDE, answer_over};
use crate::shown::{agrees, must};
use std::alloc::Global;
use std::fmt::Write;
use std::process::Abort;
use sval_io::VecSink;
use sval_relay::{FaultySource, MemSource, Source};

/// What a source answers to `count` reads into a buffer, and the first bytes of the buffer after each.
pub(super) fn reads_of<I: Source>(
    rt: &impl Abort,
    alloc: Global,
    source: &mut I,
    buffer: &mut [u8],
    count: u64,
) -> String {
    let mut told = String::new(alloc);
    for _ in 0..count {
        let answer = source.read(buffer);
        let shown = must(rt, std::str::from_utf8(&buffer[..buffer.len().min(4)]));
        must(rt, write!(told, "{answer:?} {shown}\n"));
    }
    told
}

/// All that fits is given at once, and then what is left.
#[test]
fn reads_part_by_part(rt: HostRuntime) {
    let alloc = rt.alloc();
    let mut source = MemSource::new(b"abcde");
    let seen = reads_of(&rt, alloc, &mut source, &mut [], 1);
    agrees(&rt, &seen, "Ok(0) \n");
    let seen = reads_of(&rt, alloc, &mut source, &mut [b'-'; 3], 4);
    agrees(&rt, &seen, "Ok(3) abc\nOk(2) dec\nOk(0) dec\nOk(0) dec\n");
    let bytes = must(&rt, vec![in alloc; b'7'; 100_000]);
    let mut buffer = must(&rt, vec![in alloc; b'0'; 100_001]);
    let seen = reads_of(&rt, alloc, &mut MemSource::new(&bytes), &mut buffer, 2);
    agrees(&rt, &seen, "Ok(100000) 7777\nOk(0) 7777\n");
}

/// The calls that are listed fail, and the others give what is next.
const FAILING: &'static str = r#"Err(Failed) ----
Ok(2) ab--
Err(Failed) ab--
Err(Failed) ab--
Ok(2) cd--
Ok(1) ed--
Ok(0) ed--
"#;

#[test]
fn fails_at_listed_calls(rt: HostRuntime) {
    let mut source = FaultySource::new(b"abcde", 2, &[1, 3, 4]);
    let seen = reads_of(&rt, rt.alloc(), &mut source, &mut [b'-'; 4], 7);
    agrees(&rt, &seen, FAILING);
}

/// The call that fails, and what is answered, written and told.
const FAULTS: [(u64, &'static str); 4] = [
    (1, "9 |read fault\n"),
    (2, "9 |read fault\n"),
    (3, "9 |read fault\n"),
    (4, "0 null|"),
];

/// What a run answers, writes and tells where a call of its input fails.
fn run_at(rt: &impl Abort, alloc: Global, way: &str, call: u64) -> String {
    let failing = [call];
    let mut input = FaultySource::new(b"null\n", 3, &failing);
    let mut out = VecSink::new(alloc);
    let mut diag = VecSink::new(alloc);
    answer_over(rt, alloc, way, &mut input, &mut out, &mut diag)
}

/// A run stops at a call that fails. The second call gives the last bytes, and the third sees the end.
#[test]
fn runs_over_a_fault(rt: HostRuntime) {
    for way in &INSIDE {
        for (call, due) in &FAULTS {
            agrees(&rt, &run_at(&rt, rt.alloc(), way, *call), due);
        }
    }
}
