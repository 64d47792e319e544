//! Sinks that take little, stop, or hold back what they take, and a value that refuses.

ghost use Rattle.std.specs.Prelude.{◌∷◌, [], true};
ghost use Rattle.sval_label.specs.Calls as call;

use crate::fakes::{Balky, HoldingSink};
use crate::forms::{INSIDE, answer_over};
use crate::shown::{agrees, answer_text, holds, must, shows};
use std::alloc::Global;
use std::process::Abort;
use sval_check::{CheckError, check};
use sval_core::{Lent, Stream, Value, refusal};
use sval_io::{FixedSink, Sink, SinkError, VecSink, write_all};
use sval_json::stream_to_io_write;
use sval_relay::MemSource;
use sval_script::Script;

/// A text with escapes, a number and a truth value in a sequence.
const SCRIPT: &'static str = r#"seq_begin -
seq_value_begin
text_begin -
text_fragment =61220162
text_end
seq_value_end
seq_value_begin
i64 -12
seq_value_end
seq_value_begin
bool true
seq_value_end
seq_end
"#;

/// The JSON of these.
const JSON: &'static [u8] = b"[\"a\\\"\\u0001b\",-12,true]";

/// What writing a value's JSON answers.
pub(crate) fn answer_of<'v, K: Sink, V: Value<'v, Lent<'v>>>(
    rt: &impl Abort,
    alloc: Global,
    sink: &mut K,
    value: &'v V,
) -> String {
    let answer = match stream_to_io_write(sink, value) {
        Ok(()) => String::from_str(alloc, "Ok"),
        Err(error) => format!(in alloc; "{:?}", error.kind()),
    };
    must(rt, answer)
}

/// What writing the script's JSON over a sink answers, how often the sink was called and flushed, and what it has.
fn told_of(rt: &impl Abort, alloc: Global, script: &Script, mut sink: Balky) -> String {
    let answer = answer_of(rt, alloc, &mut sink, script);
    let taken = must(rt, std::str::from_utf8(sink.taken.as_slice()));
    let (calls, flushes) = (sink.calls, sink.flushes);
    must(
        rt,
        format!(in alloc; "{answer}, {calls} calls, {flushes} flushes: {taken}"),
    )
}

/// A sink that takes one byte a call is given the rest of each piece, and one that stops is given no more.
#[test]
fn stops_where_a_sink_stops(rt: HostRuntime) {
    let alloc = rt.alloc();
    let script = must(&rt, Script::read(alloc, SCRIPT.as_bytes()));
    for (stop, kind) in [(SinkError::Failed, "IO"), (SinkError::NoMemory, "NoMemory")] {
        for taken in 0..JSON.len() {
            let due = told_due(&rt, alloc, kind, taken + 1, &JSON[..taken]);
            let sink = Balky::trickling(alloc, Some((taken + 1, stop)));
            agrees(&rt, &told_of(&rt, alloc, &script, sink), &due);
        }
    }
}

/// What is due of writing JSON over a sink: the answer, how often it is called, and what it has.
fn told_due(rt: &impl Abort, alloc: Global, answer: &str, calls: usize, taken: &[u8]) -> String {
    let taken = must(rt, std::str::from_utf8(taken));
    must(
        rt,
        format!(in alloc; "{answer}, {calls} calls, 0 flushes: {taken}"),
    )
}

#[test]
fn trickles_to_the_end(rt: HostRuntime) {
    let script = must(&rt, Script::read(rt.alloc(), SCRIPT.as_bytes()));
    let sink = Balky::trickling(rt.alloc(), None);
    let due = told_due(&rt, rt.alloc(), "Ok", JSON.len(), JSON);
    agrees(&rt, &told_of(&rt, rt.alloc(), &script, sink), &due);
}

/// What writing the script's JSON over a sink with this room answers, what room is left, and what it has.
fn fitted(rt: &impl Abort, alloc: Global, script: &Script, room: usize) -> String {
    let mut buffer = must(rt, vec![in alloc; 0; room]);
    let mut sink = FixedSink::new(&mut buffer);
    let answer = answer_of(rt, alloc, &mut sink, script);
    let left = sink.room();
    let taken = must(rt, std::str::from_utf8(sink.as_slice()));
    must(rt, format!(in alloc; "{answer}, {left} left: {taken}"))
}

/// What is due of a sink that has this.
fn fitted_due(rt: &impl Abort, alloc: Global, taken: &[u8]) -> String {
    let answer = if taken.len() < JSON.len() { "IO" } else { "Ok" };
    let taken = must(rt, std::str::from_utf8(taken));
    must(rt, format!(in alloc; "{answer}, 0 left: {taken}"))
}

/// Rooms from none to enough.
#[test]
fn fails_where_room_is_lacking(rt: HostRuntime) {
    let script = must(&rt, Script::read(rt.alloc(), SCRIPT.as_bytes()));
    for room in 0..=JSON.len() {
        let due = fitted_due(&rt, rt.alloc(), &JSON[..room]);
        agrees(&rt, &fitted(&rt, rt.alloc(), &script, room), &due);
    }
}

/// The script of a text of one fragment of 67 letters, which is written as one piece between its quotes.
const RUN: &'static str = r#"text_begin 67
text_fragment =6162636465666768696a6b6c6d6e6f707172737475767778797a4142434445464748494a4b4c4d4e4f505152535455565758595a6162636465666768696a6b6c6d6e6f
text_end
"#;

/// Its JSON.
const RUN_JSON: &'static str =
    r#""abcdefghijklmnopqrstuvwxyzABCDEFGHIJKLMNOPQRSTUVWXYZabcdefghijklmno""#;

#[test]
fn writes_a_run_as_one_piece(rt: HostRuntime) {
    let alloc = rt.alloc();
    let script = must(&rt, Script::read(alloc, RUN.as_bytes()));
    let due = told_due(&rt, alloc, "Ok", 3, RUN_JSON.as_bytes());
    agrees(&rt, &told_of(&rt, alloc, &script, Balky::new(alloc)), &due);
}

#[test]
fn writes_a_piece_whole(rt: HostRuntime) {
    let mut sink = Balky::trickling(rt.alloc(), None);
    let empty = write_all(&mut sink, b"");
    holds(&rt, empty == Ok(()) && sink.calls == 0, "no piece");
    let whole = write_all(&mut sink, b"abc");
    holds(&rt, whole == Ok(()) && sink.calls == 3, "a piece");
    holds(&rt, sink.flush() == Ok(()) && sink.flushes == 1, "a flush");
    shows(&rt, String::from_utf8(sink.taken.into_vec()), "abc");
}

/// What a run answers, writes and tells over an output that fails at each flush.
fn run_unflushed(rt: &impl Abort, alloc: Global, way: &str) -> String {
    let mut input = MemSource::new(SCRIPT.as_bytes());
    let mut out = Balky::trickling(alloc, Some((0, SinkError::Failed)));
    let mut diag = VecSink::new(alloc);
    answer_over(rt, alloc, way, &mut input, &mut out, &mut diag)
}

/// What a run answers, passes on and tells over an output that holds back all until it is flushed.
fn run_held_back(rt: &impl Abort, alloc: Global, way: &str) -> String {
    let mut input = MemSource::new(SCRIPT.as_bytes());
    let mut out = HoldingSink::new(alloc);
    let mut diag = VecSink::new(alloc);
    answer_over(rt, alloc, way, &mut input, &mut out, &mut diag)
}

#[test]
fn flushes_at_the_end(rt: HostRuntime) {
    let unflushed = answer_text(&rt, rt.alloc(), 8, JSON, b"write fault\n");
    let flushed = answer_text(&rt, rt.alloc(), 0, JSON, b"");
    for way in &INSIDE {
        agrees(&rt, &run_unflushed(&rt, rt.alloc(), way), &unflushed);
        agrees(&rt, &run_held_back(&rt, rt.alloc(), way), &flushed);
    }
}

/// Says that there is no value, and then refuses.
#[derive(Drop)]
struct Refusing {}

impl<'v> Value<'v, Lent<'v>> for Refusing {
    ghost emission = { λ _. record { calls = call.Null ∷ []; refuses = true } };

    #[tactic(auto, using(sval_core::proofs::Emissions::streams_one, sval_core::proofs::Emissions::stops_one))]
    fn stream<S: Stream<Lent<'v>>>(&'v self, stream: &mut S) -> sval_core::Result {
        stream.null()?;
        refusal()
    }
}

/// A refusal of a value isn't one of its stream.
#[test]
fn tells_a_value_that_refuses(rt: HostRuntime) {
    let refusing = [Refusing {}];
    let mut sink = VecSink::new(rt.alloc());
    agrees(
        &rt,
        &answer_of(&rt, rt.alloc(), &mut sink, &refusing),
        "Generic",
    );
    shows(&rt, String::from_utf8(sink.into_vec()), "[null");
    let answer = check(rt.alloc(), &refusing);
    holds(&rt, answer == Err(CheckError::Refused), "a check");
}
