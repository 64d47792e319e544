//! Programs, over std's readers and writers.

ghost use Rattle.std.specs.Prelude.{◌≡◌, ◌↔◌, true, None, IfSome, map, string_bytes};
ghost use Rattle.std.specs.Io.KnownBytes.{Keeps};
ghost use Rattle.std.specs.Option.{is_some};
ghost use Rattle.sval_program.specs.Runs.{is_status, is_unwritten};
ghost use Rattle.sval_program.specs.Streams.{EndsBuffered, StreamsEnd, AppendsAllDue};

use crate::job::{Job, run};
use crate::line::tell;
use crate::lines;
use crate::status::{DONE, NO_MEMORY, USAGE};
use std::alloc::Global;
use std::io::{Read, Write};
use std::marker::Brand;
use sval_io::{
    BufferedSink, CountSink, KnownSource, RealSink, RealSource, Sink, Watch, WatchedReader,
    WatchedWriter,
};

/// How many bytes of output are held back at most.
const BUFFER: usize = 1 << 16;

/// Runs a program on its words over a reader and two writers, and answers its status.
///
/// At status 0 exactly the bytes that are due of the input were appended to the output. That is known where the reader
/// tells what it has left, and the output what it holds, as a slice and a `Vec` do. The clause `ends` says of each
/// status what [`run`] says of it over the output's buffer, and what of that buffer the output holds at the end.
///
/// The output is held back in a buffer of 65,536 bytes until it is full. What is left of it at the end is passed on
/// there, where a failure isn't told. Memory for that buffer is asked for only where the words are a form. Where it is
/// wanting the status is 10, and nothing is read or written; of the output no clause says that. A call of any of the
/// three that is interrupted is made again, and has failed where that happened 1,000 times in a row.
#[tactic(auto, using(crate::proofs::Streaming::appends_all_due, crate::proofs::Streaming::keeps_unwritten))]
pub fn run_streams<J: Job, R: Read + Drop, W: Write + Drop, D: Write + Drop>(
    alloc: Global,
    words: &[String],
    stdin: R,
    stdout: &mut W,
    stderr: D,
) -> u8
    ensures known { is_status J.terms result ≡ true }
    ensures usage { (result ≡ USAGE) ↔ (J.terms.form_named (map string_bytes words.now) ≡ None) }
    ensures ends { StreamsEnd J.terms (map string_bytes words.now) (R.remaining stdin)
        (W.contents stdout.old) (W.contents stdout.new) result }
    ensures done { result ≡ DONE → AppendsAllDue J.terms (map string_bytes words.now) (R.remaining stdin)
        (W.contents stdout.old) (W.contents stdout.new) }
    ensures unwritten { is_unwritten J.terms result ≡ true → Keeps (W.contents stdout.old) (W.contents stdout.new) }
    ensures nothing_written { result ≡ USAGE → stdout.new ≡ stdout.old }
{
    let mut diag = RealSink::new(stderr);
    if !J::takes(words) {
        // The program says so, and neither reads nor writes.
        let mut input = RealSource::new(stdin);
        let mut out = CountSink::new();
        return run::<J, RealSource<R>, CountSink, RealSink<D>>(
            alloc, words, &mut input, &mut out, &mut diag,
        );
    }
    match run_watched::<J, Brand, R, W, RealSink<D>>(alloc, words, stdin, stdout, &mut diag) {
        Some((status, _)) => status,
        None => {
            tell(&lines::out_of_memory(), &mut diag);
            NO_MEMORY
        }
    }
}

/// Runs a program over the output's buffer, and gives the output back. Where there is no memory for the buffer std
/// drops the output, and nothing is read.
fn run_watched<'a, J: Job, N: Watch, R: Read + Drop, W: Write + Drop, D: Sink>(
    alloc: Global,
    words: &[String],
    stdin: R,
    stdout: &'a mut W,
    diag: &mut D,
) -> Option<(u8, &'a mut W)>
    requires lent { stdout.ghost_name ≡ N.writer }
    requires tells { is_some (W.contents stdout.old) ≡ N.tells }
    requires tells_left { is_some (R.remaining stdin) ≡ N.tells_left }
    ensures same { IfSome result (λ end. end.1.ghost_name ≡ N.writer) }
    ensures ends { IfSome result (λ end. EndsBuffered J.terms (map string_bytes words.now) (R.remaining stdin)
        (W.contents stdout.old) (W.contents end.1.now) end.0) }
{
    let writer = WatchedWriter::<'a, W, N>::new(stdout);
    let Ok(mut out) = BufferedSink::with_capacity(alloc, BUFFER, writer) else {
        return None;
    };
    let mut input = KnownSource::new(WatchedReader::<R, N>::new(stdin));
    let status = run::<
        J,
        KnownSource<WatchedReader<R, N>>,
        BufferedSink<WatchedWriter<'a, W, N>>,
        D,
    >(alloc, words, &mut input, &mut out, diag);
    Some((status, out.into_writer().into_writer()))
}
