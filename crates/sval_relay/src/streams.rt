//! The whole program, over std's readers and writers.

ghost use Rattle.std.specs.Prelude.{◌≡◌, ◌↔◌, true, None, map, string_bytes};
ghost use Rattle.std.specs.Io.KnownBytes.{Keeps};
ghost use Rattle.sval_program.specs.Runs.{is_status, is_unwritten};
ghost use Rattle.sval_program.specs.Streams.{StreamsEnd, AppendsAllDue};
ghost use Rattle.sval_relay.specs.Serves.{relay_terms};
ghost use Rattle.sval_relay.specs.Ways.{relay_form};

use crate::made::MadeError;
use crate::running::{serve_input, serve_made};
use crate::way::{Form, named_form};
use std::alloc::Global;
use std::io::{Read, Write};
use sval_io::{Sink, SinkError, Source};
use sval_program::status::{DONE, USAGE};
use sval_program::{Failure, Job, Line, run_streams};

impl From<MadeError> for Failure {
    ghost use Rattle.sval_relay.specs.Serves.{failure_of_made};

    ghost from_gives = { λ error failure. failure ≡ failure_of_made error };

    fn from(error: MadeError) -> Failure {
        match error {
            MadeError::Write => Failure::Write(SinkError::Failed),
            MadeError::NoMemory => Failure::Write(SinkError::NoMemory),
        }
    }
}

/// The program, as [`run_process`](sval_program::run_process) and [`run_streams`] run it: [`run`](crate::run) says more
/// of its runs.
pub struct Relay;

impl Job for Relay {
    ghost use Rattle.sval_relay.specs.declared.way.Form.{Form};

    ghost Form = { Form };

    ghost terms = { relay_terms };

    fn usage() -> Line {
        Line::text(
            "usage: sval_relay direct [beside] [lines]|buffered [beside] [lines]|calls [lines]|made N\n",
        )
    }

    fn takes(words: &[String]) -> bool {
        named_form(words).is_some()
    }

    fn serve<I: Source, K: Sink>(
        alloc: Global,
        words: &[String],
        input: &mut I,
        out: &mut K,
    ) -> Result<(), Failure> {
        match named_form(words) {
            None => Err(Failure::Usage),
            Some(Form::Serve(task)) => serve_input(alloc, task, input, out),
            Some(Form::Made(count)) => serve_made(alloc, count, out),
        }
    }
}

/// Runs the program on its words over a reader and two writers, and answers its status. The forms of the words and the
/// statuses are those of [`run`]. With `lines` after the words of a form many values may come, and for `made N` the
/// reader isn't read.
///
/// Where the reader tells what it has left, and the output what it holds, as a slice and a `Vec` do: at status 0
/// exactly the bytes that are due of the script were appended to the output.
///
/// The output is held back in a buffer of 65,536 bytes until it is full. What is left of it is passed on before status
/// 0 is answered, and with any other status at the end, where a failure isn't told. Memory for that buffer is asked
/// for only where the words are a form; where it is wanting the status is 10, and nothing is read.
///
/// ```
/// let mut json = Vec::new(alloc);
/// let words = [String::from_str(alloc, "direct")?];
/// let status = relay_streams(alloc, &words, b"bool true\n".as_slice(), &mut json, Vec::new(alloc));
/// assert_eq!(rt; status, status::DONE);
/// assert_eq!(rt; json.as_slice(), b"true".as_slice());
/// ```
pub fn relay_streams<R: Read + Drop, W: Write + Drop, D: Write + Drop>(
    alloc: Global,
    words: &[String],
    stdin: R,
    stdout: &mut W,
    stderr: D,
) -> u8
    ensures known { is_status relay_terms result ≡ true }
    ensures usage { (result ≡ USAGE) ↔ (relay_form (map string_bytes words.now) ≡ None) }
    ensures ends { StreamsEnd relay_terms (map string_bytes words.now) (R.remaining stdin)
        (W.contents stdout.old) (W.contents stdout.new) result }
    ensures done { result ≡ DONE → AppendsAllDue relay_terms (map string_bytes words.now) (R.remaining stdin)
        (W.contents stdout.old) (W.contents stdout.new) }
    ensures unwritten { is_unwritten relay_terms result ≡ true → Keeps (W.contents stdout.old) (W.contents stdout.new) }
    ensures nothing_written { result ≡ USAGE → stdout.new ≡ stdout.old }
{
    run_streams::<Relay, R, W, D>(alloc, words, stdin, stdout, stderr)
}
