//! Programs that write what is due of an input: a program says what, and its run is the same for all.

ghost use Rattle.std.specs.Prelude.{◌≡◌, map, string_bytes};
ghost use Rattle.sval_program.specs.Failures.{status_of, failure_line};
ghost use Rattle.sval_program.specs.Jobs.{Serves, Works};
ghost use Rattle.sval_program.specs.Reports.{TellsLine};
ghost use Rattle.sval_program.specs.Runs.{Ends, Reports};

use crate::failure::Failure;
use crate::line::{Line, tell};
use crate::status::DONE;
use std::alloc::Global;
use sval_io::{Sink, Source};

/// A program that writes what is due of an input, which it reads whole where its words ask for it.
pub trait Job {
    ghost use Rattle.std.specs.Option.{is_some};
    ghost use Rattle.sval_program.specs.Jobs.{Terms};

    /// What its words may ask for.
    ghost Form: { Type 0 };

    /// Its words, what is due of an input, and its faults.
    ghost terms: { Terms Form };

    /// The line for words that are no form.
    fn usage() -> Line
        ensures { result ≡ terms.usage };

    /// Whether words are one of its forms.
    fn takes(words: &[String]) -> bool
        ensures { result ≡ is_some (terms.form_named (map string_bytes words.now)) };

    /// Writes what is due, if the words are a form. Where they ask for the input, it is read to its end. The sink need
    /// not be flushed: [`work`] does that.
    fn serve<I: Source, K: Sink>(
        alloc: Global,
        words: &[String],
        input: &mut I,
        out: &mut K,
    ) -> Result<(), Failure>
        ensures { Serves terms I.told K.told (map string_bytes words.now) result
            input.old input.new out.old out.new };
}

/// Does all of a program's work but telling why it failed, and answers how it ended. The third device has no part in
/// it.
///
/// [`run`] tells that device how it ended, and answers the status. So the status, and what is left of the source and
/// the sink, are such as `work` may give.
///
/// # Errors
///
/// Each [`Failure`] comes only where its status may come, as `Ends` says.
pub fn work<J: Job, I: Source, K: Sink>(
    alloc: Global,
    words: &[String],
    input: &mut I,
    out: &mut K,
) -> Result<(), Failure>
    ensures works { Works J.terms I.told K.told (map string_bytes words.now) result
        input.old input.new out.old out.new }
    ensures ends { Ends J.terms I.told K.told (map string_bytes words.now) input.old input.new
        out.old out.new (status_of result) }
{
    J::serve(alloc, words, input, out)?;
    Ok(out.flush()?)
}

/// Tells the third device how the program ended, and answers the status.
fn conclude<J: Job, D: Sink>(ended: Result<(), Failure>, diag: &mut D) -> u8
    ensures status { result ≡ status_of ended }
    ensures tells { TellsLine (D.told diag.old) (failure_line J.terms.usage ended) (D.told diag.new) }
{
    match ended {
        Ok(()) => DONE,
        Err(failure) => {
            tell(&failure.line(J::usage()), diag);
            failure.status()
        }
    }
}

/// Runs a program on its words, its devices and an allocator, and answers its status.
///
/// The words are those after the program's name. Where they ask for the input, it is read to its end, at most
/// 16,777,216 bytes and one more to see that there are too many. Where the status isn't 0, one line is written to `diag`
/// that says why. Whatever `diag` answers, the status and what is left of the input and the output are such as [`work`]
/// may give, which has no `diag`.
///
/// Beside the statuses of its own faults each program has these:
///
/// | status | comes |
/// |---|---|
/// | 0 | the sink took exactly what is due, and holds back nothing of it, as far as it says so |
/// | 2 | the words are no form; nothing is read |
/// | 8 | only where the output failed |
/// | 9 | only where the input failed, and wherever its count of faults moved |
/// | 10 | memory was wanting |
/// | 11 | the input is longer than is kept |
///
/// Where the words ask for the input and neither device fails, the status is the one that the input asks for, or 10; of
/// an input that is too long, 11 or 10. After 10 the sink is as it was, unless its own count of wants rose, or memory
/// may be wanting between two parts of what is written. After 8, and where 10 doesn't leave the sink as it was, a first
/// part of what is due may have been taken.
///
/// What is due is `Due` of the job's terms. `Ends` says when each status comes and what is left of the devices, and
/// `Reports` which line is told.
pub fn run<J: Job, I: Source, K: Sink, D: Sink>(
    alloc: Global,
    words: &[String],
    input: &mut I,
    out: &mut K,
    diag: &mut D,
) -> u8
    ensures ends { Ends J.terms I.told K.told (map string_bytes words.now) input.old input.new
        out.old out.new result }
    ensures reports { Reports J.terms I.told K.told (map string_bytes words.now) input.old input.new
        out.old out.new (D.told diag.old) (D.told diag.new) result }
{
    let ended = work::<J, I, K>(alloc, words, input, out);
    conclude::<J, D>(ended, diag)
}
