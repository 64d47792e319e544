//! The whole program, over any words and devices.

ghost use Rattle.std.specs.Prelude.{◌≡◌, ◌<◌, ◌^◌, ℕ, List, [], Some, length, map, string_bytes};
ghost use Rattle.sval_program.specs.Jobs.{ServesBytes, ServesInput};
ghost use Rattle.sval_program.specs.Runs.{Ends, Reports};
ghost use Rattle.sval_script.specs.Lines.{lines, Good};
ghost use Rattle.sval_relay.specs.declared.way.Form.TheVariants.{Serve, Made};
ghost use Rattle.sval_relay.specs.Headline.{IsDoneOnlyWithJson};
ghost use Rattle.sval_relay.specs.Serves.{relay_terms, failure_of_relay, ended_by};
ghost use Rattle.sval_relay.specs.Verdict.{one_in, all_in};
ghost use Rattle.sval_relay.specs.WrittenTrees.{IsOfScript};

use crate::lists::write_list;
use crate::made::relay_made;
use crate::one_value::write_checked;
use crate::relaying::RelayError;
use crate::streams::Relay;
use crate::way::{Task, Way};
use std::alloc::Global;
use sval_check::check_all;
use sval_io::{Sink, SinkError, Source};
use sval_program::{Failure, Fault, job, read_script};
use sval_script::Script;

/// Why values weren't written, or not whole, where many may come or not.
fn unwritten(error: RelayError, many: bool) -> Failure
    ensures { result ≡ failure_of_relay many error }
{
    match error {
        RelayError::BadLine { line } => Failure::Fault(Fault::BadLine { line }),
        RelayError::BadCall { line } => Failure::Fault(Fault::BadCall { line }),
        RelayError::Unfinished => Failure::Fault(Fault::Unfinished { many }),
        RelayError::InvalidKey => Failure::Fault(Fault::InvalidKey),
        RelayError::InvalidNumber => Failure::Fault(Fault::InvalidNumber),
        RelayError::Write => Failure::Write(SinkError::Failed),
        RelayError::NoMemory => Failure::Write(SinkError::NoMemory),
    }
}

/// How writing values ended, where many may come or not.
fn ended(written: Result<(), RelayError>, many: bool) -> Result<(), Failure>
    ensures { result ≡ ended_by many written }
{
    match written {
        Ok(()) => Ok(()),
        Err(error) => Err(unwritten(error, many)),
    }
}

/// Serves a script that has to spell one value. The clause holds of all bytes whose lines are its calls.
fn serve_value<K: Sink>(
    alloc: Global,
    script: &Script,
    way: Way,
    out: &mut K,
) -> Result<(), Failure>
    requires few { length script.now < 2 ^ 64 }
    requires read { IsOfScript script.now }
    ensures { (bytes : List ℕ) → length bytes < 2 ^ 64 → lines bytes ≡ Good script.now
        → ServesBytes relay_terms K.told (Serve (one_in way)) bytes result out.old out.new }
{
    match write_checked(alloc, script, way, out) {
        Ok(written) => ended(written, false),
        Err(error) => Err(Failure::of_check(error, false)),
    }
}

/// Serves a script that may spell many values, as [`serve_value`] does one.
fn serve_values<K: Sink>(
    alloc: Global,
    script: &Script,
    way: Way,
    out: &mut K,
) -> Result<(), Failure>
    requires few { length script.now < 2 ^ 64 }
    requires read { IsOfScript script.now }
    ensures { (bytes : List ℕ) → length bytes < 2 ^ 64 → lines bytes ≡ Good script.now
        → ServesBytes relay_terms K.told (Serve (all_in way)) bytes result out.old out.new }
{
    match check_all(alloc, script) {
        Ok(ends) => ended(write_list(alloc, script.as_slice(), &ends, way, out), true),
        Err(error) => Err(Failure::of_check(error, true)),
    }
}

/// Serves a script that was read.
fn serve_script<K: Sink>(
    alloc: Global,
    script: &Script,
    task: Task,
    out: &mut K,
) -> Result<(), Failure>
    requires few { length script.now < 2 ^ 64 }
    requires read { IsOfScript script.now }
    ensures { (bytes : List ℕ) → length bytes < 2 ^ 64 → lines bytes ≡ Good script.now
        → ServesBytes relay_terms K.told (Serve task) bytes result out.old out.new }
{
    if task.many {
        serve_values(alloc, script, task.way, out)
    } else {
        serve_value(alloc, script, task.way, out)
    }
}

/// Reads the input whole, and serves it as a script.
pub(crate) fn serve_input<I: Source, K: Sink>(
    alloc: Global,
    task: Task,
    input: &mut I,
    out: &mut K,
) -> Result<(), Failure>
    ensures { ServesInput relay_terms I.told K.told (Serve task) result input.old input.new out.old out.new }
{
    let reader = read_script(alloc, input)?;
    let script = reader.finish()?;
    serve_script(alloc, &script, task, out)
}

/// Writes the sizes of a script of `count` records, and of its JSON.
pub(crate) fn serve_made<K: Sink>(alloc: Global, count: u32, out: &mut K) -> Result<(), Failure>
    ensures { ServesBytes relay_terms K.told (Made count) [] result out.old out.new }
{
    Ok(relay_made(alloc, count, out)?)
}

/// Runs the program as [`job::run`] runs each, and answers its status, one of those of [`status`](crate::status).
///
/// The words are one of these forms:
///
/// | words | writes |
/// |---|---|
/// | `direct` | the JSON of the one value that the script's calls spell |
/// | `buffered` | the same, after the value was captured |
/// | `direct beside`, `buffered beside` | the same, with the variants of enums beside their names |
/// | `calls` | the canonical script of the value, after it was captured |
/// | one of these and `lines` | the same of each of the values that the calls spell; JSON has a line feed behind it |
/// | `made N` | the line `calls C json B`: how many calls a made script of `N` records has, and how long its JSON is |
///
/// The script is the input. For `made N`, where `N` is a decimal up to 50,000, it reads nothing: what is due is what
/// [`relay_made`](crate::relay_made) writes. Of an input one thing is due
/// ([`verdict_laws`](crate::laws::verdict_laws)).
///
/// `done` says what status 0 means for `direct` and `buffered`: the script's calls spell one tree, and
/// exactly the text of its JSON was written. The other clauses say all of a run.
///
/// Its own statuses:
///
/// | status | comes |
/// |---|---|
/// | 3 | a line is no call |
/// | 4 | no value, or with `lines` no list of values, goes on with the call of a line |
/// | 5 | the calls are not one whole value, or with `lines` not whole values |
/// | 6 | a map's key can't be written as a key; the sink took what is written up to there |
/// | 7 | a text tagged as a number is no number; the sink took what is written up to there |
///
/// With `lines` all calls are checked before anything is written. After 6 and 7 what was written before the refused
/// value stays, and neither comes with `calls`. With `made N` only 0, 8 and 10 come.
///
/// Only with `lines` after `buffered`, `buffered beside` or `calls`, where each value is captured by itself, may memory
/// be wanting between two parts of what is written. Then a first part of what is due may have been taken, even all of
/// it, and no count of the sink moved, unless its count of wants rose.
///
/// ```
/// let mut out = VecSink::new(alloc);
/// let mut diag = VecSink::new(alloc);
/// let words = [String::from_str(alloc, "direct")?];
/// let status = run(alloc, &words, &mut MemSource::new(b"bool true\n"), &mut out, &mut diag);
/// assert_eq!(rt; status, status::DONE);
/// assert_eq!(rt; out.as_slice(), b"true".as_slice());
/// ```
pub fn run<I: Source, K: Sink, D: Sink>(
    alloc: Global,
    words: &[String],
    input: &mut I,
    out: &mut K,
    diag: &mut D,
) -> u8
    ensures done { IsDoneOnlyWithJson (map string_bytes words.now) (I.told input.old) (K.told out.old) (K.told out.new)
        result }
    ensures ends { Ends relay_terms I.told K.told (map string_bytes words.now) input.old input.new
        out.old out.new result }
    ensures reports { Reports relay_terms I.told K.told (map string_bytes words.now) input.old input.new
        out.old out.new (D.told diag.old) (D.told diag.new) result }
{
    job::run::<Relay, I, K, D>(alloc, words, input, out, diag)
}
