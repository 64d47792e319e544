//! The whole program, over any words and devices.

ghost use Rattle.std.specs.Prelude.{◌≡◌, ℕ, List, Some, IfOk, IfErr, map, string_bytes};
ghost use Rattle.sval_core.specs.Values.{makes};
ghost use Rattle.sval_buffer.specs.FlatForest.{forest_in};
ghost use Rattle.sval_check.specs.Checks.{IsOneValue};
ghost use Rattle.sval_program.specs.Jobs.{ServesBytes, ServesInput, Serves};
ghost use Rattle.sval_program.specs.Runs.{Ends, Reports};
ghost use Rattle.sval_script.specs.Lines.{lines, Good};
ghost use Rattle.sval_filter.specs.Forms.{FilterForm};
ghost use Rattle.sval_filter.specs.Pruning.{IsPruned, IsPruneWant};
ghost use Rattle.sval_filter.specs.Serves.{filter_terms, IsLeftOf};

use crate::form::{Form, named_form, paths_of};
use crate::program::FilterFields;
use crate::pruning::{PruneError, prune_tree};
use std::alloc::Global;
use sval_buffer::Value;
use sval_check::check;
use sval_io::{Sink, SinkError, Source};
use sval_json::{ErrorKind, stream_to_io_write};
use sval_program::job::run;
use sval_program::{Failure, Fault, read_script};
use sval_script::Script;

/// What a form leaves of the value that a script's calls spell.
fn left_of<'v>(alloc: Global, form: &Form<'_>, script: &'v Script) -> Result<Value<'v>, PruneError>
    requires { IsOneValue (makes script.now) }
    ensures ok { IfOk result (λ left. IsPruned (makes script.now) form.now.0 form.now.1 (forest_in left)) }
    ensures err { IfErr result IsPruneWant }
{
    let paths = paths_of(alloc, form.words)?;
    prune_tree(alloc, script, form.rule, &paths)
}

/// Writes the JSON of what is left of a script's value.
fn write_json<K: Sink>(left: &Value<'_>, out: &mut K) -> Result<(), Failure>
    ensures { (bytes : List ℕ) (asked : FilterForm) → IsLeftOf (forest_in left.now) bytes asked
        → ServesBytes filter_terms K.told asked bytes result out.old out.new }
{
    match stream_to_io_write(out, left) {
        Ok(()) => Ok(()),
        Err(error) => match error.kind() {
            ErrorKind::IO => Err(Failure::Write(SinkError::Failed)),
            ErrorKind::NoMemory => Err(Failure::Write(SinkError::NoMemory)),
            ErrorKind::InvalidKey => Err(Failure::Fault(Fault::InvalidKey)),
            ErrorKind::InvalidNumber => Err(Failure::Fault(Fault::InvalidNumber)),
            ErrorKind::Generic => unreachable!("a captured value doesn't refuse"),
        },
    }
}

/// Writes what a form leaves of a script whose calls are one whole value.
fn write_value<K: Sink>(
    alloc: Global,
    form: &Form<'_>,
    script: &Script,
    out: &mut K,
) -> Result<(), Failure>
    requires { IsOneValue (makes script.now) }
    ensures { (bytes : List ℕ) → lines bytes ≡ Good script.now
        → ServesBytes filter_terms K.told form.now bytes result out.old out.new }
{
    match left_of(alloc, form, script) {
        Ok(left) => write_json(&left, out),
        Err(PruneError::NoMemory) => Err(Failure::NoMemory),
        Err(_) => unreachable!("the calls are one whole value"),
    }
}

/// Checks a script, and writes what a form leaves of the value that its calls spell. The clause holds of all bytes
/// whose lines are its calls.
fn write_script<K: Sink>(
    alloc: Global,
    form: &Form<'_>,
    script: &Script,
    out: &mut K,
) -> Result<(), Failure>
    ensures { (bytes : List ℕ) → lines bytes ≡ Good script.now
        → ServesBytes filter_terms K.told form.now bytes result out.old out.new }
{
    match check(alloc, script) {
        Ok(()) => write_value(alloc, form, script, out),
        Err(error) => Err(Failure::of_check(error, false)),
    }
}

/// Reads the input whole, and serves it as a script.
fn serve_input<I: Source, K: Sink>(
    alloc: Global,
    form: &Form<'_>,
    input: &mut I,
    out: &mut K,
) -> Result<(), Failure>
    ensures { ServesInput filter_terms I.told K.told form.now result
        input.old input.new out.old out.new }
{
    let reader = read_script(alloc, input)?;
    let script = reader.finish()?;
    write_script(alloc, form, &script, out)
}

/// Serves the words, if they are a form.
pub(crate) fn serve<I: Source, K: Sink>(
    alloc: Global,
    words: &[String],
    input: &mut I,
    out: &mut K,
) -> Result<(), Failure>
    ensures { Serves filter_terms I.told K.told (map string_bytes words.now) result
        input.old input.new out.old out.new }
{
    match named_form(words) {
        None => Err(Failure::Usage),
        Some(form) => serve_input(alloc, &form, input, out),
    }
}

/// Runs the program as [`run`] runs each, and answers its status, one of those of [`sval_program::status`].
///
/// The words are `drop` or `keep`, and then one or more words, each the labels of a path between dots, none of them
/// empty. They are tested before any path is made. The input is a script of calls. What the rule and the paths leave of
/// the value that its calls spell, as [`prune`](crate::prune) does, is written as JSON without white space. Of an input
/// one thing is due: a fault or none, and the bytes to write ([`verdict_laws`](crate::laws::verdict_laws)).
///
/// Its own statuses:
///
/// | status | comes |
/// |---|---|
/// | 3 | a line is no call |
/// | 4 | no value goes on with the call of a line |
/// | 5 | the calls are not one whole value |
/// | 6 | in what is left a map's key can't be written as a key; the sink took exactly what is written before that |
/// | 7 | in what is left a text tagged as a number is no number; the sink took exactly what is written before that |
///
/// ```
/// let mut out = VecSink::new(alloc);
/// let mut diag = VecSink::new(alloc);
/// let words = [String::from_str(alloc, "drop")?, String::from_str(alloc, "a")?];
/// let mut input = MemSource::new(b"i64 -1\n");
/// let status = run_filter(alloc, &words, &mut input, &mut out, &mut diag);
/// assert_eq!(rt; status, sval_program::status::DONE);
/// assert_eq!(rt; out.as_slice(), b"-1".as_slice());
/// ```
pub fn run_filter<I: Source, K: Sink, D: Sink>(
    alloc: Global,
    words: &[String],
    input: &mut I,
    out: &mut K,
    diag: &mut D,
) -> u8
    ensures ends { Ends filter_terms I.told K.told (map string_bytes words.now) input.old input.new
        out.old out.new result }
    ensures reports { Reports filter_terms I.told K.told (map string_bytes words.now) input.old input.new
        out.old out.new (D.told diag.old) (D.told diag.new) result }
{
    run::<FilterFields, I, K, D>(alloc, words, input, out, diag)
}
