//! Programs, in a process.

ghost use Rattle.std.specs.Prelude.{◌≡◌, ◌≢◌, ◌⊎◌, true, drop, IfOk};
ghost use Rattle.std.specs.IoError.{error_kind};
ghost use Rattle.std.specs.Process.{exit_status};
ghost use Rattle.std.specs.Vec.Iter.{into_iter_items};
ghost use Rattle.sval_program.specs.Runs.{is_status};
ghost use Rattle.sval_program.specs.Streams.{ProcessEnd};

use crate::job::Job;
use crate::program::run_streams;
use crate::status::{NO_MEMORY, NO_WORDS};
use std::alloc::{AllocError, Global};
use std::env::Args;
use std::io::{ErrorKind, Read, Write};
use std::process::ExitCode;
use std::rt::Env;
use std::{env, io};

/// The status where the system gave an error in place of the words: [`NO_MEMORY`] where memory was wanting for them,
/// and else [`NO_WORDS`].
pub fn status_without_words(error: &io::Error) -> u8
    ensures no_memory { error_kind error.now ≡ ErrorKind.OutOfMemory → result ≡ NO_MEMORY }
    ensures no_words { error_kind error.now ≢ ErrorKind.OutOfMemory → result ≡ NO_WORDS }
    ensures either { (result ≡ NO_WORDS) ⊎ (result ≡ NO_MEMORY) }
{
    match error.kind() {
        ErrorKind::OutOfMemory => NO_MEMORY,
        _ => NO_WORDS,
    }
}

/// The words after the first, which is the program's name.
fn after_name(alloc: Global, mut all: Args) -> Result<Vec<String>, AllocError>
    ensures { IfOk result (λ words. words.items ≡ drop 1 (into_iter_items all)) }
{
    let _name = all.next();
    all.collect(alloc)
}

/// The words after the program's name.
fn words<E: Env + AllocGlobal>(env: &E) -> io::Result<Vec<String>> {
    Ok(after_name(env.alloc(), env::args(env)?)?)
}

/// Runs a program on the words of a process over three streams, as [`run_streams`](crate::run_streams) does, and
/// answers its status. Where the words can't be had, as where one isn't UTF-8, nothing is said and the status is 17.
///
/// ```
/// fn main(rt: HostRuntime) -> ExitCode {
///     run_process::<Relay, _, Stdin, Stdout, Stderr>(&rt, rt.stdin(), &mut rt.stdout(), rt.stderr())
/// }
/// ```
pub fn run_process<J: Job, E: Env + AllocGlobal, R: Read + Drop, W: Write + Drop, D: Write + Drop>(
    env: &E,
    stdin: R,
    stdout: &mut W,
    stderr: D,
) -> ExitCode
    ensures known { (is_status J.terms (exit_status result) ≡ true) ⊎ (exit_status result ≡ NO_WORDS) }
    ensures ends { ProcessEnd J.terms (R.remaining stdin)
        (W.contents stdout.old) (W.contents stdout.new) (exit_status result) }
{
    match words(env) {
        Ok(words) => {
            let status = run_streams::<J, R, W, D>(env.alloc(), &words, stdin, stdout, stderr);
            ExitCode::from(status)
        }
        Err(error) => ExitCode::from(status_without_words(&error)),
    }
}
