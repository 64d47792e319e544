//! The program `sval_filter`: reads a script of calls, and writes the JSON of what a rule and paths leave of the value
//! that they spell.
//!
//! It ends with one of the statuses of [`sval_filter::run_filter`], or with 17 where its words can't be had.
#![tactic(auto)]

use std::io::{Stderr, Stdin, Stdout};
use std::process::ExitCode;
use sval_filter::FilterFields;
use sval_program::run_process;

// The types say which stream is which.
fn main(rt: HostRuntime) -> ExitCode {
    run_process::<FilterFields, _, Stdin, Stdout, Stderr>(
        &rt,
        rt.stdin(),
        &mut rt.stdout(),
        rt.stderr(),
    )
}
