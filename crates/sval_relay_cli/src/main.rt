//! The program `sval_relay`: reads a script of calls, and writes the JSON of the value that they spell, or of each of
//! the values, or their canonical scripts; or it makes a script, and tells how long it and its JSON are.
//!
//! It ends with one of the statuses of [`sval_relay::run`], which is one of [`sval_relay::status`], or with 17 where
//! its words can't be had.
#![tactic(auto)]

use std::io::{Stderr, Stdin, Stdout};
use std::process::ExitCode;
use sval_program::run_process;
use sval_relay::Relay;

// The types say which stream is which.
fn main(rt: HostRuntime) -> ExitCode {
    run_process::<Relay, _, Stdin, Stdout, Stderr>(&rt, rt.stdin(), &mut rt.stdout(), rt.stderr())
}
