//! The program `sval_json_read`: reads a text of JSON, and writes it again without white space, or the canonical script
//! of its calls.
//!
//! It ends with one of the statuses of [`sval_json_read::run_read`], or with 17 where its words can't be had.
#![tactic(auto)]

use std::io::{Stderr, Stdin, Stdout};
use std::process::ExitCode;
use sval_json_read::ReadJson;
use sval_program::run_process;

// The types say which stream is which.
fn main(rt: HostRuntime) -> ExitCode {
    run_process::<ReadJson, _, Stdin, Stdout, Stderr>(
        &rt,
        rt.stdin(),
        &mut rt.stdout(),
        rt.stderr(),
    )
}
