//! The program `sval_cbor`: reads a script of calls, and writes the value that they spell as CBOR.
//!
//! It ends with one of the statuses of [`sval_cbor::run_cbor`], or with 17 where its words can't be had.
#![tactic(auto)]

use std::io::{Stderr, Stdin, Stdout};
use std::process::ExitCode;
use sval_cbor::WriteCbor;
use sval_program::run_process;

// The types say which stream is which.
fn main(rt: HostRuntime) -> ExitCode {
    run_process::<WriteCbor, _, Stdin, Stdout, Stderr>(
        &rt,
        rt.stdin(),
        &mut rt.stdout(),
        rt.stderr(),
    )
}
