//! The program `sval_cbor_read`: reads an item of CBOR, and writes it as JSON without white space, or the canonical
//! script of its calls.
//!
//! It ends with one of the statuses of [`sval_cbor_read::run_cbor_read`], or with 17 where its words can't be had.
#![tactic(auto)]

use std::io::{Stderr, Stdin, Stdout};
use std::process::ExitCode;
use sval_cbor_read::ReadCbor;
use sval_program::run_process;

// The types say which stream is which.
fn main(rt: HostRuntime) -> ExitCode {
    run_process::<ReadCbor, _, Stdin, Stdout, Stderr>(
        &rt,
        rt.stdin(),
        &mut rt.stdout(),
        rt.stderr(),
    )
}
