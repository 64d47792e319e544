//! The program `sval`: reads JSON, CBOR or a script of calls, and writes what it read in another form.
//!
//! It ends with 0 where all was read and written, with 1 where an input is wrong, with 2 where the command line is, and
//! with 3 where reading or writing failed or memory was wanting. A reader that closes the output early ends it with 0
//! and without a message.
#![tactic(auto)]

mod cbor;
mod convert;
mod help;
mod inputs;
mod named;
mod numbers;
mod pairs;
mod plain;
mod progress;
mod report;
mod script;
mod trouble;
mod values;

use crate::help::{push_help, version};
use crate::inputs::{output_failed, run_inputs};
use crate::report::push_usage;
use std::alloc::{AllocError, Global};
use std::env::Args;
use std::process::ExitCode;
use std::{env, io};
use sval_tool as words;
use sval_tool::{Complaint, End, Stop, read_words};

/// The words behind the first, which is the program's name.
fn behind_name(alloc: Global, mut all: Args) -> Result<Vec<String>, AllocError> {
    let _name = all.next();
    all.collect(alloc)
}

/// The words of the command line.
fn given_words(rt: &HostRuntime) -> io::Result<Vec<String>> {
    Ok(behind_name(rt.alloc(), env::args(rt)?)?)
}

/// Prints the help.
fn print_help(rt: &HostRuntime) -> io::Result<()> {
    let mut text = String::new(rt.alloc());
    push_help(&mut text)?;
    print!(rt; "{text}")
}

/// Tells what is wrong with the command line.
fn tell_usage(rt: &HostRuntime, word: &str, complaint: Complaint) -> io::Result<()> {
    let mut text = String::new(rt.alloc());
    push_usage(&mut text, word, complaint)?;
    eprint!(rt; "{text}")
}

/// Ends well where the output took what was printed, or its reader closed it.
fn printed(rt: &HostRuntime, done: io::Result<()>) -> End {
    match done {
        Ok(()) => End::Done,
        Err(error) => output_failed(rt, Some(error.kind())),
    }
}

/// Does what the words ask for.
fn run(rt: &HostRuntime, words: &[String]) -> End {
    match read_words(rt.alloc(), words) {
        Ok(options) => run_inputs(rt, &options),
        Err(Stop::Help) => printed(rt, print_help(rt)),
        Err(Stop::Version) => printed(rt, print!(rt; "{}", version())),
        Err(Stop::Usage(at, complaint)) => {
            let word = words.get(at).map_or("", |word| word.as_str());
            let _ = tell_usage(rt, word, complaint);
            End::Usage
        }
        Err(Stop::NoMemory) => {
            let _ = eprint!(rt; "sval: out of memory\n");
            End::Fault
        }
    }
}

fn main(rt: HostRuntime) -> ExitCode {
    let end = match given_words(&rt) {
        Ok(words) => run(&rt, &words),
        Err(_) => {
            let _ = eprint!(&rt; "sval: the command line is not UTF-8, or memory was wanting\n");
            End::Usage
        }
    };
    ExitCode::from(end.status())
}
