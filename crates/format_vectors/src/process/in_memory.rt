//! A process whose words and streams are in memory.

use crate::process::row::ProgramRow;
use crate::shown::holds;
use std::alloc::Global;
use std::env::FillError;
use std::process::{Abort, ExitCode};
use std::rt::Env;
use sval_program::{Job, run_process};

/// A process with these words, the program's name first.
#[derive(Drop)]
struct Process<'a> {
    words: &'a [Vec<u8>],
}

impl<'a> Env for Process<'a> {
    fn arg(&self, i: usize, buf: &mut [u8]) -> Result<usize, FillError> {
        let Some(word) = self.words.get(i) else {
            return Err(FillError::NotPresent);
        };
        let word = word.as_slice();
        let Some(place) = buf.get_mut(..word.len()) else {
            return Err(FillError::TooLong);
        };
        place.copy_from_slice(word);
        Ok(word.len())
    }

    fn var(&self, _name: &str, _buf: &mut [u8]) -> Result<usize, FillError> {
        Err(FillError::NotPresent)
    }

    fn var_at(&self, _i: usize, _buf: &mut [u8]) -> Result<usize, FillError> {
        Err(FillError::NotPresent)
    }
}

/// Runs a program in a process, and compares what comes of it with the row.
pub(crate) fn try_process<J: Job>(rt: &impl Abort, alloc: Global, row: &ProgramRow<'_>) {
    let mut stdout = Vec::new(alloc);
    let mut stderr = Vec::new(alloc);
    let env = (Process { words: &row.words }, alloc);
    let status = run_process::<J, _, _, _, _>(&env, row.input, &mut stdout, &mut stderr);
    holds(rt, status == ExitCode::from(row.status), row.name);
    holds(rt, stdout == row.written, row.name);
    holds(rt, stderr == row.line, row.name);
}
