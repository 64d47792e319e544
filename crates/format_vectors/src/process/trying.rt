//! Tables of rows of programs, as [`crate::rows`] says. What is due is one of these:
//!
//! ```text
//! = run WORDS: STATUS TEXT|LINE     what these words give in a process
//! = faults WORDS: STATUS TEXT|LINE  the same, and also over devices that fail
//! = long WORDS: STATUS TEXT|LINE    what they give over inputs that are one byte longer than is read
//! ```

use crate::process::faults::{try_faults, try_long};
use crate::process::in_memory::try_process;
use crate::process::row::ProgramRow;
use crate::rows::{Row, rows_of};
use crate::shown::holds;
use std::alloc::Global;
use std::process::Abort;
use sval_program::Job;

/// Tries each row of a table.
pub(crate) fn try_rows<J: Job>(rt: &impl Abort, alloc: Global, table: &str) {
    for row in &rows_of(rt, alloc, table) {
        try_row::<J>(rt, alloc, row);
    }
}

/// Tries a row as its first word says.
fn try_row<J: Job>(rt: &impl Abort, alloc: Global, row: &Row) {
    let (kind, due) = row.due.split_once(' ').unwrap_or((&row.due, ""));
    let row = ProgramRow::read(rt, alloc, row, due);
    match kind {
        "run" => try_process::<J>(rt, alloc, &row),
        "faults" => {
            try_process::<J>(rt, alloc, &row);
            try_faults::<J>(rt, alloc, &row);
        }
        "long" => try_long::<J>(rt, alloc, &row),
        _ => holds(rt, false, kind),
    }
}
