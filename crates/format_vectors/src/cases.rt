//! Tables of cases, as [`crate::rows`] says: inputs, and what is to be seen of each.

use crate::rows::{Row, rows_of};
use crate::shown::{compare, must};
use std::alloc::Global;
use std::process::Abort;
use std::str::from_utf8;

/// A kind of case.
pub(crate) trait Case {
    /// What is seen of an input, as the text behind `= ` has it. The first word of that text says what is looked at.
    fn seen(rt: &impl Abort, alloc: Global, input: &str, due: &str) -> String;
}

/// Tries each case of a table.
pub(crate) fn try_cases<C: Case>(rt: &impl Abort, alloc: Global, table: &str) {
    for row in &rows_of(rt, alloc, table) {
        try_case::<C>(rt, alloc, row);
    }
}

/// Compares what is seen of an input with what is due.
fn try_case<C: Case>(rt: &impl Abort, alloc: Global, row: &Row) {
    let input = must(rt, from_utf8(&row.input));
    compare(rt, &C::seen(rt, alloc, input, &row.due), &row.due, input);
}
