//! Inputs of many levels, for which the stack of the machine has no room.

use crate::shown::must;
use std::alloc::Global;
use std::process::Abort;

/// How many levels there are.
const COUNT: usize = 500_000;

/// The levels that are written `BEGIN|INNER|END`: the begin of each, what is inside the innermost, and the end of each.
pub(crate) fn nested(rt: &impl Abort, alloc: Global, levels: &str) -> String {
    let mut parts = levels.split('|');
    let begins = must(rt, parts.next().unwrap_or("").repeat(alloc, COUNT));
    let inner = parts.next().unwrap_or("");
    let ends = must(rt, parts.next().unwrap_or("").repeat(alloc, COUNT));
    must(rt, [begins.as_str(), inner, ends.as_str()].concat(alloc))
}
