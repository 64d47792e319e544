//! One input, as it is converted.

use crate::shown::{holds, must};
use std::alloc::Global;
use std::collections::VecDeque;
use std::process::Abort;
use sval_filter::{Paths, Rule};
use sval_io::{Sink, Source};
use sval_tool::{Conversion, ConvertError, Shape, Target, convert_all};

/// What is made of an input: what it is, what it is written as, and the path that is left out, if one is.
#[derive(Clone, Copy)]
pub(crate) struct Way {
    pub(crate) form: Shape,
    pub(crate) target: Target,
    pub(crate) path: &'static str,
}

/// Converts one input.
pub(crate) fn convert<I: Source + Drop, K: Sink>(
    rt: &impl Abort,
    alloc: Global,
    way: Way,
    source: I,
    out: &mut K,
) -> Result<(), ConvertError> {
    let mut paths = Paths::new(alloc);
    if !way.path.is_empty() {
        must(rt, paths.push_word(way.path));
    }
    let conversion = Conversion {
        rule: Rule::Drop,
        paths: &paths,
        target: way.target,
    };
    let mut sources = VecDeque::new(alloc);
    holds(
        rt,
        sources.push_back(source).is_ok(),
        "the room of a source",
    );
    let mut bad = Vec::new(alloc);
    convert_all(alloc, &conversion, way.form, &mut sources, &mut bad, out)
}
