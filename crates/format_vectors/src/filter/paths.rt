//! Paths that are made label by label, and by words.

use crate::cases::{Case, try_cases};
use crate::shown::must;
use std::alloc::Global;
use std::process::Abort;
use sval_filter::{PathError, Paths};

/// Calls of paths, one a line, and behind `paths` what they answer and leave.
struct Made;

impl Case for Made {
    fn seen(rt: &impl Abort, alloc: Global, input: &str, _due: &str) -> String {
        let mut paths = Paths::new(alloc);
        let mut answers = Vec::new(alloc);
        for call in input.lines() {
            let (name, label) = call.split_once(' ').unwrap_or((call, ""));
            must(rt, answers.push(answer(&mut paths, name, label)));
        }
        must(
            rt,
            format!(in alloc; "paths {answers:?} {:?}", paths.as_slice()),
        )
    }
}

/// What a call answers.
fn answer(paths: &mut Paths, name: &str, label: &str) -> Result<(), PathError> {
    match name {
        "new" => paths.new_path(label),
        "extend" => paths.extend_path(label),
        _ => paths.push_word(label),
    }
}

/// Calls by the front of their names, each with its label or word, what they answer, and the paths.
const MADE: &'static str = r#"
extend b
= paths [Err(NoPath)] []

extend b
new a
extend b.c
push user.password
extend
= paths [Err(NoPath), Ok(()), Ok(()), Ok(()), Ok(())] [["a", "b.c"], ["user", "password", ""]]

push
push .
push a.
push .a
push a..b
= paths [Err(BadWord), Err(BadWord), Err(BadWord), Err(BadWord), Err(BadWord)] []

extend b
new a
extend b
push a..b
= paths [Err(NoPath), Ok(()), Ok(()), Err(BadWord)] [["a", "b"]]
"#;

#[test]
fn paths_by_labels_and_words(rt: HostRuntime) {
    try_cases::<Made>(&rt, rt.alloc(), MADE);
}
