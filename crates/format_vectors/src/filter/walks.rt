//! Walks over values, part by part.

use crate::cases::{Case, try_cases};
use crate::shown::{must, push};
use std::alloc::Global;
use std::process::Abort;
use sval_filter::{Paths, Rule, Walk};

/// Parts that a walk takes, one a line, and behind `drop` or `keep` whether each stays. The paths are `a.b` and `c`.
struct Walked;

impl Case for Walked {
    fn seen(rt: &impl Abort, alloc: Global, input: &str, due: &str) -> String {
        let mut paths = Paths::new(alloc);
        must(rt, paths.push_word("a.b"));
        must(rt, paths.push_word("c"));
        let (name, rule) = rule_of(due);
        let mut walk = Walk::new(alloc, rule, &paths);
        let mut seen = must(rt, String::from_str(alloc, name));
        for part in input.lines() {
            push(rt, &mut seen, take_part(rt, &mut walk, part));
        }
        seen
    }
}

/// The rule that is named first, and its name.
fn rule_of(due: &str) -> (&'static str, Rule) {
    if due.starts_with("keep") {
        ("keep", Rule::Keep)
    } else {
        ("drop", Rule::Drop)
    }
}

/// Whether a part stays.
fn take_part(rt: &impl Abort, walk: &mut Walk<'_>, part: &str) -> &'static str {
    let stays = match part {
        "begin" => must(rt, walk.begin()),
        "end" => walk.end(),
        "value" => walk.value(),
        name => must(rt, walk.name(name)),
    };
    if stays { " yes" } else { " no" }
}

/// Begins, ends, values and names.
const WALKED: &'static str = r#"
value
= drop yes

value
= keep yes

begin
a
begin
b
begin
a
value
end
c
value
end
c
begin
end
b
value
end
= drop yes yes yes no no no no no yes yes yes no no no yes yes yes

begin
a
begin
b
begin
x
value
end
c
value
end
c
begin
x
value
end
b
value
end
= keep yes yes yes yes yes yes yes yes no no yes yes yes yes yes yes no no yes

begin
begin
a
begin
b
value
a
value
end
end
value
end
= drop yes yes yes yes no no yes yes yes yes yes yes
"#;

#[test]
fn parts_that_stay(rt: HostRuntime) {
    try_cases::<Walked>(&rt, rt.alloc(), WALKED);
}
