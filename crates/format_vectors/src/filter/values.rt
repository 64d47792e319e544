//! Values that are pruned.

use crate::cases::{Case, try_cases};
use crate::shown::must;
use std::alloc::Global;
use std::process::Abort;
use sval_filter::{Paths, PruneError, Rule, prune};
use sval_json::stream_to_string;
use sval_script::Script;

/// Scripts with words, and what these leave of its value as JSON, or why nothing is left. Words are those of the
/// program: a rule, and paths.
const LEFT: &'static str = r#"
record_begin - - - 3
record_value_begin - =6669656c645f30
i64 1
record_value_end - =6669656c645f30
record_value_begin - =6669656c645f31
bool true
record_value_end - =6669656c645f31
record_value_begin - =6669656c645f32
text_begin -
text_fragment =736f6d652074657874
text_end
record_value_end - =6669656c645f32
record_end - - -
= drop field_1: {"field_0":1,"field_2":"some text"}
= keep field_2: {"field_2":"some text"}
= keep none: {}
= drop field: {"field_0":1,"field_1":true,"field_2":"some text"}
= drop field_0.a: {"field_0":1,"field_1":true,"field_2":"some text"}
= drop: {"field_0":1,"field_1":true,"field_2":"some text"}

enum_begin - - -
record_begin - =56 - 1
record_value_begin - =61
i64 1
record_value_end - =61
record_end - =56 -
enum_end - - -
= drop a: {"V":{}}
= drop a.b: {"V":{"a":1}}

map_begin 1
map_key_begin
text_begin -
text_fragment =6b
text_end
map_key_end
map_value_begin
record_begin - - - 1
record_value_begin - =61
i64 1
record_value_end - =61
record_end - - -
map_value_end
map_end
= drop k: {}
= drop k.a: {"k":{}}

map_begin 1
map_key_begin
tag - =6b -
map_key_end
map_value_begin
record_begin - - - 1
record_value_begin - =61
i64 1
record_value_end - =61
record_end - - -
map_value_end
map_end
= drop k: {"k":{"a":1}}
= keep k: {}

␄
= drop: Unfinished

seq_begin -
= drop: Unfinished

null
null
= drop: BadCall { at: 2 }

seq_end
= drop: BadCall { at: 1 }

seq_begin -
seq_value_begin
seq_end
= drop: BadCall { at: 3 }
"#;

/// What words leave of the value of a script.
fn left(rt: &impl Abort, alloc: Global, lines: &str, words: &str) -> String {
    let script = must(rt, Script::read(alloc, lines.as_bytes()));
    let paths = paths_of(rt, alloc, words);
    let pruned: Result<sval_buffer::Value<'_>, PruneError> = prune(
        alloc,
        &script,
        rule_of(words),
        &paths,
    );
    match pruned {
        Ok(value) => must(rt, stream_to_string(alloc, &value)),
        Err(error) => must(rt, format!(in alloc; "{error:?}")),
    }
}

/// The rule that the first of these words asks for.
fn rule_of(words: &str) -> Rule {
    if words.starts_with("drop") {
        Rule::Drop
    } else {
        Rule::Keep
    }
}

/// The paths of these words behind the first.
fn paths_of(rt: &impl Abort, alloc: Global, words: &str) -> Paths {
    let mut paths = Paths::new(alloc);
    for word in words.split(' ').skip(1) {
        must(rt, paths.push_word(word));
    }
    paths
}

/// A script, and behind words and a colon what they leave of its value.
struct Pruned;

impl Case for Pruned {
    fn seen(rt: &impl Abort, alloc: Global, input: &str, due: &str) -> String {
        let (words, _json) = due.split_once(": ").unwrap_or((due, ""));
        let left = left(rt, alloc, input, words);
        must(rt, format!(in alloc; "{words}: {left}"))
    }
}

#[test]
fn values_that_are_pruned(rt: HostRuntime) {
    try_cases::<Pruned>(&rt, rt.alloc(), LEFT);
}
