//! Texts that are read within limits.

use crate::cases::{Case, try_cases};
use crate::shown::{holds, must};
use std::alloc::{AllocError, Global};
use std::process::Abort;
use sval_json_read::{JsonDoc, LimitedError, Limits};

/// A text, and behind `limits` how many levels and nodes it may have, and whether it is `within` these, or the place of
/// the byte that goes too `deep` or begins too `many`. Each front is read as without limits up to that byte, and tells
/// the same error behind it.
struct Limited;

impl Case for Limited {
    fn seen(rt: &impl Abort, alloc: Global, input: &str, due: &str) -> String {
        let limits = limits_of(rt, due);
        let error = JsonDoc::read_with(alloc, input.as_bytes(), limits).err();
        holds(
            rt,
            fronts_agree(alloc, input.as_bytes(), limits, error),
            input,
        );
        let told = must(rt, told(alloc, error));
        let (depth, nodes) = (limits.depth, limits.nodes);
        must(rt, format!(in alloc; "limits {depth} {nodes}: {told}"))
    }
}

/// How many levels and nodes a row allows.
pub(crate) fn limits_of(rt: &impl Abort, due: &str) -> Limits {
    let (allowed, _told) = due.split_once(": ").unwrap_or((due, ""));
    let mut words = allowed.split(' ').skip(1);
    Limits {
        depth: must(rt, words.next().unwrap_or("").parse::<usize>()),
        nodes: must(rt, words.next().unwrap_or("").parse::<usize>()),
    }
}

/// What an error tells.
fn told(alloc: Global, error: Option<LimitedError>) -> Result<String, AllocError> {
    match error {
        None => String::from_str(alloc, "within"),
        Some(LimitedError::TooDeep { at }) => format!(in alloc; "deep {at}"),
        Some(LimitedError::TooMany { at }) => format!(in alloc; "many {at}"),
        Some(LimitedError::Read(error)) => format!(in alloc; "{error:?}"),
    }
}

/// The place that an error names, or the greatest number.
fn place_of(error: Option<LimitedError>) -> u64 {
    match error {
        Some(LimitedError::TooDeep { at } | LimitedError::TooMany { at }) => at,
        _ => u64::MAX,
    }
}

/// Whether each front is read as without limits up to the byte that passes one, and tells this error behind it.
fn fronts_agree(alloc: Global, bytes: &[u8], limits: Limits, error: Option<LimitedError>) -> bool {
    let place = place_of(error);
    for count in 0..=bytes.len() {
        let front = &bytes[..count];
        let seen = JsonDoc::read_with(alloc, front, limits).err();
        let due = if place < count as u64 {
            error
        } else {
            JsonDoc::read(alloc, front).err().map(LimitedError::Read)
        };
        if seen != due {
            return false;
        }
    }
    true
}

const LIMITED: &'static str = r#"
1␄
= limits 0 1: within
"[[["␄
= limits 0 1: within
1␄
= limits 0 0: many 0
 true␄
= limits 0 0: many 1
 []␄
= limits 0 0: deep 1
[]␄
= limits 0 0: deep 0
[]␄
= limits 1 1: within
[[],[],{}]␄
= limits 2 4: within
[[],[[]]]␄
= limits 2 9: deep 5
{"a":{}}␄
= limits 1 9: deep 5
["\"[", [{␄
= limits 2 9: deep 9
{"a":[1]}␄
= limits 2 4: within
{"a":[1]}␄
= limits 2 3: many 6
{"a":[1]}␄
= limits 2 2: many 5
{"a":[1]}␄
= limits 2 1: many 1
[1,2 , -3.5e1]␄
= limits 1 3: many 7
[null,false,""]␄
= limits 1 3: many 12
[[1],2]␄
= limits 2 3: many 5
[1, "2", {"3": null}]␄
= limits 2 6: within
"#;

#[test]
fn limits(rt: HostRuntime) {
    try_cases::<Limited>(&rt, rt.alloc(), LIMITED);
}

#[test]
fn open_levels_of_a_stranger(rt: HostRuntime) {
    let bytes = must(&rt, b"[".as_slice().repeat(rt.alloc(), 1_000_000));
    let limits = Limits {
        depth: 128,
        nodes: 1000,
    };
    let seen = JsonDoc::read_with(rt.alloc(), &bytes, limits).err();
    holds(
        &rt,
        seen == Some(LimitedError::TooDeep { at: 128 }),
        "many levels",
    );
}
