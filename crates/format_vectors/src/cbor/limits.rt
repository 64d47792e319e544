//! Items that are read within limits.

use crate::cases::{Case, try_cases};
use crate::cbor::items::bytes_of;
use crate::json::limits::limits_of;
use crate::shown::{holds, must};
use std::alloc::{AllocError, Global};
use std::process::Abort;
use sval_cbor_read::{CborDoc, CborLimitedError, Limits};

/// Bytes in hex, and behind `limits` how many levels and nodes they may have, and whether they are `within` these, or the
/// place of the head that goes too `deep` or begins too `many`. Each front is read as without limits up to that head.
struct Limited;

impl Case for Limited {
    fn seen(rt: &impl Abort, alloc: Global, input: &str, due: &str) -> String {
        let limits = limits_of(rt, due);
        let bytes = bytes_of(rt, alloc, input);
        let error = CborDoc::read_with(alloc, &bytes, limits).err();
        holds(rt, fronts_agree(alloc, &bytes, limits, error), input);
        let told = must(rt, told(alloc, error));
        let (depth, nodes) = (limits.depth, limits.nodes);
        must(rt, format!(in alloc; "limits {depth} {nodes}: {told}"))
    }
}

/// What an error tells.
fn told(alloc: Global, error: Option<CborLimitedError>) -> Result<String, AllocError> {
    match error {
        None => String::from_str(alloc, "within"),
        Some(CborLimitedError::TooDeep { at }) => format!(in alloc; "deep {at}"),
        Some(CborLimitedError::TooMany { at }) => format!(in alloc; "many {at}"),
        Some(CborLimitedError::Read(error)) => format!(in alloc; "{error:?}"),
    }
}

/// The place that an error names, or the greatest number.
fn place_of(error: Option<CborLimitedError>) -> u64 {
    match error {
        Some(CborLimitedError::TooDeep { at } | CborLimitedError::TooMany { at }) => at,
        _ => u64::MAX,
    }
}

/// Whether each front is read as without limits up to the head that passes one. Behind that head it may tell this error.
fn fronts_agree(
    alloc: Global,
    bytes: &[u8],
    limits: Limits,
    error: Option<CborLimitedError>,
) -> bool {
    let place = place_of(error);
    for count in 0..=bytes.len() {
        let front = &bytes[..count];
        let seen = CborDoc::read_with(alloc, front, limits).err();
        let due = CborDoc::read(alloc, front)
            .err()
            .map(CborLimitedError::Read);
        if seen != due && (place >= count as u64 || seen != error) {
            return false;
        }
    }
    true
}

const LIMITED: &'static str = r#"
00
= limits 0 1: within
00
= limits 0 0: many 0
6161
= limits 0 0: many 0
80
= limits 0 0: deep 0
80
= limits 0 9: deep 0
80
= limits 1 1: within
9fff
= limits 1 1: within
9fff
= limits 0 1: deep 0
bfff
= limits 0 1: deep 0
838080a0
= limits 2 4: within
838080a0
= limits 2 3: many 3
828081f6
= limits 1 9: deep 1
828081f6
= limits 2 9: within
82808180
= limits 2 9: deep 3
9f809f9fffffff
= limits 2 9: deep 3
a1616101
= limits 1 3: within
a1616101
= limits 1 2: many 3
a1616101
= limits 1 1: many 1
a1616181f6
= limits 1 9: deep 3
a18001
= limits 1 9: deep 1
bf616180616180ff
= limits 2 5: within
bf616180616180ff
= limits 2 4: many 6
"#;

/// A tag is no node, and a number under a tag is one.
const TAGGED: &'static str = r#"
c1c100
= limits 0 1: within
c100
= limits 0 0: many 1
82c101c102
= limits 1 3: within
82c101c102
= limits 1 2: many 4
c180
= limits 0 1: deep 1
c24101
= limits 0 1: within
c24101
= limits 0 0: many 0
c25f41014102ff
= limits 0 1: within
8200c35f4101ff
= limits 1 2: many 2
"#;

/// A string of indefinite length and each of its chunks are nodes.
const IN_CHUNKS: &'static str = r#"
7fff
= limits 0 1: within
7fff
= limits 0 0: many 0
7f6161ff
= limits 0 2: within
7f61616162ff
= limits 0 2: many 3
5f404040ff
= limits 0 4: within
5f404040ff
= limits 0 3: many 3
825fff01
= limits 1 3: within
825fff01
= limits 1 2: many 3
"#;

/// The bytes fail before they pass a limit.
const BAD: &'static str = r#"
ff
= limits 0 0: Malformed { at: 0 }
62c3
= limits 0 0: Malformed { at: 0 }
fb0000000000000000
= limits 0 0: Unsupported { at: 0 }
8200
= limits 1 2: Malformed { at: 2 }
0000
= limits 0 1: Malformed { at: 1 }
c25f4101
= limits 0 0: Malformed { at: 4 }
7f6161
= limits 0 2: Malformed { at: 3 }
7f00
= limits 0 1: Malformed { at: 1 }
"#;

#[test]
fn limits(rt: HostRuntime) {
    try_cases::<Limited>(&rt, rt.alloc(), LIMITED);
    try_cases::<Limited>(&rt, rt.alloc(), TAGGED);
    try_cases::<Limited>(&rt, rt.alloc(), IN_CHUNKS);
    try_cases::<Limited>(&rt, rt.alloc(), BAD);
}

#[test]
fn open_arrays_of_a_stranger(rt: HostRuntime) {
    let bytes = must(&rt, b"\x81".as_slice().repeat(rt.alloc(), 1_000_000));
    let limits = Limits {
        depth: 128,
        nodes: 1000,
    };
    let seen = CborDoc::read_with(rt.alloc(), &bytes, limits).err();
    holds(
        &rt,
        seen == Some(CborLimitedError::TooDeep { at: 128 }),
        "many levels",
    );
}
