//! The bytes that RFC 8949 has as malformed in its appendix F, by what is wrong with them.

use crate::cases::try_cases;
use crate::cbor::items::Read;
use crate::cbor::places::BadBytes;
use std::alloc::Global;
use std::process::Abort;

/// The input ends within a head.
const HEADS_CUT: &'static str = r#"
18
= error Malformed { at: 0 }
19
= error Malformed { at: 0 }
1a
= error Malformed { at: 0 }
1b
= error Malformed { at: 0 }
1901
= error Malformed { at: 0 }
1a0102
= error Malformed { at: 0 }
1b01020304050607
= error Malformed { at: 0 }
38
= error Malformed { at: 0 }
58
= error Malformed { at: 0 }
78
= error Malformed { at: 0 }
98
= error Malformed { at: 0 }
9a01ff00
= error Malformed { at: 0 }
b8
= error Malformed { at: 0 }
d8
= error Malformed { at: 0 }
f8
= error Malformed { at: 0 }
f900
= error Malformed { at: 0 }
fa0000
= error Malformed { at: 0 }
fb000000
= error Malformed { at: 0 }
"#;

/// The input ends within a definite string.
const STRINGS_CUT: &'static str = r#"
41
= error Malformed { at: 0 }
61
= error Malformed { at: 0 }
5affffffff00
= error Malformed { at: 0 }
5bffffffffffffffff010203
= error Malformed { at: 0 }
7affffffff00
= error Malformed { at: 0 }
7b7fffffffffffffff010203
= error Malformed { at: 0 }
"#;

/// Items of a definite array or map, or that under a tag, are lacking.
const ITEMS_LACKING: &'static str = r#"
81
= error Malformed { at: 1 }
818181818181818181
= error Malformed { at: 9 }
8200
= error Malformed { at: 2 }
a1
= error Malformed { at: 1 }
a20102
= error Malformed { at: 3 }
a100
= error Malformed { at: 2 }
a2000000
= error Malformed { at: 4 }
c0
= error Malformed { at: 1 }
"#;

/// A break is lacking.
const BREAKS_LACKING: &'static str = r#"
5f4100
= error Malformed { at: 3 }
7f6100
= error Malformed { at: 3 }
9f
= error Malformed { at: 1 }
9f0102
= error Malformed { at: 3 }
bf
= error Malformed { at: 1 }
bf01020102
= error Malformed { at: 5 }
819f
= error Malformed { at: 2 }
9f8000
= error Malformed { at: 3 }
9f9f9f9f9fffffffff
= error Malformed { at: 9 }
9f819f819f9fffffff
= error Malformed { at: 9 }
"#;

/// The low bits of a first byte are reserved, or say what its major type has not.
const RESERVED: &'static str = r#"
1c
= error Malformed { at: 0 }
1d
= error Malformed { at: 0 }
1e
= error Malformed { at: 0 }
3c
= error Malformed { at: 0 }
3d
= error Malformed { at: 0 }
3e
= error Malformed { at: 0 }
5c
= error Malformed { at: 0 }
5d
= error Malformed { at: 0 }
5e
= error Malformed { at: 0 }
7c
= error Malformed { at: 0 }
7d
= error Malformed { at: 0 }
7e
= error Malformed { at: 0 }
9c
= error Malformed { at: 0 }
9d
= error Malformed { at: 0 }
9e
= error Malformed { at: 0 }
bc
= error Malformed { at: 0 }
bd
= error Malformed { at: 0 }
be
= error Malformed { at: 0 }
dc
= error Malformed { at: 0 }
dd
= error Malformed { at: 0 }
de
= error Malformed { at: 0 }
fc
= error Malformed { at: 0 }
fd
= error Malformed { at: 0 }
fe
= error Malformed { at: 0 }
f800
= error Malformed { at: 0 }
f801
= error Malformed { at: 0 }
f818
= error Malformed { at: 0 }
f81f
= error Malformed { at: 0 }
1f
= error Malformed { at: 0 }
3f
= error Malformed { at: 0 }
df
= error Malformed { at: 0 }
"#;

/// Pieces of a string are none.
const WRONG_PIECES: &'static str = r#"
5f00ff
= error Malformed { at: 1 }
5f21ff
= error Malformed { at: 1 }
5f6100ff
= error Malformed { at: 1 }
5f80ff
= error Malformed { at: 1 }
5fa0ff
= error Malformed { at: 1 }
5fc000ff
= error Malformed { at: 1 }
5fe0ff
= error Malformed { at: 1 }
7f4100ff
= error Malformed { at: 1 }
5f5f4100ffff
= error Malformed { at: 1 }
7f7f6100ffff
= error Malformed { at: 1 }
"#;

/// A break where nothing can end.
const WRONG_BREAKS: &'static str = r#"
ff
= error Malformed { at: 0 }
81ff
= error Malformed { at: 1 }
8200ff
= error Malformed { at: 2 }
a1ff
= error Malformed { at: 1 }
a1ff00
= error Malformed { at: 1 }
a100ff
= error Malformed { at: 2 }
a20000ff
= error Malformed { at: 3 }
9f81ff
= error Malformed { at: 2 }
9f829f819f9fffffffff
= error Malformed { at: 9 }
bf00ff
= error Malformed { at: 2 }
bf000000ff
= error Malformed { at: 4 }
"#;

/// Tries each row of a table, and the place that it tells.
pub(crate) fn try_bad(rt: &impl Abort, alloc: Global, table: &str) {
    try_cases::<Read>(rt, alloc, table);
    try_cases::<BadBytes>(rt, alloc, table);
}

#[test]
fn each_is_bad(rt: HostRuntime) {
    try_bad(&rt, rt.alloc(), HEADS_CUT);
    try_bad(&rt, rt.alloc(), STRINGS_CUT);
    try_bad(&rt, rt.alloc(), ITEMS_LACKING);
    try_bad(&rt, rt.alloc(), BREAKS_LACKING);
    try_bad(&rt, rt.alloc(), RESERVED);
    try_bad(&rt, rt.alloc(), WRONG_PIECES);
    try_bad(&rt, rt.alloc(), WRONG_BREAKS);
}
