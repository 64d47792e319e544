//! Bytes that are well-formed (RFC 8949, appendix C) but no item of this profile, and bytes that are neither.

use crate::cases::try_cases;
use crate::cbor::items::{Front, Read};
use crate::cbor::malformed::try_bad;

/// Floats: those of the standard's appendix A, and then some in arrays, in maps and under a tag.
const FLOATS: &'static str = r#"
f90000
= error Unsupported { at: 0 }
f98000
= error Unsupported { at: 0 }
f93c00
= error Unsupported { at: 0 }
fb3ff199999999999a
= error Unsupported { at: 0 }
f93e00
= error Unsupported { at: 0 }
f97bff
= error Unsupported { at: 0 }
fa47c35000
= error Unsupported { at: 0 }
fa7f7fffff
= error Unsupported { at: 0 }
fb7e37e43c8800759c
= error Unsupported { at: 0 }
f90001
= error Unsupported { at: 0 }
f90400
= error Unsupported { at: 0 }
f9c400
= error Unsupported { at: 0 }
fbc010666666666666
= error Unsupported { at: 0 }
f97c00
= error Unsupported { at: 0 }
f97e00
= error Unsupported { at: 0 }
f9fc00
= error Unsupported { at: 0 }
fa7f800000
= error Unsupported { at: 0 }
fa7fc00000
= error Unsupported { at: 0 }
faff800000
= error Unsupported { at: 0 }
fb7ff0000000000000
= error Unsupported { at: 0 }
fb7ff8000000000000
= error Unsupported { at: 0 }
fbfff0000000000000
= error Unsupported { at: 0 }
c1fb41d452d9e2000000
= error Unsupported { at: 1 }
82f5f93c00
= error Unsupported { at: 2 }
9ff93c00ff
= error Unsupported { at: 1 }
a16161f93c00
= error Unsupported { at: 3 }
bf616161fa00000000ff
= error Unsupported { at: 3 }
"#;

/// Simple values that are neither `false`, `true` nor `null`.
const SIMPLE_VALUES: &'static str = r#"
e0
= error Unsupported { at: 0 }
f0
= error Unsupported { at: 0 }
f3
= error Unsupported { at: 0 }
f7
= error Unsupported { at: 0 }
f820
= error Unsupported { at: 0 }
f8ff
= error Unsupported { at: 0 }
81f7
= error Unsupported { at: 1 }
bff7f6ff
= error Unsupported { at: 1 }
c0f7
= error Unsupported { at: 1 }
82f6f820
= error Unsupported { at: 2 }
"#;

/// Texts and chunks that are not UTF-8.
const TEXTS: &'static str = r#"
61ff
= error Unsupported { at: 0 }
62c328
= error Unsupported { at: 0 }
63eda080
= error Unsupported { at: 0 }
8161c3
= error Unsupported { at: 1 }
a161ff00
= error Unsupported { at: 1 }
7f61c361a9ff
= error Unsupported { at: 1 }
7f616161ffff
= error Unsupported { at: 3 }
9f7f61ffffff
= error Unsupported { at: 2 }
"#;

/// Under the tags 2 and 3, numbers of more than 128 bits and what is no byte string.
const BIGNUMS: &'static str = r#"
c2510100000000000000000000000000000000
= error Unsupported { at: 1 }
c35080000000000000000000000000000000
= error Unsupported { at: 1 }
c25f430100005000000000000000000000000000000000ff
= error Unsupported { at: 23 }
c200
= error Unsupported { at: 1 }
c2f6
= error Unsupported { at: 1 }
c26161
= error Unsupported { at: 1 }
c280
= error Unsupported { at: 1 }
c28100
= error Unsupported { at: 1 }
c2a10001
= error Unsupported { at: 1 }
c2c24101
= error Unsupported { at: 1 }
c3d9d9f74101
= error Unsupported { at: 1 }
c2f93c00
= error Unsupported { at: 1 }
c29f9fffff
= error Unsupported { at: 1 }
81c2bf0000ff
= error Unsupported { at: 2 }
"#;

/// Bytes that are cut, left over or not well-formed behind something else that is not in the profile.
const NEITHER: &'static str = r#"
f93c
= error Malformed { at: 0 }
82f93c00
= error Malformed { at: 1 }
9ff7
= error Malformed { at: 1 }
f7f7
= error Malformed { at: 0 }
83f7f8
= error Malformed { at: 1 }
82f71c
= error Malformed { at: 1 }
c2f7ff
= error Malformed { at: 1 }
82f7ff
= error Malformed { at: 1 }
62c328ff
= error Malformed { at: 0 }
bff7ff
= error Malformed { at: 1 }
a1f7
= error Malformed { at: 1 }
f81f
= error Malformed { at: 0 }
81f81f
= error Malformed { at: 1 }
82f7f81f
= error Malformed { at: 1 }
7f61ff4100ff
= error Malformed { at: 1 }
c2
= error Malformed { at: 1 }
c25f
= error Malformed { at: 2 }
c281
= error Malformed { at: 1 }
c29f
= error Malformed { at: 1 }
c2bf00ff
= error Malformed { at: 1 }
9bfffffffffffffffff7
= error Malformed { at: 9 }
bbfffffffffffffffff7f7
= error Malformed { at: 9 }
82f79bffffffffffffffff
= error Malformed { at: 1 }
82f77bffffffffffffffff00
= error Malformed { at: 1 }
c25f4101f7ff
= error Malformed { at: 4 }
"#;

/// Bytes whose front is read: what is behind the first item tells nothing of it.
const FRONTS: &'static str = r#"
f93c00ff
= error unsupported CBOR at byte 0: a float, a simple value, invalid UTF-8, or a bignum that is invalid or too large
f7f7
= error unsupported CBOR at byte 0: a float, a simple value, invalid UTF-8, or a bignum that is invalid or too large
82f7f700
= error unsupported CBOR at byte 1: a float, a simple value, invalid UTF-8, or a bignum that is invalid or too large
61ff00
= error unsupported CBOR at byte 0: a float, a simple value, invalid UTF-8, or a bignum that is invalid or too large
c2f600
= error unsupported CBOR at byte 1: a float, a simple value, invalid UTF-8, or a bignum that is invalid or too large
c2814101ff
= error unsupported CBOR at byte 1: a float, a simple value, invalid UTF-8, or a bignum that is invalid or too large
c2510100000000000000000000000000000000
= error unsupported CBOR at byte 1: a float, a simple value, invalid UTF-8, or a bignum that is invalid or too large
7f61c361a9ff1c
= error unsupported CBOR at byte 1: a float, a simple value, invalid UTF-8, or a bignum that is invalid or too large
f93c
= error invalid CBOR at byte 0: cut short, not well-formed or left over
82f7
= error invalid CBOR at byte 1: cut short, not well-formed or left over
62c3
= error invalid CBOR at byte 0: cut short, not well-formed or left over
c2
= error invalid CBOR at byte 1: cut short, not well-formed or left over
c281
= error invalid CBOR at byte 1: cut short, not well-formed or left over
82f71c
= error invalid CBOR at byte 1: cut short, not well-formed or left over
1c
= error invalid CBOR at byte 0: cut short, not well-formed or left over
ff
= error invalid CBOR at byte 0: cut short, not well-formed or left over
c25f00ff00
= error invalid CBOR at byte 2: cut short, not well-formed or left over
"#;

#[test]
fn each_has_its_cause(rt: HostRuntime) {
    try_bad(&rt, rt.alloc(), FLOATS);
    try_bad(&rt, rt.alloc(), SIMPLE_VALUES);
    try_bad(&rt, rt.alloc(), TEXTS);
    try_cases::<Read>(&rt, rt.alloc(), BIGNUMS);
    try_cases::<Read>(&rt, rt.alloc(), NEITHER);
    try_cases::<Front>(&rt, rt.alloc(), FRONTS);
}
