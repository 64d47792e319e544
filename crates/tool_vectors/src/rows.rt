//! Inputs, and what is written of them.

use crate::converting::{Way, convert};
use crate::shown::{holds, must};
use std::alloc::Global;
use std::process::Abort;
use sval_io::{MemSource, VecSink};
use sval_tool::{ConvertError, DocumentError, Shape, Target};

/// A line each.
const LINES: Way = Way {
    form: Shape::Lines,
    target: Target::Json,
    path: "",
};

/// A line each, without passwords.
const DROP: Way = Way {
    path: "user.password",
    ..LINES
};

/// One document, laid out.
const PRETTY: Way = Way {
    form: Shape::Document,
    target: Target::Pretty,
    path: "",
};

/// A line each, without passwords, as an item of CBOR.
const CBOR: Way = Way {
    target: Target::Cbor,
    ..DROP
};

/// A way, an input, and what is written of it. Of JSON that is what jq 1.6 prints by `jq -c .`, by
/// `jq -c 'del(.. | objects | .user?.password?)'` and by `jq .`. The CBOR is worked out by hand from RFC 8949.
const ROWS: [(Way, &'static str, &'static [u8]); 13] = [
    (LINES, "", b""),
    (LINES, "\n\n", b""),
    (LINES, "7", b"7\n"),
    (
        LINES,
        "{\"a\": 1}\r\n{\"b\" :\t[ ]}\r\n",
        b"{\"a\":1}\n{\"b\":[]}\n",
    ),
    (LINES, "1.5\n\"a\\u0041\\/\"\n", b"1.5\n\"aA/\"\n"),
    (
        DROP,
        "{\"a\":1,\"user\":{\"name\":\"x\",\"password\":\"y\"}}\n\n{\"user\":{\"password\":1}}",
        b"{\"a\":1,\"user\":{\"name\":\"x\"}}\n{\"user\":{}}\n",
    ),
    (
        DROP,
        "[{\"user\":{\"password\":1,\"b\":2}}]\n7\n",
        b"[{\"user\":{\"b\":2}}]\n7\n",
    ),
    (PRETTY, " [ ]\n", b"[]\n"),
    (
        PRETTY,
        "{\"a\":1,\n \"b\":[true, {}]}",
        b"{\n  \"a\": 1,\n  \"b\": [\n    true,\n    {}\n  ]\n}\n",
    ),
    (CBOR, "7\n-1\n", b"\x07\x20"),
    (CBOR, "{\"a\":[]}\n", b"\xbf\x61a\x9f\xff\xff"),
    (
        CBOR,
        "{\"user\":{\"password\":1.5,\"b\":null}}",
        b"\xbf\x64user\xbf\x61b\xf6\xff\xff",
    ),
    (
        CBOR,
        "[\"\\u0041\",true,1000]",
        b"\x9f\x61A\xf5\x19\x03\xe8\xff",
    ),
];

/// Converts an input, and compares what is answered and written with what is due.
fn try_row(
    rt: &impl Abort,
    alloc: Global,
    way: Way,
    input: &str,
    due: (Result<(), ConvertError>, &[u8]),
) {
    let mut out = VecSink::new(alloc);
    let done = convert(rt, alloc, way, MemSource::new(input.as_bytes()), &mut out);
    holds(rt, done == due.0 && out.as_slice() == due.1, input);
}

#[test]
fn converts_its_rows(rt: HostRuntime) {
    for (way, input, due) in &ROWS {
        try_row(&rt, rt.alloc(), *way, input, (Ok(()), due));
    }
}

/// The second line isn't converted: a way, an input, and why. Of the first `1` is written.
const BAD: [(Way, &'static str, DocumentError); 4] = [
    (LINES, "1\n[1,]\n2", DocumentError::BadJson { at: 3 }),
    (LINES, "1\n \n2", DocumentError::BadJson { at: 1 }),
    (DROP, "1\n{\"a\" 2}\n2", DocumentError::BadJson { at: 5 }),
    (DROP, "1\n\"\n", DocumentError::BadJson { at: 1 }),
];

#[test]
fn stops_at_a_bad_line(rt: HostRuntime) {
    for (way, input, why) in &BAD {
        let error = ConvertError::Line {
            number: 2,
            why: *why,
        };
        try_row(&rt, rt.alloc(), *way, input, (Err(error), b"1\n"));
    }
}

#[test]
fn tells_a_number_without_cbor(rt: HostRuntime) {
    let input = "1\n{\"user\":{\"password\":1.5}}\n[1.5]\n";
    let why = DocumentError::NotInteger;
    let error = ConvertError::Line { number: 3, why };
    try_row(
        &rt,
        rt.alloc(),
        CBOR,
        input,
        (Err(error), b"\x01\xbf\x64user\xbf\xff\xff"),
    );
}

/// Two lines, and between them an array of many ones and a two. The ones have this text each.
fn many(rt: &impl Abort, alloc: Global, one: &str) -> String {
    let ones = must(rt, one.repeat(alloc, 350_000));
    must(rt, ["0\n[", &ones, "2]\n3\n"].concat(alloc))
}

#[test]
fn converts_a_line_of_a_megabyte(rt: HostRuntime) {
    let input = many(&rt, rt.alloc(), "1, ");
    let due = many(&rt, rt.alloc(), "1,");
    let mut out = VecSink::new(rt.alloc());
    let source = MemSource::new(input.as_bytes());
    must(&rt, convert(&rt, rt.alloc(), LINES, source, &mut out));
    holds(
        &rt,
        out.as_slice() == due.as_bytes(),
        "a line of a megabyte",
    );
}
