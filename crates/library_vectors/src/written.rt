//! The JSON of values of std and of adapters.

use crate::shown::{must, writes};
use std::collections::{BTreeMap, BTreeSet, LinkedList, VecDeque};
use sval::{BinarySlice, Null};

#[test]
fn writes_values_of_std(rt: HostRuntime) {
    let alloc = rt.alloc();
    writes(&rt, alloc, &(1u8, "a", true), "[1,\"a\",true]");
    writes(&rt, alloc, &Some(42u64), "42");
    let none: Option<u64> = None;
    writes(&rt, alloc, &none, "null");
    writes(&rt, alloc, &['a', 'é'], "[\"a\",\"é\"]");
    writes(&rt, alloc, &BinarySlice::new(&[0, 255]), "[0,255]");
    writes(&rt, alloc, &Null, "null");
}

/// Texts as they are joined with their quotes, at most 32 bytes with these, and as they go out piece by piece.
const TEXTS: [(&str, &str); 5] = [
    ("", "\"\""),
    ("a\nb", "\"a\\nb\""),
    (
        "twenty-nine bytes of a text..",
        "\"twenty-nine bytes of a text..\"",
    ),
    (
        "thirty bytes of a plain text..",
        "\"thirty bytes of a plain text..\"",
    ),
    (
        "thirty-one bytes of plain text.",
        "\"thirty-one bytes of plain text.\"",
    ),
];

#[test]
fn writes_texts_of_any_length(rt: HostRuntime) {
    for (text, want) in &TEXTS {
        writes(&rt, rt.alloc(), text, want);
    }
}

#[test]
fn writes_maps_in_the_order_of_their_keys(rt: HostRuntime) {
    let mut map = BTreeMap::new(rt.alloc());
    must(&rt, map.insert(2i32, false));
    must(&rt, map.insert(-1, true));
    writes(&rt, rt.alloc(), &map, "{\"-1\":true,\"2\":false}");
}

#[test]
fn writes_collections_of_std(rt: HostRuntime) {
    let alloc = rt.alloc();
    let mut queue = VecDeque::new(alloc);
    must(&rt, queue.push_back(2u8));
    must(&rt, queue.push_front(1u8));
    writes(&rt, alloc, &queue, "[1,2]");
    let mut list = LinkedList::new(alloc);
    must(&rt, list.push_back("a"));
    must(&rt, list.push_back("b"));
    writes(&rt, alloc, &list, "[\"a\",\"b\"]");
    let mut set = BTreeSet::new(alloc);
    must(&rt, set.insert(2i16));
    must(&rt, set.insert(-1));
    writes(&rt, alloc, &set, "[-1,2]");
    let boxed = must(&rt, Box::new(alloc, 'c'));
    writes(&rt, alloc, &boxed, "\"c\"");
}

#[test]
fn writes_tuples_of_up_to_eight(rt: HostRuntime) {
    let alloc = rt.alloc();
    writes(&rt, alloc, &(), "null");
    writes(&rt, alloc, &("a",), "[\"a\"]");
    writes(&rt, alloc, &(1u8, 2i8), "[1,2]");
    writes(&rt, alloc, &(1u8, 2u8, 3u8, true), "[1,2,3,true]");
    writes(&rt, alloc, &(1u8, 2u8, 3u8, 4u8, true), "[1,2,3,4,true]");
    writes(
        &rt,
        alloc,
        &(1u8, 2u8, 3u8, 4u8, 5u8, true),
        "[1,2,3,4,5,true]",
    );
    writes(
        &rt,
        alloc,
        &(1u8, 2u8, 3u8, 4u8, 5u8, 6u8, true),
        "[1,2,3,4,5,6,true]",
    );
    writes(
        &rt,
        alloc,
        &(1u8, 2u8, 3u8, 4u8, 5u8, 6u8, 7u8, true),
        "[1,2,3,4,5,6,7,true]",
    );
}

#[test]
fn writes_tuples_of_up_to_twelve(rt: HostRuntime) {
    let alloc = rt.alloc();
    writes(
        &rt,
        alloc,
        &(1u8, 2u8, 3u8, 4u8, 5u8, 6u8, 7u8, 8u8, true),
        "[1,2,3,4,5,6,7,8,true]",
    );
    writes(
        &rt,
        alloc,
        &(1u8, 2u8, 3u8, 4u8, 5u8, 6u8, 7u8, 8u8, 9u8, true),
        "[1,2,3,4,5,6,7,8,9,true]",
    );
    writes(
        &rt,
        alloc,
        &(1u8, 2u8, 3u8, 4u8, 5u8, 6u8, 7u8, 8u8, 9u8, 10u8, true),
        "[1,2,3,4,5,6,7,8,9,10,true]",
    );
    writes(
        &rt,
        alloc,
        &(
            1u8, 2u8, 3u8, 4u8, 5u8, 6u8, 7u8, 8u8, 9u8, 10u8, 11u8, true,
        ),
        "[1,2,3,4,5,6,7,8,9,10,11,true]",
    );
}

#[test]
fn writes_tuples_of_up_to_sixteen(rt: HostRuntime) {
    let alloc = rt.alloc();
    writes(
        &rt,
        alloc,
        &(
            1u8, 2u8, 3u8, 4u8, 5u8, 6u8, 7u8, 8u8, 9u8, 10u8, 11u8, 12u8, true,
        ),
        "[1,2,3,4,5,6,7,8,9,10,11,12,true]",
    );
    writes(
        &rt,
        alloc,
        &(
            1u8, 2u8, 3u8, 4u8, 5u8, 6u8, 7u8, 8u8, 9u8, 10u8, 11u8, 12u8, 13u8, true,
        ),
        "[1,2,3,4,5,6,7,8,9,10,11,12,13,true]",
    );
    writes(
        &rt,
        alloc,
        &(
            1u8, 2u8, 3u8, 4u8, 5u8, 6u8, 7u8, 8u8, 9u8, 10u8, 11u8, 12u8, 13u8, 14u8, true,
        ),
        "[1,2,3,4,5,6,7,8,9,10,11,12,13,14,true]",
    );
    writes(
        &rt,
        alloc,
        &(
            1u8, 2u8, 3u8, 4u8, 5u8, 6u8, 7u8, 8u8, 9u8, 10u8, 11u8, 12u8, 13u8, 14u8, 15u8, true,
        ),
        "[1,2,3,4,5,6,7,8,9,10,11,12,13,14,15,true]",
    );
}
