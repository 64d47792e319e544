//! Containers of as many entries as the widths of a head change at.

use super::Written;
use crate::cases::Case;
use crate::shown::{compare, must};
use std::alloc::Global;
use std::process::Abort;

/// The lines of a container whose entries are all alike.
#[derive(Clone, Copy)]
struct Alike {
    begin: &'static str,
    entry: &'static str,
    end: &'static str,
    /// An entry in hex.
    bytes: &'static str,
}

/// An array of nulls.
const NULLS: Alike = Alike {
    begin: "seq_begin -\n",
    entry: "seq_value_begin\nnull\nseq_value_end\n",
    end: "seq_end\n",
    bytes: "f6",
};

/// A map of one key to nulls.
const ENTRIES: Alike = Alike {
    begin: "map_begin -\n",
    entry: "map_key_begin\ni8 1\nmap_key_end\nmap_value_begin\nnull\nmap_value_end\n",
    end: "map_end\n",
    bytes: "6131f6",
};

/// Each number of entries, and the heads of an array and of a map that have as many.
const HEADS: [(usize, &'static str, &'static str); 6] = [
    (0, "80", "a0"),
    (1, "81", "a1"),
    (23, "97", "b7"),
    (24, "9818", "b818"),
    (255, "98ff", "b8ff"),
    (256, "990100", "b90100"),
];

/// Writes a container of this many entries, and compares its bytes with its head and theirs.
fn try_alike(rt: &impl Abort, alloc: Global, alike: Alike, count: usize, head: &str) {
    let entries = must(rt, alike.entry.repeat(alloc, count));
    let script = must(rt, [alike.begin, &entries, alike.end].concat(alloc));
    let bytes = must(rt, alike.bytes.repeat(alloc, count));
    let due = must(rt, ["definite cbor ", head, &bytes].concat(alloc));
    compare(rt, &Written::seen(rt, alloc, &script, &due), &due, head);
}

#[test]
fn counts_in_heads(rt: HostRuntime) {
    for (count, array, map) in &HEADS {
        try_alike(&rt, rt.alloc(), NULLS, *count, array);
        try_alike(&rt, rt.alloc(), ENTRIES, *count, map);
    }
}
