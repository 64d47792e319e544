//! What buffers for texts and binaries hold, and what they make of it.

use crate::cases::{agrees, must, shows};
use crate::replayed::{lent_script_of, script_of};
use std::alloc::{AllocError, Global};
use std::process::Abort;
use sval_buffer::{BinaryBuf, TextBuf};

/// What is done to a text and a binary, with a fragment.
#[derive(Clone, Copy)]
enum Step {
    /// Both are made of the fragment alone, which they borrow.
    Make,
    /// Both take the fragment, which they may borrow.
    Push,
    /// Both take a copy of the fragment.
    PushComputed,
    /// The text is written the fragment, and the binary takes a copy of it.
    Write,
    /// Both forget all.
    Clear,
    /// Both are replaced by what they are cloned to.
    Clone,
}

/// Does a step to a text.
fn step_text(
    rt: &impl Abort,
    alloc: Global,
    text: &mut TextBuf<'static>,
    step: Step,
    fragment: &'static str,
) {
    match step {
        Step::Make => *text = TextBuf::from_text(alloc, fragment),
        Step::Push => must(rt, text.push_fragment(fragment)),
        Step::PushComputed => must(rt, text.push_fragment_computed(fragment)),
        Step::Write => must(rt, text.write_str(fragment)),
        Step::Clear => text.clear(),
        Step::Clone => *text = must(rt, text.try_clone()),
    }
}

/// Does a step to a binary.
fn step_binary(
    rt: &impl Abort,
    alloc: Global,
    binary: &mut BinaryBuf<'static>,
    step: Step,
    fragment: &'static [u8],
) {
    match step {
        Step::Make => *binary = BinaryBuf::from_bytes(alloc, fragment),
        Step::Push => must(rt, binary.push_fragment(fragment)),
        Step::PushComputed | Step::Write => must(rt, binary.push_fragment_computed(fragment)),
        Step::Clear => binary.clear(),
        Step::Clone => *binary = must(rt, binary.try_clone()),
    }
}

/// What a text holds and borrows, and whether it equals `abc`.
fn text_seen(alloc: Global, text: &TextBuf<'static>) -> Result<String, AllocError> {
    let lent = text.as_borrowed_str();
    let equal = *text == TextBuf::from_text(alloc, "abc");
    format!(in alloc; "{text:?} {lent:?} {equal}")
}

/// What a binary holds and borrows, and whether it equals `abc`.
fn binary_seen(alloc: Global, binary: &BinaryBuf<'static>) -> Result<String, AllocError> {
    let lent = binary.as_borrowed_slice();
    let equal = *binary == BinaryBuf::from_array(alloc, b"abc");
    format!(in alloc; "{binary:?} {lent:?} {equal}")
}

/// Steps, one after another, each with its fragment, and what the text and the binary then hold and borrow, and whether
/// they equal `abc`.
const STEPS: [(Step, &'static str, &'static str, &'static str); 16] = [
    (Step::Clear, "", r#""" Some("") false"#, "[] Some([]) false"),
    (
        Step::Push,
        "abc",
        r#""abc" Some("abc") true"#,
        "[97, 98, 99] Some([97, 98, 99]) true",
    ),
    (
        Step::Push,
        "def",
        r#""abcdef" None false"#,
        "[97, 98, 99, 100, 101, 102] None false",
    ),
    (Step::Clear, "", r#""" Some("") false"#, "[] Some([]) false"),
    (Step::PushComputed, "", r#""" None false"#, "[] None false"),
    (
        Step::Push,
        "abc",
        r#""abc" Some("abc") true"#,
        "[97, 98, 99] Some([97, 98, 99]) true",
    ),
    (
        Step::PushComputed,
        "def",
        r#""abcdef" None false"#,
        "[97, 98, 99, 100, 101, 102] None false",
    ),
    (
        Step::Make,
        "abc",
        r#""abc" Some("abc") true"#,
        "[97, 98, 99] Some([97, 98, 99]) true",
    ),
    (
        Step::Clone,
        "",
        r#""abc" Some("abc") true"#,
        "[97, 98, 99] Some([97, 98, 99]) true",
    ),
    (Step::Clear, "", r#""" Some("") false"#, "[] Some([]) false"),
    (
        Step::Write,
        "ab",
        r#""ab" None false"#,
        "[97, 98] None false",
    ),
    (
        Step::Write,
        "c",
        r#""abc" None true"#,
        "[97, 98, 99] None true",
    ),
    (
        Step::Clone,
        "",
        r#""abc" None true"#,
        "[97, 98, 99] None true",
    ),
    (
        Step::Push,
        "d",
        r#""abcd" None false"#,
        "[97, 98, 99, 100] None false",
    ),
    (
        Step::Make,
        "é\n",
        r#""é\n" Some("é\n") false"#,
        "[195, 169, 10] Some([195, 169, 10]) false",
    ),
    (
        Step::Push,
        "\"",
        r#""é\n\"" None false"#,
        "[195, 169, 10, 34] None false",
    ),
];

#[test]
fn holds_fragments(rt: HostRuntime) {
    let mut text = TextBuf::new(rt.alloc());
    let mut binary = BinaryBuf::new(rt.alloc());
    for (step, fragment, want_text, want_binary) in &STEPS {
        let bytes = fragment.as_bytes();
        step_text(&rt, rt.alloc(), &mut text, *step, fragment);
        step_binary(&rt, rt.alloc(), &mut binary, *step, bytes);
        shows(&rt, text_seen(rt.alloc(), &text), want_text);
        shows(&rt, binary_seen(rt.alloc(), &binary), want_binary);
    }
}

/// Compares the calls that a text makes, and those that it lends.
fn lends(rt: &impl Abort, alloc: Global, text: &TextBuf<'_>, own: &str, lent: &str) {
    agrees(rt, &script_of(rt, alloc, text), own);
    agrees(rt, &lent_script_of(rt, alloc, text), lent);
}

/// A text that is joined is borrowed from the buffer, but lent as a computed one for longer.
#[test]
fn lends_what_it_joins(rt: HostRuntime) {
    let mut text = TextBuf::from_text(rt.alloc(), "abc");
    must(&rt, text.push_fragment("def"));
    let own = "text_begin 6\ntext_fragment =616263646566\ntext_end\n";
    let lent = "text_begin 6\ntext_fragment_computed =616263646566\ntext_end\n";
    lends(&rt, rt.alloc(), &text, own, lent);
}

/// A binary that is joined is borrowed from the buffer, but lent as a computed one for longer.
#[test]
fn lends_bytes_that_it_joins(rt: HostRuntime) {
    let mut binary = BinaryBuf::from_bytes(rt.alloc(), b"abc");
    must(&rt, binary.push_fragment_computed(b"def"));
    let want = "binary_begin 6\nbinary_fragment =616263646566\nbinary_end\n";
    agrees(&rt, &script_of(&rt, rt.alloc(), &binary), want);
    let want = "binary_begin 6\nbinary_fragment_computed =616263646566\nbinary_end\n";
    agrees(&rt, &lent_script_of(&rt, rt.alloc(), &binary), want);
}

/// Fragments that are pushed, with spaces between them, and the calls that a text of them makes and lends.
const PUSHED: [(&'static str, &'static str, &'static str); 3] = [
    (
        "123",
        "text_begin 3\ntext_fragment =313233\ntext_end\n",
        "text_begin 3\ntext_fragment =313233\ntext_end\n",
    ),
    (
        "123 () data",
        "text_begin 9\ntext_fragment =313233282964617461\ntext_end\n",
        "text_begin 9\ntext_fragment_computed =313233282964617461\ntext_end\n",
    ),
    (
        "a ",
        "text_begin 1\ntext_fragment =61\ntext_end\n",
        "text_begin 1\ntext_fragment_computed =61\ntext_end\n",
    ),
];

/// A text of these fragments.
fn joined(rt: &impl Abort, alloc: Global, fragments: &'static str) -> TextBuf<'static> {
    let mut text = TextBuf::new(alloc);
    for fragment in fragments.split(' ') {
        must(rt, text.push_fragment(fragment));
    }
    text
}

/// A fragment alone is lent as it came; one behind a text makes it a copy.
#[test]
fn lends_what_it_borrows(rt: HostRuntime) {
    for (fragments, own, lent) in &PUSHED {
        let text = joined(&rt, rt.alloc(), fragments);
        lends(&rt, rt.alloc(), &text, own, lent);
    }
}

#[test]
fn lends_bytes_that_it_borrows(rt: HostRuntime) {
    let mut binary = BinaryBuf::new(rt.alloc());
    must(&rt, binary.push_fragment(b"abc"));
    let want = "binary_begin 3\nbinary_fragment =616263\nbinary_end\n";
    agrees(&rt, &lent_script_of(&rt, rt.alloc(), &binary), want);
}
