//! Calls as tokens.

use crate::shown::{copy_of, holds, must, script_of, shows};
use std::alloc::{AllocError, Global};
use std::process::Abort;
use sval_check::{Token, TokenBuf, TokenBytes, TokenText};
use sval_core::Value;
use sval_script::Script;

/// The tokens of the calls of a script.
fn tokens_of<'a>(rt: &impl Abort, alloc: Global, script: &'a Script) -> TokenBuf<'a> {
    let mut tokens = TokenBuf::new(alloc);
    holds(
        rt,
        script.stream(&mut tokens).is_ok(),
        "the calls are taken",
    );
    tokens
}

/// What is printed of tokens.
fn printed(alloc: Global, tokens: &[Token<'_>]) -> Result<String, AllocError> {
    format!(in alloc; "{tokens:?}")
}

/// What is printed of the tokens of the calls of these lines.
fn printed_of(rt: &impl Abort, alloc: Global, lines: &str) -> Result<String, AllocError> {
    let script = script_of(rt, alloc, lines);
    printed(alloc, tokens_of(rt, alloc, &script).as_tokens())
}

/// A script, and what is printed of the tokens of its calls.
const PRINTED: [(&str, &str); 3] = [
    (
        "text_begin 4\ntext_fragment =6162\ntext_fragment_computed =6364\ntext_end\n\
         binary_begin -\nbinary_fragment =0102\nbinary_fragment_computed =03\nbinary_end\n",
        "[TextBegin(Some(4)), TextFragment(\"ab\"), \
         TextFragmentComputed(TokenText { text: \"cd\" }), TextEnd, \
         BinaryBegin(None), BinaryFragment([1, 2]), \
         BinaryFragmentComputed(TokenBytes { bytes: [3] }), BinaryEnd]",
    ),
    (
        "map_end\nmap_key_begin\nseq_begin 2\nseq_value_end\nu8 1\ni128 -1\nbool true\n\
         tag_hint NUMBER\n",
        "[MapEnd, MapKeyBegin, SeqBegin(Some(2)), SeqValueEnd, U8(1), I128(-1), Bool(true), \
         TagHint(Tag { text: \"NUMBER\" })]",
    ),
    (
        "tagged_begin RUST_UNIT =6964:VALUE_IDENT 1:VALUE_OFFSET\n\
         record_tuple_begin - - - 1\n\
         record_tuple_value_begin RUST_UNIT =6964:VALUE_IDENT 1:VALUE_OFFSET\n\
         record_value_end - =6964:VALUE_IDENT\n",
        "[TaggedBegin(TokenName { tag: Some(Tag { text: \"RUST_UNIT\" }), \
         label: Some(Label { text: Owned(\"id\"), tag: Some(Tag { text: \"VALUE_IDENT\" }) }), \
         index: Some(Index { number: 1, tag: Some(Tag { text: \"VALUE_OFFSET\" }) }) }), \
         RecordTupleBegin(TokenName { tag: None, label: None, index: None }, Some(1)), \
         RecordTupleValueBegin(Some(Tag { text: \"RUST_UNIT\" }), \
         Label { text: Owned(\"id\"), tag: Some(Tag { text: \"VALUE_IDENT\" }) }, \
         Index { number: 1, tag: Some(Tag { text: \"VALUE_OFFSET\" }) }), \
         RecordValueEnd(None, \
         Label { text: Owned(\"id\"), tag: Some(Tag { text: \"VALUE_IDENT\" }) })]",
    ),
];

#[test]
fn keeps_calls(rt: HostRuntime) {
    for (lines, want) in &PRINTED {
        shows(&rt, printed_of(&rt, rt.alloc(), lines), want);
    }
}

/// A sequence of one number.
const ONCE: &str = "seq_begin 1\nseq_value_begin\nu64 7\nseq_value_end\nseq_end\n";

/// Two scripts, and whether the tokens of one match those of the other: whatever the tags of labels and of indexes are.
const MATCHES: [(&str, &str, bool); 7] = [
    (ONCE, ONCE, true),
    (
        ONCE,
        "seq_begin 1\nseq_value_begin\nu64 7\nseq_value_end\n",
        false,
    ),
    (
        "text_fragment_computed =6162\n",
        "text_fragment =6162\n",
        false,
    ),
    (
        "tag RUST_UNIT =6964:VALUE_IDENT 1:VALUE_OFFSET\n",
        "tag RUST_UNIT =6964 1\n",
        true,
    ),
    (
        "tag RUST_UNIT =6964 1:VALUE_OFFSET\n",
        "tag RUST_UNIT =6164 1:VALUE_OFFSET\n",
        false,
    ),
    (
        "tag RUST_UNIT =6964 1:VALUE_OFFSET\n",
        "tag RUST_UNIT =6964 2\n",
        false,
    ),
    (
        "tag RUST_UNIT =6964 1:VALUE_OFFSET\n",
        "enum_end RUST_UNIT =6964 1:VALUE_OFFSET\n",
        false,
    ),
];

/// Whether the tokens of a script match these.
fn match_those(rt: &impl Abort, alloc: Global, taken: &str, expected: &[Token<'_>]) -> bool {
    let script = script_of(rt, alloc, taken);
    tokens_of(rt, alloc, &script).matches(expected)
}

/// Whether the tokens of one script match those of the other.
fn are_alike(rt: &impl Abort, alloc: Global, taken: &str, expected: &str) -> bool {
    let script = script_of(rt, alloc, expected);
    let tokens = tokens_of(rt, alloc, &script);
    match_those(rt, alloc, taken, tokens.as_tokens())
}

#[test]
fn compares_contents(rt: HostRuntime) {
    for (taken, expected, same) in &MATCHES {
        let alike = are_alike(&rt, rt.alloc(), taken, expected);
        holds(&rt, alike == *same, "the tokens match or not");
    }
}

/// A part of a text and one of a binary, both computed.
const COMPUTED: &str = "text_fragment_computed =6364\nbinary_fragment_computed =03\n";

/// These tokens.
fn computed_tokens(rt: &impl Abort, alloc: Global) -> Vec<Token<'static>> {
    let text = TokenText::new(copy_of(rt, alloc, "cd"));
    let bytes = TokenBytes::new(must(rt, Vec::from_slice(alloc, &[3])));
    let tokens = vec![in alloc;
        Token::TextFragmentComputed(text),
        Token::BinaryFragmentComputed(bytes),
    ];
    must(rt, tokens)
}

#[test]
fn takes_tokens_that_are_written(rt: HostRuntime) {
    let script = script_of(&rt, rt.alloc(), COMPUTED);
    let mut tokens = tokens_of(&rt, rt.alloc(), &script);
    let written = computed_tokens(&rt, rt.alloc());
    holds(&rt, tokens.matches(&written), "they match");
    holds(&rt, !tokens.lacked_memory(), "memory is there");
    tokens.clear();
    holds(&rt, tokens.as_tokens().is_empty(), "none is left");
}
