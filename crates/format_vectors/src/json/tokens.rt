//! The tokens of documents.

use crate::cases::{Case, try_cases};
use crate::shown::{must, push};
use std::alloc::Global;
use std::fmt::Write;
use std::process::Abort;
use sval_json_read::{JsonDoc, JsonToken, TokenKind};

/// A text, and behind `tokens` its tokens: brackets for begins and ends, a name with a colon, and a dot for another one.
struct Tokens;

impl Case for Tokens {
    fn seen(rt: &impl Abort, alloc: Global, input: &str, _due: &str) -> String {
        let doc = must(rt, JsonDoc::read_str(alloc, input));
        let mut seen = must(rt, String::from_str(alloc, "tokens"));
        push_tokens(rt, alloc, &doc, &mut seen);
        seen
    }
}

/// The tokens of a document.
fn push_tokens(rt: &impl Abort, alloc: Global, doc: &JsonDoc<'_>, seen: &mut String) {
    let mut left = doc.tokens();
    while let Some(token) = left.next() {
        push_token(rt, alloc, &token, seen);
    }
}

/// A token.
fn push_token(rt: &impl Abort, alloc: Global, token: &JsonToken<'_>, seen: &mut String) {
    match token.name() {
        Some(name) => must(rt, write!(seen, " {}:", must(rt, name.to_text(alloc)))),
        None => push(rt, seen, mark(token.kind())),
    }
}

/// How a token of this kind is printed.
fn mark(kind: TokenKind) -> &'static str {
    match kind {
        TokenKind::Begin => " (",
        TokenKind::End => " )",
        TokenKind::Single => " .",
    }
}

/// Texts with their tokens.
const TOKENS: &'static str = r#"
-0
= tokens .

[[], {}, null, true, 1.5, "a"]
= tokens ( ( ) ( ) . . . . )

{"a": {"\u0062": "a"}, "c": [{"": 1}], "c": false}
= tokens ( a: ( b: . ) c: ( ( : . ) ) c: . )
"#;

#[test]
fn tokens_of_texts(rt: HostRuntime) {
    try_cases::<Tokens>(&rt, rt.alloc(), TOKENS);
}
