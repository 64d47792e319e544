//! The tokens of a point.

use crate::shown::{holds, must};
use assert_tokens::{Point, tokens_match};
use std::alloc::Global;
use std::process::Abort;
use sval_check::{Token, TokenName};
use sval_core::{Label, NoMemory};

/// The tokens of a point at 3 and -4.
fn tokens_of_point(rt: &impl Abort, alloc: Global) -> Vec<Token<'static>> {
    let tokens = vec![in alloc;
        Token::RecordBegin(TokenName::none(), Some(2)),
        Token::RecordValueBegin(None, Label::new("x")),
        Token::I64(3),
        Token::RecordValueEnd(None, Label::new("x")),
        Token::RecordValueBegin(None, Label::new("y")),
        Token::I64(-4),
        Token::RecordValueEnd(None, Label::new("y")),
        Token::RecordEnd(TokenName::none()),
    ];
    must(rt, tokens)
}

/// Whether these are the tokens of that point.
fn has_tokens(alloc: Global, tokens: &[Token<'_>]) -> Result<bool, NoMemory> {
    tokens_match(alloc, &Point { x: 3, y: -4 }, tokens)
}

#[test]
fn a_point_is_a_record(rt: HostRuntime) {
    let tokens = tokens_of_point(&rt, rt.alloc());
    let all = has_tokens(rt.alloc(), &tokens);
    holds(&rt, all == Ok(true), "they match");
    let first = has_tokens(rt.alloc(), &tokens[..tokens.len().min(1)]);
    holds(&rt, first == Ok(false), "the first of them are too few");
}
