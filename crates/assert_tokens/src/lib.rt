//! Token assertions: whether a value makes the calls that a test expects, as a user of these crates writes them.
//!
//! - [`tokens_match`] streams a point into a buffer of tokens, and compares these with those that are expected.
//! - [`Point`] is a value whose tokens the tests of this crate assert. Its calls are in `specs/Points.antt`.
//!
//! `tokens_match` names its value's type: a function that is generic in a value, by a bound that names a lifetime, gets
//! no proof where its signature has a [`Token`], since a token may hold a text of the program (`'static`).
#![tactic(auto)]

ghost use Rattle.std.specs.Prelude.{◌↔◌, IsTrue, IfOk};
ghost use Rattle.sval_check.specs.Tokens.{token_calls};
ghost use Rattle.assert_tokens.specs.Points.{unnamed_point_emission};
ghost use Rattle.assert_tokens.specs.Matches.{MakesTokens};

mod point;

pub use point::Point;
use std::alloc::Global;
use sval_check::{Token, TokenBuf};
use sval_core::{NoMemory, Stream};

/// Whether a point makes the calls of these tokens, all of them and in order.
///
/// [`NoMemory`] comes only where memory was wanting, since a point never refuses.
///
/// ```
/// let point = Point { x: 3, y: -4 };
/// let same = tokens_match(alloc, &point, &[Token::Null])?;
/// assert!(rt; !same);
/// ```
pub fn tokens_match(alloc: Global, point: &Point, expected: &[Token<'_>]) -> Result<bool, NoMemory>
    ensures { IfOk result (λ same. IsTrue same
        ↔ MakesTokens (unnamed_point_emission point.now) (token_calls expected.now)) }
{
    let mut buffer = TokenBuf::new(alloc);
    match buffer.value(point) {
        Ok(()) => Ok(buffer.matches(expected)),
        Err(_) => match buffer.no_memory() {
            Some(cause) => Err(cause),
            None => unreachable!(
                "a point never refuses, and the buffer takes every call for which there is memory"
            ),
        },
    }
}
