//! Whether tokens are those that were expected.

ghost use Rattle.std.specs.Prelude.{◌≡◌, ◌↔◌, IsTrue};
ghost use Rattle.sval_check.specs.Tokens.{token_calls, all_compared};

use crate::token::Token;

/// Whether these are as many tokens as those, each equal to the one in its place.
pub(crate) fn all_equal(tokens: &[Token<'_>], expected: &[Token<'_>]) -> bool
    ensures { IsTrue result ↔ (all_compared (token_calls tokens.now) ≡ all_compared (token_calls expected.now)) }
{
    if tokens.len() != expected.len() {
        return false;
    }
    for index in 0..expected.len() {
        if tokens[index] != expected[index] {
            return false;
        }
    }
    true
}
