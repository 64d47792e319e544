//! The laws of checking, each as a clause that is proved.

ghost use Rattle.sval_check.specs.Checks.{OneAnswer};
ghost use Rattle.sval_check.specs.ManyChecks.{OneListAnswer};
ghost use Rattle.sval_check.specs.CheckedLaws.{AcceptsTheViable, AcceptedIsAppended, AllArePassedOn, RefusedIsLeft};
ghost use Rattle.std.specs.Prelude.{◌≡◌};
ghost use Rattle.std.specs.Bool.{Decides};
ghost use Rattle.sval_core.specs.Spells.{bare_name};
ghost use Rattle.sval_check.specs.Tokens.{token_name, token_call, compared};
ghost use Rattle.sval_check.specs.TokenBufs.{KeepsAll, TakesAnyCalls};

use crate::token::{Token, TokenName};
use sval_core::{Lending, Stream};

/// What holds of all values that are checked for one tree: the four answers exclude each other, and one of them is due.
pub fn check_laws()
    ensures one_answer { OneAnswer }
{}

/// What holds of all values that are checked for many trees in a row.
pub fn list_check_laws()
    ensures one_answer { OneListAnswer }
{}

/// What holds of a [`Checked`](crate::Checked) over every stream, for the lists of calls that it stands for.
pub fn checked_laws<L: Lending, S: Stream<L>>()
    ensures accepts_the_viable { AcceptsTheViable S.law }
    ensures accepted_is_appended { AcceptedIsAppended S.law }
    ensures all_are_passed_on { AllArePassedOn S.law }
    ensures refused_is_left { RefusedIsLeft S.law }
{}

/// What holds of a [`TokenBuf`](crate::TokenBuf) after any calls.
pub fn token_buf_laws()
    ensures keeps_all { KeepsAll }
    ensures takes_all { TakesAnyCalls }
{}

/// What `==` answers of two tokens: whether they are the same call and say the same, but for the tags of labels and
/// indexes, and whether labels are static.
pub fn tokens_are_equal(a: &Token<'_>, b: &Token<'_>) -> bool
    ensures { Decides result (compared (token_call a.now) ≡ compared (token_call b.now)) }
{
    a == b
}

/// What `==` answers of two names: whether each part is absent in both, or equal in both.
pub fn token_names_are_equal(a: &TokenName, b: &TokenName) -> bool
    ensures { Decides result (bare_name (token_name a.now) ≡ bare_name (token_name b.now)) }
{
    a == b
}
