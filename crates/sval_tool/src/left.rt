//! What a rule and paths leave of a document, streamed on token by token.

ghost use Rattle.std.specs.Prelude.{◌≡◌, IfOk, OnOk, Some, None};
ghost use Rattle.sval_json_read.specs.declared.json_tokens.TokenKind.TheVariants.{Single};
ghost use Rattle.sval_tool.specs.LeftTokens.{walk_behind, walk_after, stays_in, token_stays, passed_calls, left_calls};
ghost use Rattle.sval_tool.specs.Passing.{StreamsLeft};

use std::alloc::Global;
use sval_core::{Lent, NoMemory, Stream};
use sval_filter::{Paths, Rule, Walk};
use sval_json_read::{JsonDoc, JsonText, JsonToken, TokenKind};

/// Why what is left of a document wasn't streamed whole.
#[derive(Clone, Copy)]
pub(crate) enum Halt {
    /// Memory was wanting for the walk over it.
    NoMemory,
    /// The stream refused a call.
    Refused,
}

impl From<NoMemory> for Halt {
    ghost use Rattle.std.specs.Prelude.{◌≡◌};
    ghost use Rattle.sval_tool.specs.declared.left.Halt.TheVariants.{NoMemory};

    ghost from_gives = { λ _ halt. halt ≡ NoMemory };

    fn from(_cause: NoMemory) -> Halt {
        Halt::NoMemory
    }
}

/// Takes the name of a member, and tells whether that stays. It copies a name that has an escape.
fn take_name(alloc: Global, walk: &mut Walk<'_>, name: &JsonText<'_>) -> Result<bool, NoMemory>
    ensures walk { OnOk result (walk.new ≡ walk_behind (Some name.now) Single walk.old) }
    ensures stays { IfOk result (λ stays. stays ≡ stays_in (Some name.now) Single walk.old) }
{
    match name.as_lent() {
        Some(label) => walk.name(label),
        None => {
            let label = name.to_text(alloc)?;
            walk.name(label.as_str())
        }
    }
}

/// Takes a token that is no name, by its kind, and tells whether it stays.
fn take_kind(walk: &mut Walk<'_>, kind: TokenKind) -> Result<bool, NoMemory>
    ensures walk { OnOk result (walk.new ≡ walk_behind None kind walk.old) }
    ensures stays { IfOk result (λ stays. stays ≡ stays_in None kind walk.old) }
{
    match kind {
        TokenKind::Begin => walk.begin(),
        TokenKind::End => Ok(walk.end()),
        TokenKind::Single => Ok(walk.value()),
    }
}

/// Takes a token, and tells whether it stays.
pub(crate) fn take_token(
    alloc: Global,
    walk: &mut Walk<'_>,
    token: &JsonToken<'_>,
) -> Result<bool, NoMemory>
    ensures walk { OnOk result (walk.new ≡ walk_after walk.old token.now) }
    ensures stays { IfOk result (λ stays. stays ≡ token_stays walk.old token.now) }
{
    match token.name() {
        Some(name) => take_name(alloc, walk, &name),
        None => take_kind(walk, token.kind()),
    }
}

/// Takes a token, and streams it, if it stays.
fn pass_token<'d, S: Stream<Lent<'d>>>(
    alloc: Global,
    walk: &mut Walk<'_>,
    token: &JsonToken<'d>,
    stream: &mut S,
) -> Result<(), Halt>
    ensures walk { OnOk result (walk.new ≡ walk_after walk.old token.now) }
    ensures streams { let due = passed_calls (token_stays walk.old token.now) token.now in
        StreamsLeft S.law (S.standing stream.old) due result (S.standing stream.new) }
{
    if !take_token(alloc, walk, token)? {
        return Ok(());
    }
    match token.stream(stream) {
        Ok(()) => Ok(()),
        Err(_) => Err(Halt::Refused),
    }
}

/// Streams what a rule and paths leave of a document.
///
/// Its calls are known to be right, so no call is checked. Memory is taken for what is open alone.
pub(crate) fn stream_left<'d, S: Stream<Lent<'d>>>(
    alloc: Global,
    doc: &'d JsonDoc<'_>,
    rule: Rule,
    paths: &Paths,
    stream: &mut S,
) -> Result<(), Halt>
    ensures { StreamsLeft S.law (S.standing stream.old) (left_calls rule paths.now doc.now) result
        (S.standing stream.new) }
{
    let mut walk = Walk::new(alloc, rule, paths);
    let mut tokens = doc.tokens();
    while let Some(token) = tokens.next() {
        pass_token(alloc, &mut walk, &token, stream)?;
    }
    Ok(())
}
