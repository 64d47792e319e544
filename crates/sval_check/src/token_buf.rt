//! Streams whose calls are kept.

ghost use Rattle.std.specs.Prelude.{◌≡◌, ◌↔◌, ◌<◌, IsTrue, IsSome, List, []};
ghost use Rattle.sval_label.specs.Calls as calls;
ghost use Rattle.sval_label.specs.Made.{lent_call};
ghost use Rattle.sval_core.specs.Law.{Answers};
ghost use Rattle.sval_check.specs.Tokens.{token_calls, all_compared};
ghost use Rattle.sval_check.specs.TokenBufs.{nothing_taken, token_law, token_standing, KeepsCall};

use crate::matching::all_equal;
use crate::token::Token;
use crate::token_copies::token_of;
use std::alloc::Global;
use std::marker::Model;
use sval_core::{Call, Error, Lent, NoMemory, Stream};

/// Keeps the calls that it takes as tokens, so that a test can compare them.
///
/// It accepts every call, whatever came before. A call is refused only where memory was wanting for its token, and then
/// the tokens stay as they were. A borrowed fragment is kept by reference. Computed fragments are copied, and so are
/// the texts of labels that aren't static.
///
/// An `Option` makes `Tag` or `TaggedBegin` with its tag, its label `None` or `Some`, and its index 0 or 1.
///
/// A user's value, as `sval_core` says how one is written, that is a sequence of one number:
///
/// ```
/// let mut buffer = TokenBuf::new(alloc);
/// buffer.value(&once)?;
/// let tokens = [
///     Token::SeqBegin(Some(1)),
///     Token::SeqValueBegin,
///     Token::U64(7),
///     Token::SeqValueEnd,
///     Token::SeqEnd,
/// ];
/// assert!(rt; buffer.matches(&tokens));
/// ```
///
/// After any calls it holds exactly these, in order, which is proved in
/// [`laws::token_buf_laws`](crate::laws::token_buf_laws).
#[derive(Drop)]
pub struct TokenBuf<'sval> {
    tokens: Vec<Token<'sval>>,
    /// How often memory was wanting.
    wants: u64,
    /// The last want of memory, if there was one.
    lacked: Option<NoMemory>,
    alloc: Global,
}

impl<'sval> Model for TokenBuf<'sval> {
    ghost use Rattle.sval_check.specs.TokenBufs.{TakenCalls};

    ghost Value = { TakenCalls };

    ghost use Rattle.sval_check.specs.Tokens.{token_calls};

    ghost view = { λ buffer. record { calls = token_calls buffer.tokens.items; wants = buffer.wants } };

    ghost use Rattle.std.specs.Prelude.{◌↔◌, ◌<◌, IsSome};

    ghost invariant = { λ buffer. IsSome buffer.lacked ↔ (0 < buffer.wants) };
}

impl<'sval> TokenBuf<'sval> {
    /// A buffer that has taken no call, and no memory yet.
    pub fn new(alloc: Global) -> Self
        ensures { result ≡ nothing_taken }
    {
        TokenBuf {
            tokens: Vec::new(alloc),
            wants: 0,
            lacked: None,
            alloc,
        }
    }

    /// The calls that were taken since the buffer was new or cleared, in order. Printed by `{:?}` they show where two
    /// lists differ.
    pub fn as_tokens(&self) -> &[Token<'sval>]
        ensures { token_calls result.now ≡ self.now.calls }
    {
        self.tokens.as_slice()
    }

    /// Whether the calls that were taken are these, all of them and in order. Each is compared as by `==` of two tokens
    /// ([`laws::tokens_are_equal`](crate::laws::tokens_are_equal)).
    pub fn matches(&self, expected: &[Token<'_>]) -> bool
        ensures { IsTrue result ↔ (all_compared self.now.calls ≡ all_compared (token_calls expected.now)) }
    {
        all_equal(self.as_tokens(), expected)
    }

    /// Whether memory was wanting for a call, since the buffer was new.
    pub fn lacked_memory(&self) -> bool
        ensures { IsTrue result ↔ (0 < self.now.wants) }
    {
        self.wants > 0
    }

    /// The last want of memory, if memory was wanting for a call since the buffer was new.
    pub fn no_memory(&self) -> Option<NoMemory>
        ensures { IsSome result ↔ (0 < self.now.wants) }
    {
        self.lacked
    }

    /// Forgets all calls.
    pub fn clear(&mut self)
        ensures { self.new ≡ record self.old { calls = [] } }
    {
        self.tokens.clear();
    }

    /// Keeps a call. There is room for its token, and the token is made, before anything changes.
    fn keep(&mut self, call: Call<'sval, '_>) -> Result<(), NoMemory>
        ensures { KeepsCall self.old (lent_call call.entry) result self.new }
    {
        self.tokens.reserve(1)?;
        let token = token_of(self.alloc, call)?;
        self.tokens.push_reserved(token);
        Ok(())
    }
}

impl<'sval> Stream<Lent<'sval>> for TokenBuf<'sval> {
    ghost View = { List calls.Call };

    ghost law = { token_law };

    ghost standing = { token_standing };

    fn take(&mut self, call: Call<'sval, '_>) -> sval_core::Result
        ensures { Answers token_law result
            (token_standing self.old) (lent_call call.entry) (token_standing self.new) }
    {
        match self.keep(call) {
            Ok(()) => Ok(()),
            Err(cause) => {
                self.wants = self.wants.saturating_add(1);
                self.lacked = Some(cause);
                Err(Error::new())
            }
        }
    }
}
