//! A tape that was read.

ghost use Rattle.std.specs.Prelude.{◌≡◌, ℕ, IfOk};
ghost use Rattle.sval_core.specs.Law.{Emits};
ghost use Rattle.sval_core.specs.Values.{makes};
ghost use Rattle.sval_tape.specs.Taped.{IsTape, IsBadAt};
ghost use Rattle.sval_tape.specs.Reading.{calls_on_tape};

use crate::calls::read_call;
use std::error::Error;
use std::fmt;
use std::marker::Model;
use sval_core::{Lent, Stream, Value};
use sval_ref::ValueRef;

/// Why bytes are no tape.
#[derive(Clone, Copy, Debug, PartialEq, Eq)]
pub enum TapeError {
    /// No call begins at byte `at`, counted from 0. The bytes before it are a tape.
    Bad { at: usize },
}

impl fmt::Display for TapeError {
    ghost use Rattle.std.specs.Prelude.{Some};
    ghost use Rattle.sval_tape.specs.ErrorTexts.{tape_error_text};

    ghost output = { λ error. Some (tape_error_text error) };

    fn fmt<W: fmt::Write>(&self, f: &mut fmt::Formatter<W>) -> fmt::Result {
        match *self {
            TapeError::Bad { at } => write!(f, "invalid tape at byte {at}"),
        }
    }
}

impl Error for TapeError {}

/// A tape that was read: a value, which makes the calls that its bytes spell.
///
/// It borrows its bytes, lends its texts and binaries from them, and takes no memory.
#[derive(Drop)]
pub struct Tape<'sval> {
    bytes: &'sval [u8],
}

impl<'sval> Model for Tape<'sval> {
    ghost use Rattle.std.specs.Prelude.{List};
    ghost use Rattle.sval_label.specs.Calls.{Call};
    ghost use Rattle.sval_tape.specs.Reading.{calls_on_tape};
    ghost use Rattle.sval_tape.specs.Taped.{IsTape};

    ghost Value = { List Call };

    ghost view = { λ tape. calls_on_tape tape.bytes.now };

    ghost invariant = { λ tape. IsTape tape.bytes.now (calls_on_tape tape.bytes.now) };
}

impl<'sval> Tape<'sval> {
    /// Reads a tape: the calls whose bytes these are, one after another.
    ///
    /// # Errors
    ///
    /// [`TapeError::Bad`] with the offset of the first byte behind the calls that could be read.
    pub fn read(bytes: &'sval [u8]) -> Result<Tape<'sval>, TapeError>
        ensures tape { IfOk result (λ tape. IsTape bytes.now tape) }
        ensures bad { (at : ℕ) → result ≡ Err (TapeError.Bad at) → IsBadAt bytes.now at }
    {
        let mut rest = bytes;
        'calls: while !rest.is_empty() {
            match read_call(rest) {
                Some((_, behind)) => rest = behind,
                None => {
                    return Err(TapeError::Bad {
                        at: bytes.len() - rest.len(),
                    });
                }
            }
        }
        Ok(Tape { bytes })
    }
}

/// Makes the calls of a tape.
fn make_calls<'v, S: Stream<Lent<'v>>>(bytes: &'v [u8], stream: &mut S) -> sval_core::Result
    requires { IsTape bytes.now (calls_on_tape bytes.now) }
    ensures { Emits S.law result (S.standing stream.old) (makes (calls_on_tape bytes.now)) (S.standing stream.new) }
{
    let mut rest = bytes;
    'calls: while let Some((call, behind)) = read_call(rest) {
        call.make(stream)?;
        rest = behind;
    }
    Ok(())
}

impl<'v, 'sval: 'v> Value<'v, Lent<'v>> for Tape<'sval> {
    ghost emission = { makes };

    fn stream<S: Stream<Lent<'v>>>(&'v self, stream: &mut S) -> sval_core::Result {
        make_calls(self.bytes, stream)
    }
}

impl<'sval> ValueRef<Lent<'sval>> for Tape<'sval> {
    ghost ref_emission = { makes };

    fn stream_ref<S: Stream<Lent<'sval>>>(&self, stream: &mut S) -> sval_core::Result {
        make_calls(self.bytes, stream)
    }
}
