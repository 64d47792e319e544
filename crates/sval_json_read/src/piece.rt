//! Strings, piece by piece.

ghost use Rattle.std.specs.Prelude.{◌≡◌, ◌<◌, ◌∷◌, length, take, get_or, true};
ghost use Rattle.std.specs.List.{list_all};
ghost use Rattle.sval_json_read.specs.Calls.{pieces};
ghost use Rattle.sval_json_read.specs.RawStrings.{IsRaw, is_no_backslash};
ghost use Rattle.sval_json_read.specs.SeenPieces.{seen_piece};

use crate::escape::{Unescaped, unescape};
use memchr::memchr;

/// A run or an escape of a string.
#[derive(Clone, Copy)]
pub(crate) enum Piece<'a> {
    /// A longest run of unescaped characters.
    Run(&'a str),
    /// The character that one escape stands for.
    Escape(char),
}

/// The first run or escape of the text between a string's quotes, and what follows it.
pub(crate) fn first_piece(raw: &str) -> (Piece<'_>, &str)
    requires is_raw { IsRaw raw.now }
    requires some { 0 < length raw.now }
    ensures pieces { pieces raw.now ≡ seen_piece result.0 ∷ pieces result.1.now }
    ensures is_raw { IsRaw result.1.now }
    ensures shorter { length result.1.now < length raw.now }
{
    match memchr(b'\\', raw.as_bytes()) {
        None => (Piece::Run(raw), ""),
        Some(0) => first_escape(raw),
        Some(len) => first_run(raw, len),
    }
}

/// The escape with which this begins, and what follows it.
pub(crate) fn first_escape(raw: &str) -> (Piece<'_>, &str)
    requires is_raw { IsRaw raw.now }
    requires some { 0 < length raw.now }
    requires backslash { get_or raw.now 0 0 ≡ 92 }
    ensures pieces { pieces raw.now ≡ seen_piece result.0 ∷ pieces result.1.now }
    ensures is_raw { IsRaw result.1.now }
    ensures shorter { length result.1.now < length raw.now }
{
    let Unescaped { character, follow } = unescape(&raw.as_bytes()[1..]);
    (Piece::Escape(character), &raw[1 + follow..])
}

/// The run of this length with which this begins, and what follows it.
fn first_run(raw: &str, len: usize) -> (Piece<'_>, &str)
    requires is_raw { IsRaw raw.now }
    requires some { 0 < len }
    requires within { len < length raw.now }
    requires unescaped { list_all is_no_backslash (take len raw.now) ≡ true }
    requires backslash { get_or raw.now len 0 ≡ 92 }
    ensures pieces { pieces raw.now ≡ seen_piece result.0 ∷ pieces result.1.now }
    ensures is_raw { IsRaw result.1.now }
    ensures shorter { length result.1.now < length raw.now }
{
    let (run, rest) = raw.split_at(len);
    (Piece::Run(run), rest)
}
