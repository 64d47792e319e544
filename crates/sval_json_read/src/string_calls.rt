//! The calls of a string.

ghost use Rattle.std.specs.Prelude.{◌≡◌, ◌∷◌, [], map};
ghost use Rattle.std.specs.Bool.{OnTrue};
ghost use Rattle.sval_core.specs.Law.{Answers, Emits};
ghost use Rattle.sval_core.specs.Values.{makes};
ghost use Rattle.sval_json_read.specs.Calls.{run, string_value_calls, key_calls, piece_call, pieces};
ghost use Rattle.sval_json_read.specs.RawStrings.{IsRaw};
ghost use Rattle.sval_json_read.specs.SeenPieces.{seen_piece};

use crate::piece::{Piece, first_piece};
use memchr::memchr;
use sval_core::{Lent, Result, Stream};

/// Makes the call of a piece.
fn stream_piece<'v, S: Stream<Lent<'v>>>(piece: Piece<'v>, stream: &mut S) -> Result
    ensures { Answers S.law result (S.standing stream.old) (piece_call (seen_piece piece.entry))
        (S.standing stream.new) }
{
    match piece {
        Piece::Run(run) => stream.text_fragment(run),
        Piece::Escape(character) => {
            let mut buffer = [0; 4];
            stream.text_fragment_computed(character.encode_utf8(&mut buffer))
        },
    }
}

/// Makes the calls of the text between a string's quotes.
#[tactic(auto, using(crate::proofs::PieceStreams::of_pieces))]
fn stream_pieces<'v, S: Stream<Lent<'v>>>(raw: &'v str, stream: &mut S) -> Result
    requires { IsRaw raw.now }
    ensures { Emits S.law result
        (S.standing stream.old) (makes (map piece_call (pieces raw.now))) (S.standing stream.new) }
{
    let mut rest = raw;
    while !rest.is_empty() {
        let (piece, behind) = first_piece(rest);
        stream_piece(piece, stream)?;
        rest = behind;
    }
    Ok(())
}

/// Whether the text between a string's quotes is one run, without an escape.
pub(crate) fn is_one_run(raw: &str) -> bool
    requires { IsRaw raw.now }
    ensures { OnTrue result (pieces raw.now ≡ run raw.now ∷ []) }
{
    !raw.is_empty() && memchr(b'\\', raw.as_bytes()).is_none()
}

/// Makes the calls of a string with this text between its quotes.
pub(crate) fn stream_string<'v, S: Stream<Lent<'v>>>(raw: &'v str, stream: &mut S) -> Result
    requires { IsRaw raw.now }
    ensures { Emits S.law result
        (S.standing stream.old) (makes (string_value_calls raw.now)) (S.standing stream.new) }
{
    if is_one_run(raw) {
        return stream.whole_text(raw, None);
    }
    stream.text_begin(None)?;
    stream_pieces(raw, stream)?;
    stream.text_end()
}

/// Makes the calls of the name of a member, with this text between its quotes.
pub(crate) fn stream_key<'v, S: Stream<Lent<'v>>>(raw: &'v str, stream: &mut S) -> Result
    requires { IsRaw raw.now }
    ensures { Emits S.law result
        (S.standing stream.old) (makes (key_calls raw.now)) (S.standing stream.new) }
{
    if is_one_run(raw) {
        return stream.whole_text_key(raw, None);
    }
    stream.map_key_begin()?;
    stream_string(raw, stream)?;
    stream.map_key_end()
}
