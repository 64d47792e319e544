//! Strings of a document.

ghost use Rattle.std.specs.Prelude.{◌≡◌, ◌++◌, ℕ, List, None, IfOk, IfSome, string_bytes};
ghost use Rattle.std.specs.Str.{bytes_eq};
ghost use Rattle.sval_json_read.specs.RawStrings.{IsRaw};
ghost use Rattle.sval_json_read.specs.Calls.{piece_bytes};
ghost use Rattle.sval_json_read.specs.Pointers.{reference_token};
ghost use Rattle.sval_json_read.specs.SeenPieces.{seen_piece, piece_token};
ghost use Rattle.sval_json_read.specs.SeenValues.{text_in};

use crate::piece::{Piece, first_piece};
use crate::pointer::token_behind;
use crate::string_calls::is_one_run;
use std::alloc::{AllocError, Global};
use std::marker::Model;

/// A string of a document, seen as its text.
#[derive(Drop)]
pub struct JsonText<'d> {
    raw: &'d str,
}

impl<'d> Model for JsonText<'d> {
    ghost use Rattle.std.specs.Prelude.{ℕ, List};
    ghost use Rattle.sval_json_read.specs.RawStrings.{IsRaw};
    ghost use Rattle.sval_json_read.specs.SeenValues.{text_in};

    ghost Value = { List ℕ };

    ghost view = { λ text. text_in text.raw.now };

    ghost invariant = { λ text. IsRaw text.raw.now };
}

impl<'d> JsonText<'d> {
    /// The string with this text between its quotes.
    pub(crate) fn new(raw: &'d str) -> Self
        requires { IsRaw raw.now }
        ensures { result ≡ text_in raw.now }
    {
        JsonText { raw }
    }

    /// Its text, lent from the document, or `None` where it has an escape. That it is lent where it has none is tested, not
    /// proved.
    pub fn as_lent(&self) -> Option<&'d str>
        ensures { IfSome result (λ text. text.now ≡ self.now) }
    {
        if self.raw.is_empty() || is_one_run(self.raw) {
            Some(self.raw)
        } else {
            None
        }
    }

    /// Its text, copied.
    ///
    /// # Errors
    ///
    /// [`AllocError`] where there is no memory for it.
    pub fn to_text(&self, alloc: Global) -> Result<String, AllocError>
        ensures { IfOk result (λ text. string_bytes text ≡ self.now) }
    {
        let mut text = String::new(alloc);
        let mut rest = self.raw;
        while !rest.is_empty() {
            let (piece, behind) = first_piece(rest);
            match piece {
                Piece::Run(run) => text.push_str(run)?,
                Piece::Escape(character) => text.push(character)?,
            }
            rest = behind;
        }
        Ok(text)
    }

    /// Whether its text is this one. Takes no memory.
    pub fn is(&self, other: &str) -> bool
        ensures { result ≡ bytes_eq self.now other.now }
    {
        let mut rest = self.raw;
        let mut left = other.as_bytes();
        while !rest.is_empty() {
            let (piece, behind) = first_piece(rest);
            match behind_piece(piece, left) {
                Some(more) => left = more,
                None => return false,
            }
            rest = behind;
        }
        left.is_empty()
    }

    /// Whether the reference token of its text (RFC 6901) is this one. Takes no memory.
    #[tactic(auto, using(sval_json::proofs::TextFronts::other_front, crate::proofs::Pointers::token_joined))]
    pub(crate) fn has_token(&self, token: &str) -> bool
        ensures { result ≡ bytes_eq (reference_token self.now) token.now }
    {
        let mut rest = self.raw;
        let mut left = token.as_bytes();
        while !rest.is_empty() {
            let (piece, behind) = first_piece(rest);
            match behind_piece_token(piece, left) {
                Some(more) => left = more,
                None => return false,
            }
            rest = behind;
        }
        left.is_empty()
    }
}

/// What follows a text at the beginning of these bytes, where they begin with it.
pub(crate) fn behind<'b>(text: &[u8], bytes: &'b [u8]) -> Option<&'b [u8]>
    ensures found { IfSome result (λ more. bytes.now ≡ text.now ++ more.now) }
    ensures other { result ≡ None → (more : List ℕ) → bytes.now ≡ text.now ++ more → ⊥ }
{
    bytes.strip_prefix(text)
}

/// What follows a piece's text at the beginning of these bytes, where they begin with it.
fn behind_piece<'b>(piece: Piece<'_>, bytes: &'b [u8]) -> Option<&'b [u8]>
    ensures found { IfSome result (λ more. bytes.now ≡ piece_bytes (seen_piece piece.entry) ++ more.now) }
    ensures other { result ≡ None → (more : List ℕ) → bytes.now ≡ piece_bytes (seen_piece piece.entry) ++ more → ⊥ }
{
    match piece {
        Piece::Run(run) => behind(run.as_bytes(), bytes),
        Piece::Escape(character) => {
            let mut buffer = [0; 4];
            behind(character.encode_utf8(&mut buffer).as_bytes(), bytes)
        },
    }
}

/// What follows the reference token of a piece's text at the beginning of these bytes, where they begin with it.
fn behind_piece_token<'b>(piece: Piece<'_>, bytes: &'b [u8]) -> Option<&'b [u8]>
    ensures found { IfSome result (λ more. bytes.now ≡ piece_token piece.entry ++ more.now) }
    ensures other { result ≡ None → (more : List ℕ) → bytes.now ≡ piece_token piece.entry ++ more → ⊥ }
{
    match piece {
        Piece::Run(run) => token_behind(run.as_bytes(), bytes),
        Piece::Escape(character) => {
            let mut buffer = [0; 4];
            token_behind(character.encode_utf8(&mut buffer).as_bytes(), bytes)
        },
    }
}
