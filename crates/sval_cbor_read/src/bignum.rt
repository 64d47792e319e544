//! Numbers as byte strings (RFC 8949, section 3.4.3).

ghost use Rattle.std.specs.Prelude.{◌≡◌, ◌<◌, ◌≤◌, ◌^◌, length, drop, IfSome};
ghost use Rattle.std.specs.Int.Digits.{number_from_digits_after};
ghost use Rattle.sval_cbor_read.specs.SeenBignums.{IsNumberAt, HasNoNumber, ArePiecesAt, HasNoPieces};

use crate::string::binary_at;

/// A number that a byte string is, and the place behind it.
#[derive(Clone, Copy)]
pub(crate) struct Bignum {
    pub(crate) number: u128,
    pub(crate) next: usize,
}

/// The number whose bytes are these behind those of another, or none where it has more than 128 bits.
fn extended(number: u128, bytes: &[u8]) -> Option<u128>
    ensures found { IfSome result (λ whole. whole ≡ number_from_digits_after 256 number bytes.now) }
    ensures small { IfSome result (λ whole. whole < 2 ^ 128) }
    ensures nothing { result ≡ None → 2 ^ 128 ≤ number_from_digits_after 256 number bytes.now }
{
    let mut whole = number;
    for byte in bytes {
        if whole >= 1 << 120 {
            return None;
        }
        whole = whole * 256 + *byte as u128;
    }
    Some(whole)
}

/// The number that pieces of a byte string are, from this place up to the break.
fn read_pieces(bytes: &[u8], from: usize) -> Option<Bignum>
    requires { from ≤ length bytes.now }
    ensures found { IfSome result (λ bignum. ArePiecesAt bytes.now from bignum) }
    ensures nothing { result ≡ None → HasNoPieces (drop from bytes.now) }
{
    let mut number: u128 = 0;
    let mut at = from;
    while at < bytes.len() {
        if bytes[at] == 0xff {
            return Some(Bignum {
                number,
                next: at + 1,
            });
        }
        let piece = match binary_at(bytes, at) {
            Some(piece) => piece,
            None => return None,
        };
        number = match extended(number, piece.content) {
            Some(number) => number,
            None => return None,
        };
        at = piece.next;
    }
    None
}

/// The number of 128 bits of the byte string at a place, definite or in chunks (RFC 8949, section 3.4.3).
pub(crate) fn read_bignum(bytes: &[u8], at: usize) -> Option<Bignum>
    requires { at ≤ length bytes.now }
    ensures found { IfSome result (λ bignum. IsNumberAt bytes.now at bignum) }
    ensures nothing { result ≡ None → HasNoNumber (drop at bytes.now) }
{
    if at >= bytes.len() {
        return None;
    }
    if bytes[at] == 0x5f {
        return read_pieces(bytes, at + 1);
    }
    match binary_at(bytes, at) {
        None => None,
        Some(piece) => match extended(0, piece.content) {
            None => None,
            Some(number) => Some(Bignum {
                number,
                next: piece.next,
            }),
        },
    }
}
