//! The first value of bytes, which needn't be UTF-8 behind it.

ghost use Rattle.std.specs.Prelude.{◌≡◌, ◌<◌, ◌≤◌, IfOk, IfErr, IsUtf8, length, take};
ghost use Rattle.std.specs.Str.{IsValidUpTo};
ghost use Rattle.sval_json.specs.Grammar.{Denotes};
ghost use Rattle.sval_json_read.specs.Calls.{document_calls};
ghost use Rattle.sval_json_read.specs.JsonFronts.{EndsFront, IsJsonFrontError};
ghost use Rattle.sval_json_read.specs.ReadErrors.{IsReadText};
ghost use Rattle.sval_json_read.specs.SeenValues.{value_in};

use super::{JsonDoc, ReadError};
use simdutf8::compat::from_utf8;
use std::alloc::Global;

/// How many bytes are looked at first, and how many times as many where these don't suffice.
const FIRST_LOOK: usize = 512;

const LOOKS_FURTHER: usize = 8;

impl<'a> JsonDoc<'a> {
    /// Reads the first value of the bytes, as [`JsonDoc::read_front_str`] does. What follows it may be any bytes.
    ///
    /// It checks whether they are UTF-8 up to a place behind the value that doesn't depend on how many bytes there are.
    ///
    /// ```
    /// let bytes = b"{} 12 3".as_slice();
    /// let (_, used) = JsonDoc::read_front(alloc, bytes)?;
    /// let (second, more) = JsonDoc::read_front(alloc, &bytes[used..])?;
    /// assert_eq!(rt; (second.root().as_i64(), used + more), (Some(12), 5));
    /// assert_eq!(rt; JsonDoc::read_front(alloc, b"[\"\xff".as_slice()).err(), Some(ReadError::NotUtf8 { at: 2 }));
    /// ```
    ///
    /// # Errors
    ///
    /// [`ReadError::NotUtf8`] and [`ReadError::BadJson`] come only where no value begins the bytes: the first where
    /// their longest front that is UTF-8 begins a text of JSON, the second where it doesn't, or they all are UTF-8.
    /// [`ReadError::NoMemory`] may come as in [`JsonDoc::read`].
    pub fn read_front(alloc: Global, bytes: &'a [u8]) -> Result<(Self, usize), ReadError>
        ensures ok { IfOk result (λ front. IsReadText (take front.1 bytes.now) (document_calls front.0)) }
        ensures value { IfOk result (λ front. Denotes (take front.1 bytes.now) (value_in front.0)) }
        ensures ends { IfOk result (λ front. EndsFront bytes.now front.1) }
        ensures err { IfErr result (IsJsonFrontError bytes.now) }
    {
        let mut size = FIRST_LOOK;
        while size < bytes.len() {
            let text = utf8_front(&bytes[..size]);
            match JsonDoc::read_front_str(alloc, text) {
                Ok((doc, used)) => if used < text.len() {
                    return Ok((doc, used));
                },
                Err(ReadError::BadJson { at }) => if at < text.len() as u64 {
                    return Err(ReadError::BadJson { at });
                },
                Err(error) => return Err(error),
            }
            size = size.saturating_mul(LOOKS_FURTHER);
        }
        let text = utf8_front(bytes);
        match JsonDoc::read_front_str(alloc, text) {
            Err(ReadError::BadJson { at }) if at == text.len() as u64 && text.len() < bytes.len() =>
                { Err(ReadError::NotUtf8 { at }) },
            read => read,
        }
    }
}

/// The longest front of the bytes that is UTF-8.
fn utf8_front(bytes: &[u8]) -> &str
    ensures within { length result.now ≤ length bytes.now }
    ensures front { result.now ≡ take (length result.now) bytes.now }
    ensures longest { length result.now < length bytes.now
        → (IsUtf8 bytes.now → ⊥) × IsValidUpTo bytes.now (length result.now) }
{
    match from_utf8(bytes) {
        Ok(text) => text,
        Err(error) => match from_utf8(&bytes[..error.valid_up_to()]) {
            Ok(text) => text,
            Err(_) => unreachable!("a front that is UTF-8"),
        },
    }
}
