//! Bytes as texts.

ghost use Rattle.std.specs.Prelude.{◌≡◌, true, None, IfSome, IsUtf8};
ghost use Rattle.std.specs.Bool.{Decides};
ghost use Rattle.std.specs.Str.{IsAscii};

use std::str::from_utf8_unchecked;

/// Whether these bytes are that name. Most names differ in their lengths.
///
/// The loop is compiled into its caller, which spells the name, and so without a loop.
#[inline(always)]
pub(crate) fn is_text(text: &[u8], name: &[u8]) -> bool
    ensures { Decides result (text.now ≡ name.now) }
{
    if text.len() != name.len() {
        return false;
    }
    for index in 0..name.len() {
        if text[index] != name[index] {
            return false;
        }
    }
    true
}

/// Whether all bytes are ASCII, looked at one by one.
#[inline(always)]
fn are_ascii(bytes: &[u8]) -> bool
    ensures { result ≡ true → IsAscii bytes.now }
{
    for byte in bytes {
        if *byte >= 128 {
            return false;
        }
    }
    true
}

/// The bytes as a text, where they are UTF-8. Most texts are short and ASCII.
#[inline(always)]
pub(crate) fn as_text(bytes: &[u8]) -> Option<&str>
    ensures found { IfSome result (λ text. (text.now ≡ bytes.now) × IsUtf8 bytes.now) }
    ensures nothing { result ≡ None → IsUtf8 bytes.now → ⊥ }
{
    if bytes.len() < 24 && are_ascii(bytes) {
        return Some(unsafe { from_utf8_unchecked(bytes) });
    }
    match str::from_utf8(bytes) {
        Ok(text) => Some(text),
        Err(_) => None,
    }
}
