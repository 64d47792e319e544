//! What is read of calls as texts and binaries that are lent.

ghost use Rattle.std.specs.Prelude.{◌≡◌, ℕ, true, List, option_map};
ghost use Rattle.sval_label.specs.Made.{lent_call};
ghost use Rattle.sval_label.specs.Calls as call;
ghost use Rattle.sval_label.specs.SeenName.{seen_name};
ghost use Rattle.sval_lower.specs.Readers.{lent_text, is_beside_text, lent_binary, is_beside_binary};

use crate::reading::Reading;
use crate::reading::kinds::{is_around, is_passed_over};
use sval_core::{AnyCall, Call, Lent, Name, tags};

/// Reads borrowed fragments of texts, and static labels of tags by themselves.
pub(crate) struct OfText;

impl<'v> Reading<Lent<'v>, &'v str> for OfText {
    ghost Read = { List ℕ };

    ghost seen = { λ text. text.now };

    ghost read_of = { lent_text };

    ghost over = { is_beside_text };

    ghost once = { true };

    fn reads_one() -> bool
        ensures { result ≡ true }
    {
        true
    }

    fn read(call: &Call<'v, '_>) -> Option<&'v str>
        ensures { option_map (λ text. text.now) result ≡ lent_text (lent_call call.now) }
    {
        match call {
            AnyCall::TextFragment(text) => Some(*text),
            AnyCall::Tag(name) => static_text(*name),
            _ => None,
        }
    }

    fn passes_over(call: &Call<'v, '_>) -> bool
        ensures { result ≡ is_beside_text (lent_call call.now) }
    {
        match call {
            AnyCall::TextBegin(_) | AnyCall::TextEnd => true,
            _ => is_passed_over(call),
        }
    }
}

/// The static label of a tag by itself that stands for a value.
fn static_text(name: Name<'_>) -> Option<&'static str>
    ensures { option_map (λ text. text.now) result ≡ lent_text (call.Standalone (seen_name name.entry)) }
{
    if let Some(tag) = name.tag
        && tag.text == tags::RUST_OPTION_NONE.text
    {
        return None;
    }
    name.label?.as_static_str()
}

/// Reads borrowed fragments of binaries.
pub(crate) struct OfBinary;

impl<'v> Reading<Lent<'v>, &'v [u8]> for OfBinary {
    ghost Read = { List ℕ };

    ghost seen = { λ bytes. bytes.now };

    ghost read_of = { lent_binary };

    ghost over = { is_beside_binary };

    ghost once = { true };

    fn reads_one() -> bool
        ensures { result ≡ true }
    {
        true
    }

    fn read(call: &Call<'v, '_>) -> Option<&'v [u8]>
        ensures { option_map (λ bytes. bytes.now) result ≡ lent_binary (lent_call call.now) }
    {
        match call {
            AnyCall::BinaryFragment(bytes) => Some(*bytes),
            _ => None,
        }
    }

    fn passes_over(call: &Call<'v, '_>) -> bool
        ensures { result ≡ is_beside_binary (lent_call call.now) }
    {
        match call {
            AnyCall::BinaryBegin(_) | AnyCall::BinaryEnd => true,
            _ => is_around(call),
        }
    }
}
