//! Heads, with which items begin (RFC 8949, section 3).

ghost use Rattle.std.specs.Prelude.{◌≡◌, ◌+◌, ◌<◌, ◌≤◌, length, drop, get_or, None, IfSome};
ghost use Rattle.std.specs.Int.Digits.{number_from_digits};
ghost use Rattle.sval_cbor_read.specs.Items.{wide_head, head_at_front};
ghost use Rattle.sval_cbor_read.specs.Reading.{mark_of};
ghost use Rattle.sval_cbor_read.specs.SeenHeads.{IsHead};

/// A head: its major type, its number, and the place behind it.
#[derive(Clone, Copy)]
pub(crate) struct Head {
    pub(crate) major: u8,
    pub(crate) number: u64,
    pub(crate) next: usize,
}

/// Bytes as a number, the highest first.
#[tactic(auto, using(std::proofs::lemmas::Int::Digits::number_more))]
fn number_of(bytes: &[u8]) -> u64
    requires { length bytes.now ≤ 8 }
    ensures { result ≡ number_from_digits 256 bytes.now }
{
    let mut number: u64 = 0;
    for byte in bytes {
        number = number * 256 + *byte as u64;
    }
    number
}

/// The head of this major type whose argument is in the `width` bytes at `at`.
fn read_wide(bytes: &[u8], at: usize, width: usize, major: u8) -> Option<Head>
    requires within { at ≤ length bytes.now }
    requires small { width ≤ 8 }
    ensures found { IfSome result (λ h. IsHead bytes.now at h (wide_head major width (drop at bytes.now))) }
    ensures nothing { result ≡ None → wide_head major width (drop at bytes.now) ≡ None }
{
    if width > bytes.len() - at {
        return None;
    }
    let next = at + width;
    Some(Head {
        major,
        number: number_of(&bytes[at..next]),
        next,
    })
}

/// The head at a place.
#[tactic(auto, unfolding(crate::specs::Items::head_at_front))]
#[inline(always)]
pub(crate) fn read_head(bytes: &[u8], at: usize) -> Option<Head>
    requires { at ≤ length bytes.now }
    ensures found { IfSome result (λ h. (at < h.next) × IsHead bytes.now at h (head_at_front (drop at bytes.now))) }
    ensures nothing { result ≡ None → head_at_front (drop at bytes.now) ≡ None }
{
    if at >= bytes.len() {
        return None;
    }
    let major = bytes[at] / 32;
    let low = bytes[at] % 32;
    let next = at + 1;
    match low {
        0..=23 => Some(Head {
            major,
            number: low as u64,
            next,
        }),
        24 => read_wide(bytes, next, 1, major),
        25 => read_wide(bytes, next, 2, major),
        26 => read_wide(bytes, next, 4, major),
        27 => read_wide(bytes, next, 8, major),
        _ => None,
    }
}

/// The head of a text of less than 24 bytes, if there is one at a place. It is one byte, as most texts have it.
#[tactic(auto, unfolding(crate::specs::Items::head_at_front))]
#[inline(always)]
pub(crate) fn short_text_head(bytes: &[u8], at: usize) -> Option<Head>
    requires { at < length bytes.now }
    ensures found { IfSome result (λ h. (at < h.next) × IsHead bytes.now at h (head_at_front (drop at bytes.now))) }
    ensures text { IfSome result (λ h. h.major ≡ 3) }
    ensures no_mark { IfSome result (λ h. mark_of (get_or bytes.now at 0) ≡ None) }
{
    let first = bytes[at];
    if first < 0x60 || 0x77 < first {
        return None;
    }
    Some(Head {
        major: 3,
        number: (first - 0x60) as u64,
        next: at + 1,
    })
}
