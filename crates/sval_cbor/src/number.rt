//! Text that stands for a number: its normal form, and the number that this is where it is whole.

ghost use Rattle.std.specs.Prelude.{◌≡◌, ◌+◌, ◌*◌, [], true, IfSome};
ghost use Rattle.std.specs.Char.{is_ascii_digit, digit_value};
ghost use Rattle.std.specs.Str.Parse.{digits_value};
ghost use Rattle.sval_json.specs.Digits as digits;
ghost use Rattle.sval_json.specs.Number as number;
ghost use Rattle.sval_cbor.specs.SeenWriter.{seen_normal, seen_answer};
ghost use Rattle.sval_cbor.specs.SeenNumber.{has_leading_zero, unsigned_form, keeps_sign};
ghost use Rattle.sval_cbor.specs.SeenNumber.{IsUnsigned, IsMagnitude, with_minus, IsOf128Bits, IsWholeAnswer};

use crate::integer::Integer;

/// A number in normal form.
#[derive(Clone, Copy)]
pub(crate) enum NormalForm<'a> {
    /// A number: whether it begins with `-`, and the rest, which begins with a digit.
    Number {
        /// It is below 0, or is a zero with a fraction or an exponent that has a sign.
        negative: bool,
        /// What follows the sign.
        unsigned: &'a [u8],
    },
    /// `null`, which stands for what begins as `nan`, `inf` or `snan`.
    Null,
}

/// Whether a text begins with a digit.
fn has_digit(text: &[u8]) -> bool
    ensures { result ≡ digits.has_digit text.now }
{
    matches!(text.first(), Some(b'0'..=b'9'))
}

/// What follows the sign, if there is one.
fn without_sign(text: &[u8]) -> &[u8]
    ensures { result.now ≡ digits.without_sign text.now }
{
    match text.split_first() {
        Some((b'+' | b'-', rest)) => rest,
        _ => text,
    }
}

/// What follows the digits that a text begins with.
fn after_digits(text: &[u8]) -> &[u8]
    ensures { result.now ≡ digits.after_digits text.now }
{
    let mut rest = text;
    while let Some((b'0'..=b'9', after)) = rest.split_first() {
        rest = after;
    }
    rest
}

/// Whether nothing follows, or an exponent to the end.
fn is_exponent(text: &[u8]) -> bool
    ensures { result ≡ digits.is_exponent text.now }
{
    match text.split_first() {
        None => true,
        Some((b'e' | b'E', rest)) => {
            let power = without_sign(rest);
            has_digit(power) && after_digits(power).is_empty()
        }
        Some(_) => false,
    }
}

/// Whether this may follow the integral digits: a fraction or none, and an exponent or none.
fn is_tail(text: &[u8]) -> bool
    ensures { result ≡ digits.is_tail text.now }
{
    match text.split_first() {
        Some((b'.', rest)) => has_digit(rest) && is_exponent(after_digits(rest)),
        _ => is_exponent(text),
    }
}

/// Whether a text begins as `nan`, `inf` or `snan`.
fn is_word(text: &[u8]) -> bool
    ensures { result ≡ number.is_word text.now }
{
    matches!(text.first(), Some(b's' | b'n' | b'i' | b'S' | b'N' | b'I'))
}

/// Whether the text begins with a zero and another digit.
fn has_leading_zero(text: &[u8]) -> bool
    ensures { result ≡ has_leading_zero text.now }
{
    match text.split_first() {
        Some((b'0', rest)) => has_digit(rest),
        _ => false,
    }
}

/// A number without the zeros in front of its integral digits, but for the last of these digits.
fn without_zeros(text: &[u8]) -> &[u8]
    ensures { result.now ≡ unsigned_form text.now }
{
    let mut rest = text;
    while has_leading_zero(rest) {
        rest = &rest[1..];
    }
    rest
}

/// Whether a number has `-` in front. A lone zero has none.
fn keeps_sign(negative: bool, unsigned: &[u8]) -> bool
    ensures { result ≡ keeps_sign negative unsigned.now }
{
    let zero = unsigned.len() == 1 && unsigned[0] == b'0';
    negative && !zero
}

/// The normal form of a number, by its sign and what follows that.
fn signed(negative: bool, text: &[u8]) -> NormalForm<'_>
    requires { digits.has_digit text.now ≡ true }
    ensures form { seen_normal result ≡ number.with_sign negative
        (number.without_zeros (digits.digits_of text.now)) (digits.after_digits text.now) }
    ensures unsigned { IsUnsigned result }
{
    let unsigned = without_zeros(text);
    NormalForm::Number {
        negative: keeps_sign(negative, unsigned),
        unsigned,
    }
}

/// The normal form of a text that stands for a number, or none where it is no number.
pub(crate) fn normal(text: &[u8]) -> Option<NormalForm<'_>>
    ensures form { seen_answer result ≡ number.normal text.now }
    ensures unsigned { IfSome result IsUnsigned }
{
    let negative = matches!(text.first(), Some(b'-'));
    let unsigned = without_sign(text);
    if has_digit(unsigned) && is_tail(after_digits(unsigned)) {
        return Some(signed(negative, unsigned));
    }
    if is_word(unsigned) {
        return Some(NormalForm::Null);
    }
    None
}

/// A number with one more digit, where it has 128 bits.
fn with_digit(number: u128, digit: u8) -> Option<u128>
    requires { is_ascii_digit digit ≡ true }
    ensures { IsMagnitude (number * 10 + digit_value digit) result }
{
    match number.checked_mul(10) {
        Some(tens) => tens.checked_add(u128::from(digit - b'0')),
        None => None,
    }
}

/// The number that digits make, where it has 128 bits.
fn magnitude(text: &[u8]) -> Option<u128>
    requires { digits.after_digits text.now ≡ [] }
    ensures { IsMagnitude (digits_value 10 text.now) result }
{
    let mut number: u128 = 0;
    let mut rest = text;
    while let Some((digit, after)) = rest.split_first() {
        let Some(next) = with_digit(number, *digit) else {
            return None;
        };
        number = next;
        rest = after;
    }
    Some(number)
}

/// The number after a sign, where it has 128 bits with that.
fn with_sign(negative: bool, number: u128) -> Option<Integer>
    ensures { IsOf128Bits (with_minus negative number) result }
{
    if !negative || number == 0 {
        return Some(Integer::Unsigned(number));
    }
    if number > 1 << 127 {
        return None;
    }
    Some(Integer::Negative(number - 1))
}

/// The whole number of up to 128 bits that a number in normal form is, if it is one.
pub(crate) fn whole(negative: bool, unsigned: &[u8]) -> Option<Integer>
    requires { digits.has_digit unsigned.now ≡ true }
    ensures { IsWholeAnswer negative unsigned.now result }
{
    if !after_digits(unsigned).is_empty() {
        return None;
    }
    match magnitude(unsigned) {
        Some(number) => with_sign(negative, number),
        None => None,
    }
}
