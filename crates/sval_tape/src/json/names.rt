//! Names that come again where what they begin ends, and names that come often.

ghost use Rattle.std.specs.Prelude.{◌≡◌, ◌++◌, ◌∷◌, ◌-◌, length, take, IfSome};
ghost use Rattle.sval_tape.specs.Tapes.{name_bytes};
ghost use Rattle.sval_tape.specs.JsonAtFront.{none_taped, number_name, some_taped};

/// What follows a call's number, where bytes begin with that.
#[inline(always)]
pub(super) fn behind<'t>(number: u8, bytes: &'t [u8]) -> Option<&'t [u8]>
    ensures { IfSome result (λ rest. bytes.now ≡ number ∷ rest.now) }
{
    match bytes.split_first() {
        Some((first, rest)) if *first == number => Some(rest),
        _ => None,
    }
}

/// What follows the operand at the front of `whole`, which `rest` follows, where `bytes` begin with it too.
#[inline(always)]
fn behind_same<'t>(whole: &[u8], rest: &[u8], bytes: &'t [u8]) -> Option<&'t [u8]>
    ensures { IfSome result (λ behind. bytes.now ≡ take (length whole.now - length rest.now) whole.now ++ behind.now) }
{
    if rest.len() > whole.len() {
        return None;
    }
    bytes.strip_prefix(&whole[..whole.len() - rest.len()])
}

/// What follows a call of this number that says the operand at the front of `whole`, which `rest` follows.
#[inline(always)]
pub(super) fn behind_end<'t>(
    number: u8,
    whole: &[u8],
    rest: &[u8],
    bytes: &'t [u8],
) -> Option<&'t [u8]>
    ensures { IfSome result (λ behind. bytes.now
        ≡ number ∷ take (length whole.now - length rest.now) whole.now ++ behind.now) }
{
    let operand = behind(number, bytes)?;
    behind_same(whole, rest, operand)
}

/// The bytes of the name of numbers: their tag alone.
const NUMBER: &[u8] = b"\x01\x06NUMBER\0\0";

/// The bytes of the name of `Some`, as sval's derive gives it.
const SOME: &[u8] =
    b"\x01\x10RUST_OPTION_SOME\x01\x04Some\x01\x0bVALUE_IDENT\x01\x02\x01\x0cVALUE_OFFSET";

/// The bytes of the name of `None`, as sval's derive gives it.
const NONE: &[u8] =
    b"\x01\x10RUST_OPTION_NONE\x01\x04None\x01\x0bVALUE_IDENT\x01\x00\x01\x0cVALUE_OFFSET";

/// What follows the name of numbers, where bytes begin with it.
#[inline(always)]
pub(super) fn behind_number<'t>(bytes: &'t [u8]) -> Option<&'t [u8]>
    ensures { IfSome result (λ rest. bytes.now ≡ name_bytes number_name ++ rest.now) }
{
    bytes.strip_prefix(NUMBER)
}

/// What follows the name of `Some`, where bytes begin with it.
#[inline(always)]
pub(super) fn behind_some<'t>(bytes: &'t [u8]) -> Option<&'t [u8]>
    ensures { IfSome result (λ rest. bytes.now ≡ name_bytes some_taped ++ rest.now) }
{
    bytes.strip_prefix(SOME)
}

/// What follows the name of `None`, where bytes begin with it.
#[inline(always)]
pub(super) fn behind_none<'t>(bytes: &'t [u8]) -> Option<&'t [u8]>
    ensures { IfSome result (λ rest. bytes.now ≡ name_bytes none_taped ++ rest.now) }
{
    bytes.strip_prefix(NONE)
}
