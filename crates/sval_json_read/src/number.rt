//! Numbers, byte by byte.

ghost use Rattle.std.specs.Prelude.{◌≡◌, option_map};
ghost use Rattle.sval_json.specs.Digits.{is_number_byte};
ghost use Rattle.sval_json_read.specs.Numbers as machine;
ghost use Rattle.sval_json_read.specs.SeenReader.{phase_of};

/// What of a number was read last.
#[derive(Clone, Copy)]
pub(crate) enum Phase {
    Minus,
    Zero,
    Whole,
    Point,
    Fraction,
    Mark,
    Sign,
    Power,
}

/// The integral digits begin.
fn first_digit(byte: u8) -> Option<Phase>
    ensures { option_map phase_of result ≡ machine.first_digit byte }
{
    match byte {
        b'0' => Some(Phase::Zero),
        b'1'..=b'9' => Some(Phase::Whole),
        _ => None,
    }
}

/// What may follow a fraction.
fn exponent_begins(byte: u8) -> Option<Phase>
    ensures { option_map phase_of result ≡ machine.exponent_begins byte }
{
    match byte {
        b'e' | b'E' => Some(Phase::Mark),
        _ => None,
    }
}

/// What may follow the integral digits.
fn tail_begins(byte: u8) -> Option<Phase>
    ensures { option_map phase_of result ≡ machine.tail_begins byte }
{
    if byte == b'.' {
        return Some(Phase::Point);
    }
    exponent_begins(byte)
}

/// One more byte of a number.
pub(crate) fn next_phase(phase: Phase, byte: u8) -> Option<Phase>
    ensures { option_map phase_of result ≡ machine.next_phase (phase_of phase) byte }
{
    let digit = byte.is_ascii_digit();
    match phase {
        Phase::Minus => first_digit(byte),
        Phase::Zero => tail_begins(byte),
        Phase::Whole => if digit {
            Some(Phase::Whole)
        } else {
            tail_begins(byte)
        },
        Phase::Point => if digit { Some(Phase::Fraction) } else { None },
        Phase::Fraction => if digit {
            Some(Phase::Fraction)
        } else {
            exponent_begins(byte)
        },
        Phase::Mark => match byte {
            b'+' | b'-' => Some(Phase::Sign),
            _ => if digit { Some(Phase::Power) } else { None },
        },
        Phase::Sign => if digit { Some(Phase::Power) } else { None },
        Phase::Power => if digit { Some(Phase::Power) } else { None },
    }
}

/// The first byte of a number.
pub(crate) fn first_phase(byte: u8) -> Option<Phase>
    ensures { option_map phase_of result ≡ machine.first_phase byte }
{
    if byte == b'-' {
        return Some(Phase::Minus);
    }
    first_digit(byte)
}

/// Whether the number may end here.
pub(crate) fn may_end(phase: Phase) -> bool
    ensures { result ≡ machine.number_may_end (phase_of phase) }
{
    match phase {
        Phase::Zero | Phase::Whole | Phase::Fraction | Phase::Power => true,
        Phase::Minus | Phase::Point | Phase::Mark | Phase::Sign => false,
    }
}

/// Whether a number can hold the byte.
pub(crate) fn is_of_numbers(byte: u8) -> bool
    ensures { result ≡ is_number_byte byte }
{
    match byte {
        b'0'..=b'9' | b'+' | b'-' | b'.' | b'e' | b'E' => true,
        _ => false,
    }
}
