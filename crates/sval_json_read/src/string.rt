//! Strings, byte by byte.

ghost use Rattle.std.specs.Prelude.{◌≡◌, option_map, ℕ};
ghost use Rattle.std.specs.Char.{digit_value};
ghost use Rattle.sval_json_read.specs.Strings as machine;
ghost use Rattle.sval_json_read.specs.SeenReader.{within_of};

/// Where in a string the reader is.
#[derive(Clone, Copy, PartialEq, Eq)]
pub(crate) enum Within {
    Plain,
    Backslash,
    Unit,
    UnitD,
    ThreeLeft,
    TwoLeft,
    OneLeft,
    HighTwoLeft,
    HighOneLeft,
    High,
    LowBackslash,
    LowUnit,
    LowD,
    LowTwoLeft,
    LowOneLeft,
}

/// The value of a digit or letter, or 36.
pub(crate) fn hex_value(byte: u8) -> u8
    ensures { result ≡ digit_value byte }
{
    match byte {
        b'0'..=b'9' => byte - b'0',
        b'A'..=b'Z' => byte - 55,
        b'a'..=b'z' => byte - 87,
        _ => 36,
    }
}

/// A byte outside escapes.
fn plain(byte: u8) -> Option<Within>
    ensures { option_map within_of result ≡ machine.next_within machine.Plain byte }
{
    match byte {
        b'\\' => Some(Within::Backslash),
        0..=31 | b'"' => None,
        _ => Some(Within::Plain),
    }
}

/// A byte after a backslash.
fn escape(byte: u8) -> Option<Within>
    ensures { option_map within_of result ≡ machine.next_within machine.Backslash byte }
{
    match byte {
        b'u' => Some(Within::Unit),
        b'"' | b'\\' | b'/' | b'b' | b'f' | b'n' | b'r' | b't' => Some(Within::Plain),
        _ => None,
    }
}

/// Where a byte leads, if it is one that may come.
fn when(comes: bool, next: Within) -> Option<Within>
    ensures { option_map within_of result ≡ machine.within_when comes (within_of next) }
{
    if comes { Some(next) } else { None }
}

/// A hex digit after the `u` of an escape.
fn first_digit(value: u8) -> Option<Within>
    ensures { (byte : ℕ) → digit_value byte ≡ value
        → option_map within_of result ≡ machine.next_within machine.Unit byte }
{
    if value == 13 {
        return Some(Within::UnitD);
    }
    when(value < 16, Within::ThreeLeft)
}

/// A hex digit after a first `d`, which may make the unit a high surrogate, and not a low one.
fn digit_after_d(value: u8) -> Option<Within>
    ensures { (byte : ℕ) → digit_value byte ≡ value
        → option_map within_of result ≡ machine.next_within machine.UnitD byte }
{
    if value < 8 {
        return Some(Within::TwoLeft);
    }
    when(value < 12, Within::HighTwoLeft)
}

/// One more byte of a string, other than its closing quote.
pub(crate) fn next_within(within: Within, byte: u8) -> Option<Within>
    ensures { option_map within_of result ≡ machine.next_within (within_of within) byte }
{
    let value = hex_value(byte);
    match within {
        Within::Plain => plain(byte),
        Within::Backslash => escape(byte),
        Within::Unit => first_digit(value),
        Within::UnitD => digit_after_d(value),
        Within::ThreeLeft => when(value < 16, Within::TwoLeft),
        Within::TwoLeft => when(value < 16, Within::OneLeft),
        Within::OneLeft => when(value < 16, Within::Plain),
        Within::HighTwoLeft => when(value < 16, Within::HighOneLeft),
        Within::HighOneLeft => when(value < 16, Within::High),
        Within::High => when(byte == b'\\', Within::LowBackslash),
        Within::LowBackslash => when(byte == b'u', Within::LowUnit),
        Within::LowUnit => when(value == 13, Within::LowD),
        Within::LowD => when(12 <= value && value < 16, Within::LowTwoLeft),
        Within::LowTwoLeft => when(value < 16, Within::LowOneLeft),
        Within::LowOneLeft => when(value < 16, Within::Plain),
    }
}
