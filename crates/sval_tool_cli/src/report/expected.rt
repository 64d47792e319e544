//! What may follow the beginning of a text of JSON.

use std::alloc::{AllocError, Global};
use sval_json_read::NextCharacters;

/// What may follow the beginning of a text of JSON.
#[derive(Clone, Copy, Debug, PartialEq, Eq)]
pub(crate) enum Expected {
    /// It isn't known.
    Unknown,
    /// A character of a string, or its end.
    MoreOfString,
    /// The character behind the backslash of an escape.
    Escape,
    /// A value.
    Value,
    /// A value or the end of an array.
    ValueOrBracket,
    /// The name of a member.
    Name,
    /// The name of a member or the end of an object.
    NameOrBrace,
    /// A colon.
    Colon,
    /// A comma or the end of an array.
    CommaOrBracket,
    /// A comma or the end of an object.
    CommaOrBrace,
    /// A character of an escape that is the second half of a surrogate pair.
    SecondHalf,
    /// A digit of base 16.
    HexDigit,
    /// A digit of base 16 behind `\ud` with which no second half of a surrogate pair begins.
    NoSecondHalf,
    /// A digit of a number.
    Digit,
    /// This letter of `null`, `true` or `false`.
    Letter(u8),
    /// The end of the text.
    End,
}

/// Whether it isn't known what may follow.
pub(crate) fn is_unknown(expected: Expected) -> bool {
    matches!(expected, Expected::Unknown)
}

/// The first of these letters that may follow.
fn first_letter(next: NextCharacters, letters: &[u8]) -> Expected {
    for letter in letters {
        if next.contains(*letter as char) {
            return Expected::Letter(*letter);
        }
    }
    Expected::Unknown
}

/// What may follow inside of a string or a number.
fn in_scalar(next: NextCharacters) -> Expected {
    if next.contains(' ') {
        return Expected::End;
    }
    if next.contains('0') {
        return digit(next);
    }
    if next.contains('\\') || next.contains('d') || next.contains('c') {
        return Expected::SecondHalf;
    }
    first_letter(next, b"ulreas".as_slice())
}

/// Which digits may follow.
fn digit(next: NextCharacters) -> Expected {
    if next.contains('c') {
        return Expected::HexDigit;
    }
    if next.contains('a') {
        return Expected::NoSecondHalf;
    }
    Expected::Digit
}

/// What may follow behind a name or a value.
fn between(next: NextCharacters) -> Expected {
    if next.contains(':') {
        return Expected::Colon;
    }
    if next.contains(',') {
        if next.contains(']') {
            return Expected::CommaOrBracket;
        }
        if next.contains('}') {
            return Expected::CommaOrBrace;
        }
    }
    in_scalar(next)
}

/// What may follow outside of strings, where something begins.
fn beginning(next: NextCharacters) -> Expected {
    if next.contains('[') {
        if next.contains(']') {
            return Expected::ValueOrBracket;
        }
        return Expected::Value;
    }
    if next.contains('"') {
        if next.contains('}') {
            return Expected::NameOrBrace;
        }
        return Expected::Name;
    }
    between(next)
}

/// What these characters are, as people name them.
fn named(next: NextCharacters) -> Expected {
    // In a string everything may follow, an opening bracket too.
    if next.contains('x') {
        return Expected::MoreOfString;
    }
    if next.contains('/') {
        return Expected::Escape;
    }
    beginning(next)
}

/// What may follow the beginning of a text of JSON, as people name it.
///
/// It reads the beginning once. Where memory is wanting for that, it answers [`Expected::Unknown`].
///
/// ```
/// assert_eq!(rt; expected_behind(alloc, "[1 "), Expected::CommaOrBracket);
/// assert_eq!(rt; expected_behind(alloc, "{"), Expected::NameOrBrace);
/// assert_eq!(rt; expected_behind(alloc, "\"\\ud83d\\"), Expected::SecondHalf);
/// ```
pub(crate) fn expected_behind(alloc: Global, front: &str) -> Expected {
    match sval_json_read::expected(alloc, front) {
        Ok(next) => match named(next) {
            // Behind a backslash any escape may stand, but in the second half of a surrogate pair.
            Expected::Letter(_) if front.ends_with('\\') => Expected::SecondHalf,
            expected => expected,
        },
        Err(_) => Expected::Unknown,
    }
}

/// Adds what may follow.
pub(crate) fn push_expected(out: &mut String, expected: Expected) -> Result<(), AllocError> {
    match expected {
        Expected::Unknown => Ok(()),
        Expected::MoreOfString => out.push_str("more of a string"),
        Expected::Escape => out.push_str("an escape"),
        Expected::Value => out.push_str("a value"),
        Expected::ValueOrBracket => out.push_str("a value or `]`"),
        Expected::Name => out.push_str("a name in quotes"),
        Expected::NameOrBrace => out.push_str("a name in quotes or `}`"),
        Expected::Colon => out.push_str("`:`"),
        Expected::CommaOrBracket => out.push_str("`,` or `]`"),
        Expected::CommaOrBrace => out.push_str("`,` or `}`"),
        Expected::SecondHalf => {
            out.push_str("the second half of a surrogate pair (`\\udc00` to `\\udfff`)")
        }
        Expected::HexDigit => out.push_str("a hex digit"),
        Expected::NoSecondHalf => {
            out.push_str("a hex digit below `c` (no second half of a surrogate pair comes first)")
        }
        Expected::Digit => out.push_str("a digit"),
        Expected::Letter(letter) => {
            out.push_str("`")?;
            out.push(letter as char)?;
            out.push_str("`")
        }
        Expected::End => out.push_str("the end of the text"),
    }
}
