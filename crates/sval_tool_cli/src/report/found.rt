//! What an input has at a place.

use std::alloc::AllocError;

/// What an input has at a place.
#[derive(Clone, Copy, Debug, PartialEq, Eq)]
pub(crate) enum Found {
    /// Nothing: the text ends there.
    End,
    /// A character.
    Character(char),
    /// A byte that begins no character.
    Byte(u8),
}

/// Whether a value of JSON may begin with what was found (RFC 8259, section 3).
pub(crate) fn begins_value(found: Found) -> bool {
    matches!(
        found,
        Found::Character('{' | '[' | '"' | '-' | '0'..='9' | 't' | 'f' | 'n')
    )
}

/// Adds two digits of base 16.
pub(crate) fn push_hex(out: &mut String, byte: u8) -> Result<(), AllocError> {
    write!(out, "{byte:02x}")
}

/// Adds what was found at a place: a character between backquotes, a control character or a byte by its number, or the
/// end.
///
/// ```
/// let mut out = String::new(alloc);
/// push_found(&mut out, Found::Character('x'))?;
/// assert_eq!(rt; out.as_str(), "`x`");
/// ```
pub(crate) fn push_found(out: &mut String, found: Found) -> Result<(), AllocError> {
    match found {
        Found::End => out.push_str("the end of the text"),
        Found::Character('\n') => out.push_str("the end of the line"),
        Found::Character('\u{feff}') => out.push_str("a byte order mark (EF BB BF)"),
        Found::Character(character) if character < ' ' => {
            out.push_str("the control character 0x")?;
            push_hex(out, character as u8)
        }
        Found::Character(character) => {
            out.push_str("`")?;
            out.push(character)?;
            out.push_str("`")
        }
        Found::Byte(byte) => {
            out.push_str("the byte 0x")?;
            push_hex(out, byte)
        }
    }
}
