//! Which number of a value isn't written as CBOR.

use std::str::from_utf8;

/// Where a scan of a text of JSON is.
#[derive(Clone, Copy)]
enum Scan {
    /// Outside of a string.
    Between,
    /// In a string.
    InString,
    /// Behind the backslash of an escape.
    InEscape,
}

/// Where the scan is behind a byte.
fn scan_byte(scan: Scan, byte: u8) -> Scan {
    match (scan, byte) {
        (Scan::InString, b'\\') => Scan::InEscape,
        (Scan::InString, b'"') => Scan::Between,
        (Scan::InString, _) => Scan::InString,
        (Scan::InEscape, _) => Scan::InString,
        (Scan::Between, b'"') => Scan::InString,
        (Scan::Between, _) => Scan::Between,
    }
}

/// A byte with which a number may go on (RFC 8259, section 6).
fn is_of_number(byte: u8) -> bool {
    matches!(byte, b'0'..=b'9' | b'-' | b'+' | b'.' | b'e' | b'E')
}

/// The text of a number, if it is no whole number from -2^127 to 2^128-1.
fn not_whole<'t>(digits: &'t [u8]) -> Option<&'t str> {
    let text = from_utf8(digits).ok()?;
    if text.parse::<i128>().is_ok() || text.parse::<u128>().is_ok() {
        return None;
    }
    Some(text)
}

/// The first number of a text of JSON that is no whole number of 128 bits.
///
/// ```
/// assert_eq!(rt; first_not_whole(b"[1,\"1.5\",2.50]".as_slice()), Some("2.50"));
/// assert_eq!(rt; first_not_whole(b"[true,-7]".as_slice()), None);
/// ```
pub(crate) fn first_not_whole<'t>(json: &'t [u8]) -> Option<&'t str> {
    let mut scan = Scan::Between;
    let mut begin: Option<usize> = None;
    for (at, byte) in json.iter().enumerate() {
        if let Some(from) = begin {
            if is_of_number(*byte) {
                continue;
            }
            let digits = json.get(from..at).unwrap_or_default();
            if let Some(text) = not_whole(digits) {
                return Some(text);
            }
            begin = None;
        }
        if matches!(scan, Scan::Between) && matches!(*byte, b'0'..=b'9' | b'-') {
            begin = Some(at);
        }
        scan = scan_byte(scan, *byte);
    }
    let from = begin?;
    not_whole(json.get(from..).unwrap_or_default())
}
