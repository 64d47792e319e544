//! A line of an input, and a caret under a place of it.

use crate::help::push_spaces;
use std::alloc::AllocError;

/// How many characters are shown before the place at most, and from it on.
const BEFORE: usize = 36;

const BEHIND: usize = 36;

/// A character as an excerpt shows it: a dot in place of a control character.
fn shown(ch: char) -> char {
    if ch < ' ' || ch == '\u{7f}' { '.' } else { ch }
}

/// Adds the characters from one index up to another, as an excerpt shows them.
fn push_between(out: &mut String, text: &str, from: usize, upto: usize) -> Result<(), AllocError> {
    for (index, ch) in text.chars().enumerate() {
        if from <= index && index < upto {
            out.push(shown(ch))?;
        }
    }
    Ok(())
}

/// How many characters a text has.
fn char_count(text: &str) -> usize {
    text.chars().count()
}

/// Adds the first 72 characters of a line of an input, with a dot for a control character.
pub(crate) fn push_shown(out: &mut String, line: &str) -> Result<(), AllocError> {
    push_between(out, line, 0, BEFORE.saturating_add(BEHIND))
}

/// Adds a line of an input, which a place parts in two, and below it a caret under the place.
///
/// Of a long line 36 characters are shown before the place, and as many from it on. A dot stands for a control
/// character.
///
/// ```
/// let mut out = String::new(alloc);
/// push_excerpt(&mut out, "[1, ", "x]")?;
/// assert_eq!(rt; out.as_str(), "  [1, x]\n      ^\n");
/// ```
pub(crate) fn push_excerpt(out: &mut String, before: &str, behind: &str) -> Result<(), AllocError> {
    let count = char_count(before);
    let from = count.saturating_sub(BEFORE);
    out.push_str("  ")?;
    push_between(out, before, from, count)?;
    push_between(out, behind, 0, BEHIND)?;
    out.push_str("\n  ")?;
    push_spaces(out, count.saturating_sub(from))?;
    out.push_str("^\n")
}
