//! Bytes that are passed over at once.

ghost use Rattle.std.specs.Prelude.{◌≡◌, ◌+◌, ◌≤◌, Some, length, take, drop, true};
ghost use Rattle.std.specs.Char.{is_ascii_digit};
ghost use Rattle.std.specs.List.{AllPass};
ghost use Rattle.sval_json.specs.Escape.{is_plain};
ghost use Rattle.sval_json.specs.Grammar.{is_space};
ghost use Rattle.sval_json_read.specs.Reader as machine;
ghost use Rattle.sval_json_read.specs.SeenReader.{seen_state, takes_digits, skips_spaces};

use super::container::is_white;
use super::lanes::{LANES, others_than_digits, others_than_plain, others_than_spaces};
use super::{Expected, Reader};
use crate::number::Phase;
use crate::string::Within;
use sval_json::escape::first_escape;

impl Reader {
    /// How many bytes come next that change nothing but the place: those of a string that neither an escape nor a quote
    /// cuts, further digits of a number, or white space between tokens.
    #[inline(always)]
    pub(crate) fn plain_run(&self, bytes: &[u8], at: usize) -> usize
        requires at_in { at ≤ length bytes.now }
        requires before { self.now.from ≤ at }
        ensures within { at + result ≤ length bytes.now }
        ensures passes { machine.after_bytes (seen_state bytes.now at self.now) (take result (drop at bytes.now))
            ≡ Some (seen_state bytes.now (at + result) self.now) }
    {
        match self.expected {
            Expected::InString(_, Within::Plain) => plain_ahead(&bytes[at..]),
            Expected::InNumber(phase) if takes_digits(phase) => digits_ahead(&bytes[at..]),
            expected => match bytes.get(at) {
                // Most often another token comes at once.
                Some(next) if *next <= b' ' && skips_spaces(expected) => {
                    spaces_ahead(&bytes[at..], self.spaces)
                },
                _ => 0,
            },
        }
    }
}

/// Whether a number stays in this phase behind each further digit.
fn takes_digits(phase: Phase) -> bool
    ensures { result ≡ takes_digits phase }
{
    match phase {
        Phase::Whole | Phase::Fraction | Phase::Power => true,
        _ => false,
    }
}

/// Whether white space may come, and changes nothing.
fn skips_spaces(expected: Expected) -> bool
    ensures { result ≡ skips_spaces expected }
{
    match expected {
        Expected::InString(..) | Expected::InNumber(_) | Expected::Letter(_) => false,
        _ => true,
    }
}

/// How many bytes come before the first that is escaped between quotes.
///
/// Most strings are short, so the first 16 bytes are looked at within the caller.
#[inline(always)]
fn plain_ahead(bytes: &[u8]) -> usize
    ensures within { result ≤ length bytes.now }
    ensures plain { AllPass is_plain (take result bytes.now) }
{
    if bytes.len() >= LANES {
        let others = others_than_plain(bytes);
        if others != 0 {
            return others.trailing_zeros() as usize;
        }
    }
    first_escape(bytes)
}

/// How many digits come before another byte.
fn digits_ahead(bytes: &[u8]) -> usize
    ensures within { result ≤ length bytes.now }
    ensures digits { AllPass is_ascii_digit (take result bytes.now) }
{
    if bytes.len() >= LANES {
        let others = others_than_digits(bytes);
        if others != 0 {
            return others.trailing_zeros() as usize;
        }
    }
    bytes
        .iter()
        .position(|byte| !byte.is_ascii_digit())
        .unwrap_or(bytes.len())
}

/// How many bytes of white space come before another byte, where `last` came the last time.
///
/// Behind a colon there is most often one space, and a line most often begins with as many as the line before. Both are
/// asked within the caller: the next place then depends on no vector.
#[inline(always)]
fn spaces_ahead(bytes: &[u8], last: usize) -> usize
    ensures within { result ≤ length bytes.now }
    ensures spaces { AllPass is_space (take result bytes.now) }
{
    if bytes.len() > 1 && bytes[0] == b' ' && bytes[1] > b' ' {
        return 1;
    }
    if has_spaces(bytes, last) {
        return last;
    }
    more_spaces_ahead(bytes)
}

/// Whether `count` bytes of white space come before another byte, as far as the first 16 bytes tell.
#[inline(always)]
fn has_spaces(bytes: &[u8], count: usize) -> bool
    ensures within { result ≡ true → count ≤ length bytes.now }
    ensures spaces { result ≡ true → AllPass is_space (take count bytes.now) }
{
    if bytes.len() < LANES {
        return false;
    }
    let others = others_than_spaces(bytes);
    others != 0 && others.trailing_zeros() as usize == count
}

/// How many bytes of white space come, whatever came before. They are looked at 16 at a time.
fn more_spaces_ahead(bytes: &[u8]) -> usize
    ensures within { result ≤ length bytes.now }
    ensures spaces { AllPass is_space (take result bytes.now) }
{
    if bytes.len() >= LANES {
        let others = others_than_spaces(bytes);
        if others != 0 {
            return others.trailing_zeros() as usize;
        }
    }
    bytes
        .iter()
        .position(|byte| !is_white(*byte))
        .unwrap_or(bytes.len())
}
