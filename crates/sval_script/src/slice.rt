//! Slices of a script: some of its lines, one after another.

ghost use Rattle.std.specs.Prelude.{◌≡◌, ◌↔◌, ◌≤◌, IfSome, IsSome, take, drop, length};
ghost use Rattle.sval_core.specs.Law.{Emits};
ghost use Rattle.sval_core.specs.Values.{makes};
ghost use Rattle.sval_script.specs.LineCalls.{own_count, own_len, next_len, calls_with, HoldsNext, HoldsLines};

use crate::line::Line;
use crate::store::Left;
use std::marker::Model;
use sval_core::{Lent, Stream, Value};
use sval_ref::ValueRef;

impl Line {
    /// How many numbers of the store are this line's own.
    fn own_count(self) -> usize
        ensures { result ≡ own_count self }
    {
        match self {
            Line::U64 | Line::I64 | Line::SizedOpening(_) | Line::Place(..) => 1,
            Line::U128 | Line::I128 | Line::FieldPlace(..) => 2,
            Line::Named(_, parts) | Line::NamedOpening(_, parts) => parts.count(),
            Line::SizedNamedOpening(_, parts) => parts.count() + 1,
            _ => 0,
        }
    }

    /// How many bytes of the store are this line's own, where these are its own numbers.
    fn own_len(self, numbers: &[u64]) -> usize
        requires { length numbers.now ≡ own_count self }
        ensures { result ≡ own_len self numbers.now }
    {
        match self {
            Line::TextFragment(_, len) | Line::BinaryFragment(_, len) => len as usize,
            Line::Field(_, _, _, len) => len as usize,
            Line::Named(_, parts) | Line::NamedOpening(_, parts) => parts.label.len(numbers),
            Line::SizedNamedOpening(_, parts) => parts.label.len(numbers),
            Line::FieldPlace(..) => numbers[0] as usize,
            _ => 0,
        }
    }
}

impl<'v> Left<'v> {
    /// Leaves out what is the line's own.
    fn skip(&mut self, line: Line)
        requires { HoldsNext self.old.bytes.now self.old.numbers.now line }
        ensures bytes { self.new.bytes.now ≡ drop (next_len line self.old.numbers.now) self.old.bytes.now }
        ensures numbers { self.new.numbers.now ≡ drop (own_count line) self.old.numbers.now }
    {
        let own = self.numbers(line.own_count());
        self.bytes(line.own_len(own));
    }
}

/// Makes the calls of lines. Their bytes and numbers are kept beside the lines, in order.
pub(crate) fn make_lines<'v, S: Stream<Lent<'v>>>(
    lines: &[Line],
    bytes: &'v [u8],
    numbers: &'v [u64],
    stream: &mut S,
) -> sval_core::Result
    requires { HoldsLines bytes.now numbers.now lines.now }
    ensures { Emits S.law result (S.standing stream.old)
        (makes (calls_with bytes.now numbers.now lines.now)) (S.standing stream.new) }
{
    let mut left = Left { bytes, numbers };
    for line in lines {
        line.make(&mut left, stream)?;
    }
    Ok(())
}

/// Some lines of a script, one after another: a value, as the [`Script`](crate::Script) is, which makes their calls and
/// never refuses.
///
/// It is borrowed from the script, lends its texts for as long, and takes no memory.
#[derive(Drop)]
pub struct ScriptSlice<'a> {
    pub(crate) lines: &'a [Line],
    /// What is kept beside these lines, and nothing else.
    pub(crate) bytes: &'a [u8],
    pub(crate) numbers: &'a [u64],
}

impl<'a> Model for ScriptSlice<'a> {
    ghost use Rattle.std.specs.Prelude.{List};
    ghost use Rattle.sval_label.specs.Calls.{Call};
    ghost use Rattle.sval_script.specs.LineCalls.{calls_with, HoldsLines};

    ghost Value = { List Call };

    ghost view = { λ slice. calls_with slice.bytes.now slice.numbers.now slice.lines.now };

    ghost invariant = { λ slice. HoldsLines slice.bytes.now slice.numbers.now slice.lines.now };
}

impl<'a> ScriptSlice<'a> {
    /// The number of its lines.
    pub fn line_count(&self) -> u64
        ensures { result ≡ length self.now }
    {
        self.lines.len() as u64
    }

    /// Its first lines, as many as that, and the lines behind them. `None` where it has fewer lines.
    ///
    /// It looks at each of the first lines, and at none behind. So whoever cuts a script from its front to its end, and
    /// each time what the last cut left behind, looks at each line once.
    ///
    /// ```
    /// let lines = script.as_slice();
    /// let Some((first, behind)) = lines.split_at_checked(3) else {
    ///     return Err(Unfinished);
    /// };
    /// ```
    pub fn split_at_checked(&self, count: u64) -> Option<(ScriptSlice<'a>, ScriptSlice<'a>)>
        ensures first { IfSome result (λ parts. parts.0 ≡ take count self.now) }
        ensures behind { IfSome result (λ parts. parts.1 ≡ drop count self.now) }
        ensures comes { IsSome result ↔ (count ≤ length self.now) }
    {
        if count > self.lines.len() as u64 {
            return None;
        }
        let (first, behind) = self.lines.split_at(count as usize);
        let mut left = Left {
            bytes: self.bytes,
            numbers: self.numbers,
        };
        for line in first {
            left.skip(*line);
        }
        let (bytes, bytes_behind) = self.bytes.split_at(self.bytes.len() - left.bytes.len());
        let (numbers, numbers_behind) = self
            .numbers
            .split_at(self.numbers.len() - left.numbers.len());
        let first = ScriptSlice {
            lines: first,
            bytes,
            numbers,
        };
        let behind = ScriptSlice {
            lines: behind,
            bytes: bytes_behind,
            numbers: numbers_behind,
        };
        Some((first, behind))
    }
}

impl<'v, 'a: 'v> Value<'v, Lent<'v>> for ScriptSlice<'a> {
    ghost emission = { makes };

    fn stream<S: Stream<Lent<'v>>>(&'v self, stream: &mut S) -> sval_core::Result {
        make_lines(self.lines, self.bytes, self.numbers, stream)
    }
}

impl<'a> ValueRef<Lent<'a>> for ScriptSlice<'a> {
    ghost ref_emission = { makes };

    fn stream_ref<S: Stream<Lent<'a>>>(&self, stream: &mut S) -> sval_core::Result {
        make_lines(self.lines, self.bytes, self.numbers, stream)
    }
}
