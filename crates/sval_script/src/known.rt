//! Lines that were read lately.

ghost use Rattle.std.specs.Prelude.{◌<◌, ◌≤◌, IfSome, length, take};
ghost use Rattle.sval_script.specs.KnownLines.{IsKeptLine};

use crate::line::Line;
use crate::short::begins_with;
use std::alloc::Global;
use std::marker::Model;

/// The number of lines that are remembered at once.
const LINES: usize = 64;

/// How many numbers there are for lines.
const PLACES: usize = 1024;

/// The length of the longest line that is remembered, with its line feed.
const LINE: usize = 80;

/// Once this many lines were put there and none came again, only every sixteenth is.
const MANY: u32 = 256;

/// The place of no line.
const NONE: usize = LINES;

/// What a line puts into the store, and the line itself.
#[derive(Clone, Copy)]
pub(crate) struct KeptLine {
    pub(crate) line: Line,
    /// The line's own bytes, and others behind them.
    pub(crate) text: [u8; 16],
    /// How many bytes are the line's own.
    pub(crate) text_len: usize,
    /// The line's own numbers, and others behind them.
    pub(crate) numbers: [u64; 2],
    /// How many numbers are the line's own.
    pub(crate) count: usize,
}

/// A line of a script as it was spelled, and what it says. Its view says nothing, since which lines are remembered is
/// no promise.
#[derive(Drop)]
struct KnownLine {
    /// The bytes of the line with its line feed, and others behind them.
    bytes: [u8; 80],
    /// How many bytes the line has.
    len: usize,
    kept: KeptLine,
    /// The place of the line that came next, the last time. By now it may be another line's.
    next: usize,
    /// The place of the line that came next before that.
    other: usize,
    /// The place of the line that came behind values, the last time.
    behind_values: usize,
}

impl Model for KnownLine {
    ghost use Rattle.std.specs.Prelude.{⊤};
    ghost use Rattle.sval_script.specs.KnownLines.{IsKnownLine};

    ghost Value = { ⊤ };

    ghost view = { λ _. tt };

    ghost invariant = { λ known. IsKnownLine known.bytes known.len known.kept };
}

impl KnownLine {
    /// A line, which is no longer than the longest that is remembered.
    fn new(line: &[u8], kept: KeptLine) -> KnownLine
        requires short { length line.now ≤ 80 }
        requires kept { IsKeptLine line.now kept }
    {
        let mut bytes = [0; 80];
        bytes[..line.len()].copy_from_slice(line);
        KnownLine {
            bytes,
            len: line.len(),
            kept,
            next: NONE,
            other: NONE,
            behind_values: NONE,
        }
    }

    /// What the line says and how long it is, if a script begins with it.
    #[inline(always)]
    fn read(&self, script: &[u8]) -> Option<(KeptLine, usize)>
        ensures within { IfSome result (λ found. found.1 ≤ length script.now) }
        ensures kept { IfSome result (λ found. IsKeptLine (take found.1 script.now) found.0) }
    {
        if begins_with(script, &self.bytes[..self.len]) {
            Some((self.kept, self.len))
        } else {
            None
        }
    }

    /// Whether it is this line.
    fn is(&self, line: &[u8]) -> bool {
        line.len() == self.len && begins_with(line, &self.bytes[..self.len])
    }
}

/// Lines that were read lately.
///
/// Of each it is remembered which two lines came next, the last times, and which came behind the values after it. Where
/// a script repeats itself, one of them comes again. So a comparison or two read it, with no search for the ends of its
/// fields.
#[derive(Drop)]
pub(crate) struct KnownLines {
    lines: Vec<KnownLine>,
    /// The place of the line that is replaced next, once there are as many as are remembered.
    oldest: usize,
    /// Where a line is among them, by a number that is chosen by its bytes. Other lines may share that number.
    places: Vec<u8>,
    /// The place of the line that was read last, but for values.
    last: usize,
    /// The place of the line that is expected.
    expected: usize,
    /// The place of the other line that is expected.
    other: usize,
    /// Whether a value was read since.
    is_behind_value: bool,
    /// How many lines were new since one came again.
    new_lines: u32,
}

/// A number with a byte mixed in.
#[inline(always)]
fn mixed(number: u64, byte: u8) -> u64 {
    number.wrapping_mul(31).wrapping_add(u64::from(byte))
}

/// A number for a line, by its length and eight of its bytes.
fn number_of(line: &[u8]) -> usize
    requires some { 0 < length line.now }
    requires short { length line.now ≤ 80 }
{
    let len = line.len();
    let number = mixed(mixed(len as u64, line[0]), line[len / 8]);
    let number = mixed(mixed(number, line[len / 4]), line[len * 3 / 8]);
    let number = mixed(mixed(number, line[len / 2]), line[len * 5 / 8]);
    let number = mixed(mixed(number, line[len * 3 / 4]), line[len * 7 / 8]);
    (number.wrapping_mul(0x9e37_79b9_7f4a_7c15) >> 54) as usize
}

impl KnownLines {
    /// No line, which takes no memory yet.
    pub(crate) fn new(alloc: Global) -> KnownLines {
        KnownLines {
            lines: Vec::new(alloc),
            oldest: 0,
            places: Vec::new(alloc),
            last: NONE,
            expected: NONE,
            other: NONE,
            is_behind_value: false,
            new_lines: 0,
        }
    }

    /// Whether the next new line is to be remembered. Of a script whose lines don't come again, few are.
    pub(crate) fn wants_next(&mut self) -> bool {
        self.new_lines = self.new_lines.wrapping_add(1);
        self.new_lines < MANY || self.new_lines % 16 == 0
    }

    /// What the line at a place says and how long it is, if a script begins with it. It is then the last line.
    #[inline(always)]
    fn find_at(&mut self, place: usize, script: &[u8]) -> Option<(KeptLine, usize)>
        ensures within { IfSome result (λ found. found.1 ≤ length script.now) }
        ensures kept { IfSome result (λ found. IsKeptLine (take found.1 script.now) found.0) }
    {
        let known = self.lines.get(place)?;
        let found = known.read(script)?;
        let (next, other) = (known.next, known.other);
        self.last = place;
        self.expected = next;
        self.other = other;
        self.is_behind_value = false;
        self.new_lines = 0;
        Some(found)
    }

    /// What the line that is expected says and how long it is, if a script begins with it.
    #[inline(always)]
    pub(crate) fn find(&mut self, script: &[u8]) -> Option<(KeptLine, usize)>
        ensures within { IfSome result (λ found. found.1 ≤ length script.now) }
        ensures kept { IfSome result (λ found. IsKeptLine (take found.1 script.now) found.0) }
    {
        self.find_at(self.expected, script)
    }

    /// What the other line that is expected says and how long it is, if a script begins with it.
    #[inline(always)]
    pub(crate) fn find_other(&mut self, script: &[u8]) -> Option<(KeptLine, usize)>
        ensures within { IfSome result (λ found. found.1 ≤ length script.now) }
        ensures kept { IfSome result (λ found. IsKeptLine (take found.1 script.now) found.0) }
    {
        self.find_at(self.other, script)
    }

    /// Whether another line is expected, too.
    #[inline(always)]
    pub(crate) fn expects_other(&self) -> bool {
        self.other < LINES
    }

    /// Expects the line that came behind the values after the last line, since a value was read.
    #[inline(always)]
    pub(crate) fn pass_value(&mut self) {
        self.is_behind_value = true;
        self.other = NONE;
        self.expected = match self.lines.get(self.last) {
            Some(known) => known.behind_values,
            None => NONE,
        };
    }

    /// Expects no line, since one was read that isn't remembered.
    pub(crate) fn pass_other(&mut self) {
        self.last = NONE;
        self.expected = NONE;
        self.other = NONE;
    }

    /// Remembers a line that was read. A long line is not remembered, nor is any where there is no memory for it.
    pub(crate) fn remember(&mut self, line: &[u8], kept: KeptLine)
        requires { IsKeptLine line.now kept }
    {
        if line.is_empty() || line.len() > LINE {
            self.pass_other();
            return;
        }
        let at = self.place(line, kept);
        self.follow_last(at);
        match self.lines.get(at) {
            Some(known) => {
                self.last = at;
                self.expected = known.next;
                self.other = known.other;
            }
            None => self.pass_other(),
        }
        self.is_behind_value = false;
    }

    /// Expects a line where the last one comes again, and values behind it if some came now.
    fn follow_last(&mut self, at: usize) {
        if let Some(last) = self.lines.get_mut(self.last) {
            if self.is_behind_value {
                last.behind_values = at;
            } else {
                last.other = last.next;
                last.next = at;
            }
        }
    }

    /// The place of a line, which is put there unless it is one of those that are remembered.
    fn place(&mut self, line: &[u8], kept: KeptLine) -> usize
        requires some { 0 < length line.now }
        requires short { length line.now ≤ 80 }
        requires kept { IsKeptLine line.now kept }
    {
        if self.places.is_empty() && self.places.resize(PLACES, 0).is_err() {
            return NONE;
        }
        let number = number_of(line);
        let Some(place) = self.places.get_mut(number) else {
            return NONE;
        };
        let at = *place as usize;
        if let Some(known) = self.lines.get(at) {
            if known.is(line) {
                self.new_lines = 0;
                return at;
            }
        }
        let known = KnownLine::new(line, kept);
        if self.lines.len() < LINES {
            *place = self.lines.len() as u8;
            match self.lines.push(known) {
                Ok(()) => self.lines.len() - 1,
                Err(_) => NONE,
            }
        } else {
            let at = self.oldest % LINES;
            self.oldest = (at + 1) % LINES;
            *place = at as u8;
            if let Some(oldest) = self.lines.get_mut(at) {
                *oldest = known;
            }
            at
        }
    }
}
