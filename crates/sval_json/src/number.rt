//! A number whose text comes in fragments, written in its normal form as far as it has come.

ghost use Rattle.std.specs.Prelude.{◌≡◌, ◌++◌, codes, false, true, option_map, IfSome};
ghost use Rattle.sval_io.specs.Sinks.{WritesAll};
ghost use Rattle.sval_json.specs.Number.{Start, sign, take_bytes, number_at_end};
ghost use Rattle.sval_json.specs.SeenNumber.{seen_phase, seen_machine, seen_reading, with_front_written};
ghost use Rattle.sval_json.specs.SeenNumber.{is_leading, IsLead, is_running, IsStep, ReadsAll};

use sval_io::{Sink, SinkError, write_all};

/// How far a number has come.
#[derive(Clone, Copy)]
pub(crate) enum Phase {
    /// Nothing has come.
    Start,
    /// A sign came.
    Signed,
    /// Of the integral digits zeros came, and nothing else.
    Zero,
    /// Integral digits came that are written.
    Whole,
    /// The point came.
    Point,
    /// Digits after the point came.
    Fraction,
    /// The letter of the exponent came.
    Exponent,
    /// The sign of the exponent came.
    ExponentSign,
    /// Digits of the exponent came.
    ExponentDigits,
    /// It isn't a number but begins as `nan`, `inf` or `snan`, and `null` is written for it.
    Word,
}

/// The state of a number whose text comes in fragments: it goes on with the next one.
#[derive(Clone, Copy)]
pub(crate) struct NumberMachine {
    /// Its sign is `-`.
    negative: bool,
    phase: Phase,
}

/// What is written for a fragment of a number: a few bytes in front, and then some bytes of the fragment unchanged.
#[derive(Clone, Copy)]
pub(crate) struct Reading<'a> {
    /// What the number has come to.
    pub(crate) machine: NumberMachine,
    /// The bytes in front.
    pub(crate) front: &'static [u8],
    /// The bytes of the piece.
    pub(crate) run: &'a [u8],
    /// Every byte was allowed at its place.
    pub(crate) valid: bool,
}

/// The phase after a byte that is written unchanged, or `None` where the byte isn't allowed.
fn next_phase(phase: Phase, byte: u8) -> Option<Phase>
    requires { is_running phase ≡ true }
    ensures step { IsStep phase byte result }
    ensures running { IfSome result (λ next. is_running next ≡ true) }
{
    match (phase, byte) {
        (Phase::Whole, b'0'..=b'9') => Some(Phase::Whole),
        (Phase::Whole, b'.') => Some(Phase::Point),
        (Phase::Point | Phase::Fraction, b'0'..=b'9') => Some(Phase::Fraction),
        (Phase::Whole | Phase::Fraction, b'e' | b'E') => Some(Phase::Exponent),
        (Phase::Exponent, b'+' | b'-') => Some(Phase::ExponentSign),
        (Phase::Exponent | Phase::ExponentSign | Phase::ExponentDigits, b'0'..=b'9') => {
            Some(Phase::ExponentDigits)
        }
        _ => None,
    }
}

/// What is written for the sign before the first digit: `-`, or nothing where it is `+` or none came.
fn sign(negative: bool) -> &'static [u8]
    ensures { result.now ≡ sign negative }
{
    if negative { b"-" } else { b"" }
}

/// The sign and the zero that are written before a point or an exponent.
fn signed_zero(negative: bool) -> &'static [u8]
    ensures { result.now ≡ sign negative ++ codes "0" }
{
    if negative { b"-0" } else { b"0" }
}

/// Writes two pieces, one after the other.
fn write_both<K: Sink>(sink: &mut K, first: &[u8], second: &[u8]) -> Result<(), SinkError>
    ensures { WritesAll result (K.told sink.old) (first.now ++ second.now) (K.told sink.new) }
{
    write_all(sink, first)?;
    write_all(sink, second)
}

/// What a byte does before anything of a number is written.
enum Lead {
    /// It is a sign or a zero, and the number goes on like this.
    Skips(NumberMachine),
    /// It is the first byte that is written as it is, after these in front.
    Begins(&'static [u8]),
    /// It begins a word.
    Word,
    /// The byte isn't allowed there.
    Stops,
}

impl NumberMachine {
    /// A number before its first byte.
    pub(crate) fn new() -> Self
        ensures { seen_machine result ≡ record { negative = false; phase = Start } }
    {
        NumberMachine {
            negative: false,
            phase: Phase::Start,
        }
    }

    /// The number in another phase.
    fn at(self, phase: Phase) -> Self
        ensures { result ≡ record { negative = self.negative; phase = phase } }
    {
        NumberMachine { phase, ..self }
    }

    /// What is written for a piece where it is only these bytes.
    fn writes<'a>(self, front: &'static [u8], valid: bool) -> Reading<'a>
        ensures { seen_reading result ≡ record { written = front.now; machine = seen_machine self; valid = valid } }
    {
        Reading {
            machine: self,
            front,
            run: b"",
            valid,
        }
    }

    /// What this byte does before anything is written.
    fn lead(self, byte: u8) -> Lead
        requires { is_leading self.phase ≡ true }
        ensures { IsLead self byte result }
    {
        match (self.phase, byte) {
            (Phase::Start, b'+' | b'-') => Lead::Skips(NumberMachine {
                negative: byte == b'-',
                phase: Phase::Signed,
            }),
            (_, b'0') => Lead::Skips(self.at(Phase::Zero)),
            (Phase::Start, b'1'..=b'9') => Lead::Begins(b""),
            (_, b'1'..=b'9') => Lead::Begins(sign(self.negative)),
            (Phase::Zero, b'.' | b'e' | b'E') => Lead::Begins(signed_zero(self.negative)),
            (Phase::Start | Phase::Signed, b's' | b'n' | b'i' | b'S' | b'N' | b'I') => Lead::Word,
            _ => Lead::Stops,
        }
    }

    /// Reads bytes that are written as they are, after these in front.
    fn read_run<'a>(self, front: &'static [u8], bytes: &'a [u8]) -> Reading<'a>
        requires { is_running self.phase ≡ true }
        ensures { seen_reading result ≡ with_front_written front.now (take_bytes (seen_machine self) bytes.now) }
    {
        let mut phase = self.phase;
        let mut count = 0;
        while count < bytes.len()
            && let Some(next) = next_phase(phase, bytes[count])
        {
            phase = next;
            count += 1;
        }
        Reading {
            machine: self.at(phase),
            front,
            run: &bytes[..count],
            valid: count == bytes.len(),
        }
    }

    /// Reads bytes as far as nothing of the number is written, and then those that are.
    fn read_front<'a>(self, bytes: &'a [u8]) -> Reading<'a>
        requires { is_leading self.phase ≡ true }
        ensures { seen_reading result ≡ take_bytes (seen_machine self) bytes.now }
    {
        let mut machine = self;
        let mut rest = bytes;
        while let Some((byte, after)) = rest.split_first() {
            match machine.lead(*byte) {
                Lead::Skips(next) => {
                    machine = next;
                    rest = after;
                }
                Lead::Begins(front) => return machine.at(Phase::Whole).read_run(front, rest),
                Lead::Word => return machine.at(Phase::Word).writes(b"null", true),
                Lead::Stops => return machine.writes(b"", false),
            }
        }
        machine.writes(b"", true)
    }

    /// Reads a fragment of the number's text, up to the first byte that isn't allowed at its place.
    #[tactic(auto, using(crate::proofs::Readings::word_goes_on))]
    pub(crate) fn take<'a>(self, bytes: &'a [u8]) -> Reading<'a>
        ensures { seen_reading result ≡ take_bytes (seen_machine self) bytes.now }
    {
        match self.phase {
            Phase::Start | Phase::Signed | Phase::Zero => self.read_front(bytes),
            Phase::Word => self.writes(b"", true),
            _ => self.read_run(b"", bytes),
        }
    }

    /// Reads a fragment of the number's text, and writes what is due for it. Answers whether every byte was allowed at
    /// its place. After an error of the sink a first part was written.
    pub(crate) fn read<K: Sink>(&mut self, sink: &mut K, bytes: &[u8]) -> Result<bool, SinkError>
        ensures machine { seen_machine self.new ≡ (take_bytes (seen_machine self.old) bytes.now).machine }
        ensures written { ReadsAll result
            (K.told sink.old) (take_bytes (seen_machine self.old) bytes.now) (K.told sink.new) }
    {
        let reading = self.take(bytes);
        *self = reading.machine;
        write_both(sink, reading.front, reading.run)?;
        Ok(reading.valid)
    }

    /// What is still written at the end of the number, or none where it may not end here.
    pub(crate) fn end(self) -> Option<&'static [u8]>
        ensures { option_map (λ bytes. bytes.now) result ≡ number_at_end (seen_phase self.phase) }
    {
        match self.phase {
            Phase::Zero => Some(b"0"),
            Phase::Whole | Phase::Fraction | Phase::ExponentDigits | Phase::Word => Some(b""),
            _ => None,
        }
    }
}
