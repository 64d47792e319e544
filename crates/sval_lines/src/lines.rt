//! The lines of a source.

ghost use Rattle.std.specs.Prelude.{◌≡◌, ◌≢◌, ◌<◌, ◌≤◌, ◌+◌, ◌-◌, ◌^◌, [], ◌∷◌, ◌++◌, ℕ, true, IfOk, IfErr, OnOk, OnErr, IfSome, length, vec_len};
ghost use Rattle.sval_lines.specs.SourceLines.{unread, ahead_of, TakesOrEnds, TakesPart, TakesNext, TakesNextPart, HasLineCause, number_behind};
ghost use Rattle.sval_lines.specs.LineParts.{IsFirstFeed, MovesLine, Refills};

use crate::error::LineError;
use memchr::memchr;
use std::alloc::{AllocError, Global};
use sval_io::Source;

/// How many bytes are asked for at a time.
const CHUNK: usize = 1 << 16;

/// The lines of a source, one at a time.
///
/// It keeps one line, in a buffer that grows as the longest line, and 65,536 bytes that were read ahead. A line may be as
/// long as memory allows.
///
/// ```
/// let mut lines = Lines::new(alloc, MemSource::new(b"[1]\n\n[2]"))?;
/// while lines.next_line()? {
///     println!(rt; "{}: {} bytes", lines.number(), lines.line().len())?;
/// }
/// ```
///
/// This prints `1: 3 bytes` and `3: 3 bytes`: the second line is empty, and the last one has no line feed.
#[derive(Drop)]
pub struct Lines<I: Source + Drop> {
    source: I,
    /// What was read last; the bytes from `from` up to `upto` are still to come.
    chunk: Vec<u8>,
    from: usize,
    upto: usize,
    line: Vec<u8>,
    number: u64,
    ghost inside: { from ≤ upto },
    ghost within: { upto ≤ vec_len chunk },
    ghost room: { 0 < vec_len chunk },
}

/// The place of the first line feed.
fn first_feed(bytes: &[u8]) -> Option<usize>
    ensures { IsFirstFeed bytes.now result }
{
    memchr(b'\n', bytes)
}

impl<I: Source + Drop> Lines<I> {
    ghost use Rattle.sval_lines.specs.SeenLines.{bytes_left, supply_of_lines, last_line, lines_taken};

    /// The lines of this source, before the first is read.
    ///
    /// It answers an error where there is no memory for what is read ahead.
    pub fn new(alloc: Global, source: I) -> Result<Self, AllocError>
        ensures left { IfOk result (λ lines. bytes_left I.told lines ≡ (I.told source).left) }
        ensures source { IfOk result (λ lines. supply_of_lines I.told lines ≡ I.told source) }
        ensures number { IfOk result (λ lines. lines_taken lines ≡ 0) }
    {
        let mut chunk = Vec::new(alloc);
        chunk.resize(CHUNK, 0)?;
        Ok(Lines {
            source,
            chunk,
            from: 0,
            upto: 0,
            line: Vec::new(alloc),
            number: 0,
        })
    }

    /// The bytes of the line that was taken last, without its line feed.
    pub fn line(&self) -> &[u8]
        ensures { result.now ≡ last_line self.now }
    {
        &self.line
    }

    /// The bytes of the line that was taken last, without its line feed. It takes no memory.
    pub fn into_line(self) -> Vec<u8>
        ensures { result.items ≡ last_line self }
    {
        self.line
    }

    /// The number of the line that was taken last. The first is line 1.
    pub fn number(&self) -> u64
        ensures { result ≡ lines_taken self.now }
    {
        self.number
    }

    /// Moves what was read ahead to the line, up to a line feed.
    fn take_unread(&mut self) -> Result<bool, AllocError>
        ensures ok { IfOk result (λ found. MovesLine found
            (unread self.old.chunk.items self.old.from self.old.upto) self.old.line.items
            (unread self.new.chunk.items self.new.from self.new.upto) self.new.line.items) }
        ensures line { OnErr result (self.new.line.items ≡ self.old.line.items) }
        ensures unread { OnErr result (unread self.new.chunk.items self.new.from self.new.upto
            ≡ unread self.old.chunk.items self.old.from self.old.upto) }
        ensures source { self.new.source ≡ self.old.source }
        ensures number { self.new.number ≡ self.old.number }
    {
        let unread = &self.chunk[self.from..self.upto];
        match first_feed(unread) {
            Some(feed) => {
                self.line.extend_from_slice(&unread[..feed])?;
                self.from += feed + 1;
                Ok(true)
            }
            None => {
                self.line.extend_from_slice(unread)?;
                self.from = self.upto;
                Ok(false)
            }
        }
    }

    /// Reads ahead. Nothing that was read is still to come.
    fn refill(&mut self) -> Result<bool, LineError>
        ensures ok { IfOk result (λ some. Refills some (I.told self.old.source)
            (unread self.new.chunk.items self.new.from self.new.upto) (I.told self.new.source)) }
        ensures err { IfErr result (λ why.
            HasLineCause why self.old.number (I.told self.old.source) (I.told self.new.source)) }
        ensures left { OnErr result ((I.told self.new.source).left ≡ (I.told self.old.source).left) }
        ensures unread { OnErr result (unread self.new.chunk.items self.new.from self.new.upto ≡ []) }
        ensures line { self.new.line ≡ self.old.line }
        ensures number { self.new.number ≡ self.old.number }
    {
        self.from = 0;
        self.upto = 0;
        let count = self.source.read(&mut self.chunk)?;
        self.upto = count;
        Ok(count > 0)
    }

    /// Reads the next line, up to its line feed or the end.
    fn fill_line(&mut self) -> Result<bool, LineError>
        ensures ok { IfOk result (λ found. IfSome
            (ahead_of (unread self.old.chunk.items self.old.from self.old.upto) (I.told self.old.source))
            (λ all. TakesOrEnds found all self.new.line.items
            (ahead_of (unread self.new.chunk.items self.new.from self.new.upto) (I.told self.new.source)))) }
        ensures faults { OnOk result ((I.told self.new.source).faults ≡ (I.told self.old.source).faults) }
        ensures err { IfErr result (λ why.
            HasLineCause why self.old.number (I.told self.old.source) (I.told self.new.source)) }
        ensures part { OnErr result (IfSome
            (ahead_of (unread self.old.chunk.items self.old.from self.old.upto) (I.told self.old.source))
            (λ all. TakesPart all self.new.line.items
            (ahead_of (unread self.new.chunk.items self.new.from self.new.upto) (I.told self.new.source)))) }
        ensures number { self.new.number ≡ self.old.number }
    {
        self.line.clear();
        if self.take_unread()? {
            return Ok(true);
        }
        while self.refill()? {
            if self.take_unread()? {
                return Ok(true);
            }
        }
        Ok(!self.line.is_empty())
    }

    /// Reads the next line and counts it. `false` means that there is none.
    ///
    /// A line may be empty. The last one may have no line feed, and then isn't empty. A carriage return before the line
    /// feed is a byte of the line.
    ///
    /// # Errors
    ///
    /// [`LineError::ReadFault`] comes only where the source failed, [`LineError::NoMemory`] where there was no memory for
    /// the line, and [`LineError::TooManyLines`] where the number of lines is the greatest `u64`. What was read of the
    /// line is [`line`](Lines::line) then, and nothing behind it is lost.
    pub fn take_line(&mut self) -> Result<bool, LineError>
        ensures ok { IfOk result (λ found. IfSome (bytes_left I.told self.old)
            (λ all. TakesOrEnds found all (last_line self.new) (bytes_left I.told self.new))) }
        ensures faults { OnOk result
            ((supply_of_lines I.told self.new).faults ≡ (supply_of_lines I.told self.old).faults) }
        ensures err { IfErr result (λ why.
            HasLineCause why (lines_taken self.old)
            (supply_of_lines I.told self.old) (supply_of_lines I.told self.new)) }
        ensures part { OnErr result (IfSome (bytes_left I.told self.old)
            (λ all. TakesPart all (last_line self.new) (bytes_left I.told self.new))) }
        ensures number { IfOk result (λ found. lines_taken self.new ≡ number_behind found (lines_taken self.old)) }
        ensures uncounted { OnErr result (lines_taken self.new ≡ lines_taken self.old) }
        ensures below { OnOk result (lines_taken self.old < 2 ^ 64 - 1) }
    {
        if self.number == u64::MAX {
            self.line.clear();
            return Err(LineError::TooManyLines);
        }
        if self.fill_line()? {
            self.number += 1;
            return Ok(true);
        }
        Ok(false)
    }

    /// Reads the next line that isn't empty. `false` means that there is none. Empty lines are counted.
    ///
    /// # Errors
    ///
    /// Those of [`take_line`](Lines::take_line).
    pub fn next_line(&mut self) -> Result<bool, LineError>
        ensures ok { IfOk result (λ found. IfSome (bytes_left I.told self.old)
            (λ all. TakesNext found all (last_line self.new) (bytes_left I.told self.new)
            (lines_taken self.old) (lines_taken self.new))) }
        ensures some { result ≡ Ok true → last_line self.new ≢ [] }
        ensures faults { OnOk result
            ((supply_of_lines I.told self.new).faults ≡ (supply_of_lines I.told self.old).faults) }
        ensures err { IfErr result (λ why.
            HasLineCause why (lines_taken self.new)
            (supply_of_lines I.told self.old) (supply_of_lines I.told self.new)) }
        ensures part { OnErr result (IfSome (bytes_left I.told self.old)
            (λ all. TakesNextPart all (last_line self.new) (bytes_left I.told self.new)
            (lines_taken self.old) (lines_taken self.new))) }
    {
        while self.take_line()? {
            if !self.line.is_empty() {
                return Ok(true);
            }
        }
        Ok(false)
    }
}
