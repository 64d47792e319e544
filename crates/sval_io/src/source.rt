//! What bytes are read from.

ghost use Rattle.std.specs.Prelude.{◌≡◌, ℕ, List, Ok, IfOk, min, drop, length};
ghost use Rattle.sval_io.specs.Sources.{Supply, ReadsInto, in_memory};

use std::error::Error;
use std::fmt;
use std::marker::Model;

/// Why a source gave nothing.
#[derive(Clone, Copy, Debug, PartialEq, Eq)]
pub enum SourceError {
    /// The source failed.
    Failed,
}

impl fmt::Display for SourceError {
    ghost use Rattle.std.specs.Prelude.{Some};
    ghost use Rattle.sval_io.specs.ErrorTexts.{source_error_text};

    ghost output = { λ error. Some (source_error_text error) };

    fn fmt<W: fmt::Write>(&self, f: &mut fmt::Formatter<W>) -> fmt::Result {
        f.write_str(match self {
            SourceError::Failed => "read fault",
        })
    }
}

impl Error for SourceError {}

/// What bytes are read from, part by part. A source counts its faults, and the count never falls: so an error is one of
/// this call.
///
/// ```
/// /// The bytes that are left of a source.
/// fn count_bytes<I: Source>(source: &mut I) -> Result<usize, SourceError> {
///     let mut buffer = [0; 512];
///     let mut total = 0;
///     loop {
///         match source.read(&mut buffer)? {
///             0 => return Ok(total),
///             count => total += count,
///         }
///     }
/// }
/// ```
pub trait Source {
    /// What it tells of itself: the bytes that it has left, where it tells them, and how often it failed.
    ghost told: { Self → Supply };

    /// Takes some of the bytes that are left into the front of the buffer, and answers how many. None for a buffer that
    /// isn't empty means that nothing is left.
    ///
    /// [`SourceError::Failed`] comes only where the count of faults rose, and leaves what is left.
    fn read(&mut self, buffer: &mut [u8]) -> Result<usize, SourceError>
        ensures { ReadsInto result (told self.old) buffer.new (told self.new) };
}

/// A source in memory, which never fails.
///
/// ```
/// let mut source = MemSource::new(b"null\n");
/// let mut buffer = [0; 8];
/// assert_eq!(rt; source.read(&mut buffer), Ok(5));
/// assert_eq!(rt; source.read(&mut buffer), Ok(0));
/// ```
#[derive(Drop)]
pub struct MemSource<'a> {
    bytes: &'a [u8],
}

impl<'a> Model for MemSource<'a> {
    ghost Value = { List ℕ };

    ghost view = { λ source. source.bytes.now };
}

impl<'a> MemSource<'a> {
    /// A source that has these bytes.
    pub fn new(bytes: &'a [u8]) -> Self
        ensures { result ≡ bytes.now }
    {
        MemSource { bytes }
    }
}

impl<'a> Source for MemSource<'a> {
    ghost told = { in_memory };

    /// Gives all that fits, and leaves the buffer behind that as it was.
    fn read(&mut self, buffer: &mut [u8]) -> Result<usize, SourceError>
        ensures reads { ReadsInto result (in_memory self.old) buffer.new (in_memory self.new) }
        ensures all { result ≡ Ok (min (length buffer.old) (length self.old)) }
        ensures rest { IfOk result (λ count. drop count buffer.new ≡ drop count buffer.old) }
    {
        let count = buffer.len().min(self.bytes.len());
        let (given, left) = self.bytes.split_at(count);
        buffer[..count].copy_from_slice(given);
        self.bytes = left;
        Ok(count)
    }
}
