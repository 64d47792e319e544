//! A writer that gives up where it is interrupted again and again.

ghost use Rattle.std.specs.Prelude.{◌≡◌, ◌≢◌, IfErr};
ghost use Rattle.std.specs.Io.{WritesAtMost};
ghost use Rattle.std.specs.Io.KnownBytes.{Keeps, WriteAppends};
ghost use Rattle.std.specs.IoError.{error_kind};

use crate::real::TRIES;
use std::io;
use std::io::{ErrorKind, Write};
use std::marker::Model;

/// A writer over another one that makes an interrupted call again, and is seen as that other one.
///
/// A call fails where it was interrupted 1,000 times in a row. It never answers that it was interrupted. std's
/// `BufWriter` makes an interrupted call again without end.
#[derive(Drop)]
pub struct Patient<W> {
    writer: W,
}

impl<W> Model for Patient<W> {
    ghost Value = { W };

    ghost view = { λ patient. patient.writer };
}

impl<W> Patient<W> {
    /// A patient writer over this one.
    pub fn new(writer: W) -> Self
        ensures { result ≡ writer }
    {
        Patient { writer }
    }

    /// The writer.
    pub fn into_writer(self) -> W
        ensures { result ≡ self }
    {
        self.writer
    }
}

/// The error of a call that was interrupted too often.
fn gave_up() -> io::Error
    ensures { error_kind result ≢ ErrorKind.Interrupted }
{
    io::Error::from(ErrorKind::TimedOut)
}

impl<W: Write> Write for Patient<W> {
    ghost contents = { W.contents };

    fn write(&mut self, piece: &[u8]) -> io::Result<usize>
        ensures bound { WritesAtMost result piece.now }
        ensures bytes { WriteAppends (W.contents self.old) (W.contents self.new) result piece.now }
        ensures gives_up { IfErr result (λ error. error_kind error ≢ ErrorKind.Interrupted) }
    {
        for _ in 0..TRIES {
            match self.writer.write(piece) {
                Ok(count) => return Ok(count),
                Err(error) => {
                    if error.kind() != ErrorKind::Interrupted {
                        return Err(error);
                    }
                }
            }
        }
        Err(gave_up())
    }

    fn flush(&mut self) -> io::Result<()>
        ensures bytes { Keeps (W.contents self.old) (W.contents self.new) }
        ensures gives_up { IfErr result (λ error. error_kind error ≢ ErrorKind.Interrupted) }
    {
        for _ in 0..TRIES {
            match self.writer.flush() {
                Ok(()) => return Ok(()),
                Err(error) => {
                    if error.kind() != ErrorKind::Interrupted {
                        return Err(error);
                    }
                }
            }
        }
        Err(gave_up())
    }
}
