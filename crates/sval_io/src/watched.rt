//! A writer and a reader that are lent, with what a proof knows of them then: whether they tell their bytes.

ghost use Rattle.std.specs.Prelude.{◌≡◌, true};
ghost use Rattle.std.specs.Option.{is_some};

use crate::tells::{Tells, TellsLeft};
use std::io;
use std::io::{Read, Write};
use std::marker::{Brand, PhantomData};

/// Stands for what is known of a writer and a reader when they are lent. A proof picks it, where a call passes
/// [`Brand`].
pub trait Watch {
    ghost use Rattle.std.specs.Prelude.{ℕ, Bool};

    /// The ghost name of the reference to the writer.
    ghost writer: { ℕ };

    /// Whether the writer tells what it holds.
    ghost tells: { Bool };

    /// Whether the reader tells what it has left.
    ghost tells_left: { Bool };
}

impl Watch for Brand {
    ghost use Rattle.std.specs.Prelude.{false};

    ghost writer = { 0 };

    ghost tells = { false };

    ghost tells_left = { false };
}

/// A writer that is lent, and tells what it holds always, or never.
///
/// [`into_writer`](WatchedWriter::into_writer) gives back the writer that was lent.
#[derive(Drop)]
pub struct WatchedWriter<'a, W: Write, N: Watch> {
    writer: &'a mut W,
    of: PhantomData<N>,
    ghost same: { writer.ghost_name ≡ N.writer },
    ghost told: { N.tells ≡ true → is_some (W.contents writer.now) ≡ true },
}

impl<'a, W: Write, N: Watch> WatchedWriter<'a, W, N> {
    ghost use Rattle.sval_io.specs.Watched.{watched_writer};

    /// Watches this writer.
    pub fn new(writer: &'a mut W) -> Self
        requires same { writer.ghost_name ≡ N.writer }
        requires told { is_some (W.contents writer.old) ≡ N.tells }
        ensures { watched_writer result ≡ writer.entry }
    {
        WatchedWriter {
            writer,
            of: PhantomData,
        }
    }

    /// The writer, which is the one that was lent.
    pub fn into_writer(self) -> &'a mut W
        ensures same { result.ghost_name ≡ N.writer }
        ensures now { result.now ≡ (watched_writer self.entry).now }
    {
        self.writer
    }
}

impl<'a, W: Write, N: Watch> Write for WatchedWriter<'a, W, N> {
    ghost use Rattle.sval_io.specs.Known.{known_if};

    ghost contents = { λ watched. known_if N.tells (W.contents watched.writer.now) };

    fn write(&mut self, piece: &[u8]) -> io::Result<usize> {
        self.writer.write(piece)
    }

    fn flush(&mut self) -> io::Result<()> {
        self.writer.flush()
    }
}

impl<'a, W: Write, N: Watch> Tells for WatchedWriter<'a, W, N> {
    ghost use Rattle.sval_io.specs.Known.{told_if};

    ghost tells = { N.tells };

    ghost always_or_never = { λ watched. told_if N.tells (W.contents watched.writer.now) watched.told };
}

/// A reader that tells what it has left always, or never.
#[derive(Drop)]
pub struct WatchedReader<R: Read, N: Watch> {
    reader: R,
    of: PhantomData<N>,
    ghost told: { N.tells_left ≡ true → is_some (R.remaining reader) ≡ true },
}

impl<R: Read, N: Watch> WatchedReader<R, N> {
    ghost use Rattle.sval_io.specs.Watched.{watched_reader};

    /// Watches this reader.
    pub fn new(reader: R) -> Self
        requires { is_some (R.remaining reader) ≡ N.tells_left }
        ensures { watched_reader result ≡ reader }
    {
        WatchedReader {
            reader,
            of: PhantomData,
        }
    }
}

impl<R: Read, N: Watch> Read for WatchedReader<R, N> {
    ghost use Rattle.sval_io.specs.Known.{known_if};

    ghost remaining = { λ watched. known_if N.tells_left (R.remaining watched.reader) };

    fn read(&mut self, buffer: &mut [u8]) -> io::Result<usize> {
        self.reader.read(buffer)
    }
}

impl<R: Read, N: Watch> TellsLeft for WatchedReader<R, N> {
    ghost use Rattle.sval_io.specs.Known.{told_if};

    ghost tells_left = { N.tells_left };

    ghost always_or_never = { λ watched. told_if N.tells_left (R.remaining watched.reader) watched.told };
}
