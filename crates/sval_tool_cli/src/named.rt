//! Inputs by their names, each opened when it is first read.

ghost use Rattle.std.specs.Prelude.{◌≤◌, length, IfOk};

use crate::progress::Progress;
use std::cell::Cell;
use std::fs::{self, File};
use std::io::{self, ErrorKind, Read, Stdin};

/// How an input failed.
#[derive(Clone, Copy)]
pub(crate) enum Failure {
    /// It isn't opened.
    Open(io::Error),
    /// It isn't read.
    Read(ErrorKind),
}

impl Failure {
    /// As an error of a reader.
    fn error(self) -> io::Error {
        match self {
            Failure::Open(error) => error,
            Failure::Read(kind) => io::Error::from(kind),
        }
    }
}

/// A file, and how far it is read, if that is told.
#[derive(Drop)]
struct WatchedFile<'r> {
    file: File,
    progress: Option<Progress<'r>>,
}

impl<'r> WatchedFile<'r> {
    /// Reads from the file.
    fn read(&mut self, buffer: &mut [u8]) -> Result<usize, Failure>
        ensures { IfOk result (λ count. count ≤ length buffer.new) }
    {
        let count = self
            .file
            .read(buffer)
            .map_err(|error| Failure::Read(error.kind()))?;
        if let Some(progress) = &mut self.progress {
            progress.advance(count);
        }
        Ok(count)
    }
}

/// What an input is read from.
#[derive(Drop)]
enum Opened<'r> {
    /// It wasn't read yet.
    Nothing,
    /// Standard input.
    Input(Stdin),
    /// A file.
    File(WatchedFile<'r>),
}

/// An input by its name, which is opened when it is first read. `-` is standard input.
#[derive(Drop)]
pub(crate) struct NamedReader<'r> {
    rt: &'r HostRuntime,
    name: &'r str,
    /// How far it is read is told.
    progress: bool,
    opened: Opened<'r>,
    /// How an input failed last, which a source over this doesn't tell.
    failed: &'r Cell<Option<Failure>>,
}

impl<'r> NamedReader<'r> {
    /// Before anything is read.
    pub(crate) fn new(
        rt: &'r HostRuntime,
        name: &'r str,
        progress: bool,
        failed: &'r Cell<Option<Failure>>,
    ) -> Self {
        NamedReader {
            rt,
            name,
            progress,
            opened: Opened::Nothing,
            failed,
        }
    }

    /// Opens the input, if it isn't open.
    fn open(&mut self) -> Result<(), Failure> {
        if !matches!(self.opened, Opened::Nothing) {
            return Ok(());
        }
        if self.name == "-" {
            self.opened = Opened::Input(self.rt.stdin());
            return Ok(());
        }
        let file = fs::open(self.rt, self.name).map_err(Failure::Open)?;
        let progress = if self.progress {
            Progress::of_file(self.rt, self.name)
        } else {
            None
        };
        self.opened = Opened::File(WatchedFile { file, progress });
        Ok(())
    }

    /// Reads from what is open.
    fn read_opened(&mut self, buffer: &mut [u8]) -> Result<usize, Failure>
        ensures { IfOk result (λ count. count ≤ length buffer.new) }
    {
        match &mut self.opened {
            Opened::Nothing => Ok(0),
            Opened::Input(input) => input
                .read(buffer)
                .map_err(|error| Failure::Read(error.kind())),
            Opened::File(file) => file.read(buffer),
        }
    }

    /// Opens the input where it isn't open, and reads from it.
    fn read_some(&mut self, buffer: &mut [u8]) -> Result<usize, Failure>
        ensures { IfOk result (λ count. count ≤ length buffer.new) }
    {
        self.open()?;
        self.read_opened(buffer)
    }
}

impl<'r> Read for NamedReader<'r> {
    fn read(&mut self, buffer: &mut [u8]) -> io::Result<usize> {
        match self.read_some(buffer) {
            Ok(count) => Ok(count),
            Err(failure) => {
                self.failed.set(Some(failure));
                Err(failure.error())
            }
        }
    }
}
