//! What the words of the command line ask for.

ghost use Rattle.std.specs.Prelude.{map, string_bytes};
ghost use Rattle.sval_tool.specs.Words.{GivesOrStops, asked_by_words, asked_by_options};

mod reader;

use crate::switch::{Flag, Setting};
use crate::words::reader::WordReader;
use std::alloc::{AllocError, AllocFailed, Global};
use sval_core::NoMemory;
use sval_filter::{Paths, Rule};

/// What the program is to do.
#[derive(Clone, Copy, Debug, PartialEq, Eq)]
pub enum Command {
    /// Read, and write what was read.
    Convert,
    /// Read, and tell what is wrong.
    Check,
}

/// A format that is read.
#[derive(Clone, Copy, Debug, PartialEq, Eq)]
pub enum Input {
    /// JSON (RFC 8259).
    Json,
    /// CBOR (RFC 8949).
    Cbor,
    /// A script of calls.
    Script,
}

/// A format that is written.
#[derive(Clone, Copy, Debug, PartialEq, Eq)]
pub enum Output {
    /// JSON without white space.
    Json,
    /// JSON with a line for each element and pair.
    Pretty,
    /// CBOR.
    Cbor,
    /// A canonical script of calls.
    Script,
    /// A line of pairs for each object.
    Logfmt,
}

/// What the words ask for.
#[derive(Drop)]
pub struct Options {
    /// What the program is to do.
    pub command: Command,
    /// The format of `--from`, if it was given.
    pub from: Option<Input>,
    /// The format of `--to`, if it was given.
    pub to: Option<Output>,
    /// `--lines` was given.
    pub lines: bool,
    /// `--beside` was given.
    pub beside: bool,
    /// `--progress` was given.
    pub progress: bool,
    /// Whether the paths are those of `--keep` or of `--drop`, if one was given.
    pub rule: Option<Rule>,
    /// The paths of `--keep` or `--drop`, in their order.
    pub paths: Paths,
    /// The JSON Pointer of `--pointer`, if it was given.
    pub pointer: Option<String>,
    /// The files, in their order. `-` is standard input.
    pub files: Vec<String>,
}

/// What is wrong with a word.
#[derive(Clone, Copy, Debug, PartialEq, Eq)]
pub enum Complaint {
    /// There is no option of this name.
    UnknownOption,
    /// The option takes no argument, and one is written behind `=`.
    UnwantedArgument(Flag),
    /// The option's argument doesn't come: the words end.
    NoArgument(Setting),
    /// The option doesn't take this argument: it is no format, no path, or no pointer.
    BadArgument(Setting),
    /// The option has an argument already.
    Twice(Setting),
    /// A path of `--keep` comes with one of `--drop`.
    KeepAndDrop,
    /// A path of `--keep` or `--drop` comes with a pointer.
    PointerAndPath,
    /// The option isn't one of `sval check`.
    NotOfCheck,
}

/// Why the words ask for no reading.
#[derive(Clone, Copy, Debug, PartialEq, Eq)]
pub enum Stop {
    /// They ask for the help.
    Help,
    /// They ask for the version.
    Version,
    /// The word at this index, counted from 0, is wrong.
    Usage(usize, Complaint),
    /// There was no memory for what they ask for.
    NoMemory,
}

impl From<NoMemory> for Stop {
    ghost use Rattle.std.specs.Prelude.{◌≡◌};
    ghost use Rattle.sval_tool.specs.declared.words.Stop.TheVariants as stop;

    ghost from_gives = { λ _ why. why ≡ stop.NoMemory };

    fn from(_cause: NoMemory) -> Stop {
        Stop::NoMemory
    }
}

impl From<AllocError> for Stop {
    ghost use Rattle.std.specs.Prelude.{◌≡◌};
    ghost use Rattle.sval_tool.specs.declared.words.Stop.TheVariants as stop;

    ghost from_gives = { λ _ why. why ≡ stop.NoMemory };

    fn from(_cause: AllocError) -> Stop {
        Stop::NoMemory
    }
}

impl<T: Drop> From<AllocFailed<T>> for Stop {
    ghost use Rattle.std.specs.Prelude.{◌≡◌};
    ghost use Rattle.sval_tool.specs.declared.words.Stop.TheVariants as stop;

    ghost from_gives = { λ _ why. why ≡ stop.NoMemory };

    fn from(_cause: AllocFailed<T>) -> Stop {
        Stop::NoMemory
    }
}

/// Reads what the words behind the program's name ask for.
///
/// An option's argument is the next word, or is written behind `=` in the same. Behind `--` each word is a file, and `-`
/// is standard input. The first word may be `check`. Where `--help` or `--version` comes, what follows isn't read.
///
/// ```
/// let words = ["--to=pretty", "--drop", "user.password", "log.json"];
/// ```
///
/// # Errors
///
/// [`Stop::Help`] and [`Stop::Version`] where that is asked for, and [`Stop::Usage`] with the first word that is
/// wrong. [`Stop::NoMemory`] may come in the place of each of these, and of what the words ask for.
#[tactic(auto, using(crate::proofs::WordsRead::word_read, crate::proofs::WordsRead::gives_all))]
pub fn read_words(alloc: Global, words: &[String]) -> Result<Options, Stop>
    ensures { GivesOrStops asked_by_options (asked_by_words (map string_bytes words.now)) result }
{
    let mut reader = WordReader::new(alloc);
    for (at, word) in words.iter().enumerate() {
        reader.word(alloc, at, word.as_str())?;
    }
    reader.finish(words.len())
}
