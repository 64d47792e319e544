//! The texts of the help and the version.

use std::alloc::AllocError;
use sval_tool::{OPTIONS, OptionRow};

/// What the help says before the options.
const HEAD: &str = "sval reads JSON, CBOR or scripts, and writes what it read in another form.

usage: sval [OPTION]... [FILE]...
       sval check [--from FORMAT] [--lines] [--progress] [FILE]...

Without a FILE, or where it is -, it reads standard input. Files are read one
after the other, and the first that is wrong ends the program. `sval check`
writes nothing, tells what is wrong, and goes on with the next file.

options:
";

/// What the help says behind the options.
const TAIL: &str = "
A PATH is the names of fields with dots between them: `a.b` is the field b of a,
and `a\\.b` the field whose name is a.b. It goes through arrays. With --keep,
fields that no --keep names are left out. --keep and --drop don't go together.
A PATH that no value has is no error: it drops nothing, and keeps nothing but
the objects on its way.
A POINTER (RFC 6901) has a `/` before each name or index: /user/tags/0. There
`~1` is a slash in a name, and `~0` a tilde. It goes with no --keep and no --drop.
An argument may stand behind `=`, as --to=pretty. Behind -- each word is a FILE.

With --lines an empty line is passed over. A line of white space is not empty,
and is an error. CBOR is read and written without floats: an item with one is an
error. In JSON its byte strings are arrays of numbers.

examples:
  sval --to pretty event.json           lay JSON out
  sval --lines --drop user.password     leave a field of each line out
  sval --lines --keep ts --keep msg     keep two fields of each line
  sval --pointer /user/tags/0 a.json    write a part of a value
  sval --lines --to cbor log.json       write a CBOR sequence
  sval --to script event.json           write the calls of a value
  sval --lines --to logfmt log.json     write each object as a line of logfmt
  sval check --lines log.json           find the first bad line

exit status:
  0  all was read and written
  1  an input is wrong, or has no value at the pointer; what was due before that
     place is written
  2  the command line is wrong; nothing is read
  3  reading or writing failed, or memory was wanting
A reader that closes the output early ends the program with 0 and no message.
";

/// The version.
const VERSION: &str = "sval in Rattle, not released yet, after sval 2.22.0\n";

/// Where a row's help begins.
const COLUMN: usize = 24;

/// Adds spaces.
pub(crate) fn push_spaces(out: &mut String, count: usize) -> Result<(), AllocError> {
    for done in 0..count {
        out.push(' ')?;
    }
    Ok(())
}

/// Adds the left part of a row: its short form, its name and its argument.
fn push_left(out: &mut String, row: &OptionRow) -> Result<(), AllocError> {
    if row.short.is_empty() {
        out.push_str("      ")?;
    } else {
        out.push_str("  -")?;
        out.push_str(row.short)?;
        out.push_str(", ")?;
    }
    out.push_str("--")?;
    out.push_str(row.name)?;
    if !row.argument.is_empty() {
        out.push_str(" ")?;
        out.push_str(row.argument)?;
    }
    Ok(())
}

/// How many bytes [`push_left`] adds, or [`COLUMN`] where they are more.
fn left_width(row: &OptionRow) -> usize {
    let argument = if row.argument.is_empty() {
        0
    } else {
        row.argument.len().saturating_add(1)
    };
    let name = row.name.len().saturating_add(argument);
    let short = if row.short.is_empty() {
        6
    } else {
        row.short.len().saturating_add(5)
    };
    let width = name.saturating_add(short).saturating_add(2);
    width.min(COLUMN)
}

/// Adds a row's line.
fn push_row(out: &mut String, row: &OptionRow) -> Result<(), AllocError> {
    push_left(out, row)?;
    push_spaces(out, COLUMN.saturating_sub(left_width(row)))?;
    out.push_str(row.help)?;
    out.push_str("\n")
}

/// Adds a line for each row.
fn push_rows(out: &mut String, rows: &[OptionRow]) -> Result<(), AllocError> {
    for row in rows {
        push_row(out, row)?;
    }
    Ok(())
}

/// Adds the help, with a line for each option of the table.
pub(crate) fn push_help(out: &mut String) -> Result<(), AllocError> {
    out.push_str(HEAD)?;
    push_rows(out, &OPTIONS)?;
    out.push_str(TAIL)
}

/// The line of `--version`.
pub(crate) fn version() -> &'static str {
    VERSION
}
