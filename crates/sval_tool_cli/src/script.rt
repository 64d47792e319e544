//! Conversions from scripts of calls.

use crate::trouble::{Trouble, of_call, of_line, of_unfinished};
use crate::values::write_asked;
use crate::words::Options;
use std::alloc::Global;
use sval_check::{CheckError, Ends, check, check_all};
use sval_io::Sink;
use sval_script::{Script, ScriptError};

/// Reads a script.
fn read_script(alloc: Global, name: &str, bytes: &[u8]) -> Result<Script, Trouble> {
    match Script::read(alloc, bytes) {
        Ok(script) => Ok(script),
        Err(ScriptError::BadLine { line }) => Err(of_line(alloc, name, bytes, line)),
        Err(ScriptError::NoMemory) => Err(Trouble::NoMemory),
    }
}

/// The trouble with the calls of a script.
fn unchecked(alloc: Global, name: &str, bytes: &[u8], error: CheckError) -> Trouble {
    match error {
        CheckError::BadCall { at } => of_call(alloc, name, bytes, at),
        CheckError::Refused | CheckError::Unfinished => of_unfinished(alloc, name),
        CheckError::NoMemory => Trouble::NoMemory,
    }
}

/// Writes what is due of each value of a script. The values end behind these numbers of calls.
fn convert_values<K: Sink>(
    alloc: Global,
    options: &Options,
    name: &str,
    script: &Script,
    ends: &Ends,
    out: &mut K,
) -> Result<(), Trouble> {
    let mut rest = script.as_slice();
    let mut from: u64 = 0;
    for end in ends.as_slice() {
        let Some((lines, behind)) = rest.split_at_checked(end.saturating_sub(from)) else {
            break;
        };
        let number = from.saturating_add(1);
        write_asked(alloc, options, &lines, out).map_err(|why| why.of(alloc, name, Some(number)))?;
        rest = behind;
        from = *end;
    }
    Ok(())
}

/// Reads a script, and writes what is due of the value that its calls spell, or of each of its values.
pub(crate) fn convert_script<K: Sink>(
    alloc: Global,
    options: &Options,
    name: &str,
    bytes: &[u8],
    out: &mut K,
) -> Result<(), Trouble> {
    let script = read_script(alloc, name, bytes)?;
    if options.lines {
        let ends = check_all(alloc, &script).map_err(|why| unchecked(alloc, name, bytes, why))?;
        return convert_values(alloc, options, name, &script, &ends, out);
    }
    check(alloc, &script).map_err(|why| unchecked(alloc, name, bytes, why))?;
    write_asked(alloc, options, &script, out).map_err(|why| why.of(alloc, name, None))
}

/// Reads a script, and writes nothing.
pub(crate) fn check_script(
    alloc: Global,
    options: &Options,
    name: &str,
    bytes: &[u8],
) -> Result<(), Trouble> {
    let script = read_script(alloc, name, bytes)?;
    let checked = if options.lines {
        check_all(alloc, &script).map(|_| ())
    } else {
        check(alloc, &script)
    };
    checked.map_err(|why| unchecked(alloc, name, bytes, why))
}
