//! Values that are captured before anything of them is written.

ghost use Rattle.std.specs.Prelude.{◌≡◌, false};
ghost use Rattle.sval_core.specs.Real.{IsPrintable};
ghost use Rattle.sval_core.specs.Spells.{Spells};
ghost use Rattle.sval_core.specs.Trees.{Tree};
ghost use Rattle.sval_program.specs.Outputs.{WritesText};
ghost use Rattle.sval_script.specs.Canon.{canon};

use std::alloc::Global;
use sval_buffer::{ErrorKind, ValueBuf};
use sval_core::{Lent, Value};
use sval_io::{Sink, SinkError};
use sval_script::{PrintError, print_canon};

/// Captures a value whose calls spell a tree that scripts can spell, with room for this many parts from the start, and
/// prints the tree's canonical script. The sink isn't flushed. Too small a number of parts changes no answer, as at
/// [`ValueBuf::collect_with_capacity`].
///
/// ```
/// let mut sink = VecSink::new(alloc);
/// print_captured(alloc, 0, &true, &mut sink)?;
/// assert_eq!(rt; sink.as_slice(), b"bool true\n".as_slice());
/// ```
///
/// # Errors
///
/// [`SinkError::Failed`] comes only where the sink's count of faults rose, and of a sink that tells its room only where
/// the script has no place in it. [`SinkError::NoMemory`] leaves the sink as it was, unless its own count of wants
/// rose. After either a first part of the script may have been taken, and never all of it.
pub fn print_captured<'v, K: Sink, V: Value<'v, Lent<'v>>>(
    alloc: Global,
    parts: usize,
    value: &'v V,
    out: &mut K,
) -> Result<(), SinkError>
    requires willing { (V.emission value.now).refuses ≡ false }
    requires spells { (tree : Tree) × Spells (V.emission value.now).calls tree × IsPrintable tree }
    ensures { (tree : Tree) → Spells (V.emission value.now).calls tree → IsPrintable tree
        → WritesText result K.told (canon tree) out.old out.new }
{
    let captured = match ValueBuf::collect_with_capacity(alloc, parts, value) {
        Ok(captured) => captured,
        Err(error) => match error.kind() {
            ErrorKind::NoAlloc { .. } => return Err(SinkError::NoMemory),
            _ => unreachable!("a value that spells a tree is captured"),
        },
    };
    match print_canon(&captured, out) {
        Ok(()) => Ok(()),
        Err(PrintError::Write) => Err(SinkError::Failed),
        Err(PrintError::NoMemory) => Err(SinkError::NoMemory),
        Err(PrintError::UnknownTag) => unreachable!("a script can spell the tree"),
        Err(PrintError::Refused) => unreachable!("a captured value doesn't refuse"),
    }
}
