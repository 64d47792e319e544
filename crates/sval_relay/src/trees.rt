//! What is written of one value.

ghost use Rattle.std.specs.Prelude.{◌≡◌, true, false, IfOk, IfErr};
ghost use Rattle.sval_buffer.specs.CapturedValues.{IsCaptured, KeepsTree};
ghost use Rattle.sval_buffer.specs.SeenBuffers.{capture_of};
ghost use Rattle.sval_core.specs.Real.{IsReal, IsPrintable};
ghost use Rattle.sval_core.specs.Spells.{Spells};
ghost use Rattle.sval_core.specs.Trees.{Tree};
ghost use Rattle.sval_core.specs.Values.{makes};
ghost use Rattle.sval_relay.specs.Verdict.{JsonIn, Script};
ghost use Rattle.sval_relay.specs.WrittenTrees.{WritesTreeText, WritesTreeBy};

use crate::relaying::RelayError;
use crate::way::Way;
use std::alloc::Global;
use sval_buffer::ValueBuf;
use sval_core::{Lent, Value};
use sval_io::Sink;
use sval_json::{ErrorKind, Variants, stream_to_io_write_with};
use sval_program::print_captured;
use sval_script::ScriptSlice;

/// Writes what the way makes of lines whose calls spell a tree.
pub(crate) fn write_tree<K: Sink>(
    alloc: Global,
    lines: &ScriptSlice<'_>,
    way: Way,
    out: &mut K,
) -> Result<(), RelayError>
    requires { (tree : Tree) × Spells lines.now tree × IsPrintable tree }
    ensures { (tree : Tree) → Spells lines.now tree → IsPrintable tree
        → WritesTreeBy way result K.told tree out.old out.new }
{
    match way {
        Way::Direct => write_json(out, lines, Variants::Inside),
        Way::DirectBeside => write_json(out, lines, Variants::Beside),
        Way::Buffered => write_captured(alloc, lines, Variants::Inside, out),
        Way::BufferedBeside => write_captured(alloc, lines, Variants::Beside, out),
        Way::Calls => print_lines(alloc, lines, out),
    }
}

/// Captures lines whose calls spell a tree, and writes the JSON of what it captured.
fn write_captured<K: Sink>(
    alloc: Global,
    lines: &ScriptSlice<'_>,
    variants: Variants,
    out: &mut K,
) -> Result<(), RelayError>
    requires { (tree : Tree) × Spells lines.now tree }
    ensures { (tree : Tree) → Spells lines.now tree → IsReal tree
        → WritesTreeText result true K.told (JsonIn variants) tree out.old out.new }
{
    let captured = capture(alloc, lines)?;
    write_json(out, &captured, variants)
}

/// Captures lines whose calls spell a tree, and prints the canonical script of what it captured.
fn print_lines<K: Sink>(
    alloc: Global,
    lines: &ScriptSlice<'_>,
    out: &mut K,
) -> Result<(), RelayError>
    requires { (tree : Tree) × Spells lines.now tree × IsPrintable tree }
    ensures { (tree : Tree) → Spells lines.now tree → IsPrintable tree
        → WritesTreeText result true K.told Script tree out.old out.new }
{
    match print_captured(alloc, most_parts(lines), lines, out) {
        Ok(()) => Ok(()),
        Err(error) => Err(error.into()),
    }
}

/// How many parts a captured value has at most: each takes a line or more. Room that isn't filled takes no memory of
/// the system.
pub(crate) fn most_parts(lines: &ScriptSlice<'_>) -> usize {
    lines.line_count() as usize
}

/// Captures lines whose calls spell a tree.
fn capture<'v>(alloc: Global, lines: &'v ScriptSlice<'v>) -> Result<ValueBuf<'v>, RelayError>
    requires { (tree : Tree) × Spells lines.now tree }
    ensures captured { IfOk result (λ captured. IsCaptured (makes lines.now) (capture_of captured)) }
    ensures keeps { IfOk result (λ captured. KeepsTree (makes lines.now) (capture_of captured).forest) }
    ensures err { IfErr result (λ why. why ≡ RelayError.NoMemory) }
{
    match ValueBuf::collect_with_capacity(alloc, most_parts(lines), lines) {
        Ok(captured) => Ok(captured),
        Err(error) => match error.kind() {
            sval_buffer::ErrorKind::NoAlloc { .. } => Err(RelayError::NoMemory),
            _ => unreachable!("a value that spells a tree is captured"),
        },
    }
}

/// Writes the JSON of a value that doesn't refuse.
pub(crate) fn write_json<'v, K: Sink, V: Value<'v, Lent<'v>>>(
    out: &mut K,
    value: &'v V,
    variants: Variants,
) -> Result<(), RelayError>
    requires { (V.emission value.now).refuses ≡ false }
    ensures { (tree : Tree) → Spells (V.emission value.now).calls tree → IsReal tree
        → WritesTreeText result false K.told (JsonIn variants) tree out.old out.new }
{
    match stream_to_io_write_with(out, value, variants) {
        Ok(()) => Ok(()),
        Err(error) => match error.kind() {
            ErrorKind::IO => Err(RelayError::Write),
            ErrorKind::InvalidKey => Err(RelayError::InvalidKey),
            ErrorKind::InvalidNumber => Err(RelayError::InvalidNumber),
            ErrorKind::NoMemory => Err(RelayError::NoMemory),
            ErrorKind::Generic => unreachable!("the value doesn't refuse"),
        },
    }
}
