//! What is written of values one after another.

ghost use Rattle.std.specs.Prelude.{◌≡◌, ◌<◌, ◌∷◌, [], true, List, length};
ghost use Rattle.sval_core.specs.Real.{IsPrintable};
ghost use Rattle.sval_core.specs.Spells.{Spells};
ghost use Rattle.sval_core.specs.Trees.{Tree};
ghost use Rattle.sval_relay.specs.Verdict.{asked_in, ending};
ghost use Rattle.sval_relay.specs.WrittenTrees.{WritesListIn, AreTrees};

use crate::relaying::RelayError;
use crate::trees::write_tree;
use crate::way::Way;
use std::alloc::Global;
use sval_check::Ends;
use sval_io::{Sink, write_all};
use sval_script::ScriptSlice;

/// What is written behind each value in the way: a line feed behind JSON, and nothing behind a canonical script.
fn ending(way: Way) -> &'static [u8]
    ensures { result.now ≡ ending (asked_in way) true }
{
    match way {
        Way::Calls => b"",
        _ => b"\n",
    }
}

/// Writes what the way makes of lines whose calls spell a tree, with its ending.
fn write_item<K: Sink>(
    alloc: Global,
    lines: &ScriptSlice<'_>,
    way: Way,
    out: &mut K,
) -> Result<(), RelayError>
    requires { (tree : Tree) × Spells lines.now tree × IsPrintable tree }
    ensures { (tree : Tree) → Spells lines.now tree → IsPrintable tree
        → WritesListIn way result K.told (tree ∷ []) out.old out.new }
{
    write_tree(alloc, lines, way, out)?;
    write_all(out, ending(way))?;
    Ok(())
}

/// Writes what the way makes of each of the trees that the lines' calls spell, and that end there.
pub(crate) fn write_list<K: Sink>(
    alloc: Global,
    lines: ScriptSlice<'_>,
    ends: &Ends,
    way: Way,
    out: &mut K,
) -> Result<(), RelayError>
    requires { (trees : List Tree) × AreTrees lines ends.now trees }
    ensures writes { (trees : List Tree) → AreTrees lines.entry ends.now trees
        → WritesListIn way result K.told trees out.old out.new }
    ensures some_end { result ≡ Err RelayError.NoMemory → 0 < length ends.now }
{
    let mut rest = lines;
    let mut from = 0;
    for to in ends.as_slice() {
        let Some((tree, behind)) = rest.split_at_checked(*to - from) else {
            unreachable!("each end stands behind the one before, and within the lines");
        };
        write_item(alloc, &tree, way, out)?;
        rest = behind;
        from = *to;
    }
    Ok(())
}
