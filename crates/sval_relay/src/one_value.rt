//! Scripts of one value, checked and written.

ghost use Rattle.std.specs.Prelude.{◌≡◌, ℕ, true, Err, IfOk, IfSome, OnErr, OnSome};
ghost use Rattle.sval_buffer.specs.CapturedValues.{KeepsTree};
ghost use Rattle.sval_buffer.specs.SeenBuffers.{capture_of};
ghost use Rattle.sval_check.specs.Checks.{IsFirstBadCall, IsOneValue, IsUnfinished, NeedsMemory};
ghost use Rattle.sval_core.specs.Values.{makes};
ghost use Rattle.sval_relay.specs.Verdict.{JsonIn, asked_in};
ghost use Rattle.sval_relay.specs.Ways.{is_captured};
ghost use Rattle.sval_relay.specs.WrittenTrees.{IsOfScript, WritesSpelled};

use crate::relaying::RelayError;
use crate::trees::{most_parts, write_json, write_tree};
use crate::way::Way;
use std::alloc::Global;
use sval_buffer::ValueBuf;
use sval_check::{CheckError, check, check_into};
use sval_io::Sink;
use sval_json::Variants;
use sval_script::Script;

/// Checks a script, and writes what the way makes of the one value that its calls spell.
///
/// In the ways that write JSON of what was captured, the script is checked as it is captured, in one pass. Where that
/// fails, a second try finds why: the script is checked first, and then captured.
pub(crate) fn write_checked<K: Sink>(
    alloc: Global,
    script: &Script,
    way: Way,
    out: &mut K,
) -> Result<Result<(), RelayError>, CheckError>
    requires { IsOfScript script.now }
    ensures written { IfOk result (λ written. WritesSpelled way written K.told script.now out.old out.new) }
    ensures untouched { OnErr result (out.new ≡ out.old) }
    ensures bad_call { (at : ℕ) → result ≡ Err (CheckError.BadCall at) → IsFirstBadCall script.now at }
    ensures refused { result ≡ Err CheckError.Refused → ⊥ }
    ensures unfinished { result ≡ Err CheckError.Unfinished → IsUnfinished (makes script.now) }
    ensures no_memory { result ≡ Err CheckError.NoMemory → NeedsMemory script.now }
{
    if let Some((variants, captured)) = capture_for(alloc, script, way) {
        return Ok(write_json(out, &captured, variants));
    }
    match check(alloc, script) {
        Ok(()) => Ok(write_tree(alloc, &script.as_slice(), way, out)),
        Err(error) => Err(error),
    }
}

/// Checks and captures a script in one pass, in the ways that write JSON of what was captured. Where it gives nothing,
/// nothing is said of the cause.
fn capture_for<'v>(alloc: Global, script: &'v Script, way: Way) -> Option<(Variants, ValueBuf<'v>)>
    ensures captured { OnSome result (is_captured way ≡ true) }
    ensures style { IfSome result (λ found. asked_in way ≡ JsonIn found.0) }
    ensures one_value { OnSome result (IsOneValue (makes script.now)) }
    ensures keeps { IfSome result (λ found. KeepsTree (makes script.now) (capture_of found.1).forest) }
{
    match way {
        Way::Buffered => Some((Variants::Inside, capture_checked(alloc, script)?)),
        Way::BufferedBeside => Some((Variants::Beside, capture_checked(alloc, script)?)),
        Way::Direct | Way::DirectBeside | Way::Calls => None,
    }
}

/// Checks and captures a script in one pass. Where it gives nothing, nothing is said of the cause.
fn capture_checked<'v>(alloc: Global, script: &'v Script) -> Option<ValueBuf<'v>>
    ensures one_value { OnSome result (IsOneValue (makes script.now)) }
    ensures keeps { IfSome result (λ captured. KeepsTree (makes script.now) (capture_of captured).forest) }
{
    let buffer: ValueBuf<'v> = ValueBuf::with_capacity(alloc, most_parts(&script.as_slice()));
    check_into(alloc, script, buffer)
}
