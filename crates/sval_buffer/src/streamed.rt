//! Values that are captured by a function.

ghost use Rattle.std.specs.Prelude.{◌≡◌, false, IfOk, IfErr};
ghost use Rattle.sval_core.specs.Trees.{Tree};
ghost use Rattle.sval_core.specs.Spells.{Spells};
ghost use Rattle.sval_buffer.specs.SeenBuffers.{capture_of};
ghost use Rattle.sval_buffer.specs.CapturedValues.{IsCaptured, IsCapturedOwned, IsOwnedCause, KeepsTree, IsCollectCause, IsOkOrNoAlloc};

use crate::error::Error;
use crate::named::CallStore;
use crate::value_buf::AnyValueBuf;
use std::alloc::Global;
use sval_core::{Lent, Value};

/// Captures a value, as [`ValueBuf::collect`](crate::ValueBuf::collect) does.
///
/// ```
/// let buffer: ValueBuf<'_> = stream_to_value(alloc, &point)?;
/// ```
pub fn stream_to_value<'sval, N: CallStore + 'sval, V: Value<'sval, Lent<'sval>>>(
    alloc: Global,
    v: &'sval V,
) -> Result<AnyValueBuf<'sval, N>, Error>
    ensures ok { IfOk result (λ buffer. IsCaptured (V.emission v.now) (capture_of buffer)) }
    ensures err { IfErr result (λ why. IsCollectCause (V.emission v.now) why) }
    ensures keeps_the_tree { IfOk result (λ buffer. KeepsTree (V.emission v.now) (capture_of buffer).forest) }
    ensures complete { let e = V.emission v.now in
        (tree : Tree) → e.refuses ≡ false → Spells e.calls tree → IsOkOrNoAlloc result }
{
    AnyValueBuf::collect(alloc, v)
}

/// Captures a value by copies of its texts and binaries, as [`ValueBuf::collect_owned`](crate::ValueBuf::collect_owned)
/// does.
///
/// ```
/// let buffer: ValueBuf<'_> = stream_to_value_owned(alloc, &point)?;
/// ```
pub fn stream_to_value_owned<'sval, 'o, N: CallStore, V: Value<'sval, Lent<'sval>>>(
    alloc: Global,
    v: &'sval V,
) -> Result<AnyValueBuf<'o, N>, Error>
    ensures ok { IfOk result (λ buffer. IsCapturedOwned (V.emission v.now) (capture_of buffer)) }
    ensures err { IfErr result (λ why. IsOwnedCause (V.emission v.now) why) }
    ensures keeps_the_tree { IfOk result (λ buffer. KeepsTree (V.emission v.now) (capture_of buffer).forest) }
    ensures complete { let e = V.emission v.now in
        (tree : Tree) → e.refuses ≡ false → Spells e.calls tree → IsOkOrNoAlloc result }
{
    let collected: Result<AnyValueBuf<'o, N>, Error> = AnyValueBuf::collect_owned(alloc, v);
    collected
}
