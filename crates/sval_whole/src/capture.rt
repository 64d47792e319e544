//! Values that are checked, and captured.

ghost use Rattle.std.specs.Prelude.{◌≡◌, ◌⊎◌, Err, IfOk, IfErr};
ghost use Rattle.sval_check.specs.Checks.{CheckAnswer, IsCheckDue, IsOneValue};
ghost use Rattle.sval_buffer.specs.SeenBuffers.{capture_of};
ghost use Rattle.sval_whole.specs.WholeCaptures.{CapturesOneValue, IsWholeCause, IsCaptureWant, check_answer};

use std::alloc::Global;
use sval_buffer::{AnyValueBuf, CallStore, ErrorKind};
use sval_check::{CheckError, check, check_into};
use sval_core::{Lent, Value};

/// Captures a value, if its calls are one whole value.
///
/// On `Ok` the buffer took all its calls, as `ValueBuf::collect` of `sval_buffer` captures them, and its replay
/// spells the tree that the calls spell. The value is checked on the way into the buffer, by [`check_into`]. Only where
/// that gives nothing it is streamed again, into the check, which tells the cause.
///
/// ```
/// let buffer: ValueBuf<'_> = collect_whole(alloc, &value)?;
/// stream.value(&buffer)?;
/// ```
///
/// The store `N` is found from the type that is named for the result, which is `ValueBuf` in general.
///
/// # Errors
///
/// They are those of [`check`], for the same causes. The first three come wherever their cause holds, unless memory
/// was wanting. [`CheckError::NoMemory`] comes only where memory was wanting to check the calls, or to capture one whole
/// value.
pub fn collect_whole<'sval, N: CallStore + 'sval, V: Value<'sval, Lent<'sval>>>(
    alloc: Global,
    v: &'sval V,
) -> Result<AnyValueBuf<'sval, N>, CheckError>
    ensures ok { IfOk result (λ buffer. CapturesOneValue (V.emission v.now) (capture_of buffer)) }
    ensures cause { IfErr result (IsWholeCause (V.emission v.now)) }
    ensures comes { (due : CheckAnswer) → IsCheckDue (V.emission v.now) due
        → (check_answer result ≡ due) ⊎ (result ≡ Err CheckError.NoMemory) }
{
    let buffer: AnyValueBuf<'sval, N> = AnyValueBuf::new(alloc);
    if let Some(captured) = check_into(alloc, v, buffer) {
        return Ok(captured);
    }
    match check(alloc, v) {
        Ok(()) => collect_checked(alloc, v),
        Err(found) => Err(found),
    }
}

/// Captures a value whose calls are one whole value.
fn collect_checked<'sval, N: CallStore + 'sval, V: Value<'sval, Lent<'sval>>>(
    alloc: Global,
    v: &'sval V,
) -> Result<AnyValueBuf<'sval, N>, CheckError>
    requires { IsOneValue (V.emission v.now) }
    ensures ok { IfOk result (λ buffer. CapturesOneValue (V.emission v.now) (capture_of buffer)) }
    ensures err { IfErr result (IsCaptureWant (V.emission v.now)) }
{
    let captured: Result<AnyValueBuf<'sval, N>, sval_buffer::Error> = AnyValueBuf::collect(
        alloc, v,
    );
    match captured {
        Ok(buffer) => Ok(buffer),
        Err(error) => match error.kind() {
            ErrorKind::NoAlloc { .. } => Err(CheckError::NoMemory),
            _ => unreachable!("a value that spells a tree is captured"),
        },
    }
}
