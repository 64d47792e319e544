//! Values with what a rule and paths leave of them.

ghost use Rattle.std.specs.Prelude.{◌≡◌, IfOk, IfErr};
ghost use Rattle.sval_check.specs.Checks.{CheckAnswer, IsCheckDue, IsOneValue};
ghost use Rattle.sval_buffer.specs.FlatForest.{forest_in};
ghost use Rattle.sval_filter.specs.Pruning.{IsPruned, PassesPruned, StopsPruned, IsPruneCause, IsDueToPrune, IsPruneWant, IsWanting, IsNoAllocIn};

use crate::filter::Filter;
use crate::paths::{Paths, Rule};
use std::alloc::Global;
use std::error::Error;
use std::fmt;
use sval_buffer::{AnyValue, AnyValueBuf, CallStore, ErrorKind};
use sval_check::{CheckError, Why, check};
use sval_core::{Lending, Lent, NoMemory, Stream, Value};

/// Why a value wasn't pruned.
#[derive(Clone, Copy, Debug, PartialEq, Eq)]
pub enum PruneError {
    /// No value goes on with the call of this number, counted from 1. A number past the greatest `u64` is given as
    /// that.
    BadCall {
        /// The number of the call.
        at: u64,
    },
    /// All calls can be completed, and they end before they are one whole value.
    Unfinished,
    /// All calls can be completed, and the value itself refused.
    Refused,
    /// Memory was wanting.
    NoMemory,
}

impl fmt::Display for PruneError {
    ghost use Rattle.std.specs.Prelude.{Some};
    ghost use Rattle.sval_filter.specs.ErrorTexts.{prune_error_text};

    ghost output = { λ error. Some (prune_error_text error) };

    fn fmt<W: fmt::Write>(&self, f: &mut fmt::Formatter<W>) -> fmt::Result {
        match *self {
            PruneError::BadCall { at } => write!(f, "no value goes on with call {at}"),
            PruneError::Unfinished => f.write_str("the calls end before the value is whole"),
            PruneError::Refused => f.write_str("the value refused"),
            PruneError::NoMemory => f.write_str("cannot allocate for a pruned value"),
        }
    }
}

impl Error for PruneError {}

impl From<NoMemory> for PruneError {
    ghost use Rattle.sval_filter.specs.declared.pruning.PruneError.TheVariants.{NoMemory};

    ghost from_gives = { λ _ error. error ≡ NoMemory };

    fn from(_cause: NoMemory) -> PruneError {
        PruneError::NoMemory
    }
}

/// A copy of a value with what a rule and paths leave of it.
///
/// Its replay spells what is left of the value that the calls of `v` spell. A text or a binary of one fragment that `v`
/// lends is kept by reference, but those of a map's keys are copied.
///
/// ```
/// let mut paths = Paths::new(alloc);
/// paths.push_word("user.password")?;
/// let left: sval_buffer::Value<'_> = prune(alloc, &event, Rule::Drop, &paths)?;
/// stream_to_io_write(&mut sink, &left)?;
/// ```
///
/// The store `N` is found from the type that is named for the result, which is `sval_buffer::Value` in general.
///
/// # Errors
///
/// [`PruneError::BadCall`], [`PruneError::Unfinished`] and [`PruneError::Refused`] exactly where [`check`] answers so:
/// that no value goes on with a call, that the calls end too early, or that the value itself refuses. These three come
/// wherever they are due, unless memory was wanting.
///
/// [`PruneError::NoMemory`] comes only where a call that can be completed begins something, for which checking may take
/// memory, or where the value is a whole one, which is filtered and captured.
pub fn prune<'sval, N: CallStore + 'sval, V: Value<'sval, Lent<'sval>>>(
    alloc: Global,
    v: &'sval V,
    rule: Rule,
    paths: &Paths,
) -> Result<AnyValue<'sval, N>, PruneError>
    ensures ok { IfOk result (λ value. IsPruned (V.emission v.now) rule paths.now (forest_in value)) }
    ensures err { IfErr result (IsPruneCause (V.emission v.now)) }
    ensures comes { (due : CheckAnswer) → IsCheckDue (V.emission v.now) due → IsDueToPrune due result }
{
    match check(alloc, v) {
        Ok(()) => prune_tree(alloc, v, rule, paths),
        Err(CheckError::BadCall { at }) => Err(PruneError::BadCall { at }),
        Err(CheckError::Unfinished) => Err(PruneError::Unfinished),
        Err(CheckError::Refused) => Err(PruneError::Refused),
        Err(CheckError::NoMemory) => Err(PruneError::NoMemory),
    }
}

/// Prunes a value that is a whole one.
pub(crate) fn prune_tree<'sval, N: CallStore + 'sval, V: Value<'sval, Lent<'sval>>>(
    alloc: Global,
    v: &'sval V,
    rule: Rule,
    paths: &Paths,
) -> Result<AnyValue<'sval, N>, PruneError>
    requires { IsOneValue (V.emission v.now) }
    ensures ok { IfOk result (λ value. IsPruned (V.emission v.now) rule paths.now (forest_in value)) }
    ensures err { IfErr result IsPruneWant }
{
    let buffer: AnyValueBuf<'sval, N> = AnyValueBuf::new(alloc);
    match pass_value(alloc, v, rule, paths, buffer) {
        Ok(buffer) => Ok(buffer.into_value()),
        Err((why, buffer)) => Err(want_of(why, buffer.into_err())),
    }
}

/// Passes a value on to a stream through a filter, and gives the stream back, with the filter's last refusal where it
/// stopped.
fn pass_value<'v, L: Lending, S: Stream<L> + Drop, V: Value<'v, L>>(
    alloc: Global,
    v: &'v V,
    rule: Rule,
    paths: &Paths,
    stream: S,
) -> Result<S, (Option<Why>, S)>
    ensures ok { let e = V.emission v.now in
        IfOk result (λ after. PassesPruned S.law (S.standing stream) e rule paths.now (S.standing after)) }
    ensures err { let e = V.emission v.now in
        IfErr result (λ left. StopsPruned S.law (S.standing stream) e rule paths.now left.0 (S.standing left.1)) }
{
    let mut filter = Filter::new(alloc, rule, paths, stream);
    match v.stream(&mut filter) {
        Ok(()) => Ok(filter.into_inner()),
        Err(_) => {
            let why = filter.why();
            Err((why, filter.into_inner()))
        }
    }
}

/// The want of memory that a filter over a buffer met, by the last refusals of both.
fn want_of(why: Option<Why>, refusal: Option<sval_buffer::Error>) -> PruneError
    requires { IsWanting why refusal }
    ensures { IsPruneWant result }
{
    match why {
        Some(Why::NoMemory) => PruneError::NoMemory,
        Some(Why::Inner) => want_of_buffer(refusal),
        _ => unreachable!("the calls are one whole value"),
    }
}

/// The want of memory that a buffer met, by its last refusal.
fn want_of_buffer(refusal: Option<sval_buffer::Error>) -> PruneError
    requires { IsNoAllocIn refusal }
    ensures { IsPruneWant result }
{
    let Some(error) = refusal else {
        unreachable!("the buffer refused a call");
    };
    match error.kind() {
        ErrorKind::NoAlloc { .. } => PruneError::NoMemory,
        _ => unreachable!("what is left of a value is captured"),
    }
}
