//! Checks whether calls spell one whole value, or a list of them.
//!
//! | use | where | defined in |
//! |---|---|---|
//! | [`check`] | you ask whether a value is one whole value, and if not, why | `specs/Checks.antt` |
//! | [`check_into`] | you check a value and pass it on in one pass, into a stream that is used once | `specs/Checks.antt` |
//! | [`check_all`] | a value's calls are a list of values, and you need to know where each ends | `specs/ManyChecks.antt` |
//! | [`Checked`] | a stream around yours refuses bad calls, and stays usable after a refusal | `specs/Checked.antt` |
//! | [`Machine`] | your own stream checks call by call, and passes on other calls than those that it takes | `specs/Dues.antt` |
//! | `collect_whole` of `sval_whole` | you capture a value, and check it on the way | that crate |
//!
//! [`Machine`] has a stack. It takes the calls that can still be completed, and no others. The functions and streams
//! above check by it, with one exception: [`check`] and [`check_into`] check no call of a value that is surely whole
//! ([`is_surely_whole`]). Otherwise these two and [`check_all`] go on with each call by one step. [`Checked`] goes by
//! the two parts of a step, since its inner stream may refuse the call between them.
//!
//! [`TokenBuf`] keeps calls as [`Token`]s, so that a test can compare them. Its law is in `specs/TokenBufs.antt`.
#![tactic(auto)]

ghost use Rattle.std.specs.Prelude.{◌≡◌, ◌⊎◌, ℕ, Err, IfNone, IfOk, IfSome, OnOk, OnSome};
ghost use Rattle.sval_core.specs.Law.{Streams};
ghost use Rattle.sval_check.specs.Checks.{IsOneValue, IsFirstBadCall, OnlyRefuses, IsUnfinished, NeedsMemory};
ghost use Rattle.sval_check.specs.Checks.{HasCauseInto, CheckAnswer, IsCheckDue};
ghost use Rattle.sval_check.specs.ManyChecks.{AreValues, IsFirstBadOfList, OnlyRefusesList, IsUnfinishedList};
ghost use Rattle.sval_check.specs.ManyChecks.{NeedsMemoryOfList, ListAnswer, IsDueOfList};

mod checked;
mod checker;
mod ends;
mod error;
mod fragments;
mod frame;
mod indexes;
mod kept;
mod labels;
pub mod laws;
mod left;
mod lefts;
mod lister;
mod machine;
mod matching;
mod names;
mod passing;
mod stack;
mod tags;
mod token;
mod token_buf;
mod token_copies;

use crate::checker::Checker;
use crate::lister::Lister;
use crate::passing::Passing;
pub use checked::{Checked, Why};
pub use ends::Ends;
pub use error::CheckError;
pub use fragments::{TokenBytes, TokenText};
pub use frame::Content;
pub use machine::{Due, Machine, Refusal};
use std::alloc::Global;
use sval_core::{Lent, Stream, Value, is_surely_whole};
pub use token::{Token, TokenName};
pub use token_buf::TokenBuf;

/// Checks that a value's calls spell one whole value, and that the value itself doesn't refuse.
///
/// A value that is surely whole ([`is_surely_whole`]) is only asked. That is a number or a text, say, or a struct whose
/// fields are numbers and texts. Any other value is streamed.
///
/// What has begun and has no end yet is kept in memory of `alloc`, with the name that its end has to say, so a deep
/// value needs no deep stack of calls. An end says its begin's name where both say or leave out the same of tag, label
/// and index: tags and labels are compared by their texts, and indexes by their numbers.
///
/// - [`CheckError::BadCall`] comes where no value goes on with one of its calls, and names the first of these calls.
/// - [`CheckError::Refused`] comes where all calls can be completed, and the value refuses after them.
/// - [`CheckError::Unfinished`] comes where all calls can be completed, the value doesn't refuse, and the calls are not
///   one whole value.
/// - [`CheckError::NoMemory`] comes where memory was wanting for a call that begins something, and only where this call
///   can be completed.
///
/// The four cases exclude each other. Each has its answer wherever it holds, unless memory was wanting. So a value that
/// doesn't refuse and whose calls spell a tree gives `Ok` or `NoMemory`, which is the lemma `told_passes` of
/// `proofs/Told.antt`.
///
/// ```
/// match check(alloc, &value) {
///     Ok(()) => println!(rt; "one whole value")?,
///     Err(CheckError::BadCall { at }) => println!(rt; "call {at} goes on with no value")?,
///     Err(_) => println!(rt; "no whole value")?,
/// }
/// ```
pub fn check<'v, V: Value<'v, Lent<'v>>>(alloc: Global, value: &'v V) -> Result<(), CheckError>
    ensures ok { OnOk result (IsOneValue (V.emission value.now)) }
    ensures bad_call { (at : ℕ) → result ≡ Err (CheckError.BadCall at)
        → IsFirstBadCall (V.emission value.now).calls at }
    ensures refused { result ≡ Err CheckError.Refused → OnlyRefuses (V.emission value.now) }
    ensures unfinished { result ≡ Err CheckError.Unfinished → IsUnfinished (V.emission value.now) }
    ensures no_memory { result ≡ Err CheckError.NoMemory → NeedsMemory (V.emission value.now).calls }
    ensures comes { (due : CheckAnswer) → IsCheckDue (V.emission value.now) due
        → (result ≡ due) ⊎ (result ≡ Err CheckError.NoMemory) }
{
    if is_surely_whole::<Lent<'v>, V>(value) {
        return Ok(());
    }
    check_calls(alloc, value)
}

/// Checks the calls of a value one by one.
fn check_calls<'v, V: Value<'v, Lent<'v>>>(alloc: Global, value: &'v V) -> Result<(), CheckError>
    ensures ok { OnOk result (IsOneValue (V.emission value.now)) }
    ensures bad_call { (at : ℕ) → result ≡ Err (CheckError.BadCall at)
        → IsFirstBadCall (V.emission value.now).calls at }
    ensures refused { result ≡ Err CheckError.Refused → OnlyRefuses (V.emission value.now) }
    ensures unfinished { result ≡ Err CheckError.Unfinished → IsUnfinished (V.emission value.now) }
    ensures no_memory { result ≡ Err CheckError.NoMemory → NeedsMemory (V.emission value.now).calls }
    ensures comes { (due : CheckAnswer) → IsCheckDue (V.emission value.now) due
        → (result ≡ due) ⊎ (result ≡ Err CheckError.NoMemory) }
{
    let mut checker = Checker::new(alloc);
    match value.stream(&mut checker) {
        Ok(()) if checker.is_whole() => Ok(()),
        Ok(()) => Err(CheckError::Unfinished),
        Err(_) => Err(checker.cause()),
    }
}

/// Streams a value into a stream, and checks its calls on the way, in one pass.
///
/// It gives the stream back only where the value's calls are one whole value, the value doesn't refuse, and the stream
/// took all of its calls.
///
/// `None` comes where the value refuses or isn't one whole value, where the stream refused a call, and where memory was
/// wanting for a call that begins something. So a value without a fault may give `None` too. The cause isn't told.
/// [`check`] tells what is wrong with the value. It may answer `Ok`: the stream refused a call then, or memory was
/// wanting.
///
/// With `None` the stream is dropped. What it wrote elsewhere before that stays. Lend `&mut writer` to keep the writer,
/// and to ask it for its own cause.
///
/// A value that is surely whole ([`is_surely_whole`]) is asked, as by [`check`], and then streamed without a check.
///
/// ```
/// match check_into(alloc, &value, ValueBuf::new(alloc)) {
///     Some(captured) => println!(rt; "{}", stream_to_string(alloc, &captured)?.as_str())?,
///     None => match check(alloc, &value) {
///         Ok(()) => println!(rt; "no memory")?,
///         Err(why) => println!(rt; "{why}")?,
///     },
/// }
/// ```
pub fn check_into<'v, V: Value<'v, Lent<'v>>, S: Stream<Lent<'v>> + Drop>(
    alloc: Global,
    value: &'v V,
    stream: S,
) -> Option<S>
    ensures one_value { OnSome result (IsOneValue (V.emission value.now)) }
    ensures takes { IfSome result (λ after.
        Streams S.law (S.standing stream) (V.emission value.now) (S.standing after)) }
    ensures cause { IfNone result (HasCauseInto S.law (S.standing stream) (V.emission value.now)) }
{
    if is_surely_whole::<Lent<'v>, V>(value) {
        return stream_into(value, stream);
    }
    check_calls_into(alloc, value, stream)
}

/// Streams a value into a stream, and gives it back where it took all calls.
fn stream_into<'v, V: Value<'v, Lent<'v>>, S: Stream<Lent<'v>> + Drop>(
    value: &'v V,
    stream: S,
) -> Option<S>
    ensures takes { IfSome result (λ after.
        Streams S.law (S.standing stream) (V.emission value.now) (S.standing after)) }
    ensures cause { IfNone result (HasCauseInto S.law (S.standing stream) (V.emission value.now)) }
{
    let mut stream = stream;
    match value.stream(&mut stream) {
        Ok(()) => Some(stream),
        Err(_) => None,
    }
}

/// Streams a value into a stream, and checks its calls one by one.
fn check_calls_into<'v, V: Value<'v, Lent<'v>>, S: Stream<Lent<'v>> + Drop>(
    alloc: Global,
    value: &'v V,
    stream: S,
) -> Option<S>
    ensures one_value { OnSome result (IsOneValue (V.emission value.now)) }
    ensures takes { IfSome result (λ after.
        Streams S.law (S.standing stream) (V.emission value.now) (S.standing after)) }
    ensures cause { IfNone result (HasCauseInto S.law (S.standing stream) (V.emission value.now)) }
{
    let mut passing = Passing::new(alloc, stream);
    match value.stream(&mut passing) {
        Ok(()) if passing.is_whole() => Some(passing.into_inner()),
        Ok(()) => None,
        Err(_) => None,
    }
}

/// Checks that a value's calls spell whole values one after another, and gives where each of them ends. It also checks
/// that the value itself doesn't refuse.
///
/// Each value is checked as by [`check`], and the next one begins where it is whole. A hint between two values belongs
/// to the later one, and hints after the last to none. No calls, or hints alone, are the empty list, with no ends.
///
/// - [`CheckError::BadCall`] comes where no list of values goes on with one of the calls, and names the first of these
///   calls.
/// - [`CheckError::Refused`] comes where all calls can be completed, and the value refuses after them.
/// - [`CheckError::Unfinished`] comes where all calls can be completed, the value doesn't refuse, and the last value
///   isn't whole.
/// - [`CheckError::NoMemory`] comes where memory was wanting for a call that begins something or ends a value, and only
///   where this call can be completed.
///
/// The four cases exclude each other. Each has its answer wherever it holds, unless memory was wanting.
///
/// ```
/// match check_all(alloc, &value) {
///     Ok(ends) => println!(rt; "{} whole values", ends.len())?,
///     Err(CheckError::BadCall { at }) => println!(rt; "no list of values goes on with call {at}")?,
///     Err(_) => println!(rt; "no list of whole values")?,
/// }
/// ```
pub fn check_all<'v, V: Value<'v, Lent<'v>>>(
    alloc: Global,
    value: &'v V,
) -> Result<Ends, CheckError>
    ensures ok { IfOk result (λ ends. AreValues (V.emission value.now) ends) }
    ensures bad_call { (at : ℕ) → result ≡ Err (CheckError.BadCall at)
        → IsFirstBadOfList (V.emission value.now).calls at }
    ensures refused { result ≡ Err CheckError.Refused → OnlyRefusesList (V.emission value.now) }
    ensures unfinished { result ≡ Err CheckError.Unfinished → IsUnfinishedList (V.emission value.now) }
    ensures no_memory { result ≡ Err CheckError.NoMemory → NeedsMemoryOfList (V.emission value.now).calls }
    ensures comes { (due : ListAnswer) → IsDueOfList (V.emission value.now) due
        → (result ≡ due) ⊎ (result ≡ Err CheckError.NoMemory) }
{
    let mut lister = Lister::new(alloc);
    match value.stream(&mut lister) {
        Ok(()) if lister.is_closed() => Ok(lister.into_ends()),
        Ok(()) => Err(CheckError::Unfinished),
        Err(_) => Err(lister.cause()),
    }
}
