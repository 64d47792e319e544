//! Fragments of the texts and binaries of a captured value.

ghost use Rattle.std.specs.Prelude.{◌≡◌, ◌≤◌, ◌++◌, Some, length, drop, slice_range, IfOk, IfErr};
ghost use Rattle.sval_core.specs.Law.{Emits};
ghost use Rattle.sval_core.specs.Values.{makes};
ghost use Rattle.sval_buffer.specs.Capture.{CapturesBy, IsNoAlloc, WantsMemory, error_of};
ghost use Rattle.sval_buffer.specs.Pushes.{pushed};
ghost use Rattle.sval_buffer.specs.Replay.{head_calls};
ghost use Rattle.sval_buffer.specs.Forest as forest;
ghost use Rattle.sval_buffer.specs.Forest.{push_may_grow, push_into_text, push_into_binary, text_may_grow, binary_may_grow};
ghost use Rattle.sval_buffer.specs.SeenStores.{Appends, Grows};
ghost use Rattle.sval_buffer.specs.SeenParts.{fragment_bytes, of_medium, borrowed_bytes, copied_bytes, HoldsBytes, IsStored, Suits};

use crate::binary_buf::{stream_borrowed_bytes, stream_computed_bytes};
use crate::error::{ErrorKind, Word, no_alloc};
use crate::holder::Holder;
use crate::named::CallStore;
use crate::part::{Medium, Part};
use crate::parts::Parts;
use crate::stores::Stores;
use crate::text_buf::{stream_borrowed_text, stream_computed_text, text};
use sval_core::{Fragment, Lent, NoMemory, Stream};

impl<'sval, N: CallStore> Parts<'sval, N> {
    /// Pushes a fragment into the last part, if that is a text.
    pub(crate) fn push_text(
        &mut self,
        fragment: Fragment<&'sval str, &str>,
    ) -> Result<(), ErrorKind>
        ensures { let pushed = fragment_bytes fragment.entry in
            CapturesBy (text_may_grow pushed.borrowed) (push_into_text pushed) self.old result self.new }
    {
        let bytes = match fragment {
            Fragment::Borrowed(text) => Fragment::Borrowed(text.as_bytes()),
            Fragment::Computed(text) => Fragment::Computed(text.as_bytes()),
        };
        self.push(Medium::Text, bytes)
    }

    /// Pushes a fragment into the last part, if that is a binary.
    pub(crate) fn push_binary(
        &mut self,
        fragment: Fragment<&'sval [u8], &[u8]>,
    ) -> Result<(), ErrorKind>
        ensures { let pushed = fragment_bytes fragment.entry in
            CapturesBy (binary_may_grow pushed.borrowed) (push_into_binary pushed) self.old result self.new }
    {
        self.push(Medium::Binary, fragment)
    }
}

/// Puts bytes behind what the stores have.
fn append<N: CallStore>(
    stores: &mut Stores<N>,
    medium: Medium,
    bytes: &[u8],
) -> Result<(), ErrorKind>
    ensures appends { Appends stores.old bytes.now result stores.new }
    ensures err { IfErr result IsNoAlloc }
{
    match stores.append(bytes) {
        Ok(()) => Ok(()),
        Err(cause) => Err(no_alloc(NoMemory::from(cause), medium.word())),
    }
}

/// Answers where a range begins that ends with the bytes of the stores: where this one does, or else where its copy
/// does, which is put behind them.
fn last_range<N: CallStore>(
    stores: &mut Stores<N>,
    medium: Medium,
    start: usize,
    end: usize,
) -> Result<usize, ErrorKind>
    requires order { start ≤ end }
    requires within { end ≤ length stores.old.bytes }
    ensures grows { Grows stores.old stores.new }
    ensures last { IfOk result (λ from. drop from stores.new.bytes ≡ slice_range stores.old.bytes start end) }
    ensures within { IfOk result (λ from. from ≤ length stores.new.bytes) }
    ensures err { IfErr result IsNoAlloc }
{
    let len = stores.len();
    if end == len {
        return Ok(start);
    }
    match stores.repeat(start, end) {
        Ok(()) => Ok(len),
        Err(cause) => Err(no_alloc(NoMemory::from(cause), medium.word())),
    }
}

/// A text or a binary of the last bytes of the stores, from a place on, and these behind them.
fn join_last<'sval, N: CallStore>(
    medium: Medium,
    holder: Holder,
    start: usize,
    next: &[u8],
    stores: &mut Stores<N>,
) -> Result<Part<'sval>, ErrorKind>
    requires within { start ≤ length stores.old.bytes }
    requires suits { Suits medium (drop start stores.old.bytes) }
    requires next_suits { Suits medium next.now }
    ensures holds { let joined = drop start stores.old.bytes ++ next.now in
        IfOk result (HoldsBytes stores.new medium holder (copied_bytes joined)) }
    ensures err { IfErr result IsNoAlloc }
    ensures grows { Grows stores.old stores.new }
{
    append(stores, medium, next)?;
    Ok(Part::Stored {
        medium,
        holder,
        start,
        end: stores.len(),
    })
}

/// A text or a binary of borrowed bytes, with a fragment more. The first fragment stays borrowed.
pub(crate) fn join_borrowed<'sval, N: CallStore>(
    medium: Medium,
    holder: Holder,
    bytes: &'sval [u8],
    fragment: Fragment<&'sval [u8], &[u8]>,
    stores: &mut Stores<N>,
) -> Result<Part<'sval>, ErrorKind>
    requires suits { Suits medium bytes.now }
    requires next_suits { Suits medium (fragment_bytes fragment).bytes }
    ensures joined { let held = borrowed_bytes bytes.now in
        IfOk result (HoldsBytes stores.new medium holder (pushed held (fragment_bytes fragment.entry))) }
    ensures err { let held = borrowed_bytes bytes.now in
        IfErr result (WantsMemory (push_may_grow (fragment_bytes fragment.entry).borrowed (Some held))) }
    ensures grows { Grows stores.old stores.new }
{
    match fragment {
        Fragment::Borrowed(first) if bytes.is_empty() => Ok(Part::Borrowed {
            medium,
            holder,
            bytes: first,
        }),
        Fragment::Borrowed(next) | Fragment::Computed(next) => {
            let start = stores.len();
            append(stores, medium, bytes)?;
            join_last(medium, holder, start, next, stores)
        }
    }
}

/// A text or a binary of copied bytes, from a place to another one, with a fragment more. A borrowed fragment onto none
/// stays borrowed.
pub(crate) fn join_stored<'sval, N: CallStore>(
    medium: Medium,
    holder: Holder,
    start: usize,
    end: usize,
    fragment: Fragment<&'sval [u8], &[u8]>,
    stores: &mut Stores<N>,
) -> Result<Part<'sval>, ErrorKind>
    requires stored { IsStored stores.old.bytes medium start end }
    requires next_suits { Suits medium (fragment_bytes fragment).bytes }
    ensures joined { let held = copied_bytes (slice_range stores.old.bytes start end) in
        IfOk result (HoldsBytes stores.new medium holder (pushed held (fragment_bytes fragment.entry))) }
    ensures err { let held = copied_bytes (slice_range stores.old.bytes start end) in
        IfErr result (WantsMemory (push_may_grow (fragment_bytes fragment.entry).borrowed (Some held))) }
    ensures grows { Grows stores.old stores.new }
{
    match fragment {
        Fragment::Borrowed(first) if start == end => Ok(Part::Borrowed {
            medium,
            holder,
            bytes: first,
        }),
        Fragment::Borrowed(next) | Fragment::Computed(next) => {
            let from = last_range(stores, medium, start, end)?;
            join_last(medium, holder, from, next, stores)
        }
    }
}

/// What answers a fragment where the last part isn't of its medium.
pub(crate) fn outside(medium: Medium) -> ErrorKind
    ensures { result ≡ error_of (forest.outside medium) }
{
    match medium {
        Medium::Text => ErrorKind::OutsideContainer { method: Word::Text },
        Medium::Binary => ErrorKind::OutsideContainer {
            method: Word::Binary,
        },
    }
}

/// Makes the calls of one borrowed fragment.
pub(crate) fn stream_borrowed<'sval, S: Stream<Lent<'sval>>>(
    medium: Medium,
    bytes: &'sval [u8],
    stream: &mut S,
) -> sval_core::Result
    requires { Suits medium bytes.now }
    ensures { let calls = head_calls (of_medium medium (borrowed_bytes bytes.now)) in
        Emits S.law result (S.standing stream.old) (makes calls) (S.standing stream.new) }
{
    match medium {
        Medium::Text => stream_borrowed_text(text(bytes), stream),
        Medium::Binary => stream_borrowed_bytes(bytes, stream),
    }
}

/// Makes the calls of one computed fragment.
pub(crate) fn stream_computed<'sval, S: Stream<Lent<'sval>>>(
    medium: Medium,
    bytes: &[u8],
    stream: &mut S,
) -> sval_core::Result
    requires { Suits medium bytes.now }
    ensures { let calls = head_calls (of_medium medium (copied_bytes bytes.now)) in
        Emits S.law result (S.standing stream.old) (makes calls) (S.standing stream.new) }
{
    match medium {
        Medium::Text => stream_computed_text(text(bytes), stream),
        Medium::Binary => stream_computed_bytes(bytes, stream),
    }
}
