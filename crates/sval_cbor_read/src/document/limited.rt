//! Reading items of strangers, which may be nested deeply or hold many others.

ghost use Rattle.std.specs.Prelude.{[], drop, IfOk, IfErr, length};
ghost use Rattle.sval_cbor_read.specs.CborLimits.{EndsWithin, IsLimitedCborError};
ghost use Rattle.sval_cbor_read.specs.ReadErrors.{IsReadItem, IsReadFront};
ghost use Rattle.sval_cbor_read.specs.Reading.{Ended, Reached};
ghost use Rattle.sval_cbor_read.specs.SeenDue.{is_begun_behind};
ghost use Rattle.sval_cbor_read.specs.SeenFound.{AreOfItem};
ghost use Rattle.sval_cbor_read.specs.SeenLimited.{CountsBegun, CborPasses};
ghost use Rattle.sval_cbor_read.specs.SeenNodes.{streamed_items};

use super::unread::{Unread, whole_error};
use super::{CborDoc, CborReadError};
use crate::node::Node;
use crate::reader::Reader;
use std::alloc::Global;
use std::error::Error;
use std::fmt;
use sval_core::NoMemory;
use sval_io::Limits;

/// Why bytes can't be read within limits.
#[derive(Clone, Copy, Debug, PartialEq, Eq)]
pub enum CborLimitedError {
    /// They can't be read at all, or there was no memory.
    Read(CborReadError),
    /// The array or map whose head is at byte `at` is nested more deeply than allowed.
    TooDeep { at: u64 },
    /// The item or chunk whose head is at byte `at` is one more than allowed.
    TooMany { at: u64 },
}

impl fmt::Display for CborLimitedError {
    ghost use Rattle.std.specs.Prelude.{Some};
    ghost use Rattle.sval_cbor_read.specs.LimitedCborTexts.{cbor_limited_text};

    ghost output = { λ error. Some (cbor_limited_text error) };

    fn fmt<W: fmt::Write>(&self, f: &mut fmt::Formatter<W>) -> fmt::Result {
        match *self {
            CborLimitedError::Read(error) => error.fmt(f),
            CborLimitedError::TooDeep { at } => write!(f, "nested too deeply at byte {at}"),
            CborLimitedError::TooMany { at } => write!(f, "too many items at byte {at}"),
        }
    }
}

impl Error for CborLimitedError {}

impl From<CborReadError> for CborLimitedError {
    ghost use Rattle.std.specs.Prelude.{◌≡◌};
    ghost use Rattle.sval_cbor_read.specs.declared.document.limited.CborLimitedError.TheVariants as limited;

    ghost from_gives = { λ cause error. error ≡ limited.Read cause };

    fn from(cause: CborReadError) -> CborLimitedError {
        CborLimitedError::Read(cause)
    }
}

impl From<NoMemory> for CborLimitedError {
    ghost use Rattle.std.specs.Prelude.{◌≡◌};
    ghost use Rattle.sval_cbor_read.specs.declared.document.CborReadError.TheVariants as reading;
    ghost use Rattle.sval_cbor_read.specs.declared.document.limited.CborLimitedError.TheVariants as limited;

    ghost from_gives = { λ _ error. error ≡ limited.Read reading.NoMemory };

    fn from(_cause: NoMemory) -> CborLimitedError {
        CborLimitedError::Read(CborReadError::NoMemory)
    }
}

impl<'a> CborDoc<'a> {
    /// Reads the bytes of one item whole, as [`CborDoc::read`] does, but stops at the first head that passes a limit.
    ///
    /// Each array or map that is open at once is a level. Each number, string, simple value, array and map is a node,
    /// and so is each chunk of a string of indefinite length. A tag is neither.
    ///
    /// ```
    /// let limits = Limits { depth: 1, nodes: 3 };
    /// assert_eq!(rt; CborDoc::read_with(alloc, b"\x82\x01\x02".as_slice(), limits)?.root().len(), Some(2));
    /// let deep = CborDoc::read_with(alloc, b"\x82\x01\x81\x02".as_slice(), limits);
    /// assert_eq!(rt; deep.err(), Some(CborLimitedError::TooDeep { at: 2 }));
    /// let many = CborDoc::read_with(alloc, b"\x83\x01\x02\x03".as_slice(), limits);
    /// assert_eq!(rt; many.err(), Some(CborLimitedError::TooMany { at: 3 }));
    /// ```
    ///
    /// # Errors
    ///
    /// [`CborLimitedError::Read`] holds an error of [`CborDoc::read`]. [`CborReadError::Malformed`] and
    /// [`CborReadError::Unsupported`] come only where no head before their place passes a limit. The limits don't bound
    /// the memory for telling these two apart. [`CborLimitedError::TooDeep`] and [`CborLimitedError::TooMany`] tell the
    /// first head that passes one. That of an array or a map may pass both: the error is `TooDeep`.
    pub fn read_with(
        alloc: Global,
        bytes: &'a [u8],
        limits: Limits,
    ) -> Result<Self, CborLimitedError>
        ensures ok { IfOk result (λ doc. IsReadItem bytes.now doc) }
        ensures within { IfOk result (λ doc. EndsWithin bytes.now limits []) }
        ensures err { IfErr result (IsLimitedCborError bytes.now limits) }
    {
        match limited_item(alloc, bytes, limits) {
            Ok((nodes, used)) => if used < bytes.len() {
                Err(CborLimitedError::Read(CborReadError::Malformed { at: used as u64 }))
            } else {
                Ok(CborDoc { bytes, nodes })
            },
            Err(error) => Err(error),
        }
    }
}

/// Reads the first item of the bytes, as [`read_item`](super::read_item) does, and stops behind a head that passes a
/// limit. Its error is that of the whole bytes.
fn limited_item(
    alloc: Global,
    bytes: &[u8],
    limits: Limits,
) -> Result<(Vec<Node>, usize), CborLimitedError>
    ensures front { IfOk result (λ read. IsReadFront bytes.now (streamed_items bytes.now read.0.items) read.1) }
    ensures ended { IfOk result
        (λ read. Reached bytes.now (Ended []) (drop read.1 bytes.now) (streamed_items bytes.now read.0.items)) }
    ensures kept { IfOk result (λ read. AreOfItem bytes.now read.0.items) }
    ensures within { IfOk result (λ read. EndsWithin bytes.now limits (drop read.1 bytes.now)) }
    ensures err { IfErr result (IsLimitedCborError bytes.now limits) }
{
    let mut reader = Reader::new(alloc);
    let mut begun: usize = 0;
    while !reader.has_ended() {
        let at = reader.at;
        let kept = reader.nodes.len();
        match reader.step(bytes) {
            Ok(true) => begun = count_begun(&reader, kept, at, begun, limits)?,
            Ok(false) => {
                let why = Unread::At(reader.at);
                return Err(CborLimitedError::Read(whole_error(alloc, bytes, why)));
            },
            Err(cause) => return Err(CborLimitedError::from(cause)),
        }
    }
    let used = reader.at;
    Ok((reader.nodes, used))
}

/// Counts what the last step began, at this place: how many nodes have begun behind it. `kept` is the number of nodes
/// that were kept before it.
fn count_begun(
    reader: &Reader,
    kept: usize,
    at: usize,
    begun: usize,
    limits: Limits,
) -> Result<usize, CborLimitedError>
    ensures ok { IfOk result (CountsBegun
        (is_begun_behind kept reader.now.nodes.items) (length reader.now.opened) begun limits) }
    ensures err { IfErr result (CborPasses
        (is_begun_behind kept reader.now.nodes.items) (length reader.now.opened) begun limits at) }
{
    if reader.opened.is_deeper_than(limits.depth) {
        return Err(CborLimitedError::TooDeep { at: at as u64 });
    }
    if !reader.has_begun(kept) {
        return Ok(begun);
    }
    if begun >= limits.nodes {
        return Err(CborLimitedError::TooMany { at: at as u64 });
    }
    Ok(begun + 1)
}
