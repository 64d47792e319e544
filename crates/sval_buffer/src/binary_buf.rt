//! Binaries that come in fragments.

ghost use Rattle.std.specs.Prelude.{◌≡◌, true, false, [], Some, None, IsOk, OnOk, IfOk, IfErr, option_map, is_ok, if◌then◌else◌};
ghost use Rattle.std.specs.Bool.{OnTrue};
ghost use Rattle.sval_buffer.specs.Pushes.{BorrowsNothing, pushed};
ghost use Rattle.sval_buffer.specs.Forest.{no_bytes, held_binary_calls};
ghost use Rattle.sval_buffer.specs.Capture.{IsNoAlloc};
ghost use Rattle.sval_core.specs.Law.{Emits};
ghost use Rattle.sval_core.specs.Values.{makes};

use crate::error::{Error, ErrorKind, Word, no_alloc};
use crate::fragment_buf::FragmentBuf;
use std::alloc::Global;
use std::fmt;
use std::marker::Model;
use sval_core::{Fragment, Lending, Lent, NoMemory, Result, Stream, Value};
use sval_ref::ValueRef;

/// A binary that comes in fragments.
///
/// Where its last fragment is borrowed and those before it are empty, the binary is kept by reference. Else it is
/// copied.
///
/// ```
/// let mut binary = BinaryBuf::new(alloc);
/// binary.push_fragment(b"some")?;
/// assert_eq!(rt; binary.as_borrowed_slice(), Some(b"some".as_slice()));
/// binary.push_fragment_computed(b" bytes")?;
/// assert_eq!(rt; binary.as_slice(), b"some bytes".as_slice());
/// ```
#[derive(Drop)]
pub struct BinaryBuf<'sval> {
    fragments: FragmentBuf<'sval>,
}

impl<'sval> Model for BinaryBuf<'sval> {
    ghost use Rattle.sval_buffer.specs.Pushes.{HeldBytes};

    ghost Value = { HeldBytes };

    ghost view = { λ binary. binary.fragments };
}

impl<'sval> BinaryBuf<'sval> {
    /// An empty binary, which takes no memory yet. It counts as borrowed.
    pub fn new(alloc: Global) -> Self
        ensures { result ≡ no_bytes }
    {
        BinaryBuf {
            fragments: FragmentBuf::new(alloc),
        }
    }

    /// A binary that is borrowed. It takes no memory.
    ///
    /// ```
    /// let binary = BinaryBuf::from_bytes(alloc, bytes);
    /// assert_eq!(rt; binary.as_borrowed_slice(), Some(bytes));
    /// ```
    pub fn from_bytes(alloc: Global, bytes: &'sval [u8]) -> Self
        ensures { result ≡ record { borrowed = true; bytes = bytes.now } }
    {
        BinaryBuf {
            fragments: FragmentBuf::from_slice(alloc, bytes),
        }
    }

    /// The bytes of an array, borrowed. It takes no memory.
    pub fn from_array<const N: usize>(alloc: Global, bytes: &'sval [u8; N]) -> Self
        ensures { result ≡ record { borrowed = true; bytes = bytes.now } }
    {
        BinaryBuf::from_bytes(alloc, bytes)
    }

    /// A copy of this binary, borrowed exactly where this one is.
    ///
    /// [`ErrorKind::NoAlloc`] comes where memory was wanting, and never where these bytes are borrowed or empty.
    ///
    /// ```
    /// let again = binary.try_clone()?;
    /// assert!(rt; again == binary);
    /// ```
    pub fn try_clone(&self) -> std::result::Result<Self, Error>
        ensures same { IfOk result (λ binary. binary ≡ self.now) }
        ensures err { IfErr result (λ error. IsNoAlloc error) }
        ensures borrowed_needs_none { OnTrue self.now.borrowed (IsOk result) }
        ensures empty_needs_none { self.now.bytes ≡ [] → IsOk result }
    {
        match self.fragments.try_clone() {
            Ok(fragments) => Ok(BinaryBuf { fragments }),
            Err(cause) => Err(Error::new(no_alloc(NoMemory::from(cause), Word::Binary))),
        }
    }

    /// Forgets all fragments.
    pub fn clear(&mut self)
        ensures { self.new ≡ no_bytes }
    {
        self.fragments.clear();
    }

    /// Appends a fragment, which is kept by reference where the binary is empty.
    ///
    /// [`ErrorKind::NoAlloc`] comes where memory was wanting, and then the binary stays as it was.
    pub fn push_fragment(&mut self, fragment: &'sval [u8]) -> std::result::Result<(), Error>
        ensures ok { OnOk result (self.new ≡ pushed self.old (record { borrowed = true; bytes = fragment.now })) }
        ensures err { IfErr result (λ error. IsNoAlloc error × (self.new ≡ self.old)) }
        ensures first { self.old.bytes ≡ [] → IsOk result }
    {
        match self.push(fragment) {
            Ok(()) => Ok(()),
            Err(cause) => Err(Error::new(no_alloc(cause, Word::Binary))),
        }
    }

    /// Appends a copy of a fragment.
    ///
    /// [`ErrorKind::NoAlloc`] comes where memory was wanting, and then the binary stays as it was. It comes only where
    /// the fragment isn't empty, or where bytes are copied that were borrowed.
    pub fn push_fragment_computed(&mut self, fragment: &[u8]) -> std::result::Result<(), Error>
        ensures ok { OnOk result (self.new ≡ pushed self.old (record { borrowed = false; bytes = fragment.now })) }
        ensures err { IfErr result (λ error. IsNoAlloc error × (self.new ≡ self.old)) }
        ensures nothing_needs_none { fragment.now ≡ [] → BorrowsNothing self.old → IsOk result }
    {
        match self.push_computed(fragment) {
            Ok(()) => Ok(()),
            Err(cause) => Err(Error::new(no_alloc(cause, Word::Binary))),
        }
    }

    /// Appends a fragment, which is kept by reference where the binary is empty. Want of memory changes nothing.
    pub(crate) fn push(&mut self, fragment: &'sval [u8]) -> std::result::Result<(), NoMemory>
        ensures pushes { let after = pushed self.old (record { borrowed = true; bytes = fragment.now }) in
            self.new ≡ (if is_ok result then after else self.old) }
        ensures first { self.old.bytes ≡ [] → IsOk result }
    {
        self.fragments.push(fragment)?;
        Ok(())
    }

    /// Appends a copy of a fragment. Want of memory changes nothing.
    pub(crate) fn push_computed(&mut self, fragment: &[u8]) -> std::result::Result<(), NoMemory>
        ensures pushes { let after = pushed self.old (record { borrowed = false; bytes = fragment.now }) in
            self.new ≡ (if is_ok result then after else self.old) }
        ensures nothing_needs_none { fragment.now ≡ [] → BorrowsNothing self.old → IsOk result }
    {
        self.fragments.push_computed(fragment)?;
        Ok(())
    }

    /// The binary, where it is borrowed.
    pub fn as_borrowed_slice(&self) -> Option<&'sval [u8]>
        ensures { option_map (λ bytes. bytes.now) result
            ≡ (if self.now.borrowed then Some self.now.bytes else None) }
    {
        match self.fragments.fragment() {
            Fragment::Borrowed(bytes) => Some(bytes),
            Fragment::Computed(_) => None,
        }
    }

    /// The binary.
    pub fn as_slice(&self) -> &[u8]
        ensures { result.now ≡ self.now.bytes }
    {
        self.fragments.as_slice()
    }
}

/// Makes the calls of a binary that is lent for longer.
pub(crate) fn stream_borrowed_bytes<'sval, S: Stream<Lent<'sval>>>(
    bytes: &'sval [u8],
    stream: &mut S,
) -> Result
    ensures { Emits S.law result (S.standing stream.old)
        (makes (held_binary_calls (record { borrowed = true; bytes = bytes.now }))) (S.standing stream.new) }
{
    stream.binary_begin(Some(bytes.len()))?;
    stream.binary_fragment(bytes)?;
    stream.binary_end()
}

/// Makes the calls of a binary of one computed fragment.
pub(crate) fn stream_computed_bytes<L: Lending, S: Stream<L>>(
    bytes: &[u8],
    stream: &mut S,
) -> Result
    ensures { Emits S.law result (S.standing stream.old)
        (makes (held_binary_calls (record { borrowed = false; bytes = bytes.now }))) (S.standing stream.new) }
{
    stream.binary_begin(Some(bytes.len()))?;
    stream.binary_fragment_computed(bytes)?;
    stream.binary_end()
}

impl<'v, 'sval> Value<'v, Lent<'v>> for BinaryBuf<'sval> {
    ghost emission = { λ binary. makes (held_binary_calls (record { borrowed = true; bytes = binary.bytes })) };

    fn stream<S: Stream<Lent<'v>>>(&'v self, stream: &mut S) -> Result {
        let bytes = self.as_slice();
        stream.binary_begin(Some(bytes.len()))?;
        stream.binary_fragment(bytes)?;
        stream.binary_end()
    }
}

impl<'sval> ValueRef<Lent<'sval>> for BinaryBuf<'sval> {
    ghost ref_emission = { λ binary. makes (held_binary_calls binary) };

    fn stream_ref<S: Stream<Lent<'sval>>>(&self, stream: &mut S) -> Result {
        match self.fragments.fragment() {
            Fragment::Borrowed(bytes) => stream_borrowed_bytes(bytes, stream),
            Fragment::Computed(bytes) => stream_computed_bytes(bytes, stream),
        }
    }
}

/// Two binaries are equal exactly if their bytes are, whether they are borrowed or not.
impl<'sval> PartialEq for BinaryBuf<'sval> {
    ghost use Rattle.std.proofs.lemmas.Cmp.{nat_list_eq_equiv, on_equiv};
    ghost use Rattle.std.specs.Cmp.{partial_equiv_from_equiv};
    ghost use Rattle.sval_buffer.specs.Pushes.{same_bytes};

    ghost eq = { same_bytes };

    ghost laws = { partial_equiv_from_equiv (on_equiv (λ binary. binary.bytes) nat_list_eq_equiv) };

    fn eq(&self, other: &BinaryBuf<'sval>) -> bool {
        self.as_slice() == other.as_slice()
    }
}

impl<'sval> Eq for BinaryBuf<'sval> {
    ghost use Rattle.std.proofs.lemmas.Cmp.{nat_list_eq_equiv, on_equiv};

    ghost laws = { on_equiv (λ binary. binary.bytes) nat_list_eq_equiv };
}

impl<'sval> fmt::Debug for BinaryBuf<'sval> {
    fn fmt<W: fmt::Write>(&self, f: &mut fmt::Formatter<W>) -> fmt::Result {
        fmt::Debug::fmt(&self.as_slice(), f)
    }
}
