//! Bytes that come in fragments.

ghost use Rattle.std.specs.Prelude.{◌≡◌, true, false, [], IsOk, OnOk, OnErr, IfOk, IfErr, ◌++◌, is_ok, if◌then◌else◌};
ghost use Rattle.std.specs.Bool.{OnTrue};
ghost use Rattle.std.specs.Str.{IsUtf8};
ghost use Rattle.sval.specs.Rendered.{PrintsSome};
ghost use Rattle.sval.specs.Shown.{SomePrinted};
ghost use Rattle.sval.specs.declared.render.RenderError.TheVariants.{NoMemory};
ghost use Rattle.sval_buffer.specs.Pushes.{BorrowsNothing, pushed};
ghost use Rattle.sval_buffer.specs.Forest.{no_bytes};
ghost use Rattle.sval_buffer.specs.Displays.{IsRenderCause};
ghost use Rattle.sval_buffer.specs.SeenParts.{fragment_bytes};

use std::alloc::{AllocError, Global};
use std::marker::Model;
use std::mem;
use sval::{Render, RenderError};
use sval_core::Fragment;

/// Where the bytes lie.
#[derive(Drop)]
enum Held<'sval> {
    Borrowed(&'sval [u8]),
    Owned(Vec<u8>),
}

/// Bytes that come in fragments: those of a [`TextBuf`](crate::TextBuf) or a [`BinaryBuf`](crate::BinaryBuf).
#[derive(Drop)]
pub(crate) struct FragmentBuf<'sval> {
    held: Held<'sval>,
    alloc: Global,
}

impl<'sval> Model for FragmentBuf<'sval> {
    ghost use Rattle.sval_buffer.specs.Pushes.{HeldBytes};

    ghost Value = { HeldBytes };

    ghost use Rattle.sval_buffer.specs.SeenFragments.{held_bytes};

    ghost view = { λ fragments. held_bytes fragments.held };
}

impl<'sval> FragmentBuf<'sval> {
    /// No bytes, which take no memory yet. They count as borrowed.
    pub(crate) fn new(alloc: Global) -> Self
        ensures { result ≡ no_bytes }
    {
        FragmentBuf {
            held: Held::Borrowed(&[]),
            alloc,
        }
    }

    /// One borrowed fragment. It takes no memory.
    pub(crate) fn from_slice(alloc: Global, bytes: &'sval [u8]) -> Self
        ensures { result ≡ record { borrowed = true; bytes = bytes.now } }
    {
        FragmentBuf {
            held: Held::Borrowed(bytes),
            alloc,
        }
    }

    /// A copy of the bytes, borrowed exactly where these are. Borrowed ones take no memory, and neither do no bytes.
    pub(crate) fn try_clone(&self) -> Result<Self, AllocError>
        ensures same { IfOk result (λ fragments. fragments ≡ self.now) }
        ensures borrowed_needs_none { OnTrue self.now.borrowed (IsOk result) }
        ensures empty_needs_none { self.now.bytes ≡ [] → IsOk result }
    {
        let held = match &self.held {
            Held::Borrowed(bytes) => Held::Borrowed(*bytes),
            Held::Owned(bytes) => Held::Owned(copied(self.alloc, bytes.as_slice())?),
        };
        Ok(FragmentBuf {
            held,
            alloc: self.alloc,
        })
    }

    /// Forgets all fragments.
    pub(crate) fn clear(&mut self)
        ensures { self.new ≡ no_bytes }
    {
        self.held = Held::Borrowed(&[]);
    }

    /// Appends a fragment, which is kept by reference where there are no bytes yet. Want of memory changes nothing.
    pub(crate) fn push(&mut self, fragment: &'sval [u8]) -> Result<(), AllocError>
        ensures pushes { let after = pushed self.old (record { borrowed = true; bytes = fragment.now }) in
            self.new ≡ (if is_ok result then after else self.old) }
        ensures first { self.old.bytes ≡ [] → IsOk result }
    {
        if self.as_slice().is_empty() {
            self.held = Held::Borrowed(fragment);
            return Ok(());
        }
        self.push_computed(fragment)
    }

    /// Appends a copy of a fragment to a copy of the bytes, or to the bytes where they are one. Want of memory changes
    /// nothing.
    pub(crate) fn push_computed(&mut self, fragment: &[u8]) -> Result<(), AllocError>
        ensures pushes { let after = pushed self.old (record { borrowed = false; bytes = fragment.now }) in
            self.new ≡ (if is_ok result then after else self.old) }
        ensures nothing_needs_none { fragment.now ≡ [] → BorrowsNothing self.old → IsOk result }
    {
        match &mut self.held {
            Held::Owned(bytes) => extended(bytes, fragment),
            Held::Borrowed(bytes) => match joined(self.alloc, bytes, fragment) {
                Ok(copy) => {
                    self.held = Held::Owned(copy);
                    Ok(())
                }
                Err(error) => Err(error),
            },
        }
    }

    /// Appends what a value prints to a copy of the bytes, or to the bytes where they are one. They are a text. An
    /// error changes nothing.
    pub(crate) fn push_display<D: Render>(&mut self, value: &D) -> Result<(), RenderError>
        requires { IsUtf8 self.old.bytes }
        ensures ok { OnOk result (SomePrinted (D.printed value.now) (λ text.
            self.new ≡ pushed self.old (record { borrowed = false; bytes = text }))) }
        ensures err { IfErr result (IsRenderCause (D.unprintable value.now)) }
        ensures no_memory { IfErr result (λ error. error ≡ NoMemory
            → BorrowsNothing self.old → PrintsSome (D.printed value.now)) }
        ensures keeps { OnErr result (self.new ≡ self.old) }
        ensures utf8 { IsUtf8 self.new.bytes }
    {
        match &mut self.held {
            Held::Owned(bytes) => append_display(bytes, value),
            Held::Borrowed(bytes) => match with_display(self.alloc, bytes, value) {
                Ok(text) => {
                    self.held = Held::Owned(text);
                    Ok(())
                }
                Err(error) => Err(error),
            },
        }
    }

    /// The bytes in one fragment, which is borrowed where they are.
    pub(crate) fn fragment(&self) -> Fragment<&'sval [u8], &[u8]>
        ensures { fragment_bytes result ≡ self.now }
    {
        match &self.held {
            Held::Borrowed(bytes) => Fragment::Borrowed(bytes),
            Held::Owned(bytes) => Fragment::Computed(bytes.as_slice()),
        }
    }

    /// The bytes.
    pub(crate) fn as_slice(&self) -> &[u8]
        ensures { result.now ≡ self.now.bytes }
    {
        match &self.held {
            Held::Borrowed(bytes) => bytes,
            Held::Owned(bytes) => bytes.as_slice(),
        }
    }
}

/// A copy of a binary. An empty one takes no memory.
fn copied(alloc: Global, bytes: &[u8]) -> Result<Vec<u8>, AllocError>
    ensures copy { IfOk result (λ copy. copy.items ≡ bytes.now) }
    ensures empty_needs_none { bytes.now ≡ [] → IsOk result }
{
    if bytes.is_empty() {
        return Ok(Vec::new(alloc));
    }
    Vec::from_slice(alloc, bytes)
}

/// Appends a fragment. An empty one takes no memory.
fn extended(bytes: &mut Vec<u8>, fragment: &[u8]) -> Result<(), AllocError>
    ensures appends { bytes.new.items ≡ (if is_ok result then bytes.old.items ++ fragment.now else bytes.old.items) }
    ensures empty_needs_none { fragment.now ≡ [] → IsOk result }
{
    if fragment.is_empty() {
        return Ok(());
    }
    bytes.extend_from_slice(fragment)
}

/// A copy of two binaries, one after the other. Empty ones take no memory.
fn joined(alloc: Global, first: &[u8], second: &[u8]) -> Result<Vec<u8>, AllocError>
    ensures joined { IfOk result (λ bytes. bytes.items ≡ first.now ++ second.now) }
    ensures empty_needs_none { first.now ≡ [] → second.now ≡ [] → IsOk result }
{
    if first.is_empty() && second.is_empty() {
        return Ok(Vec::new(alloc));
    }
    let mut bytes = Vec::with_capacity(alloc, first.len().saturating_add(second.len()))?;
    bytes.extend_from_slice(first)?;
    bytes.extend_from_slice(second)?;
    Ok(bytes)
}

/// A copy of a text, with what a value prints behind it.
fn with_display<D: Render>(alloc: Global, text: &[u8], value: &D) -> Result<Vec<u8>, RenderError>
    requires { IsUtf8 text.now }
    ensures ok { IfOk result (λ bytes. SomePrinted (D.printed value.now) (λ printed.
        bytes.items ≡ text.now ++ printed)) }
    ensures err { IfErr result (IsRenderCause (D.unprintable value.now)) }
    ensures no_memory { IfErr result (λ error. error ≡ NoMemory
        → text.now ≡ [] → PrintsSome (D.printed value.now)) }
    ensures utf8 { IfOk result (λ bytes. IsUtf8 bytes.items) }
{
    let mut bytes = copied(alloc, text)?;
    append_display(&mut bytes, value)?;
    Ok(bytes)
}

/// Appends what a value prints to a text, which isn't copied. An error changes nothing.
fn append_display<D: Render>(bytes: &mut Vec<u8>, value: &D) -> Result<(), RenderError>
    requires { IsUtf8 bytes.old.items }
    ensures ok { OnOk result (SomePrinted (D.printed value.now) (λ printed.
        bytes.new.items ≡ bytes.old.items ++ printed)) }
    ensures err { IfErr result (IsRenderCause (D.unprintable value.now)) }
    ensures no_memory { IfErr result (λ error. error ≡ NoMemory → PrintsSome (D.printed value.now)) }
    ensures keeps { OnErr result (bytes.new.items ≡ bytes.old.items) }
    ensures utf8 { IsUtf8 bytes.new.items }
{
    let len = bytes.len();
    let nothing = Vec::new(*bytes.allocator());
    // SAFETY: they are a text.
    let mut text = unsafe { String::from_utf8_unchecked(mem::replace(bytes, nothing)) };
    match value.render(&mut text) {
        Ok(()) => {
            *bytes = text.into_bytes();
            Ok(())
        }
        Err(error) => {
            *bytes = text.into_bytes();
            bytes.truncate(len);
            Err(error)
        }
    }
}
