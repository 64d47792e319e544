//! Texts that come in fragments.

ghost use Rattle.std.specs.Prelude.{◌≡◌, Bool, true, false, [], Some, None, IsOk, OnOk, OnErr, IfOk, IfErr, option_map, is_ok, if◌then◌else◌};
ghost use Rattle.std.specs.Bool.{OnTrue};
ghost use Rattle.sval.specs.Rendered.{PrintsSome};
ghost use Rattle.sval.specs.Shown.{SomePrinted};
ghost use Rattle.sval.specs.declared.render.RenderError.TheVariants as render;
ghost use Rattle.sval_buffer.specs.Displays.{IsRenderCause, IsDisplayCause};
ghost use Rattle.sval_buffer.specs.Pushes.{BorrowsNothing, pushed};
ghost use Rattle.std.specs.Str.{IsUtf8};
ghost use Rattle.sval_buffer.specs.Forest.{no_bytes, held_text_calls};
ghost use Rattle.sval_buffer.specs.Capture.{IsNoAlloc};
ghost use Rattle.sval_core.specs.Law.{Emits};
ghost use Rattle.sval_core.specs.Values.{makes};

use crate::error::{Error, ErrorKind, Word, no_alloc};
use crate::fragment_buf::FragmentBuf;
use std::alloc::Global;
use std::fmt;
use std::marker::Model;
use sval::{Render, RenderError};
use sval_core::{Fragment, Lending, Lent, NoMemory, Result, Stream, Value};
use sval_ref::ValueRef;

/// A text that comes in fragments.
///
/// Where its last fragment is borrowed and those before it are empty, the text is kept by reference. Else it is copied.
/// What a value prints is a fragment too, which is printed straight into the text.
///
/// ```
/// let mut text = TextBuf::new(alloc);
/// text.push_fragment("a text")?;
/// assert_eq!(rt; text.as_borrowed_str(), Some("a text"));
/// text.push_fragment_computed(" and more")?;
/// assert_eq!(rt; text.as_str(), "a text and more");
/// ```
#[derive(Drop)]
pub struct TextBuf<'sval> {
    fragments: FragmentBuf<'sval>,
}

impl<'sval> Model for TextBuf<'sval> {
    ghost use Rattle.sval_buffer.specs.Pushes.{HeldBytes};

    ghost Value = { HeldBytes };

    ghost use Rattle.std.specs.Str.{IsUtf8};

    ghost view = { λ text. text.fragments };

    ghost invariant = { λ text. IsUtf8 text.fragments.bytes };
}

impl<'sval> TextBuf<'sval> {
    /// An empty text, which takes no memory yet. It counts as borrowed.
    pub fn new(alloc: Global) -> Self
        ensures { result ≡ no_bytes }
    {
        TextBuf {
            fragments: FragmentBuf::new(alloc),
        }
    }

    /// A text that is borrowed. It takes no memory.
    ///
    /// ```
    /// let text = TextBuf::from_text(alloc, "a text");
    /// assert_eq!(rt; text.as_borrowed_str(), Some("a text"));
    /// ```
    pub fn from_text(alloc: Global, text: &'sval str) -> Self
        ensures { result ≡ record { borrowed = true; bytes = text.now } }
    {
        TextBuf {
            fragments: FragmentBuf::from_slice(alloc, text.as_bytes()),
        }
    }

    /// What a value prints, owned: it counts as computed also where it is empty.
    ///
    /// [`ErrorKind::InvalidValue`] with [`Word::FormattingFailed`] comes only for a value that can't be printed, and
    /// [`ErrorKind::NoAlloc`] where memory was wanting, and only for a value that prints something.
    ///
    /// ```
    /// let text = TextBuf::collect_display(alloc, &true)?;
    /// assert_eq!(rt; text.as_str(), "true");
    /// ```
    pub fn collect_display<D: Render>(alloc: Global, value: &D) -> std::result::Result<Self, Error>
        ensures ok { IfOk result (λ text. SomePrinted (D.printed value.now) (λ printed.
            text ≡ record { borrowed = false; bytes = printed })) }
        ensures err { IfErr result (IsDisplayCause (D.unprintable value.now)) }
        ensures no_alloc { IfErr result (λ error. IsNoAlloc error → PrintsSome (D.printed value.now)) }
    {
        let mut text = TextBuf::new(alloc);
        text.push_display(value)?;
        Ok(text)
    }

    /// A copy of this text, borrowed exactly where this one is.
    ///
    /// [`ErrorKind::NoAlloc`] comes where memory was wanting, and never where this text is borrowed or empty.
    ///
    /// ```
    /// let again = text.try_clone()?;
    /// assert!(rt; again == text);
    /// ```
    pub fn try_clone(&self) -> std::result::Result<Self, Error>
        ensures same { IfOk result (λ text. text ≡ self.now) }
        ensures err { IfErr result (λ error. IsNoAlloc error) }
        ensures borrowed_needs_none { OnTrue self.now.borrowed (IsOk result) }
        ensures empty_needs_none { self.now.bytes ≡ [] → IsOk result }
    {
        match self.fragments.try_clone() {
            Ok(fragments) => Ok(TextBuf { fragments }),
            Err(cause) => Err(Error::new(no_alloc(NoMemory::from(cause), Word::Text))),
        }
    }

    /// Forgets all fragments.
    pub fn clear(&mut self)
        ensures { self.new ≡ no_bytes }
    {
        self.fragments.clear();
    }

    /// Appends a fragment, which is kept by reference where the text is empty.
    ///
    /// [`ErrorKind::NoAlloc`] comes where memory was wanting, and then the text stays as it was.
    pub fn push_fragment(&mut self, fragment: &'sval str) -> std::result::Result<(), Error>
        ensures ok { OnOk result (self.new ≡ pushed self.old (record { borrowed = true; bytes = fragment.now })) }
        ensures err { IfErr result (λ error. IsNoAlloc error × (self.new ≡ self.old)) }
        ensures first { self.old.bytes ≡ [] → IsOk result }
    {
        match self.push(fragment) {
            Ok(()) => Ok(()),
            Err(cause) => Err(Error::new(no_alloc(cause, Word::Text))),
        }
    }

    /// Appends a copy of a fragment.
    ///
    /// [`ErrorKind::NoAlloc`] comes where memory was wanting, and then the text stays as it was. It comes only where
    /// the fragment isn't empty, or where bytes are copied that were borrowed.
    pub fn push_fragment_computed(&mut self, fragment: &str) -> std::result::Result<(), Error>
        ensures ok { OnOk result (self.new ≡ pushed self.old (record { borrowed = false; bytes = fragment.now })) }
        ensures err { IfErr result (λ error. IsNoAlloc error × (self.new ≡ self.old)) }
        ensures nothing_needs_none { fragment.now ≡ [] → BorrowsNothing self.old → IsOk result }
    {
        match self.push_computed(fragment) {
            Ok(()) => Ok(()),
            Err(cause) => Err(Error::new(no_alloc(cause, Word::Text))),
        }
    }

    /// Appends a fragment, which is kept by reference where the text is empty. Want of memory changes nothing.
    pub(crate) fn push(&mut self, fragment: &'sval str) -> std::result::Result<(), NoMemory>
        ensures pushes { let after = pushed self.old (record { borrowed = true; bytes = fragment.now }) in
            self.new ≡ (if is_ok result then after else self.old) }
        ensures first { self.old.bytes ≡ [] → IsOk result }
    {
        self.fragments.push(fragment.as_bytes())?;
        Ok(())
    }

    /// Appends a copy of a fragment. Want of memory changes nothing.
    pub(crate) fn push_computed(&mut self, fragment: &str) -> std::result::Result<(), NoMemory>
        ensures pushes { let after = pushed self.old (record { borrowed = false; bytes = fragment.now }) in
            self.new ≡ (if is_ok result then after else self.old) }
        ensures nothing_needs_none { fragment.now ≡ [] → BorrowsNothing self.old → IsOk result }
    {
        self.fragments.push_computed(fragment.as_bytes())?;
        Ok(())
    }

    /// Appends a copy of a text, as [`TextBuf::push_fragment_computed`] does, for callers that write a text piece by
    /// piece.
    ///
    /// [`ErrorKind::NoAlloc`] comes where memory was wanting, and then the text stays as it was.
    pub fn write_str(&mut self, text: &str) -> std::result::Result<(), Error>
        ensures ok { OnOk result (self.new ≡ pushed self.old (record { borrowed = false; bytes = text.now })) }
        ensures err { IfErr result (λ error. IsNoAlloc error × (self.new ≡ self.old)) }
    {
        self.push_fragment_computed(text)
    }

    /// Appends what a value prints. It is printed straight into the text, which is copied first where it is borrowed.
    ///
    /// [`ErrorKind::InvalidValue`] with [`Word::FormattingFailed`] comes only for a value that can't be printed, and
    /// [`ErrorKind::NoAlloc`] where memory was wanting. After both the text is as it was. Memory is taken only where
    /// the value prints something, or where bytes are copied that were borrowed.
    ///
    /// ```
    /// let mut text = TextBuf::from_text(alloc, "n = ");
    /// text.push_display(&42u8)?;
    /// assert_eq!(rt; text.as_str(), "n = 42");
    /// ```
    pub fn push_display<D: Render>(&mut self, value: &D) -> std::result::Result<(), Error>
        ensures ok { OnOk result (SomePrinted (D.printed value.now) (λ printed.
            self.new ≡ pushed self.old (record { borrowed = false; bytes = printed }))) }
        ensures err { IfErr result (IsDisplayCause (D.unprintable value.now)) }
        ensures no_alloc { IfErr result (λ error. IsNoAlloc error
            → BorrowsNothing self.old → PrintsSome (D.printed value.now)) }
        ensures keeps { OnErr result (self.new ≡ self.old) }
    {
        match self.fragments.push_display(value) {
            Ok(()) => Ok(()),
            Err(error) => Err(not_displayed(error)),
        }
    }

    /// The text, where it is borrowed.
    pub fn as_borrowed_str(&self) -> Option<&'sval str>
        ensures { option_map (λ text. text.now) result ≡ (if self.now.borrowed then Some self.now.bytes else None) }
    {
        match self.fragments.fragment() {
            Fragment::Borrowed(bytes) => Some(text(bytes)),
            Fragment::Computed(_) => None,
        }
    }

    /// The text.
    pub fn as_str(&self) -> &str
        ensures { result.now ≡ self.now.bytes }
    {
        text(self.fragments.as_slice())
    }
}

/// Makes the calls of a text in one computed fragment.
pub(crate) fn stream_computed_text<L: Lending, S: Stream<L>>(text: &str, stream: &mut S) -> Result
    ensures { Emits S.law result (S.standing stream.old)
        (makes (held_text_calls (record { borrowed = false; bytes = text.now }))) (S.standing stream.new) }
{
    stream.text_begin(Some(text.len()))?;
    stream.text_fragment_computed(text)?;
    stream.text_end()
}

/// Makes the calls of a text that is lent for longer.
pub(crate) fn stream_borrowed_text<'sval, S: Stream<Lent<'sval>>>(
    text: &'sval str,
    stream: &mut S,
) -> Result
    ensures { Emits S.law result (S.standing stream.old)
        (makes (held_text_calls (record { borrowed = true; bytes = text.now }))) (S.standing stream.new) }
{
    stream.whole_text(text, Some(text.len()))
}

impl<'v, 'sval> Value<'v, Lent<'v>> for TextBuf<'sval> {
    ghost emission = { λ text. makes (held_text_calls (record { borrowed = true; bytes = text.bytes })) };

    fn stream<S: Stream<Lent<'v>>>(&'v self, stream: &mut S) -> Result {
        let text = self.as_str();
        stream.whole_text(text, Some(text.len()))
    }
}

impl<'sval> ValueRef<Lent<'sval>> for TextBuf<'sval> {
    ghost ref_emission = { λ text. makes (held_text_calls text) };

    fn stream_ref<S: Stream<Lent<'sval>>>(&self, stream: &mut S) -> Result {
        match self.fragments.fragment() {
            Fragment::Borrowed(bytes) => stream_borrowed_text(text(bytes), stream),
            Fragment::Computed(bytes) => stream_computed_text(text(bytes), stream),
        }
    }
}

/// Two texts are equal exactly if their bytes are, whether they are borrowed or not.
impl<'sval> PartialEq for TextBuf<'sval> {
    ghost use Rattle.std.proofs.lemmas.Cmp.{nat_list_eq_equiv, on_equiv};
    ghost use Rattle.std.specs.Cmp.{partial_equiv_from_equiv};
    ghost use Rattle.sval_buffer.specs.Pushes.{same_bytes};

    ghost eq = { same_bytes };

    ghost laws = { partial_equiv_from_equiv (on_equiv (λ text. text.bytes) nat_list_eq_equiv) };

    fn eq(&self, other: &TextBuf<'sval>) -> bool {
        self.as_str() == other.as_str()
    }
}

impl<'sval> Eq for TextBuf<'sval> {
    ghost use Rattle.std.proofs.lemmas.Cmp.{nat_list_eq_equiv, on_equiv};

    ghost laws = { on_equiv (λ text. text.bytes) nat_list_eq_equiv };
}

impl<'sval> fmt::Debug for TextBuf<'sval> {
    fn fmt<W: fmt::Write>(&self, f: &mut fmt::Formatter<W>) -> fmt::Result {
        fmt::Debug::fmt(&self.as_str(), f)
    }
}

/// The text that bytes are.
pub(crate) fn text(bytes: &[u8]) -> &str
    requires { IsUtf8 bytes.now }
    ensures { result.now ≡ bytes.now }
{
    // SAFETY: they are joined texts.
    unsafe { std::str::from_utf8_unchecked(bytes) }
}

/// The error of a value that wasn't printed.
fn not_displayed(error: RenderError) -> Error
    ensures cause { (unprintable : Bool) → IsRenderCause unprintable error → IsDisplayCause unprintable result }
    ensures no_alloc { IsNoAlloc result → error ≡ render.NoMemory }
{
    Error::new(match error {
        RenderError::Format => ErrorKind::InvalidValue {
            reason: Word::FormattingFailed,
        },
        RenderError::NoMemory => ErrorKind::NoAlloc { method: Word::Text },
    })
}
