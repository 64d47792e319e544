//! Printed texts as values.

ghost use Rattle.std.specs.Prelude.{◌≡◌, ◌≢◌, IfOk, IfErr};
ghost use Rattle.std.specs.String.{string_bytes};
ghost use Rattle.sval_label.specs.SeenTags.{seen_ref_tag};
ghost use Rattle.sval_core.specs.Names.{number_tag};
ghost use Rattle.sval.specs.Seen.{shown_value, shown_text};
ghost use Rattle.sval_core.specs.Law.{Emits};
ghost use Rattle.sval_core.specs.Values.{makes};
ghost use Rattle.sval.specs.Shown.{IsPrinted, CantRender, Shows, of_stream, fragment_calls, shown_calls, number_text_calls};

use crate::render::{Render, RenderError};
use std::alloc::Global;
use std::error::Error;
use std::fmt;
use sval_core::{Lending, Lent, Stream, Tag, Value, tags};

/// Why a printed value wasn't streamed.
#[derive(Clone, Copy, Debug, PartialEq, Eq)]
pub enum DisplayError {
    /// The value can't be printed.
    Format,
    /// The stream refused a call.
    Refused,
    /// Memory was wanting.
    NoMemory,
}

impl fmt::Display for DisplayError {
    ghost use Rattle.std.specs.Prelude.{Some};
    ghost use Rattle.sval.specs.ErrorTexts.{display_error_text};

    ghost output = { λ error. Some (display_error_text error) };

    fn fmt<W: fmt::Write>(&self, f: &mut fmt::Formatter<W>) -> fmt::Result {
        f.write_str(match self {
            DisplayError::Format => "the value cannot be printed",
            DisplayError::Refused => "the stream refused a call",
            DisplayError::NoMemory => "cannot allocate for a text",
        })
    }
}

impl Error for DisplayError {}

/// A value that is shown by the text that it prints: a text whose size isn't given, in one computed fragment.
///
/// It is printed once, when this is made.
///
/// ```
/// let shown = Display::new(alloc, 42u8)?;
/// assert_eq!(rt; *shown.inner(), 42);
/// ```
#[derive(Debug, Drop)]
pub struct Display<V> {
    value: V,
    text: String,
}

/// The text that a value prints.
fn rendered<V: Render>(alloc: Global, value: &V) -> Result<String, DisplayError>
    ensures ok { IfOk result (λ text. IsPrinted (V.printed value.now) (string_bytes text)) }
    ensures err { IfErr result (CantRender (V.printed value.now) (V.unprintable value.now)) }
{
    let mut text = String::new(alloc);
    match value.render(&mut text) {
        Ok(()) => Ok(text),
        Err(RenderError::Format) => Err(DisplayError::Format),
        Err(RenderError::NoMemory) => Err(DisplayError::NoMemory),
    }
}

impl<V: Render + Drop> Display<V> {
    /// Prints this value.
    ///
    /// # Errors
    ///
    /// [`DisplayError::Format`] only for a value that can't be printed, and [`DisplayError::NoMemory`] only for one that
    /// prints something. The value is dropped then.
    pub fn new(alloc: Global, value: V) -> Result<Display<V>, DisplayError>
        ensures text { IfOk result (λ shown. IsPrinted (V.printed value) (shown_text shown)) }
        ensures value { IfOk result (λ shown. shown_value shown ≡ value) }
        ensures err { IfErr result (CantRender (V.printed value) (V.unprintable value)) }
    {
        let text = rendered(alloc, &value)?;
        Ok(Display { value, text })
    }

    /// The value.
    pub fn inner(&self) -> &V
        ensures { result.now ≡ shown_value self.now }
    {
        &self.value
    }

    /// The value. Its text is let go.
    pub fn into_inner(self) -> V
        ensures { result ≡ shown_value self }
    {
        self.value
    }
}

impl<'a, V: Render> Display<&'a V> {
    /// Prints a value that stays where it is.
    ///
    /// # Errors
    ///
    /// Those of [`Display::new`].
    pub fn new_borrowed(alloc: Global, value: &'a V) -> Result<Display<&'a V>, DisplayError>
        ensures text { IfOk result (λ shown. IsPrinted (V.printed value.now) (shown_text shown)) }
        ensures value { IfOk result (λ shown. (shown_value shown).now ≡ value.now) }
        ensures err { IfErr result (CantRender (V.printed value.now) (V.unprintable value.now)) }
    {
        Display::new(alloc, value)
    }
}

impl<'v, V> Value<'v, Lent<'v>> for Display<V> {
    ghost use Rattle.sval.specs.Emissions.{display_emission};

    ghost emission = { display_emission };

    fn stream<S: Stream<Lent<'v>>>(&'v self, stream: &mut S) -> sval_core::Result {
        stream.text_begin(None)?;
        stream.text_fragment_computed(self.text.as_str())?;
        stream.text_end()
    }
}

/// The answer of a stream, as one of what streams a printed text.
fn streamed(answer: sval_core::Result) -> Result<(), DisplayError>
    ensures { result ≡ of_stream answer }
{
    match answer {
        Ok(()) => Ok(()),
        Err(_) => Err(DisplayError::Refused),
    }
}

/// Streams a text whose size isn't given.
fn stream_text<L: Lending, S: Stream<L>>(stream: &mut S, text: &str) -> sval_core::Result
    ensures { Emits S.law result (S.standing stream.old) (makes (shown_calls text.now)) (S.standing stream.new) }
{
    stream.text_begin(None)?;
    stream.text_fragment_computed(text)?;
    stream.text_end()
}

/// The tag of a number in a text.
fn number() -> &'static Tag
    ensures { seen_ref_tag result ≡ number_tag }
{
    &tags::NUMBER
}

/// Streams a text that is a number.
fn stream_number_text<L: Lending, S: Stream<L>>(stream: &mut S, text: &str) -> sval_core::Result
    ensures { Emits S.law result (S.standing stream.old) (makes (number_text_calls text.now)) (S.standing stream.new) }
{
    stream.tagged_begin(Some(number()), None, None)?;
    stream_text(stream, text)?;
    stream.tagged_end(Some(number()), None, None)
}

/// Prints a value, and makes the calls of [`Display`] with its text.
///
/// # Errors
///
/// [`DisplayError::Format`] only for a value that can't be printed; [`DisplayError::NoMemory`] only for one that prints
/// something; after both the stream is as it was. [`DisplayError::Refused`] only where the stream refused one of the
/// calls, and then it has taken those before that one.
///
/// ```
/// stream_display(alloc, &mut stream, &42u8)?; // text_begin(None), text_fragment_computed("42"), text_end
/// ```
pub fn stream_display<L: Lending, S: Stream<L>, V: Render>(
    alloc: Global,
    stream: &mut S,
    value: &V,
) -> Result<(), DisplayError>
    ensures shows { Shows (V.printed value.now) (V.unprintable value.now) shown_calls
        S.law result (S.standing stream.old) (S.standing stream.new) }
    ensures stays { IfErr result (λ error. error ≢ DisplayError.Refused → stream.new ≡ stream.old) }
{
    let text = rendered(alloc, value)?;
    streamed(stream_text(stream, text.as_str()))
}

/// Prints a value, and makes its text as one computed fragment, for a text that was begun.
///
/// # Errors
///
/// Those of [`stream_display`].
pub fn stream_display_fragments<L: Lending, S: Stream<L>, V: Render>(
    alloc: Global,
    stream: &mut S,
    value: &V,
) -> Result<(), DisplayError>
    ensures shows { Shows (V.printed value.now) (V.unprintable value.now) fragment_calls
        S.law result (S.standing stream.old) (S.standing stream.new) }
    ensures stays { IfErr result (λ error. error ≢ DisplayError.Refused → stream.new ≡ stream.old) }
{
    let text = rendered(alloc, value)?;
    streamed(stream.text_fragment_computed(text.as_str()))
}

/// Prints a value, and makes the calls of [`Display`] with its text under the tag of numbers.
///
/// Nothing looks whether the text is a number.
///
/// # Errors
///
/// Those of [`stream_display`].
pub fn stream_number<L: Lending, S: Stream<L>, V: Render>(
    alloc: Global,
    stream: &mut S,
    value: &V,
) -> Result<(), DisplayError>
    ensures shows { Shows (V.printed value.now) (V.unprintable value.now) number_text_calls
        S.law result (S.standing stream.old) (S.standing stream.new) }
    ensures stays { IfErr result (λ error. error ≢ DisplayError.Refused → stream.new ≡ stream.old) }
{
    let text = rendered(alloc, value)?;
    streamed(stream_number_text(stream, text.as_str()))
}
