//! JSON in texts, as values.

ghost use Rattle.std.specs.Prelude.{◌≡◌};
ghost use Rattle.std.specs.Str.{bytes_eq};
ghost use Rattle.std.specs.String.{string_bytes};
ghost use Rattle.sval_label.specs.SeenTags.{seen_ref_tag};
ghost use Rattle.sval_json.specs.JsonTexts.{json_text, json_value_tag};

use crate::tags::JSON_VALUE;
use std::fmt;
use std::marker::Model;
use sval_core::{Lent, Result, Stream, Tag, Value};

/// A text that is the JSON of a value, as a value: the writer writes it as it is.
///
/// Nothing looks whether the text is JSON. Texts are equal, and hash alike, by their bytes.
///
/// ```
/// let mut sink = VecSink::new(alloc);
/// stream_to_io_write(&mut sink, &JsonStr::new("[1, 2]"))?;
/// assert_eq!(rt; sink.as_slice(), b"[1, 2]".as_slice());
/// ```
#[derive(Clone, Copy, Debug, PartialEq, Eq, Hash)]
pub struct JsonStr<'a> {
    json: &'a str,
}

impl<'a> JsonStr<'a> {
    /// The value whose JSON this text is.
    pub fn new(json: &'a str) -> Self
        ensures { json_text result ≡ json.now }
    {
        JsonStr { json }
    }

    /// The text.
    pub fn as_str(&self) -> &'a str
        ensures { result.now ≡ json_text self.now }
    {
        self.json
    }

    /// The bytes of the text.
    pub fn as_bytes(&self) -> &'a [u8]
        ensures { result.now ≡ json_text self.now }
    {
        self.json.as_bytes()
    }

    /// Whether it is this text.
    pub fn is_text(&self, other: &str) -> bool
        ensures { result ≡ bytes_eq (json_text self.now) other.now }
    {
        self.json == other
    }
}

impl<'a> From<&'a str> for JsonStr<'a> {
    ghost use Rattle.std.specs.Prelude.{◌≡◌};
    ghost use Rattle.sval_json.specs.JsonTexts.{json_text};

    ghost from_gives = { λ text json. json_text json ≡ text.now };

    fn from(json: &'a str) -> JsonStr<'a> {
        JsonStr::new(json)
    }
}

impl<'a> fmt::Display for JsonStr<'a> {
    ghost use Rattle.std.specs.Prelude.{Some};
    ghost use Rattle.sval_json.specs.JsonTexts.{json_text};

    ghost output = { λ json. Some (json_text json) };

    fn fmt<W: fmt::Write>(&self, f: &mut fmt::Formatter<W>) -> fmt::Result {
        f.write_str(self.json)
    }
}

/// The tag of a text that is the JSON of a value.
fn json_value() -> &'static Tag
    ensures { seen_ref_tag result ≡ json_value_tag }
{
    &JSON_VALUE
}

impl<'v, 'a> Value<'v, Lent<'v>> for JsonStr<'a> {
    ghost use Rattle.sval_core.specs.Values.{makes};
    ghost use Rattle.sval_json.specs.JsonTexts.{json_text, json_calls};

    ghost emission = { λ json. makes (json_calls (json_text json)) };

    fn stream<S: Stream<Lent<'v>>>(&'v self, stream: &mut S) -> Result {
        stream.tagged_begin(Some(json_value()), None, None)?;
        stream.text_begin(Some(self.json.len()))?;
        stream.text_fragment(self.json)?;
        stream.text_end()?;
        stream.tagged_end(Some(json_value()), None, None)
    }
}

/// A [`JsonStr`] that owns its text.
///
/// ```
/// let json = JsonString::boxed(String::from_str(alloc, "[1, 2]")?);
/// assert!(rt; json.as_json_str().is_text("[1, 2]"));
/// ```
#[derive(Debug, Drop)]
pub struct JsonString {
    json: String,
}

impl Model for JsonString {
    ghost use Rattle.std.specs.Prelude.{ℕ, List};
    ghost use Rattle.std.specs.String.{string_bytes};

    ghost Value = { List ℕ };

    ghost view = { λ json. string_bytes json.json };
}

impl JsonString {
    /// The value whose JSON this text is. It takes no memory.
    pub fn boxed(json: String) -> Self
        ensures { result ≡ string_bytes json }
    {
        JsonString { json }
    }

    /// This text as a [`JsonStr`] that borrows it.
    pub fn as_json_str(&self) -> JsonStr<'_>
        ensures { json_text result ≡ self.now }
    {
        JsonStr::new(self.json.as_str())
    }
}
