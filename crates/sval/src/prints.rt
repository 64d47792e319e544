//! What the types of std print.

ghost use Rattle.std.specs.Prelude.{Some, false};
ghost use Rattle.std.specs.Fmt.{decimal, signed_decimal};
ghost use Rattle.std.specs.String.{string_bytes};
ghost use Rattle.sval.specs.Rendered.{Renders};

use crate::render::{Render, RenderError};
use itoa::{Buffer, Integer};

/// Appends a text. An empty one takes no memory.
pub(crate) fn append(out: &mut String, text: &str) -> Result<(), RenderError>
    ensures { Renders (Some text.now) false result (string_bytes out.old) (string_bytes out.new) }
{
    if text.is_empty() {
        return Ok(());
    }
    out.push_str(text)?;
    Ok(())
}

/// Appends the digits of a whole number.
fn append_number<I: Integer>(out: &mut String, number: I) -> Result<(), RenderError>
    ensures { Renders (Some (I.text number)) false result (string_bytes out.old) (string_bytes out.new) }
{
    append(out, Buffer::new().format(number))
}

impl Render for bool {
    ghost use Rattle.std.specs.Prelude.{Some, false, codes, if◌then◌else◌};

    ghost printed = { λ value. Some (if value then codes "true" else codes "false") };

    ghost unprintable = { λ _. false };

    fn render(&self, out: &mut String) -> Result<(), RenderError> {
        append(out, if *self { "true" } else { "false" })
    }
}

impl Render for u8 {
    ghost printed = { λ number. Some (decimal number) };

    ghost unprintable = { λ _. false };

    fn render(&self, out: &mut String) -> Result<(), RenderError> {
        append_number(out, *self)
    }
}

impl Render for u16 {
    ghost printed = { λ number. Some (decimal number) };

    ghost unprintable = { λ _. false };

    fn render(&self, out: &mut String) -> Result<(), RenderError> {
        append_number(out, *self)
    }
}

impl Render for u32 {
    ghost printed = { λ number. Some (decimal number) };

    ghost unprintable = { λ _. false };

    fn render(&self, out: &mut String) -> Result<(), RenderError> {
        append_number(out, *self)
    }
}

impl Render for u64 {
    ghost printed = { λ number. Some (decimal number) };

    ghost unprintable = { λ _. false };

    fn render(&self, out: &mut String) -> Result<(), RenderError> {
        append_number(out, *self)
    }
}

impl Render for u128 {
    ghost printed = { λ number. Some (decimal number) };

    ghost unprintable = { λ _. false };

    fn render(&self, out: &mut String) -> Result<(), RenderError> {
        append_number(out, *self)
    }
}

impl Render for i8 {
    ghost printed = { λ number. Some (signed_decimal number) };

    ghost unprintable = { λ _. false };

    fn render(&self, out: &mut String) -> Result<(), RenderError> {
        append_number(out, *self)
    }
}

impl Render for i16 {
    ghost printed = { λ number. Some (signed_decimal number) };

    ghost unprintable = { λ _. false };

    fn render(&self, out: &mut String) -> Result<(), RenderError> {
        append_number(out, *self)
    }
}

impl Render for i32 {
    ghost printed = { λ number. Some (signed_decimal number) };

    ghost unprintable = { λ _. false };

    fn render(&self, out: &mut String) -> Result<(), RenderError> {
        append_number(out, *self)
    }
}

impl Render for i64 {
    ghost printed = { λ number. Some (signed_decimal number) };

    ghost unprintable = { λ _. false };

    fn render(&self, out: &mut String) -> Result<(), RenderError> {
        append_number(out, *self)
    }
}

impl Render for i128 {
    ghost printed = { λ number. Some (signed_decimal number) };

    ghost unprintable = { λ _. false };

    fn render(&self, out: &mut String) -> Result<(), RenderError> {
        append_number(out, *self)
    }
}

impl Render for char {
    ghost use Rattle.std.specs.Prelude.{Some, false, encode_utf8};

    ghost printed = { λ character. Some (encode_utf8 character) };

    ghost unprintable = { λ _. false };

    fn render(&self, out: &mut String) -> Result<(), RenderError> {
        let mut bytes = [0u8; 4];
        append(out, self.encode_utf8(&mut bytes))
    }
}

impl<'a> Render for &'a str {
    ghost use Rattle.std.specs.Prelude.{Some, false};

    ghost printed = { λ text. Some text.now };

    ghost unprintable = { λ _. false };

    fn render(&self, out: &mut String) -> Result<(), RenderError> {
        append(out, *self)
    }
}

impl Render for String {
    ghost use Rattle.std.specs.Prelude.{Some, false};
    ghost use Rattle.std.specs.String.{string_bytes};

    ghost printed = { λ text. Some (string_bytes text) };

    ghost unprintable = { λ _. false };

    fn render(&self, out: &mut String) -> Result<(), RenderError> {
        append(out, self.as_str())
    }
}

impl<'a, T: Render> Render for &'a T {
    ghost printed = { λ value. T.printed value.now };

    ghost unprintable = { λ value. T.unprintable value.now };

    fn render(&self, out: &mut String) -> Result<(), RenderError> {
        (*self).render(out)
    }
}
