//! What prints itself by std's formatting.

ghost use Rattle.std.specs.Prelude.{◌≡◌, IfOk, IfErr};
ghost use Rattle.std.specs.String.{string_bytes};
ghost use Rattle.sval.specs.Shown.{IsPrinted};
ghost use Rattle.sval.specs.Rendered.{PrintsSome};
ghost use Rattle.sval.specs.declared.render.RenderError.TheVariants.{NoMemory};

use crate::prints::append;
use crate::render::{Render, RenderError};
use std::alloc::{AllocError, Global};
use std::fmt;
use std::fmt::Write;

/// Any value that has std's `Display`, as one that prints itself.
///
/// It prints what std's `Display` prints, where that is told, and may be one that can't be printed, since std's
/// formatting may fail for reasons of the value's own.
#[derive(Debug, Drop)]
pub struct StdDisplay<V> {
    /// The value.
    pub value: V,
}

/// A text that is written, and why a part of it wasn't, if one wasn't.
#[derive(Drop)]
struct Written {
    text: String,
    want: Option<AllocError>,
}

impl fmt::Write for Written {
    ghost use Rattle.std.specs.Prelude.{IsOk};
    ghost use Rattle.sval.specs.Wrote.{Wrote};

    ghost write_str_gives = { Wrote };

    /// Never fails, so that an error of formatting is one of the value's own.
    fn write_str(&mut self, text: &str) -> fmt::Result
        ensures wrote { Wrote self.old text.now self.new }
        ensures never_fails { IsOk result }
    {
        if !text.is_empty() {
            if let Err(cause) = self.text.push_str(text) {
                self.want = Some(cause);
            }
        }
        Ok(())
    }
}

/// The text that a value prints. Memory is wanting only for a value that prints something.
#[tactic(auto, using(crate::proofs::Rendered::printed_whole, crate::proofs::Rendered::wanting_prints))]
fn printed<V: fmt::Display>(alloc: Global, value: &V) -> Result<String, RenderError>
    ensures ok { IfOk result (λ text. IsPrinted (V.output value.now) (string_bytes text)) }
    ensures no_memory { IfErr result (λ error. error ≡ NoMemory → PrintsSome (V.output value.now)) }
{
    let mut written = Written {
        text: String::new(alloc),
        want: None,
    };
    if written.write(value).is_err() {
        return Err(RenderError::Format);
    }
    match written.want {
        None => Ok(written.text),
        Some(cause) => Err(RenderError::from(cause)),
    }
}

impl<V: fmt::Display> Render for StdDisplay<V> {
    ghost use Rattle.std.specs.Prelude.{true};

    ghost printed = { λ shown. V.output shown.value };

    ghost unprintable = { λ _. true };

    #[tactic(auto, using(crate::proofs::Rendered::appended, crate::proofs::Rendered::appended_part, crate::proofs::Rendered::nothing_appended))]
    fn render(&self, out: &mut String) -> Result<(), RenderError> {
        match printed(*out.allocator(), &self.value) {
            Ok(text) => append(out, text.as_str()),
            Err(error) => Err(error),
        }
    }
}
