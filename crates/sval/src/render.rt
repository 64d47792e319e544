//! What prints itself as a text.

ghost use Rattle.std.specs.Prelude.{◌≡◌, ℕ, List, Bool, Option};
ghost use Rattle.std.specs.String.{string_bytes};
ghost use Rattle.sval.specs.Rendered.{Renders};

use std::alloc::AllocError;
use std::error::Error;
use std::fmt;

/// Why a value wasn't printed, or not whole.
#[derive(Clone, Copy, Debug, PartialEq, Eq)]
pub enum RenderError {
    /// The value can't be printed.
    Format,
    /// Memory was wanting.
    NoMemory,
}

impl fmt::Display for RenderError {
    ghost use Rattle.std.specs.Prelude.{Some};
    ghost use Rattle.sval.specs.ErrorTexts.{render_error_text};

    ghost output = { λ error. Some (render_error_text error) };

    fn fmt<W: fmt::Write>(&self, f: &mut fmt::Formatter<W>) -> fmt::Result {
        f.write_str(match self {
            RenderError::Format => "the value cannot be printed",
            RenderError::NoMemory => "cannot allocate for a text",
        })
    }
}

impl Error for RenderError {}

impl From<AllocError> for RenderError {
    ghost use Rattle.sval.specs.declared.render.RenderError.TheVariants.{NoMemory};

    ghost from_gives = { λ _ error. error ≡ NoMemory };

    fn from(_cause: AllocError) -> RenderError {
        RenderError::NoMemory
    }
}

/// What prints itself as a text: the bound in place of std's `Display`, whose errors don't tell a value that can't be
/// printed from memory that is wanting.
///
/// Truth values, characters, whole numbers and texts print what `{}` prints of them. Any other type that has std's
/// `Display` prints through [`StdDisplay`](crate::StdDisplay).
///
/// ```
/// let mut text = String::from_str(alloc, "n = ")?;
/// (-7i32).render(&mut text)?;
/// assert_eq!(rt; text.as_str(), "n = -7");
/// ```
pub trait Render {
    /// What it prints, where it tells.
    ghost printed: { Self → Option (List ℕ) };

    /// Whether it may be that it can't be printed.
    ghost unprintable: { Self → Bool };

    /// Appends what it prints.
    ///
    /// # Errors
    ///
    /// [`RenderError::Format`] only where it is a value that can't be printed; [`RenderError::NoMemory`], and never
    /// where it prints nothing. After either a first part of what it prints may have been appended.
    fn render(&self, out: &mut String) -> Result<(), RenderError>
        ensures { Renders (printed self.now) (unprintable self.now) result
            (string_bytes out.old) (string_bytes out.new) };
}
