//! Writers and readers that tell their bytes always, or never.

use crate::patient::Patient;
use std::alloc::Allocator;
use std::io::{BufWriter, Read, Stderr, Stdout, Write};

/// A writer that tells what it holds always, or never. std lets a writer that didn't tell it begin to.
///
/// A writer of your own that has no ghost member `contents` never tells it. It writes
/// `impl Tells for Mine { ghost tells = { false }; ghost always_or_never = { λ _. refl }; }`.
pub trait Tells: Write {
    ghost use Rattle.std.specs.Prelude.{◌≡◌, Bool};
    ghost use Rattle.std.specs.Option.{is_some};

    /// Whether it tells what it holds.
    ghost tells: { Bool };

    ghost always_or_never: { (writer : Self) → is_some (Self.contents writer) ≡ tells };
}

/// A reader that tells what it has left always, or never.
pub trait TellsLeft: Read {
    ghost use Rattle.std.specs.Prelude.{◌≡◌, Bool};
    ghost use Rattle.std.specs.Option.{is_some};

    /// Whether it tells what it has left.
    ghost tells_left: { Bool };

    ghost always_or_never: { (reader : Self) → is_some (Self.remaining reader) ≡ tells_left };
}

impl<A: Allocator> Tells for Vec<u8, A> {
    ghost use Rattle.std.specs.Prelude.{true, refl};

    ghost tells = { true };

    ghost always_or_never = { λ _. refl };
}

impl<W: Tells> Tells for &mut W {
    ghost tells = { W.tells };

    ghost always_or_never = { λ writer. W.always_or_never writer.now };
}

impl<W: Tells> Tells for Patient<W> {
    ghost tells = { W.tells };

    ghost always_or_never = { W.always_or_never };
}

impl<W: Tells + Drop, A: Allocator> Tells for BufWriter<W, A> {
    ghost use Rattle.std.specs.Io.Buffered.{writer_buffer, writer_inner};
    ghost use Rattle.sval_io.specs.Known.{told_behind};

    ghost tells = { W.tells };

    ghost always_or_never = { λ writer.
        told_behind (W.contents (writer_inner writer)) (writer_buffer writer)
        (W.always_or_never (writer_inner writer)) };
}

impl Tells for Stdout {
    ghost use Rattle.std.specs.Prelude.{false, refl};

    ghost tells = { false };

    ghost always_or_never = { λ _. refl };
}

impl Tells for Stderr {
    ghost use Rattle.std.specs.Prelude.{false, refl};

    ghost tells = { false };

    ghost always_or_never = { λ _. refl };
}
