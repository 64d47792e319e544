//! What measures are of.

ghost use Rattle.std.specs.Prelude.{true};
ghost use Rattle.sval_core.specs.Values.{makes};
ghost use Rattle.sval_core.specs.ValueCalls.{text_calls};

use sval::{Lent, Result, Stream};
use sval_ref::ValueRef;

/// A unit's name, which is lent for longer than the unit itself is borrowed.
#[derive(Clone, Copy)]
pub struct Unit<'sval> {
    /// The name, as `K`.
    pub name: &'sval str,
}

impl<'sval> ValueRef<Lent<'sval>> for Unit<'sval> {
    ghost ref_emission = { λ unit. makes (text_calls true unit.name.now) };

    fn stream_ref<S: Stream<Lent<'sval>>>(&self, stream: &mut S) -> Result {
        stream.text_begin(Some(self.name.len()))?;
        stream.text_fragment(self.name)?;
        stream.text_end()
    }
}
