//! Values that are texts.
#![tactic(auto, unfolding(crate::specs::Law::emits, crate::specs::Law::then_emits))]

ghost use Rattle.std.specs.String.{string_bytes};
ghost use Rattle.sval_core.specs.Law.{Emits};
ghost use Rattle.sval_core.specs.Values.{str_emission, char_emission};

use crate::stream::Stream;
use crate::value::Value;
use sval_label::{Lent, Result};

/// Streams a text, in one fragment after its length, as the values `&str` and `String` do.
///
/// It refuses only where the stream refuses one of the three calls.
pub fn stream_str<'v, S: Stream<Lent<'v>>>(stream: &mut S, text: &'v str) -> Result
    ensures { Emits S.law result (S.standing stream.old) (str_emission text.now) (S.standing stream.new) }
{
    if stream.skip_value() {
        return Ok(());
    }
    stream.whole_text(text, Some(text.len()))
}

impl<'v, 'a> Value<'v, Lent<'v>> for &'a str {
    ghost emission = { λ text. str_emission text.now };

    fn stream<S: Stream<Lent<'v>>>(&'v self, stream: &mut S) -> Result {
        stream_str(stream, self)
    }
}

impl<'v> Value<'v, Lent<'v>> for String {
    ghost emission = { λ text. str_emission (string_bytes text) };

    fn stream<S: Stream<Lent<'v>>>(&'v self, stream: &mut S) -> Result {
        stream_str(stream, self.as_str())
    }
}

impl<'v> Value<'v, Lent<'v>> for char {
    ghost emission = { char_emission };

    fn stream<S: Stream<Lent<'v>>>(&'v self, stream: &mut S) -> Result {
        if stream.skip_value() {
            return Ok(());
        }
        let mut bytes = [0; 4];
        let text = self.encode_utf8(&mut bytes);
        stream.text_begin(Some(text.len()))?;
        stream.text_fragment_computed(text)?;
        stream.text_end()
    }
}
