//! Values behind pointers, which make the calls of the value that they point to.

use crate::stream::Stream;
use crate::value::Value;
use sval_label::{Lent, Result};

impl<'v, 'a, T: Value<'v, Lent<'v>>> Value<'v, Lent<'v>> for &'a T {
    ghost emission = { λ value. T.emission value.now };

    fn stream<S: Stream<Lent<'v>>>(&'v self, stream: &mut S) -> Result {
        (**self).stream(stream)
    }
}

impl<'v, T: Value<'v, Lent<'v>>> Value<'v, Lent<'v>> for Box<T> {
    ghost emission = { λ value. T.emission value.value };

    fn stream<S: Stream<Lent<'v>>>(&'v self, stream: &mut S) -> Result {
        self.as_ref().stream(stream)
    }
}
