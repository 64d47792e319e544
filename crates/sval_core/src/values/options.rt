//! Optional values.

ghost use Rattle.sval_label.specs.Calls.{TaggedBegin, TaggedEnd};
ghost use Rattle.sval_core.specs.Law.{Answers, Emits};
ghost use Rattle.sval_core.specs.Names.{some_name, none_name};
ghost use Rattle.sval_core.specs.Values.{option_emission, tag_emission, tagged_emission};

use crate::glance::skip_around;
use crate::stream::Stream;
use crate::value::Value;
use crate::values::names::{none_label, option_none, option_some, place, some_label};
use sval_label::{Lending, Lent, Result};

/// Begins an optional value that is there.
fn begin_some<L: Lending, S: Stream<L>>(stream: &mut S) -> Result
    ensures { Answers S.law result (S.standing stream.old) (TaggedBegin some_name) (S.standing stream.new) }
{
    stream.tagged_begin(Some(option_some()), Some(&some_label()), Some(&place(1)))
}

/// Ends an optional value that is there.
fn end_some<L: Lending, S: Stream<L>>(stream: &mut S) -> Result
    ensures { Answers S.law result (S.standing stream.old) (TaggedEnd some_name) (S.standing stream.new) }
{
    stream.tagged_end(Some(option_some()), Some(&some_label()), Some(&place(1)))
}

/// Streams an optional value that isn't there.
#[tactic(auto, unfolding(crate::specs::Law::emits))]
fn stream_none<L: Lending, S: Stream<L>>(stream: &mut S) -> Result
    ensures { Emits S.law result (S.standing stream.old) (tag_emission none_name) (S.standing stream.new) }
{
    stream.tag(Some(option_none()), Some(&none_label()), Some(&place(0)))
}

/// Streams an optional value that is there.
#[tactic(auto, using(crate::proofs::Between::of_between))]
fn stream_some<'v, T: Value<'v, Lent<'v>>, S: Stream<Lent<'v>>>(
    stream: &mut S,
    value: &'v T,
) -> Result
    ensures { Emits S.law result (S.standing stream.old)
        (tagged_emission some_name (T.emission value.now)) (S.standing stream.new) }
{
    begin_some(stream)?;
    value.stream(stream)?;
    end_some(stream)
}

/// An optional value: the value under the name `Some`, or the name `None` alone.
impl<'v, T: Value<'v, Lent<'v>>> Value<'v, Lent<'v>> for Option<T> {
    ghost emission = { option_emission T.emission };

    fn stream<S: Stream<Lent<'v>>>(&'v self, stream: &mut S) -> Result {
        match self {
            Some(value) => {
                if skip_around::<Lent<'v>, T, S>(stream, value) {
                    return Ok(());
                }
                stream_some(stream, value)
            }
            None => stream_none(stream),
        }
    }
}
