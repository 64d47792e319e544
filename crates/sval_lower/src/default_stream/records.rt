//! Records as maps of their labels, and record tuples as records.

ghost use Rattle.sval_label.specs.Calls as call;
ghost use Rattle.sval_label.specs.SeenIndex.{seen_index};
ghost use Rattle.sval_label.specs.SeenName.{seen_option_tag, name_of};
ghost use Rattle.sval_core.specs.Law.{Emits};
ghost use Rattle.sval_core.specs.Values.{makes};
ghost use Rattle.sval_lower.specs.Lower.{lower};

use crate::default_stream::texts::{LendsStatic, label_text};
use sval_core::{Index, Label, Lending, Result, Stream, Tag};

/// A map with the same name: `tagged_begin`, `map_begin` with its size.
pub fn record_begin<L: Lending, S: Stream<L>>(
    stream: &mut S,
    tag: Option<&Tag>,
    label: Option<&Label>,
    index: Option<&Index>,
    size: Option<usize>,
) -> Result
    ensures { Emits S.law result (S.standing stream.old)
        (makes (lower (call.Begin (call.Record (name_of tag.entry label.entry index.entry)) size)))
        (S.standing stream.new) }
{
    stream.tagged_begin(tag, label, index)?;
    stream.map_begin(size)
}

/// A pair of the label and the value: `map_key_begin`, the label as a text, `map_key_end`, `map_value_begin`.
pub fn record_value_begin<L: LendsStatic, S: Stream<L>>(
    stream: &mut S,
    tag: Option<&Tag>,
    label: &Label,
) -> Result
    ensures { Emits S.law result (S.standing stream.old)
        (makes (lower (call.PartBegin (call.Field (seen_option_tag tag.entry) label.now)))) (S.standing stream.new) }
{
    stream.map_key_begin()?;
    label_text(stream, label)?;
    stream.map_key_end()?;
    stream.map_value_begin()
}

/// The value of a pair ends: `map_value_end`.
pub fn record_value_end<L: Lending, S: Stream<L>>(
    stream: &mut S,
    tag: Option<&Tag>,
    label: &Label,
) -> Result
    ensures { Emits S.law result (S.standing stream.old)
        (makes (lower (call.PartEnd (call.Field (seen_option_tag tag.entry) label.now)))) (S.standing stream.new) }
{
    stream.map_value_end()
}

/// A map with the same name ends: `map_end`, `tagged_end`.
pub fn record_end<L: Lending, S: Stream<L>>(
    stream: &mut S,
    tag: Option<&Tag>,
    label: Option<&Label>,
    index: Option<&Index>,
) -> Result
    ensures { Emits S.law result (S.standing stream.old)
        (makes (lower (call.End (call.Record (name_of tag.entry label.entry index.entry))))) (S.standing stream.new) }
{
    stream.map_end()?;
    stream.tagged_end(tag, label, index)
}

/// A record with the same name and size: `record_begin`.
pub fn record_tuple_begin<L: Lending, S: Stream<L>>(
    stream: &mut S,
    tag: Option<&Tag>,
    label: Option<&Label>,
    index: Option<&Index>,
    size: Option<usize>,
) -> Result
    ensures { Emits S.law result (S.standing stream.old)
        (makes (lower (call.Begin (call.RecordTuple (name_of tag.entry label.entry index.entry)) size)))
        (S.standing stream.new) }
{
    stream.record_begin(tag, label, index, size)
}

/// A field of a record, without its index: `record_value_begin`.
pub fn record_tuple_value_begin<L: Lending, S: Stream<L>>(
    stream: &mut S,
    tag: Option<&Tag>,
    label: &Label,
    index: &Index,
) -> Result
    ensures { Emits S.law result (S.standing stream.old)
        (makes (lower (call.PartBegin (call.FieldPlace (seen_option_tag tag.entry) label.now (seen_index index.now)))))
        (S.standing stream.new) }
{
    stream.record_value_begin(tag, label)
}

/// A field of a record ends, without its index: `record_value_end`.
pub fn record_tuple_value_end<L: Lending, S: Stream<L>>(
    stream: &mut S,
    tag: Option<&Tag>,
    label: &Label,
    index: &Index,
) -> Result
    ensures { Emits S.law result (S.standing stream.old)
        (makes (lower (call.PartEnd (call.FieldPlace (seen_option_tag tag.entry) label.now (seen_index index.now)))))
        (S.standing stream.new) }
{
    stream.record_value_end(tag, label)
}

/// A record with the same name ends: `record_end`.
pub fn record_tuple_end<L: Lending, S: Stream<L>>(
    stream: &mut S,
    tag: Option<&Tag>,
    label: Option<&Label>,
    index: Option<&Index>,
) -> Result
    ensures { Emits S.law result (S.standing stream.old)
        (makes (lower (call.End (call.RecordTuple (name_of tag.entry label.entry index.entry)))))
        (S.standing stream.new) }
{
    stream.record_end(tag, label, index)
}
