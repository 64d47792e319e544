//! Tuples as sequences.

ghost use Rattle.sval_label.specs.Calls as call;
ghost use Rattle.sval_label.specs.SeenIndex.{seen_index};
ghost use Rattle.sval_label.specs.SeenName.{seen_option_tag, name_of};
ghost use Rattle.sval_core.specs.Law.{Emits};
ghost use Rattle.sval_core.specs.Values.{makes};
ghost use Rattle.sval_lower.specs.Lower.{lower};

use sval_core::{Index, Label, Lending, Result, Stream, Tag};

/// A sequence with the same name: `tagged_begin`, `seq_begin` with its size.
pub fn tuple_begin<L: Lending, S: Stream<L>>(
    stream: &mut S,
    tag: Option<&Tag>,
    label: Option<&Label>,
    index: Option<&Index>,
    size: Option<usize>,
) -> Result
    ensures { Emits S.law result (S.standing stream.old)
        (makes (lower (call.Begin (call.Tuple (name_of tag.entry label.entry index.entry)) size)))
        (S.standing stream.new) }
{
    stream.tagged_begin(tag, label, index)?;
    stream.seq_begin(size)
}

/// An item of a sequence begins: `seq_value_begin`.
pub fn tuple_value_begin<L: Lending, S: Stream<L>>(
    stream: &mut S,
    tag: Option<&Tag>,
    index: &Index,
) -> Result
    ensures { Emits S.law result (S.standing stream.old)
        (makes (lower (call.PartBegin (call.Place (seen_option_tag tag.entry) (seen_index index.now)))))
        (S.standing stream.new) }
{
    stream.seq_value_begin()
}

/// An item of a sequence ends: `seq_value_end`.
pub fn tuple_value_end<L: Lending, S: Stream<L>>(
    stream: &mut S,
    tag: Option<&Tag>,
    index: &Index,
) -> Result
    ensures { Emits S.law result (S.standing stream.old)
        (makes (lower (call.PartEnd (call.Place (seen_option_tag tag.entry) (seen_index index.now)))))
        (S.standing stream.new) }
{
    stream.seq_value_end()
}

/// A sequence with the same name ends: `seq_end`, `tagged_end`.
pub fn tuple_end<L: Lending, S: Stream<L>>(
    stream: &mut S,
    tag: Option<&Tag>,
    label: Option<&Label>,
    index: Option<&Index>,
) -> Result
    ensures { Emits S.law result (S.standing stream.old)
        (makes (lower (call.End (call.Tuple (name_of tag.entry label.entry index.entry))))) (S.standing stream.new) }
{
    stream.seq_end()?;
    stream.tagged_end(tag, label, index)
}
