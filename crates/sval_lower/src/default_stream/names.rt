//! Names of values, which are left out but for tags by themselves.

ghost use Rattle.std.specs.Prelude.{◌≡◌, None};
ghost use Rattle.sval_label.specs.Calls as call;
ghost use Rattle.sval_label.specs.SeenTags.{seen_tag};
ghost use Rattle.sval_label.specs.SeenName.{seen_option_tag, name_of};
ghost use Rattle.sval_core.specs.Law.{Emits};
ghost use Rattle.sval_core.specs.Values.{makes};
ghost use Rattle.sval_core.specs.Names.{says_none};
ghost use Rattle.sval_lower.specs.Lower.{lower, own_calls};

use crate::default_stream::texts::{LendsStatic, label_text};
use sval_core::{Index, Label, Lending, Result, Stream, Tag, tags};

/// A value with the same name begins: `tagged_begin`.
pub fn enum_begin<L: Lending, S: Stream<L>>(
    stream: &mut S,
    tag: Option<&Tag>,
    label: Option<&Label>,
    index: Option<&Index>,
) -> Result
    ensures { Emits S.law result (S.standing stream.old)
        (makes (lower (call.EnumBegin (name_of tag.entry label.entry index.entry)))) (S.standing stream.new) }
{
    stream.tagged_begin(tag, label, index)
}

/// A value with the same name ends: `tagged_end`.
pub fn enum_end<L: Lending, S: Stream<L>>(
    stream: &mut S,
    tag: Option<&Tag>,
    label: Option<&Label>,
    index: Option<&Index>,
) -> Result
    ensures { Emits S.law result (S.standing stream.old)
        (makes (lower (call.EnumEnd (name_of tag.entry label.entry index.entry)))) (S.standing stream.new) }
{
    stream.tagged_end(tag, label, index)
}

/// No call, since names are left out.
pub fn tagged_begin<L: Lending, S: Stream<L>>(
    stream: &mut S,
    tag: Option<&Tag>,
    label: Option<&Label>,
    index: Option<&Index>,
) -> Result
    ensures { Emits S.law result (S.standing stream.old)
        (makes (lower (call.TaggedBegin (name_of tag.entry label.entry index.entry)))) (S.standing stream.new) }
{
    Ok(())
}

/// No call, since names are left out.
pub fn tagged_end<L: Lending, S: Stream<L>>(
    stream: &mut S,
    tag: Option<&Tag>,
    label: Option<&Label>,
    index: Option<&Index>,
) -> Result
    ensures { Emits S.law result (S.standing stream.old)
        (makes (lower (call.TaggedEnd (name_of tag.entry label.entry index.entry)))) (S.standing stream.new) }
{
    Ok(())
}

/// `tagged_begin` with the name, what stands for it, and `tagged_end` with the name. That is `null` where its tag is
/// `RUST_OPTION_NONE` or it has no label, and else its label as a text.
pub fn tag<L: LendsStatic, S: Stream<L>>(
    stream: &mut S,
    tag: Option<&Tag>,
    label: Option<&Label>,
    index: Option<&Index>,
) -> Result
    ensures { Emits S.law result (S.standing stream.old)
        (makes (lower (call.Standalone (name_of tag.entry label.entry index.entry)))) (S.standing stream.new) }
{
    stream.tagged_begin(tag, label, index)?;
    own_text(stream, tag, label)?;
    stream.tagged_end(tag, label, index)
}

/// No call, since hints are left out.
pub fn tag_hint<L: Lending, S: Stream<L>>(stream: &mut S, tag: &Tag) -> Result
    ensures { Emits S.law result (S.standing stream.old)
        (makes (lower (call.TagHint (seen_tag tag.now)))) (S.standing stream.new) }
{
    Ok(())
}

/// What stands for a tag by itself.
fn own_text<L: LendsStatic, S: Stream<L>>(
    stream: &mut S,
    tag: Option<&Tag>,
    label: Option<&Label>,
) -> Result
    ensures { Emits S.law result (S.standing stream.old)
        (makes (own_calls (name_of tag.entry label.entry None))) (S.standing stream.new) }
{
    if is_none(tag) {
        return stream.null();
    }
    match label {
        Some(label) => label_text(stream, label),
        None => stream.null(),
    }
}

/// Whether a tag says that there is no value.
fn is_none(tag: Option<&Tag>) -> bool
    ensures { result ≡ says_none (seen_option_tag tag.entry) }
{
    match tag {
        Some(tag) => tag.text == tags::RUST_OPTION_NONE.text,
        None => false,
    }
}
