//! The tag of a value.

ghost use Rattle.std.specs.Prelude.{◌≡◌, Option, option_map};
ghost use Rattle.sval_label.specs.Made.{lent_call};
ghost use Rattle.sval_label.specs.Calls as call;
ghost use Rattle.sval_label.specs.SeenTags.{seen_tag};
ghost use Rattle.sval_core.specs.Law.{Answers};
ghost use Rattle.sval_lower.specs.Readers.{says_no_tag, call_tag};
ghost use Rattle.sval_lower.specs.Reading.{holding, tag_law};

use sval_core::{AnyCall, Call, GroupedCall, Head, Lent, Name, Result, Stream, Tag, refusal, tags};

/// What a tag is handed out as, which is a [`Tag`].
///
/// A function that names a lifetime in a bound beside a text of the program, as a `Tag` holds one, gets no proof. So
/// the reader of tags has its answer's type as a parameter.
pub trait GivenTag: Copy {
    /// Its text.
    ghost text: { Self → call.Tag };

    /// The tag as one that is handed out.
    fn given(tag: Tag) -> Self
        ensures { text result ≡ seen_tag tag };
}

impl GivenTag for Tag {
    ghost text = { seen_tag };

    fn given(tag: Tag) -> Tag {
        tag
    }
}

/// Holds the tag that the first call gives at which it is known, and refuses that call.
#[derive(Drop)]
pub(crate) struct FirstTag<T> {
    pub(crate) held: Option<T>,
}

impl<'v, T: GivenTag> Stream<Lent<'v>> for FirstTag<T> {
    ghost View = { Option call.Tag };

    ghost law = { tag_law };

    ghost standing = { λ first. holding (option_map T.text first.held) };

    fn take(&mut self, call: Call<'v, '_>) -> Result
        ensures { Answers tag_law result (holding (option_map T.text self.old.held))
            (lent_call call.entry) (holding (option_map T.text self.new.held)) }
    {
        if says_no_tag(call) {
            return Ok(());
        }
        self.held = match tag_of(call) {
            Some(tag) => Some(T::given(tag)),
            None => None,
        };
        refusal()
    }
}

/// Whether the tag isn't known at a call yet.
fn says_no_tag(call: Call<'_, '_>) -> bool
    ensures { result ≡ says_no_tag (lent_call call.entry) }
{
    match call {
        AnyCall::TagHint(_) | AnyCall::TaggedEnd(_) | AnyCall::EnumEnd(_) => true,
        AnyCall::BinaryFragment(bytes) => bytes.is_empty(),
        AnyCall::BinaryFragmentComputed(bytes) => bytes.is_empty(),
        _ => false,
    }
}

/// The tag that a call gives.
fn tag_of(call: Call<'_, '_>) -> Option<Tag>
    ensures { option_map seen_tag result ≡ call_tag (lent_call call.entry) }
{
    match call.grouped() {
        GroupedCall::EnumBegin(name) => name.tag.copied(),
        GroupedCall::TaggedBegin(name) => name.tag.copied(),
        GroupedCall::Tag(name) => name.tag.copied(),
        GroupedCall::Begin(Head::Record(name), _) => name.tag.copied(),
        GroupedCall::Begin(Head::Tuple(name), _) => name.tag.copied(),
        GroupedCall::Begin(Head::RecordTuple(name), _) => name.tag.copied(),
        GroupedCall::Int(_) => Some(tags::NUMBER),
        _ => None,
    }
}
