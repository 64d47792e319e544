//! Collecting a text.

ghost use Rattle.std.specs.Prelude.{◌≡◌, Some, IfErr};
ghost use Rattle.sval_label.specs.Made.{lent_call};
ghost use Rattle.sval_label.specs.Calls as calls;
ghost use Rattle.sval_label.specs.Grouped.{int_call, text_call, binary_call};
ghost use Rattle.sval_label.specs.SeenName.{seen_name};
ghost use Rattle.sval_core.specs.Law.{Answers};
ghost use Rattle.sval_buffer.specs.declared.error.Word.TheVariants as word;
ghost use Rattle.sval_buffer.specs.declared.error.ErrorKind.TheVariants as error;
ghost use Rattle.sval_buffer.specs.Pushes.{HeldBytes};
ghost use Rattle.sval_buffer.specs.Capture.{IsNoAlloc};
ghost use Rattle.sval_buffer.specs.Collected.{text_collected, IsHeldDue};
ghost use Rattle.sval_buffer.specs.CollectSteps.{Collecting, text_collects, CollectsBy, CollectsCall, push_label, label_takes_memory, LacksCollectMemory, nothing_collected, collect_law, collecting};
ghost use Rattle.sval_buffer.specs.SeenCollectors.{text_collecting};

use crate::error::{Error, ErrorKind, Word};
use crate::lowered::{label_of, wide_digits};
use crate::refusals::Refusals;
use crate::text_buf::TextBuf;
use itoa::Buffer;
use std::alloc::Global;
use sval_core::{Call, Fragment, GroupedCall, Int, Label, Lent, Name, Stream, Value};

/// The error of a call of another kind.
fn unfit(actual: Word) -> Error
    ensures { result ≡ error.Unsupported actual word.Text }
{
    Error::new(ErrorKind::Unsupported {
        actual,
        expected: Word::Text,
    })
}

/// Passes a fragment of a binary over where it is empty. Else it is lowered to the parts of a sequence.
fn pass_if_empty(fragment: Fragment<&[u8], &[u8]>) -> Result<(), Error>
    ensures { let taken = binary_call (λ bytes. bytes.now) fragment.entry in
        (held : HeldBytes) → CollectsCall text_collects held taken result held }
{
    let (Fragment::Borrowed(bytes) | Fragment::Computed(bytes)) = fragment;
    if bytes.is_empty() {
        return Ok(());
    }
    Err(unfit(Word::Sequence))
}

impl<'sval> TextBuf<'sval> {
    /// Joins the fragments of a value that is a text, with their borrowed ones kept by reference as
    /// [`TextBuf::push_fragment`] keeps them.
    ///
    /// The value's calls are taken as they are lowered: a number that `i64` doesn't hold is its digits, a tag by itself
    /// is its label, and names around a text and hints are passed over.
    ///
    /// - [`ErrorKind::Unsupported`], expected [`Word::Text`], comes exactly for the first lowered call of another kind.
    /// - [`ErrorKind::InvalidValue`] with [`Word::FailedToStream`] comes exactly where all calls were taken, and the
    ///   value itself refuses.
    /// - [`ErrorKind::NoAlloc`] comes where memory was wanting in one of its calls: those before it were taken, and so
    ///   would this one be, which may take memory. One borrowed fragment takes none.
    ///
    /// ```
    /// let text = TextBuf::collect(alloc, &value)?;
    /// assert_eq!(rt; text.as_borrowed_str(), Some("a text"));
    /// ```
    pub fn collect<V: Value<'sval, Lent<'sval>>>(
        alloc: Global,
        value: &'sval V,
    ) -> Result<Self, Error>
        ensures due { IsHeldDue (text_collected (V.emission value.now)) result }
        ensures memory { let calls = (V.emission value.now).calls in
            IfErr result (λ why. IsNoAlloc why → LacksCollectMemory text_collects calls) }
    {
        let mut collector: TextCollector<'sval> = TextCollector::new(alloc);
        match value.stream(&mut collector) {
            Ok(()) => Ok(collector.text),
            Err(_) => Err(collector.refusals.cause()),
        }
    }

    /// Does at once what a call's lowered calls come to.
    fn collect_call(&mut self, call: Call<'sval, '_>) -> Result<(), Error>
        ensures { CollectsCall text_collects self.old (lent_call call.entry) result self.new }
    {
        match call.grouped() {
            GroupedCall::Null => Err(unfit(Word::Null)),
            GroupedCall::Bool(_) => Err(unfit(Word::Boolean)),
            GroupedCall::Int(number) => self.collect_number(number),
            GroupedCall::Tag(name) => self.collect_tag(name),
            GroupedCall::TextFragment(fragment) => self.collect_fragment(fragment),
            GroupedCall::BinaryFragment(fragment) => pass_if_empty(fragment),
            GroupedCall::BinaryBegin(_)
            | GroupedCall::BinaryEnd
            | GroupedCall::Begin(..)
            | GroupedCall::End(_)
            | GroupedCall::PartBegin(_)
            | GroupedCall::PartEnd(_) => Err(unfit(Word::Sequence)),
            GroupedCall::TextBegin(_)
            | GroupedCall::TextEnd
            | GroupedCall::EnumBegin(_)
            | GroupedCall::EnumEnd(_)
            | GroupedCall::TaggedBegin(_)
            | GroupedCall::TaggedEnd(_)
            | GroupedCall::TagHint(_) => Ok(()),
        }
    }

    /// Takes a fragment of a text.
    fn collect_fragment(&mut self, fragment: Fragment<&'sval str, &str>) -> Result<(), Error>
        ensures { let taken = text_call (λ text. text.now) fragment.entry in
            CollectsCall text_collects self.old taken result self.new }
    {
        match fragment {
            Fragment::Borrowed(fragment) => self.push_fragment(fragment),
            Fragment::Computed(fragment) => self.push_fragment_computed(fragment),
        }
    }

    /// Takes a whole number, which is a text where it is lowered to its digits.
    fn collect_number(&mut self, number: Int) -> Result<(), Error>
        ensures { CollectsCall text_collects self.old (int_call number) result self.new }
    {
        match wide_digits(&mut Buffer::new(), number) {
            Some(digits) => self.collect_fragment(Fragment::Computed(digits)),
            None => Err(unfit(Word::Integer)),
        }
    }

    /// Takes a tag by itself, which is its label or null.
    fn collect_tag(&mut self, name: Name<'_>) -> Result<(), Error>
        ensures { let taken = calls.Standalone (seen_name name.entry) in
            CollectsCall text_collects self.old taken result self.new }
    {
        match label_of(name) {
            Some(label) => self.collect_label(label),
            None => Err(unfit(Word::Null)),
        }
    }

    /// Takes the label of a tag.
    fn collect_label(&mut self, label: &Label<'_>) -> Result<(), Error>
        ensures { let own = Some label.now in
            CollectsBy word.Text (label_takes_memory self.old own) (push_label self.old own) self.old result self.new }
    {
        match label.as_static_str() {
            Some(text) => self.collect_fragment(Fragment::Borrowed(text)),
            None => self.collect_fragment(Fragment::Computed(label.as_str())),
        }
    }
}

/// Joins the fragments of a text.
#[derive(Drop)]
struct TextCollector<'sval> {
    text: TextBuf<'sval>,
    refusals: Refusals,
}

impl<'sval> TextCollector<'sval> {
    /// Nothing was collected yet.
    fn new(alloc: Global) -> Self
        ensures { text_collecting result ≡ nothing_collected }
    {
        TextCollector {
            text: TextBuf::new(alloc),
            refusals: Refusals::none(),
        }
    }
}

impl<'sval> Stream<Lent<'sval>> for TextCollector<'sval> {
    ghost View = { Collecting };

    ghost law = { collect_law text_collects };

    ghost standing = { λ collector. collecting (text_collecting collector) };

    fn take(&mut self, call: Call<'sval, '_>) -> sval_core::Result
        ensures { let taken = lent_call call.entry in
            Answers (collect_law text_collects) result
            (collecting (text_collecting self.old)) taken (collecting (text_collecting self.new)) }
    {
        match self.text.collect_call(call) {
            Ok(()) => Ok(()),
            Err(error) => {
                self.refusals.keep(*error.kind());
                Err(sval_core::Error::new())
            }
        }
    }
}
