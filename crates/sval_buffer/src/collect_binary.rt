//! Collecting a binary.

ghost use Rattle.std.specs.Prelude.{◌≡◌, IfErr, if◌then◌else◌};
ghost use Rattle.sval_label.specs.Made.{lent_call};
ghost use Rattle.sval_label.specs.Grouped.{int_call, int_type, int_number, binary_call};
ghost use Rattle.sval_label.specs.SeenName.{seen_name};
ghost use Rattle.sval_core.specs.Law.{Answers};
ghost use Rattle.sval_buffer.specs.declared.error.Word.TheVariants as word;
ghost use Rattle.sval_buffer.specs.declared.error.ErrorKind.TheVariants as error;
ghost use Rattle.sval_buffer.specs.Capture.{IsNoAlloc};
ghost use Rattle.sval_buffer.specs.Collected.{binary_collected, IsHeldDue};
ghost use Rattle.sval_buffer.specs.CollectSteps.{Collecting, binary_collects, is_digits, own_label, word_for_label, CollectsCall, LacksCollectMemory, nothing_collected, collect_law, collecting};
ghost use Rattle.sval_buffer.specs.SeenCollectors.{binary_collecting};

use crate::binary_buf::BinaryBuf;
use crate::error::{Error, ErrorKind, Word};
use crate::lowered::{is_wide, label_of};
use crate::refusals::Refusals;
use std::alloc::Global;
use sval_core::{Call, Fragment, GroupedCall, Head, Int, Lent, Name, Slot, Stream, Value};

/// The error of a call of another kind.
fn unfit(actual: Word) -> Error
    ensures { result ≡ error.Unsupported actual word.Binary }
{
    Error::new(ErrorKind::Unsupported {
        actual,
        expected: Word::Binary,
    })
}

impl<'sval> BinaryBuf<'sval> {
    /// Joins the fragments of a value that is a binary. Borrowed fragments are kept by reference as
    /// [`BinaryBuf::push_fragment`] keeps them. Sequences and tuples of numbers of 8 bits are binaries too, at any
    /// depth. So is one number of 8 bits by itself.
    ///
    /// The value's calls are taken as they are lowered: names around a binary and hints are passed over.
    ///
    /// - [`ErrorKind::Unsupported`], expected [`Word::Binary`], comes exactly for the first lowered call of another
    ///   kind.
    /// - [`ErrorKind::InvalidValue`] with [`Word::FailedToStream`] comes exactly where all calls were taken, and the
    ///   value itself refuses.
    /// - [`ErrorKind::NoAlloc`] comes where memory was wanting in one of its calls: those before it were taken, and so
    ///   would this one be, which may take memory. One borrowed fragment takes none.
    ///
    /// ```
    /// let binary = BinaryBuf::collect(alloc, &value)?;
    /// assert_eq!(rt; binary.as_slice(), b"some bytes".as_slice());
    /// ```
    pub fn collect<V: Value<'sval, Lent<'sval>>>(
        alloc: Global,
        value: &'sval V,
    ) -> Result<Self, Error>
        ensures due { IsHeldDue (binary_collected (V.emission value.now)) result }
        ensures memory { let calls = (V.emission value.now).calls in
            IfErr result (λ why. IsNoAlloc why → LacksCollectMemory binary_collects calls) }
    {
        let mut collector: BinaryCollector<'sval> = BinaryCollector::new(alloc);
        match value.stream(&mut collector) {
            Ok(()) => Ok(collector.binary),
            Err(_) => Err(collector.refusals.cause()),
        }
    }

    /// Does at once what a call's lowered calls come to.
    fn collect_call(&mut self, call: Call<'sval, '_>) -> Result<(), Error>
        ensures { CollectsCall binary_collects self.old (lent_call call.entry) result self.new }
    {
        match call.grouped() {
            GroupedCall::Null => Err(unfit(Word::Null)),
            GroupedCall::Bool(_) => Err(unfit(Word::Boolean)),
            GroupedCall::Int(number) => self.collect_number(number),
            GroupedCall::Tag(name) => Err(unfit(word_of(name))),
            GroupedCall::TextBegin(_) | GroupedCall::TextFragment(_) | GroupedCall::TextEnd => {
                Err(unfit(Word::Text))
            }
            GroupedCall::BinaryFragment(fragment) => self.collect_fragment(fragment),
            GroupedCall::Begin(Head::Map | Head::Record(_) | Head::RecordTuple(_), _) => {
                Err(unfit(Word::Map))
            }
            GroupedCall::PartBegin(Slot::Field(..) | Slot::FieldPlace(..)) => {
                Err(unfit(Word::Text))
            }
            GroupedCall::BinaryBegin(_)
            | GroupedCall::BinaryEnd
            | GroupedCall::EnumBegin(_)
            | GroupedCall::EnumEnd(_)
            | GroupedCall::TaggedBegin(_)
            | GroupedCall::TaggedEnd(_)
            | GroupedCall::TagHint(_)
            | GroupedCall::Begin(..)
            | GroupedCall::End(_)
            | GroupedCall::PartBegin(_)
            | GroupedCall::PartEnd(_) => Ok(()),
        }
    }

    /// Takes a fragment of a binary.
    fn collect_fragment(&mut self, fragment: Fragment<&'sval [u8], &[u8]>) -> Result<(), Error>
        ensures { let taken = binary_call (λ bytes. bytes.now) fragment.entry in
            CollectsCall binary_collects self.old taken result self.new }
    {
        match fragment {
            Fragment::Borrowed(fragment) => self.push_fragment(fragment),
            Fragment::Computed(fragment) => self.push_fragment_computed(fragment),
        }
    }

    /// Takes a whole number, which is a byte where it has 8 bits.
    fn collect_number(&mut self, number: Int) -> Result<(), Error>
        ensures { CollectsCall binary_collects self.old (int_call number) result self.new }
    {
        match number {
            Int::U8(byte) => self.collect_fragment(Fragment::Computed(&[byte])),
            Int::U16(_)
            | Int::U32(_)
            | Int::U64(_)
            | Int::U128(_)
            | Int::I8(_)
            | Int::I16(_)
            | Int::I32(_)
            | Int::I64(_)
            | Int::I128(_) => Err(unfit(number_word(number))),
        }
    }
}

/// What a number is that isn't a byte: a text where it is lowered to its digits.
fn number_word(number: Int) -> Word
    ensures { let wide = is_digits (int_type number) (int_number number) in
        result ≡ (if wide then word.Text else word.Integer) }
{
    if is_wide(number) {
        Word::Text
    } else {
        Word::Integer
    }
}

/// What a tag by itself is: its label or null.
fn word_of(name: Name<'_>) -> Word
    ensures { result ≡ word_for_label (own_label (seen_name name.entry)) }
{
    match label_of(name) {
        Some(_) => Word::Text,
        None => Word::Null,
    }
}

/// Joins the fragments of a binary.
#[derive(Drop)]
struct BinaryCollector<'sval> {
    binary: BinaryBuf<'sval>,
    refusals: Refusals,
}

impl<'sval> BinaryCollector<'sval> {
    /// Nothing was collected yet.
    fn new(alloc: Global) -> Self
        ensures { binary_collecting result ≡ nothing_collected }
    {
        BinaryCollector {
            binary: BinaryBuf::new(alloc),
            refusals: Refusals::none(),
        }
    }
}

impl<'sval> Stream<Lent<'sval>> for BinaryCollector<'sval> {
    ghost View = { Collecting };

    ghost law = { collect_law binary_collects };

    ghost standing = { λ collector. collecting (binary_collecting collector) };

    fn take(&mut self, call: Call<'sval, '_>) -> sval_core::Result
        ensures { let taken = lent_call call.entry in
            Answers (collect_law binary_collects) result
            (collecting (binary_collecting self.old)) taken (collecting (binary_collecting self.new)) }
    {
        match self.binary.collect_call(call) {
            Ok(()) => Ok(()),
            Err(error) => {
                self.refusals.keep(*error.kind());
                Err(sval_core::Error::new())
            }
        }
    }
}
