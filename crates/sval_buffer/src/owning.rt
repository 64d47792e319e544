//! Capturing by copies.

ghost use Rattle.sval_label.specs.Made.{lent_call};
ghost use Rattle.sval_core.specs.Law.{computed};
ghost use Rattle.sval_buffer.specs.Forest.{may_grow};
ghost use Rattle.sval_buffer.specs.Capture.{CapturesBy};
ghost use Rattle.sval_buffer.specs.Owned.{take_owned};

use crate::error::ErrorKind;
use crate::named::CallStore;
use crate::part::{Keeping, Medium};
use crate::parts::Parts;
use sval_core::{Call, Fragment, GroupedCall};

impl<'sval, N: CallStore> Parts<'sval, N> {
    /// Takes a call that is lent for any lifetime, since it keeps a copy of each fragment.
    #[tactic(auto, unfolding(crate::specs::Owned::take_owned, crate::specs::Forest::take, crate::specs::Forest::may_grow))]
    pub(crate) fn capture_owned(&mut self, call: Call<'_, '_>) -> Result<(), ErrorKind>
        ensures { let taken = lent_call call.entry in
            CapturesBy (λ f. may_grow f (computed taken)) (λ f. take_owned f taken) self.old result self.new }
    {
        match call.grouped() {
            GroupedCall::Null => self.null(),
            GroupedCall::Bool(value) => self.truth(value),
            GroupedCall::Int(value) => self.int(value),
            GroupedCall::Tag(name) => self.tag(name),
            GroupedCall::TagHint(tag) => self.hint(tag),
            GroupedCall::TextBegin(_) => { self.begin_fragments(Medium::Text, Keeping::ByCopy) }
            GroupedCall::BinaryBegin(_) => { self.begin_fragments(Medium::Binary, Keeping::ByCopy) }
            GroupedCall::TextFragment(Fragment::Borrowed(text) | Fragment::Computed(text)) => {
                self.push_text(Fragment::Computed(text))
            }
            GroupedCall::BinaryFragment(Fragment::Borrowed(bytes) | Fragment::Computed(bytes)) => {
                self.push_binary(Fragment::Computed(bytes))
            }
            GroupedCall::TextEnd | GroupedCall::BinaryEnd => {
                self.end_fragments();
                Ok(())
            }
            GroupedCall::EnumBegin(name) => self.begin_enum(name),
            GroupedCall::TaggedBegin(name) => self.begin_tagged(name),
            GroupedCall::Begin(head, size) => self.begin_head(head, size),
            GroupedCall::PartBegin(slot) => self.begin_slot(slot),
            GroupedCall::EnumEnd(_)
            | GroupedCall::TaggedEnd(_)
            | GroupedCall::End(_)
            | GroupedCall::PartEnd(_) => self.end(),
        }
    }
}
