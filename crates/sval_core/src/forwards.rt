//! Streams behind pointers, which pass each call on.

ghost use Rattle.sval_label.specs.Made.{call_of};
ghost use Rattle.sval_core.specs.Law.{Answers, Emits, Through, through, law_through};
ghost use Rattle.sval_core.specs.Values.{makes, whole_text_calls, whole_key_calls};

use crate::stream::Stream;
use sval_label::{AnyCall, Lending, Result};

impl<'a, L: Lending, S: Stream<L>> Stream<L> for &'a mut S {
    ghost View = { Through S.View };

    ghost law = { law_through S.law };

    ghost standing = { λ s. through (S.standing s.now) s.ghost_name };

    fn take(&mut self, call: AnyCall<'_, L::Text, L::Bytes>) -> Result
        ensures { Answers (law_through S.law) result
            (through (S.standing self.old.now) self.old.ghost_name) (call_of L.text L.bytes call.entry)
            (through (S.standing self.new.now) self.new.ghost_name) }
    {
        (**self).take(call)
    }

    fn asks_if_whole(&self) -> bool {
        (**self).asks_if_whole()
    }

    fn whole_text(&mut self, text: L::Text, size: Option<usize>) -> Result
        ensures { Emits (law_through S.law) result
            (through (S.standing self.old.now) self.old.ghost_name) (makes (whole_text_calls size (L.text text)))
            (through (S.standing self.new.now) self.new.ghost_name) }
    {
        (**self).whole_text(text, size)
    }

    fn whole_text_key(&mut self, text: L::Text, size: Option<usize>) -> Result
        ensures { Emits (law_through S.law) result
            (through (S.standing self.old.now) self.old.ghost_name) (makes (whole_key_calls size (L.text text)))
            (through (S.standing self.new.now) self.new.ghost_name) }
    {
        (**self).whole_text_key(text, size)
    }
}

impl<L: Lending, S: Stream<L>> Stream<L> for Box<S> {
    ghost View = { S.View };

    ghost law = { S.law };

    ghost standing = { λ s. S.standing s.value };

    fn take(&mut self, call: AnyCall<'_, L::Text, L::Bytes>) -> Result
        ensures { Answers S.law result
            (S.standing self.old.value) (call_of L.text L.bytes call.entry) (S.standing self.new.value) }
    {
        self.as_mut().take(call)
    }

    fn asks_if_whole(&self) -> bool {
        self.as_ref().asks_if_whole()
    }

    fn whole_text(&mut self, text: L::Text, size: Option<usize>) -> Result {
        self.as_mut().whole_text(text, size)
    }

    fn whole_text_key(&mut self, text: L::Text, size: Option<usize>) -> Result {
        self.as_mut().whole_text_key(text, size)
    }
}
