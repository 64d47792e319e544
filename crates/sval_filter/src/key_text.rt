//! The text of a key.

ghost use Rattle.std.specs.Prelude.{◌≡◌, ◌≤◌, ℕ, List, None, string_bytes, option_map};
ghost use Rattle.sval_label.specs.Made.{lent_call};
ghost use Rattle.sval_core.specs.Law.{Answers};
ghost use Rattle.sval_filter.specs.SeenKeys.{KeyRead, nothing_read, passed_by, with_begin, with_fragment, text_by, wants_by, Copies, read_law, key_standing};

use std::alloc::Global;
use sval_core::{Call, Error, Fragment, GroupedCall, Lent, NoMemory, Stream};

/// Where the calls of a key have led.
#[derive(Clone, Copy)]
pub(crate) enum Place {
    /// Before all but hints.
    Before,
    /// Into a text.
    Inside,
    /// Behind a text.
    After,
    /// Into what is no text.
    NoText,
}

impl Place {
    /// Where the begin of a text leads.
    fn begun(self) -> Place
        ensures { (text : List ℕ) → record { place = result; text = text } ≡ with_begin self text }
    {
        match self {
            Place::Before => Place::Inside,
            Place::Inside => Place::After,
            Place::After => Place::After,
            Place::NoText => Place::NoText,
        }
    }

    /// Where a call leads that is no part of the text.
    fn passed_by(self) -> Place
        ensures { result ≡ passed_by self }
    {
        match self {
            Place::Before => Place::NoText,
            Place::Inside => Place::After,
            Place::After => Place::After,
            Place::NoText => Place::NoText,
        }
    }
}

/// Reads the calls of a key, and copies the text that they begin with.
#[derive(Drop)]
pub(crate) struct KeyText {
    pub(crate) place: Place,
    pub(crate) text: String,
    /// The want of memory for a fragment, if one wasn't copied since all calls were forgotten.
    pub(crate) want: Option<NoMemory>,
}

impl KeyText {
    /// No call was read, and no memory is taken yet.
    pub(crate) fn new(alloc: Global) -> Self
        ensures place { result.place ≡ nothing_read.place }
        ensures text { string_bytes result.text ≡ nothing_read.text }
    {
        KeyText {
            place: Place::Before,
            text: String::new(alloc),
            want: None,
        }
    }

    /// Forgets all calls.
    pub(crate) fn clear(&mut self)
        ensures place { self.new.place ≡ nothing_read.place }
        ensures text { string_bytes self.new.text ≡ nothing_read.text }
        ensures want { self.new.want ≡ None }
    {
        self.place = Place::Before;
        self.text.clear();
        self.want = None;
    }

    /// The text, if the key is one.
    pub(crate) fn text(&self) -> Option<&str>
        ensures { option_map (λ text. text.now) result ≡ text_by self.now.place (string_bytes self.now.text) }
    {
        match self.place {
            Place::Before | Place::NoText => None,
            Place::Inside | Place::After => Some(self.text.as_str()),
        }
    }

    /// Copies a fragment, inside the text.
    fn fragment(&mut self, fragment: &str) -> sval_core::Result
        ensures copies { Copies
            (with_fragment self.old.place (string_bytes self.old.text) fragment.now) (wants_by self.old.want) result
            (record { place = self.new.place; text = string_bytes self.new.text }) (wants_by self.new.want) }
        ensures never_falls { wants_by self.old.want ≤ wants_by self.new.want }
    {
        match self.place {
            Place::Inside => match self.text.push_str(fragment) {
                Ok(()) => Ok(()),
                Err(cause) => {
                    self.want = Some(NoMemory::from(cause));
                    Err(Error::new())
                }
            },
            Place::Before | Place::After | Place::NoText => {
                self.place = self.place.passed_by();
                Ok(())
            }
        }
    }
}

impl<'b> Stream<Lent<'b>> for KeyText {
    ghost View = { KeyRead };

    ghost law = { read_law };

    ghost standing = { key_standing };

    fn take(&mut self, call: Call<'b, '_>) -> sval_core::Result
        ensures { Answers read_law result
            (key_standing self.old) (lent_call call.entry) (key_standing self.new) }
    {
        match call.grouped() {
            GroupedCall::TagHint(_) => Ok(()),
            GroupedCall::TextBegin(_) => {
                self.place = self.place.begun();
                Ok(())
            }
            GroupedCall::TextFragment(Fragment::Borrowed(text)) => self.fragment(text),
            GroupedCall::TextFragment(Fragment::Computed(text)) => self.fragment(text),
            _ => {
                self.place = self.place.passed_by();
                Ok(())
            }
        }
    }
}
