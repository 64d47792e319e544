//! A stack of labels.

ghost use Rattle.std.specs.Prelude.{◌≡◌, [], ◌∷◌, is_ok, if◌then◌else◌, option_map};
ghost use Rattle.std.specs.Bool.{then_some};
ghost use Rattle.sval_label.specs.Equalities as equal;
ghost use Rattle.sval_core.specs.SameNames as same;
ghost use Rattle.sval_core.specs.Trees.{plain_label};
ghost use Rattle.sval_core.specs.Stacks.{below};
ghost use Rattle.sval_check.specs.Stacked.{stacked, below_if, label_in};

use crate::tags::Tags;
use std::alloc::Global;
use std::marker::Model;
use sval_core::{Label, NoMemory};

/// A stack of labels, seen as what a tree keeps of them, the innermost first.
#[derive(Drop)]
pub(crate) struct Labels {
    /// The number of bytes of each text.
    sizes: Vec<usize>,
    /// The texts, one after another.
    texts: Vec<u8>,
    /// Of each label whether it has a tag.
    tagged: Vec<bool>,
    /// The tags of those that have one. No end is compared with them.
    tags: Tags,
}

impl Model for Labels {
    ghost use Rattle.std.specs.Prelude.{List, reverse};
    ghost use Rattle.sval_label.specs.Calls.{Label};
    ghost use Rattle.sval_check.specs.Stacked.{kept_labels};

    ghost Value = { List Label };

    ghost view = { λ labels.
        kept_labels (reverse labels.sizes.items) (reverse labels.tagged.items) labels.tags labels.texts.items };
}

impl Labels {
    /// No label, which takes no memory yet.
    pub(crate) fn new(alloc: Global) -> Self
        ensures { result ≡ [] }
    {
        Labels {
            sizes: Vec::new(alloc),
            texts: Vec::new(alloc),
            tagged: Vec::new(alloc),
            tags: Tags::new(alloc),
        }
    }

    /// Puts a label on the others, if there is one.
    #[inline(always)]
    pub(crate) fn put(&mut self, label: Option<&Label<'_>>) -> Result<(), NoMemory>
        ensures { let label = option_map plain_label (option_map (λ label. label.now) label.entry) in
            self.new ≡ (if is_ok result then stacked label self.old else self.old) }
    {
        match label {
            None => Ok(()),
            Some(label) => self.push(label),
        }
    }

    /// Puts a label on the others.
    #[inline(always)]
    fn push(&mut self, label: &Label<'_>) -> Result<(), NoMemory>
        ensures { self.new ≡ (if is_ok result then plain_label label.now ∷ self.old else self.old) }
    {
        let text = label.as_str();
        self.sizes.reserve(1)?;
        self.tagged.reserve(1)?;
        self.tags.put(label.tag())?;
        if let Err(wanting) = self.texts.extend_from_slice(text.as_bytes()) {
            self.tags.take(label.tag().is_some());
            return Err(wanting.into());
        }
        self.sizes.push_reserved(text.len());
        self.tagged.push_reserved(label.tag().is_some());
        Ok(())
    }

    /// Takes the innermost label off, where one is meant.
    #[inline(always)]
    pub(crate) fn take(&mut self, is_meant: bool)
        ensures { self.new ≡ below_if is_meant self.old }
    {
        if is_meant {
            self.pop();
        }
    }

    /// Takes the innermost label off.
    #[inline(always)]
    fn pop(&mut self)
        ensures { self.new ≡ below self.old }
    {
        if let Some(size) = self.sizes.pop() {
            let before = self.texts.len().saturating_sub(size);
            self.texts.truncate(before);
            let is_tagged = matches!(self.tagged.pop(), Some(true));
            self.tags.take(is_tagged);
        }
    }

    /// A label is the innermost one.
    #[inline(always)]
    pub(crate) fn is(&self, label: &Label<'_>) -> bool
        ensures { result ≡ equal.same_label label.now (label_in self.now) }
    {
        match self.sizes.last() {
            None => label.as_str().is_empty(),
            Some(size) => {
                let start = self.texts.len().saturating_sub(*size);
                label.as_str().as_bytes() == &self.texts[start..]
            }
        }
    }

    /// A label, or none, is the innermost one, where one is meant, or else none.
    #[inline(always)]
    pub(crate) fn are(&self, is_meant: bool, label: Option<&Label<'_>>) -> bool
        ensures { result ≡ same.same_option equal.same_label
            (option_map (λ label. label.now) label.entry) (then_some is_meant (label_in self.now)) }
    {
        match (is_meant, label) {
            (false, None) => true,
            (true, Some(label)) => self.is(label),
            _ => false,
        }
    }
}
