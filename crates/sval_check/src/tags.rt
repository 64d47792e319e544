//! A stack of tags.

ghost use Rattle.std.specs.Prelude.{◌≡◌, [], is_ok, if◌then◌else◌, option_map};
ghost use Rattle.sval_label.specs.SeenTags.{seen_tag};
ghost use Rattle.sval_label.specs.SeenName.{seen_option_tag};
ghost use Rattle.sval_check.specs.Stacked.{stacked, top_if, below_if};

use std::alloc::Global;
use std::marker::Model;
use sval_core::{NoMemory, Tag};

/// A stack of tags, seen as their texts, the innermost first.
#[derive(Drop)]
pub(crate) struct Tags {
    kept: Vec<Tag>,
}

impl Model for Tags {
    ghost use Rattle.std.specs.Prelude.{List, map, reverse};
    ghost use Rattle.sval_label.specs.Calls.{Tag};
    ghost use Rattle.sval_label.specs.SeenTags.{seen_tag};

    ghost Value = { List Tag };

    ghost view = { λ tags. map seen_tag (reverse tags.kept.items) };
}

impl Tags {
    /// No tag, which takes no memory yet.
    pub(crate) fn new(alloc: Global) -> Self
        ensures { result ≡ [] }
    {
        Tags {
            kept: Vec::new(alloc),
        }
    }

    /// Puts a tag on the others, if there is one.
    #[inline(always)]
    pub(crate) fn put(&mut self, tag: Option<&Tag>) -> Result<(), NoMemory>
        ensures { self.new ≡ (if is_ok result then stacked (seen_option_tag tag.entry) self.old else self.old) }
    {
        match tag {
            None => Ok(()),
            Some(tag) => {
                self.kept.push(*tag)?;
                Ok(())
            }
        }
    }

    /// Takes the innermost tag off, where one is meant.
    #[inline(always)]
    pub(crate) fn take(&mut self, is_meant: bool)
        ensures { self.new ≡ below_if is_meant self.old }
    {
        if is_meant {
            let _ = self.kept.pop();
        }
    }

    /// The innermost tag, where one is meant.
    #[inline(always)]
    pub(crate) fn top(&self, is_meant: bool) -> Option<Tag>
        ensures { option_map seen_tag result ≡ top_if is_meant self.now }
    {
        if is_meant {
            self.kept.last().copied()
        } else {
            None
        }
    }
}
