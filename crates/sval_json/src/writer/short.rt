//! Texts between quotes, joined with the marks around them where they are short, so that one piece is written.

ghost use Rattle.std.specs.Prelude.{◌≡◌, ◌++◌};
ghost use Rattle.std.specs.Bool.{OnTrue};
ghost use Rattle.sval_json.specs.Escape.{escaped};
ghost use Rattle.sval_json.specs.SeenWriter.{quoted_text};
ghost use Rattle.sval_json.specs.Steps.{key_label_text};

use crate::escape::is_all_plain;
use crate::marks::is_ident;
use arrayvec::ArrayString;
use sval_core::Label;

/// How many bytes are joined at most.
pub(crate) const ROOM: usize = 32;

/// Appends a text between two others, and answers whether all three had room.
#[inline(always)]
pub(crate) fn push_between(
    joined: &mut ArrayString<ROOM>,
    before: &str,
    text: &str,
    after: &str,
) -> bool
    ensures { OnTrue result (joined.new.bytes ≡ joined.old.bytes ++ before.now ++ text.now ++ after.now) }
{
    joined.try_push_str(before).is_ok()
        && joined.try_push_str(text).is_ok()
        && joined.try_push_str(after).is_ok()
}

/// Appends a text between two others, and answers whether all three had room and nothing of the text is escaped.
#[inline(always)]
pub(crate) fn push_plain(
    joined: &mut ArrayString<ROOM>,
    before: &str,
    text: &str,
    after: &str,
) -> bool
    ensures joined { OnTrue result (joined.new.bytes ≡ joined.old.bytes ++ before.now ++ text.now ++ after.now) }
    ensures plain { OnTrue result (escaped text.now ≡ text.now) }
{
    push_between(joined, before, text, after) && is_all_plain(text.as_bytes())
}

/// A text that comes between quotes.
#[derive(Clone, Copy)]
pub(crate) struct Quoted<'a> {
    pub(crate) text: &'a str,
    /// It is written there unchanged, where others are escaped.
    pub(crate) raw: bool,
}

impl<'a> Quoted<'a> {
    /// A text that is escaped.
    #[inline(always)]
    pub(crate) fn escaped(text: &'a str) -> Self
        ensures { quoted_text result ≡ escaped text.now }
    {
        Quoted { text, raw: false }
    }

    /// The text of a label in a key.
    #[inline(always)]
    pub(crate) fn label(label: &'a Label) -> Self
        ensures { quoted_text result ≡ key_label_text label.now }
    {
        Quoted {
            text: label.as_str(),
            raw: is_ident(label.tag()),
        }
    }

    /// Whether the text is written between quotes unchanged.
    #[inline(always)]
    pub(crate) fn is_plain(self) -> bool
        ensures { OnTrue result (quoted_text self.entry ≡ self.entry.text.now) }
    {
        self.raw || is_all_plain(self.text.as_bytes())
    }
}
