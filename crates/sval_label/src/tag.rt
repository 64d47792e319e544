//! Hints on calls.

ghost use Rattle.std.specs.Prelude.{◌≡◌};

/// A hint of what a label, an index or a value is for, by a text that those who know it agree on.
///
/// Two tags are equal exactly if their texts are. [`tags`](crate::tags) has those that this framework knows.
#[derive(Clone, Copy, Debug, PartialEq, Eq)]
pub struct Tag {
    /// What it is known by.
    pub text: &'static str,
}

impl Tag {
    /// The tag that is known by a text.
    pub fn new(text: &'static str) -> Tag
        ensures { result.text.now ≡ text.now }
    {
        Tag { text }
    }
}
