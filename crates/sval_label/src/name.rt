//! What enums, tagged values and named containers are called by.

use crate::index::Index;
use crate::label::Label;
use crate::tag::Tag;

/// What an enum, a tagged value or a container is called by: a hint, a text and a number, each where it is given.
#[derive(Clone, Copy, Debug)]
pub struct Name<'c> {
    /// The hint.
    pub tag: Option<&'c Tag>,
    /// The text.
    pub label: Option<&'c Label<'c>>,
    /// The number.
    pub index: Option<&'c Index>,
}
