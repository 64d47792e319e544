//! What has begun and has no end yet, in short.

ghost use Rattle.std.specs.Prelude.{◌≡◌};
ghost use Rattle.sval_check.specs.Frames.{begun_form, begun_frame, seen_form, has_left};
ghost use Rattle.sval_check.specs.Tops.{advanced, is_container, named_frame, bare_frame, begun_size};

use crate::kept::{NameParts, NamedValue};

/// What has begun and has no end yet.
///
/// It is small, since there may be very many. What is still to come of it, if it is a text, a binary or a container, is
/// kept in [`crate::stack::Stack`], and its name in [`crate::names::Names`].
#[derive(Clone, Copy)]
pub(crate) enum Frame {
    /// In a text.
    Text,
    /// In a binary.
    Binary,
    /// In a sequence.
    Seq,
    /// In a map where a key comes next.
    Map,
    /// In a map where the value of a key comes next.
    Entry,
    /// In an item of a sequence.
    Item,
    /// In a key of a map.
    Key,
    /// In a value of a map.
    Value,
    /// In a value with a name of its own, which has these parts.
    Tagged(NameParts),
    /// In an enum, whose name has these parts.
    Enum(NameParts),
    /// In a record, whose name has these parts.
    Record(NameParts),
    /// In a tuple, whose name has these parts.
    Tuple(NameParts),
    /// In a record that is a tuple too, whose name has these parts.
    RecordTuple(NameParts),
    /// In a field of a record, which has a tag or not.
    Field(bool),
    /// In a field of a tuple, which has a tag or not.
    Place(bool),
    /// In a field of a record that is a tuple too, which has a tag or not.
    FieldPlace(bool),
}

impl Frame {
    /// The frame of a value with a name, which has these parts.
    #[inline(always)]
    pub(crate) fn named(value: NamedValue, parts: NameParts) -> Frame
        ensures { result ≡ named_frame value parts }
    {
        match value {
            NamedValue::Tagged => Frame::Tagged(parts),
            NamedValue::Enum => Frame::Enum(parts),
            NamedValue::Record => Frame::Record(parts),
            NamedValue::Tuple => Frame::Tuple(parts),
            NamedValue::RecordTuple => Frame::RecordTuple(parts),
        }
    }

    /// Whether it is kept what is still to come of it, if a size was given.
    #[inline(always)]
    pub(crate) fn has_left(self) -> bool
        ensures { result ≡ has_left self }
    {
        match self {
            Frame::Text | Frame::Binary => true,
            _ => self.is_container(),
        }
    }

    /// Whether it is a container.
    #[inline(always)]
    pub(crate) fn is_container(self) -> bool
        ensures { result ≡ is_container self }
    {
        match self {
            Frame::Seq
            | Frame::Map
            | Frame::Entry
            | Frame::Record(_)
            | Frame::Tuple(_)
            | Frame::RecordTuple(_) => true,
            _ => false,
        }
    }

    /// This frame with one more part, where it is a container.
    #[inline(always)]
    pub(crate) fn advanced(self) -> Frame
        ensures { result ≡ advanced self }
    {
        match self {
            Frame::Map => Frame::Entry,
            Frame::Entry => Frame::Map,
            _ => self,
        }
    }
}

/// A call that begins a value and says no name, but a size if one is given.
#[derive(Clone, Copy)]
pub(crate) enum Begin {
    /// Of a text.
    Text(Option<usize>),
    /// Of a binary.
    Binary(Option<usize>),
    /// Of a sequence.
    Seq(Option<usize>),
    /// Of a map.
    Map(Option<usize>),
}

impl Begin {
    /// What is told apart of the value.
    pub(crate) fn form(self) -> Form
        ensures { seen_form result ≡ begun_form self }
    {
        match self {
            Begin::Text(_) => Form::Text,
            Begin::Binary(_) | Begin::Seq(_) | Begin::Map(_) => Form::Other,
        }
    }

    /// The frame that it opens.
    pub(crate) fn frame(self) -> Frame
        ensures { result ≡ bare_frame self }
    {
        match self {
            Begin::Text(_) => Frame::Text,
            Begin::Binary(_) => Frame::Binary,
            Begin::Seq(_) => Frame::Seq,
            Begin::Map(_) => Frame::Map,
        }
    }

    /// The size, if one is given.
    pub(crate) fn size(self) -> Option<usize>
        ensures { result ≡ begun_size self }
    {
        match self {
            Begin::Text(size) | Begin::Binary(size) | Begin::Seq(size) | Begin::Map(size) => size,
        }
    }
}

/// What comes in fragments.
#[derive(Clone, Copy, Debug)]
pub enum Content {
    /// A text.
    Text,
    /// A binary.
    Binary,
}

/// What is told apart of a value that begins.
#[derive(Clone, Copy)]
pub(crate) enum Form {
    /// It is a text.
    Text,
    /// It is what an enum may hold.
    Variant,
    /// It is neither.
    Other,
}
