//! What is kept of a text.

use crate::offset::Offset;
use std::mem::size_of;

/// The place of a value.
#[derive(Clone, Copy)]
pub(crate) enum Place {
    /// By itself.
    Alone,
    /// In an array.
    Item,
    /// Before the colon of a member.
    Key,
    /// Behind it.
    Value,
}

/// A token of a text, in its place. A begin and an end have the place of their array or object.
///
/// A number or a string, without its quotes, has a length and a place in the text where it begins. The begin of an array
/// or object counts its nodes, from itself to its end. So a node takes 12 bytes.
#[derive(Clone, Copy)]
pub(crate) enum Node {
    Null(Place),
    Bool(Place, bool),
    Number(Place, Offset, u32),
    Text(Place, Offset, u32),
    BeginArray(Place, Offset),
    EndArray(Place),
    BeginObject(Place, Offset),
    EndObject(Place),
}

/// Each word, number and string, and each begin and end, is kept as a node.
const _: () = prove!(size_of::<Node>() == 12);
