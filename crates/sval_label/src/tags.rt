//! The tags that this framework knows. The text of each is its name.

use crate::tag::Tag;

/// The value of an optional value that is there.
pub const RUST_OPTION_SOME: Tag = Tag {
    text: "RUST_OPTION_SOME",
};

/// An optional value that isn't there.
pub const RUST_OPTION_NONE: Tag = Tag {
    text: "RUST_OPTION_NONE",
};

/// The value of a type that has one value.
pub const RUST_UNIT: Tag = Tag { text: "RUST_UNIT" };

/// A number in a text.
pub const NUMBER: Tag = Tag { text: "NUMBER" };

/// What has a size that its type fixes.
pub const CONSTANT_SIZE: Tag = Tag {
    text: "CONSTANT_SIZE",
};

/// A label that is a name in the program's text.
pub const VALUE_IDENT: Tag = Tag {
    text: "VALUE_IDENT",
};

/// An index that is a place in an order.
pub const VALUE_OFFSET: Tag = Tag {
    text: "VALUE_OFFSET",
};
