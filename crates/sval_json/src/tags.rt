//! The tags that the writer of JSON knows beside those of `sval_label`.

use sval_core::Tag;

/// A text that is the JSON of a value, and is written unchanged.
pub const JSON_VALUE: Tag = Tag { text: "JSON_VALUE" };

/// A text that is already escaped (RFC 8259, section 7): it is written between quotes unchanged.
pub const JSON_TEXT: Tag = Tag { text: "JSON_TEXT" };

/// A text that is a number of JSON (RFC 8259, section 6), and is written unchanged.
pub const JSON_NUMBER: Tag = Tag {
    text: "JSON_NUMBER",
};
