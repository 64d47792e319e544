//! The reader of JSON (RFC 8259).
//!
//! [`JsonDoc::read`] reads a text whole: it tells the place at which bytes that denote no value fail, and gives a value
//! that makes the calls of what they denote.
//!
//! The text is read by a machine, byte by byte, but that what no escape cuts of a string is passed over at once, in one
//! loop and with a stack of its own (`specs/Reader.antt`). What is kept of it is one flat list of nodes, each of 12
//! bytes; numbers and strings are places in the text. Streaming goes over that list, takes no memory and doesn't
//! recurse.
//!
//! [`run_read`] is a whole program over any words and devices: it writes a text again as JSON, or as a script of calls.
#![tactic(auto)]

mod document;
mod escape;
mod following;
pub mod joined;
mod json_part;
mod json_parts;
mod json_ref;
mod json_text;
mod json_tokens;
pub mod laws;
mod node;
mod node_calls;
mod node_list;
mod node_script;
mod node_text;
mod number;
mod number_calls;
mod offset;
mod piece;
pub mod pointer;
mod program;
mod reader;
mod running;
pub mod script_pieces;
mod span;
mod stack;
pub mod status;
mod string;
mod string_calls;
mod text_part;
mod unchanged;
mod word;

pub use document::{JsonDoc, LimitedError, ReadError};
pub use following::{NextCharacters, expected, goes_on};
pub use json_part::JsonPart;
pub use json_parts::{JsonItems, JsonMember, JsonMembers};
pub use json_ref::{JsonKind, JsonRef};
pub use json_text::JsonText;
pub use json_tokens::{JsonMark, JsonToken, JsonTokens, TokenKind};
pub use program::ReadJson;
pub use running::run_read;
pub use sval_io::Limits;
