//! Texts that come in fragments, and captured values.
//!
//! A [`TextBuf`] joins the fragments of a text, a [`BinaryBuf`] those of a binary, and a [`ValueBuf`] captures the
//! calls of a value and makes them again. What they hold is in `specs/Pushes.antt` and `specs/Forest.antt`, and
//! [`laws`] has what holds of it.
#![tactic(auto)]

mod any_value;
mod begins;
mod binary_buf;
mod collect_binary;
pub mod collect_laws;
mod collect_text;
mod copies;
mod error;
mod fragment_buf;
mod fragments;
mod holder;
mod kept;
pub mod laws;
mod listed;
mod lowered;
mod named;
mod one_pass;
mod owning;
mod part;
mod parts;
mod recent;
mod refusals;
mod refused;
mod singles;
mod stores;
mod streamed;
mod text_buf;
mod value_buf;
mod wide;

pub use any_value::{AnyValue, Value};
pub use binary_buf::BinaryBuf;
pub use error::{Error, ErrorKind, Word};
pub use named::{CallStore, NamedCalls};
pub use refused::Refused;
pub use streamed::{stream_to_value, stream_to_value_owned};
pub use text_buf::TextBuf;
pub use value_buf::{AnyValueBuf, ValueBuf};
