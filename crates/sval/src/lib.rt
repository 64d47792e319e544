//! The one crate that most users need: values, streams, and values in other forms.
//!
//! Here are the names of `sval_core` and `sval_lower` again, and values that stand for others: bytes as binaries,
//! pairs as maps, and printed texts as texts and as numbers. [`Render`] is for what prints itself as a text, and
//! [`Display`] makes a value of it.
#![tactic(auto)]

mod binary_array;
mod binary_slice;
mod fields;
pub mod laws;
mod map_slice;
mod prints;
mod render;
mod shown;
mod std_display;
mod streaming;
mod structs;
mod tuple_fields;
mod tuple_structs;

pub use binary_array::BinaryArray;
pub use binary_slice::{BinarySlice, stream_binary};
pub use fields::{Fields, Named};
pub use map_slice::{MapSlice, stream_map};
pub use render::{Render, RenderError};
pub use shown::{Display, DisplayError, stream_display, stream_display_fragments, stream_number};
pub use std_display::StdDisplay;
pub use streaming::{stream, stream_computed};
pub use structs::{
    stream_record, stream_struct, stream_struct_variant, stream_unit_variant, stream_value_variant,
};
pub use sval_core::{
    AnyCall, Call, Computed, Error, Fragment, GroupedCall, Head, Index, Int, Label, Lending, Lent,
    Name, NoMemory, Null, Result, Slot, Stream, Tag, Value, refusal, stream_seq, stream_str, tags,
};
pub use sval_lower::{GivenTag, Readers, default_stream, default_value};
pub use tuple_fields::TupleFields;
pub use tuple_structs::{
    stream_newtype, stream_tuple_struct, stream_tuple_variant, stream_unit_struct,
};
