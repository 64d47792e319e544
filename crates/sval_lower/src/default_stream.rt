//! What a stream is told in the place of a call that it doesn't take itself: its lower calls.
//!
//! There is one function for each call, of the call's name and parameters, and two for values. Each makes the lower
//! calls of its call on the stream, in order, as `specs/Lower.antt` lists them; the first refusal is passed on, and no
//! later call is made. A base call stands for itself.
//!
//! A stream that lowers wraps another, and tells that one: its own `take` can't call a function that calls `take`.

mod binaries;
mod leaves;
mod maps;
mod names;
mod numbers;
mod records;
mod texts;
mod tuples;

pub use binaries::{binary_begin, binary_end, binary_fragment, binary_fragment_computed};
pub use leaves::{bool, null, value, value_computed};
pub use maps::{
    map_begin, map_end, map_key_begin, map_key_end, map_value_begin, map_value_end, seq_begin,
    seq_end, seq_value_begin, seq_value_end,
};
pub use names::{enum_begin, enum_end, tag, tag_hint, tagged_begin, tagged_end};
pub use numbers::{i8, i16, i32, i64, i128, u8, u16, u32, u64, u128};
pub use records::{
    record_begin, record_end, record_tuple_begin, record_tuple_end, record_tuple_value_begin,
    record_tuple_value_end, record_value_begin, record_value_end,
};
pub use texts::{LendsStatic, text_begin, text_end, text_fragment, text_fragment_computed};
pub use tuples::{tuple_begin, tuple_end, tuple_value_begin, tuple_value_end};
