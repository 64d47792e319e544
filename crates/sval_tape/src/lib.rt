//! Calls as bytes, for values that come from elsewhere.
//!
//! A tape is the bytes of calls, one after another. A [`TapeWriter`] is a stream that writes each call, and
//! [`Tape::read`] reads them: a [`Tape`] is a value, which makes the calls again and lends their texts from the bytes.
//! [`stream_tape`] reads and makes the calls in one pass, and [`json_at_once`] writes the JSON of the commonest calls as
//! it reads them. Each list of calls has one tape. [`laws`] has what holds of tapes.
//!
//! # Format
//!
//! A call is one byte, its number, and then its operands in order. `specs/Tapes.antt` defines the same.
//!
//! | number | call | operands |
//! |---|---|---|
//! | 0 | `null` | |
//! | 1 | `bool` | 0 or 1 |
//! | 2 to 6 | `u8`, `u16`, `u32`, `u64`, `u128` | number |
//! | 7 to 11 | `i8`, `i16`, `i32`, `i64`, `i128` | signed number |
//! | 12 | `text_begin` | size? |
//! | 13, 14 | `text_fragment`, `text_fragment_computed` | block |
//! | 15 | `text_end` | |
//! | 16 | `binary_begin` | size? |
//! | 17, 18 | `binary_fragment`, `binary_fragment_computed` | block |
//! | 19 | `binary_end` | |
//! | 20 | `tag` | name |
//! | 21 | `tag_hint` | block |
//! | 22, 23 | `enum_begin`, `enum_end` | name |
//! | 24, 25 | `tagged_begin`, `tagged_end` | name |
//! | 26, 27 | `seq_begin`, `map_begin` | size? |
//! | 28 to 30 | `record_begin`, `tuple_begin`, `record_tuple_begin` | name, size? |
//! | 31, 32 | `seq_end`, `map_end` | |
//! | 33 to 35 | `record_end`, `tuple_end`, `record_tuple_end` | name |
//! | 36 to 38 | `seq_value_begin`, `map_key_begin`, `map_value_begin` | |
//! | 39 | `record_value_begin` | tag?, label |
//! | 40 | `tuple_value_begin` | tag?, index |
//! | 41 | `record_tuple_value_begin` | tag?, label, index |
//! | 42 to 44 | `seq_value_end`, `map_key_end`, `map_value_end` | |
//! | 45 to 47 | `record_value_end`, `tuple_value_end`, `record_tuple_value_end` | as at 39 to 41 |
//!
//! | operand | bytes |
//! |---|---|
//! | number, size | unsigned LEB128 in the shortest form, of 128 bits at most |
//! | signed number | the same by zigzag: 0, -1, 1, -2 are 0, 1, 2, 3 |
//! | block | the number of the bytes, and the bytes. A text is UTF-8 |
//! | tag | block: the tag's text |
//! | label | block, tag? |
//! | index | signed number, tag? |
//! | name | tag?, label?, index? |
//! | x? | 0, or 1 and then x |
//!
//! A tape doesn't say whether a label is static: the labels that a [`Tape`] makes are not. A [`TapeWriter`] writes any
//! tag. Reading knows the ten tags of `specs/Tags.antt` of `sval_label`, since a `Tag` borrows its text from the program.
#![tactic(auto)]

mod calls;
mod ints;
mod json;
pub mod laws;
mod numbers;
mod operands;
mod read_call;
mod reading;
mod step;
mod streaming;
mod tape;
mod text;
mod writer;

pub use json::json_at_once;
pub use streaming::stream_tape;
pub use tape::{Tape, TapeError};
pub use writer::TapeWriter;
