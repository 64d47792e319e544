//! The values of the standard library.
//!
//! The calls of each are in `specs/Values.antt`, and the tree that these spell is in `specs/ValueTrees.antt`.

mod arrays;
mod collections;
mod leaves;
mod long_tuples;
mod maps;
mod names;
mod options;
mod pointers;
mod sequences;
mod texts;
mod tuple_streaming;
mod tuples;

pub use leaves::Null;
pub use sequences::stream_seq;
pub use texts::stream_str;
pub use tuple_streaming::stream_tuple_value;
