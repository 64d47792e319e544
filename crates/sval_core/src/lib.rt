//! Streams and values, and which calls spell which value.
//!
//! A [`Value`] makes calls, and a [`Stream`] takes them. The law of both is in `specs/Law.antt`. What a list of calls
//! spells is in `specs/Trees.antt` and `specs/Spells.antt`, and [`laws`] has what holds of it.
#![tactic(auto)]

mod computed;
mod forwards;
mod glance;
pub mod laws;
pub mod name_laws;
mod stream;
mod value;
pub mod value_laws;
mod values;

pub use computed::Computed;
pub use glance::{is_surely_whole, skip_around};
pub use stream::Stream;
pub use sval_label::{
    AnyCall, Call, Error, Fragment, GroupedCall, Head, Index, Int, Label, Lending, Lent, Name,
    NoMemory, Result, Slot, Tag, refusal, tags,
};
pub use value::Value;
pub use values::{Null, stream_seq, stream_str, stream_tuple_value};
