//! Calls as plain data, and the refusal that answers a call.
//!
//! Everything that a value says, it says by a flat list of [`Call`]s. This crate holds the calls, what of them a
//! stream may keep ([`Lending`]), and the one error that a stream answers ([`Error`]).
#![tactic(auto)]

mod call;
mod error;
mod grouped;
mod index;
mod label;
pub mod laws;
mod name;
mod tag;
pub mod tags;

pub use call::{AnyCall, Call, Lending, Lent};
pub use error::{Error, NoMemory, Result, refusal};
pub use grouped::{Fragment, GroupedCall, Head, Int, Slot};
pub use index::Index;
pub use label::Label;
pub use name::Name;
pub use tag::Tag;
