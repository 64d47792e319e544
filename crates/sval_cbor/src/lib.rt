//! CBOR (RFC 8949) of values.
//!
//! [`stream_to_cbor`] writes a value to a sink, and [`stream_to_cbor_with`] writes it in a [`Style`]. [`run_cbor`] is a
//! whole program over any words and devices: it writes the value that a script of calls spells.
#![tactic(auto)]

mod counting;
mod data_item;
mod error;
mod head;
mod integer;
pub mod laws;
mod number;
mod open_rows;
mod program;
mod running;
pub mod status;
mod style;
mod to_cbor;
mod writer;

pub use data_item::{write_i64, write_number, write_text_string};
pub use error::CborError;
pub use program::WriteCbor;
pub use running::run_cbor;
pub use style::{Binaries, Lengths, Style};
pub use to_cbor::{stream_to_cbor, stream_to_cbor_with};
