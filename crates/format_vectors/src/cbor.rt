//! The reader and the writer of CBOR.

mod at_once;
mod depth;
mod items;
mod limits;
mod lookups;
mod malformed;
mod parts;
mod places;
mod sinks;
mod unsupported;
mod written;
