//! The programs: what they take from a process and answer, and devices that fail at any call.

mod cbor;
mod cbor_read;
mod devices;
mod faults;
mod filter;
mod in_memory;
mod json_read;
mod relay;
mod row;
mod trying;
mod words;
