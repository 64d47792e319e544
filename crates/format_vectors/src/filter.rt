//! The filter of fields.

mod paths;
mod refused;
mod values;
mod walks;
