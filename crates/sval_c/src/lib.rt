//! The formats for C, and for all that calls C: bytes in, bytes out.
//!
//! Each export takes an input and a buffer, and answers a [`Report`]: it says whether the first bytes of the buffer are
//! exactly what is due of the input, how long that is, or why nothing is due. `specs/Due.antt`, `specs/OfTapes.antt` and
//! `specs/OfFilters.antt` say what is due of each export, and `specs/Reports.antt` how a report says it. No export has a precondition, so every input has an answer.
//!
//! C declares the exports in `bindings/c/sval.h`.
#![tactic(auto)]

mod fault;
pub mod filter;
pub mod from_cbor;
pub mod from_json;
pub mod from_script;
pub mod from_tape;
mod guarded;
mod lack;
pub mod report;
pub mod status;
