//! What the program `sval` does: documents are read, what is asked for is left out of them, and they are written anew.
//!
//! [`convert_all`] converts all inputs of a run. [`write_document`] converts one document, and [`write_lines`] one in each
//! line.
#![tactic(auto)]

mod convert;
mod end;
mod error;
mod inputs;
mod left;
mod lines;
mod packed;
mod path_word;
mod switch;
mod whole;
mod words;

pub use convert::{Conversion, Target, write_document};
pub use end::End;
pub use error::DocumentError;
pub use inputs::{ConvertError, Shape, convert_all};
pub use lines::{LinesError, write_lines};
pub use packed::{write_cbor, write_left_cbor};
pub use switch::{Flag, OPTIONS, OptionRow, Setting, Switch, name_of};
pub use whole::read_whole;
pub use words::{Command, Complaint, Input, Options, Output, Stop, read_words};
