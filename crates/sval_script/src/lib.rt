//! Scripts: calls as lines of text.
//!
//! A [`Script`] is read from bytes, whole or by a [`ScriptReader`] piece by piece. It is a value, and makes the calls
//! of its lines. So is a [`ScriptSlice`] of it. A [`Printer`] is a stream that writes calls as lines of a script, and
//! [`print_canon`] prints a value as a canonical script shows it. What a line says is in `specs/Lines.antt`, and how
//! calls are printed is in `specs/Printed.antt`. [`laws`] has what holds of both. [`is_text`] tells whether bytes are a
//! text, as those of a line have to be.
#![tactic(auto)]

mod bytes;
mod canon;
mod field;
mod fields;
mod known;
pub mod laws;
mod line;
mod making;
mod number;
mod print_error;
mod printer;
mod reader;
mod script;
mod short;
mod slice;
mod store;
mod tag;
mod text;
mod word;

pub use canon::print_canon;
pub use print_error::PrintError;
pub use printer::Printer;
pub use reader::ScriptReader;
pub use script::{Script, ScriptError};
pub use slice::ScriptSlice;
pub use text::is_text;
