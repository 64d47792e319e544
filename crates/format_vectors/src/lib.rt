//! Tests of the readers and writers of formats and of the programs, by their public calls: JSON, laid out or not, lines of
//! a source, the filter, CBOR, and what the programs take from a process, answer, write and tell, over devices that fail
//! at any call.
#![tactic(auto)]

#[cfg(test)]
mod cases;
#[cfg(test)]
mod cbor;
#[cfg(test)]
mod filter;
#[cfg(test)]
mod inputs;
#[cfg(test)]
mod json;
#[cfg(test)]
mod levels;
#[cfg(test)]
mod pretty;
#[cfg(test)]
mod process;
#[cfg(test)]
mod rows;
#[cfg(test)]
mod shown;
#[cfg(test)]
mod source_lines;
