//! Tests of the library as a user calls it: what labels keep, what adapters, functions and lowerings make, what readers
//! answer, where values of a list end, what tokens keep, what is collected, captured and made again, and what is written
//! of values that are checked first.
#![tactic(auto)]

#[cfg(test)]
mod adapters;
#[cfg(test)]
mod buffers;
#[cfg(test)]
mod captured;
#[cfg(test)]
mod errors;
#[cfg(test)]
mod examples;
#[cfg(test)]
mod functions;
#[cfg(test)]
mod labels;
#[cfg(test)]
mod lists;
#[cfg(test)]
mod lowered;
#[cfg(test)]
mod owned;
#[cfg(test)]
mod read;
#[cfg(test)]
mod rendered;
#[cfg(test)]
mod shown;
#[cfg(test)]
mod targets;
#[cfg(test)]
mod tokens;
#[cfg(test)]
mod whole;
#[cfg(test)]
mod written;
