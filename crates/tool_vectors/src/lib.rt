//! Tests of what the program `sval` converts, by the public calls of `sval_tool`: rows beside jq, long and empty lines,
//! and devices that fail at each call.
#![tactic(auto)]

#[cfg(test)]
mod converting;
#[cfg(test)]
mod faults;
#[cfg(test)]
mod members;
#[cfg(test)]
mod rows;
#[cfg(test)]
mod shown;
