//! Tests of streams and buffers, by their public calls: what checking says, what is written as JSON, what buffers
//! capture, join, collect and make again, and tapes.
#![tactic(auto)]

#[cfg(test)]
mod cases;
#[cfg(test)]
mod checked;
#[cfg(test)]
mod collected;
#[cfg(test)]
mod fragments;
#[cfg(test)]
mod labels;
#[cfg(test)]
mod refused;
#[cfg(test)]
mod replayed;
#[cfg(test)]
mod sinks;
#[cfg(test)]
mod tapes;
#[cfg(test)]
mod written;
