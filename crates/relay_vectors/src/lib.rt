//! Tests of `sval_relay` and of what it does with scripts: what is answered for them, the program over any devices,
//! sinks, and hostile use: devices that give and take little, or fail at any call; inputs at the limit of what is read;
//! long and deep values; and calls that no value goes on with.
#![tactic(auto)]

#[cfg(test)]
mod calls;
#[cfg(test)]
mod captured;
#[cfg(test)]
mod fakes;
#[cfg(test)]
mod forms;
#[cfg(test)]
mod hostile;
#[cfg(test)]
mod pictures;
#[cfg(test)]
mod printing;
#[cfg(test)]
mod real_sinks;
#[cfg(test)]
mod relay;
#[cfg(test)]
mod rows;
#[cfg(test)]
mod scripts;
#[cfg(test)]
mod shown;
#[cfg(test)]
mod sinks;
#[cfg(test)]
mod slices;
