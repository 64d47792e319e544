//! What the program answers and writes over each kind of device.

mod made;
mod real_source;
mod relaying;
mod sources;
mod streams;
mod words;
