//! Tests of the examples: a small library, a logger, token assertions, and a writer of another format.

mod events;
mod forms;
mod lines;
mod measures;
mod points;
mod structs;
