//! Tests of hostile use: devices that give and take little, or fail at any call; inputs at the limit of what is read;
//! and long and deep values.

mod cases;
mod depth;
mod faults;
mod kinds;
mod limit;
mod long;
