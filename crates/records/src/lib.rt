//! Structs and enums of a user's own as values: one line for the fields of each.
#![tactic(auto)]

mod event;
mod level;
mod my_record;
mod order;
mod pair;
mod request;
mod shapes;
mod site;

pub use event::Event;
pub use level::Level;
pub use my_record::MyRecord;
pub use order::{Item, Order, Payment};
pub use pair::{Interval, Pair, Versioned};
pub use request::{Body, Headers, Request};
pub use shapes::{Metres, Origin, Point, Shape};
pub use site::Site;
