//! A filter of fields: values without the fields and entries that paths of labels name, or with those alone.
//!
//! [`Paths`] name fields and entries, and a [`Rule`] says whether they are left out or they alone stay
//! (`specs/Pruned.antt`). A [`Filter`] is a stream before another one, and passes on the calls of what is left
//! (`specs/Filtering.antt`). Its law is in `specs/FilterLaw.antt`. [`prune`] gives a value with what is left
//! (`specs/Pruning.antt`), and [`run_filter`] is a whole program over any words and devices. [`laws`] has what holds of
//! them.
#![tactic(auto)]

mod filter;
mod form;
mod held;
mod key_text;
pub mod laws;
mod layer;
mod layers;
mod paths;
mod program;
mod pruning;
mod running;
mod sieve;
mod tails;
mod walk;

pub use filter::Filter;
pub use paths::{PathError, Paths, Rule};
pub use program::FilterFields;
pub use pruning::{PruneError, prune};
pub use running::run_filter;
pub use sval_check::Why;
pub use walk::Walk;
