//! The reader of JSON.

mod accepted;
mod bad_texts;
mod depth;
mod documents;
mod fronts;
pub(crate) mod limits;
mod lookups;
mod parts;
mod tokens;
