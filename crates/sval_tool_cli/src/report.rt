//! Errors for people: what is wrong, where, and the line.

mod excerpt;
mod expected;
mod formats;
mod found;
mod place;
mod scripts;
mod usage;

pub(crate) use formats::{
    push_bad_cbor, push_bad_json, push_byte_order_mark, push_left_over, push_not_utf8,
};
pub(crate) use place::{Place, expected_at};
pub(crate) use scripts::{push_bad_call, push_bad_line};
pub(crate) use usage::push_usage;
