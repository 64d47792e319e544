//! Scripts, and what reading, checking and the program's forms answer for them.

mod captured;
mod containers;
mod fields;
mod forms;
mod keys;
mod layout;
mod malformed;
mod number_texts;
mod numbers;
mod raw;
mod reading;
mod sizes;
mod texts;
mod values;
mod variants;

use crate::rows::try_rows;

/// Rows of values.
#[test]
fn values_of_each_kind(rt: HostRuntime) {
    for rows in [
        containers::ROWS,
        keys::ROWS,
        raw::ROWS,
        texts::ROWS,
        values::ROWS,
        variants::ROWS,
    ] {
        try_rows(&rt, rt.alloc(), rows);
    }
}

/// Rows of numbers, and of the fields of lines.
#[test]
fn numbers_and_fields(rt: HostRuntime) {
    for rows in [
        fields::ROWS,
        number_texts::ROWS,
        numbers::ROWS,
        reading::ROWS,
    ] {
        try_rows(&rt, rt.alloc(), rows);
    }
}

/// Rows of calls that are no value, and of the forms of the words.
#[test]
fn calls_and_forms(rt: HostRuntime) {
    for rows in [
        captured::ROWS,
        forms::ROWS,
        layout::ROWS,
        malformed::ROWS,
        sizes::ROWS,
    ] {
        try_rows(&rt, rt.alloc(), rows);
    }
}
