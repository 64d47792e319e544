//! The statuses that programs end with. A program that has further ones gives them other numbers.

ghost use Rattle.std.specs.Prelude.{◌≡◌};
ghost use Rattle.sval_program.specs.Statuses.{status_of_input};

use sval_io::InputError;

/// What is due was written.
pub const DONE: u8 = 0;

/// The words are no form. Nothing was read.
pub const USAGE: u8 = 2;

/// A line of the script is no call.
pub const BAD_LINE: u8 = 3;

/// No value, or no list of values, goes on with the call of a line.
pub const BAD_CALL: u8 = 4;

/// The calls are not one whole value, or not whole values where many may come.
pub const UNFINISHED: u8 = 5;

/// A map's key can't be written as a key.
pub const INVALID_KEY: u8 = 6;

/// A text tagged as a number is no number.
pub const INVALID_NUMBER: u8 = 7;

/// The output failed.
pub const WRITE: u8 = 8;

/// The input failed.
pub const READ: u8 = 9;

/// Memory was wanting.
pub const NO_MEMORY: u8 = 10;

/// The input is longer than is kept.
pub const TOO_LONG: u8 = 11;

/// The words can't be had. Nothing is said.
pub const NO_WORDS: u8 = 17;

/// The input is not UTF-8.
pub const NOT_UTF8: u8 = 12;

/// The input denotes no value of JSON.
pub const BAD_JSON: u8 = 13;

/// The value has text that says it is JSON, which CBOR can't take.
pub const RAW: u8 = 14;

/// A text tagged as a number is one that CBOR can't take as a whole number.
pub const NOT_INTEGER: u8 = 15;

/// The input is not one item of CBOR, in the profile that is read.
pub const BAD_CBOR: u8 = 16;

/// The status where an input wasn't read.
pub fn of_input(error: InputError) -> u8
    ensures { result ≡ status_of_input error }
{
    match error {
        InputError::ReadFault => READ,
        InputError::TooLong => TOO_LONG,
        InputError::NoMemory => NO_MEMORY,
    }
}
