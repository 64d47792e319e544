//! The lines that several programs tell.

ghost use Rattle.std.specs.Prelude.{◌≡◌};
ghost use Rattle.sval_program.specs.Reports as reports;
ghost use Rattle.sval_program.specs.Reports.{device_reports, report_among};
ghost use Rattle.sval_program.specs.Statuses.{status_of_input};

use crate::line::Line;
use sval_io::InputError;

/// A line of the script, counted from 1, is no call.
pub fn bad_line(line: u64) -> Line
    ensures { result ≡ reports.bad_line line }
{
    Line::numbered("line ", line, ": not a call\n")
}

/// No value, or no list of values, goes on with the call of a line of the script, counted from 1.
pub fn bad_call(line: u64) -> Line
    ensures { result ≡ reports.bad_call line }
{
    Line::numbered("line ", line, ": no value goes on with this call\n")
}

/// The calls aren't whole: one value, or values where many may come.
pub fn unfinished(many: bool) -> Line
    ensures { result ≡ reports.unfinished many }
{
    if many {
        Line::text("the calls are not whole values\n")
    } else {
        Line::text("the calls are not one whole value\n")
    }
}

/// A map's key can't be written as a key.
pub fn invalid_key() -> Line
    ensures { result ≡ reports.invalid_key }
{
    Line::text("attempt to serialize a non-string key\n")
}

/// A text tagged as a number is no number.
pub fn invalid_number() -> Line
    ensures { result ≡ reports.invalid_number }
{
    Line::text("attempt to serialize an invalid number\n")
}

/// The output failed.
pub fn write_fault() -> Line
    ensures { result ≡ reports.write_fault }
{
    Line::text("write fault\n")
}

/// The input failed.
pub fn read_fault() -> Line
    ensures { result ≡ reports.read_fault }
{
    Line::text("read fault\n")
}

/// Memory was wanting.
pub fn out_of_memory() -> Line
    ensures { result ≡ reports.out_of_memory }
{
    Line::text("out of memory\n")
}

/// The input is longer than is kept.
pub fn too_long() -> Line
    ensures { result ≡ reports.too_long }
{
    Line::text("the input is longer than 16777216 bytes\n")
}

/// The input is not UTF-8.
pub fn not_utf8() -> Line
    ensures { result ≡ reports.not_utf8 }
{
    Line::text("the input is not UTF-8\n")
}

/// The input denotes no value of JSON, and fails at this byte.
pub fn bad_json(at: u64) -> Line
    ensures { result ≡ reports.bad_json at }
{
    Line::numbered("byte ", at, ": not JSON\n")
}

/// A value has text that says it is JSON.
pub fn raw() -> Line
    ensures { result ≡ reports.raw }
{
    Line::text("attempt to write raw JSON as CBOR\n")
}

/// A text tagged as a number is none that CBOR can take.
pub fn not_integer() -> Line
    ensures { result ≡ reports.not_integer }
{
    Line::text("attempt to write a number that is no whole number of 128 bits\n")
}

/// The input is not one item of CBOR.
pub fn bad_cbor() -> Line
    ensures { result ≡ reports.bad_cbor }
{
    Line::text("not one CBOR item of this profile\n")
}

/// The words are no form, as [`Failure`](crate::Failure) prints it. A program tells its own line for them.
pub fn no_form() -> Line
    ensures { result ≡ reports.no_form_line }
{
    Line::text("the arguments are no form that the program takes\n")
}

/// The line where an input wasn't read.
pub fn of_input(error: InputError) -> Line
    ensures { result ≡ report_among (status_of_input error) device_reports }
{
    match error {
        InputError::ReadFault => read_fault(),
        InputError::TooLong => too_long(),
        InputError::NoMemory => out_of_memory(),
    }
}
