//! What an export answers.

ghost use Rattle.std.specs.Prelude.{◌≡◌};
ghost use Rattle.sval_c.specs.Reports.{report_of_lack, checked_report, TellsBytes, TellsMadeOrLack};

use crate::lack::Lack;
use crate::status::TOO_SHORT;
use sval_program::status::{DONE, NO_MEMORY};

/// What an export answers.
///
/// | status | comes | `written` | `at` |
/// |---|---|---|---|
/// | 0 | the first `written` bytes of the buffer are exactly what is due | their number | 0 |
/// | 3 | a line of the script is no call | 0 | the line, counted from 1 |
/// | 4 | no value goes on with a call | 0 | the line of the script, or the number of the tape's call, counted from 1 |
/// | 5 | the calls are not one whole value | 0 | 0 |
/// | 6 | a key of a map can't be a key of JSON | 0 | 0 |
/// | 7 | text that stands for a number is none | 0 | 0 |
/// | 8 | the buffer is shorter than what is due | the number of bytes that are due | 0 |
/// | 10 | memory was wanting | 0 | 0 |
/// | 12 | the input is not UTF-8 | 0 | the length of its longest front that is UTF-8 |
/// | 13 | the input is not JSON | 0 | the offset of the first byte that no JSON text could have there |
/// | 14 | text says that it is JSON, which CBOR can't hold | 0 | 0 |
/// | 15 | a number has a fraction, an exponent or more than 128 bits, which this CBOR can't hold | 0 | 0 |
/// | 16 | the input is not one item of CBOR, in the profile that is read | 0 | 0 |
/// | 18 | the input is no tape | 0 | the offset of the first byte at which no call begins |
/// | 19 | the number of a style or a rule names none | 0 | 0 |
/// | 20 | a line of the paths is no path | 0 | the line, counted from 1, or 0 where the paths are not UTF-8 |
///
/// With status 0 the bytes of the buffer behind the first `written` ones stay as they were. With any other status the
/// whole buffer does.
#[repr(C)]
#[derive(Clone, Copy)]
pub struct Report {
    /// Which answer it is.
    pub status: u8,
    /// How many bytes were written, or are due.
    pub written: usize,
    /// The place of a fault.
    pub at: u64,
}

/// The report where an input is as it has to be, and no bytes are due.
pub(crate) fn of_checked() -> Report
    ensures { result ≡ checked_report }
{
    Report {
        status: DONE,
        written: 0,
        at: 0,
    }
}

/// The report where an input has no bytes to give.
pub(crate) fn of_lack(lack: Lack) -> Report
    ensures { result ≡ report_of_lack lack }
{
    match lack {
        Lack::Fault(fault) => Report {
            status: fault.status(),
            written: 0,
            at: fault.place(),
        },
        Lack::NoMemory => Report {
            status: NO_MEMORY,
            written: 0,
            at: 0,
        },
    }
}

/// Copies the bytes that are due to the front of the buffer, where it has room for them.
fn copy_out(bytes: &[u8], out: &mut [u8]) -> Report
    ensures { TellsBytes bytes.now result out.old out.new }
{
    let written = bytes.len();
    if written > out.len() {
        return Report {
            status: TOO_SHORT,
            written,
            at: 0,
        };
    }
    out[..written].copy_from_slice(bytes);
    Report {
        status: DONE,
        written,
        at: 0,
    }
}

/// Answers what was made of an input.
pub(crate) fn answer(made: Result<Vec<u8>, Lack>, out: &mut [u8]) -> Report
    ensures { TellsMadeOrLack made (λ bytes. bytes.items) result out.old out.new }
{
    match made {
        Ok(bytes) => copy_out(bytes.as_slice(), out),
        Err(lack) => of_lack(lack),
    }
}
