//! Where values and names begin.

ghost use Rattle.std.specs.Prelude.{◌≡◌, ◌<◌, length, get_or};
ghost use Rattle.sval_json_read.specs.SeenLimits.{begins_value, begins_node};
ghost use Rattle.sval_json_read.specs.SeenReader.{expected_of};

use super::{Expected, Reader};
use crate::number::first_phase;

impl Reader {
    /// Whether a value or a name begins with the byte at this place.
    pub(crate) fn begins_node(&self, bytes: &[u8], at: usize) -> bool
        requires { at < length bytes.now }
        ensures { result ≡ begins_node (expected_of bytes.now self.now.from at self.now.expected)
            (get_or bytes.now at 0) }
    {
        match self.expected {
            Expected::AValue | Expected::FirstItem => begins_value(bytes[at]),
            Expected::FirstKey | Expected::NextKey => bytes[at] == b'"',
            _ => false,
        }
    }
}

/// Whether a value begins with the byte.
fn begins_value(byte: u8) -> bool
    ensures { result ≡ begins_value byte }
{
    match byte {
        b'"' | b'[' | b'{' | b'n' | b't' | b'f' => true,
        _ => first_phase(byte).is_some(),
    }
}
