//! The parts of arrays and maps.

ghost use Rattle.std.specs.Prelude.{◌≤◌, length};
ghost use Rattle.sval_cbor_read.specs.SeenParts.{Follows};

/// What follows in an array or a map.
#[derive(Clone, Copy)]
pub(crate) enum NextPart {
    /// One more item or pair, and how many are still to come after that.
    Another(Option<usize>),
    /// Its end, and the place behind it.
    End(usize),
    /// Neither: the bytes end before the break.
    Nothing,
}

/// What follows at a place in an array or a map. `left` is the number of items or pairs that are still to come, or
/// `None` where a break ends them.
#[inline(always)]
pub(crate) fn next_part(left: Option<usize>, bytes: &[u8], at: usize) -> NextPart
    requires { at ≤ length bytes.now }
    ensures { Follows left bytes.now at result }
{
    match left {
        Some(0) => NextPart::End(at),
        Some(left) => NextPart::Another(Some(left - 1)),
        None => if at >= bytes.len() {
            NextPart::Nothing
        } else if bytes[at] == 0xff {
            NextPart::End(at + 1)
        } else {
            NextPart::Another(None)
        },
    }
}
