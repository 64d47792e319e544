//! Where bytes fail that no item begins.

ghost use Rattle.std.specs.Prelude.{◌≡◌, ◌<◌, ◌≤◌, length, drop};
ghost use Rattle.sval_cbor_read.specs.Items.{head_at_front};
ghost use Rattle.sval_cbor_read.specs.SeenHeads.{IsHead};
ghost use Rattle.sval_cbor_read.specs.SeenItems.{BeginsNothing};
ghost use Rattle.sval_cbor_read.specs.SeenStops.{ChunksStop, NumberStops, ItemStops};

use crate::head::{Head, read_head};
use crate::string::binary_at;

/// The offset of the first head from here on that begins no definite byte string, or the length of the bytes. Where a
/// break ends the chunks, it is that of the break.
fn chunks_stop(bytes: &[u8], from: usize) -> usize
    requires { from ≤ length bytes.now }
    ensures { ChunksStop bytes.now from result }
{
    let mut at = from;
    while at < bytes.len() {
        match binary_at(bytes, at) {
            Some(piece) => at = piece.next,
            None => return at,
        }
    }
    at
}

/// The offset where the byte string under the tag of a number fails.
fn number_stop(bytes: &[u8], at: usize) -> usize
    requires { at ≤ length bytes.now }
    ensures { NumberStops bytes.now at result }
{
    if at >= bytes.len() {
        return at;
    }
    if bytes[at] == 0x5f {
        return chunks_stop(bytes, at + 1);
    }
    at
}

/// The offset where an item fails that begins with this head of a tag: that of the head, or one in the number under the
/// tag.
fn tag_stop(bytes: &[u8], at: usize, head: Head) -> usize
    requires within { at ≤ length bytes.now }
    requires is { (at < head.next) × IsHead bytes.now at head (head_at_front (drop at bytes.now)) }
    requires major { head.major ≡ 6 }
    requires nothing { BeginsNothing bytes.now at }
    ensures { ItemStops bytes.now at result }
{
    match head.number {
        2 => number_stop(bytes, head.next),
        3 => number_stop(bytes, head.next),
        _ => at,
    }
}

/// The offset where an item fails that begins here.
#[cold]
#[inline(never)]
pub(crate) fn item_stop(bytes: &[u8], at: usize) -> usize
    requires within { at ≤ length bytes.now }
    requires nothing { BeginsNothing bytes.now at }
    ensures { ItemStops bytes.now at result }
{
    match read_head(bytes, at) {
        None => at,
        Some(head) => if head.major == 6 {
            tag_stop(bytes, at, head)
        } else {
            at
        },
    }
}
