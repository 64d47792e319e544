//! Pretty JSON written to a sink.

ghost use Rattle.std.specs.Prelude.{◌∷◌, ◌++◌, []};
ghost use Rattle.sval_io.specs.Sinks.{WritesAll};
ghost use Rattle.sval_pretty.specs.Layout.{pretty, new_line, gap_text, gap_at_end, laid_outside, laid_byte};

use crate::layout::{Gap, Mark, Place};
use sval_io::{Sink, SinkError, write_in_place};

/// Writes a line feed, and two spaces for each level.
fn write_line<K: Sink>(sink: &mut K, depth: usize) -> Result<(), SinkError>
    ensures { WritesAll result (K.told sink.old) (new_line depth) (K.told sink.new) }
{
    write_in_place(sink, &[b'\n'])?;
    for level in 0..depth {
        write_in_place(sink, &[b' ', b' '])?;
    }
    Ok(())
}

/// Writes the white space of a gap.
fn write_gap<K: Sink>(sink: &mut K, gap: Gap, depth: usize) -> Result<(), SinkError>
    ensures { WritesAll result (K.told sink.old) (gap_text gap depth) (K.told sink.new) }
{
    match gap {
        Gap::Nothing => Ok(()),
        Gap::First => write_line(sink, depth),
        Gap::Line => write_line(sink, depth),
        Gap::Blank => write_in_place(sink, &[b' ']),
    }
}

/// Writes the white space before the end of a container.
fn write_gap_at_end<K: Sink>(sink: &mut K, gap: Gap, depth: usize) -> Result<(), SinkError>
    ensures { WritesAll result (K.told sink.old) (gap_at_end gap depth) (K.told sink.new) }
{
    let around = if depth == 0 { 0 } else { depth - 1 };
    match gap {
        Gap::First => Ok(()),
        Gap::Nothing => write_line(sink, around),
        Gap::Line => write_line(sink, around),
        Gap::Blank => write_line(sink, around),
    }
}

/// Writes a byte behind its gap.
fn write_behind_gap<K: Sink>(
    sink: &mut K,
    gap: Gap,
    depth: usize,
    byte: u8,
) -> Result<(), SinkError>
    ensures { WritesAll result (K.told sink.old) (gap_text gap depth ++ (byte ∷ [])) (K.told sink.new) }
{
    write_gap(sink, gap, depth)?;
    write_in_place(sink, &[byte])
}

/// Writes the end of a container.
fn write_end<K: Sink>(sink: &mut K, gap: Gap, depth: usize, byte: u8) -> Result<(), SinkError>
    ensures { WritesAll result (K.told sink.old) (gap_at_end gap depth ++ (byte ∷ [])) (K.told sink.new) }
{
    write_gap_at_end(sink, gap, depth)?;
    write_in_place(sink, &[byte])
}

/// Writes what is due of a byte outside strings.
fn write_outside<K: Sink>(
    sink: &mut K,
    gap: Gap,
    depth: usize,
    byte: u8,
    mark: Mark,
) -> Result<(), SinkError>
    ensures { WritesAll result (K.told sink.old) (laid_outside gap depth byte mark) (K.told sink.new) }
{
    match mark {
        Mark::Space => Ok(()),
        Mark::End => write_end(sink, gap, depth, byte),
        Mark::Quote => write_behind_gap(sink, gap, depth, byte),
        Mark::Begin => write_behind_gap(sink, gap, depth, byte),
        Mark::Comma => write_behind_gap(sink, gap, depth, byte),
        Mark::Colon => write_behind_gap(sink, gap, depth, byte),
        Mark::Other => write_behind_gap(sink, gap, depth, byte),
    }
}

/// Writes what is due of a byte.
fn write_byte<K: Sink>(sink: &mut K, place: Place, depth: usize, byte: u8) -> Result<(), SinkError>
    ensures { WritesAll result (K.told sink.old) (laid_byte place depth byte) (K.told sink.new) }
{
    match place {
        Place::Outside(gap) => write_outside(sink, gap, depth, byte, Mark::of(byte)),
        Place::Inside => write_in_place(sink, &[byte]),
        Place::Escaped => write_in_place(sink, &[byte]),
    }
}

/// Writes a JSON text with one line for each element and member, and two spaces for each level.
///
/// White space outside strings is dropped, `": "` follows a key, and an empty container ends at once. No line feed
/// is written at the end. Where the text denotes a value, what is written denotes the same one. Other bytes are laid out
/// in the same way.
///
/// ```
/// let mut sink = VecSink::new(alloc);
/// write_pretty(&mut sink, b"[1,[]]".as_slice())?;
/// assert_eq!(rt; sink.as_slice(), b"[\n  1,\n  []\n]".as_slice());
/// ```
///
/// # Errors
///
/// Those of the sink. It took a first part of the pretty text then, and not all.
pub fn write_pretty<K: Sink>(sink: &mut K, json: &[u8]) -> Result<(), SinkError>
    ensures { WritesAll result (K.told sink.old) (pretty json.now) (K.told sink.new) }
{
    let mut place = Place::Outside(Gap::Nothing);
    let mut depth: usize = 0;
    for byte in json {
        write_byte(sink, place, depth, *byte)?;
        depth = place.next_depth(depth, *byte);
        place = place.next(*byte);
    }
    Ok(())
}
