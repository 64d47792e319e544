//! Places in a text, for people.

ghost use Rattle.std.specs.Prelude.{◌≡◌, ◌<◌, ◌+◌, ◌^◌, ◌==◌, suc, if◌then◌else◌, take};
ghost use Rattle.sval_io.specs.Counted.{counted};
ghost use Rattle.sval_io.specs.TextPlaces.{line_feeds, behind_line_feed};

/// The line and the column of the byte at this place, as an error tells it. Both are counted from 1.
///
/// A line ends with its line feed. The column counts bytes, and not characters. A place behind the end is the end.
///
/// ```
/// assert_eq!(rt; line_and_column(b"[1,\n 2,]", 7), (2, 4));
/// assert_eq!(rt; line_and_column(b"[1,\n 2,]", 3), (1, 4));
/// assert_eq!(rt; line_and_column(b"", 0), (1, 1));
/// ```
pub fn line_and_column(bytes: &[u8], at: u64) -> (u64, u64)
    ensures line { result.0 ≡ counted 1 (line_feeds (take at bytes.now)) }
    ensures column { result.1 ≡ counted 1 (behind_line_feed 0 (take at bytes.now)) }
{
    let front = first_bytes(bytes, at);
    let mut lines: u64 = 0;
    let mut columns: u64 = 0;
    let mut next: usize = 0;
    while next < front.len() {
        let (more_lines, more_columns) = after_byte(front[next], lines, columns);
        lines = more_lines;
        columns = more_columns;
        next += 1;
    }
    let line = 1_u64.saturating_add(lines);
    let column = 1_u64.saturating_add(columns);
    (line, column)
}

/// The number of lines that have ended, and of bytes in the line that goes on, after one more byte.
fn after_byte(byte: u8, lines: u64, columns: u64) -> (u64, u64)
    requires lines { lines + 1 < 2 ^ 64 }
    requires columns { columns + 1 < 2 ^ 64 }
    ensures lines { result.0 ≡ if byte == 10 then suc lines else lines }
    ensures columns { result.1 ≡ if byte == 10 then 0 else suc columns }
{
    if byte == b'\n' {
        (lines + 1, 0)
    } else {
        (lines, columns + 1)
    }
}

/// The first `count` bytes, or all where there are fewer.
fn first_bytes(bytes: &[u8], count: u64) -> &[u8]
    ensures { result.now ≡ take count bytes.now }
{
    if count < bytes.len() as u64 {
        bytes.split_at(count as usize).0
    } else {
        bytes
    }
}
