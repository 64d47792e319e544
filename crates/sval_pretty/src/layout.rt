//! Where line feeds and spaces come in a JSON text, byte by byte.

ghost use Rattle.std.specs.Prelude.{◌≡◌, ◌<◌, ◌+◌, ◌^◌};
ghost use Rattle.sval_pretty.specs.Layout.{mark_of_byte, next_place, next_depth};

/// What a byte is outside strings.
#[derive(Clone, Copy, Debug, PartialEq, Eq)]
pub enum Mark {
    /// White space.
    Space,
    /// A quote, which begins a string.
    Quote,
    /// `[` or `{`.
    Begin,
    /// `]` or `}`.
    End,
    /// `,`.
    Comma,
    /// `:`.
    Colon,
    /// A byte of a number or of `true`, `false` or `null`.
    Other,
}

/// Which white space is due before the next byte outside strings.
#[derive(Clone, Copy, Debug, PartialEq, Eq)]
pub enum Gap {
    /// None.
    Nothing,
    /// A line feed and the indent, unless the container ends at once.
    First,
    /// A line feed and the indent.
    Line,
    /// A space.
    Blank,
}

/// Where the next byte comes.
#[derive(Clone, Copy, Debug, PartialEq, Eq)]
pub enum Place {
    /// Outside strings, behind this gap.
    Outside(Gap),
    /// In a string.
    Inside,
    /// In a string, right after a backslash.
    Escaped,
}

impl Mark {
    /// What this byte is outside strings.
    #[inline(always)]
    pub fn of(byte: u8) -> Mark
        ensures { result ≡ mark_of_byte byte }
    {
        match byte {
            b' ' | b'\t' | b'\n' | b'\r' => Mark::Space,
            b'"' => Mark::Quote,
            b'[' | b'{' => Mark::Begin,
            b']' | b'}' => Mark::End,
            b',' => Mark::Comma,
            b':' => Mark::Colon,
            _ => Mark::Other,
        }
    }
}

impl Place {
    /// The place behind a byte.
    #[inline(always)]
    pub fn next(self, byte: u8) -> Place
        ensures { result ≡ next_place self byte }
    {
        match self {
            Place::Escaped => Place::Inside,
            Place::Inside if byte == b'"' => Place::Outside(Gap::Nothing),
            Place::Inside if byte == b'\\' => Place::Escaped,
            Place::Inside => Place::Inside,
            Place::Outside(gap) => match Mark::of(byte) {
                Mark::Space => Place::Outside(gap),
                Mark::Quote => Place::Inside,
                Mark::Begin => Place::Outside(Gap::First),
                Mark::Comma => Place::Outside(Gap::Line),
                Mark::Colon => Place::Outside(Gap::Blank),
                Mark::End | Mark::Other => Place::Outside(Gap::Nothing),
            },
        }
    }

    /// The depth behind a byte, which is the number of containers around what follows.
    #[inline(always)]
    pub fn next_depth(self, depth: usize, byte: u8) -> usize
        requires { depth + 1 < 2 ^ 64 }
        ensures { result ≡ next_depth self depth byte }
    {
        match self {
            Place::Outside(_) => match Mark::of(byte) {
                Mark::Begin => depth + 1,
                Mark::End => depth.saturating_sub(1),
                _ => depth,
            },
            _ => depth,
        }
    }
}
