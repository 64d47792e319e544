//! The words `null`, `true` and `false`, letter by letter.

ghost use Rattle.std.specs.Prelude.{◌≡◌};
ghost use Rattle.sval_json_read.specs.Words.{AfterLetter, letters_of};

/// What is left of a word.
#[derive(Clone, Copy)]
pub(crate) enum Word {
    Ull,
    Ll,
    L,
    Rue,
    Ue,
    E,
    Alse,
    Lse,
    Se,
}

impl Word {
    /// Its letters.
    #[inline(always)]
    pub(crate) fn letters(self) -> &'static [u8]
        ensures { result.now ≡ letters_of self }
    {
        match self {
            Word::Ull => b"ull",
            Word::Ll => b"ll",
            Word::L => b"l",
            Word::Rue => b"rue",
            Word::Ue => b"ue",
            Word::E => b"e",
            Word::Alse => b"alse",
            Word::Lse => b"lse",
            Word::Se => b"se",
        }
    }

    /// What is left after this letter, which is nothing after the last one. `None` where another letter comes next.
    pub(crate) fn after(self, letter: u8) -> Option<Option<Word>>
        ensures { AfterLetter self letter result }
    {
        match (self, letter) {
            (Word::Ull, b'u') => Some(Some(Word::Ll)),
            (Word::Ll, b'l') => Some(Some(Word::L)),
            (Word::Rue, b'r') => Some(Some(Word::Ue)),
            (Word::Ue, b'u') => Some(Some(Word::E)),
            (Word::Alse, b'a') => Some(Some(Word::Lse)),
            (Word::Lse, b'l') => Some(Some(Word::Se)),
            (Word::Se, b's') => Some(Some(Word::E)),
            (Word::L, b'l') | (Word::E, b'e') => Some(None),
            _ => None,
        }
    }
}
