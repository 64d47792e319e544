//! Computed fragments that are kept.

ghost use Rattle.std.specs.Prelude.{◌≡◌, string_bytes};

use std::marker::Model;

/// A computed part of a text that is kept, seen as its text.
///
/// ```
/// let text = TokenText::new(String::from_str(alloc, "42")?);
/// assert_eq!(rt; text.as_str(), "42");
/// ```
#[derive(Drop, Debug)]
pub struct TokenText {
    text: String,
}

impl Model for TokenText {
    ghost use Rattle.std.specs.Prelude.{ℕ, List, string_bytes};

    ghost Value = { List ℕ };

    ghost view = { λ token. string_bytes token.text };
}

impl TokenText {
    /// Keeps a fragment of a text. It takes no memory.
    pub fn new(text: String) -> Self
        ensures { result ≡ string_bytes text }
    {
        TokenText { text }
    }

    /// The text.
    pub fn as_str(&self) -> &str
        ensures { result.now ≡ self.now }
    {
        self.text.as_str()
    }
}

impl PartialEq for TokenText {
    ghost use Rattle.std.specs.Str.{bytes_eq};
    ghost use Rattle.std.proofs.lemmas.Cmp.{nat_list_eq_equiv};
    ghost use Rattle.std.specs.Cmp.{partial_equiv_from_equiv};

    ghost eq = { bytes_eq };

    ghost laws = { partial_equiv_from_equiv nat_list_eq_equiv };

    fn eq(&self, other: &TokenText) -> bool {
        self.as_str() == other.as_str()
    }
}

impl Eq for TokenText {
    ghost use Rattle.std.proofs.lemmas.Cmp.{nat_list_eq_equiv};

    ghost laws = { nat_list_eq_equiv };
}

/// A computed part of a binary that is kept, seen as its bytes.
///
/// ```
/// let bytes = TokenBytes::new(vec![in alloc; 1, 2]?);
/// assert_eq!(rt; bytes.as_slice(), [1, 2].as_slice());
/// ```
#[derive(Drop, Debug)]
pub struct TokenBytes {
    bytes: Vec<u8>,
}

impl Model for TokenBytes {
    ghost use Rattle.std.specs.Prelude.{ℕ, List};

    ghost Value = { List ℕ };

    ghost view = { λ token. token.bytes.items };
}

impl TokenBytes {
    /// Keeps a fragment of a binary. It takes no memory.
    pub fn new(bytes: Vec<u8>) -> Self
        ensures { result ≡ bytes.items }
    {
        TokenBytes { bytes }
    }

    /// The bytes.
    pub fn as_slice(&self) -> &[u8]
        ensures { result.now ≡ self.now }
    {
        self.bytes.as_slice()
    }
}

impl PartialEq for TokenBytes {
    ghost use Rattle.std.specs.Str.{bytes_eq};
    ghost use Rattle.std.proofs.lemmas.Cmp.{nat_list_eq_equiv};
    ghost use Rattle.std.specs.Cmp.{partial_equiv_from_equiv};

    ghost eq = { bytes_eq };

    ghost laws = { partial_equiv_from_equiv nat_list_eq_equiv };

    fn eq(&self, other: &TokenBytes) -> bool {
        self.as_slice() == other.as_slice()
    }
}

impl Eq for TokenBytes {
    ghost use Rattle.std.proofs.lemmas.Cmp.{nat_list_eq_equiv};

    ghost laws = { nat_list_eq_equiv };
}
