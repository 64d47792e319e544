//! JSON Pointer (RFC 6901) into items.

ghost use Rattle.std.specs.Prelude.{◌≡◌};
ghost use Rattle.std.specs.List.{concat};
ghost use Rattle.std.specs.Str.{bytes_eq};
ghost use Rattle.sval_json_read.specs.Pointers.{reference_token};
ghost use Rattle.sval_cbor_read.specs.CborPointers.{cbor_has_token, cbor_last_referenced, cbor_referenced, cbor_pointed};

use crate::cbor_parts::CborEntries;
use crate::cbor_ref::CborRef;
use crate::cbor_text::CborText;
use sval_json_read::pointer::{array_index, token_behind};

impl<'d> CborRef<'d> {
    /// The item that a JSON Pointer (RFC 6901) references, where there is one. It takes no memory.
    ///
    /// The empty pointer references the item itself. Each reference token behind a `/` is one step. In an array it is
    /// an index: `0`, or digits without a leading zero. In a map it is a key that is a text, in which `~1` stands for
    /// `/` and `~0` for `~`. Of pairs with one key the last counts, as in [`CborRef::get`].
    ///
    /// ```
    /// let doc = CborDoc::read(alloc, b"\xa1\x63a/b\x82\x01\xa1\x63m~n\x08".as_slice())?;
    /// assert_eq!(rt; doc.root().pointer("/a~1b/1/m~0n").and_then(|item| item.as_i64()), Some(8));
    /// assert_eq!(rt; doc.root().pointer("/a~1b/01").is_none(), true);
    /// ```
    pub fn pointer(&self, pointer: &str) -> Option<CborRef<'d>>
        ensures { result ≡ cbor_pointed pointer.now self.now }
    {
        if pointer.is_empty() {
            return Some(self.again());
        }
        let mut rest = pointer.strip_prefix('/')?;
        let mut found = self.again();
        'tokens: while let Some((token, behind)) = rest.split_once('/') {
            found = found.referenced(token)?;
            rest = behind;
        }
        found.referenced(rest)
    }

    /// The item that one reference token references in it.
    fn referenced(&self, token: &str) -> Option<CborRef<'d>>
        ensures { result ≡ cbor_referenced token.now self.now }
    {
        match self.items() {
            Some(items) => match array_index(token) {
                Some(index) => items.nth(index),
                None => None,
            },
            None => match self.entries() {
                Some(entries) => entries.last_referenced(token),
                None => None,
            },
        }
    }

    /// Whether it is a text with this reference token.
    fn has_token(&self, token: &str) -> bool
        ensures { result ≡ cbor_has_token token.now self.now }
    {
        match self.text() {
            Some(text) => text.has_token(token),
            None => false,
        }
    }
}

impl<'d> CborEntries<'d> {
    /// The value of the last pair that is left whose key has this reference token.
    fn last_referenced(self, token: &str) -> Option<CborRef<'d>>
        ensures { result ≡ cbor_last_referenced token.now self.entry }
    {
        let mut left = self;
        let mut found = None;
        while let Some(entry) = left.next() {
            if entry.key.has_token(token) {
                found = Some(entry.value);
            }
        }
        found
    }
}

impl<'d> CborText<'d> {
    /// Whether the reference token of its chunks, joined, is this one. Takes no memory.
    #[tactic(auto, using(sval_json::proofs::TextFronts::other_front, sval_json_read::proofs::Pointers::token_joined))]
    fn has_token(&self, token: &str) -> bool
        ensures { result ≡ bytes_eq (reference_token (concat self.now)) token.now }
    {
        let mut left = self.again();
        let mut rest = token.as_bytes();
        while let Some(text) = left.next() {
            match token_behind(text.as_bytes(), rest) {
                Some(more) => rest = more,
                None => return false,
            }
        }
        rest.is_empty()
    }
}
