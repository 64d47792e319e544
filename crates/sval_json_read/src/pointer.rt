//! JSON Pointer (RFC 6901): its reference tokens, as array indexes and as names. [`JsonRef::pointer`] goes by them.

ghost use Rattle.std.specs.Prelude.{◌≡◌, ◌++◌, ℕ, List, None, IfSome};
ghost use Rattle.sval_json_read.specs.Pointers.{encoded_byte, reference_token, array_index, referenced, pointed};

use crate::json_ref::JsonRef;
use crate::json_text::behind;

impl<'d> JsonRef<'d> {
    /// The value that a JSON Pointer (RFC 6901) references, where there is one. It takes no memory.
    ///
    /// The empty pointer references the value itself. Each reference token behind a `/` is one step. In an array it is
    /// an index: `0`, or digits without a leading zero. In an object it is a name, in which `~1` stands for `/` and
    /// `~0` for `~`. Of pairs with one name the last counts, as in [`JsonRef::get`].
    ///
    /// ```
    /// let doc = JsonDoc::read_str(alloc, "{\"a/b\": [1, {\"m~n\": 8}]}")?;
    /// assert_eq!(rt; doc.root().pointer("/a~1b/1/m~0n").and_then(|value| value.as_i64()), Some(8));
    /// assert_eq!(rt; doc.root().pointer("/a~1b/01").is_none(), true);
    /// ```
    pub fn pointer(&self, pointer: &str) -> Option<JsonRef<'d>>
        ensures { result ≡ pointed pointer.now self.now }
    {
        if pointer.is_empty() {
            return Some(self.again());
        }
        let mut rest = pointer.strip_prefix('/')?;
        let mut found = self.again();
        'tokens: while let Some((token, behind)) = rest.split_once('/') {
            found = found.referenced(token)?;
            rest = behind;
        }
        found.referenced(rest)
    }

    /// The value that one reference token references in it.
    fn referenced(&self, token: &str) -> Option<JsonRef<'d>>
        ensures { result ≡ referenced token.now self.now }
    {
        match self.items() {
            Some(items) => match array_index(token) {
                Some(index) => items.nth(index),
                None => None,
            },
            None => match self.members() {
                Some(members) => members.last_referenced(token),
                None => None,
            },
        }
    }
}

/// The index of an array that a reference token is: `0`, or digits without a leading zero, of a number below 2^64.
///
/// ```
/// assert_eq!(rt; array_index("10"), Some(10));
/// assert_eq!(rt; array_index("01"), None);
/// ```
pub fn array_index(token: &str) -> Option<usize>
    ensures { result ≡ array_index token.now }
{
    let first = *token.as_bytes().first()?;
    if first == b'0' {
        return (token.len() == 1).then_some(0);
    }
    // A sign is one to `parse`.
    if first == b'+' {
        return None;
    }
    match token.parse::<usize>() {
        Ok(index) => Some(index),
        Err(_) => None,
    }
}

/// What follows a byte of a name, encoded, at the beginning of these bytes, where they begin with it.
fn behind_byte<'b>(byte: u8, bytes: &'b [u8]) -> Option<&'b [u8]>
    ensures found { IfSome result (λ more. bytes.now ≡ encoded_byte byte ++ more.now) }
    ensures other { result ≡ None → (more : List ℕ) → bytes.now ≡ encoded_byte byte ++ more → ⊥ }
{
    match byte {
        b'~' => behind(b"~0".as_slice(), bytes),
        b'/' => behind(b"~1".as_slice(), bytes),
        _ => behind([byte].as_slice(), bytes),
    }
}

/// What follows a name's reference token at the beginning of these bytes, where they begin with it. In a token `~` is
/// written as `~0` and `/` as `~1`. It takes no memory.
///
/// ```
/// assert_eq!(rt; token_behind(b"a/b".as_slice(), b"a~1bc".as_slice()), Some(b"c".as_slice()));
/// ```
pub fn token_behind<'b>(name: &[u8], bytes: &'b [u8]) -> Option<&'b [u8]>
    ensures found { IfSome result (λ more. bytes.now ≡ reference_token name.now ++ more.now) }
    ensures other { result ≡ None → (more : List ℕ) → bytes.now ≡ reference_token name.now ++ more → ⊥ }
{
    let mut left = bytes;
    let mut next = 0;
    while next < name.len() {
        match behind_byte(name[next], left) {
            Some(more) => left = more,
            None => return None,
        }
        next += 1;
    }
    Some(left)
}
