//! Which characters a text of JSON may go on with.

ghost use Rattle.std.specs.Prelude.{◌≡◌, ◌++◌, ◌↔◌, IfOk, IfErr, IsTrue, IsUtf8};
ghost use Rattle.std.specs.Char.{encode_utf8};
ghost use Rattle.sval_json.specs.Fronts.{IsFront};
ghost use Rattle.sval_json_read.specs.NextCharacters.{comes_next, may_end_next, takes_next, ends_next, DenotesSome, ArePossible};
ghost use Rattle.sval_json_read.specs.ReadErrors.{KeepsSome};

use crate::reader::Reader;
use crate::reader::waiting::Waiting;
use std::alloc::Global;
use sval_core::NoMemory;

/// A byte that is no ASCII: the reader takes each of them or none.
const NO_ASCII: u8 = 0x80;

/// Which characters may come behind the beginning of a text of JSON, and whether the text may end there. It has none,
/// and no end, where no text of JSON begins so.
///
/// ```
/// let next = expected(alloc, "[1")?;
/// assert_eq!(rt; (next.contains(','), next.contains(']'), next.contains('a')), (true, true, false));
/// assert_eq!(rt; next.may_end(), false);
/// ```
#[derive(Clone, Copy)]
pub struct NextCharacters {
    waiting: Option<Waiting>,
}

impl NextCharacters {
    /// Whether this character may come. From U+0080 on each character may come, or none.
    #[tactic(auto, using(crate::proofs::Waits::high_alike))]
    pub fn contains(self, character: char) -> bool
        ensures { result ≡ comes_next self character }
    {
        match self.waiting {
            None => false,
            Some(waiting) => if character.is_ascii() {
                waiting.takes(character as u8)
            } else {
                waiting.takes(NO_ASCII)
            },
        }
    }

    /// Whether the text may end here: what was read of it denotes a value.
    pub fn may_end(self) -> bool
        ensures { result ≡ may_end_next self }
    {
        match self.waiting {
            None => false,
            Some(waiting) => waiting.ends(),
        }
    }
}

/// Which characters may come behind `front`: those with which some text that denotes a value (RFC 8259, section 2) goes
/// on. The text may end there exactly where `front` denotes a value.
///
/// It reads the front once.
///
/// ```
/// let next = expected(alloc, "{\"a\"")?;
/// assert_eq!(rt; (next.contains(':'), next.contains(' '), next.contains('b')), (true, true, false));
/// assert_eq!(rt; expected(alloc, " 12")?.may_end(), true);
/// assert_eq!(rt; expected(alloc, "[1}")?.contains(' '), false);
/// ```
///
/// # Errors
///
/// [`NoMemory`] may come only where some first bytes of the front hold a whole number or string, a bracket or brace, or
/// the first letter of a word.
pub fn expected(alloc: Global, front: &str) -> Result<NextCharacters, NoMemory>
    ensures characters { IfOk result (λ next. ArePossible front.now (comes_next next)) }
    ensures end { IfOk result (λ next. IsTrue (may_end_next next) ↔ DenotesSome front.now) }
    ensures no_memory { IfErr result (λ error. KeepsSome front.now) }
{
    match waiting_behind(alloc, front.as_bytes()) {
        Ok(waiting) => Ok(NextCharacters { waiting }),
        Err(error) => Err(error),
    }
}

/// Whether some text that denotes a value (RFC 8259, section 2) begins with `front` and then has the character `next`.
///
/// It reads the front once. Where no text of JSON begins with the front, the answer is `false`. For more than one
/// character [`expected`] reads the front only once for all.
///
/// ```
/// assert_eq!(rt; goes_on(alloc, "[1", ','), Ok(true));
/// assert_eq!(rt; goes_on(alloc, "[1,", ']'), Ok(false));
/// ```
///
/// # Errors
///
/// Those of [`expected`].
pub fn goes_on(alloc: Global, front: &str, next: char) -> Result<bool, NoMemory>
    ensures goes { IfOk result (λ goes. IsTrue goes ↔ IsFront (front.now ++ encode_utf8 next)) }
    ensures no_memory { IfErr result (λ error. KeepsSome front.now) }
{
    match expected(alloc, front) {
        Ok(characters) => Ok(characters.contains(next)),
        Err(error) => Err(error),
    }
}

/// What the reader waits for behind these bytes. `None` where no text of JSON begins with them.
fn waiting_behind(alloc: Global, bytes: &[u8]) -> Result<Option<Waiting>, NoMemory>
    requires { IsUtf8 bytes.now }
    ensures characters { IfOk result (λ waiting. ArePossible bytes.now (takes_next waiting)) }
    ensures end { IfOk result (λ waiting. IsTrue (ends_next waiting) ↔ DenotesSome bytes.now) }
    ensures no_memory { IfErr result (λ error. KeepsSome bytes.now) }
{
    let mut reader = Reader::new(alloc);
    let mut at: usize = 0;
    while at < bytes.len() {
        match reader.step(bytes, at) {
            Ok(true) => at += 1 + reader.plain_run(bytes, at + 1),
            Ok(false) => return Ok(None),
            Err(cause) => return Err(cause),
        }
    }
    Ok(Some(reader.waiting()))
}
