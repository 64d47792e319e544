//! JSON that was written so far.

ghost use Rattle.std.specs.Prelude.{◌≡◌, ◌+◌, ◌≤◌, ◌++◌, true, false, [], IfSome, IsUtf8, drop, length, take};
ghost use Rattle.sval_json.specs.Escape.{escaped};
ghost use Rattle.sval_json.specs.Json.{comma};
ghost use Rattle.sval_cbor_read.specs.ItemJson.{text_of, JoinsText};

use crate::head::Head;
use crate::string::ascii_front;
use std::alloc::Global;
use sval_io::{VecSink, write_all};
use sval_json::escape::{plain_front, write_escaped};
use sval_json_read::joined::Joined;

/// How many bytes a text has at most that is joined.
const SHORT: usize = 32;

/// How many bytes are joined at most before an item.
const FULL: usize = 256 - 64;

/// JSON in memory, and what is joined behind it on the stack.
#[derive(Drop)]
pub(super) struct Written {
    passed: VecSink,
    joined: Joined,
}

impl Written {
    /// Nothing, which takes no memory yet.
    pub(super) fn new(alloc: Global) -> Self
        ensures { text_of result ≡ [] }
    {
        Written {
            passed: VecSink::new(alloc),
            joined: Joined::new(),
        }
    }

    /// Puts what is joined behind what is in memory, if there is room in memory.
    #[inline(never)]
    fn pass_on(&mut self) -> Option<()>
        ensures same { IfSome result (λ done. self.new.passed.bytes ≡ text_of self.old) }
        ensures empty { IfSome result (λ done. self.new.joined ≡ []) }
    {
        write_all(&mut self.passed, self.joined.as_slice()).ok()?;
        self.joined.clear();
        Some(())
    }

    /// Makes room for an item with its comma, if there is room in memory.
    #[inline(always)]
    pub(super) fn make_room(&mut self) -> Option<()>
        ensures same { IfSome result (λ done. text_of self.new ≡ text_of self.old) }
        ensures room { IfSome result (λ done. length self.new.joined + 64 ≤ 256) }
    {
        if self.joined.len() <= FULL {
            return Some(());
        }
        self.pass_on()
    }

    /// Joins a piece.
    #[inline(always)]
    pub(super) fn join(&mut self, piece: &[u8])
        requires { length self.old.joined + length piece.now ≤ 256 }
        ensures text { text_of self.new ≡ text_of self.old ++ piece.now }
        ensures more { length self.new.joined ≡ length self.old.joined + length piece.now }
    {
        self.joined.add(piece);
    }

    /// Joins the comma that is due.
    #[inline(always)]
    pub(super) fn join_comma(&mut self, is_first: bool)
        requires { length self.old.joined + 1 ≤ 256 }
        ensures text { text_of self.new ≡ text_of self.old ++ comma is_first }
        ensures short { length self.new.joined ≤ length self.old.joined + 1 }
    {
        if !is_first {
            self.join(b",");
        }
    }

    /// Joins the text behind a head, where it is short, ASCII and without an escape.
    #[inline(always)]
    pub(super) fn join_plain(&mut self, bytes: &[u8], head: Head) -> bool
        requires within { head.next ≤ length bytes.now }
        requires room { length self.old.joined + 32 ≤ 256 }
        ensures joins { JoinsText bytes.now head (text_of self.old) (text_of self.new) result }
        ensures short { length self.new.joined ≤ length self.old.joined + 32 }
    {
        if head.number > SHORT as u64 || bytes.len() - head.next < SHORT {
            return false;
        }
        let count = head.number as usize;
        let ahead = &bytes[head.next..];
        if plain_front(ahead) < count || ascii_front(ahead) < count {
            return false;
        }
        self.joined.add_part(bytes, head.next, head.next + count);
        true
    }

    /// Puts a text with its escapes, if there is room in memory.
    #[inline(never)]
    pub(super) fn put_escaped(&mut self, text: &str) -> Option<()>
        ensures text { IfSome result (λ done. text_of self.new ≡ text_of self.old ++ escaped text.now) }
        ensures empty { IfSome result (λ done. self.new.joined ≡ []) }
    {
        self.pass_on()?;
        write_escaped(&mut self.passed, text.as_bytes()).ok()
    }

    /// All of it, if there is room in memory.
    pub(super) fn into_vec(mut self) -> Option<Vec<u8>>
        ensures { IfSome result (λ text. text.items ≡ text_of self) }
    {
        self.pass_on()?;
        Some(self.passed.into_vec())
    }
}
