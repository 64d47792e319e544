//! Objects as lines of logfmt.

use crate::trouble::Unwritten;
use logfmt::is_key;
use std::alloc::{AllocError, Global};
use sval_io::{Sink, SinkError, VecSink, write_all};
use sval_json::escape::write_escaped;
use sval_json_read::{JsonItems, JsonMembers, JsonRef, JsonText};

/// The elements that are left of an array.
#[derive(Drop)]
struct IndexedItems<'d> {
    items: JsonItems<'d>,
    /// The index of the first of them.
    index: u64,
}

impl<'d> IndexedItems<'d> {
    /// Takes the next element, with its index. There is none where the array ends.
    fn take(&mut self) -> Option<(u64, JsonRef<'d>)> {
        let item = self.items.next()?;
        let index = self.index;
        self.index = index.saturating_add(1);
        Some((index, item))
    }
}

/// What is left of an object or an array that was begun.
#[derive(Drop)]
enum Parts<'d> {
    /// The members of an object.
    Members(JsonMembers<'d>),
    /// The elements of an array.
    Items(IndexedItems<'d>),
}

/// An object or an array that was begun, and how many bytes of the key are those of its own place.
#[derive(Drop)]
struct Level<'d> {
    parts: Parts<'d>,
    place: usize,
}

/// What is left of an object or array that isn't empty.
fn parts_of<'d>(value: &JsonRef<'d>) -> Option<Parts<'d>> {
    if value.len()? == 0 {
        return None;
    }
    match value.members() {
        Some(members) => Some(Parts::Members(members)),
        None => Some(Parts::Items(IndexedItems {
            items: value.items()?,
            index: 0,
        })),
    }
}

/// Whether a text is written between quotes: it is empty, reads as null, or has a byte that no bare value has.
fn needs_quotes(text: &[u8]) -> bool {
    let is_bare = |byte: &u8| *byte > b' ' && *byte != 0x7f && *byte != b'"' && *byte != b'=';
    text.is_empty() || text == b"null".as_slice() || !text.iter().all(is_bare)
}

/// Writes the line of one object.
#[derive(Drop)]
struct LineWriter<'d> {
    alloc: Global,
    /// The key of the next pair.
    key: Vec<u8>,
    line: VecSink,
    levels: Vec<Level<'d>>,
}

impl<'d> LineWriter<'d> {
    /// Adds a name to the key, behind a dot if it isn't the first.
    fn push_name(&mut self, name: &[u8]) -> Result<(), AllocError> {
        if !self.key.is_empty() {
            self.key.push(b'.')?;
        }
        self.key.extend_from_slice(name)
    }

    /// Adds the name of a member to the key.
    fn push_member(&mut self, name: &JsonText<'d>) -> Result<(), Unwritten> {
        let text = name.to_text(self.alloc)?;
        if !is_key(text.as_bytes()) {
            return Err(bad_key(self.alloc, text.as_str()));
        }
        Ok(self.push_name(text.as_bytes())?)
    }

    /// Writes a text, between quotes where it needs them.
    fn write_text(&mut self, text: &[u8]) -> Result<(), SinkError> {
        if !needs_quotes(text) {
            return write_all(&mut self.line, text);
        }
        write_all(&mut self.line, b"\"".as_slice())?;
        write_escaped(&mut self.line, text)?;
        write_all(&mut self.line, b"\"".as_slice())
    }

    /// Writes a value without parts.
    fn write_leaf(&mut self, value: &JsonRef<'d>) -> Result<(), Unwritten> {
        if let Some(text) = value.as_text() {
            let text = text.to_text(self.alloc)?;
            return Ok(self.write_text(text.as_bytes())?);
        }
        let bytes = match (value.as_number(), value.as_bool()) {
            (Some(digits), _) => digits.as_bytes(),
            (None, Some(true)) => b"true".as_slice(),
            (None, Some(false)) => b"false".as_slice(),
            (None, None) if value.is_null() => b"null".as_slice(),
            (None, None) if value.members().is_some() => b"{}".as_slice(),
            (None, None) => b"[]".as_slice(),
        };
        Ok(write_all(&mut self.line, bytes)?)
    }

    /// Writes a pair, behind a space if it isn't the first.
    fn write_pair(&mut self, value: &JsonRef<'d>) -> Result<(), Unwritten> {
        if !self.line.as_slice().is_empty() {
            write_all(&mut self.line, b" ".as_slice())?;
        }
        write_all(&mut self.line, &self.key)?;
        write_all(&mut self.line, b"=".as_slice())?;
        self.write_leaf(value)
    }

    /// Takes the next value of a level, and makes its key. There is none where the level ends.
    fn next_value(&mut self, level: &mut Level<'d>) -> Result<Option<JsonRef<'d>>, Unwritten> {
        self.key.truncate(level.place);
        match &mut level.parts {
            Parts::Members(members) => {
                let Some(member) = members.next() else {
                    return Ok(None);
                };
                self.push_member(&member.name)?;
                Ok(Some(member.value))
            }
            Parts::Items(items) => {
                let Some((index, item)) = items.take() else {
                    return Ok(None);
                };
                let name = format!(in self.alloc; "{index}")?;
                self.push_name(name.as_bytes())?;
                Ok(Some(item))
            }
        }
    }

    /// Writes a value's pair, or begins the value's parts.
    fn take_value(&mut self, value: &JsonRef<'d>) -> Result<(), Unwritten> {
        match parts_of(value) {
            Some(parts) => {
                let place = self.key.len();
                Ok(self.levels.push(Level { parts, place })?)
            }
            None => self.write_pair(value),
        }
    }

    /// Writes the pairs of all that was begun.
    fn write_pairs(&mut self) -> Result<(), Unwritten> {
        for _ in 0..u64::MAX {
            let Some(mut level) = self.levels.pop() else {
                break;
            };
            if let Some(value) = self.next_value(&mut level)? {
                self.levels.push(level)?;
                self.take_value(&value)?;
            }
        }
        Ok(())
    }
}

/// Why an object with a name that is no key of logfmt isn't written.
fn bad_key(alloc: Global, name: &str) -> Unwritten {
    match format!(in alloc;
        "the name {name:?} is no key of logfmt: it is empty, or has a space, a quote, `=` or a control character\nhint: leave the field out by --drop"
    ) {
        Ok(text) => Unwritten::Told(text),
        Err(cause) => Unwritten::from(cause),
    }
}

/// Writes the line of logfmt of an object, without a line feed.
///
/// Each value that is neither an object nor an array is a pair. Its key is the names of the members and the indexes of
/// the elements around it, with a dot between each two. An object or array that is empty is a pair too. Where a name is
/// no key nothing is written.
///
/// ```
/// let doc = JsonDoc::read_str(alloc, "{\"a\":{\"b\":1,\"c\":\"x y\"},\"d\":[null,2.50]}")?;
/// write_logfmt(alloc, doc.root(), &mut out)?;      // a.b=1 a.c="x y" d.0=null d.1=2.50
/// ```
pub(crate) fn write_logfmt<'d, K: Sink>(
    alloc: Global,
    root: &JsonRef<'d>,
    out: &mut K,
) -> Result<(), Unwritten> {
    let Some(members) = root.members() else {
        return Err(Unwritten::Told(format!(in alloc;
            "a value is no object, and has no line of logfmt"
        )?));
    };
    let mut writer = LineWriter {
        alloc,
        key: Vec::new(alloc),
        line: VecSink::new(alloc),
        levels: Vec::new(alloc),
    };
    writer.levels.push(Level {
        parts: Parts::Members(members),
        place: 0,
    })?;
    writer.write_pairs()?;
    Ok(write_all(out, writer.line.as_slice())?)
}
