//! A stack of indexes.

ghost use Rattle.std.specs.Prelude.{◌≡◌, true, [], ◌∷◌, reverse, is_ok, if◌then◌else◌, option_map};
ghost use Rattle.std.specs.Bool.{then_some};
ghost use Rattle.sval_label.specs.SeenIndex.{seen_index};
ghost use Rattle.sval_label.specs.Ranges.{is_index};
ghost use Rattle.sval_label.specs.Equalities as equal;
ghost use Rattle.sval_core.specs.SameNames as same;
ghost use Rattle.sval_core.specs.Stacks.{below};
ghost use Rattle.sval_check.specs.Stacked.{stacked, below_if, index_in, is_below_0, signed_by, innermost_number};

use crate::tags::Tags;
use std::alloc::Global;
use std::marker::Model;
use sval_core::{Index, NoMemory};

/// What is kept of an index beside a number and its tag.
#[derive(Clone, Copy)]
struct Mark {
    /// The index is as far below -1 as the number says, and else it is the number.
    is_negative: bool,
    /// It has a tag.
    is_tagged: bool,
}

/// A stack of indexes, seen as these, the innermost first.
#[derive(Drop)]
pub(crate) struct Indexes {
    numbers: Vec<u64>,
    marks: Vec<Mark>,
    /// The tags of those that have one. No end is compared with them.
    tags: Tags,
}

impl Model for Indexes {
    ghost use Rattle.std.specs.Prelude.{List, reverse};
    ghost use Rattle.sval_label.specs.Calls.{Index};
    ghost use Rattle.sval_check.specs.Stacked.{kept_indexes};

    ghost Value = { List Index };

    ghost view = { λ indexes. kept_indexes (reverse indexes.numbers.items) (reverse indexes.marks.items) indexes.tags };
}

/// The number of an index, which is in the range of an `i64` or of a `u64`.
fn number_of(index: &Index) -> i128
    ensures number { result ≡ (seen_index index.now).number }
    ensures in_range { is_index result ≡ true }
{
    match index.to_i64() {
        Some(number) => i128::from(number),
        None => i128::from(index.to_u64().unwrap_or(0)),
    }
}

/// A number is below 0.
fn is_negative(number: i128) -> bool
    ensures { result ≡ is_below_0 number }
{
    number < 0
}

/// How far a number is below -1, or else the number.
fn in_short(number: i128) -> u64
    requires { is_index number ≡ true }
    ensures { signed_by (is_below_0 number) result ≡ number }
{
    if number < 0 {
        (-1 - number) as u64
    } else {
        number as u64
    }
}

/// The number that is kept so.
fn in_long(is_negative: bool, number: u64) -> i128
    ensures { result ≡ signed_by is_negative number }
{
    if is_negative {
        -1 - i128::from(number)
    } else {
        i128::from(number)
    }
}

/// The innermost number, or 0 where there is none.
fn innermost(numbers: &[u64], marks: &[Mark]) -> i128
    ensures { result ≡ innermost_number (reverse numbers.now) (reverse marks.now) }
{
    match (numbers.last(), marks.last()) {
        (None, _) => 0,
        (Some(number), None) => in_long(false, *number),
        (Some(number), Some(mark)) => in_long(mark.is_negative, *number),
    }
}

impl Indexes {
    /// No index, which takes no memory yet.
    pub(crate) fn new(alloc: Global) -> Self
        ensures { result ≡ [] }
    {
        Indexes {
            numbers: Vec::new(alloc),
            marks: Vec::new(alloc),
            tags: Tags::new(alloc),
        }
    }

    /// Puts an index on the others, if there is one.
    #[inline(always)]
    pub(crate) fn put(&mut self, index: Option<&Index>) -> Result<(), NoMemory>
        ensures { let index = option_map (λ index. seen_index index.now) index.entry in
            self.new ≡ (if is_ok result then stacked index self.old else self.old) }
    {
        match index {
            None => Ok(()),
            Some(index) => self.push(index),
        }
    }

    /// Puts an index on the others.
    fn push(&mut self, index: &Index) -> Result<(), NoMemory>
        ensures { self.new ≡ (if is_ok result then seen_index index.now ∷ self.old else self.old) }
    {
        self.numbers.reserve(1)?;
        self.marks.reserve(1)?;
        self.tags.put(index.tag())?;
        let number = number_of(index);
        self.numbers.push_reserved(in_short(number));
        self.marks.push_reserved(Mark {
            is_negative: is_negative(number),
            is_tagged: index.tag().is_some(),
        });
        Ok(())
    }

    /// Takes the innermost index off, where one is meant.
    #[inline(always)]
    pub(crate) fn take(&mut self, is_meant: bool)
        ensures { self.new ≡ below_if is_meant self.old }
    {
        if is_meant {
            self.pop();
        }
    }

    /// Takes the innermost index off.
    fn pop(&mut self)
        ensures { self.new ≡ below self.old }
    {
        if let Some(_number) = self.numbers.pop() {
            let is_tagged = match self.marks.pop() {
                Some(mark) => mark.is_tagged,
                None => false,
            };
            self.tags.take(is_tagged);
        }
    }

    /// An index is the innermost one.
    pub(crate) fn is(&self, index: &Index) -> bool
        ensures { result ≡ equal.same_index (seen_index index.now) (index_in self.now) }
    {
        number_of(index) == innermost(&self.numbers, &self.marks)
    }

    /// An index, or none, is the innermost one, where one is meant, or else none.
    #[inline(always)]
    pub(crate) fn are(&self, is_meant: bool, index: Option<&Index>) -> bool
        ensures { result ≡ same.same_option equal.same_index
            (option_map (λ index. seen_index index.now) index.entry) (then_some is_meant (index_in self.now)) }
    {
        match (is_meant, index) {
            (false, None) => true,
            (true, Some(index)) => self.is(index),
            _ => false,
        }
    }
}
