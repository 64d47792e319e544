//! The machine that goes on with the calls which can still be completed.

ghost use Rattle.std.specs.Prelude.{◌≡◌, true, false, [], is_none};
ghost use Rattle.sval_label.specs.Made.{call_of};
ghost use Rattle.sval_label.specs.SeenName.{seen_name};
ghost use Rattle.sval_label.specs.Grouped.{seen_head, seen_slot};
ghost use Rattle.sval_core.specs.Trees.{plain_name, plain_head, first_kind};
ghost use Rattle.sval_core.specs.Checker.{InContainer, State};
ghost use Rattle.sval_core.specs.CheckerSteps.{unfilled, has_room, Variant, form_of_head, value, begin, at_top, next};
ghost use Rattle.sval_core.specs.CheckerSteps.{tagged_end, enum_end, end, part_begin, part_end, is_whole_tree};
ghost use Rattle.sval_core.specs.Stacks.{below, top_of};
ghost use Rattle.sval_check.specs.Checks.{has_own_end};
ghost use Rattle.sval_check.specs.Kept.{value_frame};
ghost use Rattle.sval_check.specs.Frames.{begun_frame, begun_form, seen_form};
ghost use Rattle.sval_check.specs.Tops.{content_fragment, content_end};
ghost use Rattle.sval_check.specs.Dues.{Readies, finished, undone};

mod apart;
mod step;

use crate::frame::{Begin, Content, Form};
use crate::kept::NamedValue;
use crate::stack::Stack;
use std::alloc::Global;
use std::error::Error;
use std::fmt;
use std::marker::Model;
use sval_core::{AnyCall, Fragment, GroupedCall, Head, Lending, Name, NoMemory, Slot};

/// Why a [`Machine`] doesn't go on with a call.
#[derive(Clone, Copy, Debug, PartialEq, Eq)]
pub enum Refusal {
    /// No value goes on with the call after those so far.
    NotViable,
    /// One does, the call begins something, and memory was wanting to keep that.
    NoMemory,
}

impl fmt::Display for Refusal {
    ghost use Rattle.std.specs.Prelude.{Some};
    ghost use Rattle.sval_check.specs.ErrorTexts.{refusal_text};

    ghost output = { λ error. Some (refusal_text error) };

    fn fmt<W: fmt::Write>(&self, f: &mut fmt::Formatter<W>) -> fmt::Result {
        f.write_str(match self {
            Refusal::NotViable => "no value goes on with the call",
            Refusal::NoMemory => "cannot allocate for a check",
        })
    }
}

impl Error for Refusal {}

impl From<NoMemory> for Refusal {
    ghost use Rattle.std.specs.Prelude.{◌≡◌};
    ghost use Rattle.sval_check.specs.declared.machine.Refusal.TheVariants as refusal;

    ghost from_gives = { λ _ why. why ≡ refusal.NoMemory };

    fn from(_cause: NoMemory) -> Refusal {
        Refusal::NoMemory
    }
}

/// What is still to be done for a call that [`Machine::ready`] made ready: by [`Machine::finish`] where the call is
/// taken, by [`Machine::undo`] where it isn't.
#[derive(Clone, Copy, Debug)]
pub enum Due {
    /// Nothing.
    Nothing,
    /// The innermost frame gets a whole value.
    Filled,
    /// Nothing: the frame of a value was opened.
    Opened,
    /// The frame of a part was opened. The container around the part still expects this many entries after it, if its
    /// size was given.
    Advanced(Option<usize>),
    /// So much is still to come of the text or binary.
    Left(Content, Option<usize>),
    /// The innermost frame closes. The one around it then holds a whole value, or none where this is `false`.
    Closed(bool),
}

/// The checker by itself, which is told call by call, for a stream that passes on other calls than those that it takes.
/// Where it passes on just these, [`Checked`](crate::Checked) is the shorter way.
///
/// It knows all that is open, and whether the innermost frame holds a whole value. A size counts down to what is still
/// to come, so that none is too great to be kept. What calls begin is kept in memory, with the names that their ends
/// have to say, and let go where they end.
///
/// ```
/// let mut machine = Machine::new(alloc);
/// let due = machine.ready::<Lent>(call)?;
/// match stream.take(call) {
///     Ok(()) => machine.finish(due),
///     Err(_) => machine.undo(due),
/// }
/// ```
#[derive(Drop)]
pub struct Machine {
    /// The innermost frame directly holds a whole value.
    filled: bool,
    frames: Stack,
}

impl Model for Machine {
    ghost Value = { State };

    ghost view = { λ machine. record { filled = machine.filled; frames = machine.frames } };
}

impl Machine {
    /// The machine before any call, which takes no memory yet. What calls begin is kept in memory of `alloc`.
    pub fn new(alloc: Global) -> Self
        ensures { result ≡ unfilled [] }
    {
        Machine {
            filled: false,
            frames: Stack::new(alloc),
        }
    }

    /// Whether the calls so far are one whole value.
    pub fn is_whole(&self) -> bool
        ensures { result ≡ is_whole_tree self.now }
    {
        self.filled && self.frames.is_empty()
    }

    /// Nothing is open.
    pub(crate) fn is_closed(&self) -> bool
        ensures { result ≡ is_none (top_of self.now.frames) }
    {
        self.frames.is_empty()
    }

    /// Forgets the whole value that the innermost frame directly holds, so that the next one may begin.
    pub(crate) fn clear(&mut self)
        ensures { self.new ≡ unfilled self.old.frames }
    {
        self.filled = false;
    }

    /// Makes ready for a call, or says why the calls so far don't go on with it: opens what the call opens, and leaves
    /// the rest to [`finish`](Machine::finish). After a refusal the calls so far are as before.
    ///
    /// - [`Refusal::NotViable`] comes exactly where no value goes on with the call.
    /// - [`Refusal::NoMemory`] comes only where one does, and memory was wanting for what the call begins.
    #[inline(always)]
    pub fn ready<L: Lending>(
        &mut self,
        call: AnyCall<'_, L::Text, L::Bytes>,
    ) -> Result<Due, Refusal>
        ensures { let call = call_of L.text L.bytes call.entry in
            Readies (has_own_end call) (next self.old call) self.old self.new result }
    {
        match call.grouped() {
            GroupedCall::Null | GroupedCall::Bool(_) | GroupedCall::Int(_) => {
                self.value(Form::Other)
            }
            GroupedCall::Tag(_) => self.value(Form::Variant),
            GroupedCall::TagHint(_) => Ok(Due::Nothing),
            GroupedCall::TextBegin(size) => self.begin(Begin::Text(size)),
            GroupedCall::TextFragment(Fragment::Borrowed(text)) => {
                self.fragment(Content::Text, L::text_len(text))
            }
            GroupedCall::TextFragment(Fragment::Computed(text)) => {
                self.fragment(Content::Text, text.len())
            }
            GroupedCall::TextEnd => self.content_end(Content::Text),
            GroupedCall::BinaryBegin(size) => self.begin(Begin::Binary(size)),
            GroupedCall::BinaryFragment(Fragment::Borrowed(bytes)) => {
                self.fragment(Content::Binary, L::bytes_len(bytes))
            }
            GroupedCall::BinaryFragment(Fragment::Computed(bytes)) => {
                self.fragment(Content::Binary, bytes.len())
            }
            GroupedCall::BinaryEnd => self.content_end(Content::Binary),
            GroupedCall::EnumBegin(name) => self.begin_named(NamedValue::Enum, name, None),
            GroupedCall::EnumEnd(name) => self.enum_end(name),
            GroupedCall::TaggedBegin(name) => self.begin_named(NamedValue::Tagged, name, None),
            GroupedCall::TaggedEnd(name) => self.tagged_end(name),
            // By `?`, what is due goes through memory here alone, and nowhere for the other calls.
            GroupedCall::Begin(head, size) => Ok(self.begin_container(head, size)?),
            GroupedCall::End(head) => self.end(head),
            GroupedCall::PartBegin(slot) => self.part_begin(slot),
            GroupedCall::PartEnd(slot) => self.part_end(slot),
        }
    }

    /// Does what is still due for the call that was made ready last, which is taken: the calls so far go on with it.
    #[inline(always)]
    pub fn finish(&mut self, due: Due)
        ensures { self.new ≡ finished due self.old }
    {
        match due {
            Due::Nothing | Due::Opened => {}
            Due::Filled => self.filled = true,
            Due::Advanced(left) => self.frames.advance_around(left),
            Due::Left(content, left) => self.frames.set_left(content, left),
            Due::Closed(filled) => self.close(filled),
        }
    }

    /// Closes the innermost frame. The one around it then holds a whole value, or none where `filled` is `false`.
    #[inline(always)]
    fn close(&mut self, filled: bool)
        ensures { self.new ≡ record { filled = filled; frames = below self.old.frames } }
    {
        self.frames.pop();
        self.filled = filled;
    }

    /// Closes what was opened for the call that was made ready last, which isn't taken: the calls so far are as before.
    pub fn undo(&mut self, due: Due)
        ensures { self.new ≡ undone due self.old }
    {
        if let Due::Opened | Due::Advanced(_) = due {
            self.frames.pop();
        }
    }

    /// A value of this form may begin here.
    #[inline(always)]
    fn has_room(&self, form: Form) -> bool
        ensures { result ≡ has_room (seen_form form) self.now }
    {
        !self.filled && self.frames.admits(form)
    }

    /// Makes ready for a value that is one call.
    #[inline(always)]
    fn value(&self, form: Form) -> Result<Due, Refusal>
        ensures { Readies false (value (seen_form form) self.now) self.now self.now result }
    {
        if self.has_room(form) {
            Ok(Due::Filled)
        } else {
            Err(Refusal::NotViable)
        }
    }

    /// Opens a value that says no name.
    #[inline(always)]
    fn begin(&mut self, call: Begin) -> Result<Due, Refusal>
        ensures { Readies true (begin (begun_form call) (begun_frame call) self.old) self.old self.new result }
    {
        if !self.has_room(call.form()) {
            return Err(Refusal::NotViable);
        }
        self.frames.push(call)?;
        Ok(Due::Opened)
    }

    /// Opens a value that says a name, of a container with its size.
    #[inline(always)]
    fn begin_named(
        &mut self,
        value: NamedValue,
        name: Name<'_>,
        size: Option<usize>,
    ) -> Result<Due, Refusal>
        ensures { let opened = value_frame value (plain_name (seen_name name.entry)) size in
            Readies true (begin Variant opened self.old) self.old self.new result }
    {
        if !self.has_room(Form::Variant) {
            return Err(Refusal::NotViable);
        }
        self.frames.push_named(value, name, size)?;
        Ok(Due::Opened)
    }

    /// Opens a container.
    #[inline(never)]
    fn begin_container(&mut self, head: Head<'_>, size: Option<usize>) -> Result<Due, Refusal>
        ensures { let head = seen_head head.entry in
            let opened = InContainer (plain_head head) (first_kind head) size in
            Readies true (begin (form_of_head head) opened self.old) self.old self.new result }
    {
        match head {
            Head::Seq => self.begin(Begin::Seq(size)),
            Head::Map => self.begin(Begin::Map(size)),
            Head::Record(name) => self.begin_named(NamedValue::Record, name, size),
            Head::Tuple(name) => self.begin_named(NamedValue::Tuple, name, size),
            Head::RecordTuple(name) => self.begin_named(NamedValue::RecordTuple, name, size),
        }
    }

    /// Makes ready for `size` bytes of a text or binary.
    #[inline(always)]
    fn fragment(&self, content: Content, size: usize) -> Result<Due, Refusal>
        ensures { Readies false (at_top (content_fragment content size) self.now) self.now self.now result }
    {
        if self.filled {
            return Err(Refusal::NotViable);
        }
        let left = self
            .frames
            .content_rest(content, size)
            .ok_or(Refusal::NotViable)?;
        Ok(Due::Left(content, left))
    }

    /// Makes ready for the end of a text or binary.
    #[inline(always)]
    fn content_end(&self, content: Content) -> Result<Due, Refusal>
        ensures { Readies false (at_top (content_end content) self.now) self.now self.now result }
    {
        if !self.filled && self.frames.content_ends(content) {
            Ok(Due::Closed(true))
        } else {
            Err(Refusal::NotViable)
        }
    }

    /// Makes ready for the end of a value with a name of its own.
    #[inline(always)]
    fn tagged_end(&self, name: Name<'_>) -> Result<Due, Refusal>
        ensures { Readies false (at_top (tagged_end (seen_name name.entry)) self.now) self.now self.now result }
    {
        if self.filled && self.frames.is_tagged(name) {
            Ok(Due::Closed(true))
        } else {
            Err(Refusal::NotViable)
        }
    }

    /// Makes ready for an enum's end.
    #[inline(always)]
    fn enum_end(&self, name: Name<'_>) -> Result<Due, Refusal>
        ensures { Readies false (at_top (enum_end (seen_name name.entry)) self.now) self.now self.now result }
    {
        if self.frames.is_enum(name) {
            Ok(Due::Closed(true))
        } else {
            Err(Refusal::NotViable)
        }
    }

    /// Makes ready for a container's end.
    #[inline(always)]
    fn end(&self, head: Head<'_>) -> Result<Due, Refusal>
        ensures { Readies false (at_top (end (seen_head head.entry)) self.now) self.now self.now result }
    {
        if !self.filled && self.frames.ends(head) {
            Ok(Due::Closed(true))
        } else {
            Err(Refusal::NotViable)
        }
    }

    /// Opens a part of a container.
    #[inline(always)]
    fn part_begin(&mut self, slot: Slot<'_>) -> Result<Due, Refusal>
        ensures { Readies true (at_top (part_begin (seen_slot slot.entry)) self.old) self.old self.new result }
    {
        if self.filled {
            return Err(Refusal::NotViable);
        }
        let left = self.frames.part_rest(slot).ok_or(Refusal::NotViable)?;
        self.frames.push_part(slot)?;
        Ok(Due::Advanced(left))
    }

    /// Makes ready for a part's end.
    #[inline(always)]
    fn part_end(&self, slot: Slot<'_>) -> Result<Due, Refusal>
        ensures { Readies false (at_top (part_end (seen_slot slot.entry)) self.now) self.now self.now result }
    {
        if self.filled && self.frames.is_slot(slot) {
            Ok(Due::Closed(false))
        } else {
            Err(Refusal::NotViable)
        }
    }
}
