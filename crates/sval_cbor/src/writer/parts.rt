//! Containers and their parts.

ghost use Rattle.std.specs.Prelude.{◌≡◌, ◌<◌, ◌++◌, []};
ghost use Rattle.sval_label.specs.Grouped.{seen_head, seen_slot};
ghost use Rattle.sval_cbor.specs.Packs.{on_packed};
ghost use Rattle.sval_json.specs.Marks.{seen_handle};
ghost use Rattle.sval_cbor.specs.declared.style.Lengths.TheVariants.{Definite};
ghost use Rattle.sval_cbor.specs.Cbor.{row_end};
ghost use Rattle.sval_cbor.specs.Writing.{Elsewhere, writes, unless_key, opening, after_handle, first_count, later_counts, next_head, after_head};
ghost use Rattle.sval_cbor.specs.Writing.{cbor_container_begins, cbor_container_ends, cbor_part_begins, cbor_part_ends};
ghost use Rattle.sval_cbor.specs.WriterLaw.{CborDoes, cbor_writer_state, writer_target, cbor_writer_view};

use crate::error::Refusal;
use crate::style::Lengths;
use crate::writer::names::place_after;
use crate::writer::{ARRAY, MAP, Place, Writer};
use sval_core::{Head, Index, Label, Result, Slot};
use sval_io::Sink;

impl<'k, K: Sink> Writer<'k, K> {
    /// The count of the container that begins.
    fn take_count(&mut self) -> u64
        ensures first { result ≡ first_count self.old.counts.now }
        ensures rest { cbor_writer_view K.told self.new ≡ (let view = cbor_writer_view K.told self.old in
            record view { state = record view.state { counts = later_counts Definite view.state.counts } }) }
    {
        match self.counts.split_first() {
            Some((count, rest)) => {
                self.counts = rest;
                *count
            }
            None => 0,
        }
    }

    /// Writes the head of a container, by its major type.
    fn write_next_head(&mut self, major: u8) -> Result
        requires { major < 8 }
        ensures { let state = cbor_writer_state self.old in
            CborDoes (writes (next_head major state) (after_head state)) result
            (writer_target K.told self.old) (cbor_writer_view K.told self.new) }
    {
        self.place = Place::Elsewhere;
        match self.style.lengths {
            Lengths::Indefinite => self.write_row_head(major, 0),
            Lengths::Definite => {
                let count = self.take_count();
                self.write_row_head(major, count)
            }
        }
    }

    /// Opens a container without a name, which can't be in a key.
    fn open(&mut self, major: u8) -> Result
        requires { major < 8 }
        ensures { let state = cbor_writer_state self.old in
            CborDoes (unless_key state (writes (next_head major state) (after_head state))) result
            (writer_target K.told self.old) (cbor_writer_view K.told self.new) }
    {
        if self.in_key {
            return self.refuse(Refusal::Key);
        }
        self.write_next_head(major)
    }

    /// Opens the name of a container, and writes its head.
    fn open_row(&mut self, label: Option<&Label>, index: Option<&Index>, major: u8) -> Result
        requires { major < 8 }
        ensures { let state = cbor_writer_state self.old in
            CborDoes (on_packed
            (opening state.style.lengths (seen_handle label.entry index.entry) state.place state.in_key)
            (λ front. writes (front ++ next_head major state) (after_head state))) result
            (writer_target K.told self.old) (cbor_writer_view K.told self.new) }
    {
        self.open_handle(label, index)?;
        self.write_next_head(major)
    }

    /// Opens a container with a name, which can't be in a key.
    #[inline(never)]
    fn open_container(&mut self, label: Option<&Label>, index: Option<&Index>, major: u8) -> Result
        requires { major < 8 }
        ensures { let state = cbor_writer_state self.old in
            CborDoes (unless_key state (on_packed
            (opening state.style.lengths (seen_handle label.entry index.entry) state.place state.in_key)
            (λ front. writes (front ++ next_head major state) (after_head state)))) result
            (writer_target K.told self.old) (cbor_writer_view K.told self.new) }
    {
        if self.in_key {
            return self.refuse(Refusal::Key);
        }
        self.open_row(label, index, major)
    }

    /// Closes a container without a name.
    fn close(&mut self) -> Result
        ensures { let state = cbor_writer_state self.old in
            CborDoes (writes (row_end state.style.lengths) (record state { place = Elsewhere })) result
            (writer_target K.told self.old) (cbor_writer_view K.told self.new) }
    {
        self.place = Place::Elsewhere;
        self.write_row_end()
    }

    /// Closes a container with a name.
    #[inline(never)]
    fn close_named(&mut self, label: Option<&Label>, index: Option<&Index>) -> Result
        ensures { let state = cbor_writer_state self.old in
            CborDoes (writes (row_end state.style.lengths) (record state
            { place = after_handle (seen_handle label.entry index.entry) })) result
            (writer_target K.told self.old) (cbor_writer_view K.told self.new) }
    {
        self.place = place_after(label, index);
        self.write_row_end()
    }

    /// Begins a container.
    #[inline(always)]
    pub(crate) fn begin_container(&mut self, head: Head) -> Result
        ensures { CborDoes (cbor_container_begins (seen_head head.entry) (cbor_writer_state self.old)) result
            (writer_target K.told self.old) (cbor_writer_view K.told self.new) }
    {
        match head {
            Head::Seq => self.open(ARRAY),
            Head::Map => self.open(MAP),
            Head::Record(name) => self.open_container(name.label, name.index, MAP),
            Head::Tuple(name) => self.open_container(name.label, name.index, ARRAY),
            Head::RecordTuple(name) => self.open_container(name.label, name.index, MAP),
        }
    }

    /// Ends a container.
    #[inline(always)]
    pub(crate) fn end_container(&mut self, head: Head) -> Result
        ensures { CborDoes (cbor_container_ends (seen_head head.entry) (cbor_writer_state self.old)) result
            (writer_target K.told self.old) (cbor_writer_view K.told self.new) }
    {
        match head {
            Head::Seq | Head::Map => self.close(),
            Head::Record(name) => self.close_named(name.label, name.index),
            Head::Tuple(name) => self.close_named(name.label, name.index),
            Head::RecordTuple(name) => self.close_named(name.label, name.index),
        }
    }

    /// Begins a part of a container: a field's label is a key.
    #[inline(always)]
    pub(crate) fn begin_part(&mut self, slot: Slot) -> Result
        ensures { CborDoes (cbor_part_begins (seen_slot slot.entry) (cbor_writer_state self.old)) result
            (writer_target K.told self.old) (cbor_writer_view K.told self.new) }
    {
        self.place = Place::Elsewhere;
        match slot {
            Slot::Item | Slot::Value | Slot::Place(_, _) => Ok(()),
            Slot::Key => {
                self.in_key = true;
                Ok(())
            }
            Slot::Field(_, label) => self.write_text(label.as_str().as_bytes()),
            Slot::FieldPlace(_, label, _) => self.write_text(label.as_str().as_bytes()),
        }
    }

    /// Ends a part of a container.
    #[inline(always)]
    pub(crate) fn end_part(&mut self, slot: Slot) -> Result
        ensures { CborDoes (cbor_part_ends (seen_slot slot.entry) (cbor_writer_state self.old)) result
            (writer_target K.told self.old) (cbor_writer_view K.told self.new) }
    {
        self.place = Place::Elsewhere;
        if let Slot::Key = slot {
            self.in_key = false;
        }
        Ok(())
    }
}
