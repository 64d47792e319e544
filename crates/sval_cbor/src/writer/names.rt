//! Names: of enums and tagged values, and by themselves.

ghost use Rattle.std.specs.Prelude.{◌≡◌, [], ◌∷◌, ◌++◌, true, false, if◌then◌else◌, Err, None, Some};
ghost use Rattle.sval_label.specs.Calls.{EnumEnd, TaggedBegin, Standalone};
ghost use Rattle.sval_label.specs.SeenName.{name_of};
ghost use Rattle.sval_json.specs.Shape.{handle_of, own, number_or_null};
ghost use Rattle.sval_cbor.specs.Packs.{on_packed, RawJson};
ghost use Rattle.sval_cbor.specs.Cbor.{string, row_head, row_end};
ghost use Rattle.sval_cbor.specs.Writing.{Elsewhere, Begun, writes, opening, after_handle, enum_end_bytes, cbor_step};
ghost use Rattle.sval_json.specs.Marks.{seen_option_index, seen_handle};
ghost use Rattle.sval_cbor.specs.SeenWriter.{seen_place};
ghost use Rattle.sval_cbor.specs.WriterLaw.{CborDoes, json_bytes, cbor_writer_state, writer_target, cbor_writer_view};

use crate::error::Refusal;
use crate::writer::{MAP, Place, Writer};
use itoa::Buffer;
use sval_core::{Index, Int, Label, Result, Tag};
use sval_io::Sink;
use sval_json::marks::{TextKind, has_handle, is_none, number_of, text_kind};

/// The place of the writer after a value of this name.
pub(crate) fn place_after(label: Option<&Label>, index: Option<&Index>) -> Place
    ensures { seen_place result ≡ after_handle (seen_handle label.entry index.entry) }
{
    if has_handle(label, index) {
        return Place::Ended;
    }
    Place::Elsewhere
}

impl<'k, K: Sink> Writer<'k, K> {
    /// Begins a map of one pair, up to its value.
    fn write_pair(&mut self, key: &[u8]) -> Result
        ensures { CborDoes
            (writes (row_head self.old.style.lengths 5 1 ++ string 3 key.now) (cbor_writer_state self.old)) result
            (writer_target K.told self.old) (cbor_writer_view K.told self.new) }
    {
        self.write_row_head(MAP, 1)?;
        self.write_text(key)
    }

    /// Opens the map of one pair around a value, or refuses the value in a key.
    fn open_pair(&mut self, key: &[u8]) -> Result
        ensures { let state = cbor_writer_state self.old in
            CborDoes (on_packed (opening state.style.lengths (Some key.now) Begun state.in_key)
            (λ front. writes front state)) result
            (writer_target K.told self.old) (cbor_writer_view K.told self.new) }
    {
        if self.in_key {
            return self.refuse(Refusal::Key);
        }
        self.write_pair(key)
    }

    /// Opens the map of one pair around a value that is directly in an enum.
    fn open_variant(&mut self, handle: &[u8]) -> Result
        ensures { let state = cbor_writer_state self.old in
            CborDoes (on_packed (opening state.style.lengths (Some handle.now) state.place state.in_key)
            (λ front. writes front state)) result
            (writer_target K.told self.old) (cbor_writer_view K.told self.new) }
    {
        match self.place {
            Place::Begun => self.open_pair(handle),
            Place::Elsewhere | Place::Ended => Ok(()),
        }
    }

    /// Opens the map around a value of this name, where that is due.
    pub(crate) fn open_handle(&mut self, label: Option<&Label>, index: Option<&Index>) -> Result
        ensures { let state = cbor_writer_state self.old in
            CborDoes (on_packed
            (opening state.style.lengths (seen_handle label.entry index.entry) state.place state.in_key)
            (λ front. writes front state)) result
            (writer_target K.told self.old) (cbor_writer_view K.told self.new) }
    {
        if let Some(label) = label {
            return self.open_variant(label.as_str().as_bytes());
        }
        match number_of(index) {
            Some(number) => self.open_variant(Buffer::new().format(number).as_bytes()),
            None => Ok(()),
        }
    }

    /// Opens a value of this name, and writes this mark of it.
    pub(crate) fn open_named(
        &mut self,
        label: Option<&Label>,
        index: Option<&Index>,
        mark: &[u8],
    ) -> Result
        ensures { let state = cbor_writer_state self.old in
            CborDoes (on_packed
            (opening state.style.lengths (seen_handle label.entry index.entry) state.place state.in_key)
            (λ front. writes (front ++ mark.now) (record state { place = Elsewhere }))) result
            (writer_target K.told self.old) (cbor_writer_view K.told self.new) }
    {
        self.open_handle(label, index)?;
        self.place = Place::Elsewhere;
        self.write(mark)
    }

    /// Refuses raw JSON, after what its name refuses.
    fn refuse_raw(&mut self, label: Option<&Label>, index: Option<&Index>) -> Result
        ensures { let state = cbor_writer_state self.old in
            CborDoes (on_packed
            (opening state.style.lengths (seen_handle label.entry index.entry) state.place state.in_key)
            (λ front. Err RawJson)) result
            (writer_target K.told self.old) (cbor_writer_view K.told self.new) }
    {
        match self.place {
            Place::Begun if self.in_key && has_handle(label, index) => self.refuse(Refusal::Key),
            _ => self.refuse(Refusal::Raw),
        }
    }

    /// Writes the number of an index, or `null`.
    fn write_index(&mut self, index: Option<&Index>) -> Result
        ensures { CborDoes
            (writes (json_bytes self.old.in_key (number_or_null (handle_of None (seen_option_index index.entry))))
            (cbor_writer_state self.old))
            result (writer_target K.told self.old) (cbor_writer_view K.told self.new) }
    {
        match number_of(index) {
            Some(number) => self.write_int(Int::I64(number)),
            None => self.write_simple(b"null", b"\xf6"),
        }
    }

    /// Writes what stands for a name by itself.
    fn write_own(
        &mut self,
        tag: Option<&Tag>,
        label: Option<&Label>,
        index: Option<&Index>,
    ) -> Result
        ensures { CborDoes (writes (json_bytes self.old.in_key (own (name_of tag.entry label.entry index.entry)))
            (cbor_writer_state self.old)) result (writer_target K.told self.old) (cbor_writer_view K.told self.new) }
    {
        if is_none(tag) {
            return self.write_simple(b"null", b"\xf6");
        }
        match label {
            Some(label) => self.write_text(label.as_str().as_bytes()),
            None => self.write_index(index),
        }
    }

    /// Writes a name by itself.
    #[inline(never)]
    pub(crate) fn write_name(
        &mut self,
        tag: Option<&Tag>,
        label: Option<&Label>,
        index: Option<&Index>,
    ) -> Result
        ensures { CborDoes (cbor_step (Standalone (name_of tag.entry label.entry index.entry))
            (cbor_writer_state self.old)) result
            (writer_target K.told self.old) (cbor_writer_view K.told self.new) }
    {
        self.place = Place::Elsewhere;
        self.write_own(tag, label, index)
    }

    /// Begins an enum.
    #[inline(never)]
    pub(crate) fn begin_enum(&mut self, label: Option<&Label>, index: Option<&Index>) -> Result
        ensures { let state = cbor_writer_state self.old in
            CborDoes (on_packed
            (opening state.style.lengths (seen_handle label.entry index.entry) state.place state.in_key)
            (λ front. writes (front ++ []) (record state { place = Begun }))) result
            (writer_target K.told self.old) (cbor_writer_view K.told self.new) }
    {
        self.open_named(label, index, b"")?;
        self.place = Place::Begun;
        Ok(())
    }

    /// Ends the map of one pair around a value. In a key there is none.
    fn close_pair(&mut self) -> Result
        ensures { let state = cbor_writer_state self.old in
            CborDoes (writes (if state.in_key then [] else row_end state.style.lengths) state) result
            (writer_target K.told self.old) (cbor_writer_view K.told self.new) }
    {
        if self.in_key {
            return Ok(());
        }
        self.write_row_end()
    }

    /// Ends an enum that was at this place. It writes the name of an enum that holds nothing, and else ends the map
    /// around its value.
    fn close_enum(
        &mut self,
        place: Place,
        tag: Option<&Tag>,
        label: Option<&Label>,
        index: Option<&Index>,
    ) -> Result
        ensures { let state = cbor_writer_state self.old in
            CborDoes (writes (enum_end_bytes state.style.lengths (seen_place place) state.in_key
            (own (name_of tag.entry label.entry index.entry))) state) result
            (writer_target K.told self.old) (cbor_writer_view K.told self.new) }
    {
        match place {
            Place::Begun => self.write_own(tag, label, index),
            Place::Ended => self.close_pair(),
            Place::Elsewhere => Ok(()),
        }
    }

    /// Ends an enum.
    #[inline(never)]
    pub(crate) fn end_enum(
        &mut self,
        tag: Option<&Tag>,
        label: Option<&Label>,
        index: Option<&Index>,
    ) -> Result
        ensures { CborDoes (cbor_step (EnumEnd (name_of tag.entry label.entry index.entry))
            (cbor_writer_state self.old)) result
            (writer_target K.told self.old) (cbor_writer_view K.told self.new) }
    {
        let place = self.place;
        self.place = place_after(label, index);
        self.close_enum(place, tag, label, index)
    }

    /// Begins a tagged value.
    #[inline(never)]
    pub(crate) fn begin_tagged(
        &mut self,
        tag: Option<&Tag>,
        label: Option<&Label>,
        index: Option<&Index>,
    ) -> Result
        ensures { CborDoes (cbor_step (TaggedBegin (name_of tag.entry label.entry index.entry))
            (cbor_writer_state self.old)) result
            (writer_target K.told self.old) (cbor_writer_view K.told self.new) }
    {
        match text_kind(tag) {
            TextKind::Ordinary => self.open_named(label, index, b""),
            TextKind::Number => self.begin_number(label, index),
            TextKind::JsonValue if self.in_key => self.refuse(Refusal::Key),
            TextKind::JsonValue => self.refuse(Refusal::Raw),
            TextKind::JsonText | TextKind::JsonNumber => self.refuse_raw(label, index),
        }
    }

    /// Begins a number that comes as text.
    fn begin_number(&mut self, label: Option<&Label>, index: Option<&Index>) -> Result
        ensures { let state = cbor_writer_state self.old in
            CborDoes (on_packed
            (opening state.style.lengths (seen_handle label.entry index.entry) state.place state.in_key)
            (λ front. writes (front ++ []) (record state { place = Elsewhere; in_number = true }))) result
            (writer_target K.told self.old) (cbor_writer_view K.told self.new) }
    {
        self.open_named(label, index, b"")?;
        self.in_number = true;
        Ok(())
    }

    /// Ends a tagged value.
    #[inline(never)]
    pub(crate) fn end_tagged(&mut self, label: Option<&Label>, index: Option<&Index>) -> Result
        ensures { let state = cbor_writer_state self.old in
            CborDoes (writes [] (record state {
              place = after_handle (seen_handle label.entry index.entry);
              in_number = false;
            }))
            result (writer_target K.told self.old) (cbor_writer_view K.told self.new) }
    {
        self.place = place_after(label, index);
        self.in_number = false;
        Ok(())
    }
}
