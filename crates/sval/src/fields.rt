//! Fields with their names.

ghost use Rattle.std.specs.Prelude.{◌≡◌, ℕ, ◌+◌, ◌^◌, ◌<◌, true, List, [], ◌∷◌, length, None};
ghost use Rattle.sval_label.specs.SeenIndex.{seen_index};
ghost use Rattle.sval_label.specs.Calls.{PartBegin, PartEnd, FieldPlace, Field as FieldSlot};
ghost use Rattle.sval_core.specs.Law.{Answers, Emits};
ghost use Rattle.sval_core.specs.Names.{ident, offset};
ghost use Rattle.sval_core.specs.Values.{part_emission};
ghost use Rattle.sval.specs.Structs as structs;
ghost use Rattle.sval.specs.Structs.{field_label, fields_emission, placed_emission};
ghost use Rattle.sval.specs.StructTrees.{HoldWholeValues};

use sval_core::{Index, Label, Lending, Result, Stream, Value, is_surely_whole, tags};

/// References to fields with their names, one before the others: [`Fields`] for [`stream_struct`](crate::stream_struct)
/// and its like.
///
/// `fields!(self, id, title)` are the fields `id` and `title` of `self` under these names, and
/// `fields!("id" => self.id, "title" => self.title)` are the same.
///
/// `fields!(self, 0, 1)` are the fields of a tuple struct, which have no names: [`TupleFields`](crate::TupleFields) for
/// [`stream_tuple_struct`](crate::stream_tuple_struct).
#[macro_export]
macro_rules! fields {
    () => { () };
    ($owner:ident, $name:ident $(, $names:ident)* $(,)?) => {
        (stringify!($name), &$owner.$name, $crate::fields!(@more $owner $(, $names)*))
    };
    (@more $owner:ident) => { () };
    (@more $owner:ident, $name:ident $(, $names:ident)*) => {
        (stringify!($name), &$owner.$name, $crate::fields!(@more $owner $(, $names)*))
    };
    ($owner:ident, $index:tt $(, $indexes:tt)* $(,)?) => {
        (&$owner.$index, $crate::fields!(@tuple $owner $(, $indexes)*))
    };
    (@tuple $owner:ident) => { () };
    (@tuple $owner:ident, $index:tt $(, $indexes:tt)*) => {
        (&$owner.$index, $crate::fields!(@tuple $owner $(, $indexes)*))
    };
    ($name:expr => $first:expr $(, $names:expr => $others:expr)* $(,)?) => {
        ($name, &$first, $crate::fields!($($names => $others),*))
    };
}

/// What names a type, a variant or a field: a text of the program.
///
/// What is generic in a `Named` need not name the lifetime `'static` of that text.
pub trait Named: Copy {
    /// The text.
    ghost text: { Self → List ℕ };

    /// The label of this text.
    fn label(self) -> Label<'static>
        ensures { result ≡ field_label (text self) };
}

impl Named for &'static str {
    ghost text = { λ name. name.now };

    fn label(self) -> Label<'static> {
        Label::new(self)
    }
}

/// Fields, one after another: none is `()`, and one before others is a name, a reference to a value and these.
///
/// The macro [`fields!`](crate::fields) writes them.
pub trait Fields<'v, L: Lending>: Copy {
    /// What each of them is.
    ghost listed: { Self → List structs.Field };

    /// How many they are.
    fn count(self) -> usize
        requires { length (listed self) < 2 ^ 64 }
        ensures { result ≡ length (listed self) };

    /// Whether the value of each is surely whole, as [`is_surely_whole`] says.
    fn are_whole(self) -> bool
        ensures { result ≡ true → HoldWholeValues (listed self) };

    /// Streams the fields of a record.
    fn stream_fields<S: Stream<L>>(self, stream: &mut S) -> Result
        ensures { Emits S.law result
            (S.standing stream.old) (fields_emission (listed self)) (S.standing stream.new) };

    /// Streams the fields of a record tuple. The first has the index `number`.
    fn stream_placed<S: Stream<L>>(self, stream: &mut S, first: usize) -> Result
        requires { first + length (listed self) < 2 ^ 64 }
        ensures { Emits S.law result
            (S.standing stream.old) (placed_emission first (listed self)) (S.standing stream.new) };
}

impl<'v, L: Lending> Fields<'v, L> for () {
    ghost listed = { λ _. [] };

    fn count(self) -> usize {
        0
    }

    fn are_whole(self) -> bool {
        true
    }

    #[tactic(auto, unfolding(sval_core::specs::Law::silent))]
    fn stream_fields<S: Stream<L>>(self, _stream: &mut S) -> Result {
        Ok(())
    }

    #[tactic(auto, unfolding(sval_core::specs::Law::silent))]
    fn stream_placed<S: Stream<L>>(self, _stream: &mut S, _first: usize) -> Result {
        Ok(())
    }
}

impl<'v, L: Lending, N: Named, T: Value<'v, L>, F: Fields<'v, L>> Fields<'v, L> for (N, &'v T, F) {
    ghost listed = { λ fields. record { name = N.text fields.0; value = T.emission fields.1.now } ∷ F.listed fields.2 };

    fn count(self) -> usize {
        1 + self.2.count()
    }

    fn are_whole(self) -> bool {
        is_surely_whole::<L, T>(self.1) && self.2.are_whole()
    }

    #[tactic(auto, using(sval_core::proofs::ValueProofs::of_emissions))]
    fn stream_fields<S: Stream<L>>(self, stream: &mut S) -> Result {
        stream_field(stream, self.0, self.1)?;
        self.2.stream_fields(stream)
    }

    #[tactic(auto, using(sval_core::proofs::ValueProofs::of_emissions))]
    fn stream_placed<S: Stream<L>>(self, stream: &mut S, first: usize) -> Result {
        stream_place(stream, self.0, first, self.1)?;
        self.2.stream_placed(stream, first + 1)
    }
}

/// Begins the field of a record.
fn begin_field<L: Lending, N: Named, S: Stream<L>>(stream: &mut S, name: N) -> Result
    ensures { Answers S.law result
        (S.standing stream.old) (PartBegin (FieldSlot None (field_label (N.text name)))) (S.standing stream.new) }
{
    stream.record_value_begin(None, &name.label())
}

/// Ends the field of a record.
fn end_field<L: Lending, N: Named, S: Stream<L>>(stream: &mut S, name: N) -> Result
    ensures { Answers S.law result
        (S.standing stream.old) (PartEnd (FieldSlot None (field_label (N.text name)))) (S.standing stream.new) }
{
    stream.record_value_end(None, &name.label())
}

/// Streams a value as the field of this name of a record.
fn stream_field<'v, L: Lending, N: Named, T: Value<'v, L>, S: Stream<L>>(
    stream: &mut S,
    name: N,
    value: &'v T,
) -> Result
    ensures { Emits S.law result (S.standing stream.old)
        (part_emission (FieldSlot None (field_label (N.text name))) (T.emission value.now)) (S.standing stream.new) }
{
    begin_field(stream, name)?;
    value.stream(stream)?;
    end_field(stream, name)
}

/// The label of what has this identifier.
pub(crate) fn identifier<N: Named>(name: N) -> Label<'static>
    ensures { result ≡ ident (N.text name) }
{
    name.label().with_tag(&tags::VALUE_IDENT)
}

/// The index of a part in its order.
pub(crate) fn place(number: usize) -> Index
    ensures { seen_index result ≡ offset number }
{
    Index::new(number).with_tag(&tags::VALUE_OFFSET)
}

/// Begins the field of a record tuple.
fn begin_place<L: Lending, N: Named, S: Stream<L>>(stream: &mut S, name: N, number: usize) -> Result
    ensures { Answers S.law result (S.standing stream.old)
        (PartBegin (FieldPlace None (ident (N.text name)) (offset number))) (S.standing stream.new) }
{
    stream.record_tuple_value_begin(None, &identifier(name), &place(number))
}

/// Ends the field of a record tuple.
fn end_place<L: Lending, N: Named, S: Stream<L>>(stream: &mut S, name: N, number: usize) -> Result
    ensures { Answers S.law result (S.standing stream.old)
        (PartEnd (FieldPlace None (ident (N.text name)) (offset number))) (S.standing stream.new) }
{
    stream.record_tuple_value_end(None, &identifier(name), &place(number))
}

/// Streams a value as the field of this name and place of a record tuple.
fn stream_place<'v, L: Lending, N: Named, T: Value<'v, L>, S: Stream<L>>(
    stream: &mut S,
    name: N,
    number: usize,
    value: &'v T,
) -> Result
    ensures { Emits S.law result (S.standing stream.old)
        (part_emission (FieldPlace None (ident (N.text name)) (offset number)) (T.emission value.now))
        (S.standing stream.new) }
{
    begin_place(stream, name, number)?;
    value.stream(stream)?;
    end_place(stream, name, number)
}
