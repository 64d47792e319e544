//! Each form of struct and of variant: its JSON, and its calls, which a capture makes again.

mod texts;

ghost use Rattle.std.specs.Prelude.{[], ◌∷◌};
ghost use Rattle.sval.specs.Fields.{a_struct, tuple_struct, tuple_variant, value_variant, struct_variant};
ghost use Rattle.records.specs.Records.{shape_emission};

use crate::captured::captures;
use crate::shown::{holds, makes, shows, writes};
use records::{Interval, Item, Metres, Origin, Pair, Point, Shape, Versioned};
use std::alloc::Global;
use std::process::Abort;
use sval::{
    Lent, Result, Stream, Value, fields, stream_struct, stream_struct_variant, stream_tuple_struct,
    stream_tuple_variant, stream_value_variant,
};
use sval_check::check;
use sval_io::VecSink;
use sval_json::{Variants, stream_to_io_write_with};

/// A tuple struct without fields.
struct Blank {}

impl<'v> Value<'v, Lent<'v>> for Blank {
    ghost emission = { λ _. tuple_struct "Blank" [] };

    fn stream<S: Stream<Lent<'v>>>(&'v self, stream: &mut S) -> Result {
        stream_tuple_struct(stream, "Blank", fields!())
    }
}

/// A struct without fields, but with braces.
struct Bare {}

impl<'v> Value<'v, Lent<'v>> for Bare {
    ghost emission = { λ _. a_struct "Bare" [] };

    fn stream<S: Stream<Lent<'v>>>(&'v self, stream: &mut S) -> Result {
        stream_struct(stream, "Bare", fields!())
    }
}

/// A tuple variant without fields.
struct Nothing {}

impl<'v> Value<'v, Lent<'v>> for Nothing {
    ghost emission = { λ _. tuple_variant "Odd" "Nothing" 0 [] };

    fn stream<S: Stream<Lent<'v>>>(&'v self, stream: &mut S) -> Result {
        stream_tuple_variant(stream, "Odd", "Nothing", 0, fields!())
    }
}

/// A variant without fields, but with braces.
struct Hollow {}

impl<'v> Value<'v, Lent<'v>> for Hollow {
    ghost emission = { λ _. struct_variant "Odd" "Hollow" 1 [] };

    fn stream<S: Stream<Lent<'v>>>(&'v self, stream: &mut S) -> Result {
        stream_struct_variant(stream, "Odd", "Hollow", 1, fields!())
    }
}

/// A variant that holds another enum.
#[derive(Clone, Copy)]
struct Shaped {
    shape: Shape,
}

impl<'v> Value<'v, Lent<'v>> for Shaped {
    ghost emission = { λ shaped. value_variant "Odd" "Shaped" 2 (shape_emission shaped.shape) };

    fn stream<S: Stream<Lent<'v>>>(&'v self, stream: &mut S) -> Result {
        stream_value_variant(stream, "Odd", "Shaped", 2, &self.shape)
    }
}

/// Asserts that a value is whole, that its JSON in both styles and the lines of its calls are those of its form, as
/// [`texts`] has them, and that a capture of it makes these calls again.
pub(super) fn has_form<'v, V: Value<'v, Lent<'v>>>(
    rt: &impl Abort,
    alloc: Global,
    value: &'v V,
    form: &str,
) {
    let (json, rest) = form.split_once('\n').unwrap_or((form, ""));
    let (beside, lines) = rest.split_once('\n').unwrap_or((rest, ""));
    holds(rt, check(alloc, value).is_ok(), "the value is whole");
    writes(rt, alloc, value, json);
    writes_beside(rt, alloc, value, beside);
    makes(rt, alloc, value, lines);
    captures(rt, alloc, value, lines);
}

/// Asserts that this is a value's JSON with each variant beside its name.
fn writes_beside<'v, V: Value<'v, Lent<'v>>>(
    rt: &impl Abort,
    alloc: Global,
    value: &'v V,
    json: &str,
) {
    let mut sink = VecSink::new(alloc);
    let answer = stream_to_io_write_with(&mut sink, value, Variants::Beside);
    holds(rt, answer.is_ok(), "the value is written");
    shows(rt, String::from_utf8(sink.into_vec()), json);
}

#[test]
fn structs_have_their_form(rt: HostRuntime) {
    let alloc = rt.alloc();
    has_form(&rt, alloc, &Origin, texts::ORIGIN);
    has_form(&rt, alloc, &Metres(3), texts::METRES);
    has_form(&rt, alloc, &Point(-1, 2), texts::POINT);
    has_form(&rt, alloc, &Blank {}, texts::BLANK);
    let item = Item {
        name: "nut",
        count: -2,
    };
    has_form(&rt, alloc, &item, texts::ITEM);
    has_form(&rt, alloc, &Bare {}, texts::BARE);
    let pair = Pair {
        left: 1u8,
        right: "a",
    };
    has_form(&rt, alloc, &pair, texts::PAIR);
    has_form(&rt, alloc, &Interval('a', 'z'), texts::INTERVAL);
    let versioned = Versioned {
        version: 2,
        value: Origin,
    };
    has_form(&rt, alloc, &versioned, texts::VERSIONED);
}

#[test]
fn variants_have_their_form(rt: HostRuntime) {
    let alloc = rt.alloc();
    let circle = Shape::Circle(Metres(3));
    has_form(&rt, alloc, &Shape::Empty, texts::EMPTY);
    has_form(&rt, alloc, &circle, texts::CIRCLE);
    let segment = Shape::Segment(Point(0, 0), Point(1, -1));
    has_form(&rt, alloc, &segment, texts::SEGMENT);
    let rectangle = Shape::Rectangle {
        width: Metres(4),
        height: Metres(5),
    };
    has_form(&rt, alloc, &rectangle, texts::RECTANGLE);
    has_form(&rt, alloc, &Nothing {}, texts::NOTHING);
    has_form(&rt, alloc, &Hollow {}, texts::HOLLOW);
    has_form(&rt, alloc, &Shaped { shape: circle }, texts::SHAPED);
}
