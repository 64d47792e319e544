//! Structs without names of fields, and an enum with a variant of each form.

ghost use Rattle.sval.specs.Fields.{unit_struct};
ghost use Rattle.records.specs.Records.{metres_emission, point_emission, shape_emission};

use sval::{
    Lent, Result, Stream, Value, fields, stream_newtype, stream_struct_variant,
    stream_tuple_struct, stream_tuple_variant, stream_unit_struct, stream_unit_variant,
    stream_value_variant,
};

/// The origin of a plane.
#[derive(Clone, Copy, Debug)]
pub struct Origin;

impl<'v> Value<'v, Lent<'v>> for Origin {
    ghost emission = { λ _. unit_struct "Origin" };

    fn stream<S: Stream<Lent<'v>>>(&'v self, stream: &mut S) -> Result {
        stream_unit_struct(stream, "Origin")
    }
}

/// A length in metres.
#[derive(Clone, Copy, Debug)]
pub struct Metres(pub u32);

impl<'v> Value<'v, Lent<'v>> for Metres {
    ghost emission = { metres_emission };

    fn stream<S: Stream<Lent<'v>>>(&'v self, stream: &mut S) -> Result {
        stream_newtype(stream, "Metres", &self.0)
    }
}

/// A point of a plane.
#[derive(Clone, Copy, Debug)]
pub struct Point(pub i32, pub i32);

impl<'v> Value<'v, Lent<'v>> for Point {
    ghost emission = { point_emission };

    fn stream<S: Stream<Lent<'v>>>(&'v self, stream: &mut S) -> Result {
        stream_tuple_struct(stream, "Point", fields!(self, 0, 1))
    }
}

/// A shape in a plane.
#[derive(Clone, Copy, Debug)]
pub enum Shape {
    /// No point at all.
    Empty,
    /// A circle with this radius.
    Circle(Metres),
    /// The line from one point to another.
    Segment(Point, Point),
    /// A rectangle.
    Rectangle {
        /// Its width.
        width: Metres,
        /// Its height.
        height: Metres,
    },
}

impl<'v> Value<'v, Lent<'v>> for Shape {
    ghost emission = { shape_emission };

    fn stream<S: Stream<Lent<'v>>>(&'v self, stream: &mut S) -> Result {
        match self {
            Shape::Empty => stream_unit_variant(stream, "Shape", "Empty", 0),
            Shape::Circle(radius) => stream_value_variant(stream, "Shape", "Circle", 1, radius),
            Shape::Segment(from, to) => stream_tuple_variant(
                stream,
                "Shape",
                "Segment",
                2,
                (from, (to, ())),
            ),
            Shape::Rectangle { width, height } => {
                stream_struct_variant(
                    stream,
                    "Shape",
                    "Rectangle",
                    3,
                    ("width", width, ("height", height, ())),
                )
            }
        }
    }
}
