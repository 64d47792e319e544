//! A struct whose fields are a map and bytes, which it lends.

ghost use Rattle.std.specs.Prelude.{[], ◌∷◌};
ghost use Rattle.sval.specs.Fields.{a_struct, field, string_emission};
ghost use Rattle.records.specs.Records.{headers_emission, body_emission};

use sval::{Lent, Result, Stream, Value, fields, stream_binary, stream_map, stream_struct};

/// Names with what they stand for, in their order.
#[derive(Drop, Debug)]
pub struct Headers(pub Vec<(String, String)>);

impl<'v> Value<'v, Lent<'v>> for Headers {
    ghost emission = { headers_emission };

    fn stream<S: Stream<Lent<'v>>>(&'v self, stream: &mut S) -> Result {
        stream_map(stream, &self.0)
    }
}

/// Bytes.
#[derive(Drop, Debug)]
pub struct Body(pub Vec<u8>);

impl<'v> Value<'v, Lent<'v>> for Body {
    ghost emission = { body_emission };

    fn stream<S: Stream<Lent<'v>>>(&'v self, stream: &mut S) -> Result {
        stream_binary(stream, &self.0)
    }
}

/// A request to a server.
#[derive(Drop, Debug)]
pub struct Request {
    /// What is asked for.
    pub path: String,
    /// What is said of the request.
    pub headers: Headers,
    /// What is sent with it.
    pub body: Body,
}

impl<'v> Value<'v, Lent<'v>> for Request {
    ghost emission = { λ request. a_struct "Request" (
        field "path" (string_emission request.path) ∷
        field "headers" (headers_emission request.headers) ∷
        field "body" (body_emission request.body) ∷ []) };

    fn stream<S: Stream<Lent<'v>>>(&'v self, stream: &mut S) -> Result {
        stream_struct(stream, "Request", fields!(self, path, headers, body))
    }
}
