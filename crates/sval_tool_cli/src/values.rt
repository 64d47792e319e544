//! Values in the form that was asked for.

use crate::numbers::first_not_whole;
use crate::pairs::write_logfmt;
use crate::trouble::Unwritten;
use crate::words::{Options, Output};
use std::alloc::Global;
use sval_buffer::Value as Captured;
use sval_cbor::{CborError, stream_to_cbor};
use sval_core::{Lent, Value};
use sval_filter::{Paths, Rule, prune};
use sval_io::{Sink, VecSink, write_all};
use sval_json::{Variants, stream_to_io_write_with, stream_to_vec};
use sval_json_read::JsonDoc;
use sval_pretty::write_pretty;
use sval_script::print_canon;

/// Writes the CBOR of a value.
fn pack_value<'v, V: Value<'v, Lent<'v>>, K: Sink>(
    alloc: Global,
    value: &'v V,
    out: &mut K,
) -> Result<(), Unwritten> {
    match stream_to_cbor(alloc, out, value) {
        Ok(()) => Ok(()),
        Err(CborError::NotInteger) => Err(not_whole(alloc, value)),
        Err(error) => Err(Unwritten::from(error)),
    }
}

/// Why a value with a number that has no CBOR isn't written.
fn not_whole<'v, V: Value<'v, Lent<'v>>>(alloc: Global, value: &'v V) -> Unwritten {
    match stream_to_vec(alloc, value) {
        Ok(json) => not_whole_in(alloc, json.as_slice()),
        Err(_) => Unwritten::from(CborError::NotInteger),
    }
}

/// Why a value with this JSON isn't written as CBOR: its first number that has none.
pub(crate) fn not_whole_in(alloc: Global, json: &[u8]) -> Unwritten {
    let Some(digits) = first_not_whole(json) else {
        return Unwritten::from(CborError::NotInteger);
    };
    match format!(in alloc;
        "the number {digits} has no CBOR here, which takes whole numbers of 128 bits alone\nhint: make it a text, or leave its field out by --drop"
    ) {
        Ok(text) => Unwritten::Told(text),
        Err(cause) => Unwritten::from(cause),
    }
}

/// Where the variants of a value are written in its JSON.
fn variants_of(options: &Options) -> Variants {
    if options.beside {
        Variants::Beside
    } else {
        Variants::Inside
    }
}

/// The JSON of a value.
fn json_of<'v, V: Value<'v, Lent<'v>>>(
    alloc: Global,
    options: &Options,
    value: &'v V,
) -> Result<Vec<u8>, Unwritten> {
    let mut json = VecSink::new(alloc);
    write_plain(options, value, &mut json)?;
    Ok(json.into_vec())
}

/// Writes the JSON of a value, laid out.
fn lay_out<'v, V: Value<'v, Lent<'v>>, K: Sink>(
    alloc: Global,
    options: &Options,
    value: &'v V,
    out: &mut K,
) -> Result<(), Unwritten> {
    let json = json_of(alloc, options, value)?;
    Ok(write_pretty(out, json.as_slice())?)
}

/// Writes the line of logfmt of a value, which is that of its JSON.
fn write_line<'v, V: Value<'v, Lent<'v>>, K: Sink>(
    alloc: Global,
    options: &Options,
    value: &'v V,
    out: &mut K,
) -> Result<(), Unwritten> {
    let json = json_of(alloc, options, value)?;
    let doc = JsonDoc::read(alloc, json.as_slice())?;
    write_logfmt(alloc, &doc.root(), out)
}

/// Writes the JSON of a value.
fn write_plain<'v, V: Value<'v, Lent<'v>>, K: Sink>(
    options: &Options,
    value: &'v V,
    out: &mut K,
) -> Result<(), Unwritten> {
    match stream_to_io_write_with(out, value, variants_of(options)) {
        Ok(()) => Ok(()),
        Err(error) => Err(Unwritten::from(error.kind())),
    }
}

/// Writes the canonical script of a value.
fn print_script<'v, V: Value<'v, Lent<'v>>, K: Sink>(
    alloc: Global,
    value: &'v V,
    out: &mut K,
) -> Result<(), Unwritten> {
    let captured: Captured<'v> = prune(alloc, value, Rule::Drop, &Paths::new(alloc))?;
    Ok(print_canon(&captured, out)?)
}

/// Writes a value in the form that was asked for, and a line feed behind its JSON or its line of logfmt.
fn write_value<'v, V: Value<'v, Lent<'v>>, K: Sink>(
    alloc: Global,
    options: &Options,
    value: &'v V,
    out: &mut K,
) -> Result<(), Unwritten> {
    match options.to {
        Some(Output::Cbor) => return pack_value(alloc, value, out),
        Some(Output::Script) => return print_script(alloc, value, out),
        Some(Output::Pretty) => lay_out(alloc, options, value, out)?,
        Some(Output::Logfmt) => write_line(alloc, options, value, out)?,
        Some(Output::Json) | None => write_plain(options, value, out)?,
    }
    Ok(write_all(out, b"\n".as_slice())?)
}

/// Writes the value that a JSON Pointer names in a document.
pub(crate) fn write_pointed<K: Sink>(
    alloc: Global,
    options: &Options,
    pointer: &str,
    doc: &JsonDoc<'_>,
    out: &mut K,
) -> Result<(), Unwritten> {
    match doc.root().pointer(pointer) {
        Some(found) => {
            let part = found.part();
            write_value(alloc, options, &part, out)
        }
        None => Err(Unwritten::Told(format!(in alloc; "no value at {pointer}")?)),
    }
}

/// Writes the value that a JSON Pointer names in the JSON of a value.
fn write_pointed_value<'v, V: Value<'v, Lent<'v>>, K: Sink>(
    alloc: Global,
    options: &Options,
    pointer: &str,
    value: &'v V,
    out: &mut K,
) -> Result<(), Unwritten> {
    let json = json_of(alloc, options, value)?;
    let doc = JsonDoc::read(alloc, json.as_slice())?;
    write_pointed(alloc, options, pointer, &doc, out)
}

/// Writes what is asked for of a value: what the paths leave of it, or the value that a pointer names in its JSON.
pub(crate) fn write_asked<'v, V: Value<'v, Lent<'v>>, K: Sink>(
    alloc: Global,
    options: &Options,
    value: &'v V,
    out: &mut K,
) -> Result<(), Unwritten> {
    let rule = options.rule.unwrap_or(Rule::Drop);
    let left: Captured<'v> = prune(alloc, value, rule, &options.paths)?;
    match &options.pointer {
        Some(pointer) => write_pointed_value(alloc, options, pointer.as_str(), &left, out),
        None => write_value(alloc, options, &left, out),
    }
}
