//! What is read and written of one input.

use crate::cbor::{check_items, convert_item, convert_items};
use crate::script::{check_script, convert_script};
use crate::trouble::{Trouble, Unwritten, of_document};
use crate::values::{write_asked, write_pointed};
use crate::words::{Input, Options};
use std::alloc::Global;
use sval_io::{Sink, Source};
use sval_json_read::JsonDoc;
use sval_lines::Lines;
use sval_tool::{DocumentError, read_whole};

/// Writes what is due of a document.
fn rewrite<K: Sink>(
    alloc: Global,
    options: &Options,
    doc: &JsonDoc<'_>,
    out: &mut K,
) -> Result<(), Unwritten> {
    match &options.pointer {
        Some(pointer) => write_pointed(alloc, options, pointer.as_str(), doc, out),
        None => write_asked(alloc, options, doc, out),
    }
}

/// Reads a text of JSON, and writes what is due of its document.
fn rewrite_one<K: Sink>(
    alloc: Global,
    options: &Options,
    name: &str,
    bytes: &[u8],
    number: Option<u64>,
    out: &mut K,
) -> Result<(), Trouble> {
    match JsonDoc::read(alloc, bytes) {
        Ok(doc) => rewrite(alloc, options, &doc, out).map_err(|why| why.of(alloc, name, number)),
        Err(error) => Err(of_document(alloc, DocumentError::from(error), bytes, name, number)),
    }
}

/// Reads lines of JSON, and writes each in a form that isn't plain JSON.
fn reform_lines<I: Source + Drop, K: Sink>(
    alloc: Global,
    options: &Options,
    name: &str,
    source: I,
    out: &mut K,
) -> Result<(), Trouble> {
    let mut lines = Lines::new(alloc, source)?;
    for _ in 0..u64::MAX {
        if !lines.next_line()? {
            break;
        }
        let number = lines.number();
        rewrite_one(alloc, options, name, lines.line(), Some(number), out)?;
    }
    Ok(())
}

/// Reads an input that [`convert_all`](sval_tool::convert_all) doesn't convert, and writes what is due of it.
pub(crate) fn convert_input<I: Source + Drop, K: Sink>(
    alloc: Global,
    options: &Options,
    name: &str,
    mut source: I,
    out: &mut K,
) -> Result<(), Trouble> {
    let from = options.from.unwrap_or(Input::Json);
    if options.lines && from == Input::Json {
        return reform_lines(alloc, options, name, source, out);
    }
    let bytes = read_whole(alloc, &mut source)?;
    match from {
        Input::Json => rewrite_one(alloc, options, name, &bytes, None, out),
        Input::Cbor if options.lines => convert_items(alloc, options, name, &bytes, out),
        Input::Cbor => convert_item(alloc, options, name, &bytes, out),
        Input::Script => convert_script(alloc, options, name, &bytes, out),
    }
}

/// Reads lines of JSON, and writes nothing.
fn check_lines<I: Source + Drop>(alloc: Global, name: &str, source: I) -> Result<(), Trouble> {
    let mut lines = Lines::new(alloc, source)?;
    for _ in 0..u64::MAX {
        if !lines.next_line()? {
            break;
        }
        check_text(alloc, name, lines.line(), Some(lines.number()))?;
    }
    Ok(())
}

/// Reads an input, and writes nothing.
pub(crate) fn check_input<I: Source + Drop>(
    alloc: Global,
    options: &Options,
    name: &str,
    mut source: I,
) -> Result<(), Trouble> {
    let from = options.from.unwrap_or(Input::Json);
    if options.lines && from == Input::Json {
        return check_lines(alloc, name, source);
    }
    let bytes = read_whole(alloc, &mut source)?;
    match from {
        Input::Json => check_text(alloc, name, &bytes, None),
        Input::Cbor => check_items(alloc, options, name, &bytes),
        Input::Script => check_script(alloc, options, name, &bytes),
    }
}

/// Reads a text of JSON.
fn check_text(alloc: Global, name: &str, bytes: &[u8], number: Option<u64>) -> Result<(), Trouble> {
    match JsonDoc::read(alloc, bytes) {
        Ok(_) => Ok(()),
        Err(error) => Err(of_document(alloc, DocumentError::from(error), bytes, name, number)),
    }
}
