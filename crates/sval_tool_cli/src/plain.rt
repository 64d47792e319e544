//! The run over inputs of JSON that is written as JSON, laid out or not, or as CBOR. Its theorem is that of
//! `convert_all`.

use crate::inputs::{Out, tell};
use crate::named::{Failure, NamedReader};
use crate::trouble::{Flaw, Trouble, Unwritten, of_document};
use crate::values::not_whole_in;
use crate::words::{Command, Input, Options, Output};
use std::alloc::{AllocError, Global};
use std::cell::Cell;
use std::collections::VecDeque;
use sval_filter::Rule;
use sval_io::{RealSource, Sink, VecSink};
use sval_tool::{
    Conversion, ConvertError, DocumentError, End, Shape, Target, convert_all, write_document,
};

/// What JSON that is read is written as, where that is JSON or CBOR and no pointer names a part of it.
pub(crate) fn plain_target(options: &Options) -> Option<Target> {
    if options.command == Command::Check || options.pointer.is_some() {
        return None;
    }
    match (options.from, options.to) {
        (None | Some(Input::Json), None | Some(Output::Json)) => Some(Target::Json),
        (None | Some(Input::Json), Some(Output::Pretty)) => Some(Target::Pretty),
        (None | Some(Input::Json), Some(Output::Cbor)) => Some(Target::Cbor),
        _ => None,
    }
}

/// The sources of the inputs. No input is opened yet.
fn make_sources<'r>(
    rt: &'r HostRuntime,
    options: &'r Options,
    failed: &'r Cell<Option<Failure>>,
) -> Result<VecDeque<RealSource<NamedReader<'r>>>, AllocError> {
    let mut sources = VecDeque::new(rt.alloc());
    if options.files.is_empty() {
        sources.push_back(RealSource::new(NamedReader::new(rt, "-", options.progress, failed)))?;
    }
    for name in &options.files {
        let reader = NamedReader::new(rt, name.as_str(), options.progress, failed);
        sources.push_back(RealSource::new(reader))?;
    }
    Ok(sources)
}

/// The name of the input that was read last. `left` inputs come behind it.
fn name_before(options: &Options, left: usize) -> &str {
    let index = options.files.len().checked_sub(left.saturating_add(1));
    match index.and_then(|index| options.files.get(index)) {
        Some(name) => name.as_str(),
        None => "-",
    }
}

/// Why what is left of a document isn't written as CBOR: the first number in its JSON that has none.
fn not_whole_left(alloc: Global, conversion: &Conversion<'_>, bytes: &[u8]) -> Unwritten {
    let conversion = Conversion {
        target: Target::Json,
        ..*conversion
    };
    let mut json = VecSink::new(alloc);
    match write_document(alloc, &conversion, bytes, &mut json) {
        Ok(()) => not_whole_in(alloc, json.as_slice()),
        Err(_) => Unwritten::Flaw(Flaw::NotWhole),
    }
}

/// The trouble with a document, or with the line of this number.
fn trouble_with(
    alloc: Global,
    conversion: &Conversion<'_>,
    name: &str,
    bytes: &[u8],
    number: Option<u64>,
    why: DocumentError,
) -> Trouble {
    match why {
        DocumentError::NotInteger => not_whole_left(alloc, conversion, bytes).of(
            alloc, name, number,
        ),
        why => of_document(alloc, why, bytes, name, number),
    }
}

/// The trouble with an input. `bad` has the bytes of a document or of a line that is wrong.
fn trouble_of(
    alloc: Global,
    conversion: &Conversion<'_>,
    name: &str,
    bad: &[u8],
    why: ConvertError,
) -> Trouble {
    match why {
        ConvertError::Unread(why) => Trouble::from(why),
        ConvertError::Document(why) => trouble_with(alloc, conversion, name, bad, None, why),
        ConvertError::Line { number, why } => {
            trouble_with(alloc, conversion, name, bad, Some(number), why)
        }
    }
}

/// Converts the inputs in their order, and tells what is wrong with the first that isn't converted.
pub(crate) fn run_plain(rt: &HostRuntime, options: &Options, target: Target, out: &mut Out) -> End {
    let failed = Cell::new(None);
    let Ok(mut sources) = make_sources(rt, options, &failed) else {
        let _ = eprint!(rt; "sval: out of memory\n");
        return End::Fault;
    };
    let conversion = Conversion {
        rule: options.rule.unwrap_or(Rule::Drop),
        paths: &options.paths,
        target,
    };
    let form = if options.lines {
        Shape::Lines
    } else {
        Shape::Document
    };
    let mut bad = Vec::new(rt.alloc());
    match convert_all(rt.alloc(), &conversion, form, &mut sources, &mut bad, out) {
        Ok(()) => End::Done,
        Err(why) => {
            // What is due of what came before is written first.
            let _ = out.flush();
            let name = name_before(options, sources.len());
            let trouble = trouble_of(rt.alloc(), &conversion, name, &bad, why);
            tell(rt, name, failed.get(), out, trouble, why.end())
        }
    }
}
