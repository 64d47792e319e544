//! Texts of JSON, without the members that paths name, or with no others.

ghost use Rattle.sval_c.specs.Lacks.{GivesOrLacks};
ghost use Rattle.sval_c.specs.OfFilters.{ReadsPaths, FilteredTextDue, FilteredBy, LeftOf};
ghost use Rattle.sval_c.specs.Due.{OfText};
ghost use Rattle.sval_c.specs.Reports.{ReportsDue};

use crate::fault::Fault;
use crate::lack::{Lack, of_document, of_path};
use crate::report::{Report, answer};
use std::alloc::Global;
use sval_filter::{Paths, Rule};
use sval_io::VecSink;
use sval_tool::{Conversion, Target, write_document};

/// The paths of the lines of a text.
fn paths_of_lines(alloc: Global, text: &str) -> Result<Paths, Lack>
    ensures { ReadsPaths text.now result (λ paths. paths) }
{
    let mut paths = Paths::new(alloc);
    let mut line = 0u64;
    for word in text.lines() {
        line = line.saturating_add(1);
        match paths.push_word(word) {
            Ok(()) => (),
            Err(error) => return Err(of_path(line, error)),
        }
    }
    Ok(paths)
}

/// The paths of a text, a path a line.
fn read_paths(alloc: Global, text: &[u8]) -> Result<Paths, Lack>
    ensures { ReadsPaths text.now result (λ paths. paths) }
{
    match std::str::from_utf8(text) {
        Ok(text) => paths_of_lines(alloc, text),
        Err(_) => Err(Lack::Fault(Fault::BadPath { line: 0 })),
    }
}

/// The JSON of what the rule and the paths leave of a text's value.
fn left_of(alloc: Global, input: &[u8], rule: Rule, paths: &Paths) -> Result<Vec<u8>, Lack>
    ensures { GivesOrLacks (OfText (LeftOf rule paths.now) input.now) result (λ json. json.items) }
{
    let conversion = Conversion {
        rule,
        paths,
        target: Target::Json,
    };
    let mut sink = VecSink::new(alloc);
    match write_document(alloc, &conversion, input, &mut sink) {
        Ok(()) => Ok(sink.into_vec()),
        Err(error) => Err(of_document(error)),
    }
}

/// The JSON of what the rule and the paths of a text leave of the input's value.
fn filtered(alloc: Global, input: &[u8], rule: Rule, paths: &[u8]) -> Result<Vec<u8>, Lack>
    ensures { GivesOrLacks (FilteredBy rule input.now paths.now) result (λ json. json.items) }
{
    match read_paths(alloc, paths) {
        Ok(paths) => left_of(alloc, input, rule, &paths),
        Err(lack) => Err(lack),
    }
}

/// What is left of a document by the rule of this number: 0 drops what the paths name, and 1 keeps it alone.
fn by_number(alloc: Global, input: &[u8], rule: u32, paths: &[u8]) -> Result<Vec<u8>, Lack>
    ensures { GivesOrLacks (FilteredTextDue rule input.now paths.now) result (λ json. json.items) }
{
    match rule {
        0 => filtered(alloc, input, Rule::Drop, paths),
        1 => filtered(alloc, input, Rule::Keep, paths),
        _ => Err(Lack::Fault(Fault::BadChoice)),
    }
}

/// Writes the JSON of what a rule and paths leave of the value that a text of JSON (RFC 8259) denotes, without white
/// space. The number `-0` is written as `0`.
///
/// `rule` is 0 to leave out the members that the paths name, and 1 to keep them and no others. `paths` is UTF-8, a path
/// a line, and empty for no path. A path is labels with dots between them: `user.password` names the member `password`
/// of the member `user`, also within arrays. A line ends with a line feed, with or without a carriage return before it;
/// the last line may lack it.
///
/// It answers status 0, 8, 10, 12, 13, 19 or 20. Status 19 comes only for another `rule`, and with
/// that number no other comes but 10. The paths are read before the input.
#[unsafe(no_mangle)]
pub extern "C" fn sval_json_filter(
    alloc: Global,
    input: &[u8],
    rule: u32,
    paths: &[u8],
    out: &mut [u8],
) -> Report
    ensures { ReportsDue (FilteredTextDue rule input.now paths.now) result out.old out.new }
{
    answer(by_number(alloc, input, rule, paths), out)
}
