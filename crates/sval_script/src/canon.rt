//! Values printed canonically.

ghost use Rattle.sval_label.specs.Grouped.{grouped_call};
ghost use Rattle.sval_label.specs.Made.{lent_call};
ghost use Rattle.sval_core.specs.Law.{Answers, Through};
ghost use Rattle.sval_script.specs.Printed.{canonical_call};
ghost use Rattle.sval_script.specs.Printing.{Printing};
ghost use Rattle.sval_script.specs.CanonPrinting.{PrintsShown, canon_law, canon_standing};
ghost use Rattle.sval_script.specs.Canon.{as_canonical};
ghost use Rattle.sval_script.specs.PrintedValues.{PrintsValue};

use crate::print_error::PrintError;
use crate::printer::print_call;
use sval_core::{Call, Error, Fragment, GroupedCall, Lent, Stream};
use sval_io::Sink;
use sval_ref::ValueRef;

/// Prints the canonical calls of those that it takes, each as its line.
#[derive(Drop)]
pub(crate) struct CanonPrinter<'k, K: Sink> {
    out: &'k mut K,
    /// The cause of the last refusal.
    why: Option<PrintError>,
}

/// Prints a call as a canonical script shows it, if it does.
fn print_shown<K: Sink>(sink: &mut K, call: GroupedCall<'_, &str, &[u8]>) -> Result<(), PrintError>
    ensures { let said = grouped_call (λ text. text.now) (λ bytes. bytes.now) call.entry in
        PrintsShown result (K.told sink.old) (canonical_call said) (K.told sink.new) }
{
    match call {
        GroupedCall::TagHint(_) => Ok(()),
        GroupedCall::Begin(head, _) => print_call(sink, GroupedCall::Begin(head, None)),
        GroupedCall::TextFragment(Fragment::Computed(text)) => {
            print_call(sink, GroupedCall::TextFragment(Fragment::Borrowed(text)))
        }
        GroupedCall::BinaryFragment(Fragment::Computed(bytes)) => {
            print_call(sink, GroupedCall::BinaryFragment(Fragment::Borrowed(bytes)))
        }
        _ => print_call(sink, call),
    }
}

impl<'v, 'k, K: Sink> Stream<Lent<'v>> for CanonPrinter<'k, K> {
    ghost View = { Through Printing };

    ghost law = { canon_law };

    ghost standing = { canon_standing K.told };

    fn take(&mut self, call: Call<'v, '_>) -> sval_core::Result
        ensures { Answers canon_law result
            (canon_standing K.told self.old) (lent_call call.entry) (canon_standing K.told self.new) }
    {
        match print_shown(self.out, call.grouped()) {
            Ok(()) => Ok(()),
            Err(why) => {
                self.why = Some(why);
                Err(Error::new())
            }
        }
    }
}

/// Prints a value's calls as a canonical script shows them: no hint, `-` for the size of each container, and each
/// fragment as `text_fragment` or `binary_fragment`, also a computed one. All else is printed as the call has it.
///
/// For a captured value whose calls spell a tree that is the tree's canonical script: [`laws`](crate::laws) say so of
/// all calls whose texts come whole and whose ends have the names of their begins.
///
/// ```
/// let value = ValueBuf::collect(alloc, &[-7i32])?;
/// let mut sink = VecSink::new(alloc);
/// print_canon(&value, &mut sink)?;
/// assert_eq!(rt; sink.as_slice(), b"seq_begin -\nseq_value_begin\ni32 -7\nseq_value_end\nseq_end\n".as_slice());
/// ```
///
/// # Errors
///
/// [`PrintError::UnknownTag`] comes where a call that is no hint has a tag outside the ten names of scripts, after the
/// lines of all calls before it. [`PrintError::Refused`] comes where the value itself refuses, after the lines of all
/// its calls. Either always comes where it is so, unless a count of the sink rose.
///
/// [`PrintError::Write`] comes only where the sink's count of faults rose, and never where the sink tells room for all
/// lines. [`PrintError::NoMemory`] comes only where its count of wants rose. After either the sink took a first part of
/// the lines, and not all. No count ever falls. This call takes no memory itself, and doesn't flush the sink.
pub fn print_canon<'sval, V: ValueRef<Lent<'sval>>, K: Sink>(
    value: &V,
    out: &mut K,
) -> Result<(), PrintError>
    ensures { PrintsValue (as_canonical (V.ref_emission value.now)) result (K.told out.old) (K.told out.new) }
{
    let mut printer = CanonPrinter { out, why: None };
    let printed = value.stream_ref(&mut printer);
    let why = printer.why;
    match printed {
        Ok(()) => Ok(()),
        Err(_) => Err(why.unwrap_or(PrintError::Refused)),
    }
}
