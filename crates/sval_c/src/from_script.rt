//! Scripts of calls, written as JSON.

ghost use Rattle.sval_c.specs.Due.{JsonOfScriptDue};
ghost use Rattle.sval_c.specs.Lacks.{GivesOrLacks};
ghost use Rattle.sval_c.specs.Reports.{ReportsDue};

use crate::lack::{Lack, of_relay};
use crate::report::{Report, answer};
use std::alloc::Global;
use sval_io::VecSink;
use sval_relay::{Way, relay};

/// The JSON of the value that a script spells.
fn to_json(alloc: Global, script: &[u8]) -> Result<Vec<u8>, Lack>
    ensures { GivesOrLacks (JsonOfScriptDue script.now) result (λ bytes. bytes.items) }
{
    let mut sink = VecSink::new(alloc);
    match relay(alloc, script, Way::Direct, &mut sink) {
        Ok(()) => Ok(sink.into_vec()),
        Err(error) => Err(of_relay(error)),
    }
}

/// Writes the JSON of the one value that the calls of a script spell, without white space.
///
/// It answers status 0, 3, 4, 5, 6, 7, 8 or 10.
#[unsafe(no_mangle)]
pub extern "C" fn sval_script_to_json(alloc: Global, script: &[u8], out: &mut [u8]) -> Report
    ensures { ReportsDue (JsonOfScriptDue script.now) result out.old out.new }
{
    answer(to_json(alloc, script), out)
}
