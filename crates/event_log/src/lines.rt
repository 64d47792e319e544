//! The lines of events.

ghost use Rattle.sval_io.specs.Sinks.{WritesAll};
ghost use Rattle.sval_json.specs.Steps.{written};
ghost use Rattle.event_log.specs.Logs.{HasLine, AreLines, event_calls, event_line, lines_of};

use sval_buffer::Value;
use sval_io::{Sink, SinkError, write_all};
use sval_json::{ErrorKind, stream_to_io_write};

/// Writes the JSON of an event.
fn write_json<K: Sink>(sink: &mut K, event: &Value<'_>) -> Result<(), SinkError>
    requires { HasLine event.now }
    ensures { let json = (written (event_calls event.now)).written in
        WritesAll result (K.told sink.old) json (K.told sink.new) }
{
    match stream_to_io_write(sink, event) {
        Ok(()) => Ok(()),
        Err(error) => match error.kind() {
            ErrorKind::IO => Err(SinkError::Failed),
            ErrorKind::NoMemory => Err(SinkError::NoMemory),
            ErrorKind::Generic => unreachable!("a captured value doesn't refuse"),
            ErrorKind::InvalidKey | ErrorKind::InvalidNumber => unreachable!("an event has a JSON"),
        },
    }
}

/// Writes the line of an event.
fn write_line<K: Sink>(sink: &mut K, event: &Value<'_>) -> Result<(), SinkError>
    requires { HasLine event.now }
    ensures { WritesAll result (K.told sink.old) (event_line event.now) (K.told sink.new) }
{
    write_json(sink, event)?;
    write_all(sink, b"\n")
}

/// Writes the lines of events.
pub(crate) fn write_lines<K: Sink>(sink: &mut K, events: &[Value<'_>]) -> Result<(), SinkError>
    requires { AreLines events.now }
    ensures { WritesAll result (K.told sink.old) (lines_of events.now) (K.told sink.new) }
{
    for event in events {
        write_line(sink, event)?;
    }
    Ok(())
}
