//! The log.

ghost use Rattle.std.specs.Prelude.{◌≡◌, ◌==◌, [], length, IfOk, IfErr, OnOk, OnErr, IsOkUnless};
ghost use Rattle.sval_io.specs.Sinks.{WritesAll};
ghost use Rattle.sval_buffer.specs.Capture.{IsNoAlloc};
ghost use Rattle.event_log.specs.Events.{HasJson, IsRecordCause};
ghost use Rattle.event_log.specs.Logs.{empty_log, AreLines, lines_of, KeepsEvent};

use crate::checking::{RecordError, check_event};
use crate::lines::write_lines;
use circular_buffer::HeapCircularBuffer;
use std::alloc::{AllocError, Global};
use std::marker::Model;
use sval_buffer::{AnyValue, CallStore, Error, ErrorKind, NamedCalls};
use sval_core::{Lent, Value};
use sval_io::{Sink, SinkError};

/// The latest events, as many as its capacity. Each is captured when it comes, by copies of its texts, so that the log
/// borrows nothing.
///
/// ```
/// let mut log: EventLog<'_> = EventLog::new(alloc, 100)?;
/// log.record(&event)?;
/// log.write_lines(&mut sink)?;
/// ```
pub type EventLog<'o> = AnyEventLog<'o, NamedCalls>;

/// A log, for any store `N` of the calls with names. Most code says [`EventLog`].
#[derive(Drop)]
pub struct AnyEventLog<'o, N: CallStore + 'o> {
    ring: HeapCircularBuffer<AnyValue<'o, N>>,
    alloc: Global,
}

impl<'o, N: CallStore + 'o> Model for AnyEventLog<'o, N> {
    ghost use Rattle.event_log.specs.Logs.{Log, AreLines};

    ghost Value = { Log };

    ghost view = { λ log. record { events = log.ring.items; capacity = log.ring.capacity } };

    ghost invariant = { λ log. AreLines log.ring.items };
}

/// What is told where a value that has a JSON isn't captured, which is for want of memory alone.
fn want_of(error: &Error) -> RecordError
    requires { IsNoAlloc error.now }
    ensures { result ≡ RecordError.NoMemory }
{
    match error.kind() {
        ErrorKind::NoAlloc { .. } => RecordError::NoMemory,
        _ => unreachable!("a value that has a JSON is captured, unless memory is wanting"),
    }
}

impl<'o, N: CallStore + 'o> AnyEventLog<'o, N> {
    /// A log of no events, with room for `capacity` events. It takes the memory for their places at once.
    pub fn new(alloc: Global, capacity: usize) -> Result<Self, AllocError>
        ensures { IfOk result (λ log. log ≡ empty_log capacity) }
    {
        let ring = HeapCircularBuffer::with_capacity(alloc, capacity)?;
        Ok(AnyEventLog { ring, alloc })
    }

    /// Records an event: a value that is one whole value and has a JSON. A full log gives up its oldest event for it.
    ///
    /// The event is checked, its JSON is written to a sink that only counts, and then it is captured. After an error
    /// the log is as it was.
    ///
    /// # Errors
    ///
    /// [`RecordError::NotOneValue`] comes only where the value refuses, or its calls are not one whole value.
    /// [`RecordError::NoJson`] comes only where a key or a number in it can't be one. [`RecordError::NoMemory`] comes
    /// where memory was wanting to check the calls, or to keep an event that has a JSON.
    pub fn record<'v, V: Value<'v, Lent<'v>>>(&mut self, event: &'v V) -> Result<(), RecordError>
    where
        N: 'v,
        ensures kept { OnOk result (KeepsEvent (V.emission event.now) self.old self.new) }
        ensures cause { IfErr result (λ why. IsRecordCause why (V.emission event.now)) }
        ensures comes { HasJson (V.emission event.now) → IsOkUnless result RecordError.NoMemory }
        ensures same { OnErr result (self.new ≡ self.old) }
    {
        check_event(self.alloc, event)?;
        let captured: Result<AnyValue<'o, N>, Error> = AnyValue::collect_owned(self.alloc, event);
        match captured {
            Ok(captured) => {
                self.ring.push_back(captured);
                Ok(())
            }
            Err(error) => Err(want_of(&error)),
        }
    }

    /// How many events it holds.
    pub fn len(&self) -> usize
        ensures { result ≡ length self.now.events }
    {
        self.ring.len()
    }

    /// Whether it holds no event.
    pub fn is_empty(&self) -> bool
        ensures { result ≡ (length self.now.events == 0) }
    {
        self.ring.is_empty()
    }
}

impl<'o> EventLog<'o> {
    /// Forgets all events.
    pub fn clear(&mut self)
        ensures { self.new ≡ empty_log self.old.capacity }
    {
        self.ring.clear();
    }

    /// Writes a line for each event, the oldest first: its JSON, which is the text of the tree that the event's calls
    /// spelled, and a line feed. The log stays as it is. It doesn't flush the sink.
    ///
    /// It answers as [`write_all`](sval_io::write_all) of all the lines does, and takes no memory itself.
    ///
    /// # Errors
    ///
    /// [`SinkError::Failed`] comes only where the sink's count of faults rose, and never where the sink tells room for
    /// all the lines. [`SinkError::NoMemory`] comes only where its count of wants rose. After either a first part of
    /// the lines was taken.
    pub fn write_lines<K: Sink>(&self, sink: &mut K) -> Result<(), SinkError>
        ensures lines { AreLines self.now.events }
        ensures writes { WritesAll result (K.told sink.old) (lines_of self.now.events) (K.told sink.new) }
    {
        let (older, newer) = self.ring.as_slices();
        write_lines(sink, older)?;
        write_lines(sink, newer)
    }
}
