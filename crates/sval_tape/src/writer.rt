//! A stream that writes calls as a tape.

ghost use Rattle.std.specs.Prelude.{◌≡◌, None};
ghost use Rattle.sval_label.specs.Made.{lent_call};
ghost use Rattle.sval_label.specs.Grouped.{grouped_call};
ghost use Rattle.sval_core.specs.Law.{Answers};
ghost use Rattle.sval_io.specs.Sinks.{WritesAll};
ghost use Rattle.sval_tape.specs.Tapes.{call_bytes};
ghost use Rattle.sval_tape.specs.Taping.{Taping, tape_error, tape_writer_law, tape_writer_standing, tape_sink};

use crate::operands::write_call;
use sval_core::{Call, Error, Lent, Stream};
use sval_io::{Sink, SinkError};

/// A stream that writes each call to a sink, as its bytes on a tape.
#[derive(Drop)]
pub struct TapeWriter<K> {
    out: K,
    /// The cause of the last refusal.
    why: Option<SinkError>,
}

impl<K: Sink> TapeWriter<K> {
    /// A writer to a sink, which has refused no call yet.
    pub fn new(out: K) -> Self
        ensures sink { tape_sink result ≡ out }
        ensures why { tape_error result ≡ None }
    {
        TapeWriter { out, why: None }
    }

    /// The cause of the last refusal. A call that is taken leaves it.
    pub fn why(&self) -> Option<SinkError>
        ensures { result ≡ tape_error self.now }
    {
        self.why
    }

    /// The sink, with what was written.
    pub fn into_inner(self) -> K
        ensures { result ≡ tape_sink self }
    {
        self.out
    }
}

impl<'v, K: Sink> Stream<Lent<'v>> for TapeWriter<K> {
    ghost View = { Taping };

    ghost law = { tape_writer_law };

    ghost standing = { tape_writer_standing K.told };

    fn take(&mut self, call: Call<'v, '_>) -> sval_core::Result
        ensures { Answers tape_writer_law result
            (tape_writer_standing K.told self.old) (lent_call call.entry) (tape_writer_standing K.told self.new) }
    {
        match write_call(&mut self.out, call.grouped()) {
            Ok(()) => Ok(()),
            Err(why) => {
                self.why = Some(why);
                Err(Error::new())
            }
        }
    }
}
