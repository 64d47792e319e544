//! What a stream that collects keeps of its refusals.

ghost use Rattle.std.specs.Prelude.{◌≡◌, ◌≤◌, None, Some};
ghost use Rattle.sval_buffer.specs.Capture.{wants_after_error};
ghost use Rattle.sval_buffer.specs.CapturedValues.{cause_by};

use crate::error::{Error, ErrorKind, Word};

/// Why a call was refused last, and how often memory was wanting.
#[derive(Drop)]
pub(crate) struct Refusals {
    pub(crate) last: Option<ErrorKind>,
    pub(crate) wants: u64,
}

impl Refusals {
    /// No call was refused.
    pub(crate) fn none() -> Refusals
        ensures { result ≡ record { last = None; wants = 0 } }
    {
        Refusals {
            last: None,
            wants: 0,
        }
    }

    /// Keeps why a call was refused.
    pub(crate) fn keep(&mut self, why: ErrorKind)
        ensures kept { self.new ≡ record { last = Some why; wants = wants_after_error why self.old.wants } }
        ensures rises { self.old.wants ≤ self.new.wants }
    {
        if let ErrorKind::NoAlloc { .. } = why {
            self.wants = self.wants.saturating_add(1);
        }
        self.last = Some(why);
    }

    /// Why a value wasn't collected: a refused call, or else the value itself.
    pub(crate) fn cause(self) -> Error
        ensures { result ≡ cause_by self.last }
    {
        match self.last {
            Some(kind) => Error::new(kind),
            None => Error::new(ErrorKind::InvalidValue {
                reason: Word::FailedToStream,
            }),
        }
    }
}
