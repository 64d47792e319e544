//! The calls of a captured value in a row, for those who look at it while they debug.

ghost use Rattle.sval_label.specs.Made.{lent_call};
ghost use Rattle.sval_core.specs.Law.{Answers};
ghost use Rattle.sval_core.specs.Lenient.{lenient, with_wants};

use crate::named::CallStore;
use crate::parts::Parts;
use std::fmt;
use sval_core::{Call, Lent, Stream};

/// Lists each call that it takes.
#[derive(Drop)]
struct Listed<'f, W> {
    list: fmt::DebugList<'f, W>,
}

impl<'f, 'sval, W: fmt::Write> Stream<Lent<'sval>> for Listed<'f, W> {
    ghost View = { Unit {0} };

    ghost law = { lenient };

    ghost standing = { λ _. with_wants 0 };

    fn take(&mut self, call: Call<'sval, '_>) -> sval_core::Result
        ensures { let taken = lent_call call.entry in
            Answers lenient result (with_wants 0) taken (with_wants 0) }
    {
        self.list.entry(&call);
        Ok(())
    }
}

impl<'sval, N: CallStore> fmt::Debug for Parts<'sval, N> {
    fn fmt<W: fmt::Write>(&self, f: &mut fmt::Formatter<W>) -> fmt::Result {
        let mut listed = Listed {
            list: f.debug_list(),
        };
        match self.replay(&mut listed) {
            Ok(()) => listed.list.finish(),
            Err(_) => Err(fmt::Error),
        }
    }
}
