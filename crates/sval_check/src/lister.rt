//! A stream that checks calls for many trees in a row.

ghost use Rattle.std.specs.Prelude.{◌≡◌, [], is_none, None};
ghost use Rattle.sval_label.specs.Made.{call_of};
ghost use Rattle.sval_core.specs.Law.{Answers};
ghost use Rattle.sval_core.specs.Stacks.{top_of};
ghost use Rattle.sval_check.specs.Checking.{stop_by};
ghost use Rattle.sval_check.specs.Listing.{Listed, lister_view, listing_law, listed_standing, nothing_listed};

use crate::checker::Checker;
use crate::ends::Ends;
use crate::error::CheckError;
use crate::machine::Refusal;
use std::alloc::Global;
use sval_core::{AnyCall, Error, Lending, Stream};

/// Takes the calls that can be completed to a list of values, and keeps where each value ends.
///
/// After a refusal it takes no call.
#[derive(Drop)]
pub(crate) struct Lister {
    /// A whole value outside all open frames is done with.
    checker: Checker,
    ends: Ends,
}

impl Lister {
    /// One that has taken no call, and no memory yet.
    pub(crate) fn new(alloc: Global) -> Self
        ensures { lister_view result ≡ nothing_listed }
    {
        Lister {
            checker: Checker::new(alloc),
            ends: Ends::new(alloc),
        }
    }

    /// Nothing is open.
    pub(crate) fn is_closed(&self) -> bool
        ensures { result ≡ is_none (top_of self.now.checker.machine.frames) }
    {
        self.checker.machine.is_closed()
    }

    /// Where the values ended.
    pub(crate) fn into_ends(self) -> Ends
        ensures { result ≡ self.ends }
    {
        self.ends
    }

    /// Why not all calls were taken, or that the value itself refused where they were.
    pub(crate) fn cause(&self) -> CheckError
        ensures { result ≡ stop_by self.now.checker.why self.now.checker.taken }
    {
        self.checker.cause()
    }
}

impl<L: Lending> Stream<L> for Lister {
    ghost View = { Listed };

    ghost law = { listing_law };

    ghost standing = { λ lister. listed_standing (lister_view lister) };

    #[inline(always)]
    fn take(&mut self, call: AnyCall<'_, L::Text, L::Bytes>) -> sval_core::Result
        ensures { Answers listing_law result (listed_standing (lister_view self.old))
            (call_of L.text L.bytes call.entry) (listed_standing (lister_view self.new)) }
    {
        Stream::<L>::take(&mut self.checker, call)?;
        if self.checker.machine.is_whole() {
            if let Err(cause) = self.ends.push(self.checker.taken) {
                self.checker.why = Some(Refusal::from(cause));
                return Err(Error::new());
            }
            self.checker.machine.clear();
        }
        Ok(())
    }
}
