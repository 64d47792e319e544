//! Copies of the parts of a captured value.

ghost use Rattle.std.specs.Prelude.{◌≡◌, [], IsOk, IfOk, map};
ghost use Rattle.sval_buffer.specs.SeenStores.{Grows};
ghost use Rattle.sval_buffer.specs.SeenParts.{seen_part, seen_parts, owned_part, IsKept, AllKept};

use crate::named::CallStore;
use crate::part::Part;
use crate::stores::Stores;
use std::alloc::{AllocError, Global};
use sval_core::NoMemory;

/// Copies of parts, which borrow nothing. What they borrowed goes behind what the stores have.
pub(crate) fn owned_parts<'o, N: CallStore>(
    alloc: Global,
    parts: &[Part<'_>],
    stores: &mut Stores<N>,
) -> Result<Vec<Part<'o>>, NoMemory>
    requires { AllKept stores.old parts.now }
    ensures copies { IfOk result (λ copies.
        seen_parts stores.new copies.items ≡ map owned_part (seen_parts stores.old parts.now)) }
    ensures kept { IfOk result (λ copies. AllKept stores.new copies.items) }
    ensures grows { Grows stores.old stores.new }
    ensures no_part_needs_none { parts.now ≡ [] → IsOk result }
{
    if parts.is_empty() {
        return Ok(Vec::new(alloc));
    }
    let mut copies = Vec::with_capacity(alloc, parts.len())?;
    for part in parts {
        copies.push(part.owned(stores)?)?;
    }
    Ok(copies)
}

impl<'sval> Part<'sval> {
    /// A copy, which borrows nothing.
    fn owned<'o, N: CallStore>(&self, stores: &mut Stores<N>) -> Result<Part<'o>, AllocError>
        requires { IsKept stores.old self.now }
        ensures copy { IfOk result (λ copy. seen_part stores.new copy ≡ owned_part (seen_part stores.old self.now)) }
        ensures kept { IfOk result (IsKept stores.new) }
        ensures grows { Grows stores.old stores.new }
    {
        match *self {
            Part::Borrowed {
                medium,
                holder,
                bytes,
            } => {
                let start = stores.len();
                stores.append(bytes)?;
                Ok(Part::Stored {
                    medium,
                    holder,
                    start,
                    end: stores.len(),
                })
            }
            Part::Single { holder, call } => Ok(Part::Single { holder, call }),
            Part::Wide {
                signed,
                holder,
                number,
            } => Ok(Part::Wide {
                signed,
                holder,
                number,
            }),
            Part::Named { holder, at } => Ok(Part::Named { holder, at }),
            Part::Stored {
                medium,
                holder,
                start,
                end,
            } => {
                Ok(Part::Stored {
                    medium,
                    holder,
                    start,
                    end,
                })
            }
            Part::Container {
                begin,
                holder,
                size,
                holds,
            } => {
                Ok(Part::Container {
                    begin,
                    holder,
                    size,
                    holds,
                })
            }
            Part::NamedContainer { holder, at, holds } => {
                Ok(Part::NamedContainer { holder, at, holds })
            }
        }
    }
}
