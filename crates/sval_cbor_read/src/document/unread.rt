//! Why bytes can't be read.

ghost use Rattle.sval_cbor_read.specs.ReadErrors.{IsCborReadError, IsCborFrontError};
ghost use Rattle.sval_cbor_read.specs.SeenUnread.{IsUnread};

use super::CborReadError;
use crate::well_formed::well_formed_end;
use std::alloc::Global;
use sval_core::NoMemory;

/// Why no item was read from the front of bytes.
#[derive(Clone, Copy)]
pub(crate) enum Unread {
    /// None begins them, and the reader stopped at this place.
    At(usize),
    /// There was no memory for what is kept of them.
    NoMemory,
}

impl From<NoMemory> for Unread {
    ghost use Rattle.std.specs.Prelude.{◌≡◌};
    ghost use Rattle.sval_cbor_read.specs.declared.document.unread.Unread.TheVariants as unread;

    ghost from_gives = { λ _ why. why ≡ unread.NoMemory };

    fn from(_cause: NoMemory) -> Unread {
        Unread::NoMemory
    }
}

/// The error of bytes that are not one item, whole and with nothing behind it.
#[cold]
pub(crate) fn whole_error(alloc: Global, bytes: &[u8], why: Unread) -> CborReadError
    requires { IsUnread bytes.now why }
    ensures { IsCborReadError bytes.now result }
{
    let at = match why {
        Unread::At(at) => at as u64,
        Unread::NoMemory => return CborReadError::NoMemory,
    };
    match well_formed_end(alloc, bytes) {
        Ok(Some(end)) => if end < bytes.len() {
            CborReadError::Malformed { at }
        } else {
            CborReadError::Unsupported { at }
        },
        Ok(None) => CborReadError::Malformed { at },
        Err(cause) => CborReadError::from(cause),
    }
}

/// The error of bytes that no item begins.
#[cold]
pub(crate) fn front_error(alloc: Global, bytes: &[u8], why: Unread) -> CborReadError
    requires { IsUnread bytes.now why }
    ensures { IsCborFrontError bytes.now result }
{
    let at = match why {
        Unread::At(at) => at as u64,
        Unread::NoMemory => return CborReadError::NoMemory,
    };
    match well_formed_end(alloc, bytes) {
        Ok(Some(_)) => CborReadError::Unsupported { at },
        Ok(None) => CborReadError::Malformed { at },
        Err(cause) => CborReadError::from(cause),
    }
}
