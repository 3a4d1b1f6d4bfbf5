//! Why a call is refused.
ghost use Rattle.std.specs.Prelude.{◌≡◌};
ghost use Rattle.intern_store.specs.Outcome.{refusal_number};

use std::alloc::{AllocError, AllocFailed};
use std::error::Error as StdError;
use std::fmt;
use thiserror::Error;

/// Why a call was refused. A refused call leaves the storage as it was, but for that of many
/// values, which keeps what it stored before.
///
/// Of a handle or a value the reasons are looked for in this order, and the first that holds is
/// answered. A call on many asks of one after the other.
#[derive(Clone, Copy, Debug, PartialEq, Eq, Error)]
pub enum Refusal {
    /// The handle is of a storage of another number.
    #[error("the handle is of another storage; use it with the one that gave it")]
    Foreign,
    /// The storage has no entry of this birth now.
    #[error("the entry is gone, or was never there; intern its value anew")]
    Gone,
    /// The entry's count is zero, and the call would lower it or take one over.
    #[error("the entry's count is zero already; no owner is left to release")]
    CountZero,
    /// The entry's count is at its limit, and the call would raise it.
    #[error("the entry's count is at its limit; release an owner first")]
    CountFull,
    /// The value isn't stored, and the storage has given all its births.
    #[error("the storage has given all its births; begin another one")]
    NumbersUsedUp,
    /// A growth that the call needs was refused.
    #[error("out of memory; try again once some is free")]
    OutOfMemory,
}

/// A refusal, with what the call consumed.
///
/// `?` turns it into the [`Refusal`] alone, and lets what comes back go: where that is a handle,
/// its count stays. Take `back` out where it is still needed.
#[derive(Debug, Drop, PartialEq, Eq)]
pub struct Refused<H> {
    /// The reason.
    pub why: Refusal,
    /// The value, header or handle that the call was given.
    pub back: H,
}

impl<H> fmt::Display for Refused<H> {
    fn fmt<W: fmt::Write>(&self, f: &mut fmt::Formatter<W>) -> fmt::Result {
        fmt::Display::fmt(&self.why, f)
    }
}

impl<H: fmt::Debug + Drop> StdError for Refused<H> {}

impl<H: Drop> From<Refused<H>> for Refusal {
    ghost from_gives = { λ refused why. why ≡ refused.why };

    fn from(refused: Refused<H>) -> Refusal {
        refused.why
    }
}

// So `?` serves for the storage and for the lists and maps beside it.
impl From<AllocError> for Refusal {
    ghost use Rattle.intern_store.specs.declared.refusal.Refusal.TheVariants.{OutOfMemory};

    ghost from_gives = { λ _ why. why ≡ OutOfMemory };

    fn from(_error: AllocError) -> Refusal {
        Refusal::OutOfMemory
    }
}

impl<Lost: Drop> From<AllocFailed<Lost>> for Refusal {
    ghost use Rattle.intern_store.specs.declared.refusal.Refusal.TheVariants.{OutOfMemory};

    ghost from_gives = { λ _ why. why ≡ OutOfMemory };

    fn from(failed: AllocFailed<Lost>) -> Refusal {
        Refusal::from(AllocError::from(failed))
    }
}

impl Refusal {
    /// The rank of the reason in their order, from 1.
    pub fn number(self) -> u8
        ensures { result ≡ refusal_number self }
    {
        match self {
            Refusal::Foreign => 1,
            Refusal::Gone => 2,
            Refusal::CountZero => 3,
            Refusal::CountFull => 4,
            Refusal::NumbersUsedUp => 5,
            Refusal::OutOfMemory => 6,
        }
    }
}
