//! Why a check failed.
use ra_ap_intern::{Owed, OwedSymbol, Owned, Refusal, Refused, Symbol};
use std::alloc::{AllocError, AllocFailed};
use std::io;

/// Why a check failed. The last mark says which call it was.
#[derive(Clone, Copy)]
pub(crate) enum Fault {
    /// What prepares a call was refused twice for want of memory.
    NoMemory,
    /// A call was refused that is allowed.
    Refused,
    /// A call wasn't refused, or for another reason.
    NotRefused,
    /// A call answered something else.
    Wrong,
    /// A line could not be written.
    Unwritten,
}

impl Fault {
    /// What is wrong.
    pub(crate) fn text(self) -> &'static str {
        match self {
            Fault::NoMemory => "a request for memory was refused twice",
            Fault::Refused => "a call was refused that is allowed",
            Fault::NotRefused => "a call was not refused, or for another reason",
            Fault::Wrong => "a call answered something else",
            Fault::Unwritten => "a line could not be written",
        }
    }
}

impl From<AllocError> for Fault {
    fn from(_error: AllocError) -> Fault {
        Fault::NoMemory
    }
}

impl<T: Drop> From<AllocFailed<T>> for Fault {
    fn from(_error: AllocFailed<T>) -> Fault {
        Fault::NoMemory
    }
}

impl From<io::Error> for Fault {
    fn from(_error: io::Error) -> Fault {
        Fault::Unwritten
    }
}

impl From<Refusal> for Fault {
    fn from(_why: Refusal) -> Fault {
        Fault::Refused
    }
}

impl<H: Drop> From<Refused<H>> for Fault {
    fn from(_refused: Refused<H>) -> Fault {
        Fault::Refused
    }
}

/// Fails unless an answer is right.
pub(crate) fn ensure(is_right: bool) -> Result<(), Fault> {
    if is_right { Ok(()) } else { Err(Fault::Wrong) }
}

/// Fails unless a call was refused for this reason.
pub(crate) fn is_refused<A: Drop>(answer: Result<A, Refusal>, why: Refusal) -> Result<(), Fault> {
    match answer {
        Err(told) if told == why => Ok(()),
        _ => Err(Fault::NotRefused),
    }
}

/// The same of a call that consumed something, which is given back.
pub(crate) fn gives_back<A: Drop, H: Drop>(
    answer: Result<A, Refused<H>>,
    why: Refusal,
) -> Result<H, Fault> {
    match answer {
        Ok(_answer) => Err(Fault::NotRefused),
        Err(Refused { why: told, back }) => {
            if told == why {
                Ok(back)
            } else {
                Err(Fault::NotRefused)
            }
        }
    }
}

/// What a release answered. A handle that it gives back goes on as one that may be dropped.
pub(crate) fn of_owed<A, K>(answer: Result<A, Refused<Owed<K>>>) -> Result<A, Refused<Owned<K>>> {
    match answer {
        Ok(released) => Ok(released),
        Err(Refused { why, back }) => Err(Refused {
            why,
            back: back.into_owned(),
        }),
    }
}

/// The same of a symbol.
pub(crate) fn of_owed_symbol(
    answer: Result<(), Refused<OwedSymbol>>,
) -> Result<(), Refused<Symbol>> {
    answer.map_err(|refused| Refused {
        why: refused.why,
        back: refused.back.into_symbol(),
    })
}
