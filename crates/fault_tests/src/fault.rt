//! Why a check failed.
use ra_ap_intern::{Refusal, Refused};
use std::alloc::{AllocError, AllocFailed};
use std::io;

/// Why a check failed.
#[derive(Clone, Copy)]
pub(crate) enum Fault {
    /// Something was refused for want of memory, and then refused again.
    RefusedTwice,
    /// A call was refused for want of memory, and gave back what it was given.
    NoMemory,
    /// An answer is wrong: this says which.
    Wrong(&'static str),
}

impl Fault {
    /// What is wrong.
    pub(crate) fn text(self) -> &'static str {
        match self {
            Fault::RefusedTwice => "a request for memory was refused twice",
            Fault::NoMemory => "a call was refused twice",
            Fault::Wrong(what) => what,
        }
    }
}

impl From<AllocError> for Fault {
    fn from(_error: AllocError) -> Fault {
        Fault::RefusedTwice
    }
}

impl<T: Drop> From<AllocFailed<T>> for Fault {
    fn from(_error: AllocFailed<T>) -> Fault {
        Fault::RefusedTwice
    }
}

impl From<io::Error> for Fault {
    fn from(_error: io::Error) -> Fault {
        Fault::Wrong("a line could not be written")
    }
}

// Only a call that takes no memory is followed by `?`.
impl From<Refusal> for Fault {
    fn from(_why: Refusal) -> Fault {
        Fault::Wrong("a call that takes no memory was refused")
    }
}

impl<H: Drop> From<Refused<H>> for Fault {
    fn from(refused: Refused<H>) -> Fault {
        Fault::from(refused.why)
    }
}

/// What the refusal of a call that may want memory comes to.
pub(crate) fn refused(why: Refusal, is_back: bool) -> Fault {
    match why {
        Refusal::OutOfMemory if is_back => Fault::NoMemory,
        Refusal::OutOfMemory => Fault::Wrong("a refused call gave back something else"),
        _ => Fault::Wrong("a call was refused, and not for want of memory"),
    }
}

/// Fails with these words where the answer is no.
pub(crate) fn ensure(is_right: bool, wrong: &'static str) -> Result<(), Fault> {
    if is_right {
        Ok(())
    } else {
        Err(Fault::Wrong(wrong))
    }
}
