//! Why a check failed.
use ra_ap_intern::{Refusal, Refused};
use std::alloc::{AllocError, AllocFailed};
use std::io;

/// What is wrong.
#[derive(Clone, Copy)]
pub(crate) struct Fault(pub(crate) &'static str);

impl From<AllocError> for Fault {
    fn from(_error: AllocError) -> Fault {
        Fault("a request for memory was refused twice")
    }
}

impl<T: Drop> From<AllocFailed<T>> for Fault {
    fn from(_error: AllocFailed<T>) -> Fault {
        Fault("a request for memory was refused twice")
    }
}

impl From<io::Error> for Fault {
    fn from(_error: io::Error) -> Fault {
        Fault("a line could not be written")
    }
}

impl From<Refusal> for Fault {
    fn from(_why: Refusal) -> Fault {
        Fault("a call was refused that has to succeed")
    }
}

impl<H: Drop> From<Refused<H>> for Fault {
    fn from(refused: Refused<H>) -> Fault {
        Fault::from(refused.why)
    }
}

/// Fails with these words where the answer is no.
pub(crate) fn ensure(is_right: bool, wrong: &'static str) -> Result<(), Fault> {
    if is_right { Ok(()) } else { Err(Fault(wrong)) }
}
