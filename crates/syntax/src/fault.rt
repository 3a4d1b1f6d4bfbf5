//! Why a version isn't parsed, and why a run gives up.
ghost use Rattle.std.specs.Prelude.{◌≡◌};
ghost use Rattle.std.specs.declared.alloc.AllocError.{AllocError as NoMemory};
ghost use Rattle.syntax.specs.declared.fault.Fault.TheVariants.{OutOfMemory as out_of_memory};

use crate::token::Token;
use ra_ap_intern::Refusal;
use std::alloc::{AllocError, AllocFailed};
use text_run::Place;
use thiserror::Error;

/// Why a run gave up.
#[derive(Clone, Copy, Debug, Error)]
pub enum Fault {
    /// When there was no memory for the tokens of a version or for what is told.
    #[error("out of memory")]
    OutOfMemory(AllocError),
    /// When a storage had no memory for a name or a tree, or was at one of its limits.
    #[error("{}", refused(.0))]
    Refused(#[from] Refusal),
    /// When what is written has more pieces, or has more parts to compare, than is allowed.
    #[error("a changed part is too long to be written")]
    TooLong,
}

/// A token that can't stand where it does, or the end of the tokens within an item, or a word that
/// is no token: the last two without what was found.
#[derive(Clone, Copy)]
pub struct Unexpected {
    pub place: Place,
    /// What could have stood there, in words.
    pub expected: &'static str,
    pub found: Option<Token>,
}

/// Why a version wasn't parsed.
#[derive(Clone, Copy)]
pub enum Stop {
    Unexpected(Unexpected),
    /// When the program has to give up.
    Fault(Fault),
}

impl From<AllocError> for Fault {
    ghost from_gives = { λ error why. why ≡ out_of_memory error };

    fn from(error: AllocError) -> Fault {
        Fault::OutOfMemory(error)
    }
}

impl<Lost: Drop> From<AllocFailed<Lost>> for Fault {
    ghost from_gives = { λ _ why. (error : NoMemory) × (why ≡ out_of_memory error) };

    fn from(failed: AllocFailed<Lost>) -> Fault {
        Fault::from(AllocError::from(failed))
    }
}

impl From<Fault> for Stop {
    ghost use Rattle.syntax.specs.declared.fault.Stop.TheVariants.{Fault as stop_fault};

    ghost from_gives = { λ fault stop. stop ≡ stop_fault fault };

    fn from(fault: Fault) -> Stop {
        Stop::Fault(fault)
    }
}

impl Stop {
    ghost use Rattle.syntax.specs.Parsing.{IsUnexpected};

    /// That something else was expected at a place.
    pub fn unexpected(place: Place, expected: &'static str, found: Option<Token>) -> Stop
        ensures { IsUnexpected result }
    {
        Stop::Unexpected(Unexpected {
            place,
            expected,
            found,
        })
    }

    /// Where it stands in the text. A fault stands before all of it.
    pub fn position(&self) -> Option<(u64, u64)> {
        match self {
            Stop::Fault(_) => None,
            Stop::Unexpected(error) => Some((error.place.line, error.place.column)),
        }
    }
}

fn refused(why: &Refusal) -> &'static str {
    match why {
        Refusal::OutOfMemory => "out of memory",
        _ => "a storage is full",
    }
}
