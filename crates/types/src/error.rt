//! Why a declaration has no type.
ghost use Rattle.std.specs.Prelude.{◌≡◌};
ghost use Rattle.std.specs.declared.alloc.AllocError.{AllocError as NoMemory};
ghost use Rattle.types.specs.declared.error.TypeError.TheVariants.{OutOfMemory as out_of_memory};

use crate::value::TypeRef;
use ra_ap_intern::{Refusal, SymbolRef};
use std::alloc::{AllocError, AllocFailed};
use text_run::Place;
use thiserror::Error;

/// Why a declaration has no type.
#[derive(Clone, Copy, Debug, Error)]
pub enum TypeError {
    /// When a word can't stand where it does: what can.
    #[error("expected {0}")]
    Expected(&'static str),
    /// When what was begun doesn't end: the word that ends it.
    #[error("expected an operator or {0}")]
    Unended(&'static str),
    /// When a name is bound neither in the declaration nor by an earlier one.
    #[error("unbound name")]
    Unbound(SymbolRef),
    /// When two types have to be equal that have no common instance.
    #[error("can't unify")]
    Clash(TypeRef, TypeRef),
    /// When the first type, which isn't known, would be a part of the second, which it is equal to.
    #[error("infinite type")]
    Infinite(TypeRef, TypeRef),
    /// When the copy of a type takes more than 10,000,000 steps; or when an unknown type was never
    /// added, or is known to be itself for ever, as inference makes none.
    #[error("too large a type")]
    TooLarge,
    /// When the steps are those of no expression, as the parser makes none.
    #[error("no expression")]
    NoOperand,
    /// When there was no memory beside the stores of names and of types.
    #[error("out of memory")]
    OutOfMemory(AllocError),
    /// When a store refused a name or a type.
    #[error("out of memory")]
    Refused(#[from] Refusal),
}

/// What is answered, or why a declaration has no type.
pub type Result<T, E = TypeError> = std::result::Result<T, E>;

/// Why a declaration has no type, and where.
#[derive(Clone, Copy)]
pub struct Failure {
    pub place: Place,
    pub error: TypeError,
}

impl From<AllocError> for TypeError {
    ghost from_gives = { λ error why. why ≡ out_of_memory error };

    fn from(error: AllocError) -> TypeError {
        TypeError::OutOfMemory(error)
    }
}

impl<Lost: Drop> From<AllocFailed<Lost>> for TypeError {
    ghost from_gives = { λ _ why. (error : NoMemory) × (why ≡ out_of_memory error) };

    fn from(failed: AllocFailed<Lost>) -> TypeError {
        TypeError::from(AllocError::from(failed))
    }
}
